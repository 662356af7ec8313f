//! The limits of a document.

/// The most classes, listed classes and classes that may be made together.
pub const MAX_CLASSES: usize = 1024;

/// The most categories.
pub const MAX_CATEGORIES: usize = 1024;

/// The most objects.
pub const MAX_OBJECTS: usize = 4096;

/// The most implementations.
pub const MAX_IMPS: usize = 4096;

/// The most items.
pub const MAX_ITEMS: usize = 65_536;

/// The most method entries of classes and categories together.
pub const MAX_ENTRIES: usize = 16_384;

/// The greatest depth of a body.
pub const MAX_DEPTH: u32 = 32;

/// The most expressions of a body.
pub const MAX_EXPRESSIONS: u32 = 256;
