//! The parts that a document may have.

/// The version whose form a document has. A document of a version other than 2 and 3 has the form
/// of the first.
#[derive(Clone, Copy, Debug, PartialEq, Eq)]
pub enum Edition {
    First,
    Second,
    Third,
}

/// The kind of thing that a name names.
#[derive(Clone, Copy, Debug, PartialEq, Eq)]
pub enum Naming {
    /// A class that gets the name, listed or made.
    NewClass,
    NewObject,
    NewImp,
    /// A class that has to be listed.
    Listed,
    /// A class, listed or made.
    Class,
    Object,
    Imp,
}

/// A part of a document, by its row in the format's table.
#[derive(Clone, Copy, Debug, PartialEq, Eq)]
pub enum Part {
    Document(Edition),
    Version,
    Class,
    Category,
    Object,
    Imp,
    Item(Edition),
    Name(Naming),
    /// The superclass of a listed class: a name, or null.
    Superclass,
    /// The superclass of a class that is made.
    MadeUnder,
    /// An entry of a method list of a class or category that is listed.
    Pair,
    /// An entry of a method list of a category that is attached.
    Attached,
    Truth,
    /// The number of arguments that an implementation takes.
    Args,
    Body,
    /// The value after `send`.
    Send,
    /// The value after `change`.
    Changes(Edition),
    /// A change among those that are made as one.
    Change,
    Constant,
    Selector,
    /// The number of an argument.
    Index,
}

/// What is expected at a place.
#[derive(Clone, Copy, Debug, PartialEq, Eq)]
pub enum Wanted {
    One(Part),
    /// A list of such parts.
    Many(Part),
}
