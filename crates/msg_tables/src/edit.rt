//! What an accepted change writes.

use crate::methods::MethodList;
use msg_names::{ClassRef, ImpRef, Selector};

// A row, which says that a selector has an implementation at a class reference.
#[derive(Clone, Copy)]
pub(crate) struct MethodRow {
    pub(crate) class: ClassRef,
    pub(crate) sel: Selector,
    pub(crate) imp: ImpRef,
}

// What a change writes. An own row that is rewritten exists already.
#[derive(Clone, Copy)]
pub(crate) enum Edit<'c> {
    Append(MethodRow),
    Rewrite(MethodRow),
    RewriteBoth(MethodRow, MethodRow),
    Attach {
        class: u32,
        methods: &'c MethodList,
        class_methods: &'c MethodList,
    },
    Make(u32, Option<u32>),
    Remove(ClassRef, Selector),
    Dispose(u32),
}
