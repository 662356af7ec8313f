//! A tree of a JSON text.

use serde_json::Number;

/// A JSON value. Its texts are borrowed from the JSON text, its lists and members lie in an arena,
/// and its numbers are read.
///
/// An object's members keep their order, and a key may come several times.
#[cycle(tree)]
#[derive(Clone, Copy)]
pub enum Tree<'t, 'b> {
    Null,
    Bool(bool),
    Number(Number),
    Text(&'t str),
    Array(&'b [Tree<'t, 'b>]),
    Object(&'b [(&'t str, Tree<'t, 'b>)]),
}
