//! The name of an arena.

use std::marker::Brand;

/// Names an arena, only for contracts.
///
/// A dispatcher, its senders and its changer have it as their parameter. By it they know that the
/// data behind the lock is of their arena. Write functions that are generic in it, and call them
/// with `Brand`.
pub trait ArenaName {
    ghost use Rattle.msg_cache.specs.Views.{ArenaView};

    ghost arena: { ArenaView };
}

impl ArenaName for Brand {
    ghost use Rattle.msg_dispatch.specs.Named.{no_arena};

    ghost arena = { no_arena };
}
