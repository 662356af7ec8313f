//! The knowledge of seats. No value of these types is ever made: they are only for contracts.

use msg_model::{Standing, Whereabouts};
use msg_names::ClassRef;
use msg_tables::{Change, Origin};
use std::collections::LinkedList;
use std::marker::Model;

/// A history, in contracts that of the class tables.
pub struct Past {
    origin: Origin,
    changes: LinkedList<LinkedList<Change>>,
}

impl Model for Past {
    ghost use Rattle.msg_tables.specs.History.{History};

    ghost Value = { History };

    ghost view = { λ p. record { origin = p.origin; changes = p.changes } };
}

/// The last probe: what was looked for, the array that the header word named, and the words that
/// were then read, each with its place in the table.
pub struct Record {
    pub class: ClassRef,
    pub sel: u64,
    pub array: Option<u64>,
    pub reads: LinkedList<(u64, u64)>,
}

/// What a sender's seat knows: its number, what it has seen of the history, where it is, the number
/// of its header loads, the number of its loads of the count of changes, and the last probe. It
/// also knows the stamps that it loaded, the last one first, each with its class reference.
pub struct SenderView {
    pub number: u64,
    pub front: Past,
    pub whereabouts: Whereabouts,
    pub count: u64,
    pub looks: u64,
    pub stamps: LinkedList<(ClassRef, u64)>,
    pub last: Record,
}

/// The place of the right to change the history.
pub enum TurnAt {
    Never,
    Away,
    Home(Past),
}

/// What the keeper's seat knows: the history, a copy of all words but the probe words, what each
/// array is for, which sender numbers are given out, where the turn is, and what a joined sender
/// had seen. It also knows each number that was ever given out, the last one first, with the number
/// of changes at that time. Finally it knows each word that was stored, with its place in the
/// table, and each sender number that was looked at.
pub struct KeeperView {
    pub history: Past,
    pub words: LinkedList<u64>,
    pub standings: LinkedList<Standing>,
    pub given: LinkedList<bool>,
    pub since: LinkedList<(u64, u64)>,
    pub turn: TurnAt,
    pub told: Past,
    pub stores: LinkedList<(u64, u64)>,
    pub looked_at: LinkedList<u64>,
}

/// What a seat knows. A seat that was joined to another knows nothing.
pub enum View {
    Sender(SenderView),
    Keeper(KeeperView),
    Turn(Past),
    Spent,
}
