//! What is noted stays right.

ghost use Rattle.std.specs.Prelude.{◌≡◌, ◌<◌, ◌^◌, length};
ghost use Rattle.msg_names.specs.ClassRef.{slot_of};
ghost use Rattle.msg_names.specs.declared.value.ClassRef.{ClassRef};
ghost use Rattle.msg_tables.specs.History.{History, BeginsWith};
ghost use Rattle.msg_model.specs.State.{Layout};
ghost use Rattle.msg_reader.specs.Notes.{AreBlank, AreNotesOf, AreStamped, KeysAreOneToOne, SealsTell};
ghost use Rattle.msg_reader.specs.declared.notes.Notes.{Notes};

/// Notes of a history are notes of each longer history.
pub fn notes_are_of_longer_histories()
    ensures { (p h : History) (n : Notes) → BeginsWith p h → AreNotesOf h n → AreNotesOf p n }
{}

/// Blank notes are notes of each history.
#[tactic(auto, using(crate::proofs::NoteLemmas::blank_of))]
pub fn blank_notes_are_of_each_history()
    ensures { (h : History) (n : Notes) → AreBlank n → AreNotesOf h n }
{}

/// Blank notes satisfy what notes of any table say of where stamps lie: they are of no class
/// reference.
#[tactic(auto, using(crate::proofs::StampedLemmas::blank_stamped))]
pub fn blank_notes_are_of_each_table()
    ensures { (z : Layout) (n : Notes) → AreBlank n → AreStamped z n }
{}

/// A history that begins with another and is no longer is that one.
#[tactic(auto, using(msg_tables::proofs::BeginsLemmas::begins_same))]
pub fn a_history_no_longer_is_the_same()
    ensures { (p h : History) → BeginsWith p h → length p.changes ≡ length h.changes → p ≡ h }
{}

/// The slot of a class reference is below 2^26 if its class number is below 2^25. Then what is
/// noted of it is recalled.
#[tactic(auto, using(crate::proofs::NoteLemmas::short_slot))]
pub fn a_slot_of_few_classes_is_short()
    ensures { (c : ClassRef) → c.class < 2 ^ 25 → slot_of c < 2 ^ 26 }
{}

/// No two lookups have the same key.
#[tactic(auto, using(crate::proofs::KeyLemmas::keys_differ))]
pub fn keys_are_one_to_one()
    ensures { KeysAreOneToOne }
{}

/// Among the lookups that share its place, the seal of a note says which one it is of and what that
/// found. A host loads the seal once and subtracts it from the key of its lookup. A result from 1
/// to 65,535 is the mark of what was found. So one load gives what `Notes::recall_method` returns.
#[tactic(auto, using(crate::proofs::KeyLemmas::seals_tell))]
pub fn a_seal_says_key_and_number()
    ensures { SealsTell }
{}
