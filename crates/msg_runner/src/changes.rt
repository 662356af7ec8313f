//! The changes of a document.

ghost use Rattle.std.specs.Prelude.{◌≡◌, ◌<◌, ◌+◌, ◌^◌, ◌++◌, ◌∷◌, [], length, map, IfOk, OnOk};
ghost use Rattle.msg_image.specs.Plain.{item_parts};
ghost use Rattle.msg_tables.specs.History.{log};
ghost use Rattle.msg_tables.specs.Refusal.{refusal};
ghost use Rattle.msg_tables.specs.Several.{refused_from};
ghost use Rattle.msg_answers.specs.Serial.{history_after, longer_by};
ghost use Rattle.msg_answers.specs.Serial.{outcome_at, outcome_of, outcome_of_first};
ghost use Rattle.msg_answers.specs.Serving.{history_of, outcomes_of};
ghost use Rattle.msg_runner.specs.Program.{changes_of};

use crate::gate::Gate;
use msg_answers::{Outcome, is_send};
use msg_dispatch::{ArenaName, Changer};
use msg_image::{Change, Item};
use msg_io::Program;
use msg_tables::{ChangeFault, Written};
use std::alloc::{AllocError, Global};
use std::sync::Wait;

/// When a run makes the changes of its document.
#[derive(Clone, Copy, Debug, PartialEq, Eq)]
pub enum Changes {
    /// Each change is made after the sends before it and before the sends after it.
    Between,
    /// The changes are made in their order, while the sends are answered.
    Beside,
}

impl Changes {
    // When a program makes the changes.
    pub(crate) fn of(program: Program) -> Changes
        ensures { result ≡ changes_of program }
    {
        match program {
            Program::Msgrun => Changes::Between,
            Program::Msgbeside => Changes::Beside,
        }
    }
}

// Makes a change.
fn change_one<'d, N: ArenaName, R: Wait>(
    rt: &R,
    changer: &mut Changer<'d, N>,
    change: &Change,
) -> Result<Outcome, AllocError>
    ensures outcome { IfOk result
        (λ outcome. outcome ≡ outcome_of (refusal (log changer.old) change.now)) }
    ensures history { IfOk result
        (λ outcome. changer.new ≡ longer_by changer.old (change.now ∷ []) outcome) }
{
    match changer.change(rt, change) {
        Ok(_) => Ok(Outcome::Made),
        Err(ChangeFault::Memory) => Err(AllocError),
        Err(fault) => Ok(Outcome::Refused(fault)),
    }
}

// Makes changes as one.
fn change_as_one<'d, N: ArenaName, R: Wait>(
    alloc: Global,
    rt: &R,
    changer: &mut Changer<'d, N>,
    changes: &[Change],
) -> Result<Outcome, AllocError>
    ensures outcome { IfOk result
        (λ outcome. outcome ≡ outcome_of_first (refused_from 0 (log changer.old) changes.now)) }
    ensures history { IfOk result
        (λ outcome. changer.new ≡ longer_by changer.old changes.now outcome) }
{
    let mut written = Written::none(alloc);
    match changer.change_all(rt, &changes, &mut written) {
        Ok(_) => Ok(Outcome::Made),
        Err(refused) => match refused.fault {
            ChangeFault::Memory => Err(AllocError),
            _ => Ok(Outcome::RefusedAt(refused)),
        },
    }
}

// Makes an item's changes, and returns their outcome.
pub(crate) fn change_by<'d, N: ArenaName, R: Wait>(
    alloc: Global,
    rt: &R,
    changer: &mut Changer<'d, N>,
    item: &Item,
) -> Result<Outcome, AllocError>
    ensures outcome { IfOk result
        (λ outcome. outcome ≡ outcome_at changer.old (item_parts item.now)) }
    ensures history { OnOk result
        (changer.new ≡ history_after changer.old (item_parts item.now)) }
{
    match item {
        Item::Send { .. } => Ok(Outcome::Made),
        Item::Change(change) => change_one(rt, changer, change),
        Item::ChangeAll(changes) => change_as_one(alloc, rt, changer, changes),
    }
}

// Makes the changes among items, in order, and returns the outcome of each item. The first such
// item has the number `first`.
pub(crate) fn make_changes<'d, N: ArenaName, G: Gate, R: Wait>(
    alloc: Global,
    rt: &R,
    changer: &mut Changer<'d, N>,
    gate: &G,
    first: u32,
    items: &[Item],
    outcomes: &mut Vec<Outcome>,
) -> Result<(), AllocError>
    requires places { first + length items.now < 2 ^ 32 }
    ensures outcomes { OnOk result (outcomes.new.items
        ≡ outcomes.old.items ++ outcomes_of changer.old (map item_parts items.now)) }
    ensures history { OnOk result
        (changer.new ≡ history_of changer.old (map item_parts items.now)) }
{
    let mut number = first;
    let mut rest = items;
    while let Some((item, later)) = rest.split_first() {
        if !is_send(item) {
            gate.change_starts(number);
            let outcome = change_by(alloc, rt, changer, item)?;
            gate.change_done(number);
            outcomes.push(outcome)?;
            number += 1;
        }
        rest = later;
    }
    Ok(())
}
