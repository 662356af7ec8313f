//! The arena and the runtime lock.

ghost use Rattle.std.specs.Prelude.{◌≡◌, IfOk};
ghost use Rattle.std.specs.Coded.{codes};
ghost use Rattle.atomic_table.specs.Seated.{table_id_coded};
ghost use Rattle.msg_tables.specs.History.{empty};
ghost use Rattle.msg_cache.specs.Counts.{AreCounts};
ghost use Rattle.msg_runtime.specs.Parts.{IsKeeperOf, keeper_history};

use crate::changer::Changer;
use crate::locked_runtime::LockedRuntime;
use crate::name::ArenaName;
use crate::sender::Sender;
use msg_cache::{Arena, Keeper, Report};
use msg_runtime::Runtime;
use msg_tables::HasOrigin;
use std::alloc::{AllocError, Global};
use std::marker::PhantomData;
use std::sync::{Mutex, Wait};
use thiserror::Error;

/// All sender numbers are given out.
#[derive(Clone, Copy, Debug, PartialEq, Eq, Error)]
#[error("no sender is free")]
pub struct NoSenderFree;

/// The changer was given out before.
#[derive(Clone, Copy, Debug, PartialEq, Eq, Error)]
#[error("the changer is out")]
pub struct ChangerOut;

/// What senders and the changer share: the arena, and behind the runtime lock the runtime that
/// keeps it.
#[derive(Drop)]
pub struct Dispatcher<N: ArenaName> {
    pub(crate) arena: Arena,
    pub(crate) locked_runtime: Mutex<LockedRuntime<N>>,
    pub ghost arena_is: { arena ≡ N.arena } by { Prim.hlevel (codes, table_id_coded) },
}

impl<N: ArenaName> Dispatcher<N> {
    /// Makes the dispatcher of an arena that was just opened. Its history is the origin's without
    /// changes, at which the changer begins.
    ///
    /// The only error is a lack of memory: for the tables, or for the marks of class references
    /// that a change affects. The arena and the keeper are then dropped. No clause says that memory
    /// was really lacking: tests with ample memory do.
    pub fn open<C: HasOrigin>(
        alloc: Global,
        arena: Arena,
        keeper: Keeper,
        given: &C,
    ) -> Result<Dispatcher<N>, AllocError>
        requires arena { arena ≡ N.arena }
        requires keeper { IsKeeperOf N.arena keeper }
        requires origin { C.given given.now ≡ N.arena.key.origin }
        requires history { keeper_history keeper ≡ empty (C.given given.now) }
        ensures { IfOk result (λ d. d.arena ≡ N.arena) }
    {
        let locked_runtime = LockedRuntime {
            runtime: Runtime::open(alloc, &arena, keeper, given)?,
            of: PhantomData,
        };
        Ok(Dispatcher {
            arena,
            locked_runtime: Mutex::new(locked_runtime),
        })
    }

    /// Returns a sender, if a number is free.
    pub fn sender<R: Wait>(&self, rt: &R) -> Result<Sender<'_, N>, NoSenderFree>
        ensures { IfOk result (λ s. (s.takings ≡ 0) × (s.seen.front.origin ≡ N.arena.key.origin)) }
    {
        match self.locked_runtime.lock(rt).sender(&self.arena) {
            Some(reader) => Ok(Sender {
                dispatcher: self,
                reader,
                takings: 0,
            }),
            None => Err(NoSenderFree),
        }
    }

    /// Returns the changer, once in the dispatcher's life.
    pub fn changer<R: Wait>(&self, rt: &R) -> Result<Changer<'_, N>, ChangerOut>
        ensures { IfOk result (λ c. c ≡ empty N.arena.key.origin) }
    {
        match self.locked_runtime.lock(rt).turn(&self.arena) {
            Some(turn) => Ok(Changer {
                dispatcher: self,
                turn,
                count: 0,
            }),
            None => Err(ChangerOut),
        }
    }

    /// The counts of what was done to caches so far: the keeper's report.
    ///
    /// The clause says only that the counts are in proportion. Before the lock is taken and after
    /// it is released others may count more. Behind the lock it is the runtime's own report.
    pub fn report<R: Wait>(&self, rt: &R) -> Report
        ensures { AreCounts result }
    {
        self.locked_runtime.lock(rt).report()
    }
}
