//! The changer and the senders of a run.

ghost use Rattle.std.specs.Prelude.{◌≡◌, ◌+◌, ◌++◌, ◌∷◌, [], vec_len, IfOk, OnOk, MatchResult};
ghost use Rattle.msg_tables.specs.History.{BeginsWith, empty};

use msg_dispatch::{ArenaName, CachingSender, Changer, Dispatcher};
use msg_eval::Reply;
use std::alloc::{AllocError, Global};
use std::sync::Wait;

// The changer, and the senders with what each has noted.
#[derive(Drop)]
pub(crate) struct Crew<'d, N: ArenaName> {
    pub(crate) changer: Changer<'d, N>,
    pub(crate) senders: Vec<CachingSender<'d, N>>,
}

// A sender after a batch, with its replies, if there was memory for them.
#[derive(Drop)]
pub(crate) struct Done<'d, N: ArenaName> {
    pub(crate) sender: CachingSender<'d, N>,
    pub(crate) replies: Result<Vec<Reply>, AllocError>,
}

// Makes this number of senders.
fn senders_of<'d, N: ArenaName, R: Wait>(
    rt: &R,
    alloc: Global,
    dispatcher: &'d Dispatcher<N>,
    count: u32,
) -> Result<Vec<CachingSender<'d, N>>, AllocError>
    ensures { IfOk result (λ senders. vec_len senders ≡ count) }
{
    let mut senders = Vec::new(alloc);
    for _number in 0..count {
        let Ok(sender) = dispatcher.sender(rt) else {
            return Err(AllocError);
        };
        let Ok(caching) = CachingSender::new(alloc, sender) else {
            return Err(AllocError);
        };
        senders.push(caching)?;
    }
    Ok(senders)
}

impl<'d, N: ArenaName> Crew<'d, N> {
    // Makes a changer and this number of senders.
    pub(crate) fn of<R: Wait>(
        rt: &R,
        alloc: Global,
        dispatcher: &'d Dispatcher<N>,
        workers: u32,
    ) -> Result<Crew<'d, N>, AllocError>
        ensures changer { IfOk result (λ crew. crew.changer ≡ empty N.arena.key.origin) }
        ensures senders { IfOk result (λ crew. vec_len crew.senders ≡ workers) }
    {
        let senders = senders_of(rt, alloc, dispatcher, workers)?;
        match dispatcher.changer(rt) {
            Ok(changer) => Ok(Crew { changer, senders }),
            Err(_) => Err(AllocError),
        }
    }

    // Takes a sender out, which meets the changer before its work.
    pub(crate) fn send_out<R: Wait>(&mut self, rt: &R) -> Result<CachingSender<'d, N>, AllocError>
        ensures same { self.new.changer ≡ self.old.changer }
        ensures seen { IfOk result (λ s. s.sender.seen.front ≡ self.old.changer) }
        ensures senders { OnOk result (vec_len self.new.senders + 1 ≡ vec_len self.old.senders) }
    {
        let Some(mut sender) = self.senders.pop() else {
            return Err(AllocError);
        };
        sender.meet(rt, &mut self.changer);
        Ok(sender)
    }

    // Puts a sender back, which meets the changer after its work, with its replies.
    pub(crate) fn put_back<R: Wait>(
        &mut self,
        rt: &R,
        done: Done<'d, N>,
        shares: &mut Vec<Vec<Reply>>,
    ) -> Result<(), AllocError>
        ensures same { self.new.changer ≡ self.old.changer }
        ensures begins { BeginsWith self.old.changer done.entry.sender.sender.seen.front }
        ensures senders { OnOk result (vec_len self.new.senders ≡ vec_len self.old.senders + 1) }
        ensures share { OnOk result (MatchResult done.entry.replies
            (λ rs. shares.new.items ≡ shares.old.items ++ rs ∷ []) (λ _. ⊥)) }
    {
        let mut done = done;
        done.sender.meet(rt, &mut self.changer);
        self.senders.push(done.sender)?;
        shares.push(done.replies?)?;
        Ok(())
    }
}
