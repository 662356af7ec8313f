//! What events do.

ghost use Rattle.std.specs.Prelude.{◌≡◌, ◌<◌, Some, None, Ok, Err, IfOk, OnErr, IfErr, IfSome, length};
ghost use Rattle.msg_model.specs.Event as events;
ghost use Rattle.msg_model.specs.Event.{commit_of, event_of};
ghost use Rattle.msg_model.specs.declared.fault.EventFault.{EventFault};
ghost use Rattle.msg_model.specs.Happens.{ChangesBy, Happens, IsLegal, IsCommit};
ghost use Rattle.msg_model.specs.State.{capacity};
ghost use Rattle.msg_model.specs.Steps.{shows, all_seen_out, live_put, live_retired, sender_put, standing_put, word_put};
ghost use Rattle.msg_model.specs.View.{layout_of, state_of, HasArray, IfHolding, IfLive};

use crate::awaited::{everyone, see_out};
use crate::event::{Event, Seen};
use crate::fault::EventFault;
use crate::machine::Machine;
use crate::state::{Standing, Whereabouts};
use msg_names::ClassRef;
use msg_tables::Change;
use std::slice::from_ref;

// ---- one word, or what one word says

impl Machine {
    fn set_whereabouts(&mut self, sender: u32, whereabouts: Whereabouts)
        requires sender { sender < (layout_of self.old).senders }
        requires listed { IfHolding whereabouts (HasArray self.old) }
        ensures { ChangesBy (sender_put sender whereabouts) self.old self.new }
    {
        self.whereabouts[sender as usize] = whereabouts;
    }

    fn set_live(&mut self, class: ClassRef, array: Option<u32>)
        requires class { class.class < (layout_of self.old).classes }
        requires listed { IfSome array (HasArray self.old) }
        ensures { ChangesBy (live_put class array) self.old self.new }
    {
        self.live[class.slot()] = array;
    }

    fn set_standing(&mut self, array: u32, standing: Standing)
        requires array { array < length (layout_of self.old).capacities }
        requires listed { IfLive standing (λ class. class.class < (layout_of self.old).classes) }
        ensures { ChangesBy (standing_put array standing) self.old self.new }
    {
        self.standings[array as usize] = standing;
    }

    fn store(&mut self, array: u32, place: usize, word: u64)
        requires array { array < length (layout_of self.old).capacities }
        requires place { place < capacity (layout_of self.old) array }
        ensures { ChangesBy (word_put array place word) self.old self.new }
    {
        self.arrays[array as usize].store(place, word);
    }

    // Retires the live array of a class reference, if there is one.
    fn retire(&mut self, class: ClassRef)
        requires { class.class < (layout_of self.old).classes }
        ensures { ChangesBy (live_retired (layout_of self.old) class) self.old self.new }
    {
        if let Some(array) = self.live_array(class) {
            let awaited = everyone(self.whereabouts.len());
            let standing = Standing::Retired(class, self.changes.len(), awaited);
            self.set_standing(array, standing);
        }
    }

    // Notes that no array awaits the sender any more.
    fn await_no_more(&mut self, sender: u32)
        requires { sender < (layout_of self.old).senders }
        ensures { ChangesBy (all_seen_out sender) self.old self.new }
    {
        see_out(&mut self.standings, sender as usize);
    }
}

// ---- events that are not refused

impl Machine {
    pub(crate) fn enter(&mut self, sender: u32) -> Seen
        requires { IsLegal self.old (events.Enter sender) }
        ensures happens { Happens self.old self.new (events.Enter sender) }
        ensures seen { result ≡ shows (state_of self.old) (events.Enter sender) }
    {
        self.set_whereabouts(sender, Whereabouts::In);
        Seen::Nothing
    }

    pub(crate) fn load_header(&mut self, sender: u32, class: ClassRef) -> Seen
        requires { IsLegal self.old (events.Header sender class) }
        ensures happens { Happens self.old self.new (events.Header sender class) }
        ensures seen { result ≡ shows (state_of self.old) (events.Header sender class) }
    {
        let live = self.live_array(class);
        if let Some(array) = live {
            self.set_whereabouts(sender, Whereabouts::Holding(class, array));
        }
        Seen::Array(live)
    }

    pub(crate) fn read(&self, sender: u32, place: usize) -> Seen
        requires { IsLegal self.now (events.Read sender place) }
        ensures { result ≡ shows (state_of self.now) (events.Read sender place) }
    {
        match self.whereabouts_of(sender) {
            Whereabouts::Holding(_, array) => Seen::Word(self.word(array, place)),
            Whereabouts::Out | Whereabouts::In => Seen::Word(0),
        }
    }

    pub(crate) fn leave(&mut self, sender: u32) -> Seen
        requires { IsLegal self.old (events.Leave sender) }
        ensures happens { Happens self.old self.new (events.Leave sender) }
        ensures seen { result ≡ shows (state_of self.old) (events.Leave sender) }
    {
        self.set_whereabouts(sender, Whereabouts::Out);
        Seen::Nothing
    }

    pub(crate) fn fill(&mut self, class: ClassRef, place: usize, word: u64) -> Seen
        requires { IsLegal self.old (events.Fill class place word) }
        ensures happens { Happens self.old self.new (events.Fill class place word) }
        ensures seen { result ≡ shows (state_of self.old) (events.Fill class place word) }
    {
        if let Some(array) = self.live_array(class) {
            self.store(array, place, word);
        }
        Seen::Nothing
    }

    pub(crate) fn install(&mut self, class: ClassRef, array: u32) -> Seen
        requires { IsLegal self.old (events.Install class array) }
        ensures happens { Happens self.old self.new (events.Install class array) }
        ensures seen { result ≡ shows (state_of self.old) (events.Install class array) }
    {
        self.retire(class);
        self.set_live(class, Some(array));
        self.set_standing(array, Standing::Live(class));
        Seen::Nothing
    }

    pub(crate) fn flush(&mut self, class: ClassRef) -> Seen
        requires { IsLegal self.old (events.Flush class) }
        ensures happens { Happens self.old self.new (events.Flush class) }
        ensures seen { result ≡ shows (state_of self.old) (events.Flush class) }
    {
        self.retire(class);
        self.set_live(class, None);
        Seen::Nothing
    }

    pub(crate) fn look(&mut self, sender: u32) -> Seen
        requires { IsLegal self.old (events.Look sender) }
        ensures happens { Happens self.old self.new (events.Look sender) }
        ensures seen { result ≡ shows (state_of self.old) (events.Look sender) }
    {
        match self.whereabouts_of(sender) {
            Whereabouts::Out => {
                self.await_no_more(sender);
                Seen::Out(true)
            }
            Whereabouts::In | Whereabouts::Holding(_, _) => Seen::Out(false),
        }
    }

    pub(crate) fn clear(&mut self, array: u32, place: usize) -> Seen
        requires { IsLegal self.old (events.Clear array place) }
        ensures happens { Happens self.old self.new (events.Clear array place) }
        ensures seen { result ≡ shows (state_of self.old) (events.Clear array place) }
    {
        self.store(array, place, 0);
        Seen::Nothing
    }
}

impl Machine {
    // This is the only event that takes memory. Room for the change is made before it is applied.
    pub(crate) fn commit(&mut self, change: Change) -> Result<Seen, EventFault>
        requires { IsLegal self.old (commit_of change) }
        ensures happens { IfOk result (λ _. Happens self.old self.new (commit_of change)) }
        ensures seen { IfOk result (λ seen. seen ≡ shows (state_of self.old) (commit_of change)) }
        ensures err { OnErr result (self.new ≡ self.old) }
        ensures memory { IfErr result (λ fault. fault ≡ EventFault.Memory) }
    {
        self.changes.reserve(1)?;
        let made = self.tables.apply_all(&from_ref(&change), &mut self.written);
        if made.is_err() {
            return Err(EventFault::Memory);
        }
        let pushed: Result<_, _> = self.changes.push(change);
        pushed.unwrap();
        Ok(Seen::Nothing)
    }

    // Applies an event that isn't refused.
    pub(crate) fn happen(&mut self, event: Event) -> Result<Seen, EventFault>
        requires { IsLegal self.old (event_of event) }
        ensures happens { IfOk result (λ _. Happens self.old self.new (event_of event)) }
        ensures seen { IfOk result (λ seen. seen ≡ shows (state_of self.old) (event_of event)) }
        ensures err { OnErr result (self.new ≡ self.old) }
        ensures memory { IfErr result (λ fault. (fault ≡ EventFault.Memory) × IsCommit (event_of event)) }
    {
        match event {
            Event::Enter(sender) => Ok(self.enter(sender)),
            Event::Header(sender, class) => Ok(self.load_header(sender, class)),
            Event::Read(sender, place) => Ok(self.read(sender, place)),
            Event::Leave(sender) => Ok(self.leave(sender)),
            Event::Fill(class, place, word) => Ok(self.fill(class, place, word)),
            Event::Install(class, array) => Ok(self.install(class, array)),
            Event::Flush(class) => Ok(self.flush(class)),
            Event::Look(sender) => Ok(self.look(sender)),
            Event::Clear(array, place) => Ok(self.clear(array, place)),
            Event::Commit(change) => self.commit(change),
        }
    }
}
