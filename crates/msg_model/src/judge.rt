//! Whether an event is refused.
//!
//! Each condition has a function of its own. The functions that change the machine are elsewhere.

ghost use Rattle.std.specs.Prelude.{◌≡◌, [], ◌∷◌};
ghost use Rattle.msg_model.specs.Event as events;
ghost use Rattle.msg_model.specs.Event.{event_of};
ghost use Rattle.msg_model.specs.Happens.{refusal_of};

use crate::event::Event;
use crate::fault::EventFault;
use crate::machine::Machine;
use crate::state::{Standing, Whereabouts};
use msg_names::ClassRef;
use msg_tables::Change;

impl Machine {
    /// Returns the fault for which an event is refused, or none if it would happen.
    pub(crate) fn refusal(&self, event: &Event) -> Option<EventFault>
        ensures { result ≡ refusal_of self.now (event_of event.now) }
    {
        match event {
            Event::Enter(sender) => self.refuses_enter(*sender),
            Event::Header(sender, class) => self.refuses_header(*sender, *class),
            Event::Read(sender, place) => self.refuses_read(*sender, *place),
            Event::Leave(sender) => self.refuses_leave(*sender),
            Event::Fill(class, place, word) => self.refuses_fill(*class, *place, *word),
            Event::Install(class, array) => self.refuses_install(*class, *array),
            Event::Flush(class) => self.refuses_flush(*class),
            Event::Look(sender) => self.refuses_look(*sender),
            Event::Clear(array, place) => self.refuses_clear(*array, *place),
            Event::Commit(change) => self.refuses_commit(change),
        }
    }

    fn refuses_enter(&self, sender: u32) -> Option<EventFault>
        ensures { result ≡ refusal_of self.now (events.Enter sender) }
    {
        if self.lacks_sender(sender) {
            return Some(EventFault::NoSender);
        }
        match self.whereabouts_of(sender) {
            Whereabouts::Out => None,
            Whereabouts::In | Whereabouts::Holding(_, _) => Some(EventFault::NotOut),
        }
    }

    fn refuses_header(&self, sender: u32, class: ClassRef) -> Option<EventFault>
        ensures { result ≡ refusal_of self.now (events.Header sender class) }
    {
        if self.lacks_sender(sender) {
            return Some(EventFault::NoSender);
        }
        if self.lacks_class(class) {
            return Some(EventFault::NoClass);
        }
        match self.whereabouts_of(sender) {
            Whereabouts::In => None,
            Whereabouts::Out | Whereabouts::Holding(_, _) => Some(EventFault::NotIn),
        }
    }

    fn refuses_read(&self, sender: u32, place: usize) -> Option<EventFault>
        ensures { result ≡ refusal_of self.now (events.Read sender place) }
    {
        if self.lacks_sender(sender) {
            return Some(EventFault::NoSender);
        }
        match self.whereabouts_of(sender) {
            Whereabouts::Out | Whereabouts::In => Some(EventFault::NotHolding),
            Whereabouts::Holding(_, array) if self.capacity(array) <= place => Some(
                EventFault::NoPlace,
            ),
            Whereabouts::Holding(_, _) => None,
        }
    }

    fn refuses_leave(&self, sender: u32) -> Option<EventFault>
        ensures { result ≡ refusal_of self.now (events.Leave sender) }
    {
        if self.lacks_sender(sender) {
            return Some(EventFault::NoSender);
        }
        match self.whereabouts_of(sender) {
            Whereabouts::Out => Some(EventFault::NotIn),
            Whereabouts::In | Whereabouts::Holding(_, _) => None,
        }
    }

    fn refuses_fill(&self, class: ClassRef, place: usize, word: u64) -> Option<EventFault>
        ensures { result ≡ refusal_of self.now (events.Fill class place word) }
    {
        if self.lacks_class(class) {
            return Some(EventFault::NoClass);
        }
        let Some(array) = self.live_array(class) else {
            return Some(EventFault::NotLive);
        };
        if self.capacity(array) <= place {
            return Some(EventFault::NoPlace);
        }
        if self.word(array, place) != 0 {
            return Some(EventFault::NotEmpty);
        }
        if self.disagrees(class, word) {
            return Some(EventFault::Disagrees);
        }
        None
    }

    fn refuses_install(&self, class: ClassRef, array: u32) -> Option<EventFault>
        ensures { result ≡ refusal_of self.now (events.Install class array) }
    {
        if self.lacks_class(class) {
            return Some(EventFault::NoClass);
        }
        if self.lacks_array(array) {
            return Some(EventFault::NoArray);
        }
        if !self.is_free(array) {
            return Some(EventFault::NotFree);
        }
        if self.has_entry(array) {
            return Some(EventFault::NotEmpty);
        }
        None
    }

    fn refuses_flush(&self, class: ClassRef) -> Option<EventFault>
        ensures { result ≡ refusal_of self.now (events.Flush class) }
    {
        if self.lacks_class(class) {
            return Some(EventFault::NoClass);
        }
        match self.live_array(class) {
            Some(_) => None,
            None => Some(EventFault::NotLive),
        }
    }

    fn refuses_look(&self, sender: u32) -> Option<EventFault>
        ensures { result ≡ refusal_of self.now (events.Look sender) }
    {
        if self.lacks_sender(sender) {
            return Some(EventFault::NoSender);
        }
        None
    }

    fn refuses_clear(&self, array: u32, place: usize) -> Option<EventFault>
        ensures { result ≡ refusal_of self.now (events.Clear array place) }
    {
        if self.lacks_array(array) {
            return Some(EventFault::NoArray);
        }
        if self.capacity(array) <= place {
            return Some(EventFault::NoPlace);
        }
        if self.is_free(array) {
            None
        } else {
            Some(EventFault::NotFree)
        }
    }

    fn refuses_commit(&self, change: &Change) -> Option<EventFault>
        ensures { result ≡ refusal_of self.now (events.Commit (change.now ∷ [])) }
    {
        if let Some(fault) = self.change_refusal(change) {
            return Some(EventFault::Refused(fault));
        }
        if self.spoils(change) {
            return Some(EventFault::Disagrees);
        }
        None
    }
}
