//! Applies one event after another.

ghost use Rattle.std.specs.Prelude.{◌≡◌, IfOk, OnErr, IfErr, IsErrOf};
ghost use Rattle.msg_model.specs.declared.fault.EventFault.{EventFault};
ghost use Rattle.msg_model.specs.Event.{event_of};
ghost use Rattle.msg_model.specs.Happens.{Happens, IsLegal, IsLegalCommit, IsRefusedUnlessMemory};
ghost use Rattle.msg_model.specs.Steps.{shows};
ghost use Rattle.msg_model.specs.View.{layout_of, state_of};

use crate::event::{Event, Seen};
use crate::fault::EventFault;
use crate::machine::Machine;

impl Machine {
    /// Applies an event, or returns why not and changes nothing.
    ///
    /// Each event touches one word, with three exceptions. `Look` goes over the standings of all
    /// arrays, `Install` checks that the array is empty, and `Commit` checks all live words. Only
    /// `Commit` takes memory.
    pub fn step(&mut self, event: Event) -> Result<Seen, EventFault>
        ensures legal { IfOk result (λ _. IsLegal self.old (event_of event)) }
        ensures happens { IfOk result (λ _. Happens self.old self.new (event_of event)) }
        ensures seen { IfOk result (λ seen. seen ≡ shows (state_of self.old) (event_of event)) }
        ensures err { OnErr result (self.new ≡ self.old) }
        ensures fault { IfErr result (IsRefusedUnlessMemory self.old (event_of event)) }
        ensures memory { IsErrOf result EventFault.Memory → IsLegalCommit self.old (event_of event) }
    {
        if let Some(fault) = self.refusal(&event) {
            return Err(fault);
        }
        self.happen(event)
    }
}
