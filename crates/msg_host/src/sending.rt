//! Sends in numbers.

ghost use Rattle.std.specs.Prelude.{◌≡◌, ◌<◌, ◌≤◌, None, Some, IfOk, IfErr, OnOk, IfNone, OnErr};
ghost use Rattle.msg_tables.specs.Origin.{last_imp};
ghost use Rattle.msg_tables.specs.History.{BeginsWith, lookup};
ghost use Rattle.msg_model.specs.Stamps.{last_affected};
ghost use Rattle.msg_cache.specs.Rule.{IsAccepted};
ghost use Rattle.msg_cache.specs.Views.{classes, layout};
ghost use Rattle.msg_host.specs.Asking.{ask_fault};
ghost use Rattle.msg_host.specs.declared.fault.AskFault.{AskFault};
ghost use Rattle.msg_reader.specs.Cost.{ProbesOnceAtMost};
ghost use Rattle.msg_reader.specs.Notes.{AreNotesOf, HaveNoted, StayStamped};
ghost use Rattle.msg_reader.specs.Kept.{FindsUnprobed, HaveNotedSince, HaveOthersOf, LoadsStamp, MissesUnlessChanged};
ghost use Rattle.msg_runtime.specs.Calls.{CachesNumber, KeepsRoom};
ghost use Rattle.msg_host.specs.Named.{IfFound, ref_of};

use crate::fault::{AskFault, asked, asked_class};
use crate::runtime::HostedRuntime;
use crate::sender::HostedSender;
use msg_reader::Notes;

impl HostedSender {
    /// Returns the number of the implementation from the notes, or else from the cache, which is
    /// then noted; or nothing. A lookup finds it at what the sender has then seen. The call needs
    /// no lock. If a change that affects the class reference falls into a probe that hits, the
    /// result is dropped. What the notes have since the stamp of the class reference is found
    /// without a probe.
    pub fn probe(
        &mut self,
        notes: &mut Notes,
        class: u32,
        meta: bool,
        sel: u32,
    ) -> Result<Option<u32>, AskFault>
        requires notes { AreNotesOf self.old.seen.front notes.old }
        ensures arena { self.new.arena ≡ self.old.arena }
        ensures begins { BeginsWith self.new.seen.front self.old.seen.front }
        ensures found { IfFound result (λ i. i ≡ lookup self.new.seen.front (ref_of class meta) sel) }
        ensures listed { IfFound result (λ i. i ≤ last_imp self.old.arena.key.origin.counts) }
        ensures ok { OnOk result (ask_fault (classes self.old.arena) class sel ≡ None) }
        ensures err { IfErr result (λ f. ask_fault (classes self.old.arena) class sel ≡ Some f) }
        ensures left { OnErr result ((self.new ≡ self.old) × (notes.new ≡ notes.old)) }
        ensures notes { AreNotesOf self.new.seen.front notes.new }
        ensures noted { IfFound result (HaveNotedSince notes.new (ref_of class meta) sel self.new.seen) }
        ensures others { HaveOthersOf (ref_of class meta) sel notes.old notes.new }
        ensures stamped { StayStamped (layout self.old.arena) notes.old notes.new }
        ensures unprobed { IfOk result (FindsUnprobed notes.old (ref_of class meta) sel self.old.seen self.new.seen) }
        ensures missed { IfOk result (λ found.
            IfNone found (MissesUnlessChanged self.old.arena (ref_of class meta) sel self.old.seen self.new.seen)) }
        ensures probed { OnOk result
            (ProbesOnceAtMost self.old.arena (ref_of class meta) sel self.old.seen self.new.seen) }
    {
        let (class, sel) = asked(self.class_count(), class, meta, sel)?;
        match self.try_find(notes, class, sel) {
            Some(imp) => Ok(Some(imp.number())),
            None => Ok(None),
        }
    }

    /// The stamp of a class, or of its metaclass: of the changes that the sender has then seen,
    /// none after that many has affected it. So a lookup finds what was noted of it after at least
    /// that many changes. The call needs no lock.
    pub fn stamp(&mut self, class: u32, meta: bool) -> Result<u64, AskFault>
        ensures arena { self.new.arena ≡ self.old.arena }
        ensures begins { BeginsWith self.new.seen.front self.old.seen.front }
        ensures loaded { IfOk result (λ n. LoadsStamp (ref_of class meta) n self.old.seen self.new.seen) }
        ensures accepted { OnOk result (IsAccepted self.new.seen.front) }
        ensures since { IfOk result (λ n. last_affected self.new.seen.front (ref_of class meta) ≤ n) }
        ensures ok { OnOk result (class < classes self.old.arena) }
        ensures err { IfErr result (λ f. (classes self.old.arena ≤ class) × (f ≡ AskFault.NoClass)) }
        ensures left { OnErr result (self.new ≡ self.old) }
    {
        let class = asked_class(self.class_count(), class, meta)?;
        Ok(self.load_stamp(class))
    }
}

impl HostedRuntime {
    /// `lookUpImpOrForward`: the number of the implementation that a lookup finds. It is noted, and
    /// cached if there is room. The sender has then seen the whole history.
    pub fn fill(
        &mut self,
        sender: &mut HostedSender,
        notes: &mut Notes,
        class: u32,
        meta: bool,
        sel: u32,
    ) -> Result<u32, AskFault>
        requires sender { sender.old.arena ≡ self.old.arena }
        requires notes { AreNotesOf sender.old.seen.front notes.old }
        ensures same { self.new.arena ≡ self.old.arena }
        ensures history { self.new.keeper.history ≡ self.old.keeper.history }
        ensures remembered { self.new.remembered ≡ self.old.remembered }
        ensures room { KeepsRoom self.old self.new }
        ensures cached { IfOk result (λ i. CachesNumber (ref_of class meta) sel i sender.old.seen self.old self.new) }
        ensures rested { self.new.rested ≡ self.old.rested }
        ensures unfilled { OnErr result (self.new ≡ self.old) }
        ensures arena { sender.new.arena ≡ sender.old.arena }
        ensures begins { OnOk result (BeginsWith self.old.keeper.history sender.old.seen.front) }
        ensures front { OnOk result (sender.new.seen.front ≡ self.old.keeper.history) }
        ensures found { IfOk result (λ i. i ≡ lookup self.old.keeper.history (ref_of class meta) sel) }
        ensures listed { IfOk result (λ i. i ≤ last_imp self.old.keeper.history.origin.counts) }
        ensures ok { OnOk result (ask_fault (classes self.old.arena) class sel ≡ None) }
        ensures err { IfErr result (λ f. ask_fault (classes self.old.arena) class sel ≡ Some f) }
        ensures left { OnErr result ((sender.new ≡ sender.old) × (notes.new ≡ notes.old)) }
        ensures notes { AreNotesOf sender.new.seen.front notes.new }
        ensures noted { IfOk result (HaveNoted notes.new self.old.keeper.history (ref_of class meta) sel) }
        ensures others { HaveOthersOf (ref_of class meta) sel notes.old notes.new }
        ensures stamped { StayStamped (layout self.old.arena) notes.old notes.new }
    {
        let (class, sel) = asked(self.class_count(), class, meta, sel)?;
        Ok(self.answer(sender, notes, class, sel).number())
    }
}
