//! Several lookups in numbers, answered as one.

ghost use Rattle.std.specs.Prelude.{◌≡◌, ◌+◌, true, false, Ok, IfOk, IfErr, OnErr, OnOk, length};
ghost use Rattle.msg_tables.specs.History.{BeginsWith};
ghost use Rattle.msg_cache.specs.Views.{classes, layout};
ghost use Rattle.msg_reader.specs.Cost.{ProbesAtMost};
ghost use Rattle.msg_reader.specs.Notes.{AreNotesOf, StayStamped};
ghost use Rattle.msg_runtime.specs.Calls.{KeepsRoom};
ghost use Rattle.msg_host.specs.Lookups as spec;
ghost use Rattle.msg_host.specs.Lookups.{AreRefusedLookups, AreRowsFound, AreRowsFoundAt, AreTakenLookups};
ghost use Rattle.msg_host.specs.Lookups.{RowsAreNoted, RowsAreNotedOrAt, RowsKeepOthers, RowsLackOne, RowsMissOne};
ghost use Rattle.msg_host.specs.Lookups.{are_asked, lookup_in, lookups_in};

use crate::fault::{AskFault, NO_ROOM, asked_class, selector};
use crate::runtime::HostedRuntime;
use crate::sender::HostedSender;
use msg_reader::{Lookup, LookupList, Notes};

/// A lookup in numbers: of a selector from the class with that number, if a 0 is next to it, or
/// from its metaclass, if a 1 is.
#[repr(C)]
#[derive(Clone, Copy)]
pub struct LookupRow {
    pub class: u32,
    pub meta: u32,
    pub sel: u32,
}

impl LookupRow {
    // The lookup from its class or from the metaclass, among this number of classes.
    fn lookup_by(self, classes: u32, meta: bool) -> Result<Lookup, AskFault>
        ensures { result ≡ spec.lookup_by classes self.class meta self.sel }
    {
        let class = asked_class(classes, self.class, meta)?;
        let sel = selector(self.sel)?;
        Ok(Lookup { class, sel })
    }

    // The lookup that the row means, among this number of classes.
    fn lookup(self, classes: u32) -> Result<Lookup, AskFault>
        ensures { result ≡ lookup_in classes self }
    {
        match self.meta {
            0 => self.lookup_by(classes, false),
            1 => self.lookup_by(classes, true),
            _ => Err(AskFault::BadRow),
        }
    }
}

// Rows each of which means a lookup, among this number of classes.
#[derive(Clone, Copy)]
pub(crate) struct LookupRows<'r> {
    rows: &'r [LookupRow],
    classes: u32,
    ghost asked: { are_asked classes rows.now ≡ true },
}

impl LookupList for LookupRows<'_> {
    ghost lookups = { λ list. lookups_in list.classes list.rows.now };

    #[inline(always)]
    fn len(&self) -> usize {
        self.rows.len()
    }

    #[inline(always)]
    fn get(&self, place: usize) -> Lookup {
        let lookup: Result<_, _> = self.rows[place].lookup(self.classes);
        lookup.unwrap()
    }
}

// The rows, if `imps` has as many places and each means a lookup. Otherwise it returns the number
// of the fault, and writes the place of the first row that means none.
fn judged<'r>(
    classes: u32,
    rows: &'r [LookupRow],
    places: usize,
    place: &mut usize,
) -> Result<LookupRows<'r>, u32>
    ensures rows { IfOk result (λ list. (list.rows.now ≡ rows.now) × (list.classes ≡ classes)) }
    ensures ok { OnOk result (AreTakenLookups classes rows.now places place.old place.new) }
    ensures err { IfErr result (AreRefusedLookups classes rows.now places place.old place.new) }
{
    if places != rows.len() {
        return Err(NO_ROOM);
    }
    for (at, row) in rows.iter().enumerate() {
        if let Err(fault) = row.lookup(classes) {
            *place = at;
            return Err(fault.number());
        }
    }
    Ok(LookupRows { rows, classes })
}

impl HostedSender {
    /// Whether the lookups of rows were found, all at one point of the history. That point is no
    /// older than what the sender had seen, and the sender has then seen it. `imps` has the numbers
    /// of the implementations, 0 for forwarding. The call needs no lock.
    ///
    /// They aren't found if the notes and a cache lack one of them, or if a change that affects the
    /// class reference of one has fallen among them. Then ask the runtime; `imps` has no meaning.
    /// An error is the number of a fault: 76 if `imps` has another number of places, or that of the
    /// first row that means no lookup, with its place.
    pub fn probe_all(
        &mut self,
        notes: &mut Notes,
        rows: &[LookupRow],
        imps: &mut [u32],
        place: &mut usize,
    ) -> Result<bool, u32>
        requires notes { AreNotesOf self.old.seen.front notes.old }
        ensures arena { self.new.arena ≡ self.old.arena }
        ensures begins { BeginsWith self.new.seen.front self.old.seen.front }
        ensures found { result ≡ Ok true → AreRowsFound self.old.seen self.new.seen rows.now imps.new }
        ensures noted { result ≡ Ok true
            → RowsAreNoted self.old.arena notes.new self.old.seen self.new.seen rows.now imps.new }
        ensures others { OnOk result (RowsKeepOthers self.old.arena notes.old notes.new rows.now) }
        ensures looked { OnOk result (self.new.seen.looks ≡ self.old.seen.looks + 1) }
        ensures recalled { result ≡ Ok false
            → RowsLackOne self.old.arena notes.old rows.now self.old.seen self.new.seen }
        ensures missed { result ≡ Ok false → RowsMissOne self.old.arena rows.now self.old.seen self.new.seen }
        ensures probed { ProbesAtMost (length rows.now) self.old.seen self.new.seen }
        ensures ok { OnOk result
            (AreTakenLookups (classes self.old.arena) rows.now (length imps.old) place.old place.new) }
        ensures err { IfErr result
            (AreRefusedLookups (classes self.old.arena) rows.now (length imps.old) place.old place.new) }
        ensures left { OnErr result ((self.new ≡ self.old) × (notes.new ≡ notes.old) × (imps.new ≡ imps.old)) }
        ensures notes { AreNotesOf self.new.seen.front notes.new }
        ensures stamped { StayStamped (layout self.old.arena) notes.old notes.new }
    {
        let lookups = judged(self.class_count(), rows, imps.len(), place)?;
        Ok(self.try_find_all(notes, &lookups, imps))
    }
}

impl HostedRuntime {
    /// Answers the lookups of rows by the numbers of the implementations, 0 for forwarding, all at
    /// the whole history, which the sender has then seen. What its notes lack is noted, and cached
    /// if there is room. An error is the number of a fault, as for
    /// [`probe_all`](HostedSender::probe_all).
    pub fn fill_all(
        &mut self,
        sender: &mut HostedSender,
        notes: &mut Notes,
        rows: &[LookupRow],
        imps: &mut [u32],
        place: &mut usize,
    ) -> Result<(), u32>
        requires sender { sender.old.arena ≡ self.old.arena }
        requires notes { AreNotesOf sender.old.seen.front notes.old }
        ensures same { self.new.arena ≡ self.old.arena }
        ensures history { self.new.keeper.history ≡ self.old.keeper.history }
        ensures remembered { self.new.remembered ≡ self.old.remembered }
        ensures room { KeepsRoom self.old self.new }
        ensures rested { self.new.rested ≡ self.old.rested }
        ensures unfilled { OnErr result (self.new ≡ self.old) }
        ensures arena { sender.new.arena ≡ sender.old.arena }
        ensures begins { OnOk result (BeginsWith self.old.keeper.history sender.old.seen.front) }
        ensures front { OnOk result (sender.new.seen.front ≡ self.old.keeper.history) }
        ensures found { OnOk result (AreRowsFoundAt self.old.keeper.history rows.now imps.new) }
        ensures noted { OnOk result (RowsAreNotedOrAt self.old.arena self.old.keeper.history notes.new
            sender.old.seen sender.new.seen rows.now imps.new) }
        ensures others { OnOk result (RowsKeepOthers self.old.arena notes.old notes.new rows.now) }
        ensures ok { OnOk result
            (AreTakenLookups (classes self.old.arena) rows.now (length imps.old) place.old place.new) }
        ensures err { IfErr result
            (AreRefusedLookups (classes self.old.arena) rows.now (length imps.old) place.old place.new) }
        ensures left { OnErr result ((sender.new ≡ sender.old) × (notes.new ≡ notes.old) × (imps.new ≡ imps.old)) }
        ensures notes { AreNotesOf sender.new.seen.front notes.new }
        ensures stamped { StayStamped (layout self.old.arena) notes.old notes.new }
    {
        let lookups = judged(self.class_count(), rows, imps.len(), place)?;
        self.answer_all(sender, notes, &lookups, imps);
        Ok(())
    }
}
