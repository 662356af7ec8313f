//! Lists of changes in numbers.

ghost use Rattle.std.specs.Prelude.{◌≡◌, ◌≢◌, ◌<◌, ◌≤◌, ◌⊎◌, true, IfOk, IfErr, OnErr, OnOk, length};
ghost use Rattle.std.specs.Result.{is_ok};
ghost use Rattle.msg_tables.specs.FaultNumber.{change_fault_number};
ghost use Rattle.msg_tables.specs.declared.fault.ChangeFault.{ChangeFault};
ghost use Rattle.msg_runtime.specs.Calls.{KeepsAtLeastRoom};
ghost use Rattle.msg_host.specs.Asking.{IsLeft, want_of_memory, want_of_room};
ghost use Rattle.msg_host.specs.Listing.{AreMeant, AreRowsRefusedAt, AreUnmadeRows, FlushesRows, IsBadRow, LackMemoryIf, MakesRows, TellsRowsBack};
ghost use Rattle.msg_host.specs.Listing.{are_meant, change_in, changes_in, covering_in, exchange_in, method_in, read, ref_in, removal_in};
ghost use Rattle.msg_host.specs.declared.fault.AskFault.{AskFault};

use crate::fault::{AskFault, selector};
use crate::runtime::HostedRuntime;
use msg_names::{ClassRef, ImpRef, Selector};
use msg_runtime::Unmade;
use msg_tables::{ChangeFault, ChangeList, ChangeRef, Refused};

/// A change in numbers. Its kind says which call would make it on its own, and it uses the fields
/// that this call takes: 1 `add`, 2 `replace`, 3 `set`, 4 `exchange`, 5 `make_class` with the
/// superclass in `other`, 6 `make_class` without one, 7 `remove`, 8 `dispose_class`, and 9 `attach`
/// of one method, which covers what the class reference had. A class number with a 0 next to it is
/// the class, and with a 1 its metaclass.
#[repr(C)]
#[derive(Clone, Copy)]
pub struct ChangeRow {
    pub kind: u32,
    pub class: u32,
    pub meta: u32,
    pub sel: u32,
    pub imp: u32,
    pub other: u32,
    pub other_meta: u32,
    pub other_sel: u32,
}

// Why the changes of rows aren't made, or what they affect isn't found: the place of a row, and the
// number of its fault.
#[derive(Clone, Copy)]
pub(crate) struct RowFault {
    pub(crate) place: usize,
    pub(crate) number: u32,
}

impl RowFault {
    // The fault of a list of changes that was refused.
    #[tactic(auto, using(crate::proofs::ListingLemmas::no_want_of_room, crate::proofs::ChangingLemmas::memory_of_number))]
    pub(crate) fn of(refused: Refused) -> RowFault
        ensures place { result.place ≡ refused.place }
        ensures number { result.number ≡ change_fault_number refused.fault }
        ensures room { result.number ≢ want_of_room }
        ensures memory { result.number ≡ want_of_memory → refused.fault ≡ ChangeFault.Memory }
    {
        RowFault {
            place: refused.place,
            number: refused.fault.number(),
        }
    }

    // Writes the place, and returns the number.
    pub(crate) fn tell(self, place: &mut usize) -> u32
        ensures place { place.new ≡ self.place }
        ensures number { result ≡ self.number }
    {
        *place = self.place;
        self.number
    }
}

// The class reference of a class number and of the number next to it.
fn class_ref(class: u32, meta: u32) -> Result<ClassRef, AskFault>
    ensures { result ≡ ref_in class meta }
{
    match meta {
        0 => Ok(ClassRef { class, meta: false }),
        1 => Ok(ClassRef { class, meta: true }),
        _ => Err(AskFault::BadRow),
    }
}

// The method that numbers name.
fn method_of_row(class: u32, meta: u32, sel: u32) -> Result<(ClassRef, Selector), AskFault>
    ensures { result ≡ method_in class meta sel }
{
    let class = class_ref(class, meta)?;
    let sel = selector(sel)?;
    Ok((class, sel))
}

impl ChangeRow {
    // The method that the row names first.
    fn method(self) -> Result<(ClassRef, Selector), AskFault>
        ensures { result ≡ method_in self.class self.meta self.sel }
    {
        method_of_row(self.class, self.meta, self.sel)
    }

    // The exchange of the two methods that the row names.
    fn exchange<'c>(self) -> Result<ChangeRef<'c>, AskFault>
        ensures { read result ≡ exchange_in self }
    {
        let (class, sel) = self.method()?;
        let (other, other_sel) = method_of_row(self.other, self.other_meta, self.other_sel)?;
        Ok(ChangeRef::Exchange {
            class,
            sel,
            other,
            other_sel,
        })
    }

    // The removal of the method that the row names.
    fn removal<'c>(self) -> Result<ChangeRef<'c>, AskFault>
        ensures { read result ≡ removal_in self }
    {
        let (class, sel) = self.method()?;
        Ok(ChangeRef::Remove { class, sel })
    }

    // The category of the one method that the row names.
    fn cover<'c>(self) -> Result<ChangeRef<'c>, AskFault>
        ensures { read result ≡ covering_in self }
    {
        let (class, sel) = self.method()?;
        let imp = ImpRef::of(self.imp);
        Ok(ChangeRef::Cover { class, sel, imp })
    }

    // Whether the row adds, replaces or sets a method, as most rows do, and names it.
    #[inline(always)]
    fn is_common(self) -> bool
        ensures { result ≡ true → is_ok (change_in self) ≡ true }
    {
        (1..=3).contains(&self.kind) && self.meta <= 1 && self.sel != 0
    }

    // The change that the row means.
    #[inline(always)]
    fn change<'c>(self) -> Result<ChangeRef<'c>, AskFault>
        ensures { read result ≡ change_in self }
    {
        match self.kind {
            1 => {
                let (class, sel) = self.method()?;
                let imp = ImpRef::of(self.imp);
                Ok(ChangeRef::Add { class, sel, imp })
            }
            2 => {
                let (class, sel) = self.method()?;
                let imp = ImpRef::of(self.imp);
                Ok(ChangeRef::Replace { class, sel, imp })
            }
            3 => {
                let (class, sel) = self.method()?;
                let imp = ImpRef::of(self.imp);
                Ok(ChangeRef::SetImp { class, sel, imp })
            }
            4 => self.exchange(),
            5 => Ok(ChangeRef::AddClass {
                class: self.class,
                superclass: Some(self.other),
            }),
            6 => Ok(ChangeRef::AddClass {
                class: self.class,
                superclass: None,
            }),
            7 => self.removal(),
            8 => Ok(ChangeRef::DisposeClass { class: self.class }),
            9 => self.cover(),
            _ => Err(AskFault::BadRow),
        }
    }
}

// Rows each of which means a change.
#[derive(Clone, Copy)]
pub(crate) struct MeantRows<'r> {
    rows: &'r [ChangeRow],
    ghost meant: { are_meant rows.now ≡ true },
}

impl ChangeList for MeantRows<'_> {
    ghost changes = { λ list. changes_in list.rows.now };

    #[inline(always)]
    fn len(&self) -> usize {
        self.rows.len()
    }

    #[inline(always)]
    fn get(&self, place: usize) -> ChangeRef<'_> {
        let change: Result<_, _> = self.rows[place].change();
        change.unwrap()
    }
}

// The rows, if each means a change; or the first that means none.
#[inline(always)]
pub(crate) fn meant(rows: &[ChangeRow]) -> Result<MeantRows<'_>, RowFault>
    ensures rows { IfOk result (λ list. list.rows.now ≡ rows.now) }
    ensures ok { IfOk result (λ list. AreMeant rows.now (changes_in rows.now)) }
    ensures err { IfErr result (λ r. IsBadRow rows.now r.place r.number) }
    ensures fault { IfErr result (λ r. (r.number ≢ 0) × (r.number ≢ want_of_room) × (r.number ≢ want_of_memory)) }
    ensures place { IfErr result (λ r. r.place < length rows.now) }
{
    for (place, row) in rows.iter().enumerate() {
        if row.is_common() {
            continue;
        }
        if let Err(fault) = row.change() {
            let number = fault.number();
            return Err(RowFault { place, number });
        }
    }
    Ok(MeantRows { rows })
}

// Why the changes of rows aren't made: a fault, or the number of changes of their way back, which
// is more than it may have.
#[derive(Clone, Copy)]
pub(crate) enum RowsUnmade {
    Fault(RowFault),
    TooLong(usize),
}

impl HostedRuntime {
    // Makes the changes of rows as one, if their way back has at most this number of changes.
    // Otherwise it returns why not, and changes nothing. What the changes wrote is noted.
    #[inline(always)]
    pub(crate) fn change_rows(&mut self, rows: &[ChangeRow], most: usize) -> Result<(), RowsUnmade>
        ensures arena { self.new.arena ≡ self.old.arena }
        ensures given { self.new.keeper.given ≡ self.old.keeper.given }
        ensures rested { self.new.rested ≡ self.old.rested }
        ensures made { OnOk result (MakesRows rows.now self.old self.new) }
        ensures keeps_room { OnOk result (KeepsAtLeastRoom self.old self.new) }
        ensures flushed { OnOk result (FlushesRows rows.now self.old self.new) }
        ensures back { OnOk result (TellsRowsBack rows.now self.old.keeper.history self.new.written.entries) }
        ensures fits { OnOk result (length self.new.written.entries ≤ most) }
        ensures left { OnErr result (IsLeft self.old self.new) }
        ensures unmade { IfErr result (AreUnmadeRows rows.now self.old most) }
    {
        let changes = match meant(rows) {
            Ok(changes) => changes,
            Err(fault) => return Err(RowsUnmade::Fault(fault)),
        };
        match self.change_all(&changes, most) {
            Ok(_count) => Ok(()),
            Err(Unmade::Refused(refused)) => Err(RowsUnmade::Fault(RowFault::of(refused))),
            Err(Unmade::TooLong(count)) => Err(RowsUnmade::TooLong(count)),
        }
    }

    /// Makes the changes of rows as one. Returns 0, or the number of the fault, after which nothing
    /// has changed. `place` is then the place of a row, from 0. The row means no change, or is the
    /// first that would be refused or that lacks memory. Rows that mean no change are found before
    /// any change is made.
    pub fn make_all(&mut self, rows: &[ChangeRow], place: &mut usize) -> u32
        ensures arena { self.new.arena ≡ self.old.arena }
        ensures given { self.new.keeper.given ≡ self.old.keeper.given }
        ensures rested { self.new.rested ≡ self.old.rested }
        ensures made { result ≡ 0 → MakesRows rows.now self.old self.new }
        ensures keeps_room { result ≡ 0 → KeepsAtLeastRoom self.old self.new }
        ensures flushed { result ≡ 0 → FlushesRows rows.now self.old self.new }
        ensures left { result ≢ 0 → IsLeft self.old self.new }
        ensures place { result ≢ 0 → place.new < length rows.now }
        ensures kept { result ≡ 0 → place.new ≡ place.old }
        ensures fault { result ≢ 0 → AreRowsRefusedAt rows.now self.old.keeper.history place.new result }
        ensures memory { LackMemoryIf rows.now self.old place.new result }
    {
        match self.change_rows(rows, usize::MAX) {
            Ok(()) => 0,
            Err(RowsUnmade::Fault(fault)) => fault.tell(place),
            Err(RowsUnmade::TooLong(_count)) => unreachable!(),
        }
    }
}
