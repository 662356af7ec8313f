//! Judges changes. Each fault is a test of its own, and the tests come in the order of the faults.
//! Each method is looked up once: the edit that is returned says where the method is.

ghost use Rattle.std.specs.Prelude.{◌≡◌, ◌<◌, ◌≤◌, ◌||◌, length, false, true, not, IfOk, IfSome, IsSome, None};
ghost use Rattle.msg_names.specs.Number.{selector_number, imp_number};
ghost use Rattle.msg_tables.specs.Chain as below;
ghost use Rattle.msg_tables.specs.Chain.{is_directly_below as spec_below, is_present};
ghost use Rattle.msg_tables.specs.ChangeList.{change_of};
ghost use Rattle.msg_tables.specs.Edits.{Fits, HasRoomFor, IsJudged, adding, replacing, setting};
ghost use Rattle.msg_tables.specs.Edits.{fault_of_methods, fault_of_row};
ghost use Rattle.msg_tables.specs.Journal.{IsUndoneBy, MakesTheSame, WritesAt};
ghost use Rattle.msg_tables.specs.Origin.{any_lacks_imp, any_misfits, lacks_imp, last_imp, misfits_in};
ghost use Rattle.msg_tables.specs.Refusal as spec;
ghost use Rattle.msg_tables.specs.Stands.{AtLog};
ghost use Rattle.msg_tables.specs.View.{HasClass, HaveListedImps, own_of};
ghost use Rattle.msg_tables.specs.declared.change.Change.TheVariants.{AddClass, Attach, DisposeClass, Exchange, Remove};
ghost use Rattle.msg_tables.specs.Undo.{covering};

use crate::change::ChangeRef;
use crate::counts::{last_imp, misfits, unlike};
use crate::edit::{Edit, MethodRow};
use crate::fault::ChangeFault;
use crate::methods::MethodList;
use crate::presence::Presence;
use crate::tables::Tables;
use msg_names::{ClassRef, ImpRef, Selector};

fn row(class: ClassRef, sel: Selector, imp: ImpRef) -> MethodRow
    ensures { result ≡ record { class = class; sel = sel; imp = imp } }
{
    MethodRow { class, sel, imp }
}

// Whether a class has this superclass.
fn is_directly_below(class: u32, presence: Option<Presence>) -> bool
    ensures { result ≡ spec_below class presence }
{
    match presence {
        Some(presence) => presence.superclass == Some(class),
        None => false,
    }
}

// Whether some class that is present is directly below this one. It visits all classes.
fn has_subclass(supers: &[Option<Presence>], class: u32) -> bool
    ensures { result ≡ below.has_subclass supers.now class }
{
    supers
        .iter()
        .any(|presence| is_directly_below(class, *presence))
}

impl Tables {
    // Whether no class that is present has this number.
    fn lacks(&self, class: u32) -> bool
        ensures present { result ≡ not (is_present self.now.supers class) }
        ensures listed { result ≡ false → class < length self.now.supers }
    {
        match self.supers.get(class as usize) {
            Some(Some(_)) => false,
            _ => true,
        }
    }

    fn no_class(&self, class: ClassRef) -> bool
        ensures meaning { AtLog self.now (λ h. result ≡ spec.no_class h class) }
        ensures listed { result ≡ false → class.class < length self.now.supers }
        ensures present { result ≡ not (is_present self.now.supers class.class) }
    {
        self.lacks(class.class)
    }

    // Whether no class can be made with this number.
    fn no_number(&self, class: u32) -> bool
        ensures meaning { AtLog self.now (λ h. result ≡ spec.no_number h class) }
        ensures listed { result ≡ false → class < length self.now.supers }
    {
        self.supers.len() <= class as usize
    }

    // Whether the superclass that is named isn't present.
    fn no_superclass(&self, superclass: Option<u32>) -> bool
        ensures meaning { AtLog self.now (λ h. result ≡ spec.no_superclass h superclass) }
        ensures present { result ≡ false → IfSome superclass (HasClass self.now) }
    {
        match superclass {
            Some(class) => self.no_class(ClassRef { class, meta: false }),
            None => false,
        }
    }

    fn no_imp(&self, imp: ImpRef) -> bool
        ensures value { result ≡ lacks_imp self.now.counts (imp_number imp) }
        ensures meaning { AtLog self.now (λ h. result ≡ spec.no_imp h (imp_number imp)) }
        ensures listed { result ≡ false → imp_number imp ≤ last_imp self.now.counts }
    {
        imp.number() == 0 || imp.number() as usize > last_imp(&self.counts)
    }

    fn misfits(&self, sel: Selector, imp: ImpRef) -> bool
        ensures value { result ≡ misfits_in self.now.counts (selector_number sel) (imp_number imp) }
        ensures meaning { AtLog self.now (λ h. result ≡ spec.misfit h sel imp) }
    {
        misfits(&self.counts, sel, imp)
    }

    fn unlike(&self, sel: Selector, other: Selector) -> bool
        ensures { AtLog self.now (λ h. result ≡ spec.are_unlike h sel other) }
    {
        unlike(&self.counts, sel, other)
    }

    fn has_own(&self, class: ClassRef, sel: Selector) -> bool
        requires { class.class < length self.now.supers }
        ensures meaning { AtLog self.now (λ h. result ≡ spec.has_own h class (selector_number sel)) }
        ensures own { result ≡ true → IsSome (own_of self.now class sel) }
    {
        self.own(class, sel).is_some()
    }

    // Whether there is no room for this number of further rows, or for one more change.
    fn is_full(&self, more: usize) -> bool
        ensures meaning { AtLog self.now (λ h. result ≡ spec.is_full h more) }
        ensures room { result ≡ false → HasRoomFor self.now more }
    {
        self.change_count >= self.limits.changes || more as u64 > self.limits.rows - self.row_count
    }

    // Why the row could not be there, whatever rows there are.
    #[inline(always)]
    fn unfit(&self, row: MethodRow) -> Option<ChangeFault>
        ensures meaning { AtLog self.now (λ h. result ≡ fault_of_row h row) }
        ensures class { result ≡ None → row.class.class < length self.now.supers }
        ensures imp { result ≡ None → imp_number row.imp ≤ last_imp self.now.counts }
    {
        if self.no_class(row.class) {
            Some(ChangeFault::NoClass)
        } else if self.no_imp(row.imp) {
            Some(ChangeFault::NoImp)
        } else if self.misfits(row.sel, row.imp) {
            Some(ChangeFault::ArgumentCount)
        } else {
            None
        }
    }

    #[inline(always)]
    fn judge_add<'c>(&self, row: MethodRow) -> Result<Edit<'c>, ChangeFault>
        ensures meaning { IsJudged self.now (adding row) result }
        ensures fits { IfOk result (Fits self.now) }
        ensures places { IfOk result (WritesAt self.now (adding row)) }
        ensures made { IfOk result (MakesTheSame (adding row)) }
        ensures undo { IfOk result (IsUndoneBy self.now (adding row)) }
    {
        if let Some(fault) = self.unfit(row) {
            return Err(fault);
        }
        if self.has_own(row.class, row.sel) {
            return Err(ChangeFault::MethodPresent);
        }
        if self.is_full(1) {
            return Err(ChangeFault::Limit);
        }
        Ok(Edit::Append(row))
    }

    #[inline(always)]
    fn judge_replace<'c>(&self, row: MethodRow) -> Result<Edit<'c>, ChangeFault>
        ensures meaning { IsJudged self.now (replacing row) result }
        ensures fits { IfOk result (Fits self.now) }
        ensures places { IfOk result (WritesAt self.now (replacing row)) }
        ensures made { IfOk result (MakesTheSame (replacing row)) }
        ensures undo { IfOk result (IsUndoneBy self.now (replacing row)) }
    {
        if let Some(fault) = self.unfit(row) {
            return Err(fault);
        }
        if self.has_own(row.class, row.sel) {
            if self.is_full(0) {
                return Err(ChangeFault::Limit);
            }
            return Ok(Edit::Rewrite(row));
        }
        if self.is_full(1) {
            return Err(ChangeFault::Limit);
        }
        Ok(Edit::Append(row))
    }

    #[inline(always)]
    fn judge_set<'c>(&self, row: MethodRow) -> Result<Edit<'c>, ChangeFault>
        ensures meaning { IsJudged self.now (setting row) result }
        ensures fits { IfOk result (Fits self.now) }
        ensures places { IfOk result (WritesAt self.now (setting row)) }
        ensures made { IfOk result (MakesTheSame (setting row)) }
        ensures undo { IfOk result (IsUndoneBy self.now (setting row)) }
    {
        if let Some(fault) = self.unfit(row) {
            return Err(fault);
        }
        let Some(found) = self.method(row.class, row.sel) else {
            return Err(ChangeFault::NoMethod);
        };
        if self.is_full(0) {
            return Err(ChangeFault::Limit);
        }
        Ok(Edit::Rewrite(MethodRow {
            class: found.holder,
            sel: row.sel,
            imp: row.imp,
        }))
    }

    fn no_class_of_two(&self, class: ClassRef, other: ClassRef) -> bool
        ensures meaning { AtLog self.now (λ h. result ≡ (spec.no_class h class || spec.no_class h other)) }
        ensures class { result ≡ false → class.class < length self.now.supers }
        ensures other { result ≡ false → other.class < length self.now.supers }
    {
        self.no_class(class) || self.no_class(other)
    }

    fn judge_exchange<'c>(
        &self,
        class: ClassRef,
        sel: Selector,
        other: ClassRef,
        other_sel: Selector,
    ) -> Result<Edit<'c>, ChangeFault>
        ensures meaning { IsJudged self.now (Exchange class sel other other_sel) result }
        ensures fits { IfOk result (Fits self.now) }
        ensures places { IfOk result (WritesAt self.now (Exchange class sel other other_sel)) }
        ensures made { IfOk result (MakesTheSame (Exchange class sel other other_sel)) }
        ensures undo { IfOk result (IsUndoneBy self.now (Exchange class sel other other_sel)) }
    {
        if self.no_class_of_two(class, other) {
            return Err(ChangeFault::NoClass);
        }
        if self.unlike(sel, other_sel) {
            return Err(ChangeFault::ArgumentCount);
        }
        let Some(first) = self.method(class, sel) else {
            return Err(ChangeFault::NoMethod);
        };
        let Some(second) = self.method(other, other_sel) else {
            return Err(ChangeFault::NoMethod);
        };
        if self.is_full(0) {
            return Err(ChangeFault::Limit);
        }
        Ok(Edit::RewriteBoth(
            MethodRow {
                class: first.holder,
                sel,
                imp: second.imp,
            },
            MethodRow {
                class: second.holder,
                sel: other_sel,
                imp: first.imp,
            },
        ))
    }

    fn any_no_imp(&self, methods: &[(Selector, ImpRef)]) -> bool
        ensures { result ≡ any_lacks_imp self.now.counts methods.now }
    {
        methods.iter().any(|m| self.no_imp(m.1))
    }

    fn any_no_imp_of_two(&self, own: &[(Selector, ImpRef)], meta: &[(Selector, ImpRef)]) -> bool
        ensures { result ≡ (any_lacks_imp self.now.counts own.now || any_lacks_imp self.now.counts meta.now) }
    {
        self.any_no_imp(own) || self.any_no_imp(meta)
    }

    fn any_misfits(&self, methods: &[(Selector, ImpRef)]) -> bool
        ensures { result ≡ any_misfits self.now.counts methods.now }
    {
        methods.iter().any(|m| self.misfits(m.0, m.1))
    }

    fn any_misfits_of_two(&self, own: &[(Selector, ImpRef)], meta: &[(Selector, ImpRef)]) -> bool
        ensures { result ≡ (any_misfits self.now.counts own.now || any_misfits self.now.counts meta.now) }
    {
        self.any_misfits(own) || self.any_misfits(meta)
    }

    // Why the methods could not be attached, whatever rows there are.
    fn unfit_methods(&self, methods: &MethodList, class_methods: &MethodList) -> Option<ChangeFault>
        ensures meaning { AtLog self.now (λ h. result ≡ fault_of_methods h methods.now class_methods.now) }
        ensures methods { result ≡ None → HaveListedImps self.now methods.now }
        ensures class_methods { result ≡ None → HaveListedImps self.now class_methods.now }
    {
        let own = methods.as_slice();
        let meta = class_methods.as_slice();
        if self.any_no_imp_of_two(own, meta) {
            return Some(ChangeFault::NoImp);
        }
        if self.any_misfits_of_two(own, meta) {
            return Some(ChangeFault::ArgumentCount);
        }
        None
    }

    fn judge_attach<'c>(
        &self,
        class: u32,
        methods: &'c MethodList,
        class_methods: &'c MethodList,
    ) -> Result<Edit<'c>, ChangeFault>
        ensures meaning { IsJudged self.now (Attach class methods.now class_methods.now) result }
        ensures fits { IfOk result (Fits self.now) }
        ensures places { IfOk result (WritesAt self.now (Attach class methods.now class_methods.now)) }
        ensures made { IfOk result (MakesTheSame (Attach class methods.now class_methods.now)) }
        ensures undo { IfOk result (IsUndoneBy self.now (Attach class methods.now class_methods.now)) }
    {
        if self.no_class(ClassRef { class, meta: false }) {
            return Err(ChangeFault::NoClass);
        }
        if let Some(fault) = self.unfit_methods(methods, class_methods) {
            return Err(fault);
        }
        let own = methods.as_slice().len();
        let meta = class_methods.as_slice().len();
        if self.is_full(own + meta) {
            return Err(ChangeFault::Limit);
        }
        Ok(Edit::Attach {
            class,
            methods,
            class_methods,
        })
    }

    fn judge_make<'c>(&self, class: u32, superclass: Option<u32>) -> Result<Edit<'c>, ChangeFault>
        ensures meaning { IsJudged self.now (AddClass class superclass) result }
        ensures fits { IfOk result (Fits self.now) }
        ensures places { IfOk result (WritesAt self.now (AddClass class superclass)) }
        ensures made { IfOk result (MakesTheSame (AddClass class superclass)) }
        ensures undo { IfOk result (IsUndoneBy self.now (AddClass class superclass)) }
    {
        if self.no_number(class) {
            return Err(ChangeFault::NoClass);
        }
        if self.no_superclass(superclass) {
            return Err(ChangeFault::NoClass);
        }
        if self.is_full(0) {
            return Err(ChangeFault::Limit);
        }
        if !self.no_class(ClassRef { class, meta: false }) {
            return Err(ChangeFault::DuplicateClass);
        }
        Ok(Edit::Make(class, superclass))
    }

    fn judge_remove<'c>(&self, class: ClassRef, sel: Selector) -> Result<Edit<'c>, ChangeFault>
        ensures meaning { IsJudged self.now (Remove class sel) result }
        ensures fits { IfOk result (Fits self.now) }
        ensures places { IfOk result (WritesAt self.now (Remove class sel)) }
        ensures made { IfOk result (MakesTheSame (Remove class sel)) }
        ensures undo { IfOk result (IsUndoneBy self.now (Remove class sel)) }
    {
        if self.no_class(class) {
            return Err(ChangeFault::NoClass);
        }
        if self.unlike(sel, sel) {
            return Err(ChangeFault::ArgumentCount);
        }
        if !self.has_own(class, sel) {
            return Err(ChangeFault::NoMethod);
        }
        if self.is_full(0) {
            return Err(ChangeFault::Limit);
        }
        Ok(Edit::Remove(class, sel))
    }

    // Whether the class was listed when the tables were opened, or has a class below it.
    fn is_in_use(&self, class: u32) -> bool
        requires { is_present self.now.supers class ≡ true }
        ensures meaning { AtLog self.now (λ h. result ≡ spec.is_in_use h class) }
        ensures below { result ≡ false → below.has_subclass self.now.supers class ≡ false }
    {
        class < self.listed || has_subclass(&self.supers, class)
    }

    fn judge_dispose<'c>(&self, class: u32) -> Result<Edit<'c>, ChangeFault>
        ensures meaning { IsJudged self.now (DisposeClass class) result }
        ensures fits { IfOk result (Fits self.now) }
        ensures places { IfOk result (WritesAt self.now (DisposeClass class)) }
        ensures made { IfOk result (MakesTheSame (DisposeClass class)) }
        ensures undo { IfOk result (IsUndoneBy self.now (DisposeClass class)) }
    {
        if self.no_class(ClassRef { class, meta: false }) {
            return Err(ChangeFault::NoClass);
        }
        if self.is_full(0) {
            return Err(ChangeFault::Limit);
        }
        if self.is_in_use(class) {
            return Err(ChangeFault::ClassInUse);
        }
        Ok(Edit::Dispose(class))
    }

    // A category of one method.
    fn judge_cover<'c>(&self, row: MethodRow) -> Result<Edit<'c>, ChangeFault>
        ensures meaning { IsJudged self.now (covering row.class (selector_number row.sel) (imp_number row.imp)) result }
        ensures fits { IfOk result (Fits self.now) }
        ensures places { IfOk result
            (WritesAt self.now (covering row.class (selector_number row.sel) (imp_number row.imp))) }
        ensures made { IfOk result (MakesTheSame (covering row.class (selector_number row.sel) (imp_number row.imp))) }
        ensures undo { IfOk result
            (IsUndoneBy self.now (covering row.class (selector_number row.sel) (imp_number row.imp))) }
    {
        if let Some(fault) = self.unfit(row) {
            return Err(fault);
        }
        if self.is_full(1) {
            return Err(ChangeFault::Limit);
        }
        Ok(Edit::Append(row))
    }

    // Returns what the change would write, or the least fault for which it is refused.
    #[inline(always)]
    pub(crate) fn judge<'c>(&self, change: ChangeRef<'c>) -> Result<Edit<'c>, ChangeFault>
        ensures meaning { IsJudged self.now (change_of change.entry) result }
        ensures fits { IfOk result (Fits self.now) }
        ensures places { IfOk result (WritesAt self.now (change_of change.entry)) }
        ensures made { IfOk result (MakesTheSame (change_of change.entry)) }
        ensures undo { IfOk result (IsUndoneBy self.now (change_of change.entry)) }
    {
        match change {
            ChangeRef::Add { class, sel, imp } => self.judge_add(row(class, sel, imp)),
            ChangeRef::Replace { class, sel, imp } => self.judge_replace(row(class, sel, imp)),
            ChangeRef::SetImp { class, sel, imp } => self.judge_set(row(class, sel, imp)),
            ChangeRef::Exchange {
                class,
                sel,
                other,
                other_sel,
            } => self.judge_exchange(class, sel, other, other_sel),
            ChangeRef::Attach {
                class,
                methods,
                class_methods,
            } => self.judge_attach(class, methods, class_methods),
            ChangeRef::AddClass { class, superclass } => self.judge_make(class, superclass),
            ChangeRef::Remove { class, sel } => self.judge_remove(class, sel),
            ChangeRef::DisposeClass { class } => self.judge_dispose(class),
            ChangeRef::Cover { class, sel, imp } => self.judge_cover(row(class, sel, imp)),
        }
    }
}
