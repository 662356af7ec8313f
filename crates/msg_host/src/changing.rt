//! Changes in numbers.

ghost use Rattle.std.specs.Prelude.{◌≡◌, ◌≢◌, IfOk, IfErr};
ghost use Rattle.msg_tables.specs.declared.change.Change.{Change};
ghost use Rattle.msg_host.specs.Asking.{AnswersChange, IsLeft, IsListFault, LacksSelector, pairs_of};
ghost use Rattle.msg_host.specs.Named.{AnswersExchange, AnswersFor, TellsAttachFault, TellsAttached};
ghost use Rattle.msg_host.specs.Named.{addition, removal, replacement, setting};

use crate::fault::{AskFault, selector};
use crate::runtime::HostedRuntime;
use msg_names::{ClassRef, ImpRef};
use msg_tables::{Change, ChangeFault, MethodList};
use std::alloc::Global;

/// A method of a category that is attached.
#[repr(C)]
#[derive(Clone, Copy)]
pub struct MethodRow {
    pub sel: u32,
    pub imp: u32,
}

// Makes the method list of rows, or returns the number of the fault.
fn method_list(alloc: Global, rows: &[MethodRow]) -> Result<MethodList, u32>
    ensures ok { IfOk result (λ m. m ≡ pairs_of rows.now) }
    ensures err { IfErr result (λ n. IsListFault rows.now n) }
{
    let mut pairs = Vec::new(alloc);
    for row in rows {
        let sel = match selector(row.sel) {
            Ok(sel) => sel,
            Err(fault) => return Err(fault.number()),
        };
        if pairs.push((sel, ImpRef::of(row.imp))).is_err() {
            return Err(ChangeFault::Memory.number());
        }
    }
    Ok(MethodList::new(pairs))
}

impl HostedRuntime {
    // Makes a change. Returns 0, or the number of the fault.
    #[tactic(auto, using(crate::proofs::ChangingLemmas::memory_of_number))]
    fn make(&mut self, change: &Change) -> u32
        ensures { AnswersChange self.old self.new change.now result }
    {
        match self.change(change) {
            Ok(_count) => 0,
            Err(fault) => fault.number(),
        }
    }

    /// `class_addMethod`. Returns 0, or the number of the fault, after which nothing has changed.
    pub fn add(&mut self, class: u32, meta: bool, sel: u32, imp: u32) -> u32
        ensures no_selector { LacksSelector self.old self.new sel result }
        ensures change { AnswersFor sel self.old self.new (addition class meta sel imp) result }
    {
        match selector(sel) {
            Ok(sel) => self.make(&Change::Add {
                class: ClassRef { class, meta },
                sel,
                imp: ImpRef::of(imp),
            }),
            Err(fault) => fault.number(),
        }
    }

    /// `class_replaceMethod`, with the same results.
    pub fn replace(&mut self, class: u32, meta: bool, sel: u32, imp: u32) -> u32
        ensures no_selector { LacksSelector self.old self.new sel result }
        ensures change { AnswersFor sel self.old self.new (replacement class meta sel imp) result }
    {
        match selector(sel) {
            Ok(sel) => self.make(&Change::Replace {
                class: ClassRef { class, meta },
                sel,
                imp: ImpRef::of(imp),
            }),
            Err(fault) => fault.number(),
        }
    }

    /// `method_setImplementation` of the method that `class_getInstanceMethod` finds, with the same
    /// results.
    pub fn set(&mut self, class: u32, meta: bool, sel: u32, imp: u32) -> u32
        ensures no_selector { LacksSelector self.old self.new sel result }
        ensures change { AnswersFor sel self.old self.new (setting class meta sel imp) result }
    {
        match selector(sel) {
            Ok(sel) => self.make(&Change::SetImp {
                class: ClassRef { class, meta },
                sel,
                imp: ImpRef::of(imp),
            }),
            Err(fault) => fault.number(),
        }
    }

    /// `method_exchangeImplementations` of two methods that `class_getInstanceMethod` finds, with
    /// the same results.
    pub fn exchange(&mut self, class: ClassRef, sel: u32, other: ClassRef, other_sel: u32) -> u32
        ensures no_selector { LacksSelector self.old self.new sel result }
        ensures no_other { LacksSelector self.old self.new other_sel result }
        ensures change { AnswersExchange self.old self.new class sel other other_sel result }
    {
        match (selector(sel), selector(other_sel)) {
            (Ok(sel), Ok(other_sel)) => self.make(&Change::Exchange {
                class,
                sel,
                other,
                other_sel,
            }),
            _ => AskFault::NoSelector.number(),
        }
    }

    /// Attaches a category, as `attachCategories` does: methods for the class, and others for its
    /// metaclass. The results are the same.
    pub fn attach(
        &mut self,
        alloc: Global,
        class: u32,
        methods: &[MethodRow],
        class_methods: &[MethodRow],
    ) -> u32
        ensures arena { self.new.arena ≡ self.old.arena }
        ensures given { self.new.keeper.given ≡ self.old.keeper.given }
        ensures rested { self.new.rested ≡ self.old.rested }
        ensures made { TellsAttached self.old self.new class methods.now class_methods.now result }
        ensures left { result ≢ 0 → IsLeft self.old self.new }
        ensures fault { TellsAttachFault self.old self.new class methods.now class_methods.now result }
    {
        let methods = match method_list(alloc, methods) {
            Ok(methods) => methods,
            Err(fault) => return fault,
        };
        let class_methods = match method_list(alloc, class_methods) {
            Ok(class_methods) => class_methods,
            Err(fault) => return fault,
        };
        self.make(&Change::Attach {
            class,
            methods,
            class_methods,
        })
    }

    /// `objc_allocateClassPair` with `objc_registerClassPair`, with the same results: makes a
    /// class, without methods, below a superclass or as a root class.
    pub fn make_class(&mut self, class: u32, superclass: Option<u32>) -> u32
        ensures { AnswersChange self.old self.new (Change.AddClass class superclass) result }
    {
        self.make(&Change::AddClass { class, superclass })
    }

    /// `class_removeMethod`, with the same results: removes the class's own method. A method that
    /// it covered counts again.
    pub fn remove(&mut self, class: u32, meta: bool, sel: u32) -> u32
        ensures no_selector { LacksSelector self.old self.new sel result }
        ensures change { AnswersFor sel self.old self.new (removal class meta sel) result }
    {
        match selector(sel) {
            Ok(sel) => self.make(&Change::Remove {
                class: ClassRef { class, meta },
                sel,
            }),
            Err(fault) => fault.number(),
        }
    }

    /// `objc_disposeClassPair`, with the same results: removes a class that was made and has no
    /// class below it, with its metaclass and the methods of both.
    pub fn dispose_class(&mut self, class: u32) -> u32
        ensures { AnswersChange self.old self.new (Change.DisposeClass class) result }
    {
        self.make(&Change::DisposeClass { class })
    }
}
