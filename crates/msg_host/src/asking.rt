//! Questions in numbers.

ghost use Rattle.std.specs.Prelude.{◌≡◌, ◌≤◌, None, Some, IfOk, IfErr, OnOk};
ghost use Rattle.msg_tables.specs.Origin.{last_imp};
ghost use Rattle.msg_tables.specs.History.{holder, lookup, superclass};
ghost use Rattle.msg_cache.specs.Views.{classes};
ghost use Rattle.msg_host.specs.Asking.{ask_fault};
ghost use Rattle.msg_host.specs.Named.{ref_of};

use crate::fault::{AskFault, asked, asked_class};
use crate::runtime::HostedRuntime;
use msg_names::ClassRef;

impl HostedRuntime {
    /// `class_getMethodImplementation`: the number of the implementation that a lookup finds now,
    /// or of forwarding. It reads and fills no cache.
    pub fn lookup(&self, class: u32, meta: bool, sel: u32) -> Result<u32, AskFault>
        ensures found { IfOk result (λ i. i ≡ lookup self.now.keeper.history (ref_of class meta) sel) }
        ensures listed { IfOk result (λ i. i ≤ last_imp self.now.keeper.history.origin.counts) }
        ensures ok { OnOk result (ask_fault (classes self.now.arena) class sel ≡ None) }
        ensures err { IfErr result (λ f. ask_fault (classes self.now.arena) class sel ≡ Some f) }
    {
        let (class, sel) = asked(self.class_count(), class, meta, sel)?;
        Ok(self.runtime.lookup(class, sel).number())
    }

    /// The class reference that has the method which `class_getInstanceMethod` finds.
    pub fn holder(&self, class: u32, meta: bool, sel: u32) -> Result<Option<ClassRef>, AskFault>
        ensures found { IfOk result (λ p. p ≡ holder self.now.keeper.history (ref_of class meta) sel) }
        ensures ok { OnOk result (ask_fault (classes self.now.arena) class sel ≡ None) }
        ensures err { IfErr result (λ f. ask_fault (classes self.now.arena) class sel ≡ Some f) }
    {
        let (class, sel) = asked(self.class_count(), class, meta, sel)?;
        Ok(self.runtime.holder(class, sel))
    }

    /// `class_getSuperclass`.
    pub fn superclass(&self, class: u32, meta: bool) -> Result<Option<ClassRef>, AskFault>
        ensures found { IfOk result (λ above. above ≡ superclass self.now.keeper.history (ref_of class meta)) }
        ensures ok { OnOk result (ask_fault (classes self.now.arena) class 1 ≡ None) }
        ensures err { IfErr result (λ f. ask_fault (classes self.now.arena) class 1 ≡ Some f) }
    {
        let class = asked_class(self.class_count(), class, meta)?;
        Ok(self.runtime.superclass(class))
    }
}
