//! The contents of a runtime in numbers: the methods of a class reference, and classes.

ghost use Rattle.std.specs.Prelude.{◌≡◌, ◌<◌, ◌≤◌, ◌++◌, drop, length, reverse, None, Some, IfOk, IfErr, OnErr, OnOk};
ghost use Rattle.msg_rows.specs.Methods.{method_number, method_numbers};
ghost use Rattle.msg_cache.specs.Views.{classes};
ghost use Rattle.msg_host.specs.Asking.{ask_fault, pairs_of};
ghost use Rattle.msg_host.specs.Contents.{ShowsMethods};
ghost use Rattle.msg_host.specs.Named.{ref_of};
ghost use Rattle.msg_runtime.specs.Contents.{ShowsBelow, ShowsClasses};

use crate::changing::MethodRow;
use crate::fault::{AskFault, asked_class};
use crate::runtime::HostedRuntime;
use msg_names::{ImpRef, Selector};

// A method in numbers.
fn row_of(method: (Selector, ImpRef)) -> MethodRow
    ensures { (result.sel, result.imp) ≡ method_number method }
{
    let (sel, imp) = method;
    MethodRow {
        sel: sel.number(),
        imp: imp.number(),
    }
}

// Writes methods to the front of rows, the last one first.
fn write_methods(methods: &[(Selector, ImpRef)], rows: &mut [MethodRow])
    requires room { length methods.now ≤ length rows.old }
    ensures { pairs_of rows.new
        ≡ reverse (method_numbers methods.now) ++ drop (length methods.now) (pairs_of rows.old) }
{
    for place in 0..methods.len() {
        rows[place] = row_of(methods[methods.len() - 1 - place]);
    }
}

impl HostedRuntime {
    /// `class_copyMethodList`: writes the methods that a class reference has itself, if there are
    /// as many rows, and returns their number. The newest comes first: of several methods with one
    /// selector a lookup finds the first.
    pub fn methods(&self, class: u32, meta: bool, rows: &mut [MethodRow]) -> Result<usize, AskFault>
        ensures shown { IfOk result (ShowsMethods self.now.keeper.history (ref_of class meta) rows.old rows.new) }
        ensures short { IfOk result (λ n. length rows.old < n → rows.new ≡ rows.old) }
        ensures ok { OnOk result (ask_fault (classes self.now.arena) class 1 ≡ None) }
        ensures err { IfErr result (λ f. ask_fault (classes self.now.arena) class 1 ≡ Some f) }
        ensures left { OnErr result (rows.new ≡ rows.old) }
    {
        let class = asked_class(self.class_count(), class, meta)?;
        let methods = self.runtime.methods(class);
        if methods.len() <= rows.len() {
            write_methods(methods, rows);
        }
        Ok(methods.len())
    }

    /// `objc_getClassList`: writes the classes that are made, each after its superclass, if `room`
    /// has as many places. Returns their number.
    pub fn classes(&self, room: &mut [u32]) -> usize
        ensures { ShowsClasses self.now.keeper.history room.old room.new result }
    {
        self.runtime.show_classes(room)
    }

    /// Writes the classes below a class, if `room` has as many places, and returns their number. It
    /// costs two walks over these classes.
    pub fn below(&mut self, class: u32, room: &mut [u32]) -> Result<usize, AskFault>
        ensures same { self.new ≡ self.old }
        ensures shown { IfOk result (ShowsBelow self.old.keeper.history class room.old room.new) }
        ensures ok { OnOk result (ask_fault (classes self.old.arena) class 1 ≡ None) }
        ensures err { IfErr result (λ f. ask_fault (classes self.old.arena) class 1 ≡ Some f) }
        ensures left { OnErr result (room.new ≡ room.old) }
    {
        let class = asked_class(self.class_count(), class, false)?;
        Ok(self.runtime.show_below(class.class, room))
    }
}
