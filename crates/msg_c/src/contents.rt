//! The contents of a runtime: the methods of a class reference, and classes.

ghost use Rattle.std.specs.Prelude.{◌≡◌, ◌≢◌, ◌<◌, None, length, IfErr, IfOk, OnErr};
ghost use Rattle.msg_host.specs.Asking.{ask_fault_number, want_of_room};
ghost use Rattle.msg_host.specs.Contents.{ShowsMethods};
ghost use Rattle.msg_host.specs.Named.{ref_of};
ghost use Rattle.msg_runtime.specs.Contents.{ShowsBelow, ShowsClasses};
ghost use Rattle.msg_c.specs.Answers.{IsAsked, TellsFault, number_for_room};
ghost use Rattle.msg_c.specs.Handles.{IfOpen};

use crate::answer::{CLOSED, DONE, NO_ROOM};
use crate::runtime_handle::RuntimeHandle;
use msg_host::{AskFault, MethodRow};
use std::alloc::Global;

// Writes how many were found, and returns whether there was room for them; or returns the fault.
fn told(found: Result<usize, AskFault>, room: usize, count: &mut usize) -> u32
    ensures ok { IfOk found (λ n. (count.new ≡ n) × (result ≡ number_for_room room n)) }
    ensures err { IfErr found (λ f. result ≡ ask_fault_number f) }
    ensures left { OnErr found (count.new ≡ count.old) }
{
    match found {
        Ok(found) => {
            *count = found;
            if room < found { NO_ROOM } else { DONE }
        }
        Err(fault) => fault.number(),
    }
}

/// `class_copyMethodList`: the methods that a class or a metaclass has itself, the newest first. Of
/// several methods with one selector a lookup finds the first. Their number is written. If
/// `methods` has fewer places, 76 is returned and no method is written.
#[unsafe(no_mangle)]
pub extern "C" fn msg_methods(
    alloc: Global,
    runtime: &mut RuntimeHandle,
    class: u32,
    meta: bool,
    methods: &mut [MethodRow],
    count: &mut usize,
) -> u32
    ensures kept { runtime.new.held.state ≡ runtime.old.held.state }
    ensures closed { runtime.old.held.state ≡ None → result ≡ CLOSED }
    ensures left { result ≢ 0 → methods.new ≡ methods.old }
    ensures untold { result ≢ 0 → result ≢ want_of_room → count.new ≡ count.old }
    ensures fault { IfOpen runtime.old (λ v. TellsFault v.arena class 1 result) }
    ensures shown { IfOpen runtime.old (λ v. IsAsked v.arena class 1
        → ShowsMethods v.keeper.history (ref_of class meta) methods.old methods.new count.new) }
    ensures room { IfOpen runtime.old (λ v. IsAsked v.arena class 1
        → result ≡ number_for_room (length methods.old) count.new) }
{
    let Some(held) = runtime.take(alloc) else {
        return CLOSED;
    };
    let found = held.methods(class, meta, methods);
    *runtime = RuntimeHandle::of(held);
    told(found, methods.len(), count)
}

/// `objc_getClassList`: the classes that are made, each after its superclass. Their number is
/// written. If `classes` has fewer places, 76 is returned and no class is written.
#[unsafe(no_mangle)]
pub extern "C" fn msg_classes(
    alloc: Global,
    runtime: &mut RuntimeHandle,
    classes: &mut [u32],
    count: &mut usize,
) -> u32
    ensures kept { runtime.new.held.state ≡ runtime.old.held.state }
    ensures closed { runtime.old.held.state ≡ None → (result ≡ CLOSED) × (count.new ≡ count.old) }
    ensures left { result ≢ 0 → classes.new ≡ classes.old }
    ensures shown { IfOpen runtime.old (λ v. ShowsClasses v.keeper.history classes.old classes.new count.new) }
    ensures room { IfOpen runtime.old (λ v. result ≡ number_for_room (length classes.old) count.new) }
{
    let Some(held) = runtime.take(alloc) else {
        return CLOSED;
    };
    let found = held.classes(classes);
    *runtime = RuntimeHandle::of(held);
    told(Ok(found), classes.len(), count)
}

/// The classes below a class: its subclasses, theirs, and so on. Their number is written. If
/// `classes` has fewer places, 76 is returned and no class is written.
#[unsafe(no_mangle)]
pub extern "C" fn msg_classes_below(
    alloc: Global,
    runtime: &mut RuntimeHandle,
    class: u32,
    classes: &mut [u32],
    count: &mut usize,
) -> u32
    ensures kept { runtime.new.held.state ≡ runtime.old.held.state }
    ensures closed { runtime.old.held.state ≡ None → result ≡ CLOSED }
    ensures left { result ≢ 0 → classes.new ≡ classes.old }
    ensures untold { result ≢ 0 → result ≢ want_of_room → count.new ≡ count.old }
    ensures fault { IfOpen runtime.old (λ v. TellsFault v.arena class 1 result) }
    ensures shown { IfOpen runtime.old (λ v. IsAsked v.arena class 1
        → ShowsBelow v.keeper.history class classes.old classes.new count.new) }
    ensures room { IfOpen runtime.old (λ v. IsAsked v.arena class 1
        → result ≡ number_for_room (length classes.old) count.new) }
{
    let Some(mut held) = runtime.take(alloc) else {
        return CLOSED;
    };
    let found = held.below(class, classes);
    *runtime = RuntimeHandle::of(held);
    told(found, classes.len(), count)
}
