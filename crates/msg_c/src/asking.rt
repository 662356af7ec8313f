//! Questions to a runtime.

ghost use Rattle.std.specs.Prelude.{◌≡◌, ◌≢◌, ◌≤◌, length, Some, None};
ghost use Rattle.msg_names.specs.declared.value.ClassRef.{ClassRef};
ghost use Rattle.msg_tables.specs.Origin.{last_imp};
ghost use Rattle.msg_tables.specs.History.{holder, log, lookup, superclass};
ghost use Rattle.msg_tables.specs.Refusal.{IsLog};
ghost use Rattle.msg_cache.specs.Views.{classes};
ghost use Rattle.msg_c.specs.Answers.{IsAsked, Shows, TellsFault, TellsNoHolder, TellsNoSuperclass};
ghost use Rattle.msg_host.specs.Config.{IsHostOrigin};
ghost use Rattle.msg_host.specs.Named.{ref_of};
ghost use Rattle.msg_address.specs.Address.{IsNotNull};
ghost use Rattle.msg_c.specs.Handles.{AnswersAsked, HasRuntime, IfAt, IfOpen};

use crate::answer::{CLOSED, DONE, NONE};
use crate::runtime_handle::RuntimeHandle;
use msg_names::ClassRef;
use std::alloc::Global;

/// `Class` of C: a class, or its metaclass.
#[repr(C)]
#[derive(Clone, Copy)]
pub struct MsgClass {
    pub class: u32,
    pub meta: bool,
}

/// The number of class numbers that are reserved. `objc_getClassList` counts the classes that are
/// made.
#[unsafe(no_mangle)]
pub extern "C" fn msg_class_count(
    alloc: Global,
    runtime: &mut RuntimeHandle,
    count: &mut u32,
) -> u32
    ensures kept { runtime.new.held.state ≡ runtime.old.held.state }
    ensures closed { runtime.old.held.state ≡ None → result ≡ CLOSED }
    ensures left { result ≢ 0 → count.new ≡ count.old }
    ensures done { IfOpen runtime.old (λ v. (result ≡ 0) × (count.new ≡ classes v.arena)) }
    ensures origin { IfOpen runtime.old (λ v. v.keeper.history.origin ≡ v.arena.key.origin) }
{
    let Some(held) = runtime.take(alloc) else {
        return CLOSED;
    };
    *count = held.class_count();
    *runtime = RuntimeHandle::of(held);
    DONE
}

/// The number of times that changes were made: a list of changes counts as one. Each was accepted.
#[unsafe(no_mangle)]
pub extern "C" fn msg_change_count(
    alloc: Global,
    runtime: &mut RuntimeHandle,
    count: &mut u64,
) -> u32
    ensures kept { runtime.new.held.state ≡ runtime.old.held.state }
    ensures closed { runtime.old.held.state ≡ None → result ≡ CLOSED }
    ensures left { result ≢ 0 → count.new ≡ count.old }
    ensures done { IfOpen runtime.old (λ v. (result ≡ 0) × (count.new ≡ length v.keeper.history.changes)) }
    ensures accepted { IfAt runtime.old (λ h. IsLog (log h)) }
    ensures hosts { IfAt runtime.old (λ h. IsHostOrigin h.origin) }
{
    let Some(held) = runtime.take(alloc) else {
        return CLOSED;
    };
    *count = held.count();
    *runtime = RuntimeHandle::of(held);
    DONE
}

/// The address of the first of the words that all threads share. Each note says how many bytes
/// after this address the stamp of its class reference lies. The words stay in place as long as the
/// runtime or a sender of it is open.
#[unsafe(no_mangle)]
pub extern "C" fn msg_words(
    alloc: Global,
    runtime: &mut RuntimeHandle,
    words: &mut *const u64,
) -> u32
    ensures kept { runtime.new.held.state ≡ runtime.old.held.state }
    ensures closed { runtime.old.held.state ≡ None → result ≡ CLOSED }
    ensures left { result ≢ 0 → words.new ≡ words.old }
    ensures done { HasRuntime runtime.old → (result ≡ 0) × IsNotNull words.new }
{
    let Some(held) = runtime.take(alloc) else {
        return CLOSED;
    };
    *words = held.words();
    *runtime = RuntimeHandle::of(held);
    DONE
}

/// `class_getMethodImplementation`: the implementation's number, 0 for forwarding. It reads and
/// fills no cache.
#[unsafe(no_mangle)]
pub extern "C" fn msg_lookup(
    alloc: Global,
    runtime: &mut RuntimeHandle,
    class: u32,
    meta: bool,
    sel: u32,
    imp: &mut u32,
) -> u32
    ensures kept { runtime.new.held.state ≡ runtime.old.held.state }
    ensures closed { runtime.old.held.state ≡ None → result ≡ CLOSED }
    ensures left { result ≢ 0 → imp.new ≡ imp.old }
    ensures fault { AnswersAsked runtime.old class sel result }
    ensures done { result ≡ 0 → IfAt runtime.old (λ h. imp.new ≡ lookup h (ref_of class meta) sel) }
    ensures listed { result ≡ 0 → IfAt runtime.old (λ h. imp.new ≤ last_imp h.origin.counts) }
{
    let Some(held) = runtime.take(alloc) else {
        return CLOSED;
    };
    let found = held.lookup(class, meta, sel);
    *runtime = RuntimeHandle::of(held);
    match found {
        Ok(found) => {
            *imp = found;
            DONE
        }
        Err(fault) => fault.number(),
    }
}

// Writes a class reference, if there is one.
fn put(found: Option<ClassRef>, out: &mut MsgClass) -> u32
    ensures done { (c : ClassRef) → found ≡ Some c → (result ≡ 0) × Shows out.new c }
    ensures none { found ≡ None → (result ≡ NONE) × (out.new ≡ out.old) }
{
    match found {
        Some(found) => {
            *out = MsgClass {
                class: found.class,
                meta: found.meta,
            };
            DONE
        }
        None => NONE,
    }
}

/// `class_getSuperclass`: for a metaclass the superclass's metaclass, and for a root metaclass the
/// root class itself.
#[unsafe(no_mangle)]
pub extern "C" fn msg_superclass(
    alloc: Global,
    runtime: &mut RuntimeHandle,
    class: u32,
    meta: bool,
    above: &mut MsgClass,
) -> u32
    ensures kept { runtime.new.held.state ≡ runtime.old.held.state }
    ensures closed { runtime.old.held.state ≡ None → result ≡ CLOSED }
    ensures left { result ≢ 0 → above.new ≡ above.old }
    ensures fault { IfOpen runtime.old (λ v. TellsFault v.arena class 1 result) }
    ensures none { IfOpen runtime.old (λ v. TellsNoSuperclass v class meta result) }
    ensures done { IfOpen runtime.old (λ v. IsAsked v.arena class 1 → (c : ClassRef)
        → superclass v.keeper.history (ref_of class meta) ≡ Some c → (result ≡ 0) × Shows above.new c) }
{
    let Some(held) = runtime.take(alloc) else {
        return CLOSED;
    };
    let found = held.superclass(class, meta);
    *runtime = RuntimeHandle::of(held);
    match found {
        Ok(found) => put(found, above),
        Err(fault) => fault.number(),
    }
}

/// The class of the method that `class_getInstanceMethod` finds: the class reference that has it.
#[unsafe(no_mangle)]
pub extern "C" fn msg_holder(
    alloc: Global,
    runtime: &mut RuntimeHandle,
    class: u32,
    meta: bool,
    sel: u32,
    at: &mut MsgClass,
) -> u32
    ensures kept { runtime.new.held.state ≡ runtime.old.held.state }
    ensures closed { runtime.old.held.state ≡ None → result ≡ CLOSED }
    ensures left { result ≢ 0 → at.new ≡ at.old }
    ensures fault { IfOpen runtime.old (λ v. TellsFault v.arena class sel result) }
    ensures none { IfOpen runtime.old (λ v. TellsNoHolder v class meta sel result) }
    ensures done { IfOpen runtime.old (λ v. IsAsked v.arena class sel → (c : ClassRef)
        → holder v.keeper.history (ref_of class meta) sel ≡ Some c → (result ≡ 0) × Shows at.new c) }
{
    let Some(held) = runtime.take(alloc) else {
        return CLOSED;
    };
    let found = held.holder(class, meta, sel);
    *runtime = RuntimeHandle::of(held);
    match found {
        Ok(found) => put(found, at),
        Err(fault) => fault.number(),
    }
}
