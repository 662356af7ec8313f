//! Changes.

ghost use Rattle.std.specs.Prelude.{◌≡◌, ◌≢◌, None, Some};
ghost use Rattle.msg_tables.specs.declared.change.Change.{Change};
ghost use Rattle.msg_host.specs.Asking.{want_of_selector};
ghost use Rattle.msg_host.specs.Named.{addition, removal, replacement, setting};
ghost use Rattle.msg_c.specs.Answers.{runtime_arena};
ghost use Rattle.msg_c.specs.Handles.{AttachesIn, Changes, ChangesIf, Exchanges, HasRuntime, Leaves};
ghost use Rattle.msg_c.specs.Handles.{MakesClass, RefusesAttachmentIn};

use crate::answer::CLOSED;
use crate::runtime_handle::RuntimeHandle;
use msg_host::MethodRow;
use msg_names::ClassRef;
use std::alloc::Global;

/// `class_addMethod`. Returns 0, or the number of the change's fault, after which nothing has
/// changed; 67 if the selector is 0.
#[unsafe(no_mangle)]
pub extern "C" fn msg_add(
    alloc: Global,
    runtime: &mut RuntimeHandle,
    class: u32,
    meta: bool,
    sel: u32,
    imp: u32,
) -> u32
    ensures arena { runtime_arena runtime.new.held.state ≡ runtime_arena runtime.old.held.state }
    ensures closed { runtime.old.held.state ≡ None → result ≡ CLOSED }
    ensures left { result ≢ 0 → Leaves runtime.old runtime.new }
    ensures no_selector { sel ≡ 0 → HasRuntime runtime.old → result ≡ want_of_selector }
    ensures change { ChangesIf sel runtime.old runtime.new (addition class meta sel imp) result }
{
    let Some(mut held) = runtime.take(alloc) else {
        return CLOSED;
    };
    let answer = held.add(class, meta, sel, imp);
    *runtime = RuntimeHandle::of(held);
    answer
}

/// `class_replaceMethod`, with the same results.
#[unsafe(no_mangle)]
pub extern "C" fn msg_replace(
    alloc: Global,
    runtime: &mut RuntimeHandle,
    class: u32,
    meta: bool,
    sel: u32,
    imp: u32,
) -> u32
    ensures arena { runtime_arena runtime.new.held.state ≡ runtime_arena runtime.old.held.state }
    ensures closed { runtime.old.held.state ≡ None → result ≡ CLOSED }
    ensures left { result ≢ 0 → Leaves runtime.old runtime.new }
    ensures no_selector { sel ≡ 0 → HasRuntime runtime.old → result ≡ want_of_selector }
    ensures change { ChangesIf sel runtime.old runtime.new (replacement class meta sel imp) result }
{
    let Some(mut held) = runtime.take(alloc) else {
        return CLOSED;
    };
    let answer = held.replace(class, meta, sel, imp);
    *runtime = RuntimeHandle::of(held);
    answer
}

/// `method_setImplementation` of the method that `class_getInstanceMethod` finds, with the same
/// results.
#[unsafe(no_mangle)]
pub extern "C" fn msg_set_imp(
    alloc: Global,
    runtime: &mut RuntimeHandle,
    class: u32,
    meta: bool,
    sel: u32,
    imp: u32,
) -> u32
    ensures arena { runtime_arena runtime.new.held.state ≡ runtime_arena runtime.old.held.state }
    ensures closed { runtime.old.held.state ≡ None → result ≡ CLOSED }
    ensures left { result ≢ 0 → Leaves runtime.old runtime.new }
    ensures no_selector { sel ≡ 0 → HasRuntime runtime.old → result ≡ want_of_selector }
    ensures change { ChangesIf sel runtime.old runtime.new (setting class meta sel imp) result }
{
    let Some(mut held) = runtime.take(alloc) else {
        return CLOSED;
    };
    let answer = held.set(class, meta, sel, imp);
    *runtime = RuntimeHandle::of(held);
    answer
}

/// `method_exchangeImplementations` of two methods that `class_getInstanceMethod` finds, with the
/// same results.
#[unsafe(no_mangle)]
pub extern "C" fn msg_exchange(
    alloc: Global,
    runtime: &mut RuntimeHandle,
    class: u32,
    meta: bool,
    sel: u32,
    other: u32,
    other_meta: bool,
    other_sel: u32,
) -> u32
    ensures arena { runtime_arena runtime.new.held.state ≡ runtime_arena runtime.old.held.state }
    ensures closed { runtime.old.held.state ≡ None → result ≡ CLOSED }
    ensures left { result ≢ 0 → Leaves runtime.old runtime.new }
    ensures no_selector { sel ≡ 0 → HasRuntime runtime.old → result ≡ want_of_selector }
    ensures no_other { other_sel ≡ 0 → HasRuntime runtime.old → result ≡ want_of_selector }
    ensures change { Exchanges runtime.old runtime.new class meta sel other other_meta other_sel result }
{
    let Some(mut held) = runtime.take(alloc) else {
        return CLOSED;
    };
    let other = ClassRef {
        class: other,
        meta: other_meta,
    };
    let answer = held.exchange(ClassRef { class, meta }, sel, other, other_sel);
    *runtime = RuntimeHandle::of(held);
    answer
}

/// `attachCategories` at run time, with the same results: methods for the class, and others for its
/// metaclass. Of several methods with one selector the earlier is found. 7 may also mean that the
/// list of them lacked memory.
#[unsafe(no_mangle)]
pub extern "C" fn msg_attach(
    alloc: Global,
    runtime: &mut RuntimeHandle,
    class: u32,
    methods: &[MethodRow],
    class_methods: &[MethodRow],
) -> u32
    ensures arena { runtime_arena runtime.new.held.state ≡ runtime_arena runtime.old.held.state }
    ensures closed { runtime.old.held.state ≡ None → result ≡ CLOSED }
    ensures left { result ≢ 0 → Leaves runtime.old runtime.new }
    ensures made { AttachesIn runtime.old runtime.new class methods.now class_methods.now result }
    ensures fault { RefusesAttachmentIn runtime.old runtime.new class methods.now class_methods.now result }
{
    let Some(mut held) = runtime.take(alloc) else {
        return CLOSED;
    };
    let answer = held.attach(alloc, class, methods, class_methods);
    *runtime = RuntimeHandle::of(held);
    answer
}

/// `objc_allocateClassPair` with `objc_registerClassPair`, with the same results: makes a class,
/// without methods, below a superclass that is made.
#[unsafe(no_mangle)]
pub extern "C" fn msg_make_class(
    alloc: Global,
    runtime: &mut RuntimeHandle,
    class: u32,
    superclass: u32,
) -> u32
    ensures arena { runtime_arena runtime.new.held.state ≡ runtime_arena runtime.old.held.state }
    ensures closed { runtime.old.held.state ≡ None → result ≡ CLOSED }
    ensures left { result ≢ 0 → Leaves runtime.old runtime.new }
    ensures change { MakesClass runtime.old runtime.new class (Some superclass) result }
{
    let Some(mut held) = runtime.take(alloc) else {
        return CLOSED;
    };
    let answer = held.make_class(class, Some(superclass));
    *runtime = RuntimeHandle::of(held);
    answer
}

/// Does the same with the superclass `Nil`: makes a root class.
#[unsafe(no_mangle)]
pub extern "C" fn msg_make_root_class(alloc: Global, runtime: &mut RuntimeHandle, class: u32) -> u32
    ensures arena { runtime_arena runtime.new.held.state ≡ runtime_arena runtime.old.held.state }
    ensures closed { runtime.old.held.state ≡ None → result ≡ CLOSED }
    ensures left { result ≢ 0 → Leaves runtime.old runtime.new }
    ensures change { MakesClass runtime.old runtime.new class None result }
{
    let Some(mut held) = runtime.take(alloc) else {
        return CLOSED;
    };
    let answer = held.make_class(class, None);
    *runtime = RuntimeHandle::of(held);
    answer
}

/// `class_removeMethod`, with the same results: removes the method that the class itself has. A
/// method that it covered counts again.
#[unsafe(no_mangle)]
pub extern "C" fn msg_remove(
    alloc: Global,
    runtime: &mut RuntimeHandle,
    class: u32,
    meta: bool,
    sel: u32,
) -> u32
    ensures arena { runtime_arena runtime.new.held.state ≡ runtime_arena runtime.old.held.state }
    ensures closed { runtime.old.held.state ≡ None → result ≡ CLOSED }
    ensures left { result ≢ 0 → Leaves runtime.old runtime.new }
    ensures no_selector { sel ≡ 0 → HasRuntime runtime.old → result ≡ want_of_selector }
    ensures change { ChangesIf sel runtime.old runtime.new (removal class meta sel) result }
{
    let Some(mut held) = runtime.take(alloc) else {
        return CLOSED;
    };
    let answer = held.remove(class, meta, sel);
    *runtime = RuntimeHandle::of(held);
    answer
}

/// `objc_disposeClassPair`, with the same results: removes a class that was made and has no class
/// below it, with its metaclass and the methods of both.
#[unsafe(no_mangle)]
pub extern "C" fn msg_dispose_class(alloc: Global, runtime: &mut RuntimeHandle, class: u32) -> u32
    ensures arena { runtime_arena runtime.new.held.state ≡ runtime_arena runtime.old.held.state }
    ensures closed { runtime.old.held.state ≡ None → result ≡ CLOSED }
    ensures left { result ≢ 0 → Leaves runtime.old runtime.new }
    ensures change { Changes runtime.old runtime.new (Change.DisposeClass class) result }
{
    let Some(mut held) = runtime.take(alloc) else {
        return CLOSED;
    };
    let answer = held.dispose_class(class);
    *runtime = RuntimeHandle::of(held);
    answer
}
