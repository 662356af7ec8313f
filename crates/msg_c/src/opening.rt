//! Opening and closing a runtime.

ghost use Rattle.std.specs.Prelude.{◌≡◌, ◌≢◌, ◌⊎◌, None, IfOk, IsErrOf, OnOk, true, false};
ghost use Rattle.msg_host.specs.Config.{config_of, is_beyond};
ghost use Rattle.msg_host.specs.declared.fault.OpenFault.{OpenFault};
ghost use Rattle.msg_c.specs.Answers.{are_refused};
ghost use Rattle.msg_c.specs.Handles.{HasRuntime, OpensIn};

use crate::answer::{ALREADY_OPEN, BAD_CONFIG, CLOSED, DONE, NO_MEMORY};
use crate::runtime_handle::RuntimeHandle;
use msg_host::{HostConfig, HostedRuntime, OpenFault};
use std::alloc::Global;

// An open handle of a new runtime.
fn opened(alloc: Global, config: HostConfig) -> Result<RuntimeHandle, OpenFault>
    ensures open { IfOk result HasRuntime }
    ensures ok { IfOk result (OpensIn config) }
    ensures allowed { OnOk result (is_beyond config ≡ false) }
    ensures refused { IsErrOf result OpenFault.BadConfig → is_beyond config ≡ true }
    ensures memory { IsErrOf result OpenFault.Memory → is_beyond config ≡ false }
{
    let runtime = HostedRuntime::open(alloc, config)?;
    match Box::new(alloc, runtime) {
        Ok(runtime) => Ok(RuntimeHandle::of(runtime)),
        Err(_) => Err(OpenFault::Memory),
    }
}

// Opens a handle with these words.
fn opened_of(alloc: Global, words: &[u32]) -> Result<RuntimeHandle, OpenFault>
    ensures open { IfOk result HasRuntime }
    ensures ok { IfOk result (OpensIn (config_of words.now)) }
    ensures allowed { OnOk result (are_refused words.now ≡ false) }
    ensures refused { IsErrOf result OpenFault.BadConfig → are_refused words.now ≡ true }
    ensures memory { IsErrOf result OpenFault.Memory → are_refused words.now ≡ false }
{
    match HostConfig::of_words(words) {
        Some(config) => opened(alloc, config),
        None => Err(OpenFault::BadConfig),
    }
}

/// Opens a runtime without classes, with no change made. The words are the fields of `msg_config`
/// of C, one after another. Fields that are missing have the default.
///
/// It returns 73 if a field is above its most, or if there are unknown fields and one of those
/// isn't 0. It returns 69, for a lack of memory, if an allocation is refused.
#[unsafe(no_mangle)]
pub extern "C" fn msg_open_words(alloc: Global, runtime: &mut RuntimeHandle, config: &[u32]) -> u32
    ensures already { HasRuntime runtime.old → result ≡ ALREADY_OPEN }
    ensures left { result ≢ 0 → runtime.new.held.state ≡ runtime.old.held.state }
    ensures open { result ≡ 0 → HasRuntime runtime.new }
    ensures done { result ≡ 0 → OpensIn (config_of config.now) runtime.new }
    ensures refused { runtime.old.held.state ≡ None → are_refused config.now ≡ true → result ≡ BAD_CONFIG }
    ensures allowed { runtime.old.held.state ≡ None → are_refused config.now ≡ false
        → (result ≡ DONE) ⊎ (result ≡ NO_MEMORY) }
{
    if runtime.is_open() {
        return ALREADY_OPEN;
    }
    match opened_of(alloc, config) {
        Ok(handle) => {
            *runtime = handle;
            DONE
        }
        Err(OpenFault::BadConfig) => BAD_CONFIG,
        Err(OpenFault::Memory) => NO_MEMORY,
    }
}

/// Frees what the runtime holds. Senders of it that are still open keep what they share.
#[unsafe(no_mangle)]
pub extern "C" fn msg_close(alloc: Global, runtime: &mut RuntimeHandle) -> u32
    ensures closed { runtime.new.held.state ≡ None }
    ensures was_closed { runtime.old.held.state ≡ None → result ≡ CLOSED }
    ensures was_open { HasRuntime runtime.old → result ≡ 0 }
{
    match runtime.take(alloc) {
        Some(held) => {
            drop(held);
            DONE
        }
        None => CLOSED,
    }
}
