//! The address of a table's words, for a host that loads one of them by its address.
//!
//! A table keeps this address private, in the first field of the data that its threads share. The
//! function reads that field in memory. It is proved that the result is the value of the field.
#![tactic(auto)]

ghost use Rattle.std.specs.Prelude.{◌≡◌};
ghost use Rattle.msg_address.specs.Address.{IsNotNull};

use atomic_table::{Shared, TableRule};

/// Returns the address of the first word of a table. The other words follow it in one block, which
/// lives as long as the table. The address gives no right to the words: load each by one atomic
/// load.
pub fn address_of<S, V, K, P: TableRule<S, V, K>>(shared: &Shared<S, V, K, P>) -> *const u64
    ensures { (result ≡ shared.now.words) × IsNotNull result }
{
    let place = (shared as *const Shared<S, V, K, P>).cast::<*const u64>();
    unsafe { *place }
}
