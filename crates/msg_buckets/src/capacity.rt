//! The number of buckets of an array, and the number of entries that it may have.

ghost use Rattle.std.specs.Prelude.{◌≡◌, ◌≤◌, ◌⊎◌};
ghost use Rattle.msg_buckets.specs.Capacity.{IsCapacity, IfTake, is_capacity, fill_limit, plan_of};

/// Where a new entry goes: into the array that is there, or into an empty one of this capacity,
/// where it is then the only entry.
#[derive(Clone, Copy, Debug, PartialEq, Eq)]
pub enum Plan {
    Use,
    Take(u32),
}

/// The fewest buckets that an array may have.
pub const MIN_CAPACITY: u32 = 4;

/// The most buckets.
pub const MAX_CAPACITY: u32 = 1024;

/// The numbers of buckets that an array may have.
pub const CAPACITIES: [u32; 9] = [MIN_CAPACITY, 8, 16, 32, 64, 128, 256, 512, MAX_CAPACITY];

/// Whether an array may have this number of buckets.
pub fn is_capacity(buckets: u32) -> bool
    ensures { result ≡ is_capacity buckets }
{
    CAPACITIES.contains(&buckets)
}

/// Decides where an entry goes that isn't in the array yet. Capacity 0 means that there is no
/// array.
pub fn fill_plan(capacity: u32, occupied: u32) -> Plan
    requires capacity { (capacity ≡ 0) ⊎ IsCapacity capacity }
    requires occupied { occupied ≤ fill_limit capacity }
    ensures plan { result ≡ plan_of capacity occupied }
    ensures capacity { IfTake result IsCapacity }
{
    if occupied + 1 <= capacity / 4 * 3 {
        Plan::Use
    } else {
        Plan::Take((capacity * 2).clamp(MIN_CAPACITY, MAX_CAPACITY))
    }
}
