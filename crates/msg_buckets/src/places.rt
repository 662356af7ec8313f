//! The order in which a probe visits the places of an array: it begins at `selector & mask`, and
//! goes on to `(place + 1) & mask`. A capacity is a power of two and `mask` is one less, so `&
//! mask` gives the remainder by the capacity.

ghost use Rattle.std.specs.Prelude.{◌≡◌, ℕ, ◌+◌, ◌-◌, ◌<◌, bit_and};
ghost use Rattle.msg_names.specs.Number.{selector_number};
ghost use Rattle.msg_buckets.specs.Capacity.{IsCapacity};
ghost use Rattle.msg_buckets.specs.Probing.{probe_place};

use msg_names::Selector;

/// The place at which the probe of a selector begins.
#[inline(always)]
pub fn first_place(selector: Selector, capacity: u32) -> usize
    requires { IsCapacity capacity }
    ensures masked { result ≡ bit_and (selector_number selector) (capacity - 1) }
    ensures first { result ≡ probe_place (selector_number selector) capacity 0 }
    ensures within { result < capacity }
{
    (selector.number() & (capacity - 1)) as usize
}

/// The next place, which is 0 after the last.
#[inline(always)]
pub fn next_place(place: usize, capacity: u32) -> usize
    requires capacity { IsCapacity capacity }
    requires place { place < capacity }
    ensures masked { result ≡ bit_and (place + 1) (capacity - 1) }
    ensures next { (sel k : ℕ) → place ≡ probe_place sel capacity k → result ≡ probe_place sel capacity (k + 1) }
    ensures within { result < capacity }
{
    (place + 1) & (capacity as usize - 1)
}
