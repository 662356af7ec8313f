//! Laws of words, places and arrays, over every number and every list of words.

ghost use Rattle.std.specs.Prelude.{◌≡◌, ◌≢◌, ◌↔◌, ℕ, ◌*◌, ◌^◌, ◌<◌, ◌≤◌, List, [], ◌∷◌, ◌++◌, length, replicate, All, Contains, Some, None};
ghost use Rattle.msg_buckets.specs.declared.capacity.Plan.TheVariants.{Use};
ghost use Rattle.msg_buckets.specs.Word.{sel_of, imp_of, word_of};
ghost use Rattle.msg_buckets.specs.Capacity.{IsCapacity, next_capacity, plan_of};
ghost use Rattle.msg_buckets.specs.Probing.{probe_place, end_of, found_at, hit, empty, wrapped};
ghost use Rattle.msg_buckets.specs.Array.{find_in, hit_in, put_in, occupied_in, IsReachable};

use crate::capacity::{CAPACITIES, MAX_CAPACITY, MIN_CAPACITY};

/// A word consists of its selector and its implementation, and of nothing else.
pub fn a_word_is_its_parts()
    ensures selector { (sel imp : ℕ) → imp < 2 ^ 32 → sel_of (word_of sel imp) ≡ sel }
    ensures implementation { (sel imp : ℕ) → imp < 2 ^ 32 → imp_of (word_of sel imp) ≡ imp }
    ensures word { (word : ℕ) → word_of (sel_of word) (imp_of word) ≡ word }
{}

/// The capacities are the powers of two from 4 to 1,024.
pub fn a_capacity_is_a_power_of_two()
    ensures power { (n : ℕ) → IsCapacity n → (k : ℕ) × (k < 9) × (n ≡ 4 * 2 ^ k) }
    ensures each { (k : ℕ) → k < 9 → IsCapacity (4 * 2 ^ k) }
    ensures listed { All IsCapacity CAPACITIES }
    ensures least { (n : ℕ) → IsCapacity n → MIN_CAPACITY ≤ n }
    ensures most { (n : ℕ) → IsCapacity n → n ≤ MAX_CAPACITY }
{}

/// The capacity after a capacity is a capacity, and it is twice as large up to the largest.
pub fn a_capacity_is_doubled()
    ensures capacity { (n : ℕ) → IsCapacity n → IsCapacity (next_capacity n) }
    ensures twice { (n : ℕ) → IsCapacity n → n < MAX_CAPACITY → next_capacity n ≡ n * 2 }
{}

/// A probe comes to every place of an array, and to none twice.
pub fn a_probe_comes_to_each_place_once()
    ensures every { (sel capacity place : ℕ) → place < capacity
        → (k : ℕ) × (k < capacity) × (probe_place sel capacity k ≡ place) }
    ensures once { (sel capacity j k : ℕ) → j < capacity → k < capacity
        → probe_place sel capacity j ≡ probe_place sel capacity k → j ≡ k }
{}

/// Let a probe read one more word after words none of which ended it. The word ends the probe or
/// leaves it as it was.
pub fn a_probe_goes_on_by_one_word()
    ensures hit { (sel : ℕ) (reads : List (ℕ × ℕ)) (place word : ℕ) → 0 < sel → end_of sel reads ≡ None
        → sel_of word ≡ sel → found_at (end_of sel (reads ++ (place, word) ∷ [])) ≡ hit (imp_of word) }
    ensures empty { (sel : ℕ) (reads : List (ℕ × ℕ)) (place word : ℕ) → end_of sel reads ≡ None
        → word ≡ 0 → found_at (end_of sel (reads ++ (place, word) ∷ [])) ≡ empty place }
    ensures other { (sel : ℕ) (reads : List (ℕ × ℕ)) (place word : ℕ) → end_of sel reads ≡ None
        → word ≢ 0 → sel_of word ≢ sel → end_of sel (reads ++ (place, word) ∷ []) ≡ None }
{}

/// In an array of empty buckets each probe ends at its first place.
pub fn an_empty_array_is_reachable()
    ensures reachable { (capacity : ℕ) → IsReachable (replicate capacity 0) }
    ensures first { (capacity sel : ℕ) → 0 < capacity
        → find_in (replicate capacity 0) sel ≡ empty (probe_place sel capacity 0) }
{}

/// If each entry is reachable, a probe hits exactly the entries that the array has.
pub fn a_reachable_array_hides_no_entry()
    ensures { (words : List ℕ) (sel imp : ℕ) → IsReachable words → 0 < sel → imp < 2 ^ 32
        → (hit_in words sel ≡ Some imp) ↔ Contains words (word_of sel imp) }
{}

/// After an entry is put its selector hits, and nothing changes for the other selectors.
pub fn a_put_adds_one_entry()
    ensures hit { (words : List ℕ) (sel imp place : ℕ) → 0 < sel → imp < 2 ^ 32
        → find_in words sel ≡ empty place → find_in (put_in words sel imp) sel ≡ hit imp }
    ensures reachable { (words : List ℕ) (sel imp : ℕ) → imp < 2 ^ 32
        → IsReachable words → IsReachable (put_in words sel imp) }
    ensures others { (words : List ℕ) (sel imp other : ℕ) → imp < 2 ^ 32
        → IsReachable words → other ≢ sel → hit_in (put_in words sel imp) other ≡ hit_in words other }
{}

/// Nothing is copied into a larger array: its only entry is the one for which it was taken.
pub fn a_taken_array_has_one_entry()
    ensures one { (capacity sel imp : ℕ) → 0 < capacity → 0 < sel → imp < 2 ^ 32
        → occupied_in (put_in (replicate capacity 0) sel imp) ≡ 1 }
    ensures hit { (capacity sel imp : ℕ) → 0 < capacity → 0 < sel → imp < 2 ^ 32
        → find_in (put_in (replicate capacity 0) sel imp) sel ≡ hit imp }
    ensures others { (capacity sel imp other : ℕ) → imp < 2 ^ 32 → other ≢ sel
        → hit_in (put_in (replicate capacity 0) sel imp) other ≡ None }
{}

/// An array that a fill uses has room: the probe of a new selector ends.
pub fn an_array_in_use_has_room()
    ensures { (words : List ℕ) (sel : ℕ) → plan_of (length words) (occupied_in words) ≡ Use
        → find_in words sel ≢ wrapped }
{}
