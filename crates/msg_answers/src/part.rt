//! Items that are answered together.

ghost use Rattle.std.specs.Prelude.{◌≡◌, ◌≤◌, ◌<◌, ◌+◌, ◌^◌, length};

use crate::deal::Deal;
use msg_image::{Image, Item};

/// Items that are answered together, the distribution of their sends, and the number of the first
/// change among them.
#[derive(Clone, Copy)]
pub struct Part<'a> {
    pub image: &'a Image,
    pub items: &'a [Item],
    pub deal: Deal,
    pub first_change: u32,
    pub ghost places: { deal.first + length items.now < 2 ^ 32 },
    pub ghost changes: { first_change + length items.now < 2 ^ 32 },
}

/// A worker's share of a part.
#[derive(Clone, Copy)]
pub struct Share<'a> {
    pub part: Part<'a>,
    pub worker: u32,
    /// The number of sends in the part.
    pub sends: usize,
}

/// The numbers of pieces and of changes in a part.
#[derive(Clone, Copy)]
pub struct Counts {
    pub pieces: u32,
    pub changes: u32,
}

impl<'a> Part<'a> {
    /// The first of its items.
    pub fn with_items(self, items: &'a [Item]) -> Part<'a>
        requires { length items.now ≤ length self.items.now }
        ensures image { result.image.now ≡ self.entry.image.now }
        ensures items { result.items.now ≡ items.entry.now }
        ensures deal { result.deal ≡ self.entry.deal }
        ensures first_change { result.first_change ≡ self.entry.first_change }
    {
        Part {
            image: self.image,
            items,
            deal: self.deal,
            first_change: self.first_change,
        }
    }

    /// The last of its items, if those before them had these numbers of pieces and changes.
    pub fn after(self, counts: Counts, items: &'a [Item]) -> Part<'a>
        requires pieces { counts.pieces + length items.now ≤ length self.items.now }
        requires changes { counts.changes + length items.now ≤ length self.items.now }
        ensures image { result.image.now ≡ self.entry.image.now }
        ensures items { result.items.now ≡ items.entry.now }
        ensures workers { result.deal.workers ≡ self.entry.deal.workers }
        ensures cut { result.deal.cut ≡ self.entry.deal.cut }
        ensures first { result.deal.first ≡ self.entry.deal.first + counts.pieces }
        ensures first_change { result.first_change ≡ self.entry.first_change + counts.changes }
    {
        Part {
            image: self.image,
            items,
            deal: self.deal.after(counts.pieces),
            first_change: self.first_change + counts.changes,
        }
    }
}
