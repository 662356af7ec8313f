//! The arena of a run, and the numbers of arrays of its method caches.

ghost use Rattle.std.specs.Prelude.{◌≡◌, ◌<◌, IfOk};
ghost use Rattle.msg_image.specs.Opened.{origin_of};
ghost use Rattle.msg_tables.specs.History.{empty};
ghost use Rattle.msg_runtime.specs.Parts.{IsKeeperOf, keeper_history};

use msg_buckets::CAPACITIES;
use msg_cache::{Arena, Config, Keeper};
use msg_image::Image;
use std::alloc::{AllocError, Global};

// The most arrays of capacity 4, 8, .., 1,024.
const MOST: [u16; 9] = [2048, 512, 128, 64, 32, 16, 8, 4, 4];

// The number of arrays beyond two for each class reference, so that a collection is rare even if
// there are few classes.
const SPARE: usize = 16;

// Whether a cache may need an array with the capacity at this place: the next lower capacity has no
// room for an entry of each selector.
fn is_needed(place: usize, selectors: usize) -> bool
    requires { place < 9 }
{
    place == 0 || ((CAPACITIES[place - 1] / 4 * 3) as usize) < selectors
}

// The numbers of arrays of each capacity: two for each class reference and some to spare, and none
// of a capacity that no cache of the image can need. A run makes and clears all of them, so a small
// document gets few.
fn arrays_for(image: &Image) -> [u16; 9] {
    let selectors = image.names().len();
    let wanted = 4 * image.class_count() as usize + SPARE;
    let mut arrays = [0; 9];
    for place in 0..9 {
        if is_needed(place, selectors) {
            arrays[place] = wanted.min(MOST[place] as usize) as u16;
        }
    }
    arrays
}

// The arena of a run.
pub(crate) fn arena_for(
    alloc: Global,
    image: &Image,
    senders: u32,
) -> Result<(Arena, Keeper), AllocError>
    ensures image { IfOk result (λ r. r.0.key.origin ≡ origin_of image.now) }
    ensures keeper { IfOk result (λ r. IsKeeperOf r.0 r.1) }
    ensures history { IfOk result (λ r. keeper_history r.1 ≡ empty (origin_of image.now)) }
{
    let config = Config {
        senders,
        arrays: arrays_for(image),
    };
    match Arena::open(alloc, image, config) {
        Ok(opened) => Ok(opened),
        Err(_) => Err(AllocError),
    }
}
