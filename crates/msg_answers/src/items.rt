//! The items of a document: sends, and changes between them.

ghost use Rattle.std.specs.Prelude.{◌≡◌, ◌+◌, ◌≤◌, ◌<◌, ◌⊎◌, false, true};
ghost use Rattle.std.specs.Prelude.{count_by, length, map, take};
ghost use Rattle.msg_image.specs.Plain.{item_parts};
ghost use Rattle.msg_answers.specs.Serving as spec;
ghost use Rattle.msg_answers.specs.Serving.{AllSends, IsOneChange};

use msg_image::Item;

/// Whether an item is a send.
pub fn is_send(item: &Item) -> bool
    ensures { result ≡ spec.is_send (item_parts item.now) }
{
    matches!(item, Item::Send { .. })
}

/// The number of items that are sends.
pub fn sends_in(items: &[Item]) -> usize
    ensures { result ≡ count_by spec.is_send (map item_parts items.now) }
{
    items
        .iter()
        .filter(|item| matches!(item, Item::Send { .. }))
        .count()
}

/// The number of items in the next part: all sends before the next item of changes, or one such
/// item.
pub fn part_len(items: &[Item]) -> usize
    requires { 0 < length items.now }
    ensures some { 0 < result }
    ensures inside { result ≤ length items.now }
    ensures part { AllSends (map item_parts (take result items.now))
        ⊎ IsOneChange (map item_parts (take result items.now)) }
    ensures most { AllSends (map item_parts (take (result + 1) items.now)) → result ≡ length items.now }
{
    let mut count = 0;
    while count < items.len() {
        if !is_send(&items[count]) {
            return if count == 0 { 1 } else { count };
        }
        count += 1;
    }
    count
}

/// Whether a part is an item of changes, and no sends.
pub fn is_one_change(items: &[Item]) -> bool
    requires { AllSends (map item_parts items.now) ⊎ IsOneChange (map item_parts items.now) }
    ensures changes { result ≡ true → IsOneChange (map item_parts items.now) }
    ensures sends { result ≡ false → AllSends (map item_parts items.now) }
{
    match items.first() {
        Some(item) => !is_send(item),
        None => false,
    }
}
