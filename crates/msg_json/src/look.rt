//! Looking into a tree.

ghost use Rattle.std.specs.Prelude.{◌≡◌, ◌==◌, option_map, option_and_then};
ghost use Rattle.std.specs.List.{list_any};
ghost use Rattle.std.specs.Str.{bytes_eq};
ghost use Rattle.serde_json.specs.Events.{members_len};
ghost use Rattle.serde_json.specs.Find.{get, get_member, as_number, as_i64};
ghost use Rattle.msg_json.specs.View.{view, members_view};
ghost use Rattle.msg_json.specs.Keys.{has_keys};

use crate::tree::Tree;

/// Returns the value of a key, in time proportional to the number of members.
pub fn get<'v, 't, 'b>(value: &'v Tree<'t, 'b>, key: &str) -> Option<&'v Tree<'t, 'b>>
    ensures { option_map (λ v. view v.now) result ≡ get key.now (view value.now) }
{
    match value {
        Tree::Object(members) => last(members, key),
        _ => None,
    }
}

// Returns the value of the last member with a key.
fn last<'v, 't, 'b>(members: &'v [(&'t str, Tree<'t, 'b>)], key: &str) -> Option<&'v Tree<'t, 'b>>
    ensures { option_map (λ v. view v.now) result ≡ get_member key.now (members_view members.now) }
{
    let mut left = members.len();
    while left > 0 {
        left -= 1;
        let member = &members[left];
        if member.0 == key {
            return Some(&member.1);
        }
    }
    None
}

/// Returns the number, if it is an integer that fits and is written without a point or an exponent.
pub fn whole(value: &Tree<'_, '_>) -> Option<i64>
    ensures { result ≡ option_and_then as_i64 (as_number (view value.now)) }
{
    match value {
        Tree::Number(number) => number.as_i64(),
        _ => None,
    }
}

/// Whether this is an object with this number of keys. A key that comes twice counts once.
pub fn has_keys(value: &Tree<'_, '_>, count: usize) -> bool
    ensures { result ≡ has_keys count (view value.now) }
{
    match value {
        Tree::Object(members) => are_keys(members, count),
        _ => false,
    }
}

fn are_keys(members: &[(&str, Tree<'_, '_>)], count: usize) -> bool
    ensures { result ≡ (members_len (members_view members.now) == count) }
{
    let mut keys = 0;
    for (index, member) in members.iter().enumerate() {
        if !is_among(&members[..index], member.0) {
            if keys == count {
                return false;
            }
            keys += 1;
        }
    }
    keys == count
}

// The search goes from the last member to the first, so that a key is found where it came last. All
// searches of an object together take at most as many steps as its members times its keys.
fn is_among(members: &[(&str, Tree<'_, '_>)], key: &str) -> bool
    ensures { result ≡ list_any (λ m. bytes_eq m.0.now key.now) members.now }
{
    members.iter().rev().any(|member| member.0 == key)
}
