//! Whether the number of arguments and the colons of a selector differ.

ghost use Rattle.std.specs.Prelude.{◌≡◌, IfOk};
ghost use Rattle.std.specs.List.{list_any};
ghost use Rattle.msg_names.specs.Name.{colons_of};
ghost use Rattle.msg_form.specs.BodyFaults.{AreBodyFaults};
ghost use Rattle.msg_form.specs.Faults as spec;
ghost use Rattle.msg_form.specs.ImpArgs.{args_at, is_miscounted_by};
ghost use Rattle.msg_form.specs.Lists.{imp_names, item_sends, method_entries};
ghost use Rattle.msg_form.specs.Views.{imps_view, item_view, form_view};

use super::any::{Test, any};
use super::bodies::BodyFaults;
use super::lists::method_lists;
use crate::form::{Form, Imp, Item, Pair};
use crate::name_set::NameSet;
use std::alloc::{AllocError, Global};

#[tactic(auto, using(crate::proofs::AnyLemmas::anys), unfolding(crate::specs::Faults::has_wrong_argument_count))]
pub(super) fn has_wrong_argument_count(
    alloc: Global,
    form: &Form,
    imps: &NameSet,
    bodies: BodyFaults,
) -> Result<bool, AllocError>
    requires imps { imps.now ≡ imp_names (form_view form.now) }
    requires bodies { AreBodyFaults bodies (form_view form.now) }
    ensures { IfOk result (λ b. b ≡ spec.has_wrong_argument_count (form_view form.now)) }
{
    if bodies.argument_count {
        return Ok(true);
    }
    if has_miscounted_pair(alloc, form, imps)? {
        return Ok(true);
    }
    Ok(any(&IsMiscounted, &form.items))
}

fn has_miscounted_pair(alloc: Global, form: &Form, imps: &NameSet) -> Result<bool, AllocError>
    requires { imps.now ≡ imp_names (form_view form.now) }
    ensures { IfOk result
        (λ b. b ≡ list_any (spec.is_miscounted (imps_view form.now.imps.items)) (method_entries (form_view form.now))) }
{
    let lists = method_lists(alloc, form)?;
    let test = Miscounted {
        names: imps,
        imps: &form.imps,
    };
    Ok(any(&test, &lists))
}

/// Tests whether the implementation of a pair takes more or fewer arguments than its selector has
/// colons.
#[derive(Drop)]
struct Miscounted<'n, 'w, 'i, 'v> {
    /// The names of the implementations, in their order.
    names: &'n NameSet<'w>,
    imps: &'i [Imp<'v>],
}

impl<'v> Test<Pair<'v>> for Miscounted<'_, '_, '_, '_> {
    ghost passes = { λ t p. is_miscounted_by t.names.now (imps_view t.imps.now) p };

    fn passes(&self, pair: &Pair<'v>) -> bool {
        match args_at(self.names, self.imps, pair.imp) {
            Some(args) => args as usize != colons(pair.selector),
            None => false,
        }
    }
}

impl<'f, 'v> Test<&'f [Pair<'v>]> for Miscounted<'_, '_, '_, '_> {
    ghost passes = { λ t l. list_any (is_miscounted_by t.names.now (imps_view t.imps.now)) l.now };

    fn passes(&self, list: &&'f [Pair<'v>]) -> bool {
        any(self, *list)
    }
}

/// The number of arguments that the implementation at a name's place takes.
fn args_at(names: &NameSet, imps: &[Imp], name: &str) -> Option<u8>
    ensures { result ≡ args_at names.now (imps_view imps.now) name.now }
{
    let place = names.number(name)?.saturating_sub(1) as usize;
    if place >= imps.len() {
        return None;
    }
    Some(imps[place].args)
}

fn colons(text: &str) -> usize
    ensures { result ≡ colons_of text.now }
{
    text.as_bytes().iter().filter(|b| **b == b':').count()
}

/// Whether a number of arguments differs from the number of the selector's colons.
pub fn is_miscounted_send(selector: &str, count: usize) -> bool
    ensures { result ≡ spec.is_miscounted_send (selector.now, count) }
{
    count != colons(selector)
}

/// Tests whether a send has more or fewer arguments than its selector has colons.
#[derive(Drop)]
struct IsMiscounted;

impl<'v> Test<Item<'v>> for IsMiscounted {
    ghost passes = { λ _ i. list_any spec.is_miscounted_send (item_sends (item_view i)) };

    fn passes(&self, item: &Item<'v>) -> bool {
        match item {
            Item::Send { selector, args, .. } => is_miscounted_send(*selector, args.len()),
            _ => false,
        }
    }
}
