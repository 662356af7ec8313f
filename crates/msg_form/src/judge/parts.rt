//! What is wrong with a part of a form by itself.

ghost use Rattle.std.specs.Prelude.{◌≡◌, IfOk};
ghost use Rattle.std.specs.List.{list_any};
ghost use Rattle.msg_form.specs.ExprView.{expr_view};
ghost use Rattle.msg_form.specs.Faults as spec;
ghost use Rattle.msg_form.specs.Form as plain;
ghost use Rattle.msg_form.specs.FormNames.{AreNamesOf};
ghost use Rattle.msg_form.specs.Lists.{class_names, imp_names, listed_names, object_names, root_names};
ghost use Rattle.msg_form.specs.Parts.{is_super_send, parts};
ghost use Rattle.msg_form.specs.Text.{has_duplicate, is_among, is_unknown};
ghost use Rattle.msg_form.specs.Views.{imp_view, pairs_view};
ghost use Rattle.msg_form.specs.Walk.{list_texts};

use crate::form::{Imp, Pair};
use crate::form_names::{FormNames, are_alike};
use msg_names::MAX_NAMES;
use std::alloc::{AllocError, Global};

impl<'v> FormNames<'v> {
    /// Whether no listed class has the name.
    #[tactic(auto, using(crate::proofs::TextLemmas::any_distinct))]
    pub fn lacks_listed(&self, name: &str) -> bool
        ensures { (f : plain.Form) → AreNamesOf self.now f
            → result ≡ is_unknown (listed_names f) name.now }
    {
        self.listed.lacks(name)
    }

    /// Whether no class has the name, listed or made.
    #[tactic(auto, using(crate::proofs::TextLemmas::any_distinct))]
    pub fn lacks_class(&self, name: &str) -> bool
        ensures { (f : plain.Form) → AreNamesOf self.now f
            → result ≡ is_unknown (class_names f) name.now }
    {
        self.classes.lacks(name)
    }

    /// Whether a listed class with the name has no superclass.
    #[tactic(auto, using(crate::proofs::TextLemmas::any_distinct))]
    pub fn has_root(&self, name: &str) -> bool
        ensures { (f : plain.Form) → AreNamesOf self.now f
            → result ≡ is_among name.now (root_names f) }
    {
        self.roots.has(name)
    }

    #[tactic(auto, using(crate::proofs::TextLemmas::any_distinct))]
    pub fn lacks_object(&self, name: &str) -> bool
        ensures { (f : plain.Form) → AreNamesOf self.now f
            → result ≡ is_unknown (object_names f) name.now }
    {
        self.objects.lacks(name)
    }

    #[tactic(auto, using(crate::proofs::TextLemmas::any_distinct))]
    pub fn lacks_imp(&self, name: &str) -> bool
        ensures { (f : plain.Form) → AreNamesOf self.now f
            → result ≡ is_unknown (imp_names f) name.now }
    {
        self.imps.lacks(name)
    }
}

impl<'v> FormNames<'v> {
    /// Whether there are too many different texts at places of selectors.
    #[tactic(auto, unfolding(crate::specs::Faults::has_many_selectors))]
    pub fn has_many_selectors(&self) -> bool
        ensures { (f : plain.Form) → AreNamesOf self.now f
            → result ≡ spec.has_many_selectors f }
    {
        self.selectors.len() > MAX_NAMES
    }
}

impl<'v> Imp<'v> {
    /// Whether the body reads an argument that isn't given.
    pub fn reads_beyond(&self) -> bool
        ensures { result ≡ spec.reads_beyond (imp_view self.now) }
    {
        self.worst.argument_index
    }

    /// Whether the body is too deep, or has too many expressions.
    pub fn is_too_deep(&self) -> bool
        ensures { result ≡ spec.is_too_deep (expr_view self.now.body) }
    {
        self.worst.too_deep
    }

    /// Whether the body has a super send.
    pub fn sends_to_super(&self) -> bool
        ensures { result ≡ list_any is_super_send (parts (expr_view self.now.body)) }
    {
        self.worst.sends_above
    }
}

/// Whether a list of pairs has a selector twice.
pub fn has_selector_twice(alloc: Global, pairs: &[Pair]) -> Result<bool, AllocError>
    ensures { IfOk result (λ b. b ≡ has_duplicate (list_texts (pairs_view pairs.now))) }
{
    are_alike(alloc, pairs)
}
