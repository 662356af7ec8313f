//! The numbers of a document's names.

ghost use Rattle.std.specs.Prelude.{◌≡◌, IfOk};
ghost use Rattle.msg_form.specs.Text.{distinct, texts_view};
ghost use Rattle.msg_image.specs.Numbers as spec;
ghost use Rattle.msg_image.specs.Parts.{forwarding_selector};

use msg_form::FormNames;
use msg_names::{ImpRef, Names, ObjectRef, Selector};
use std::alloc::{AllocError, Global};

// The selector `forwardingTargetForSelector:`, which comes first.
pub(crate) fn forwarding_selector() -> Selector
    ensures { result ≡ forwarding_selector }
{
    Selector::of(1).unwrap()
}

// The numbered names of selectors. They are copied because they outlive the text. A form without
// fault has few enough of them, and all are valid.
pub(crate) fn selector_names(alloc: Global, texts: &[&str]) -> Result<Names, AllocError>
    ensures { IfOk result (λ names. names ≡ distinct (texts_view texts.now)) }
{
    let mut names = Names::new(alloc);
    for text in texts {
        let Ok(_) = names.intern(text) else {
            return Err(AllocError);
        };
    }
    Ok(names)
}

#[tactic(auto, unfolding(crate::specs::Numbers::selector_named))]
pub(crate) fn selector_named(names: &FormNames, text: &str) -> Selector
    ensures { result ≡ spec.selector_named (spec.numbers_by names.now) text.now }
{
    let number = names.selectors.number(text).unwrap_or(1);
    Selector::of(number).unwrap_or(forwarding_selector())
}

#[tactic(auto, unfolding(crate::specs::Numbers::class_named))]
pub(crate) fn class_named(names: &FormNames, name: &str) -> u32
    ensures { result ≡ spec.class_named (spec.numbers_by names.now) name.now }
{
    names.classes.number(name).unwrap_or(1).saturating_sub(1)
}

#[tactic(auto, unfolding(crate::specs::Numbers::object_named))]
pub(crate) fn object_named(names: &FormNames, name: &str) -> ObjectRef
    ensures { result ≡ spec.object_named (spec.numbers_by names.now) name.now }
{
    ObjectRef {
        object: names.objects.number(name).unwrap_or(1).saturating_sub(1),
    }
}

#[tactic(auto, unfolding(crate::specs::Numbers::imp_named))]
pub(crate) fn imp_named(names: &FormNames, name: &str) -> ImpRef
    ensures { result ≡ spec.imp_named (spec.numbers_by names.now) name.now }
{
    ImpRef::of(names.imps.number(name).unwrap_or(0))
}
