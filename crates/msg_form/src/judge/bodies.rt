//! What is wrong with bodies.
//!
//! Bodies are most of a large document. One walk looks for all faults of a body right after the
//! body was read, while it is still in the processor's cache. Only a body that names classes or
//! objects is walked over again, to look up these names.

ghost use Rattle.std.specs.Prelude.{◌≡◌, ◌&&◌, false, not};
ghost use Rattle.std.specs.List.{list_any};
ghost use Rattle.msg_form.specs.BodyFaults.{AreAdded, AreBodyFaults, AreWorst, has_miscounted_send};
ghost use Rattle.msg_form.specs.BodyFaults.{names_unknown_class, names_unknown_object};
ghost use Rattle.msg_form.specs.Faults as spec;
ghost use Rattle.msg_form.specs.ExprView.{expr_view};
ghost use Rattle.msg_form.specs.FormNames.{AreNamesOf};
ghost use Rattle.msg_form.specs.Parts.{has_texts};
ghost use Rattle.msg_form.specs.Text.{is_among};
ghost use Rattle.msg_form.specs.Views.{imp_view, imps_view, form_view};

use super::body_walk::{BodyWalk, Found};
use crate::form::{Expr, Form, Imp};
use crate::form_names::FormNames;
use crate::name_set::NameSet;
use std::alloc::Global;

/// The faults that some body has.
#[derive(Clone, Copy)]
pub(crate) struct BodyFaults {
    /// A super send in a method of a root class.
    pub(crate) sends_above: bool,
    pub(crate) unknown_class: bool,
    pub(crate) unknown_object: bool,
    /// A send with too few or too many arguments.
    pub(crate) argument_count: bool,
    pub(crate) argument_index: bool,
    pub(crate) too_deep: bool,
}

const NO_FAULTS: BodyFaults = BodyFaults {
    sends_above: false,
    unknown_class: false,
    unknown_object: false,
    argument_count: false,
    argument_index: false,
    too_deep: false,
};

/// Looks at a body when it is read. It finds the faults that the body has in the worst case: in a
/// method of a root class, if no class and no object has a name. It also finds whether the body has
/// texts at places of selectors.
pub(crate) fn looked_at(alloc: Global, body: &Expr, args: u8) -> Found
    ensures worst { AreWorst result.faults args (expr_view body.now) }
    ensures selects { result.selects ≡ has_texts (expr_view body.now) }
{
    let none = NameSet::new(alloc);
    let walk = BodyWalk {
        above: true,
        classes: &none,
        objects: &none,
        args: u64::from(args),
    };
    walk.found(NO_FAULTS, body)
}

/// The faults that the bodies of a form have.
pub(super) fn body_faults(form: &Form, names: &FormNames) -> BodyFaults
    requires { AreNamesOf names.now (form_view form.now) }
    ensures { AreBodyFaults result (form_view form.now) }
{
    let known = Known {
        classes: &names.classes,
        roots: &names.roots,
        objects: &names.objects,
    };
    known.body_faults(&form.imps)
}

/// The names that bodies may use.
#[derive(Drop)]
struct Known<'s, 'v> {
    classes: &'s NameSet<'v>,
    roots: &'s NameSet<'v>,
    objects: &'s NameSet<'v>,
}

impl Known<'_, '_> {
    fn body_faults(&self, imps: &[Imp]) -> BodyFaults
        ensures sends_above { result.sends_above
            ≡ list_any (spec.sends_above self.now.roots.now) (imps_view imps.now) }
        ensures unknown_class { result.unknown_class
            ≡ list_any (names_unknown_class self.now.classes.now) (imps_view imps.now) }
        ensures unknown_object { result.unknown_object
            ≡ list_any (names_unknown_object self.now.objects.now) (imps_view imps.now) }
        ensures argument_count { result.argument_count
            ≡ list_any has_miscounted_send (imps_view imps.now) }
        ensures argument_index { result.argument_index
            ≡ list_any spec.reads_beyond (imps_view imps.now) }
        ensures too_deep { result.too_deep
            ≡ list_any (λ i. spec.is_too_deep i.body) (imps_view imps.now) }
    {
        let mut faults = NO_FAULTS;
        for imp in imps {
            faults = self.with_body(faults, imp);
        }
        faults
    }

    fn with_body(&self, faults: BodyFaults, imp: &Imp) -> BodyFaults
        ensures { AreAdded self.now.roots.now self.now.classes.now self.now.objects.now
            faults result (imp_view imp.now) }
    {
        if imp.worst.unknown_class | imp.worst.unknown_object {
            self.with_names(faults, imp)
        } else {
            self.with_worst(faults, imp)
        }
    }

    /// Adds the faults of a body whose names are looked up.
    fn with_names(&self, faults: BodyFaults, imp: &Imp) -> BodyFaults
        ensures { AreAdded self.now.roots.now self.now.classes.now self.now.objects.now
            faults result (imp_view imp.now) }
    {
        let walk = BodyWalk {
            above: looks_above(self.roots, imp),
            classes: self.classes,
            objects: self.objects,
            args: u64::from(imp.args),
        };
        walk.found(faults, &imp.body).faults
    }

    /// Adds the faults of a body that names no class and no object. They are its worst faults. A
    /// super send counts only in a method of a root class.
    fn with_worst(&self, faults: BodyFaults, imp: &Imp) -> BodyFaults
        requires class { imp.now.worst.unknown_class ≡ false }
        requires object { imp.now.worst.unknown_object ≡ false }
        ensures { AreAdded self.now.roots.now self.now.classes.now self.now.objects.now
            faults result (imp_view imp.now) }
    {
        let worst = imp.worst;
        let above = looks_above(self.roots, imp) & worst.sends_above;
        BodyFaults {
            sends_above: faults.sends_above | above,
            unknown_class: faults.unknown_class,
            unknown_object: faults.unknown_object,
            argument_count: faults.argument_count | worst.argument_count,
            argument_index: faults.argument_index | worst.argument_index,
            too_deep: faults.too_deep | worst.too_deep,
        }
    }
}

/// Whether a super send would look above a root class.
fn looks_above(roots: &NameSet, imp: &Imp) -> bool
    ensures { result ≡ (not imp.now.meta && is_among imp.now.class.now roots.now) }
{
    !imp.meta && roots.has(imp.class)
}
