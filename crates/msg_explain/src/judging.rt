//! Whether a value has a document's fault.

ghost use Rattle.std.specs.Prelude.{◌≡◌, option_map, IfOk};
ghost use Rattle.std.specs.List.{list_any};
ghost use Rattle.msg_json.specs.View.{view};
ghost use Rattle.msg_form.specs.Faults as judge;
ghost use Rattle.msg_form.specs.ExprView.{expr_view};
ghost use Rattle.msg_form.specs.FormNames.{AreNamesOf};
ghost use Rattle.msg_form.specs.Lists.{change_lists, root_names};
ghost use Rattle.msg_form.specs.Parts.{own_sends};
ghost use Rattle.msg_form.specs.Text.{texts_view};
ghost use Rattle.msg_form.specs.Views.{both_view, change_view, form_view, imp_view, imps_view};
ghost use Rattle.msg_form.specs.Views.{pair_view};
ghost use Rattle.msg_explain.specs.Judging as spec;

use crate::part::{Naming, Part, Wanted};
use crate::superclasses::{has_no_superclass, is_above_itself};
use crate::twice::stands_twice;
use msg_form::{
    Category, Change, Class, DocumentFault, Expr, Form, FormNames, FromValue, Imp, Item,
    MAX_CATEGORIES, MAX_CLASSES, MAX_IMPS, MAX_ITEMS, MAX_OBJECTS, Pair, ReadFault,
    has_many_entries, has_selector_twice, is_miscounted_send, is_other_version, send_item,
};
use msg_json::{Bump, Tree};
use msg_names::is_selector_name;
use std::alloc::{AllocError, Global};

/// A fault of a document, and the data by which it is found in values.
#[derive(Drop)]
pub(crate) struct Judge<'j, 't> {
    pub(crate) alloc: Global,
    /// The arena of what is read of the values that are judged.
    pub(crate) bump: &'t Bump,
    pub(crate) form: &'j Form<'t>,
    pub(crate) names: &'j FormNames<'t>,
    /// The names that are given, if the fault is that one is given twice.
    pub(crate) given: &'j [&'t str],
    pub(crate) fault: DocumentFault,
    pub(crate) ghost names_of: { AreNamesOf names.now (form_view form.now) },
    pub(crate) ghost given_of: { texts_view given.now ≡ spec.names_given fault (form_view form.now) },
}

impl<'t> Judge<'_, 't> {
    /// Whether the value, which has the expected form, has the fault.
    pub(crate) fn has_fault(&self, wanted: Wanted, value: &Tree<'t, '_>) -> Result<bool, AllocError>
        ensures { IfOk result (λ b. b ≡ spec.has_fault (form_view self.now.form.now)
            self.now.fault wanted (view value.now)) }
    {
        match wanted {
            Wanted::One(part) => self.part_has(part, value),
            Wanted::Many(part) => Ok(self.fault == DocumentFault::Limit && self.is_long_list(part)),
        }
    }

    fn part_has(&self, part: Part, value: &Tree<'t, '_>) -> Result<bool, AllocError>
        ensures { IfOk result (λ b. b ≡ spec.part_has (form_view self.now.form.now)
            self.now.fault part (view value.now)) }
    {
        match self.fault {
            DocumentFault::Version => Ok(self.has_version(part)),
            DocumentFault::Limit => self.is_full(part),
            DocumentFault::UnknownSuperclass => self.lacks_superclass(part, value),
            DocumentFault::BadSelector => Ok(is_bad_selector(part, value)),
            DocumentFault::DuplicateSelector => self.repeats_selector(part, value),
            DocumentFault::ArgumentCount => self.has_other_count(part, value),
            DocumentFault::ArgumentIndex => self.reads_beyond(part, value),
            DocumentFault::BodyTooDeep => self.is_too_deep(part, value),
            DocumentFault::ClassCycle => self.is_in_cycle(part, value),
            _ => Ok(self.has_wrong_name(part, value)),
        }
    }

    /// Reads the value, if it spells such a part.
    fn read<T: FromValue<'t>>(&self, value: &Tree<'t, '_>) -> Result<Option<T>, AllocError>
        ensures { IfOk result (λ o. option_map T.plain o ≡ T.spelled (view value.now)) }
    {
        match T::from_value(self.alloc, self.bump, value) {
            Ok(part) => Ok(Some(part)),
            Err(ReadFault::Shape) => Ok(None),
            Err(ReadFault::Memory) => Err(AllocError),
        }
    }

    // ---- versions and limits

    fn has_version(&self, part: Part) -> bool
        ensures { result ≡ spec.has_version (form_view self.now.form.now) part }
    {
        part == Part::Version && is_other_version(self.form)
    }

    fn is_long_list(&self, part: Part) -> bool
        ensures { result ≡ spec.is_long_list (form_view self.now.form.now) part }
    {
        let form = self.form;
        match part {
            Part::Class => form.classes.len() + form.made.len() > MAX_CLASSES,
            Part::Category => form.categories.len() > MAX_CATEGORIES,
            Part::Object => form.objects.len() > MAX_OBJECTS,
            Part::Imp => form.imps.len() > MAX_IMPS,
            Part::Item(_) => form.items.len() > MAX_ITEMS,
            _ => false,
        }
    }

    fn is_full(&self, part: Part) -> Result<bool, AllocError>
        ensures { IfOk result (λ b. b ≡ spec.is_full (form_view self.now.form.now) part) }
    {
        if !matches!(part, Part::Document(_)) {
            return Ok(false);
        }
        Ok(has_many_entries(self.alloc, self.form)? || self.names.has_many_selectors())
    }

    // ---- names

    fn has_wrong_name(&self, part: Part, value: &Tree<'t, '_>) -> bool
        ensures { result ≡ spec.has_wrong_name (form_view self.now.form.now)
            self.now.fault part (view value.now) }
    {
        match (part, value) {
            (Part::Name(naming), Tree::Text(name)) => self.is_wrong_name(naming, *name),
            (Part::MadeUnder, Tree::Text(name)) => self.is_wrong_name(Naming::Class, *name),
            _ => false,
        }
    }

    fn is_wrong_name(&self, naming: Naming, name: &str) -> bool
        ensures { result ≡ spec.is_wrong_name (form_view self.now.form.now)
            self.now.fault naming name.now }
    {
        match (self.fault, naming) {
            (DocumentFault::DuplicateClass, Naming::NewClass)
            | (DocumentFault::DuplicateObject, Naming::NewObject)
            | (DocumentFault::DuplicateImp, Naming::NewImp) => stands_twice(self.given, name),
            (DocumentFault::UnknownClass, Naming::Listed) => self.names.lacks_listed(name),
            (DocumentFault::UnknownClass, Naming::Class) => self.names.lacks_class(name),
            (DocumentFault::UnknownObject, Naming::Object) => self.names.lacks_object(name),
            (DocumentFault::UnknownImp, Naming::Imp) => self.names.lacks_imp(name),
            _ => false,
        }
    }

    // ---- classes

    fn lacks_superclass(&self, part: Part, value: &Tree<'t, '_>) -> Result<bool, AllocError>
        ensures { IfOk result (λ b. b ≡ spec.has_no_superclass (form_view self.now.form.now)
            part (view value.now)) }
    {
        match part {
            Part::Class => match self.read::<Class>(value)? {
                Some(class) => Ok(has_no_superclass(self.form, self.names, &class)),
                None => Ok(false),
            },
            Part::Imp => match self.read::<Imp>(value)? {
                Some(imp) => Ok(self.sends_above(&imp)),
                None => Ok(false),
            },
            _ => Ok(false),
        }
    }

    /// Whether a method of a root class has a super send.
    fn sends_above(&self, imp: &Imp) -> bool
        ensures { result ≡ judge.sends_above
            (root_names (form_view self.now.form.now)) (imp_view imp.now) }
    {
        !imp.meta && self.names.has_root(imp.class) && imp.sends_to_super()
    }

    fn is_in_cycle(&self, part: Part, value: &Tree<'t, '_>) -> Result<bool, AllocError>
        ensures { IfOk result (λ b. b ≡ spec.is_in_cycle (form_view self.now.form.now)
            part (view value.now)) }
    {
        if part != Part::Class {
            return Ok(false);
        }
        match self.read::<Class>(value)? {
            Some(class) => Ok(is_above_itself(&self.form.classes, &class)),
            None => Ok(false),
        }
    }

    // ---- lists, sends and bodies

    fn repeats_selector(&self, part: Part, value: &Tree<'t, '_>) -> Result<bool, AllocError>
        ensures { IfOk result (λ b. b ≡ spec.repeats_selector part (view value.now)) }
    {
        match part {
            Part::Class => match self.read::<Class>(value)? {
                Some(class) => self.any_repeats(&class.methods, &class.class_methods),
                None => Ok(false),
            },
            Part::Category => match self.read::<Category>(value)? {
                Some(category) => self.any_repeats(&category.methods, &category.class_methods),
                None => Ok(false),
            },
            Part::Changes(_) | Part::Change => match self.read::<Change>(value)? {
                Some(change) => self.change_repeats(&change),
                None => Ok(false),
            },
            _ => Ok(false),
        }
    }

    fn change_repeats(&self, change: &Change) -> Result<bool, AllocError>
        ensures { IfOk result (λ b. b ≡ spec.any_repeats (change_lists (change_view change.now))) }
    {
        match change {
            Change::Attach {
                methods,
                class_methods,
                ..
            } => self.any_repeats(methods, class_methods),
            _ => Ok(false),
        }
    }

    fn any_repeats(&self, methods: &[Pair], class_methods: &[Pair]) -> Result<bool, AllocError>
        ensures { IfOk result
            (λ b. b ≡ spec.any_repeats (both_view methods.now class_methods.now)) }
    {
        Ok(
            has_selector_twice(self.alloc, methods)?
                || has_selector_twice(self.alloc, class_methods)?,
        )
    }

    fn has_other_count(&self, part: Part, value: &Tree<'t, '_>) -> Result<bool, AllocError>
        ensures { IfOk result (λ b. b ≡ spec.has_other_count (form_view self.now.form.now)
            part (view value.now)) }
    {
        match part {
            Part::Pair => match self.read::<Pair>(value)? {
                Some(pair) => Ok(is_miscounted(&self.form.imps, &pair)),
                None => Ok(false),
            },
            Part::Send => self.send_has_other_count(value),
            Part::Body => match self.read::<Expr>(value)? {
                Some(body) => Ok(sends_other_count(&body)),
                None => Ok(false),
            },
            _ => Ok(false),
        }
    }

    fn send_has_other_count(&self, value: &Tree<'t, '_>) -> Result<bool, AllocError>
        ensures { IfOk result (λ b. b ≡ spec.send_has_other_count (view value.now)) }
    {
        match send_item(self.alloc, self.bump, value) {
            Ok(Item::Send { selector, args, .. }) => Ok(is_miscounted_send(selector, args.len())),
            Ok(_) | Err(ReadFault::Shape) => Ok(false),
            Err(ReadFault::Memory) => Err(AllocError),
        }
    }

    fn reads_beyond(&self, part: Part, value: &Tree<'t, '_>) -> Result<bool, AllocError>
        ensures { IfOk result (λ b. b ≡ spec.reads_beyond part (view value.now)) }
    {
        if part != Part::Imp {
            return Ok(false);
        }
        match self.read::<Imp>(value)? {
            Some(imp) => Ok(imp.reads_beyond()),
            None => Ok(false),
        }
    }

    fn is_too_deep(&self, part: Part, value: &Tree<'t, '_>) -> Result<bool, AllocError>
        ensures { IfOk result (λ b. b ≡ spec.is_too_deep part (view value.now)) }
    {
        if part != Part::Imp {
            return Ok(false);
        }
        match self.read::<Imp>(value)? {
            Some(imp) => Ok(imp.is_too_deep()),
            None => Ok(false),
        }
    }
}

fn is_bad_selector(part: Part, value: &Tree<'_, '_>) -> bool
    ensures { result ≡ spec.is_bad_selector part (view value.now) }
{
    match (part, value) {
        (Part::Selector, Tree::Text(text)) => !is_selector_name(*text),
        _ => false,
    }
}

/// Whether the pair's implementation takes more or fewer arguments than its selector has colons.
fn is_miscounted(imps: &[Imp], pair: &Pair) -> bool
    ensures { result ≡ judge.is_miscounted (imps_view imps.now) (pair_view pair.now) }
{
    match args_named(imps, pair.imp) {
        Some(args) => is_miscounted_send(pair.selector, usize::from(args)),
        None => false,
    }
}

/// The number of arguments that the implementation with a name takes.
fn args_named(imps: &[Imp], name: &str) -> Option<u8>
    ensures { result ≡ judge.args_named (imps_view imps.now) name.now }
{
    for imp in imps {
        if name == imp.name {
            return Some(imp.args);
        }
    }
    None
}

fn sends_other_count(body: &Expr) -> bool
    ensures { result ≡ list_any judge.is_miscounted_send (own_sends (expr_view body.now)) }
{
    match body {
        Expr::Send(send) => is_miscounted_send(send.selector, send.args.len()),
        Expr::Super(send) => is_miscounted_send(send.selector, send.args.len()),
        _ => false,
    }
}
