//! The names of a form, each looked at once. The form is judged by these names, which are then
//! numbers.

ghost use Rattle.std.specs.Prelude.{◌≡◌, fold, map, IfOk, OnOk};
ghost use Rattle.msg_names.specs.Numbering.{with_name};
ghost use Rattle.msg_form.specs.FormNames.{AreAddedWhileFew, AreClassesAdded, AreMembersAdded, AreNamesOf, HasNone};
ghost use Rattle.msg_form.specs.Lists.{class_names, root_names_in};
ghost use Rattle.msg_form.specs.Text.{Text, has_duplicate, repeats, texts_view};
ghost use Rattle.msg_form.specs.Views.{classes_view, form_view};
ghost use Rattle.msg_form.specs.Walk.{selector_texts};

use crate::form::{Class, Form, Imp, Object, Pair};
use crate::name_set::NameSet;
use msg_names::MAX_NAMES;
use std::alloc::{AllocError, Global};

/// The names of a form, each list in the order of its numbers, and which lists have a name twice.
#[derive(Drop)]
pub struct FormNames<'v> {
    /// The different texts at places of selectors, or some of them if they are too many.
    pub selectors: NameSet<'v>,
    /// The listed classes.
    pub listed: NameSet<'v>,
    /// The listed classes, and then the classes that may be made.
    pub classes: NameSet<'v>,
    /// The classes that have no superclass.
    pub roots: NameSet<'v>,
    pub objects: NameSet<'v>,
    pub imps: NameSet<'v>,
    pub class_twice: bool,
    pub object_twice: bool,
    pub imp_twice: bool,
}

impl<'v> FormNames<'v> {
    /// Collects the names, in time and memory proportional to the size of the form.
    pub fn of(alloc: Global, form: &Form<'v>) -> Result<FormNames<'v>, AllocError>
        ensures { IfOk result (λ n. AreNamesOf n (form_view form.now)) }
    {
        let mut names = FormNames::none(alloc);
        names.add(alloc, form).and(Ok(names))
    }

    fn none(alloc: Global) -> FormNames<'v>
        ensures { HasNone result }
    {
        FormNames {
            selectors: NameSet::new(alloc),
            listed: NameSet::new(alloc),
            classes: NameSet::new(alloc),
            roots: NameSet::new(alloc),
            objects: NameSet::new(alloc),
            imps: NameSet::new(alloc),
            class_twice: false,
            object_twice: false,
            imp_twice: false,
        }
    }

    // The sets stay in place, so that none is dropped if there is no memory for another.
    fn add(&mut self, alloc: Global, form: &Form<'v>) -> Result<(), AllocError>
        ensures { OnOk result (HasNone self.old → AreNamesOf self.new (form_view form.now)) }
    {
        add_selectors(&mut self.selectors, alloc, form)?;
        self.add_classes(form)?;
        self.add_members(form)
    }

    fn add_classes(&mut self, form: &Form<'v>) -> Result<(), AllocError>
        ensures { OnOk result (AreClassesAdded self.old self.new (form_view form.now)) }
    {
        add_names(&mut self.listed, &form.classes)?;
        self.class_twice = add_class_names(&mut self.classes, form)?;
        add_roots(&mut self.roots, &form.classes)
    }

    /// Adds the names of objects and implementations.
    fn add_members(&mut self, form: &Form<'v>) -> Result<(), AllocError>
        ensures { OnOk result (AreMembersAdded self.old self.new (form_view form.now)) }
    {
        self.object_twice = add_names(&mut self.objects, &form.objects)?;
        self.imp_twice = add_names(&mut self.imps, &form.imps)?;
        Ok(())
    }
}

/// A part with a name. No two parts of a list may share a name.
pub(crate) trait Named<'v> {
    ghost named: { Self → Text };

    fn name(&self) -> &'v str
        ensures { result.now ≡ named self.now };
}

impl<'v> Named<'v> for Class<'v> {
    ghost named = { λ c. c.name.now };

    fn name(&self) -> &'v str {
        self.name
    }
}

impl<'v> Named<'v> for Object<'v> {
    ghost named = { λ o. o.name.now };

    fn name(&self) -> &'v str {
        self.name
    }
}

impl<'v> Named<'v> for Imp<'v> {
    ghost named = { λ i. i.name.now };

    fn name(&self) -> &'v str {
        self.name
    }
}

// No selector may occur twice in a list of pairs.
impl<'v> Named<'v> for Pair<'v> {
    ghost named = { λ p. p.selector.now };

    fn name(&self) -> &'v str {
        self.selector
    }
}

impl<'v> Named<'v> for &'v str {
    ghost named = { λ s. s.now };

    fn name(&self) -> &'v str {
        *self
    }
}

/// Adds the names of the parts. Returns whether one of them is among the names already or occurs
/// twice.
fn add_names<'v, T: Named<'v>>(names: &mut NameSet<'v>, parts: &[T]) -> Result<bool, AllocError>
    ensures names { OnOk result (names.new ≡ fold with_name names.old (map T.named parts.now)) }
    ensures twice { IfOk result (λ b. b ≡ repeats names.old (map T.named parts.now)) }
{
    let mut twice = false;
    for part in parts {
        let new = names.insert(part.name())?;
        twice = twice | !new;
    }
    Ok(twice)
}

/// Whether two of the parts have the same name.
pub(crate) fn are_alike<'v, T: Named<'v>>(alloc: Global, parts: &[T]) -> Result<bool, AllocError>
    ensures { IfOk result (λ b. b ≡ has_duplicate (map T.named parts.now)) }
{
    let mut names = NameSet::new(alloc);
    add_names(&mut names, parts)
}

/// Adds the names of the listed classes and of those that may be made. Returns whether one of them
/// is among the names already or occurs twice.
fn add_class_names<'v>(names: &mut NameSet<'v>, form: &Form<'v>) -> Result<bool, AllocError>
    ensures names { OnOk result (names.new ≡ fold with_name names.old (class_names (form_view form.now))) }
    ensures twice { IfOk result (λ b. b ≡ repeats names.old (class_names (form_view form.now))) }
{
    let listed_twice = add_names(names, &form.classes)?;
    let made_twice = add_names(names, &form.made)?;
    Ok(listed_twice | made_twice)
}

/// Adds the names of the classes that have no superclass.
fn add_roots<'v>(roots: &mut NameSet<'v>, classes: &[Class<'v>]) -> Result<(), AllocError>
    ensures { OnOk result
        (roots.new ≡ fold with_name roots.old (root_names_in (classes_view classes.now))) }
{
    for class in classes {
        if class.superclass.is_none() {
            roots.insert(class.name)?;
        }
    }
    Ok(())
}

/// Adds the texts at places of selectors, until the set has more texts than can have numbers.
fn add_selectors<'v>(
    selectors: &mut NameSet<'v>,
    alloc: Global,
    form: &Form<'v>,
) -> Result<(), AllocError>
    ensures { OnOk result (AreAddedWhileFew selectors.old selectors.new (selector_texts (form_view form.now))) }
{
    let texts = form.selector_texts(alloc)?;
    add_while_few(selectors, &texts)
}

/// Adds the texts, until the set has more texts than can have numbers.
fn add_while_few<'v>(selectors: &mut NameSet<'v>, texts: &[&'v str]) -> Result<(), AllocError>
    ensures { OnOk result (AreAddedWhileFew selectors.old selectors.new (texts_view texts.now)) }
{
    for text in texts {
        if selectors.len() > MAX_NAMES {
            return Ok(());
        }
        selectors.insert(*text)?;
    }
    Ok(())
}
