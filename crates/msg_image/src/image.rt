//! The image.

ghost use Rattle.std.specs.Prelude.{◌≡◌, ◌<◌, ◌≤◌, ◌-◌, false, length, map, option_map, slice_get};
ghost use Rattle.std.specs.Prelude.{All, IfOk, IfSome, None, Some};
ghost use Rattle.msg_order.specs.Superclasses.{AreListed as AreClasses, depth_of, has_cycle, super_of};
ghost use Rattle.msg_form.specs.Faults.{fault_of};
ghost use Rattle.msg_form.specs.FormNames.{AreNamesOf};
ghost use Rattle.msg_form.specs.Text.{texts_view};
ghost use Rattle.msg_form.specs.Views.{form_view, names_view};
ghost use Rattle.msg_image.specs.Document.{image_of};
ghost use Rattle.msg_image.specs.Plain.{imp_parts, object_parts};
ghost use Rattle.msg_image.specs.Resolved.{categories_by, imps_by, listed_by, objects_by};
ghost use Rattle.msg_names.specs.Number.{imp_number};
ghost use Rattle.msg_names.specs.Numbering.{name_of, texts_of};

use crate::expr::Expr;
use crate::numbers::{forwarding_selector, selector_names};
use crate::opened::{counts, limits};
use crate::resolve::{both, each};
use msg_form::{Form, FormNames, MAX_CLASSES};
use msg_names::{ClassRef, ImpRef, Names, ObjectRef, Selector};
use msg_tables::{Category, HasOrigin, ListedClass, Origin};
use std::alloc::{AllocError, Global};
use std::marker::Model;

/// An implementation.
#[derive(Drop)]
pub struct Imp {
    /// The class in whose source the implementation is, or its metaclass. The lookup of a super
    /// send begins above it.
    pub home: ClassRef,
    /// The number of arguments that it takes.
    pub args: u8,
    pub body: Expr,
}

#[derive(Drop)]
pub(crate) struct Object {
    pub(crate) name: String,
    pub(crate) class: u32,
}

/// What a document says about classes, categories, objects and implementations.
///
/// Contracts see the parts without their pointers. The calls that read take no memory, and each of
/// them indexes once.
#[derive(Drop)]
pub struct Image {
    names: Names,
    // The names of the listed classes.
    listed: Vec<String>,
    // The names of the classes that may be made at run time.
    made: Vec<String>,
    objects: Vec<Object>,
    imps: Vec<Imp>,
    // The origin from which tables are opened. Only it has the superclasses, method lists and
    // categories.
    origin: Origin,
}

impl Model for Image {
    ghost use Rattle.msg_image.specs.Parts.{ImageParts};

    ghost Value = { ImageParts };

    ghost use Rattle.std.specs.Coded.{codes};
    ghost use Rattle.msg_image.specs.Coding.{coded_expression};

    ghost coded = { Prim.hlevel (codes, coded_expression) };

    ghost use Rattle.msg_image.specs.Plain.{image_parts};
    ghost use Rattle.msg_image.specs.Inside.{IsKept};

    ghost view = { image_parts };

    ghost invariant = { IsKept };
}

impl HasOrigin for Image {
    ghost use Rattle.msg_image.specs.Opened.{origin_of};

    ghost given = { origin_of };

    fn origin(&self) -> &Origin {
        &self.origin
    }
}

fn superclass_count(origin: &Origin, class: u32) -> u32
    requires class { class < length origin.now.superclasses }
    requires few { length origin.now.superclasses ≤ MAX_CLASSES }
    requires listed { AreClasses origin.now.superclasses }
    requires chains { has_cycle origin.now.superclasses ≡ false }
    ensures { result ≡ depth_of origin.now.superclasses class }
{
    let (mut depth, mut at) = (0, class);
    while let Some(above) = origin.superclass(at) {
        depth += 1;
        at = above;
    }
    depth
}

// The classes of an image. They are made on their own, as is what represents the rest, because a
// function that lacks memory gives back what it has made.
#[derive(Drop)]
struct Classes {
    names: Vec<String>,
    listed: Vec<ListedClass>,
    made: Vec<String>,
}

fn classes_of(alloc: Global, form: &Form, names: &FormNames) -> Result<Classes, AllocError>
    ensures names { IfOk result (λ c. texts_of c.names.items ≡ names_view form.now.classes.items) }
    ensures listed { IfOk result (λ c. c.listed.items ≡ listed_by names.now form.now) }
    ensures made { IfOk result (λ c. texts_of c.made.items ≡ texts_view form.now.made.items) }
{
    let texts = each(alloc, names, &form.classes);
    let listed = each(alloc, names, &form.classes);
    let made = each(alloc, names, &form.made);
    let (texts, (listed, made)) = both(texts, both(listed, made))?;
    Ok(Classes {
        names: texts,
        listed,
        made,
    })
}

#[derive(Drop)]
struct Members {
    categories: Vec<Category>,
    objects: Vec<Object>,
    imps: Vec<Imp>,
}

fn members_of(alloc: Global, form: &Form, names: &FormNames) -> Result<Members, AllocError>
    ensures categories { IfOk result (λ m. m.categories.items ≡ categories_by names.now form.now) }
    ensures objects { IfOk result (λ m. map object_parts m.objects.items ≡ objects_by names.now form.now) }
    ensures imps { IfOk result (λ m. map imp_parts m.imps.items ≡ imps_by names.now form.now) }
{
    let categories = each(alloc, names, &form.categories);
    let objects = each(alloc, names, &form.objects);
    let imps = each(alloc, names, &form.imps);
    let (categories, (objects, imps)) = both(categories, both(objects, imps))?;
    Ok(Members {
        categories,
        objects,
        imps,
    })
}

impl Image {
    // Makes the image of a form without fault.
    pub(crate) fn of(alloc: Global, form: &Form, names: &FormNames) -> Result<Image, AllocError>
        requires fault { fault_of (form_view form.now) ≡ None }
        requires names { AreNamesOf names.now (form_view form.now) }
        ensures { IfOk result (λ i. i ≡ image_of (form_view form.now)) }
    {
        let classes = classes_of(alloc, form, names)?;
        let members = members_of(alloc, form, names)?;
        let selectors = selector_names(alloc, names.selectors.as_slice())?;
        let counts = counts(alloc, &selectors, &members.imps)?;
        let made = classes.made.len() as u32;
        let (listed, categories) = (classes.listed, members.categories);
        let origin = Origin::new(listed, made, categories, Some(counts), limits());
        Ok(Image {
            names: selectors,
            listed: classes.names,
            made: classes.made,
            objects: members.objects,
            imps: members.imps,
            origin,
        })
    }

    ghost use Rattle.msg_rows.specs.Methods.{method_numbers};
    ghost use Rattle.msg_image.specs.Parts.{class_total, class_names, depth_in, forwarding_selector, methods_in};
    ghost use Rattle.msg_image.specs.Parts.{object_at, one_deeper, superclass_in, superclasses};
    ghost use Rattle.msg_form.specs.Walk.{forwarding_text};
    ghost use Rattle.msg_image.specs.Plain.{plain, imp_parts};
    ghost use Rattle.msg_image.specs.Sound.{IsSound, IsSoundCategory, IsSoundImp, AreListed};

    /// The names of selectors. The first is `forwardingTargetForSelector:`.
    pub fn names(&self) -> &Names
        ensures names { result.now ≡ self.now.names }
        ensures forwarding { name_of self.now.names forwarding_selector ≡ Some forwarding_text }
    {
        &self.names
    }

    /// The number of classes with numbers: the listed ones, and after them those that may be made.
    pub fn class_count(&self) -> u32
        ensures count { result ≡ class_total self.now }
        ensures sound { IsSound self.now }
    {
        (self.listed.len() + self.made.len()) as u32
    }

    /// The number of listed classes.
    pub fn listed_count(&self) -> u32
        ensures count { result ≡ length self.now.classes }
        ensures sound { IsSound self.now }
    {
        self.listed.len() as u32
    }

    pub fn object_count(&self) -> u32
        ensures { result ≡ length self.now.objects }
    {
        self.objects.len() as u32
    }

    pub fn imp_count(&self) -> u32
        ensures { result ≡ length self.now.imps }
    {
        self.imps.len() as u32
    }

    pub fn class_name(&self, class: u32) -> &str
        requires { class < class_total self.now }
        ensures { slice_get (class_names self.now) class ≡ Some result.now }
    {
        let (class, listed) = (class as usize, self.listed.len());
        if class < listed {
            self.listed[class].as_str()
        } else {
            self.made[class - listed].as_str()
        }
    }

    /// The superclass. For a metaclass that is the superclass's metaclass, and for a root metaclass
    /// the root class itself.
    pub fn superclass(&self, class: ClassRef) -> Option<ClassRef>
        requires { class.class < length self.now.classes }
        ensures value { result ≡ superclass_in self.now class }
        ensures listed { IfSome result (λ above. above.class < length self.now.classes) }
    {
        class.above(self.origin.superclass(class.class))
    }

    /// The number of superclasses above a listed class: none for a root class, and otherwise one
    /// more than above its superclass.
    ///
    /// It takes time in proportion to the result.
    pub fn depth(&self, class: u32) -> u32
        requires { class < length self.now.classes }
        ensures depth { result ≡ depth_in self.now class }
        ensures above { result ≡ one_deeper self.now (super_of (superclasses self.now) class) }
    {
        superclass_count(&self.origin, class)
    }

    /// The methods that the class itself lists, without those of categories. A class that may be
    /// made lists none.
    pub fn methods(&self, class: ClassRef) -> &[(Selector, ImpRef)]
        requires { class.class < class_total self.now }
        ensures methods { method_numbers result.now ≡ methods_in self.now class }
        ensures listed { AreListed self.now (method_numbers result.now) }
    {
        if class.class as usize >= self.listed.len() {
            return &[];
        }
        let (_class, methods) = self.origin.list(class.class as usize, class.meta);
        methods.as_slice()
    }

    pub fn categories(&self) -> &[Category]
        ensures categories { result.now ≡ self.now.categories }
        ensures sound { All (IsSoundCategory self.now) result.now }
    {
        self.origin.categories()
    }

    pub fn object_name(&self, object: ObjectRef) -> &str
        requires { object.object < length self.now.objects }
        ensures { option_map (λ o. o.name) (object_at self.now object) ≡ Some result.now }
    {
        self.objects[object.object as usize].name.as_str()
    }

    pub fn object_class(&self, object: ObjectRef) -> u32
        requires { object.object < length self.now.objects }
        ensures class { option_map (λ o. o.class) (object_at self.now object) ≡ Some result }
        ensures listed { result < class_total self.now }
    {
        self.objects[object.object as usize].class
    }

    pub fn imp(&self, imp: ImpRef) -> &Imp
        requires real { 0 < imp_number imp }
        requires listed { imp_number imp ≤ length self.now.imps }
        ensures imp { slice_get self.now.imps (imp_number imp - 1) ≡ Some (imp_parts result.now) }
        ensures sound { IsSoundImp self.now (imp_parts result.now) }
    {
        &self.imps[imp.number() as usize - 1]
    }

    /// The selector `forwardingTargetForSelector:`, which every image has as its first.
    pub fn forwarding_selector(&self) -> Selector
        ensures { result ≡ forwarding_selector }
    {
        forwarding_selector()
    }
}
