//! What tables are opened from.

ghost use Rattle.std.specs.Prelude.{◌≡◌, ◌<◌, ◌*◌, Some, drop, length, slice_get};
ghost use Rattle.msg_tables.specs.Attached.{ListsAt, categories_in, list_in};
ghost use Rattle.msg_tables.specs.Given.{origin_of};
ghost use Rattle.msg_tables.specs.Origin.{IsSound, class_total};
ghost use Rattle.msg_tables.specs.declared.origin.ListedClass.{ListedClass};

use crate::counts::Counts;
use crate::limits::Limits;
use crate::methods::MethodList;
use msg_names::ClassRef;
use std::marker::Model;

/// A listed class.
#[derive(Drop)]
pub struct ListedClass {
    pub superclass: Option<u32>,
    pub methods: MethodList,
    pub class_methods: MethodList,
}

/// A category as it is listed.
#[derive(Drop)]
pub struct Category {
    pub class: u32,
    pub methods: MethodList,
    pub class_methods: MethodList,
}

/// Classes with their methods, in the state of a program that was just loaded.
#[derive(Drop)]
pub struct Origin {
    // The listed classes. They are numbered first.
    classes: Vec<ListedClass>,
    // The number of classes that may be made. They are numbered after the listed ones.
    made: u32,
    // The categories, in the order in which they are attached after the classes' own lists.
    categories: Vec<Category>,
    pub(crate) counts: Option<Counts>,
    limits: Limits,
}

impl Model for Origin {
    ghost use Rattle.msg_tables.specs.Origin.{OriginView, IsSound};

    ghost Value = { OriginView };

    ghost use Rattle.msg_tables.specs.Given.{origin_view};

    ghost view = { origin_view };

    ghost invariant = { λ o. IsSound (origin_view o) };
}

impl Origin {
    /// Makes an origin of classes that are known to be sound.
    pub fn new(
        classes: Vec<ListedClass>,
        made: u32,
        categories: Vec<Category>,
        counts: Option<Counts>,
        limits: Limits,
    ) -> Origin
        requires { IsSound (origin_of classes.items made categories.items counts limits) }
        ensures { result ≡ origin_of classes.items made categories.items counts limits }
    {
        Origin {
            classes,
            made,
            categories,
            counts,
            limits,
        }
    }

    /// The number of classes with numbers: the listed ones, and after them those that may be made.
    pub fn class_count(&self) -> u32
        ensures count { result ≡ class_total self.now }
        ensures sound { IsSound self.now }
    {
        self.classes.len() as u32 + self.made
    }

    /// The limits of the tables, and of the caches over them.
    pub fn limits(&self) -> Limits
        ensures { result ≡ self.now.limits }
    {
        self.limits
    }

    /// The number of listed classes. They are present when the tables are opened.
    pub fn listed_count(&self) -> u32
        ensures { result ≡ length self.now.superclasses }
    {
        self.classes.len() as u32
    }

    /// The superclass of a listed class.
    pub fn superclass(&self, class: u32) -> Option<u32>
        requires { class < length self.now.superclasses }
        ensures { slice_get self.now.superclasses class ≡ Some result }
    {
        self.classes[class as usize].superclass
    }

    /// The number of pairs of method lists: one for each class, and one for each category.
    pub fn pair_count(&self) -> usize
        ensures pairs { 2 * result ≡ length self.now.lists }
        ensures sound { IsSound self.now }
    {
        self.classes.len() + self.categories.len()
    }

    // The pair of method lists of a listed class, or of a category.
    fn pair(&self, pair: usize) -> (u32, &MethodList, &MethodList)
        requires { 2 * pair < length self.now.lists }
        ensures { ListsAt self.now.lists pair result.0 result.1.now result.2.now }
    {
        let listed = self.classes.len();
        if pair < listed {
            let class = &self.classes[pair];
            (pair as u32, &class.methods, &class.class_methods)
        } else {
            let category = &self.categories[pair - listed];
            (category.class, &category.methods, &category.class_methods)
        }
    }

    /// A method list and its owner: in a pair the first is of the class, and the second of the
    /// metaclass.
    pub fn list(&self, pair: usize, meta: bool) -> (ClassRef, &MethodList)
        requires { 2 * pair < length self.now.lists }
        ensures { list_in self.now.lists pair meta ≡ Some (record { class = result.0; methods = result.1.now }) }
    {
        let (class, methods, class_methods) = self.pair(pair);
        let class = ClassRef { class, meta };
        if meta {
            (class, class_methods)
        } else {
            (class, methods)
        }
    }

    /// The categories, whose lists are attached after those of the classes.
    pub fn categories(&self) -> &[Category]
        ensures { result.now ≡ categories_in (drop (2 * length self.now.superclasses) self.now.lists) }
    {
        &self.categories
    }
}

/// A source of classes from which tables can be opened.
pub trait HasOrigin {
    ghost use Rattle.msg_tables.specs.Origin.{OriginView};

    // The contracts' view of the classes.
    ghost given: { Self → OriginView };

    /// The classes.
    fn origin(&self) -> &Origin
        ensures { result.now ≡ given self.now };
}

impl HasOrigin for Origin {
    ghost given = { λ o. o };

    fn origin(&self) -> &Origin {
        self
    }
}
