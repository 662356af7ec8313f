//! Changes of the class tables.

ghost use Rattle.std.specs.Prelude.{◌≡◌};
ghost use Rattle.msg_tables.specs.ChangeList.{change_of};

use crate::methods::MethodList;
use msg_names::{ClassRef, ImpRef, Selector};

/// A change of the class tables. Each is modelled on the functions of the Objective-C Runtime
/// Reference that its comment names.
#[derive(Drop)]
pub enum Change {
    /// `class_addMethod`: refused if the class itself has the method.
    Add {
        class: ClassRef,
        sel: Selector,
        imp: ImpRef,
    },
    /// `class_replaceMethod`: adds the method if the class itself has none.
    Replace {
        class: ClassRef,
        sel: Selector,
        imp: ImpRef,
    },
    /// `method_setImplementation` of the method that `class_getInstanceMethod` finds, which may be
    /// in a superclass.
    SetImp {
        class: ClassRef,
        sel: Selector,
        imp: ImpRef,
    },
    /// `method_exchangeImplementations` of two methods, each found in the same way.
    Exchange {
        class: ClassRef,
        sel: Selector,
        other: ClassRef,
        other_sel: Selector,
    },
    /// A category attached at run time: its instance methods go to the class, its class methods to
    /// the metaclass.
    Attach {
        class: u32,
        methods: MethodList,
        class_methods: MethodList,
    },
    /// `objc_allocateClassPair` with `objc_registerClassPair`: makes a class and its metaclass,
    /// without methods, below a class that is present.
    AddClass {
        class: u32,
        superclass: Option<u32>,
    },
    /// `class_removeMethod` of the runtimes before Objective-C 2.0: removes the row that the class
    /// itself has. A row that it covered counts again, as when a category covers a method of its
    /// class. Refused if the class itself has no such row.
    Remove {
        class: ClassRef,
        sel: Selector,
    },
    /// `objc_disposeClassPair`: removes a class that was made and has no class below it, with its
    /// metaclass and the rows of both. The class may be made again.
    DisposeClass {
        class: u32,
    },
}

/// A change that is read, which borrows its lists of methods.
#[derive(Clone, Copy)]
pub enum ChangeRef<'c> {
    /// As [`Change::Add`].
    Add {
        class: ClassRef,
        sel: Selector,
        imp: ImpRef,
    },
    /// As [`Change::Replace`].
    Replace {
        class: ClassRef,
        sel: Selector,
        imp: ImpRef,
    },
    /// As [`Change::SetImp`].
    SetImp {
        class: ClassRef,
        sel: Selector,
        imp: ImpRef,
    },
    /// As [`Change::Exchange`].
    Exchange {
        class: ClassRef,
        sel: Selector,
        other: ClassRef,
        other_sel: Selector,
    },
    /// As [`Change::Attach`].
    Attach {
        class: u32,
        methods: &'c MethodList,
        class_methods: &'c MethodList,
    },
    /// As [`Change::AddClass`].
    AddClass {
        superclass: Option<u32>,
        class: u32,
    },
    /// As [`Change::Remove`].
    Remove {
        class: ClassRef,
        sel: Selector,
    },
    /// As [`Change::DisposeClass`].
    DisposeClass {
        class: u32,
    },
    /// [`Change::Attach`] of one method, for a class or for its metaclass. It needs no list.
    Cover {
        class: ClassRef,
        sel: Selector,
        imp: ImpRef,
    },
}

impl Change {
    /// The change as one that is read.
    #[inline(always)]
    pub fn by_ref(&self) -> ChangeRef<'_>
        ensures { change_of result ≡ self.now }
    {
        match *self {
            Change::Add { class, sel, imp } => ChangeRef::Add { class, sel, imp },
            Change::Replace { class, sel, imp } => ChangeRef::Replace { class, sel, imp },
            Change::SetImp { class, sel, imp } => ChangeRef::SetImp { class, sel, imp },
            Change::Exchange {
                class,
                sel,
                other,
                other_sel,
            } => ChangeRef::Exchange {
                class,
                sel,
                other,
                other_sel,
            },
            Change::Attach {
                class,
                ref methods,
                ref class_methods,
            } => ChangeRef::Attach {
                class,
                methods,
                class_methods,
            },
            Change::AddClass { class, superclass } => ChangeRef::AddClass { class, superclass },
            Change::Remove { class, sel } => ChangeRef::Remove { class, sel },
            Change::DisposeClass { class } => ChangeRef::DisposeClass { class },
        }
    }
}
