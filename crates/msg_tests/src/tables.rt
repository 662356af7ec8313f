//! The class tables, called one by one.

ghost use Rattle.std.specs.Prelude.{◌≡◌, ◌<◌, ◌*◌, length};
ghost use Rattle.msg_image.specs.Opened.{origin_of};
ghost use Rattle.msg_tables.specs.Origin.{class_total};

use crate::same::{same, same_at};
use msg_image::{Change, Image, MAX_CHANGES, MethodList, read_document};
use msg_names::{ClassRef, ImpRef, Selector};
use msg_samples::{Hog, IMAGE};
use msg_tables::{ChangeFault, Marks, Tables, Written};
use std::alloc::Global;
use std::fmt::Debug;
use std::process::Abort;
use std::slice::from_ref;

pub(crate) const ROOT: ClassRef = ClassRef {
    class: 0,
    meta: false,
};

pub(crate) const CHILD: ClassRef = ClassRef {
    class: 1,
    meta: false,
};

pub(crate) const GRAND: ClassRef = ClassRef {
    class: 2,
    meta: false,
};

pub(crate) const SIDE: ClassRef = ClassRef {
    class: 3,
    meta: false,
};

const PROXY: ClassRef = ClassRef {
    class: 4,
    meta: false,
};

pub(crate) fn metaclass(class: ClassRef) -> ClassRef
    ensures { result.class ≡ class.class }
{
    ClassRef {
        class: class.class,
        meta: true,
    }
}

// A test keeps what it owns in a box, because each way out of the test then drops it by one call.
pub(crate) fn image(rt: &impl Abort, alloc: Global) -> Box<Image> {
    let document = read_document(alloc, IMAGE.as_bytes()).expect(rt, "a document");
    Box::new(alloc, document.image).expect(rt, "memory")
}

pub(crate) fn opened(rt: &impl Abort, alloc: Global, image: &Image) -> Box<Tables>
    ensures { length result.value.supers ≡ class_total (origin_of image.now) }
{
    let tables = Tables::open(alloc, image).expect(rt, "memory");
    Box::new(alloc, tables).expect(rt, "memory")
}

pub(crate) fn selector(rt: &impl Abort, image: &Image, name: &str) -> Selector {
    image.names().find(name).expect(rt, "a selector")
}

fn numbered(rt: &impl Abort, number: u32) -> Selector {
    Selector::of(number).expect(rt, "a number above 0")
}

// The implementation that each class finds, and where it is.
fn methods_are_found(rt: &impl Abort, image: &Image, tables: &Tables)
    requires { length tables.now.supers ≡ class_total (origin_of image.now) }
{
    for (class, name, imp, holder) in [
        (ROOT, "value", 1, Some(ROOT)),
        (GRAND, "value", 1, Some(ROOT)),
        (GRAND, "name", 11, Some(CHILD)),
        (SIDE, "name", 2, Some(ROOT)),
        // the category attached last wins
        (SIDE, "tag", 13, Some(SIDE)),
        (GRAND, "tag", 0, None),
        (PROXY, "value", 0, None),
        (PROXY, "forwardingTargetForSelector:", 14, Some(PROXY)),
        (metaclass(GRAND), "make", 10, Some(metaclass(ROOT))),
        (metaclass(GRAND), "value", 1, Some(ROOT)),
        (metaclass(PROXY), "make", 0, None),
        (
            metaclass(PROXY),
            "forwardingTargetForSelector:",
            14,
            Some(PROXY),
        ),
        (GRAND, "make", 0, None),
    ] {
        let sel = selector(rt, image, name);
        assert!(rt; class.class < image.class_count());
        same_at(rt, &(name, class), tables.lookup(class, sel).number(), imp);
        same_at(rt, &(name, class), tables.holder(class, sel), holder);
    }
}

fn superclasses_are_found(rt: &impl Abort, image: &Image, tables: &Tables)
    requires { length tables.now.supers ≡ class_total (origin_of image.now) }
{
    for (class, above) in [
        (ROOT, None),
        (CHILD, Some(ROOT)),
        (GRAND, Some(CHILD)),
        (PROXY, None),
        (metaclass(ROOT), Some(ROOT)),
        (metaclass(GRAND), Some(metaclass(CHILD))),
        (metaclass(PROXY), Some(PROXY)),
    ] {
        assert!(rt; class.class < image.class_count());
        same_at(rt, &class, tables.superclass(class), above);
    }
}

// Marks, with the tables that they are of.
#[derive(Drop)]
struct Marked<'t> {
    tables: &'t Tables,
    marks: Marks,
    classes: u32,
    ghost room: { length marks ≡ 2 * length tables.now.supers },
    ghost classes_are: { classes ≡ length tables.now.supers },
}

impl Marked<'_> {
    // How many class references descend from this one, whether the other does, and whether it is
    // marked when the marks were taken away.
    fn descendants(
        &mut self,
        rt: &impl Abort,
        class: ClassRef,
        other: ClassRef,
    ) -> (usize, bool, bool) {
        assert!(rt; class.class < self.classes && other.class < self.classes);
        self.tables.descendants(class, &mut self.marks);
        let count = self.marks.count();
        let is_below = self.marks.has(other);
        self.marks.clear();
        (count, is_below, self.marks.has(other))
    }
}

fn with_marks<'t>(rt: &impl Abort, alloc: Global, image: &Image, tables: &'t Tables) -> Marked<'t>
    requires { length tables.now.supers ≡ class_total (origin_of image.now) }
{
    Marked {
        tables,
        marks: tables.marks(alloc).expect(rt, "memory"),
        classes: image.class_count(),
    }
}

fn descendants_are(rt: &impl Abort, marked: &mut Marked<'_>) {
    for (class, other, count, is_below) in [
        (ROOT, GRAND, 8, true),
        (ROOT, metaclass(SIDE), 8, true),
        (ROOT, PROXY, 8, false),
        (metaclass(ROOT), metaclass(SIDE), 4, true),
        (metaclass(ROOT), ROOT, 4, false),
        (CHILD, GRAND, 2, true),
        (CHILD, metaclass(CHILD), 2, false),
        (PROXY, metaclass(PROXY), 2, true),
    ] {
        let found = marked.descendants(rt, class, other);
        same_at(rt, &(class, other), found, (count, is_below, false));
    }
}

#[test]
fn lookups_and_descendants_of_fresh_tables(rt: HostRuntime) {
    let image = image(&rt, rt.alloc());
    same(&rt, image.class_count(), 5);
    let tables = opened(&rt, rt.alloc(), &image);
    let mut marked = with_marks(&rt, rt.alloc(), &image, &tables);
    // the calls take no memory
    let _hog = Hog::new(&rt).expect(&rt, "memory");
    methods_are_found(&rt, &image, &tables);
    superclasses_are_found(&rt, &image, &tables);
    descendants_are(&rt, &mut marked);
    are_refused(&rt, &tables);
}

// Of these methods fresh tables refuse all but the last.
fn are_refused(rt: &impl Abort, tables: &Tables) {
    let sel = numbered(rt, 2);
    for (class, imp, add, set) in [
        (NOWHERE, 1, NO_CLASS, NO_CLASS),
        (CHILD, 99, NO_IMP, NO_IMP),
        (CHILD, 3, COUNT, COUNT),
        (ROOT, 1, PRESENT, None),
        (PROXY, 1, None, NO_METHOD),
        (CHILD, 1, None, None),
    ] {
        let imp = ImpRef::of(imp);
        let change = Change::Add { class, sel, imp };
        same_at(rt, &(class, imp), tables.refusal(&change), add);
        let change = Change::SetImp { class, sel, imp };
        same_at(rt, &(class, imp), tables.refusal(&change), set);
    }
}

// Makes a change, as a list of one, or returns why not.
fn applied(alloc: Global, tables: &mut Tables, change: &Change) -> Option<ChangeFault>
    ensures { length tables.new.supers ≡ length tables.old.supers }
{
    let mut written = Written::none(alloc);
    let outcome = tables.apply_all(&from_ref(change), &mut written);
    outcome.err().map(|refused| refused.fault)
}

// The outcome of a change in fresh tables, which are asked for the fault before it is made.
fn fault_is<K: Debug>(
    rt: &impl Abort,
    alloc: Global,
    image: &Image,
    row: &K,
    change: &Change,
    want: Option<ChangeFault>,
) {
    let mut tables = opened(rt, alloc, image);
    same_at(rt, row, tables.refusal(change), want);
    same_at(rt, row, applied(alloc, &mut tables, change), want);
}

// Fresh tables refuse this method with this fault, whether it is added, replaced or set.
fn faults_are(
    rt: &impl Abort,
    alloc: Global,
    image: &Image,
    (class, sel, imp): (ClassRef, Selector, ImpRef),
    [add, replace, set]: [Option<ChangeFault>; 3],
) {
    let row = (class, sel, imp);
    let change = Change::Add { class, sel, imp };
    fault_is(rt, alloc, image, &row, &change, add);
    let change = Change::Replace { class, sel, imp };
    fault_is(rt, alloc, image, &row, &change, replace);
    let change = Change::SetImp { class, sel, imp };
    fault_is(rt, alloc, image, &row, &change, set);
}

const NOWHERE: ClassRef = ClassRef {
    class: 9,
    meta: false,
};

const NO_CLASS: Option<ChangeFault> = Some(ChangeFault::NoClass);

const NO_IMP: Option<ChangeFault> = Some(ChangeFault::NoImp);

const COUNT: Option<ChangeFault> = Some(ChangeFault::ArgumentCount);

const PRESENT: Option<ChangeFault> = Some(ChangeFault::MethodPresent);

const NO_METHOD: Option<ChangeFault> = Some(ChangeFault::NoMethod);

fn methods_are_refused(rt: &impl Abort, alloc: Global, image: &Image) {
    for (class, number, imp, want) in [
        // no method of the image
        (NOWHERE, 2, 1, [NO_CLASS, NO_CLASS, NO_CLASS]),
        (NOWHERE, 15, 99, [NO_CLASS, NO_CLASS, NO_CLASS]),
        (CHILD, 15, 99, [NO_IMP, NO_IMP, NO_IMP]),
        (CHILD, 2, 0, [NO_IMP, NO_IMP, NO_IMP]),
        (CHILD, 2, 3, [COUNT, COUNT, COUNT]),
        (CHILD, 15, 1, [COUNT, COUNT, COUNT]),
        // one that the class has, that it inherits, and that is not there
        (CHILD, 3, 1, [PRESENT, None, None]),
        (CHILD, 2, 1, [None, None, None]),
        (PROXY, 2, 1, [None, None, NO_METHOD]),
    ] {
        let method = (class, numbered(rt, number), ImpRef::of(imp));
        faults_are(rt, alloc, image, method, want);
    }
}

fn exchanges_are_refused(rt: &impl Abort, alloc: Global, image: &Image) {
    let sel = selector(rt, image, "value");
    for (class, other, number, want) in [
        (NOWHERE, CHILD, 4, NO_CLASS),
        (CHILD, NOWHERE, 3, NO_CLASS),
        (PROXY, CHILD, 4, COUNT),
        (CHILD, CHILD, 15, COUNT),
        (CHILD, PROXY, 3, NO_METHOD),
        (PROXY, CHILD, 3, NO_METHOD),
        (CHILD, GRAND, 2, None),
    ] {
        let exchange = Change::Exchange {
            class,
            sel,
            other,
            other_sel: numbered(rt, number),
        };
        fault_is(rt, alloc, image, &(class, other, number), &exchange, want);
    }
}

#[test]
fn fresh_tables_refuse_changes(rt: HostRuntime) {
    let image = image(&rt, rt.alloc());
    methods_are_refused(&rt, rt.alloc(), &image);
    exchanges_are_refused(&rt, rt.alloc(), &image);
}

// The implementation that a lookup finds after a change.
fn found_after(
    rt: &impl Abort,
    alloc: Global,
    image: &Image,
    change: &Change,
    class: ClassRef,
    sel: Selector,
) -> u32 {
    let mut tables = opened(rt, alloc, image);
    same(rt, applied(alloc, &mut tables, change), None);
    assert!(rt; class.class < image.class_count());
    tables.lookup(class, sel).number()
}

// After a change these classes find these implementations.
fn are_found_after(
    rt: &impl Abort,
    alloc: Global,
    image: &Image,
    change: Change,
    wanted: &[(ClassRef, Selector, u32)],
) {
    for (class, sel, want) in wanted {
        same_at(
            rt,
            &(*sel, *class),
            found_after(rt, alloc, image, &change, *class, *sel),
            *want,
        );
    }
}

// A category with two entries of one selector.
pub(crate) fn category(rt: &impl Abort, alloc: Global, tag: Selector, value: Selector) -> Change {
    let methods = vec![in alloc; (tag, ImpRef::of(1)), (tag, ImpRef::of(2))].expect(rt, "memory");
    let class_methods = vec![in alloc; (value, ImpRef::of(2))].expect(rt, "memory");
    Change::Attach {
        class: 3,
        methods: MethodList::new(methods),
        class_methods: MethodList::new(class_methods),
    }
}

fn an_attachment_is_found(rt: &impl Abort, alloc: Global, image: &Image) {
    let tag = selector(rt, image, "tag");
    let value = selector(rt, image, "value");
    let attach = category(rt, alloc, tag, value);
    // of two entries of one list the earlier wins
    let wanted = [
        (SIDE, tag, 1),
        (metaclass(SIDE), value, 2),
        (SIDE, value, 1),
    ];
    are_found_after(rt, alloc, image, attach, &wanted);
}

fn a_set_and_an_exchange_are_found(rt: &impl Abort, alloc: Global, image: &Image) {
    let sel = selector(rt, image, "value");
    let name = selector(rt, image, "name");
    let set = Change::SetImp {
        class: metaclass(GRAND),
        sel,
        imp: ImpRef::of(12),
    };
    are_found_after(rt, alloc, image, set, &[(SIDE, sel, 12)]);
    let exchange = Change::Exchange {
        class: CHILD,
        sel,
        other: CHILD,
        other_sel: name,
    };
    let wanted = [(ROOT, sel, 11), (GRAND, name, 1), (SIDE, name, 2)];
    are_found_after(rt, alloc, image, exchange, &wanted);
}

#[test]
fn lookups_after_a_change(rt: HostRuntime) {
    let image = image(&rt, rt.alloc());
    an_attachment_is_found(&rt, rt.alloc(), &image);
    a_set_and_an_exchange_are_found(&rt, rt.alloc(), &image);
}

// The change is made again and again.
fn is_made(rt: &impl Abort, alloc: Global, tables: &mut Tables, change: &Change) {
    for place in 0..MAX_CHANGES {
        same_at(rt, &place, applied(alloc, tables, change), None);
    }
    same(rt, MAX_CHANGES, 65_536);
}

// A change that the tables would have made before.
fn is_too_much(rt: &impl Abort, alloc: Global, tables: &mut Tables, change: Change) {
    same(
        rt,
        applied(alloc, tables, &change),
        Some(ChangeFault::Limit),
    );
    same(rt, tables.refusal(&change), Some(ChangeFault::Limit));
}

// No change of any kind is made, and that a method is present is reported first.
fn are_full(rt: &impl Abort, alloc: Global, tables: &mut Tables, sel: Selector, name: Selector) {
    let (class, imp) = (CHILD, ImpRef::of(1));
    is_too_much(rt, alloc, tables, Change::Replace { class, sel, imp });
    let below = Change::Add {
        class: GRAND,
        sel,
        imp,
    };
    is_too_much(rt, alloc, tables, below);
    is_too_much(rt, alloc, tables, Change::SetImp { class, sel, imp });
    let exchange = Change::Exchange {
        class,
        sel,
        other: class,
        other_sel: name,
    };
    is_too_much(rt, alloc, tables, exchange);
    let attach = Change::Attach {
        class: 1,
        methods: MethodList::new(Vec::new(alloc)),
        class_methods: MethodList::new(Vec::new(alloc)),
    };
    is_too_much(rt, alloc, tables, attach);
    let present = Change::Add { class, sel, imp };
    same(
        rt,
        applied(alloc, tables, &present),
        Some(ChangeFault::MethodPresent),
    );
}

#[test]
fn no_more_than_65536_changes_are_accepted(rt: HostRuntime) {
    let image = image(&rt, rt.alloc());
    let mut tables = opened(&rt, rt.alloc(), &image);
    let sel = selector(&rt, &image, "value");
    let replace = Change::Replace {
        class: CHILD,
        sel,
        imp: ImpRef::of(1),
    };
    is_made(&rt, rt.alloc(), &mut tables, &replace);
    let name = selector(&rt, &image, "name");
    are_full(&rt, rt.alloc(), &mut tables, sel, name);
}
