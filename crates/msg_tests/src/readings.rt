//! What can be read from an image, and the items of a document.

ghost use Rattle.std.specs.Prelude.{◌≡◌};

use crate::documents::THIRD;
use crate::images::with_items;
use crate::same::{same, same_at};
use msg_image::{Change, Document, Expr, Image, Item, MethodList, read_document};
use msg_names::{ClassRef, ImpRef, ObjectRef, Selector, Value};
use msg_samples::{Hog, IMAGE};
use std::alloc::Global;
use std::process::Abort;

// A test keeps what it owns in a box, because each way out of the test then drops it by one call.
fn read(rt: &impl Abort, alloc: Global, text: &str) -> Box<Document> {
    let document = read_document(alloc, text.as_bytes()).expect(rt, "a document");
    Box::new(alloc, document).expect(rt, "memory")
}

fn at(class: u32, meta: bool) -> ClassRef
    ensures { result.class ≡ class }
{
    ClassRef { class, meta }
}

fn has_names(rt: &impl Abort, image: &Image) {
    let names = [
        "forwardingTargetForSelector:",
        "value",
        "name",
        "down:",
        "big",
        "small",
        "spread:",
        "top",
        "over",
        "bad",
        "make",
        "tag",
        "plus:",
        "go",
    ];
    same(rt, image.names().len(), 14);
    for (text, number) in names.into_iter().zip(1..15_u32) {
        let sel = image.names().find(text);
        same_at(rt, &text, sel.map(Selector::number), Some(number));
    }
    same(rt, image.forwarding_selector().number(), 1);
}

fn has_classes(rt: &impl Abort, image: &Image) {
    same(rt, image.class_count(), 5);
    for (class, name, above, above_meta) in [
        (0, "Root", None, Some(at(0, false))),
        (1, "Child", Some(at(0, false)), Some(at(0, true))),
        (2, "Grand", Some(at(1, false)), Some(at(1, true))),
        (3, "Side", Some(at(0, false)), Some(at(0, true))),
        (4, "Proxy", None, Some(at(4, false))),
    ] {
        assert!(rt; class < image.listed_count());
        same(rt, image.class_name(class).as_bytes(), name.as_bytes());
        same_at(rt, &name, image.superclass(at(class, false)), above);
        same_at(rt, &name, image.superclass(at(class, true)), above_meta);
    }
}

fn has_objects(rt: &impl Abort, image: &Image) {
    same(rt, image.object_count(), 5);
    same(rt, image.imp_count(), 14);
    for (object, name, class) in [
        (0, "c", 1),
        (1, "g", 2),
        (2, "s", 3),
        (3, "p", 4),
        (4, "q", 4),
    ] {
        assert!(rt; object < image.object_count());
        let text = image.object_name(ObjectRef { object });
        same(rt, text.as_bytes(), name.as_bytes());
        same_at(rt, &name, image.object_class(ObjectRef { object }), class);
    }
}

// The methods have these numbers of selectors and implementations.
fn methods_are(rt: &impl Abort, methods: &[(Selector, ImpRef)], want: &[(u32, u32)]) {
    same(rt, methods.len(), want.len());
    for (method, pair) in methods.iter().zip(want.iter()) {
        same(rt, method.0.number(), pair.0);
        same(rt, method.1.number(), pair.1);
    }
}

const SECOND: &str = r#"{"version":2,
"classes":[{"name":"Child","super":"Root","methods":[],"class_methods":[]},{"name":"Root","super":null,"methods":[],"class_methods":[]}],
"made":["Late"],"categories":[],"objects":[{"name":"l","class":"Late"}],"imps":[],"items":[{"change":["make","Late","Child"]}]}"#;

// Checks the document's only change.
fn makes_the_third_class(items: &[Item]) -> bool {
    match items {
        [Item::Change(Change::AddClass { class, superclass })] => {
            *class == 2 && *superclass == Some(0)
        }
        _ => false,
    }
}

fn has_depths(rt: &impl Abort, image: &Image) {
    assert_eq!(rt; image.listed_count(), 2);
    same(rt, image.depth(0), 1);
    same(rt, image.depth(1), 0);
}

fn has_a_class_to_make(rt: &impl Abort, image: &Image) {
    assert_eq!(rt; image.class_count(), 3);
    same(rt, image.class_name(2).as_bytes(), b"Late".as_slice());
    methods_are(rt, image.methods(at(2, false)), &[]);
    methods_are(rt, image.methods(at(2, true)), &[]);
    assert_eq!(rt; image.object_count(), 1);
    same(rt, image.object_class(ObjectRef { object: 0 }), 2);
}

#[test]
fn classes_that_may_be_made_come_last(rt: HostRuntime) {
    let document = read(&rt, rt.alloc(), SECOND);
    has_depths(&rt, &document.image);
    has_a_class_to_make(&rt, &document.image);
    assert!(rt; makes_the_third_class(&document.items));
}

// Checks the document's only item.
fn makes_and_attaches(rt: &impl Abort, items: &[Item]) -> bool {
    let [Item::ChangeAll(changes)] = items else {
        return false;
    };
    match changes.as_slice() {
        [
            Change::AddClass { class, superclass },
            Change::Attach {
                class: attached,
                methods,
                class_methods,
            },
        ] => {
            methods_are(rt, methods.as_slice(), &[(3, 1)]);
            methods_are(rt, class_methods.as_slice(), &[]);
            *class == 1 && *superclass == Some(0) && *attached == 1
        }
        _ => false,
    }
}

#[test]
fn changes_that_are_made_as_one_come_as_listed(rt: HostRuntime) {
    let document = read(&rt, rt.alloc(), THIRD);
    assert!(rt; makes_and_attaches(&rt, &document.items));
}

fn has_methods(rt: &impl Abort, image: &Image) {
    assert_eq!(rt; image.listed_count(), 5);
    let root = [
        (2, 1),
        (3, 2),
        (4, 3),
        (5, 4),
        (6, 5),
        (7, 6),
        (8, 7),
        (9, 8),
        (10, 9),
    ];
    methods_are(rt, image.methods(at(0, false)), &root);
    methods_are(rt, image.methods(at(0, true)), &[(11, 10)]);
    methods_are(rt, image.methods(at(1, false)), &[(3, 11)]);
    methods_are(rt, image.methods(at(2, false)), &[]);
    // without the methods of its categories
    methods_are(rt, image.methods(at(3, false)), &[(12, 2)]);
}

fn has_categories(rt: &impl Abort, image: &Image) {
    let categories = image.categories();
    same(rt, categories.len(), 2);
    for (category, imp) in categories.iter().zip([12, 13]) {
        same(rt, category.class, 3);
        methods_are(rt, category.methods.as_slice(), &[(12, imp)]);
        methods_are(rt, category.class_methods.as_slice(), &[]);
    }
}

fn is_number(expr: &Expr, want: i64) -> bool {
    match expr {
        Expr::Const(Value::Number(number)) => *number == want,
        _ => false,
    }
}

fn is_argument(expr: &Expr, want: u8) -> bool {
    match expr {
        Expr::Arg(place) => *place == want,
        _ => false,
    }
}

// `["sub",["arg",0],1]`
fn is_one_less(expr: &Expr) -> bool {
    match expr {
        Expr::Sub(left, right) => is_argument(left, 0) && is_number(right, 1),
        _ => false,
    }
}

// `["send",["self"],S,["sub",["arg",0],1]]`, with the selector of this number
fn is_recursion(expr: &Expr, sel: u32) -> bool {
    match expr {
        Expr::Send(receiver, selector, args) => match args.as_slice() {
            [only] => matches!(**receiver, Expr::Me)
                && selector.number() == sel
                && is_one_less(only),
            _ => false,
        },
        _ => false,
    }
}

// `["if",["arg",0],["send",["self"],S,["sub",["arg",0],1]],0]`, with the selector of this number
fn is_countdown(expr: &Expr, sel: u32) -> bool {
    match expr {
        Expr::If(test, then, otherwise) => {
            is_argument(test, 0) && is_recursion(then, sel) && is_number(otherwise, 0)
        }
        _ => false,
    }
}

// `["super",S]`, with the selector of this number
fn is_super(expr: &Expr, want: u32) -> bool {
    match expr {
        Expr::Super(sel, args) => sel.number() == want && args.is_empty(),
        _ => false,
    }
}

// `["add",10,["super",S]]`, with the selector of this number
fn is_sum(expr: &Expr, sel: u32) -> bool {
    match expr {
        Expr::Add(left, right) => is_number(left, 10) && is_super(right, sel),
        _ => false,
    }
}

// Whether the implementation of this number has the body that the document gives it.
fn is_body(number: u32, body: &Expr) -> bool {
    match number {
        1 => is_number(body, 7),
        3 => is_countdown(body, 4),
        10 => matches!(body, Expr::Me),
        _ => is_sum(body, 3),
    }
}

fn has_implementations(rt: &impl Abort, image: &Image) {
    for (number, home, args) in [
        (1, at(0, false), 0),
        (3, at(0, false), 1),
        (10, at(0, true), 0),
        (11, at(1, false), 0),
    ] {
        assert!(rt; number <= image.imp_count());
        let imp = image.imp(ImpRef::of(number));
        same_at(rt, &number, imp.home, home);
        same_at(rt, &number, imp.args, args);
        assert!(rt; is_body(number, &imp.body), "{number}");
    }
}

#[test]
fn an_image_is_as_its_document_lists_it(rt: HostRuntime) {
    let document = read(&rt, rt.alloc(), IMAGE);
    // the calls take no memory
    let _hog = Hog::new(&rt).expect(&rt, "memory");
    has_names(&rt, &document.image);
    has_classes(&rt, &document.image);
    has_objects(&rt, &document.image);
    has_methods(&rt, &document.image);
    has_categories(&rt, &document.image);
    has_implementations(&rt, &document.image);
}

// The change is of the method of this selector and implementation in a class.
fn method_is(
    rt: &impl Abort,
    found: (ClassRef, Selector, ImpRef),
    class: ClassRef,
    sel: u32,
    imp: u32,
) {
    same(
        rt,
        (found.0, found.1.number(), found.2.number()),
        (class, sel, imp),
    );
}

// The place of a change among the items, if it is the listed one.
fn place_of_change(rt: &impl Abort, change: &Change) -> u32 {
    match change {
        Change::Add { class, sel, imp } => {
            method_is(rt, (*class, *sel, *imp), at(1, true), 2, 2);
            2
        }
        Change::Replace { class, sel, imp } => {
            method_is(rt, (*class, *sel, *imp), at(3, false), 12, 12);
            3
        }
        Change::SetImp { class, sel, imp } => {
            // the selectors of items come after those of bodies
            method_is(rt, (*class, *sel, *imp), at(4, true), 15, 1);
            4
        }
        Change::Exchange {
            class,
            sel,
            other,
            other_sel,
        } => {
            same(rt, (*class, sel.number()), (at(1, false), 2));
            same(rt, (*other, other_sel.number()), (at(0, true), 3));
            5
        }
        Change::Attach {
            class,
            methods,
            class_methods,
        } => {
            same(rt, *class, 3);
            methods_are(rt, methods.as_slice(), &[(12, 1), (16, 13)]);
            methods_are(rt, class_methods.as_slice(), &[(11, 10)]);
            6
        }
        // no item makes a class, disposes of one or removes a method
        Change::AddClass { .. } | Change::Remove { .. } | Change::DisposeClass { .. } => 0,
    }
}

// The place of an item, if it is the listed one.
fn place_of(rt: &impl Abort, item: &Item) -> u32 {
    match item {
        Item::Send {
            receiver,
            sel,
            args,
        } => {
            same(rt, *receiver, Value::Object(ObjectRef { object: 1 }));
            same(rt, sel.number(), 4);
            same(rt, args.as_slice(), [Value::Number(31)].as_slice());
            1
        }
        Item::Change(change) => place_of_change(rt, change),
        // no item is of several changes
        Item::ChangeAll(_) => 0,
    }
}

fn items_are(rt: &impl Abort, items: &[Item]) {
    let mut seen = 0_u32;
    for item in items {
        seen = seen.saturating_add(1);
        same(rt, place_of(rt, item), seen);
    }
    same(rt, seen, 6);
}

const ITEMS: &str =
    r#"{"send":[["obj","g"],"down:",31]},{"change":["add","Child",true,"value","r_name"]},{"change":["replace","Side",false,"tag","s_two"]},{"change":["set","Proxy",true,"new","r_value"]},{"change":["exchange","Child",false,"value","Root",true,"name"]},{"change":["attach","Side",[["tag","r_value"],["more","s_three"]],[["make","r_make"]]]}"#;

#[test]
fn items_come_as_listed(rt: HostRuntime) {
    let text = with_items(&rt, rt.alloc(), IMAGE, ITEMS);
    let document = read(&rt, rt.alloc(), &text);
    items_are(&rt, &document.items);
}

// Listed classes, each below the next but for the last one.
fn chain(rt: &impl Abort, alloc: Global, count: u32) -> String {
    let mut classes = String::new(alloc);
    for class in 1..count {
        let listed = format!(in alloc;
            "{{\"name\":\"C{}\",\"super\":\"C{class}\",\"methods\":[],\"class_methods\":[]}},",
            class - 1
        )
        .expect(rt, "memory");
        classes.push_str(&listed).expect(rt, "memory");
    }
    format!(in alloc;
        "{{\"version\":2,\"made\":[],\"classes\":[{classes}{{\"name\":\"C{}\",\"super\":null,\"methods\":[],\"class_methods\":[]}}],\"categories\":[],\"objects\":[],\"imps\":[],\"items\":[]}}",
        count.saturating_sub(1)
    )
    .expect(rt, "memory")
}

#[test]
fn the_first_of_1024_classes_is_1023_deep(rt: HostRuntime) {
    let text = chain(&rt, rt.alloc(), 1024);
    let document = read(&rt, rt.alloc(), &text);
    assert_eq!(rt; document.image.listed_count(), 1024);
    for (class, depth) in [(0, 1023), (1, 1022), (1022, 1), (1023, 0)] {
        same_at(&rt, &class, document.image.depth(class), depth);
    }
}

#[test]
fn a_method_list_gives_its_pairs_back(rt: HostRuntime) {
    let sel = Selector::of(2).expect(&rt, "a number above 0");
    let pairs = vec![in rt.alloc(); (sel, ImpRef::of(1)), (sel, ImpRef::FORWARD)];
    let list = MethodList::new(pairs.expect(&rt, "memory"));
    methods_are(&rt, list.as_slice(), &[(2, 1), (2, 0)]);
    methods_are(&rt, list.into_vec().as_slice(), &[(2, 1), (2, 0)]);
}
