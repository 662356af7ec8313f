//! The images that the tests dispatch on.

ghost use Rattle.std.specs.Prelude.{◌≡◌};
ghost use Rattle.msg_image.specs.Opened.{origin_of};
ghost use Rattle.msg_tables.specs.History.{empty};
ghost use Rattle.msg_runtime.specs.Parts.{IsKeeperOf, keeper_history};

use msg_cache::{Arena, Config, Keeper};
use msg_image::{Image, read_document};
use msg_names::{ClassRef, Selector};
use std::alloc::Global;
use std::process::Abort;

pub(crate) const ROOT: ClassRef = ClassRef {
    class: 0,
    meta: false,
};

pub(crate) const CHILD: ClassRef = ClassRef {
    class: 1,
    meta: false,
};

pub(crate) const GRAND: ClassRef = ClassRef {
    class: 2,
    meta: false,
};

/// The image of a document. What a test owns lies in a box, since each way out of the test drops it
/// by one call there.
pub(crate) fn image(rt: &impl Abort, alloc: Global, document: &str) -> Box<Image> {
    let document = read_document(alloc, document.as_bytes()).expect(rt, "a document");
    Box::new(alloc, document.image).expect(rt, "memory")
}

/// An arena of an image, and its keeper.
pub(crate) fn opened(
    rt: &impl Abort,
    alloc: Global,
    image: &Image,
    senders: u32,
    arrays: [u16; 9],
) -> (Arena, Keeper)
    ensures image { result.0.key.origin ≡ origin_of image.now }
    ensures keeper { IsKeeperOf result.0 result.1 }
    ensures history { keeper_history result.1 ≡ empty (origin_of image.now) }
{
    Arena::open(alloc, image, Config { senders, arrays }).expect(rt, "an arena")
}

pub(crate) fn selector(rt: &impl Abort, number: u32) -> Selector {
    Selector::of(number).expect(rt, "a number above 0")
}

// The text of a document of root classes without methods, but for the first, which has methods of
// this number of selectors from 2 on. All are implementation 1.
pub(crate) fn grid(rt: &impl Abort, alloc: Global, classes: u32, selectors: u32) -> String {
    let mut methods = String::new(alloc);
    for number in 0..selectors {
        let comma = if number == 0 { "" } else { "," };
        let method = format!(in alloc; "{comma}[\"s{number}\",\"one\"]").expect(rt, "memory");
        methods.push_str(&method).expect(rt, "memory");
    }
    let others = roots(rt, alloc, classes);
    format!(in alloc;
        "{{\"version\":1,\"classes\":[{{\"name\":\"C0\",\"super\":null,\"methods\":[{methods}],\"class_methods\":[]}}{others}],\"categories\":[],\"objects\":[],\"imps\":[{{\"name\":\"one\",\"class\":\"C0\",\"meta\":false,\"args\":0,\"body\":7}}],\"items\":[]}}"
    ).expect(rt, "memory")
}

// The classes of that document after the first.
fn roots(rt: &impl Abort, alloc: Global, classes: u32) -> String {
    let mut others = String::new(alloc);
    for number in 1..classes {
        let class = format!(in alloc;
            ",{{\"name\":\"C{number}\",\"super\":null,\"methods\":[],\"class_methods\":[]}}"
        ).expect(rt, "memory");
        others.push_str(&class).expect(rt, "memory");
    }
    others
}
