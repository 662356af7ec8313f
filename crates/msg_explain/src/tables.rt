//! What is expected at the keys and places of a part, as in the format's table.

ghost use Rattle.std.specs.Prelude.{◌≡◌, ◌≤◌, map};
ghost use Rattle.msg_json.specs.View.{view};
ghost use Rattle.msg_explain.specs.Tables as spec;
ghost use Rattle.msg_explain.specs.declared.part.Part.TheVariants as part;

use crate::part::{Edition, Naming, Part, Wanted};
use msg_json::{Tree, get, whole};

/// A key, and what is expected there.
pub type Key = (&'static str, Wanted);

const NEW_CLASS: Part = Part::Name(Naming::NewClass);

const LISTED: Wanted = Wanted::One(Part::Name(Naming::Listed));

const CLASS: Wanted = Wanted::One(Part::Name(Naming::Class));

const PAIRS: Wanted = Wanted::Many(Part::Pair);

/// The keys of what is expected, in the order of the format's table.
pub fn keys(wanted: Wanted) -> &'static [Key]
    ensures { map spec.key_view result.now ≡ spec.keys wanted }
{
    match wanted {
        Wanted::One(Part::Document(edition)) => document_keys(edition),
        Wanted::One(Part::Class) => &[
            ("name", Wanted::One(NEW_CLASS)),
            ("super", Wanted::One(Part::Superclass)),
            ("methods", PAIRS),
            ("class_methods", PAIRS),
        ],
        Wanted::One(Part::Category) => &[
            ("class", LISTED),
            ("methods", PAIRS),
            ("class_methods", PAIRS),
        ],
        Wanted::One(Part::Object) => &[
            ("name", Wanted::One(Part::Name(Naming::NewObject))),
            ("class", CLASS),
        ],
        Wanted::One(Part::Imp) => &[
            ("name", Wanted::One(Part::Name(Naming::NewImp))),
            ("class", LISTED),
            ("meta", Wanted::One(Part::Truth)),
            ("args", Wanted::One(Part::Args)),
            ("body", Wanted::One(Part::Body)),
        ],
        Wanted::One(Part::Item(edition)) => item_keys(edition),
        _ => &[],
    }
}

fn document_keys(edition: Edition) -> &'static [Key]
    ensures { map spec.key_view result.now ≡ spec.part_keys (part.Document edition) }
{
    match edition {
        Edition::First => &[
            ("version", Wanted::One(Part::Version)),
            ("classes", Wanted::Many(Part::Class)),
            ("categories", Wanted::Many(Part::Category)),
            ("objects", Wanted::Many(Part::Object)),
            ("imps", Wanted::Many(Part::Imp)),
            ("items", Wanted::Many(Part::Item(Edition::First))),
        ],
        Edition::Second => &[
            ("version", Wanted::One(Part::Version)),
            ("made", Wanted::Many(NEW_CLASS)),
            ("classes", Wanted::Many(Part::Class)),
            ("categories", Wanted::Many(Part::Category)),
            ("objects", Wanted::Many(Part::Object)),
            ("imps", Wanted::Many(Part::Imp)),
            ("items", Wanted::Many(Part::Item(Edition::Second))),
        ],
        Edition::Third => &[
            ("version", Wanted::One(Part::Version)),
            ("made", Wanted::Many(NEW_CLASS)),
            ("classes", Wanted::Many(Part::Class)),
            ("categories", Wanted::Many(Part::Category)),
            ("objects", Wanted::Many(Part::Object)),
            ("imps", Wanted::Many(Part::Imp)),
            ("items", Wanted::Many(Part::Item(Edition::Third))),
        ],
    }
}

fn item_keys(edition: Edition) -> &'static [Key]
    ensures { map spec.key_view result.now ≡ spec.part_keys (part.Item edition) }
{
    match edition {
        Edition::First => &[
            ("send", Wanted::One(Part::Send)),
            ("change", Wanted::One(Part::Changes(Edition::First))),
        ],
        Edition::Second => &[
            ("send", Wanted::One(Part::Send)),
            ("change", Wanted::One(Part::Changes(Edition::Second))),
        ],
        Edition::Third => &[
            ("send", Wanted::One(Part::Send)),
            ("change", Wanted::One(Part::Changes(Edition::Third))),
        ],
    }
}

/// What is expected at a place of a list that begins with the word.
pub fn at_place(wanted: Wanted, word: &str, place: usize) -> Option<Wanted>
    ensures { result ≡ spec.at_place wanted word.now place }
{
    match wanted {
        Wanted::Many(part) => Some(Wanted::One(part)),
        Wanted::One(Part::Pair | Part::Attached) => match place {
            0 => Some(Wanted::One(Part::Selector)),
            _ => only(Part::Name(Naming::Imp), place),
        },
        Wanted::One(Part::Body) => at_body(word, place),
        Wanted::One(Part::Send) => match place {
            1 => Some(Wanted::One(Part::Selector)),
            _ => Some(Wanted::One(Part::Constant)),
        },
        Wanted::One(Part::Changes(edition)) => at_changes(edition, word, place),
        Wanted::One(Part::Change) => at_change(word, place),
        Wanted::One(Part::Constant) => at_constant(word, place),
        _ => None,
    }
}

/// What is expected at the only place after a word.
fn only(part: Part, place: usize) -> Option<Wanted>
    ensures { result ≡ spec.only part place }
{
    (place == 1).then_some(Wanted::One(part))
}

fn at_constant(word: &str, place: usize) -> Option<Wanted>
    ensures { result ≡ spec.at_constant word.now place }
{
    match word {
        "obj" => only(Part::Name(Naming::Object), place),
        "class" => only(Part::Name(Naming::Class), place),
        "sel" => only(Part::Selector, place),
        _ => None,
    }
}

/// What is expected at a place of a body that begins with the word.
#[tactic(auto, unfolding(msg_form::specs::ExprShape::operator_of))]
fn at_body(word: &str, place: usize) -> Option<Wanted>
    ensures { result ≡ spec.at_body word.now place }
{
    match word {
        "arg" => only(Part::Index, place),
        "if" => bodies(3, place),
        "send" => match place {
            1 => Some(Wanted::One(Part::Body)),
            _ => arguments(2, place),
        },
        "super" => arguments(1, place),
        "add" | "sub" | "mul" | "eq" | "lt" => bodies(2, place),
        _ => at_constant(word, place),
    }
}

/// Bodies at this number of places after the word.
fn bodies(count: usize, place: usize) -> Option<Wanted>
    ensures { result ≡ spec.bodies count place }
{
    (1 <= place && place <= count).then_some(Wanted::One(Part::Body))
}

/// A selector at a place, and bodies after it.
fn arguments(selector: usize, place: usize) -> Option<Wanted>
    ensures { result ≡ spec.arguments selector place }
{
    if place == selector {
        return Some(Wanted::One(Part::Selector));
    }
    (selector <= place).then_some(Wanted::One(Part::Body))
}

fn at_changes(edition: Edition, word: &str, place: usize) -> Option<Wanted>
    ensures { result ≡ spec.at_changes edition word.now place }
{
    if edition == Edition::Third && word == "all" {
        return (1 <= place).then_some(Wanted::One(Part::Change));
    }
    at_change(word, place)
}

fn at_change(word: &str, place: usize) -> Option<Wanted>
    ensures { result ≡ spec.at_change word.now place }
{
    match word {
        "add" | "replace" | "set" => match place {
            4 => Some(Wanted::One(Part::Name(Naming::Imp))),
            _ => at_method(1, place),
        },
        "exchange" => at_method(if place >= 4 { 4 } else { 1 }, place),
        "attach" => match place {
            1 => Some(CLASS),
            2 | 3 => Some(Wanted::Many(Part::Attached)),
            _ => None,
        },
        "make" => match place {
            1 => Some(CLASS),
            2 => Some(Wanted::One(Part::MadeUnder)),
            _ => None,
        },
        "remove" => at_method(1, place),
        "dispose" => match place {
            1 => Some(CLASS),
            _ => None,
        },
        _ => None,
    }
}

/// A method's name, which takes three places.
fn at_method(from: usize, place: usize) -> Option<Wanted>
    requires { from ≤ 4 }
    ensures { result ≡ spec.at_method from place }
{
    if place == from {
        Some(CLASS)
    } else if place == from + 1 {
        Some(Wanted::One(Part::Truth))
    } else if place == from + 2 {
        Some(Wanted::One(Part::Selector))
    } else {
        None
    }
}

/// The edition of a document.
#[tactic(auto, unfolding(msg_form::specs::Json::whole_of, msg_form::specs::Version::is_second, msg_form::specs::Version::is_third))]
pub fn edition(document: &Tree<'_, '_>) -> Edition
    ensures { result ≡ spec.edition_of (view document.now) }
{
    match get(document, "version") {
        Some(version) => match whole(version) {
            Some(2) => Edition::Second,
            Some(3) => Edition::Third,
            _ => Edition::First,
        },
        None => Edition::First,
    }
}
