//! The lines of lookups, kept so that a line that comes again is copied.

ghost use Rattle.std.specs.Prelude.{◌≡◌, true, IfSome, OnOk};
ghost use Rattle.std.specs.List.{Contains};
ghost use Rattle.msg_io.specs.Writing.{Gains};
ghost use Rattle.msg_names.specs.Number.{selector_number};
ghost use Rattle.msg_reasons.specs.Lines.{AreLines};
ghost use Rattle.msg_reasons.specs.Looked.{looked};
ghost use Rattle.msg_reasons.specs.Text.{lookup_line};

use crate::notes::Lookup;
use crate::slots::{Slots, slot};
use crate::text::push_lookup;
use msg_image::Image;
use msg_names::ClassRef;
use std::alloc::AllocError;

// The line of a lookup.
#[derive(Drop)]
pub(crate) struct Line {
    pub(crate) lookup: Lookup,
    pub(crate) text: Vec<u8>,
}

// Whether both are none, or both are the same class reference.
fn is_same(a: Option<ClassRef>, b: Option<ClassRef>) -> bool
    ensures { result ≡ true → a ≡ b }
{
    match (a, b) {
        (Some(a), Some(b)) => a == b,
        (None, None) => true,
        _ => false,
    }
}

// The line that is kept of a lookup, if one is.
fn kept<'a>(lines: &'a Slots<Line>, lookup: &Lookup) -> Option<&'a Line>
    ensures kept { IfSome result (λ line. Contains lines.now.kept.items line.now) }
    ensures class { IfSome result (λ line. line.now.lookup.class ≡ lookup.now.class) }
    ensures sel { IfSome result
        (λ line. selector_number line.now.lookup.sel ≡ selector_number lookup.now.sel) }
    ensures imp { IfSome result (λ line. line.now.lookup.imp ≡ lookup.now.imp) }
    ensures holder { IfSome result (λ line. line.now.lookup.holder ≡ lookup.now.holder) }
{
    let line = lines.get(slot(lookup.class, lookup.sel))?;
    let was = line.lookup;
    if was.class == lookup.class
        && was.sel.number() == lookup.sel.number()
        && was.imp == lookup.imp
        && is_same(was.holder, lookup.holder)
    {
        Some(line)
    } else {
        None
    }
}

// Appends the line of a lookup.
pub(crate) fn push_line(
    text: &mut Vec<u8>,
    image: &Image,
    lookup: &Lookup,
    lines: &mut Slots<Line>,
) -> Result<(), AllocError>
    requires { AreLines image.now lines.old }
    ensures kept { AreLines image.now lines.new }
    ensures line { OnOk result
        (Gains text.old text.new (lookup_line image.now (looked lookup.now))) }
{
    if let Some(line) = kept(lines, lookup) {
        return text.extend_from_slice(&line.text);
    }
    let mut line = Vec::new(*text.allocator());
    push_lookup(&mut line, image, lookup)?;
    text.extend_from_slice(&line)?;
    let line = Line {
        lookup: *lookup,
        text: line,
    };
    lines.add(slot(lookup.class, lookup.sel), line);
    Ok(())
}
