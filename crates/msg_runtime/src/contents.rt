//! What the tables hold: the methods of a class reference, and classes.

ghost use Rattle.std.specs.Prelude.{◌≡◌, ◌<◌, ◌≤◌, ◌++◌, drop, length};
ghost use Rattle.msg_tables.specs.Contents.{AreBelowClass, HasMethods};
ghost use Rattle.msg_tables.specs.History.{log};
ghost use Rattle.msg_tables.specs.Stands.{AtLog};
ghost use Rattle.msg_tables.specs.declared.limits.TheConstants.{MAX_CLASSES};
ghost use Rattle.msg_cache.specs.Views.{classes};
ghost use Rattle.msg_runtime.specs.Contents.{AreShown, ShowsBelow, ShowsClasses};

use crate::runtime::Runtime;
use msg_names::{ClassRef, ImpRef, Selector};
use msg_tables::laws::tables_are_of_their_origin;
use msg_tables::{Tables, Walk};

// Writes classes into `room` if it has as many places, and returns their number.
fn show(found: &[u32], room: &mut [u32]) -> usize
    ensures { AreShown found.now room.old room.new result }
{
    if found.len() <= room.len() {
        room[..found.len()].copy_from_slice(found);
    }
    found.len()
}

// A walk over the classes below a class.
fn walk_below(tables: &Tables, class: u32) -> Walk<'_>
    requires { class < length tables.now.supers }
    ensures below { AtLog tables.now (λ h. AreBelowClass h class result) }
    ensures few { length result ≤ length tables.now.supers }
{
    let origin = ClassRef { class, meta: false };
    let mut walk = tables.below(origin).classes();
    let _ = walk.next();
    walk
}

// How many classes a walk visits.
fn count_of(walk: Walk<'_>) -> usize
    requires few { length walk ≤ MAX_CLASSES }
    ensures { result ≡ length walk.entry }
{
    let mut count = 0;
    for _class in walk {
        count += 1;
    }
    count
}

// Writes the classes of a walk into `room`, which has as many places.
fn write_each(walk: Walk<'_>, room: &mut [u32])
    requires room { length walk ≤ length room.old }
    ensures { room.new ≡ walk.entry ++ drop (length walk.entry) room.old }
{
    let mut place = 0;
    for class in walk {
        room[place] = class;
        place += 1;
    }
}

impl Runtime {
    /// The methods that a class reference has itself, oldest first. Of several methods with one
    /// selector a lookup finds the last.
    pub fn methods(&self, class: ClassRef) -> &[(Selector, ImpRef)]
        requires class { class.class < classes self.now.arena }
        ensures { HasMethods (log self.now.keeper.history) class result.now }
    {
        tables_are_of_their_origin();
        self.tables.methods(class)
    }

    /// Writes the classes that are made, each after its superclass, if `room` has as many places.
    /// Returns their number.
    pub fn show_classes(&self, room: &mut [u32]) -> usize
        ensures { ShowsClasses self.now.keeper.history room.old room.new result }
    {
        tables_are_of_their_origin();
        show(self.tables.classes(), room)
    }

    /// Writes the classes below a class, if `room` has as many places. Returns their number. It
    /// costs two walks over these classes.
    pub fn show_below(&self, class: u32, room: &mut [u32]) -> usize
        requires class { class < classes self.now.arena }
        ensures { ShowsBelow self.now.keeper.history class room.old room.new result }
    {
        tables_are_of_their_origin();
        let walk = walk_below(&self.tables, class);
        let count = count_of(walk.again());
        if count <= room.len() {
            write_each(walk, room);
        }
        count
    }
}
