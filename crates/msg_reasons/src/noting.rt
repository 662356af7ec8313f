//! Tables that note the lookups in them.

ghost use Rattle.std.specs.Prelude.{◌≡◌, ◌<◌, [], length, IfOk, IfSome};
ghost use Rattle.std.specs.List.{Contains};
ghost use Rattle.msg_image.specs.Items.{ChangeItem, ChangeAllItem};
ghost use Rattle.msg_image.specs.Opened.{origin_of};
ghost use Rattle.msg_image.specs.Sound.{IsOf};
ghost use Rattle.msg_tables.specs.History.{empty, log};
ghost use Rattle.msg_tables.specs.Stands.{StandsAt};
ghost use Rattle.msg_eval.specs.Evaluation.{send_of};
ghost use Rattle.msg_eval.specs.Facts.{AreOf};
ghost use Rattle.msg_eval.specs.Finder.{sizes_of, table_sizes};
ghost use Rattle.msg_reasons.specs.Changing.{IsChanged, KeepsSizes};
ghost use Rattle.msg_reasons.specs.Known.{AreFound, IsFound};
ghost use Rattle.msg_reasons.specs.Looked.{all_looked};
ghost use Rattle.msg_reasons.specs.Noted.{IsExplained};

use crate::changing;
use crate::notes::Lookup;
use crate::slots::{Slots, slot};
use msg_answers::Outcome;
use msg_eval::{Args, Finder, Reply, send};
use msg_image::Image;
use msg_names::{ClassRef, ImpRef, Selector, Value};
use msg_tables::{Change, Tables, Written};
use std::alloc::{AllocError, Global};
use std::marker::Model;

// Tables, and the lookups of the last send in them. Contracts see the lookups by their numbers.
#[derive(Drop)]
pub(crate) struct Noting {
    tables: Tables,
    lookups: Vec<Lookup>,
    // Whether there was memory for all of them.
    is_whole: bool,
    // What was found in the present tables.
    known: Slots<Lookup>,
}

impl Model for Noting {
    ghost use Rattle.msg_reasons.specs.Noted.{NotingView};

    ghost Value = { NotingView };

    ghost use Rattle.std.specs.Coded.{codes};

    ghost coded = { Prim.hlevel codes };

    ghost use Rattle.msg_reasons.specs.Known.{AreFound};
    ghost use Rattle.msg_reasons.specs.Looked.{all_looked};

    ghost view = { λ n. record { tables = n.tables; lookups = all_looked n.lookups.items; is_whole = n.is_whole } };

    ghost invariant = { λ n. AreFound n.tables n.known };
}

// Searches the tables for a method.
pub(crate) fn search(tables: &Tables, class: ClassRef, sel: Selector) -> Lookup
    requires { class.class < length tables.now.supers }
    ensures found { IsFound tables.now result }
    ensures class { result.class ≡ class }
    ensures sel { result.sel ≡ sel }
{
    Lookup {
        class,
        sel,
        imp: tables.lookup(class, sel),
        holder: tables.holder(class, sel),
    }
}

// The lookup of a selector in a class reference, if it is known.
fn known_of(known: &Slots<Lookup>, class: ClassRef, sel: Selector) -> Option<Lookup>
    ensures known { IfSome result (Contains known.now.kept.items) }
    ensures class { IfSome result (λ lookup. lookup.class ≡ class) }
    ensures sel { IfSome result (λ lookup. lookup.sel ≡ sel) }
{
    let lookup = *known.get(slot(class, sel))?;
    if lookup.class == class && lookup.sel == sel {
        Some(lookup)
    } else {
        None
    }
}

// The lookup of a selector in a class reference. It is searched for only if it isn't known.
fn look_up(tables: &Tables, class: ClassRef, sel: Selector, known: &mut Slots<Lookup>) -> Lookup
    requires class { class.class < length tables.now.supers }
    requires known { AreFound tables.now known.old }
    ensures known { AreFound tables.now known.new }
    ensures found { IsFound tables.now result }
    ensures class { result.class ≡ class }
    ensures sel { result.sel ≡ sel }
{
    if let Some(lookup) = known_of(known, class, sel) {
        return lookup;
    }
    let lookup = search(tables, class, sel);
    known.add(slot(class, sel), lookup);
    lookup
}

impl Finder for Noting {
    ghost use Rattle.msg_eval.specs.Finder.{table_sizes};
    ghost use Rattle.msg_tables.specs.View.{TablesView};
    ghost use Rattle.msg_reasons.specs.Noted.{Noted, NotesLookup, StandsNoted};

    ghost Kept = { TablesView };

    ghost kept = { λ n. n.tables };

    ghost sizes = { table_sizes };

    ghost State = { Noted };

    ghost is_in = { StandsNoted };

    ghost step = { NotesLookup };

    fn find(&mut self, class: ClassRef, sel: Selector) -> ImpRef {
        let lookup = look_up(&self.tables, class, sel, &mut self.known);
        if self.lookups.push(lookup).is_err() {
            self.is_whole = false;
        }
        lookup.imp
    }
}

impl Noting {
    // Makes the tables of an image, in which nothing was looked up.
    pub(crate) fn open(alloc: Global, image: &Image) -> Result<Noting, AllocError>
        ensures stands { IfOk result (λ n. StandsAt n.tables (log (empty (origin_of image.now)))) }
        ensures sizes { IfOk result (λ n. table_sizes n.tables ≡ sizes_of image.now) }
    {
        Ok(Noting {
            tables: Tables::open(alloc, image)?,
            lookups: Vec::new(alloc),
            is_whole: true,
            known: Slots::none(alloc)?,
        })
    }

    pub(crate) fn tables(&self) -> &Tables
        ensures { result.now ≡ self.now.tables }
    {
        &self.tables
    }

    pub(crate) fn lookups(&self) -> &[Lookup]
        ensures { all_looked result.now ≡ self.now.lookups }
    {
        &self.lookups
    }

    // Forgets the lookups of the previous send.
    fn begin(&mut self)
        ensures tables { self.new.tables ≡ self.old.tables }
        ensures lookups { self.new.lookups ≡ [] }
    {
        self.lookups.clear();
        self.is_whole = true;
    }

    // Sends a message, and notes the lookups of the bodies that it reaches.
    pub(crate) fn send(
        &mut self,
        image: &Image,
        receiver: Value,
        sel: Selector,
        args: &Args,
    ) -> Result<Reply, AllocError>
        requires sizes { table_sizes self.old.tables ≡ sizes_of image.now }
        requires receiver_of { IsOf image.now receiver }
        requires args_of { AreOf image.now args.now.items }
        ensures tables { self.new.tables ≡ self.old.tables }
        ensures meaning { IfOk result (IsExplained self.new
            (send_of image.now receiver sel args.now.items)) }
    {
        self.begin();
        let reply = send(self, image, receiver, sel, args);
        if self.is_whole {
            Ok(reply)
        } else {
            Err(AllocError)
        }
    }

    // Makes a change, and returns its outcome.
    pub(crate) fn change_one(
        &mut self,
        change: &Change,
        written: &mut Written,
    ) -> Result<Outcome, AllocError>
        ensures changed { IfOk result
            (IsChanged (ChangeItem change.now) self.old.tables self.new.tables) }
        ensures sizes { KeepsSizes self.old.tables self.new.tables }
    {
        self.known.forget();
        changing::change_one(&mut self.tables, change, written)
    }

    // Makes changes as one, and returns their outcome.
    pub(crate) fn change_as_one(
        &mut self,
        changes: &[Change],
        written: &mut Written,
    ) -> Result<Outcome, AllocError>
        ensures changed { IfOk result
            (IsChanged (ChangeAllItem changes.now) self.old.tables self.new.tables) }
        ensures sizes { KeepsSizes self.old.tables self.new.tables }
    {
        self.known.forget();
        changing::change_as_one(&mut self.tables, changes, written)
    }
}
