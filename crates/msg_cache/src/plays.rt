//! What each kind of step means to the seat that makes it.

ghost use Rattle.std.specs.Prelude.{ℕ};
ghost use Rattle.msg_tables.specs.History.{lookup};
ghost use Rattle.msg_model.specs.declared.state.Whereabouts.TheVariants.{In, Out};
ghost use Rattle.msg_cache.specs.Plays.{keeper_of, Headed, Reads, Published, Stamped, Goes, Stores, Flushes, Installs, Commits, Looks, RestLooks, Witnesses, joined, split_left, split_right, lent_left, lent_right};
ghost use Rattle.msg_cache.specs.Rule.{TidyBy};

use crate::view::View;
use atomic_table::{Join, Play, Split};
use std::marker::{Brand, PhantomData};

// ---- a sender's

/// The purpose of a header load. Each call chooses it.
pub(crate) trait Asks {
    ghost use Rattle.msg_names.specs.declared.value.ClassRef.{ClassRef};

    ghost class: { ClassRef };

    ghost sel: { ℕ };

    ghost arrays: { ℕ };
}

impl Asks for Brand {
    ghost use Rattle.msg_cache.specs.Plays.{no_class};

    ghost class = { no_class };

    ghost sel = { 0 };

    ghost arrays = { 0 };
}

pub(crate) struct Header<Q> {
    of: PhantomData<Q>,
}

impl<Q: Asks> Play<u8, View> for Header<Q> {
    ghost then = { Headed Q.arrays Q.class Q.sel };
}

pub(crate) struct Bucket;

impl Play<u8, View> for Bucket {
    ghost then = { Reads lookup };
}

pub(crate) struct Version;

impl Play<u8, View> for Version {
    ghost then = { Published };
}

pub(crate) struct Stamp<Q> {
    of: PhantomData<Q>,
}

impl<Q: Asks> Play<u8, View> for Stamp<Q> {
    ghost then = { Stamped Q.class };
}

pub(crate) struct Enter;

impl Play<u8, View> for Enter {
    ghost then = { Goes In };
}

pub(crate) struct Leave;

impl Play<u8, View> for Leave {
    ghost then = { Goes Out };
}

// ---- the keeper's

/// The setting of a table, and the subject of a step. Each call chooses it.
pub(crate) trait About {
    ghost use Rattle.std.specs.Prelude.{List};
    ghost use Rattle.msg_tables.specs.declared.change.Change.{Change};
    ghost use Rattle.msg_cache.specs.Layout.{SettingView};

    ghost key: { SettingView };

    ghost changes: { List Change };

    ghost number: { ℕ };
}

impl About for Brand {
    ghost use Rattle.msg_cache.specs.Plays.{no_setting, no_changes};

    ghost key = { no_setting };

    ghost changes = { no_changes };

    ghost number = { 0 };
}

/// A step that also gives what the rule says of the keeper's new view.
pub(crate) struct Tidied<M, Q> {
    of: PhantomData<(M, Q)>,
}

impl<M: Play<u8, View>, Q: About> Play<u8, View> for Tidied<M, Q> {
    ghost then = { λ st m n w. M.then st m n w × TidyBy lookup Q.key (keeper_of w.0) };
}

pub(crate) struct Store;

impl Play<u8, View> for Store {
    ghost then = { Stores };
}

pub(crate) struct Flush;

impl Play<u8, View> for Flush {
    ghost then = { Flushes };
}

pub(crate) struct Install;

impl Play<u8, View> for Install {
    ghost then = { Installs };
}

pub(crate) struct Commit<Q> {
    of: PhantomData<Q>,
}

impl<Q: About> Play<u8, View> for Commit<Q> {
    ghost then = { Commits Q.changes };
}

pub(crate) struct Look<Q> {
    of: PhantomData<Q>,
}

impl<Q: About> Play<u8, View> for Look<Q> {
    ghost then = { Looks Q.number };
}

/// No sender has a number from this one on, so all these are seen out.
pub(crate) struct LookAtRest<Q> {
    of: PhantomData<Q>,
}

impl<Q: About> Play<u8, View> for LookAtRest<Q> {
    ghost then = { RestLooks Q.number Q.key.senders };
}

pub(crate) struct Witness;

impl Play<u8, View> for Witness {
    ghost then = { Witnesses };
}

/// The sender number that is given out, and the stamps that its sender says it has loaded.
pub(crate) trait Gives {
    ghost use Rattle.std.specs.Prelude.{List};
    ghost use Rattle.msg_names.specs.declared.value.ClassRef.{ClassRef};

    ghost number: { ℕ };

    ghost stamps: { List (ClassRef × ℕ) };
}

impl Gives for Brand {
    ghost use Rattle.msg_cache.specs.Plays.{no_stamps};

    ghost number = { 0 };

    ghost stamps = { no_stamps };
}

/// The seat of a sender number is split off.
pub(crate) struct Give<Q> {
    of: PhantomData<Q>,
}

impl<Q: Gives> Split<View> for Give<Q> {
    ghost left = { split_left Q.number };

    ghost right = { split_right Q.number Q.stamps };
}

/// The turn's seat is split off.
pub(crate) struct Lend;

impl Split<View> for Lend {
    ghost left = { lent_left };

    ghost right = { lent_right };
}

/// A seat is joined to the keeper's.
pub(crate) struct Gather;

impl Join<View> for Gather {
    ghost use Rattle.msg_cache.specs.declared.view.View.TheVariants.{Spent};

    ghost both = { joined };

    ghost spent = { Spent };
}
