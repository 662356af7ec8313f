//! A dispatcher that is opened for a test, and lent to what the test does with it: each function
//! that owns one has its proof drop it.

ghost use Rattle.std.specs.Prelude.{◌≡◌};
ghost use Rattle.msg_image.specs.Opened.{origin_of};
ghost use Rattle.msg_tables.specs.History.{empty};
ghost use Rattle.msg_runtime.specs.Parts.{IsKeeperOf, keeper_history};

use crate::asker::Asker;
use crate::images::{image, opened};
use crate::one_thread::{self, Row};
use crate::{noting, threads};
use msg_cache::{Arena, Keeper};
use msg_dispatch::{ArenaName, Dispatcher};
use msg_image::Image;
use std::alloc::Global;
use std::marker::Brand;
use std::process::Abort;
use std::sync::Wait;
use std::thread::Threads;

/// What a test does with its dispatcher.
#[derive(Clone, Copy)]
pub(crate) enum Steps {
    InOneThread(Row),
    Note,
    AskBesideExchanges,
    AskBesideAdditions,
}

// A sender and the changer do a row. The sender's number comes back.
fn in_one_thread<N: ArenaName, R: Wait + Abort>(
    rt: &R,
    dispatcher: &Dispatcher<N>,
    image: &Image,
    row: Row,
)
    requires { origin_of image.now ≡ N.arena.key.origin }
{
    let sender = dispatcher.sender(rt).expect(rt, "a free number");
    let mut sender = Asker::of(sender, image.class_count());
    let mut changer = dispatcher.changer(rt).expect(rt, "the turn");
    one_thread::take(rt, dispatcher, &mut sender, &mut changer, row);
    sender.finish(rt);
    assert!(rt; dispatcher.sender(rt).is_ok());
}

fn take<N: ArenaName + Send + Sync, R: Threads + Wait + Abort + Sync>(
    rt: &R,
    alloc: Global,
    dispatcher: &Dispatcher<N>,
    image: &Image,
    steps: Steps,
)
    requires { origin_of image.now ≡ N.arena.key.origin }
{
    match steps {
        Steps::InOneThread(row) => in_one_thread(rt, dispatcher, image, row),
        Steps::Note => noting::notes(rt, alloc, dispatcher, image),
        Steps::AskBesideExchanges => {
            threads::all_ask_beside_exchanges(rt, alloc, dispatcher, image);
        }
        Steps::AskBesideAdditions => {
            threads::three_ask_beside_additions(rt, alloc, dispatcher, image);
        }
    }
}

fn runs<N: ArenaName + Send + Sync, R: Threads + Wait + Abort + Sync>(
    rt: &R,
    alloc: Global,
    arena: Arena,
    keeper: Keeper,
    image: &Image,
    steps: Steps,
)
    requires arena { arena ≡ N.arena }
    requires keeper { IsKeeperOf N.arena keeper }
    requires image { origin_of image.now ≡ N.arena.key.origin }
    requires history { keeper_history keeper ≡ empty (origin_of image.now) }
{
    let dispatcher: Dispatcher<N> = Dispatcher::open(alloc, arena, keeper, image).expect(
        rt, "memory",
    );
    take(rt, alloc, &dispatcher, image, steps);
}

/// Opens a dispatcher of a document's image, with this number of senders and arrays.
pub(crate) fn open<R: Threads + Wait + Abort + Sync>(
    rt: &R,
    alloc: Global,
    document: &str,
    senders: u32,
    arrays: [u16; 9],
    steps: Steps,
) {
    let image = image(rt, alloc, document);
    let (arena, keeper) = opened(rt, alloc, &image, senders, arrays);
    runs::<Brand, R>(rt, alloc, arena, keeper, &image, steps);
}
