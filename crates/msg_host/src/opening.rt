//! Opens runtimes.

ghost use Rattle.std.specs.Prelude.{◌≡◌, ◌≤◌, IfOk, None, false, replicate};
ghost use Rattle.msg_tables.specs.History.{empty};
ghost use Rattle.msg_runtime.specs.Parts.{IsKeeperOf, keeper_history, keeper_view};
ghost use Rattle.msg_runtime.specs.declared.runtime.TheConstants.{OPENING_ENTRIES};
ghost use Rattle.msg_cache.specs.Config.{refusal_of, setting_of};
ghost use Rattle.msg_cache.specs.Plays.{is_lent};
ghost use Rattle.msg_cache.specs.declared.view.TurnAt.TheVariants.{Away};
ghost use Rattle.std.specs.Arc.{arc_value};

use msg_cache::{Arena, Config, Keeper, Turn};
use msg_runtime::Runtime;
use msg_tables::Origin;
use std::alloc::{AllocError, Global};
use std::sync::Arc;

// Makes the arena of an origin and its keeper. The only error is a lack of memory.
fn arena_of(alloc: Global, origin: &Origin, config: Config) -> Result<(Arena, Keeper), AllocError>
    requires { refusal_of origin.now config ≡ None }
    ensures key { IfOk result (λ r. r.0.key ≡ setting_of origin.now config) }
    ensures keeper { IfOk result (λ r. IsKeeperOf r.0 r.1) }
    ensures history { IfOk result (λ r. keeper_history r.1 ≡ empty origin.now) }
    ensures turn { IfOk result (λ r. is_lent (keeper_view r.1).turn ≡ false) }
    ensures given { IfOk result (λ r. (keeper_view r.1).given ≡ replicate r.0.key.senders false) }
{
    match Arena::open(alloc, origin, config) {
        Ok(opened) => Ok(opened),
        Err(_) => Err(AllocError),
    }
}

fn shared(alloc: Global, arena: Arena) -> Result<Arc<Arena, Global>, AllocError>
    ensures { IfOk result (λ shared. arc_value shared ≡ arena) }
{
    match Arc::new(alloc, arena) {
        Ok(shared) => Ok(shared),
        Err(_) => Err(AllocError),
    }
}

// Makes what shares an origin's caches, what keeps them, and the right to change. The only error is
// a lack of memory.
pub(crate) fn opened(
    alloc: Global,
    origin: &Origin,
    config: Config,
) -> Result<(Arc<Arena, Global>, Runtime, Turn), AllocError>
    requires { refusal_of origin.now config ≡ None }
    ensures arena { IfOk result (λ r. arc_value r.0 ≡ r.1.arena) }
    ensures key { IfOk result (λ r. r.1.arena.key ≡ setting_of origin.now config) }
    ensures history { IfOk result (λ r. r.1.keeper.history ≡ empty origin.now) }
    ensures turn { IfOk result (λ r. r.2.table ≡ r.1.arena.table) }
    ensures away { IfOk result (λ r. r.1.keeper.turn ≡ Away) }
    ensures given { IfOk result (λ r. r.1.keeper.given ≡ replicate r.1.arena.key.senders false) }
    ensures rested { IfOk result (λ r. r.1.rested ≡ replicate r.1.arena.key.senders 0) }
    ensures entries { IfOk result (λ r. OPENING_ENTRIES ≤ r.1.written.room) }
{
    let (arena, keeper) = arena_of(alloc, origin, config)?;
    let arena = shared(alloc, arena)?;
    let mut runtime = Runtime::open(alloc, &arena, keeper, origin)?;
    let turn = runtime.turn(&arena).unwrap();
    Ok((arena, runtime, turn))
}
