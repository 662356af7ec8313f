//! Caches what was looked up.

ghost use Rattle.std.specs.Prelude.{◌≡◌, ◌<◌};
ghost use Rattle.msg_cache.specs.Views.{IsFoundAt, classes};
ghost use Rattle.msg_runtime.specs.Parts.{CachesFound, IsKeeperOf, keeper_history, keeper_remembered, keeper_seats};

use msg_cache::laws::a_fill_changes_caches_alone;
use msg_cache::{Arena, Keeper};
use msg_names::{ClassRef, ImpRef, Selector};

// Caches what was found for a selector in a class reference, if there is room for it.
pub(crate) fn cache_found(
    keeper: &mut Keeper,
    arena: &Arena,
    class: ClassRef,
    sel: Selector,
    imp: ImpRef,
)
    requires arena { IsKeeperOf arena.now keeper.old }
    requires class { class.class < classes arena.now }
    requires found { IsFoundAt (keeper_history keeper.old) class sel imp }
    ensures arena { IsKeeperOf arena.now keeper.new }
    ensures history { keeper_history keeper.new ≡ keeper_history keeper.old }
    ensures seats { keeper_seats keeper.new ≡ keeper_seats keeper.old }
    ensures remembered { keeper_remembered keeper.new ≡ keeper_remembered keeper.old }
    ensures filled { CachesFound arena.now class sel imp keeper.old keeper.new }
{
    a_fill_changes_caches_alone();
    let _filled = keeper.fill(arena, class, sel, imp);
}
