//! The interface that answers the lookups of a send.

ghost use Rattle.std.specs.Prelude.{◌≡◌, ◌<◌, ◌≤◌};
ghost use Rattle.msg_names.specs.Number.{selector_number, imp_number};
ghost use Rattle.msg_eval.specs.Finder.{Sizes, Steps, FindsAfter};

use msg_names::{ClassRef, ImpRef, Selector};
use msg_tables::Tables;

/// Looks methods up. Each lookup is a step from one state of the finder to another.
pub trait Finder {
    /// The data that no lookup changes.
    ghost Kept: { Type 0 };

    ghost kept: { Self → Kept };

    /// The numbers of classes and implementations.
    ghost sizes: { Kept → Sizes };

    /// A state: what the finder has seen, and what it has noted, if it notes anything.
    ghost State: { Type 0 };

    ghost is_in: { Self → State → Type 0 };

    /// The numbers that a lookup may return, and the state of the finder after it.
    ghost step: { Steps State };

    /// Returns the implementation that a lookup finds, or forwarding.
    fn find(&mut self, class: ClassRef, sel: Selector) -> ImpRef
        requires { class.class < (sizes (kept self.old)).classes }
        ensures kept { kept self.new ≡ kept self.old }
        ensures listed { imp_number result ≤ (sizes (kept self.old)).imps }
        ensures lawful { (p : State) → is_in self.old p
            → FindsAfter step (is_in self.new) p class (selector_number sel) (imp_number result) };
}

/// Looks up in tables, and so always at their history.
#[derive(Drop)]
pub struct Tabled<'t> {
    pub tables: &'t Tables,
}

impl Finder for Tabled<'_> {
    ghost use Rattle.msg_eval.specs.Finder.{FindsAt, table_sizes};
    ghost use Rattle.msg_tables.specs.History.{History, log};
    ghost use Rattle.msg_tables.specs.Stands.{StandsAt};
    ghost use Rattle.msg_tables.specs.View.{TablesView};

    ghost Kept = { TablesView };

    ghost kept = { λ s. s.tables.now };

    ghost sizes = { table_sizes };

    ghost State = { History };

    ghost is_in = { λ s h. StandsAt s.tables.now (log h) };

    ghost step = { FindsAt };

    fn find(&mut self, class: ClassRef, sel: Selector) -> ImpRef {
        self.tables.lookup(class, sel)
    }
}
