//! The rule of a table.

ghost use Rattle.msg_tables.specs.History.{lookup};
ghost use Rattle.msg_cache.specs.declared.view.View.TheVariants.{Keeper};
ghost use Rattle.msg_cache.specs.Rule.{holds, first_keeper};

use crate::setting::Setting;
use crate::view::View;
use atomic_table::TableRule;

/// The rule.
#[derive(Clone, Copy)]
pub struct Rule;

impl TableRule<u8, View, Setting> for Rule {
    ghost holds = { holds lookup };

    ghost first = { λ key. Keeper (first_keeper key) };
}
