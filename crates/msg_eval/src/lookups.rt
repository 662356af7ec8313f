//! The number of lookups that a send may still make.

ghost use Rattle.std.specs.Prelude.{◌≡◌, ◌<◌, ◌≤◌, IfOk};
ghost use Rattle.msg_names.specs.Number.{selector_number, imp_number};
ghost use Rattle.msg_eval.specs.Meaning.{ask};
ghost use Rattle.msg_eval.specs.Step.{Means, numbered};

use crate::finder::Finder;
use crate::reply::SendFault;
use msg_names::{ClassRef, ImpRef, Selector};

// Looks up, if a lookup is left.
pub(crate) fn ask<F: Finder>(
    finder: &mut F,
    class: ClassRef,
    sel: Selector,
    left: &mut u32,
) -> Result<ImpRef, SendFault>
    requires { class.class < (F.sizes (F.kept finder.old)).classes }
    ensures kept { F.kept finder.new ≡ F.kept finder.old }
    ensures listed { IfOk result (λ i. imp_number i ≤ (F.sizes (F.kept finder.old)).imps) }
    ensures fewer { IfOk result (λ _. left.new < left.old) }
    ensures no_more { left.new ≤ left.old }
    ensures meaning { Means F.step F.is_in finder.old finder.new
        (ask class (selector_number sel) left.old) (numbered result) left.new }
{
    if *left == 0 {
        return Err(SendFault::Budget);
    }
    *left -= 1;
    Ok(finder.find(class, sel))
}
