//! Laws of the meaning of sends, over every history.

ghost use Rattle.std.specs.Prelude.{◌≡◌, List};
ghost use Rattle.msg_tables.specs.History.{History, log};
ghost use Rattle.msg_tables.specs.Stands.{StandsAt};
ghost use Rattle.msg_tables.specs.View.{TablesView};
ghost use Rattle.msg_eval.specs.Finder.{FindsAt};
ghost use Rattle.msg_eval.specs.Meaning.{Meaning};
ghost use Rattle.msg_eval.specs.Points.{Rise, last_of, EndsAfter, EndsAsAnswered, EndsBetween};
ghost use Rattle.msg_eval.specs.Points.{EachEndsWithin, HasOneReply, IsPlain, TablesReply};
ghost use Rattle.msg_eval.specs.Step.{Leads};
ghost use Rattle.msg_eval.specs.declared.reply.Reply.{Reply};

use crate::eval::{MAX_BODIES, MAX_LOOKUPS};

/// If every lookup is at one history, a send has exactly one reply.
pub fn one_history_is_one_reply()
    ensures { (h : History) (send : Meaning) → HasOneReply h send }
{}

/// A send makes at most 10,000 lookups.
pub fn points_are_few()
    ensures { EachEndsWithin MAX_LOOKUPS }
{}

/// A send ends at its points exactly if there is a list of results, each of them the lookup at its
/// point.
pub fn points_have_answers()
    ensures { (send : Meaning) (points : List History) → EndsAsAnswered send points }
{}

/// A send whose lookups are at histories ends with its reply at points that rise.
pub fn steps_are_points()
    ensures { (send : Meaning) (h now : History) (reply : Reply)
        → Leads FindsAt send h now reply → EndsBetween h now send reply }
{}

/// Tables that stay at their history give the plain reply at it.
pub fn tables_reply_plainly()
    ensures { (tables : TablesView) (h : History) (send : Meaning) (reply : Reply)
        → StandsAt tables (log h) → TablesReply tables h send reply → IsPlain h send reply }
{}

/// A finder that is afterwards at the same point as before gave the plain reply there.
pub fn a_finder_that_stays_replies_plainly()
    ensures { (h : History) (send : Meaning) (points : List History) (reply : Reply) → Rise h points
        → last_of h points ≡ h → EndsAfter send points reply → IsPlain h send reply }
{}

/// The limits of a send, as in the document format.
pub fn the_limits_are_the_formats()
    ensures lookups { MAX_LOOKUPS ≡ 10000 }
    ensures bodies { MAX_BODIES ≡ 32 }
{}
