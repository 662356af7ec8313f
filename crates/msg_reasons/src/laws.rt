//! Laws of explanations.

ghost use Rattle.std.specs.Prelude.{◌≡◌, length};
ghost use Rattle.msg_image.specs.Items.{DocumentParts};
ghost use Rattle.msg_answers.specs.Serial.{serial};
ghost use Rattle.msg_answers.specs.Text.{output_of, text_of};
ghost use Rattle.msg_eval.specs.Meaning.{Meaning};
ghost use Rattle.msg_eval.specs.Points.{EndsBetween};
ghost use Rattle.msg_reasons.specs.Beside.{Course, sent};
ghost use Rattle.msg_reasons.specs.Explanation.{answers_of, explanation_of};

/// The answers of an explanation are those of a run, and their lines are the text that the run
/// writes.
pub fn the_answers_are_the_runs()
    ensures answers { (d : DocumentParts) → answers_of (explanation_of d) ≡ serial d }
    ensures text { (d : DocumentParts) → text_of d.image (answers_of (explanation_of d)) ≡ output_of d }
{}

/// In a run beside changes the lookups of a send are at points of the history that rise, and its
/// reply is the one that these lookups give.
pub fn lookups_beside_changes_rise()
    ensures { (k : Course) (send : Meaning)
        → EndsBetween k.history (sent k send).course.history send (sent k send).reply }
{}
