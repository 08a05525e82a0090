//! Reuse of labels: a label that is spare or wired in an open session has no user. It is the law of its machine, as the
//! network shows it. There is no code that runs.
#![tactic(auto)]

ghost use Rattle.law_unused_labels.specs.Unused.{SpareLabelsAreUnused};

use law_label_line::label_is_owned;

/// Nobody uses a label that is spare or wired, where copies of requests and REDIRECTs are on their own
/// channels. It calls the law of a label's machine, and its contract is the statement.
pub fn labels_are_unused()
    ensures spare { SpareLabelsAreUnused }
{
    label_is_owned();
}
