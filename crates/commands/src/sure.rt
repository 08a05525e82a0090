//! Runs over a source and a sink that never fail.

ghost use Rattle.std.specs.Prelude.{◌≡◌, ◌⊎◌};
ghost use Rattle.line_by_line.specs.declared.task.Ending.TheVariants.{Done, Denied};
ghost use Rattle.commands.specs.Ending.{HasEnding};
ghost use Rattle.commands.specs.Task.{AskForNone};

use crate::command::run;
use command_line::Word;
use lab_io::{SureSink, SureSource};
use std::alloc::Global;
use world::Meter;

/// Such a run has status 0, 1, 2, 5 or 6: want of memory aside, 1 exactly where the words ask for
/// nothing, 0 exactly where they ask for something, no line of the input is refused, and a trace is
/// good, and 6 exactly where no line is refused and a trace isn't good.
pub fn run_surely(
    alloc: Global,
    words: &[Word],
    source: &mut SureSource,
    sink: &mut SureSink,
    meter: &mut Meter,
) -> u8
    ensures statuses { (result ≡ 0) ⊎ ((result ≡ 1) ⊎ ((result ≡ 2) ⊎ ((result ≡ 5) ⊎ (result ≡ 6)))) }
    ensures usage { result ≡ 1 → AskForNone words.now }
    ensures usage_only { AskForNone words.now → (result ≡ 1) ⊎ (result ≡ 5) }
    ensures done { result ≡ 0 → HasEnding words.now source.old.left Done }
    ensures accepted { HasEnding words.now source.old.left Done → (result ≡ 0) ⊎ (result ≡ 5) }
    ensures denied { result ≡ 6 → HasEnding words.now source.old.left Denied }
    ensures denied_only { HasEnding words.now source.old.left Denied → (result ≡ 6) ⊎ (result ≡ 5) }
{
    run(alloc, words, source, sink, meter)
}
