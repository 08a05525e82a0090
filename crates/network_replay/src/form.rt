//! The next line, read.

ghost use Rattle.std.specs.Prelude.{IfOk};
ghost use Rattle.script_model.specs.Sayable.{IsSayable};
ghost use Rattle.script_text.specs.Counts.{HasRoom, counted_up_to};
ghost use Rattle.script_text.specs.Taking.{IsAfter, Takes};
ghost use Rattle.network_replay.specs.Lines.{says_by};

use script_model::Line;
use script_text::{ReadFault, ScriptState, read_line, read_string};

/// The form of a line: where its octets come from.
#[derive(Clone, Copy, Debug, PartialEq, Eq)]
pub enum LineForm {
    /// A line of a script, with its end where it has one.
    Script,
    /// A line of a document: a string, which has no end.
    Document,
}

/// Reads the next line.
pub fn read_by(state: &mut ScriptState, form: LineForm, line: &[u8]) -> Result<Line, ReadFault>
    ensures said { Takes (counted_up_to state.old line.now) (says_by form state.old line.now) state.new result }
    ensures after { HasRoom state.old line.now → IsAfter state.old line.now state.new result }
    ensures sayable { IfOk result (IsSayable state.old) }
{
    match form {
        LineForm::Script => read_line(state, line),
        LineForm::Document => read_string(state, line),
    }
}
