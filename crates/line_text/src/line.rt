//! Any line of a script, for tests and claims alone.

ghost use Rattle.std.specs.Prelude.{◌≡◌, ◌++◌, ◌∷◌, [], OnOk, OnErr, codes, decimal};
ghost use Rattle.lab_text.specs.Kept.{BreaksOff};
ghost use Rattle.lab_text.specs.Text.{line_of};
ghost use Rattle.script_model.specs.Writing.{line_text_of};

use crate::events::write_event;
use crate::topology_lines::write_topology_line;
use lab_text::Text;
use net_types::OutOfMemory;
use script_model::Line;
use topology::Topology;

fn write_run(out: &mut Text, rounds: u32) -> Result<(), OutOfMemory>
    ensures ok { OnOk result (out.new ≡ out.old ++ line_of (codes "run" ∷ decimal rounds ∷ [])) }
    ensures err { OnErr result (BreaksOff out.old (out.old ++ line_of (codes "run" ∷ decimal rounds ∷ [])) out.new) }
{
    out.text("run ")?;
    out.number(u64::from(rounds))?;
    out.text("\n")
}

/// Appends a line with its LF: its words with a space between each two, nodes of events by their
/// names and labels as the version of the script wants; a blank line has none. A node that isn't
/// there has no name. Where memory is wanting, what stood there is still in front, and a front of the
/// line may stand behind it.
pub fn write_line(line: &Line, names: &Topology, out: &mut Text) -> Result<(), OutOfMemory>
    ensures ok { OnOk result (out.new ≡ out.old ++ line_text_of names.now line.now) }
    ensures err { OnErr result (BreaksOff out.old (out.old ++ line_text_of names.now line.now) out.new) }
{
    match line {
        Line::Blank => out.text("\n"),
        Line::Topology(line) => write_topology_line(out, names, line),
        Line::Event(event) => write_event(out, names, event),
        Line::TickAll => out.text("tick *\n"),
        Line::Run(rounds) => write_run(out, *rounds),
    }
}
