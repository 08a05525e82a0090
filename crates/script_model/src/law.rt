//! Lines are read as they are written, and what lines describe is a topology.

ghost use Rattle.std.specs.Prelude.{◌≡◌, ℕ, List, Ok};
ghost use Rattle.rule_model.specs.lab_text.Words.{line_text};
ghost use Rattle.world_model.specs.Conditions.{IsTopology};
ghost use Rattle.script_model.specs.declared.line.Line.{Line};
ghost use Rattle.script_model.specs.State.{ScriptState};
ghost use Rattle.script_model.specs.Reading.{text_says};
ghost use Rattle.script_model.specs.Script.{script_of};
ghost use Rattle.script_model.specs.Documents.{document_script};
ghost use Rattle.script_model.specs.Writing.{line_text_of};
ghost use Rattle.script_model.specs.Sayable.{IsSayable};

/// A line that can be said behind others is what its text says there, and what any text says there is
/// such a line.
pub fn lines_are_read_as_written()
    ensures written { (state : ScriptState) (line : Line) → IsSayable state line → text_says state (line_text (line_text_of state.topology line)) ≡ Ok line }
    ensures read { (state : ScriptState) (text : List ℕ) (line : Line) → text_says state text ≡ Ok line → IsSayable state line }
{}

/// The topology of every script, and of every document, is one that lines make: its limits, names, links
/// and routes are as the network of them wants.
pub fn scripts_make_topologies()
    ensures script { (octets : List ℕ) → IsTopology (script_of octets).topology }
    ensures document { (octets : List ℕ) → IsTopology (document_script octets).topology }
{}
