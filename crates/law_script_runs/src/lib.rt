//! Well-formedness of scripts: each script is a run. Its topology is one that lines make, with addresses of 32 bits,
//! and each of its events can come when it comes. So it is of scripts, of documents and of drills. There is no code
//! that runs.
#![tactic(auto)]

ghost use Rattle.std.specs.Prelude.{ℕ, List};
ghost use Rattle.script_model.specs.Script.{script_of};
ghost use Rattle.script_model.specs.Documents.{document_script};
ghost use Rattle.script_model.specs.Drill.{drill_script};
ghost use Rattle.law_script_runs.specs.Runs.{IsScriptRun};

/// What a script says is a run, under every policy. It does nothing, and its contract is the statement.
pub fn scripts_are_runs()
    ensures scripts { (octets : List ℕ) → IsScriptRun (script_of octets) }
    ensures documents { (octets : List ℕ) → IsScriptRun (document_script octets) }
    ensures drills { (n : ℕ) → IsScriptRun (drill_script n) }
{}
