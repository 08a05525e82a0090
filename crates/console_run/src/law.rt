//! What is made of an input is its session, the events of a session are a run, and each answer is told.

ghost use Rattle.std.specs.Prelude.{◌≡◌, ℕ, List, [], None, Some};
ghost use Rattle.line_by_line.specs.Account.{report};
ghost use Rattle.line_by_line.specs.Report.{account_of};
ghost use Rattle.console_model.specs.Lab.{opened};
ghost use Rattle.console_model.specs.Law.{HasNoChance};
ghost use Rattle.console_model.specs.Steps.{lab_after};
ghost use Rattle.console_run.specs.Course.{IsCourse};
ghost use Rattle.console_run.specs.Report.{console_account, console_report, reply_lines, told};
ghost use Rattle.console_run.specs.Session.{session_of};

/// What is made of an input is what its session comes to, and the report is that of the session. It does
/// nothing, and its contract is the statement.
pub fn accounts_are_sessions()
    ensures account { (input : List ℕ) → account_of console_account input ≡ told (session_of input) }
    ensures report { (input : List ℕ) → report (account_of console_account input) ≡ console_report input }
{}

/// Whatever the input: where a line `ports` was read, its events can come to a lab with so many ports, 1 to
/// 8, and there are few enough of them; else there is none. It does nothing, and its contract is the
/// statement.
pub fn sessions_are_runs()
    ensures opened { (input : List ℕ) (ports : ℕ) → (session_of input).ports ≡ Some ports → IsCourse ports (session_of input).events }
    ensures silent { (input : List ℕ) → (session_of input).ports ≡ None → (session_of input).events ≡ [] }
{}

/// Where no chance comes in a session, its report has each answer once, in the order of the commands, and
/// nothing else but the last line. It does nothing, and its contract is the statement.
pub fn answers_are_told()
    ensures { (input : List ℕ) (ports : ℕ) → (session_of input).ports ≡ Some ports → HasNoChance (opened ports) (session_of input).events → (told (session_of input)).body ≡ reply_lines 1 (lab_after (opened ports) (session_of input).events).answers }
{}
