//! What is made of an input is its audit.

ghost use Rattle.std.specs.Prelude.{◌≡◌, ℕ, List};
ghost use Rattle.line_by_line.specs.Account.{report};
ghost use Rattle.line_by_line.specs.Report.{account_of};
ghost use Rattle.trace_model.specs.Audit.{audit_of, audit_report};
ghost use Rattle.audit_run.specs.Audit.{audit_account, told};

/// What is made of an input is what its audit comes to, and the report is the line that says so. It
/// does nothing, and its contract is the statement.
pub fn accounts_are_audits()
    ensures account { (input : List ℕ) → account_of audit_account input ≡ told (audit_of input) }
    ensures report { (input : List ℕ) → report (account_of audit_account input) ≡ audit_report input }
{}
