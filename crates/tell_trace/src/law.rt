//! What an auditor reads in a trace.

ghost use Rattle.tell_trace.specs.Reading.{PassagesAreRead};

/// An auditor of traces reads in each line what it says. It does nothing, and its contract is the
/// statement.
pub fn passages_are_read()
    ensures { PassagesAreRead }
{}
