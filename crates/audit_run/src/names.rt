//! The names of refusals and verdicts.

ghost use Rattle.std.specs.Prelude.{◌≡◌};
ghost use Rattle.trace_model.specs.Names.{breach_name, refusal_name};

use trace_audit::{Breach, TraceRefusal};

/// The name of a refusal.
pub(crate) fn refusal_name(refusal: TraceRefusal) -> &'static str
    ensures { result.now ≡ refusal_name refusal }
{
    match refusal {
        TraceRefusal::ScriptTooLong => "ScriptTooLong",
        TraceRefusal::LineTooLong => "LineTooLong",
        TraceRefusal::BadByte => "BadByte",
        TraceRefusal::UnknownWord => "UnknownWord",
        TraceRefusal::Arity => "Arity",
        TraceRefusal::BadName => "BadName",
        TraceRefusal::BadPlace => "BadPlace",
        TraceRefusal::BadNumber => "BadNumber",
        TraceRefusal::BadChannel => "BadChannel",
        TraceRefusal::BadMark => "BadMark",
        TraceRefusal::BadHex => "BadHex",
        TraceRefusal::BadLength => "BadLength",
        TraceRefusal::BadFlow => "BadFlow",
        TraceRefusal::Late => "Late",
        TraceRefusal::PortTaken => "PortTaken",
        TraceRefusal::SelfLink => "SelfLink",
        TraceRefusal::NoLink => "NoLink",
    }
}

/// The name of what shows that a trace isn't good.
pub(crate) fn breach_name(breach: Breach) -> &'static str
    ensures { result.now ≡ breach_name breach }
{
    match breach {
        Breach::Empty => "Empty",
        Breach::Reuse => "Reuse",
        Breach::Frame => "Frame",
        Breach::NoFlow => "NoFlow",
        Breach::Flow => "Flow",
        Breach::Hop => "Hop",
    }
}
