//! The lines of a report.

ghost use Rattle.std.specs.Prelude.{◌≡◌, ◌++◌, ◌+◌, ◌<◌, ◌^◌, drop, slice_get, Some, OnOk};
ghost use Rattle.console_model.specs.declared.reply.Reply.{Reply as Given};
ghost use Rattle.console_run.specs.Report.{chance_line, chance_lines, end_line, failure_name, failure_of, name_or_code, refusal_line, reply_line, reply_lines};

use crate::refusal::Refusal;
use console_model::Reply;
use gsmp_console::Lab;
use lab_text::Text;
use link_model::Record;
use net_types::OutOfMemory;
use world_model::Failure;

/// The failure that has this code.
fn failure_of(code: u8) -> Option<Failure>
    ensures { result ≡ failure_of code }
{
    match code {
        1 => Some(Failure::NoPort),
        2 => Some(Failure::BadSession),
        3 => Some(Failure::PortDown),
        4 => Some(Failure::OutOfRange),
        5 => Some(Failure::Busy),
        6 => Some(Failure::NoConnection),
        7 => Some(Failure::SessionsSpent),
        _ => None,
    }
}

fn failure_name(failure: Failure) -> &'static str
    ensures { result.now ≡ failure_name failure }
{
    match failure {
        Failure::NoPort => "NoPort",
        Failure::BadSession => "BadSession",
        Failure::PortDown => "PortDown",
        Failure::OutOfRange => "OutOfRange",
        Failure::Busy => "Busy",
        Failure::NoConnection => "NoConnection",
        Failure::SessionsSpent => "SessionsSpent",
    }
}

/// Writes the name of the failure that has this code, or the code.
fn write_failure(out: &mut Text, code: u8) -> Result<(), OutOfMemory>
    ensures { OnOk result (out.new ≡ out.old ++ name_or_code code (failure_of code)) }
{
    match failure_of(code) {
        Some(failure) => out.text(failure_name(failure)),
        None => out.number(u64::from(code)),
    }
}

/// Writes what the command with this number was answered.
fn write_reply(out: &mut Text, number: u64, reply: Reply) -> Result<(), OutOfMemory>
    ensures { OnOk result (out.new ≡ out.old ++ reply_line number reply) }
{
    match reply {
        Reply::Done => {
            out.text("done ")?;
            out.number(number)?;
        }
        Reply::Failed { code } => {
            out.text("failed ")?;
            out.number(number)?;
            out.text(" ")?;
            write_failure(out, code)?;
        }
        Reply::At(end) => {
            out.text("at ")?;
            out.number(number)?;
            out.text(" ")?;
            out.number(u64::from(end.port.0))?;
            out.text(" ")?;
            out.number(u64::from(end.channel.vci))?;
        }
    }
    out.text("\n")
}

/// Writes the answer at this index, counted from 0, where there is one.
fn write_reply_at(out: &mut Text, lab: &Lab, place: usize) -> Result<(), OutOfMemory>
    requires { place + 1 < 2 ^ 64 }
    ensures { (reply : Given) → slice_get lab.now.answers place ≡ Some reply → OnOk result (out.new ≡ out.old ++ reply_line (place + 1) reply) }
{
    match lab.answer(place + 1) {
        Some(reply) => write_reply(out, place as u64 + 1, reply),
        None => Ok(()),
    }
}

/// Writes the answers that came behind so many.
pub(crate) fn write_replies(out: &mut Text, lab: &Lab, told: usize) -> Result<(), OutOfMemory>
    ensures { OnOk result (out.new ≡ out.old ++ reply_lines (told + 1) (drop told lab.now.answers)) }
{
    for place in told..lab.answered() {
        write_reply_at(out, lab, place)?;
    }
    Ok(())
}

/// Writes a record where it is a chance.
fn write_record(out: &mut Text, item: &Record) -> Result<(), OutOfMemory>
    ensures { OnOk result (out.new ≡ out.old ++ chance_line item.now) }
{
    match item {
        Record::Chance { .. } => out.text("chance\n"),
        Record::Delivered { .. }
        | Record::Dropped { .. }
        | Record::Refused { .. }
        | Record::Loss { .. }
        | Record::Bad { .. }
        | Record::Opened { .. }
        | Record::Closed { .. }
        | Record::Bind { .. }
        | Record::Free { .. }
        | Record::Join { .. }
        | Record::Part { .. }
        | Record::Forged { .. }
        | Record::Routes { .. } => Ok(()),
    }
}

/// Writes the chances among records.
pub(crate) fn write_chances(out: &mut Text, records: &[Record]) -> Result<(), OutOfMemory>
    ensures { OnOk result (out.new ≡ out.old ++ chance_lines records.now) }
{
    for item in records {
        write_record(out, item)?;
    }
    Ok(())
}

/// Writes how many commands, answers and branches there are.
pub(crate) fn write_end(
    out: &mut Text,
    commands: usize,
    answered: usize,
    branches: usize,
) -> Result<(), OutOfMemory>
    ensures { OnOk result (out.new ≡ out.old ++ end_line commands answered branches) }
{
    out.text("end commands ")?;
    out.number(commands as u64)?;
    out.text(" answered ")?;
    out.number(answered as u64)?;
    out.text(" branches ")?;
    out.number(branches as u64)?;
    out.text("\n")
}

/// Writes which line is refused, and why.
pub(crate) fn write_refused(out: &mut Text, refusal: Refusal) -> Result<(), OutOfMemory>
    ensures { OnOk result (out.new ≡ out.old ++ refusal_line (record { number = refusal.number; fault = refusal.fault })) }
{
    out.text("refused ")?;
    out.number(refusal.number)?;
    out.text(" ")?;
    out.text(refusal.name())?;
    out.text("\n")
}
