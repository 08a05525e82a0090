//! GSMP messages as text.

ghost use Rattle.std.specs.Prelude.{◌≡◌, ◌++◌, OnOk, OnErr, codes};
ghost use Rattle.gsmp_wire.specs.Parts.{head_of};
ghost use Rattle.message_text.specs.Fields.{named_number};
ghost use Rattle.lab_text.specs.Kept.{BreaksOff};
ghost use Rattle.message_text.specs.Gsmp.{gsmp_text, greeting_word, branch_word, party_text, result_word, head_text, head_text_or_none, end_text, ends_text, tail_text, state_word, row_text, rows_text, word_of, fields_text};

use crate::fields::{write_channel, write_number, write_octets};
use gsmp_wire::{BranchKind, Head, Message, PortRow, PortRows, REQUEST, SUCCESS};
use lab_text::Text;
use net_types::{Channel, Greeting, HelloKind, OutOfMemory, Party};

fn greeting_word(kind: HelloKind) -> &'static str
    ensures { result.now ≡ greeting_word kind }
{
    match kind {
        HelloKind::Syn => "adjacency syn",
        HelloKind::Synack => "adjacency synack",
        HelloKind::Rstack => "adjacency rstack",
        HelloKind::Ack => "adjacency ack",
    }
}

fn branch_word(kind: BranchKind) -> &'static str
    ensures { result.now ≡ branch_word kind }
{
    match kind {
        BranchKind::Add => "addbranch",
        BranchKind::Delete => "deletetree",
        BranchKind::Verify => "verifytree",
        BranchKind::DeleteAll => "deleteall",
    }
}

#[tactic(auto, unfolding(crate::specs::Gsmp::result_word))]
fn result_word(outcome: u8) -> &'static str
    ensures { result.now ≡ result_word outcome }
{
    if outcome == REQUEST {
        " request"
    } else if outcome == SUCCESS {
        " success"
    } else {
        " failure"
    }
}

fn state_word(up: bool) -> &'static str
    ensures { result.now ≡ state_word up }
{
    if up { " state up" } else { " state down" }
}

#[tactic(auto, unfolding(crate::specs::Gsmp::party_text))]
fn write_party(out: &mut Text, name: &str, party: &Party) -> Result<(), OutOfMemory>
    ensures ok { OnOk result (out.new ≡ out.old ++ party_text name.now party.now) }
    ensures err { OnErr result (BreaksOff out.old (out.old ++ party_text name.now party.now) out.new) }
{
    write_octets(out, name, &party.name)?;
    write_number(out, " ", u64::from(party.port))?;
    write_number(out, " ", u64::from(party.instance.0))
}

fn write_result(out: &mut Text, outcome: u8) -> Result<(), OutOfMemory>
    ensures ok { OnOk result (out.new ≡ out.old ++ result_word outcome) }
    ensures err { OnErr result (out.new ≡ out.old) }
{
    out.text(result_word(outcome))
}

#[tactic(auto, unfolding(crate::specs::Gsmp::head_text))]
fn write_head(out: &mut Text, head: &Head) -> Result<(), OutOfMemory>
    ensures ok { OnOk result (out.new ≡ out.old ++ head_text head.now) }
    ensures err { OnErr result (BreaksOff out.old (out.old ++ head_text head.now) out.new) }
{
    write_result(out, head.result)?;
    write_number(out, " ", u64::from(head.code))?;
    write_number(out, " transaction ", u64::from(head.number))
}

fn write_head_or_none(out: &mut Text, message: &Message) -> Result<(), OutOfMemory>
    ensures ok { OnOk result (out.new ≡ out.old ++ head_text_or_none (head_of message.now)) }
    ensures err { OnErr result (BreaksOff out.old (out.old ++ head_text_or_none (head_of message.now)) out.new) }
{
    match message.head() {
        Some(head) => write_head(out, &head),
        None => Ok(()),
    }
}

#[tactic(auto, unfolding(crate::specs::Gsmp::end_text))]
fn write_end(out: &mut Text, name: &str, port: u32, channel: Channel) -> Result<(), OutOfMemory>
    ensures ok { OnOk result (out.new ≡ out.old ++ end_text name.now port channel) }
    ensures err { OnErr result (BreaksOff out.old (out.old ++ end_text name.now port channel) out.new) }
{
    write_number(out, name, u64::from(port))?;
    write_channel(out, " ", channel)
}

#[tactic(auto, unfolding(crate::specs::Gsmp::ends_text))]
fn write_ends(
    out: &mut Text,
    session: u32,
    input_port: u32,
    input: Channel,
    output_port: u32,
    output: Channel,
) -> Result<(), OutOfMemory>
    ensures ok { OnOk result (out.new ≡ out.old ++ ends_text session input_port input output_port output) }
    ensures err { OnErr result (BreaksOff out.old (out.old ++ ends_text session input_port input output_port output) out.new) }
{
    write_number(out, " session ", u64::from(session))?;
    write_end(out, " input ", input_port, input)?;
    write_end(out, " output ", output_port, output)
}

fn write_tail(out: &mut Text, branches: u16, priority: u8) -> Result<(), OutOfMemory>
    ensures ok { OnOk result (out.new ≡ out.old ++ tail_text branches priority) }
    ensures err { OnErr result (BreaksOff out.old (out.old ++ tail_text branches priority) out.new) }
{
    write_number(out, " branches ", u64::from(branches))?;
    write_number(out, " priority ", u64::from(priority))
}

#[tactic(auto, unfolding(crate::specs::Gsmp::row_text))]
fn write_row(out: &mut Text, row: &PortRow) -> Result<(), OutOfMemory>
    ensures ok { OnOk result (out.new ≡ out.old ++ row_text row.now) }
    ensures err { OnErr result (BreaksOff out.old (out.old ++ row_text row.now) out.new) }
{
    write_number(out, " port ", u64::from(row.port))?;
    write_number(out, " session ", u64::from(row.session))?;
    out.text(state_word(row.up))?;
    write_number(out, " least ", u64::from(row.least))?;
    write_number(out, " greatest ", u64::from(row.greatest))
}

fn write_rows(out: &mut Text, rows: &PortRows) -> Result<(), OutOfMemory>
    ensures ok { OnOk result (out.new ≡ out.old ++ rows_text rows.now) }
    ensures err { OnErr result (BreaksOff out.old (out.old ++ rows_text rows.now) out.new) }
{
    for row in rows.as_slice() {
        write_row(out, row)?;
    }
    Ok(())
}

fn word_of(message: &Message) -> &'static str
    ensures { result.now ≡ word_of message.now }
{
    match message {
        Message::Adjacency(greeting) => greeting_word(greeting.kind),
        Message::Branch { kind, .. } => branch_word(*kind),
        Message::Move { .. } => "movebranch",
        Message::Port { .. } => "port",
        Message::AllPorts { .. } => "allports",
    }
}

/// Appends the session and both ends of a branch, each a port and its channel, and what stands behind them.
fn write_branch(
    out: &mut Text,
    session: u32,
    input: (u32, Channel),
    output: (u32, Channel),
    branches: u16,
    priority: u8,
) -> Result<(), OutOfMemory>
    ensures ok { OnOk result (out.new ≡ out.old ++ (ends_text session input.0 input.1 output.0 output.1 ++ tail_text branches priority)) }
    ensures err { OnErr result (BreaksOff out.old (out.old ++ (ends_text session input.0 input.1 output.0 output.1 ++ tail_text branches priority)) out.new) }
{
    write_ends(out, session, input.0, input.1, output.0, output.1)?;
    write_tail(out, branches, priority)
}

/// The same of a branch that is led to another end.
fn write_move(
    out: &mut Text,
    session: u32,
    input: (u32, Channel),
    output: (u32, Channel),
    target: (u32, Channel),
    branches: u16,
    priority: u8,
) -> Result<(), OutOfMemory>
    ensures ok { OnOk result (out.new ≡ out.old ++ (ends_text session input.0 input.1 output.0 output.1 ++ (end_text (codes " new ") target.0 target.1 ++ tail_text branches priority))) }
    ensures err { OnErr result (BreaksOff out.old (out.old ++ (ends_text session input.0 input.1 output.0 output.1 ++ (end_text (codes " new ") target.0 target.1 ++ tail_text branches priority))) out.new) }
{
    write_ends(out, session, input.0, input.1, output.0, output.1)?;
    write_end(out, " new ", target.0, target.1)?;
    write_tail(out, branches, priority)
}

fn write_parties(out: &mut Text, greeting: &Greeting) -> Result<(), OutOfMemory>
    ensures ok { OnOk result (out.new ≡ out.old ++ (party_text (codes " sender ") greeting.now.sender ++ party_text (codes " receiver ") greeting.now.receiver)) }
    ensures err { OnErr result (BreaksOff out.old (out.old ++ (party_text (codes " sender ") greeting.now.sender ++ party_text (codes " receiver ") greeting.now.receiver)) out.new) }
{
    write_party(out, " sender ", &greeting.sender)?;
    write_party(out, " receiver ", &greeting.receiver)
}

/// Appends what a port is to do.
fn write_function(out: &mut Text, port: u32, session: u32, function: u8) -> Result<(), OutOfMemory>
    ensures ok { OnOk result (out.new ≡ out.old ++ (named_number (codes " port ") port ++ (named_number (codes " session ") session ++ named_number (codes " function ") function))) }
    ensures err { OnErr result (BreaksOff out.old (out.old ++ (named_number (codes " port ") port ++ (named_number (codes " session ") session ++ named_number (codes " function ") function))) out.new) }
{
    write_number(out, " port ", u64::from(port))?;
    write_number(out, " session ", u64::from(session))?;
    write_number(out, " function ", u64::from(function))
}

fn write_fields(out: &mut Text, message: &Message) -> Result<(), OutOfMemory>
    ensures ok { OnOk result (out.new ≡ out.old ++ fields_text message.now) }
    ensures err { OnErr result (BreaksOff out.old (out.old ++ fields_text message.now) out.new) }
{
    match message {
        Message::Adjacency(greeting) => write_parties(out, greeting),
        Message::Branch {
            session,
            input_port,
            input,
            output_port,
            output,
            branches,
            priority,
            ..
        } => {
            let input = (*input_port, *input);
            let output = (*output_port, *output);
            write_branch(out, *session, input, output, *branches, *priority)
        }
        Message::Move {
            session,
            input_port,
            input,
            output_port,
            output,
            target_port,
            target,
            branches,
            priority,
            ..
        } => {
            let input = (*input_port, *input);
            let output = (*output_port, *output);
            let target = (*target_port, *target);
            write_move(out, *session, input, output, target, *branches, *priority)
        }
        Message::Port {
            port,
            session,
            function,
            ..
        } => write_function(out, *port, *session, *function),
        Message::AllPorts { rows, .. } => write_rows(out, rows),
    }
}

/// Appends the text of a message, without an end of line.
#[tactic(auto, unfolding(crate::specs::Gsmp::gsmp_text))]
pub fn write_gsmp(out: &mut Text, message: &Message) -> Result<(), OutOfMemory>
    ensures ok { OnOk result (out.new ≡ out.old ++ gsmp_text message.now) }
    ensures err { OnErr result (BreaksOff out.old (out.old ++ gsmp_text message.now) out.new) }
{
    out.text(word_of(message))?;
    write_head_or_none(out, message)?;
    write_fields(out, message)
}
