//! Gives a switch the GSMP requests of its input, one by one, and writes each answer.
#![tactic(auto)]

ghost use Rattle.std.specs.Prelude.{◌≡◌};
ghost use Rattle.world_model.specs.Requests.{is_request};

use gsmp_switch::Switch;
use gsmp_wire::{Message, REQUEST};
use lab_io::{StdSink, StdSource, read_to_end, write_all};
use lab_text::{INPUT_LIMIT, Text, read_hex_line, split_line};
use link_model::Notes;
use message_text::write_gsmp;
use net_types::{NodeId, Numbers, OutOfMemory, PortNo};
use std::alloc::Global;
use std::process::ExitCode;

/// Whether the message is a request.
fn asks(message: &Message) -> bool
    ensures { result ≡ is_request message.now }
{
    match message {
        Message::Adjacency(_) => false,
        Message::Branch { result, .. } => *result == REQUEST,
        Message::Move { result, .. } => *result == REQUEST,
        Message::Port { result, .. } => *result == REQUEST,
        Message::AllPorts { result, .. } => *result == REQUEST,
    }
}

/// The answer to each request of the input, a line of hexadecimal each.
fn drive(alloc: Global, switch: &mut Switch, input: &[u8]) -> Result<Text, OutOfMemory> {
    let mut notes = Notes::open(alloc)?;
    let mut out = Text::new(alloc);
    let mut rest = input;
    while !rest.is_empty() {
        let (line, others) = split_line(rest);
        rest = others;
        let Ok(Some(octets)) = read_hex_line(alloc, 0, line) else {
            continue;
        };
        if let Ok(message) = gsmp_wire::decode(octets.as_slice()) {
            if asks(&message) {
                write_gsmp(&mut out, &switch.handle(&message, &mut notes)?)?;
                out.text("\n")?;
            }
        }
    }
    Ok(out)
}

fn main(rt: HostRuntime) -> ExitCode {
    let mut source = StdSource::new(rt.stdin());
    let Ok(input) = read_to_end(rt.alloc(), &mut source, INPUT_LIMIT) else {
        return ExitCode::from(3);
    };
    let mut numbers = Numbers::new();
    let ports = [PortNo(1), PortNo(2)];
    let Ok(mut switch) = Switch::open(rt.alloc(), NodeId(1), &ports, 64, 1, &mut numbers) else {
        return ExitCode::from(5);
    };
    let outcome = drive(rt.alloc(), &mut switch, input.as_slice());
    switch.abandon();
    match outcome {
        Ok(text) => match write_all(&mut StdSink::new(rt.stdout()), text.as_slice()) {
            Ok(()) => ExitCode::SUCCESS,
            Err(_) => ExitCode::from(4),
        },
        Err(_) => ExitCode::from(5),
    }
}
