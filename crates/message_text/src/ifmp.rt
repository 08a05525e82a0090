//! IFMP messages as text.

ghost use Rattle.std.specs.Prelude.{◌≡◌, ◌++◌, OnOk, OnErr, codes};
ghost use Rattle.ifmp_wire.specs.declared.message.Message.TheVariants.{Adjacency};
ghost use Rattle.message_text.specs.Fields.{named_number, named_channel};
ghost use Rattle.lab_text.specs.Kept.{BreaksOff};
ghost use Rattle.message_text.specs.Ifmp.{ifmp_text, hello_word, between, head_text, use_text};

use crate::fields::{write_address, write_channel, write_number, write_octets};
use ifmp_wire::{Message, Names};
use ipv4_packet::FlowId;
use lab_text::Text;
use net_types::{Channel, Hello, HelloKind, Instance, OutOfMemory};

fn hello_word(kind: HelloKind) -> &'static str
    ensures { result.now ≡ hello_word kind }
{
    match kind {
        HelloKind::Syn => "syn",
        HelloKind::Synack => "synack",
        HelloKind::Rstack => "rstack",
        HelloKind::Ack => "ack",
    }
}

#[tactic(auto, unfolding(crate::specs::Ifmp::between))]
fn write_between(
    out: &mut Text,
    word: &str,
    sender: Instance,
    peer: Instance,
) -> Result<(), OutOfMemory>
    ensures ok { OnOk result (out.new ≡ out.old ++ between word.now sender peer) }
    ensures err { OnErr result (BreaksOff out.old (out.old ++ between word.now sender peer) out.new) }
{
    out.text(word)?;
    write_number(out, " from ", u64::from(sender.0))?;
    write_number(out, " to ", u64::from(peer.0))
}

#[tactic(auto, unfolding(crate::specs::Ifmp::head_text))]
fn write_head(out: &mut Text, word: &str, names: &Names) -> Result<(), OutOfMemory>
    ensures ok { OnOk result (out.new ≡ out.old ++ head_text word.now names.now.sender names.now.peer names.now.number) }
    ensures err { OnErr result (BreaksOff out.old (out.old ++ head_text word.now names.now.sender names.now.peer names.now.number) out.new) }
{
    write_between(out, word, names.sender, names.peer)?;
    write_number(out, " number ", u64::from(names.number))
}

#[tactic(auto, unfolding(crate::specs::Ifmp::use_text))]
fn write_use(out: &mut Text, label: Channel, flow: &FlowId) -> Result<(), OutOfMemory>
    ensures ok { OnOk result (out.new ≡ out.old ++ use_text label flow.now) }
    ensures err { OnErr result (BreaksOff out.old (out.old ++ use_text label flow.now) out.new) }
{
    let mut identifier = [0; 16];
    let size = ipv4_packet::write_identifier(flow, &mut identifier);
    write_channel(out, " label ", label)?;
    write_octets(out, " flow ", &identifier[..size])
}

fn write_hello(out: &mut Text, hello: &Hello) -> Result<(), OutOfMemory>
    ensures ok { OnOk result (out.new ≡ out.old ++ ifmp_text (Adjacency hello.now)) }
    ensures err { OnErr result (BreaksOff out.old (out.old ++ ifmp_text (Adjacency hello.now)) out.new) }
{
    write_between(out, hello_word(hello.kind), hello.sender, hello.peer)?;
    write_address(out, " identity ", hello.identity)?;
    write_number(out, " next ", u64::from(hello.next))
}

fn write_redirect(
    out: &mut Text,
    names: &Names,
    lifetime: u16,
    label: Channel,
    flow: &FlowId,
) -> Result<(), OutOfMemory>
    ensures ok { OnOk result (out.new ≡ out.old ++ (head_text (codes "redirect") names.now.sender names.now.peer names.now.number ++ (named_number (codes " lifetime ") lifetime ++ use_text label flow.now))) }
    ensures err { OnErr result (BreaksOff out.old (out.old ++ (head_text (codes "redirect") names.now.sender names.now.peer names.now.number ++ (named_number (codes " lifetime ") lifetime ++ use_text label flow.now))) out.new) }
{
    write_head(out, "redirect", names)?;
    write_number(out, " lifetime ", u64::from(lifetime))?;
    write_use(out, label, flow)
}

/// Appends a Reclaim or its acknowledgement.
fn write_reclaim(
    out: &mut Text,
    word: &str,
    names: &Names,
    label: Channel,
    flow: &FlowId,
) -> Result<(), OutOfMemory>
    ensures ok { OnOk result (out.new ≡ out.old ++ (head_text word.now names.now.sender names.now.peer names.now.number ++ use_text label flow.now)) }
    ensures err { OnErr result (BreaksOff out.old (out.old ++ (head_text word.now names.now.sender names.now.peer names.now.number ++ use_text label flow.now)) out.new) }
{
    write_head(out, word, names)?;
    write_use(out, label, flow)
}

fn write_range(
    out: &mut Text,
    names: &Names,
    least: Channel,
    greatest: Channel,
) -> Result<(), OutOfMemory>
    ensures ok { OnOk result (out.new ≡ out.old ++ (head_text (codes "labelrange") names.now.sender names.now.peer names.now.number ++ (named_channel (codes " least ") least ++ named_channel (codes " greatest ") greatest))) }
    ensures err { OnErr result (BreaksOff out.old (out.old ++ (head_text (codes "labelrange") names.now.sender names.now.peer names.now.number ++ (named_channel (codes " least ") least ++ named_channel (codes " greatest ") greatest))) out.new) }
{
    write_head(out, "labelrange", names)?;
    write_channel(out, " least ", least)?;
    write_channel(out, " greatest ", greatest)
}

fn write_error(out: &mut Text, names: &Names, code: u8, label: Channel) -> Result<(), OutOfMemory>
    ensures ok { OnOk result (out.new ≡ out.old ++ (head_text (codes "error") names.now.sender names.now.peer names.now.number ++ (named_number (codes " code ") code ++ named_channel (codes " label ") label))) }
    ensures err { OnErr result (BreaksOff out.old (out.old ++ (head_text (codes "error") names.now.sender names.now.peer names.now.number ++ (named_number (codes " code ") code ++ named_channel (codes " label ") label))) out.new) }
{
    write_head(out, "error", names)?;
    write_number(out, " code ", u64::from(code))?;
    write_channel(out, " label ", label)
}

/// Appends the text of a message, without an end of line.
pub fn write_ifmp(out: &mut Text, message: &Message) -> Result<(), OutOfMemory>
    ensures ok { OnOk result (out.new ≡ out.old ++ ifmp_text message.now) }
    ensures err { OnErr result (BreaksOff out.old (out.old ++ ifmp_text message.now) out.new) }
{
    let names = message.names();
    match message {
        Message::Adjacency(hello) => write_hello(out, hello),
        Message::Redirect {
            lifetime,
            label,
            flow,
            ..
        } => write_redirect(out, &names, *lifetime, *label, flow),
        Message::Reclaim { label, flow, .. } => write_reclaim(out, "reclaim", &names, *label, flow),
        Message::ReclaimAck { label, flow, .. } => {
            write_reclaim(out, "reclaimack", &names, *label, flow)
        }
        Message::LabelRange {
            least,
            greatest,
            ..
        } => write_range(out, &names, *least, *greatest),
        Message::Error { code, label, .. } => write_error(out, &names, *code, *label),
    }
}
