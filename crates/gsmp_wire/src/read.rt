//! From octets to the message.

ghost use Rattle.std.specs.Prelude.{◌≡◌, ◌↔◌, ◌+◌, ◌*◌, ◌≤◌, length, true};
ghost use Rattle.gsmp_wire.specs.Layout.{octets_of};
ghost use Rattle.gsmp_wire.specs.Range.{IsInRange};
ghost use Rattle.gsmp_wire.specs.Refusal.{has_fields, has_size, refusal};
ghost use Rattle.gsmp_wire.specs.Fields.{channel_in, connection_in, decoded, message_in, party_in, row_in, rows_in};

use crate::check::check;
use crate::fault::Fault;
use crate::message::{BranchKind, Connection, Message, MessageType};
use crate::rows::{PortRow, PortRows};
use net_types::{Channel, Greeting, HelloKind, Instance, Party};
use octet_fields::{u16_at, u32_at};

/// The message of these octets, which begin with the LLC/SNAP header of GSMP.
pub fn decode(octets: &[u8]) -> Result<Message, Fault>
    ensures exact { (message : Message) →
        (result ≡ Ok message) ↔ (IsInRange message × (octets.now ≡ octets_of message)) }
    ensures refused { (fault : Fault) → (result ≡ Err fault) ↔ (refusal octets.now ≡ Some fault) }
    ensures decoded { result ≡ decoded octets.now }
{
    let kind = check(octets)?;
    Ok(read_message(kind, &octets[8..]))
}

/// The fields of a message of this type.
fn read_message(kind: MessageType, message: &[u8]) -> Message
    requires size { has_size kind message.now ≡ true }
    requires fields { has_fields kind message.now ≡ true }
    ensures { result ≡ message_in kind message.now }
{
    match kind {
        MessageType::Adjacency => Message::Adjacency(read_greeting(message)),
        MessageType::Branch(kind) => read_branch(kind, message),
        MessageType::Move => read_move(message),
        MessageType::Port => Message::Port {
            result: message[2],
            code: message[3],
            transaction: u32_at(message, 4),
            port: u32_at(message, 8),
            session: u32_at(message, 12),
            function: message[16],
        },
        MessageType::AllPorts => Message::AllPorts {
            result: message[2],
            code: message[3],
            transaction: u32_at(message, 4),
            rows: read_rows(&message[12..], u16_at(message, 8) as usize),
        },
    }
}

/// The fields of an adjacency message.
fn read_greeting(message: &[u8]) -> Greeting
    requires { length message.now ≡ 32 }
    ensures { Message.Adjacency result ≡ message_in MessageType.Adjacency message.now }
{
    let kind = match message[3] {
        1 => HelloKind::Syn,
        2 => HelloKind::Synack,
        3 => HelloKind::Ack,
        _ => HelloKind::Rstack,
    };
    Greeting {
        kind,
        sender: party_at(message, 4, 16, 24),
        receiver: party_at(message, 10, 20, 28),
    }
}

/// The party whose name, port and instance stand at these indices.
fn party_at(message: &[u8], name: usize, port: usize, instance: usize) -> Party
    requires name { name + 6 ≤ length message.now }
    requires port { port + 4 ≤ length message.now }
    requires instance { instance + 4 ≤ length message.now }
    ensures { result ≡ party_in name port instance message.now }
{
    let octets = &message[name..name + 6];
    Party {
        name: [
            octets[0], octets[1], octets[2], octets[3], octets[4], octets[5],
        ],
        port: u32_at(message, port),
        instance: Instance(u32_at(message, instance)),
    }
}

/// The channel at this index.
fn channel_at(message: &[u8], place: usize) -> Channel
    requires { place + 4 ≤ length message.now }
    ensures { result ≡ channel_in place message.now }
{
    Channel {
        vpi: u16_at(message, place),
        vci: u16_at(message, place + 2),
    }
}

/// The fields of the connection that a message is about.
fn read_connection(message: &[u8]) -> Connection
    requires { 32 ≤ length message.now }
    ensures { result ≡ connection_in message.now }
{
    Connection {
        transaction: u32_at(message, 4),
        session: u32_at(message, 8),
        input_port: u32_at(message, 12),
        input: channel_at(message, 16),
        output_port: u32_at(message, 20),
        output: channel_at(message, 24),
        branches: u16_at(message, 28),
        priority: message[31],
    }
}

/// The fields of a message about a branch.
fn read_branch(kind: BranchKind, message: &[u8]) -> Message
    requires { length message.now ≡ 32 }
    ensures { result ≡ message_in (MessageType.Branch kind) message.now }
{
    read_connection(message).read_branch(kind, message[2], message[3])
}

/// The fields of a Move Branch.
fn read_move(message: &[u8]) -> Message
    requires { length message.now ≡ 40 }
    ensures { result ≡ message_in MessageType.Move message.now }
{
    let target = channel_at(message, 36);
    read_connection(message).read_move(message[2], message[3], u32_at(message, 32), target)
}

/// So many records.
fn read_rows(rows: &[u8], count: usize) -> PortRows
    requires most { count ≤ 9 }
    requires size { length rows.now ≡ 16 * count }
    ensures { result ≡ rows_in count rows.now }
{
    let mut read = PortRows::new();
    for row in 0..count {
        read.push(row_at(&rows[16 * row..]));
    }
    read
}

/// The record at the front of these octets.
fn row_at(row: &[u8]) -> PortRow
    requires { 16 ≤ length row.now }
    ensures { result ≡ row_in row.now }
{
    PortRow {
        port: u32_at(row, 0),
        session: u32_at(row, 4),
        up: row[8] == 1,
        least: u16_at(row, 10),
        greatest: u16_at(row, 12),
    }
}
