//! From the message to octets.

ghost use Rattle.std.specs.Prelude.{◌≡◌, ◌+◌, ◌*◌, ◌≤◌, ◌∷◌, ◌++◌, [], length, drop, Some};
ghost use Rattle.std.specs.Int.{w16, w32, to_be_bytes};
ghost use Rattle.gsmp_wire.specs.declared.message.Connection.{Connection as Fields};
ghost use Rattle.gsmp_wire.specs.declared.message.Head.{Head};
ghost use Rattle.gsmp_wire.specs.Parts.{head_of};
ghost use Rattle.gsmp_wire.specs.Layout.{connection_octets, connection_of, end_octets, greeting_octets, header, hello_code, octets_of, row_octets, rows_octets, snap_header, type_number};
ghost use Rattle.gsmp_wire.specs.Range.{IsInRange};
ghost use Rattle.octet_fields.specs.Fields.{written};

use crate::message::{BranchKind, Connection, Message, MessageType, SNAP_HEADER};
use crate::rows::{PortRow, PortRows};
use net_types::{Channel, Greeting, HelloKind};
use octet_fields::{put_octets, put_u16, put_u32};

/// Writes the octets of a message, with the LLC/SNAP header in front, and says how many they are.
pub fn encode(message: &Message, out: &mut [u8]) -> usize
    requires range { IsInRange message.now }
    requires room { length (octets_of message.now) ≤ length out.old }
    ensures written { let octets = octets_of message.now in
        out.new ≡ octets ++ drop (length octets) out.old }
    ensures len { result ≡ length (octets_of message.now) }
{
    match message {
        Message::Adjacency(greeting) => {
            put_header(out, MessageType::Adjacency, 0, code_of(greeting.kind));
            put_octets(out, 12, &greeting_octets(greeting));
            40
        }
        Message::Branch { kind, .. } => {
            put_head(out, MessageType::Branch(*kind), message);
            put_connection(out, message);
            40
        }
        Message::Move {
            target_port,
            target,
            ..
        } => {
            put_head(out, MessageType::Move, message);
            put_connection(out, message);
            put_octets(out, 40, &end_octets(*target_port, *target));
            48
        }
        Message::Port {
            transaction,
            port,
            session,
            function,
            ..
        } => {
            put_head(out, MessageType::Port, message);
            put_octets(
                out,
                12,
                &order_octets(*transaction, *port, *session, *function),
            );
            28
        }
        Message::AllPorts {
            transaction,
            rows,
            ..
        } => {
            put_head(out, MessageType::AllPorts, message);
            put_octets(out, 12, &list_octets(*transaction, rows.len() as u16));
            put_rows(out, 20, rows);
            20 + 16 * rows.len()
        }
    }
}

/// Writes the LLC/SNAP header and the first four octets of a message that isn't the adjacency's.
fn put_head(out: &mut [u8], kind: MessageType, message: &Message)
    requires { 12 ≤ length out.old }
    ensures { (head : Head) → head_of message.now ≡ Some head → out.new ≡ written out.old 0 (snap_header ++ header kind head.result head.code) }
{
    if let Some(head) = message.head() {
        put_header(out, kind, head.result, head.code);
    }
}

/// Writes the LLC/SNAP header and the first four octets of a message.
fn put_header(out: &mut [u8], kind: MessageType, outcome: u8, code: u8)
    requires { 12 ≤ length out.old }
    ensures { out.new ≡ written out.old 0 (snap_header ++ header kind outcome code) }
{
    put_octets(out, 0, &SNAP_HEADER);
    put_octets(out, 8, &[1, number_of(kind), outcome, code]);
}

/// The number of a type.
fn number_of(kind: MessageType) -> u8
    ensures { result ≡ type_number kind }
{
    match kind {
        MessageType::Adjacency => 10,
        MessageType::Branch(BranchKind::Add) => 16,
        MessageType::Branch(BranchKind::Delete) => 18,
        MessageType::Branch(BranchKind::Verify) => 19,
        MessageType::Branch(BranchKind::DeleteAll) => 20,
        MessageType::Move => 22,
        MessageType::Port => 32,
        MessageType::AllPorts => 66,
    }
}

/// The code of an adjacency message.
fn code_of(kind: HelloKind) -> u8
    ensures { result ≡ hello_code kind }
{
    match kind {
        HelloKind::Syn => 1,
        HelloKind::Synack => 2,
        HelloKind::Ack => 3,
        HelloKind::Rstack => 4,
    }
}

/// Octets 4 to 31 of an adjacency message.
fn greeting_octets(greeting: &Greeting) -> [u8; 28]
    ensures { result ≡ greeting_octets greeting.now }
{
    let mut octets = [0; 28];
    put_octets(&mut octets, 0, &greeting.sender.name);
    put_octets(&mut octets, 6, &greeting.receiver.name);
    put_u32(&mut octets, 12, greeting.sender.port);
    put_u32(&mut octets, 16, greeting.receiver.port);
    put_u32(&mut octets, 20, greeting.sender.instance.0);
    put_u32(&mut octets, 24, greeting.receiver.instance.0);
    octets
}

/// The octets of an end of a connection.
fn end_octets(port: u32, channel: Channel) -> [u8; 8]
    ensures { result ≡ end_octets port channel }
{
    let mut octets = [0; 8];
    put_u32(&mut octets, 0, port);
    put_u16(&mut octets, 4, channel.vpi);
    put_u16(&mut octets, 6, channel.vci);
    octets
}

/// Writes octets 4 to 31 of a connection message.
fn put_connection(out: &mut [u8], message: &Message)
    requires room { 40 ≤ length out.old }
    ensures { (connection : Fields) → connection_of message.now ≡ Some connection → out.new ≡ written out.old 12 (connection_octets connection) }
{
    if let Some(connection) = message.connection() {
        put_octets(out, 12, &connection_octets(&connection));
    }
}

/// Octets 4 to 31 of a connection message.
fn connection_octets(connection: &Connection) -> [u8; 28]
    ensures { result ≡ connection_octets connection.now }
{
    let mut octets = [0; 28];
    put_u32(&mut octets, 0, connection.transaction);
    put_u32(&mut octets, 4, connection.session);
    put_octets(
        &mut octets,
        8,
        &end_octets(connection.input_port, connection.input),
    );
    put_octets(
        &mut octets,
        16,
        &end_octets(connection.output_port, connection.output),
    );
    put_u16(&mut octets, 24, connection.branches);
    put_octets(&mut octets, 26, &[0, connection.priority]);
    octets
}

/// Octets 4 to 19 of a Port Management.
fn order_octets(transaction: u32, port: u32, session: u32, function: u8) -> [u8; 16]
    ensures { result ≡ to_be_bytes w32 transaction ++ to_be_bytes w32 port ++ to_be_bytes w32 session ++ (function ∷ 0 ∷ 0 ∷ 0 ∷ []) }
{
    let mut octets = [0; 16];
    put_u32(&mut octets, 0, transaction);
    put_u32(&mut octets, 4, port);
    put_u32(&mut octets, 8, session);
    put_octets(&mut octets, 12, &[function]);
    octets
}

/// Octets 4 to 11 of an All Ports message.
fn list_octets(transaction: u32, count: u16) -> [u8; 8]
    ensures { result ≡ to_be_bytes w32 transaction ++ to_be_bytes w16 count ++ (0 ∷ 0 ∷ []) }
{
    let mut octets = [0; 8];
    put_u32(&mut octets, 0, transaction);
    put_u16(&mut octets, 4, count);
    octets
}

/// Writes the records from `place` on.
fn put_rows(out: &mut [u8], place: usize, rows: &PortRows)
    requires { place + length (rows_octets rows.now) ≤ length out.old }
    ensures { out.new ≡ written out.old place (rows_octets rows.now) }
{
    for (index, row) in rows.as_slice().iter().enumerate() {
        put_octets(out, place + 16 * index, &row_octets(row));
    }
}

/// The octets of a record.
fn row_octets(row: &PortRow) -> [u8; 16]
    ensures { result ≡ row_octets row.now }
{
    let mut octets = [0; 16];
    put_u32(&mut octets, 0, row.port);
    put_u32(&mut octets, 4, row.session);
    put_octets(&mut octets, 8, &[if row.up { 1 } else { 2 }, 0]);
    put_u16(&mut octets, 10, row.least);
    put_u16(&mut octets, 12, row.greatest);
    octets
}
