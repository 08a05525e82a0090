//! The tests of `decode`, in their order.

ghost use Rattle.std.specs.Prelude.{◌≡◌, ◌+◌, ◌*◌, ◌/◌, ◌%◌, ◌≤◌, ◌&&◌, ◌==◌, length, slice_index, true, MatchResult};
ghost use Rattle.octet_fields.specs.Fields.{u16_at as number16};
ghost use Rattle.gsmp_wire.specs.Refusal.{are_rows, between, has_fields, has_size, is_code, is_connection, is_result, is_row, refusal, refusal_at, type_of};

use crate::failure::Failure;
use crate::fault::Fault;
use crate::fields::are_zero;
use crate::message::{BRING_UP, BranchKind, MessageType, SNAP_HEADER, TAKE_DOWN};
use crate::outcome::{FAILURE, REQUEST, SUCCESS};
use crate::rows::MOST_ROWS;
use octet_fields::u16_at;

/// The type of the message that these octets are, or the first test that they fail.
pub(crate) fn check(octets: &[u8]) -> Result<MessageType, Fault>
    ensures { MatchResult result
        (λ kind. (refusal octets.now ≡ None) × (type_of (slice_index octets.now 9) ≡ Some kind))
        (λ fault. refusal octets.now ≡ Some fault) }
{
    if octets.len() < 12 {
        return Err(Fault::Short);
    }
    if octets[..8] != SNAP_HEADER[..] {
        return Err(Fault::Snap);
    }
    if octets[8] != 1 {
        return Err(Fault::Version);
    }
    match message_type(octets[9]) {
        None => Err(Fault::MessageType),
        Some(kind) => match fault_in(kind, &octets[8..]) {
            None => Ok(kind),
            Some(fault) => Err(fault),
        },
    }
}

/// The first of its tests that a message of this type fails, if it fails one.
fn fault_in(kind: MessageType, message: &[u8]) -> Option<Fault>
    requires { 4 ≤ length message.now }
    ensures { result ≡ refusal_at kind message.now }
{
    if !is_result(kind, message[2]) {
        return Some(Fault::Result);
    }
    if !is_code(kind, message[2], message[3]) {
        return Some(Fault::Code);
    }
    if !has_size(kind, message) {
        return Some(Fault::Size);
    }
    if !has_fields(kind, message) {
        return Some(Fault::Reserved);
    }
    None
}

/// The type of this number.
fn message_type(number: u8) -> Option<MessageType>
    ensures { result ≡ type_of number }
{
    match number {
        10 => Some(MessageType::Adjacency),
        16 => Some(MessageType::Branch(BranchKind::Add)),
        18 => Some(MessageType::Branch(BranchKind::Delete)),
        19 => Some(MessageType::Branch(BranchKind::Verify)),
        20 => Some(MessageType::Branch(BranchKind::DeleteAll)),
        22 => Some(MessageType::Move),
        32 => Some(MessageType::Port),
        66 => Some(MessageType::AllPorts),
        _ => None,
    }
}

/// Whether a message of this type has this result.
fn is_result(kind: MessageType, outcome: u8) -> bool
    ensures { result ≡ is_result kind outcome }
{
    match kind {
        MessageType::Adjacency => outcome == 0,
        _ => REQUEST <= outcome && outcome <= FAILURE,
    }
}

/// Whether the Code is that of a failure.
fn is_failure_code(code: u8) -> bool
    ensures { result ≡ between 1 7 code }
{
    Failure::NoPort.code() <= code && code <= Failure::SessionsSpent.code()
}

/// Whether a message of this type and result has this code.
fn is_code(kind: MessageType, outcome: u8, code: u8) -> bool
    ensures { result ≡ is_code kind outcome code }
{
    match kind {
        MessageType::Adjacency => 1 <= code && code <= 4,
        _ if outcome == FAILURE => is_failure_code(code),
        _ => code == 0,
    }
}

/// Whether a message of this type is as long as it is to be.
fn has_size(kind: MessageType, message: &[u8]) -> bool
    requires { 4 ≤ length message.now }
    ensures { result ≡ has_size kind message.now }
{
    match kind {
        MessageType::Adjacency | MessageType::Branch(_) => message.len() == 32,
        MessageType::Move => message.len() == 40,
        MessageType::Port => message.len() == 20,
        MessageType::AllPorts if message[2] == SUCCESS => has_size_by_rows(message),
        MessageType::AllPorts => message.len() == 12,
    }
}

/// Whether an answer with records is as long as their number says.
fn has_size_by_rows(message: &[u8]) -> bool
    ensures { let count = number16 message.now 8 in
        result ≡ (between 1 9 count && length message.now == 12 + 16 * count) }
{
    if message.len() < 12 {
        return false;
    }
    let count = u16_at(message, 8) as usize;
    1 <= count && count <= MOST_ROWS && message.len() == 12 + 16 * count
}

/// Whether a Port Management has this Function.
fn is_function(function: u8) -> bool
    ensures { result ≡ between 1 2 function }
{
    BRING_UP <= function && function <= TAKE_DOWN
}

/// Whether the fields that are to be 0 are, and the others have one of their values.
fn has_fields(kind: MessageType, message: &[u8]) -> bool
    requires { has_size kind message.now ≡ true }
    ensures { result ≡ has_fields kind message.now }
{
    match kind {
        MessageType::Adjacency => true,
        MessageType::Branch(BranchKind::Add) | MessageType::Move => is_connection(message),
        MessageType::Branch(BranchKind::Delete) => {
            is_connection(message) && are_zero(message, 20, 8)
        }
        MessageType::Branch(BranchKind::Verify) => {
            is_connection(message) && (message[2] == SUCCESS || are_zero(message, 20, 8))
        }
        MessageType::Branch(BranchKind::DeleteAll) => {
            is_connection(message) && are_zero(message, 20, 8) && are_zero(message, 16, 4)
        }
        MessageType::Port => is_function(message[16]) && are_zero(message, 17, 3),
        MessageType::AllPorts if message[2] == SUCCESS => {
            are_zero(message, 10, 2) && are_rows(&message[12..])
        }
        MessageType::AllPorts => are_zero(message, 10, 2) && u16_at(message, 8) == 0,
    }
}

/// Whether octet 30 is 0 and Branches 0, or 1 in a success answer.
fn is_connection(message: &[u8]) -> bool
    requires { 32 ≤ length message.now }
    ensures { result ≡ is_connection message.now }
{
    let most = if message[2] == SUCCESS { 1 } else { 0 };
    are_zero(message, 30, 1) && u16_at(message, 28) <= most
}

/// Whether these octets are records of 16 octets with their fields right.
fn are_rows(rows: &[u8]) -> bool
    requires { length rows.now % 16 ≡ 0 }
    ensures { result ≡ are_rows (length rows.now / 16) rows.now }
{
    for row in 0..rows.len() / 16 {
        if !is_row(&rows[16 * row..]) {
            return false;
        }
    }
    true
}

/// Whether the fields of a record are right.
fn is_row(row: &[u8]) -> bool
    requires { 16 ≤ length row.now }
    ensures { result ≡ is_row row.now }
{
    1 <= row[8] && row[8] <= 2 && are_zero(row, 9, 1) && are_zero(row, 14, 2)
}
