//! From octets to the message that they tell.

ghost use Rattle.std.specs.Prelude.{◌≡◌, ◌≢◌, ◌↔◌, ◌+◌, ◌<◌, ◌≤◌, length, drop, slice_index, Ok, IsTrue, IfOk, OnOk};
ghost use Rattle.std.specs.Result.{result_err};
ghost use Rattle.ipv4_packet.specs.Flow.{kind_of};
ghost use Rattle.ipv4_packet.specs.Identifier.{identifier_size, Identifies};
ghost use Rattle.octet_fields.specs.Fields.{u16_at as number16};
ghost use Rattle.ifmp_wire.specs.Message.{Tells, hello_code};
ghost use Rattle.ifmp_wire.specs.Tests.{first_fault, head_fault, flow_fault, kind_fault, lifetime_fault, identifier_fault, range_fault, error_fault, op_at, checksum_of, has_size as fits_op, HasHead, HasKind};

use crate::message::Message;
use ipv4_packet::{FlowFault, FlowId, FlowKind, internet_sum};
use net_types::{Addr, Channel, Hello, HelloKind, Instance};
use octet_fields::{u16_at, u32_at};
use thiserror::Error;

/// An error of decoding an IFMP message: the first test that octets fail which aren't one. The
/// tests are this project's own.
#[derive(Clone, Copy, Debug, PartialEq, Eq, Error)]
pub enum Fault {
    /// Under 4 octets.
    #[error("under 4 octets")]
    Short,
    /// Octet 0 isn't 1.
    #[error("the version isn't 1")]
    Version,
    /// The op code is above 8.
    #[error("the op code is above 8")]
    OpCode,
    /// Not as many octets as the op code asks for.
    #[error("another length than the op code has")]
    Size,
    /// The checksum field isn't the checksum.
    #[error("the checksum isn't right")]
    Checksum,
    /// The flow type is neither 1 nor 2.
    #[error("the flow type is neither 1 nor 2")]
    FlowType,
    /// The flow length isn't the type's, or isn't that of the octets that are there.
    #[error("the flow length isn't that of the flow type")]
    FlowLength,
    /// A REDIRECT whose lifetime is 0.
    #[error("a REDIRECT whose lifetime is 0")]
    ZeroLifetime,
    /// Octet 0 of a label isn't 0.
    #[error("a label whose first octet isn't 0")]
    LabelReserved,
    /// A LABEL RANGE whose least label is above its greatest.
    #[error("a LABEL RANGE whose least label is above its greatest")]
    RangeOrder,
    /// An ERROR whose code isn't 1 to 4.
    #[error("an ERROR whose code isn't 1 to 4")]
    ErrorCode,
    /// An octet that should be 0 isn't.
    #[error("a zero octet isn't 0")]
    Reserved,
    /// No packet can be of the flow: octet 0 of its identifier isn't 45 (hexadecimal), its Time To
    /// Live is 0, or its type is 1 and its protocol isn't 6 or 17.
    #[error("no packet is of the flow")]
    FlowFields,
}

/// The message that the octets tell. Refuses by the first test that fails, in the order of
/// [`Fault`].
pub fn decode(octets: &[u8]) -> Result<Message, Fault>
    ensures ok { (message : Message) → (result ≡ Ok message) ↔ Tells octets.now message }
    ensures fault { result_err result ≡ first_fault octets.now }
{
    decode_told(octets)
}

/// The same, from what each part finds.
fn decode_told(octets: &[u8]) -> Result<Message, Fault>
    ensures found { IfOk result (λ message. Tells octets.now message) }
    ensures fault { result_err result ≡ first_fault octets.now }
{
    check_head(octets)?;
    match octets[1] {
        0..=3 => Ok(Message::Adjacency(read_hello(octets))),
        4..=6 => read_redirection(octets),
        7 => read_label_range(octets),
        _ => read_error(octets),
    }
}

/// The tests of version, op code, length and checksum.
fn check_head(octets: &[u8]) -> Result<(), Fault>
    ensures ok { OnOk result (HasHead octets.now) }
    ensures fault { result_err result ≡ head_fault octets.now }
{
    if octets.len() < 4 {
        return Err(Fault::Short);
    }
    if octets[0] != 1 {
        return Err(Fault::Version);
    }
    if octets[1] > 8 {
        return Err(Fault::OpCode);
    }
    if !has_size(octets[1], octets) {
        return Err(Fault::Size);
    }
    if !has_checksum(octets) {
        return Err(Fault::Checksum);
    }
    Ok(())
}

/// Whether a message of this op code can have so many octets.
fn has_size(op: u8, octets: &[u8]) -> bool
    requires op { op ≡ op_at octets.now }
    ensures size { result ≡ fits_op octets.now }
    ensures small { IsTrue result → length octets.now ≤ 40 }
{
    match op {
        0..=3 => octets.len() == 20,
        4..=6 => octets.len() == 36 || octets.len() == 40,
        _ => octets.len() == 24,
    }
}

/// Whether the field is the checksum. Then the words sum to FFFF; the other way round only the field
/// FFFF has to be ruled out, since the first word isn't 0.
fn has_checksum(octets: &[u8]) -> bool
    requires head { 4 ≤ length octets.now }
    requires small { length octets.now ≤ 40 }
    requires version { slice_index octets.now 0 ≡ 1 }
    ensures { IsTrue result ↔ (number16 octets.now 2 ≡ checksum_of octets.now) }
{
    internet_sum(octets) == 0xffff && u16_at(octets, 2) != 0xffff
}

/// The label from `place` on.
fn label_at(octets: &[u8], place: usize) -> Channel
    requires { place + 4 ≤ length octets.now }
    ensures { result ≡ record { vpi = slice_index octets.now (place + 1); vci = number16 octets.now (place + 2) } }
{
    Channel {
        vpi: octets[place + 1] as u16,
        vci: u16_at(octets, place + 2),
    }
}

/// The kind of an adjacency message.
fn hello_kind(op: u8) -> HelloKind
    requires { op ≤ 3 }
    ensures { hello_code result ≡ op }
{
    match op {
        0 => HelloKind::Syn,
        1 => HelloKind::Synack,
        2 => HelloKind::Rstack,
        _ => HelloKind::Ack,
    }
}

/// Reads an adjacency message.
fn read_hello(octets: &[u8]) -> Hello
    requires head { HasHead octets.now }
    requires op { op_at octets.now ≤ 3 }
    ensures { Tells octets.now (Message.Adjacency result) }
{
    Hello {
        kind: hello_kind(octets[1]),
        sender: Instance(u32_at(octets, 4)),
        peer: Instance(u32_at(octets, 8)),
        identity: Addr(u32_at(octets, 12)),
        next: u32_at(octets, 16),
    }
}

/// Reads a message that names a flow.
fn read_redirection(octets: &[u8]) -> Result<Message, Fault>
    requires head { HasHead octets.now }
    requires op { (4 ≤ op_at octets.now) × (op_at octets.now ≤ 6) }
    ensures found { IfOk result (λ message. Tells octets.now message) }
    ensures fault { result_err result ≡ flow_fault octets.now }
{
    let kind = read_kind(octets)?;
    check_lifetime(octets)?;
    let flow = read_flow(kind, &octets[24..])?;
    Ok(redirection(octets, flow))
}

/// Reads flow type and flow length.
fn read_kind(octets: &[u8]) -> Result<FlowKind, Fault>
    requires { 24 ≤ length octets.now }
    ensures found { IfOk result (λ kind. HasKind octets.now kind) }
    ensures fault { result_err result ≡ kind_fault octets.now }
{
    match octets[16] {
        1 if octets[17] == 4 && octets.len() == 40 => Ok(FlowKind::One),
        2 if octets[17] == 3 && octets.len() == 36 => Ok(FlowKind::Two),
        1 | 2 => Err(Fault::FlowLength),
        _ => Err(Fault::FlowType),
    }
}

/// The tests of lifetime and label.
fn check_lifetime(octets: &[u8]) -> Result<(), Fault>
    requires { 24 ≤ length octets.now }
    ensures label { OnOk result (slice_index octets.now 20 ≡ 0) }
    ensures redirect { OnOk result (op_at octets.now ≡ 4 → 0 < number16 octets.now 18) }
    ensures others { OnOk result (op_at octets.now ≢ 4 → number16 octets.now 18 ≡ 0) }
    ensures fault { result_err result ≡ lifetime_fault octets.now }
{
    let is_redirect = octets[1] == 4;
    let lifetime = u16_at(octets, 18);
    if is_redirect && lifetime == 0 {
        return Err(Fault::ZeroLifetime);
    }
    if octets[20] != 0 {
        return Err(Fault::LabelReserved);
    }
    if !is_redirect && lifetime != 0 {
        return Err(Fault::Reserved);
    }
    Ok(())
}

/// Reads a flow identifier.
fn read_flow(kind: FlowKind, octets: &[u8]) -> Result<FlowId, Fault>
    requires { length octets.now ≡ identifier_size kind }
    ensures found { IfOk result (λ flow. Identifies kind octets.now flow) }
    ensures fault { result_err result ≡ identifier_fault kind octets.now }
{
    match ipv4_packet::read_identifier(kind, octets) {
        Ok(flow) => Ok(flow),
        Err(FlowFault::Fields) => Err(Fault::FlowFields),
        Err(_) => Err(Fault::Reserved),
    }
}

/// The message of the flow that was read.
fn redirection(octets: &[u8], flow: FlowId) -> Message
    requires head { HasHead octets.now }
    requires op { (4 ≤ op_at octets.now) × (op_at octets.now ≤ 6) }
    requires kind { HasKind octets.now (kind_of flow) }
    requires flow { Identifies (kind_of flow) (drop 24 octets.now) flow }
    requires label { slice_index octets.now 20 ≡ 0 }
    requires redirect { op_at octets.now ≡ 4 → 0 < number16 octets.now 18 }
    requires others { op_at octets.now ≢ 4 → number16 octets.now 18 ≡ 0 }
    ensures { Tells octets.now result }
{
    let sender = Instance(u32_at(octets, 4));
    let peer = Instance(u32_at(octets, 8));
    let number = u32_at(octets, 12);
    let label = label_at(octets, 20);
    match octets[1] {
        4 => Message::Redirect {
            sender,
            peer,
            number,
            lifetime: u16_at(octets, 18),
            label,
            flow,
        },
        5 => Message::Reclaim {
            sender,
            peer,
            number,
            label,
            flow,
        },
        _ => Message::ReclaimAck {
            sender,
            peer,
            number,
            label,
            flow,
        },
    }
}

/// Reads a LABEL RANGE.
fn read_label_range(octets: &[u8]) -> Result<Message, Fault>
    requires head { HasHead octets.now }
    requires op { op_at octets.now ≡ 7 }
    ensures found { IfOk result (λ message. Tells octets.now message) }
    ensures fault { result_err result ≡ range_fault octets.now }
{
    if octets[16] != 0 || octets[20] != 0 {
        return Err(Fault::LabelReserved);
    }
    if u32_at(octets, 16) > u32_at(octets, 20) {
        return Err(Fault::RangeOrder);
    }
    Ok(Message::LabelRange {
        sender: Instance(u32_at(octets, 4)),
        peer: Instance(u32_at(octets, 8)),
        number: u32_at(octets, 12),
        least: label_at(octets, 16),
        greatest: label_at(octets, 20),
    })
}

/// Reads an ERROR.
fn read_error(octets: &[u8]) -> Result<Message, Fault>
    requires head { HasHead octets.now }
    requires op { op_at octets.now ≡ 8 }
    ensures found { IfOk result (λ message. Tells octets.now message) }
    ensures fault { result_err result ≡ error_fault octets.now }
{
    if octets[20] != 0 {
        return Err(Fault::LabelReserved);
    }
    if octets[16] < 1 || octets[16] > 4 {
        return Err(Fault::ErrorCode);
    }
    if octets[17] != 0 || octets[18] != 0 || octets[19] != 0 {
        return Err(Fault::Reserved);
    }
    Ok(Message::Error {
        sender: Instance(u32_at(octets, 4)),
        peer: Instance(u32_at(octets, 8)),
        number: u32_at(octets, 12),
        code: octets[16],
        label: label_at(octets, 20),
    })
}
