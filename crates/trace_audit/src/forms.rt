//! The forms of the words of a trace.

ghost use Rattle.std.specs.Prelude.{◌≡◌, ◌≤◌, length, true, IfOk};
ghost use Rattle.std.specs.List.{list_all};
ghost use Rattle.ipv4_packet.specs.Flow.{IsFlow};
ghost use Rattle.lab_text.specs.Forms.{is_name as names, is_letter, is_name_octet};
ghost use Rattle.net_types.specs.Channel.{is_default_channel};
ghost use Rattle.trace_model.specs.Forms as forms;
ghost use Rattle.trace_audit.specs.Faults.{Tells};

use crate::fault::AuditFault;
use aal5_frames::GREATEST_PAYLOAD;
use ipv4_packet::{FlowId, FlowKind, read_identifier};
use lab_text::read_hex;
use net_types::{
    Channel, DEFAULT_CHANNEL, GREATEST_LABEL_VCI, LABEL_VPIS, LAST_PORT, Mark, Octets, PortNo,
    is_label,
};
use octet_fields::put_octets;
use std::alloc::Global;
use trace_model::{NodeName, TraceEnd, TraceRefusal};
use word_forms::{long_number, number_in, split_at_sign};

/// The most octets of a node's name.
const NAME: usize = 16;

/// The octets of the identifier of a flow of type 1 (RFC 1953).
const CONNECTION_IDENTIFIER: usize = 16;

fn is_letter(octet: u8) -> bool
    ensures { result ≡ is_letter octet }
{
    octet.is_ascii_lowercase()
}

fn is_name_octet(octet: u8) -> bool
    ensures { result ≡ is_name_octet octet }
{
    is_letter(octet) || octet.is_ascii_digit()
}

fn are_name_octets(word: &[u8]) -> bool
    ensures { result ≡ list_all is_name_octet word.now }
{
    word.iter().all(|octet| is_name_octet(*octet))
}

/// Whether `word` is a name: 1 to 16 lower-case letters and digits, a letter first.
fn is_name(word: &[u8]) -> bool
    ensures name { result ≡ names word.now }
    ensures short { result ≡ true → length word.now ≤ 16 }
{
    1 <= word.len() && word.len() <= NAME && is_letter(word[0]) && are_name_octets(word)
}

/// The name with zeros behind it.
fn name_of(word: &[u8]) -> NodeName
    requires { length word.now ≤ 16 }
    ensures { result ≡ forms.padded_name word.now }
{
    let mut octets = [0; NAME];
    put_octets(&mut octets, 0, word);
    NodeName(octets)
}

/// A name. Refuses `BadName`.
pub fn read_name(word: &[u8]) -> Result<NodeName, TraceRefusal>
    ensures { result ≡ forms.read_name word.now }
{
    if is_name(word) {
        Ok(name_of(word))
    } else {
        Err(TraceRefusal::BadName)
    }
}

fn port_of(word: &[u8]) -> Option<PortNo>
    ensures { result ≡ forms.port_of word.now }
{
    let port = number_in(word, 1, LAST_PORT as u32)?;
    Some(PortNo(port as u8))
}

/// A port, 1 to 8. Refuses `BadNumber`.
pub fn read_port(word: &[u8]) -> Result<PortNo, TraceRefusal>
    ensures { result ≡ forms.read_port word.now }
{
    match port_of(word) {
        Some(port) => Ok(port),
        None => Err(TraceRefusal::BadNumber),
    }
}

fn end_of(word: &[u8]) -> Option<TraceEnd>
    ensures { result ≡ forms.end_of word.now }
{
    let (name, port) = split_at_sign(word, b':')?;
    if !is_name(name) {
        return None;
    }
    let port = port_of(port)?;
    Some(TraceEnd {
        node: name_of(name),
        port,
    })
}

/// A name, a colon and a port 1 to 8. Refuses `BadPlace`.
pub fn read_end(word: &[u8]) -> Result<TraceEnd, TraceRefusal>
    ensures { result ≡ forms.read_end word.now }
{
    match end_of(word) {
        Some(end) => Ok(end),
        None => Err(TraceRefusal::BadPlace),
    }
}

fn channel_of(word: &[u8]) -> Option<Channel>
    ensures { result ≡ forms.channel_of word.now }
{
    let (vpi, vci) = split_at_sign(word, b'/')?;
    let vpi = number_in(vpi, 0, LABEL_VPIS as u32 - 1)?;
    let vci = number_in(vci, 0, GREATEST_LABEL_VCI as u32)?;
    Some(Channel {
        vpi: vpi as u16,
        vci: vci as u16,
    })
}

/// Whether the channel leads to a router: 0/15.
fn is_default(channel: Channel) -> bool
    ensures { result ≡ is_default_channel channel }
{
    channel.vpi == DEFAULT_CHANNEL.vpi && channel.vci == DEFAULT_CHANNEL.vci
}

/// The channel of a cell: 0/15, or that of a label. Refuses `BadChannel`.
pub fn read_channel(word: &[u8]) -> Result<Channel, TraceRefusal>
    ensures { result ≡ forms.read_channel word.now }
{
    match channel_of(word) {
        Some(channel) if is_default(channel) || is_label(channel) => Ok(channel),
        _ => Err(TraceRefusal::BadChannel),
    }
}

/// The channel of a label: VPI 0 to 15, VCI 32 to 1023. Refuses `BadChannel`.
pub fn read_label(word: &[u8]) -> Result<Channel, TraceRefusal>
    ensures { result ≡ forms.read_label word.now }
{
    match channel_of(word) {
        Some(channel) if is_label(channel) => Ok(channel),
        _ => Err(TraceRefusal::BadChannel),
    }
}

fn mark_of(word: &[u8]) -> Option<Mark>
    ensures { result ≡ forms.marked word.now }
{
    let (packet, frame) = split_at_sign(word, b'.')?;
    let packet = number_in(packet, 0, u32::MAX)?;
    let frame = long_number(frame)?;
    Some(Mark { packet, frame })
}

/// A mark: two decimal numbers with a dot between them. Refuses `BadMark`.
pub fn read_mark(word: &[u8]) -> Result<Mark, TraceRefusal>
    ensures { result ≡ forms.read_mark word.now }
{
    match mark_of(word) {
        Some(mark) => Ok(mark),
        None => Err(TraceRefusal::BadMark),
    }
}

/// A frame's payload in hexadecimal. Refuses `BadHex` and then `BadLength`.
pub fn read_payload(alloc: Global, word: &[u8]) -> Result<Octets, AuditFault>
    ensures { Tells (forms.read_payload word.now) result }
{
    match read_hex(alloc, word)? {
        Some(octets) => {
            if octets.len() > GREATEST_PAYLOAD {
                return Err(AuditFault::Refused(TraceRefusal::BadLength));
            }
            Ok(Octets::new(octets))
        }
        None => Err(AuditFault::Refused(TraceRefusal::BadHex)),
    }
}

/// The kind of flow whose identifier has so many octets.
fn kind_of_size(octets: &[u8]) -> FlowKind
    ensures { result ≡ forms.kind_of_size octets.now }
{
    if octets.len() == CONNECTION_IDENTIFIER {
        FlowKind::One
    } else {
        FlowKind::Two
    }
}

/// The flow of an identifier.
fn flow_of(octets: &[u8]) -> Result<FlowId, TraceRefusal>
    ensures flow { result ≡ forms.flow_by (forms.kind_of_size octets.now) octets.now }
    ensures alive { IfOk result IsFlow }
{
    match read_identifier(kind_of_size(octets), octets) {
        Ok(flow) => Ok(flow),
        Err(_) => Err(TraceRefusal::BadFlow),
    }
}

/// A flow's identifier in hexadecimal. Refuses `BadHex` and then `BadFlow`.
pub fn read_flow(alloc: Global, word: &[u8]) -> Result<FlowId, AuditFault>
    ensures flow { Tells (forms.read_flow word.now) result }
    ensures alive { IfOk result IsFlow }
{
    match read_hex(alloc, word)? {
        Some(octets) => Ok(flow_of(octets.as_slice())?),
        None => Err(AuditFault::Refused(TraceRefusal::BadHex)),
    }
}
