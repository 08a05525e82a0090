//! Words and texts of many lines.

ghost use Rattle.std.specs.Prelude.{◌≡◌, ◌++◌, OnOk, OnErr, codes, decimal};
ghost use Rattle.lab_text.specs.Kept.{BreaksOff};
ghost use Rattle.script_model.specs.Texts.{address_text, name_of};
ghost use Rattle.show_text.specs.Words.{at_text, flow_text, joined_text, labelled_text, slots_text, socket_text, state_text};

use adjacency_table::State;
use ipv4_packet::FlowId;
use lab_text::Text;
use net_types::{Addr, Channel, End, NodeId, OutOfMemory, PortNo};
use record_text::{write_address, write_channel, write_name, write_port};
use topology::Topology;

/// The word of a state of an adjacency.
pub(crate) fn state_word(state: State) -> &'static str
    ensures { result.now ≡ state_text state }
{
    match state {
        State::Clearing => "Clearing",
        State::SynSent => "SynSent",
        State::SynRcvd => "SynRcvd",
        State::Estab => "Estab",
    }
}

/// Appends an address and a port of its host.
fn write_socket(out: &mut Text, address: Addr, port: u16) -> Result<(), OutOfMemory>
    ensures ok { OnOk result (out.new ≡ out.old ++ socket_text address port) }
    ensures err { OnErr result (BreaksOff out.old (out.old ++ socket_text address port) out.new) }
{
    write_address(out, address)?;
    out.text(":")?;
    out.number(u64::from(port))
}

/// Appends a number behind what it is.
pub(crate) fn write_number(out: &mut Text, words: &str, number: u64) -> Result<(), OutOfMemory>
    ensures ok { OnOk result (out.new ≡ out.old ++ (words.now ++ decimal number)) }
    ensures err { OnErr result (BreaksOff out.old (out.old ++ (words.now ++ decimal number)) out.new) }
{
    out.text(words)?;
    out.number(number)
}

/// Appends what a line of a node begins with: a word with a space behind it, and the node's name with
/// one too.
pub(crate) fn write_head(
    out: &mut Text,
    word: &str,
    names: &Topology,
    node: NodeId,
) -> Result<(), OutOfMemory>
    ensures ok { OnOk result (out.new ≡ out.old ++ (word.now ++ (name_of names.now node ++ codes " "))) }
    ensures err { OnErr result (BreaksOff out.old (out.old ++ (word.now ++ (name_of names.now node ++ codes " "))) out.new) }
{
    out.text(word)?;
    write_name(out, names, node)?;
    out.text(" ")
}

/// Appends the protocol, the Type of Service and the Time To Live of a flow of type 1.
fn write_service(out: &mut Text, protocol: u8, tos: u8, ttl: u8) -> Result<(), OutOfMemory>
    ensures ok { OnOk result (out.new ≡ out.old ++ (codes " protocol " ++ (decimal protocol ++ (codes " tos " ++ (decimal tos ++ (codes " ttl " ++ decimal ttl)))))) }
    ensures err { OnErr result (BreaksOff out.old (out.old ++ (codes " protocol " ++ (decimal protocol ++ (codes " tos " ++ (decimal tos ++ (codes " ttl " ++ decimal ttl)))))) out.new) }
{
    write_number(out, " protocol ", u64::from(protocol))?;
    write_number(out, " tos ", u64::from(tos))?;
    write_number(out, " ttl ", u64::from(ttl))
}

/// Appends a flow of type 1, between two sockets: each an address and a port of its host.
fn write_connection(
    out: &mut Text,
    source: (Addr, u16),
    destination: (Addr, u16),
    protocol: u8,
    tos: u8,
    ttl: u8,
) -> Result<(), OutOfMemory>
    ensures ok { OnOk result (out.new ≡ out.old ++ (socket_text source.0 source.1 ++ (codes " > " ++ (socket_text destination.0 destination.1 ++ (codes " protocol " ++ (decimal protocol ++ (codes " tos " ++ (decimal tos ++ (codes " ttl " ++ decimal ttl))))))))) }
    ensures err { OnErr result (BreaksOff out.old (out.old ++ (socket_text source.0 source.1 ++ (codes " > " ++ (socket_text destination.0 destination.1 ++ (codes " protocol " ++ (decimal protocol ++ (codes " tos " ++ (decimal tos ++ (codes " ttl " ++ decimal ttl))))))))) out.new) }
{
    write_socket(out, source.0, source.1)?;
    out.text(" > ")?;
    write_socket(out, destination.0, destination.1)?;
    write_service(out, protocol, tos, ttl)
}

/// Appends a flow of type 2, between two hosts.
fn write_hosts(out: &mut Text, source: Addr, destination: Addr, ttl: u8) -> Result<(), OutOfMemory>
    ensures ok { OnOk result (out.new ≡ out.old ++ (address_text source ++ (codes " > " ++ (address_text destination ++ (codes " ttl " ++ decimal ttl))))) }
    ensures err { OnErr result (BreaksOff out.old (out.old ++ (address_text source ++ (codes " > " ++ (address_text destination ++ (codes " ttl " ++ decimal ttl))))) out.new) }
{
    write_address(out, source)?;
    out.text(" > ")?;
    write_address(out, destination)?;
    write_number(out, " ttl ", u64::from(ttl))
}

/// Appends a flow.
pub(crate) fn write_flow(out: &mut Text, flow: &FlowId) -> Result<(), OutOfMemory>
    ensures ok { OnOk result (out.new ≡ out.old ++ flow_text flow.now) }
    ensures err { OnErr result (BreaksOff out.old (out.old ++ flow_text flow.now) out.new) }
{
    match *flow {
        FlowId::One {
            tos,
            ttl,
            protocol,
            source,
            destination,
            source_port,
            destination_port,
        } => {
            let source = (source, source_port);
            let destination = (destination, destination_port);
            write_connection(out, source, destination, protocol, tos, ttl)
        }
        FlowId::Two {
            ttl,
            source,
            destination,
        } => write_hosts(out, source, destination, ttl),
    }
}

/// Appends a port of a node: the node's name, a space and the port's number.
pub(crate) fn write_at(
    out: &mut Text,
    names: &Topology,
    node: NodeId,
    port: PortNo,
) -> Result<(), OutOfMemory>
    ensures ok { OnOk result (out.new ≡ out.old ++ at_text names.now node port) }
    ensures err { OnErr result (BreaksOff out.old (out.old ++ at_text names.now node port) out.new) }
{
    write_name(out, names, node)?;
    out.text(" ")?;
    write_port(out, port)
}

/// Appends a label by its channel: its VCI, or in version 2 its VPI, a slash and its VCI.
fn write_labelled(out: &mut Text, names: &Topology, channel: Channel) -> Result<(), OutOfMemory>
    ensures ok { OnOk result (out.new ≡ out.old ++ labelled_text names.now channel) }
    ensures err { OnErr result (BreaksOff out.old (out.old ++ labelled_text names.now channel) out.new) }
{
    if names.version() == 2 {
        write_channel(out, channel)
    } else {
        out.number(u64::from(channel.vci))
    }
}

/// Appends a label of a port behind how it is joined to another; nothing where there is none.
pub(crate) fn write_joined(
    out: &mut Text,
    names: &Topology,
    how: &str,
    end: Option<End>,
) -> Result<(), OutOfMemory>
    ensures ok { OnOk result (out.new ≡ out.old ++ joined_text names.now how.now end) }
    ensures err { OnErr result (BreaksOff out.old (out.old ++ joined_text names.now how.now end) out.new) }
{
    match end {
        Some(end) => {
            out.text(how)?;
            write_port(out, end.port)?;
            out.text(" ")?;
            write_labelled(out, names, end.channel)
        }
        None => Ok(()),
    }
}

/// Appends how many slots are free, and how many there are.
pub(crate) fn write_slots(out: &mut Text, free: usize, cells: usize) -> Result<(), OutOfMemory>
    ensures ok { OnOk result (out.new ≡ out.old ++ slots_text free cells) }
    ensures err { OnErr result (BreaksOff out.old (out.old ++ slots_text free cells) out.new) }
{
    write_number(out, " free ", free as u64)?;
    write_number(out, " of ", cells as u64)
}
