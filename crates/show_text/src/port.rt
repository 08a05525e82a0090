//! A port and its numbers.

ghost use Rattle.std.specs.Prelude.{◌≡◌, ◌++◌, OnOk, OnErr, codes};
ghost use Rattle.lab_text.specs.Kept.{BreaksOff};
ghost use Rattle.show_text.specs.Port.{numbers_text, peer_text, range_text};
ghost use Rattle.show_text.specs.Words.{at_text, state_text};

use crate::words::{state_word, write_at, write_number};
use adjacency_table::State;
use lab_text::Text;
use net_types::{Addr, Channel, NodeId, OutOfMemory, PortNo};
use record_text::{write_address, write_channel};
use topology::Topology;

/// Appends what the line of a port begins with: the port, and the state of its side of the adjacency with
/// its peer.
pub fn write_port(
    out: &mut Text,
    names: &Topology,
    node: NodeId,
    port: PortNo,
    state: State,
) -> Result<(), OutOfMemory>
    ensures ok { OnOk result (out.new ≡ out.old ++ (codes "port " ++ (at_text names.now node port ++ (codes " " ++ state_text state)))) }
    ensures err { OnErr result (BreaksOff out.old (out.old ++ (codes "port " ++ (at_text names.now node port ++ (codes " " ++ state_text state)))) out.new) }
{
    out.text("port ")?;
    write_at(out, names, node, port)?;
    out.text(" ")?;
    out.text(state_word(state))
}

/// Appends the address of the peer of a port, where one is stored.
pub fn write_peer(out: &mut Text, peer: Option<Addr>) -> Result<(), OutOfMemory>
    ensures ok { OnOk result (out.new ≡ out.old ++ peer_text peer) }
    ensures err { OnErr result (BreaksOff out.old (out.old ++ peer_text peer) out.new) }
{
    match peer {
        Some(address) => {
            out.text(" peer ")?;
            write_address(out, address)
        }
        None => Ok(()),
    }
}

/// Appends the next own number of a port, the number that it expects next, and the one that its peer is
/// known to expect.
pub fn write_numbers(
    out: &mut Text,
    number: u64,
    expected: u32,
    known: u32,
) -> Result<(), OutOfMemory>
    ensures ok { OnOk result (out.new ≡ out.old ++ numbers_text number expected known) }
    ensures err { OnErr result (BreaksOff out.old (out.old ++ numbers_text number expected known) out.new) }
{
    write_number(out, " number ", number)?;
    write_number(out, " expected ", u64::from(expected))?;
    write_number(out, " known ", u64::from(known))
}

/// Appends the two ends of the range to which the labels of a port were narrowed.
pub fn write_range(out: &mut Text, least: Channel, greatest: Channel) -> Result<(), OutOfMemory>
    ensures ok { OnOk result (out.new ≡ out.old ++ range_text least greatest) }
    ensures err { OnErr result (BreaksOff out.old (out.old ++ range_text least greatest) out.new) }
{
    out.text(" labels ")?;
    write_channel(out, least)?;
    out.text(" ")?;
    write_channel(out, greatest)
}
