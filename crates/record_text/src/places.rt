//! Labels, names of nodes, ports and queues, written as their topology wants.

ghost use Rattle.std.specs.Prelude.{◌≡◌, ◌++◌, OnOk, OnErr};
ghost use Rattle.lab_text.specs.Kept.{BreaksOff};
ghost use Rattle.script_model.specs.Texts.{label_text, name_of, port_text, end_text, place_text};

use crate::values::write_channel;
use lab_text::Text;
use net_types::{NodeId, OutOfMemory, Place, PortNo, numbered_channel};
use topology::Topology;

/// Appends a label by its number: the number, or in version 2 its VPI, a slash and its VCI.
pub fn write_label(out: &mut Text, names: &Topology, label: u16) -> Result<(), OutOfMemory>
    ensures ok { OnOk result (out.new ≡ out.old ++ label_text names.now label) }
    ensures err { OnErr result (BreaksOff out.old (out.old ++ label_text names.now label) out.new) }
{
    if names.version() == 2 {
        write_channel(out, numbered_channel(label))
    } else {
        out.number(u64::from(label))
    }
}

/// Appends a node's name; nothing where there is no such node. Where memory is wanting the text stays
/// as it was.
pub fn write_name(out: &mut Text, names: &Topology, node: NodeId) -> Result<(), OutOfMemory>
    ensures ok { OnOk result (out.new ≡ out.old ++ name_of names.now node) }
    ensures err { OnErr result (out.new ≡ out.old) }
{
    out.octets(names.name(node))
}

/// Appends a port's number. Where memory is wanting the text stays as it was.
pub fn write_port(out: &mut Text, port: PortNo) -> Result<(), OutOfMemory>
    ensures ok { OnOk result (out.new ≡ out.old ++ port_text port) }
    ensures err { OnErr result (out.new ≡ out.old) }
{
    out.number(u64::from(port.0))
}

/// Appends a port of the node of this name: the name, a colon and the port's number.
pub fn write_end(out: &mut Text, name: &[u8], port: PortNo) -> Result<(), OutOfMemory>
    ensures ok { OnOk result (out.new ≡ out.old ++ end_text name.now port) }
    ensures err { OnErr result (BreaksOff out.old (out.old ++ end_text name.now port) out.new) }
{
    out.octets(name)?;
    out.text(":")?;
    write_port(out, port)
}

/// Appends a queue: its node's name and a colon, and then `c` from the controller to its switch, 0
/// from port 0 of the switch, and else the port's number.
pub fn write_place(out: &mut Text, names: &Topology, place: Place) -> Result<(), OutOfMemory>
    ensures ok { OnOk result (out.new ≡ out.old ++ place_text names.now place) }
    ensures err { OnErr result (BreaksOff out.old (out.old ++ place_text names.now place) out.new) }
{
    match place {
        Place::Down(node) => {
            write_name(out, names, node)?;
            out.text(":c")
        }
        Place::Up(node) => {
            write_name(out, names, node)?;
            out.text(":0")
        }
        Place::Out(node, port) => write_end(out, names.name(node), port),
    }
}
