//! Ports that show what they hold.

ghost use Rattle.std.specs.Prelude.{◌≡◌, ◌++◌, OnOk};
ghost use Rattle.show_text.specs.Port.{port_line, port_lines};

use crate::grants::write_grants;
use crate::labels::{count_labels, write_held, write_session};
use controller_router::OpenEngine;
use flow_classifier::Policy;
use lab_text::Text;
use net_types::{NodeId, OutOfMemory};
use port_router::RouterPort;
use redirect_state::Link;
use show_text::write_port;
use topology::Topology;

/// An IFMP engine of an interface (a port) that shows what it holds. This project's own.
pub trait ShownEngine: OpenEngine {
    ghost use Rattle.std.specs.Prelude.{◌≡◌, ◌++◌, length, OnOk};
    ghost use Rattle.port_model.specs.Port.{labels_of};
    ghost use Rattle.show_text.specs.Port.{port_lines};

    /// Appends the lines of the port, of this node: its own, and those of its counted flows, its labels and
    /// its grants.
    fn write(&self, out: &mut Text, names: &Topology, node: NodeId) -> Result<(), OutOfMemory>
        ensures { OnOk result (out.new ≡ out.old ++ port_lines names.now node (Self.seen self.now).setup.port (Self.seen self.now).port) };

    /// How many labels it holds.
    fn held(&self) -> usize
        ensures { result ≡ length (labels_of (Self.seen self.now).port) };
}

/// Appends the line of a port of this node.
fn write_port_line<P: Policy>(
    out: &mut Text,
    names: &Topology,
    node: NodeId,
    link: &Link<P>,
) -> Result<(), OutOfMemory>
    ensures { OnOk result (out.new ≡ out.old ++ port_line names.now node link.now.fixed.port link.now.port) }
{
    write_port(out, names, node, link.port(), link.state())?;
    write_session(out, link.peer_address(), link.session())?;
    out.text("\n")
}

/// Appends all lines of a port of this node.
fn write_link<P: Policy>(
    out: &mut Text,
    names: &Topology,
    node: NodeId,
    link: &Link<P>,
) -> Result<(), OutOfMemory>
    ensures { OnOk result (out.new ≡ out.old ++ port_lines names.now node link.now.fixed.port link.now.port) }
{
    write_port_line(out, names, node, link)?;
    write_held(out, names, node, link.port(), link.session())?;
    write_grants(out, names, node, link.port(), link.grants())
}

impl<P: Policy + Copy> ShownEngine for RouterPort<P> {
    fn write(&self, out: &mut Text, names: &Topology, node: NodeId) -> Result<(), OutOfMemory> {
        write_link(out, names, node, self.link())
    }

    fn held(&self) -> usize {
        count_labels(self.link().session())
    }
}
