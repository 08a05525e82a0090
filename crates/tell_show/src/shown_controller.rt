//! Controllers that show what they hold.

ghost use Rattle.std.specs.Prelude.{◌≡◌, ◌++◌, ◌<◌, length, slice_get, OnOk, Some};
ghost use Rattle.std.specs.List.{flat_map};
ghost use Rattle.controller.specs.Controlling.{controller_of};
ghost use Rattle.world_model.specs.Conditions.{IsNode};
ghost use Rattle.world_model.specs.Controller.{Linked, free_slots};
ghost use Rattle.show_text.specs.Node.{node_line, request_lines, route_lines, waiting_lines};
ghost use Rattle.show_text.specs.Shown.{linked_lines};

use crate::desk::write_requests;
use crate::engine::ShownEngine;
use crate::routes::{write_changes, write_routes};
use controller::Controller;
use lab_text::Text;
use net_types::{NodeId, OutOfMemory, PortNo};
use show_text::write_node;
use topology::Topology;
use world::NodeController;

/// A controller of an IP switch that shows what it holds. This project's own.
pub trait ShownController: NodeController {
    ghost use Rattle.std.specs.Prelude.{◌≡◌, ◌++◌, ◌<◌, length, min, slice_get, OnOk, Some};
    ghost use Rattle.std.specs.List.{sum_by};
    ghost use Rattle.port_model.specs.Port.{labels_of};
    ghost use Rattle.port_model.specs.Redirection.{greatest_tally};
    ghost use Rattle.world_model.specs.Conditions.{IsNode};
    ghost use Rattle.world_model.specs.Controller.{ports_of};
    ghost use Rattle.show_text.specs.Shown.{controller_lines};

    /// Appends the lines of the controller, which is that of this node.
    fn write(&self, out: &mut Text, names: &Topology, node: NodeId) -> Result<(), OutOfMemory>
        requires { IsNode names.now node }
        ensures { (Self.seen self.now).node ≡ node → OnOk result (out.new ≡ out.old ++ controller_lines names.now (Self.seen self.now)) };

    /// How many ports are linked.
    fn ports(&self) -> usize
        ensures { result ≡ length (ports_of (Self.seen self.now)) };

    /// The linked port at an index, in ascending order, from 0.
    fn port_at(&self, place: usize) -> PortNo
        requires { place < length (ports_of (Self.seen self.now)) }
        ensures { slice_get (ports_of (Self.seen self.now)) place ≡ Some result };

    /// How many labels its ports hold; once at its type's end it stays there.
    fn labels(&self) -> u64
        ensures { result ≡ min greatest_tally (sum_by (λ linked. length (labels_of linked.port)) (Self.seen self.now).ports) };

    /// How many grants its ports have; once at its type's end it stays there.
    fn grants(&self) -> u64
        ensures { result ≡ min greatest_tally (sum_by (λ linked. length linked.port.grants) (Self.seen self.now).ports) };
}

/// Appends the lines of the linked port at an index, from 0.
fn write_port_at<E: ShownEngine>(
    out: &mut Text,
    names: &Topology,
    node: NodeId,
    controller: &Controller<E>,
    place: usize,
) -> Result<(), OutOfMemory>
    requires { place < length (controller_of E.seen controller.now).ports }
    ensures { (linked : Linked) → slice_get (controller_of E.seen controller.now).ports place ≡ Some linked → OnOk result (out.new ≡ out.old ++ linked_lines names.now node linked) }
{
    controller.link_at(place).write(out, names, node)
}

/// Appends the lines of all linked ports, ascending.
fn write_ports<E: ShownEngine>(
    out: &mut Text,
    names: &Topology,
    node: NodeId,
    controller: &Controller<E>,
) -> Result<(), OutOfMemory>
    ensures { OnOk result (out.new ≡ out.old ++ flat_map (linked_lines names.now node) (controller_of E.seen controller.now).ports) }
{
    for place in 0..controller.ports() {
        write_port_at(out, names, node, controller, place)?;
    }
    Ok(())
}

/// Appends the line of a node.
fn write_node_line<E: ShownEngine>(
    out: &mut Text,
    names: &Topology,
    node: NodeId,
    controller: &Controller<E>,
) -> Result<(), OutOfMemory>
    requires { IsNode names.now node }
    ensures { OnOk result (out.new ≡ out.old ++ node_line names.now node (controller_of E.seen controller.now).adjacency.state (free_slots (controller_of E.seen controller.now)) (controller_of E.seen controller.now).cells) }
{
    let region = controller.region();
    write_node(
        out,
        names,
        node,
        controller.state(),
        region.free(),
        region.size(),
    )
}

/// Appends the lines of the routes, the changes that wait and the requests that stand.
fn write_tables<E: ShownEngine>(
    out: &mut Text,
    names: &Topology,
    node: NodeId,
    controller: &Controller<E>,
) -> Result<(), OutOfMemory>
    ensures { OnOk result (out.new ≡ out.old ++ (route_lines names.now node (controller_of E.seen controller.now).table ++ (waiting_lines names.now node (controller_of E.seen controller.now).is_begun (controller_of E.seen controller.now).waiting ++ request_lines names.now node (controller_of E.seen controller.now).desk))) }
{
    let routes = controller.routes();
    write_routes(out, names, node, routes.table().routes())?;
    write_changes(out, names, node, routes)?;
    write_requests(out, names, node, controller.desk())
}

impl<E: ShownEngine> ShownController for Controller<E> {
    fn write(&self, out: &mut Text, names: &Topology, node: NodeId) -> Result<(), OutOfMemory> {
        write_node_line(out, names, node, self)?;
        write_tables(out, names, node, self)?;
        write_ports(out, names, node, self)
    }

    fn ports(&self) -> usize {
        Controller::ports(self)
    }

    fn port_at(&self, place: usize) -> PortNo {
        self.link_at(place).port()
    }

    fn labels(&self) -> u64 {
        let mut labels: u64 = 0;
        for place in 0..Controller::ports(self) {
            labels = labels.saturating_add(self.link_at(place).held() as u64);
        }
        labels
    }

    fn grants(&self) -> u64 {
        let mut grants: u64 = 0;
        for place in 0..Controller::ports(self) {
            grants = grants.saturating_add(self.link_at(place).grants().len() as u64);
        }
        grants
    }
}
