//! What ties a plan to the rule of a controller, as a function that does nothing: each clause is a law
//! of the definitions.

ghost use Rattle.std.specs.Prelude.{◌≡◌, true, None, Some, option_map};
ghost use Rattle.net_types.specs.declared.channel.End.{End as EndValue};
ghost use Rattle.net_types.specs.declared.node.PortNo.{PortNo as PortValue};
ghost use Rattle.ipv4_packet.specs.declared.flow.FlowId.{FlowId as FlowValue};
ghost use Rattle.world_model.specs.Controller.{Controller, Linked, linked_at};
ghost use Rattle.world_model.specs.Joins.{join_for};
ghost use Rattle.cut_through.specs.Plan.{join_at, leads_to, onward_grant, planned, shown, way_of};

/// The join that a controller makes of an input and a flow is to the grant whose label is planned at the
/// linked port of the flow's route, and so it is the plan with the grants of that port; it makes none
/// where the flow has no such port, or it isn't linked.
pub fn plans_are_the_controllers()
    ensures grants { (c : Controller) (input : EndValue) (flow : FlowValue) (port : PortValue) (linked : Linked) → way_of c.table flow ≡ Some port → linked_at c port ≡ Some linked → join_for c input flow ≡ option_map (join_at input port) (onward_grant linked.port.grants flow) }
    ensures joins { (c : Controller) (input : EndValue) (flow : FlowValue) (port : PortValue) (linked : Linked) → leads_to (way_of c.table flow) port ≡ true → linked_at c port ≡ Some linked → option_map shown (join_for c input flow) ≡ planned input flow c.table port linked.port.grants }
    ensures unlinked { (c : Controller) (input : EndValue) (flow : FlowValue) (port : PortValue) → leads_to (way_of c.table flow) port ≡ true → linked_at c port ≡ None → join_for c input flow ≡ None }
    ensures none { (c : Controller) (input : EndValue) (flow : FlowValue) → way_of c.table flow ≡ None → join_for c input flow ≡ None }
{}
