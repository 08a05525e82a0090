//! What a router asks of the engine of a port, and what opens one.

use branch_desk::{BranchDone, Desk};
use grant_table::GrantTable;
use ifmp_wire::Message;
use ipv4_packet::FlowId;
use net_types::{Addr, End, Instance, NodeId, OutOfMemory, PortNo};
use port_actions::Actions;
use port_labels::HeldLabel;
use port_model::Timers;
use std::alloc::Global;
use world_model::PortRange;

/// A protocol engine of IFMP for one interface (a port; RFC 1953): it takes what comes and answers
/// what it asks for in turn. Each call is a rule of `port_model`.
pub trait PortEngine {
    ghost use Rattle.std.specs.Prelude.{◌≡◌, ◌≢◌, ◌≤◌, ◌+◌, ◌==◌, ℕ, [], length, option_map, slice_get, true, None, Some, IfSome, IsTrue, OnOk};
    ghost use Rattle.net_types.specs.Label.{is_label_number};
    ghost use Rattle.keyed_lists.specs.Keyed.{at};
    ghost use Rattle.port_labels.specs.Read.{label_of};
    ghost use Rattle.ifmp_wire.specs.Message.{InRange};
    ghost use Rattle.ipv4_packet.specs.Packet.{IsPacket};
    ghost use Rattle.port_model.specs.Answers.{done as answer_done};
    ghost use Rattle.port_model.specs.Counting.{counts, used};
    ghost use Rattle.port_model.specs.Grants.{Grant, grant_label};
    ghost use Rattle.port_model.specs.Hearing.{hears};
    ghost use Rattle.port_model.specs.Joins.{given_back, joined, lent, parted};
    ghost use Rattle.port_model.specs.Port.{label_at, labels_of};
    ghost use Rattle.port_model.specs.Resets.{cleared, resets, restarts};
    ghost use Rattle.port_model.specs.Saying.{is_spent};
    ghost use Rattle.port_model.specs.Ticks.{ticks};
    ghost use Rattle.world_model.specs.Meeting.{is_clearing};
    ghost use Rattle.port_state.specs.Engine.{flow_at};
    ghost use Rattle.controller_gsmp.specs.Client.{PortEnd};
    ghost use Rattle.controller_router.specs.Engine.{CanBeDone, HasDone, IsFree, IsReleased, IsSentUnder, begun};

    // What stays the same of the port, and the port.
    ghost seen: { Self → PortEnd };

    /// Its number.
    fn port(&self) -> PortNo
        ensures { result ≡ (seen self.now).setup.port };

    /// A packet has come on the default channel: it is counted, and a long flow gets a label.
    fn on_packet(
        &mut self,
        packet: &[u8],
        desk: &Desk,
        out: &mut Actions,
    ) -> Result<(), OutOfMemory>
        requires { IsPacket packet.now }
        ensures setup { (seen self.new).setup ≡ (seen self.old).setup }
        ensures work { (n : ℕ) → OnOk result (HasDone (seen self.old) (seen self.new) out.new n (counts (seen self.old).setup desk.now (begun (seen self.old).port out.old n) packet.now)) };

    /// A message has come in a packet from `source`.
    fn on_message(
        &mut self,
        source: Addr,
        message: &Message,
        desk: &Desk,
        out: &mut Actions,
    ) -> Result<(), OutOfMemory>
        requires { InRange message.now }
        ensures setup { (seen self.new).setup ≡ (seen self.old).setup }
        ensures work { (n : ℕ) → OnOk result (HasDone (seen self.old) (seen self.new) out.new n (hears (seen self.old).setup desk.now (begun (seen self.old).port out.old n) source message.now)) };

    /// A tick goes by.
    fn on_tick(&mut self, desk: &Desk, out: &mut Actions) -> Result<(), OutOfMemory>
        ensures setup { (seen self.new).setup ≡ (seen self.old).setup }
        ensures work { (n : ℕ) → OnOk result (HasDone (seen self.old) (seen self.new) out.new n (ticks (seen self.old).setup desk.now (begun (seen self.old).port out.old n))) };

    /// A request on an input of the port is done, or one on the control link whose output is at the port.
    fn on_done(&mut self, done: &BranchDone, out: &mut Actions) -> Result<(), OutOfMemory>
        requires { CanBeDone done.now.request }
        ensures setup { (seen self.new).setup ≡ (seen self.old).setup }
        ensures work { (n : ℕ) → OnOk result (HasDone (seen self.old) (seen self.new) out.new n (answer_done (seen self.old).setup (begun (seen self.old).port out.old n) done.now.request)) };

    /// The port begins anew in Clearing, under the instance `own`, and asks what follows from it.
    fn reset(&mut self, own: Instance, out: &mut Actions) -> Result<(), OutOfMemory>
        requires { 1 ≤ own.0 }
        ensures setup { (seen self.new).setup ≡ (seen self.old).setup }
        ensures work { (n : ℕ) → own ≡ record { 0 = n + 1 } → OnOk result (HasDone (seen self.old) (seen self.new) out.new (n + 1) (resets (seen self.old).setup (begun (seen self.old).port out.old n))) };

    /// The port begins anew in Clearing, under the instance `own`, with its controller: its session and
    /// its grants end, and nothing is asked.
    fn restart(&mut self, own: Instance, out: &mut Actions) -> Result<(), OutOfMemory>
        requires { 1 ≤ own.0 }
        ensures setup { (seen self.new).setup ≡ (seen self.old).setup }
        ensures work { (n : ℕ) → own ≡ record { 0 = n + 1 } → OnOk result (HasDone (seen self.old) (seen self.new) out.new (n + 1) (restarts (seen self.old).setup (begun (seen self.old).port out.old n))) };

    /// The flow that the label of this number is bound to. None exactly where it isn't bound.
    fn flow_of(&self, label: u16) -> Option<FlowId>
        ensures { result ≡ flow_at (seen self.now).port label };

    /// A packet has come on the channel of a label that is bound.
    fn used(&mut self, label: u16)
        requires { flow_at (seen self.old).port label ≢ None }
        ensures setup { (seen self.new).setup ≡ (seen self.old).setup }
        ensures port { (n : ℕ) → (seen self.new).port ≡ (used (begun (seen self.old).port [] n) label).port };

    /// A label that is offered and isn't joined is joined to an output.
    fn joined(&mut self, label: u16, output: End)
        requires { IsFree (seen self.old).port label }
        ensures setup { (seen self.new).setup ≡ (seen self.old).setup }
        ensures port { (n : ℕ) → (seen self.new).port ≡ (joined (begun (seen self.old).port [] n) label output).port };

    /// A label, if it is held, isn't joined any more.
    fn parted(&mut self, label: u16)
        ensures setup { (seen self.new).setup ≡ (seen self.old).setup }
        ensures port { (n : ℕ) → (seen self.new).port ≡ (parted (begun (seen self.old).port [] n) label).port };

    /// A grant under which the router sends is lent to an input.
    fn lend(&mut self, label: u16, input: End)
        requires { IsSentUnder (seen self.old).port label }
        ensures setup { (seen self.new).setup ≡ (seen self.old).setup }
        ensures port { (n : ℕ) (grant : Grant) → at grant_label label (seen self.old).port.grants ≡ Some grant → (seen self.new).port ≡ (lent (begun (seen self.old).port [] n) grant input).port };

    /// The input of a lent grant is released: the grant is the router's again, or where it is leaving it
    /// ends, and its acknowledgement is said if it is owed.
    fn back(&mut self, label: u16, done: &BranchDone, out: &mut Actions) -> Result<(), OutOfMemory>
        requires { IsReleased done.now.request (seen self.old).port label }
        ensures setup { (seen self.new).setup ≡ (seen self.old).setup }
        ensures work { (n : ℕ) (grant : Grant) → at grant_label label (seen self.old).port.grants ≡ Some grant → OnOk result (HasDone (seen self.old) (seen self.new) out.new n (given_back (begun (seen self.old).port out.old n) grant)) };

    /// The label at an index among those that it holds, the lowest first, counted from 0. None exactly
    /// where the index is at or above their count.
    fn held_at(&self, place: usize) -> Option<HeldLabel>
        ensures label { option_map label_of result ≡ slice_get (labels_of (seen self.now).port) place }
        ensures number { IfSome result (λ label. IsTrue (is_label_number label.number)) }
        ensures held { IfSome result (λ label. label_at (seen self.now).port label.number ≡ Some (label_of label)) };

    /// How many REDIRECTs it has accepted since its opening, 18,446,744,073,709,551,615 at most.
    fn redirects(&self) -> u64
        ensures { result ≡ (seen self.now).port.redirects };

    /// Whether its adjacency is in Clearing.
    fn is_clearing(&self) -> bool
        ensures { result ≡ is_clearing (seen self.now).port.adjacency.state };

    /// Whether the numbers of its session are spent.
    fn is_spent(&self) -> bool
        ensures { result ≡ is_spent (seen self.now).port.session };

    /// The labels under which it may send.
    fn grants(&self) -> &GrantTable
        ensures { result.now.grants ≡ (seen self.now).port.grants };

    /// Whether it has no grant.
    fn has_no_grant(&self) -> bool
        ensures { result ≡ (length (seen self.now).port.grants == 0) };

    /// No branch of the switch is left of what its peer knew, and it may greet its peer. It is in
    /// Clearing.
    fn cleared(&mut self)
        requires { is_clearing (seen self.old).port.adjacency.state ≡ true }
        ensures setup { (seen self.new).setup ≡ (seen self.old).setup }
        ensures port { (seen self.new).port ≡ cleared (seen self.old).port };

    /// Gives the port up.
    fn abandon(self);
}

/// A constructor of IFMP engines (RFC 1953): an engine that can be opened for a port.
pub trait OpenEngine: PortEngine {
    ghost use Rattle.std.specs.Prelude.{◌≡◌, ◌≤◌, ◌+◌, ℕ, IfOk, IsTrue};
    ghost use Rattle.net_types.specs.Label.{is_label_number};
    ghost use Rattle.port_model.specs.Setup.{Policy as Rule};
    ghost use Rattle.port_state.specs.Engine.{AreTimes};
    ghost use Rattle.world_model.specs.Opening.{setup_of};
    ghost use Rattle.controller_router.specs.Engine.{opened_end};

    /// The policy of a port: which flows are offered a label, and which keep it.
    type Policy: Copy;

    // What a policy does.
    ghost meaning: { Self.Policy → Rule };

    /// A port of a node in Clearing, under the instance `own`: no session, and no grant. Its labels are
    /// those of the range.
    fn open(
        alloc: Global,
        node: NodeId,
        address: Addr,
        range: PortRange,
        timers: Timers,
        policy: Self::Policy,
        own: Instance,
    ) -> Result<Self, OutOfMemory>
        requires port { (1 ≤ range.port.0) × (range.port.0 ≤ 8) }
        requires least { IsTrue (is_label_number range.lo) }
        requires greatest { IsTrue (is_label_number range.hi) }
        requires order { range.lo ≤ range.hi }
        requires times { AreTimes timers }
        ensures { (n : ℕ) → own ≡ record { 0 = n + 1 } → IfOk result (λ engine. Self.seen engine ≡ opened_end (setup_of node address timers (meaning policy) range) n) };
}
