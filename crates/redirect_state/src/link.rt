//! The port.

ghost use Rattle.std.specs.Prelude.{◌≡◌, ◌≢◌, ◌≤◌, ◌+◌, ◌↔◌, ℕ, option_map, [], IsTrue, IsNone, IsSome, IfOk, IfSome, OnOk, None, Some};
ghost use Rattle.net_types.specs.Label.{is_label_number};
ghost use Rattle.adjacency_table.specs.Side.{fresh};
ghost use Rattle.ifmp_wire.specs.Message.{InRange};
ghost use Rattle.ipv4_packet.specs.Packet.{IsPacket};
ghost use Rattle.keyed_lists.specs.Keyed.{at};
ghost use Rattle.port_model.specs.Answers.{done as answer_done};
ghost use Rattle.port_model.specs.Counting.{counts, used};
ghost use Rattle.port_model.specs.Grants as grants;
ghost use Rattle.port_model.specs.Grants.{grant_label};
ghost use Rattle.port_model.specs.Hearing.{hears};
ghost use Rattle.port_model.specs.Joins.{given_back, joined, lent, parted};
ghost use Rattle.port_model.specs.Labels as labels;
ghost use Rattle.port_model.specs.Port.{Session as SessionValue, label_at};
ghost use Rattle.port_model.specs.Resets.{cleared, resets, restarts};
ghost use Rattle.port_model.specs.Saying.{is_spent};
ghost use Rattle.port_model.specs.Ticks.{ticks};
ghost use Rattle.port_state.specs.Engine.{AreTimes, IsBookOf, IsPoolOf, IsTableOf, flow_at, setup_of};
ghost use Rattle.port_saying.specs.Rules.{begun};
ghost use Rattle.redirect_state.specs.Calls.{CanBeDone, HasDone, is_released_by};

use crate::answers::carry_on;
use crate::counting::count_packet;
use crate::joins::give_back;
use crate::resets::{reset, restart};
use crate::ticks::tick;
use branch_desk::{BranchDone, Desk};
use flow_classifier::Policy;
use grant_table::GrantTable;
use ifmp_adjacency::State;
use ifmp_wire::Message;
use ipv4_packet::FlowId;
use label_pool::LabelPool;
use net_types::{Addr, End, Instance, NodeId, OutOfMemory, PortNo};
use port_actions::Actions;
use port_hearing::hear;
use port_labels::LabelBook;
use port_model::Timers;
use port_saying::done;
use port_session::Session;
use port_state::{PortSetup, PortState};
use std::alloc::Global;
use std::marker::Model;

/// The IFMP engine of a router's interface (a port of a controller; RFC 1953), with its policy. It
/// must be given up by [`Link::abandon`].
#[must_use]
pub struct Link<P: Policy> {
    state: PortState<P>,
}

impl<P: Policy> Model for Link<P> {
    ghost use Rattle.port_state.specs.Engine.{Engine};

    ghost Value = { Engine P };

    ghost view = { λ l. l.state };
}

impl<P: Policy + Drop> Link<P> {
    /// A port in Clearing, under the instance `own`: no session, and no grant. Its labels are those from
    /// `least` to `greatest`, by their numbers.
    pub fn open(
        alloc: Global,
        node: NodeId,
        port: PortNo,
        address: Addr,
        least: u16,
        greatest: u16,
        timers: Timers,
        policy: P,
        own: Instance,
    ) -> Result<Link<P>, OutOfMemory>
        requires port { (1 ≤ port.0) × (port.0 ≤ 8) }
        requires least { IsTrue (is_label_number least) }
        requires greatest { IsTrue (is_label_number greatest) }
        requires order { least ≤ greatest }
        requires times { AreTimes timers }
        ensures fixed { IfOk result (λ link. link.fixed ≡ record { node = node; port = port; address = address; least = least; greatest = greatest; timers = timers; policy = policy }) }
        ensures port { IfOk result (λ link. link.port ≡ record { adjacency = fresh State.Clearing (record { instance = own; address = address }); session = None; grants = []; redirects = 0 }) }
    {
        let setup = PortSetup {
            node,
            port,
            address,
            least,
            greatest,
            timers,
            policy,
        };
        let state = PortState::open(alloc, setup, own)?;
        Ok(Link { state })
    }

    /// Gives the port up.
    pub fn abandon(self) {
        let Link { state } = self;
        state.abandon();
    }
}

impl<P: Policy> Link<P> {
    /// A packet has come on the default channel: it is counted, and a long flow gets a label.
    pub fn on_packet(
        &mut self,
        packet: &[u8],
        desk: &Desk,
        out: &mut Actions,
    ) -> Result<(), OutOfMemory>
        requires { IsPacket packet.now }
        ensures fixed { self.new.fixed ≡ self.old.fixed }
        ensures work { (n : ℕ) → OnOk result (HasDone self.old self.new out.new n (counts (setup_of P.meaning self.old.fixed) desk.now (begun self.old.port out.old n) packet.now)) }
    {
        count_packet(&mut self.state, packet, desk, out)
    }

    /// A message has come in a packet from `source`.
    pub fn on_message(
        &mut self,
        source: Addr,
        message: &Message,
        desk: &Desk,
        out: &mut Actions,
    ) -> Result<(), OutOfMemory>
        requires { InRange message.now }
        ensures fixed { self.new.fixed ≡ self.old.fixed }
        ensures work { (n : ℕ) → OnOk result (HasDone self.old self.new out.new n (hears (setup_of P.meaning self.old.fixed) desk.now (begun self.old.port out.old n) source message.now)) }
    {
        done(hear(&mut self.state, source, message, desk, out))
    }

    /// A request on an input of the port is done, or one on the control link whose output is at the port.
    pub fn on_done(&mut self, done: &BranchDone, out: &mut Actions) -> Result<(), OutOfMemory>
        requires { CanBeDone done.now.request }
        ensures fixed { self.new.fixed ≡ self.old.fixed }
        ensures work { (n : ℕ) → OnOk result (HasDone self.old self.new out.new n (answer_done (setup_of P.meaning self.old.fixed) (begun self.old.port out.old n) done.now.request)) }
    {
        port_saying::done(carry_on(&mut self.state, done, out))
    }

    /// A tick goes by.
    pub fn on_tick(&mut self, desk: &Desk, out: &mut Actions) -> Result<(), OutOfMemory>
        ensures fixed { self.new.fixed ≡ self.old.fixed }
        ensures work { (n : ℕ) → OnOk result (HasDone self.old self.new out.new n (ticks (setup_of P.meaning self.old.fixed) desk.now (begun self.old.port out.old n))) }
    {
        done(tick(&mut self.state, desk, out))
    }

    /// The port begins anew in Clearing, under the instance `own`: its session ends, the requests for
    /// branches of the grants that end are withdrawn, the joins to its grants are taken back, and Delete
    /// All of it is asked. Grants that are lent stay until their inputs are released.
    pub fn reset(&mut self, own: Instance, out: &mut Actions) -> Result<(), OutOfMemory>
        requires { 1 ≤ own.0 }
        ensures fixed { self.new.fixed ≡ self.old.fixed }
        ensures work { (n : ℕ) → own ≡ record { 0 = n + 1 } → OnOk result (HasDone self.old self.new out.new (n + 1) (resets (setup_of P.meaning self.old.fixed) (begun self.old.port out.old n))) }
    {
        reset(&mut self.state, own, out)
    }

    /// The port begins anew in Clearing, under the instance `own`, with its controller: its session and
    /// its grants end, and nothing is asked.
    pub fn restart(&mut self, own: Instance, out: &mut Actions) -> Result<(), OutOfMemory>
        requires { 1 ≤ own.0 }
        ensures fixed { self.new.fixed ≡ self.old.fixed }
        ensures work { (n : ℕ) → own ≡ record { 0 = n + 1 } → OnOk result (HasDone self.old self.new out.new (n + 1) (restarts (setup_of P.meaning self.old.fixed) (begun self.old.port out.old n))) }
    {
        restart(&mut self.state, own, out)
    }

    /// No branch of the switch is left of what its peer knew, and it may greet its peer. It is in Clearing.
    pub fn cleared(&mut self)
        requires { self.old.port.adjacency.state ≡ State.Clearing }
        ensures fixed { self.new.fixed ≡ self.old.fixed }
        ensures port { self.new.port ≡ cleared self.old.port }
    {
        self.state.cleared();
    }

    /// An offered label that isn't joined is joined to an output.
    pub fn joined(&mut self, vci: u16, output: End)
        requires { (label : labels.Label) × (label_at self.old.port vci ≡ Some label) × (label.state ≡ labels.Offered) × (label.join ≡ None) }
        ensures fixed { self.new.fixed ≡ self.old.fixed }
        ensures port { (n : ℕ) → self.new.port ≡ (joined (begun self.old.port [] n) vci output).port }
    {
        self.state.join(vci, output);
    }

    /// A joined label isn't joined any more.
    pub fn parted(&mut self, vci: u16)
        requires { (label : labels.Label) × (label_at self.old.port vci ≡ Some label) × IsSome label.join }
        ensures fixed { self.new.fixed ≡ self.old.fixed }
        ensures port { (n : ℕ) → self.new.port ≡ (parted (begun self.old.port [] n) vci).port }
    {
        self.state.part(vci);
    }

    /// A grant under which the controller sends is lent to an input.
    pub fn lend(&mut self, vci: u16, input: End)
        requires { (grant : grants.Grant) × (at grant_label vci self.old.port.grants ≡ Some grant) × (grant.state ≡ grants.ByController) }
        ensures fixed { self.new.fixed ≡ self.old.fixed }
        ensures port { (n : ℕ) (grant : grants.Grant) → at grant_label vci self.old.port.grants ≡ Some grant → self.new.port ≡ (lent (begun self.old.port [] n) grant input).port }
    {
        self.state.lend(vci, input);
    }

    /// The input of a lent grant is released: the grant is the controller's again, or where it is leaving
    /// it ends, and its acknowledgement is said if it is owed. Where that would have the last number, the
    /// numbers are spent.
    pub fn back(
        &mut self,
        vci: u16,
        done: &BranchDone,
        out: &mut Actions,
    ) -> Result<(), OutOfMemory>
        requires { (grant : grants.Grant) × (at grant_label vci self.old.port.grants ≡ Some grant) × IsTrue (is_released_by done.now.request grant.state) }
        ensures fixed { self.new.fixed ≡ self.old.fixed }
        ensures work { (n : ℕ) (grant : grants.Grant) → at grant_label vci self.old.port.grants ≡ Some grant → OnOk result (HasDone self.old self.new out.new n (given_back (begun self.old.port out.old n) grant)) }
    {
        give_back(&mut self.state, vci, done, out)
    }

    /// A packet has come on the channel of a label that is bound.
    pub fn used(&mut self, vci: u16)
        requires { flow_at self.old.port vci ≢ None }
        ensures fixed { self.new.fixed ≡ self.old.fixed }
        ensures port { (n : ℕ) → self.new.port ≡ (used (begun self.old.port [] n) vci).port }
    {
        self.state.set_idle(vci, 0);
    }

    /// Its number.
    pub fn port(&self) -> PortNo
        ensures { result ≡ self.now.fixed.port }
    {
        self.state.port()
    }

    /// The state of its adjacency.
    pub fn state(&self) -> State
        ensures { result ≡ self.now.port.adjacency.state }
    {
        self.state.state()
    }

    /// The address of the peer that is stored. None exactly where none is.
    pub fn peer_address(&self) -> Option<Addr>
        ensures { result ≡ option_map (λ peer. peer.address) self.now.port.adjacency.stored }
    {
        self.state.peer_address()
    }

    /// What it has exactly in Estab. None exactly where no session is open.
    pub fn session(&self) -> Option<&Session>
        ensures { option_map (λ session. session.now.session) result ≡ self.now.port.session }
    {
        self.state.session()
    }

    /// Whether its adjacency is in Clearing.
    pub fn is_clearing(&self) -> bool
        ensures { IsTrue result ↔ (self.now.port.adjacency.state ≡ State.Clearing) }
    {
        self.state.is_clearing()
    }

    /// Whether the numbers of its session are spent.
    pub fn is_spent(&self) -> bool
        ensures { result ≡ is_spent self.now.port.session }
    {
        self.state.is_spent()
    }

    /// The flow that the label of this number is bound to. None exactly where it isn't bound.
    pub fn flow_of(&self, vci: u16) -> Option<FlowId>
        ensures { result ≡ flow_at self.now.port vci }
    {
        self.state.flow_of(vci)
    }

    /// The labels that are held. None exactly where no session is open.
    pub fn labels(&self) -> Option<&LabelBook>
        ensures none { IsNone result ↔ (self.now.port.session ≡ None) }
        ensures book { IfSome result (λ book. (s : SessionValue) → self.now.port.session ≡ Some s → IsBookOf self.now s book.now) }
    {
        self.state.labels()
    }

    /// The pool, with its instance and exactly the labels that aren't held. None exactly where no session
    /// is open.
    pub fn pool(&self) -> Option<&LabelPool>
        ensures none { IsNone result ↔ (self.now.port.session ≡ None) }
        ensures pool { IfSome result (λ pool. (s : SessionValue) → self.now.port.session ≡ Some s → IsPoolOf self.now s pool.now) }
    {
        self.state.pool()
    }

    /// The labels under which it may send.
    pub fn grants(&self) -> &GrantTable
        ensures { IsTableOf self.now result.now }
    {
        self.state.grants()
    }

    /// How many REDIRECTs it has accepted since its opening, 18,446,744,073,709,551,615 at most.
    pub fn redirects(&self) -> u64
        ensures { result ≡ self.now.port.redirects }
    {
        self.state.redirects()
    }
}
