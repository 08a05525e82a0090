//! The state of a port.

ghost use Rattle.std.specs.Prelude.{◌≡◌, ◌≤◌, ◌&&◌, ◌↔◌, nat_le, option_map, [], true, false, IsTrue, IsNone, IfOk, IfSome, None, Some};
ghost use Rattle.net_types.specs.Label.{is_label_number, label_channel_of};
ghost use Rattle.adjacency_table.specs.Side.{fresh};
ghost use Rattle.port_model.specs.Setup.{control_end, label_end};
ghost use Rattle.port_model.specs.Port.{Session as SessionValue};
ghost use Rattle.port_state.specs.Engine.{AreTimes, IsBookOf, IsPoolOf, IsTableOf};

use crate::setup::PortSetup;
use flow_classifier::Policy;
use grant_table::GrantTable;
use ifmp_adjacency::{Adjacency, State};
use ipv4_packet::FlowId;
use label_pool::LabelPool;
use net_types::{
    CONTROL_PORT, Channel, End, Instance, NodeId, OutOfMemory, PortNo, label_channel, on_control,
};
use port_labels::LabelBook;
use port_session::Session;
use std::alloc::Global;
use std::marker::Model;

/// The IFMP state of a router's interface (a port of a controller; RFC 1953), with its policy. It
/// must be given up by [`PortState::abandon`].
#[must_use]
pub struct PortState<P: Policy> {
    alloc: Global,
    pub(crate) setup: PortSetup<P>,
    pub(crate) adjacency: Adjacency,
    pub(crate) session: Option<Session>,
    pub(crate) grants: GrantTable,
    /// How many REDIRECTs were accepted since the opening.
    pub(crate) redirects: u64,
}

impl<P: Policy> Model for PortState<P> {
    ghost use Rattle.port_state.specs.Engine.{Engine};

    ghost Value = { Engine P };

    ghost use Rattle.std.specs.Prelude.{option_map};

    ghost view = { λ l. record {
      fixed = l.setup;
      port = record {
        adjacency = l.adjacency;
        session = option_map (λ s. s.session) l.session;
        grants = l.grants.grants;
        redirects = l.redirects;
      };
    } };

    ghost use Rattle.std.specs.Prelude.{◌≡◌, ◌≤◌, IsTrue, IfSome};
    ghost use Rattle.net_types.specs.Label.{is_label_number};
    ghost use Rattle.port_state.specs.Engine.{AreTimes};

    ghost invariant = { λ l. record {
      port : (1 ≤ l.setup.port.0) × (l.setup.port.0 ≤ 8);
      least : IsTrue (is_label_number l.setup.least);
      greatest : IsTrue (is_label_number l.setup.greatest);
      order : l.setup.least ≤ l.setup.greatest;
      times : AreTimes l.setup.timers;
      grants : (l.grants.least ≡ l.setup.least) × (l.grants.greatest ≡ l.setup.greatest);
      range : IfSome l.session (λ s. (s.least ≡ l.setup.least) × (s.greatest ≡ l.setup.greatest));
      window : IfSome l.session (λ s. s.window ≡ l.setup.timers.window);
      instance : IfSome l.session (λ s. s.instance ≡ l.adjacency.own.instance);
    } };
}

impl<P: Policy + Drop> PortState<P> {
    /// A port in Clearing, under the instance `own`: no session, and no grant.
    pub fn open(
        alloc: Global,
        setup: PortSetup<P>,
        own: Instance,
    ) -> Result<PortState<P>, OutOfMemory>
        requires port { (1 ≤ setup.port.0) × (setup.port.0 ≤ 8) }
        requires least { IsTrue (is_label_number setup.least) }
        requires greatest { IsTrue (is_label_number setup.greatest) }
        requires order { setup.least ≤ setup.greatest }
        requires times { AreTimes setup.timers }
        ensures fixed { IfOk result (λ state. state.fixed ≡ setup) }
        ensures port { IfOk result (λ state. state.port ≡ record { adjacency = fresh State.Clearing (record { instance = own; address = setup.address }); session = None; grants = []; redirects = 0 }) }
    {
        let grants = GrantTable::open(alloc, setup.least, setup.greatest)?;
        let adjacency = Adjacency::start(own, setup.address);
        Ok(PortState {
            alloc,
            setup,
            adjacency,
            session: None,
            grants,
            redirects: 0,
        })
    }

    /// Gives the port up.
    pub fn abandon(self) {
        let PortState {
            alloc: _,
            setup: _,
            adjacency: _,
            session,
            grants,
            redirects: _,
        } = self;
        if let Some(session) = session {
            session.abandon();
        }
        grants.abandon();
    }
}

impl<P: Policy> PortState<P> {
    /// Where it takes memory from.
    pub fn alloc(&self) -> Global {
        self.alloc
    }

    /// Its node.
    pub fn node(&self) -> NodeId
        ensures { result ≡ self.now.fixed.node }
    {
        self.setup.node
    }

    /// Its number.
    pub fn port(&self) -> PortNo
        ensures number { result ≡ self.now.fixed.port }
        ensures range { (1 ≤ result.0) × (result.0 ≤ 8) }
    {
        self.setup.port
    }

    /// How long its labels may be used after a REDIRECT, in ticks.
    pub fn lifetime(&self) -> u16
        ensures { result ≡ self.now.fixed.timers.lifetime }
    {
        self.setup.timers.lifetime
    }

    /// How many ticks after a REDIRECT it is sent again.
    pub fn refresh(&self) -> u16
        ensures { result ≡ self.now.fixed.timers.refresh }
    {
        self.setup.timers.refresh
    }

    /// The channel of its least label.
    pub fn least_channel(&self) -> Channel
        ensures { result ≡ label_channel_of self.now.fixed.least }
    {
        label_channel(self.setup.least)
    }

    /// The channel of its greatest label.
    pub fn greatest_channel(&self) -> Channel
        ensures { result ≡ label_channel_of self.now.fixed.greatest }
    {
        label_channel(self.setup.greatest)
    }

    /// The number of its least label.
    pub fn least(&self) -> u16
        ensures { result ≡ self.now.fixed.least }
    {
        self.setup.least
    }

    /// The number of its greatest label.
    pub fn greatest(&self) -> u16
        ensures number { result ≡ self.now.fixed.greatest }
        ensures order { self.now.fixed.least ≤ result }
        ensures label { IsTrue (is_label_number result) }
    {
        self.setup.greatest
    }

    /// Whether its policy offers a label to a flow of which so many packets were counted.
    pub fn offers(&self, flow: &FlowId, packets: u32) -> bool
        ensures { result ≡ (P.meaning self.now.fixed.policy).offers flow.now packets }
    {
        self.setup.policy.offer(flow, packets)
    }

    /// Whether its policy keeps the label of a flow that was idle for so many ticks.
    pub fn keeps(&self, flow: &FlowId, idle: u32) -> bool
        ensures { result ≡ (P.meaning self.now.fixed.policy).keeps flow.now idle }
    {
        self.setup.policy.keep(flow, idle)
    }

    /// The channel of a label at the port.
    pub fn label_end(&self, label: u16) -> End
        requires { IsTrue (is_label_number label) }
        ensures { result ≡ label_end self.now.fixed.port label }
    {
        End {
            port: self.setup.port,
            channel: label_channel(label),
        }
    }

    /// The channel of the control link that stands for a label.
    pub fn control_end(&self, label: u16) -> End
        requires { IsTrue (is_label_number label) }
        ensures { result ≡ control_end self.now.fixed.port label }
    {
        End {
            port: CONTROL_PORT,
            channel: on_control(self.setup.port, label_channel(label)),
        }
    }

    /// What it has exactly in Estab. None exactly where no session is open.
    pub fn session(&self) -> Option<&Session>
        ensures { option_map (λ session. session.now.session) result ≡ self.now.port.session }
    {
        self.session.as_ref()
    }

    /// The labels that are held. None exactly where no session is open.
    pub fn labels(&self) -> Option<&LabelBook>
        ensures none { IsNone result ↔ (self.now.port.session ≡ None) }
        ensures book { IfSome result (λ book. (s : SessionValue) → self.now.port.session ≡ Some s → IsBookOf self.now s book.now) }
    {
        match &self.session {
            Some(session) => Some(session.book()),
            None => None,
        }
    }

    /// The pool, with its instance and exactly the labels that aren't held. None exactly where no session
    /// is open.
    pub fn pool(&self) -> Option<&LabelPool>
        ensures none { IsNone result ↔ (self.now.port.session ≡ None) }
        ensures pool { IfSome result (λ pool. (s : SessionValue) → self.now.port.session ≡ Some s → IsPoolOf self.now s pool.now) }
    {
        match &self.session {
            Some(session) => Some(session.pool()),
            None => None,
        }
    }

    /// The labels under which it may send.
    pub fn grants(&self) -> &GrantTable
        ensures { IsTableOf self.now result.now }
    {
        &self.grants
    }

    /// How many REDIRECTs it has accepted since its opening, 18,446,744,073,709,551,615 at most.
    pub fn redirects(&self) -> u64
        ensures { result ≡ self.now.port.redirects }
    {
        self.redirects
    }
}
