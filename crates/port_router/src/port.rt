//! The port.

ghost use Rattle.std.specs.Prelude.{◌≡◌, false, is_some};
ghost use Rattle.std.specs.Option.{option_map_or};
ghost use Rattle.port_model.specs.Port.{label_at};

use branch_desk::{BranchDone, Desk};
use controller_router::{OpenEngine, PortEngine};
use flow_classifier::Policy;
use grant_table::GrantTable;
use ifmp_wire::Message;
use ipv4_packet::FlowId;
use net_types::{Addr, End, Instance, NodeId, OutOfMemory, PortNo};
use port_actions::Actions;
use port_labels::HeldLabel;
use port_model::Timers;
use redirect_state::Link;
use std::alloc::Global;
use world_model::PortRange;

/// The IFMP engine of one interface of a router (a port; RFC 1953), as [`controller_router::PortEngine`] asks
/// for it. It must be given up.
#[must_use]
pub struct RouterPort<P: Policy> {
    link: Link<P>,
}

impl<P: Policy> RouterPort<P> {
    /// The engine as a router's port.
    pub fn new(link: Link<P>) -> RouterPort<P>
        ensures { result.link ≡ link }
    {
        RouterPort { link }
    }

    /// Whether a label is held and joined.
    fn is_joined(&self, label: u16) -> bool
        ensures { result ≡ option_map_or (λ label. is_some label.join) (label_at self.now.link.port label) false }
    {
        let Some(labels) = self.link.labels() else {
            return false;
        };
        match labels.get(label) {
            Some(label) => label.join.is_some(),
            None => false,
        }
    }

    /// The engine.
    pub fn link(&self) -> &Link<P>
        ensures { result.now ≡ self.now.link }
    {
        &self.link
    }
}

impl<P: Policy + Copy> PortEngine for RouterPort<P> {
    ghost use Rattle.redirect_state.specs.port_state.Engine.{setup_of};

    ghost seen = { λ p. record { setup = setup_of P.meaning p.link.fixed; port = p.link.port } };

    fn port(&self) -> PortNo {
        self.link.port()
    }

    fn on_packet(
        &mut self,
        packet: &[u8],
        desk: &Desk,
        out: &mut Actions,
    ) -> Result<(), OutOfMemory> {
        self.link.on_packet(packet, desk, out)
    }

    fn on_message(
        &mut self,
        source: Addr,
        message: &Message,
        desk: &Desk,
        out: &mut Actions,
    ) -> Result<(), OutOfMemory> {
        self.link.on_message(source, message, desk, out)
    }

    fn on_tick(&mut self, desk: &Desk, out: &mut Actions) -> Result<(), OutOfMemory> {
        self.link.on_tick(desk, out)
    }

    fn on_done(&mut self, done: &BranchDone, out: &mut Actions) -> Result<(), OutOfMemory> {
        self.link.on_done(done, out)
    }

    fn reset(&mut self, own: Instance, out: &mut Actions) -> Result<(), OutOfMemory> {
        self.link.reset(own, out)
    }

    fn restart(&mut self, own: Instance, out: &mut Actions) -> Result<(), OutOfMemory> {
        self.link.restart(own, out)
    }

    fn flow_of(&self, label: u16) -> Option<FlowId> {
        self.link.flow_of(label)
    }

    fn used(&mut self, label: u16) {
        self.link.used(label);
    }

    fn joined(&mut self, label: u16, output: End) {
        self.link.joined(label, output);
    }

    fn parted(&mut self, label: u16) {
        if self.is_joined(label) {
            self.link.parted(label);
        }
    }

    fn lend(&mut self, label: u16, input: End) {
        self.link.lend(label, input);
    }

    fn back(
        &mut self,
        label: u16,
        done: &BranchDone,
        out: &mut Actions,
    ) -> Result<(), OutOfMemory> {
        self.link.back(label, done, out)
    }

    fn held_at(&self, place: usize) -> Option<HeldLabel> {
        let labels = self.link.labels()?;
        let number = labels.number_at(place)?;
        labels.get(number)
    }

    fn redirects(&self) -> u64 {
        self.link.redirects()
    }

    fn is_clearing(&self) -> bool {
        self.link.is_clearing()
    }

    fn is_spent(&self) -> bool {
        self.link.is_spent()
    }

    fn grants(&self) -> &GrantTable {
        self.link.grants()
    }

    fn has_no_grant(&self) -> bool {
        self.link.grants().len() == 0
    }

    fn cleared(&mut self) {
        self.link.cleared();
    }

    fn abandon(self) {
        let RouterPort { link } = self;
        link.abandon();
    }
}

impl<P: Policy + Copy> OpenEngine for RouterPort<P> {
    type Policy = P;

    ghost meaning = { P.meaning };

    fn open(
        alloc: Global,
        node: NodeId,
        address: Addr,
        range: PortRange,
        timers: Timers,
        policy: P,
        own: Instance,
    ) -> Result<RouterPort<P>, OutOfMemory> {
        let link = Link::open(
            alloc, node, range.port, address, range.lo, range.hi, timers, policy, own,
        )?;
        Ok(RouterPort::new(link))
    }
}
