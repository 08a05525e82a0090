//! A grant in whichever state it is.

ghost use Rattle.std.specs.Prelude.{◌≡◌, ◌∷◌, ◌&&◌, List};
ghost use Rattle.ipv4_packet.specs.Parts.{same_flow};
ghost use Rattle.branch_desk.specs.port_model.Grants.{is_by_controller, is_leaving};
ghost use Rattle.grant_table.specs.Table.{ages, is_owed, view_of};
ghost use Rattle.grant_table.specs.Held.{shown};

use crate::grant::{ByController, ByInput, Grant, Idle, Leaving};
use crate::table::{GrantState, GrantView};
use ipv4_packet::FlowId;

/// A grant in whichever state it is.
#[derive(Debug)]
pub(crate) enum Held {
    Idle(Grant<Idle>),
    ByController(Grant<ByController>),
    ByInput(Grant<ByInput>),
    Leaving(Grant<Leaving>),
}

impl Held {
    /// The number of its label.
    pub(crate) fn label(&self) -> u16
        ensures { result ≡ (shown self.now).label }
    {
        match self {
            Held::Idle(grant) => grant.label,
            Held::ByController(grant) => grant.label,
            Held::ByInput(grant) => grant.label,
            Held::Leaving(grant) => grant.label,
        }
    }

    /// Its flow.
    pub(crate) fn flow(&self) -> FlowId
        ensures { result ≡ (shown self.now).flow }
    {
        match self {
            Held::Idle(grant) => grant.flow,
            Held::ByController(grant) => grant.flow,
            Held::ByInput(grant) => grant.flow,
            Held::Leaving(grant) => grant.flow,
        }
    }

    /// Whether it is of this flow.
    pub(crate) fn is_of(&self, flow: &FlowId) -> bool
        ensures { result ≡ same_flow (shown self.now).flow flow.now }
    {
        self.flow() == *flow
    }

    /// Whether the controller sends this flow under it.
    pub(crate) fn carries(&self, flow: &FlowId) -> bool
        ensures { result ≡ is_by_controller (shown self.now).state && same_flow (shown self.now).flow flow.now }
    {
        matches!(self, Held::ByController(_)) && self.is_of(flow)
    }

    /// Whether it ends when its input is released.
    pub(crate) fn is_leaving(&self) -> bool
        ensures { result ≡ is_leaving (shown self.now).state }
    {
        matches!(self, Held::Leaving(_))
    }

    /// Whether a tick takes from its lifetime.
    pub(crate) fn ages(&self) -> bool
        ensures { result ≡ ages (shown self.now) }
    {
        !self.is_leaving() && self.lifetime() > 0
    }

    /// The ticks that it has left to live.
    pub(crate) fn lifetime(&self) -> u16
        ensures { result ≡ (shown self.now).lifetime }
    {
        match self {
            Held::Idle(grant) => grant.lifetime,
            Held::ByController(grant) => grant.lifetime,
            Held::ByInput(grant) => grant.lifetime,
            Held::Leaving(grant) => grant.lifetime,
        }
    }

    /// As it is read.
    pub(crate) fn view(&self) -> GrantView
        ensures { result ≡ view_of (shown self.now) }
    {
        let (state, input, owed) = match self {
            Held::Idle(_) => (GrantState::Idle, None, false),
            Held::ByController(_) => (GrantState::ByController, None, false),
            Held::ByInput(grant) => (GrantState::ByInput, Some(grant.state.input), false),
            Held::Leaving(grant) => {
                (
                    GrantState::Leaving,
                    Some(grant.state.input),
                    grant.state.owed,
                )
            }
        };
        GrantView {
            label: self.label(),
            state,
            flow: self.flow(),
            lifetime: self.lifetime(),
            input,
            owed,
        }
    }

    /// It has this lifetime.
    pub(crate) fn set_lifetime(&mut self, lifetime: u16)
        ensures { shown self.new ≡ record (shown self.old) { lifetime = lifetime } }
    {
        match self {
            Held::Idle(grant) => grant.lifetime = lifetime,
            Held::ByController(grant) => grant.lifetime = lifetime,
            Held::ByInput(grant) => grant.lifetime = lifetime,
            Held::Leaving(grant) => grant.lifetime = lifetime,
        }
    }

    /// Ends it, and tells whether the peer is owed an acknowledgement.
    pub(crate) fn end(self) -> bool
        ensures { result ≡ is_owed (shown self).state }
    {
        match self {
            Held::Idle(grant) => {
                let Idle = grant.end();
                false
            }
            Held::ByController(grant) => {
                let ByController = grant.end();
                false
            }
            Held::ByInput(grant) => {
                let ByInput { input: _ } = grant.end();
                false
            }
            Held::Leaving(grant) => grant.end().owed,
        }
    }
}
