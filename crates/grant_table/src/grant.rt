//! A grant in each of its states.

ghost use Rattle.std.specs.Prelude.{◌≡◌, ◌-◌};

use ipv4_packet::FlowId;
use net_types::End;

/// Its branch from the controller is being made.
#[derive(Clone, Copy, Debug)]
pub(crate) struct Idle;

/// The controller sends under it.
#[derive(Clone, Copy, Debug)]
pub(crate) struct ByController;

/// An input is joined to it.
#[derive(Clone, Copy, Debug)]
pub(crate) struct ByInput {
    pub(crate) input: End,
}

/// It ends when its input is released.
#[derive(Clone, Copy, Debug)]
pub(crate) struct Leaving {
    pub(crate) input: End,
    /// Whether the peer is then owed an acknowledgement.
    pub(crate) owed: bool,
}

/// Leave to send a flow under a label. It must be ended.
#[must_use]
#[derive(Debug)]
pub(crate) struct Grant<S> {
    /// The label's number.
    pub(crate) label: u16,
    pub(crate) flow: FlowId,
    /// In ticks.
    pub(crate) lifetime: u16,
    pub(crate) state: S,
}

impl<S: Drop> Grant<S> {
    /// The same grant in another state.
    fn into_state<T>(self, next: T) -> Grant<T>
        ensures { result ≡ record { label = self.label; flow = self.flow; lifetime = self.lifetime; state = next } }
    {
        let Grant {
            label,
            flow,
            lifetime,
            state: _,
        } = self;
        Grant {
            label,
            flow,
            lifetime,
            state: next,
        }
    }

    /// Ends it.
    pub(crate) fn end(self) -> S
        ensures { result ≡ self.state }
    {
        let Grant {
            label: _,
            flow: _,
            lifetime: _,
            state,
        } = self;
        state
    }
}

impl Grant<Idle> {
    /// A new grant.
    pub(crate) fn new(label: u16, flow: FlowId, lifetime: u16) -> Grant<Idle>
        ensures { result ≡ record { label = label; flow = flow; lifetime = lifetime; state = record {} } }
    {
        Grant {
            label,
            flow,
            lifetime,
            state: Idle,
        }
    }

    /// Its branch is made.
    pub(crate) fn started(self) -> Grant<ByController>
        ensures { result ≡ record { label = self.label; flow = self.flow; lifetime = self.lifetime; state = record {} } }
    {
        self.into_state(ByController)
    }
}

impl Grant<ByController> {
    /// An input is joined to it.
    pub(crate) fn lend(self, input: End) -> Grant<ByInput>
        ensures { result ≡ record { label = self.label; flow = self.flow; lifetime = self.lifetime; state = record { input = input } } }
    {
        self.into_state(ByInput { input })
    }
}

impl Grant<ByInput> {
    /// Its input is released.
    pub(crate) fn back(self) -> Grant<ByController>
        ensures { result ≡ record { label = self.label; flow = self.flow; lifetime = self.lifetime; state = record {} } }
    {
        self.into_state(ByController)
    }

    /// It is to end when its input is released.
    pub(crate) fn leave(self, owed: bool) -> Grant<Leaving>
        ensures { result ≡ record { label = self.label; flow = self.flow; lifetime = self.lifetime; state = record { input = self.state.input; owed = owed } } }
    {
        let input = self.state.input;
        self.into_state(Leaving { input, owed })
    }
}

impl Grant<Leaving> {
    /// What the peer is owed when it ends is known anew.
    pub(crate) fn leave(self, owed: bool) -> Grant<Leaving>
        ensures { result ≡ record { label = self.label; flow = self.flow; lifetime = self.lifetime; state = record { input = self.state.input; owed = owed } } }
    {
        let input = self.state.input;
        self.into_state(Leaving { input, owed })
    }
}
