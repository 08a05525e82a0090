//! The flows of labels.

ghost use Rattle.std.specs.Prelude.{◌≡◌};
ghost use Rattle.ipv4_packet.specs.Flow.{IsFlow};

use ipv4_packet::FlowId;
use std::marker::Model;

/// A flow identifier (RFC 1953) of a flow that packets can be of.
#[derive(Clone, Copy)]
pub struct LabelFlow {
    flow: FlowId,
}

impl Model for LabelFlow {
    ghost use Rattle.ipv4_packet.specs.declared.flow.FlowId.{FlowId};
    ghost use Rattle.ipv4_packet.specs.Flow.{IsFlow};

    ghost Value = { FlowId };

    ghost view = { λ l. l.flow };

    ghost invariant = { λ l. IsFlow l.flow };

    ghost inverse = { λ f. record { flow = f } };
}

impl LabelFlow {
    /// That flow.
    pub fn new(flow: FlowId) -> LabelFlow
        requires { IsFlow flow }
        ensures { result ≡ flow }
    {
        LabelFlow { flow }
    }

    /// The flow.
    pub fn flow(&self) -> FlowId
        ensures flow { result ≡ self.now }
        ensures alive { IsFlow result }
    {
        self.flow
    }
}
