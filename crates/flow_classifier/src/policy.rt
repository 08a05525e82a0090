//! Policies.

ghost use Rattle.std.specs.Prelude.{◌≡◌};
ghost use Rattle.flow_classifier.specs.Policies.{never, named, xy};

use ipv4_packet::FlowId;

/// A flow classifier (a policy; Newman, Minshall and Lyon): when a flow is offered a label, and
/// when an idle label is kept. Both answers depend on the arguments and the policy alone.
pub trait Policy {
    ghost use Rattle.std.specs.Prelude.{◌≡◌};
    ghost use Rattle.port_model.specs.Setup as setup;

    // The policy that definitions speak of.
    ghost meaning: { Self → setup.Policy };

    /// Whether the flow is offered a label, of which so many packets were counted in the window.
    fn offer(&self, flow: &FlowId, packets: u32) -> bool
        ensures { result ≡ (meaning self.now).offers flow.now packets };

    /// Whether the flow's label is kept, which was idle for so many ticks.
    fn keep(&self, flow: &FlowId, idle: u32) -> bool
        ensures { result ≡ (meaning self.now).keeps flow.now idle };
}

/// The X/Y flow classifier (Newman, Minshall and Lyon): it offers from `x` packets in the window
/// on, and keeps for at most `idle` ticks, which is this project's own.
#[derive(Clone, Copy, Debug, PartialEq, Eq)]
pub struct XyPolicy {
    /// So many packets, 1 to 65,535.
    pub x: u32,
    /// So many ticks.
    pub idle: u32,
}

impl Policy for XyPolicy {
    ghost meaning = { xy };

    fn offer(&self, _flow: &FlowId, packets: u32) -> bool {
        packets >= self.x
    }

    fn keep(&self, _flow: &FlowId, idle: u32) -> bool {
        idle <= self.idle
    }
}

/// The flow classifier that offers nothing, and keeps nothing. This project's own.
#[derive(Clone, Copy, Debug, PartialEq, Eq)]
pub struct Never;

impl Policy for Never {
    ghost meaning = { never };

    fn offer(&self, _flow: &FlowId, _packets: u32) -> bool {
        false
    }

    fn keep(&self, _flow: &FlowId, _idle: u32) -> bool {
        false
    }
}

/// A flow classifier that a script can name. This project's own.
#[derive(Clone, Copy, Debug, PartialEq, Eq)]
pub enum NamedPolicy {
    /// By counts.
    Xy(XyPolicy),
    /// No offer.
    Never,
}

impl Policy for NamedPolicy {
    ghost meaning = { named };

    fn offer(&self, flow: &FlowId, packets: u32) -> bool {
        match self {
            NamedPolicy::Xy(policy) => policy.offer(flow, packets),
            NamedPolicy::Never => Never.offer(flow, packets),
        }
    }

    fn keep(&self, flow: &FlowId, idle: u32) -> bool {
        match self {
            NamedPolicy::Xy(policy) => policy.keep(flow, idle),
            NamedPolicy::Never => Never.keep(flow, idle),
        }
    }
}
