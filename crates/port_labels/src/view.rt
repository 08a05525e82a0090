//! Labels as they are read.

ghost use Rattle.std.specs.Prelude.{◌≡◌};
ghost use Rattle.port_labels.specs.Read.{label_of, name_of, state_from, view_of};

use ipv4_packet::FlowId;
use net_types::End;

/// The state of an incoming label that is held. This project's own.
#[derive(Clone, Copy, Debug, PartialEq, Eq)]
pub enum HeldState {
    /// Its branch to the controller is being made.
    Wiring,
    /// It was offered to the peer.
    Offered,
    /// It was reclaimed.
    Recalled {
        /// The number of the last RECLAIM.
        last: u32,
        /// Whether the peer acknowledged it.
        acknowledged: bool,
    },
    /// The peer can't use it any more, and its branch stands yet.
    Wired,
}

impl HeldState {
    /// Its name.
    fn name(&self) -> LabelState
        ensures { result ≡ name_of (state_from self.now) }
    {
        match self {
            HeldState::Wiring => LabelState::Spare,
            HeldState::Offered => LabelState::Offered,
            HeldState::Recalled {
                last: _,
                acknowledged: _,
            } => LabelState::Recalled,
            HeldState::Wired => LabelState::Wired,
        }
    }
}

/// An incoming label that is held (a local binding): its state, its flow and its counts, in ticks.
/// This project's own.
#[derive(Clone, Copy, Debug, PartialEq, Eq)]
pub struct HeldLabel {
    /// Its number.
    pub number: u16,
    /// Its state.
    pub state: HeldState,
    /// The flow that it is wired for, or is or was bound to.
    pub flow: FlowId,
    /// For how many ticks no packet used it.
    pub idle: u32,
    /// How many ticks ago the last REDIRECT was sent.
    pub ticks: u32,
    /// Where its input is joined to.
    pub join: Option<End>,
}

impl HeldLabel {
    /// As it is shown.
    pub fn view(&self) -> LabelView
        ensures { result ≡ view_of (label_of self.now) }
    {
        let flow = if self.state == HeldState::Wired {
            None
        } else {
            Some(self.flow)
        };
        LabelView {
            vci: self.number,
            state: self.state.name(),
            flow,
            joined: self.join.is_some(),
        }
    }
}

/// The name of an incoming label's state. This project's own.
#[derive(Clone, Copy, Debug, PartialEq, Eq)]
pub enum LabelState {
    /// Its branch to the controller isn't made yet.
    Spare,
    /// The peer can't use it any more, and its branch stands yet.
    Wired,
    /// It was offered to the peer.
    Offered,
    /// It was reclaimed.
    Recalled,
}

/// An incoming label (a local binding) as it is shown. This project's own.
#[derive(Clone, Copy, Debug, PartialEq, Eq)]
pub struct LabelView {
    /// Its number.
    pub vci: u16,
    /// Its state.
    pub state: LabelState,
    /// The flow that it is bound to or is being wired for; none of a label that was quit.
    pub flow: Option<FlowId>,
    /// Whether its input is joined to an output.
    pub joined: bool,
}
