//! A node of a network.

use gsmp_switch::Switch;
use net_types::PORTS;
use node_controller::NodeController;
use world_model::LinkEnd;

/// One more than the most nodes of a network.
pub(crate) const STARTS: usize = 65;

/// A node in a run: its two actors, and the other ends of its links by the numbers of its ports.
#[must_use]
pub(crate) struct Site<C> {
    pub(crate) controller: C,
    pub(crate) switch: Switch,
    pub(crate) peers: [Option<LinkEnd>; PORTS],
}

impl<C: NodeController> Site<C> {
    /// Gives both actors up.
    pub(crate) fn abandon(self) {
        let Site {
            controller,
            switch,
            peers: _,
        } = self;
        controller.abandon();
        switch.abandon();
    }
}
