//! The actions of a port.

use gsmp_wire::Request;
use ifmp_wire::Message;
use link_model::Record;
use net_types::End;

/// An action of a port's protocol engine: what it asks of its controller, which does it in order.
/// This project's own.
#[derive(Debug, Drop)]
pub enum Action {
    /// Send this message to the other end of the link.
    Say(Message),
    /// Ask this of the switch.
    Ask {
        /// The request.
        request: Request,
        /// Whether it is asked however many requests stand.
        needed: bool,
    },
    /// Record this.
    Note(Record),
    /// Cut the chain of a label's channel.
    CutChain {
        /// The label's number.
        vci: u16,
    },
    /// Take a join back.
    TakeBack {
        /// The input that is joined.
        input: End,
        /// The output that it is joined to.
        output: End,
    },
    /// Withdraw what stands on an input.
    Withdraw {
        /// The input.
        input: End,
    },
    /// Reset the port under a new instance; it is the last action of its list.
    Reset,
}
