//! What a line of a trace says.

use crate::end::{TraceEnd, TraceLabel};
use ipv4_packet::FlowId;
use net_types::{Mark, Octets};

/// An entry of an event trace: a line that isn't blank. The language is this project's own.
#[derive(Debug, Drop)]
pub enum TraceLine {
    /// `link END END`: the two ports are linked.
    Link {
        /// One end.
        first: TraceEnd,
        /// The other.
        second: TraceEnd,
    },
    /// `take END`: the first cell of the port's queue is carried to the other end.
    Take {
        /// The port.
        end: TraceEnd,
    },
    /// `lost END`: the first cell of the port's queue is lost.
    Lost {
        /// The port.
        end: TraceEnd,
    },
    /// `frame MARK HEX`: what the cells of the mark are cut from.
    Frame {
        /// The mark.
        mark: Mark,
        /// The payload, at most 1,528 octets.
        payload: Octets,
    },
    /// `put END VPI/VCI MARK`: a cell comes to the end of the port's queue.
    Put {
        /// The port and the cell's channel.
        place: TraceLabel,
        /// The mark of the cell's frame.
        mark: Mark,
    },
    /// `bind NODE PORT VPI/VCI HEX`: the channel's cells towards that port are of the flow from now on.
    Bind {
        /// The port that the cells come to, and their channel.
        label: TraceLabel,
        /// The flow.
        flow: FlowId,
    },
    /// `end`: the trace is whole.
    End,
}
