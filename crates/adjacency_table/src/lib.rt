//! The adjacency protocol that IFMP and GSMP share (RFC 1953, RFC 1987), as a table: what one side
//! does at a message of its peer and at a tick. The table stands in `specs/Table.antt`, and what it
//! makes of a side in `specs/Side.antt`; [`Adjacency`] is proved to follow both for parties of any
//! kind, and the two protocols' adjacencies are this one at their own parties (`specs/Hello.antt`,
//! `specs/Greeting.antt`). `specs/Instances.antt` is a side seen by instances alone, on which laws
//! of whole runs stand; [`received_by_instances`] and [`ticked_by_instances`] say that such a side
//! is one of the table.
#![tactic(auto)]

ghost use Rattle.adjacency_table.specs.Ends.{router, entity, IfmpIsReceivedByInstances, GsmpIsReceivedByInstances, IsTickedByInstances};

use net_types::{Addr, Party};

mod adjacency;
mod message;

pub use adjacency::Adjacency;
pub use message::{Answer, Heard, Said};

/// The adjacency protocol state of one side (RFC 1987, Adjacency Protocol; RFC 1953, IFMP Adjacency
/// Protocol); `Clearing` is this project's own.
#[derive(Clone, Copy, Debug, PartialEq, Eq)]
pub enum State {
    /// Waits until its port is cleared; hears and says nothing. This project's own.
    Clearing,
    /// Has heard nothing that it could answer (RFC 1987, Adjacency Protocol).
    SynSent,
    /// Has stored its peer, and waits for the peer to confirm both instances.
    SynRcvd,
    /// Both sides know both instances.
    Estab,
}

/// Where names and addresses are right, what a side makes of any message of the other end is the
/// row of the table that the instances give, and what it says is what the instances make it say.
/// It does nothing, and its contract is the statement.
pub fn received_by_instances()
    ensures ifmp { IfmpIsReceivedByInstances }
    ensures gsmp { GsmpIsReceivedByInstances }
{}

/// The same of ticks.
pub fn ticked_by_instances()
    ensures ifmp { (own far : Addr) → IsTickedByInstances (router own) (router far) }
    ensures gsmp { (own far : Party) → IsTickedByInstances (entity own) (entity far) }
{}
