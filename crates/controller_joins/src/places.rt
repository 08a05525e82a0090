//! Where joins stand.

ghost use Rattle.std.specs.Prelude.{◌≡◌, IfOk, IfErr};
ghost use Rattle.crossbar_model.specs.Channels.{end_cmp};
ghost use Rattle.controller_joins.specs.Joined.{AreInOrder, IsFirstFrom, IsGapFor, IsPlaceOf};

use net_types::{End, PortNo};
use std::cmp::Ordering;

/// A cross-connect (a join), by the grant that its input is led to: cells of the input go out under
/// the grant's label, past the controller. This project's own.
#[derive(Clone, Copy, Debug, PartialEq, Eq)]
pub struct Joined {
    /// The channel of a label that a port handed out.
    pub input: End,
    /// The port of the grant.
    pub port: PortNo,
    /// The number of the grant's label.
    pub label: u16,
}

/// The order of ends: by port, then by VPI, then by VCI.
fn order(a: &End, b: &End) -> Ordering
    ensures { result ≡ end_cmp a.now b.now }
{
    let ports = a.port.0.cmp(&b.port.0);
    let paths = a.channel.vpi.cmp(&b.channel.vpi);
    let channels = a.channel.vci.cmp(&b.channel.vci);
    ports.then(paths).then(channels)
}

/// The index of the join of an input, or else the index where it would stand.
pub(crate) fn place_of(joins: &[Joined], input: End) -> Result<usize, usize>
    requires { AreInOrder joins.now }
    ensures found { IfOk result (IsPlaceOf joins.now input) }
    ensures absent { IfErr result (IsGapFor joins.now input) }
{
    joins.binary_search_by(|joined| order(&joined.input, &input))
}

/// The index of the first join whose input doesn't come before an end; that behind the last one where
/// there is none.
pub(crate) fn first_from(joins: &[Joined], end: End) -> usize
    requires { AreInOrder joins.now }
    ensures { IsFirstFrom joins.now end result }
{
    match place_of(joins, end) {
        Ok(place) => place,
        Err(gap) => gap,
    }
}
