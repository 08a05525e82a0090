//! Why 53 octets are refused.

use thiserror::Error;

/// An error of [`decode`](crate::decode): the first test that 53 octets fail which aren't a cell
/// that is taken here (I.361 2.2, I.432.1 4.3.2).
#[derive(Clone, Copy, Debug, PartialEq, Eq, Error)]
pub enum CellFault {
    /// The fifth octet isn't the HEC of the four before it.
    #[error("the header error control isn't right")]
    Hec,
    /// The generic flow control isn't 0.
    #[error("the generic flow control isn't 0")]
    Gfc,
    /// The payload type is above 1.
    #[error("the payload type is above 1")]
    Pt,
    /// The cell loss priority is 1.
    #[error("the cell loss priority is 1")]
    Clp,
}
