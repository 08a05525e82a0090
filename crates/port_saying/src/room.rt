//! The limit of standing requests, which is this project's own.

ghost use Rattle.std.specs.Prelude.{◌≡◌, ℕ, IfOk};
ghost use Rattle.port_model.specs.Port.{Port as PortValue, has_room};
ghost use Rattle.port_saying.specs.Rules.{begun};

use branch_desk::Desk;
use net_types::OutOfMemory;
use port_actions::{Actions, Outlook};
use std::alloc::Global;

/// Whether fewer than 1,024 requests will stand once what is asked so far is done.
pub fn has_room(alloc: Global, desk: &Desk, out: &Actions) -> Result<bool, OutOfMemory>
    ensures { (port : PortValue) (n : ℕ) → IfOk result (λ room. room ≡ has_room desk.now (begun port out.now n)) }
{
    let outlook = Outlook::of(alloc, desk, out)?;
    Ok(outlook.has_room())
}
