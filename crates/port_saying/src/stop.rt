//! Why a rule of the port does nothing more.

ghost use Rattle.std.specs.Prelude.{◌≡◌, ℕ, OnOk, List};
ghost use Rattle.port_model.specs.Port.{Port, Work};
ghost use Rattle.port_model.specs.declared.action.Action.{Action};
ghost use Rattle.port_saying.specs.Rules.{Ends};

use net_types::OutOfMemory;

/// An error that ends a rule of a port early: why it does nothing more.
#[derive(Clone, Copy, Debug)]
pub enum Stop {
    /// The port asked to be reset.
    Reset,
    /// Memory was wanting.
    OutOfMemory(OutOfMemory),
}

impl From<OutOfMemory> for Stop {
    ghost use Rattle.std.specs.Prelude.{◌≡◌};
    ghost use Rattle.port_saying.specs.declared.stop.Stop.TheVariants as stop;

    ghost from_gives = { λ error s. s ≡ stop.OutOfMemory error };

    fn from(error: OutOfMemory) -> Stop {
        Stop::OutOfMemory(error)
    }
}

/// A rule that asked for a reset is done.
pub fn done(ended: Result<(), Stop>) -> Result<(), OutOfMemory>
    ensures { (port : Port) (actions : List Action) (n : ℕ) (w : Work) → Ends ended port actions n w → OnOk result ((w.port ≡ port) × (w.actions ≡ actions) × (w.instances ≡ n)) }
{
    match ended {
        Ok(()) | Err(Stop::Reset) => Ok(()),
        Err(Stop::OutOfMemory(error)) => Err(error),
    }
}
