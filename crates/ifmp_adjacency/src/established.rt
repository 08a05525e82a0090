//! The evidence that an adjacency entered Estab.

ghost use Rattle.std.specs.Prelude.{◌≡◌};

use net_types::Instance;
use std::marker::Model;

/// A token of an IFMP adjacency that entered state ESTAB: it stands for the own instance, is handed
/// out once at each entry, and has to be spent. This project's own.
#[must_use]
#[derive(Debug)]
pub struct Established {
    instance: Instance,
}

impl Established {
    /// Handed out by an adjacency of this own instance.
    pub(crate) fn new(instance: Instance) -> Established
        ensures { result ≡ instance }
    {
        Established { instance }
    }

    /// The own instance of the adjacency that handed it out.
    pub fn instance(&self) -> Instance
        ensures { result ≡ self.now }
    {
        self.instance
    }

    /// Spends it.
    pub fn spend(self) {
        let Established { instance: _ } = self;
    }
}

impl Model for Established {
    ghost use Rattle.net_types.specs.declared.number.Instance.{Instance};

    ghost Value = { Instance };

    ghost view = { λ e. e.instance };
}
