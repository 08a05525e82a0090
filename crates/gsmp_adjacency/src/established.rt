//! The evidence that an adjacency entered Estab.

ghost use Rattle.std.specs.Prelude.{◌≡◌};

use net_types::Party;
use std::marker::Model;

/// A token of a GSMP adjacency that entered state ESTAB: it stands for the own party, is handed out
/// once at each entry, and has to be spent. This project's own.
#[must_use]
#[derive(Debug)]
pub struct Established {
    party: Party,
}

impl Model for Established {
    ghost use Rattle.net_types.specs.declared.adjacency.Party.{Party};

    ghost Value = { Party };

    ghost view = { λ e. e.party };
}

impl Established {
    /// Handed out by an adjacency of this own party.
    pub(crate) fn new(party: Party) -> Established
        ensures { result ≡ party }
    {
        Established { party }
    }

    /// The own party of the adjacency that handed it out.
    pub fn party(&self) -> Party
        ensures { result ≡ self.now }
    {
        self.party
    }

    /// Spends it.
    pub fn spend(self) {
        let Established { party: _ } = self;
    }
}
