//! A list of octets inside a plain value.

ghost use Rattle.std.specs.Prelude.{◌≡◌, ℕ, List};

use std::marker::Model;

/// A byte vector, seen in contracts as the list of its octets. It is made from a `Vec` and gives it
/// back without taking memory.
#[derive(Debug, Drop)]
pub struct Octets {
    octets: Vec<u8>,
}

impl Model for Octets {
    ghost Value = { List ℕ };

    ghost view = { λ o. o.octets.items };
}

impl Octets {
    /// These octets.
    pub fn new(octets: Vec<u8>) -> Octets
        ensures { result ≡ octets.items }
    {
        Octets { octets }
    }

    /// Reads them.
    pub fn as_slice(&self) -> &[u8]
        ensures { result.now ≡ self.now }
    {
        self.octets.as_slice()
    }

    /// Gives the `Vec` back.
    pub fn into_vec(self) -> Vec<u8>
        ensures { result.items ≡ self }
    {
        let Octets { octets } = self;
        octets
    }
}
