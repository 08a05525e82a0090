//! Numbers that rise over a whole run: instances of adjacencies and marks of control frames.

ghost use Rattle.std.specs.Prelude.{◌≡◌, ◌-◌, ◌^◌, ◌<◌};

use std::marker::Model;

/// An instance number of one end of an adjacency, of 32 bits: another one at each new beginning
/// (RFC 1953 and RFC 1987, Sender Instance).
#[derive(Clone, Copy, Debug, PartialEq, Eq, Hash)]
pub struct Instance(pub u32);

/// A frame identifier for reports alone (a mark): which frame a cell belongs to. Marks stand beside
/// the cells of a run; no octet on a link has one. This project's own.
#[derive(Clone, Copy, Debug, PartialEq, Eq, Hash)]
pub struct Mark {
    /// The packet, counted from 1 over the `send` lines; 0 for a control frame.
    pub packet: u32,
    /// For a packet, 1 at the node that took it and one higher at each router; for a control
    /// frame its number in the run, from 1.
    pub frame: u64,
}

/// A generator of identifiers: how many instance numbers, and how many marks of control frames, a
/// run has given out so far. This project's own.
#[derive(Debug, Drop)]
pub struct Numbers {
    instances: u32,
    controls: u64,
}

impl Model for Numbers {
    ghost use Rattle.net_types.specs.Number.{GivenOut};

    ghost Value = { GivenOut };

    ghost view = { λ n. record { instances = n.instances; controls = n.controls } };
}

impl Numbers {
    ghost use Rattle.net_types.specs.Number.{next_control, next_instance, with_control, with_instance};

    /// Nothing is given out yet.
    pub fn new() -> Numbers
        ensures { result ≡ record { instances = 0; controls = 0 } }
    {
        Numbers {
            instances: 0,
            controls: 0,
        }
    }

    /// The next instance, from 1.
    pub fn instance(&mut self) -> Instance
        requires { self.old.instances < 2 ^ 32 - 1 }
        ensures next { result ≡ next_instance self.old }
        ensures given { self.new ≡ with_instance self.old }
    {
        self.instances += 1;
        Instance(self.instances)
    }

    /// The mark of the next control frame, from 0.1.
    pub fn control(&mut self) -> Mark
        requires { self.old.controls < 2 ^ 64 - 1 }
        ensures next { result ≡ next_control self.old }
        ensures given { self.new ≡ with_control self.old }
    {
        self.controls += 1;
        Mark {
            packet: 0,
            frame: self.controls,
        }
    }
}
