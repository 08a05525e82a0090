//! All joins of a controller.

ghost use Rattle.std.specs.Prelude.{◌≡◌, ◌==◌, ◌<◌, ◌↔◌, [], not, false, filter, find, length, slice_get, IsTrue, IsOk, IfOk, OnOk, OnErr};
ghost use Rattle.std.specs.List.{list_any};
ghost use Rattle.crossbar_model.specs.Crossbar.{same_end};
ghost use Rattle.keyed_lists.specs.Keyed.{entered};
ghost use Rattle.world_model.specs.Joins.{end_le};
ghost use Rattle.controller_joins.specs.Joined.{AreInOrder};

use crate::places::{Joined, first_from, place_of};
use net_types::{Channel, End, OutOfMemory, PortNo};
use std::alloc::Global;
use std::marker::Model;

/// For how many joins room is taken at the opening. It is this project's own choice.
const ROOM: usize = 1024;

/// The cross-connects of a controller (its joins), in ascending order of their inputs, of which
/// each has one. This project's own.
#[derive(Debug, Drop)]
pub struct Joins {
    list: Vec<Joined>,
}

impl Model for Joins {
    ghost use Rattle.std.specs.Prelude.{◌≤◌, List};
    ghost use Rattle.std.specs.Vec.{vec_capacity};
    ghost use Rattle.controller_joins.specs.declared.places.Joined.{Joined as JoinedValue};
    ghost use Rattle.controller_joins.specs.Joined.{AreInOrder};

    ghost Value = { List JoinedValue };

    ghost view = { λ j. j.list.items };

    ghost invariant = { λ j. record {
      order : AreInOrder j.list.items;
      room : 1024 ≤ vec_capacity j.list;
    } };
}

impl Joins {
    /// None yet, with room for 1,024.
    pub fn open(alloc: Global) -> Result<Joins, OutOfMemory>
        ensures { IfOk result (λ joins. joins ≡ []) }
    {
        Ok(Joins {
            list: Vec::with_capacity(alloc, ROOM)?,
        })
    }

    /// How many there are.
    pub fn len(&self) -> usize
        ensures { result ≡ length self.now }
    {
        self.list.len()
    }

    /// Whether there is none.
    pub fn is_empty(&self) -> bool
        ensures empty { IsTrue result ↔ (self.now ≡ []) }
        ensures order { AreInOrder self.now }
    {
        self.list.len() == 0
    }

    /// The one at an index, counted from 0; `None` exactly where there are no more.
    pub fn at(&self, place: usize) -> Option<Joined>
        ensures { result ≡ slice_get self.now place }
    {
        self.list.get(place).copied()
    }

    /// The join of an input; `None` exactly where it isn't joined.
    pub fn of(&self, input: End) -> Option<Joined>
        ensures found { result ≡ find (λ j. same_end j.input input) self.now }
        ensures order { AreInOrder self.now }
    {
        match place_of(&self.list, input) {
            Ok(place) => Some(self.list[place]),
            Err(_gap) => None,
        }
    }

    /// The first join of an input of a port; `None` exactly where none of its inputs is joined.
    pub fn first_on(&self, port: PortNo) -> Option<Joined>
        ensures found { result ≡ find (λ j. j.input.port.0 == port.0) self.now }
        ensures order { AreInOrder self.now }
    {
        let least = End {
            port,
            channel: Channel { vpi: 0, vci: 0 },
        };
        let place = first_from(&self.list, least);
        if place == self.list.len() {
            return None;
        }
        let joined = self.list[place];
        if joined.input.port.0 == port.0 {
            Some(joined)
        } else {
            None
        }
    }

    /// Enters a join of an input that isn't joined. Want of memory comes only where 1,024 joins or more
    /// are there, and changes nothing.
    pub fn enter(&mut self, joined: Joined) -> Result<(), OutOfMemory>
        requires { list_any (λ j. same_end j.input joined.input) self.old ≡ false }
        ensures ok { OnOk result (self.new ≡ entered (λ a b. end_le a.input b.input) joined self.old) }
        ensures err { OnErr result (self.new ≡ self.old) }
        ensures memory { length self.old < 1024 → IsOk result }
    {
        let Err(gap) = place_of(&self.list, joined.input) else {
            unreachable!()
        };
        self.list.insert(gap, joined)?;
        Ok(())
    }

    /// Ends the join of an input, if it is joined.
    pub fn end(&mut self, input: End)
        ensures { self.new ≡ filter (λ j. not (same_end j.input input)) self.old }
    {
        if let Ok(place) = place_of(&self.list, input) {
            self.list.remove(place);
        }
    }

    /// Ends all joins.
    pub fn clear(&mut self)
        ensures { self.new ≡ [] }
    {
        self.list.clear();
    }

    /// Ends all joins to the labels of a port.
    pub fn end_to(&mut self, port: PortNo)
        ensures { self.new ≡ filter (λ j. not (j.port.0 == port.0)) self.old }
    {
        self.list.retain(|joined| joined.port.0 != port.0);
    }
}
