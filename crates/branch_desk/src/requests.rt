//! The requests that stand.

ghost use Rattle.std.specs.Prelude.{◌≡◌, ◌<◌, ◌≤◌, ◌==◌, ◌&&◌, ◌++◌, ◌∷◌, [], not, All, find, filter, length, slice_get, false, true, Some, is_some, IfOk, IfSome, IfNone};
ghost use Rattle.std.specs.Option.{option_map};
ghost use Rattle.std.specs.List.{list_any};
ghost use Rattle.port_model.specs.DeskAnswers.{is_of_type};
ghost use Rattle.port_model.specs.Requests.{is_on, is_delete_all, leads_home, withdraws};
ghost use Rattle.branch_desk.specs.Requests.{AreApart, AreRising, deleted_of, has_function};
ghost use Rattle.branch_desk.specs.ByEnd.{IsUnder};

use crate::by_end::{ByEnd, MOST_REQUESTS};
use crate::entry::Entry;
use crate::message::{all_of, is_of_type};
use gsmp_wire::Message;
use net_types::{End, OutOfMemory, PortNo};
use std::alloc::Global;
use std::marker::Model;

/// The index of the request with this number.
fn place_of(entries: &[Entry], number: u32) -> Option<usize>
    requires { AreRising entries.now }
    ensures found { IfSome result (IsUnder number entries.now) }
    ensures absent { IfNone result (list_any (λ s. s.number == number) entries.now ≡ false) }
{
    entries
        .binary_search_by(|entry| entry.number().cmp(&number))
        .ok()
}

/// The requests that stand, in order of their numbers, with room for 4,096.
#[derive(Debug, Drop)]
pub(crate) struct Requests {
    entries: Vec<Entry>,
    /// Those on an input, by it.
    inputs: ByEnd,
    /// Delete All, by the end of its port.
    deletes: ByEnd,
}

impl Model for Requests {
    ghost use Rattle.std.specs.Prelude.{◌≡◌, ◌≤◌, true, List, All, length};
    ghost use Rattle.std.specs.Vec.{vec_capacity};
    ghost use Rattle.port_model.specs.Desk.{Standing};
    ghost use Rattle.port_model.specs.Requests.{request_input};
    ghost use Rattle.branch_desk.specs.Requests.{AreApart, AreRising, deleted_of, has_function};
    ghost use Rattle.branch_desk.specs.ByEnd.{AreKeysOf};

    ghost Value = { List Standing };

    ghost view = { λ r. r.entries.items };

    ghost invariant = { λ r. record {
      rising : AreRising r.entries.items;
      apart : AreApart r.entries.items;
      inputs : AreKeysOf request_input r.entries.items r.inputs;
      deletes : AreKeysOf deleted_of r.entries.items r.deletes;
      functions : All (λ (s : Standing). has_function s.request ≡ true) r.entries.items;
      most : length r.entries.items ≤ 4096;
      room : 4096 ≤ vec_capacity r.entries;
    } };
}

impl Requests {
    /// No request.
    pub(crate) fn open(alloc: Global) -> Result<Requests, OutOfMemory>
        ensures { IfOk result (λ requests. requests ≡ []) }
    {
        Ok(Requests {
            entries: Vec::with_capacity(alloc, MOST_REQUESTS)?,
            inputs: ByEnd::open(alloc)?,
            deletes: ByEnd::open(alloc)?,
        })
    }

    /// How many stand.
    pub(crate) fn len(&self) -> usize
        ensures len { result ≡ length self.now }
        ensures apart { AreApart self.now }
        ensures rising { AreRising self.now }
        ensures most { result ≤ 4096 }
    {
        self.entries.len()
    }

    /// The one at this index in order of numbers.
    pub(crate) fn at(&self, place: usize) -> Option<Entry>
        ensures at { result ≡ slice_get self.now place }
        ensures function { IfSome result (λ s. has_function s.request ≡ true) }
    {
        self.entries.get(place).copied()
    }

    /// The one with this number, which stands.
    fn numbered(&self, number: u32) -> Entry
        requires { list_any (λ s. s.number == number) self.now ≡ true }
        ensures { Some result ≡ find (λ s. s.number == number) self.now }
    {
        let Some(place) = place_of(&self.entries, number) else {
            unreachable!()
        };
        self.entries[place]
    }

    /// The one on this input.
    pub(crate) fn on(&self, input: End) -> Option<Entry>
        ensures found { result ≡ find (λ s. is_on input s.request) self.now }
        ensures apart { AreApart self.now }
    {
        let number = self.inputs.get(input)?;
        Some(self.numbered(number))
    }

    /// The number of Delete All of this port.
    pub(crate) fn all_on(&self, port: PortNo) -> Option<u32>
        ensures { result ≡ option_map (λ s. s.number) (find (λ s. is_delete_all port s.request) self.now) }
    {
        self.deletes.get(all_of(port))
    }

    /// Whether one leads this input to the control link, where `home` is its channel there.
    pub(crate) fn is_led_home(&self, input: End, home: End) -> bool
        ensures { result ≡ list_any (λ s. leads_home input home s.request) self.now }
    {
        if self.all_on(input.port).is_some() {
            return true;
        }
        match self.on(input) {
            Some(entry) => entry.leads_home(home),
            None => false,
        }
    }

    /// Whether one is Delete All of a port.
    pub(crate) fn is_deleting(&self) -> bool
        ensures { result ≡ list_any (λ s. is_some (deleted_of s.request)) self.now }
    {
        !self.deletes.is_empty()
    }

    /// The one with this number, where it is of the message's type.
    pub(crate) fn answered_by(&self, message: &Message, number: u32) -> Option<Entry>
        ensures found { result ≡ find (λ s. s.number == number && is_of_type message.now s.request) self.now }
        ensures rising { AreRising self.now }
    {
        let entry = self.entries[place_of(&self.entries, number)?];
        if is_of_type(message, &entry.request()) {
            Some(entry)
        } else {
            None
        }
    }

    /// Puts one at the end.
    pub(crate) fn push(&mut self, entry: Entry)
        requires room { length self.old < 4096 }
        requires free { list_any (λ s. withdraws entry.request s.request) self.old ≡ false }
        requires last { All (λ s. s.number < entry.number) self.old }
        requires function { has_function entry.request ≡ true }
        ensures { self.new ≡ self.old ++ entry ∷ [] }
    {
        self.inputs.insert(entry.input(), entry.number());
        self.deletes.insert(entry.deleted(), entry.number());
        let Ok(()) = self.entries.push(entry) else {
            unreachable!()
        };
    }

    /// Takes the one with this number away, if it is there.
    pub(crate) fn remove(&mut self, number: u32)
        ensures { self.new ≡ filter (λ other. not (other.number == number)) self.old }
    {
        let Some(place) = place_of(&self.entries, number) else {
            return;
        };
        let entry = self.entries.remove(place);
        self.inputs.remove(entry.input(), number);
        self.deletes.remove(entry.deleted(), number);
    }
}
