//! The numbers of requests by the ends that they are on.

ghost use Rattle.std.specs.Prelude.{◌≡◌, ◌<◌, ◌≤◌, ◌==◌, [], length, insert, true, false, IfOk, IfErr, IfSome, IfNone};
ghost use Rattle.std.specs.List.{list_any};
ghost use Rattle.std.specs.Option.{option_map};
ghost use Rattle.port_model.specs.crossbar_model.Channels.{end_cmp};
ghost use Rattle.branch_desk.specs.ByEnd.{AreInOrder, IsPlaceOf, IsGapFor, IsEntered, entry_of, has_end, has_other, is_entry};

use net_types::{End, OutOfMemory};
use std::alloc::Global;
use std::cmp::Ordering;
use std::marker::Model;

/// The most requests that stand at a desk, each with a ticket: those that are needed are asked up to
/// here. It is this project's own limit.
pub const MOST_REQUESTS: usize = 4096;

/// The number of a request, and the end that it is on.
#[derive(Clone, Copy, Debug)]
pub(crate) struct Numbered {
    /// The end.
    pub(crate) end: End,
    /// The number of the request.
    pub(crate) number: u32,
}

/// The order of ends: by port, then by VPI, then by VCI.
fn order(a: &End, b: &End) -> Ordering
    ensures { result ≡ end_cmp a.now b.now }
{
    let ports = a.port.0.cmp(&b.port.0);
    let paths = a.channel.vpi.cmp(&b.channel.vpi);
    let channels = a.channel.vci.cmp(&b.channel.vci);
    ports.then(paths).then(channels)
}

/// An index where a number of the end stands, or else the index where it would stand.
fn place_of(numbers: &[Numbered], end: End) -> Result<usize, usize>
    requires { AreInOrder numbers.now }
    ensures found { IfOk result (IsPlaceOf numbers.now end) }
    ensures absent { IfErr result (IsGapFor numbers.now end) }
{
    numbers.binary_search_by(|entry| order(&entry.end, &end))
}

/// An index where a number of the end may go.
fn place_for(numbers: &[Numbered], entry: Numbered) -> usize
    requires { AreInOrder numbers.now }
    ensures within { result ≤ length numbers.now }
    ensures sorted { AreInOrder (insert numbers.now result entry) }
{
    match place_of(numbers, entry.end) {
        Ok(place) => place,
        Err(place) => place,
    }
}

/// The numbers of requests by the ends that they are on, with room for so many as can stand.
#[derive(Debug, Drop)]
pub(crate) struct ByEnd {
    /// In the order of the ends.
    numbers: Vec<Numbered>,
}

impl Model for ByEnd {
    ghost use Rattle.std.specs.Prelude.{◌≤◌, List};
    ghost use Rattle.std.specs.Vec.{vec_capacity};
    ghost use Rattle.branch_desk.specs.declared.by_end.Numbered.{Numbered};
    ghost use Rattle.branch_desk.specs.ByEnd.{AreInOrder};

    ghost Value = { List Numbered };

    ghost view = { λ b. b.numbers.items };

    ghost invariant = { λ b. record {
      in_order : AreInOrder b.numbers.items;
      room : 4096 ≤ vec_capacity b.numbers;
    } };
}

impl ByEnd {
    /// No number.
    pub(crate) fn open(alloc: Global) -> Result<ByEnd, OutOfMemory>
        ensures { IfOk result (λ by_end. by_end ≡ []) }
    {
        Ok(ByEnd {
            numbers: Vec::with_capacity(alloc, MOST_REQUESTS)?,
        })
    }

    /// Whether there is no number.
    pub(crate) fn is_empty(&self) -> bool
        ensures { result ≡ (length self.now == 0) }
    {
        self.numbers.is_empty()
    }

    /// The number of a request on this end.
    pub(crate) fn get(&self, end: End) -> Option<u32>
        ensures some { IfSome result (λ number. list_any (is_entry end number) self.now ≡ true) }
        ensures none { IfNone result (list_any (has_end end) self.now ≡ false) }
    {
        match place_of(&self.numbers, end) {
            Ok(place) => Some(self.numbers[place].number),
            Err(_gap) => None,
        }
    }

    /// Enters the number of a request that is on this end, if it is on one.
    pub(crate) fn insert(&mut self, end: Option<End>, number: u32)
        requires { length self.old < 4096 }
        ensures { IsEntered self.old self.new (entry_of number end) }
    {
        let Some(end) = end else {
            return;
        };
        let entry = Numbered { end, number };
        let place = place_for(&self.numbers, entry);
        let Ok(()) = self.numbers.insert(place, entry) else {
            unreachable!()
        };
    }

    /// Takes the number of the request that is on this end away, if it is on one: no other is there.
    pub(crate) fn remove(&mut self, end: Option<End>, number: u32)
        requires there { IfSome end (λ e. list_any (has_end e) self.old ≡ true) }
        requires alone { IfSome end (λ e. list_any (has_other e number) self.old ≡ false) }
        ensures { IsEntered self.new self.old (entry_of number end) }
    {
        let Some(end) = end else {
            return;
        };
        if let Ok(place) = place_of(&self.numbers, end) {
            self.numbers.remove(place);
        }
    }
}
