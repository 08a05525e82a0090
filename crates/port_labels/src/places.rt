//! The labels of a range that are held, each at the index of its number.

ghost use Rattle.std.specs.Prelude.{◌≡◌, ◌<◌, ◌≤◌, ◌+◌, [], replicate, slice_get, slice_set, length, option_map, IsSome, IfOk, None, Some};
ghost use Rattle.std.specs.List.{AllByRecursion};
ghost use Rattle.std.specs.Vec.{vec_len};
ghost use Rattle.branch_desk.specs.port_model.Labels as model;
ghost use Rattle.port_labels.specs.Read.{label_of, state_from};
ghost use Rattle.port_labels.specs.Held.{shown, number_in, instance_in};

use crate::held::Held;
use crate::view::{HeldLabel, HeldState};
use net_types::{Instance, OutOfMemory};
use std::alloc::Global;
use std::marker::Model;
use std::mem;

/// So many empty entries.
fn empty_places(alloc: Global, count: usize) -> Result<Vec<Option<Held>>, OutOfMemory>
    ensures { IfOk result (λ places. places.items ≡ replicate count None) }
{
    let mut places = Vec::with_capacity(alloc, count)?;
    for _place in 0..count {
        let pushed = places.push(None);
        let Ok(()) = pushed else { unreachable!() };
    }
    Ok(places)
}

/// Takes out what is held at an index.
fn take_at(places: &mut Vec<Option<Held>>, place: usize) -> Option<Held>
    requires { place < vec_len places.old }
    ensures taken { slice_get places.old.items place ≡ Some result }
    ensures left { places.new.items ≡ slice_set places.old.items place None }
{
    mem::replace(&mut places[place], None)
}

/// Puts a label into an empty entry.
fn put_at(places: &mut Vec<Option<Held>>, place: usize, held: Held)
    requires { slice_get places.old.items place ≡ Some None }
    ensures { places.new.items ≡ slice_set places.old.items place (Some held) }
{
    let before = mem::replace(&mut places[place], Some(held));
    let None = before else { unreachable!() };
}

/// The labels of a range that are held. They must be given up by [`Places::abandon`].
#[must_use]
#[derive(Debug)]
pub(crate) struct Places {
    /// Of the adjacency for whose pool the labels are.
    instance: Instance,
    /// The range, by the numbers of its labels.
    least: u16,
    greatest: u16,
    /// What is held of each number from `least` on.
    held: Vec<Option<Held>>,
}

impl Model for Places {
    ghost use Rattle.std.specs.Prelude.{◌≡◌, ◌+◌, length};
    ghost use Rattle.port_labels.specs.Book.{Book};

    ghost Value = { Book };

    ghost use Rattle.port_labels.specs.Held.{labels_in, AreInPlace};

    ghost view = { λ p. record {
      instance = p.instance;
      least = p.least;
      greatest = p.greatest;
      labels = labels_in p.held.items;
    } };

    ghost invariant = { λ p. record {
      sized : length p.held.items + p.least ≡ p.greatest + 1;
      placed : AreInPlace p.instance p.least p.held.items;
    } };
}

impl Places {
    ghost use Rattle.port_labels.specs.Held.{HasPlaceFor};
    ghost use Rattle.port_labels.specs.Book.{held, state_of, with_label, with_new_label, without_label, IsInRange, Rises};

    /// The entries of a range, with no label.
    pub(crate) fn open(
        alloc: Global,
        instance: Instance,
        least: u16,
        greatest: u16,
    ) -> Result<Places, OutOfMemory>
        requires { least ≤ greatest }
        ensures { IfOk result (λ places. places ≡ record { instance = instance; least = least; greatest = greatest; labels = [] }) }
    {
        let count = (greatest - least) as usize + 1;
        Ok(Places {
            instance,
            least,
            greatest,
            held: empty_places(alloc, count)?,
        })
    }

    /// The label of a number, where it is held.
    fn find(&self, label: u16) -> Option<&Held>
        ensures { option_map (λ h. shown h.now) result ≡ held self.now label }
    {
        if label < self.least || label > self.greatest {
            return None;
        }
        match &self.held[(label - self.least) as usize] {
            Some(held) => Some(held),
            None => None,
        }
    }

    /// The label of a number as it is read, where it is held.
    pub(crate) fn get(&self, label: u16) -> Option<HeldLabel>
        ensures { option_map label_of result ≡ held self.now label }
    {
        let held = self.find(label)?;
        Some(held.read())
    }

    /// The state of the label of a number as it is read, where it is held.
    pub(crate) fn state(&self, label: u16) -> Option<HeldState>
        ensures { option_map state_from result ≡ state_of self.now label }
    {
        let held = self.find(label)?;
        Some(held.state())
    }

    /// Takes a label out.
    pub(crate) fn take(&mut self, label: u16) -> Held
        requires { IsSome (held self.old label) }
        ensures label { held self.old label ≡ Some (shown result) }
        ensures number { number_in result.stage ≡ label }
        ensures instance { instance_in result.stage ≡ self.old.instance }
        ensures range { IsInRange self.old (shown result) }
        ensures rest { self.new ≡ without_label self.old label }
        ensures place { HasPlaceFor self.new (instance_in result.stage) label }
        ensures back { (entry : model.Label) → entry.number ≡ label → with_new_label self.new entry ≡ with_label self.old entry }
    {
        let place = (label - self.least) as usize;
        let Some(held) = take_at(&mut self.held, place) else {
            unreachable!()
        };
        held
    }

    /// Puts a label of the range in, which isn't there.
    pub(crate) fn put(&mut self, label: Held)
        requires { HasPlaceFor self.old (instance_in label.stage) (number_in label.stage) }
        ensures { self.new ≡ with_new_label self.old (shown label) }
    {
        let place = (label.number() - self.least) as usize;
        put_at(&mut self.held, place, label);
    }

    /// What holds of the labels that are held: their numbers rise, and lie in the range.
    pub(crate) fn are_in_order(&self)
        ensures rises { Rises self.now.labels }
        ensures inside { AllByRecursion (IsInRange self.now) self.now.labels }
        ensures few { length self.now.labels + self.now.least ≤ self.now.greatest + 1 }
    {
        let _held = &self.held;
    }

    /// Gives all labels up.
    pub(crate) fn abandon(self) {
        let Places {
            instance: _,
            least: _,
            greatest: _,
            mut held,
        } = self;
        while let Some(place) = held.pop() {
            match place {
                Some(label) => label.abandon(),
                None => {}
            }
        }
        held.destroy_empty();
    }
}
