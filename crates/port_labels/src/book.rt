//! The book of a port's labels.

ghost use Rattle.std.specs.Prelude.{◌≡◌, ◌≤◌, ◌↔◌, [], length, slice_get, option_map, false, IsTrue, IsSome, IfOk, IfSome, OnOk, OnErr, None, Some, if◌then◌else◌};
ghost use Rattle.net_types.specs.Label.{is_label_number};
ghost use Rattle.label_pool.specs.Label.{wires, unwires};
ghost use Rattle.branch_desk.specs.port_model.Labels as model;
ghost use Rattle.branch_desk.specs.port_model.Labels.{label_for, label_number};

use crate::held::Held;
use crate::index::{Flows, enter, number_at, remove_flow, remove_number};
use crate::places::Places;
use crate::view::{HeldLabel, HeldState, LabelView};
use branch_desk::BranchDone;
use ipv4_packet::FlowId;
use label_pool::{Label, Spare};
use net_types::{End, Instance, OutOfMemory};
use std::alloc::Global;
use std::collections::HashMap;
use std::marker::Model;

/// The incoming labels of a port (its local bindings, in a label book; RFC 1953), the lowest first.
/// It must be given up by [`LabelBook::abandon`].
#[must_use]
#[derive(Debug)]
pub struct LabelBook {
    places: Places,
    /// The numbers of the labels that are held, the lowest first.
    numbers: Vec<u16>,
    /// The number of the label that serves each flow.
    flows: Flows,
}

impl Model for LabelBook {
    ghost use Rattle.port_labels.specs.Book.{Book};
    ghost use Rattle.port_labels.specs.Index.{AreFound};

    ghost Value = { Book };

    ghost view = { λ b. b.places };

    ghost invariant = { λ b. AreFound b.numbers.items b.flows.entries b.places.labels };
}

impl LabelBook {
    ghost use Rattle.port_labels.specs.Read.{label_of, state_from, view_of};
    ghost use Rattle.port_labels.specs.Book.{held, state_of, with_new_label, changed, in_state, without_label, wiring, holds_recalled, holds_passed, reclaimed, acknowledged, IsOfBook, IsBook, IsInRange};

    /// A book of the labels from `least` to `greatest`, by their numbers, for the pool of an adjacency
    /// of this instance. No label is held.
    pub fn open(
        alloc: Global,
        instance: Instance,
        least: u16,
        greatest: u16,
    ) -> Result<LabelBook, OutOfMemory>
        requires least { IsTrue (is_label_number least) }
        requires greatest { IsTrue (is_label_number greatest) }
        requires order { least ≤ greatest }
        ensures { IfOk result (λ book. book ≡ record { instance = instance; least = least; greatest = greatest; labels = [] }) }
    {
        let count = (greatest - least) as usize + 1;
        let numbers = Vec::with_capacity(alloc, count)?;
        let flows = HashMap::with_capacity(alloc, count)?;
        Ok(LabelBook {
            places: Places::open(alloc, instance, least, greatest)?,
            numbers,
            flows,
        })
    }

    /// What holds of every book: the numbers of its labels rise, and lie in its range; a flow is served
    /// by at most one label.
    pub fn is_in_order(&self)
        ensures { IsBook self.now }
    {
        self.places.are_in_order();
    }

    /// How many labels are held.
    pub fn len(&self) -> usize
        ensures { result ≡ length self.now.labels }
    {
        self.numbers.len()
    }

    /// Whether no label is held.
    pub fn is_empty(&self) -> bool
        ensures { IsTrue result ↔ (self.now.labels ≡ []) }
    {
        self.numbers.is_empty()
    }

    /// The label at this index among those that are held, counted from 0, as it is shown; none exactly
    /// where the index is at or above the length.
    pub fn at(&self, place: usize) -> Option<LabelView>
        ensures { result ≡ option_map view_of (slice_get self.now.labels place) }
    {
        let number = self.number_at(place)?;
        let label = self.get(number)?;
        Some(label.view())
    }

    /// The number of the label at this index among those that are held, counted from 0; none exactly
    /// where the index is at or above the length.
    pub fn number_at(&self, place: usize) -> Option<u16>
        ensures number { result ≡ option_map label_number (slice_get self.now.labels place) }
        ensures label { IfSome result (λ number. held self.now number ≡ slice_get self.now.labels place) }
    {
        self.places.are_in_order();
        number_at(&self.numbers, place)
    }

    /// The label of this number; none exactly where it isn't held.
    pub fn get(&self, label: u16) -> Option<HeldLabel>
        ensures label { option_map label_of result ≡ held self.now label }
        ensures range { IfSome result (λ entry. IsInRange self.now (label_of entry)) }
    {
        self.places.are_in_order();
        self.places.get(label)
    }

    /// The state of the label of this number; none exactly where it isn't held. No more of the label is
    /// read.
    pub fn state_at(&self, label: u16) -> Option<HeldState>
        ensures { option_map state_from result ≡ state_of self.now label }
    {
        self.places.state(label)
    }

    /// The number of the label that is bound to a flow or is being wired for it; none exactly where
    /// there is no such label.
    pub fn serving(&self, flow: &FlowId) -> Option<u16>
        ensures { result ≡ option_map label_number (label_for self.now.labels flow.now) }
    {
        match self.flows.get(flow) {
            Some(number) => Some(*number),
            None => None,
        }
    }

    /// A label of the pool is being wired for a flow. Where memory is wanting the label is given up, and
    /// nothing changes.
    pub fn enter(&mut self, label: Label<Spare>, flow: FlowId) -> Result<(), OutOfMemory>
        requires own { IsOfBook self.old label }
        requires absent { held self.old label.number ≡ None }
        requires unserved { label_for self.old.labels flow ≡ None }
        ensures ok { OnOk result (self.new ≡ with_new_label self.old (wiring label.number flow)) }
        ensures err { OnErr result (self.new ≡ self.old) }
    {
        self.places.are_in_order();
        let entered = enter(&mut self.numbers, &mut self.flows, label.number(), flow);
        match entered {
            Ok(()) => {
                self.places.put(Held::new(label, flow));
                Ok(())
            }
            Err(error) => {
                label.abandon();
                Err(error)
            }
        }
    }

    /// The branch of a label that is being wired is made, and it is offered to the peer for its flow.
    pub fn offer(&mut self, label: u16, done: &BranchDone)
        requires state { state_of self.old label ≡ Some model.Wiring }
        requires wires { IsTrue (wires label done.now.request) }
        ensures { self.new ≡ in_state self.old label model.Offered }
    {
        let held = self.places.take(label);
        self.places.put(held.offer(done));
    }

    /// A label that is offered is reclaimed by the RECLAIM of this number.
    pub fn recall(&mut self, label: u16, reclaim: u32)
        requires { state_of self.old label ≡ Some model.Offered }
        ensures { self.new ≡ in_state self.old label (model.Recalled reclaim false) }
    {
        let held = self.places.take(label);
        self.places.put(held.recall(reclaim));
    }

    /// A label that is recalled is reclaimed again by the RECLAIM of this number, which is the last one
    /// from now on.
    pub fn reclaim_again(&mut self, label: u16, reclaim: u32)
        requires { IsTrue (holds_recalled self.old label) }
        ensures { self.new ≡ changed self.old label (λ entry. record entry { state = reclaimed reclaim entry.state }) }
    {
        let mut held = self.places.take(label);
        held.reclaim_again(reclaim);
        self.places.put(held);
    }

    /// The peer acknowledges that a label was reclaimed.
    pub fn acknowledge(&mut self, label: u16)
        requires { IsTrue (holds_recalled self.old label) }
        ensures { self.new ≡ changed self.old label (λ entry. record entry { state = acknowledged entry.state }) }
    {
        let mut held = self.places.take(label);
        held.acknowledge();
        self.places.put(held);
    }

    /// Whether the peer, which is known to expect the number `known`, can't use a recalled label any
    /// more: true exactly where the label is acknowledged and `known` is above the number of its last
    /// RECLAIM. Then it is wired; else nothing changes.
    pub fn quit(&mut self, label: u16, known: u32) -> bool
        requires { IsTrue (holds_recalled self.old label) }
        ensures passed { result ≡ holds_passed self.old label known }
        ensures book { self.new ≡ (if result then in_state self.old label model.Wired else self.old) }
    {
        let (held, quit) = self.places.take(label).quit(known);
        if !quit {
            self.places.put(held);
            return false;
        }
        remove_flow(&mut self.flows, held.flow());
        self.places.put(held);
        true
    }

    /// The branch of a label that was quit is deleted: the label is spare, and isn't held any more.
    pub fn free(&mut self, label: u16, done: &BranchDone) -> Label<Spare>
        requires state { state_of self.old label ≡ Some model.Wired }
        requires unwires { IsTrue (unwires label done.now.request) }
        ensures label { result ≡ record { instance = self.old.instance; number = label; state = record {} } }
        ensures range { (self.old.least ≤ label) × (label ≤ self.old.greatest) }
        ensures book { self.new ≡ without_label self.old label }
    {
        self.places.are_in_order();
        remove_number(&mut self.numbers, label);
        self.places.take(label).free(done)
    }

    /// For so many ticks no packet used the label.
    pub fn set_idle(&mut self, label: u16, idle: u32)
        requires { IsSome (held self.old label) }
        ensures { self.new ≡ changed self.old label (λ entry. record entry { idle = idle }) }
    {
        let mut held = self.places.take(label);
        held.idle = idle;
        self.places.put(held);
    }

    /// So many ticks ago the last REDIRECT of the label was sent.
    pub fn set_ticks(&mut self, label: u16, ticks: u32)
        requires { IsSome (held self.old label) }
        ensures { self.new ≡ changed self.old label (λ entry. record entry { ticks = ticks }) }
    {
        let mut held = self.places.take(label);
        held.ticks = ticks;
        self.places.put(held);
    }

    /// The label's input is joined to an output.
    pub fn join(&mut self, label: u16, output: End)
        requires { IsSome (held self.old label) }
        ensures { self.new ≡ changed self.old label (λ entry. record entry { join = Some output }) }
    {
        let mut held = self.places.take(label);
        held.join = Some(output);
        self.places.put(held);
    }

    /// The label's input isn't joined any more.
    pub fn part(&mut self, label: u16)
        requires { IsSome (held self.old label) }
        ensures { self.new ≡ changed self.old label (λ entry. record entry { join = None }) }
    {
        let mut held = self.places.take(label);
        held.join = None;
        self.places.put(held);
    }

    /// Gives the book up, with its labels.
    pub fn abandon(self) {
        let LabelBook {
            places,
            numbers: _,
            flows: _,
        } = self;
        places.abandon();
    }
}
