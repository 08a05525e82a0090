//! The routes, and the changes that wait.

ghost use Rattle.std.specs.Prelude.{◌≡◌, ◌≢◌, ◌<◌, ◌+◌, ◌^◌, ◌∷◌, ◌++◌, [], List, fold, length, false, slice_get, true, None, OnOk, OnErr};
ghost use Rattle.ipv4_packet.specs.Parts.{flow_destination};
ghost use Rattle.ipv4_forward.specs.Change.{change_fault, changed};
ghost use Rattle.ipv4_forward.specs.declared.change.RouteChange.{RouteChange as ChangeValue};
ghost use Rattle.world_model.specs.Routes.{differs};
ghost use Rattle.controller_routes.specs.Routes.{stays};

use crate::differs::{destination_of, differs};
use ipv4_forward::{RouteChange, Table};
use ipv4_packet::FlowId;
use net_types::OutOfMemory;
use std::alloc::Global;
use std::collections::VecDeque;
use std::marker::Model;

/// A routing table with its pending updates: the routes that are held, and the changes that wait,
/// the first to come first. This project's own.
#[derive(Debug, Drop)]
pub struct Routes {
    table: Table,
    waiting: VecDeque<RouteChange>,
    /// Whether the first of them is begun.
    is_begun: bool,
    /// How many changes were taken.
    changes: u32,
}

impl Model for Routes {
    ghost use Rattle.controller_routes.specs.Routes as views;

    ghost Value = { views.Routes };

    ghost view = { λ r. record { table = r.table; waiting = r.waiting.items; is_begun = r.is_begun; changes = r.changes } };

    ghost invariant = { λ r. views.AreSound (record { table = r.table; waiting = r.waiting.items; is_begun = r.is_begun; changes = r.changes }) };
}

impl Routes {
    /// With this table; no change waits.
    pub fn new(alloc: Global, table: Table) -> Routes
        ensures { result ≡ record { table = table; waiting = []; is_begun = false; changes = 0 } }
    {
        Routes {
            table,
            waiting: VecDeque::new(alloc),
            is_begun: false,
            changes: 0,
        }
    }

    /// The table held.
    pub fn table(&self) -> &Table
        ensures { result.now ≡ self.now.table }
    {
        &self.table
    }

    /// The first change that waits; `None` exactly where none waits.
    pub fn first(&self) -> Option<RouteChange>
        ensures { result ≡ slice_get self.now.waiting 0 }
    {
        self.waiting.front().copied()
    }

    /// How many changes wait.
    pub fn waiting(&self) -> usize
        ensures { result ≡ length self.now.waiting }
    {
        self.waiting.len()
    }

    /// The change that waits at this index, the first to come first, counted from 0. None exactly where
    /// the index is at or above their count.
    pub fn waiting_at(&self, place: usize) -> Option<RouteChange>
        ensures { result ≡ slice_get self.now.waiting place }
    {
        self.waiting.get(place).copied()
    }

    /// Whether the first change that waits is begun.
    pub fn is_begun(&self) -> bool
        ensures { result ≡ self.now.is_begun }
    {
        self.is_begun
    }

    /// A change waits behind all others, after which the table takes it. Want of memory changes nothing.
    pub fn push(&mut self, change: &RouteChange) -> Result<(), OutOfMemory>
        requires taken { change_fault (fold changed self.old.table self.old.waiting) change.now ≡ None }
        requires count { self.old.changes + length self.old.waiting + 1 < 2 ^ 32 }
        ensures ok { OnOk result (self.new ≡ record self.old { waiting = self.old.waiting ++ change.now ∷ [] }) }
        ensures err { OnErr result (self.new ≡ self.old) }
    {
        self.waiting.push_back(*change)?;
        Ok(())
    }

    /// The first change is begun.
    pub fn begin(&mut self)
        ensures { self.new ≡ record self.old { is_begun = true } }
    {
        self.is_begun = true;
    }

    /// The first change is to be begun anew.
    pub fn give_up(&mut self)
        ensures { self.new ≡ record self.old { is_begun = false } }
    {
        self.is_begun = false;
    }

    /// Takes the first change, if one waits: the changed table is held, and the changes behind it wait.
    /// The answer is how many were taken.
    pub fn take(&mut self) -> u32
        requires { self.old.waiting ≢ [] }
        ensures taken { (change : ChangeValue) (later : List ChangeValue) → self.old.waiting ≡ change ∷ later → self.new ≡ record { table = changed self.old.table change; waiting = later; is_begun = false; changes = self.old.changes + 1 } }
        ensures count { result ≡ self.old.changes + 1 }
    {
        let Some(change) = self.waiting.pop_front() else {
            unreachable!()
        };
        let Ok(()) = self.table.apply(&change) else {
            unreachable!()
        };
        self.is_begun = false;
        self.changes += 1;
        self.changes
    }

    /// Whether the best route of a flow's destination is another after the change.
    pub fn differs(&self, change: &RouteChange, flow: &FlowId) -> bool
        ensures { result ≡ differs self.now.table change.now (flow_destination flow.now) }
    {
        differs(&self.table, change, destination_of(flow))
    }

    /// Whether the route of a flow stays: no change that is begun leads it elsewhere.
    pub fn stays(&self, flow: &FlowId) -> bool
        ensures { result ≡ stays self.now (flow_destination flow.now) }
    {
        if !self.is_begun {
            return true;
        }
        match self.waiting.front() {
            None => true,
            Some(change) => !self.differs(change, flow),
        }
    }
}
