//! The grants of a port.

ghost use Rattle.std.specs.Prelude.{◌≡◌, ◌<◌, ◌≤◌, ◌↔◌, [], length, slice_get, option_map, true, false, IsTrue, IsSome, IfSome, IfOk, None, Some, if◌then◌else◌};
ghost use Rattle.std.specs.Option.{option_map_or};
ghost use Rattle.ipv4_packet.specs.Packet.{IsPacket};
ghost use Rattle.net_types.specs.Label.{is_label_number};
ghost use Rattle.branch_desk.specs.port_model.Grants as grants;
ghost use Rattle.branch_desk.specs.port_model.Grants.{grant_label, grant_for, grant_matching, grant_of_kind};

use crate::grant::Grant;
use crate::grants::{Grants, MOST_GRANTS};
use crate::held::Held;
use branch_desk::BranchDone;
use ipv4_packet::{FlowId, FlowKind, of_packet};
use net_types::{End, OutOfMemory, is_label_number};
use std::alloc::Global;
use std::marker::Model;
use thiserror::Error;

/// The outcome of a REDIRECT (RFC 1953) that is accepted: what it makes of the grants.
#[derive(Clone, Copy, Debug, PartialEq, Eq)]
pub enum Accepted {
    /// A new grant.
    New,
    /// A new lifetime of a grant that is there.
    Refreshed,
}

/// The cause of an IFMP Error message (RFC 1953): why a REDIRECT isn't accepted. The causes are
/// this project's own.
#[derive(Clone, Copy, Debug, PartialEq, Eq, Error)]
pub enum AcceptFault {
    /// The label is outside the range of the port.
    #[error("the label is outside the range of the port")]
    OutOfRange,
    /// Another flow holds the label.
    #[error("another flow holds the label")]
    Taken,
    /// The grant of the label is leaving.
    #[error("the grant of the label is leaving")]
    Leaving,
    /// There are 256 grants.
    #[error("the port has 256 grants")]
    GrantsFull,
}

/// The state of an outgoing label (of a grant). This project's own.
#[derive(Clone, Copy, Debug, PartialEq, Eq)]
pub enum GrantState {
    /// Its branch from the controller is being made.
    Idle,
    /// The controller sends under it.
    ByController,
    /// An input is joined to it.
    ByInput,
    /// It ends when its input is released.
    Leaving,
}

/// An outgoing label (a remote binding, here a grant) as it is read: what the end that sends under
/// a label holds of it (RFC 1953). Its lifetime is in ticks.
#[derive(Clone, Copy, Debug, PartialEq, Eq)]
pub struct GrantView {
    /// The number of its label.
    pub label: u16,
    /// Its state.
    pub state: GrantState,
    /// The flow that may be sent under the label.
    pub flow: FlowId,
    /// The ticks that it has left to live.
    pub lifetime: u16,
    /// The input that is joined to it, in ByInput and Leaving alone.
    pub input: Option<End>,
    /// Whether the peer is owed an acknowledgement when it ends, in Leaving alone.
    pub owed: bool,
}

/// The outgoing labels of a port (its remote bindings, here grants): those under which it may send
/// (RFC 1953), in the order in which they were accepted. It must be given up by
/// [`GrantTable::abandon`].
#[must_use]
#[derive(Debug)]
pub struct GrantTable {
    /// The range of labels of the port, by their numbers.
    least: u16,
    greatest: u16,
    grants: Grants,
}

impl Model for GrantTable {
    ghost use Rattle.grant_table.specs.Table.{Table, AreApart, AreOfLabels};

    ghost Value = { Table };

    ghost view = { λ t. record { least = t.least; greatest = t.greatest; grants = t.grants } };

    ghost invariant = { λ t. record {
      apart : AreApart t.grants;
      labels : AreOfLabels t.grants;
    } };
}

impl GrantTable {
    ghost use Rattle.std.specs.List.{insert};
    ghost use Rattle.grant_table.specs.Held.{shown};
    ghost use Rattle.grant_table.specs.Places.{IsGapOf};
    ghost use Rattle.grant_table.specs.Table.{AreApart, AreOfLabels, is_in_range, acceptance_in, grant_of, state_of, lent_to, with_grant, in_state, ended, makes_branch, can_go_back, can_end, is_owed, told, accepted, aged, runs_out, view_of};

    /// A table of a port that takes the labels from `least` to `greatest`, by their numbers, with
    /// room for 256 grants. No other call takes memory.
    pub fn open(alloc: Global, least: u16, greatest: u16) -> Result<GrantTable, OutOfMemory>
        requires least { IsTrue (is_label_number least) }
        requires greatest { IsTrue (is_label_number greatest) }
        requires order { least ≤ greatest }
        ensures { IfOk result (λ table. table ≡ record { least = least; greatest = greatest; grants = [] }) }
    {
        Ok(GrantTable {
            least,
            greatest,
            grants: Grants::open(alloc)?,
        })
    }

    /// Takes a REDIRECT in: a new grant at the end, which is idle, or a new lifetime, in ticks, of
    /// the grant that is there. Refuses, by the first that applies, and then changes nothing: a label
    /// outside the range; one that another flow holds; one whose grant is leaving; a new grant where
    /// 256 are there.
    pub fn accept(&mut self, vci: u16, flow: FlowId, lifetime: u16) -> Result<Accepted, AcceptFault>
        ensures answer { result ≡ told (acceptance_in self.old vci flow) }
        ensures grants { self.new ≡ accepted self.old flow lifetime (acceptance_in self.old vci flow) }
    {
        if !self.is_in_range(vci) {
            return Err(AcceptFault::OutOfRange);
        }
        let Some(place) = self.grants.place_of(vci) else {
            if self.grants.len() >= MOST_GRANTS {
                return Err(AcceptFault::GrantsFull);
            }
            self.grants.push(Grant::new(vci, flow, lifetime));
            return Ok(Accepted::New);
        };
        let held = self.grants.get(place);
        if !held.is_of(&flow) {
            return Err(AcceptFault::Taken);
        }
        if held.is_leaving() {
            return Err(AcceptFault::Leaving);
        }
        self.set_lifetime(place, lifetime);
        Ok(Accepted::Refreshed)
    }

    /// The branch of an idle grant is made: the controller sends under it.
    pub fn started(&mut self, vci: u16, done: &BranchDone)
        requires idle { state_of self.old vci ≡ Some grants.Idle }
        requires done { IsTrue (makes_branch vci done.now.request) }
        ensures { self.new ≡ in_state self.old vci grants.ByController }
    {
        let (place, held) = self.take_out(vci);
        let Held::Idle(grant) = held else {
            unreachable!()
        };
        self.put_back(place, Held::ByController(grant.started()));
    }

    /// An input is joined to a grant under which the controller sends.
    pub fn lend(&mut self, vci: u16, input: End)
        requires { state_of self.old vci ≡ Some grants.ByController }
        ensures { self.new ≡ in_state self.old vci (grants.ByInput input) }
    {
        let (place, held) = self.take_out(vci);
        let Held::ByController(grant) = held else {
            unreachable!()
        };
        self.put_back(place, Held::ByInput(grant.lend(input)));
    }

    /// A grant that is lent is to end when its input is released; `owed` tells whether the peer is
    /// owed an acknowledgement then.
    pub fn leave(&mut self, vci: u16, owed: bool)
        requires { IsSome (lent_to self.old vci) }
        ensures { IfSome (lent_to self.old vci) (λ input. self.new ≡ in_state self.old vci (grants.Leaving input owed)) }
    {
        let (place, held) = self.take_out(vci);
        let leaving = match held {
            Held::ByInput(grant) => grant.leave(owed),
            Held::Leaving(grant) => grant.leave(owed),
            _not_lent => unreachable!(),
        };
        self.put_back(place, Held::Leaving(leaving));
    }

    /// The input of a lent grant is released: the controller sends under it again.
    pub fn back(&mut self, vci: u16, done: &BranchDone)
        requires { IsTrue (option_map_or (can_go_back done.now.request) (state_of self.old vci) false) }
        ensures { self.new ≡ in_state self.old vci grants.ByController }
    {
        let (place, held) = self.take_out(vci);
        let Held::ByInput(grant) = held else {
            unreachable!()
        };
        self.put_back(place, Held::ByController(grant.back()));
    }

    /// A grant ends: one that is idle or the controller's at once, one that is leaving where its
    /// input is released. The answer tells whether the peer is owed an acknowledgement.
    pub fn end(&mut self, vci: u16, done: Option<&BranchDone>) -> bool
        requires { IsTrue (option_map_or (can_end (option_map (λ d. d.now.request) done)) (state_of self.old vci) false) }
        ensures ended { self.new ≡ ended self.old vci }
        ensures owed { option_map is_owed (state_of self.old vci) ≡ Some result }
    {
        let (_place, held) = self.take_out(vci);
        held.end()
    }

    /// The label under which the controller sends a packet: of the first grant of its flow of type 1,
    /// else of the first one of its flow of type 2. None exactly where there is none.
    pub fn find(&self, packet: &[u8]) -> Option<u16>
        requires { IsPacket packet.now }
        ensures found { result ≡ option_map grant_label (grant_matching self.now.grants packet.now) }
        ensures label { IfSome result (λ label. IsTrue (is_label_number label)) }
    {
        match self.find_by(FlowKind::One, packet) {
            Some(label) => Some(label),
            None => self.find_by(FlowKind::Two, packet),
        }
    }

    /// The label under which the controller sends a packet by its flow of this kind.
    fn find_by(&self, kind: FlowKind, packet: &[u8]) -> Option<u16>
        requires { IsPacket packet.now }
        ensures found { result ≡ option_map grant_label (grant_of_kind self.now.grants kind packet.now) }
        ensures label { IfSome result (λ label. IsTrue (is_label_number label)) }
    {
        let flow = of_packet(kind, packet)?;
        self.by_flow(&flow)
    }

    /// The label of the first grant under which the controller sends a flow. None exactly where there
    /// is none.
    pub fn by_flow(&self, flow: &FlowId) -> Option<u16>
        ensures found { result ≡ option_map grant_label (grant_for self.now.grants flow.now) }
        ensures label { IfSome result (λ label. IsTrue (is_label_number label)) }
    {
        self.grants.first_of(flow)
    }

    /// The grant of a label. None exactly where there is none.
    pub fn get(&self, vci: u16) -> Option<GrantView>
        ensures { result ≡ option_map view_of (grant_of self.now vci) }
    {
        let place = self.grants.place_of(vci)?;
        Some(self.grants.get(place).view())
    }

    /// How many grants there are.
    pub fn len(&self) -> usize
        ensures len { result ≡ length self.now.grants }

        // What a caller that doesn't open the table needs besides.
        ensures few { result ≤ 256 }
        ensures apart { AreApart self.now.grants }
        ensures labels { AreOfLabels self.now.grants }
    {
        self.grants.len()
    }

    /// Whether there is no grant.
    pub fn is_empty(&self) -> bool
        ensures { IsTrue result ↔ (self.now.grants ≡ []) }
    {
        self.grants.len() == 0
    }

    /// The label of the grant at an index in the order of acceptance, counted from 0. None exactly
    /// where the index is at or above the length.
    pub fn at(&self, place: usize) -> Option<u16>
        ensures label { result ≡ option_map grant_label (slice_get self.now.grants place) }
        ensures found { IfSome result (λ label. grant_of self.now label ≡ slice_get self.now.grants place) }
        ensures number { IfSome result (λ label. IsTrue (is_label_number label)) }
    {
        if place >= self.grants.len() {
            return None;
        }
        Some(self.grants.get(place).label())
    }

    /// The grant at an index in the order of acceptance, counted from 0. None exactly where the index is
    /// at or above the length.
    pub fn view_at(&self, place: usize) -> Option<GrantView>
        ensures grant { result ≡ option_map view_of (slice_get self.now.grants place) }
        ensures number { IfSome result (λ grant. IsTrue (is_label_number grant.label)) }
    {
        if place >= self.grants.len() {
            return None;
        }
        Some(self.grants.get(place).view())
    }

    /// Takes one tick of lifetime from the grant at an index in the order of acceptance, counted from
    /// 0, unless it is leaving or has none left. The answer is its label exactly where none is left by
    /// this call.
    pub fn expire(&mut self, place: usize) -> Option<u16>
        requires { place < length self.old.grants }
        ensures aged { IfSome (slice_get self.old.grants place) (λ grant. self.new ≡ with_grant self.old (aged grant)) }
        ensures label { IfSome (slice_get self.old.grants place) (λ grant. result ≡ (if runs_out grant then Some grant.label else None)) }
    {
        let held = self.grants.get(place);
        if !held.ages() {
            return None;
        }
        let label = held.label();
        let left = held.lifetime() - 1;
        self.set_lifetime(place, left);
        if left == 0 { Some(label) } else { None }
    }

    /// Gives all grants up, wherever they are.
    pub fn clear(&mut self)
        ensures { self.new ≡ record self.old { grants = [] } }
    {
        self.grants.clear();
    }

    /// Gives the table up, with its grants.
    pub fn abandon(self) {
        let GrantTable {
            least: _,
            greatest: _,
            grants,
        } = self;
        grants.abandon();
    }

    /// Takes the grant of a label out, and tells its index.
    fn take_out(&mut self, label: u16) -> (usize, Held)
        requires { IsSome (grant_of self.old label) }
        ensures grant { grant_of self.old label ≡ Some (shown result.1) }
        ensures label { (shown result.1).label ≡ label }
        ensures number { IsTrue (is_label_number label) }
        ensures rest { self.new ≡ ended self.old label }
        ensures place { IsGapOf self.old.grants self.new.grants label result.0 }
    {
        let Some(place) = self.grants.place_of(label) else {
            unreachable!()
        };
        (place, self.grants.take_out(place))
    }

    /// Puts a grant back at its index.
    fn put_back(&mut self, place: usize, grant: Held)
        requires gap { place ≤ length self.old.grants }
        requires room { length self.old.grants < 256 }
        requires absent { grant_of self.old (shown grant).label ≡ None }
        requires label { IsTrue (is_label_number (shown grant).label) }
        ensures { self.new ≡ record self.old { grants = insert self.old.grants place (shown grant) } }
    {
        self.grants.put_back(place, grant);
    }

    /// The grant at an index has another lifetime.
    fn set_lifetime(&mut self, place: usize, lifetime: u16)
        requires { place < length self.old.grants }
        ensures { (grant : grants.Grant) → slice_get self.old.grants place ≡ Some grant → self.new ≡ with_grant self.old (record grant { lifetime = lifetime }) }
    {
        self.grants.set_lifetime(place, lifetime);
    }

    /// Whether the number is one of a label in the range of the port.
    fn is_in_range(&self, label: u16) -> bool
        ensures { result ≡ is_in_range self.now label }
    {
        is_label_number(label) && self.least <= label && label <= self.greatest
    }
}
