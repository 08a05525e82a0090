//! Grants in the order in which they were accepted.

ghost use Rattle.std.specs.Prelude.{◌≡◌, ◌<◌, ◌≤◌, ◌==◌, ◌&&◌, [], ◌∷◌, ◌++◌, length, map as map_list, slice_get, slice_set, option_map, find, position, IfSome, IfNone, IfOk, Some};
ghost use Rattle.std.specs.List.{remove, insert};
ghost use Rattle.keyed_lists.specs.Keyed.{at};
ghost use Rattle.ipv4_packet.specs.Parts.{same_flow};
ghost use Rattle.branch_desk.specs.port_model.Grants.{Grant as GrantValue, grant_label, grant_for, is_by_controller};
ghost use Rattle.grant_table.specs.Held.{shown};
ghost use Rattle.grant_table.specs.Places.{IsPlaceOf};

use crate::grant::{Grant, Idle};
use crate::held::Held;
use crate::tags::{first_of, flow_tag};
use ipv4_packet::FlowId;
use net_types::OutOfMemory;
use std::alloc::Global;
use std::marker::Model;

/// The most grants of a port.
pub const MOST_GRANTS: usize = 256;

/// The index of the first grant of a label.
fn place_of(held: &[Held], label: u16) -> Option<usize>
    ensures { result ≡ position (λ h. (shown h).label == label) held.now }
{
    held.iter().position(|grant| grant.label() == label)
}

/// Grants in the order in which they were accepted, with room for 256.
#[must_use]
#[derive(Debug)]
pub(crate) struct Grants {
    held: Vec<Held>,
    /// The tag of each.
    tags: Vec<u8>,
}

impl Model for Grants {
    ghost use Rattle.std.specs.Prelude.{◌≡◌, ◌≤◌, List, length, map};
    ghost use Rattle.std.specs.Vec.{vec_capacity};
    ghost use Rattle.branch_desk.specs.port_model.Grants.{Grant};

    ghost Value = { List Grant };

    ghost use Rattle.grant_table.specs.Held.{shown};
    ghost use Rattle.grant_table.specs.Tags.{held_tag};

    ghost view = { λ g. map shown g.held.items };

    ghost invariant = { λ g. record {
      few : length g.held.items ≤ 256;
      room : 256 ≤ vec_capacity g.held;
      tagged : g.tags.items ≡ map held_tag g.held.items;
      tags_room : 256 ≤ vec_capacity g.tags;
    } };
}

impl Grants {
    /// No grant.
    pub(crate) fn open(alloc: Global) -> Result<Grants, OutOfMemory>
        ensures { IfOk result (λ grants. grants ≡ []) }
    {
        let tags = Vec::with_capacity(alloc, MOST_GRANTS)?;
        Ok(Grants {
            held: Vec::with_capacity(alloc, MOST_GRANTS)?,
            tags,
        })
    }

    /// How many there are.
    pub(crate) fn len(&self) -> usize
        ensures len { result ≡ length self.now }
        ensures few { result ≤ 256 }
    {
        self.held.len()
    }

    /// The grant at an index.
    pub(crate) fn get(&self, place: usize) -> &Held
        requires { place < length self.now }
        ensures { slice_get self.now place ≡ Some (shown result.now) }
    {
        &self.held[place]
    }

    /// The grant at an index has another lifetime.
    pub(crate) fn set_lifetime(&mut self, place: usize, lifetime: u16)
        requires { place < length self.old }
        ensures { (grant : GrantValue) → slice_get self.old place ≡ Some grant → self.new ≡ slice_set self.old place (record grant { lifetime = lifetime }) }
    {
        let grant = &mut self.held[place];
        grant.set_lifetime(lifetime);
    }

    /// The index of the first grant of a label.
    pub(crate) fn place_of(&self, label: u16) -> Option<usize>
        ensures some { IfSome result (IsPlaceOf self.now label) }
        ensures none { IfNone result (at grant_label label self.now ≡ None) }
    {
        place_of(&self.held, label)
    }

    /// The label of the first grant under which the controller sends a flow.
    #[tactic(auto, using(crate::proofs::Found::found_label, crate::proofs::Found::no_label))]
    pub(crate) fn first_of(&self, flow: &FlowId) -> Option<u16>
        ensures { result ≡ option_map grant_label (grant_for self.now flow.now) }
    {
        match first_of(&self.held, &self.tags, flow) {
            Some(grant) => Some(grant.label()),
            None => None,
        }
    }

    /// Puts a new grant at the end.
    pub(crate) fn push(&mut self, grant: Grant<Idle>)
        requires { length self.old < 256 }
        ensures { self.new ≡ self.old ++ shown (Held.Idle grant) ∷ [] }
    {
        let tagged = self.tags.push(flow_tag(&grant.flow));
        let Ok(()) = tagged else { unreachable!() };
        let pushed = self.held.push(Held::Idle(grant));
        let Ok(()) = pushed else { unreachable!() };
    }

    /// Takes the grant at an index out.
    pub(crate) fn take_out(&mut self, place: usize) -> Held
        requires { place < length self.old }
        ensures grant { slice_get self.old place ≡ Some (shown result) }
        ensures rest { self.new ≡ remove self.old place }
        ensures room { length self.new < 256 }
    {
        self.tags.remove(place);
        self.held.remove(place)
    }

    /// Puts a grant back at its index.
    pub(crate) fn put_back(&mut self, place: usize, grant: Held)
        requires place { place ≤ length self.old }
        requires room { length self.old < 256 }
        ensures { self.new ≡ insert self.old place (shown grant) }
    {
        let tagged = self.tags.insert(place, flow_tag(&grant.flow()));
        let Ok(()) = tagged else { unreachable!() };
        let inserted = self.held.insert(place, grant);
        let Ok(()) = inserted else { unreachable!() };
    }

    /// Gives all grants up, wherever they are.
    pub(crate) fn clear(&mut self)
        ensures { self.new ≡ [] }
    {
        while let Some(held) = self.held.pop() {
            held.end();
        }
        self.tags.clear();
    }

    /// Gives the list up, with its grants.
    pub(crate) fn abandon(mut self) {
        self.clear();
        let Grants { held, tags: _ } = self;
        held.destroy_empty();
    }
}
