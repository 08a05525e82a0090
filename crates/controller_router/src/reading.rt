//! What a router lends of its ports.

ghost use Rattle.std.specs.Prelude.{◌≡◌, ◌<◌, IfSome, IfNone, IsSome, IsTrue, None, Some, length, min, option_map, slice_get};
ghost use Rattle.std.specs.List.{sum_by};
ghost use Rattle.std.specs.Option.{option_and_then};
ghost use Rattle.net_types.specs.Label.{is_label_number};
ghost use Rattle.cell_pool.specs.Region.{size};
ghost use Rattle.port_labels.specs.Read.{label_of};
ghost use Rattle.port_model.specs.Port.{label_at, labels_of};
ghost use Rattle.port_model.specs.Redirection.{greatest_tally};
ghost use Rattle.port_state.specs.Engine.{flow_at};
ghost use Rattle.world_model.specs.Controller.{free_slots, linked_at, redirects_of};
ghost use Rattle.controller_router.specs.Node.{controller_of, end_at, end_of};

use crate::engine::PortEngine;
use crate::router::Router;
use cell_pool::Pool;
use grant_table::GrantTable;
use ipv4_packet::FlowId;
use net_types::PortNo;
use port_labels::HeldLabel;

/// How many REDIRECTs these ports accepted.
fn total<E: PortEngine>(links: &[E]) -> u64
    ensures { result ≡ min greatest_tally (sum_by (λ link. (E.seen link).port.redirects) links.now) }
{
    let mut sum: u64 = 0;
    for link in links {
        sum = sum.saturating_add(link.redirects());
    }
    sum
}

impl<E: PortEngine> Router<E> {
    /// The engine of a port. None exactly where it isn't linked.
    pub fn engine_at(&self, port: PortNo) -> Option<&E>
        ensures some { IfSome result (λ engine. end_at E.seen self.now port ≡ Some (E.seen engine.now)) }
        ensures none { IfNone result (end_at E.seen self.now port ≡ None) }
    {
        match self.place_of(port) {
            Some(place) => Some(&self.links[place]),
            None => None,
        }
    }

    /// The engine of a linked port.
    pub fn link(&self, port: PortNo) -> &E
        requires { IsSome (linked_at (controller_of E.seen self.now) port) }
        ensures { option_map end_of (linked_at (controller_of E.seen self.now) port) ≡ Some (E.seen result.now) }
    {
        match self.place_of(port) {
            Some(place) => &self.links[place],
            None => unreachable!(),
        }
    }

    /// The engine of the linked port at an index, in ascending order, counted from 0.
    pub fn link_at(&self, place: usize) -> &E
        requires { place < length (controller_of E.seen self.now).ports }
        ensures { option_map end_of (slice_get (controller_of E.seen self.now).ports place) ≡ Some (E.seen result.now) }
    {
        &self.links[place]
    }

    /// The region of the slots.
    pub fn region(&self) -> &Pool
        ensures free { length result.now.free ≡ free_slots (controller_of E.seen self.now) }
        ensures cells { size result.now ≡ (controller_of E.seen self.now).cells }
    {
        self.client.region()
    }

    /// The labels under which a port may send. None exactly where it isn't linked.
    pub fn grants_at(&self, port: PortNo) -> Option<&GrantTable>
        ensures some { IfSome result (λ table. option_map (λ linked. linked.port.grants) (linked_at (controller_of E.seen self.now) port) ≡ Some table.now.grants) }
        ensures none { IfNone result (linked_at (controller_of E.seen self.now) port ≡ None) }
    {
        match self.place_of(port) {
            Some(place) => Some(self.links[place].grants()),
            None => None,
        }
    }

    /// The label at an index among those that a port holds, the lowest first, counted from 0. None where
    /// the port isn't linked, or the index is at or above their count.
    pub fn label_at(&self, port: PortNo, place: usize) -> Option<HeldLabel>
        ensures label { option_map label_of result ≡ option_and_then (λ linked. slice_get (labels_of linked.port) place) (linked_at (controller_of E.seen self.now) port) }
        ensures number { IfSome result (λ label. IsTrue (is_label_number label.number)) }
        ensures held { IfSome result (λ label. option_and_then (λ linked. label_at linked.port label.number) (linked_at (controller_of E.seen self.now) port) ≡ Some (label_of label)) }
    {
        match self.place_of(port) {
            Some(at) => self.links[at].held_at(place),
            None => None,
        }
    }

    /// The flow that the label of this number is bound to at a port. None where the port isn't linked, or
    /// the label isn't bound.
    pub fn flow_of(&self, port: PortNo, label: u16) -> Option<FlowId>
        ensures { result ≡ option_and_then (λ linked. flow_at linked.port label) (linked_at (controller_of E.seen self.now) port) }
    {
        match self.place_of(port) {
            Some(place) => self.links[place].flow_of(label),
            None => None,
        }
    }

    /// How many REDIRECTs its ports accepted since the opening; once at its type's end it stays there.
    pub fn redirects(&self) -> u64
        ensures { result ≡ redirects_of (controller_of E.seen self.now) }
    {
        total(self.links.as_slice())
    }
}
