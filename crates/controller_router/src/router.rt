//! The router.

ghost use Rattle.std.specs.Prelude.{◌≡◌, ◌<◌, ◌≤◌, [], length, slice_index_or, IfSome, IfNone, None};
ghost use Rattle.net_types.specs.declared.node.PortNo.{PortNo as PortValue};
ghost use Rattle.world_model.specs.Controller.{ports_of};
ghost use Rattle.crossbar_model.specs.Channels.{ArePorts};
ghost use Rattle.controller_router.specs.Node.{IsPlaceOf, controller_of, end_at, ports_in};

use crate::engine::PortEngine;
use controller_gsmp::Client;
use controller_routes::Routes;
use net_types::{Addr, LAST_PORT, NodeId, PORTS, PortNo};
use port_actions::Actions;
use std::alloc::Global;
use std::marker::Model;
use std::mem;

/// An IPv4 router (RFC 1812) whose links are the ports of an ATM switch, with its GSMP client. It
/// must be given up by [`Router::abandon`].
#[must_use]
pub struct Router<E: PortEngine> {
    pub(crate) alloc: Global,
    pub(crate) node: NodeId,
    pub(crate) address: Addr,
    pub(crate) routes: Routes,
    pub(crate) client: Client,
    /// The linked ports, ascending.
    pub(crate) links: Vec<E>,
    /// The index of each linked port among them, by its number.
    pub(crate) places: [Option<usize>; PORTS],
    /// What a port at work asks is put down here.
    pub(crate) actions: Actions,
}

impl<E: PortEngine> Model for Router<E> {
    ghost use Rattle.std.specs.Prelude.{◌≡◌, [], map};
    ghost use Rattle.controller_router.specs.Node.{AreLinked, ArePlaces, Node, ports_of};

    ghost Value = { Node E };

    ghost view = { λ r. record {
      node = r.node;
      address = r.address;
      routes = r.routes;
      links = r.links.items;
      client = r.client;
    } };

    ghost invariant = { λ r. record {
      linked : AreLinked (map E.seen r.links.items) r.client.control;
      places : ArePlaces (ports_of (map E.seen r.links.items)) r.places;
      idle : r.actions ≡ [];
    } };
}

impl<E: PortEngine> Router<E> {
    /// The index of a port among the linked ones, if it is linked.
    pub(crate) fn place_of(&self, port: PortNo) -> Option<usize>
        ensures some { IfSome result (IsPlaceOf (ports_in E.seen self.now) port) }
        ensures none { IfNone result (end_at E.seen self.now port ≡ None) }
    {
        let places = &self.places;
        if port.0 > LAST_PORT {
            return None;
        }
        places[port.0 as usize]
    }

    /// The list for the actions of a port, which is empty; to be kept again.
    pub(crate) fn take_actions(&mut self) -> Actions
        ensures actions { result ≡ [] }
        ensures same { self.new ≡ self.old }
    {
        mem::replace(&mut self.actions, Actions::new(self.alloc))
    }

    /// Keeps the list for the next port at work.
    pub(crate) fn keep_actions(&mut self, actions: Actions)
        requires { actions ≡ [] }
        ensures { self.new ≡ self.old }
    {
        self.actions = actions;
    }

    /// How many ports are linked.
    pub fn ports(&self) -> usize
        ensures len { result ≡ length (ports_in E.seen self.now) }

        // What a caller that doesn't open the router needs besides.
        ensures linked { ports_of (controller_of E.seen self.now) ≡ ports_in E.seen self.now }
        ensures are { ArePorts (ports_in E.seen self.now) }
    {
        self.links.as_slice().len()
    }

    /// The linked port at an index, counted from 0.
    pub fn port_at(&self, place: usize) -> PortNo
        requires { place < length (ports_in E.seen self.now) }
        ensures at { (d : PortValue) → slice_index_or (ports_in E.seen self.now) place d ≡ result }
        ensures link { (1 ≤ result.0) × (result.0 ≤ 8) }
    {
        self.links[place].port()
    }

    /// The node.
    pub fn node(&self) -> NodeId
        ensures { result ≡ self.now.node }
    {
        self.node
    }

    /// Its routes.
    pub fn routes(&self) -> &Routes
        ensures { result.now ≡ self.now.routes }
    {
        &self.routes
    }

    /// Its client of GSMP.
    pub fn client(&self) -> &Client
        ensures { result.now ≡ self.now.client }
    {
        &self.client
    }

    /// Gives up all cells, labels, grants and requests.
    pub fn abandon(self) {
        let Router {
            alloc: _,
            node: _,
            address: _,
            routes: _,
            client,
            mut links,
            places: _,
            actions: _,
        } = self;
        client.abandon();
        while let Some(link) = links.pop() {
            link.abandon();
        }
        links.destroy_empty();
    }
}
