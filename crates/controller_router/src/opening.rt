//! A router with its ports.

ghost use Rattle.std.specs.Prelude.{◌≡◌, [], map};
ghost use Rattle.crossbar_model.specs.Channels.{ArePorts};
ghost use Rattle.controller_router.specs.Node.{AreLinked, ArePlaces, ports_of};

use crate::engine::PortEngine;
use crate::router::Router;
use controller_gsmp::Client;
use controller_routes::Routes;
use net_types::{Addr, NodeId, PORTS};
use port_actions::Actions;
use std::alloc::Global;

/// The indices of ports, by their numbers.
fn places_of<E: PortEngine>(links: &[E]) -> [Option<usize>; PORTS]
    requires { ArePorts (ports_of (map E.seen links.now)) }
    ensures { ArePlaces (ports_of (map E.seen links.now)) result }
{
    let mut places = [None; PORTS];
    for place in 0..links.len() {
        places[links[place].port().0 as usize] = Some(place);
    }
    places
}

impl<E: PortEngine> Router<E> {
    /// A router of these ports, ascending, whose client has a part of its region for each. The list of
    /// actions is empty.
    pub fn new(
        alloc: Global,
        node: NodeId,
        address: Addr,
        routes: Routes,
        client: Client,
        links: Vec<E>,
        actions: Actions,
    ) -> Router<E>
        requires linked { AreLinked (map E.seen links.items) client.control }
        requires idle { actions ≡ [] }
        ensures { result ≡ record { node = node; address = address; routes = routes; links = links.items; client = client } }
    {
        let places = places_of(links.as_slice());
        Router {
            alloc,
            node,
            address,
            routes,
            client,
            links,
            places,
            actions,
        }
    }
}
