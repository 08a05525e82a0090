//! A table of routes, one for each of its prefixes.

ghost use Rattle.std.specs.Prelude.{◌≡◌, ◌++◌, ◌∷◌, [], List, false, None, Some, IfOk, OnOk, OnErr, find};

use crate::change::{ChangeFault, RouteChange, best_with, best_without, place_of};
use net_types::{Addr, OutOfMemory, PortNo, Prefix};
use std::alloc::Global;
use std::marker::Model;
use thiserror::Error;

/// A next hop: where the packets of a prefix go (RFC 1812 5.2.4).
#[derive(Clone, Copy, Debug, PartialEq, Eq)]
pub enum Next {
    /// This node is their destination.
    Local,
    /// The node at the other end of this port's link takes them.
    Via(PortNo),
}

/// A route, one entry of a routing table: a prefix with the next hop of its packets (RFC 1812
/// 5.2.4).
#[derive(Clone, Copy, Debug, PartialEq, Eq)]
pub struct Route {
    /// The addresses that the route is for.
    pub prefix: Prefix,
    /// Where their packets go.
    pub next: Next,
}

/// An error of [`Table::add`]: why a route isn't entered.
#[derive(Clone, Copy, Debug, PartialEq, Eq, Error)]
pub enum AddFault {
    /// The table has a route for this prefix.
    #[error("the table has a route for this prefix")]
    Duplicate,
    /// The table has 256 routes.
    #[error("the table has 256 routes")]
    TableFull,
}

/// A routing table (RFC 1812 5.2.4): at most 256 routes, in the order in which they were added; no
/// two have the same prefix. The limit is this project's own.
#[derive(Debug, Drop)]
pub struct Table {
    routes: Vec<Route>,
}

impl Model for Table {
    ghost use Rattle.std.specs.Prelude.{List};
    ghost use Rattle.ipv4_forward.specs.declared.table.Route.{Route};

    ghost Value = { List Route };

    ghost use Rattle.ipv4_forward.specs.Room.{HasRoom};

    ghost view = { λ t. t.routes.items };

    ghost invariant = { HasRoom };
}

/// The most routes that a table holds.
pub const ROUTES: usize = 256;

impl Table {
    ghost use Rattle.ipv4_forward.specs.Best.{best, add_fault};
    ghost use Rattle.ipv4_forward.specs.Change.{changed, changed_by, change_fault, change_fault_by};
    ghost use Rattle.std.specs.Result.{result_err};

    /// An empty table, with the room that it ever takes.
    pub fn open(alloc: Global) -> Result<Table, OutOfMemory>
        ensures { IfOk result (λ t. t ≡ []) }
    {
        let routes = Vec::with_capacity(alloc, ROUTES)?;
        Ok(Table { routes })
    }

    /// Adds a route. Refuses `Duplicate` and then `TableFull`.
    pub fn add(&mut self, prefix: Prefix, next: Next) -> Result<(), AddFault>
        ensures ok { OnOk result (self.new ≡ self.old ++ record { prefix = prefix; next = next } ∷ []) }
        ensures fault { result_err result ≡ add_fault self.old prefix }
        ensures err { OnErr result (self.new ≡ self.old) }
    {
        if holds(self.routes.as_slice(), prefix) {
            return Err(AddFault::Duplicate);
        }
        if self.routes.len() >= ROUTES {
            return Err(AddFault::TableFull);
        }
        self.routes.push_reserved(Route { prefix, next });
        Ok(())
    }

    /// Its routes, in the order in which they were added.
    pub fn routes(&self) -> &[Route]
        ensures { result.now ≡ self.now }
    {
        self.routes.as_slice()
    }

    /// Where packets for `addr` go: by the route of the longest prefix that covers it.
    pub fn lookup(&self, addr: Addr) -> Option<Next>
        ensures { result ≡ best self.now addr }
    {
        match longest(self.routes.as_slice(), addr) {
            Some(route) => Some(route.next),
            None => None,
        }
    }

    /// Makes a change of one route: a prefix that is there gets the new next. Refuses `TableFull`
    /// where the prefix isn't there and 256 are, and `NoPrefix` where it is to go and isn't there.
    pub fn apply(&mut self, change: &RouteChange) -> Result<(), ChangeFault>
        ensures ok { OnOk result (self.new ≡ changed self.old change.now) }
        ensures fault { result_err result ≡ change_fault self.old change.now }
        ensures err { OnErr result (self.new ≡ self.old) }
    {
        match change.next {
            Some(next) => self.route(change.prefix, next),
            None => self.unroute(change.prefix),
        }
    }

    /// A prefix gets this next. Refuses `TableFull`.
    fn route(&mut self, prefix: Prefix, next: Next) -> Result<(), ChangeFault>
        ensures ok { OnOk result (self.new ≡ changed_by self.old prefix (Some next)) }
        ensures fault { result_err result ≡ change_fault_by self.old prefix (Some next) }
        ensures err { OnErr result (self.new ≡ self.old) }
    {
        let Some(place) = place_of(self.routes.as_slice(), prefix) else {
            return match self.add(prefix, next) {
                Ok(()) => Ok(()),
                Err(_full) => Err(ChangeFault::TableFull),
            };
        };
        self.routes[place].next = next;
        Ok(())
    }

    /// A prefix goes. Refuses `NoPrefix`.
    fn unroute(&mut self, prefix: Prefix) -> Result<(), ChangeFault>
        ensures ok { OnOk result (self.new ≡ changed_by self.old prefix None) }
        ensures fault { result_err result ≡ change_fault_by self.old prefix None }
        ensures err { OnErr result (self.new ≡ self.old) }
    {
        let Some(place) = place_of(self.routes.as_slice(), prefix) else {
            return Err(ChangeFault::NoPrefix);
        };
        self.routes.remove(place);
        Ok(())
    }

    /// What [`Table::lookup`] would answer after a change that [`Table::apply`] makes.
    pub fn lookup_after(&self, change: &RouteChange, addr: Addr) -> Option<Next>
        ensures { result ≡ best (changed self.now change.now) addr }
    {
        let routes = self.routes.as_slice();
        let prefix = change.prefix;
        let found = match change.next {
            Some(next) => best_with(routes, &Route { prefix, next }, addr),
            None => best_without(routes, prefix, addr),
        };
        match found {
            Some(route) => Some(route.next),
            None => None,
        }
    }
}

ghost use Rattle.ipv4_forward.specs.Best.{is_best, is_same, has_prefix};
ghost use Rattle.ipv4_forward.specs.Room.{AreDistinct};
ghost use Rattle.ipv4_forward.specs.Longest.{IsLongest};

/// Whether a route is of this prefix.
pub(crate) fn is_of(route: &Route, prefix: Prefix) -> bool
    ensures { result ≡ is_same route.now.prefix prefix }
{
    route.prefix.addr() == prefix.addr() && route.prefix.len() == prefix.len()
}

/// Whether one of the routes is of this prefix.
pub(crate) fn holds(routes: &[Route], prefix: Prefix) -> bool
    ensures { result ≡ has_prefix routes.now prefix }
{
    routes.iter().any(|route| is_of(route, prefix))
}

fn longest(routes: &[Route], addr: Addr) -> Option<Route>
    requires { AreDistinct routes.now }
    ensures { result ≡ find (is_best routes.now addr) routes.now }
{
    let mut found = None;
    for route in routes {
        found = longer(found, *route, addr);
    }
    found
}

// The longest of the routes so far and this one that covers the address.
pub(crate) fn longer(found: Option<Route>, route: Route, addr: Addr) -> Option<Route>
    ensures { (routes : List Route) → IsLongest routes addr found → has_prefix routes route.prefix ≡ false → IsLongest (routes ++ route ∷ []) addr result }
{
    if !route.prefix.covers(addr) {
        return found;
    }
    match found {
        None => Some(route),
        Some(before) => {
            let before_len = before.prefix.len();
            if before_len < route.prefix.len() {
                Some(route)
            } else {
                Some(before)
            }
        }
    }
}
