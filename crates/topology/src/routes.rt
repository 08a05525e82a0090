//! The routes of a node, in the order of their lines.

ghost use Rattle.std.specs.Prelude.{◌≡◌, ◌<◌, ◌≤◌, [], ◌∷◌, ◌++◌, length, None, Some, slice_get, IfOk, IfSome, OnOk, OnErr, position};
ghost use Rattle.ipv4_forward.specs.Best.{has_prefix, is_same};
ghost use Rattle.ipv4_forward.specs.Change.{changed, changed_by, change_fault, change_fault_by};
ghost use Rattle.ipv4_forward.specs.Room.{AreDistinct};
ghost use Rattle.world_model.specs.Events.{change_refusal};
ghost use Rattle.world_model.specs.Limits.{greatest_routes};
ghost use Rattle.world_model.specs.Lines.{first_of, route_refusal};

use ipv4_forward::{Next, ROUTES, Route, RouteChange, Table};
use net_types::{OutOfMemory, Prefix};
use std::alloc::Global;
use std::marker::Model;
use world_model::{EventRefusal, TopologyRefusal};

/// The routes of a node: at most 256, no two of the same prefix. This project's own.
#[derive(Drop)]
pub struct RouteList {
    list: Vec<Route>,
}

impl Model for RouteList {
    ghost use Rattle.std.specs.Prelude.{◌≤◌, List, length};
    ghost use Rattle.ipv4_forward.specs.declared.table.Route.{Route as Way};
    ghost use Rattle.ipv4_forward.specs.Room.{AreDistinct};
    ghost use Rattle.world_model.specs.Limits.{greatest_routes};

    ghost Value = { List Way };

    ghost view = { λ r. r.list.items };

    ghost invariant = { λ r. record {
      distinct : AreDistinct r.list.items;
      room : length r.list.items ≤ greatest_routes;
    } };
}

impl RouteList {
    /// No routes.
    pub fn new(alloc: Global) -> RouteList
        ensures { result ≡ [] }
    {
        RouteList {
            list: Vec::new(alloc),
        }
    }

    /// How many there are.
    pub fn len(&self) -> usize
        ensures len { result ≡ length self.now }
        ensures room { result ≤ greatest_routes }
        ensures distinct { AreDistinct self.now }
    {
        self.list.len()
    }

    /// The route at `place`, from 0.
    pub fn at(&self, place: usize) -> Route
        requires { place < length self.now }
        ensures { slice_get self.now place ≡ Some result }
    {
        self.list[place]
    }

    fn place_of(&self, prefix: Prefix) -> Option<usize>
        ensures place { result ≡ position (λ route. is_same route.prefix prefix) self.now }
        ensures within { IfSome result (λ place. place < length self.now) }
    {
        self.list.iter().position(|route| route.prefix == prefix)
    }

    fn has(&self, prefix: Prefix) -> bool
        ensures { result ≡ has_prefix self.now prefix }
    {
        self.list.iter().any(|route| route.prefix == prefix)
    }

    /// Why a route for this prefix can't be added, if it can't: `Duplicate`, then `TableFull`.
    pub fn refusal(&self, prefix: Prefix) -> Option<TopologyRefusal>
        ensures { result ≡ first_of (route_refusal self.now prefix) }
    {
        if self.has(prefix) {
            Some(TopologyRefusal::Duplicate)
        } else if ROUTES <= self.list.len() {
            Some(TopologyRefusal::TableFull)
        } else {
            None
        }
    }

    /// Adds a route that isn't refused. Want of memory changes nothing.
    pub fn add(&mut self, prefix: Prefix, next: Next) -> Result<(), OutOfMemory>
        requires { first_of (route_refusal self.old prefix) ≡ None }
        ensures ok { OnOk result (self.new ≡ self.old ++ record { prefix = prefix; next = next } ∷ []) }
        ensures err { OnErr result (self.new ≡ self.old) }
    {
        self.list.push(Route { prefix, next })?;
        Ok(())
    }

    /// Why a change can't be made, if it can't: `TableFull` where a prefix that isn't there is to get
    /// a route and 256 are there, `NoPrefix` where one that isn't there is to go.
    pub fn change_refusal(&self, change: &RouteChange) -> Option<EventRefusal>
        ensures { result ≡ change_refusal (change_fault self.now change.now) }
    {
        match change.next {
            None => {
                if self.has(change.prefix) {
                    None
                } else {
                    Some(EventRefusal::NoPrefix)
                }
            }
            Some(_) => {
                if self.has(change.prefix) || self.list.len() < ROUTES {
                    None
                } else {
                    Some(EventRefusal::TableFull)
                }
            }
        }
    }

    /// Makes a change that isn't refused: a prefix that is there gets the new next, another is added
    /// at the end; without a next the prefix goes. Want of memory changes nothing.
    pub fn change(&mut self, change: &RouteChange) -> Result<(), OutOfMemory>
        requires { change_fault self.old change.now ≡ None }
        ensures ok { OnOk result (self.new ≡ changed self.old change.now) }
        ensures err { OnErr result (self.new ≡ self.old) }
    {
        match change.next {
            Some(next) => self.route(change.prefix, next),
            None => {
                self.unroute(change.prefix);
                Ok(())
            }
        }
    }

    /// A prefix gets this next.
    fn route(&mut self, prefix: Prefix, next: Next) -> Result<(), OutOfMemory>
        requires { change_fault_by self.old prefix (Some next) ≡ None }
        ensures ok { OnOk result (self.new ≡ changed_by self.old prefix (Some next)) }
        ensures err { OnErr result (self.new ≡ self.old) }
    {
        let Some(place) = self.place_of(prefix) else {
            return self.add(prefix, next);
        };
        self.list[place].next = next;
        Ok(())
    }

    /// A prefix goes.
    fn unroute(&mut self, prefix: Prefix)
        requires { change_fault_by self.old prefix None ≡ None }
        ensures { self.new ≡ changed_by self.old prefix None }
    {
        let Some(place) = self.place_of(prefix) else {
            return;
        };
        self.list.remove(place);
    }

    /// The same routes again.
    pub fn copied(&self) -> Result<RouteList, OutOfMemory>
        ensures { IfOk result (λ list. list ≡ self.now) }
    {
        copy(*self.list.allocator(), self.list.as_slice())
    }

    /// A table of these routes.
    pub fn table(&self) -> Result<Table, OutOfMemory>
        ensures { IfOk result (λ table. table ≡ self.now) }
    {
        table_of(*self.list.allocator(), self.list.as_slice())
    }
}

fn copy(alloc: Global, routes: &[Route]) -> Result<RouteList, OutOfMemory>
    requires distinct { AreDistinct routes.now }
    requires room { length routes.now ≤ greatest_routes }
    ensures { IfOk result (λ list. list ≡ routes.now) }
{
    let mut list = RouteList::new(alloc);
    for route in routes {
        list.add(route.prefix, route.next)?;
    }
    Ok(list)
}

fn table_of(alloc: Global, routes: &[Route]) -> Result<Table, OutOfMemory>
    requires distinct { AreDistinct routes.now }
    requires room { length routes.now ≤ greatest_routes }
    ensures { IfOk result (λ table. table ≡ routes.now) }
{
    let mut table = Table::open(alloc)?;
    for route in routes {
        table.add(route.prefix, route.next).unwrap();
    }
    Ok(table)
}
