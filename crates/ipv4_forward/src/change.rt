//! Changes of a routing table, and the best route of an address behind one.

ghost use Rattle.std.specs.Prelude.{◌≡◌, ◌++◌, ◌∷◌, [], List, false, if◌then◌else◌, not, map, filter, find, position, Some, None};
ghost use Rattle.ipv4_forward.specs.Best.{is_best, is_same, has_prefix};
ghost use Rattle.ipv4_forward.specs.Change.{changed_by, renewed};
ghost use Rattle.ipv4_forward.specs.Longest.{IsLongest};
ghost use Rattle.ipv4_forward.specs.Room.{AreDistinct};

use crate::table::{Next, Route, holds, is_of, longer};
use net_types::{Addr, Prefix};
use thiserror::Error;

/// A routing table update (a change of a route): its prefix gets this next hop, or loses its route
/// where there is none. This project's own.
#[derive(Debug, Clone, Copy)]
pub struct RouteChange {
    /// The prefix.
    pub prefix: Prefix,
    /// Where its packets go; `None` removes the prefix.
    pub next: Option<Next>,
}

/// An error of a routing table update: why a change of a route isn't made.
#[derive(Clone, Copy, Debug, PartialEq, Eq, Error)]
pub enum ChangeFault {
    /// The prefix isn't there, and 256 are.
    #[error("the table is full")]
    TableFull,
    /// The prefix that is to go isn't there.
    #[error("there is no route for this prefix")]
    NoPrefix,
}

/// The index of the route of a prefix.
pub(crate) fn place_of(routes: &[Route], prefix: Prefix) -> Option<usize>
    ensures { result ≡ position (λ route. is_same route.prefix prefix) routes.now }
{
    routes.iter().position(|route| is_of(route, prefix))
}

/// The longest of the routes so far and this one, unless it is of this prefix, that covers the
/// address.
fn longer_of_others(found: Option<Route>, route: Route, prefix: Prefix, addr: Addr) -> Option<Route>
    ensures { (routes : List Route) → IsLongest routes addr found → has_prefix routes route.prefix ≡ false → IsLongest (routes ++ (if not (is_same route.prefix prefix) then route ∷ [] else [])) addr result }
{
    if is_of(&route, prefix) {
        return found;
    }
    longer(found, route, addr)
}

/// The longest of the routes of other prefixes that covers the address.
fn longest_of_others(routes: &[Route], prefix: Prefix, addr: Addr) -> Option<Route>
    requires { AreDistinct routes.now }
    ensures { IsLongest (filter (λ route. not (is_same route.prefix prefix)) routes.now) addr result }
{
    let mut found = None;
    for route in routes {
        found = longer_of_others(found, *route, prefix, addr);
    }
    found
}

/// The route, or the new one where that is of the same prefix.
fn renewed(route: &Route, new: &Route) -> Route
    ensures { result ≡ renewed new.now.prefix new.now.next route.now }
{
    if is_of(route, new.prefix) {
        Route {
            prefix: route.prefix,
            next: new.next,
        }
    } else {
        *route
    }
}

/// The longest of the routes that covers the address, with the new one in the place of its prefix's.
fn longest_of_renewed(routes: &[Route], new: &Route, addr: Addr) -> Option<Route>
    requires { AreDistinct routes.now }
    ensures { IsLongest (map (renewed new.now.prefix new.now.next) routes.now) addr result }
{
    let mut found = None;
    for route in routes {
        found = longer(found, renewed(route, new), addr);
    }
    found
}

/// The best route of the address among the routes of other prefixes.
pub(crate) fn best_without(routes: &[Route], prefix: Prefix, addr: Addr) -> Option<Route>
    requires { AreDistinct routes.now }
    ensures { result ≡ find (is_best (changed_by routes.now prefix None) addr) (changed_by routes.now prefix None) }
{
    longest_of_others(routes, prefix, addr)
}

/// The best route of the address where the routes have this one, too, or in the place of its prefix's.
pub(crate) fn best_with(routes: &[Route], new: &Route, addr: Addr) -> Option<Route>
    requires { AreDistinct routes.now }
    ensures { result ≡ find (is_best (changed_by routes.now new.now.prefix (Some new.now.next)) addr) (changed_by routes.now new.now.prefix (Some new.now.next)) }
{
    let found = longest_of_renewed(routes, new, addr);
    if holds(routes, new.prefix) {
        return found;
    }
    longer(found, *new, addr)
}
