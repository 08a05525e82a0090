//! The router and its joins.

ghost use Rattle.std.specs.Prelude.{◌≡◌, ◌&&◌, [], not, IfOk, if◌then◌else◌};
ghost use Rattle.adjacency_table.specs.Side.{is_estab};
ghost use Rattle.controller_joins.specs.world_model.Controller.{ports_of};
ghost use Rattle.law_join_facts.specs.Joins.{HaveNumbers};
ghost use Rattle.controller_router.specs.Node.{ports_in};
ghost use Rattle.controller_joining.specs.Joining.{controller_of};

use controller_joins::Joins;
use controller_router::{PortEngine, Router};
use net_types::OutOfMemory;
use std::alloc::Global;
use std::marker::Model;

/// A label-switching router (Newman, Minshall and Lyon, IP switch): a router that joins labels,
/// with the list of its joins. It must be given up by [`JoiningRouter::abandon`].
#[must_use]
pub struct JoiningRouter<E: PortEngine> {
    pub(crate) router: Router<E>,
    /// The joins of its labels, in the order of their inputs.
    pub(crate) joins: Joins,
}

impl<E: PortEngine> Model for JoiningRouter<E> {
    ghost use Rattle.controller_joining.specs.Joining.{Joining};

    ghost Value = { Joining E };

    ghost view = { λ j. record { router = j.router; joins = j.joins } };
}

impl<E: PortEngine> JoiningRouter<E> {
    /// A router of which no label is joined. Where memory is wanting it is given up.
    pub fn open(alloc: Global, router: Router<E>) -> Result<JoiningRouter<E>, OutOfMemory>
        ensures { IfOk result (λ joining. joining ≡ record { router = router; joins = [] }) }
    {
        match Joins::open(alloc) {
            Ok(joins) => Ok(JoiningRouter { router, joins }),
            Err(error) => {
                router.abandon();
                Err(error)
            }
        }
    }

    /// The router.
    pub fn router(&self) -> &Router<E>
        ensures { result.now ≡ self.now.router }
    {
        &self.router
    }

    /// Its joins.
    pub fn joins(&self) -> &Joins
        ensures { result.now ≡ self.now.joins }
    {
        &self.joins
    }

    /// Whether the router and its switch know each other.
    pub(crate) fn stands(&self) -> bool
        ensures estab { result ≡ is_estab self.now.router.client.adjacency.state }

        // What is known of the ports besides.
        ensures numbers { HaveNumbers (controller_of E.seen self.now) }
        ensures linked { ports_of (controller_of E.seen self.now) ≡ ports_in E.seen self.now.router }
    {
        let _linked = self.router.ports();
        self.router.client().is_estab()
    }

    /// No join is left where the node was reset since it stood.
    pub(crate) fn settle(&mut self, stood: bool)
        ensures router { self.new.router ≡ self.old.router }
        ensures joins { self.new.joins ≡ (if stood && not (is_estab self.old.router.client.adjacency.state) then [] else self.old.joins) }
    {
        if stood && !self.router.client().is_estab() {
            self.joins.clear();
        }
    }

    /// Gives up all cells, labels, grants and requests.
    pub fn abandon(self) {
        let JoiningRouter { router, joins: _ } = self;
        router.abandon();
    }
}
