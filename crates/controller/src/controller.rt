//! The controller.

ghost use Rattle.std.specs.Prelude.{◌≡◌, ◌<◌, length, option_map, slice_get, IsSome, Some};
ghost use Rattle.cell_pool.specs.Region.{size};
ghost use Rattle.world_model.specs.Controller.{free_slots, linked_at};
ghost use Rattle.controller_router.specs.Node.{end_of};
ghost use Rattle.controller.specs.Controlling.{controller_of};

use aal5_frames::MAX_FRAME;
use adjacency_table::State;
use branch_desk::Desk;
use cell_pool::Pool;
use controller_joining::JoiningRouter;
use controller_router::PortEngine;
use controller_routes::Routes;
use net_types::{OutOfMemory, PortNo};
use std::marker::Model;

/// The controller of an IP switch (RFC 1953, RFC 1987), over an engine for each of its ports. Want of
/// memory ends it: each further call of [`world::NodeController`] that may take memory answers so, and
/// it can only be given up.
#[must_use]
pub struct Controller<E: PortEngine> {
    pub(crate) router: JoiningRouter<E>,
    /// Where a frame is put together.
    pub(crate) frame: [u8; MAX_FRAME],
    /// The want of memory that ended it, if any.
    pub(crate) failure: Option<OutOfMemory>,
}

impl<E: PortEngine> Model for Controller<E> {
    ghost use Rattle.std.specs.Prelude.{is_some};
    ghost use Rattle.controller.specs.Controlling.{Controlling};
    ghost use Rattle.controller.specs.Right.{IsRightUnless};

    ghost Value = { Controlling E };

    ghost view = { λ c. record { router = c.router; failed = is_some c.failure } };

    ghost invariant = { λ c. IsRightUnless E.seen c.router c.failure };
}

impl<E: PortEngine> Controller<E> {
    /// The engine of a linked port.
    pub fn link(&self, port: PortNo) -> &E
        requires { IsSome (linked_at (controller_of E.seen self.now) port) }
        ensures { option_map end_of (linked_at (controller_of E.seen self.now) port) ≡ Some (E.seen result.now) }
    {
        self.router.router().link(port)
    }

    /// How many ports are linked.
    #[tactic(auto, using(crate::proofs::Counted::ports_counted))]
    pub fn ports(&self) -> usize
        ensures { result ≡ length (controller_of E.seen self.now).ports }
    {
        self.router.router().ports()
    }

    /// The engine of the linked port at an index, in ascending order, counted from 0.
    pub fn link_at(&self, place: usize) -> &E
        requires { place < length (controller_of E.seen self.now).ports }
        ensures { option_map end_of (slice_get (controller_of E.seen self.now).ports place) ≡ Some (E.seen result.now) }
    {
        self.router.router().link_at(place)
    }

    /// The state of its adjacency with its switch.
    pub fn state(&self) -> State
        ensures { result ≡ (controller_of E.seen self.now).adjacency.state }
    {
        self.router.router().client().state()
    }

    /// Its routes: the table that is held, and the changes that wait.
    pub fn routes(&self) -> &Routes
        ensures table { result.now.table ≡ (controller_of E.seen self.now).table }
        ensures waiting { result.now.waiting ≡ (controller_of E.seen self.now).waiting }
        ensures begun { result.now.is_begun ≡ (controller_of E.seen self.now).is_begun }
    {
        self.router.router().routes()
    }

    /// The requests that stand.
    pub fn desk(&self) -> &Desk
        ensures { result.now ≡ (controller_of E.seen self.now).desk }
    {
        self.router.router().client().requests().desk()
    }

    /// The region of its slots.
    pub fn region(&self) -> &Pool
        ensures free { length result.now.free ≡ free_slots (controller_of E.seen self.now) }
        ensures cells { size result.now ≡ (controller_of E.seen self.now).cells }
    {
        self.router.router().region()
    }
}
