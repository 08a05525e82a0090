//! What an event takes, and whom it reaches.

ghost use Rattle.std.specs.Prelude.{◌≡◌, is_some, Some};
ghost use Rattle.world_model.specs.Topology.{Topology as Described};
ghost use Rattle.world.specs.Network.{no_notes, world_of};
ghost use Rattle.world.specs.Running.{Runs};
ghost use Rattle.telling_model.specs.Passing.{cell_taken as taken_cell, taken_from};
ghost use Rattle.law_passing.specs.Reached.{led_to as led, owner_of as owner, reached as reached_actor};
ghost use Rattle.tell_passing.specs.Look.{CanBe, IsActorIn, IsQueueIn};

use net_types::Place;
use telling_model::{Reached, Standing};
use world::{NodeController, World};
use world_model::Event;

/// The cell at the head of a queue.
fn first<C: NodeController>(world: &World<C>, place: Place) -> Option<Standing>
    requires queue { IsQueueIn C.seen world.now place }
    ensures { result ≡ taken_from (world_of C.seen world.now no_notes) (Some place) }
{
    if world.queued(place) == 0 {
        return None;
    }
    let cell = world.cell(place, 0)?;
    Some(Standing { place, cell })
}

/// The cell that an event takes.
pub fn taken<C: NodeController>(world: &World<C>, event: &Event) -> Option<Standing>
    requires coming { CanBe C.seen world.now event.now }
    ensures { result ≡ taken_cell (world_of C.seen world.now no_notes) event.now }
{
    match event {
        Event::Carry(place) => first(world, *place),
        Event::Lose(place) => first(world, *place),
        _ => None,
    }
}

/// The actor that the cells of a queue come to.
fn led_to<C: NodeController>(world: &World<C>, place: Place) -> Reached
    requires queue { IsQueueIn C.seen world.now place }
    ensures led { (topology : Described) → Runs C.seen topology world.now → result ≡ led topology place }
    ensures actor { IsActorIn world.now result }
{
    match place {
        Place::Down(node) => Reached::Switch(node),
        Place::Up(node) => Reached::Controller(node),
        Place::Out(node, port) => match world.far_end(node, port) {
            Some(far) => Reached::Switch(far.node),
            None => Reached::Nobody,
        },
    }
}

/// The actor whose queue it is.
fn owner_of(place: Place) -> Reached
    ensures { result ≡ owner place }
{
    match place {
        Place::Down(node) => Reached::Controller(node),
        Place::Up(node) => Reached::Switch(node),
        Place::Out(node, _port) => Reached::Switch(node),
    }
}

/// The actor that an event reaches. `takes` tells whether it takes a cell.
pub fn reached<C: NodeController>(world: &World<C>, event: &Event, takes: bool) -> Reached
    requires coming { CanBe C.seen world.now event.now }
    requires takes { takes ≡ is_some (taken_cell (world_of C.seen world.now no_notes) event.now) }
    ensures reached { (topology : Described) → Runs C.seen topology world.now → result ≡ reached_actor topology (world_of C.seen world.now no_notes) event.now }
    ensures actor { IsActorIn world.now result }
{
    match event {
        Event::Inject { node, octets: _ } => Reached::Controller(*node),
        Event::Carry(place) => {
            if takes {
                led_to(world, *place)
            } else {
                Reached::Nobody
            }
        }
        Event::Lose(_place) => Reached::Nobody,
        Event::Tick(node) => Reached::Controller(*node),
        Event::TickSwitch(node) => Reached::Switch(*node),
        Event::Restart(node) => Reached::Controller(*node),
        Event::RestartSwitch(node) => Reached::Switch(*node),
        Event::Forge {
            place,
            channel: _,
            payload: _,
        } => owner_of(*place),
        Event::Route { node, change: _ } => Reached::Controller(*node),
    }
}
