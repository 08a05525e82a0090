//! The events of rounds.

ghost use Rattle.std.specs.Prelude.{◌≡◌, ◌≤◌, ◌+◌, length};
ghost use Rattle.std.specs.List.{repeat};
ghost use Rattle.lab_io.specs.Fault.{count_after};
ghost use Rattle.telling_model.specs.Placed.{placed_events};
ghost use Rattle.telling_model.specs.Tale.{told as telling};
ghost use Rattle.world_model.specs.Limits.{event_limit};
ghost use Rattle.world_model.specs.Run.{round as round_of};
ghost use Rattle.world_model.specs.Topology.{Topology as Described};
ghost use Rattle.world.specs.Network.{world_of};
ghost use Rattle.network_run.specs.Behind.{AreStepped, IsTold};
ghost use Rattle.network_run.specs.Coming.{IsReady};
ghost use Rattle.lab_io.specs.Puts.{is_failed};

use crate::context::Context;
use crate::engine::step;
use crate::teller::Teller;
use crate::told::Told;
use lab_io::{Sink, Stop};
use link_model::Notes;
use world::{Meter, NodeController, World, empty_carries_count};
use world_model::Event;

/// Carries a cell of each queue once, in the order of a round. It goes from one queue that holds a cell to the
/// next, and counts the carries of those between them, of which nothing is told. Where it ends early, a front of what is
/// told was put, and the network can only be given up.
pub fn round<C: NodeController, T: Teller<C>, K: Sink>(
    context: &Context<'_>,
    world: &mut World<C>,
    notes: &mut Notes,
    told: &mut Told<T>,
    sink: &mut K,
    meter: &mut Meter,
) -> Result<(), Stop>
    ghost topology: { Described }
    requires named { context.now.names.now ≡ topology }
    requires ready { IsReady C.seen topology world.old notes.old }
    requires few { (world_of C.seen world.old notes.old).events + length (round_of (world_of C.seen world.old notes.old)) ≤ event_limit }
    ensures stepped { AreStepped C.seen topology (round_of (world_of C.seen world.old notes.old)) result world.old world.new notes.old notes.new meter.old meter.new }
    ensures told { IsTold T.state (telling T.tale (T.state told.old.teller) topology (world_of C.seen world.old notes.old) (placed_events context.now.line (round_of (world_of C.seen world.old notes.old)))) result told.old told.new (K.written sink.old) (K.written sink.new) }
    ensures faults { K.faults sink.new ≡ count_after (is_failed result) (K.faults sink.old) }
{
    T::passes_over_empty_queues();
    empty_carries_count();
    let places = world.places();
    let mut from = 0;
    while let Some(found) = world.next_waiting(from) {
        world.pass_over(found - from, meter);
        let event = Event::Carry(world.place(found));
        step(context, &event, world, notes, told, sink, meter)?;
        from = found + 1;
    }
    world.pass_over(places - from, meter);
    Ok(())
}

/// So many rounds, one after the other. Once no queue holds a cell, those that are left are counted at once. Where they end early, a front of what is told was put, the
/// meter is at one of their events or as it was, and the network can only be given up.
pub fn rounds<C: NodeController, T: Teller<C>, K: Sink>(
    context: &Context<'_>,
    count: u32,
    world: &mut World<C>,
    notes: &mut Notes,
    told: &mut Told<T>,
    sink: &mut K,
    meter: &mut Meter,
) -> Result<(), Stop>
    ghost topology: { Described }
    requires named { context.now.names.now ≡ topology }
    requires ready { IsReady C.seen topology world.old notes.old }
    requires few { (world_of C.seen world.old notes.old).events + length (repeat count (round_of (world_of C.seen world.old notes.old))) ≤ event_limit }
    ensures stepped { AreStepped C.seen topology (repeat count (round_of (world_of C.seen world.old notes.old))) result world.old world.new notes.old notes.new meter.old meter.new }
    ensures told { IsTold T.state (telling T.tale (T.state told.old.teller) topology (world_of C.seen world.old notes.old) (placed_events context.now.line (repeat count (round_of (world_of C.seen world.old notes.old))))) result told.old told.new (K.written sink.old) (K.written sink.new) }
    ensures faults { K.faults sink.new ≡ count_after (is_failed result) (K.faults sink.old) }
{
    T::passes_over_empty_queues();
    empty_carries_count();
    for turn in 0..count {
        match world.next_waiting(0) {
            None => {
                let left = (count - turn) as usize * world.places();
                world.pass_over(left, meter);
                return Ok(());
            }
            Some(_) => round(context, world, notes, told, sink, meter)?,
        }
    }
    Ok(())
}
