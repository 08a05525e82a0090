//! One event of a run.

ghost use Rattle.std.specs.Prelude.{◌≡◌, ◌⊎◌, OnOk, OnErr};
ghost use Rattle.lab_io.specs.Fault.{count_after};
ghost use Rattle.telling_model.specs.Placed.{placed};
ghost use Rattle.world_model.specs.Conditions.{CanCome};
ghost use Rattle.world_model.specs.Run.{next, put_away};
ghost use Rattle.world_model.specs.Topology.{Topology as Described};
ghost use Rattle.world.specs.Counted.{reading_of};
ghost use Rattle.world.specs.Network.{world_of};
ghost use Rattle.network_run.specs.Behind.{IsTold};
ghost use Rattle.network_run.specs.Coming.{IsReady};
ghost use Rattle.lab_io.specs.Puts.{is_failed};

use crate::context::Context;
use crate::teller::Teller;
use crate::told::Told;
use lab_io::{Sink, Stop};
use link_model::Notes;
use world::{Meter, NodeController, World};
use world_model::Event;

/// Steps an event, puts to the report what is told of it, and puts its records away. Where it ends
/// early, a front of that was put, and the network can only be given up.
pub fn step<C: NodeController, T: Teller<C>, K: Sink>(
    context: &Context<'_>,
    event: &Event,
    world: &mut World<C>,
    notes: &mut Notes,
    told: &mut Told<T>,
    sink: &mut K,
    meter: &mut Meter,
) -> Result<(), Stop>
    ghost topology: { Described }
    requires named { context.now.names.now ≡ topology }
    requires ready { IsReady C.seen topology world.old notes.old }
    requires come { CanCome topology (world_of C.seen world.old notes.old) event.now }
    ensures world { OnOk result (world_of C.seen world.new notes.new ≡ put_away (next topology (world_of C.seen world.old notes.old) event.now)) }
    ensures ready { OnOk result (IsReady C.seen topology world.new notes.new) }
    ensures told { IsTold T.state (T.tale.tells (T.state told.old.teller) topology (world_of C.seen world.old notes.old) (placed context.now.line event.now)) result told.old told.new (K.written sink.old) (K.written sink.new) }
    ensures faults { K.faults sink.new ≡ count_after (is_failed result) (K.faults sink.old) }
    ensures meter { OnOk result (meter.new ≡ reading_of (next topology (world_of C.seen world.old notes.old) event.now)) }
    ensures kept { OnErr result ((meter.new ≡ meter.old) ⊎ (meter.new ≡ reading_of (next topology (world_of C.seen world.old notes.old) event.now))) }
{
    told.teller.before(world, notes, event);
    world.step(event, notes, meter)?;
    told.teller
        .after(context, event, world, notes, &mut told.writer, sink)?;
    notes.clear();
    Ok(())
}
