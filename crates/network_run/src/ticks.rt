//! The ticks of all actors.

ghost use Rattle.std.specs.Prelude.{◌≡◌, ◌≤◌, ◌<◌, ◌+◌, ◌-◌, length};
ghost use Rattle.lab_io.specs.Fault.{count_after};
ghost use Rattle.telling_model.specs.Placed.{placed_events};
ghost use Rattle.telling_model.specs.Tale.{told as telling};
ghost use Rattle.world_model.specs.Limits.{event_limit};
ghost use Rattle.world_model.specs.Run.{tick_of_all};
ghost use Rattle.world.specs.Network.{world_of};
ghost use Rattle.world.specs.law_world_pace.Running.{numbered};
ghost use Rattle.world_model.specs.network_model.declared.event.Event.TheVariants.{Tick, TickSwitch};
ghost use Rattle.network_run.specs.Behind.{AreStepped, IsTold};
ghost use Rattle.network_run.specs.Coming.{IsReady};
ghost use Rattle.lab_io.specs.Puts.{is_failed};

use crate::context::Context;
use crate::engine::step;
use crate::teller::Teller;
use crate::told::Told;
use lab_io::{Sink, Stop};
use link_model::Notes;
use net_types::NodeId;
use world::{Meter, NodeController, World};
use world_model::Event;

/// One of the ticks of all actors.
fn tick_at(index: usize, nodes: usize) -> Event
    requires few { nodes ≤ 64 }
    requires low { index < nodes + nodes }
    ensures controllers { index < nodes → result ≡ Tick (numbered (index + 1)) }
    ensures switches { nodes ≤ index → result ≡ TickSwitch (numbered (index - nodes + 1)) }
{
    if index < nodes {
        Event::Tick(NodeId(index as u8 + 1))
    } else {
        Event::TickSwitch(NodeId((index - nodes) as u8 + 1))
    }
}

/// A tick of each controller, and then of each switch. Where it ends early, a front of what is told was
/// put, and the network can only be given up.
pub fn tick_all<C: NodeController, T: Teller<C>, K: Sink>(
    context: &Context<'_>,
    world: &mut World<C>,
    notes: &mut Notes,
    told: &mut Told<T>,
    sink: &mut K,
    meter: &mut Meter,
) -> Result<(), Stop>
    requires ready { IsReady C.seen context.now.names.now world.old notes.old }
    requires few { (world_of C.seen world.old notes.old).events + length (tick_of_all (world_of C.seen world.old notes.old)) ≤ event_limit }
    ensures stepped { AreStepped C.seen context.now.names.now (tick_of_all (world_of C.seen world.old notes.old)) result world.old world.new notes.old notes.new meter.old meter.new }
    ensures told { IsTold T.state (telling T.tale (T.state told.old.teller) context.now.names.now (world_of C.seen world.old notes.old) (placed_events context.now.line (tick_of_all (world_of C.seen world.old notes.old)))) result told.old told.new (K.written sink.old) (K.written sink.new) }
    ensures faults { K.faults sink.new ≡ count_after (is_failed result) (K.faults sink.old) }
{
    let nodes = context.names.nodes();
    for index in 0..nodes + nodes {
        let event = tick_at(index, nodes);
        step(context, &event, world, notes, told, sink, meter)?;
    }
    Ok(())
}
