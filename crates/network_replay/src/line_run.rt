//! The events of a line.

ghost use Rattle.std.specs.Prelude.{◌≡◌, ◌≤◌, ◌+◌, length};
ghost use Rattle.lab_io.specs.Fault.{count_after};
ghost use Rattle.network_run.specs.Behind.{AreStepped, IsTold};
ghost use Rattle.network_run.specs.Coming.{IsReady};
ghost use Rattle.lab_io.specs.Puts.{is_failed};
ghost use Rattle.script_model.specs.Script.{events_of};
ghost use Rattle.network_run.specs.telling_model.Placed.{placed_events};
ghost use Rattle.network_run.specs.telling_model.Tale.{told as telling};
ghost use Rattle.script_model.specs.world_model.Limits.{event_limit};
ghost use Rattle.world.specs.Network.{world_of};
ghost use Rattle.network_replay.specs.Lines.{IsMeant, has_events};

use lab_io::{Sink, Stop};
use link_model::Notes;
use network_run::{Context, Teller, Told, rounds, step, tick_all};
use script_model::Line;
use world::{Meter, NodeController, World};

/// Whether a line is one of events.
pub fn has_events(said: &Line) -> bool
    ensures { result ≡ has_events said.now }
{
    match said {
        Line::Blank | Line::Topology(_) => false,
        Line::Event(_) | Line::TickAll | Line::Run(_) => true,
    }
}

/// Steps the events of a line, which are told.
pub fn run_line<C: NodeController, T: Teller<C>, K: Sink>(
    said: &Line,
    context: &Context<'_>,
    world: &mut World<C>,
    notes: &mut Notes,
    told: &mut Told<T>,
    sink: &mut K,
    meter: &mut Meter,
) -> Result<(), Stop>
    requires ready { IsReady C.seen context.now.names.now world.old notes.old }
    requires few { (world_of C.seen world.old notes.old).events + length (events_of context.now.names.now said.now) ≤ event_limit }
    requires meant { IsMeant context.now.names.now (world_of C.seen world.old notes.old) said.now }
    ensures stepped { AreStepped C.seen context.now.names.now (events_of context.now.names.now said.now) result world.old world.new notes.old notes.new meter.old meter.new }
    ensures told { IsTold T.state (telling T.tale (T.state told.old.teller) context.now.names.now (world_of C.seen world.old notes.old) (placed_events context.now.line (events_of context.now.names.now said.now))) result told.old told.new (K.written sink.old) (K.written sink.new) }
    ensures faults { K.faults sink.new ≡ count_after (is_failed result) (K.faults sink.old) }
{
    match said {
        Line::Blank | Line::Topology(_) => Ok(()),
        Line::Event(event) => step(context, event, world, notes, told, sink, meter),
        Line::TickAll => tick_all(context, world, notes, told, sink, meter),
        Line::Run(count) => rounds(context, *count, world, notes, told, sink, meter),
    }
}
