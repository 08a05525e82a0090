//! Who tells a run.

use crate::context::Context;
use lab_io::{ReportWriter, Sink, Stop};
use link_model::Notes;
use telling_model::Ended;
use topology::Topology;
use world::{NodeController, World};
use world_model::Event;

/// An observer of a run (a teller): it puts to a report what it tells of the network as it opens,
/// of each event, and at last. It sees the network before each event and after it. Where it ends
/// early, a front of what it tells was put, and it is asked for nothing more. This project's own.
pub trait Teller<C: NodeController> {
    ghost use Rattle.std.specs.Prelude.{◌≡◌, OnOk};
    ghost use Rattle.lab_io.specs.Fault.{count_after};
    ghost use Rattle.telling_model.specs.Placed.{placed};
    ghost use Rattle.telling_model.specs.Tale.{Tale};
    ghost use Rattle.world_model.specs.Conditions.{CanCome};
    ghost use Rattle.world_model.specs.Run.{next};
    ghost use Rattle.world_model.specs.Topology.{Topology as Described};
    ghost use Rattle.world_model.specs.World.{World as Universe};
    ghost use Rattle.world_model.specs.network_model.declared.event.Event.{Event as Comes};
    ghost use Rattle.world.specs.Network.{no_notes, world_of};
    ghost use Rattle.world.specs.Running.{Runs};
    ghost use Rattle.network_run.specs.Coming.{HasCome, IsComing};
    ghost use Rattle.network_run.specs.Empty.{PassesOverEmptyQueues};
    ghost use Rattle.lab_io.specs.Puts.{Puts, StaysWithin, is_failed};

    // What it knows from the events before, and what it tells.
    ghost State: { Type 0 };

    ghost state: { Self → State };

    ghost tale: { Tale State };

    // It knew this much, and has seen the world of the topology to which the event is to come.
    ghost awaits: { Self → State → Described → Universe → Comes → Type 0 };

    /// Of a carry of an empty queue it tells nothing, and by it nothing becomes known. So it isn't asked for
    /// one. This does nothing, and its contract is the statement.
    fn passes_over_empty_queues()
        ensures { PassesOverEmptyQueues tale };

    /// The network opens.
    fn open<K: Sink>(
        &mut self,
        world: &World<C>,
        names: &Topology,
        writer: &mut ReportWriter,
        sink: &mut K,
    ) -> Result<(), Stop>
        requires runs { Runs C.seen names.now world.now }
        ensures put { Puts result writer.old writer.new (K.written sink.old) (K.written sink.new) (tale.opens names.now (world_of C.seen world.now no_notes)).octets }
        ensures state { OnOk result (state self.new ≡ (tale.opens names.now (world_of C.seen world.now no_notes)).state) }
        ensures room { StaysWithin writer.old writer.new }
        ensures faults { K.faults sink.new ≡ count_after (is_failed result) (K.faults sink.old) };

    /// An event is to come.
    fn before(&mut self, world: &World<C>, notes: &Notes, event: &Event)
        requires coming { IsComing C.seen world.now notes.now event.now }
        ensures awaits { (topology : Described) → Runs C.seen topology world.now → CanCome topology (world_of C.seen world.now notes.now) event.now → awaits self.new (state self.old) topology (world_of C.seen world.now notes.now) event.now };

    /// It came.
    fn after<K: Sink>(
        &mut self,
        context: &Context<'_>,
        event: &Event,
        world: &World<C>,
        notes: &Notes,
        writer: &mut ReportWriter,
        sink: &mut K,
    ) -> Result<(), Stop>
        requires runs { Runs C.seen context.now.names.now world.now }
        requires came { HasCome (awaits self.old) context.now.names.now (world_of C.seen world.now notes.now) event.now }
        ensures put { (known : State) (then : Universe) → awaits self.old known context.now.names.now then event.now → world_of C.seen world.now notes.now ≡ next context.now.names.now then event.now → Puts result writer.old writer.new (K.written sink.old) (K.written sink.new) (tale.tells known context.now.names.now then (placed context.now.line event.now)).octets }
        ensures state { (known : State) (then : Universe) → awaits self.old known context.now.names.now then event.now → world_of C.seen world.now notes.now ≡ next context.now.names.now then event.now → OnOk result (state self.new ≡ (tale.tells known context.now.names.now then (placed context.now.line event.now)).state) }
        ensures room { StaysWithin writer.old writer.new }
        ensures faults { K.faults sink.new ≡ count_after (is_failed result) (K.faults sink.old) };

    /// The reading has ended.
    fn end<K: Sink>(
        &mut self,
        world: &World<C>,
        names: &Topology,
        ended: Ended,
        writer: &mut ReportWriter,
        sink: &mut K,
    ) -> Result<(), Stop>
        requires runs { Runs C.seen names.now world.now }
        ensures put { Puts result writer.old writer.new (K.written sink.old) (K.written sink.new) (tale.ends names.now (world_of C.seen world.now no_notes) ended) }
        ensures room { StaysWithin writer.old writer.new }
        ensures faults { K.faults sink.new ≡ count_after (is_failed result) (K.faults sink.old) };
}
