//! What each event makes of a network.

ghost use Rattle.std.specs.Prelude.{◌≡◌, ◌≤◌, ◌<◌, ◌+◌, ◌^◌, [], ◌∷◌, drop, length, true, IfOk, IfSome, IsOk, OnErr, OnOk, None, Some};
ghost use Rattle.net_types.specs.Number.{HasNumbersLeft};
ghost use Rattle.world_model.specs.Packets.{inject_refusal};
ghost use Rattle.world_model.specs.Conditions.{CanCome, IsPlace};
ghost use Rattle.world_model.specs.Limits.{event_limit};
ghost use Rattle.world_model.specs.Places.{place_node, queue_at, queue_number, with_queue};
ghost use Rattle.world_model.specs.Step.{acts, arrives, carries_head, forges, forges_at, injects, loses_head, step};
ghost use Rattle.world_model.specs.Topology.{Topology as Described};
ghost use Rattle.world.specs.Coming.{HasCome, HasQueue, HasTaken, HasWay, IsPeerIn, IsSteady, entered_by};
ghost use Rattle.world.specs.Counted.{reading_of};
ghost use Rattle.world.specs.Empty.{FindsNothing};
ghost use Rattle.world.specs.Inputs.{CanReach, IsForgeable, world_given};
ghost use Rattle.world.specs.Network.{IsNodeIn, world_of};
ghost use Rattle.world.specs.Running.{Runs};

use crate::counts::Meter;
use crate::inputs::{ControllerInput, ForgedFrame, Input, SwitchInput};
use crate::world::World;
use atm_cells::Cell;
use link_model::{Cause, Notes, Record, Refusal};
use net_types::{CONTROL_PORT, Channel, NodeId, OutOfMemory, Place, PortNo};
use node_controller::{InjectFault, NodeController};
use refusal_names::packet_refusal;
use world_model::{Event, LinkEnd};

impl<C: NodeController> World<C> {
    /// An input comes to an actor of a node.
    #[inline(always)]
    fn give(
        &mut self,
        node: NodeId,
        input: &Input<'_>,
        notes: &mut Notes,
    ) -> Result<(), OutOfMemory>
        requires steady { IsSteady C.seen self.old }
        requires node { IsNodeIn self.old node }
        requires reach { CanReach C.seen self.old node input.now }
        ensures { OnOk result (HasCome C.seen self.old self.new notes.new (world_given (world_of C.seen self.old notes.old) node input.now)) }
    {
        let place = node.0 as usize - 1;
        self.waiting.insert(place);
        let site = &mut self.sites[place];
        match input {
            Input::Controller(input) => {
                let before = site.controller.redirects();
                input.give_to(&mut site.controller, &mut self.numbers, notes)?;
                self.redirects.replace(before, site.controller.redirects());
                Ok(())
            }
            Input::Switch(input) => {
                let before = site.switch.switched();
                input.give_to(&mut site.switch, &mut self.numbers, notes)?;
                self.switched.replace(before, site.switch.switched());
                Ok(())
            }
        }
    }

    /// The first cell of a queue is taken out of it, if there is one.
    fn take_head(&mut self, place: Place) -> Option<Cell>
        requires steady { IsSteady C.seen self.old }
        requires node { IsNodeIn self.old (place_node place) }
        requires port { queue_number place ≤ 9 }
        ensures { HasTaken C.seen self.old self.new place result }
    {
        match place {
            Place::Down(node) => self.sites[node.0 as usize - 1].controller.pop(),
            Place::Up(node) => self.sites[node.0 as usize - 1].switch.pop(CONTROL_PORT),
            Place::Out(node, port) => self.sites[node.0 as usize - 1].switch.pop(port),
        }
    }

    /// A packet enters at a node under this number, or is refused there.
    fn enter(
        &mut self,
        node: NodeId,
        packet: u32,
        octets: &[u8],
        notes: &mut Notes,
    ) -> Result<Option<Refusal>, OutOfMemory>
        requires steady { IsSteady C.seen self.old }
        requires node { IsNodeIn self.old node }
        ensures refusal { IfOk result (λ name. inject_refusal octets.now ≡ name) }
        ensures come { OnOk result (HasCome C.seen self.old self.new notes.new (entered_by (world_of C.seen self.old notes.old) node packet octets.now (inject_refusal octets.now))) }
    {
        let site = &mut self.sites[node.0 as usize - 1];
        let before = site.controller.redirects();
        match site.controller.inject(packet, octets, notes) {
            Ok(()) => {
                self.redirects.replace(before, site.controller.redirects());
                self.waiting.insert(node.0 as usize - 1);
                Ok(None)
            }
            Err(InjectFault::Packet(fault)) => Ok(Some(packet_refusal(fault))),
            Err(InjectFault::ControlProtocol) => Ok(Some(Refusal::ControlProtocol)),
            Err(InjectFault::OutOfMemory(error)) => Err(error),
        }
    }

    /// A packet enters at a node, or is refused there; either way it has the next number.
    fn inject(&mut self, node: NodeId, octets: &[u8], notes: &mut Notes) -> Result<(), OutOfMemory>
        requires steady { IsSteady C.seen self.old }
        requires node { IsNodeIn self.old node }
        requires sent { self.old.sent + 1 < 2 ^ 32 }
        ensures { OnOk result (HasCome C.seen self.old self.new notes.new (injects (world_of C.seen self.old notes.old) node octets.now)) }
    {
        self.sent += 1;
        let packet = self.sent;
        match self.enter(node, packet, octets, notes)? {
            None => Ok(()),
            Some(name) => notes.push(Record::Refused { node, packet, name }),
        }
    }

    /// The other end of the link at a port, 0 to 8.
    fn peer(&self, node: NodeId, port: PortNo) -> Option<LinkEnd>
        requires node { IsNodeIn self.now node }
        requires port { port.0 ≤ 8 }
        ensures { IsPeerIn self.now node port result }
    {
        self.sites[node.0 as usize - 1].peers[port.0 as usize]
    }

    /// A cell that was taken out of a queue comes to the actor at its other end.
    fn arrive(&mut self, place: Place, cell: &Cell, notes: &mut Notes) -> Result<(), OutOfMemory>
        ghost topology: { Described }
        requires steady { IsSteady C.seen self.old }
        requires way { HasWay topology self.old place }
        requires numbers { HasNumbersLeft self.old.numbers }
        requires frame { cell.now.mark.frame < 2 ^ 63 }
        ensures { OnOk result (HasCome C.seen self.old self.new notes.new (arrives topology (world_of C.seen self.old notes.old) place cell.now)) }
    {
        match place {
            Place::Down(node) => {
                let input = SwitchInput::Cell(CONTROL_PORT, cell);
                self.give(node, &Input::Switch(input), notes)
            }
            Place::Up(node) => {
                let input = ControllerInput::Cell(cell);
                self.give(node, &Input::Controller(input), notes)
            }
            Place::Out(node, port) => match self.peer(node, port) {
                Some(far) => {
                    let input = SwitchInput::Cell(far.port, cell);
                    self.give(far.node, &Input::Switch(input), notes)
                }
                None => Ok(()),
            },
        }
    }

    /// The first cell of a queue is handed to the actor at its other end.
    fn carry(&mut self, place: Place, notes: &mut Notes) -> Result<(), OutOfMemory>
        ghost topology: { Described }
        requires runs { Runs C.seen topology self.old }
        requires few { self.old.events < event_limit }
        requires place { IsPlace topology place }
        ensures come { OnOk result (HasCome C.seen self.old self.new notes.new (carries_head topology (world_of C.seen self.old notes.old) place (queue_at (world_of C.seen self.old notes.old) place))) }
        ensures memory { queue_at (world_of C.seen self.old notes.old) place ≡ [] → IsOk result }
    {
        match self.take_head(place) {
            None => Ok(()),
            Some(cell) => self.arrive(place, &cell, notes),
        }
    }

    /// The first cell of a queue is lost.
    fn lose(&mut self, place: Place, notes: &mut Notes) -> Result<(), OutOfMemory>
        requires steady { IsSteady C.seen self.old }
        requires node { IsNodeIn self.old (place_node place) }
        requires port { queue_number place ≤ 9 }
        ensures come { OnOk result (HasCome C.seen self.old self.new notes.new (loses_head (world_of C.seen self.old notes.old) place (queue_at (world_of C.seen self.old notes.old) place))) }
        ensures memory { queue_at (world_of C.seen self.old notes.old) place ≡ [] → IsOk result }
    {
        match self.take_head(place) {
            None => Ok(()),
            Some(cell) => notes.push(Record::Loss {
                mark: cell.mark,
                cause: Cause::Lost,
            }),
        }
    }

    /// A frame, whose record is made, is forged on its way.
    fn forge_at(
        &mut self,
        place: Place,
        frame: &ForgedFrame<'_>,
        notes: &mut Notes,
    ) -> Result<(), OutOfMemory>
        requires steady { IsSteady C.seen self.old }
        requires node { IsNodeIn self.old (place_node place) }
        requires port { HasQueue self.old place }
        requires frame { IsForgeable frame.now }
        ensures { OnOk result (HasCome C.seen self.old self.new notes.new (forges_at (world_of C.seen self.old notes.old) place frame.now.channel frame.now.mark frame.now.payload.now)) }
    {
        match place {
            Place::Down(node) => {
                let input = ControllerInput::Forge(*frame);
                self.give(node, &Input::Controller(input), notes)
            }
            Place::Up(node) => {
                let input = SwitchInput::Forge(CONTROL_PORT, *frame);
                self.give(node, &Input::Switch(input), notes)
            }
            Place::Out(node, port) => {
                let input = SwitchInput::Forge(port, *frame);
                self.give(node, &Input::Switch(input), notes)
            }
        }
    }

    /// The cells of a frame that no actor made join a queue, under the next control mark.
    fn forge(
        &mut self,
        place: Place,
        channel: Channel,
        payload: &[u8],
        notes: &mut Notes,
    ) -> Result<(), OutOfMemory>
        requires steady { IsSteady C.seen self.old }
        requires node { IsNodeIn self.old (place_node place) }
        requires port { HasQueue self.old place }
        requires numbers { HasNumbersLeft self.old.numbers }
        requires channel { channel.vpi ≤ 255 }
        requires payload { (1 ≤ length payload.now) × (length payload.now ≤ 1528) }
        ensures { OnOk result (HasCome C.seen self.old self.new notes.new (forges (world_of C.seen self.old notes.old) place channel payload.now)) }
    {
        let frame = ForgedFrame {
            channel,
            payload,
            mark: self.numbers.control(),
        };
        notes.push(Record::Forged { place })?;
        self.forge_at(place, &frame, notes)
    }

    fn act(&mut self, event: &Event, notes: &mut Notes) -> Result<(), OutOfMemory>
        ghost topology: { Described }
        requires runs { Runs C.seen topology self.old }
        requires come { CanCome topology (world_of C.seen self.old notes.old) event.now }
        ensures come { OnOk result (HasCome C.seen self.old self.new notes.new (acts topology (world_of C.seen self.old notes.old) event.now)) }
        ensures memory { FindsNothing (world_of C.seen self.old notes.old) event.now → IsOk result }
    {
        match event {
            Event::Inject { node, octets } => self.inject(*node, octets.as_slice(), notes),
            Event::Carry(place) => self.carry(*place, notes),
            Event::Lose(place) => self.lose(*place, notes),
            Event::Tick(node) => {
                self.give(*node, &Input::Controller(ControllerInput::Tick), notes)
            }
            Event::TickSwitch(node) => self.give(*node, &Input::Switch(SwitchInput::Tick), notes),
            Event::Restart(node) => {
                self.give(*node, &Input::Controller(ControllerInput::Restart), notes)
            }
            Event::RestartSwitch(node) => {
                self.give(*node, &Input::Switch(SwitchInput::Restart), notes)
            }
            Event::Forge {
                place,
                channel,
                payload,
            } => self.forge(*place, *channel, payload.as_slice(), notes),
            Event::Route { node, change } => {
                let input = ControllerInput::Change(change);
                self.give(*node, &Input::Controller(input), notes)
            }
        }
    }

    /// One event. What it records is put behind what the notes hold. After `Ok` the meter holds how many
    /// events this world has stepped, and its counts. A carry or a loss of an empty queue changes nothing
    /// else, and needs no memory. After want of memory the world can only be given up.
    pub fn step(
        &mut self,
        event: &Event,
        notes: &mut Notes,
        meter: &mut Meter,
    ) -> Result<(), OutOfMemory>
        ghost topology: { Described }
        requires runs { Runs C.seen topology self.old }
        requires come { CanCome topology (world_of C.seen self.old notes.old) event.now }
        ensures world { OnOk result (world_of C.seen self.new notes.new ≡ step topology (world_of C.seen self.old notes.old) event.now) }
        ensures runs { OnOk result (Runs C.seen topology self.new) }
        ensures meter { OnOk result (meter.new ≡ reading_of (world_of C.seen self.new notes.new)) }
        ensures kept { OnErr result (meter.new ≡ meter.old) }
        ensures memory { FindsNothing (world_of C.seen self.old notes.old) event.now → IsOk result }
    {
        let before = notes.len();
        self.act(event, notes)?;
        self.tally.count(new_records(notes, before));
        self.events += 1;
        *meter = Meter::at(self.events, self.counts());
        Ok(())
    }
}

/// The records behind the first so many.
fn new_records(notes: &Notes, before: usize) -> &[Record]
    ensures { result.now ≡ drop before notes.now.records }
{
    let records = notes.records();
    if before <= records.len() {
        &records[before..]
    } else {
        &[]
    }
}
