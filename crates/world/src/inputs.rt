//! What comes to the actors of a node.

ghost use Rattle.std.specs.Prelude.{◌≡◌, OnOk};
ghost use Rattle.net_types.specs.Number.{AreDrawn};
ghost use Rattle.node_controller.specs.Nodes as controllers;
ghost use Rattle.gsmp_switch.specs.State as switches;
ghost use Rattle.world.specs.Inputs.{CanReachController, CanReachSwitch, controller_given, switch_given};

use atm_cells::Cell;
use gsmp_switch::Switch;
use ipv4_forward::RouteChange;
use link_model::Notes;
use net_types::{Channel, Mark, Numbers, OutOfMemory, PortNo};
use node_controller::NodeController;

/// A frame that no actor made.
#[derive(Clone, Copy)]
pub struct ForgedFrame<'a> {
    /// Its channel: VPI 0 to 255.
    pub channel: Channel,
    /// The octets of its payload, 1 to 1,528.
    pub payload: &'a [u8],
    /// The mark of its cells.
    pub mark: Mark,
}

/// An input of a node's controller: what comes to it. This project's own.
#[derive(Clone, Copy)]
pub enum ControllerInput<'a> {
    /// A cell of its switch.
    Cell(&'a Cell),
    /// A tick.
    Tick,
    /// It restarts.
    Restart,
    /// A change of a route.
    Change(&'a RouteChange),
    /// A frame is forged on its way from it.
    Forge(ForgedFrame<'a>),
}

/// An input of a node's switch: what comes to it. This project's own.
#[derive(Clone, Copy)]
pub enum SwitchInput<'a> {
    /// A cell, at this port.
    Cell(PortNo, &'a Cell),
    /// A tick.
    Tick,
    /// It restarts.
    Restart,
    /// A frame is forged on its way from this port, which is one of its own.
    Forge(PortNo, ForgedFrame<'a>),
}

/// An input of a node: what comes to one of its two actors. This project's own.
#[derive(Clone, Copy)]
pub enum Input<'a> {
    /// To its controller.
    Controller(ControllerInput<'a>),
    /// To its switch.
    Switch(SwitchInput<'a>),
}

impl ControllerInput<'_> {
    /// It comes to this controller.
    #[inline(always)]
    pub fn give_to<C: NodeController>(
        &self,
        controller: &mut C,
        numbers: &mut Numbers,
        notes: &mut Notes,
    ) -> Result<(), OutOfMemory>
        requires { CanReachController (C.seen controller.old) numbers.old self.now }
        ensures acted { OnOk result (controllers.acted (C.seen controller.new) notes.new numbers.new ≡ controller_given self.now (controllers.acted (C.seen controller.old) notes.old numbers.old)) }
        ensures drawn { OnOk result (AreDrawn numbers.old numbers.new) }
    {
        match self {
            ControllerInput::Cell(cell) => controller.receive(cell, numbers, notes),
            ControllerInput::Tick => controller.tick(numbers, notes),
            ControllerInput::Restart => controller.restart(numbers, notes),
            ControllerInput::Change(change) => controller.change(change, numbers, notes),
            ControllerInput::Forge(frame) => {
                controller.forge(frame.channel, frame.payload, frame.mark, notes)
            }
        }
    }
}

impl SwitchInput<'_> {
    /// It comes to this switch.
    #[inline(always)]
    pub fn give_to(
        &self,
        switch: &mut Switch,
        numbers: &mut Numbers,
        notes: &mut Notes,
    ) -> Result<(), OutOfMemory>
        requires { CanReachSwitch switch.old numbers.old self.now }
        ensures acted { OnOk result (switches.acted switch.new notes.new numbers.new ≡ switch_given self.now (switches.acted switch.old notes.old numbers.old)) }
        ensures drawn { OnOk result (AreDrawn numbers.old numbers.new) }
    {
        match self {
            SwitchInput::Cell(port, cell) => switch.receive(*port, cell, numbers, notes),
            SwitchInput::Tick => switch.tick(numbers, notes),
            SwitchInput::Restart => switch.restart(numbers, notes),
            SwitchInput::Forge(port, frame) => {
                switch.forge(*port, frame.channel, frame.payload, frame.mark, notes)
            }
        }
    }
}
