//! What a port at work has asked is done, one by one. A node reset in the middle, where transaction
//! numbers are spent, leaves the rest out.

ghost use Rattle.std.specs.Prelude.{◌≡◌, [], fold, true, OnOk};
ghost use Rattle.adjacency_table.specs.Side.{is_estab};
ghost use Rattle.world_model.specs.Performing.{does, does_in_estab, performs, performs_in_estab, resets_port};
ghost use Rattle.controller_router.specs.Conditions.{CanDo, CanPerform, CanResetPort, EachCanBeDone, EachCanBePerformed};
ghost use Rattle.controller_router.specs.Node.{acted, ports_in};

use crate::engine::PortEngine;
use crate::router::Router;
use link_model::Notes;
use net_types::{Numbers, OutOfMemory, PortNo};
use port_actions::Actions;
use port_model::Action;

impl<E: PortEngine> Router<E> {
    /// Does an action, but for a reset.
    fn act(
        &mut self,
        port: PortNo,
        action: Action,
        numbers: &mut Numbers,
        notes: &mut Notes,
    ) -> Result<(), OutOfMemory>
        requires { CanDo (acted E.seen self.old notes.old numbers.old) port action }
        ensures acted { OnOk result (acted E.seen self.new notes.new numbers.new ≡ does port (acted E.seen self.old notes.old numbers.old) action) }
        ensures ports { ports_in E.seen self.new ≡ ports_in E.seen self.old }
    {
        match action {
            Action::Say(message) => self.say(port, &message, numbers, notes),
            Action::Ask { request, needed: _ } => self.ask(request, numbers, notes),
            Action::Note(record) => notes.push(record),
            Action::CutChain { vci } => self.cut_label(port, vci, notes),
            Action::TakeBack { input, output } => self.take_back(input, output, numbers, notes),
            Action::Withdraw { input } => {
                self.client.withdraw_input(input);
                Ok(())
            }
            Action::Reset => Ok(()),
        }
    }

    /// Does in Estab what the reset of a port asks.
    fn act_all(
        &mut self,
        port: PortNo,
        actions: &mut Actions,
        numbers: &mut Numbers,
        notes: &mut Notes,
    ) -> Result<(), OutOfMemory>
        requires { EachCanBeDone port (acted E.seen self.old notes.old numbers.old) actions.old }
        ensures acted { OnOk result (acted E.seen self.new notes.new numbers.new ≡ fold (does_in_estab port) (acted E.seen self.old notes.old numbers.old) actions.old) }
        ensures ports { ports_in E.seen self.new ≡ ports_in E.seen self.old }
        ensures taken { OnOk result (actions.new ≡ []) }
    {
        while let Some(action) = actions.take_first() {
            if self.client.is_estab() {
                self.act(port, action, numbers, notes)?;
            }
        }
        Ok(())
    }

    /// Resets a port: it begins anew under the next instance, and what its reset asks is done.
    pub fn reset_port(
        &mut self,
        port: PortNo,
        numbers: &mut Numbers,
        notes: &mut Notes,
    ) -> Result<(), OutOfMemory>
        requires { CanResetPort (acted E.seen self.old notes.old numbers.old) port }
        ensures acted { OnOk result (acted E.seen self.new notes.new numbers.new ≡ resets_port (acted E.seen self.old notes.old numbers.old) port) }
        ensures ports { ports_in E.seen self.new ≡ ports_in E.seen self.old }
    {
        let Some(place) = self.place_of(port) else {
            return Ok(());
        };
        let mut actions = self.take_actions();
        let link = &mut self.links[place];
        link.reset(numbers.instance(), &mut actions)?;
        self.act_all(port, &mut actions, numbers, notes)?;
        self.keep_actions(actions);
        Ok(())
    }

    /// Does an action.
    fn perform(
        &mut self,
        port: PortNo,
        action: Action,
        numbers: &mut Numbers,
        notes: &mut Notes,
    ) -> Result<(), OutOfMemory>
        requires { CanPerform (acted E.seen self.old notes.old numbers.old) port action }
        ensures acted { OnOk result (acted E.seen self.new notes.new numbers.new ≡ performs port (acted E.seen self.old notes.old numbers.old) action) }
        ensures ports { ports_in E.seen self.new ≡ ports_in E.seen self.old }
    {
        if let Action::Reset = action {
            return self.reset_port(port, numbers, notes);
        }
        self.act(port, action, numbers, notes)
    }

    /// Does in Estab what a port at work has asked.
    pub(crate) fn perform_all(
        &mut self,
        port: PortNo,
        mut actions: Actions,
        numbers: &mut Numbers,
        notes: &mut Notes,
    ) -> Result<(), OutOfMemory>
        requires { EachCanBePerformed port (acted E.seen self.old notes.old numbers.old) actions }
        ensures acted { OnOk result (acted E.seen self.new notes.new numbers.new ≡ fold (performs_in_estab port) (acted E.seen self.old notes.old numbers.old) actions) }
        ensures ports { ports_in E.seen self.new ≡ ports_in E.seen self.old }
    {
        while let Some(action) = actions.take_first() {
            if self.client.is_estab() {
                self.perform(port, action, numbers, notes)?;
            }
        }
        self.keep_actions(actions);
        Ok(())
    }
}
