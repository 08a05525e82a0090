//! *Node reset and restart*: every port begins anew, the desk is emptied, and nothing is sent. The cells
//! that wait for the switch stay.

ghost use Rattle.std.specs.Prelude.{◌≡◌, ◌<◌, ◌+◌, ◌^◌, fold, length, OnOk};
ghost use Rattle.net_types.specs.Number.{GivenOut};
ghost use Rattle.link_model.specs.Notes.{Journal};
ghost use Rattle.world_model.specs.Controller.{ports_of};
ghost use Rattle.world_model.specs.Resets.{closes_by, cuts_default, cuts_gsmp, node_resets, port_restarts, resets_gsmp};
ghost use Rattle.controller_router.specs.Conditions.{AllCanClose, CanClose, CanResetNode, CanRestart};
ghost use Rattle.controller_router.specs.Node.{acted, controller_of, ports_in, ranges_in};

use crate::engine::PortEngine;
use crate::router::Router;
use link_model::Notes;
use net_types::{Numbers, OutOfMemory, PortNo};
use port_actions::Actions;
use port_model::Action;

impl<E: PortEngine> Router<E> {
    /// Does what a port asks that restarts: its session is closed, and the chains of its labels are cut.
    fn close_by(
        &mut self,
        port: PortNo,
        action: Action,
        notes: &mut Notes,
    ) -> Result<(), OutOfMemory>
        requires { CanClose (ranges_in E.seen self.old) port action }
        ensures acted { (numbers : GivenOut) → OnOk result (acted E.seen self.new notes.new numbers ≡ closes_by port (acted E.seen self.old notes.old numbers) action) }
        ensures links { self.new.links ≡ self.old.links }
        ensures ranges { ranges_in E.seen self.new ≡ ranges_in E.seen self.old }
    {
        match action {
            Action::Note(record) => notes.push(record),
            Action::CutChain { vci } => self.cut_label(port, vci, notes),
            _left_out => Ok(()),
        }
    }

    /// Does all of it.
    fn close_all(
        &mut self,
        port: PortNo,
        mut actions: Actions,
        notes: &mut Notes,
    ) -> Result<(), OutOfMemory>
        requires { AllCanClose (ranges_in E.seen self.old) port actions }
        ensures acted { (numbers : GivenOut) → OnOk result (acted E.seen self.new notes.new numbers ≡ fold (closes_by port) (acted E.seen self.old notes.old numbers) actions) }
        ensures links { self.new.links ≡ self.old.links }
        ensures ranges { ranges_in E.seen self.new ≡ ranges_in E.seen self.old }
    {
        while let Some(action) = actions.take_first() {
            self.close_by(port, action, notes)?;
        }
        self.keep_actions(actions);
        Ok(())
    }

    /// Restarts a port, under the next instance.
    fn restart_port(
        &mut self,
        port: PortNo,
        numbers: &mut Numbers,
        notes: &mut Notes,
    ) -> Result<(), OutOfMemory>
        requires { CanRestart (acted E.seen self.old notes.old numbers.old) port }
        ensures acted { OnOk result (acted E.seen self.new notes.new numbers.new ≡ port_restarts (acted E.seen self.old notes.old numbers.old) port) }
        ensures ports { ports_in E.seen self.new ≡ ports_in E.seen self.old }
    {
        let Some(place) = self.place_of(port) else {
            return Ok(());
        };
        let own = numbers.instance();
        let mut actions = self.take_actions();
        self.links[place].restart(own, &mut actions)?;
        self.close_all(port, actions, notes)
    }

    /// The adjacency with the switch begins anew under the next instance, and nothing stands.
    fn reset_gsmp(&mut self, numbers: &mut Numbers)
        requires { numbers.old.instances + 1 < 2 ^ 32 }
        ensures acted { (notes : Journal) → acted E.seen self.new notes numbers.new ≡ resets_gsmp (acted E.seen self.old notes numbers.old) }
        ensures links { self.new.links ≡ self.old.links }
    {
        self.client.reset(numbers.instance());
        self.routes.give_up();
    }

    /// Resets the node.
    pub fn reset_node(
        &mut self,
        numbers: &mut Numbers,
        notes: &mut Notes,
    ) -> Result<(), OutOfMemory>
        requires { CanResetNode (acted E.seen self.old notes.old numbers.old) }
        ensures acted { OnOk result (acted E.seen self.new notes.new numbers.new ≡ node_resets (acted E.seen self.old notes.old numbers.old)) }
        ensures ports { ports_in E.seen self.new ≡ ports_in E.seen self.old }

        // What a caller that doesn't open the router needs besides.
        ensures linked { ports_of (controller_of E.seen self.old) ≡ ports_in E.seen self.old }
    {
        self.reset_gsmp(numbers);
        for place in 0..self.links.as_slice().len() {
            let port = self.links[place].port();
            self.restart_port(port, numbers, notes)?;
        }
        Ok(())
    }

    /// Cuts the chains that a reset of the node leaves: of the GSMP channel, and of each port's default
    /// channel.
    pub fn cut_others(&mut self, notes: &mut Notes) -> Result<(), OutOfMemory>
        ensures acted { (numbers : GivenOut) → OnOk result (acted E.seen self.new notes.new numbers ≡ fold cuts_default (cuts_gsmp (acted E.seen self.old notes.old numbers)) (ports_in E.seen self.old)) }
        ensures ports { ports_in E.seen self.new ≡ ports_in E.seen self.old }
    {
        self.cut_gsmp(notes)?;
        self.cut_defaults(notes)
    }

    /// Cuts the chain of each port's default channel.
    fn cut_defaults(&mut self, notes: &mut Notes) -> Result<(), OutOfMemory>
        ensures acted { (numbers : GivenOut) → OnOk result (acted E.seen self.new notes.new numbers ≡ fold cuts_default (acted E.seen self.old notes.old numbers) (ports_in E.seen self.old)) }
        ensures ports { ports_in E.seen self.new ≡ ports_in E.seen self.old }
    {
        for place in 0..self.links.as_slice().len() {
            let port = self.links[place].port();
            self.cut_default(port, notes)?;
        }
        Ok(())
    }
}
