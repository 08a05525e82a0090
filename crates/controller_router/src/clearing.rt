//! A port is cleared when the switch is met, calls it up and owes no answer, and it has no grant. And a
//! port whose numbers are spent is reset.

ghost use Rattle.std.specs.Prelude.{◌≡◌, ◌≤◌, ◌&&◌, true, false, fold, OnOk};
ghost use Rattle.net_types.specs.Number.{GivenOut};
ghost use Rattle.link_model.specs.Notes.{Journal};
ghost use Rattle.port_model.specs.Messages.{is_up};
ghost use Rattle.world_model.specs.Controller.{ports_of};
ghost use Rattle.world_model.specs.Joins.{resets_spent};
ghost use Rattle.world_model.specs.Meeting.{awaits_nothing, clears, clears_port, is_clearing};
ghost use Rattle.world_model.specs.Performing.{resets_port};
ghost use Rattle.controller_router.specs.Conditions.{CanResetPort};
ghost use Rattle.controller_router.specs.Meeting.{CanResetSpent, EachCanResetSpent};
ghost use Rattle.controller_router.specs.Node.{acted, controller_of, ports_in};

use crate::engine::PortEngine;
use crate::router::Router;
use link_model::Notes;
use net_types::{Numbers, OutOfMemory, PortNo};

impl<E: PortEngine> Router<E> {
    /// Whether the switch is met, calls a port up and owes it no answer.
    fn is_ready(&self, port: PortNo) -> bool
        requires { (1 ≤ port.0) × (port.0 ≤ 8) }
        ensures { result ≡ ((self.now.client.has_met && is_up self.now.client.desk.rows port) && awaits_nothing (controller_of E.seen self.now) port) }
    {
        if !self.client.has_met() {
            return false;
        }
        if !self.client.requests().desk().is_up(port) {
            return false;
        }
        self.client.awaits_nothing(port)
    }

    /// Clears a port, if it is to be cleared.
    pub fn clear_port(&mut self, port: PortNo)
        ensures acted { (notes : Journal) (numbers : GivenOut) → acted E.seen self.new notes numbers ≡ clears_port (acted E.seen self.old notes numbers) port }
        ensures ports { ports_in E.seen self.new ≡ ports_in E.seen self.old }
    {
        let Some(place) = self.place_of(port) else {
            return;
        };
        let link = &self.links[place];
        if !link.is_clearing() {
            return;
        }
        if !link.has_no_grant() {
            return;
        }
        if self.is_ready(port) {
            self.links[place].cleared();
        }
    }

    /// Clears each port that is to be cleared.
    pub fn clear_ports(&mut self)
        ensures acted { (notes : Journal) (numbers : GivenOut) → acted E.seen self.new notes numbers ≡ clears (acted E.seen self.old notes numbers) }
        ensures ports { ports_in E.seen self.new ≡ ports_in E.seen self.old }
    {
        for place in 0..self.ports() {
            let port = self.port_at(place);
            self.clear_port(port);
        }
    }

    /// Whether the numbers of a port are spent, in Estab.
    fn is_spent(&self, port: PortNo) -> bool
        ensures resets { (notes : Journal) (numbers : GivenOut) → result ≡ true → resets_port (acted E.seen self.now notes numbers) port ≡ resets_spent (acted E.seen self.now notes numbers) port }
        ensures can { (notes : Journal) (numbers : GivenOut) → result ≡ true → CanResetSpent (acted E.seen self.now notes numbers) port → CanResetPort (acted E.seen self.now notes numbers) port }
        ensures stays { (notes : Journal) (numbers : GivenOut) → result ≡ false → acted E.seen self.now notes numbers ≡ resets_spent (acted E.seen self.now notes numbers) port }
    {
        let Some(place) = self.place_of(port) else {
            return false;
        };
        if !self.links[place].is_spent() {
            return false;
        }
        self.client.is_estab()
    }

    /// Resets a port whose numbers are spent.
    pub fn reset_spent(
        &mut self,
        port: PortNo,
        numbers: &mut Numbers,
        notes: &mut Notes,
    ) -> Result<(), OutOfMemory>
        requires { CanResetSpent (acted E.seen self.old notes.old numbers.old) port }
        ensures acted { OnOk result (acted E.seen self.new notes.new numbers.new ≡ resets_spent (acted E.seen self.old notes.old numbers.old) port) }
        ensures ports { ports_in E.seen self.new ≡ ports_in E.seen self.old }
    {
        if self.is_spent(port) {
            self.reset_port(port, numbers, notes)
        } else {
            Ok(())
        }
    }

    /// Resets each port whose numbers are spent.
    pub fn reset_all_spent(
        &mut self,
        numbers: &mut Numbers,
        notes: &mut Notes,
    ) -> Result<(), OutOfMemory>
        requires { EachCanResetSpent (acted E.seen self.old notes.old numbers.old) (ports_in E.seen self.old) }
        ensures acted { OnOk result (acted E.seen self.new notes.new numbers.new ≡ fold resets_spent (acted E.seen self.old notes.old numbers.old) (ports_of (controller_of E.seen self.old))) }
        ensures ports { ports_in E.seen self.new ≡ ports_in E.seen self.old }
    {
        for place in 0..self.ports() {
            let port = self.port_at(place);
            self.reset_spent(port, numbers, notes)?;
        }
        Ok(())
    }
}
