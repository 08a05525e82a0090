//! *Joins* at the ports: a label is joined and parted, a grant is lent and given back.

ghost use Rattle.std.specs.Prelude.{◌≡◌, IsSome, IsTrue, OnOk, Some};
ghost use Rattle.net_types.specs.Label.{is_label_channel};
ghost use Rattle.net_types.specs.Number.{GivenOut};
ghost use Rattle.keyed_lists.specs.Keyed.{at};
ghost use Rattle.link_model.specs.Notes.{Journal};
ghost use Rattle.port_model.specs.Grants.{Grant, grant_label};
ghost use Rattle.port_model.specs.Joins.{given_back, joined, lent, parted};
ghost use Rattle.world_model.specs.Controller.{Linked, linked_at};
ghost use Rattle.world_model.specs.Joins.{parts};
ghost use Rattle.world_model.specs.Performing.{at_port};
ghost use Rattle.controller_router.specs.Conditions.{CanWork};
ghost use Rattle.controller_router.specs.Engine.{IsFree, IsReleased, IsSentUnder};
ghost use Rattle.controller_router.specs.Node.{acted, controller_of, ports_in};

use crate::engine::PortEngine;
use crate::router::Router;
use branch_desk::BranchDone;
use link_model::{Notes, Record};
use net_types::{End, Numbers, OutOfMemory, PortNo, label_number};

impl<E: PortEngine> Router<E> {
    /// A label of a port, if it is held, isn't joined any more.
    fn part_label(&mut self, port: PortNo, label: u16)
        ensures acted { (notes : Journal) (numbers : GivenOut) → acted E.seen self.new notes numbers ≡ at_port (acted E.seen self.old notes numbers) port (λ setup desk w. parted w label) }
        ensures ports { ports_in E.seen self.new ≡ ports_in E.seen self.old }
    {
        let Some(place) = self.place_of(port) else {
            return;
        };
        self.links[place].parted(label);
    }

    /// The label of an input isn't joined any more, and that is recorded.
    pub fn part(&mut self, input: End, notes: &mut Notes) -> Result<(), OutOfMemory>
        requires { IsTrue (is_label_channel input.channel) }
        ensures acted { (numbers : GivenOut) → OnOk result (acted E.seen self.new notes.new numbers ≡ parts (acted E.seen self.old notes.old numbers) input) }
        ensures ports { ports_in E.seen self.new ≡ ports_in E.seen self.old }
    {
        let Some(number) = label_number(input.channel) else {
            unreachable!()
        };
        notes.push(Record::Part {
            node: self.node,
            port: input.port,
            vci: number,
        })?;
        self.part_label(input.port, number);
        Ok(())
    }

    /// A label of a port, which is offered and isn't joined where the port is linked, is joined to an
    /// output.
    pub fn join_label(&mut self, port: PortNo, label: u16, output: End)
        requires { (linked : Linked) → linked_at (controller_of E.seen self.old) port ≡ Some linked → IsFree linked.port label }
        ensures acted { (notes : Journal) (numbers : GivenOut) → acted E.seen self.new notes numbers ≡ at_port (acted E.seen self.old notes numbers) port (λ setup desk w. joined w label output) }
        ensures ports { ports_in E.seen self.new ≡ ports_in E.seen self.old }
    {
        let Some(place) = self.place_of(port) else {
            return;
        };
        self.links[place].joined(label, output);
    }

    /// A grant of a linked port, under which the router sends, is lent to an input.
    pub fn lend(&mut self, port: PortNo, label: u16, input: End)
        requires linked { IsSome (linked_at (controller_of E.seen self.old) port) }
        requires sent { (linked : Linked) → linked_at (controller_of E.seen self.old) port ≡ Some linked → IsSentUnder linked.port label }
        ensures acted { (notes : Journal) (numbers : GivenOut) (linked : Linked) (grant : Grant) → linked_at (controller_of E.seen self.old) port ≡ Some linked → at grant_label label linked.port.grants ≡ Some grant → acted E.seen self.new notes numbers ≡ at_port (acted E.seen self.old notes numbers) port (λ setup desk w. lent w grant input) }
        ensures ports { ports_in E.seen self.new ≡ ports_in E.seen self.old }
    {
        let Some(place) = self.place_of(port) else {
            unreachable!()
        };
        self.links[place].lend(label, input);
    }

    /// A lent grant of a linked port, whose input is released, is given back.
    pub fn give_back(
        &mut self,
        port: PortNo,
        label: u16,
        done: &BranchDone,
        numbers: &mut Numbers,
        notes: &mut Notes,
    ) -> Result<(), OutOfMemory>
        requires linked { IsSome (linked_at (controller_of E.seen self.old) port) }
        requires released { (linked : Linked) → linked_at (controller_of E.seen self.old) port ≡ Some linked → IsReleased done.now.request linked.port label }
        requires can { (linked : Linked) (grant : Grant) → linked_at (controller_of E.seen self.old) port ≡ Some linked → at grant_label label linked.port.grants ≡ Some grant → CanWork (acted E.seen self.old notes.old numbers.old) port (λ setup desk w. given_back w grant) }
        ensures acted { (linked : Linked) (grant : Grant) → linked_at (controller_of E.seen self.old) port ≡ Some linked → at grant_label label linked.port.grants ≡ Some grant → OnOk result (acted E.seen self.new notes.new numbers.new ≡ at_port (acted E.seen self.old notes.old numbers.old) port (λ setup desk w. given_back w grant)) }
        ensures ports { ports_in E.seen self.new ≡ ports_in E.seen self.old }
    {
        let Some(place) = self.place_of(port) else {
            unreachable!()
        };
        let mut actions = self.take_actions();
        self.links[place].back(label, done, &mut actions)?;
        self.perform_all(port, actions, numbers, notes)
    }
}
