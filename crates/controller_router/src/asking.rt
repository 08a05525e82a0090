//! *Asking*: a request is asked under the next transaction number, in Estab alone. Where that would be
//! the last number, the node is reset.

ghost use Rattle.std.specs.Prelude.{◌≡◌, ◌<◌, ◌+◌, ◌^◌, true, OnOk};
ghost use Rattle.adjacency_table.specs.Side.{is_estab};
ghost use Rattle.world_model.specs.Asking.{asks, takes_back};
ghost use Rattle.world_model.specs.Ticks.{sends_again};
ghost use Rattle.controller_router.specs.Conditions.{CanAsk, CanTakeBack};
ghost use Rattle.controller_router.specs.Node.{acted, ports_in};

use crate::engine::PortEngine;
use crate::router::Router;
use controller_gsmp::home_of;
use gsmp_wire::Request;
use link_model::Notes;
use net_types::{End, Numbers, OutOfMemory};

impl<E: PortEngine> Router<E> {
    /// Asks a request.
    pub fn ask(
        &mut self,
        request: Request,
        numbers: &mut Numbers,
        notes: &mut Notes,
    ) -> Result<(), OutOfMemory>
        requires { CanAsk (acted E.seen self.old notes.old numbers.old) request }
        ensures acted { OnOk result (acted E.seen self.new notes.new numbers.new ≡ asks (acted E.seen self.old notes.old numbers.old) request) }
        ensures ports { ports_in E.seen self.new ≡ ports_in E.seen self.old }
    {
        if !self.client.is_estab() {
            return Ok(());
        }
        if self.client.is_spent() {
            return self.reset_node(numbers, notes);
        }
        self.client.ask(request, numbers, notes)
    }

    /// Takes a join back by Move Branch to the control link, unless its input is led there already.
    pub fn take_back(
        &mut self,
        input: End,
        output: End,
        numbers: &mut Numbers,
        notes: &mut Notes,
    ) -> Result<(), OutOfMemory>
        requires { CanTakeBack (acted E.seen self.old notes.old numbers.old) input output }
        ensures acted { OnOk result (acted E.seen self.new notes.new numbers.new ≡ takes_back (acted E.seen self.old notes.old numbers.old) input output) }
        ensures ports { ports_in E.seen self.new ≡ ports_in E.seen self.old }
    {
        if self.client.is_led_home(input) {
            return Ok(());
        }
        let request = Request::MoveBranch {
            input,
            from: output,
            to: home_of(input),
        };
        self.ask(request, numbers, notes)
    }

    /// Sends the first standing requests again, in Estab.
    pub fn send_again(
        &mut self,
        numbers: &mut Numbers,
        notes: &mut Notes,
    ) -> Result<(), OutOfMemory>
        requires { is_estab self.old.client.adjacency.state ≡ true → numbers.old.controls + 32 < 2 ^ 64 }
        ensures acted { OnOk result (acted E.seen self.new notes.new numbers.new ≡ sends_again (acted E.seen self.old notes.old numbers.old)) }
        ensures links { self.new.links ≡ self.old.links }
    {
        if !self.client.is_estab() {
            return Ok(());
        }
        self.client.send_again(numbers, notes)
    }
}
