//! *Asking*: a request is asked under the next transaction number, and sent again while it stands.

ghost use Rattle.std.specs.Prelude.{◌≡◌, ◌<◌, ◌≤◌, ◌+◌, ◌^◌, ◌==◌, fold, length, slice_get, OnOk, IfSome, true};
ghost use Rattle.gsmp_wire.specs.declared.request.Request.TheVariants.{MoveBranch};
ghost use Rattle.world_model.specs.port_model.Desk.{Standing, asked, is_led_home, last_transaction, sent_again, withdrawn};
ghost use Rattle.net_types.specs.Number.{with_control};
ghost use Rattle.world_model.specs.port_model.Setup.{home_of};
ghost use Rattle.controller_requests.specs.branch_desk.Requests.{has_function};
ghost use Rattle.world_model.specs.Asking.{asks_next, sends_request};
ghost use Rattle.world_model.specs.Controller.{default_end, default_home};
ghost use Rattle.world_model.specs.Meeting.{awaits_nothing};
ghost use Rattle.controller_gsmp.specs.Client.{AreOneNode, Router, acted, controller_of};

use crate::client::Client;
use crate::ends::{default_end, home_of};
use gsmp_wire::Request;
use link_model::Notes;
use net_types::{End, Numbers, OutOfMemory, PortNo};

/// The greatest transaction number, which is never used.
const LAST_TRANSACTION: u32 = 4_294_967_295;

/// How many requests are sent again at a time.
const SENT_AGAIN: usize = 32;

impl Client {
    /// Whether the next transaction number would be the last.
    pub fn is_spent(&self) -> bool
        ensures { result ≡ (self.now.desk.next == last_transaction) }
    {
        self.requests.desk().next_number() == LAST_TRANSACTION
    }

    /// Sends the standing request at an index in the order of asking, for the first time or again.
    pub fn send_request(
        &mut self,
        place: usize,
        numbers: &mut Numbers,
        notes: &mut Notes,
    ) -> Result<(), OutOfMemory>
        requires place { place < length self.old.desk.standing }
        requires numbers { numbers.old.controls + 1 < 2 ^ 64 }
        ensures acted { (r : Router) (s : Standing) → AreOneNode r self.old → slice_get self.old.desk.standing place ≡ Some s → OnOk result (acted r self.new notes.new numbers.new ≡ sends_request (acted r self.old notes.old numbers.old) s) }
        ensures rest { self.new ≡ record self.old { control = record self.old.control { queue = self.new.control.queue } } }
        ensures drawn { numbers.new ≡ with_control numbers.old }
    {
        match self.requests.message_at(place) {
            Some(message) => self.say_gsmp(&message, numbers, notes),
            None => unreachable!(),
        }
    }

    /// Asks a request. Its number isn't the last, and a function is 1 or 2.
    pub fn ask(
        &mut self,
        request: Request,
        numbers: &mut Numbers,
        notes: &mut Notes,
    ) -> Result<(), OutOfMemory>
        requires room { length self.old.desk.standing < 4096 }
        requires next { self.old.desk.next < last_transaction }
        requires function { has_function request ≡ true }
        requires numbers { numbers.old.controls + 1 < 2 ^ 64 }
        ensures acted { (r : Router) → AreOneNode r self.old → OnOk result (acted r self.new notes.new numbers.new ≡ asks_next (acted r self.old notes.old numbers.old) request) }
        ensures rest { self.new ≡ record self.old { desk = asked self.old.desk request; control = record self.old.control { queue = self.new.control.queue } } }
        ensures drawn { numbers.new ≡ with_control numbers.old }
    {
        self.requests.ask(request);
        let place = self.requests.standing() - 1;
        self.send_request(place, numbers, notes)
    }

    /// Sends the first standing requests again.
    pub fn send_again(
        &mut self,
        numbers: &mut Numbers,
        notes: &mut Notes,
    ) -> Result<(), OutOfMemory>
        requires { numbers.old.controls + 32 < 2 ^ 64 }
        ensures acted { (r : Router) → AreOneNode r self.old → OnOk result (acted r self.new notes.new numbers.new ≡ fold sends_request (acted r self.old notes.old numbers.old) (sent_again self.old.desk)) }
        ensures rest { self.new ≡ record self.old { control = record self.old.control { queue = self.new.control.queue } } }
    {
        for place in 0..self.requests.standing().min(SENT_AGAIN) {
            self.send_request(place, numbers, notes)?;
        }
        Ok(())
    }

    /// Withdraws what stands on an input.
    pub fn withdraw_input(&mut self, input: End)
        ensures { self.new ≡ record self.old { desk = withdrawn self.old.desk input } }
    {
        self.requests.withdraw_input(input);
    }

    /// Whether a request stands that leads an input of a port to the control link.
    pub fn is_led_home(&self, input: End) -> bool
        requires port { (1 ≤ input.port.0) × (input.port.0 ≤ 8) }
        requires vpi { input.channel.vpi < 16 }
        ensures { result ≡ is_led_home self.now.desk input (home_of input) }
    {
        self.requests.is_led_home(input, home_of(input))
    }

    /// Whether neither Delete All of a port nor a request on its default channels stands.
    pub fn awaits_nothing(&self, port: PortNo) -> bool
        requires { (1 ≤ port.0) × (port.0 ≤ 8) }
        ensures { (r : Router) → result ≡ awaits_nothing (controller_of r self.now) port }
    {
        let desk = self.requests.desk();
        let end = default_end(port);
        !desk.all_on(port) && !desk.on_input(end) && !desk.on_input(home_of(end))
    }
}
