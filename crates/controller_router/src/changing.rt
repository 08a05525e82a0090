//! *Changes of routes*, and answers of the switch: what they are to the router before its joins are looked
//! at.

ghost use Rattle.std.specs.Prelude.{◌≡◌, ◌≢◌, ◌<◌, ◌+◌, ◌^◌, ◌∷◌, [], List, fold, length, true, None, OnOk};
ghost use Rattle.net_types.specs.Number.{GivenOut};
ghost use Rattle.ipv4_forward.specs.Change.{change_fault, changed};
ghost use Rattle.ipv4_forward.specs.declared.change.RouteChange.{RouteChange as ChangeValue};
ghost use Rattle.link_model.specs.Notes.{Journal};
ghost use Rattle.port_model.specs.DeskAnswers.{after_answer, answered};
ghost use Rattle.controller_requests.specs.Answers.{told};
ghost use Rattle.world_model.specs.Changes.{takes_change};
ghost use Rattle.world_model.specs.Controller.{with_desk};
ghost use Rattle.controller_router.specs.Meeting.{with_begun, with_change};
ghost use Rattle.controller_router.specs.Node.{acted};

use crate::engine::PortEngine;
use crate::router::Router;
use controller_requests::Answer;
use gsmp_wire::Message;
use ipv4_forward::RouteChange;
use link_model::{Notes, Record};
use net_types::OutOfMemory;

impl<E: PortEngine> Router<E> {
    /// A change waits behind all others, after which the table takes it. Want of memory changes nothing.
    pub fn push_change(&mut self, change: &RouteChange) -> Result<(), OutOfMemory>
        requires taken { change_fault (fold changed self.old.routes.table self.old.routes.waiting) change.now ≡ None }
        requires count { self.old.routes.changes + length self.old.routes.waiting + 1 < 2 ^ 32 }
        ensures acted { (notes : Journal) (numbers : GivenOut) → OnOk result (acted E.seen self.new notes numbers ≡ with_change (acted E.seen self.old notes numbers) change.now) }
        ensures links { self.new.links ≡ self.old.links }
    {
        self.routes.push(change)
    }

    /// The first change that waits is begun.
    pub fn begin_change(&mut self)
        ensures acted { (notes : Journal) (numbers : GivenOut) → acted E.seen self.new notes numbers ≡ with_begun (acted E.seen self.old notes numbers) }
        ensures links { self.new.links ≡ self.old.links }
    {
        self.routes.begin();
    }

    /// Takes the first change, if one waits, and records it.
    pub fn take_change(&mut self, notes: &mut Notes) -> Result<(), OutOfMemory>
        requires { self.old.routes.waiting ≢ [] }
        ensures acted { (numbers : GivenOut) (change : ChangeValue) (later : List ChangeValue) → self.old.routes.waiting ≡ change ∷ later → OnOk result (acted E.seen self.new notes.new numbers ≡ takes_change (acted E.seen self.old notes.old numbers) change later) }
        ensures links { self.new.links ≡ self.old.links }
    {
        let number = self.routes.take();
        notes.push(Record::Routes {
            node: self.node,
            number,
        })
    }

    /// Takes a message of the switch that isn't of the adjacency. What is done must be redeemed.
    pub fn take_answer(&mut self, message: &Message) -> Answer
        ensures answer { result ≡ told (answered self.old.client.desk message.now) }
        ensures acted { (notes : Journal) (numbers : GivenOut) → acted E.seen self.new notes numbers ≡ with_desk (acted E.seen self.old notes numbers) (after_answer self.old.client.desk (answered self.old.client.desk message.now)) }
        ensures links { self.new.links ≡ self.old.links }
    {
        self.client.take_answer(message)
    }
}
