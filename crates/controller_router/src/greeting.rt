//! The adjacency with the switch (RFC 1987), and its beginning in Estab.

ghost use Rattle.std.specs.Prelude.{◌≡◌, [], OnOk};
ghost use Rattle.net_types.specs.Number.{GivenOut};
ghost use Rattle.link_model.specs.Notes.{Journal};
ghost use Rattle.adjacency_table.specs.Greeting.{gsmp_answer, gsmp_received};
ghost use Rattle.adjacency_table.specs.Side.{ticked};
ghost use Rattle.gsmp_wire.specs.declared.message.Message.TheVariants as messages;
ghost use Rattle.world_model.specs.Gsmp.{answers, steps};
ghost use Rattle.world_model.specs.Meeting.{meets};
ghost use Rattle.world_model.specs.Sending.{says_gsmp};
ghost use Rattle.controller_router.specs.Conditions.{CanFollow, CanMeet, HasMark, turned_to};
ghost use Rattle.controller_router.specs.Node.{acted, ports_in};

use crate::engine::PortEngine;
use crate::router::Router;
use gsmp_adjacency::Answer;
use gsmp_wire::Request;
use link_model::Notes;
use net_types::{Greeting, Numbers, OutOfMemory};

impl<E: PortEngine> Router<E> {
    /// Says a message of the adjacency.
    fn greet(
        &mut self,
        greeting: Greeting,
        numbers: &mut Numbers,
        notes: &mut Notes,
    ) -> Result<(), OutOfMemory>
        requires { HasMark (acted E.seen self.old notes.old numbers.old) }
        ensures acted { OnOk result (acted E.seen self.new notes.new numbers.new ≡ says_gsmp (acted E.seen self.old notes.old numbers.old) (messages.Adjacency greeting)) }
        ensures links { self.new.links ≡ self.old.links }
    {
        self.client.greet(greeting, numbers, notes)
    }

    /// On entering Estab all ports are asked for; transaction numbers begin at 1.
    fn meet(&mut self, numbers: &mut Numbers, notes: &mut Notes) -> Result<(), OutOfMemory>
        requires { CanMeet (acted E.seen self.old notes.old numbers.old) }
        ensures acted { OnOk result (acted E.seen self.new notes.new numbers.new ≡ meets (acted E.seen self.old notes.old numbers.old)) }
        ensures ports { ports_in E.seen self.new ≡ ports_in E.seen self.old }
    {
        self.client.begin();
        self.ask(Request::AllPorts, numbers, notes)
    }

    /// Does what the adjacency answers; entering Estab begins the meeting.
    pub fn follow(
        &mut self,
        answer: Answer,
        numbers: &mut Numbers,
        notes: &mut Notes,
    ) -> Result<(), OutOfMemory>
        requires { CanFollow (acted E.seen self.old notes.old numbers.old) answer }
        ensures acted { OnOk result (acted E.seen self.new notes.new numbers.new ≡ answers (acted E.seen self.old notes.old numbers.old) answer) }
        ensures ports { ports_in E.seen self.new ≡ ports_in E.seen self.old }
    {
        match answer {
            Answer::Quiet => Ok(()),
            Answer::Send(greeting) => self.greet(greeting, numbers, notes),
            Answer::Open { send, key } => {
                key.spend();
                if let Some(greeting) = send {
                    self.greet(greeting, numbers, notes)?;
                }
                self.meet(numbers, notes)
            }
            Answer::Reset => self.reset_node(numbers, notes),
        }
    }

    /// A message of the adjacency comes.
    pub fn hear_greeting(
        &mut self,
        greeting: &Greeting,
        numbers: &mut Numbers,
        notes: &mut Notes,
    ) -> Result<(), OutOfMemory>
        requires { CanFollow (turned_to (acted E.seen self.old notes.old numbers.old) (gsmp_received self.old.client.adjacency greeting.now)) (gsmp_answer (gsmp_received self.old.client.adjacency greeting.now).answer) }
        ensures acted { OnOk result (acted E.seen self.new notes.new numbers.new ≡ steps (acted E.seen self.old notes.old numbers.old) (gsmp_received self.old.client.adjacency greeting.now)) }
        ensures ports { ports_in E.seen self.new ≡ ports_in E.seen self.old }
    {
        let answer = self.client.hear(greeting);
        self.follow(answer, numbers, notes)
    }

    /// A message of the adjacency comes, whose answer is to be followed.
    pub fn take_greeting(&mut self, greeting: &Greeting) -> Answer
        ensures acted { (notes : Journal) (numbers : GivenOut) → acted E.seen self.new notes numbers ≡ turned_to (acted E.seen self.old notes numbers) (gsmp_received self.old.client.adjacency greeting.now) }
        ensures answer { result ≡ gsmp_answer (gsmp_received self.old.client.adjacency greeting.now).answer }
        ensures links { self.new.links ≡ self.old.links }
    {
        self.client.hear(greeting)
    }

    /// A tick goes by for the adjacency.
    pub fn tick_adjacency(&mut self) -> Answer
        ensures acted { (notes : Journal) (numbers : GivenOut) → acted E.seen self.new notes numbers ≡ turned_to (acted E.seen self.old notes numbers) (ticked self.old.client.adjacency) }
        ensures answer { result ≡ gsmp_answer (ticked self.old.client.adjacency).answer }
        ensures links { self.new.links ≡ self.old.links }
    {
        self.client.tick()
    }
}
