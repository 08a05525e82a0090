//! What comes on the GSMP channel (RFC 1987): the adjacency with the switch, and answers.

ghost use Rattle.std.specs.Prelude.{◌≡◌, ◌≢◌, OnOk};
ghost use Rattle.gsmp_wire.specs.declared.message.Message.TheVariants as messages;
ghost use Rattle.adjacency_table.specs.declared.message.Answer.TheVariants.{Reset};
ghost use Rattle.port_model.specs.DeskAnswers.{answered};
ghost use Rattle.controller_joins.specs.world_model.Gsmp.{answers, message_comes};
ghost use Rattle.controller_joins.specs.world_model.Meeting.{answer_comes, takes_success as finished};
ghost use Rattle.controller_router.specs.Conditions.{CanFollow};
ghost use Rattle.controller_joining.specs.Answers.{CanBeTold, CanFinish, CanTakeAnswer};
ghost use Rattle.controller_joining.specs.Joining.{AreJoined, acted};

use crate::joining::JoiningRouter;
use branch_desk::BranchDone;
use controller_requests::Answer;
use controller_router::PortEngine;
use gsmp_adjacency::Answer as Greeted;
use gsmp_wire::Message;
use link_model::Notes;
use net_types::{Greeting, Numbers, OutOfMemory};

impl<E: PortEngine> JoiningRouter<E> {
    /// A request is done: releases come first, then what the answer causes, then changes of routes.
    fn finish(
        &mut self,
        done: &BranchDone,
        numbers: &mut Numbers,
        notes: &mut Notes,
    ) -> Result<(), OutOfMemory>
        requires joined { AreJoined E.seen self.old }
        requires can { CanFinish (acted E.seen self.old notes.old numbers.old) done.now.request }
        ensures acted { OnOk result (acted E.seen self.new notes.new numbers.new ≡ finished (acted E.seen self.old notes.old numbers.old) done.now.request) }
        ensures joined { OnOk result (AreJoined E.seen self.new) }
    {
        self.release(done, numbers, notes)?;
        self.cause(done, numbers, notes)?;
        self.router.clear_ports();
        self.take_changes(numbers, notes)
    }

    /// Takes an answer of the switch: one that answers nothing does nothing, and a failure resets the
    /// node.
    fn take_answer(
        &mut self,
        message: &Message,
        numbers: &mut Numbers,
        notes: &mut Notes,
    ) -> Result<(), OutOfMemory>
        requires joined { AreJoined E.seen self.old }
        requires can { CanTakeAnswer (acted E.seen self.old notes.old numbers.old) (answered self.old.router.client.desk message.now) }
        ensures acted { OnOk result (acted E.seen self.new notes.new numbers.new ≡ answer_comes (acted E.seen self.old notes.old numbers.old) message.now) }
        ensures joined { OnOk result (AreJoined E.seen self.new) }
    {
        match self.router.take_answer(message) {
            Answer::Unknown => Ok(()),
            Answer::Done(done) => {
                let result = self.finish(done.done(), numbers, notes);
                done.redeem();
                result
            }
            Answer::Ports(_rows, done) => {
                done.redeem();
                self.empty_switch(numbers, notes)
            }
            Answer::Failed { number: _, code: _ } => self.reset_node(numbers, notes),
        }
    }

    /// Does what the adjacency answers, where it isn't a reset.
    fn follow_on(
        &mut self,
        answer: Greeted,
        numbers: &mut Numbers,
        notes: &mut Notes,
    ) -> Result<(), OutOfMemory>
        requires joined { AreJoined E.seen self.old }
        requires goes_on { answer ≢ Reset }
        requires can { CanFollow (acted E.seen self.old notes.old numbers.old) answer }
        ensures acted { OnOk result (acted E.seen self.new notes.new numbers.new ≡ answers (acted E.seen self.old notes.old numbers.old) answer) }
        ensures joined { OnOk result (AreJoined E.seen self.new) }
    {
        let stood = self.stands();
        self.router.follow(answer, numbers, notes)?;
        self.settle(stood);
        Ok(())
    }

    /// Does what the adjacency answers; entering Estab begins the meeting.
    pub(crate) fn follow(
        &mut self,
        answer: Greeted,
        numbers: &mut Numbers,
        notes: &mut Notes,
    ) -> Result<(), OutOfMemory>
        requires joined { AreJoined E.seen self.old }
        requires can { CanFollow (acted E.seen self.old notes.old numbers.old) answer }
        ensures acted { OnOk result (acted E.seen self.new notes.new numbers.new ≡ answers (acted E.seen self.old notes.old numbers.old) answer) }
        ensures joined { OnOk result (AreJoined E.seen self.new) }
    {
        match answer {
            Greeted::Reset => self.reset_node(numbers, notes),
            other => self.follow_on(other, numbers, notes),
        }
    }

    /// A message of the adjacency comes.
    fn hear_greeting(
        &mut self,
        greeting: &Greeting,
        numbers: &mut Numbers,
        notes: &mut Notes,
    ) -> Result<(), OutOfMemory>
        requires joined { AreJoined E.seen self.old }
        requires can { CanBeTold (acted E.seen self.old notes.old numbers.old) (messages.Adjacency greeting.now) }
        ensures acted { OnOk result (acted E.seen self.new notes.new numbers.new ≡ message_comes (acted E.seen self.old notes.old numbers.old) (messages.Adjacency greeting.now)) }
        ensures joined { OnOk result (AreJoined E.seen self.new) }
    {
        let answer = self.router.take_greeting(greeting);
        self.follow(answer, numbers, notes)
    }

    /// Takes a message of the switch.
    pub fn tell(
        &mut self,
        message: &Message,
        numbers: &mut Numbers,
        notes: &mut Notes,
    ) -> Result<(), OutOfMemory>
        requires joined { AreJoined E.seen self.old }
        requires can { CanBeTold (acted E.seen self.old notes.old numbers.old) message.now }
        ensures acted { OnOk result (acted E.seen self.new notes.new numbers.new ≡ message_comes (acted E.seen self.old notes.old numbers.old) message.now) }
        ensures joined { OnOk result (AreJoined E.seen self.new) }
    {
        match message {
            Message::Adjacency(greeting) => self.hear_greeting(greeting, numbers, notes),
            Message::Branch { .. } => self.take_answer(message, numbers, notes),
            Message::Move { .. } => self.take_answer(message, numbers, notes),
            Message::Port { .. } => self.take_answer(message, numbers, notes),
            Message::AllPorts { .. } => self.take_answer(message, numbers, notes),
        }
    }
}
