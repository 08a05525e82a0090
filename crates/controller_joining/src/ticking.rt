//! *Tick*: the adjacency with the switch first, then the requests that stand, then each port, then joins.
//! The order is this project's own.

ghost use Rattle.std.specs.Prelude.{◌≡◌, ◌≢◌, OnOk};
ghost use Rattle.adjacency_table.specs.declared.message.Answer.TheVariants.{Reset};
ghost use Rattle.controller_joins.specs.world_model.Gsmp.{answers};
ghost use Rattle.controller_joins.specs.world_model.Joins.{tries_joins};
ghost use Rattle.controller_joins.specs.world_model.Ticks.{sends_again, ticks, ticks_ports};
ghost use Rattle.controller_joining.specs.Conditions.{CanSendAgain, CanTick, CanTickOn};
ghost use Rattle.controller_joining.specs.Joining.{AreJoined, acted};

use crate::joining::JoiningRouter;
use controller_router::PortEngine;
use gsmp_adjacency::Answer as Greeted;
use link_model::Notes;
use net_types::{Numbers, OutOfMemory};

impl<E: PortEngine> JoiningRouter<E> {
    /// Sends the first standing requests again, in Estab.
    fn send_again(&mut self, numbers: &mut Numbers, notes: &mut Notes) -> Result<(), OutOfMemory>
        requires joined { AreJoined E.seen self.old }
        requires can { CanSendAgain (acted E.seen self.old notes.old numbers.old) }
        ensures acted { OnOk result (acted E.seen self.new notes.new numbers.new ≡ sends_again (acted E.seen self.old notes.old numbers.old)) }
        ensures joined { OnOk result (AreJoined E.seen self.new) }
    {
        self.router.send_again(numbers, notes)
    }

    /// Goes on with a tick behind the answer of the adjacency, where it isn't a reset.
    fn tick_on(
        &mut self,
        answer: Greeted,
        numbers: &mut Numbers,
        notes: &mut Notes,
    ) -> Result<(), OutOfMemory>
        requires joined { AreJoined E.seen self.old }
        requires can { CanTickOn (acted E.seen self.old notes.old numbers.old) answer }
        ensures acted { OnOk result (acted E.seen self.new notes.new numbers.new ≡ tries_joins (ticks_ports (sends_again (answers (acted E.seen self.old notes.old numbers.old) answer)))) }
        ensures joined { OnOk result (AreJoined E.seen self.new) }
    {
        self.follow(answer, numbers, notes)?;
        self.send_again(numbers, notes)?;
        self.tick_ports(numbers, notes)?;
        self.try_joins(numbers, notes)
    }

    /// A tick goes by. A reset of the adjacency with the switch ends it.
    pub fn tick(&mut self, numbers: &mut Numbers, notes: &mut Notes) -> Result<(), OutOfMemory>
        requires joined { AreJoined E.seen self.old }
        requires can { CanTick (acted E.seen self.old notes.old numbers.old) }
        ensures acted { OnOk result (acted E.seen self.new notes.new numbers.new ≡ ticks (acted E.seen self.old notes.old numbers.old)) }
        ensures joined { OnOk result (AreJoined E.seen self.new) }
    {
        match self.router.tick_adjacency() {
            Greeted::Reset => self.reset_node(numbers, notes),
            answer => self.tick_on(answer, numbers, notes),
        }
    }
}
