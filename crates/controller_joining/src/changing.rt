//! *Changes of routes*: they wait in order, and the first is begun once the switch is met. The joins whose
//! flows' route it changes are taken back, and when none is left the change is taken.

ghost use Rattle.std.specs.Prelude.{◌≡◌, fold, true, OnOk, if◌then◌else◌};
ghost use Rattle.std.specs.List.{list_any};
ghost use Rattle.port_model.specs.Setup.{label_end};
ghost use Rattle.controller_joins.specs.world_model.Changes.{begins_change, change_comes, changed_joins, is_changed, takes_changes, takes_join_back};
ghost use Rattle.controller_joins.specs.world_model.Joins.{Join, joins_of, output_joined};
ghost use Rattle.law_join_facts.specs.Joins.{HaveNumbers};
ghost use Rattle.controller_joins.specs.Joined.{joined_of};
ghost use Rattle.controller_router.specs.Conditions.{CanTakeBack};
ghost use Rattle.controller_joining.specs.Answers.{CanChange};
ghost use Rattle.controller_joining.specs.Conditions.{CanBeginChange, CanTakeChanges, EachCanBeTakenBack, HasGrants, IsGrantOf};
ghost use Rattle.controller_joining.specs.Joining.{AreJoined, acted, controller_of};

use crate::joining::JoiningRouter;
use controller_joins::Joined;
use controller_router::PortEngine;
use ipv4_forward::RouteChange;
use link_model::Notes;
use net_types::{End, Numbers, OutOfMemory, numbered_channel};

/// The output that a join's input is led to.
pub(crate) fn output_of(joined: &Joined) -> End
    ensures { result ≡ label_end joined.now.port joined.now.label }
{
    End {
        port: joined.port,
        channel: numbered_channel(joined.label),
    }
}

impl<E: PortEngine> JoiningRouter<E> {
    /// Whether the flow of a join's grant has another route after the change. The grant is there.
    fn is_changed(&self, change: &RouteChange, joined: &Joined) -> bool
        requires { (join : Join) × (joined_of join ≡ joined.now) × IsGrantOf (controller_of E.seen self.now) join }
        ensures { (join : Join) → IsGrantOf (controller_of E.seen self.now) join → joined_of join ≡ joined.now → result ≡ is_changed self.now.router.routes.table change.now join }
    {
        let Some(grants) = self.router.grants_at(joined.port) else {
            return false;
        };
        match grants.get(joined.label) {
            Some(grant) => self.router.routes().differs(change, &grant.flow),
            None => false,
        }
    }

    /// Takes a join back where the change changes its flow's route.
    fn take_join_back(
        &mut self,
        change: &RouteChange,
        joined: &Joined,
        numbers: &mut Numbers,
        notes: &mut Notes,
    ) -> Result<(), OutOfMemory>
        requires { (join : Join) × (joined_of join ≡ joined.now) × IsGrantOf (controller_of E.seen self.old) join × (is_changed self.old.router.routes.table change.now join ≡ true → CanTakeBack (acted E.seen self.old notes.old numbers.old) join.input (output_joined join)) }
        ensures acted { (join : Join) → joined_of join ≡ joined.now → IsGrantOf (controller_of E.seen self.old) join → OnOk result (acted E.seen self.new notes.new numbers.new ≡ (if is_changed self.old.router.routes.table change.now join then takes_join_back (acted E.seen self.old notes.old numbers.old) join else acted E.seen self.old notes.old numbers.old)) }
        ensures joins { self.new.joins ≡ self.old.joins }
    {
        if !self.is_changed(change, joined) {
            return Ok(());
        }
        let output = output_of(joined);
        self.router.take_back(joined.input, output, numbers, notes)
    }

    /// Takes back each join whose flow's route the change changes.
    fn take_joins_back(
        &mut self,
        change: &RouteChange,
        numbers: &mut Numbers,
        notes: &mut Notes,
    ) -> Result<(), OutOfMemory>
        requires joined { AreJoined E.seen self.old }
        requires numbers { HaveNumbers (controller_of E.seen self.old) }
        requires grants { HasGrants (controller_of E.seen self.old) }
        requires can { EachCanBeTakenBack (acted E.seen self.old notes.old numbers.old) (changed_joins (controller_of E.seen self.old) change.now) }
        ensures acted { OnOk result (acted E.seen self.new notes.new numbers.new ≡ fold takes_join_back (acted E.seen self.old notes.old numbers.old) (changed_joins (controller_of E.seen self.old) change.now)) }
        ensures joins { self.new.joins ≡ self.old.joins }
    {
        for place in 0..self.joins.len() {
            if !self.router.client().is_estab() {
                return Ok(());
            }
            let Some(joined) = self.joins.at(place) else {
                return Ok(());
            };
            self.take_join_back(change, &joined, numbers, notes)?;
        }
        Ok(())
    }

    /// Begins the first change that waits, unless it is begun already.
    fn begin_change(
        &mut self,
        change: &RouteChange,
        numbers: &mut Numbers,
        notes: &mut Notes,
    ) -> Result<(), OutOfMemory>
        requires joined { AreJoined E.seen self.old }
        requires grants { HasGrants (controller_of E.seen self.old) }
        requires can { CanBeginChange (acted E.seen self.old notes.old numbers.old) change.now }
        ensures acted { OnOk result (acted E.seen self.new notes.new numbers.new ≡ begins_change (acted E.seen self.old notes.old numbers.old) change.now) }
        ensures joined { OnOk result (AreJoined E.seen self.new) }
        ensures ports { OnOk result (self.new.router.client.has_met ≡ true → (controller_of E.seen self.new).ports ≡ (controller_of E.seen self.old).ports) }
        ensures waiting { OnOk result (self.new.router.routes.waiting ≡ self.old.router.routes.waiting) }
    {
        if self.router.routes().is_begun() {
            return Ok(());
        }
        let stood = self.stands();
        self.router.begin_change();
        self.take_joins_back(change, numbers, notes)?;
        self.settle(stood);
        Ok(())
    }

    /// Whether a join is left whose flow's route the change changes.
    fn is_held_up(&self, change: &RouteChange) -> bool
        requires joined { AreJoined E.seen self.now }
        requires grants { HasGrants (controller_of E.seen self.now) }
        ensures { result ≡ list_any (is_changed self.now.router.routes.table change.now) (joins_of (controller_of E.seen self.now)) }
    {
        for place in 0..self.joins.len() {
            let Some(joined) = self.joins.at(place) else {
                return false;
            };
            if self.is_changed(change, &joined) {
                return true;
            }
        }
        false
    }

    /// Takes the changes that wait, one after the other, until one is held up by joins.
    pub(crate) fn take_changes(
        &mut self,
        numbers: &mut Numbers,
        notes: &mut Notes,
    ) -> Result<(), OutOfMemory>
        requires joined { AreJoined E.seen self.old }
        requires can { CanTakeChanges (acted E.seen self.old notes.old numbers.old) }
        ensures acted { OnOk result (acted E.seen self.new notes.new numbers.new ≡ takes_changes (acted E.seen self.old notes.old numbers.old)) }
        ensures joined { OnOk result (AreJoined E.seen self.new) }
    {
        while self.router.client().has_met() {
            let Some(change) = self.router.routes().first() else {
                return Ok(());
            };
            self.begin_change(&change, numbers, notes)?;
            if !self.router.client().has_met() {
                return Ok(());
            }
            if self.is_held_up(&change) {
                return Ok(());
            }
            self.router.take_change(notes)?;
        }
        Ok(())
    }

    /// A change of a route comes, which the table takes after all that wait.
    pub fn change(
        &mut self,
        change: &RouteChange,
        numbers: &mut Numbers,
        notes: &mut Notes,
    ) -> Result<(), OutOfMemory>
        requires joined { AreJoined E.seen self.old }
        requires can { CanChange (acted E.seen self.old notes.old numbers.old) change.now }
        ensures acted { OnOk result (acted E.seen self.new notes.new numbers.new ≡ change_comes (acted E.seen self.old notes.old numbers.old) change.now) }
        ensures joined { OnOk result (AreJoined E.seen self.new) }
    {
        self.router.push_change(change)?;
        self.take_changes(numbers, notes)
    }
}
