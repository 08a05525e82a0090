//! *Release*: the joins whose inputs a request led to the control link end at its answer, and their grants
//! are given back.

ghost use Rattle.std.specs.Prelude.{◌≡◌, find, fold, true, OnOk, Some};
ghost use Rattle.crossbar_model.specs.Crossbar.{same_end};
ghost use Rattle.gsmp_wire.specs.declared.request.Request.TheVariants.{DeleteAll};
ghost use Rattle.port_model.specs.Requests.{leads_home};
ghost use Rattle.port_model.specs.Setup.{home_of};
ghost use Rattle.controller_joins.specs.world_model.Joins.{released_inputs, releases, releases_input};
ghost use Rattle.controller_joins.specs.Joined.{AreInOrder};
ghost use Rattle.controller_joining.specs.Conditions.{CanRelease, CanReleaseInput, EachCanBeReleased};
ghost use Rattle.controller_joining.specs.Joining.{AreJoined, acted, controller_of};

use crate::joining::JoiningRouter;
use branch_desk::BranchDone;
use controller_joins::Joined;
use controller_router::PortEngine;
use gsmp_wire::Request;
use link_model::Notes;
use net_types::{CONTROL_PORT, End, Numbers, OutOfMemory, PortNo, VPIS_PER_PORT};

/// Whether an end is the channel of the control link that stands for an input.
fn is_home_of(end: End, input: End) -> bool
    ensures { result ≡ same_end end (home_of input) }
{
    let path = VPIS_PER_PORT as u32 * input.port.0 as u32 + input.channel.vpi as u32;
    end.port == CONTROL_PORT
        && end.channel.vpi as u32 == path
        && end.channel.vci == input.channel.vci
}

impl<E: PortEngine> JoiningRouter<E> {
    /// Releases a join, whose input a request led to the control link.
    fn release_join(
        &mut self,
        joined: &Joined,
        done: &BranchDone,
        numbers: &mut Numbers,
        notes: &mut Notes,
    ) -> Result<(), OutOfMemory>
        requires joined { AreJoined E.seen self.old }
        requires order { AreInOrder self.old.joins }
        requires found { find (λ j. same_end j.input joined.now.input) self.old.joins ≡ Some joined.now }
        requires leads { leads_home joined.now.input (home_of joined.now.input) done.now.request ≡ true }
        requires can { CanReleaseInput (acted E.seen self.old notes.old numbers.old) joined.now.input }
        ensures acted { OnOk result (acted E.seen self.new notes.new numbers.new ≡ releases_input (acted E.seen self.old notes.old numbers.old) joined.now.input) }
        ensures joined { OnOk result (AreJoined E.seen self.new) }
    {
        self.router.part(joined.input, notes)?;
        self.joins.end(joined.input);
        self.router
            .give_back(joined.port, joined.label, done, numbers, notes)
    }

    /// Releases the join of an input that a request led to the control link, if it is joined.
    fn release_input(
        &mut self,
        input: End,
        done: &BranchDone,
        numbers: &mut Numbers,
        notes: &mut Notes,
    ) -> Result<(), OutOfMemory>
        requires joined { AreJoined E.seen self.old }
        requires leads { leads_home input (home_of input) done.now.request ≡ true }
        requires can { CanReleaseInput (acted E.seen self.old notes.old numbers.old) input }
        ensures acted { OnOk result (acted E.seen self.new notes.new numbers.new ≡ releases_input (acted E.seen self.old notes.old numbers.old) input) }
        ensures joined { OnOk result (AreJoined E.seen self.new) }
    {
        match self.joins.of(input) {
            Some(joined) => self.release_join(&joined, done, numbers, notes),
            None => Ok(()),
        }
    }

    /// Releases the joins of all inputs of a port.
    fn release_all(
        &mut self,
        port: PortNo,
        done: &BranchDone,
        numbers: &mut Numbers,
        notes: &mut Notes,
    ) -> Result<(), OutOfMemory>
        requires joined { AreJoined E.seen self.old }
        requires request { done.now.request ≡ DeleteAll port }
        requires can { EachCanBeReleased (acted E.seen self.old notes.old numbers.old) (released_inputs (controller_of E.seen self.old) done.now.request) }
        ensures acted { OnOk result (acted E.seen self.new notes.new numbers.new ≡ fold releases_input (acted E.seen self.old notes.old numbers.old) (released_inputs (controller_of E.seen self.old) done.now.request)) }
        ensures joined { OnOk result (AreJoined E.seen self.new) }
    {
        while let Some(joined) = self.joins.first_on(port) {
            self.release_join(&joined, done, numbers, notes)?;
        }
        Ok(())
    }

    /// Releases the joins whose inputs a request led to the control link.
    fn release_led_home(
        &mut self,
        done: &BranchDone,
        numbers: &mut Numbers,
        notes: &mut Notes,
    ) -> Result<(), OutOfMemory>
        requires joined { AreJoined E.seen self.old }
        requires can { EachCanBeReleased (acted E.seen self.old notes.old numbers.old) (released_inputs (controller_of E.seen self.old) done.now.request) }
        ensures acted { OnOk result (acted E.seen self.new notes.new numbers.new ≡ fold releases_input (acted E.seen self.old notes.old numbers.old) (released_inputs (controller_of E.seen self.old) done.now.request)) }
        ensures joined { OnOk result (AreJoined E.seen self.new) }
    {
        if self.joins.is_empty() {
            return Ok(());
        }
        match done.request() {
            Request::MoveBranch { input, from: _, to } => {
                if !is_home_of(to, input) {
                    return Ok(());
                }
                self.release_input(input, done, numbers, notes)
            }
            Request::DeleteTree { input } => self.release_input(input, done, numbers, notes),
            Request::DeleteAll { port } => self.release_all(port, done, numbers, notes),
            Request::AddBranch { .. } => Ok(()),
            Request::VerifyTree { .. } => Ok(()),
            Request::PortManagement { .. } => Ok(()),
            Request::AllPorts => Ok(()),
        }
    }

    /// Releases joins at an answer; when all are released, the ports whose numbers are spent are reset.
    pub(crate) fn release(
        &mut self,
        done: &BranchDone,
        numbers: &mut Numbers,
        notes: &mut Notes,
    ) -> Result<(), OutOfMemory>
        requires joined { AreJoined E.seen self.old }
        requires can { CanRelease (acted E.seen self.old notes.old numbers.old) done.now.request }
        ensures acted { OnOk result (acted E.seen self.new notes.new numbers.new ≡ releases (acted E.seen self.old notes.old numbers.old) done.now.request) }
        ensures joined { OnOk result (AreJoined E.seen self.new) }
    {
        self.release_led_home(done, numbers, notes)?;
        let stood = self.stands();
        self.router.reset_all_spent(numbers, notes)?;
        self.settle(stood);
        Ok(())
    }
}
