//! *Meeting the switch*: what is asked first, and that a port waits for its Delete All, is this project's
//! own.

ghost use Rattle.std.specs.Prelude.{◌≡◌, ◌≤◌, fold, true, OnOk};
ghost use Rattle.net_types.specs.Number.{GivenOut};
ghost use Rattle.adjacency_table.specs.Side.{is_estab};
ghost use Rattle.link_model.specs.Notes.{Journal};
ghost use Rattle.world_model.specs.Asking.{asks};
ghost use Rattle.world_model.specs.Meeting.{behind_delete_all, causes, empties, ends_meeting, request_port, port_of_input};
ghost use Rattle.controller_router.specs.Conditions.{EachCanBeAsked};
ghost use Rattle.controller_router.specs.Engine.{CanBeDone};
ghost use Rattle.controller_router.specs.Meeting.{CanCause, CanEmpty, CanEndMeeting, CanGoOn, emptying, met, opening};
ghost use Rattle.controller_router.specs.Node.{acted, ports_in};

use crate::engine::PortEngine;
use crate::router::Router;
use branch_desk::BranchDone;
use controller_gsmp::{default_end, home_of};
use gsmp_wire::Request;
use link_model::Notes;
use net_types::{CONTROL_PORT, End, Numbers, OutOfMemory, PortNo};

impl<E: PortEngine> Router<E> {
    /// Asks Delete All of a port that is up.
    fn empty_port(
        &mut self,
        port: PortNo,
        numbers: &mut Numbers,
        notes: &mut Notes,
    ) -> Result<(), OutOfMemory>
        requires { EachCanBeAsked (acted E.seen self.old notes.old numbers.old) (emptying self.old.client.desk.rows port) }
        ensures acted { OnOk result (acted E.seen self.new notes.new numbers.new ≡ fold asks (acted E.seen self.old notes.old numbers.old) (emptying self.old.client.desk.rows port)) }
        ensures ports { ports_in E.seen self.new ≡ ports_in E.seen self.old }
    {
        if !self.client.requests().desk().is_up(port) {
            return Ok(());
        }
        self.ask(Request::DeleteAll { port }, numbers, notes)
    }

    /// Delete All of port 0 and of each linked port that is up is asked.
    pub fn empty_switch(
        &mut self,
        numbers: &mut Numbers,
        notes: &mut Notes,
    ) -> Result<(), OutOfMemory>
        requires { CanEmpty (acted E.seen self.old notes.old numbers.old) }
        ensures acted { OnOk result (acted E.seen self.new notes.new numbers.new ≡ empties (acted E.seen self.old notes.old numbers.old)) }
        ensures ports { ports_in E.seen self.new ≡ ports_in E.seen self.old }
    {
        let ports = self.ports();
        let first = Request::DeleteAll { port: CONTROL_PORT };
        self.ask(first, numbers, notes)?;
        for place in 0..ports {
            let port = self.port_at(place);
            self.empty_port(port, numbers, notes)?;
        }
        Ok(())
    }

    /// Asks the default channel of a port that is up, both ways.
    fn open_port(
        &mut self,
        port: PortNo,
        numbers: &mut Numbers,
        notes: &mut Notes,
    ) -> Result<(), OutOfMemory>
        requires port { (1 ≤ port.0) × (port.0 ≤ 8) }
        requires can { EachCanBeAsked (acted E.seen self.old notes.old numbers.old) (opening self.old.client.desk.rows port) }
        ensures acted { OnOk result (acted E.seen self.new notes.new numbers.new ≡ fold asks (acted E.seen self.old notes.old numbers.old) (opening self.old.client.desk.rows port)) }
        ensures ports { ports_in E.seen self.new ≡ ports_in E.seen self.old }
    {
        if !self.client.requests().desk().is_up(port) {
            return Ok(());
        }
        let end = default_end(port);
        let home = home_of(end);
        let inward = Request::AddBranch {
            input: end,
            output: home,
        };
        self.ask(inward, numbers, notes)?;
        let outward = Request::AddBranch {
            input: home,
            output: end,
        };
        self.ask(outward, numbers, notes)
    }

    /// The switch is met.
    fn mark_met(&mut self)
        ensures acted { (notes : Journal) (numbers : GivenOut) → acted E.seen self.new notes numbers ≡ met (acted E.seen self.old notes numbers) }
        ensures links { self.new.links ≡ self.old.links }
    {
        self.client.end_meeting();
    }

    /// When all are answered, the switch is met, and the default channels of the ports that are up are
    /// asked.
    pub fn end_meeting(
        &mut self,
        numbers: &mut Numbers,
        notes: &mut Notes,
    ) -> Result<(), OutOfMemory>
        requires { CanEndMeeting (acted E.seen self.old notes.old numbers.old) }
        ensures acted { OnOk result (acted E.seen self.new notes.new numbers.new ≡ ends_meeting (acted E.seen self.old notes.old numbers.old)) }
        ensures ports { ports_in E.seen self.new ≡ ports_in E.seen self.old }
    {
        let ports = self.ports();
        self.mark_met();
        for place in 0..ports {
            let port = self.port_at(place);
            self.open_port(port, numbers, notes)?;
        }
        Ok(())
    }

    /// What comes behind Delete All: a port that was reset is given its default channel again; while the
    /// switch is being met, the last Delete All ends the meeting.
    pub fn follow_delete_all(
        &mut self,
        port: PortNo,
        numbers: &mut Numbers,
        notes: &mut Notes,
    ) -> Result<(), OutOfMemory>
        requires { CanGoOn (acted E.seen self.old notes.old numbers.old) port }
        ensures acted { OnOk result (acted E.seen self.new notes.new numbers.new ≡ behind_delete_all (acted E.seen self.old notes.old numbers.old) port) }
        ensures ports { ports_in E.seen self.new ≡ ports_in E.seen self.old }
    {
        if self.client.has_met() {
            let input = default_end(port);
            let output = home_of(input);
            return self.ask(Request::AddBranch { input, output }, numbers, notes);
        }
        if !self.client.requests().desk().is_deleting() {
            return self.end_meeting(numbers, notes);
        }
        Ok(())
    }

    /// What an answer causes: nothing where a release has reset the node.
    pub fn cause(
        &mut self,
        done: &BranchDone,
        numbers: &mut Numbers,
        notes: &mut Notes,
    ) -> Result<(), OutOfMemory>
        requires done { CanBeDone done.now.request }
        requires can { is_estab self.old.client.adjacency.state ≡ true → CanCause (acted E.seen self.old notes.old numbers.old) done.now.request }
        ensures acted { OnOk result (acted E.seen self.new notes.new numbers.new ≡ causes (acted E.seen self.old notes.old numbers.old) done.now.request) }
        ensures ports { ports_in E.seen self.new ≡ ports_in E.seen self.old }
    {
        if !self.client.is_estab() {
            return Ok(());
        }
        match done.request() {
            Request::DeleteAll { port } => self.follow_delete_all(port, numbers, notes),
            request => match port_of(&request) {
                Some(port) => self.tell(port, done, numbers, notes),
                None => Ok(()),
            },
        }
    }
}

/// The port of a request about a branch: that of its input, or of its other end where the input is on the
/// control link.
fn port_of_input(input: End, other: End) -> PortNo
    ensures { result ≡ port_of_input input other }
{
    if input.port == CONTROL_PORT {
        other.port
    } else {
        input.port
    }
}

/// The port at which an answer to a request causes something, if there is one.
fn port_of(request: &Request) -> Option<PortNo>
    ensures { result ≡ request_port request.now }
{
    match *request {
        Request::AddBranch { input, output } => Some(port_of_input(input, output)),
        Request::MoveBranch { input, from: _, to } => Some(port_of_input(input, to)),
        Request::DeleteTree { input } => Some(input.port),
        Request::VerifyTree { input } => Some(input.port),
        Request::DeleteAll { port } => Some(port),
        Request::PortManagement { port, function: _ } => Some(port),
        Request::AllPorts => None,
    }
}
