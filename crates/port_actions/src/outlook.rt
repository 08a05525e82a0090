//! What will stand at a desk.

ghost use Rattle.std.specs.Prelude.{◌≡◌, ◌<◌, ◌≤◌, ◌+◌, ◌-◌, ◌^◌, ◌⊎◌, nat_lt, cond, is_some, length, slice_get, true, false, Some, IfOk, OnOk};
ghost use Rattle.std.specs.Map.{keys_of, lookup};
ghost use Rattle.net_types.specs.declared.channel.End.{End as EndValue};
ghost use Rattle.gsmp_wire.specs.declared.request.Request.{Request as RequestValue};
ghost use Rattle.gsmp_wire.specs.declared.request.Request.TheVariants.{DeleteAll};
ghost use Rattle.port_model.specs.Desk.{Desk as DeskValue, asked, taken_back, withdrawn};
ghost use Rattle.port_model.specs.Requests.{request_input};
ghost use Rattle.port_model.specs.Port.{desk_with};
ghost use Rattle.port_model.specs.Setup.{home_of};
ghost use Rattle.crossbar_model.specs.Crossbar.{same_end};
ghost use Rattle.port_actions.specs.Outlook.{Clears, Foresees, Tells, deletes, stands};

use crate::actions::Actions;
use branch_desk::{Desk, MOST_ASKED};
use gsmp_wire::Request;
use indexmap::IndexMap;
use net_types::{End, OutOfMemory, PortNo};
use port_model::Action;
use std::alloc::Global;
use std::marker::Model;

/// One where the test is true, else none.
fn one_if(test: bool) -> usize
    ensures { result ≡ cond test 1 0 }
{
    if test { 1 } else { 0 }
}

/// A projection of the outstanding requests: what will stand at a desk once actions are done, told
/// by what differs from the desk. This project's own.
#[derive(Drop)]
pub struct Outlook {
    /// How many requests will stand.
    many: usize,
    /// Whether one will stand on each of these inputs.
    inputs: IndexMap<End, bool>,
    /// The ports of which Delete All is asked.
    deleted: IndexMap<PortNo, bool>,
}

impl Model for Outlook {
    ghost use Rattle.port_actions.specs.Outlook as outlook;

    ghost Value = { outlook.Outlook };

    ghost view = { λ o. record { many = o.many; inputs = o.inputs.entries; deleted = o.deleted.entries } };
}

impl Outlook {
    /// What will stand once these actions are done.
    pub fn of(alloc: Global, desk: &Desk, actions: &Actions) -> Result<Outlook, OutOfMemory>
        ensures { IfOk result (λ outlook. Foresees outlook desk.now actions.now) }
    {
        let mut outlook = Outlook::at(alloc, desk);
        for place in 0..actions.list.len() {
            if let Some(action) = actions.list.get(place) {
                outlook.follow(desk, action)?;
            }
        }
        Ok(outlook)
    }

    /// What stands at the desk.
    fn at(alloc: Global, desk: &Desk) -> Outlook
        ensures tells { Tells result desk.now desk.now }
        ensures many { result.many ≤ 4096 }
    {
        Outlook {
            many: desk.standing(),
            inputs: IndexMap::new(alloc),
            deleted: IndexMap::new(alloc),
        }
    }

    /// Whether a request will stand on the input.
    pub fn on_input(&self, desk: &Desk, input: End) -> bool
        ensures { result ≡ stands self.now desk.now input }
    {
        match self.inputs.get(&input) {
            Some(stands) => *stands,
            None => desk.on_input(input),
        }
    }

    /// Whether Delete All of the port will stand.
    fn all_on(&self, desk: &Desk, port: PortNo) -> bool
        ensures { result ≡ deletes self.now desk.now port }
    {
        self.deleted.contains_key(&port) || desk.all_on(port)
    }

    /// Whether fewer than 1,024 requests will stand.
    pub fn has_room(&self) -> bool
        ensures { result ≡ nat_lt self.now.many 1024 }
    {
        self.many < MOST_ASKED
    }

    /// A request on this input is asked besides.
    pub fn ask(&mut self, desk: &Desk, input: End) -> Result<(), OutOfMemory>
        requires { (stands self.old desk.now input ≡ true) ⊎ (self.old.many < 2 ^ 64 - 1) }
        ensures tells { (later : DeskValue) (request : RequestValue) → request_input request ≡ Some input → Tells self.old desk.now later → OnOk result (Tells self.new desk.now (asked later request)) }
        ensures many { OnOk result (self.new.many ≤ self.old.many + 1) }
    {
        self.many += one_if(!self.on_input(desk, input));
        self.inputs.insert(input, true)?;
        Ok(())
    }

    /// An action is done besides.
    fn follow(&mut self, desk: &Desk, action: &Action) -> Result<(), OutOfMemory>
        requires { self.old.many < 2 ^ 64 - 1 }
        ensures tells { (later : DeskValue) → Tells self.old desk.now later → OnOk result (Tells self.new desk.now (desk_with later action.now)) }
        ensures many { OnOk result (self.new.many ≤ self.old.many + 1) }
    {
        match action {
            Action::Ask { request, needed: _ } => self.ask_request(desk, request),
            Action::TakeBack { input, output: _ } => self.take_back(desk, *input),
            Action::Withdraw { input } => self.withdraw(desk, *input),
            Action::Say(_) | Action::Note(_) | Action::CutChain { .. } | Action::Reset => Ok(()),
        }
    }

    /// A request is asked besides.
    fn ask_request(&mut self, desk: &Desk, request: &Request) -> Result<(), OutOfMemory>
        requires { self.old.many < 2 ^ 64 - 1 }
        ensures tells { (later : DeskValue) → Tells self.old desk.now later → OnOk result (Tells self.new desk.now (asked later request.now)) }
        ensures many { OnOk result (self.new.many ≤ self.old.many + 1) }
    {
        match *request {
            Request::AddBranch { input, .. }
            | Request::MoveBranch { input, .. }
            | Request::DeleteTree { input }
            | Request::VerifyTree { input } => self.ask(desk, input),
            Request::DeleteAll { port } => self.delete_all(desk, port),
            Request::PortManagement { .. } | Request::AllPorts => {
                self.many += 1;
                Ok(())
            }
        }
    }

    /// Delete All of a port is asked besides: what stands on inputs of the port is withdrawn, and so is
    /// an earlier one.
    fn delete_all(&mut self, desk: &Desk, port: PortNo) -> Result<(), OutOfMemory>
        requires { self.old.many < 2 ^ 64 - 1 }
        ensures tells { (later : DeskValue) → Tells self.old desk.now later → OnOk result (Tells self.new desk.now (asked later (DeleteAll port))) }
        ensures many { OnOk result (self.new.many ≤ self.old.many + 1) }
    {
        for place in 0..desk.standing() {
            if let Some(input) = desk.input_at(place) {
                self.withdraw_at(desk, port, input)?;
            }
        }
        for index in 0..self.told() {
            if let Some(input) = self.told_at(index) {
                self.withdraw_at(desk, port, input)?;
            }
        }
        self.many += one_if(!self.all_on(desk, port));
        self.deleted.insert(port, true)?;
        Ok(())
    }

    /// Of how many inputs it tells by itself.
    fn told(&self) -> usize
        ensures { result ≡ length (keys_of self.now.inputs) }
    {
        self.inputs.len()
    }

    /// The input at this index among those of which it tells by itself.
    fn told_at(&self, index: usize) -> Option<End>
        ensures { result ≡ slice_get (keys_of self.now.inputs) index }
    {
        match self.inputs.get_index(index) {
            Some((input, _)) => Some(*input),
            None => None,
        }
    }

    /// What stands on an input of the port is withdrawn besides.
    fn withdraw_at(&mut self, desk: &Desk, port: PortNo, input: End) -> Result<(), OutOfMemory>
        ensures clears { OnOk result (Clears port desk.now self.old self.new) }
        ensures gone { OnOk result (input.port.0 ≡ port.0 → stands self.new desk.now input ≡ false) }
        ensures keys { is_some (lookup (same_end input) self.old.inputs) ≡ true → OnOk result (keys_of self.new.inputs ≡ keys_of self.old.inputs) }
    {
        if input.port == port {
            self.withdraw(desk, input)?;
        }
        Ok(())
    }

    /// A join is taken back besides.
    fn take_back(&mut self, desk: &Desk, input: End) -> Result<(), OutOfMemory>
        requires { self.old.many < 2 ^ 64 - 1 }
        ensures tells { (later : DeskValue) (output : EndValue) → Tells self.old desk.now later → OnOk result (Tells self.new desk.now (taken_back later input output (home_of input))) }
        ensures many { OnOk result (self.new.many ≤ self.old.many + 1) }
    {
        if self.on_input(desk, input) || self.all_on(desk, input.port) {
            return Ok(());
        }
        self.ask(desk, input)
    }

    /// What stands on an input is withdrawn besides.
    fn withdraw(&mut self, desk: &Desk, input: End) -> Result<(), OutOfMemory>
        ensures tells { (later : DeskValue) → Tells self.old desk.now later → OnOk result (Tells self.new desk.now (withdrawn later input)) }
        ensures many { OnOk result (self.new.many ≤ self.old.many) }
        ensures stands { OnOk result ((end : EndValue) → stands self.new desk.now end ≡ cond (same_end end input) false (stands self.old desk.now end)) }
        ensures keys { is_some (lookup (same_end input) self.old.inputs) ≡ true → OnOk result (keys_of self.new.inputs ≡ keys_of self.old.inputs) }
        ensures deleted { OnOk result (self.new.deleted ≡ self.old.deleted) }
    {
        self.many = self.many.saturating_sub(one_if(self.on_input(desk, input)));
        self.inputs.insert(input, false)?;
        Ok(())
    }
}
