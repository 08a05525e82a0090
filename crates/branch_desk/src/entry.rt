//! A request under its number.

ghost use Rattle.std.specs.Prelude.{◌≡◌, IfSome};
ghost use Rattle.port_model.specs.Requests.{request_input, leads_home};
ghost use Rattle.branch_desk.specs.Requests.{deleted_of};

use crate::message::all_of;
use gsmp_wire::Request;
use net_types::End;
use std::marker::Model;

/// A request under its transaction number.
#[derive(Clone, Copy, Debug)]
pub(crate) struct Entry {
    number: u32,
    request: Request,
}

impl Model for Entry {
    ghost use Rattle.port_model.specs.Desk.{Standing};

    ghost Value = { Standing };

    ghost view = { λ e. record { number = e.number; request = e.request } };

    ghost inverse = { λ s. record { number = s.number; request = s.request } };
}

impl Entry {
    /// A request under a number.
    pub(crate) fn new(number: u32, request: Request) -> Entry
        ensures { result ≡ record { number = number; request = request } }
    {
        Entry { number, request }
    }

    /// The number.
    pub(crate) fn number(&self) -> u32
        ensures { result ≡ self.now.number }
    {
        self.number
    }

    /// The request.
    pub(crate) fn request(&self) -> Request
        ensures { result ≡ self.now.request }
    {
        self.request
    }

    /// The input channel that the request is on; none of Delete All, Port Management and All Ports.
    pub(crate) fn input(&self) -> Option<End>
        ensures { result ≡ request_input self.now.request }
    {
        match self.request {
            Request::AddBranch { input, .. }
            | Request::MoveBranch { input, .. }
            | Request::DeleteTree { input }
            | Request::VerifyTree { input } => Some(input),
            Request::DeleteAll { .. } | Request::PortManagement { .. } | Request::AllPorts => None,
        }
    }

    /// The end of the port whose inputs the request deletes; of Delete All alone.
    pub(crate) fn deleted(&self) -> Option<End>
        ensures { result ≡ deleted_of self.now.request }
    {
        match self.request {
            Request::DeleteAll { port } => Some(all_of(port)),
            _ => None,
        }
    }

    /// Whether the request, which is on an input, leads it to the control link, where `home` is its
    /// channel there.
    pub(crate) fn leads_home(&self, home: End) -> bool
        ensures { IfSome (request_input self.now.request) (λ input. result ≡ leads_home input home self.now.request) }
    {
        match self.request {
            Request::MoveBranch { to, .. } => to == home,
            Request::DeleteTree { .. } => true,
            _ => false,
        }
    }
}
