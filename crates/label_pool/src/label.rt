//! A label in each of its states.

ghost use Rattle.std.specs.Prelude.{◌≡◌, ◌<◌, ◌↔◌, true, false, IsTrue, IsSome, IfSome, if◌then◌else◌};
ghost use Rattle.net_types.specs.Label.{is_label_number};
ghost use Rattle.ipv4_packet.specs.Parts.{same_flow};
ghost use Rattle.label_pool.specs.Label.{in_state, wires, unwires, quit_of};

use branch_desk::BranchDone;
use ipv4_packet::FlowId;
use net_types::Instance;
use std::marker::Model;

/// The state of a free label: no one uses it, and it is bound to no flow. This project's own.
#[derive(Clone, Copy, Debug)]
pub struct Spare;

/// The state of a label whose branch to the controller is made, and which is bound to no flow: not
/// yet, or not any more. This project's own.
#[derive(Clone, Copy, Debug)]
pub struct Wired;

/// The state of a redirected label (RFC 1953): it was offered to the peer for a flow, by a
/// REDIRECT.
#[derive(Clone, Copy, Debug)]
pub struct Offered {
    flow: FlowId,
}

/// The state of a reclaimed label (RFC 1953): a RECLAIM was sent for it.
#[derive(Clone, Copy, Debug)]
pub struct Recalled {
    flow: FlowId,
    /// The number of the last RECLAIM.
    last: u32,
    acknowledged: bool,
}

/// An incoming label (RFC 1953) in the state `S`, under the instance of the adjacency for which its
/// pool was opened. It must be put back into its pool, or given up.
#[must_use]
#[derive(Debug)]
pub struct Label<S> {
    instance: Instance,
    number: u16,
    state: S,
}

impl<S> Model for Label<S> {
    ghost use Rattle.std.specs.Prelude.{IsTrue};
    ghost use Rattle.net_types.specs.Label.{is_label_number};
    ghost use Rattle.label_pool.specs.Tag.{Tag};

    ghost Value = { Tag S };

    ghost view = { λ l. record { instance = l.instance; number = l.number; state = l.state } };

    ghost invariant = { λ l. IsTrue (is_label_number l.number) };
}

/// A token of a label's release: it shows that the peer can't use the label any more, since it
/// acknowledged the last RECLAIM (RFC 1953) and expects a later number. It must be spent by
/// [`Label::quit`].
#[must_use]
#[derive(Debug)]
pub struct Quit {
    instance: Instance,
    number: u16,
    last: u32,
}

impl Model for Quit {
    ghost use Rattle.label_pool.specs.Tag.{Gone};

    ghost Value = { Gone };

    ghost view = { λ q. record { instance = q.instance; number = q.number; last = q.last } };
}

impl<S> Label<S> {
    /// The number of the label.
    pub fn number(&self) -> u16
        ensures number { result ≡ self.now.number }
        ensures label { IsTrue (is_label_number result) }
    {
        self.number
    }

    /// The same label in another state.
    fn into_state<T>(self, next: T) -> (Label<T>, S)
        ensures label { result.0 ≡ in_state self next }
        ensures state { result.1 ≡ self.state }
    {
        let Label {
            instance,
            number,
            state,
        } = self;
        let label = Label {
            instance,
            number,
            state: next,
        };
        (label, state)
    }
}

impl<S: Drop> Label<S> {
    /// Gives the label up. It is never spare again in its pool.
    pub fn abandon(self) {
        let Label {
            instance: _,
            number: _,
            state: _,
        } = self;
    }
}

impl Label<Spare> {
    /// A spare label of a pool.
    pub(crate) fn new(instance: Instance, number: u16) -> Label<Spare>
        requires { IsTrue (is_label_number number) }
        ensures { result ≡ record { instance = instance; number = number; state = record {} } }
    {
        Label {
            instance,
            number,
            state: Spare,
        }
    }

    /// The branch of its channel to the controller is made.
    pub fn wire(self, done: &BranchDone) -> Label<Wired>
        requires { IsTrue (wires self.number done.now.request) }
        ensures { result ≡ in_state self (record {}) }
    {
        self.into_state(Wired).0
    }
}

impl Label<Wired> {
    /// It is offered to the peer for a flow.
    pub fn offer(self, flow: FlowId) -> Label<Offered>
        ensures { result ≡ in_state self (record { flow = flow }) }
    {
        self.into_state(Offered { flow }).0
    }

    /// The branch of its channel is deleted.
    pub fn unwire(self, done: &BranchDone) -> Label<Spare>
        requires { IsTrue (unwires self.number done.now.request) }
        ensures { result ≡ in_state self (record {}) }
    {
        self.into_state(Spare).0
    }
}

impl Label<Offered> {
    /// The flow that it is bound to.
    pub fn flow(&self) -> FlowId
        ensures { result ≡ self.now.state.flow }
    {
        self.state.flow
    }

    /// It is reclaimed by the RECLAIM of this number.
    pub fn recall(self, number: u32) -> Label<Recalled>
        ensures { result ≡ in_state self (record { flow = self.state.flow; last = number; acknowledged = false }) }
    {
        let flow = self.state.flow;
        let recalled = Recalled {
            flow,
            last: number,
            acknowledged: false,
        };
        self.into_state(recalled).0
    }
}

impl Label<Recalled> {
    /// The flow that it is bound to.
    pub fn flow(&self) -> FlowId
        ensures { result ≡ self.now.state.flow }
    {
        self.state.flow
    }

    /// The number of the last RECLAIM.
    pub fn last(&self) -> u32
        ensures { result ≡ self.now.state.last }
    {
        self.state.last
    }

    /// Whether the peer acknowledged that it was reclaimed.
    pub fn acknowledged(&self) -> bool
        ensures { result ≡ self.now.state.acknowledged }
    {
        self.state.acknowledged
    }

    /// It is reclaimed again by the RECLAIM of this number, which is the last one from now on.
    pub fn again(&mut self, number: u32)
        ensures { self.new ≡ in_state self.old (record self.old.state { last = number }) }
    {
        self.state.last = number;
    }

    /// The peer acknowledges, for this flow, that the label was reclaimed. Where it is bound to
    /// another one nothing changes.
    pub fn acknowledge(&mut self, flow: &FlowId)
        ensures { self.new ≡ (if same_flow self.old.state.flow flow.now then in_state self.old (record self.old.state { acknowledged = true }) else self.old) }
    {
        if self.state.flow == *flow {
            self.state.acknowledged = true;
        }
    }

    /// Whether the peer can't use the label any more, where `next` is the number that it expects: some
    /// exactly where the label is acknowledged and `next` is above the number of the last RECLAIM.
    pub fn passed(&self, next: u32) -> Option<Quit>
        ensures when { IsSome result ↔ ((self.now.state.acknowledged ≡ true) × (self.now.state.last < next)) }
        ensures quit { IfSome result (λ quit. quit ≡ quit_of self.now) }
    {
        if !self.state.acknowledged || next <= self.state.last {
            return None;
        }
        Some(Quit {
            instance: self.instance,
            number: self.number,
            last: self.state.last,
        })
    }

    /// The peer can't use it any more. What shows that has to be of this label and of its last
    /// RECLAIM.
    pub fn quit(self, quit: Quit) -> Label<Wired>
        requires { quit ≡ quit_of self }
        ensures { result ≡ in_state self (record {}) }
    {
        let Quit {
            instance: _,
            number: _,
            last: _,
        } = quit;
        self.into_state(Wired).0
    }
}
