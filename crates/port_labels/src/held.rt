//! A label that is held, in whichever state it is.

ghost use Rattle.std.specs.Prelude.{◌≡◌, false, IsTrue, if◌then◌else◌};
ghost use Rattle.net_types.specs.Label.{is_label_number};
ghost use Rattle.label_pool.specs.Label.{wires, unwires};
ghost use Rattle.branch_desk.specs.port_model.Labels as model;
ghost use Rattle.port_labels.specs.Read.{label_of, state_from};
ghost use Rattle.port_labels.specs.Book.{wiring, reclaimed, acknowledged, is_passed};
ghost use Rattle.port_labels.specs.Held.{number_in, instance_in, flow_in, state_in, shown};

use crate::view::{HeldLabel, HeldState};
use branch_desk::BranchDone;
use ipv4_packet::FlowId;
use label_pool::{Label, Offered, Recalled, Spare, Wired};
use net_types::End;

/// A label in its state, with its flow: the one that it is wired for, or is or was bound to.
#[must_use]
#[derive(Debug)]
pub(crate) enum Stage {
    Wiring(Label<Spare>, FlowId),
    Offered(Label<Offered>),
    Recalled(Label<Recalled>),
    Wired(Label<Wired>, FlowId),
}

impl Stage {
    /// The number of the label.
    fn number(&self) -> u16
        ensures number { result ≡ number_in self.now }
        ensures label { IsTrue (is_label_number result) }
    {
        match self {
            Stage::Wiring(label, _) => label.number(),
            Stage::Offered(label) => label.number(),
            Stage::Recalled(label) => label.number(),
            Stage::Wired(label, _) => label.number(),
        }
    }

    /// The flow.
    fn flow(&self) -> FlowId
        ensures { result ≡ flow_in self.now }
    {
        match self {
            Stage::Wiring(_, flow) => *flow,
            Stage::Offered(label) => label.flow(),
            Stage::Recalled(label) => label.flow(),
            Stage::Wired(_, flow) => *flow,
        }
    }

    /// The state of the label.
    fn state(&self) -> HeldState
        ensures { state_from result ≡ state_in self.now }
    {
        match self {
            Stage::Wiring(_, _) => HeldState::Wiring,
            Stage::Offered(_) => HeldState::Offered,
            Stage::Recalled(label) => {
                HeldState::Recalled {
                    last: label.last(),
                    acknowledged: label.acknowledged(),
                }
            }
            Stage::Wired(_, _) => HeldState::Wired,
        }
    }

    /// Where it is recalled and the peer, which expects the number `known`, can't use it any more, it
    /// is wired, and the answer is true; else nothing changes.
    fn quit(self, known: u32) -> (Stage, bool)
        ensures when { result.1 ≡ is_passed known (state_in self) }
        ensures state { state_in result.0 ≡ (if result.1 then model.Wired else state_in self) }
        ensures flow { flow_in result.0 ≡ flow_in self }
        ensures number { number_in result.0 ≡ number_in self }
        ensures instance { instance_in result.0 ≡ instance_in self }
    {
        let Stage::Recalled(label) = self else {
            return (self, false);
        };
        let Some(quit) = label.passed(known) else {
            return (Stage::Recalled(label), false);
        };
        let flow = label.flow();
        (Stage::Wired(label.quit(quit), flow), true)
    }

    /// Gives the label up.
    fn abandon(self) {
        match self {
            Stage::Wiring(label, _) => label.abandon(),
            Stage::Offered(label) => label.abandon(),
            Stage::Recalled(label) => label.abandon(),
            Stage::Wired(label, _) => label.abandon(),
        }
    }
}

/// A label that is held. It must be given up by [`Held::abandon`].
#[must_use]
#[derive(Debug)]
pub(crate) struct Held {
    pub(crate) stage: Stage,
    /// For how many ticks no packet used it.
    pub(crate) idle: u32,
    /// How many ticks ago the last REDIRECT was sent.
    pub(crate) ticks: u32,
    /// Where its input is joined to.
    pub(crate) join: Option<End>,
}

impl Held {
    /// A label that is being wired for a flow.
    pub(crate) fn new(label: Label<Spare>, flow: FlowId) -> Held
        ensures label { shown result ≡ wiring label.number flow }
        ensures number { number_in result.stage ≡ label.number }
        ensures instance { instance_in result.stage ≡ label.instance }
    {
        Held {
            stage: Stage::Wiring(label, flow),
            idle: 0,
            ticks: 0,
            join: None,
        }
    }

    /// Its number.
    pub(crate) fn number(&self) -> u16
        ensures number { result ≡ number_in self.now.stage }
        ensures label { IsTrue (is_label_number result) }
    {
        self.stage.number()
    }

    /// Its flow.
    pub(crate) fn flow(&self) -> FlowId
        ensures { result ≡ flow_in self.now.stage }
    {
        self.stage.flow()
    }

    /// Its state as it is read.
    pub(crate) fn state(&self) -> HeldState
        ensures { state_from result ≡ (shown self.now).state }
    {
        self.stage.state()
    }

    /// As it is read.
    pub(crate) fn read(&self) -> HeldLabel
        ensures { label_of result ≡ shown self.now }
    {
        HeldLabel {
            number: self.stage.number(),
            state: self.stage.state(),
            flow: self.stage.flow(),
            idle: self.idle,
            ticks: self.ticks,
            join: self.join,
        }
    }

    /// Its branch is made, and it is offered to the peer.
    pub(crate) fn offer(self, done: &BranchDone) -> Held
        requires state { state_in self.stage ≡ model.Wiring }
        requires wires { IsTrue (wires (number_in self.stage) done.now.request) }
        ensures label { shown result ≡ record (shown self) { state = model.Offered } }
        ensures number { number_in result.stage ≡ number_in self.stage }
        ensures instance { instance_in result.stage ≡ instance_in self.stage }
    {
        let Held {
            stage,
            idle,
            ticks,
            join,
        } = self;
        let stage = match stage {
            Stage::Wiring(label, flow) => Stage::Offered(label.wire(done).offer(flow)),
            other => other,
        };
        Held {
            stage,
            idle,
            ticks,
            join,
        }
    }

    /// It is reclaimed by the RECLAIM of this number.
    pub(crate) fn recall(self, reclaim: u32) -> Held
        requires { state_in self.stage ≡ model.Offered }
        ensures label { shown result ≡ record (shown self) { state = model.Recalled reclaim false } }
        ensures number { number_in result.stage ≡ number_in self.stage }
        ensures instance { instance_in result.stage ≡ instance_in self.stage }
    {
        let Held {
            stage,
            idle,
            ticks,
            join,
        } = self;
        let stage = match stage {
            Stage::Offered(label) => Stage::Recalled(label.recall(reclaim)),
            other => other,
        };
        Held {
            stage,
            idle,
            ticks,
            join,
        }
    }

    /// Where it is recalled, it is reclaimed again by the RECLAIM of this number.
    pub(crate) fn reclaim_again(&mut self, reclaim: u32)
        ensures label { shown self.new ≡ record (shown self.old) { state = reclaimed reclaim (state_in self.old.stage) } }
        ensures number { number_in self.new.stage ≡ number_in self.old.stage }
        ensures instance { instance_in self.new.stage ≡ instance_in self.old.stage }
    {
        if let Stage::Recalled(label) = &mut self.stage {
            label.again(reclaim);
        }
    }

    /// Where it is recalled, the peer acknowledges that.
    pub(crate) fn acknowledge(&mut self)
        ensures label { shown self.new ≡ record (shown self.old) { state = acknowledged (state_in self.old.stage) } }
        ensures number { number_in self.new.stage ≡ number_in self.old.stage }
        ensures instance { instance_in self.new.stage ≡ instance_in self.old.stage }
    {
        if let Stage::Recalled(label) = &mut self.stage {
            let flow = label.flow();
            label.acknowledge(&flow);
        }
    }

    /// Where it is recalled and the peer, which expects the number `known`, can't use it any more, it
    /// is wired, and the answer is true; else nothing changes.
    pub(crate) fn quit(self, known: u32) -> (Held, bool)
        ensures when { result.1 ≡ is_passed known (state_in self.stage) }
        ensures label { shown result.0 ≡ (if result.1 then record (shown self) { state = model.Wired } else shown self) }
        ensures number { number_in result.0.stage ≡ number_in self.stage }
        ensures instance { instance_in result.0.stage ≡ instance_in self.stage }
    {
        let Held {
            stage,
            idle,
            ticks,
            join,
        } = self;
        let (stage, quit) = stage.quit(known);
        let held = Held {
            stage,
            idle,
            ticks,
            join,
        };
        (held, quit)
    }

    /// Its branch is deleted, and it is spare again.
    pub(crate) fn free(self, done: &BranchDone) -> Label<Spare>
        requires state { state_in self.stage ≡ model.Wired }
        requires unwires { IsTrue (unwires (number_in self.stage) done.now.request) }
        ensures { result ≡ record { instance = instance_in self.stage; number = number_in self.stage; state = record {} } }
    {
        let Held {
            stage,
            idle: _,
            ticks: _,
            join: _,
        } = self;
        let Stage::Wired(label, _) = stage else {
            unreachable!()
        };
        label.unwire(done)
    }

    /// Gives it up.
    pub(crate) fn abandon(self) {
        let Held {
            stage,
            idle: _,
            ticks: _,
            join: _,
        } = self;
        stage.abandon();
    }
}
