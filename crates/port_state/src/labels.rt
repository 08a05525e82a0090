//! The labels of a port's session.

ghost use Rattle.std.specs.Prelude.{◌≡◌, ◌≢◌, ℕ, false, not, option_map, IsTrue, IsSome, IfOk, IfSome, OnOk, OnErr, None, Some, length, slice_get, if◌then◌else◌};
ghost use Rattle.std.specs.Option.{option_map_or};
ghost use Rattle.net_types.specs.Label.{is_label_number};
ghost use Rattle.keyed_lists.specs.Keyed.{without};
ghost use Rattle.port_labels.specs.Book.{acknowledged, is_passed, is_recalled, reclaimed};
ghost use Rattle.port_labels.specs.Read.{label_of, state_from};
ghost use Rattle.label_pool.specs.Label.{unwires, wires};
ghost use Rattle.port_model.specs.Counts.{counted_once, packets_in};
ghost use Rattle.port_model.specs.Labels as labels;
ghost use Rattle.port_model.specs.Labels.{label_for, label_number, lowest_spare};
ghost use Rattle.port_model.specs.Port.{Session as SessionValue, known_of, label_at, labels_of};
ghost use Rattle.port_model.specs.Reclaiming.{is_outside, narrowed};
ghost use Rattle.port_model.specs.Counts.{window_moved};
ghost use Rattle.port_model.specs.Ticks.{asks_for_ack};
ghost use Rattle.port_session.specs.Session.{reclaim_number};
ghost use Rattle.port_state.specs.Engine.{flow_at, setup_of};
ghost use Rattle.port_state.specs.Parts.{changed_session, numbers_of, with_label, with_labels, with_taken};

use crate::state::PortState;
use branch_desk::BranchDone;
use flow_classifier::Policy;
use ipv4_packet::FlowId;
use net_types::{Channel, End, OutOfMemory, label_channel};
use port_labels::{HeldLabel, HeldState};
use std::mem;

impl<P: Policy> PortState<P> {
    /// How many labels are held.
    pub fn held(&self) -> usize
        ensures { result ≡ length (numbers_of self.now.port) }
    {
        match &self.session {
            Some(session) => session.held(),
            None => 0,
        }
    }

    /// The number of the label at this index among those that are held.
    pub fn number_at(&self, place: usize) -> Option<u16>
        ensures { result ≡ slice_get (numbers_of self.now.port) place }
    {
        match &self.session {
            Some(session) => session.number_at(place),
            None => None,
        }
    }

    /// The label of this number, if it is held.
    pub fn label_at(&self, label: u16) -> Option<HeldLabel>
        ensures label { option_map label_of result ≡ label_at self.now.port label }
        ensures range { IfSome result (λ held. IsTrue (is_label_number held.number)) }
        ensures number { IfSome result (λ held. held.number ≡ label) }
    {
        match &self.session {
            Some(session) => session.label_at(label),
            None => None,
        }
    }

    /// The state of the label of this number, if it is held.
    pub fn state_at(&self, label: u16) -> Option<HeldState>
        ensures { option_map state_from result ≡ option_map (λ held. held.state) (label_at self.now.port label) }
    {
        match &self.session {
            Some(session) => session.state_at(label),
            None => None,
        }
    }

    /// The flow that the label of this number is bound to. None exactly where it isn't bound.
    pub fn flow_of(&self, label: u16) -> Option<FlowId>
        ensures { result ≡ flow_at self.now.port label }
    {
        let held = self.label_at(label)?;
        match held.state {
            HeldState::Offered | HeldState::Recalled { .. } => Some(held.flow),
            HeldState::Wiring | HeldState::Wired => None,
        }
    }

    /// The number of the label that serves the flow.
    pub fn serving(&self, flow: &FlowId) -> Option<u16>
        ensures { result ≡ option_map label_number (label_for (labels_of self.now.port) flow.now) }
    {
        match &self.session {
            Some(session) => session.serving(flow),
            None => None,
        }
    }

    /// Counts a packet of a flow, and answers how many of its packets are in the window. A session is
    /// open.
    pub fn count(&mut self, flow: FlowId) -> Result<u32, OutOfMemory>
        requires { IsSome self.old.port.session }
        ensures fixed { self.new.fixed ≡ self.old.fixed }
        ensures port { OnOk result (self.new.port ≡ changed_session self.old.port (λ s. record s { counted = counted_once s.counted flow })) }
        ensures packets { IfOk result (λ packets. IfSome self.new.port.session (λ s. packets ≡ packets_in s.counted flow)) }
    {
        match &mut self.session {
            Some(session) => session.count(flow),
            None => unreachable!(),
        }
    }

    /// The windows of the flows that are counted move.
    pub fn move_windows(&mut self)
        ensures fixed { self.new.fixed ≡ self.old.fixed }
        ensures port { self.new.port ≡ changed_session self.old.port (λ s. record s { counted = window_moved self.old.fixed.timers.window s.counted }) }
    {
        match &mut self.session {
            Some(session) => session.move_windows(),
            None => {}
        }
    }

    /// The lowest spare label is taken for a flow that none serves; none where none can be handed out.
    /// A session is open; where memory is wanting it is given up.
    pub fn take_label(&mut self, flow: FlowId) -> Result<Option<u16>, OutOfMemory>
        requires open { IsSome self.old.port.session }
        requires unserved { label_for (labels_of self.old.port) flow ≡ None }
        ensures fixed { self.new.fixed ≡ self.old.fixed }
        ensures range { IfOk result (λ number. IfSome number (λ n. IsTrue (is_label_number n))) }
        ensures number { (s : SessionValue) → self.old.port.session ≡ Some s → IfOk result (λ number. number ≡ lowest_spare (setup_of P.meaning self.old.fixed) s.least s.greatest s.labels) }
        ensures port { IfOk result (λ number. self.new.port ≡ with_taken self.old.port flow number) }
    {
        let Some(session) = mem::replace(&mut self.session, None) else {
            unreachable!()
        };
        let (session, number) = session.wire(flow)?;
        if let Some(before) = mem::replace(&mut self.session, Some(session)) {
            before.abandon();
        }
        Ok(number)
    }

    /// No packet used a label for so many ticks.
    pub fn set_idle(&mut self, label: u16, idle: u32)
        requires { IsSome (label_at self.old.port label) }
        ensures fixed { self.new.fixed ≡ self.old.fixed }
        ensures port { IfSome (label_at self.old.port label) (λ held. self.new.port ≡ with_label self.old.port (record held { idle = idle })) }
    {
        match &mut self.session {
            Some(session) => session.set_idle(label, idle),
            None => {}
        }
    }

    /// The last REDIRECT of a label was sent so many ticks ago.
    pub fn set_ticks(&mut self, label: u16, ticks: u32)
        requires { IsSome (label_at self.old.port label) }
        ensures fixed { self.new.fixed ≡ self.old.fixed }
        ensures port { IfSome (label_at self.old.port label) (λ held. self.new.port ≡ with_label self.old.port (record held { ticks = ticks })) }
    {
        match &mut self.session {
            Some(session) => session.set_ticks(label, ticks),
            None => {}
        }
    }

    /// The input of a label is joined to an output.
    pub fn join(&mut self, label: u16, output: End)
        requires { IsSome (label_at self.old.port label) }
        ensures fixed { self.new.fixed ≡ self.old.fixed }
        ensures port { IfSome (label_at self.old.port label) (λ held. self.new.port ≡ with_label self.old.port (record held { join = Some output })) }
    {
        match &mut self.session {
            Some(session) => session.join(label, output),
            None => {}
        }
    }

    /// The input of a label isn't joined any more.
    pub fn part(&mut self, label: u16)
        requires { IsSome (label_at self.old.port label) }
        ensures fixed { self.new.fixed ≡ self.old.fixed }
        ensures port { IfSome (label_at self.old.port label) (λ held. self.new.port ≡ with_label self.old.port (record held { join = None })) }
    {
        match &mut self.session {
            Some(session) => session.part(label),
            None => {}
        }
    }

    /// The branch of a label that is being wired is made: it is offered.
    pub fn offer(&mut self, label: u16, done: &BranchDone)
        requires state { option_map (λ held. held.state) (label_at self.old.port label) ≡ Some labels.Wiring }
        requires wires { IsTrue (wires label done.now.request) }
        ensures fixed { self.new.fixed ≡ self.old.fixed }
        ensures port { IfSome (label_at self.old.port label) (λ held. self.new.port ≡ with_label self.old.port (record held { state = labels.Offered })) }
    {
        match &mut self.session {
            Some(session) => session.offer(label, done),
            None => {}
        }
    }

    /// An offered label is reclaimed by the next RECLAIM.
    pub fn recall(&mut self, label: u16)
        requires { option_map (λ held. held.state) (label_at self.old.port label) ≡ Some labels.Offered }
        ensures fixed { self.new.fixed ≡ self.old.fixed }
        ensures port { IfSome (label_at self.old.port label) (λ held. IfSome self.old.port.session (λ s. self.new.port ≡ with_label self.old.port (record held { state = labels.Recalled (reclaim_number s) false }))) }
    {
        match &mut self.session {
            Some(session) => session.recall(label),
            None => {}
        }
    }

    /// A recalled label is reclaimed by the next RECLAIM.
    pub fn reclaim_again(&mut self, label: u16)
        requires { IsTrue (option_map_or is_recalled (option_map (λ held. held.state) (label_at self.old.port label)) false) }
        ensures fixed { self.new.fixed ≡ self.old.fixed }
        ensures port { IfSome (label_at self.old.port label) (λ held. IfSome self.old.port.session (λ s. self.new.port ≡ with_label self.old.port (record held { state = reclaimed (reclaim_number s) held.state }))) }
    {
        match &mut self.session {
            Some(session) => session.reclaim_again(label),
            None => {}
        }
    }

    /// The peer acknowledged that a label was reclaimed.
    pub fn acknowledge(&mut self, label: u16)
        requires { IsTrue (option_map_or is_recalled (option_map (λ held. held.state) (label_at self.old.port label)) false) }
        ensures fixed { self.new.fixed ≡ self.old.fixed }
        ensures port { IfSome (label_at self.old.port label) (λ held. self.new.port ≡ with_label self.old.port (record held { state = acknowledged held.state })) }
    {
        match &mut self.session {
            Some(session) => session.acknowledge(label),
            None => {}
        }
    }

    /// Where the peer can't use a recalled label any more it is wired, and the answer is true.
    pub fn quit(&mut self, label: u16) -> bool
        requires { IsTrue (option_map_or is_recalled (option_map (λ held. held.state) (label_at self.old.port label)) false) }
        ensures fixed { self.new.fixed ≡ self.old.fixed }
        ensures passed { IfSome (label_at self.old.port label) (λ held. result ≡ is_passed (known_of self.old.port) held.state) }
        ensures port { IfSome (label_at self.old.port label) (λ held. self.new.port ≡ (if result then with_label self.old.port (record held { state = labels.Wired }) else self.old.port)) }
    {
        match &mut self.session {
            Some(session) => session.quit(label),
            None => false,
        }
    }

    /// The branch of a wired label is deleted: it is spare again.
    pub fn free(&mut self, label: u16, done: &BranchDone)
        requires state { option_map (λ held. held.state) (label_at self.old.port label) ≡ Some labels.Wired }
        requires unwires { IsTrue (unwires label done.now.request) }
        ensures fixed { self.new.fixed ≡ self.old.fixed }
        ensures port { self.new.port ≡ with_labels self.old.port (without label_number label) }
    {
        match &mut self.session {
            Some(session) => session.free(label, done),
            None => {}
        }
    }

    /// The range of the session is narrowed.
    pub fn narrow(&mut self, least: Channel, greatest: Channel)
        ensures fixed { self.new.fixed ≡ self.old.fixed }
        ensures port { self.new.port ≡ changed_session self.old.port (narrowed least greatest) }
    {
        match &mut self.session {
            Some(session) => session.narrow(least, greatest),
            None => {}
        }
    }

    /// Whether a label lies outside the narrowed range.
    pub fn is_outside(&self, label: u16) -> bool
        requires { IsTrue (is_label_number label) }
        ensures { result ≡ is_outside self.now.port.session label }
    {
        match &self.session {
            Some(session) => !session.pool().is_within(label_channel(label)),
            None => false,
        }
    }

    /// Whether a label is acknowledged and its last RECLAIM isn't known to be passed.
    pub fn wants_ack(&self) -> bool
        ensures { result ≡ asks_for_ack self.now.port.session }
    {
        match &self.session {
            Some(session) => session.wants_ack(),
            None => false,
        }
    }
}
