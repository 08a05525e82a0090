//! What a port has exactly in Estab.

ghost use Rattle.std.specs.Prelude.{◌≡◌, ℕ, ◌≤◌, ◌<◌, ◌+◌, [], true, false, None, Some, IsTrue, IsOk, IsSome, IfOk, IfSome, OnOk, OnErr, max, length, slice_get, option_map, nat_lt, if◌then◌else◌};
ghost use Rattle.std.specs.Option.{option_map_or};
ghost use Rattle.std.specs.List.{list_any};
ghost use Rattle.net_types.specs.Label.{is_label_number, label_channel_of};
ghost use Rattle.keyed_lists.specs.Keyed.{at, entered, key_le, without};
ghost use Rattle.label_pool.specs.Label.{wires, unwires};
ghost use Rattle.port_labels.specs.Book.{IsBook, reclaimed, acknowledged, is_passed, is_recalled, wiring};
ghost use Rattle.port_labels.specs.Read.{label_of, state_from};
ghost use Rattle.branch_desk.specs.port_model.Labels as model;
ghost use Rattle.branch_desk.specs.port_model.Labels.{Label as LabelValue, label_for, label_number, lowest_spare};
ghost use Rattle.branch_desk.specs.port_model.Counts.{counted_once, window_moved, packets_in};
ghost use Rattle.branch_desk.specs.port_model.Setup.{Setup};
ghost use Rattle.branch_desk.specs.port_model.Ticks.{is_unpassed};
ghost use Rattle.branch_desk.specs.port_model.Reclaiming.{narrowed};
ghost use Rattle.port_session.specs.Session.{IsPoolIn, Opened, after_number, next_number, reclaim_number, with_session, with_labels, with_change};

use branch_desk::BranchDone;
use flow_classifier::Classifier;
use ifmp_adjacency::Established;
use ipv4_packet::FlowId;
use label_pool::{LabelPool, pools_are_the_ports};
use net_types::{Channel, End, OutOfMemory};
use port_labels::{HeldLabel, HeldState, LabelBook};
use std::alloc::Global;
use std::marker::Model;

/// The greatest number of a message, under which nothing is said.
pub const LAST_NUMBER: u32 = 4_294_967_295;

/// The next number where the numbers are spent.
const SPENT_NUMBER: u64 = 4_294_967_296;

/// The IFMP session of a port: what it has exactly while its adjacency is in state ESTAB (RFC
/// 1953). It must be given up by [`Session::abandon`].
#[must_use]
pub struct Session {
    /// The next number of its redirection messages; 4,294,967,296 where they are spent.
    number: u64,
    /// The number that it expects next of its peer.
    expected: u32,
    /// The number that its peer is known to expect next.
    known: u32,
    /// The labels that are spare, and the range to which they were narrowed.
    pool: LabelPool,
    /// The labels that are held.
    book: LabelBook,
    classifier: Classifier,
}

impl Model for Session {
    ghost use Rattle.std.specs.Prelude.{◌≤◌};
    ghost use Rattle.port_session.specs.Session.{AreTied, Opened};

    ghost Value = { Opened };

    ghost view = { λ s. record {
      least = s.pool.least;
      greatest = s.pool.greatest;
      window = s.classifier.window;
      instance = s.pool.instance;
      session = record {
        number = s.number;
        expected = s.expected;
        known = s.known;
        least = s.pool.from;
        greatest = s.pool.to;
        labels = s.book.labels;
        counted = s.classifier.counts;
      };
    } };

    ghost invariant = { λ s. record {
      number : s.number ≤ 4294967296;
      tied : AreTied s.pool s.book;
    } };
}

impl Session {
    /// A session at its beginning: all labels are spare.
    pub fn open(
        alloc: Global,
        key: Established,
        least: u16,
        greatest: u16,
        window: usize,
    ) -> Result<Session, OutOfMemory>
        requires least { IsTrue (is_label_number least) }
        requires greatest { IsTrue (is_label_number greatest) }
        requires order { least ≤ greatest }
        requires window_least { 1 ≤ window }
        requires window_most { window ≤ 64 }
        ensures { IfOk result (λ s. s ≡ record { least = least; greatest = greatest; window = window; instance = key; session = record { number = 1; expected = 1; known = 1; least = label_channel_of least; greatest = label_channel_of greatest; labels = []; counted = [] } }) }
    {
        let instance = key.instance();
        let pool = match LabelPool::open(alloc, key, least, greatest) {
            Ok(pool) => pool,
            Err((key, error)) => {
                key.spend();
                return Err(error);
            }
        };
        let book = match LabelBook::open(alloc, instance, least, greatest) {
            Ok(book) => book,
            Err(error) => {
                pool.abandon();
                return Err(error);
            }
        };
        match Classifier::open(alloc, window) {
            Ok(classifier) => Ok(Session {
                number: 1,
                expected: 1,
                known: 1,
                pool,
                book,
                classifier,
            }),
            Err(error) => {
                pool.abandon();
                book.abandon();
                Err(error)
            }
        }
    }

    /// The pool.
    pub fn pool(&self) -> &LabelPool
        ensures pool { IsPoolIn self.now result.now }
    {
        &self.pool
    }

    /// The book.
    pub fn book(&self) -> &LabelBook
        ensures labels { result.now.labels ≡ self.now.session.labels }
        ensures book { IsBook result.now }
        ensures least { result.now.least ≡ self.now.least }
        ensures greatest { result.now.greatest ≡ self.now.greatest }
    {
        // it is in order
        self.book.is_in_order();
        &self.book
    }

    /// The next number of its redirection messages; 4,294,967,296 where they are spent.
    pub fn number(&self) -> u64
        ensures { result ≡ self.now.session.number }
    {
        self.number
    }

    /// The number that it expects next of its peer.
    pub fn expected(&self) -> u32
        ensures { result ≡ self.now.session.expected }
    {
        self.expected
    }

    /// The number that its peer is known to expect next.
    pub fn known(&self) -> u32
        ensures { result ≡ self.now.session.known }
    {
        self.known
    }

    /// The least and the greatest of the channels to which its labels were narrowed. The least may be
    /// above the greatest.
    pub fn narrowed(&self) -> (Channel, Channel)
        ensures least { result.0 ≡ self.now.session.least }
        ensures greatest { result.1 ≡ self.now.session.greatest }
    {
        self.pool.narrowed()
    }

    /// The flows that are counted.
    pub fn counted(&self) -> &Classifier
        ensures { result.now.counts ≡ self.now.session.counted }
    {
        &self.classifier
    }

    /// Whether its numbers are spent.
    pub fn is_spent(&self) -> bool
        ensures { result ≡ nat_lt 4294967295 self.now.session.number }
    {
        self.number > LAST_NUMBER as u64
    }

    /// The number of the next RECLAIM; the last number where none is left.
    fn reclaim_number(&self) -> u32
        ensures { result ≡ reclaim_number self.now.session }
    {
        if self.is_spent() {
            LAST_NUMBER
        } else {
            self.number as u32
        }
    }

    /// Uses the next number. Where that is the last one the numbers are spent, and none is used.
    pub fn take_number(&mut self) -> Option<u32>
        ensures number { result ≡ next_number self.old.session }
        ensures session { self.new ≡ with_session self.old (after_number self.old.session) }
    {
        if self.number >= LAST_NUMBER as u64 {
            self.number = SPENT_NUMBER;
            return None;
        }
        let number = self.number as u32;
        self.number += 1;
        Some(number)
    }

    /// The peer used this number, and the next one is expected.
    pub fn expect_after(&mut self, number: u32)
        requires { number < 4294967295 }
        ensures { self.new ≡ with_session self.old (record self.old.session { expected = number + 1 }) }
    {
        self.expected = number + 1;
    }

    /// The peer is known to expect the greatest number that it named.
    pub fn learn(&mut self, next: u32)
        ensures { self.new ≡ with_session self.old (record self.old.session { known = max self.old.session.known next }) }
    {
        self.known = self.known.max(next);
    }

    /// How many labels are held.
    pub fn held(&self) -> usize
        ensures { result ≡ length self.now.session.labels }
    {
        self.book.len()
    }

    /// The number of the label at this index among those that are held.
    pub fn number_at(&self, place: usize) -> Option<u16>
        ensures number { result ≡ option_map label_number (slice_get self.now.session.labels place) }
        ensures label { IfSome result (λ number. at label_number number self.now.session.labels ≡ slice_get self.now.session.labels place) }
    {
        self.book.number_at(place)
    }

    /// The label of this number, if it is held.
    pub fn label_at(&self, label: u16) -> Option<HeldLabel>
        ensures label { option_map label_of result ≡ at label_number label self.now.session.labels }
        ensures range { IfSome result (λ entry. IsTrue (is_label_number entry.number)) }
        ensures number { IfSome result (λ entry. entry.number ≡ label) }
    {
        self.book.get(label)
    }

    /// The state of the label of this number, if it is held.
    pub fn state_at(&self, label: u16) -> Option<HeldState>
        ensures { option_map state_from result ≡ option_map (λ entry. entry.state) (at label_number label self.now.session.labels) }
    {
        self.book.state_at(label)
    }

    /// The label at this index among those that are held, the lowest first, counted from 0. None exactly
    /// where the index is at or above their count.
    pub fn held_at(&self, place: usize) -> Option<HeldLabel>
        ensures label { option_map label_of result ≡ slice_get self.now.session.labels place }
        ensures range { IfSome result (λ label. IsTrue (is_label_number label.number)) }
    {
        self.label_at(self.number_at(place)?)
    }

    /// The number of the label that serves the flow.
    pub fn serving(&self, flow: &FlowId) -> Option<u16>
        ensures { result ≡ option_map label_number (label_for self.now.session.labels flow.now) }
    {
        self.book.serving(flow)
    }

    /// Counts a packet of the flow, and answers how many of its packets are in the window.
    pub fn count(&mut self, flow: FlowId) -> Result<u32, OutOfMemory>
        ensures packets { IfOk result (λ packets. packets ≡ packets_in self.new.session.counted flow) }
        ensures session { OnOk result (self.new ≡ with_session self.old (record self.old.session { counted = counted_once self.old.session.counted flow })) }
        ensures err { OnErr result (self.new ≡ self.old) }
    {
        self.classifier.count(flow)
    }

    /// The windows of the flows that are counted move.
    pub fn move_windows(&mut self)
        ensures { self.new ≡ with_session self.old (record self.old.session { counted = window_moved self.old.window self.old.session.counted }) }
    {
        self.classifier.tick();
    }

    /// Takes the lowest spare label for a flow that none serves. None exactly where none can be handed
    /// out, which needs no memory. Where memory is wanting the session is given up.
    pub fn wire(self, flow: FlowId) -> Result<(Session, Option<u16>), OutOfMemory>
        requires { label_for self.session.labels flow ≡ None }
        ensures number { (setup : Setup) → setup.least ≡ self.least → setup.greatest ≡ self.greatest → IfOk result (λ (s, number). number ≡ lowest_spare setup self.session.least self.session.greatest self.session.labels) }
        ensures memory { (setup : Setup) → setup.least ≡ self.least → setup.greatest ≡ self.greatest → lowest_spare setup self.session.least self.session.greatest self.session.labels ≡ None → IsOk result }
        ensures range { IfOk result (λ (s, number). IfSome number (λ n. IsTrue (is_label_number n))) }
        ensures none { IfOk result (λ (s, number). number ≡ None → s ≡ self) }
        ensures some { IfOk result (λ (s, number). (n : ℕ) → number ≡ Some n → s ≡ with_labels self (entered (key_le label_number) (wiring n flow) self.session.labels)) }
    {
        pools_are_the_ports();
        let mut session = self;
        let Some(label) = session.pool.take() else {
            return Ok((session, None));
        };
        let number = label.number();
        match session.book.enter(label, flow) {
            Ok(()) => Ok((session, Some(number))),
            Err(error) => {
                let Session {
                    number: _,
                    expected: _,
                    known: _,
                    pool,
                    book,
                    classifier: _,
                } = session;
                pool.abandon();
                book.abandon();
                Err(error)
            }
        }
    }

    /// The branch of a label that is being wired is made: it is offered.
    pub fn offer(&mut self, label: u16, done: &BranchDone)
        requires state { option_map (λ entry. entry.state) (at label_number label self.old.session.labels) ≡ Some model.Wiring }
        requires wires { IsTrue (wires label done.now.request) }
        ensures { self.new ≡ with_change self.old label (λ entry. record entry { state = model.Offered }) }
    {
        self.book.offer(label, done);
    }

    /// An offered label is reclaimed by the next RECLAIM.
    pub fn recall(&mut self, label: u16)
        requires { option_map (λ entry. entry.state) (at label_number label self.old.session.labels) ≡ Some model.Offered }
        ensures { self.new ≡ with_change self.old label (λ entry. record entry { state = model.Recalled (reclaim_number self.old.session) false }) }
    {
        let reclaim = self.reclaim_number();
        self.book.recall(label, reclaim);
    }

    /// A recalled label is reclaimed by the next RECLAIM.
    pub fn reclaim_again(&mut self, label: u16)
        requires { IsTrue (option_map_or is_recalled (option_map (λ entry. entry.state) (at label_number label self.old.session.labels)) false) }
        ensures { self.new ≡ with_change self.old label (λ entry. record entry { state = reclaimed (reclaim_number self.old.session) entry.state }) }
    {
        let reclaim = self.reclaim_number();
        self.book.reclaim_again(label, reclaim);
    }

    /// The peer acknowledged that a label was reclaimed.
    pub fn acknowledge(&mut self, label: u16)
        requires { IsTrue (option_map_or is_recalled (option_map (λ entry. entry.state) (at label_number label self.old.session.labels)) false) }
        ensures { self.new ≡ with_change self.old label (λ entry. record entry { state = acknowledged entry.state }) }
    {
        self.book.acknowledge(label);
    }

    /// Where the peer can't use a recalled label any more it is wired, and the answer is true.
    pub fn quit(&mut self, label: u16) -> bool
        requires { IsTrue (option_map_or is_recalled (option_map (λ entry. entry.state) (at label_number label self.old.session.labels)) false) }
        ensures passed { IfSome (at label_number label self.old.session.labels) (λ entry. result ≡ is_passed self.old.session.known entry.state) }
        ensures session { self.new ≡ (if result then with_change self.old label (λ entry. record entry { state = model.Wired }) else self.old) }
    {
        self.book.quit(label, self.known)
    }

    /// The branch of a wired label is deleted: it is spare again.
    pub fn free(&mut self, label: u16, done: &BranchDone)
        requires state { option_map (λ entry. entry.state) (at label_number label self.old.session.labels) ≡ Some model.Wired }
        requires unwires { IsTrue (unwires label done.now.request) }
        ensures { self.new ≡ with_labels self.old (without label_number label self.old.session.labels) }
    {
        let spare = self.book.free(label, done);
        // it is one of a label
        let _number = spare.number();
        self.pool.put(spare);
    }

    /// No packet used a label for so many ticks.
    pub fn set_idle(&mut self, label: u16, idle: u32)
        requires { IsSome (at label_number label self.old.session.labels) }
        ensures { self.new ≡ with_change self.old label (λ entry. record entry { idle = idle }) }
    {
        self.book.set_idle(label, idle);
    }

    /// The last REDIRECT of a label was sent so many ticks ago.
    pub fn set_ticks(&mut self, label: u16, ticks: u32)
        requires { IsSome (at label_number label self.old.session.labels) }
        ensures { self.new ≡ with_change self.old label (λ entry. record entry { ticks = ticks }) }
    {
        self.book.set_ticks(label, ticks);
    }

    /// The input of a label is joined.
    pub fn join(&mut self, label: u16, output: End)
        requires { IsSome (at label_number label self.old.session.labels) }
        ensures { self.new ≡ with_change self.old label (λ entry. record entry { join = Some output }) }
    {
        self.book.join(label, output);
    }

    /// The input of a label isn't joined any more.
    pub fn part(&mut self, label: u16)
        requires { IsSome (at label_number label self.old.session.labels) }
        ensures { self.new ≡ with_change self.old label (λ entry. record entry { join = None }) }
    {
        self.book.part(label);
    }

    /// Its range is narrowed.
    pub fn narrow(&mut self, least: Channel, greatest: Channel)
        ensures { self.new ≡ with_session self.old (narrowed least greatest self.old.session) }
    {
        self.pool.narrow(least, greatest);
    }

    /// Whether a label is acknowledged and its last RECLAIM isn't known to be passed.
    pub fn wants_ack(&self) -> bool
        ensures { result ≡ list_any (λ label. is_unpassed self.now.session.known label.state) self.now.session.labels }
    {
        for place in 0..self.held() {
            if self.is_unpassed_at(place) {
                return true;
            }
        }
        false
    }

    /// Whether the label at this index is acknowledged and its last RECLAIM isn't known to be passed.
    fn is_unpassed_at(&self, place: usize) -> bool
        ensures { IfSome (slice_get self.now.session.labels place) (λ label. result ≡ is_unpassed self.now.session.known label.state) }
    {
        let Some(label) = self.held_at(place) else {
            return false;
        };
        match label.state {
            HeldState::Recalled {
                last,
                acknowledged: true,
            } => self.known <= last,
            HeldState::Recalled { .. }
            | HeldState::Wiring
            | HeldState::Offered
            | HeldState::Wired => false,
        }
    }

    /// Gives it up.
    pub fn abandon(self) {
        let Session {
            number: _,
            expected: _,
            known: _,
            pool,
            book,
            classifier: _,
        } = self;
        pool.abandon();
        book.abandon();
    }
}
