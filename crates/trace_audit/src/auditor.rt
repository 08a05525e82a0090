//! The auditor.

use crate::fault::AuditFault;
use crate::flows::LabelFlow;
use crate::lines::read_text;
use crate::maps::{Firsts, Flows, Payloads, Peers, set_first, set_flow, set_payload, set_peer};
use crate::queues::Queues;
use crate::tally::{AuditCounts, Tally};
use flow_encaps::unwrap_flow;
use indexmap::IndexMap;
use ipv4_packet::{FlowId, MAX_PACKET, next_hop};
use lab_text::{LineFault, check_line};
use net_types::{Mark, Octets, OutOfMemory, is_label};
use std::alloc::Global;
use trace_model::{Breach, Step, Taken, TraceCell, TraceEnd, TraceLabel, TraceLine, TraceRefusal};

/// A runtime monitor of traces (an auditor): it judges a trace line by line. Each line costs a few
/// look-ups, whatever came before. It keeps the cells that stand in queues, the frames and the
/// first puts of marks, the bindings and the links, and nothing else. This project's own.
#[derive(Drop)]
pub struct Auditor {
    alloc: Global,
    tally: Tally,
    begun: bool,
    ended: bool,
    peers: Peers,
    queues: Queues,
    flows: Flows,
    payloads: Payloads,
    firsts: Firsts,
    taken: Option<Taken>,
}

ghost use Rattle.std.specs.Prelude.{◌≡◌, ◌≤◌, is_none, length};
ghost use Rattle.ipv4_packet.specs.Flow.{IsFlow};
ghost use Rattle.flow_encaps.specs.Labelled.{unwrap_fault};
ghost use Rattle.trace_model.specs.Judgement as judgement;
ghost use Rattle.trace_audit.specs.Faults.{refused_text};

/// The refusal of a line that has one in each input.
fn refused_text(fault: LineFault) -> AuditFault
    ensures { refused_text fault ≡ result }
{
    match fault {
        LineFault::ScriptTooLong => AuditFault::Refused(TraceRefusal::ScriptTooLong),
        LineFault::LineTooLong => AuditFault::Refused(TraceRefusal::LineTooLong),
        LineFault::BadByte => AuditFault::Refused(TraceRefusal::BadByte),
        LineFault::Arity => AuditFault::Refused(TraceRefusal::Arity),
        LineFault::BadHex => AuditFault::Refused(TraceRefusal::BadHex),
        LineFault::OutOfMemory(error) => AuditFault::OutOfMemory(error),
    }
}

/// Whether the payload is a labelled frame of the flow.
fn fits(flow: &FlowId, payload: &[u8]) -> bool
    requires { IsFlow flow.now }
    ensures { result ≡ is_none (unwrap_fault flow.now payload.now) }
{
    let mut packet = [0; MAX_PACKET];
    unwrap_flow(flow, payload, &mut packet).is_ok()
}

/// Whether the port is of the node at the other end of a link.
fn is_at_node(end: TraceEnd, peer: Option<TraceEnd>) -> bool
    ensures { result ≡ judgement.is_at_node end peer }
{
    match peer {
        None => false,
        Some(peer) => peer.node == end.node,
    }
}

/// Whether a mark's first cell was put elsewhere.
fn is_elsewhere(place: TraceLabel, first: Option<TraceLabel>) -> bool
    ensures { result ≡ judgement.is_elsewhere place first }
{
    match first {
        None => false,
        Some(first) => first != place,
    }
}

/// Whether the flow is the one that a cell came by, one hop further.
fn is_next_hop(came: Option<FlowId>, flow: FlowId) -> bool
    ensures { result ≡ judgement.is_next_hop came flow }
{
    let Some(came) = came else {
        return false;
    };
    match next_hop(&came) {
        None => false,
        Some(next) => next == flow,
    }
}

impl Auditor {
    ghost use Rattle.std.specs.Prelude.{◌+◌, ◌<◌, Some, None, IfOk, IfSome, Result};
    ghost use Rattle.net_types.specs.declared.channel.Channel.{Channel};
    ghost use Rattle.trace_model.specs.declared.line.TraceLine.TheVariants as line_says;
    ghost use Rattle.trace_model.specs.Judgement.{breach_of, flow_from, is_switched_from, judged, labelled_breach, misses_hop};
    ghost use Rattle.trace_model.specs.Audit.{ReadSoFar, line_judged, nothing_read, past_after};
    ghost use Rattle.trace_audit.specs.After.{after_line, after_said};
    ghost use Rattle.trace_audit.specs.Faults.{HasLiving, Tells, WhenGood};
    ghost use Rattle.trace_audit.specs.Held.{Follows, in_time, known_by, octets_of};
    ghost use Rattle.trace_audit.specs.Tally.{has_room};

    /// Nothing is read yet.
    pub fn open(alloc: Global) -> Result<Auditor, OutOfMemory>
        ensures { IfOk result (Follows nothing_read) }
    {
        Ok(Auditor {
            alloc,
            tally: Tally::new(),
            begun: false,
            ended: false,
            peers: IndexMap::new(alloc),
            queues: Queues::new(alloc),
            flows: IndexMap::new(alloc),
            payloads: IndexMap::new(alloc),
            firsts: IndexMap::new(alloc),
            taken: None,
        })
    }

    /// How many links, puts and bindings there were.
    pub fn counts(&self) -> AuditCounts
        ensures links { result.links ≡ (known_by self.now).links }
        ensures puts { result.puts ≡ (known_by self.now).puts }
        ensures binds { result.binds ≡ (known_by self.now).binds }
    {
        self.tally.counts()
    }

    /// Whether the line `end` was read.
    pub fn ended(&self) -> bool
        ensures { result ≡ (known_by self.now).ended }
    {
        self.ended
    }

    /// How many octets the lines so far have: at most 16,777,216.
    pub fn octets(&self) -> u32
        ensures octets { result ≡ octets_of self.now }
        ensures within { result < 16777217 }
    {
        self.tally.octets()
    }

    /// Judges the next line, which has its LF where it has one, by the lines before it. Refuses, by the
    /// first test that fails: `ScriptTooLong`, `LineTooLong`, `BadByte`, `UnknownWord`, `Arity`, those
    /// of the words from left to right, `Late`, `PortTaken`, `SelfLink`, `NoLink`. A line that isn't
    /// refused is good, or the answer is `No` with the first of `Empty`, `Reuse`, `Frame`, `NoFlow`,
    /// `Flow` and `Hop` that it shows. A blank line is good. After another answer than `Good` the auditor
    /// can only be abandoned.
    pub fn line(&mut self, line: &[u8]) -> Result<Step, AuditFault>
        ensures told { Tells (line_judged (octets_of self.old) (known_by self.old) line.now) result }
        ensures known { WhenGood result (known_by self.new ≡ after_line (octets_of self.old) (known_by self.old) line.now) }
        ensures octets { WhenGood result (octets_of self.new ≡ octets_of self.old + length line.now) }
        ensures follows { (past : ReadSoFar) → Follows past self.old → WhenGood result (Follows (past_after past line.now) self.new) }
    {
        self.judge_line(line)
    }

    /// Judges the next line.
    fn judge_line(&mut self, line: &[u8]) -> Result<Step, AuditFault>
        ensures told { Tells (line_judged (octets_of self.old) (known_by self.old) line.now) result }
        ensures known { WhenGood result (known_by self.new ≡ after_line (octets_of self.old) (known_by self.old) line.now) }
        ensures octets { WhenGood result (octets_of self.new ≡ octets_of self.old + length line.now) }
    {
        let text = match check_line(self.tally.octets(), line) {
            Ok(text) => text,
            Err(fault) => return Err(refused_text(fault)),
        };
        let said = read_text(self.alloc, text)?;
        self.tally = self.tally.with_octets(line.len());
        match said {
            None => Ok(Step::Good),
            Some(said) => self.judge(said),
        }
    }

    /// Judges what a line says.
    fn judge(&mut self, said: TraceLine) -> Result<Step, AuditFault>
        requires room { has_room self.old.tally }
        requires living { HasLiving said }
        ensures told { Tells (judged (known_by self.old) said) result }
        ensures known { WhenGood result (known_by self.new ≡ after_said (known_by self.old) said) }
        ensures octets { WhenGood result (octets_of self.new ≡ octets_of self.old) }
    {
        match said {
            TraceLine::Link { first, second } => self.link(first, second),
            TraceLine::Take { end } => self.take(end),
            TraceLine::Lost { end } => self.lose(end),
            TraceLine::Frame { mark, payload } => self.frame(mark, payload),
            TraceLine::Put { place, mark } => self.put(place, mark),
            TraceLine::Bind { label, flow } => self.bind(label, flow),
            TraceLine::End => self.end(),
        }
    }

    /// The other end of a port's link.
    fn peer(&self, end: TraceEnd) -> Option<TraceEnd>
        ensures { result ≡ (known_by self.now).peer end }
    {
        self.peers.get(&end).copied()
    }

    /// The other end of the link of a port that a line names which isn't `link`.
    fn in_time(&self, end: TraceEnd) -> Result<TraceEnd, TraceRefusal>
        ensures { result ≡ in_time (known_by self.now) end }
    {
        if self.ended {
            return Err(TraceRefusal::Late);
        }
        match self.peer(end) {
            Some(peer) => Ok(peer),
            None => Err(TraceRefusal::NoLink),
        }
    }

    /// The flow of a channel at the port that its cells come to.
    fn flow_at(&self, label: TraceLabel) -> Option<FlowId>
        ensures flow { result ≡ (known_by self.now).flow label }
        ensures alive { IfSome result IsFlow }
    {
        match self.flows.get(&label) {
            Some(bound) => Some(bound.flow()),
            None => None,
        }
    }

    /// The flow of a cell in a port's queue.
    fn flow_from(&self, place: TraceLabel) -> Option<FlowId>
        ensures flow { result ≡ flow_from (known_by self.now) place.end place.channel }
        ensures alive { IfSome result IsFlow }
    {
        match self.peer(place.end) {
            Some(peer) => self.flow_at(TraceLabel {
                end: peer,
                channel: place.channel,
            }),
            None => None,
        }
    }

    fn link(&mut self, first: TraceEnd, second: TraceEnd) -> Result<Step, AuditFault>
        requires { has_room self.old.tally }
        ensures told { Tells (judged (known_by self.old) (line_says.Link first second)) result }
        ensures known { WhenGood result (known_by self.new ≡ after_said (known_by self.old) (line_says.Link first second)) }
        ensures octets { WhenGood result (octets_of self.new ≡ octets_of self.old) }
    {
        if self.ended || self.begun {
            return Err(AuditFault::Refused(TraceRefusal::Late));
        }
        if self.peer(first).is_some() || self.peer(second).is_some() {
            return Err(AuditFault::Refused(TraceRefusal::PortTaken));
        }
        if first == second {
            return Err(AuditFault::Refused(TraceRefusal::SelfLink));
        }
        set_peer(&mut self.peers, first, second)?;
        set_peer(&mut self.peers, second, first)?;
        self.taken = None;
        self.tally = self.tally.with_link();
        Ok(Step::Good)
    }

    fn take(&mut self, end: TraceEnd) -> Result<Step, AuditFault>
        ensures told { Tells (judged (known_by self.old) (line_says.Take end)) result }
        ensures known { WhenGood result (known_by self.new ≡ after_said (known_by self.old) (line_says.Take end)) }
        ensures octets { WhenGood result (octets_of self.new ≡ octets_of self.old) }
    {
        self.in_time(end)?;
        match self.queues.pop(end) {
            Some(cell) => {
                self.taken = Some(Taken { end, cell });
                self.begun = true;
                Ok(Step::Good)
            }
            None => Ok(Step::No(Breach::Empty)),
        }
    }

    fn lose(&mut self, end: TraceEnd) -> Result<Step, AuditFault>
        ensures told { Tells (judged (known_by self.old) (line_says.Lost end)) result }
        ensures known { WhenGood result (known_by self.new ≡ after_said (known_by self.old) (line_says.Lost end)) }
        ensures octets { WhenGood result (octets_of self.new ≡ octets_of self.old) }
    {
        self.in_time(end)?;
        match self.queues.pop(end) {
            Some(_) => {
                self.taken = None;
                self.begun = true;
                Ok(Step::Good)
            }
            None => Ok(Step::No(Breach::Empty)),
        }
    }

    fn frame(&mut self, mark: Mark, payload: Octets) -> Result<Step, AuditFault>
        ensures told { Tells (judged (known_by self.old) (line_says.Frame mark payload)) result }
        ensures known { WhenGood result (known_by self.new ≡ after_said (known_by self.old) (line_says.Frame mark payload)) }
        ensures octets { WhenGood result (octets_of self.new ≡ octets_of self.old) }
    {
        if self.ended {
            return Err(AuditFault::Refused(TraceRefusal::Late));
        }
        if self.payloads.contains_key(&mark) {
            return Ok(Step::No(Breach::Frame));
        }
        set_payload(&mut self.payloads, mark, payload)?;
        self.taken = None;
        self.begun = true;
        Ok(Step::Good)
    }

    fn put(&mut self, place: TraceLabel, mark: Mark) -> Result<Step, AuditFault>
        requires { has_room self.old.tally }
        ensures told { Tells (judged (known_by self.old) (line_says.Put place mark)) result }
        ensures known { WhenGood result (known_by self.new ≡ after_said (known_by self.old) (line_says.Put place mark)) }
        ensures octets { WhenGood result (octets_of self.new ≡ octets_of self.old) }
    {
        self.in_time(place.end)?;
        if let Some(breach) = self.put_breach(place, mark) {
            return Ok(Step::No(breach));
        }
        let cell = TraceCell {
            channel: place.channel,
            mark,
        };
        self.queues.push(place.end, cell)?;
        set_first(&mut self.firsts, mark, place)?;
        self.taken = None;
        self.begun = true;
        self.tally = self.tally.with_put();
        Ok(Step::Good)
    }

    /// What is wrong with a cell that is put.
    fn put_breach(&self, place: TraceLabel, mark: Mark) -> Option<Breach>
        ensures { result ≡ breach_of (known_by self.now) (line_says.Put place mark) }
    {
        if is_label(place.channel) {
            self.labelled_breach(place, mark)
        } else {
            None
        }
    }

    /// What is wrong with a cell on a label's channel.
    fn labelled_breach(&self, place: TraceLabel, mark: Mark) -> Option<Breach>
        ensures { result ≡ labelled_breach (known_by self.now) place mark ((known_by self.now).payload mark) (flow_from (known_by self.now) place.end place.channel) }
    {
        let Some(payload) = self.payloads.get(&mark) else {
            return Some(Breach::Frame);
        };
        let Some(flow) = self.flow_from(place) else {
            return Some(Breach::NoFlow);
        };
        if !fits(&flow, payload.as_slice()) {
            return Some(Breach::Flow);
        }
        if self.misses_hop(place, mark, flow) {
            return Some(Breach::Hop);
        }
        None
    }

    /// Whether a switch passes the cell on to another flow than the one it came by, one hop further.
    fn misses_hop(&self, place: TraceLabel, mark: Mark, flow: FlowId) -> bool
        ensures { result ≡ misses_hop (known_by self.now) place mark flow }
    {
        match self.taken {
            None => false,
            Some(taken) => {
                let came = TraceLabel {
                    end: taken.end,
                    channel: taken.cell.channel,
                };
                self.is_switched_from(place, mark, taken)
                    && !is_next_hop(self.flow_from(came), flow)
            }
        }
    }

    /// Whether a cell of the mark was taken on a label's channel towards the node of this put, and the
    /// mark's first cell was put elsewhere.
    fn is_switched_from(&self, place: TraceLabel, mark: Mark, taken: Taken) -> bool
        ensures { result ≡ is_switched_from (known_by self.now) place mark taken }
    {
        (taken.cell.mark == mark && is_label(taken.cell.channel))
            && (is_at_node(place.end, self.peer(taken.end))
                && is_elsewhere(place, self.firsts.get(&mark).copied()))
    }

    fn bind(&mut self, label: TraceLabel, flow: FlowId) -> Result<Step, AuditFault>
        requires room { has_room self.old.tally }
        requires living { IsFlow flow }
        ensures told { Tells (judged (known_by self.old) (line_says.Bind label flow)) result }
        ensures known { WhenGood result (known_by self.new ≡ after_said (known_by self.old) (line_says.Bind label flow)) }
        ensures octets { WhenGood result (octets_of self.new ≡ octets_of self.old) }
    {
        let peer = self.in_time(label.end)?;
        let towards = TraceLabel {
            end: peer,
            channel: label.channel,
        };
        if self.queues.holds(towards) {
            return Ok(Step::No(Breach::Reuse));
        }
        set_flow(&mut self.flows, label, LabelFlow::new(flow))?;
        self.taken = None;
        self.begun = true;
        self.tally = self.tally.with_bind();
        Ok(Step::Good)
    }

    fn end(&mut self) -> Result<Step, AuditFault>
        ensures told { Tells (judged (known_by self.old) line_says.End) result }
        ensures known { WhenGood result (known_by self.new ≡ after_said (known_by self.old) line_says.End) }
        ensures octets { WhenGood result (octets_of self.new ≡ octets_of self.old) }
    {
        if self.ended {
            return Err(AuditFault::Refused(TraceRefusal::Late));
        }
        self.taken = None;
        self.begun = true;
        self.ended = true;
        Ok(Step::Good)
    }
}
