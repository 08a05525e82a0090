//! What the lines of a script so far say.

ghost use Rattle.std.specs.Prelude.{◌≡◌, ◌≤◌, ◌-◌, length, IfOk, OnOk, OnErr, None, slice_set, true, false};
ghost use Rattle.ipv4_forward.specs.Change.{changed, change_fault};
ghost use Rattle.std.specs.Char.{is_ascii_hexdigit};
ghost use Rattle.std.specs.List.{list_all};
ghost use Rattle.lab_text.specs.Numeral.{paired};
ghost use Rattle.world_model.specs.network_model.declared.event.Event.TheVariants.{Forge as ForgeComes, Inject as InjectComes, Route as RouteComes};
ghost use Rattle.world_model.specs.Conditions.{IsNode, HasItsNumbers};
ghost use Rattle.world_model.specs.Events.{place_refusal, route_event_refusal, event_refusal};
ghost use Rattle.world_model.specs.Lines.{is_linked, line_refusal};
ghost use Rattle.script_model.specs.State.{nothing_read, table_of, ticks_of, with_said, with_event_line, tables_after};
ghost use Rattle.script_model.specs.Meaning.{is_late, describes, comes, limited};
ghost use Rattle.script_model.specs.Reading.{state_by};
ghost use Rattle.script_words.specs.Told.{described};
ghost use Rattle.script_text.specs.Counts.{counted_up_to, passes, with_counts};
ghost use Rattle.script_text.specs.Taking.{Takes, FindsNode};

use crate::description::{description_refusal, line_of};
use crate::fault::ReadFault;
use crate::limits::{EVENT_LINES, TICKS, counted, rounds_of, ticks_of_event};
use crate::names::{event_name, topology_name};
use crate::tables::Tables;
use ipv4_forward::{Next, RouteChange};
use lab_text::hex_pairs;
use net_types::{Channel, NodeId, Octets, OutOfMemory, Place, PortNo};
use script_model::Line;
use script_words::{Described, LineRefusal, ROUNDS};
use std::alloc::Global;
use std::marker::Model;
use topology::{RouteList, Topology, TopologyFault};
use world_model::{Event, EventRefusal, TopologyLine};

/// The octets that hexadecimal digits spell.
fn octets_of(alloc: Global, digits: &[u8]) -> Result<Octets, OutOfMemory>
    requires { list_all is_ascii_hexdigit digits.now ≡ true }
    ensures { IfOk result (λ octets. octets ≡ paired digits.now) }
{
    Ok(Octets::new(hex_pairs(alloc, digits)?))
}

/// A line would pass a limit.
const TOO_MANY: LineRefusal = LineRefusal::TooMany;

/// The parser state of a script: the topology of the lines so far, the routes of its nodes as the
/// route lines set them, and the counts of octets, lines, event lines, rounds and ticks. The counts
/// of octets and lines stay at 4,294,967,295 once there. This project's own.
#[derive(Drop)]
pub struct ScriptState {
    alloc: Global,
    topology: Topology,
    // none until a route line is taken; so long each node has the routes of the topology
    tables: Option<Tables>,
    octets: u32,
    lines: u32,
    has_line: bool,
    event_lines: u32,
    rounds: u32,
    ticks: u32,
}

impl Model for ScriptState {
    ghost use Rattle.script_model.specs.State.{ScriptState as SoFar};
    ghost use Rattle.script_text.specs.Counts.{tables_seen, IsWithinLimits};

    ghost Value = { SoFar };

    ghost view = { λ s. record { topology = s.topology; tables = tables_seen s.topology s.tables; octets = s.octets; lines = s.lines; has_line = s.has_line; event_lines = s.event_lines; rounds = s.rounds; ticks = s.ticks } };

    ghost invariant = { λ s. IsWithinLimits s.topology (tables_seen s.topology s.tables) s.event_lines s.rounds s.ticks };
}

impl ScriptState {
    /// Nothing is read yet.
    pub fn new(alloc: Global) -> Result<ScriptState, OutOfMemory>
        ensures { IfOk result (λ state. state ≡ nothing_read) }
    {
        Ok(ScriptState {
            alloc,
            topology: Topology::new(alloc)?,
            tables: None,
            octets: 0,
            lines: 0,
            has_line: false,
            event_lines: 0,
            rounds: 0,
            ticks: 0,
        })
    }

    /// The topology of the lines so far.
    pub fn topology(&self) -> &Topology
        ensures { result.now ≡ self.now.topology }
    {
        &self.topology
    }

    /// How many octets the lines so far have, their ends included.
    pub fn octets(&self) -> u32
        ensures { result ≡ self.now.octets }
    {
        self.octets
    }

    /// How many lines there were, blank and refused ones included.
    pub fn lines(&self) -> u32
        ensures { result ≡ self.now.lines }
    {
        self.lines
    }

    /// How many of them were events.
    pub fn event_lines(&self) -> u32
        ensures event_lines { result ≡ self.now.event_lines }
        ensures few { result ≤ 200000 }
    {
        self.event_lines
    }

    /// The rounds of all lines.
    pub fn rounds(&self) -> u32
        ensures rounds { result ≡ self.now.rounds }
        ensures few { result ≤ 100000 }
    {
        self.rounds
    }

    /// The ticks of all lines.
    pub fn ticks(&self) -> u32
        ensures ticks { result ≡ self.now.ticks }
        ensures few { result ≤ 2000000 }
    {
        self.ticks
    }

    /// A line counts, also where it is refused.
    pub(crate) fn count_line(&mut self, line: &[u8])
        ensures { self.new ≡ counted_up_to self.old line.now }
    {
        self.octets = counted(self.octets, line.len());
        self.lines = counted(self.lines, 1);
    }

    /// The node of this name. Refuses `UnknownName`.
    pub(crate) fn named(&self, name: &[u8]) -> Result<NodeId, LineRefusal>
        ensures { FindsNode self.now.topology name.now result }
    {
        match self.topology.node_of(name) {
            Some(node) => Ok(node),
            None => Err(LineRefusal::UnknownName),
        }
    }

    fn is_late(&self, said: &Described<'_>) -> bool
        ensures { result ≡ is_late self.now (described said.now) }
    {
        match said {
            Described::Version { .. } => self.has_line,
            Described::Node { .. }
            | Described::Cells { .. }
            | Described::Labels { .. }
            | Described::Link { .. }
            | Described::RouteVia { .. }
            | Described::RouteLocal { .. }
            | Described::PolicyXy { .. }
            | Described::PolicyNever
            | Described::Timers { .. } => 0 < self.event_lines,
        }
    }

    /// Adds a line of the topology that isn't refused.
    fn add(&mut self, line: TopologyLine) -> Result<Line, ReadFault>
        requires numbers { HasItsNumbers line }
        requires in_time { is_late self.old line ≡ false }
        requires fits { line_refusal self.old.topology line ≡ None }
        ensures { Takes self.old (describes self.old line) self.new result }
    {
        match self.topology.line(&line) {
            Ok(()) => {
                self.tables = None;
                self.has_line = true;
                Ok(Line::Topology(line))
            }
            Err(TopologyFault::Refused(refusal)) => {
                Err(ReadFault::Refused(topology_name(refusal)))
            }
            Err(TopologyFault::OutOfMemory(error)) => Err(ReadFault::OutOfMemory(error)),
        }
    }

    /// Adds what is said of the topology. Refuses `Late` and then what the topology refuses. Want of memory
    /// comes only where nothing is refused, and changes nothing.
    pub(crate) fn describe(&mut self, said: &Described<'_>) -> Result<Line, ReadFault>
        requires { HasItsNumbers (described said.now) }
        ensures { Takes self.old (describes self.old (described said.now)) self.new result }
    {
        if self.is_late(said) {
            return Err(ReadFault::Refused(LineRefusal::Late));
        }
        if let Some(refusal) = description_refusal(&self.topology, said) {
            return Err(ReadFault::Refused(topology_name(refusal)));
        }
        let line = line_of(self.alloc, said)?;
        self.add(line)
    }

    fn ticks_of(&self, line: &Line) -> u32
        ensures ticks { result ≡ ticks_of self.now.topology line.now }
        ensures few { result ≤ 128 }
    {
        match line {
            Line::TickAll => 2 * self.topology.nodes() as u32,
            Line::Event(event) => ticks_of_event(event),
            Line::Blank | Line::Topology(_) | Line::Run(_) => 0,
        }
    }

    /// Whether one more event line, of so many rounds and ticks, would pass a limit.
    fn is_too_many(&self, rounds: u32, ticks: u32) -> bool
        requires { ticks ≤ 128 }
        ensures { result ≡ passes self.now rounds ticks }
    {
        EVENT_LINES < self.event_lines + 1
            || (ROUNDS as u64) < self.rounds as u64 + rounds as u64
            || TICKS < self.ticks + ticks
    }

    /// One more event line.
    fn count(&mut self, rounds: u32, ticks: u32)
        requires { passes self.old rounds ticks ≡ false }
        ensures { self.new ≡ with_counts self.old rounds ticks }
    {
        self.has_line = true;
        self.event_lines += 1;
        self.rounds += rounds;
        self.ticks += ticks;
    }

    /// Takes an event line that changes no table. Refuses `TooMany`.
    pub(crate) fn take(&mut self, line: Line) -> Result<Line, LineRefusal>
        requires { with_said self.old line ≡ with_event_line self.old line }
        ensures said { result ≡ limited self.old line }
        ensures state { self.new ≡ state_by self.old result }
    {
        let rounds = rounds_of(&line);
        let ticks = self.ticks_of(&line);
        if self.is_too_many(rounds, ticks) {
            return Err(TOO_MANY);
        }
        self.count(rounds, ticks);
        Ok(line)
    }

    /// Takes a packet that is sent, of which these are the digits. Refuses `TooMany`. Want of memory comes
    /// only where nothing is refused, and changes nothing.
    pub(crate) fn take_packet(&mut self, node: NodeId, digits: &[u8]) -> Result<Line, ReadFault>
        requires { list_all is_ascii_hexdigit digits.now ≡ true }
        ensures { Takes self.old (comes self.old (InjectComes node (paired digits.now))) self.new result }
    {
        if self.is_too_many(0, 0) {
            return Err(ReadFault::Refused(TOO_MANY));
        }
        let octets = octets_of(self.alloc, digits)?;
        self.count(0, 0);
        Ok(Line::Event(Event::Inject { node, octets }))
    }

    fn is_linked(&self, node: NodeId, port: PortNo) -> bool
        ensures { result ≡ is_linked self.now.topology node port }
    {
        self.topology.peer_of(node, port).is_some()
    }

    fn place_refusal(&self, place: Place) -> Option<EventRefusal>
        ensures { result ≡ place_refusal self.now.topology place }
    {
        match place {
            Place::Down(_) | Place::Up(_) => None,
            Place::Out(node, port) => {
                if self.is_linked(node, port) {
                    None
                } else {
                    Some(EventRefusal::NoLink)
                }
            }
        }
    }

    /// Takes an event of a queue. Refuses `NoLink` and `TooMany`.
    pub(crate) fn take_at(&mut self, place: Place, event: Event) -> Result<Line, LineRefusal>
        requires tables { tables_after self.old.tables event ≡ self.old.tables }
        requires place { event_refusal self.old.topology (table_of self.old) event ≡ place_refusal self.old.topology place }
        ensures said { result ≡ comes self.old event }
        ensures state { self.new ≡ state_by self.old result }
    {
        if let Some(refusal) = self.place_refusal(place) {
            return Err(event_name(refusal));
        }
        self.take(Line::Event(event))
    }

    /// Takes a frame that is forged, of whose payload these are the digits. Refuses `NoLink` and `TooMany`.
    /// Want of memory comes only where nothing is refused, and changes nothing.
    pub(crate) fn take_frame(
        &mut self,
        place: Place,
        channel: Channel,
        digits: &[u8],
    ) -> Result<Line, ReadFault>
        requires { list_all is_ascii_hexdigit digits.now ≡ true }
        ensures { Takes self.old (comes self.old (ForgeComes place channel (paired digits.now))) self.new result }
    {
        if let Some(refusal) = self.place_refusal(place) {
            return Err(ReadFault::Refused(event_name(refusal)));
        }
        if self.is_too_many(0, 0) {
            return Err(ReadFault::Refused(TOO_MANY));
        }
        let payload = octets_of(self.alloc, digits)?;
        self.count(0, 0);
        Ok(Line::Event(Event::Forge {
            place,
            channel,
            payload,
        }))
    }

    /// The routes of a node behind the lines so far.
    fn table(&self, node: NodeId) -> &RouteList
        requires { IsNode self.now.topology node }
        ensures { result.now ≡ table_of self.now node }
    {
        match &self.tables {
            Some(tables) => tables.of(node),
            None => self.topology.route_list(node),
        }
    }

    fn change_refusal(&self, node: NodeId, change: &RouteChange) -> Option<EventRefusal>
        requires { IsNode self.now.topology node }
        ensures { result ≡ route_event_refusal self.now.topology (table_of self.now node) node change.now }
    {
        if let Some(Next::Via(port)) = change.next {
            if !self.is_linked(node, port) {
                return Some(EventRefusal::NoLink);
            }
        }
        self.table(node).change_refusal(change)
    }

    /// Makes a change in the routes of a node. Want of memory changes nothing.
    fn change_table(&mut self, node: NodeId, change: &RouteChange) -> Result<(), OutOfMemory>
        requires node { IsNode self.old.topology node }
        requires can { change_fault (table_of self.old node) change.now ≡ None }
        ensures ok { OnOk result (self.new ≡ record self.old { tables = slice_set self.old.tables (node.0 - 1) (changed (table_of self.old node) change.now) }) }
        ensures err { OnErr result (self.new ≡ self.old) }
    {
        let mut tables = match self.tables.take() {
            Some(tables) => tables,
            None => Tables::opening(self.alloc, &self.topology)?,
        };
        let changed = tables.change(node, change);
        self.tables = Some(tables);
        changed
    }

    /// Takes a change of a route. Refuses `NoLink`, `TableFull` or `NoPrefix`, and `TooMany`. Want of memory
    /// comes only where nothing is refused, and changes nothing.
    pub(crate) fn take_change(
        &mut self,
        node: NodeId,
        change: RouteChange,
    ) -> Result<Line, ReadFault>
        requires { IsNode self.old.topology node }
        ensures { Takes self.old (comes self.old (RouteComes node change)) self.new result }
    {
        if let Some(refusal) = self.change_refusal(node, &change) {
            return Err(ReadFault::Refused(event_name(refusal)));
        }
        if self.is_too_many(0, 0) {
            return Err(ReadFault::Refused(TOO_MANY));
        }
        self.change_table(node, &change)?;
        self.count(0, 0);
        Ok(Line::Event(Event::Route { node, change }))
    }
}
