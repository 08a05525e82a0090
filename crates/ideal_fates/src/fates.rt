//! The fates of a script's packets, one line after another.

ghost use Rattle.std.specs.Prelude.{◌≡◌, ◌++◌, ◌<◌, ◌+◌, [], ◌∷◌, None, IfOk, OnOk, decimal, length};
ghost use Rattle.ipv4_forward.specs.Change.{change_fault};
ghost use Rattle.script_model.specs.Limits.{greatest_event_lines};
ghost use Rattle.script_model.specs.Reports.{record_lines};
ghost use Rattle.script_model.specs.State.{table_among};
ghost use Rattle.world_model.specs.Conditions.{IsNode, IsTopology};
ghost use Rattle.world_model.specs.network_model.declared.event.Event.TheVariants.{Route as RouteComes};
ghost use Rattle.ideal_fates.specs.Told.{nothing_told, tables_under, opened_for, counted, after_event, after_line, sent_record, records_of, end_of, HasTables, FitsLine};

mod lines;

use crate::packet::packet_record;
use crate::tables::Tables;
use ipv4_forward::RouteChange;
use lab_text::Text;
pub use lines::{Reported, ideal};
use link_model::Record;
use net_types::{NodeId, Octets, OutOfMemory};
use record_text::write_record;
use script_model::Line;
use std::alloc::Global;
use std::marker::Model;
use topology::Topology;
use world_model::Event;

/// The routing tables of all nodes, as the route lines so far set them, and counters of the packets
/// with each final disposition (fate). This project's own.
#[derive(Drop)]
pub struct Fates {
    alloc: Global,
    // none until an event needs them; so long each node has the routes of the topology
    tables: Option<Tables>,
    sent: u32,
    delivered: u32,
    dropped: u32,
    refused: u32,
}

impl Model for Fates {
    ghost use Rattle.std.specs.Prelude.{◌≤◌};
    ghost use Rattle.ideal_fates.specs.Told.{Told};

    ghost Value = { Told };

    ghost view = { λ f. record { tables = f.tables; sent = f.sent; delivered = f.delivered; dropped = f.dropped; refused = f.refused } };

    ghost invariant = { λ f. (f.delivered ≤ f.sent) × (f.dropped ≤ f.sent) × (f.refused ≤ f.sent) };
}

/// The tables, which are those of the topology's lines where no event needed them yet.
fn opened(alloc: Global, topology: &Topology, tables: Option<Tables>) -> Result<Tables, OutOfMemory>
    ensures { IfOk result (λ opened. opened ≡ tables_under topology.now tables) }
{
    match tables {
        Some(tables) => Ok(tables),
        None => Tables::opening(alloc, topology),
    }
}

impl Fates {
    /// No packet is sent yet.
    pub fn new(alloc: Global) -> Fates
        ensures { result ≡ nothing_told }
    {
        Fates {
            alloc,
            tables: None,
            sent: 0,
            delivered: 0,
            dropped: 0,
            refused: 0,
        }
    }

    /// A packet's record counts.
    fn count(&mut self, item: &Record)
        requires { self.old.sent < greatest_event_lines }
        ensures { self.new ≡ counted self.old item.now }
    {
        self.sent += 1;
        match item {
            Record::Delivered { .. } => self.delivered += 1,
            Record::Dropped { .. } => self.dropped += 1,
            Record::Refused { .. } => self.refused += 1,
            Record::Loss { .. }
            | Record::Chance { .. }
            | Record::Bad { .. }
            | Record::Opened { .. }
            | Record::Closed { .. }
            | Record::Bind { .. }
            | Record::Free { .. }
            | Record::Join { .. }
            | Record::Part { .. }
            | Record::Forged { .. }
            | Record::Routes { .. } => {}
        }
    }

    /// A node is given a packet to send: its fate is written.
    fn send(
        &mut self,
        topology: &Topology,
        node: NodeId,
        octets: Octets,
        out: &mut Text,
    ) -> Result<(), OutOfMemory>
        requires topology { IsTopology topology.now }
        requires fits { HasTables topology.now self.old }
        requires node { IsNode topology.now node }
        requires room { self.old.sent < greatest_event_lines }
        ensures told { OnOk result (self.new ≡ counted (opened_for topology.now self.old) (sent_record topology.now self.old node octets)) }
        ensures written { OnOk result (out.new ≡ out.old ++ record_lines topology.now (sent_record topology.now self.old node octets ∷ [])) }
    {
        let tables = opened(self.alloc, topology, self.tables.take())?;
        let item = packet_record(topology, &tables, self.sent + 1, node, octets);
        self.tables = Some(tables);
        self.count(&item);
        write_record(&item, topology, out)
    }

    /// A route of a node is changed, at once.
    fn change(
        &mut self,
        topology: &Topology,
        node: NodeId,
        change: &RouteChange,
    ) -> Result<(), OutOfMemory>
        requires fits { HasTables topology.now self.old }
        requires node { IsNode topology.now node }
        requires can { change_fault (table_among (tables_under topology.now self.old.tables) node) change.now ≡ None }
        ensures { OnOk result (self.new ≡ after_event topology.now self.old (RouteComes node change.now)) }
    {
        let mut tables = opened(self.alloc, topology, self.tables.take())?;
        tables.change(node, change);
        self.tables = Some(tables);
        Ok(())
    }

    /// Takes a line of a script that was read behind the lines before it, whose topology this is: the
    /// fate of a packet that is sent is written as its line, a change of a route is made at once, and all
    /// else has no effect. After want of memory all can only be given up.
    pub fn take(
        &mut self,
        topology: &Topology,
        line: Line,
        out: &mut Text,
    ) -> Result<(), OutOfMemory>
        requires topology { IsTopology topology.now }
        requires fits { HasTables topology.now self.old }
        requires line { FitsLine topology.now self.old line }
        ensures told { OnOk result (self.new ≡ after_line topology.now self.old line) }
        ensures written { OnOk result (out.new ≡ out.old ++ record_lines topology.now (records_of topology.now self.old line)) }
    {
        match line {
            Line::Event(Event::Inject { node, octets }) => self.send(topology, node, octets, out),
            Line::Event(Event::Route { node, change }) => self.change(topology, node, &change),
            Line::Event(
                Event::Carry(_)
                | Event::Lose(_)
                | Event::Tick(_)
                | Event::TickSwitch(_)
                | Event::Restart(_)
                | Event::RestartSwitch(_)
                | Event::Forge { .. },
            )
            | Line::Blank
            | Line::Topology(_)
            | Line::TickAll
            | Line::Run(_) => Ok(()),
        }
    }

    /// Writes the last line of a script that was read to its end: how many packets were sent, delivered,
    /// dropped and refused.
    pub fn write_end(&self, out: &mut Text) -> Result<(), OutOfMemory>
        ensures { OnOk result (out.new ≡ out.old ++ end_of self.now.sent self.now.delivered self.now.dropped self.now.refused) }
    {
        write_count(out, "end sent ", self.sent)?;
        write_count(out, " delivered ", self.delivered)?;
        write_count(out, " dropped ", self.dropped)?;
        write_count(out, " refused ", self.refused)?;
        out.text("\n")
    }
}

fn write_count(out: &mut Text, words: &str, count: u32) -> Result<(), OutOfMemory>
    ensures { OnOk result (out.new ≡ out.old ++ (words.now ++ decimal count)) }
{
    out.text(words)?;
    out.number(u64::from(count))
}
