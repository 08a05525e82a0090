//! The branches of a switch, in arrays by channel.

ghost use Rattle.std.specs.Prelude.{◌≡◌, ◌≤◌, ◌<◌, ◌==◌, ◌+◌, ℕ, length, true, nat_le, All, IfSome, IfNone, IfOk};
ghost use Rattle.std.specs.FinMap as map;
ghost use Rattle.std.specs.List.{list_all, list_any};
ghost use Rattle.crossbar_model.specs.Channels.{IsLinkPort, is_connectable};
ghost use Rattle.crossbar_model.specs.Crossbar.{first_on, output_of, unfinished_after};
ghost use Rattle.fabric.specs.Following.{branch_behind};
ghost use Rattle.fabric.specs.Table.{end_of};

use crate::place::{CHANNELS, COLUMNS, PORTS_OF_LINKS, ROWS, end_of, place_of, places_up_to};
use crate::row::Row;
use atm_cells::Cell;
use crossbar_model::Branch;
use net_types::{CONTROL_PORT, End, OutOfMemory, PortNo};
use std::alloc::Global;
use std::marker::Model;

/// The branches of a switch: a map from inputs, with room for every channel that the switch
/// connects.
#[derive(Debug, Drop)]
pub(crate) struct Branches {
    /// The ports of links.
    ports: Vec<PortNo>,
    /// How many paths the switch connects on each.
    vpis: u8,
    /// The rows in the order of their channels; a row of a port that the switch lacks is empty.
    rows: Vec<Row>,
}

impl Model for Branches {
    ghost use Rattle.std.specs.FinMap as map;
    ghost use Rattle.std.specs.Coded.{codes};
    ghost use Rattle.crossbar_model.specs.Channels.{end_cmp};
    ghost use Rattle.fabric.specs.Table.{Table, IsTable, branches_in};
    ghost use Rattle.net_types.specs.contracts.channel.End as end_contract;
    ghost use Rattle.crossbar_model.specs.contracts.branch.Branch as branch_contract;

    ghost Value = { Table };

    ghost coded = { Prim.hlevel (codes, map.code {R = end_cmp} end_contract.the_row.coded branch_contract.the_row.coded) };

    ghost view = { λ b. record { ports = b.ports.items; vpis = b.vpis; branches = branches_in b.rows.items } };

    ghost invariant = { λ b. IsTable b.ports.items b.vpis b.rows.items };
}

/// Whether a port is one of these.
fn has_port(ports: &[PortNo], number: usize) -> bool
    ensures { result ≡ list_any (λ p. p.0 == number) ports.now }
{
    ports.iter().any(|port| port.0 as usize == number)
}

/// The first row of a port's channels, and the row after the last.
fn rows_of(port: PortNo) -> (usize, usize)
    ensures low { result.1 ≤ 16 }
    ensures order { result.0 ≤ result.1 }
    ensures these { (row column : ℕ) → result.0 ≤ row → row < result.1 → (end_of row column).port ≡ port }
    ensures others { (row column : ℕ) → row < 16 → (end_of row column).port.0 ≡ port.0 → (result.0 ≤ row) × (row < result.1) }
{
    let port = port.0 as usize;
    if port == CONTROL_PORT.0 as usize {
        (0, PORTS_OF_LINKS)
    } else if port <= PORTS_OF_LINKS {
        (PORTS_OF_LINKS + port - 1, PORTS_OF_LINKS + port)
    } else {
        (ROWS, ROWS)
    }
}

impl Branches {
    /// No branch yet.
    pub(crate) fn open(alloc: Global, ports: &[PortNo], vpis: u8) -> Result<Branches, OutOfMemory>
        requires ports { All IsLinkPort ports.now }
        requires vpis { (1 ≤ vpis) × (vpis ≤ 16) }
        ensures { IfOk result (λ b. b ≡ record { ports = ports.now; vpis = vpis; branches = map.empty }) }
    {
        let mut rows = Vec::with_capacity(alloc, ROWS)?;
        for row in 0..ROWS {
            let paths = if has_port(ports, row % PORTS_OF_LINKS + 1) {
                vpis as usize
            } else {
                0
            };
            rows.push(Row::open(alloc, CHANNELS * paths)?)?;
        }
        Ok(Branches {
            ports: ports.to_vec(alloc)?,
            vpis,
            rows,
        })
    }

    /// Whether the switch can connect a channel.
    pub(crate) fn is_connectable(&self, end: End) -> bool
        ensures { result ≡ is_connectable self.now.ports self.now.vpis end }
    {
        crossbar_model::is_connectable(&self.ports, self.vpis, end)
    }

    /// The branch of an input.
    pub(crate) fn get(&self, input: End) -> Option<Branch>
        ensures value { result ≡ map.get self.now.branches input }
        ensures input { IfSome result (λ b. is_connectable self.now.ports self.now.vpis input ≡ true) }
        ensures output { IfSome result (λ b. is_connectable self.now.ports self.now.vpis b.output ≡ true) }
        ensures port { IfSome result (λ b. b.output.port.0 ≤ 8) }
    {
        let rows = &self.rows;
        let place = place_of(input)?;
        rows[place.row].get(place.column)
    }

    /// A cell passes on the branch of an input, if it has one: the answer is where it goes.
    pub(crate) fn pass(&mut self, input: End, cell: &Cell) -> Option<End>
        ensures output { result ≡ output_of self.old.branches input }
        ensures none { IfNone result (self.new ≡ self.old) }
        ensures after { IfSome (map.get self.old.branches input) (λ b. self.new ≡ record self.old { branches = map.insert self.old.branches input (record b { unfinished = unfinished_after cell.now }) }) }
        ensures port { IfSome result (λ output. output.port.0 ≤ 8) }
    {
        let rows = &mut self.rows;
        let place = place_of(input)?;
        rows[place.row].pass(place.column, cell)
    }

    /// Enters the branch of an input, in place of the one that it has.
    pub(crate) fn insert(&mut self, input: End, branch: Branch)
        requires input { is_connectable self.old.ports self.old.vpis input ≡ true }
        requires output { is_connectable self.old.ports self.old.vpis branch.output ≡ true }
        ensures { self.new ≡ record self.old { branches = map.insert self.old.branches input branch } }
    {
        let rows = &mut self.rows;
        let Some(place) = place_of(input) else {
            unreachable!()
        };
        rows[place.row].set(place.column, branch);
    }

    /// Takes the branch of an input away.
    pub(crate) fn remove(&mut self, input: End)
        requires { is_connectable self.old.ports self.old.vpis input ≡ true }
        ensures { self.new ≡ record self.old { branches = map.remove self.old.branches input } }
    {
        let rows = &mut self.rows;
        let Some(place) = place_of(input) else {
            unreachable!()
        };
        rows[place.row].clear(place.column);
    }

    /// The least input of the port that has a branch.
    pub(crate) fn first_on(&self, port: PortNo) -> Option<End>
        ensures first { result ≡ first_on self.now.branches port }
        ensures ports { list_all (λ input. nat_le input.port.0 8) (map.keys self.now.branches) ≡ true }
    {
        let (from, to) = rows_of(port);
        for row in from..to {
            if let Some(column) = self.rows[row].first() {
                return Some(end_of(row, column));
            }
        }
        None
    }

    /// The first input behind another that has a branch, or the first of all, and where its cells go.
    pub(crate) fn first_behind(&self, other: Option<End>) -> Option<(End, End)>
        ensures { result ≡ branch_behind self.now.branches other }
    {
        let place = places_up_to(other);
        let mut from = place % COLUMNS;
        for row in place / COLUMNS..ROWS {
            if let Some((column, branch)) = self.rows[row].first_from(from) {
                return Some((end_of(row, column), branch.output));
            }
            from = 0;
        }
        None
    }

    /// What holds of every table: it has no more branches than columns in all rows.
    pub(crate) fn are_few(&self)
        ensures { length (map.entries self.now.branches) ≤ 254208 }
    {
        let _rows = &self.rows;
    }
}
