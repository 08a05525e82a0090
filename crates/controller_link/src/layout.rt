//! Where the reassembly of each channel of the control link stands.

ghost use Rattle.std.specs.Prelude.{◌≡◌, ◌<◌, ◌≤◌, ◌+◌, ◌^◌, All, map, true, IfOk, Some, is_some};
ghost use Rattle.crossbar_model.specs.Channels.{ArePorts};
ghost use Rattle.controller_link.specs.Cells.{IsRange, is_channel, range_at};
ghost use Rattle.controller_link.specs.Layout.{count_of, first_of, place_of, width};

use crate::taker::Taker;
use net_types::{CONTROL_PORT, OutOfMemory, PORTS, PortNo};
use std::alloc::Global;
use std::marker::Model;
use world_model::PortRange;

/// A port with the range of its labels, and the index of its default channel, behind which those of
/// its labels stand, ascending.
#[derive(Clone, Copy, Debug)]
pub(crate) struct Block {
    range: PortRange,
    first: usize,
}

/// What stands for a port that isn't linked.
const NO_BLOCK: Block = Block {
    range: PortRange {
        port: CONTROL_PORT,
        lo: 0,
        hi: 0,
    },
    first: 0,
};

/// The index of each channel among all of them: first GSMP's, and then those of each linked port.
#[derive(Debug, Drop)]
pub(crate) struct Layout {
    ports: Vec<PortRange>,
    /// The block of each linked port, by the port's number.
    blocks: [Block; PORTS],
    count: usize,
}

impl Model for Layout {
    ghost use Rattle.std.specs.Prelude.{List};
    ghost use Rattle.world_model.specs.controller_model.declared.range.PortRange.{PortRange};
    ghost use Rattle.controller_link.specs.Layout.{AreBlocks};

    ghost Value = { List PortRange };

    ghost view = { λ l. l.ports.items };

    ghost invariant = { λ l. AreBlocks l.ports.items l.blocks l.count };
}

/// How many channels a port has: its default one, and one for each label.
fn width(range: PortRange) -> usize
    requires { IsRange range }
    ensures width { result ≡ width range }
    ensures most { result ≤ 65537 }
{
    (range.hi - range.lo) as usize + 2
}

impl Layout {
    /// The layout of these ports.
    pub(crate) fn open(alloc: Global, ports: &[PortRange]) -> Result<Layout, OutOfMemory>
        requires ports { ArePorts (map (λ r. r.port) ports.now) }
        requires ranges { All IsRange ports.now }
        ensures { IfOk result (λ layout. layout ≡ ports.now) }
    {
        let mut kept = Vec::with_capacity(alloc, ports.len())?;
        let mut blocks = [NO_BLOCK; PORTS];
        let mut count = 1;
        for range in ports {
            kept.push(*range)?;
            blocks[range.port.0 as usize] = Block {
                range: *range,
                first: count,
            };
            count += width(*range);
        }
        Ok(Layout {
            ports: kept,
            blocks,
            count,
        })
    }

    /// The ports with their ranges.
    pub(crate) fn ports(&self) -> &[PortRange]
        ensures { result.now ≡ self.now }
    {
        &self.ports
    }

    /// How many channels there are.
    pub(crate) fn count(&self) -> usize
        ensures { result ≡ count_of self.now }
    {
        self.count
    }

    /// The block of a port.
    fn block_of(&self, port: PortNo) -> Block
        requires { is_some (range_at self.now port) ≡ true }
        ensures range { range_at self.now port ≡ Some result.range }
        ensures first { result.first ≡ first_of self.now port }
        ensures within { result.first + width result.range ≤ count_of self.now }
        ensures bound { count_of self.now < 2 ^ 64 }
    {
        self.blocks[port.0 as usize]
    }

    /// The index of a channel.
    pub(crate) fn place_of(&self, taker: Taker) -> usize
        requires { is_channel self.now taker ≡ true }
        ensures place { result ≡ place_of self.now taker }
        ensures within { result < count_of self.now }
    {
        match taker {
            Taker::Gsmp => 0,
            Taker::Default(port) => self.block_of(port).first,
            Taker::Label(port, number) => {
                let block = self.block_of(port);
                block.first + 1 + (number - block.range.lo) as usize
            }
        }
    }
}
