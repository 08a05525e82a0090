//! Cells that become frames, and cells that don't.

use crate::entries::are_entries;
use aal5_frames::segment;
use atm_cells::{Cell, Header};
use cell_pool::Pool;
use link_model::{Cause, Notes};
use net_types::{Channel, Mark, OutOfMemory};
use reassembly::Reassembly;
use std::alloc::Global;
use std::marker::Model;
use std::test::Fail;

/// The channel that the cells come on.
const CHANNEL: Channel = Channel { vpi: 0, vci: 15 };

/// The mark of the k-th frame.
fn mark(k: u64) -> Mark {
    Mark {
        packet: 1,
        frame: k,
    }
}

/// A cell of the k-th frame that holds no good frame.
fn cell(k: u64, last: bool) -> Cell {
    Cell {
        header: Header {
            channel: CHANNEL,
            last,
        },
        payload: [9; 48],
        mark: mark(k),
    }
}

/// A channel, and the region and the notes that it works on. It must be closed.
#[must_use]
struct Bench {
    pool: Pool,
    notes: Notes,
    channel: Reassembly,
    octets: [u8; 1536],
}

impl Model for Bench {
    ghost use Rattle.cell_pool.specs.Region.{IsLine};

    ghost Value = { Unit {0} };

    ghost view = { λ _. tt };

    ghost invariant = { λ b. IsLine b.pool b.channel.chain };
}

impl Bench {
    /// A new channel with so many slots.
    fn open(alloc: Global, slots: usize) -> Result<Bench, OutOfMemory> {
        Ok(Bench {
            pool: Pool::open(alloc, slots)?,
            notes: Notes::open(alloc)?,
            channel: Reassembly::new(),
            octets: [0; 1536],
        })
    }

    /// Whether the cell ends a frame of that length, or none. False for want of memory.
    fn ends(&mut self, cell: &Cell, length: Option<usize>) -> bool {
        match self
            .channel
            .receive(&mut self.pool, cell, &mut self.notes, &mut self.octets)
        {
            Ok(taken) => taken == length,
            Err(_) => false,
        }
    }

    /// How many slots are free.
    fn free(&self) -> usize {
        self.pool.free()
    }

    /// Gives up the channel.
    fn close(self) {
        let Bench {
            mut pool,
            notes: _,
            channel,
            octets: _,
        } = self;
        channel.abandon(&mut pool);
    }
}

/// The cells of the frame 1 of 41 octets 0x45.
fn good_frame() -> [Cell; 2] {
    let mut cells = [cell(1, false); 2];
    segment(&[0x45; 41], CHANNEL, mark(1), &mut cells);
    cells
}

/// A good frame of two cells among two slots, and a last cell that ends no good one.
#[test]
fn a_last_cell_ends_a_frame(rt: HostRuntime) -> Result<(), Fail> {
    let mut bench = Bench::open(rt.alloc(), 2)?;
    assert!(rt; bench.notes.made(mark(1), &[0x45; 41]).is_ok());
    let [first, second] = good_frame();
    assert!(rt; bench.ends(&first, None));
    assert!(rt; bench.ends(&second, Some(41)));
    assert_eq!(rt; (bench.octets[0], bench.octets[40]), (0x45, 0x45));
    assert!(rt; bench.ends(&cell(2, true), None));
    assert!(rt; are_entries(&bench.notes, &[(2, Cause::Broken)]));
    assert_eq!(rt; bench.free(), 2);
    bench.close();
    Ok(())
}

/// Cells to a channel with one slot, by frame and whether it is a last one, and how many slots are free then.
const CELLS: [(u64, bool, usize); 4] = [
    // The second finds no slot, and the channel skips up to the third.
    (1, false, 0),
    (2, false, 1),
    (3, true, 1),
    (4, false, 0),
];

/// What is entered, also by a cut.
const ENTERED: [(u64, Cause); 4] = [
    (2, Cause::PoolFull),
    (1, Cause::Broken),
    (3, Cause::Broken),
    (4, Cause::Cut),
];

#[test]
fn a_channel_without_a_slot_skips(rt: HostRuntime) -> Result<(), Fail> {
    let mut bench = Bench::open(rt.alloc(), 1)?;
    for &(k, last, free) in &CELLS {
        assert!(rt; bench.ends(&cell(k, last), None));
        assert_eq!(rt; bench.free(), free);
    }
    let cut = bench.channel.cut(&mut bench.pool, &mut bench.notes);
    assert!(rt; cut.is_ok());
    assert!(rt; are_entries(&bench.notes, &ENTERED));
    assert_eq!(rt; bench.free(), 1);
    bench.close();
    Ok(())
}

/// 33 cells of which none is a last one.
#[test]
fn a_chain_has_32_cells_at_most(rt: HostRuntime) -> Result<(), Fail> {
    let mut bench = Bench::open(rt.alloc(), 40)?;
    for k in 0..33 {
        assert_eq!(rt; (bench.free(), bench.notes.len()), (40 - k, 0));
        assert!(rt; bench.ends(&cell(1, false), None));
    }
    assert_eq!(rt; bench.free(), 40);
    assert!(rt; are_entries(&bench.notes, &[(1, Cause::Broken)]));
    bench.close();
    Ok(())
}
