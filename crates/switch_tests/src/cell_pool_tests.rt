//! Queues and chains give their cells in order.

use atm_cells::{Cell, Header};
use cell_pool::{CHAIN_CELLS, Chain, ChainStore, Pool, Queue};
use net_types::{Channel, Mark};
use std::test::Fail;

/// A cell whose frame is `frame`.
fn cell(frame: u64) -> Cell {
    Cell {
        header: Header {
            channel: Channel { vpi: 0, vci: 40 },
            last: true,
        },
        payload: [9; 48],
        mark: Mark { packet: 1, frame },
    }
}

#[test]
fn a_queue_gives_its_cells_in_order(rt: HostRuntime) -> Result<(), Fail> {
    let mut pool = Pool::open(rt.alloc(), 2)?;
    let mut queue = Queue::new();
    let Some(slot) = pool.take(&cell(1)) else {
        panic!(rt; "no slot for the first cell")
    };
    queue.push(&mut pool, slot);
    let Some(slot) = pool.take(&cell(2)) else {
        panic!(rt; "no slot for the second cell")
    };
    queue.push(&mut pool, slot);
    assert_eq!(rt; (pool.free(), queue.len()), (0, 2));
    let Some(slot) = queue.pop(&mut pool) else {
        panic!(rt; "the first cell isn't there")
    };
    assert_eq!(rt; pool.read(&slot).mark.frame, 1);
    pool.put(slot);
    assert!(rt; !queue.is_empty());
    queue.drain(&mut pool);
    assert_eq!(rt; pool.free(), 2);
    Ok(())
}

/// Two chains of one region of 64 slots, filled in turn, one cell each.
#[test]
fn two_chains_share_a_region(rt: HostRuntime) -> Result<(), Fail> {
    let mut pool = Pool::open(rt.alloc(), 64)?;
    let mut odd = Chain::new();
    let mut even = Chain::new();
    for k in 0..CHAIN_CELLS as u64 {
        assert!(rt; pool.chain_push(&mut odd, &cell(2 * k + 1)));
        assert!(rt; pool.chain_push(&mut even, &cell(2 * k + 2)));
    }
    assert_eq!(rt; (odd.len(), even.len(), pool.free()), (32, 32, 0));
    for k in 0..CHAIN_CELLS as u64 {
        let Some(first) = pool.chain_pop(&mut odd) else {
            panic!(rt; "a cell of the first chain is lost")
        };
        assert_eq!(rt; first.mark.frame, 2 * k + 1);
        let Some(first) = pool.chain_pop(&mut even) else {
            panic!(rt; "a cell of the second chain is lost")
        };
        assert_eq!(rt; first.mark.frame, 2 * k + 2);
    }
    odd.drain(&mut pool);
    even.drain(&mut pool);
    assert_eq!(rt; pool.free(), 64);
    Ok(())
}

#[test]
fn a_chain_is_small(rt: HostRuntime) {
    assert!(rt; std::mem::size_of::<Chain>() <= 48);
}
