//! Chains in the region of a fabric.

use crate::fabric::Fabric;
use atm_cells::Cell;
use cell_pool::{Chain, ChainStore};

impl ChainStore for Fabric {
    ghost use Rattle.fabric.specs.Fabric.{Besides, besides};

    ghost region = { λ f. f.region };

    ghost lines = { λ f. f.lines };

    ghost Rest = { Besides };

    ghost rest = { besides };

    fn free(&self) -> usize {
        Fabric::free(self)
    }

    fn chain_push(&mut self, chain: &mut Chain, cell: &Cell) -> bool {
        Fabric::chain_push(self, chain, cell)
    }

    fn chain_pop(&mut self, chain: &mut Chain) -> Option<Cell> {
        Fabric::chain_pop(self, chain)
    }

    fn chain_drain(&mut self, chain: Chain) {
        Fabric::chain_drain(self, chain);
    }
}
