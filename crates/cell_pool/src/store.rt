//! A region of slots, alone or with what else lives in it, for those who keep chains in it.

ghost use Rattle.std.specs.Prelude.{◌≡◌, ◌∷◌, ◌++◌, [], ◌<◌, ◌↔◌, List, length, IsTrue, IsNone, IfNone, IfSome};
ghost use Rattle.std.specs.Bool.{OnTrue, OnFalse};
ghost use Rattle.cell_pool.specs.Region.{Region, Line, cells_of, len_of, IsLine};
ghost use Rattle.cell_pool.specs.Steps.{IsDrained};
ghost use Rattle.cell_pool.specs.Shares.{IsApartFromEach, ChangesBeside};

use crate::chain::Chain;
use crate::pool::Pool;
use atm_cells::Cell;

/// A store of cell buffers (a region of slots) in which others keep chains: a [`Pool`], or one with
/// lists of slots of its own in it. A chain of the region that shares no slot with those lists can
/// grow and shrink there; all else that the store holds stays as it was.
pub trait ChainStore {
    /// The region.
    ghost region: { Self → Region };

    /// The lists of slots of the store's own.
    ghost lines: { Self → List Line };

    /// What else a store is seen as.
    ghost Rest: { Type 0 };

    ghost rest: { Self → Rest };

    /// How many slots are free.
    fn free(&self) -> usize
        ensures { result ≡ length (region self.now).free };

    /// Puts the cell at the end of a chain of fewer than 32 cells. False exactly where no slot is
    /// free; then nothing changes.
    fn chain_push(&mut self, chain: &mut Chain, cell: &Cell) -> bool
        requires threaded { IsLine (region self.old) chain.old }
        requires apart { IsApartFromEach (region self.old) (lines self.old) chain.old }
        requires room { len_of chain.old < 32 }
        ensures full { IsTrue result ↔ (0 < length (region self.old).free) }
        ensures pushed { OnTrue result (cells_of (region self.new) chain.new ≡ cells_of (region self.old) chain.old ++ cell.now ∷ []) }
        ensures none { OnFalse result ((self.new ≡ self.old) × (chain.new ≡ chain.old)) }
        ensures chain { ChangesBeside (region self.old) (region self.new) (lines self.old) chain.old chain.new }
        ensures lines { lines self.new ≡ lines self.old }
        ensures rest { rest self.new ≡ rest self.old };

    /// Takes the first cell of a chain and gives its slot back. None exactly where the chain is
    /// empty; then nothing changes.
    fn chain_pop(&mut self, chain: &mut Chain) -> Option<Cell>
        requires threaded { IsLine (region self.old) chain.old }
        requires apart { IsApartFromEach (region self.old) (lines self.old) chain.old }
        ensures none { IsNone result ↔ (len_of chain.old ≡ 0) }
        ensures none_same { IfNone result ((self.new ≡ self.old) × (chain.new ≡ chain.old)) }
        ensures popped { IfSome result (λ cell. cells_of (region self.old) chain.old ≡ cell ∷ cells_of (region self.new) chain.new) }
        ensures chain { ChangesBeside (region self.old) (region self.new) (lines self.old) chain.old chain.new }
        ensures lines { lines self.new ≡ lines self.old }
        ensures rest { rest self.new ≡ rest self.old };

    /// Gives all slots of a chain back.
    fn chain_drain(&mut self, chain: Chain)
        requires threaded { IsLine (region self.old) chain }
        requires apart { IsApartFromEach (region self.old) (lines self.old) chain }
        ensures drained { IsDrained (region self.old) (region self.new) chain }
        ensures lines { lines self.new ≡ lines self.old }
        ensures rest { rest self.new ≡ rest self.old };
}

impl ChainStore for Pool {
    ghost region = { λ pool. pool };

    ghost lines = { λ _. [] };

    ghost Rest = { Unit {0} };

    ghost rest = { λ _. tt };

    fn free(&self) -> usize {
        Pool::free(self)
    }

    fn chain_push(&mut self, chain: &mut Chain, cell: &Cell) -> bool {
        let Some(slot) = self.take(cell) else {
            return false;
        };
        chain.push(self, slot);
        true
    }

    fn chain_pop(&mut self, chain: &mut Chain) -> Option<Cell> {
        let slot = chain.pop(self)?;
        let cell = self.read(&slot);
        self.put(slot);
        Some(cell)
    }

    fn chain_drain(&mut self, chain: Chain) {
        chain.drain(self);
    }
}
