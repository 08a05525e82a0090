//! The cells of a chain, taken out.

ghost use Rattle.std.specs.Prelude.{◌≡◌, length};
ghost use Rattle.cell_pool.specs.Region.{cells_of, len_of, IsLine};
ghost use Rattle.cell_pool.specs.Shares.{IsApartFromEach, ChangesBeside};

use atm_cells::Cell;
use cell_pool::{Chain, ChainStore};

/// Takes all cells of a chain, the first one first, to `out`, which has room for just these; the
/// chain's slots are free again.
pub(crate) fn take_all<S: ChainStore>(store: &mut S, chain: &mut Chain, out: &mut [Cell])
    requires threaded { IsLine (S.region store.old) chain.old }
    requires apart { IsApartFromEach (S.region store.old) (S.lines store.old) chain.old }
    requires room { length out.old ≡ len_of chain.old }
    ensures taken { out.new ≡ cells_of (S.region store.old) chain.old }
    ensures left { len_of chain.new ≡ 0 }
    ensures chain { ChangesBeside (S.region store.old) (S.region store.new) (S.lines store.old) chain.old chain.new }
    ensures lines { S.lines store.new ≡ S.lines store.old }
    ensures rest { S.rest store.new ≡ S.rest store.old }
{
    for place in 0..out.len() {
        let Some(cell) = store.chain_pop(chain) else {
            unreachable!()
        };
        out[place] = cell;
    }
}
