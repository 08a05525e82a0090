//! The reassembly of one channel.

ghost use Rattle.std.specs.Prelude.{◌≡◌, ◌∷◌, ◌++◌, [], ◌<◌, ◌≤◌, false, not, nat_lt, length, take, OnOk, IfOk, IfSome};
ghost use Rattle.std.specs.Option.{option_map};
ghost use Rattle.cell_pool.specs.Region.{Region, cells_of, len_of, IsLine};
ghost use Rattle.cell_pool.specs.Steps.{IsDrained};
ghost use Rattle.cell_pool.specs.Shares.{IsApartFromEach, ChangesBeside};
ghost use Rattle.frame_model.specs.Reassembly.{cut, cell_joined, nothing_taken};
ghost use Rattle.frame_model.specs.Frame.{tested};
ghost use Rattle.reassembly.specs.Receipt.{reassembly_in, received, received_by, refused};

use crate::chain::take_all;
use aal5_frames::FEW_CELLS;
use atm_cells::{BLANK_CELL, Cell};
use cell_pool::{CHAIN_CELLS, Chain, ChainStore};
use frame_model::{note_broken, note_cut_chain, test_frame};
use link_model::{Cause, Notes, Record};
use net_types::OutOfMemory;
use std::marker::Model;

/// The reassembly of one virtual channel's cells into a frame (I.363.5 9.2): those since its last
/// end, in a chain of a region that somebody else holds; or a channel that skips. It must be
/// abandoned.
///
/// Its conditions: the chain is a list of slots of the store's region (`threaded`) and shares no
/// slot with the store's own lists (`apart`). Each call keeps both, and leaves all else that the
/// store holds, and every other chain of the region, as they were (`chain`, `lines`, `rest`), also
/// where memory is wanting: it can then be abandoned.
#[must_use]
#[derive(Debug)]
pub struct Reassembly {
    chain: Chain,
    is_skipping: bool,
}

impl Model for Reassembly {
    ghost use Rattle.reassembly.specs.Receipt.{Gathering};

    ghost Value = { Gathering };

    ghost view = { λ r. record { chain = r.chain; is_skipping = r.is_skipping } };
}

impl Reassembly {
    /// Nothing taken yet. Its chain is one of any region.
    pub fn new() -> Reassembly
        ensures empty { len_of result.chain ≡ 0 }
        ensures threaded { (region : Region) → IsLine region result.chain }
        ensures nothing { (region : Region) → reassembly_in region result ≡ nothing_taken }
    {
        Reassembly {
            chain: Chain::new(),
            is_skipping: false,
        }
    }

    /// Empties the chain, and skips up to and with the next last cell, of which this may be one. The
    /// cells stand at the front of `out`, and the answer is how many there were.
    fn skip_from<S: ChainStore>(&mut self, store: &mut S, cell: &Cell, out: &mut [Cell]) -> usize
        requires threaded { IsLine (S.region store.old) self.old.chain }
        requires apart { IsApartFromEach (S.region store.old) (S.lines store.old) self.old.chain }
        requires room { 32 ≤ length out.old }
        ensures taken { take result out.new ≡ cells_of (S.region store.old) self.old.chain }
        ensures len { result ≤ 32 }
        ensures room { length out.new ≡ length out.old }
        ensures reassembly { reassembly_in (S.region store.new) self.new ≡ record { chain = []; is_skipping = not cell.now.header.last } }
        ensures chain { ChangesBeside (S.region store.old) (S.region store.new) (S.lines store.old) self.old.chain self.new.chain }
        ensures lines { S.lines store.new ≡ S.lines store.old }
        ensures rest { S.rest store.new ≡ S.rest store.old }
    {
        self.is_skipping = !cell.header.last;
        let count = self.chain.len();
        take_all(store, &mut self.chain, &mut out[..count]);
        count
    }

    /// The cell can't join the chain: no slot is free for it, or the chain has 32 cells and none is a
    /// last one.
    fn refuse<S: ChainStore>(
        &mut self,
        store: &mut S,
        cell: &Cell,
        has_slot: bool,
        notes: &mut Notes,
    ) -> Result<(), OutOfMemory>
        requires threaded { IsLine (S.region store.old) self.old.chain }
        requires apart { IsApartFromEach (S.region store.old) (S.lines store.old) self.old.chain }
        ensures reassembly { reassembly_in (S.region store.new) self.new ≡ (refused notes.old has_slot (reassembly_in (S.region store.old) self.old) cell.now).reassembly }
        ensures notes { OnOk result (notes.new ≡ (refused notes.old has_slot (reassembly_in (S.region store.old) self.old) cell.now).notes) }
        ensures chain { ChangesBeside (S.region store.old) (S.region store.new) (S.lines store.old) self.old.chain self.new.chain }
        ensures lines { S.lines store.new ≡ S.lines store.old }
        ensures rest { S.rest store.new ≡ S.rest store.old }
    {
        let mut cells = [BLANK_CELL; CHAIN_CELLS + 1];
        let count = self.skip_from(store, cell, &mut cells);
        if has_slot {
            cells[count] = *cell;
            return note_broken(notes, &cells[..count + 1]);
        }
        notes.push(Record::Loss {
            mark: cell.mark,
            cause: Cause::PoolFull,
        })?;
        note_broken(notes, &cells[..count])
    }

    /// Tests the cells of the chain, which are taken out to `cells`, where there is room for just these.
    fn test_cells<S: ChainStore>(
        &mut self,
        store: &mut S,
        cells: &mut [Cell],
        notes: &mut Notes,
        octets: &mut [u8],
    ) -> Result<Option<usize>, OutOfMemory>
        requires threaded { IsLine (S.region store.old) self.old.chain }
        requires apart { IsApartFromEach (S.region store.old) (S.lines store.old) self.old.chain }
        requires cells { length cells.old ≡ len_of self.old.chain }
        requires some { (1 ≤ length cells.old) × (length cells.old ≤ 32) }
        requires room { 1536 ≤ length octets.old }
        ensures reassembly { reassembly_in (S.region store.new) self.new ≡ record (reassembly_in (S.region store.old) self.old) { chain = [] } }
        ensures notes { OnOk result (notes.new ≡ (tested notes.old (cells_of (S.region store.old) self.old.chain)).notes) }
        ensures payload { IfOk result (λ len. option_map (λ n. take n octets.new) len ≡ (tested notes.old (cells_of (S.region store.old) self.old.chain)).payload) }
        ensures len { IfOk result (λ len. IfSome len (λ n. n ≤ 1528)) }
        ensures chain { ChangesBeside (S.region store.old) (S.region store.new) (S.lines store.old) self.old.chain self.new.chain }
        ensures lines { S.lines store.new ≡ S.lines store.old }
        ensures rest { S.rest store.new ≡ S.rest store.old }
    {
        take_all(store, &mut self.chain, cells);
        test_frame(notes, cells, octets)
    }

    /// The chain ends with a last cell: it is tested, and its slots are free again.
    fn end_frame<S: ChainStore>(
        &mut self,
        store: &mut S,
        notes: &mut Notes,
        octets: &mut [u8],
    ) -> Result<Option<usize>, OutOfMemory>
        requires threaded { IsLine (S.region store.old) self.old.chain }
        requires apart { IsApartFromEach (S.region store.old) (S.lines store.old) self.old.chain }
        requires some { 1 ≤ len_of self.old.chain }
        requires room { 1536 ≤ length octets.old }
        ensures reassembly { reassembly_in (S.region store.new) self.new ≡ record (reassembly_in (S.region store.old) self.old) { chain = [] } }
        ensures notes { OnOk result (notes.new ≡ (tested notes.old (cells_of (S.region store.old) self.old.chain)).notes) }
        ensures payload { IfOk result (λ len. option_map (λ n. take n octets.new) len ≡ (tested notes.old (cells_of (S.region store.old) self.old.chain)).payload) }
        ensures len { IfOk result (λ len. IfSome len (λ n. n ≤ 1528)) }
        ensures chain { ChangesBeside (S.region store.old) (S.region store.new) (S.lines store.old) self.old.chain self.new.chain }
        ensures lines { S.lines store.new ≡ S.lines store.old }
        ensures rest { S.rest store.new ≡ S.rest store.old }
    {
        let count = self.chain.len();
        if count <= FEW_CELLS {
            let mut cells = [BLANK_CELL; FEW_CELLS];
            self.test_cells(store, &mut cells[..count], notes, octets)
        } else {
            let mut cells = [BLANK_CELL; CHAIN_CELLS];
            self.test_cells(store, &mut cells[..count], notes, octets)
        }
    }

    /// The cell joins the chain; a last one ends it.
    fn join<S: ChainStore>(
        &mut self,
        store: &mut S,
        cell: &Cell,
        notes: &mut Notes,
        octets: &mut [u8],
    ) -> Result<Option<usize>, OutOfMemory>
        requires threaded { IsLine (S.region store.old) self.old.chain }
        requires apart { IsApartFromEach (S.region store.old) (S.lines store.old) self.old.chain }
        requires short { len_of self.old.chain < 32 }
        requires slot { 0 < length (S.region store.old).free }
        requires room { 1536 ≤ length octets.old }
        ensures reassembly { reassembly_in (S.region store.new) self.new ≡ (cell_joined notes.old (reassembly_in (S.region store.old) self.old) cell.now).reassembly }
        ensures notes { OnOk result (notes.new ≡ (received_by (cell_joined notes.old (reassembly_in (S.region store.old) self.old) cell.now)).notes) }
        ensures payload { IfOk result (λ len. option_map (λ n. take n octets.new) len ≡ (received_by (cell_joined notes.old (reassembly_in (S.region store.old) self.old) cell.now)).payload) }
        ensures len { IfOk result (λ len. IfSome len (λ n. n ≤ 1528)) }
        ensures chain { ChangesBeside (S.region store.old) (S.region store.new) (S.lines store.old) self.old.chain self.new.chain }
        ensures lines { S.lines store.new ≡ S.lines store.old }
        ensures rest { S.rest store.new ≡ S.rest store.old }
    {
        store.chain_push(&mut self.chain, cell);
        if !cell.header.last {
            return Ok(None);
        }
        self.end_frame(store, notes, octets)
    }

    /// Takes a cell of the channel. Where it is a last one that ends a chain, the chain is tested: the
    /// answer is then the length in octets of the payload of a frame that passed, which stands at the
    /// front of `octets`. All slots of a tested chain are free again. `octets` is a buffer of at least
    /// 1,536 octets; what stands in it otherwise has no meaning.
    ///
    /// The reassembly and the notes are those of the definition (`frame_model`'s `taken`, and then
    /// `tested`).
    pub fn receive<S: ChainStore>(
        &mut self,
        store: &mut S,
        cell: &Cell,
        notes: &mut Notes,
        octets: &mut [u8],
    ) -> Result<Option<usize>, OutOfMemory>
        requires threaded { IsLine (S.region store.old) self.old.chain }
        requires apart { IsApartFromEach (S.region store.old) (S.lines store.old) self.old.chain }
        requires room { 1536 ≤ length octets.old }
        ensures reassembly { OnOk result (reassembly_in (S.region store.new) self.new ≡ (received notes.old (nat_lt 0 (length (S.region store.old).free)) (reassembly_in (S.region store.old) self.old) cell.now).reassembly) }
        ensures notes { OnOk result (notes.new ≡ (received notes.old (nat_lt 0 (length (S.region store.old).free)) (reassembly_in (S.region store.old) self.old) cell.now).notes) }
        ensures payload { IfOk result (λ len. option_map (λ n. take n octets.new) len ≡ (received notes.old (nat_lt 0 (length (S.region store.old).free)) (reassembly_in (S.region store.old) self.old) cell.now).payload) }
        ensures len { IfOk result (λ len. IfSome len (λ n. n ≤ 1528)) }
        ensures chain { ChangesBeside (S.region store.old) (S.region store.new) (S.lines store.old) self.old.chain self.new.chain }
        ensures lines { S.lines store.new ≡ S.lines store.old }
        ensures rest { S.rest store.new ≡ S.rest store.old }
    {
        if self.is_skipping {
            self.is_skipping = !cell.header.last;
            note_broken(notes, &[*cell])?;
            return Ok(None);
        }
        if store.free() == 0 {
            self.refuse(store, cell, false, notes)?;
            return Ok(None);
        }
        if self.chain.len() == CHAIN_CELLS {
            self.refuse(store, cell, true, notes)?;
            return Ok(None);
        }
        self.join(store, cell, notes, octets)
    }

    /// Cuts the channel: each mark of its chain gets Cut, once, and its chain and a skipping end. All
    /// its slots are free again.
    pub fn cut<S: ChainStore>(
        &mut self,
        store: &mut S,
        notes: &mut Notes,
    ) -> Result<(), OutOfMemory>
        requires threaded { IsLine (S.region store.old) self.old.chain }
        requires apart { IsApartFromEach (S.region store.old) (S.lines store.old) self.old.chain }
        ensures reassembly { reassembly_in (S.region store.new) self.new ≡ nothing_taken }
        ensures notes { OnOk result (notes.new ≡ cut notes.old (reassembly_in (S.region store.old) self.old)) }
        ensures chain { ChangesBeside (S.region store.old) (S.region store.new) (S.lines store.old) self.old.chain self.new.chain }
        ensures lines { S.lines store.new ≡ S.lines store.old }
        ensures rest { S.rest store.new ≡ S.rest store.old }
    {
        let mut cells = [BLANK_CELL; CHAIN_CELLS];
        let cells = &mut cells[..self.chain.len()];
        take_all(store, &mut self.chain, cells);
        self.is_skipping = false;
        note_cut_chain(notes, cells)
    }

    /// Gives up the channel's cells.
    pub fn abandon<S: ChainStore>(self, store: &mut S)
        requires threaded { IsLine (S.region store.old) self.chain }
        requires apart { IsApartFromEach (S.region store.old) (S.lines store.old) self.chain }
        ensures drained { IsDrained (S.region store.old) (S.region store.new) self.chain }
        ensures lines { S.lines store.new ≡ S.lines store.old }
        ensures rest { S.rest store.new ≡ S.rest store.old }
    {
        let Reassembly {
            chain,
            is_skipping: _,
        } = self;
        store.chain_drain(chain);
    }
}
