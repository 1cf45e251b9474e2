// The blocks of an allocator: handed out, parked and given back.
ghost use Rattle.std.specs.Prelude.{◌≡◌, ◌+◌, ◌/◌, ◌≤◌, ◌<◌, ℕ, List, length, Some, None, IfOk, OnErr, slice_index};
ghost use Rattle.mm_words.specs.Location.{location_of};
ghost use Rattle.mm_model.specs.Places.SizeClass.{size_of, extent_of};
ghost use Rattle.mm_model.specs.Views.ByBase.{Begins};
ghost use Rattle.mm_pages.specs.Pages.{Pages, with_parked, IsQuick, IsSoundHeap};
ghost use Rattle.mm_pages.specs.Parked.{AreParked, HaveNoCommonRun, AreAllParked};
ghost use Rattle.mm_cells.specs.Map.{table_size};
ghost use Rattle.mm_cells.specs.Placing.{run_length, LeavesPage};
ghost use Rattle.mm_fixed.specs.Fixed.{fresh, with_block, with_run, block_out, block_parked, out_at};
ghost use Rattle.mm_fixed.specs.Fixed.{IsOut, IsParked, HasNoBlock, HasNoBlockAt, IsSoundFixed};
ghost use Rattle.mm_fixed.specs.Cells.{cells_of};
ghost use Rattle.mm_fixed.specs.Placing.{IsPlaceForBlock, base_in};

use crate::block::FixedBlock;
use mm_cells::{Cells, cells_words, class_of, extent_of};
use mm_model::Colour;
use mm_pages::{NoRun, PageHeap};
use mm_steps::Steps;
use mm_words::Words;
use std::marker::Model;
use std::snapshot::Snapshot;
use std::sync::ledger::Ledger;

/// An allocator of blocks that no collection frees. A block is one of 19 sizes, or some whole pages.
///
/// Blocks are cells of a table of their own, so that they are placed by the same code as objects, and never in a page
/// of objects. The colour of a cell, which no marking reads here, tells whether the block is out (white) or parked
/// (black).
///
/// It stands on words of an arena, which go back by `close`, and can't be dropped.
pub struct Fixed {
    cells: Cells,
}

impl Model for Fixed {
    ghost use Rattle.mm_fixed.specs.Fixed;
    ghost use Rattle.mm_fixed.specs.Kept.{fixed_of, KeepsBlocks};

    ghost Value = { Fixed.Fixed };

    ghost view = { λ f. fixed_of f.cells };

    ghost invariant = { λ f. KeepsBlocks f.cells };
}

/// How many words the table of blocks must have.
pub fn fixed_words(pages: u32) -> u32
    requires two { 2 ≤ pages }
    requires most { pages ≤ 4096 }
    ensures { result ≡ table_size pages }
{
    cells_words(pages)
}

impl Fixed {
    /// An allocator over a region of at most so many pages. No block is out or parked. The table's words may hold
    /// anything.
    pub fn make(table: Words, pages: u32) -> Fixed
        requires two { 2 ≤ pages }
        requires most { pages ≤ 4096 }
        requires room { table_size pages ≤ length table.words }
        ensures value { result ≡ fresh (location_of table) pages }
        ensures parked { (heap : Pages) → heap.pages ≤ pages → AreParked result.runs heap }
        ensures sound { IsSoundFixed result }
    {
        Fixed {
            cells: Cells::make(table, pages),
        }
    }

    /// Gives the table's words back, which may hold anything.
    pub fn close(self) -> Words
        requires { HasNoBlock self }
        ensures { location_of result ≡ self.table }
    {
        let Fixed { cells } = self;
        cells.close()
    }

    /// Hands out the lowest block for so many bytes: a free one in a page of their class, or in a fresh page, or else
    /// whole pages. It is refused where there is none. What runs another family has parked stay parked. Each page that
    /// it takes counts, beside the work on the page heap.
    pub fn alloc<L: Ledger>(
        &mut self,
        pages: &mut PageHeap,
        bytes: u32,
        steps: &mut Steps<L>,
    ) -> Result<FixedBlock, NoRun>
        requires some { 1 ≤ bytes }
        requires most { bytes ≤ 4194300 }
        requires parked { AreParked self.old.runs pages.old }
        ensures place { IsPlaceForBlock self.old pages.old (size_of bytes) (base_in result) }
        ensures block { IfOk result (λ block. block ≡ out_at self.old block.base (extent_of bytes)) }
        ensures was_free { IfOk result (λ block. HasNoBlockAt self.old block.base) }
        ensures out { IfOk result (λ block. IsOut self.new block) }
        ensures taken { IfOk result (λ block. self.new ≡
            with_run (with_block self.old block.base (Some (block_out (extent_of bytes)))) (block.base / 4096)
            (run_length (size_of bytes))) }
        ensures heap { IfOk result (λ block. pages.new ≡
            with_parked pages.old (block.base / 4096) (run_length (size_of bytes))) }
        ensures enough { bytes ≤ extent_of bytes }
        ensures unchanged { OnErr result ((self.new ≡ self.old) × (pages.new ≡ pages.old)) }
        ensures parked { AreParked self.new.runs pages.new }
        ensures others { (runs : List ℕ) → AreParked runs pages.old → AreParked runs pages.new }
        ensures apart { (runs : List ℕ) → AreParked runs pages.old → HaveNoCommonRun self.old.runs runs
            → HaveNoCommonRun self.new.runs runs }
        ensures all_parked { (others : List ℕ) → AreAllParked self.old.runs others pages.old
            → AreAllParked self.new.runs others pages.new }
        ensures heap_sound { IsSoundHeap pages.new }
        ensures sound { IsSoundFixed self.new }
        ensures cost { IsQuick pages.old.pages (steps.old + run_length (size_of bytes)) steps.new }
    {
        let base = self.cells.place(pages, bytes, Colour::White, steps)?;
        let extent = extent_of(class_of(bytes));
        Ok(FixedBlock {
            base,
            extent,
            allocator: Snapshot::of(&self.cells),
        })
    }

    /// Takes a block back. Its page, or its pages, are free once no block of it is out or parked.
    pub fn free<L: Ledger>(&mut self, pages: &mut PageHeap, block: FixedBlock, steps: &mut Steps<L>)
        requires out { IsOut self.old block }
        requires parked { AreParked self.old.runs pages.old }
        ensures gone { self.new ≡ record (with_block self.old block.base None) { runs = self.new.runs } }
        ensures page { LeavesPage (cells_of self.old) (cells_of self.new) pages.old (block.base / 4096) pages.new }
        ensures pages_rest { pages.new ≡ record pages.old { parked = pages.new.parked } }
        ensures parked { AreParked self.new.runs pages.new }
        ensures others { (runs : List ℕ) → HaveNoCommonRun self.old.runs runs → AreParked runs pages.old
            → AreParked runs pages.new }
        ensures apart { (runs : List ℕ) → HaveNoCommonRun self.old.runs runs → HaveNoCommonRun self.new.runs runs }
        ensures all_parked { (others : List ℕ) → AreAllParked self.old.runs others pages.old
            → AreAllParked self.new.runs others pages.new }
        ensures heap_sound { IsSoundHeap pages.new }
        ensures sound { IsSoundFixed self.new }
        ensures cost { IsQuick pages.old.pages steps.old steps.new }
    {
        let FixedBlock {
            base,
            extent: _,
            allocator: _,
        } = block;
        self.cells.release(pages, base, steps);
    }

    /// Keeps a block inside the allocator, which hands it out again by `unpark`. It answers the block's base.
    pub fn park(&mut self, block: FixedBlock) -> u32
        requires { IsOut self.old block }
        ensures base { result ≡ block.base }
        ensures parked { self.new ≡ with_block self.old block.base (Some (block_parked block.extent)) }
        ensures there { IsParked self.new block.base }
        ensures sound { IsSoundFixed self.new }
    {
        let FixedBlock {
            base,
            extent: _,
            allocator: _,
        } = block;
        self.cells.paint(base, Colour::Black);
        base
    }

    /// Hands out the block that is parked at a base.
    pub fn unpark(&mut self, base: u32) -> FixedBlock
        requires { IsParked self.old base }
        ensures block { (extent : ℕ) → Begins self.old.blocks base (block_parked extent)
            → result ≡ out_at self.old base extent }
        ensures out { IsOut self.new result }
        ensures unparked { self.new ≡ with_block self.old base (Some (block_out result.extent)) }
        ensures sound { IsSoundFixed self.new }
    {
        let extent = self.extent(base);
        self.cells.paint(base, Colour::White);
        FixedBlock {
            base,
            extent,
            allocator: Snapshot::of(&self.cells),
        }
    }

    /// The bytes of the block that is parked at a base.
    pub fn extent(&self, base: u32) -> u32
        requires { IsParked self.now base }
        ensures extent { (extent : ℕ) → Begins self.now.blocks base (block_parked extent) → result ≡ extent }
        ensures sound { IsSoundFixed self.now }
    {
        self.cells.extent(base)
    }
}
