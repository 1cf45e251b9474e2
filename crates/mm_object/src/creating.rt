// Objects are made and taken away.
ghost use Rattle.std.specs.Prelude.{◌≡◌, ◌≢◌, ◌+◌, ◌/◌, ◌≤◌, ◌<◌, ℕ, List, length, replicate, slice_get, slice_index};
ghost use Rattle.std.specs.Prelude.{slice_set, IfOk, OnErr, Some, None, false};
ghost use Rattle.mm_model.specs.Places.SizeClass.{size_of, extent_of, object_bytes};
ghost use Rattle.mm_model.specs.Views.ByBase.{Begins, with_entry};
ghost use Rattle.mm_words.specs.Piece.{with_words};
ghost use Rattle.mm_words.specs.Writes.{written};
ghost use Rattle.mm_pages.specs.Pages.{IsQuick, with_parked, IsSoundHeap};
ghost use Rattle.mm_pages.specs.Parked.{AreParked, AreAllParked};
ghost use Rattle.mm_cells.specs.Cells as Places;
ghost use Rattle.mm_cells.specs.Cells.{Taken, IsSoundCells, with_cell};
ghost use Rattle.mm_cells.specs.Marks.{no_flags};
ghost use Rattle.mm_cells.specs.Placing.{IsPlaceFor, LeavesPage, found_in, run_length};
ghost use Rattle.mm_object.specs.Object.{StoredObject, newly_stored, flags_with};
ghost use Rattle.mm_object.specs.Header.{IsShape, shape_in, first_word, second_word};
ghost use Rattle.mm_object.specs.Heap.{cells_in, IsObject, IsSound, FitsHeap, TakesWords, LeavesWords};
ghost use Rattle.mm_object.specs.Kept.{newborn_words};

use crate::header::Header;
use crate::heap::{HEADER_WORDS, Heap, WORD_BYTES, object_bytes};
use mm_cells::{CellBits, Cells};
use mm_model::{Colour, Shape};
use mm_pages::{NoRun, PageHeap};
use mm_steps::Steps;
use mm_words::Words;
use std::sync::ledger::Ledger;

/// Tells of a new object whether it has a finalizer. Most have none, and nothing is told of the cell before.
#[inline]
fn tell_finalizer<L: Ledger>(cells: &mut Cells, base: u32, finalize: bool, steps: &mut Steps<L>)
    requires taken { (cell : Taken) × Places.Begins cells.old base cell × (cell.flags ≡ no_flags) }
    requires sound { IsSoundCells cells.old }
    ensures flags { (cell : Taken) → Places.Begins cells.old base cell
        → cells.new ≡ with_cell cells.old base (Some (record cell { flags = flags_with finalize false })) }
    ensures sound { IsSoundCells cells.new }
{
    if finalize {
        cells.set_flags(base, CellBits::FINALIZE, steps);
    }
}

/// Writes the header of a new object, and 0 into each slot.
fn write_newborn(memory: &mut Words, at: u32, shape: Shape)
    requires shape { IsShape shape }
    requires within { at + 4 + shape.slots ≤ length memory.old.words }
    requires small { at < 1073741824 }
    ensures words { memory.new ≡ with_words memory.old (written at (newborn_words shape) memory.old.words) }
    ensures means { shape_in (first_word shape) (second_word shape) ≡ shape }
{
    let header = Header::of(shape);
    memory.fill(at, HEADER_WORDS + shape.slots, 0);
    memory.set(at, header.first);
    memory.set(at + 1, header.second);
}

impl Heap {
    /// Makes an object, whose slots are 0, in the lowest cell for it. It is refused where there is none. What runs
    /// another family has parked stay parked.
    pub fn create<L: Ledger>(
        &mut self,
        pages: &mut PageHeap,
        shape: Shape,
        colour: Colour,
        steps: &mut Steps<L>,
    ) -> Result<u32, NoRun>
        requires shape { IsShape shape }
        requires fits { FitsHeap self.old pages.old }
        ensures place { IsPlaceFor (cells_in self.old) pages.old (size_of (object_bytes shape.slots))
            (found_in result) }
        ensures created { IfOk result (λ base. self.new ≡ record self.old {
          objects = with_entry base (Some (newly_stored shape colour)) self.old.objects;
          runs = slice_set self.old.runs (base / 4096) (run_length (size_of (object_bytes shape.slots)));
          raw = self.new.raw;
        }) }
        ensures begins { IfOk result (λ base. Begins self.new.objects base (newly_stored shape colour)) }
        ensures was_none { IfOk result (λ base. slice_get self.old.objects (base / 16) ≡ Some None) }
        ensures raw { IfOk result (λ base.
            TakesWords self.old.raw self.new.raw base (extent_of (object_bytes shape.slots))) }
        ensures heap { IfOk result (λ base. pages.new ≡
            with_parked pages.old (base / 4096) (run_length (size_of (object_bytes shape.slots)))) }
        ensures unchanged { OnErr result ((self.new ≡ self.old) × (pages.new ≡ pages.old)) }
        ensures fits { FitsHeap self.new pages.new }
        ensures others { (runs : List ℕ) → AreParked runs pages.old → AreParked runs pages.new }
        ensures all_parked { (others : List ℕ) → AreAllParked self.old.runs others pages.old
            → AreAllParked self.new.runs others pages.new }
        ensures heap_sound { IsSoundHeap pages.new }
        ensures sound { IsSound self.new }
    {
        let base = self
            .cells
            .place(pages, object_bytes(shape.slots), colour, steps)?;
        tell_finalizer(&mut self.cells, base, shape.finalize, steps);
        write_newborn(&mut self.memory, base / WORD_BYTES, shape);
        Ok(base)
    }

    /// Takes an object away. Its cell is free, and its page or its pages are once no object lies in them.
    pub fn erase<L: Ledger>(&mut self, pages: &mut PageHeap, base: u32, steps: &mut Steps<L>)
        requires object { IsObject self.old base }
        requires fits { FitsHeap self.old pages.old }
        ensures erased { self.new ≡ record self.old {
          objects = with_entry base None self.old.objects;
          runs = self.new.runs;
          raw = self.new.raw;
        } }
        ensures page { LeavesPage (cells_in self.old) (cells_in self.new) pages.old (base / 4096) pages.new }
        ensures pages_rest { pages.new ≡ record pages.old { parked = pages.new.parked } }
        ensures raw { (object : StoredObject) → Begins self.old.objects base object
            → LeavesWords self.old.raw self.new.raw base object.extent }
        ensures fits { FitsHeap self.new pages.new }
        ensures others { (runs : List ℕ) → slice_index runs (base / 4096) ≡ 0 → AreParked runs pages.old
            → AreParked runs pages.new }
        ensures all_parked { (others : List ℕ) → AreAllParked self.old.runs others pages.old
            → AreAllParked self.new.runs others pages.new }
        ensures heap_sound { IsSoundHeap pages.new }
        ensures sound { IsSound self.new }
        ensures cost { IsQuick pages.old.pages steps.old steps.new }
    {
        self.cells.release(pages, base, steps);
    }
}
