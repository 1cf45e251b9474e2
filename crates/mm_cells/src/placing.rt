// Taking cells and giving them back. Whole pages are rare, so they are taken out of line.
ghost use Rattle.std.specs.Prelude.{◌≡◌, ◌+◌, ◌*◌, ◌/◌, ◌≤◌, ◌<◌, ℕ, List, Some, None, IfOk, OnErr, slice_index};
ghost use Rattle.std.specs.Prelude.{slice_get};
ghost use Rattle.mm_model.specs.declared.object.Size.TheVariants.{Small, Pages};
ghost use Rattle.mm_model.specs.Places.SizeClass.{size_of, extent_of};
ghost use Rattle.mm_pages.specs.Pages.{with_parked, IsQuick, IsSoundHeap};
ghost use Rattle.mm_pages.specs.Parked.{AreParked, AreAllParked};
ghost use Rattle.mm_cells.specs.Cells.{with_cell, with_run, newly_taken, Begins, IsTaken, IsSoundCells};
ghost use Rattle.mm_cells.specs.Kept.{class_size};
ghost use Rattle.mm_cells.specs.Placing.{IsPlaceFor, found_in, run_length, LeavesPage};

use crate::cells::Cells;
use crate::class::{PAGE_BYTES, class_of};
use crate::page_use::PageUse;
use crate::taking::{release_cell, release_pages, take_cell, take_fresh_page, take_pages};
use mm_model::{Colour, Size};
use mm_pages::{NoRun, PageHeap};
use mm_steps::Steps;
use std::sync::ledger::Ledger;

impl Cells {
    /// Takes the lowest cell for so many bytes: a free cell in a page of their class, or in a fresh page, or else whole
    /// pages. It is refused where there is none. What runs another family has parked stay parked. Each page that it
    /// takes counts, beside the work on the page heap.
    pub fn place<L: Ledger>(
        &mut self,
        pages: &mut PageHeap,
        bytes: u32,
        colour: Colour,
        steps: &mut Steps<L>,
    ) -> Result<u32, NoRun>
        requires some { 1 ≤ bytes }
        requires most { bytes ≤ 4194316 }
        requires parked { AreParked self.old.runs pages.old }
        ensures place { IsPlaceFor self.old pages.old (size_of bytes) (found_in result) }
        ensures taken { IfOk result (λ base. self.new ≡
            with_run (with_cell self.old base (Some (newly_taken (extent_of bytes) colour))) (base / 4096)
            (run_length (size_of bytes))) }
        ensures begins { IfOk result (λ base. Begins self.new base (newly_taken (extent_of bytes) colour)) }
        ensures was_free { IfOk result (λ base. slice_get self.old.taken (base / 16) ≡ Some None) }
        ensures heap { IfOk result (λ base. pages.new ≡
            with_parked pages.old (base / 4096) (run_length (size_of bytes))) }
        ensures enough { bytes ≤ extent_of bytes }
        ensures unchanged { OnErr result ((self.new ≡ self.old) × (pages.new ≡ pages.old)) }
        ensures parked { AreParked self.new.runs pages.new }
        ensures others { (runs : List ℕ) → AreParked runs pages.old → AreParked runs pages.new }
        ensures all_parked { (others : List ℕ) → AreAllParked self.old.runs others pages.old
            → AreAllParked self.new.runs others pages.new }
        ensures heap_sound { IsSoundHeap pages.new }
        ensures sound { IsSoundCells self.new }
        ensures cost { IsQuick pages.old.pages (steps.old + run_length (size_of bytes)) steps.new }
    {
        match class_of(bytes) {
            Size::Small(class) => self.place_small(pages, class, colour, steps),
            Size::Pages(count) => self.place_whole(pages, count, colour, steps),
        }
    }

    /// Gives a taken cell back. Its page, or its pages, are free once no cell of it is taken.
    pub fn release<L: Ledger>(&mut self, pages: &mut PageHeap, base: u32, steps: &mut Steps<L>)
        requires taken { IsTaken self.old base }
        requires parked { AreParked self.old.runs pages.old }
        ensures gone { self.new ≡ record (with_cell self.old base None) { runs = self.new.runs } }
        ensures page { LeavesPage self.old self.new pages.old (base / 4096) pages.new }
        ensures rest { pages.new ≡ record pages.old { parked = pages.new.parked } }
        ensures parked { AreParked self.new.runs pages.new }
        ensures others { (runs : List ℕ) → slice_index runs (base / 4096) ≡ 0 → AreParked runs pages.old
            → AreParked runs pages.new }
        ensures all_parked { (others : List ℕ) → AreAllParked self.old.runs others pages.old
            → AreAllParked self.new.runs others pages.new }
        ensures heap_sound { IsSoundHeap pages.new }
        ensures sound { IsSoundCells self.new }
        ensures cost { IsQuick pages.old.pages steps.old steps.new }
    {
        let page = base / PAGE_BYTES;
        let page_use = self.table.use_at(page);
        prove!(page < pages.limit());
        match page_use {
            PageUse::Class(class) => {
                if release_cell(&mut self.table, page, class, base % PAGE_BYTES) {
                    pages.free_parked(page, steps);
                }
            }
            PageUse::First(_) => {
                release_pages(&mut self.table, page);
                pages.free_parked(page, steps);
            }
            PageUse::Unused | PageUse::Later(_) => unreachable!(),
        }
    }

    /// Takes the lowest cell of a class.
    fn place_small<L: Ledger>(
        &mut self,
        pages: &mut PageHeap,
        class: u32,
        colour: Colour,
        steps: &mut Steps<L>,
    ) -> Result<u32, NoRun>
        requires class { class < 19 }
        requires parked { AreParked self.old.runs pages.old }
        ensures place { IsPlaceFor self.old pages.old (Small class) (found_in result) }
        ensures taken { IfOk result (λ base. self.new ≡
            with_run (with_cell self.old base (Some (newly_taken (class_size class) colour))) (base / 4096)
            (run_length (Small class))) }
        ensures begins { IfOk result (λ base. Begins self.new base (newly_taken (class_size class) colour)) }
        ensures was_free { IfOk result (λ base. slice_get self.old.taken (base / 16) ≡ Some None) }
        ensures heap { IfOk result (λ base. pages.new ≡
            with_parked pages.old (base / 4096) (run_length (Small class))) }
        ensures unchanged { OnErr result ((self.new ≡ self.old) × (pages.new ≡ pages.old)) }
        ensures parked { AreParked self.new.runs pages.new }
        ensures others { (runs : List ℕ) → AreParked runs pages.old → AreParked runs pages.new }
        ensures all_parked { (others : List ℕ) → AreAllParked self.old.runs others pages.old
            → AreAllParked self.new.runs others pages.new }
        ensures heap_sound { IsSoundHeap pages.new }
        ensures sound { IsSoundCells self.new }
        ensures cost { IsQuick pages.old.pages (steps.old + 1) steps.new }
    {
        steps.tick();
        match self.table.page_with_room(class) {
            Some(page) => {
                prove!(page < pages.limit());
                Ok(take_cell(&mut self.table, page, class, colour))
            }
            None => match pages.park_lowest(1, steps) {
                Ok(page) => {
                    take_fresh_page(&mut self.table, page, class, colour);
                    Ok(PAGE_BYTES * page)
                }
                Err(NoRun) => Err(NoRun),
            },
        }
    }

    /// Takes so many whole pages.
    #[inline(never)]
    fn place_whole<L: Ledger>(
        &mut self,
        pages: &mut PageHeap,
        count: u32,
        colour: Colour,
        steps: &mut Steps<L>,
    ) -> Result<u32, NoRun>
        requires some { 1 ≤ count }
        requires parked { AreParked self.old.runs pages.old }
        ensures place { IsPlaceFor self.old pages.old (Pages count) (found_in result) }
        ensures taken { IfOk result (λ base. self.new ≡
            with_run (with_cell self.old base (Some (newly_taken (4096 * count) colour))) (base / 4096)
            (run_length (Pages count))) }
        ensures begins { IfOk result (λ base. Begins self.new base (newly_taken (4096 * count) colour)) }
        ensures was_free { IfOk result (λ base. slice_get self.old.taken (base / 16) ≡ Some None) }
        ensures heap { IfOk result (λ base. pages.new ≡
            with_parked pages.old (base / 4096) (run_length (Pages count))) }
        ensures unchanged { OnErr result ((self.new ≡ self.old) × (pages.new ≡ pages.old)) }
        ensures parked { AreParked self.new.runs pages.new }
        ensures others { (runs : List ℕ) → AreParked runs pages.old → AreParked runs pages.new }
        ensures all_parked { (others : List ℕ) → AreAllParked self.old.runs others pages.old
            → AreAllParked self.new.runs others pages.new }
        ensures heap_sound { IsSoundHeap pages.new }
        ensures sound { IsSoundCells self.new }
        ensures cost { IsQuick pages.old.pages (steps.old + count) steps.new }
    {
        steps.add(count);
        match pages.park_lowest(count, steps) {
            Ok(first) => {
                take_pages(&mut self.table, first, count, colour);
                Ok(PAGE_BYTES * first)
            }
            Err(NoRun) => Err(NoRun),
        }
    }
}
