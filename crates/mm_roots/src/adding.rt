// Areas are made and removed.
ghost use Rattle.std.specs.Prelude.{◌≡◌, ◌+◌, ◌*◌, ◌/◌, ◌<◌, ◌≤◌, ℕ, false, not, ◌==◌, List, Option, Some, None};
ghost use Rattle.std.specs.Prelude.{IfOk, OnErr, length};
ghost use Rattle.std.specs.List.{filter};
ghost use Rattle.mm_model.specs.Places.SizeClass.{size_of, extent_of, area_bytes};
ghost use Rattle.mm_model.specs.Views.ByBase.{Begins};
ghost use Rattle.mm_model.specs.Views.ViewEffect.{new_area_view, view_area_inserted};
ghost use Rattle.mm_pages.specs.Pages.{with_parked, IsQuick, IsSoundHeap};
ghost use Rattle.mm_pages.specs.Parked.{AreParked, HaveNoCommonRun, AreAllParked};
ghost use Rattle.mm_cells.specs.Placing.{run_length, found_in, LeavesPage};
ghost use Rattle.mm_object.specs.Heap.{Heap, IsSound, FitsHeap};
ghost use Rattle.mm_fixed.specs.Fixed.{with_block, with_run, block_parked, IsParked, HasNoBlockAt, IsSoundFixed};
ghost use Rattle.mm_fixed.specs.Cells.{cells_of};
ghost use Rattle.mm_fixed.specs.Placing.{IsPlaceForBlock};
ghost use Rattle.mm_roots.specs.declared.area_shape.AreaShape.{AreaShape};
ghost use Rattle.mm_roots.specs.Areas.{area_at, with_area, over, live_areas, placed_at, AddCause};
ghost use Rattle.mm_roots.specs.Areas.{RemoveCause, ClearsCells};
ghost use Rattle.mm_roots.specs.Areas.{IsSoundAreas, IsBeside, OwnsAll};
ghost use Rattle.mm_roots.specs.Views.{views_of_areas, free_number_in};

use crate::area_cells::clear_cells;
use crate::area_shape::{AreaRefusal, AreaShape};
use crate::area_table::CELL_BYTES;
use crate::areas::Areas;
use mm_cells::{PAGE_BYTES, class_of, extent_of};
use mm_fixed::Fixed;
use mm_model::AreaAnswer;
use mm_object::Heap;
use mm_pages::{NoRun, PageHeap};
use mm_steps::Steps;
use std::sync::ledger::Ledger;

/// Parks a new block for so many cells, and answers its base.
fn place_block<L: Ledger>(
    fixed: &mut Fixed,
    pages: &mut PageHeap,
    cells: u32,
    steps: &mut Steps<L>,
) -> Result<u32, NoRun>
    requires some { 1 ≤ cells }
    requires most { cells ≤ 1048575 }
    requires parked { AreParked fixed.old.runs pages.old }
    ensures place { IsPlaceForBlock fixed.old pages.old (size_of (area_bytes cells)) (found_in result) }
    ensures was_free { IfOk result (λ base. HasNoBlockAt fixed.old base) }
    ensures taken { IfOk result (λ base. fixed.new ≡
        with_run (with_block fixed.old base (Some (block_parked (extent_of (area_bytes cells))))) (base / 4096)
        (run_length (size_of (area_bytes cells)))) }
    ensures there { IfOk result (λ base. Begins fixed.new.blocks base (block_parked (extent_of (area_bytes cells)))) }
    ensures heap { IfOk result (λ base. pages.new ≡
        with_parked pages.old (base / 4096) (run_length (size_of (area_bytes cells)))) }
    ensures within { IfOk result (λ base. base / 4096 < pages.new.limit) }
    ensures enough { area_bytes cells ≤ extent_of (area_bytes cells) }
    ensures unchanged { OnErr result ((fixed.new ≡ fixed.old) × (pages.new ≡ pages.old)) }
    ensures parked { AreParked fixed.new.runs pages.new }
    ensures others { (runs : List ℕ) → AreParked runs pages.old → AreParked runs pages.new }
    ensures apart { (runs : List ℕ) → AreParked runs pages.old → HaveNoCommonRun fixed.old.runs runs
        → HaveNoCommonRun fixed.new.runs runs }
    ensures sound { IsSoundFixed fixed.new }
    ensures all_parked { (others : List ℕ) → AreAllParked fixed.old.runs others pages.old
        → AreAllParked fixed.new.runs others pages.new }
    ensures heap_sound { IsSoundHeap pages.new }
    ensures cost { IsQuick pages.old.pages (steps.old + run_length (size_of (area_bytes cells))) steps.new }
{
    let block = fixed.alloc(pages, CELL_BYTES * cells, steps)?;
    Ok(fixed.park(block))
}

/// Gives the block back that is parked at a base.
fn free_block<L: Ledger>(fixed: &mut Fixed, pages: &mut PageHeap, base: u32, steps: &mut Steps<L>)
    requires there { IsParked fixed.old base }
    requires parked { AreParked fixed.old.runs pages.old }
    ensures gone { fixed.new ≡ record (with_block fixed.old base None) { runs = fixed.new.runs } }
    ensures page { LeavesPage (cells_of fixed.old) (cells_of fixed.new) pages.old (base / 4096) pages.new }
    ensures pages_rest { pages.new ≡ record pages.old { parked = pages.new.parked } }
    ensures parked { AreParked fixed.new.runs pages.new }
    ensures others { (runs : List ℕ) → HaveNoCommonRun fixed.old.runs runs → AreParked runs pages.old
        → AreParked runs pages.new }
    ensures apart { (runs : List ℕ) → HaveNoCommonRun fixed.old.runs runs → HaveNoCommonRun fixed.new.runs runs }
    ensures all_parked { (others : List ℕ) → AreAllParked fixed.old.runs others pages.old
        → AreAllParked fixed.new.runs others pages.new }
    ensures sound { IsSoundFixed fixed.new }
    ensures heap_sound { IsSoundHeap pages.new }
    ensures cost { IsQuick pages.old.pages steps.old steps.new }
{
    let block = fixed.unpark(base);
    fixed.free(pages, block, steps);
}

impl Areas {
    /// Makes an area under the lowest free number. Its cells are 0. That there are as many areas as there may be is
    /// found before there is no place. Each page that it takes and each cell counts, beside the work on the page heap.
    pub fn add<L: Ledger>(
        &mut self,
        heap: &mut Heap,
        pages: &mut PageHeap,
        scanned: bool,
        counted: u32,
        cells: u32,
        steps: &mut Steps<L>,
    ) -> Result<AreaAnswer, AreaRefusal>
        requires counted { counted ≤ cells }
        requires some { 1 ≤ cells }
        requires most { cells ≤ 1048575 }
        requires raw { scanned ≡ false → counted ≡ 0 }
        requires parked { AreParked self.old.fixed.runs pages.old }
        requires fits { FitsHeap heap.old pages.old }
        requires beside { IsBeside self.old heap.old }
        ensures cause { AddCause self.old pages.old cells result }
        ensures areas { IfOk result (λ answer. self.new ≡
            with_area (over self.new.fixed self.old) answer.number
            (Some (placed_at scanned counted cells answer.base))) }
        ensures block { IfOk result (λ answer. self.new.fixed ≡
            with_run (with_block self.old.fixed answer.base (Some (block_parked (extent_of (area_bytes cells)))))
            (answer.base / 4096) (run_length (size_of (area_bytes cells)))) }
        ensures cells { IfOk result (λ answer. ClearsCells heap.old heap.new answer.base cells) }
        ensures pages { IfOk result (λ answer. pages.new ≡
            with_parked pages.old (answer.base / 4096) (run_length (size_of (area_bytes cells)))) }
        ensures views { IfOk result (λ answer. views_of_areas self.new heap.new.raw ≡
            view_area_inserted (new_area_view answer.number answer.base scanned counted cells)
            (views_of_areas self.old heap.old.raw)) }
        ensures number { IfOk result (λ answer. (raw : List (Option ℕ)) →
            free_number_in (views_of_areas self.old raw) ≡ Some answer.number) }
        ensures live { (raw : List (Option ℕ)) → live_areas self.old ≡ length (views_of_areas self.old raw) }
        ensures unchanged { OnErr result ((self.new ≡ self.old) × (heap.new ≡ heap.old) × (pages.new ≡ pages.old)) }
        ensures parked { AreParked self.new.fixed.runs pages.new }
        ensures fits { FitsHeap heap.new pages.new }
        ensures beside { IsBeside self.new heap.new }
        ensures others { (runs : List ℕ) → AreParked runs pages.old → AreParked runs pages.new }
        ensures all_parked { (others : List ℕ) → AreAllParked self.old.fixed.runs others pages.old
            → AreAllParked self.new.fixed.runs others pages.new }
        ensures owns { OwnsAll self.old → OwnsAll self.new }
        ensures sound { IsSoundAreas self.new }
        ensures pages_sound { IsSoundHeap pages.old → IsSoundHeap pages.new }
        ensures heap_sound { IfOk result (λ answer. IsSound heap.new) }
        ensures cost { IsQuick pages.old.pages (steps.old + run_length (size_of (area_bytes cells)) + cells) steps.new }
    {
        let number = match self.table.lowest_free() {
            Some(number) => number,
            None => return Err(AreaRefusal::AreasFull),
        };
        let base = match place_block(&mut self.fixed, pages, cells, steps) {
            Ok(base) => base,
            Err(NoRun) => return Err(AreaRefusal::NoRun),
        };
        prove!(base / PAGE_BYTES < heap.size());
        clear_cells(heap, base, cells, steps);
        let area = AreaShape {
            scanned,
            counted,
            cells,
            base,
            extent: extent_of(class_of(CELL_BYTES * cells)),
        };
        self.table.enter(number, area);
        self.live += 1;
        Ok(AreaAnswer { number, base })
    }

    /// Removes an area. Whoever calls has lowered the counts of its counted cells. It is refused where no area has the
    /// number.
    pub fn remove<L: Ledger>(
        &mut self,
        pages: &mut PageHeap,
        a: u32,
        steps: &mut Steps<L>,
    ) -> Result<(), AreaRefusal>
        requires { AreParked self.old.fixed.runs pages.old }
        ensures cause { RemoveCause self.old a result }
        ensures areas { IfOk result (λ _. self.new ≡ with_area (over self.new.fixed self.old) a None) }
        ensures block { IfOk result (λ _. (area : AreaShape) → area_at self.old a ≡ Some area → self.new.fixed ≡
            record (with_block self.old.fixed area.base None) { runs = self.new.fixed.runs }) }
        ensures page { IfOk result (λ _. (area : AreaShape) → area_at self.old a ≡ Some area →
            LeavesPage (cells_of self.old.fixed) (cells_of self.new.fixed) pages.old (area.base / 4096) pages.new) }
        ensures pages_rest { pages.new ≡ record pages.old { parked = pages.new.parked } }
        ensures views { IfOk result (λ _. (raw : List (Option ℕ)) → views_of_areas self.new raw ≡
            filter (λ area. not (area.number == a)) (views_of_areas self.old raw)) }
        ensures unchanged { OnErr result ((self.new ≡ self.old) × (pages.new ≡ pages.old)) }
        ensures parked { AreParked self.new.fixed.runs pages.new }
        ensures others { (runs : List ℕ) → HaveNoCommonRun self.old.fixed.runs runs → AreParked runs pages.old
            → AreParked runs pages.new }
        ensures apart { (runs : List ℕ) → HaveNoCommonRun self.old.fixed.runs runs
            → HaveNoCommonRun self.new.fixed.runs runs }
        ensures all_parked { (others : List ℕ) → AreAllParked self.old.fixed.runs others pages.old
            → AreAllParked self.new.fixed.runs others pages.new }
        ensures beside { (heap : Heap) → IsBeside self.old heap → IsBeside self.new heap }
        ensures fits { (heap : Heap) → IsBeside self.old heap → FitsHeap heap pages.old → FitsHeap heap pages.new }
        ensures pages_sound { IsSoundHeap pages.old → IsSoundHeap pages.new }
        ensures owns { OwnsAll self.old → OwnsAll self.new }
        ensures sound { IsSoundAreas self.new }
        ensures cost { IsQuick pages.old.pages steps.old steps.new }
    {
        let area = match self.table.area(a) {
            Some(area) => area,
            None => return Err(AreaRefusal::NoArea),
        };
        free_block(&mut self.fixed, pages, area.base, steps);
        self.table.leave(a);
        self.live -= 1;
        Ok(())
    }
}
