// The scanned areas, one after the other, for marking.
ghost use Rattle.std.specs.Prelude.{◌≡◌, ℕ, ◌+◌, ◌<◌, ◌≤◌, [], ◌++◌, List, Option, MatchOption, IfSome, slice_index};
ghost use Rattle.std.specs.List.{flat_map};
ghost use Rattle.mm_model.specs.Areas.{most_areas};
ghost use Rattle.mm_model.specs.Views.ViewWords.{scanned_cells_of};
ghost use Rattle.mm_roots.specs.Areas.{IsScanned, IsSoundAreas, IsBeside};
ghost use Rattle.mm_roots.specs.Views.{cell_words, views_of_areas, scanned_words_from};

use crate::area_shape::ScannedArea;
use crate::area_table::CELL_BYTES;
use crate::areas::Areas;
use mm_cells::PAGE_BYTES;
use mm_object::Heap;
use mm_steps::Steps;
use std::sync::ledger::Ledger;

impl Areas {
    /// The scanned area with the least number that is at least `from`.
    pub fn next_scanned(&self, from: u32) -> Option<ScannedArea>
        ensures words { (raw : List (Option ℕ)) → MatchOption result (scanned_words_from self.now raw from ≡ [])
            (λ area. scanned_words_from self.now raw from
            ≡ cell_words raw area.base area.cells ++ scanned_words_from self.now raw (area.number + 1)) }
        ensures all { (raw : List (Option ℕ)) →
            scanned_words_from self.now raw 0 ≡ flat_map scanned_cells_of (views_of_areas self.now raw) }
        ensures scanned { IfSome result (λ area. IsScanned self.now area) }
        ensures reached { IfSome result (λ area. from ≤ area.number) }
        ensures below { IfSome result (λ area. area.number < most_areas) }
        ensures sound { IsSoundAreas self.now }
    {
        let number = self.table.next_scanned(from)?;
        let area = match self.table.area(number) {
            Some(area) => area,
            None => unreachable!(),
        };
        Some(ScannedArea {
            number,
            base: area.base,
            cells: area.cells,
        })
    }

    /// The word of a cell of a scanned area.
    pub fn word<L: Ledger>(
        &self,
        heap: &Heap,
        area: ScannedArea,
        s: u32,
        steps: &mut Steps<L>,
    ) -> u32
        requires scanned { IsScanned self.now area }
        requires within { s < area.cells }
        requires beside { IsBeside self.now heap.now }
        ensures word { result ≡ slice_index (cell_words heap.now.raw area.base area.cells) s }
        ensures sound { IsSoundAreas self.now }
        ensures cost { steps.new ≡ steps.old + 1 }
    {
        prove!(area.base / PAGE_BYTES < heap.size());
        heap.raw(area.base + CELL_BYTES * s, steps)
    }
}
