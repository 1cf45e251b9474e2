// Graying what the stack and the scanned areas name.
ghost use Rattle.std.specs.Prelude.{◌≡◌, ◌+◌, ◌*◌, ◌++◌, length, take};
ghost use Rattle.std.specs.List.{flat_map};
ghost use Rattle.mm_model.specs.Views.ViewWords.{scanned_cells_of};
ghost use Rattle.mm_object.specs.Object.{views_of};
ghost use Rattle.mm_object.specs.Heap.{IsSound};
ghost use Rattle.mm_roots.specs.Areas.{IsScanned, IsBeside};
ghost use Rattle.mm_roots.specs.Views.{cell_words, views_of_areas};
ghost use Rattle.mm_mark.specs.Marker.{IsSameButQueue, AreKnown, marking};
ghost use Rattle.mm_mark.specs.Stale.{KeepsFewStale};
ghost use Rattle.mm_mark.specs.Colours.{IsGrayed, root_words};

use crate::marker::Marker;
use mm_object::Heap;
use mm_roots::{Areas, ScannedArea, Stack};
use mm_steps::Steps;
use std::sync::ledger::Ledger;

impl Marker {
    /// Shades each word of the stack and of the scanned areas.
    pub(crate) fn shade_roots<L: Ledger>(
        &mut self,
        heap: &mut Heap,
        stack: &Stack,
        areas: &Areas,
        steps: &mut Steps<L>,
    )
        requires known { AreKnown self.old (views_of heap.old.objects) }
        requires beside { IsBeside areas.now heap.old }
        ensures grayed { IsGrayed heap.old heap.new (root_words stack.now areas.now heap.old) }
        ensures cycle { IsSameButQueue self.old self.new }
        ensures known { AreKnown self.new (views_of heap.new.objects) }
        ensures sound { IsSound heap.old → IsSound heap.new }
        ensures few { KeepsFewStale (marking self.old heap.old) (marking self.new heap.new) }
        ensures cost { steps.new ≡ steps.old + 2 * length (root_words stack.now areas.now heap.old) }
    {
        self.shade_words(heap, stack.words(steps), steps);
        self.shade_areas(heap, areas, steps);
    }

    /// Shades each word of the scanned areas.
    fn shade_areas<L: Ledger>(&mut self, heap: &mut Heap, areas: &Areas, steps: &mut Steps<L>)
        requires known { AreKnown self.old (views_of heap.old.objects) }
        requires beside { IsBeside areas.now heap.old }
        ensures grayed { IsGrayed heap.old heap.new
            (flat_map scanned_cells_of (views_of_areas areas.now heap.old.raw)) }
        ensures cycle { IsSameButQueue self.old self.new }
        ensures known { AreKnown self.new (views_of heap.new.objects) }
        ensures sound { IsSound heap.old → IsSound heap.new }
        ensures few { KeepsFewStale (marking self.old heap.old) (marking self.new heap.new) }
        ensures cost { steps.new ≡ steps.old
            + 2 * length (flat_map scanned_cells_of (views_of_areas areas.now heap.old.raw)) }
    {
        let mut from = 0;
        'areas: while let Some(area) = areas.next_scanned(from) {
            self.shade_area(heap, areas, area, steps);
            from = area.number + 1;
        }
    }

    /// Shades each word of one area.
    fn shade_area<L: Ledger>(
        &mut self,
        heap: &mut Heap,
        areas: &Areas,
        area: ScannedArea,
        steps: &mut Steps<L>,
    )
        requires scanned { IsScanned areas.now area }
        requires known { AreKnown self.old (views_of heap.old.objects) }
        requires beside { IsBeside areas.now heap.old }
        ensures grayed { IsGrayed heap.old heap.new (cell_words heap.old.raw area.base area.cells) }
        ensures cycle { IsSameButQueue self.old self.new }
        ensures known { AreKnown self.new (views_of heap.new.objects) }
        ensures sound { IsSound heap.old → IsSound heap.new }
        ensures few { KeepsFewStale (marking self.old heap.old) (marking self.new heap.new) }
        ensures cost { steps.new ≡ steps.old + 2 * area.cells }
    {
        for s in 0..area.cells {
            let word = areas.word(heap, area, s, steps);
            self.shade(heap, word, steps);
        }
    }
}
