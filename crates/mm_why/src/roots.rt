// The objects in which the words of the stack and of the scanned areas fall.
ghost use Rattle.std.specs.Prelude.{◌≡◌, ℕ, ◌+◌, ◌*◌, ◌≤◌, List, [], length};
ghost use Rattle.std.specs.List.{flat_map};
ghost use Rattle.mm_model.specs.Views.View.{AreaView};
ghost use Rattle.mm_model.specs.Views.ViewWords.{scanned_cells_of};
ghost use Rattle.mm_object.specs.Object.{views_of};
ghost use Rattle.mm_roots.specs.Areas.{IsScanned, IsBeside};
ghost use Rattle.mm_roots.specs.Views.{cell_words, views_of_areas};
ghost use Rattle.mm_why.specs.Path.{shown_by, root_words_of};
ghost use Rattle.mm_why.specs.Queue.{AreShort, IsGrown};
ghost use Rattle.mm_why.specs.Search.{shown_with, HaveReasons, AreWordsFound};

use crate::found::Lead;
use crate::hop::Via;
use crate::queue::Queue;
use mm_object::Heap;
use mm_roots::{Areas, ScannedArea, Stack};
use mm_steps::Steps;
use std::sync::ledger::Ledger;

impl Queue {
    /// Notes the words of the stack from the top, and then those of the scanned areas by number.
    pub(crate) fn note_roots<L: Ledger>(
        &mut self,
        heap: &Heap,
        stack: &Stack,
        areas: &Areas,
        steps: &mut Steps<L>,
    )
        requires none { self.old.found ≡ [] }
        requires room { 256 * heap.now.size ≤ self.old.places }
        requires beside { IsBeside areas.now heap.now }
        ensures reasons { HaveReasons (shown_by heap.now stack.now areas.now) self.new.found }
        ensures found { AreWordsFound (views_of heap.now.objects) self.new.found
            (root_words_of (shown_by heap.now stack.now areas.now)) 1 }
        ensures short { AreShort self.new.found 1 }
        ensures places { self.new.places ≡ self.old.places }
        ensures cost { steps.new ≡ steps.old + 2 * length (root_words_of (shown_by heap.now stack.now areas.now)) }
    {
        self.note_stack(heap, stack, steps);
        self.note_areas(heap, areas, steps);
    }

    /// Notes the words of the stack.
    fn note_stack<L: Ledger>(&mut self, heap: &Heap, stack: &Stack, steps: &mut Steps<L>)
        requires none { self.old.found ≡ [] }
        requires room { 256 * heap.now.size ≤ self.old.places }
        ensures reasons { (areas : List AreaView) →
            HaveReasons (shown_with (views_of heap.now.objects) stack.now.words areas) self.new.found }
        ensures found { AreWordsFound (views_of heap.now.objects) self.new.found stack.now.words 1 }
        ensures short { AreShort self.new.found 1 }
        ensures places { self.new.places ≡ self.old.places }
        ensures cost { steps.new ≡ steps.old + 2 * length stack.now.words }
    {
        for cell in 0..stack.depth() {
            let word = stack.cell(cell, steps);
            self.note(heap, word, Lead::outside(Via::Stack { cell }), steps);
        }
    }

    /// Notes the words of the scanned areas.
    fn note_areas<L: Ledger>(&mut self, heap: &Heap, areas: &Areas, steps: &mut Steps<L>)
        requires short { AreShort self.old.found 1 }
        requires room { 256 * heap.now.size ≤ self.old.places }
        requires beside { IsBeside areas.now heap.now }
        ensures reasons { (stack : List ℕ) →
            let shown = shown_with (views_of heap.now.objects) stack (views_of_areas areas.now heap.now.raw) in
            HaveReasons shown self.old.found → HaveReasons shown self.new.found }
        ensures found { AreWordsFound (views_of heap.now.objects) self.new.found
            (flat_map scanned_cells_of (views_of_areas areas.now heap.now.raw)) 1 }
        ensures short { AreShort self.new.found 1 }
        ensures grown { IsGrown self.old.found self.new.found }
        ensures places { self.new.places ≡ self.old.places }
        ensures cost { steps.new ≡ steps.old
            + 2 * length (flat_map scanned_cells_of (views_of_areas areas.now heap.now.raw)) }
    {
        let mut from = 0;
        'areas: while let Some(area) = areas.next_scanned(from) {
            self.note_area(heap, areas, area, steps);
            from = area.number + 1;
        }
    }

    /// Notes the words of one area.
    fn note_area<L: Ledger>(
        &mut self,
        heap: &Heap,
        areas: &Areas,
        area: ScannedArea,
        steps: &mut Steps<L>,
    )
        requires scanned { IsScanned areas.now area }
        requires short { AreShort self.old.found 1 }
        requires room { 256 * heap.now.size ≤ self.old.places }
        requires beside { IsBeside areas.now heap.now }
        ensures reasons { (stack : List ℕ) →
            let shown = shown_with (views_of heap.now.objects) stack (views_of_areas areas.now heap.now.raw) in
            HaveReasons shown self.old.found → HaveReasons shown self.new.found }
        ensures found { AreWordsFound (views_of heap.now.objects) self.new.found
            (cell_words heap.now.raw area.base area.cells) 1 }
        ensures short { AreShort self.new.found 1 }
        ensures grown { IsGrown self.old.found self.new.found }
        ensures places { self.new.places ≡ self.old.places }
        ensures cost { steps.new ≡ steps.old + 2 * area.cells }
    {
        for cell in 0..area.cells {
            let word = areas.word(heap, area, cell, steps);
            let via = Via::Area {
                area: area.number,
                cell,
            };
            self.note(heap, word, Lead::outside(via), steps);
        }
    }
}
