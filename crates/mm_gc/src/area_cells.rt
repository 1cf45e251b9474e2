// The cells of areas, which commands read and write.
ghost use Rattle.std.specs.Prelude.{◌≡◌, ◌==◌, ◌||◌, ◌+◌, ◌*◌, ◌≤◌, ℕ, map, take, true, false, Some, OnErr};
ghost use Rattle.std.specs.Prelude.{slice_index};
ghost use Rattle.mm_model.specs.declared.command.Command.TheVariants as commands;
ghost use Rattle.mm_object.specs.Object.{views_of};
ghost use Rattle.mm_object.specs.Heap.{IsSound};
ghost use Rattle.mm_count.specs.Table.{Table, IsRight, IsSameTable};
ghost use Rattle.mm_count.specs.Counts.{IsCountedBy, NamesCounted, KeepsObjects, one_more};
ghost use Rattle.mm_count.specs.Sticky.{with_sticky};
ghost use Rattle.mm_gc.specs.AreaCells.{AreaCellAnswer, HoldsCount, IsReplaced, CanReplace, word_in};
ghost use Rattle.mm_gc.specs.AreaCells.{AreaStore, ShowsCell, IsCellStored, IsStoreAt, IsCountedCell, HasCountedCell};
ghost use Rattle.mm_gc.specs.AreaCells.{HasSlotAt, CellStoreAnswer, CanLower, CanLowerAll, HasCells, outside_with};
ghost use Rattle.mm_model.specs.Store.{is_counted_slot};
ghost use Rattle.mm_model.specs.declared.reply.Put.TheVariants.{Tight};
ghost use Rattle.mm_model.specs.Views.ViewWords.{begins_counted_in, cell_kind_of};
ghost use Rattle.mm_roots.specs.Areas.{HasCell, IsBeside, area_at};
ghost use Rattle.mm_roots.specs.declared.area_shape.AreaShape.{AreaShape};
ghost use Rattle.mm_roots.specs.Views.{area_words, slot_in, views_of_areas, with_cell};
ghost use Rattle.mm_gc.specs.Gc.{view_of_gc};
ghost use Rattle.mm_gc.specs.Replies.{done_reply, put_reply, word_reply};
ghost use Rattle.mm_gc.specs.Rows.{Answers};
ghost use Rattle.mm_gc.specs.Counts.{HasCounts};
ghost use Rattle.mm_gc.specs.Steps.{IsDropCost};

use crate::gc::Gc;
use crate::slots::{is_tight, looseness};
use mm_count::ZeroTable;
use mm_model::{Put, Refusal};
use mm_object::{Heap, Slot};
use mm_roots::{AreaRefusal, Areas};
use mm_steps::Steps;
use std::sync::ledger::Ledger;

/// The word, whatever the kind of its cell.
fn word_in(slot: Slot) -> u32
    ensures { result ≡ word_in slot }
{
    match slot {
        Slot::Count(word) | Slot::Word(word) | Slot::Raw(word) => word,
    }
}

/// A cell of the area that has a number.
#[derive(Clone, Copy, Debug, PartialEq, Eq)]
struct AreaCell {
    number: u32,
    cell: u32,
}

/// One more counted place holds the word, which counts where it isn't 0.
fn raise_word<L: Ledger>(heap: &mut Heap, count: &mut ZeroTable, word: u32, steps: &mut Steps<L>)
    requires named { NamesCounted heap.old.objects word }
    requires right { IsRight count.old heap.old }
    requires sound { IsSound heap.old }
    ensures counts { (outside : ℕ → ℕ) → HasCounts count.old heap.old outside
        → HasCounts count.new heap.new (one_more outside word) }
    ensures views { (outside : ℕ → ℕ) → IsCountedBy heap.old.objects outside
        → views_of heap.new.objects ≡ with_sticky (one_more outside word) word (views_of heap.old.objects) }
    ensures objects { KeepsObjects heap.old.objects heap.new.objects }
    ensures table { IsSameTable count.old count.new }
    ensures rest { heap.new ≡ record heap.old { objects = heap.new.objects } }
    ensures sound { IsSound heap.new }
    ensures cost { steps.new ≤ steps.old + 8 }
{
    if word == 0 {
        return;
    }
    count.raise(heap, word, steps);
}

/// One counted place fewer holds the word.
fn lower_word<L: Ledger>(heap: &mut Heap, count: &mut ZeroTable, word: u32, steps: &mut Steps<L>)
    requires named { NamesCounted heap.old.objects word }
    requires counted { HoldsCount heap.old.objects word }
    requires right { IsRight count.old heap.old }
    requires sound { IsSound heap.old }
    ensures counts { (outside : ℕ → ℕ) → HasCounts count.old heap.old (one_more outside word)
        → HasCounts count.new heap.new outside }
    ensures views { views_of heap.new.objects ≡ views_of heap.old.objects }
    ensures objects { KeepsObjects heap.old.objects heap.new.objects }
    ensures table { IsSameTable count.old count.new }
    ensures rest { heap.new ≡ record heap.old { objects = heap.new.objects } }
    ensures sound { IsSound heap.new }
    ensures cost { steps.new ≤ steps.old + 8 }
{
    if word == 0 {
        return;
    }
    count.lower(heap, word, steps);
}

/// Gives a counted cell another word. What the new word names is raised before what the old one names is lowered.
fn replace_word<L: Ledger>(
    heap: &mut Heap,
    areas: &mut Areas,
    count: &mut ZeroTable,
    at: AreaCell,
    old: u32,
    word: u32,
    steps: &mut Steps<L>,
)
    requires cell { HasCell areas.old at.number at.cell }
    requires beside { IsBeside areas.old heap.old }
    requires counting { CanReplace count.old heap.old old word }
    requires sound { IsSound heap.old }
    ensures counts { (before after : ℕ → ℕ) → IsReplaced old word before after
        → HasCounts count.old heap.old before
        → HasCounts count.new heap.new after }
    ensures views { (before after : ℕ → ℕ) → IsReplaced old word before after → IsCountedBy heap.old.objects before
        → views_of heap.new.objects ≡ with_sticky after word (views_of heap.old.objects) }
    ensures areas { areas.new ≡ areas.old }
    ensures cells { views_of_areas areas.new heap.new.raw
        ≡ map (with_cell at.number at.cell word) (views_of_areas areas.old heap.old.raw) }
    ensures beside { IsBeside areas.new heap.new }
    ensures table { IsSameTable count.old count.new }
    ensures rest { heap.new ≡ record heap.old { objects = heap.new.objects; raw = heap.new.raw } }
    ensures sound { IsSound heap.new }
    ensures cost { steps.new ≤ steps.old + 17 }
{
    raise_word(heap, count, word, steps);
    match areas.set_cell(heap, at.number, at.cell, word, steps) {
        Ok(()) => {}
        Err(_) => unreachable!(),
    }
    lower_word(heap, count, old, steps);
}

/// Writes a cell that isn't counted.
fn write_uncounted_cell<L: Ledger>(
    heap: &mut Heap,
    areas: &mut Areas,
    at: AreaCell,
    word: u32,
    steps: &mut Steps<L>,
) -> Put
    requires cell { HasCell areas.old at.number at.cell }
    requires beside { IsBeside areas.old heap.old }
    ensures answer { (table : Table) (store : AreaStore)
        → ShowsCell (record { table = table; heap = heap.old; areas = areas.old }) at.number store
        → store.cell ≡ at.cell → store.word ≡ word → is_counted_slot (cell_kind_of store.area store.cell) ≡ false
        → IsCellStored store (record { table = table; heap = heap.new; areas = areas.new }) result }
    ensures areas { areas.new ≡ areas.old }
    ensures beside { IsBeside areas.new heap.new }
    ensures rest { heap.new ≡ record heap.old { objects = heap.new.objects; raw = heap.new.raw } }
    ensures sound { IsSound heap.new }
    ensures cost { steps.new ≤ steps.old + 2 }
{
    let answer = looseness(heap, word, steps);
    match areas.set_cell(heap, at.number, at.cell, word, steps) {
        Ok(()) => answer,
        Err(_) => unreachable!(),
    }
}

/// Writes a word that a counted cell takes. The counts follow where the cell held another word.
fn write_tight_word<L: Ledger>(
    heap: &mut Heap,
    areas: &mut Areas,
    count: &mut ZeroTable,
    at: AreaCell,
    old: u32,
    word: u32,
    steps: &mut Steps<L>,
)
    requires cell { HasCell areas.old at.number at.cell }
    requires beside { IsBeside areas.old heap.old }
    requires store { HasCountedCell (record { table = count.old; heap = heap.old; areas = areas.old })
        at.number at.cell word old }
    requires tight { (word == 0 || begins_counted_in (views_of heap.old.objects) word) ≡ true }
    requires sound { IsSound heap.old }
    ensures answer { (store : AreaStore)
        → IsStoreAt (record { table = count.old; heap = heap.old; areas = areas.old }) at.number at.cell word store
        → IsCountedCell store old
        → IsCellStored store (record { table = count.new; heap = heap.new; areas = areas.new }) Tight }
    ensures areas { areas.new ≡ areas.old }
    ensures beside { IsBeside areas.new heap.new }
    ensures table { IsSameTable count.old count.new }
    ensures rest { heap.new ≡ record heap.old { objects = heap.new.objects; raw = heap.new.raw } }
    ensures sound { IsSound heap.new }
    ensures cost { steps.new ≤ steps.old + 17 }
{
    if old != word {
        replace_word(heap, areas, count, at, old, word, steps);
        return;
    }
    match areas.set_cell(heap, at.number, at.cell, word, steps) {
        Ok(()) => {}
        Err(_) => unreachable!(),
    }
}

/// Writes a counted cell, which takes only what is tight.
fn write_counted_cell<L: Ledger>(
    heap: &mut Heap,
    areas: &mut Areas,
    count: &mut ZeroTable,
    at: AreaCell,
    old: u32,
    word: u32,
    steps: &mut Steps<L>,
) -> Result<Put, Refusal>
    requires cell { HasCell areas.old at.number at.cell }
    requires beside { IsBeside areas.old heap.old }
    requires store { HasCountedCell (record { table = count.old; heap = heap.old; areas = areas.old })
        at.number at.cell word old }
    requires sound { IsSound heap.old }
    ensures answer { (store : AreaStore)
        → IsStoreAt (record { table = count.old; heap = heap.old; areas = areas.old }) at.number at.cell word store
        → IsCountedCell store old
        → CellStoreAnswer store (record { table = count.new; heap = heap.new; areas = areas.new }) result }
    ensures areas { areas.new ≡ areas.old }
    ensures beside { IsBeside areas.new heap.new }
    ensures table { IsSameTable count.old count.new }
    ensures rest { heap.new ≡ record heap.old { objects = heap.new.objects; raw = heap.new.raw } }
    ensures same_table { OnErr result (count.new ≡ count.old) }
    ensures same_heap { OnErr result (heap.new ≡ heap.old) }
    ensures sound { IsSound heap.new }
    ensures cost { steps.new ≤ steps.old + 18 }
{
    if !is_tight(heap, word, steps) {
        return Err(Refusal::NotCounted);
    }
    write_tight_word(heap, areas, count, at, old, word, steps);
    Ok(Put::Tight)
}

/// Writes a cell. A counted one takes only what is tight, and the counts follow.
fn write_cell<L: Ledger>(
    heap: &mut Heap,
    areas: &mut Areas,
    count: &mut ZeroTable,
    at: AreaCell,
    slot: Slot,
    word: u32,
    steps: &mut Steps<L>,
) -> Result<Put, Refusal>
    requires cell { HasCell areas.old at.number at.cell }
    requires beside { IsBeside areas.old heap.old }
    requires store { HasSlotAt (record { table = count.old; heap = heap.old; areas = areas.old })
        at.number at.cell word slot }
    requires sound { IsSound heap.old }
    ensures answer { (store : AreaStore)
        → IsStoreAt (record { table = count.old; heap = heap.old; areas = areas.old }) at.number at.cell word store
        → slot ≡ slot_in store.area store.cell
        → CellStoreAnswer store (record { table = count.new; heap = heap.new; areas = areas.new }) result }
    ensures areas { areas.new ≡ areas.old }
    ensures table { IsSameTable count.old count.new }
    ensures rest { heap.new ≡ record heap.old { objects = heap.new.objects; raw = heap.new.raw } }
    ensures same_table { OnErr result (count.new ≡ count.old) }
    ensures same_heap { OnErr result (heap.new ≡ heap.old) }
    ensures sound { IsSound heap.new }
    ensures cost { steps.new ≤ steps.old + 18 }
{
    match slot {
        Slot::Count(old) => write_counted_cell(heap, areas, count, at, old, word, steps),
        Slot::Word(_) | Slot::Raw(_) => Ok(write_uncounted_cell(heap, areas, at, word, steps)),
    }
}

/// One counted place fewer holds the word of a cell, which keeps it.
fn lower_cell<L: Ledger>(
    heap: &mut Heap,
    areas: &Areas,
    count: &mut ZeroTable,
    number: u32,
    s: u32,
    steps: &mut Steps<L>,
)
    requires cell { HasCell areas.now number s }
    requires beside { IsBeside areas.now heap.old }
    requires can { (area : AreaShape) → area_at areas.now number ≡ Some area
        → CanLower count.old heap.old (slice_index (area_words heap.old.raw area) s) }
    requires sound { IsSound heap.old }
    ensures counts { (area : AreaShape) (outside : ℕ → ℕ) → area_at areas.now number ≡ Some area
        → HasCounts count.old heap.old (one_more outside (slice_index (area_words heap.old.raw area) s))
        → HasCounts count.new heap.new outside }
    ensures views { views_of heap.new.objects ≡ views_of heap.old.objects }
    ensures table { IsSameTable count.old count.new }
    ensures rest { heap.new ≡ record heap.old { objects = heap.new.objects } }
    ensures sound { IsSound heap.new }
    ensures cost { steps.new ≤ steps.old + 9 }
{
    match areas.cell(heap, number, s, steps) {
        Ok(slot) => lower_word(heap, count, word_in(slot), steps),
        Err(_) => unreachable!(),
    }
}

/// One counted place fewer holds the word of each of the first cells of an area, which is about to go.
fn lower_cells<L: Ledger>(
    heap: &mut Heap,
    areas: &Areas,
    count: &mut ZeroTable,
    number: u32,
    counted: u32,
    steps: &mut Steps<L>,
)
    requires cells { HasCells areas.now number counted }
    requires beside { IsBeside areas.now heap.old }
    requires can { (area : AreaShape) → area_at areas.now number ≡ Some area
        → CanLowerAll count.old heap.old (take counted (area_words heap.old.raw area)) }
    requires sound { IsSound heap.old }
    ensures counts { (area : AreaShape) (others : ℕ → ℕ) → area_at areas.now number ≡ Some area
        → HasCounts count.old heap.old (outside_with (take counted (area_words heap.old.raw area)) others)
        → HasCounts count.new heap.new others }
    ensures views { views_of heap.new.objects ≡ views_of heap.old.objects }
    ensures table { IsSameTable count.old count.new }
    ensures rest { heap.new ≡ record heap.old { objects = heap.new.objects } }
    ensures sound { IsSound heap.new }
    ensures cost { steps.new ≤ steps.old + 9 * counted }
{
    for s in 0..counted {
        lower_cell(heap, areas, count, number, s, steps);
    }
}

impl Gc {
    /// The word of a cell of an area, by the kind of the cell.
    fn area_cell<L: Ledger>(
        &self,
        number: u32,
        s: u32,
        steps: &mut Steps<L>,
    ) -> Result<Slot, Refusal>
        ensures answer { AreaCellAnswer (view_of_gc self.now) number s result }
        ensures cost { steps.new ≤ steps.old + 1 }
    {
        match self.region.areas.cell(&self.region.heap, number, s, steps) {
            Ok(slot) => Ok(slot),
            Err(AreaRefusal::NoArea) => Err(Refusal::NoArea),
            Err(AreaRefusal::NoSlot) => Err(Refusal::NoSlot),
            Err(AreaRefusal::AreasFull) => unreachable!(),
            Err(AreaRefusal::NoRun) => unreachable!(),
        }
    }

    /// Pushes the word of a cell of an area.
    pub fn area_get<L: Ledger>(
        &mut self,
        number: u32,
        s: u32,
        steps: &mut Steps<L>,
    ) -> Result<u32, Refusal>
        ensures row { Answers self.old self.new (commands.AreaGet number s) (word_reply result) }
        ensures cost { steps.new ≤ steps.old + 1 }
    {
        let slot = self.area_cell(number, s, steps)?;
        self.push_word(word_in(slot))
    }

    /// Writes the word of stack cell `j` into a cell of an area.
    pub fn area_put<L: Ledger>(
        &mut self,
        number: u32,
        s: u32,
        j: u32,
        steps: &mut Steps<L>,
    ) -> Result<Put, Refusal>
        ensures row { Answers self.old self.new (commands.AreaPut number s j) (put_reply result) }
        ensures cost { steps.new ≤ steps.old + 20 }
    {
        let word = self.cell(j, steps)?;
        let slot = self.area_cell(number, s, steps)?;
        write_cell(
            &mut self.region.heap,
            &mut self.region.areas,
            &mut self.count,
            AreaCell { number, cell: s },
            slot,
            word,
            steps,
        )
    }

    /// Gives an area back, once its counted cells hold no counts.
    pub fn drop_area<L: Ledger>(&mut self, number: u32, steps: &mut Steps<L>) -> Result<(), Refusal>
        ensures row { Answers self.old self.new (commands.DropArea number) (done_reply result) }
        ensures cost { IsDropCost self.old number steps.old steps.new }
    {
        let Some(area) = self.region.areas.shape(number) else {
            return Err(Refusal::NoArea);
        };
        lower_cells(
            &mut self.region.heap,
            &self.region.areas,
            &mut self.count,
            number,
            area.counted,
            steps,
        );
        self.region.remove_area(number, steps);
        Ok(())
    }
}
