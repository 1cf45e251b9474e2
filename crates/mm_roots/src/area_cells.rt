// The cells of areas.
ghost use Rattle.std.specs.Prelude.{◌≡◌, ℕ, ◌+◌, ◌*◌, ◌/◌, ◌<◌, ◌≤◌, ◌^◌, List, Option, Some, map, IfOk, OnErr};
ghost use Rattle.std.specs.Prelude.{slice_get, slice_index};
ghost use Rattle.mm_object.specs.Heap.{with_raw, IsSound};
ghost use Rattle.mm_roots.specs.declared.area_shape.AreaShape.{AreaShape};
ghost use Rattle.mm_roots.specs.Areas.{area_at, CellCause, ClearsCells, IsSoundAreas, IsBeside};
ghost use Rattle.mm_roots.specs.Views.{views_of_areas, view_of_area, with_cell, slot_in};

use crate::area_shape::{AreaRefusal, AreaShape};
use crate::area_table::CELL_BYTES;
use crate::areas::Areas;
use mm_cells::PAGE_BYTES;
use mm_object::{Heap, Slot};
use mm_steps::Steps;
use std::sync::ledger::Ledger;

/// Writes 0 into so many cells from a base on. Each of them counts.
pub(crate) fn clear_cells<L: Ledger>(heap: &mut Heap, base: u32, cells: u32, steps: &mut Steps<L>)
    requires aligned { base ≡ 4 * (base / 4) }
    requires most { base + 4 * cells < 2 ^ 32 }
    requires raw { (s : ℕ) → s < cells → (word : ℕ) × (slice_get heap.old.raw (base / 4 + s) ≡ Some (Some word)) }
    requires sound { IsSound heap.old }
    ensures cleared { ClearsCells heap.old heap.new base cells }
    ensures sound { IsSound heap.new }
    ensures cost { steps.new ≡ steps.old + cells }
{
    for s in 0..cells {
        heap.set_raw(base + CELL_BYTES * s, 0, steps);
    }
}

impl Areas {
    /// The area of a cell.
    fn area_of(&self, a: u32, s: u32) -> Result<AreaShape, AreaRefusal>
        ensures cause { CellCause self.now a s result }
        ensures area { IfOk result (λ area. area_at self.now a ≡ Some area) }
        ensures within { IfOk result (λ area. s < area.cells) }
        ensures sound { IsSoundAreas self.now }
    {
        match self.table.area(a) {
            None => Err(AreaRefusal::NoArea),
            Some(area) => {
                if s < area.cells {
                    Ok(area)
                } else {
                    Err(AreaRefusal::NoSlot)
                }
            }
        }
    }

    /// The word of a cell, by the kind of the cell.
    pub fn cell<L: Ledger>(
        &self,
        heap: &Heap,
        a: u32,
        s: u32,
        steps: &mut Steps<L>,
    ) -> Result<Slot, AreaRefusal>
        requires { IsBeside self.now heap.now }
        ensures cause { CellCause self.now a s result }
        ensures slot { IfOk result (λ slot. (area : AreaShape) → area_at self.now a ≡ Some area
            → slot ≡ slot_in (view_of_area heap.now.raw a area) s) }
        ensures cost { steps.new ≡ steps.old + 1 }
    {
        let area = match self.area_of(a, s) {
            Ok(area) => area,
            Err(refused) => {
                steps.tick();
                return Err(refused);
            }
        };
        prove!(area.base / PAGE_BYTES < heap.size());
        let word = heap.raw(area.base + CELL_BYTES * s, steps);
        Ok(Slot::of(area.scanned, area.counted, s, word))
    }

    /// Writes a word into a cell.
    pub fn set_cell<L: Ledger>(
        &mut self,
        heap: &mut Heap,
        a: u32,
        s: u32,
        w: u32,
        steps: &mut Steps<L>,
    ) -> Result<(), AreaRefusal>
        requires { IsBeside self.old heap.old }
        ensures cause { CellCause self.old a s result }
        ensures areas { self.new ≡ self.old }
        ensures written { IfOk result (λ _. (area : AreaShape) → area_at self.old a ≡ Some area
            → heap.new ≡ with_raw heap.old (area.base + 4 * s) w) }
        ensures views { IfOk result (λ _. views_of_areas self.new heap.new.raw
            ≡ map (with_cell a s w) (views_of_areas self.old heap.old.raw)) }
        ensures unchanged { OnErr result (heap.new ≡ heap.old) }
        ensures beside { IsBeside self.new heap.new }
        ensures sound { IsSoundAreas self.new }
        ensures heap_sound { IfOk result (λ _. IsSound heap.new) }
        ensures cost { steps.new ≡ steps.old + 1 }
    {
        let area = match self.area_of(a, s) {
            Ok(area) => area,
            Err(refused) => {
                steps.tick();
                return Err(refused);
            }
        };
        prove!(area.base / PAGE_BYTES < heap.size());
        heap.set_raw(area.base + CELL_BYTES * s, w, steps);
        Ok(())
    }
}
