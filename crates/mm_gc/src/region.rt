// The region: objects and areas in pages, which it gets and gives back as they need them.
ghost use Rattle.std.specs.Prelude.{◌≡◌, ◌+◌, ◌≤◌, ◌<◌, ◌/◌, ◌==◌, min, not, false, length, take, Some, None, IfSome};
ghost use Rattle.std.specs.Prelude.{slice_get};
ghost use Rattle.std.specs.Int.{div_ceil};
ghost use Rattle.std.specs.List.{filter};
ghost use Rattle.std.specs.Option.{option_map};
ghost use Rattle.mm_model.specs.Areas.{most_areas};
ghost use Rattle.mm_model.specs.Views.ByBase.{Begins, with_entry};
ghost use Rattle.mm_model.specs.Places.Place as places;
ghost use Rattle.mm_model.specs.Places.Place.{Family, Objects, place_among};
ghost use Rattle.mm_model.specs.Places.SizeClass.{size_of, object_bytes, area_bytes};
ghost use Rattle.mm_model.specs.Views.View.{View};
ghost use Rattle.mm_model.specs.Views.ViewEffect.{new_area_view, view_area_inserted, view_free_number};
ghost use Rattle.mm_model.specs.Views.ViewPhase.{view_phase_lines};
ghost use Rattle.mm_pages.specs.Pages as heaps;
ghost use Rattle.mm_object.specs.Object.{StoredObject, newly_stored};
ghost use Rattle.mm_object.specs.Header.{IsShape};
ghost use Rattle.mm_object.specs.Heap as objects;
ghost use Rattle.mm_sweep.specs.Release.{finalized_slots, IsReleaseCost};
ghost use Rattle.mm_weak.specs.Links.{IsLinked, IsTarget, partner_of, with_weak, newly_weak, kept_in, made_in};
ghost use Rattle.mm_gc.specs.Gc.{objects_in, areas_in, pieces_in, pages_needed};
ghost use Rattle.mm_gc.specs.Kept.{KeepsRegion, IsSettled};
ghost use Rattle.mm_gc.specs.Regions.{IsSameRegion, IsSameInside, limit_in, IsReleasable, IsReleased};
ghost use Rattle.mm_sweep.specs.Told.{IsToldOf};

use crate::wanted::{AreaWanted, Reach};
use mm_cells::PAGE_BYTES;
use mm_model::{AreaAnswer, Colour, Phase, Shape, WeakAnswer};
use mm_object::Heap;
use mm_pages::{NoRun, PageHeap};
use mm_roots::Areas;
use mm_steps::Steps;
use mm_sweep::{Journal, release};
use mm_weak::weak_of;
use mm_words::{Arena, Words};
use std::sync::ledger::Ledger;

/// The bytes of a slot, and of a cell of an area.
const WORD_BYTES: u32 = 4;

/// The bytes of an object without slots, as a weak object is.
const HEADER_BYTES: u32 = 16;

/// Objects and areas with the pages that they lie in, and the arena of all words. Its memory is the arena's last piece.
pub(crate) struct Region {
    pub(crate) arena: Arena,
    pub(crate) pages: PageHeap,
    pub(crate) heap: Heap,
    pub(crate) areas: Areas,
    // How many pages it has at least, and at most.
    pub(crate) least: u32,
    pub(crate) most: u32,
}

/// The base of a weak object that was made.
fn made_base(made: Result<WeakAnswer, NoRun>) -> Option<u32>
    requires { kept_in made ≡ None }
    ensures { result ≡ made_in made }
{
    match made {
        Ok(WeakAnswer::Made(w)) => Some(w),
        Ok(WeakAnswer::Kept(_)) => unreachable!(),
        Err(NoRun) => None,
    }
}

impl Region {
    /// Gives the region so many pages. Most often it has them already.
    #[inline]
    fn resize(&mut self, size: u32)
        requires keeps { KeepsRegion self.old }
        requires two { 2 ≤ size }
        requires most { size ≤ self.old.most }
        requires pages { heaps.EndsBy self.old.pages size }
        requires objects { objects.EndsBy self.old.heap size }
        ensures size { self.new.heap.size ≡ size }
        ensures inside { IsSameInside self.old self.new }
        ensures same { IsSameRegion self.old self.new }
        ensures keeps { KeepsRegion self.new }
    {
        if self.heap.size() != size {
            self.move_end(size);
        }
    }

    /// Moves the end of the memory and the limit to where the region has so many pages.
    #[cold]
    #[inline(never)]
    fn move_end(&mut self, size: u32)
        requires keeps { KeepsRegion self.old }
        requires two { 2 ≤ size }
        requires most { size ≤ self.old.most }
        requires pages { heaps.EndsBy self.old.pages size }
        requires objects { objects.EndsBy self.old.heap size }
        ensures size { self.new.heap.size ≡ size }
        ensures inside { IsSameInside self.old self.new }
        ensures same { IsSameRegion self.old self.new }
        ensures keeps { KeepsRegion self.new }
    {
        if self.heap.size() < size {
            self.heap.resize(&mut self.arena, size);
            self.pages.set_limit(size);
        } else {
            self.pages.set_limit(size);
            self.heap.resize(&mut self.arena, size);
        }
    }

    /// Gives back the pages that it doesn't need, or takes those that it does.
    #[inline]
    pub(crate) fn settle(&mut self)
        requires { KeepsRegion self.old }
        ensures inside { IsSameInside self.old self.new }
        ensures same { IsSameRegion self.old self.new }
        ensures settled { IsSettled self.new }
    {
        let needed = self.least.max(self.pages.top());
        self.resize(needed);
    }

    /// How many pages are enough for a search for so many bytes. Behind the pages that the region needs all are free,
    /// so the search finds no place past as many of them as the bytes take.
    fn enough_for(&self, bytes: u32) -> u32
        requires most { bytes ≤ 4194316 }
        requires settled { IsSettled self.now }
        ensures { result ≡ min (pages_needed self.now + div_ceil bytes 4096) self.now.most }
    {
        let enough = self.heap.size() + bytes.div_ceil(PAGE_BYTES);
        enough.min(self.most)
    }

    /// Lets a search for so many bytes go so far.
    #[inline]
    fn open(&mut self, reach: Reach, bytes: u32)
        requires some { 1 ≤ bytes }
        requires most { bytes ≤ 4194316 }
        requires settled { IsSettled self.old }
        ensures place { (family : Family) → place_among (pieces_in self.new) self.new.pages.limit family (size_of bytes)
            ≡ place_among (pieces_in self.old) (limit_in reach self.old) family (size_of bytes) }
        ensures inside { IsSameInside self.old self.new }
        ensures same { IsSameRegion self.old self.new }
        ensures keeps { KeepsRegion self.new }
    {
        match reach {
            Reach::Now => {}
            Reach::Grown => self.resize(self.enough_for(bytes)),
        }
    }

    /// Makes an object in the pages that the region has, if there is a place for it.
    fn place_object<L: Ledger>(
        &mut self,
        shape: Shape,
        colour: Colour,
        steps: &mut Steps<L>,
    ) -> Option<u32>
        requires shape { IsShape shape }
        requires keeps { KeepsRegion self.old }
        ensures place { result ≡ place_among (pieces_in self.old) self.old.pages.limit Objects
            (size_of (object_bytes shape.slots)) }
        ensures created { IfSome result (λ base. self.new.heap.objects
            ≡ with_entry base (Some (newly_stored shape colour)) self.old.heap.objects) }
        ensures begins { IfSome result (λ base. Begins self.new.heap.objects base (newly_stored shape colour)) }
        ensures was_none { IfSome result (λ base. slice_get self.old.heap.objects (base / 16) ≡ Some None) }
        ensures unchanged { result ≡ None → self.new.heap.objects ≡ self.old.heap.objects }
        ensures areas { areas_in self.new ≡ areas_in self.old }
        ensures same { IsSameRegion self.old self.new }
        ensures keeps { KeepsRegion self.new }
    {
        match self.heap.create(&mut self.pages, shape, colour, steps) {
            Ok(base) => Some(base),
            Err(NoRun) => None,
        }
    }

    /// Makes an object, if there is a place for it.
    pub(crate) fn create<L: Ledger>(
        &mut self,
        shape: Shape,
        colour: Colour,
        reach: Reach,
        steps: &mut Steps<L>,
    ) -> Option<u32>
        requires shape { IsShape shape }
        requires settled { IsSettled self.old }
        ensures place { result ≡ place_among (pieces_in self.old) (limit_in reach self.old) Objects
            (size_of (object_bytes shape.slots)) }
        ensures created { IfSome result (λ base. self.new.heap.objects
            ≡ with_entry base (Some (newly_stored shape colour)) self.old.heap.objects) }
        ensures begins { IfSome result (λ base. Begins self.new.heap.objects base (newly_stored shape colour)) }
        ensures was_none { IfSome result (λ base. slice_get self.old.heap.objects (base / 16) ≡ Some None) }
        ensures unchanged { result ≡ None → self.new.heap.objects ≡ self.old.heap.objects }
        ensures areas { areas_in self.new ≡ areas_in self.old }
        ensures same { IsSameRegion self.old self.new }
        ensures settled { IsSettled self.new }
    {
        self.open(reach, HEADER_BYTES + WORD_BYTES * shape.slots);
        let made = self.place_object(shape, colour, steps);
        self.settle();
        made
    }

    /// Makes the weak object of an object that has none in the pages that the region has, if there is a place for it.
    fn place_weak<L: Ledger>(
        &mut self,
        target: u32,
        colour: Colour,
        steps: &mut Steps<L>,
    ) -> Option<u32>
        requires target { IsTarget self.old.heap target }
        requires alone { (object : StoredObject) → Begins self.old.heap.objects target object
            → partner_of object ≡ None }
        requires linked { IsLinked self.old.heap }
        requires keeps { KeepsRegion self.old }
        ensures place { result ≡ place_among (pieces_in self.old) self.old.pages.limit Objects (size_of 16) }
        ensures made { IfSome result (λ w. (object : StoredObject) → Begins self.old.heap.objects target object
            → self.new.heap.objects ≡ with_entry target (Some (with_weak w object))
            (with_entry w (Some (newly_weak target colour)) self.old.heap.objects)) }
        ensures was_none { IfSome result (λ w. slice_get self.old.heap.objects (w / 16) ≡ Some None) }
        ensures unchanged { result ≡ None → self.new.heap.objects ≡ self.old.heap.objects }
        ensures linked { IsLinked self.new.heap }
        ensures areas { areas_in self.new ≡ areas_in self.old }
        ensures same { IsSameRegion self.old self.new }
        ensures keeps { KeepsRegion self.new }
    {
        let made = weak_of(&mut self.heap, &mut self.pages, target, colour, steps);
        made_base(made)
    }

    /// Makes the weak object of an object that has none, if there is a place for it.
    pub(crate) fn create_weak<L: Ledger>(
        &mut self,
        target: u32,
        colour: Colour,
        reach: Reach,
        steps: &mut Steps<L>,
    ) -> Option<u32>
        requires target { IsTarget self.old.heap target }
        requires alone { (object : StoredObject) → Begins self.old.heap.objects target object
            → partner_of object ≡ None }
        requires linked { IsLinked self.old.heap }
        requires settled { IsSettled self.old }
        ensures place { result ≡ place_among (pieces_in self.old) (limit_in reach self.old) Objects (size_of 16) }
        ensures made { IfSome result (λ w. (object : StoredObject) → Begins self.old.heap.objects target object
            → self.new.heap.objects ≡ with_entry target (Some (with_weak w object))
            (with_entry w (Some (newly_weak target colour)) self.old.heap.objects)) }
        ensures was_none { IfSome result (λ w. slice_get self.old.heap.objects (w / 16) ≡ Some None) }
        ensures unchanged { result ≡ None → self.new.heap.objects ≡ self.old.heap.objects }
        ensures linked { IsLinked self.new.heap }
        ensures areas { areas_in self.new ≡ areas_in self.old }
        ensures same { IsSameRegion self.old self.new }
        ensures settled { IsSettled self.new }
    {
        self.open(reach, HEADER_BYTES);
        let made = self.place_weak(target, colour, steps);
        self.settle();
        made
    }

    /// Makes an area in the pages that the region has, if there is a place for it.
    fn place_area<L: Ledger>(
        &mut self,
        wanted: AreaWanted,
        steps: &mut Steps<L>,
    ) -> Option<AreaAnswer>
        requires counted { wanted.counted ≤ wanted.cells }
        requires some { 1 ≤ wanted.cells }
        requires most { wanted.cells ≤ 1048575 }
        requires raw { wanted.scanned ≡ false → wanted.counted ≡ 0 }
        requires number { length (areas_in self.old) < most_areas }
        requires keeps { KeepsRegion self.old }
        ensures place { option_map (λ area. area.base) result ≡ place_among (pieces_in self.old) self.old.pages.limit
            places.Areas (size_of (area_bytes wanted.cells)) }
        ensures made { IfSome result (λ area. areas_in self.new ≡ view_area_inserted
            (new_area_view area.number area.base wanted.scanned wanted.counted wanted.cells) (areas_in self.old)) }
        ensures number { IfSome result (λ area. (view : View) → view.areas ≡ areas_in self.old
            → area.number ≡ view_free_number view) }
        ensures unchanged { result ≡ None → areas_in self.new ≡ areas_in self.old }
        ensures objects { self.new.heap.objects ≡ self.old.heap.objects }
        ensures same { IsSameRegion self.old self.new }
        ensures keeps { KeepsRegion self.new }
    {
        let made = self.areas.add(
            &mut self.heap,
            &mut self.pages,
            wanted.scanned,
            wanted.counted,
            wanted.cells,
            steps,
        );
        match made {
            Ok(area) => Some(area),
            Err(_) => None,
        }
    }

    /// Makes an area under the lowest free number, if there is a place for it.
    pub(crate) fn create_area<L: Ledger>(
        &mut self,
        wanted: AreaWanted,
        reach: Reach,
        steps: &mut Steps<L>,
    ) -> Option<AreaAnswer>
        requires counted { wanted.counted ≤ wanted.cells }
        requires some { 1 ≤ wanted.cells }
        requires most { wanted.cells ≤ 1048575 }
        requires raw { wanted.scanned ≡ false → wanted.counted ≡ 0 }
        requires number { length (areas_in self.old) < most_areas }
        requires settled { IsSettled self.old }
        ensures place { option_map (λ area. area.base) result ≡ place_among (pieces_in self.old)
            (limit_in reach self.old) places.Areas (size_of (area_bytes wanted.cells)) }
        ensures made { IfSome result (λ area. areas_in self.new ≡ view_area_inserted
            (new_area_view area.number area.base wanted.scanned wanted.counted wanted.cells) (areas_in self.old)) }
        ensures number { IfSome result (λ area. (view : View) → view.areas ≡ areas_in self.old
            → area.number ≡ view_free_number view) }
        ensures unchanged { result ≡ None → areas_in self.new ≡ areas_in self.old }
        ensures objects { self.new.heap.objects ≡ self.old.heap.objects }
        ensures same { IsSameRegion self.old self.new }
        ensures settled { IsSettled self.new }
    {
        self.open(reach, WORD_BYTES * wanted.cells);
        let made = self.place_area(wanted, steps);
        self.settle();
        made
    }

    /// Takes an area away, if one has the number, and keeps the pages that the region has.
    fn drop_area<L: Ledger>(&mut self, number: u32, steps: &mut Steps<L>)
        requires keeps { KeepsRegion self.old }
        ensures areas { areas_in self.new ≡ filter (λ area. not (area.number == number)) (areas_in self.old) }
        ensures objects { self.new.heap.objects ≡ self.old.heap.objects }
        ensures same { IsSameRegion self.old self.new }
        ensures keeps { KeepsRegion self.new }
        ensures cost { heaps.IsQuick self.old.pages.pages steps.old steps.new }
    {
        let removed = self.areas.remove(&mut self.pages, number, steps);
        match removed {
            Ok(()) => {}
            Err(_) => {}
        }
    }

    /// Takes an area away, if one has the number.
    pub(crate) fn remove_area<L: Ledger>(&mut self, number: u32, steps: &mut Steps<L>)
        requires settled { IsSettled self.old }
        ensures areas { areas_in self.new ≡ filter (λ area. not (area.number == number)) (areas_in self.old) }
        ensures objects { self.new.heap.objects ≡ self.old.heap.objects }
        ensures same { IsSameRegion self.old self.new }
        ensures settled { IsSettled self.new }
        ensures cost { heaps.IsQuick self.old.pages.pages steps.old steps.new }
    {
        self.drop_area(number, steps);
        self.settle();
    }

    /// Writes the lines of a phase and frees the objects at the first `k` bases of `dead`.
    pub(crate) fn release<J: Journal, L: Ledger>(
        &mut self,
        dead: &Words,
        k: u32,
        what: Phase,
        journal: &mut J,
        steps: &mut Steps<L>,
    )
        requires dead { IsReleasable self.old.heap dead.now.words k }
        requires settled { IsSettled self.old }
        ensures told { (view : View) → view.objects ≡ objects_in self.old
            → IsToldOf (J.tells journal.old journal.new) view.objects
            (view_phase_lines what view (take k dead.now.words)) }
        ensures released { IsReleased self.old.heap self.new.heap (take k dead.now.words) }
        ensures areas { areas_in self.new ≡ areas_in self.old }
        ensures same { IsSameRegion self.old self.new }
        ensures settled { IsSettled self.new }
        ensures cost { IsReleaseCost self.old.pages.pages k
            (finalized_slots (objects_in self.old) (take k dead.now.words)) steps.old steps.new }
    {
        release(
            &mut self.heap,
            &mut self.pages,
            dead,
            k,
            what,
            journal,
            steps,
        );
        self.settle();
    }
}
