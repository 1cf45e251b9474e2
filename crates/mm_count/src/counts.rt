// Counts of references, which are raised and lowered.
ghost use Rattle.std.specs.Prelude.{◌≡◌, ◌≤◌, ◌<◌, ◌+◌, ◌^◌, ◌++◌, ◌∷◌, ℕ, List, [], false, length};
ghost use Rattle.mm_model.specs.Views.ByBase.{Begins};
ghost use Rattle.mm_object.specs.Object.{StoredObject, views_of};
ghost use Rattle.mm_object.specs.Heap.{IsObject, IsSound};
ghost use Rattle.mm_count.specs.Composite.{FitsWord};
ghost use Rattle.mm_count.specs.Table.{with_entries, without_place, composite_of, IsCountedAt, IsRight};
ghost use Rattle.mm_count.specs.Counts.{composite_at, IsCountedBy, one_more, count_in, raised, lowered, entered};
ghost use Rattle.mm_count.specs.Counts.{left, changed_at, without_places, table_left, table_raised, table_lowered};
ghost use Rattle.mm_count.specs.Counts.{KeepsObjects, HasReference};
ghost use Rattle.mm_count.specs.Sticky.{with_sticky};
ghost use Rattle.mm_count.specs.Listed.{AllListed, AllListedBut, NonePinned, KeepsPins, ListsNamed, ListsOthers};
ghost use Rattle.mm_count.specs.Apart.{AreCountsApart};
ghost use Rattle.mm_count.specs.Kept.{HasGap, gives, with_entry_word};

use crate::composite::Composite;
use crate::table::ZeroTable;
use mm_object::Heap;
use mm_steps::Steps;
use std::sync::ledger::Ledger;

/// How many references from memory a counted object has.
#[derive(Clone, Copy, Debug, PartialEq, Eq)]
pub enum Count {
    Exact(u32),
    /// It had 255 once, and is counted no more.
    Sticky,
}

/// What the object at a base says of its count.
pub(crate) fn composite_of<L: Ledger>(heap: &Heap, base: u32, steps: &mut Steps<L>) -> Composite
    requires { IsObject heap.now base }
    ensures says { (object : StoredObject) → Begins heap.now.objects base object → result ≡ composite_of object }
    ensures fits { FitsWord result }
    ensures sound { IsSound heap.now }
    ensures cost { steps.new ≡ steps.old + 1 }
{
    Composite::of(heap.composite(base, steps))
}

pub(crate) fn set_composite<L: Ledger>(
    heap: &mut Heap,
    base: u32,
    composite: Composite,
    steps: &mut Steps<L>,
)
    requires object { IsObject heap.old base }
    requires fits { FitsWord composite }
    ensures says { (object : StoredObject) → Begins heap.old.objects base object
        → heap.new ≡ gives heap.old base composite object }
    ensures sound { IsSound heap.new }
    ensures cost { steps.new ≡ steps.old + 1 }
{
    heap.set_composite(base, composite.word(), steps);
}

impl ZeroTable {
    /// Moves the last entry into the place of one whose object isn't in the table any more.
    fn close_gap<L: Ledger>(&mut self, heap: &mut Heap, gap: u32, steps: &mut Steps<L>)
        requires gap { HasGap self.old heap.old gap }
        requires within { gap < length self.old.entries }
        requires few { gap < 2 ^ 20 }
        ensures heap { without_places heap.new ≡ without_places heap.old }
        ensures table { self.new ≡ with_entries self.old (without_place self.old.entries gap) }
        ensures right { IsRight self.new heap.new }
        ensures sound { IsSound heap.old → IsSound heap.new }
        ensures cost { steps.new ≤ steps.old + 2 }
    {
        let moved = self.pull(gap);
        if gap == self.len() {
            return;
        }
        let composite = composite_of(heap, moved, steps);
        set_composite(heap, moved, composite.entered(gap), steps);
    }

    /// Enters an object that says `composite` from now on, but for its place.
    fn enter<L: Ledger>(
        &mut self,
        heap: &mut Heap,
        base: u32,
        composite: Composite,
        steps: &mut Steps<L>,
    )
        requires counted { IsCountedAt heap.old.objects base }
        requires out { (object : StoredObject) → Begins heap.old.objects base object
            → (composite_of object).listed ≡ false }
        requires fits { FitsWord composite }
        requires zero { composite.count ≡ 0 }
        requires exact { composite.sticky ≡ false }
        requires right { IsRight self.old heap.old }
        requires sound { IsSound heap.old }
        ensures heap { (object : StoredObject) → Begins heap.old.objects base object
            → heap.new ≡ gives heap.old base (with_entry_word (length self.old.entries) composite) object }
        ensures table { self.new ≡ with_entries self.old (self.old.entries ++ base ∷ []) }
        ensures few { length self.old.entries < 2 ^ 20 }
        ensures right { IsRight self.new heap.new }
        ensures sound { IsSound heap.new }
        ensures cost { steps.new ≡ steps.old + 1 }
    {
        let listed = composite.entered(self.len());
        set_composite(heap, base, listed, steps);
        self.push(base);
    }

    /// Enters a newly made object, which has no reference from memory yet.
    pub fn born<L: Ledger>(&mut self, heap: &mut Heap, base: u32, steps: &mut Steps<L>)
        requires counted { IsCountedAt heap.old.objects base }
        requires blank { (object : StoredObject) → Begins heap.old.objects base object → object.composite ≡ 0 }
        requires right { IsRight self.old heap.old }
        ensures heap { without_places heap.new ≡ changed_at entered base (without_places heap.old) }
        ensures table { self.new ≡ with_entries self.old (self.old.entries ++ base ∷ []) }
        ensures counts { (outside : ℕ → ℕ) → IsCountedBy heap.old.objects outside
            → IsCountedBy heap.new.objects outside }
        ensures objects { KeepsObjects heap.old.objects heap.new.objects }
        ensures rest { heap.new ≡ record heap.old { objects = heap.new.objects } }
        ensures views { views_of heap.new.objects ≡ views_of heap.old.objects }
        ensures unpinned { NonePinned heap.old.objects → NonePinned heap.new.objects }
        ensures listed { AllListedBut base heap.old.objects → AllListed heap.new.objects }
        ensures right { IsRight self.new heap.new }
        ensures sound { IsSound heap.new }
        ensures cost { steps.new ≡ steps.old + 2 }
    {
        let composite = composite_of(heap, base, steps);
        self.enter(heap, base, composite, steps);
    }

    /// One more place holds the base. A count that reaches 255 makes the object sticky, for good.
    pub fn raise<L: Ledger>(&mut self, heap: &mut Heap, base: u32, steps: &mut Steps<L>)
        requires counted { IsCountedAt heap.old.objects base }
        requires right { IsRight self.old heap.old }
        ensures heap { without_places heap.new ≡ changed_at raised base (without_places heap.old) }
        ensures table { self.new ≡ table_raised self.old (composite_at heap.old.objects base) }
        ensures counts { (outside : ℕ → ℕ) → IsCountedBy heap.old.objects outside
            → IsCountedBy heap.new.objects (one_more outside base) }
        ensures objects { KeepsObjects heap.old.objects heap.new.objects }
        ensures rest { heap.new ≡ record heap.old { objects = heap.new.objects } }
        ensures views { (outside : ℕ → ℕ) → IsCountedBy heap.old.objects outside
            → views_of heap.new.objects ≡ with_sticky (one_more outside base) base (views_of heap.old.objects) }
        ensures unpinned { NonePinned heap.old.objects → NonePinned heap.new.objects }
        ensures listed { AllListed heap.old.objects → AllListed heap.new.objects }
        ensures right { IsRight self.new heap.new }
        ensures sound { IsSound heap.new }
        ensures cost { steps.new ≤ steps.old + 8 }
    {
        let composite = composite_of(heap, base, steps);
        if composite.sticky {
            return;
        }
        set_composite(heap, base, composite.raised(), steps);
        if composite.listed {
            self.close_gap(heap, composite.place, steps);
        }
    }

    /// One place fewer holds the base. An object whose count falls to 0 enters the table.
    pub fn lower<L: Ledger>(&mut self, heap: &mut Heap, base: u32, steps: &mut Steps<L>)
        requires counted { IsCountedAt heap.old.objects base }
        requires some { HasReference heap.old.objects base }
        requires right { IsRight self.old heap.old }
        ensures heap { without_places heap.new ≡ changed_at lowered base (without_places heap.old) }
        ensures table { self.new ≡ table_lowered self.old (composite_at heap.old.objects base) base }
        ensures counts { (outside : ℕ → ℕ) → IsCountedBy heap.old.objects (one_more outside base)
            → IsCountedBy heap.new.objects outside }
        ensures objects { KeepsObjects heap.old.objects heap.new.objects }
        ensures rest { heap.new ≡ record heap.old { objects = heap.new.objects } }
        ensures views { views_of heap.new.objects ≡ views_of heap.old.objects }
        ensures pins { KeepsPins heap.old.objects heap.new.objects }
        ensures unpinned { NonePinned heap.old.objects → NonePinned heap.new.objects }
        ensures listed { AllListed heap.old.objects → AllListed heap.new.objects }
        ensures entered { ListsNamed (base ∷ []) heap.old.objects heap.new.objects }
        ensures right { IsRight self.new heap.new }
        ensures sound { IsSound heap.new }
        ensures cost { steps.new ≤ steps.old + 8 }
    {
        let old = composite_of(heap, base, steps);
        if old.sticky {
            return;
        }
        if old.count == 1 {
            self.enter(heap, base, old.lowered(), steps);
            return;
        }
        set_composite(heap, base, old.lowered(), steps);
    }

    /// Takes an object that is about to be freed out of the table, if it's there.
    pub fn leave<L: Ledger>(&mut self, heap: &mut Heap, base: u32, steps: &mut Steps<L>)
        requires counted { IsCountedAt heap.old.objects base }
        requires right { IsRight self.old heap.old }
        ensures heap { without_places heap.new ≡ changed_at left base (without_places heap.old) }
        ensures table { self.new ≡ table_left self.old (composite_at heap.old.objects base) }
        ensures counts { (outside : ℕ → ℕ) → IsCountedBy heap.old.objects outside
            → IsCountedBy heap.new.objects outside }
        ensures objects { KeepsObjects heap.old.objects heap.new.objects }
        ensures rest { heap.new ≡ record heap.old { objects = heap.new.objects } }
        ensures views { views_of heap.new.objects ≡ views_of heap.old.objects }
        ensures unpinned { NonePinned heap.old.objects → NonePinned heap.new.objects }
        ensures pins { KeepsPins heap.old.objects heap.new.objects }
        ensures others { ListsOthers base heap.old.objects heap.new.objects }
        ensures apart { (dropped : List ℕ) (outside : ℕ → ℕ) → AreCountsApart dropped heap.old.objects outside
            → AreCountsApart dropped heap.new.objects outside }
        ensures right { IsRight self.new heap.new }
        ensures sound { IsSound heap.new }
        ensures cost { steps.new ≤ steps.old + 8 }
    {
        let composite = composite_of(heap, base, steps);
        if !composite.listed {
            return;
        }
        set_composite(heap, base, composite.left(), steps);
        self.close_gap(heap, composite.place, steps);
    }

    /// The object's count.
    pub fn count_of<L: Ledger>(&self, heap: &Heap, base: u32, steps: &mut Steps<L>) -> Count
        requires { IsCountedAt heap.now.objects base }
        ensures count { result ≡ count_in (composite_at heap.now.objects base) }
        ensures sound { IsSound heap.now }
        ensures cost { steps.new ≡ steps.old + 1 }
    {
        composite_of(heap, base, steps).counted()
    }

    /// Whether an object is in the table.
    pub fn is_listed<L: Ledger>(&self, heap: &Heap, base: u32, steps: &mut Steps<L>) -> bool
        requires { IsCountedAt heap.now.objects base }
        ensures listed { result ≡ (composite_at heap.now.objects base).listed }
        ensures sound { IsSound heap.now }
        ensures cost { steps.new ≡ steps.old + 1 }
    {
        composite_of(heap, base, steps).listed
    }
}
