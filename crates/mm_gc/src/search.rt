// The search for a place: at once, after a reap, and after a full collection.
ghost use Rattle.std.specs.Prelude.{◌≡◌, ◌≢◌, ◌<◌, ◌-◌, ◌^◌, ◌⊎◌, ℕ, not, IsTrue, length, None};
ghost use Rattle.std.specs.Option.{option_map};
ghost use Rattle.mm_model.specs.Object.{is_counted};
ghost use Rattle.mm_model.specs.Views.ByBase.{Begins};
ghost use Rattle.mm_model.specs.Views.ViewEffect.{birth_colour};
ghost use Rattle.mm_object.specs.Object.{StoredObject, views_of};
ghost use Rattle.mm_object.specs.Heap.{IsObject, IsSound};
ghost use Rattle.mm_roots.specs.Stack.{pushed};
ghost use Rattle.mm_count.specs.Table.{IsRight, IsSameTable};
ghost use Rattle.mm_count.specs.Counts.{IsCountedBy, KeepsObjects};
ghost use Rattle.mm_count.specs.Listed.{AllListed, AllListedBut, NonePinned};
ghost use Rattle.mm_gc.specs.declared.wanted.Wanted.TheVariants as wanted;
ghost use Rattle.mm_gc.specs.declared.wanted.Made.TheVariants as made;
ghost use Rattle.mm_gc.specs.declared.wanted.Reach.TheVariants as reach;
ghost use Rattle.mm_gc.specs.Gc.{view_of_gc, cycle_in};
ghost use Rattle.mm_gc.specs.Making.{IsNewAt, IsWanted, CanBear, IsMade, Searches, place_in_reach};

use crate::gc::Gc;
use crate::wanted::{AreaWanted, Made, Reach, Wanted};
use mm_count::ZeroTable;
use mm_model::{AreaAnswer, Colour, Kind, Shape};
use mm_object::Heap;
use mm_roots::Stack;
use mm_steps::Steps;
use mm_sweep::Journal;
use std::sync::ledger::Ledger;

/// Enters a newly made object of this kind into the table, if it's counted.
fn enter_newborn<L: Ledger>(
    count: &mut ZeroTable,
    heap: &mut Heap,
    kind: Kind,
    base: u32,
    steps: &mut Steps<L>,
)
    requires object { IsNewAt heap.old.objects base kind }
    requires right { IsRight count.old heap.old }
    requires listed { AllListedBut base heap.old.objects }
    requires sound { IsSound heap.old }
    ensures right { IsRight count.new heap.new }
    ensures counts { (outside : ℕ → ℕ) → IsCountedBy heap.old.objects outside
        → IsCountedBy heap.new.objects outside }
    ensures listed { AllListed heap.new.objects }
    ensures unpinned { NonePinned heap.old.objects → NonePinned heap.new.objects }
    ensures objects { KeepsObjects heap.old.objects heap.new.objects }
    ensures rest { heap.new ≡ record heap.old { objects = heap.new.objects } }
    ensures views { views_of heap.new.objects ≡ views_of heap.old.objects }
    ensures table { IsSameTable count.old count.new }
    ensures sound { IsSound heap.new }
{
    match kind {
        Kind::Counted => count.born(heap, base, steps),
        Kind::Traced | Kind::Leaf | Kind::Weak => {}
    }
}

/// Pushes the base of what was made onto a stack that has room for it.
fn push_base(stack: &mut Stack, base: u32)
    requires { length stack.old.words ≢ stack.old.limit }
    ensures { stack.new ≡ pushed stack.old base }
{
    match stack.push(base) {
        Ok(()) => {}
        Err(_) => unreachable!(),
    }
}

/// What was made, of the base of an object.
#[inline]
fn made_object(base: Option<u32>) -> Option<Made>
    ensures { result ≡ option_map made.Object base }
{
    match base {
        Some(base) => Some(Made::Object(base)),
        None => None,
    }
}

/// What was made, of an area.
#[inline]
fn made_area(area: Option<AreaAnswer>) -> Option<Made>
    ensures { result ≡ option_map made.Area area }
{
    match area {
        Some(area) => Some(Made::Area(area)),
        None => None,
    }
}

impl Gc {
    /// The colour of an object that is born now.
    fn birth_colour(&self) -> Colour
        ensures { result ≡ birth_colour (cycle_in self.now) }
    {
        if self.marker.running() {
            Colour::Black
        } else {
            Colour::White
        }
    }

    /// Makes an object and pushes its base, if there is a place for it.
    #[inline(always)]
    fn make_object<L: Ledger>(
        &mut self,
        shape: Shape,
        reach: Reach,
        steps: &mut Steps<L>,
    ) -> Option<u32>
        requires wanted { IsWanted (view_of_gc self.old) (wanted.Object shape) }
        requires births { self.old.born < 2 ^ 64 - 1 }
        ensures { IsMade (view_of_gc self.old) (wanted.Object shape) reach (view_of_gc self.new)
            (option_map made.Object result) }
    {
        let colour = self.birth_colour();
        let base = self.region.create(shape, colour, reach, steps)?;
        enter_newborn(
            &mut self.count,
            &mut self.region.heap,
            shape.kind,
            base,
            steps,
        );
        self.born += 1;
        push_base(&mut self.stack, base);
        Some(base)
    }

    /// Makes the weak object of an object that has none, and pushes its base, if there is a place for it.
    fn make_weak<L: Ledger>(
        &mut self,
        target: u32,
        reach: Reach,
        steps: &mut Steps<L>,
    ) -> Option<u32>
        requires wanted { IsWanted (view_of_gc self.old) (wanted.WeakOf target) }
        requires births { self.old.born < 2 ^ 64 - 1 }
        ensures { IsMade (view_of_gc self.old) (wanted.WeakOf target) reach (view_of_gc self.new)
            (option_map made.Object result) }
    {
        let colour = self.birth_colour();
        let base = self.region.create_weak(target, colour, reach, steps)?;
        self.born += 1;
        push_base(&mut self.stack, base);
        Some(base)
    }

    /// Makes an area, if there is a place for it.
    fn make_cells<L: Ledger>(
        &mut self,
        area: AreaWanted,
        reach: Reach,
        steps: &mut Steps<L>,
    ) -> Option<AreaAnswer>
        requires wanted { IsWanted (view_of_gc self.old) (wanted.Area area) }
        ensures { IsMade (view_of_gc self.old) (wanted.Area area) reach (view_of_gc self.new)
            (option_map made.Area result) }
    {
        let made = self.region.create_area(area, reach, steps)?;
        Some(made)
    }

    /// Makes what is wanted, if there is a place for it.
    #[inline(always)]
    fn make_wanted<L: Ledger>(
        &mut self,
        wanted: Wanted,
        reach: Reach,
        steps: &mut Steps<L>,
    ) -> Option<Made>
        requires wanted { IsWanted (view_of_gc self.old) wanted }
        requires births { CanBear wanted self.old.born }
        ensures { IsMade (view_of_gc self.old) wanted reach (view_of_gc self.new) result }
    {
        match wanted {
            Wanted::Object(shape) => made_object(self.make_object(shape, reach, steps)),
            Wanted::WeakOf(target) => made_object(self.make_weak(target, reach, steps)),
            Wanted::Area(area) => made_area(self.make_cells(area, reach, steps)),
        }
    }

    /// Looks for a place at once, then after a reap, then after a full collection, and makes what is wanted there. The
    /// first is nearly always enough, and what it takes is inlined where the kind of what is wanted is known.
    #[inline(always)]
    pub(crate) fn search<J: Journal, L: Ledger>(
        &mut self,
        wanted: Wanted,
        journal: &mut J,
        steps: &mut Steps<L>,
    ) -> Option<Made>
        requires wanted { IsWanted (view_of_gc self.old) wanted }
        requires births { CanBear wanted self.old.born }
        ensures searched { Searches self.old self.new wanted result
            (J.tells journal.old journal.new) }
    {
        if let Some(made) = self.make_wanted(wanted, Reach::Now, steps) {
            return Some(made);
        }
        self.search_on(wanted, journal, steps)
    }

    /// Where there is no place now, looks for one after a reap, then after a full collection, and makes what is wanted
    /// there.
    #[cold]
    #[inline(never)]
    fn search_on<J: Journal, L: Ledger>(
        &mut self,
        wanted: Wanted,
        journal: &mut J,
        steps: &mut Steps<L>,
    ) -> Option<Made>
        requires wanted { IsWanted (view_of_gc self.old) wanted }
        requires births { CanBear wanted self.old.born }
        requires nowhere { place_in_reach reach.Now (view_of_gc self.old) wanted ≡ None }
        ensures searched { Searches self.old self.new wanted result
            (J.tells journal.old journal.new) }
    {
        self.reap(journal, steps);
        if let Some(made) = self.make_wanted(wanted, Reach::Grown, steps) {
            return Some(made);
        }
        self.collect(journal, steps);
        self.make_wanted(wanted, Reach::Grown, steps)
    }
}
