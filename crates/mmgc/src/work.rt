// What a cycle has to do.
ghost use Rattle.std.specs.Prelude.{◌≡◌, ◌≤◌, ◌<◌, ◌*◌, ℕ};
ghost use Rattle.mm_gc.specs.Gc.{view_of_gc};
ghost use Rattle.mm_model.specs.Good.{IsGood};
ghost use Rattle.mm_model.specs.State.{State};
ghost use Rattle.mm_model.specs.Views.ByBase.{Begins};
ghost use Rattle.mm_model.specs.Views.ObjectView.{ObjectView};
ghost use Rattle.mm_model.specs.Views.View.{Shows};
ghost use Rattle.mm_object.specs.Heap.{IsObject};
ghost use Rattle.mm_object.specs.Object.{StoredObject, view_of_stored, views_of};
ghost use Rattle.mm_pace.specs.Work.{work_of};
ghost use Rattle.mmgc.specs.Walking.{IsWalked, object_work};

use mm_gc::Gc;
use mm_object::Heap;
use mm_steps::Steps;
use std::marker::Brand;
use std::sync::ledger::{Blank, Ledger};

/// The object that begins at `base`, and its scanned slots.
fn work_at<L: Ledger>(heap: &Heap, base: u32, steps: &mut Steps<L>) -> u32
    requires { IsObject heap.now base }
    ensures work { (object : StoredObject) → Begins heap.now.objects base object
        → result ≡ object_work (view_of_stored object) }
    ensures fits { (object : StoredObject) → Begins heap.now.objects base object → 4 * result ≤ object.extent }
{
    let shape = heap.shape(base, steps);
    if shape.kind.is_scanned() {
        1 + shape.slots
    } else {
        1
    }
}

/// The work of all objects, found with a counter of steps that nothing reads.
fn walk<L: Ledger>(heap: &Heap, blank: Blank) -> u32
    requires name { blank.name ≡ L.name }
    requires parts { blank.parts ≡ L.parts }
    requires shared { 0 < L.parts }
    ensures { IsWalked (views_of heap.now.objects) result }
{
    let mut steps = Steps::<L>::open(blank);
    let mut work = 0;
    let mut from = 0;
    while let Some(base) = heap.cells().next_taken(from, &mut steps) {
        work += work_at(heap, base, &mut steps);
        from = base + heap.extent(base, &mut steps);
    }
    work
}

/// The number of live objects plus the number of their scanned slots.
pub(crate) fn work_of(heap: &Gc) -> u32
    ensures { (a : State) → IsGood a → Shows (view_of_gc heap.now) a → result ≡ work_of a }
{
    walk::<Brand>(heap.heap(), Blank::new(1))
}
