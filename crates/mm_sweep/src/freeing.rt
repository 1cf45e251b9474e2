// Objects are freed, and their partners have none from then on.
ghost use Rattle.std.specs.Prelude.{◌≡◌, ◌≤◌, ◌<◌, ◌+◌, ◌*◌, ◌^◌, ℕ, [], ◌∷◌, None, map, length, take};
ghost use Rattle.mm_model.specs.Views.ByBase.{Begins, with_entry, changed};
ghost use Rattle.mm_model.specs.Phase.{IsAscending};
ghost use Rattle.mm_object.specs.Object.{StoredObject};
ghost use Rattle.mm_object.specs.Heap.{IsObject, IsSound, FitsHeap};
ghost use Rattle.mm_weak.specs.Links.{IsLinked};
ghost use Rattle.mm_sweep.specs.Release.{after_release, AreObjects, Frees};
ghost use Rattle.mm_sweep.specs.Told.{Free};

use crate::journal::Journal;
use mm_model::Kind;
use mm_object::Heap;
use mm_pages::PageHeap;
use mm_steps::Steps;
use mm_weak::{clear_for, forget};
use mm_words::Words;
use std::sync::ledger::Ledger;

/// Takes the links from the object at `base` and from its partner, if it has one.
fn unlink<L: Ledger>(heap: &mut Heap, base: u32, steps: &mut Steps<L>)
    requires object { IsObject heap.old base }
    requires linked { IsLinked heap.old }
    // Once the object itself is away, the objects are those that its release leaves.
    ensures objects { with_entry base None heap.new.objects ≡ changed (after_release (base ∷ [])) heap.old.objects }
    ensures object { IsObject heap.new base }
    ensures alone { (object : StoredObject) → Begins heap.new.objects base object → object.link ≡ 0 }
    ensures rest { heap.new ≡ record heap.old { objects = heap.new.objects } }
    ensures linked { IsLinked heap.new }
    ensures sound { IsSound heap.new }
    ensures cost { steps.new ≤ steps.old + 9 }
{
    match heap.shape(base, steps).kind {
        Kind::Weak => forget(heap, base, steps),
        _ => clear_for(heap, base, steps),
    }
}

/// Frees the object at `base`.
fn free_object<J: Journal, L: Ledger>(
    heap: &mut Heap,
    pages: &mut PageHeap,
    base: u32,
    journal: &mut J,
    steps: &mut Steps<L>,
)
    requires object { IsObject heap.old base }
    requires linked { IsLinked heap.old }
    requires fits { FitsHeap heap.old pages.old }
    ensures told { J.tells journal.old journal.new (Free base ∷ []) }
    ensures frees { Frees (base ∷ []) heap.old heap.new pages.old pages.new }
    ensures linked { IsLinked heap.new }
    ensures fits { FitsHeap heap.new pages.new }
    ensures sound { IsSound heap.new }
    ensures cost { (digits : ℕ) → pages.old.pages < 2 ^ digits → steps.new ≤ steps.old + 9 + 7 * digits }
{
    journal.free(base);
    unlink(heap, base, steps);
    heap.erase(pages, base, steps);
}

/// Frees the objects whose bases are the first `k` of `dead`, in their order.
pub(crate) fn free_objects<J: Journal, L: Ledger>(
    heap: &mut Heap,
    pages: &mut PageHeap,
    dead: &Words,
    k: u32,
    journal: &mut J,
    steps: &mut Steps<L>,
)
    requires within { k ≤ length dead.now.words }
    requires ascending { IsAscending (take k dead.now.words) }
    requires objects { AreObjects heap.old (take k dead.now.words) }
    requires linked { IsLinked heap.old }
    requires fits { FitsHeap heap.old pages.old }
    requires sound { IsSound heap.old }
    ensures told { J.tells journal.old journal.new (map Free (take k dead.now.words)) }
    ensures frees { Frees (take k dead.now.words) heap.old heap.new pages.old pages.new }
    ensures linked { IsLinked heap.new }
    ensures fits { FitsHeap heap.new pages.new }
    ensures sound { IsSound heap.new }
    ensures cost { (digits : ℕ) → pages.old.pages < 2 ^ digits → steps.new ≤ steps.old + (9 + 7 * digits) * k }
{
    for i in 0..k {
        free_object(heap, pages, dead.get(i), journal, steps);
    }
}
