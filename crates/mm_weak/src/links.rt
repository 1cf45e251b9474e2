// Weak objects and their targets, which name each other by their links.
ghost use Rattle.std.specs.Prelude.{◌≡◌, ◌≢◌, ◌+◌, ◌/◌, ◌≤◌, ℕ, List, IfSome, IfOk, OnErr, Some, None, true, false};
ghost use Rattle.mm_model.specs.Places.SizeClass.{size_of};
ghost use Rattle.mm_model.specs.Views.ByBase.{Begins};
ghost use Rattle.mm_pages.specs.Pages.{with_parked, IsSoundHeap};
ghost use Rattle.mm_pages.specs.Parked.{AreParked, AreAllParked};
ghost use Rattle.mm_cells.specs.Placing.{IsPlaceFor, found_in};
ghost use Rattle.mm_object.specs.Object.{StoredObject};
ghost use Rattle.mm_object.specs.Heap.{cells_in, with_object, IsObject, IsSound, FitsHeap};
ghost use Rattle.mm_weak.specs.Links.{IsLinked, IsTarget, IsWeakAt, IsTargetOf, IsWeakMade, IsParted};
ghost use Rattle.mm_weak.specs.Links.{partner_of, made_in, kept_in, with_weak, unlinked, with_partners};

use bitflags::Flags;
use mm_cells::CellBits;
use mm_model::{Colour, Kind, Shape, WeakAnswer};
use mm_object::Heap;
use mm_pages::{NoRun, PageHeap};
use mm_steps::Steps;
use std::sync::ledger::Ledger;

/// A weak object has no slots and no finalizer.
const WEAK_SHAPE: Shape = Shape {
    kind: Kind::Weak,
    finalize: false,
    counted: 0,
    slots: 0,
};

/// The partner of the object at `base`, if it has one.
fn partner<L: Ledger>(heap: &Heap, base: u32, steps: &mut Steps<L>) -> Option<u32>
    requires { IsObject heap.now base }
    ensures partner { (object : StoredObject) → Begins heap.now.objects base object → result ≡ partner_of object }
    ensures sound { IsSound heap.now }
    ensures cost { steps.new ≡ steps.old + 1 }
{
    let link = heap.link(base, steps);
    if link == 0 { None } else { Some(link) }
}

/// Whether the object at `base` has a weak object, by its flags.
fn has_weak<L: Ledger>(heap: &Heap, base: u32, steps: &mut Steps<L>) -> bool
    requires { IsObject heap.now base }
    ensures flag { (object : StoredObject) → Begins heap.now.objects base object → result ≡ object.has_weak }
    ensures sound { IsSound heap.now }
    ensures cost { steps.new ≡ steps.old + 1 }
{
    heap.cells().flags(base, steps).contains(CellBits::HAS_WEAK)
}

/// Notes in the flags of a target whether it has a weak object.
fn set_has_weak<L: Ledger>(heap: &mut Heap, base: u32, has_weak: bool, steps: &mut Steps<L>)
    requires { IsObject heap.old base }
    ensures flag { (object : StoredObject) → Begins heap.old.objects base object
        → heap.new ≡ with_object heap.old base (Some (record object { has_weak = has_weak })) }
    ensures sound { IsSound heap.new }
    ensures cost { steps.new ≡ steps.old + 2 }
{
    let mut flags = heap.cells().flags(base, steps);
    flags.set(CellBits::HAS_WEAK, has_weak);
    heap.set_flags(base, flags, steps);
}

/// Makes an object and a weak object partners.
fn join<L: Ledger>(heap: &mut Heap, base: u32, w: u32, steps: &mut Steps<L>)
    requires target { IsObject heap.old base }
    requires weak { IsObject heap.old w }
    requires apart { base ≢ w }
    ensures partners { (target weak : StoredObject) →
        Begins heap.old.objects base target → Begins heap.old.objects w weak
        → heap.new ≡ with_partners heap.old base (with_weak w target) w (record weak { link = base }) }
    ensures sound { IsSound heap.new }
{
    heap.set_link(w, base, steps);
    heap.set_link(base, w, steps);
    set_has_weak(heap, base, true, steps);
}

/// Takes the links from an object and its weak object.
fn part<L: Ledger>(heap: &mut Heap, base: u32, w: u32, steps: &mut Steps<L>)
    requires target { IsObject heap.old base }
    requires weak { IsObject heap.old w }
    requires apart { base ≢ w }
    ensures partners { (target weak : StoredObject) →
        Begins heap.old.objects base target → Begins heap.old.objects w weak
        → heap.new ≡ with_partners heap.old base (unlinked target) w (record weak { link = 0 }) }
    ensures sound { IsSound heap.new }
    ensures cost { steps.new ≡ steps.old + 4 }
{
    heap.set_link(w, 0, steps);
    heap.set_link(base, 0, steps);
    set_has_weak(heap, base, false, steps);
}

/// Makes the weak object of an object that has none.
fn make_for<L: Ledger>(
    heap: &mut Heap,
    pages: &mut PageHeap,
    base: u32,
    colour: Colour,
    steps: &mut Steps<L>,
) -> Result<u32, NoRun>
    requires target { IsTarget heap.old base }
    requires alone { (object : StoredObject) → Begins heap.old.objects base object → partner_of object ≡ None }
    requires linked { IsLinked heap.old }
    requires fits { FitsHeap heap.old pages.old }
    ensures place { IsPlaceFor (cells_in heap.old) pages.old (size_of 16) (found_in result) }
    ensures made { IfOk result (λ w. IsWeakMade heap.old base colour w heap.new) }
    ensures heap { IfOk result (λ w. pages.new ≡ with_parked pages.old (w / 4096) 1) }
    ensures unchanged { OnErr result ((heap.new ≡ heap.old) × (pages.new ≡ pages.old)) }
    ensures linked { IsLinked heap.new }
    ensures fits { FitsHeap heap.new pages.new }
    ensures others { (runs : List ℕ) → AreParked runs pages.old → AreParked runs pages.new }
    ensures all_parked { (others : List ℕ) → AreAllParked heap.old.runs others pages.old
        → AreAllParked heap.new.runs others pages.new }
    ensures pages_sound { IsSoundHeap pages.new }
    ensures sound { IsSound heap.new }
{
    let w = heap.create(pages, WEAK_SHAPE, colour, steps)?;
    join(heap, base, w, steps);
    Ok(w)
}

/// The weak object of the object at `base`, which is made where it has none. It is refused where there is no place for
/// one. A new one is found by its target's link from then on.
pub fn weak_of<L: Ledger>(
    heap: &mut Heap,
    pages: &mut PageHeap,
    base: u32,
    colour: Colour,
    steps: &mut Steps<L>,
) -> Result<WeakAnswer, NoRun>
    requires target { IsTarget heap.old base }
    requires linked { IsLinked heap.old }
    requires fits { FitsHeap heap.old pages.old }
    ensures kept { (object : StoredObject) → Begins heap.old.objects base object
        → kept_in result ≡ partner_of object }
    ensures place { kept_in result ≡ None
        → IsPlaceFor (cells_in heap.old) pages.old (size_of 16) (made_in result) }
    ensures made { IfSome (made_in result) (λ w. IsWeakMade heap.old base colour w heap.new) }
    ensures heap { IfSome (made_in result) (λ w. pages.new ≡ with_parked pages.old (w / 4096) 1) }
    ensures unchanged { made_in result ≡ None → (heap.new ≡ heap.old) × (pages.new ≡ pages.old) }
    ensures linked { IsLinked heap.new }
    ensures fits { FitsHeap heap.new pages.new }
    ensures others { (runs : List ℕ) → AreParked runs pages.old → AreParked runs pages.new }
    ensures all_parked { (others : List ℕ) → AreAllParked heap.old.runs others pages.old
        → AreAllParked heap.new.runs others pages.new }
    ensures pages_sound { IsSoundHeap pages.old → IsSoundHeap pages.new }
    ensures sound { IsSound heap.new }
{
    match partner(heap, base, steps) {
        Some(w) => Ok(WeakAnswer::Kept(w)),
        None => {
            let w = make_for(heap, pages, base, colour, steps)?;
            Ok(WeakAnswer::Made(w))
        }
    }
}

/// The target of a weak object, or 0 once it was cleared.
pub fn target<L: Ledger>(heap: &Heap, w: u32, steps: &mut Steps<L>) -> u32
    requires weak { IsWeakAt heap.now w }
    requires linked { IsLinked heap.now }
    ensures link { (weak : StoredObject) → Begins heap.now.objects w weak → result ≡ weak.link }
    ensures lives { result ≢ 0 → IsTargetOf heap.now w result }
    ensures sound { IsSound heap.now }
    ensures cost { steps.new ≡ steps.old + 1 }
{
    heap.link(w, steps)
}

/// Clears the weak object of an object that is about to be freed, if it has one: `target` gives 0 from then on.
pub fn clear_for<L: Ledger>(heap: &mut Heap, base: u32, steps: &mut Steps<L>)
    requires object { IsObject heap.old base }
    requires linked { IsLinked heap.old }
    ensures cleared { (object : StoredObject) → Begins heap.old.objects base object → object.has_weak ≡ true
        → IsParted heap.old base object.link heap.new }
    ensures alone { (object : StoredObject) → Begins heap.old.objects base object → object.has_weak ≡ false
        → heap.new ≡ heap.old }
    ensures linked { IsLinked heap.new }
    ensures sound { IsSound heap.new }
    ensures cost { steps.new ≤ steps.old + 8 }
{
    if has_weak(heap, base, steps) {
        let w = heap.link(base, steps);
        part(heap, base, w, steps);
    }
}

/// Takes the link from the target of a weak object that is about to be freed, if its target lives.
pub fn forget<L: Ledger>(heap: &mut Heap, w: u32, steps: &mut Steps<L>)
    requires weak { IsWeakAt heap.old w }
    requires linked { IsLinked heap.old }
    ensures forgotten { (weak : StoredObject) → Begins heap.old.objects w weak → weak.link ≢ 0
        → IsParted heap.old weak.link w heap.new }
    ensures alone { (weak : StoredObject) → Begins heap.old.objects w weak → weak.link ≡ 0 → heap.new ≡ heap.old }
    ensures linked { IsLinked heap.new }
    ensures sound { IsSound heap.new }
    ensures cost { steps.new ≤ steps.old + 8 }
{
    if let Some(base) = partner(heap, w, steps) {
        part(heap, base, w, steps);
    }
}
