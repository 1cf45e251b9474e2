// Pins on what the stack names.
ghost use Rattle.std.specs.Prelude.{◌≡◌, ◌≤◌, ◌+◌, ◌*◌, ◌∷◌, [], ℕ, IsTrue, MatchOption, length};
ghost use Rattle.mm_model.specs.Object.{is_counted};
ghost use Rattle.mm_object.specs.Object.{StoredObject};
ghost use Rattle.mm_object.specs.Heap.{Covers, IsSound};
ghost use Rattle.mm_count.specs.Table.{IsRight};
ghost use Rattle.mm_count.specs.DeadApart.{IsRecounted};
ghost use Rattle.mm_reap.specs.Pins.{ArePinned, NamesNoCounted};

use mm_count::ZeroTable;
use mm_object::Heap;
use mm_roots::Stack;
use mm_steps::Steps;
use std::sync::ledger::Ledger;

/// The base of the counted object in which a word falls.
fn counted_in<L: Ledger>(heap: &Heap, word: u32, steps: &mut Steps<L>) -> Option<u32>
    ensures base { MatchOption result (NamesNoCounted heap.now word)
        (λ base. (object : StoredObject) × Covers heap.now word base object × IsTrue (is_counted object.kind)) }
    ensures sound { IsSound heap.now }
    ensures cost { steps.new ≡ steps.old + 1 }
{
    match heap.look_up(word, steps) {
        Some(found) => {
            if found.shape.kind.is_counted() {
                Some(found.base)
            } else {
                None
            }
        }
        None => None,
    }
}

/// Pins the counted object in which a word falls, or takes its pin off.
fn set_pin_in<L: Ledger>(
    heap: &mut Heap,
    count: &ZeroTable,
    word: u32,
    pinned: bool,
    steps: &mut Steps<L>,
)
    requires right { IsRight count.now heap.old }
    ensures pins { ArePinned heap.old.objects heap.new.objects (word ∷ []) pinned }
    ensures heap { IsRecounted heap.old heap.new }
    ensures right { IsRight count.now heap.new }
    ensures sound { IsSound heap.new }
    ensures cost { steps.new ≤ steps.old + 3 }
{
    if let Some(base) = counted_in(heap, word, steps) {
        count.set_pin(heap, base, pinned, steps);
    }
}

/// Pins the counted objects in which a word of the stack falls, or takes their pins off.
pub(crate) fn set_pins<L: Ledger>(
    heap: &mut Heap,
    count: &ZeroTable,
    stack: &Stack,
    pinned: bool,
    steps: &mut Steps<L>,
)
    requires right { IsRight count.now heap.old }
    requires sound { IsSound heap.old }
    ensures pins { ArePinned heap.old.objects heap.new.objects stack.now.words pinned }
    ensures heap { IsRecounted heap.old heap.new }
    ensures right { IsRight count.now heap.new }
    ensures sound { IsSound heap.new }
    ensures cost { steps.new ≤ steps.old + 4 * length stack.now.words }
{
    for &word in stack.words(steps) {
        set_pin_in(heap, count, word, pinned, steps);
    }
}
