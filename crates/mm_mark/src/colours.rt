// The colours of objects.
ghost use Rattle.std.specs.Prelude.{◌≡◌, ◌+◌, MatchOption, MatchBool};
ghost use Rattle.mm_model.specs.declared.object.Colour.TheVariants.{Gray};
ghost use Rattle.mm_model.specs.Views.ByBase.{Begins};
ghost use Rattle.mm_model.specs.Sets.Marking.{is_black, is_gray};
ghost use Rattle.mm_object.specs.Object.{StoredObject};
ghost use Rattle.mm_object.specs.Heap.{IsObject};
ghost use Rattle.mm_mark.specs.Colours.{HasColour, BeginsNone, IsNoneGrayAt};

use mm_model::Colour;
use mm_object::Heap;
use mm_steps::Steps;
use std::sync::ledger::Ledger;

/// The colour of the object that begins at a base, if one does.
#[inline(always)]
pub(crate) fn colour_at<L: Ledger>(heap: &Heap, base: u32, steps: &mut Steps<L>) -> Option<Colour>
    ensures colour { MatchOption result (BeginsNone heap.now base) (HasColour heap.now base) }
    ensures cost { steps.new ≡ steps.old + 1 }
{
    match heap.cells().find(base, steps) {
        Some(cell) => {
            if cell.base == base {
                Some(cell.colour)
            } else {
                None
            }
        }
        None => None,
    }
}

/// Whether no object begins there.
pub(crate) fn is_free_at<L: Ledger>(heap: &Heap, base: u32, steps: &mut Steps<L>) -> bool
    ensures free { MatchBool result (BeginsNone heap.now base) (IsObject heap.now base) }
    ensures cost { steps.new ≡ steps.old + 1 }
{
    match colour_at(heap, base, steps) {
        Some(_) => false,
        None => true,
    }
}

/// Whether the object that begins there is black.
pub(crate) fn is_black_at<L: Ledger>(heap: &Heap, base: u32, steps: &mut Steps<L>) -> bool
    requires { IsObject heap.now base }
    ensures black { (object : StoredObject) → Begins heap.now.objects base object → result ≡ is_black object.colour }
    ensures cost { steps.new ≡ steps.old + 1 }
{
    match colour_at(heap, base, steps) {
        Some(Colour::Black) => true,
        Some(Colour::White) | Some(Colour::Gray) => false,
        None => unreachable!(),
    }
}

/// Whether a gray object begins there.
pub(crate) fn is_gray_at<L: Ledger>(heap: &Heap, base: u32, steps: &mut Steps<L>) -> bool
    ensures gray { MatchBool result (HasColour heap.now base Gray) (IsNoneGrayAt heap.now base) }
    ensures cost { steps.new ≡ steps.old + 1 }
{
    match colour_at(heap, base, steps) {
        Some(colour) => is_gray(colour),
        None => false,
    }
}

fn is_gray(colour: Colour) -> bool
    ensures { result ≡ is_gray colour }
{
    match colour {
        Colour::Gray => true,
        Colour::White | Colour::Black => false,
    }
}
