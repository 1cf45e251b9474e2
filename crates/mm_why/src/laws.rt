// What paths have to do with what is reached.
ghost use Rattle.std.specs.Prelude.{◌↔◌, ℕ, List};
ghost use Rattle.mm_model.specs.Object.{Object};
ghost use Rattle.mm_model.specs.State.{State, Lives};
ghost use Rattle.mm_model.specs.Sets.Reached.{IsReached};
ghost use Rattle.mm_model.specs.Good.{IsGood};
ghost use Rattle.mm_model.specs.Views.SetsByBase.{IsReachedAt};
ghost use Rattle.mm_model.specs.Views.View.{View, Shows};
ghost use Rattle.mm_why.specs.declared.hop.Hop.{Hop};
ghost use Rattle.mm_why.specs.Path.{Shown, shown_in, IsPath, root_words_of};

/// A path leads to an object exactly where it is reached from the words of the stack and of the scanned areas.
pub fn paths_lead_to_what_is_reached()
    ensures { (shown : Shown) (base : ℕ) →
        ((hops : List Hop) × IsPath shown hops base) ↔ IsReachedAt shown.objects (root_words_of shown) base }
{}

/// The same of a heap that shows a good state. So what no path leads to is what a full collection frees.
pub fn paths_lead_to_what_a_state_reaches()
    ensures { (view : View) (a : State) (birth : ℕ) (object : Object) → IsGood a → Shows view a
        → Lives a birth object
        → ((hops : List Hop) × IsPath (shown_in view) hops object.base) ↔ IsReached a birth }
{}
