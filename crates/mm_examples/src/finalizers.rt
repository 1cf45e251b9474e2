// Traces on what a phase does with the objects that it frees.
ghost use Rattle.std.specs.Prelude.{◌∷◌, []};
ghost use Rattle.mm_model.specs.declared.command.Command.TheVariants.{Push, Pop, Put, Weak, Collect};
ghost use Rattle.mm_model.specs.declared.object.Kind.TheVariants.{Traced, Leaf, Counted};
ghost use Rattle.mm_examples.specs.Examples.{IsLogOf, usual, new, new_final, made, done, finalized, collected, freed};
ghost use Rattle.mm_examples.specs.Examples.{total};

/// A finalizer tells the sum of all slots, counted ones too, modulo 2^32, and one phase may free both ends of a weak
/// reference.
pub fn finalizers()
    ensures counted_slots { IsLogOf usual
        (new_final Traced 1 2 ∷ new Counted 0 0 ∷ Put 1 0 0 ∷ Push 5 ∷ Put 2 1 0 ∷ Pop 3 ∷ Collect ∷ [])
        (made 4096 ∷ made 8192 ∷ done ∷ done ∷ done ∷ done ∷ finalized 4096 2 8197 ∷ collected 2 ∷ freed 4096 ∷
        freed 8192 ∷ done ∷ total 7 2 2 0 ∷ []) }
    ensures wrapped_sum { IsLogOf usual
        (new_final Leaf 0 2 ∷ Push 4294967295 ∷ Put 1 0 0 ∷ Push 7 ∷ Put 2 1 0 ∷ Pop 3 ∷ Collect ∷ [])
        (made 4096 ∷ done ∷ done ∷ done ∷ done ∷ done ∷ finalized 4096 2 6 ∷ collected 1 ∷ freed 4096 ∷ done ∷
        total 7 1 1 0 ∷ []) }
    ensures both_ends { IsLogOf usual
        (new Traced 0 0 ∷ Weak 0 ∷ Pop 2 ∷ Collect ∷ [])
        (made 4096 ∷ made 4112 ∷ done ∷ collected 2 ∷ freed 4096 ∷ freed 4112 ∷ done ∷ total 4 2 2 0 ∷ []) }
{}
