// Traces in which a collection frees objects.
ghost use Rattle.std.specs.Prelude.{◌∷◌, []};
ghost use Rattle.mm_model.specs.declared.command.Command.TheVariants.{Pop, Get, Put, Reap, Collect, Map};
ghost use Rattle.mm_model.specs.declared.object.Kind.TheVariants.{Traced, Leaf, Counted};
ghost use Rattle.mm_examples.specs.Examples.{IsLogOf, usual, new, new_final, made, word, done, nothing, finalized};
ghost use Rattle.mm_examples.specs.Examples.{reaped, collected, freed, total};

/// Finalizers run first. A leaf keeps nothing, and a counted slot of a traced object keeps its object from a reap.
pub fn collections()
    ensures finalizers { IsLogOf usual
        (new_final Traced 0 0 ∷ new_final Traced 0 1 ∷ Pop 2 ∷ Collect ∷ [])
        (made 4096 ∷ made 8192 ∷ done ∷ finalized 4096 0 0 ∷ finalized 8192 1 0 ∷ collected 2 ∷ freed 4096 ∷
        freed 8192 ∷ done ∷ total 4 2 2 0 ∷ []) }
    ensures leaf { IsLogOf usual
        (new Leaf 0 1 ∷ new Traced 0 0 ∷ Put 1 0 0 ∷ Pop 1 ∷ Collect ∷ Get 0 0 ∷ Map 0 ∷ [])
        (made 4096 ∷ made 8192 ∷ done ∷ done ∷ collected 1 ∷ freed 8192 ∷ done ∷ word 8192 ∷ nothing ∷
        total 7 2 1 1 ∷ []) }
    ensures counted_slot { IsLogOf usual
        (new Traced 1 1 ∷ new Counted 0 0 ∷ Put 1 0 0 ∷ Pop 2 ∷ Reap ∷ Collect ∷ [])
        (made 4096 ∷ made 8192 ∷ done ∷ done ∷ reaped 0 ∷ done ∷ collected 2 ∷ freed 4096 ∷ freed 8192 ∷ done ∷
        total 6 2 2 0 ∷ []) }
{}
