// Traces with weak references.
ghost use Rattle.std.specs.Prelude.{◌∷◌, []};
ghost use Rattle.mm_model.specs.declared.command.Command.TheVariants.{Pop, Weak, Look, Root, AreaGet, AreaPut, Reap};
ghost use Rattle.mm_model.specs.declared.command.Command.TheVariants.{Collect};
ghost use Rattle.mm_model.specs.declared.object.Kind.TheVariants.{Traced, Counted};
ghost use Rattle.mm_examples.specs.Examples.{IsLogOf, usual, new, made, word, area, done, reaped, collected, freed};
ghost use Rattle.mm_examples.specs.Examples.{total};

/// A weak reference doesn't keep its target, isn't kept by it, and answers 0 once it is freed.
pub fn weak_references()
    ensures freed_target { IsLogOf usual
        (Root 0 1 ∷ new Counted 0 0 ∷ Weak 0 ∷ Weak 1 ∷ AreaPut 0 0 0 ∷ Look 0 ∷ Pop 4 ∷ Reap ∷ AreaGet 0 0 ∷
        Look 0 ∷ [])
        (area 0 4096 ∷ made 8192 ∷ made 8208 ∷ word 8208 ∷ done ∷ word 8192 ∷ done ∷ reaped 1 ∷ freed 8192 ∷
        done ∷ word 8208 ∷ word 0 ∷ total 10 2 1 1 ∷ []) }
    ensures unheld { IsLogOf usual
        (new Traced 0 0 ∷ Weak 0 ∷ Pop 1 ∷ Collect ∷ Weak 0 ∷ [])
        (made 4096 ∷ made 4112 ∷ done ∷ collected 1 ∷ freed 4112 ∷ done ∷ made 4112 ∷ total 5 3 1 2 ∷ []) }
{}
