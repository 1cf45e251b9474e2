// Traces in which many slots hold one object at first, and none in the end.
ghost use Rattle.std.specs.Prelude.{◌∷◌, ◌++◌, [], map, replicate};
ghost use Rattle.std.specs.List.{range_with_len};
ghost use Rattle.mm_model.specs.declared.command.Command.TheVariants.{Push, Pop, Put, Reap, Collect};
ghost use Rattle.mm_model.specs.declared.object.Kind.TheVariants.{Traced, Counted};
ghost use Rattle.mm_examples.specs.Examples.{IsLogOf, usual, new, made, done, reaped, collected, freed, total};

/// What 255 slots held once stays sticky when none holds it any more, and what 254 held is reaped.
pub fn held_often()
    ensures sticky { IsLogOf usual
        (new Traced 255 255 ∷ new Counted 0 0 ∷ map (λ s. Put 1 s 0) (range_with_len 0 255)
        ++ Push 0 ∷ map (λ s. Put 2 s 0) (range_with_len 0 255) ++ Pop 2 ∷ Reap ∷ Collect ∷ [])
        (made 4096 ∷ made 8192 ∷ replicate 255 done ++ done ∷ replicate 255 done ++ done ∷ reaped 0 ∷ done ∷
        collected 1 ∷ freed 8192 ∷ done ∷ total 516 2 1 1 ∷ []) }
    ensures below { IsLogOf usual
        (new Traced 255 255 ∷ new Counted 0 0 ∷ map (λ s. Put 1 s 0) (range_with_len 0 254)
        ++ Push 0 ∷ map (λ s. Put 2 s 0) (range_with_len 0 254) ++ Pop 2 ∷ Reap ∷ Collect ∷ [])
        (made 4096 ∷ made 8192 ∷ replicate 254 done ++ done ∷ replicate 254 done ++ done ∷ reaped 1 ∷
        freed 8192 ∷ done ∷ collected 0 ∷ done ∷ total 514 2 1 1 ∷ []) }
{}
