// Traces in which counting frees objects.
ghost use Rattle.std.specs.Prelude.{◌∷◌, ◌++◌, [], replicate};
ghost use Rattle.mm_model.specs.declared.command.Command.TheVariants.{Push, Pop, Get, Put, Reap, Collect};
ghost use Rattle.mm_model.specs.declared.object.Kind.TheVariants.{Traced, Counted};
ghost use Rattle.mm_model.specs.declared.refusal.Refusal.TheVariants.{Nothing};
ghost use Rattle.mm_examples.specs.Examples.{IsLogOf, usual, with_zct, new, new_final, made, word, done, loose};
ghost use Rattle.mm_examples.specs.Examples.{puts, refused, finalized, reaped, collected, freed, total};

/// A reap frees what counted slots alone hold, down to the last of a chain, and no ring.
pub fn reaps()
    ensures stack { IsLogOf usual
        (new Counted 0 0 ∷ Reap ∷ Pop 1 ∷ Reap ∷ [])
        (made 4096 ∷ reaped 0 ∷ done ∷ done ∷ reaped 1 ∷ freed 4096 ∷ done ∷ total 4 1 1 0 ∷ []) }
    ensures chain { IsLogOf usual
        (new Counted 2 2 ∷ new Counted 0 0 ∷ Put 1 0 0 ∷ Put 1 1 0 ∷ Pop 2 ∷ Reap ∷ [])
        (made 4096 ∷ made 8192 ∷ done ∷ done ∷ done ∷ reaped 2 ∷ freed 4096 ∷ freed 8192 ∷ done ∷ total 6 2 2 0 ∷
        []) }
    ensures ring { IsLogOf usual
        (new Counted 1 1 ∷ Put 0 0 0 ∷ Pop 1 ∷ Reap ∷ Collect ∷ [])
        (made 4096 ∷ done ∷ done ∷ reaped 0 ∷ done ∷ collected 1 ∷ freed 4096 ∷ done ∷ total 5 1 1 0 ∷ []) }
    ensures loose_word { IsLogOf usual
        (new Traced 0 4 ∷ new Counted 0 0 ∷ Put 1 0 0 ∷ Pop 1 ∷ Reap ∷ Get 0 0 ∷ Get 0 0 ∷ [])
        (made 4096 ∷ made 8192 ∷ loose ∷ done ∷ reaped 1 ∷ freed 8192 ∷ done ∷ word 8192 ∷ refused Nothing ∷
        total 7 2 1 1 ∷ []) }
{}

/// A command reaps at its end at two zero-count objects, and a finalizer tells the sum of the slots.
pub fn ends()
    ensures threshold { IsLogOf (with_zct 2)
        (new Counted 0 0 ∷ Pop 1 ∷ new Counted 0 0 ∷ new Counted 0 0 ∷ [])
        (made 4096 ∷ done ∷ reaped 1 ∷ freed 4096 ∷ made 4112 ∷ reaped 0 ∷ made 4096 ∷ total 4 3 1 2 ∷ []) }
    ensures finalizer { IsLogOf usual
        (new_final Counted 0 2 ∷ Push 7 ∷ Put 1 0 0 ∷ Push 5 ∷ Put 2 1 0 ∷ Pop 3 ∷ Reap ∷ [])
        (made 4096 ∷ done ∷ done ∷ done ∷ done ∷ done ∷ finalized 4096 2 12 ∷ reaped 1 ∷ freed 4096 ∷ done ∷
        total 7 1 1 0 ∷ []) }
{}

/// What 255 counted slots held once is left to a collection, and what 254 held isn't.
pub fn sticky_counts()
    ensures below { IsLogOf usual
        (new Counted 0 0 ∷ new Counted 254 254 ∷ puts 254 ++ Pop 2 ∷ Reap ∷ [])
        (made 4096 ∷ made 8192 ∷ replicate 254 done ++ done ∷ reaped 2 ∷ freed 4096 ∷ freed 8192 ∷ done ∷
        total 258 2 2 0 ∷ []) }
    ensures sticky { IsLogOf usual
        (new Counted 0 0 ∷ new Counted 255 255 ∷ puts 255 ++ Pop 2 ∷ Reap ∷ Collect ∷ [])
        (made 4096 ∷ made 8192 ∷ replicate 255 done ++ done ∷ reaped 1 ∷ freed 8192 ∷ done ∷
        collected 1 ∷ freed 4096 ∷ done ∷ total 260 2 2 0 ∷ []) }
{}
