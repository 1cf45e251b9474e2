// Traces with an incremental cycle.
ghost use Rattle.std.specs.Prelude.{◌∷◌, []};
ghost use Rattle.mm_model.specs.declared.command.Command.TheVariants.{Push, Pop, Get, Put, Reap, Collect, Begin};
ghost use Rattle.mm_model.specs.declared.command.Command.TheVariants.{Step, Finish};
ghost use Rattle.mm_model.specs.declared.object.Kind.TheVariants.{Traced, Leaf, Counted};
ghost use Rattle.mm_model.specs.declared.refusal.Refusal.TheVariants.{Busy, Idle};
ghost use Rattle.mm_examples.specs.Examples.{IsLogOf, usual, new, made, word, done, refused, scanned, reaped};
ghost use Rattle.mm_examples.specs.Examples.{collected, freed, total};

/// Marking keeps what a word of a scanned slot names, whenever it was stored.
pub fn barriers()
    ensures black_birth { IsLogOf usual
        (new Traced 0 4 ∷ Push 4128 ∷ Put 1 0 0 ∷ Pop 1 ∷ Begin ∷ Step 1 ∷ new Traced 0 4 ∷ Pop 1 ∷ Finish ∷ [])
        (made 4096 ∷ done ∷ done ∷ done ∷ done ∷ scanned 4096 4 ∷ done ∷ made 4128 ∷ done ∷ collected 0 ∷ done ∷
        total 9 2 0 2 ∷ []) }
    ensures moved { IsLogOf usual
        (new Traced 0 4 ∷ new Traced 0 4 ∷ new Traced 0 4 ∷ Put 1 0 0 ∷ Put 2 0 1 ∷ Pop 2 ∷ Begin ∷ Step 1 ∷
        Get 0 0 ∷ Get 0 0 ∷ Put 2 1 0 ∷ Push 0 ∷ Put 2 0 0 ∷ Pop 3 ∷ Finish ∷ [])
        (made 4096 ∷ made 4128 ∷ made 4160 ∷ done ∷ done ∷ done ∷ done ∷ scanned 4096 4 ∷ done ∷ word 4128 ∷
        word 4160 ∷ done ∷ done ∷ done ∷ done ∷ collected 0 ∷ done ∷ total 15 3 0 3 ∷ []) }
{}

/// A gone object isn't scanned, a collection ends the cycle, and one cycle runs at a time.
pub fn cycles()
    ensures gone_object { IsLogOf usual
        (new Counted 0 0 ∷ Begin ∷ Pop 1 ∷ Reap ∷ new Leaf 0 4 ∷ Step 1 ∷ Finish ∷ [])
        (made 4096 ∷ done ∷ done ∷ reaped 1 ∷ freed 4096 ∷ done ∷ made 4096 ∷ done ∷ collected 0 ∷ done ∷
        total 7 2 1 1 ∷ []) }
    ensures collection { IsLogOf usual
        (new Traced 0 0 ∷ Begin ∷ Step 1 ∷ Pop 1 ∷ Collect ∷ Finish ∷ [])
        (made 4096 ∷ done ∷ scanned 4096 0 ∷ done ∷ done ∷ collected 1 ∷ freed 4096 ∷ done ∷ refused Idle ∷
        total 6 1 1 0 ∷ []) }
    ensures turns { IsLogOf usual
        (Finish ∷ Begin ∷ Begin ∷ Step 0 ∷ Step 1 ∷ Finish ∷ [])
        (refused Idle ∷ done ∷ refused Busy ∷ done ∷ done ∷ collected 0 ∷ done ∷ total 6 0 0 0 ∷ []) }
{}

/// A large object is scanned in parts, and gray objects in any order.
pub fn parts()
    ensures first { IsLogOf usual
        (new Traced 0 100 ∷ new Traced 0 0 ∷ Begin ∷ Step 66 ∷ Put 1 0 0 ∷ Put 1 99 0 ∷ Pop 2 ∷ Finish ∷ Collect ∷
        [])
        (made 4096 ∷ made 8192 ∷ done ∷ scanned 4096 64 ∷ scanned 4096 36 ∷ done ∷ done ∷ done ∷ done ∷
        collected 0 ∷ done ∷ collected 2 ∷ freed 4096 ∷ freed 8192 ∷ done ∷ total 9 2 2 0 ∷ []) }
    ensures second { IsLogOf usual
        (new Traced 0 100 ∷ new Traced 0 0 ∷ Begin ∷ Step 66 ∷ Put 1 0 0 ∷ Put 1 99 0 ∷ Pop 2 ∷ Finish ∷ Collect ∷
        [])
        (made 4096 ∷ made 8192 ∷ done ∷ scanned 8192 0 ∷ scanned 4096 64 ∷ done ∷ done ∷ done ∷ done ∷
        collected 0 ∷ done ∷ collected 2 ∷ freed 4096 ∷ freed 8192 ∷ done ∷ total 9 2 2 0 ∷ []) }
{}
