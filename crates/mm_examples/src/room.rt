// Traces in which a heap of two pages fills up.
ghost use Rattle.std.specs.Prelude.{◌∷◌, []};
ghost use Rattle.mm_model.specs.declared.command.Command.TheVariants.{Pop, Collect, Begin, Finish, Stat};
ghost use Rattle.mm_model.specs.declared.object.Kind.TheVariants.{Traced};
ghost use Rattle.mm_model.specs.declared.refusal.Refusal.TheVariants.{Full, Idle};
ghost use Rattle.mm_examples.specs.Examples.{IsLogOf, with_pages, new, made, stat, done, refused, reaped, collected};
ghost use Rattle.mm_examples.specs.Examples.{freed, total};

/// A search reaps, then collects, and is refused where nothing helped.
pub fn room()
    ensures found { IsLogOf (with_pages 2 2)
        (new Traced 0 508 ∷ new Traced 0 508 ∷ Pop 2 ∷ new Traced 0 508 ∷ [])
        (made 4096 ∷ made 6144 ∷ done ∷ reaped 0 ∷ collected 2 ∷ freed 4096 ∷ freed 6144 ∷ made 4096 ∷
        total 4 3 2 1 ∷ []) }
    ensures full { IsLogOf (with_pages 2 2)
        (new Traced 0 508 ∷ new Traced 0 508 ∷ new Traced 0 508 ∷ [])
        (made 4096 ∷ made 6144 ∷ reaped 0 ∷ collected 0 ∷ refused Full ∷ total 3 2 0 2 ∷ []) }
    ensures grown { IsLogOf (with_pages 2 3)
        (new Traced 0 508 ∷ new Traced 0 508 ∷ new Traced 0 508 ∷ Stat ∷ Pop 1 ∷ Collect ∷ Stat ∷ [])
        (made 4096 ∷ made 6144 ∷ reaped 0 ∷ made 8192 ∷ stat 3 0 0 0 ∷ done ∷ collected 1 ∷ freed 8192 ∷ done ∷
        stat 2 0 0 0 ∷ total 7 3 1 2 ∷ []) }
    ensures ended_cycle { IsLogOf (with_pages 2 2)
        (new Traced 0 508 ∷ new Traced 0 508 ∷ Begin ∷ Pop 1 ∷ new Traced 0 508 ∷ Finish ∷ [])
        (made 4096 ∷ made 6144 ∷ done ∷ done ∷ reaped 0 ∷ collected 1 ∷ freed 6144 ∷ made 6144 ∷ refused Idle ∷
        total 6 3 1 2 ∷ []) }
{}
