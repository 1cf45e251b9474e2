// Traces in which a search ends without a place, and commands that reap at their end.
ghost use Rattle.std.specs.Prelude.{◌∷◌, []};
ghost use Rattle.mm_model.specs.declared.command.Command.TheVariants.{Pop, Put, Root, AreaPut, Reap, Collect, Begin};
ghost use Rattle.mm_model.specs.declared.command.Command.TheVariants.{Finish, Stat};
ghost use Rattle.mm_model.specs.declared.object.Kind.TheVariants.{Traced, Counted};
ghost use Rattle.mm_model.specs.declared.refusal.Refusal.TheVariants.{Full, Idle};
ghost use Rattle.mm_examples.specs.Examples.{IsLogOf, usual, with_pages, with_zct, new, made, area, stat, done, loose};
ghost use Rattle.mm_examples.specs.Examples.{refused, reaped, collected, freed, total};

/// A refusal for want of room leaves what the reap and the collection left, their threshold and no cycle.
pub fn refused_as_full()
    ensures run_of_pages { IsLogOf (with_pages 4 4)
        (new Traced 0 509 ∷ Pop 1 ∷ new Traced 0 1021 ∷ Collect ∷ new Traced 0 1021 ∷ [])
        (made 4096 ∷ done ∷ made 8192 ∷ collected 1 ∷ freed 4096 ∷ done ∷ reaped 0 ∷ collected 0 ∷ refused Full ∷
        total 5 2 1 1 ∷ []) }
    ensures greatest_region { IsLogOf (with_pages 2 3)
        (new Traced 0 1021 ∷ new Traced 0 508 ∷ [])
        (reaped 0 ∷ made 4096 ∷ reaped 0 ∷ collected 0 ∷ refused Full ∷ total 2 1 0 1 ∷ []) }
    ensures left { IsLogOf (with_pages 4 4)
        (new Counted 0 509 ∷ Pop 1 ∷ new Traced 0 509 ∷ Pop 1 ∷ new Traced 0 509 ∷ Begin ∷ new Traced 0 2045 ∷
        Finish ∷ Stat ∷ [])
        (made 4096 ∷ done ∷ made 8192 ∷ done ∷ made 12288 ∷ done ∷ reaped 1 ∷ freed 4096 ∷ collected 1 ∷
        freed 8192 ∷ refused Full ∷ refused Idle ∷ stat 1 0 0 2 ∷ total 9 3 2 1 ∷ []) }
    ensures threshold { IsLogOf (record usual { pages = 2; max = 2; zct = 2 })
        (new Counted 0 0 ∷ new Counted 0 0 ∷ Pop 1 ∷ new Traced 0 4 ∷ new Counted 0 0 ∷ [])
        (made 4096 ∷ reaped 0 ∷ made 4112 ∷ done ∷ reaped 1 ∷ freed 4112 ∷ collected 0 ∷ refused Full ∷
        reaped 0 ∷ made 4112 ∷ total 5 3 1 2 ∷ []) }
{}

/// A collection frees the last holder of a counted object that a word of an area keeps, and the reap at the end of the
/// command frees that one. After a refusal for want of room the next command reaps so.
pub fn reaps_at_the_end()
    ensures of_collect { IsLogOf (with_zct 1)
        (new Traced 1 1 ∷ Root 0 1 ∷ new Counted 0 0 ∷ Put 1 0 0 ∷ AreaPut 0 0 0 ∷ Pop 2 ∷ Reap ∷ Collect ∷ [])
        (made 4096 ∷ area 0 8192 ∷ reaped 0 ∷ made 12288 ∷ done ∷ loose ∷ done ∷ reaped 0 ∷ done ∷
        collected 1 ∷ freed 4096 ∷ reaped 1 ∷ freed 12288 ∷ done ∷ total 8 2 2 0 ∷ []) }
    ensures of_finish { IsLogOf (with_zct 1)
        (new Traced 1 1 ∷ Root 0 1 ∷ new Counted 0 0 ∷ Put 1 0 0 ∷ AreaPut 0 0 0 ∷ Pop 2 ∷ Reap ∷ Begin ∷ Finish ∷
        [])
        (made 4096 ∷ area 0 8192 ∷ reaped 0 ∷ made 12288 ∷ done ∷ loose ∷ done ∷ reaped 0 ∷ done ∷ done ∷
        collected 1 ∷ freed 4096 ∷ reaped 1 ∷ freed 12288 ∷ done ∷ total 9 2 2 0 ∷ []) }
    ensures of_begin { IsLogOf (record usual { pages = 4; max = 4; zct = 1 })
        (new Traced 1 1 ∷ Root 0 1 ∷ new Counted 0 0 ∷ Put 1 0 0 ∷ AreaPut 0 0 0 ∷ Pop 2 ∷ new Traced 0 1021 ∷
        Begin ∷ Finish ∷ [])
        (made 4096 ∷ area 0 8192 ∷ reaped 0 ∷ made 12288 ∷ done ∷ loose ∷ done ∷ reaped 0 ∷ collected 1 ∷
        freed 4096 ∷ refused Full ∷ reaped 1 ∷ freed 12288 ∷ done ∷ collected 0 ∷ done ∷ total 9 2 2 0 ∷ []) }
{}
