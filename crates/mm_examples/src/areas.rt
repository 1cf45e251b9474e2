// Traces with areas.
ghost use Rattle.std.specs.Prelude.{◌≡◌, ◌∷◌, [], length};
ghost use Rattle.mm_model.specs.declared.command.Command.TheVariants.{Pop, Inner, Root, Fixed, DropArea, AreaGet};
ghost use Rattle.mm_model.specs.declared.command.Command.TheVariants.{AreaPut, Reap, Collect, Map, Stat};
ghost use Rattle.mm_model.specs.declared.object.Kind.TheVariants.{Traced, Counted};
ghost use Rattle.mm_model.specs.declared.refusal.Refusal.TheVariants.{NoArea, NoSlot, AreasFull, Shape};
ghost use Rattle.mm_model.specs.State.{State, one_more_command};
ghost use Rattle.mm_model.specs.Step.{IsStep};
ghost use Rattle.mm_examples.specs.Examples.{IsLogOf, usual, new, made, word, area, stat, done, nothing, refused};
ghost use Rattle.mm_examples.specs.Examples.{reaped, collected, freed, total};

/// An area takes the lowest free number and place. A scanned one keeps what its words fall in, another one nothing.
pub fn areas()
    ensures numbers { IsLogOf usual
        (Fixed 4 ∷ Root 1 2 ∷ DropArea 0 ∷ Fixed 1 ∷ AreaGet 1 5 ∷ DropArea 7 ∷ [])
        (area 0 4096 ∷ area 1 4112 ∷ done ∷ area 0 4096 ∷ refused NoSlot ∷ refused NoArea ∷ total 6 0 0 0 ∷ []) }
    ensures counted_cell { IsLogOf usual
        (Root 1 1 ∷ new Counted 0 0 ∷ AreaPut 0 0 0 ∷ Pop 1 ∷ Reap ∷ Stat ∷ DropArea 0 ∷ Reap ∷ [])
        (area 0 4096 ∷ made 8192 ∷ done ∷ done ∷ reaped 0 ∷ done ∷ stat 1 0 1 1021 ∷ done ∷ reaped 1 ∷
        freed 8192 ∷ done ∷ total 8 1 1 0 ∷ []) }
    ensures unscanned { IsLogOf usual
        (Fixed 1 ∷ new Traced 0 0 ∷ AreaPut 0 0 0 ∷ Pop 1 ∷ Collect ∷ AreaGet 0 0 ∷ Map 0 ∷ [])
        (area 0 4096 ∷ made 8192 ∷ done ∷ done ∷ collected 1 ∷ freed 8192 ∷ done ∷ word 8192 ∷ nothing ∷
        total 7 1 1 0 ∷ []) }
    ensures inner_word { IsLogOf usual
        (new Traced 0 4 ∷ Root 0 1 ∷ Inner 0 31 ∷ AreaPut 0 0 0 ∷ Pop 2 ∷ Collect ∷ [])
        (made 4096 ∷ area 0 8192 ∷ word 4127 ∷ done ∷ done ∷ collected 0 ∷ done ∷ total 6 1 0 1 ∷ []) }
{}

/// Where 1,024 areas live, there is no other one. A bad shape is told first.
pub fn all_numbers_taken()
    ensures root { (a : State) → length a.areas ≡ 1024 →
        IsStep a (Root 1 2) (refused AreasFull ∷ []) (one_more_command a) }
    ensures fixed { (a : State) → length a.areas ≡ 1024 →
        IsStep a (Fixed 1) (refused AreasFull ∷ []) (one_more_command a) }
    ensures shape_first { (a : State) → length a.areas ≡ 1024 →
        IsStep a (Root 2 1) (refused Shape ∷ []) (one_more_command a) }
{}
