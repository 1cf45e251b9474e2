// Traces on refusals, on loose words and on what the heap tells of itself.
ghost use Rattle.std.specs.Prelude.{◌∷◌, []};
ghost use Rattle.mm_model.specs.declared.command.Command.TheVariants.{Push, Pop, Get, Look, Root, DropArea, AreaGet};
ghost use Rattle.mm_model.specs.declared.command.Command.TheVariants.{AreaPut, Reap, Collect, Begin, Finish, Stat};
ghost use Rattle.mm_model.specs.declared.object.Kind.TheVariants.{Traced, Leaf, Counted};
ghost use Rattle.mm_model.specs.declared.refusal.Refusal.TheVariants.{NoCell, Shape, NoArea, Nothing, NoSlot};
ghost use Rattle.mm_model.specs.declared.refusal.Refusal.TheVariants.{NotCounted, Busy, Idle};
ghost use Rattle.mm_examples.specs.Examples.{IsLogOf, usual, with_pages, new, made, area, stat, done, loose, refused};
ghost use Rattle.mm_examples.specs.Examples.{reaped, collected, freed, total};

/// What is refused, and what a store into a cell of an area answers.
pub fn answers()
    ensures causes { IsLogOf usual
        (new Leaf 1 1 ∷ new Traced 2 1 ∷ new Traced 0 1048576 ∷ Get 0 0 ∷ Push 7 ∷ Get 0 0 ∷ Look 0 ∷ Finish ∷
        DropArea 0 ∷ AreaGet 0 0 ∷ Begin ∷ Begin ∷ [])
        (refused Shape ∷ refused Shape ∷ refused Shape ∷ refused NoCell ∷ done ∷ refused Nothing ∷ refused Nothing ∷
        refused Idle ∷ refused NoArea ∷ refused NoArea ∷ done ∷ refused Busy ∷ total 12 0 0 0 ∷ []) }
    ensures cells { IsLogOf usual
        (Root 1 2 ∷ new Traced 0 0 ∷ AreaPut 0 0 0 ∷ new Counted 0 0 ∷ AreaPut 0 1 0 ∷ AreaPut 0 0 0 ∷
        AreaPut 0 2 0 ∷ AreaPut 1 0 0 ∷ AreaPut 0 0 5 ∷ [])
        (area 0 4096 ∷ made 8192 ∷ refused NotCounted ∷ made 8208 ∷ loose ∷ done ∷ refused NoSlot ∷
        refused NoArea ∷ refused NoCell ∷ total 9 2 0 2 ∷ []) }
    ensures dropped_area { IsLogOf usual
        (Root 1 1 ∷ new Counted 0 0 ∷ AreaPut 0 0 0 ∷ Pop 1 ∷ Reap ∷ DropArea 0 ∷ Reap ∷ DropArea 0 ∷ [])
        (area 0 4096 ∷ made 8192 ∷ done ∷ done ∷ reaped 0 ∷ done ∷ done ∷ reaped 1 ∷ freed 8192 ∷ done ∷
        refused NoArea ∷ total 8 1 1 0 ∷ []) }
{}

/// A number keeps the object in which it falls, and an object that counted places don't hold yet is told as such.
pub fn numbers()
    ensures number_on_the_stack { IsLogOf usual
        (Push 4100 ∷ new Leaf 0 0 ∷ Pop 1 ∷ Collect ∷ [])
        (done ∷ made 4096 ∷ done ∷ collected 0 ∷ done ∷ total 4 1 0 1 ∷ []) }
    ensures zero_count { IsLogOf (with_pages 3 3)
        (new Counted 0 0 ∷ Stat ∷ [])
        (made 4096 ∷ stat 1 1 0 1 ∷ total 2 1 0 1 ∷ []) }
{}
