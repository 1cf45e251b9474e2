// A trace at a pace.
ghost use Rattle.std.specs.Prelude.{◌∷◌, []};
ghost use Rattle.mm_model.specs.declared.command.Command.TheVariants.{Begin, Step, Finish, Stat};
ghost use Rattle.mm_model.specs.declared.object.Kind.TheVariants.{Leaf, Traced};
ghost use Rattle.mm_pace.specs.Paced.{IsPacedList};
ghost use Rattle.mm_examples.specs.Examples.{IsLogOf, usual, new, made, done, stat, scanned, collected, total};

/// An object of 65,536 bytes is enough for a cycle to begin, and at the highest rate the next birth ends it.
pub fn driving()
    ensures paced { IsPacedList 1024 usual
        (new Leaf 0 16380 ∷ new Traced 0 4 ∷ Stat ∷ [])
        (made 4096 ∷ done ∷ made 69632 ∷ scanned 4096 0 ∷ done ∷ collected 0 ∷ done ∷ stat 2 0 0 1006 ∷ [])
        (new Leaf 0 16380 ∷ Begin ∷ new Traced 0 4 ∷ Step 2048 ∷ Finish ∷ Stat ∷ []) }
    ensures legal { IsLogOf usual
        (new Leaf 0 16380 ∷ Begin ∷ new Traced 0 4 ∷ Step 2048 ∷ Finish ∷ Stat ∷ [])
        (made 4096 ∷ done ∷ made 69632 ∷ scanned 4096 0 ∷ done ∷ collected 0 ∷ done ∷ stat 2 0 0 1006 ∷
        total 6 2 0 2 ∷ []) }
{}

/// A cycle of the trace has the work of one object. It runs over a command, and the birth of an object of 16 bytes ends
/// it.
pub fn pacing()
    ensures paced { IsPacedList 1 usual
        (new Leaf 0 0 ∷ Begin ∷ Stat ∷ new Leaf 0 0 ∷ [])
        (made 4096 ∷ done ∷ stat 1 0 0 1022 ∷ made 4112 ∷ scanned 4096 0 ∷ done ∷ collected 0 ∷ done ∷ [])
        (new Leaf 0 0 ∷ Begin ∷ Stat ∷ new Leaf 0 0 ∷ Step 1 ∷ Finish ∷ []) }
    ensures legal { IsLogOf usual
        (new Leaf 0 0 ∷ Begin ∷ Stat ∷ new Leaf 0 0 ∷ Step 1 ∷ Finish ∷ [])
        (made 4096 ∷ done ∷ stat 1 0 0 1022 ∷ made 4112 ∷ scanned 4096 0 ∷ done ∷ collected 0 ∷ done ∷
        total 6 2 0 2 ∷ []) }
{}
