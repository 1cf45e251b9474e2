// Traces on what an incremental cycle keeps and frees.
ghost use Rattle.std.specs.Prelude.{◌∷◌, []};
ghost use Rattle.mm_model.specs.declared.command.Command.TheVariants.{Push, Pop, Get, Put, Weak, Look, Root, AreaGet};
ghost use Rattle.mm_model.specs.declared.command.Command.TheVariants.{AreaPut, Reap, Begin, Step, Finish};
ghost use Rattle.mm_model.specs.declared.object.Kind.TheVariants.{Traced, Counted};
ghost use Rattle.mm_examples.specs.Examples.{IsLogOf, usual, new, made, word, area, done, scanned, reaped, collected};
ghost use Rattle.mm_examples.specs.Examples.{freed, total};

/// The end of a cycle keeps a white object that moved into a counted slot of a black one, and one that the stack alone
/// names.
pub fn kept_at_the_end()
    ensures counted_slot { IsLogOf usual
        (new Traced 1 1 ∷ new Traced 1 1 ∷ new Counted 0 0 ∷ Put 1 0 0 ∷ Pop 1 ∷ Begin ∷ Step 1 ∷ Get 0 0 ∷
        Put 2 0 0 ∷ Push 0 ∷ Put 2 0 0 ∷ Pop 3 ∷ Finish ∷ Get 0 0 ∷ [])
        (made 4096 ∷ made 4128 ∷ made 8192 ∷ done ∷ done ∷ done ∷ scanned 4096 1 ∷ done ∷ word 8192 ∷ done ∷
        done ∷ done ∷ done ∷ collected 0 ∷ done ∷ word 8192 ∷ total 14 3 0 3 ∷ []) }
    ensures stack_alone { IsLogOf usual
        (new Traced 0 1 ∷ new Traced 0 1 ∷ Put 1 0 0 ∷ Pop 1 ∷ Begin ∷ Get 0 0 ∷ Push 0 ∷ Put 2 0 0 ∷ Pop 1 ∷
        Finish ∷ [])
        (made 4096 ∷ made 4128 ∷ done ∷ done ∷ done ∷ word 4128 ∷ done ∷ done ∷ done ∷ collected 0 ∷ done ∷
        total 10 2 0 2 ∷ []) }
{}

/// A reap may free the partly scanned object, and then another one is scanned. The end of a cycle frees a target whose
/// weak reference is kept.
pub fn freed_in_a_cycle()
    ensures partly_scanned { IsLogOf usual
        (new Traced 0 0 ∷ new Counted 0 100 ∷ Begin ∷ Step 1 ∷ Pop 1 ∷ Reap ∷ Step 1 ∷ Finish ∷ [])
        (made 4096 ∷ made 8192 ∷ done ∷ scanned 8192 64 ∷ done ∷ done ∷ reaped 1 ∷ freed 8192 ∷ done ∷
        scanned 4096 0 ∷ done ∷ collected 0 ∷ done ∷ total 8 2 1 1 ∷ []) }
    ensures target { IsLogOf usual
        (Root 0 1 ∷ new Traced 0 0 ∷ Weak 0 ∷ AreaPut 0 0 0 ∷ Pop 2 ∷ Begin ∷ Finish ∷ AreaGet 0 0 ∷ Look 0 ∷ [])
        (area 0 4096 ∷ made 8192 ∷ made 8208 ∷ done ∷ done ∷ done ∷ collected 1 ∷ freed 8192 ∷ done ∷ word 8208 ∷
        word 0 ∷ total 9 2 1 1 ∷ []) }
{}
