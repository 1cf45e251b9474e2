// Traces on words, slots, stack cells and shapes.
ghost use Rattle.std.specs.Prelude.{◌∷◌, []};
ghost use Rattle.mm_model.specs.declared.command.Command.TheVariants.{Push, Dup, Pop, Inner, Get, Put, Weak, Look};
ghost use Rattle.mm_model.specs.declared.command.Command.TheVariants.{Root, Fixed, Map};
ghost use Rattle.mm_model.specs.declared.object.Kind.TheVariants.{Traced, Leaf};
ghost use Rattle.mm_model.specs.declared.refusal.Refusal.TheVariants.{NoCell, Shape, Outside, NoWeak, NoSlot};
ghost use Rattle.mm_model.specs.declared.refusal.Refusal.TheVariants.{NotCounted, StackFull};
ghost use Rattle.mm_examples.specs.Examples.{IsLogOf, usual, with_stack, new, made, word, object, done, nothing};
ghost use Rattle.mm_examples.specs.Examples.{refused, total};

/// What words fall in, and which slots take them.
pub fn words()
    ensures last_byte { IsLogOf usual
        (new Traced 0 4 ∷ Inner 0 31 ∷ Map 0 ∷ Inner 1 32 ∷ [])
        (made 4096 ∷ word 4127 ∷ object 4096 Traced 32 ∷ refused Outside ∷ total 4 1 0 1 ∷ []) }
    ensures slots { IsLogOf usual
        (new Traced 1 2 ∷ Get 0 2 ∷ Put 0 0 0 ∷ Put 0 1 0 ∷ Look 0 ∷ Weak 0 ∷ Weak 0 ∷ [])
        (made 4096 ∷ refused NoSlot ∷ refused NotCounted ∷ done ∷ refused NoWeak ∷ made 8192 ∷ refused NoWeak ∷
        total 7 2 0 2 ∷ []) }
{}

/// Missing cells, a stack of one cell that is full, and shapes that no object and no area has.
pub fn refusals()
    ensures cells { IsLogOf usual
        (Dup 0 ∷ Push 5 ∷ Dup 0 ∷ Pop 3 ∷ Map 0 ∷ Pop 2 ∷ [])
        (refused NoCell ∷ done ∷ done ∷ refused NoCell ∷ nothing ∷ done ∷ total 6 0 0 0 ∷ []) }
    ensures full_stack { IsLogOf (with_stack 1)
        (Push 1 ∷ Push 2 ∷ new Traced 0 0 ∷ Pop 1 ∷ new Traced 0 0 ∷ [])
        (done ∷ refused StackFull ∷ refused StackFull ∷ done ∷ made 4096 ∷ total 5 1 0 1 ∷ []) }
    ensures shapes { IsLogOf usual
        (new Traced 2 1 ∷ new Leaf 1 1 ∷ new Traced 0 1048576 ∷ Root 0 0 ∷ Root 2 1 ∷ Fixed 0 ∷ [])
        (refused Shape ∷ refused Shape ∷ refused Shape ∷ refused Shape ∷ refused Shape ∷ refused Shape ∷
        total 6 0 0 0 ∷ []) }
{}
