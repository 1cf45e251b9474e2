// Logs that break one promise, keep every other one, and so aren't faithful.
ghost use Rattle.std.specs.Prelude.{◌∷◌, [], List};
ghost use Rattle.mm_model.specs.declared.command.Command.{Command};
ghost use Rattle.mm_model.specs.declared.command.Command.TheVariants.{Push, Pop, Inner, Get, Put, Weak, Look};
ghost use Rattle.mm_model.specs.declared.command.Command.TheVariants.{Reap, Collect, Begin, Finish};
ghost use Rattle.mm_model.specs.declared.line.Line.{Line};
ghost use Rattle.mm_model.specs.declared.object.Kind.TheVariants.{Traced, Counted};
ghost use Rattle.mm_model.specs.declared.settings.Settings.{Settings};
ghost use Rattle.mm_model.specs.Logs.Faithful.{IsFaithful};
ghost use Rattle.mm_examples.specs.Broken.{Promise, References, Protected, WeakReferences, Collections};
ghost use Rattle.mm_examples.specs.Broken.{Cycles, Apart, BreaksOnly};
ghost use Rattle.mm_model.specs.declared.refusal.Refusal.TheVariants as refusals;
ghost use Rattle.mm_examples.specs.Examples.{usual, with_stack, new, made, word, done, refused, reaped, collected};
ghost use Rattle.mm_examples.specs.Examples.{freed};

/// A log that breaks a promise isn't faithful.
pub fn broken_logs_are_unfaithful()
    ensures { (promise : Promise) (settings : Settings) (commands : List Command) (log : List Line) →
        BreaksOnly promise settings commands log → IsFaithful settings commands log → ⊥ }
{}

/// A write that is lost: 7 was written last, and `get` answers 0.
pub fn a_write_is_lost()
    ensures { BreaksOnly References usual
        (new Traced 0 4 ∷ Push 7 ∷ Put 1 0 0 ∷ Get 1 0 ∷ [])
        (made 4096 ∷ done ∷ done ∷ word 0 ∷ []) }
{}

/// A reap frees an object that the stack names.
pub fn an_object_on_the_stack_is_freed()
    ensures { BreaksOnly Protected usual (new Counted 0 0 ∷ Reap ∷ []) (made 4096 ∷ reaped 1 ∷ freed 4096 ∷ done ∷ []) }
{}

/// `look` answers 0 while the target lives.
pub fn a_weak_reference_is_emptied_too_early()
    ensures { BreaksOnly WeakReferences usual
        (new Traced 0 0 ∷ Weak 0 ∷ Look 0 ∷ [])
        (made 4096 ∷ made 4112 ∷ word 0 ∷ []) }
{}

/// A full collection leaves an object that isn't reached.
pub fn a_collection_leaves_garbage()
    ensures { BreaksOnly Collections usual
        (new Traced 0 0 ∷ Pop 1 ∷ Collect ∷ [])
        (made 4096 ∷ done ∷ collected 0 ∷ done ∷ []) }
{}

/// `finish` leaves an object that was unreachable throughout the cycle.
pub fn a_cycle_leaves_garbage()
    ensures { BreaksOnly Cycles usual
        (new Traced 0 0 ∷ Pop 1 ∷ Begin ∷ Finish ∷ [])
        (made 4096 ∷ done ∷ done ∷ collected 0 ∷ done ∷ []) }
{}

/// Two objects are said to begin at one place.
pub fn two_objects_begin_at_one_place()
    ensures { BreaksOnly Apart usual (new Traced 0 0 ∷ new Traced 0 0 ∷ []) (made 4096 ∷ made 4096 ∷ []) }
{}

/// `weak` answers on a full stack.
pub fn weak_answers_on_a_full_stack()
    ensures { BreaksOnly References (with_stack 2)
        (new Traced 0 0 ∷ Push 1 ∷ Weak 1 ∷ [])
        (made 4096 ∷ done ∷ word 4096 ∷ []) }
{}

/// `weak` of a weak reference is refused as if the cell meant nothing.
pub fn a_weak_reference_is_said_to_mean_nothing()
    ensures { BreaksOnly References usual
        (new Traced 0 0 ∷ Weak 0 ∷ Weak 0 ∷ [])
        (made 4096 ∷ made 4112 ∷ refused refusals.Nothing ∷ []) }
{}

/// `weak` through a word that lies inside of its object is refused as if the cell meant nothing.
pub fn an_inner_reference_is_said_to_mean_nothing()
    ensures { BreaksOnly References usual
        (new Traced 0 4 ∷ Inner 0 4 ∷ Weak 0 ∷ [])
        (made 4096 ∷ word 4100 ∷ refused refusals.Nothing ∷ []) }
{}

/// `put` stores a cell that there isn't.
pub fn a_missing_cell_is_stored()
    ensures { BreaksOnly References usual (new Traced 0 1 ∷ Put 0 0 5 ∷ []) (made 4096 ∷ done ∷ []) }
{}

/// `look` answers on a full stack.
pub fn look_answers_on_a_full_stack()
    ensures { BreaksOnly WeakReferences (with_stack 2)
        (new Traced 0 0 ∷ Weak 0 ∷ Look 0 ∷ [])
        (made 4096 ∷ made 4112 ∷ word 0 ∷ []) }
{}

/// A line tells that an object was freed where none was ever born.
pub fn a_free_line_tells_of_nothing()
    ensures { BreaksOnly Protected usual (Collect ∷ []) (collected 1 ∷ freed 4096 ∷ done ∷ []) }
{}

/// One object is freed twice in a phase.
pub fn an_object_is_freed_twice()
    ensures { BreaksOnly Protected usual
        (new Traced 0 0 ∷ Pop 1 ∷ Collect ∷ [])
        (made 4096 ∷ done ∷ collected 2 ∷ freed 4096 ∷ freed 4096 ∷ done ∷ []) }
{}
