// Logs that aren't legal for their commands.
ghost use Rattle.std.specs.Prelude.{◌∷◌, []};
ghost use Rattle.mm_model.specs.declared.command.Command.TheVariants.{Pop, Begin, Step};
ghost use Rattle.mm_model.specs.declared.object.Kind.TheVariants.{Traced};
ghost use Rattle.mm_model.specs.State.{State};
ghost use Rattle.mm_model.specs.Step.{IsStep};
ghost use Rattle.mm_model.specs.Logs.Log.{IsLegal};
ghost use Rattle.mm_examples.specs.Examples.{usual, new, made, done, scanned};

/// `step` scans no white object.
pub fn a_white_object_is_not_scanned()
    ensures { (b : State) → IsLegal IsStep usual
        (new Traced 0 4 ∷ Pop 1 ∷ Begin ∷ Step 1 ∷ [])
        (made 4096 ∷ done ∷ done ∷ scanned 4096 4 ∷ done ∷ []) b → ⊥ }
{}

/// `step 66` doesn't end with one part of 64 slots, which costs 65, while the object is gray.
pub fn a_step_does_not_end_below_its_cost()
    ensures { (b : State) → IsLegal IsStep usual
        (new Traced 0 100 ∷ Begin ∷ Step 66 ∷ [])
        (made 4096 ∷ done ∷ scanned 4096 64 ∷ done ∷ []) b → ⊥ }
{}
