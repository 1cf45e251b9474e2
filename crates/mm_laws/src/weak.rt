// Laws on weak references: each is empty exactly once its target is freed.
ghost use Rattle.std.specs.Prelude.{◌≡◌, ◌≢◌, ◌↔◌, ◌⊎◌, ◌∷◌, ◌++◌, [], ℕ, List, Some, false, length};
ghost use Rattle.mm_model.specs.declared.command.Command.{Command};
ghost use Rattle.mm_model.specs.declared.command.Command.TheVariants as commands;
ghost use Rattle.mm_model.specs.declared.line.Line.{Line};
ghost use Rattle.mm_model.specs.declared.line.Line.TheVariants as lines;
ghost use Rattle.mm_model.specs.declared.reply.Reply.TheVariants as replies;
ghost use Rattle.mm_model.specs.Object.{Object};
ghost use Rattle.mm_model.specs.State.{State, Lives};
ghost use Rattle.mm_model.specs.Meaning.{meant_at};
ghost use Rattle.mm_model.specs.Effect.{look_effect};
ghost use Rattle.mm_model.specs.Refusing.{is_stack_full};
ghost use Rattle.mm_model.specs.Good.{IsGood};
ghost use Rattle.mm_model.specs.Logs.Log.{IsRun};
ghost use Rattle.mm_model.specs.Step.{IsStep};
ghost use Rattle.mm_model.specs.Logs.Course.{IsGone};
ghost use Rattle.mm_model.specs.WeakReferences.{IsMadeFor};

/// A `weak` that replies a new base has made a weak reference for the object that the cell means. It has the next birth
/// number, and lives at this base.
pub fn weak_references_are_made_for_a_target()
    ensures made { (a : State) (i target : ℕ) (group before : List Line) (base : ℕ) (b : State)
        → IsStep a (commands.Weak i) group b → group ≡ before ++ lines.Reply (replies.New base) ∷ []
        → meant_at a i ≡ Some target → IsMadeFor b (length a.objects) target }
    ensures lives { (a : State) (i target : ℕ) (group before : List Line) (base : ℕ) (b : State) → IsGood a
        → IsStep a (commands.Weak i) group b
        → group ≡ before ++ lines.Reply (replies.New base) ∷ [] → meant_at a i ≡ Some target
        → (weak : Object) × Lives b (length a.objects) weak × (weak.base ≡ base) }
{}

/// Every step leaves it that of its target: it is emptied where the target is freed, and nowhere else.
pub fn weak_references_follow_their_targets()
    ensures { (a : State) (command : Command) (group : List Line) (b : State) (weak target : ℕ)
        → IsStep a command group b → IsMadeFor a weak target → IsMadeFor b weak target }
{}

/// So does every legal run.
pub fn runs_leave_weak_references_their_targets()
    ensures { (a : State) (steps : List Command) (log : List Line) (b : State) (weak target : ℕ)
        → IsRun IsStep a steps log b → IsMadeFor a weak target → IsMadeFor b weak target }
{}

/// `look` through a weak reference replies 0 if its target was freed, and only then. Else the target lives, and the
/// reply is its base.
pub fn look_is_empty_exactly_once_the_target_is_gone()
    ensures empty { (a : State) (weak target : ℕ) (object : Object) → IsGood a → IsMadeFor a weak target
        → Lives a weak object → IsGone a target → (look_effect a object.partner).reply ≡ replies.Word 0 }
    ensures gone { (a : State) (weak target : ℕ) (object : Object) → IsGood a → IsMadeFor a weak target
        → Lives a weak object → (look_effect a object.partner).reply ≡ replies.Word 0 → IsGone a target }
    ensures based { (a : State) (weak target : ℕ) (object : Object) → IsGood a → IsMadeFor a weak target
        → Lives a weak object → (t : Object) → Lives a target t
        → ((look_effect a object.partner).reply ≡ replies.Word t.base) × (t.base ≢ 0) }
    ensures either { (a : State) (weak target : ℕ) (object : Object) → IsGood a → IsMadeFor a weak target
        → Lives a weak object → IsGone a target ⊎ ((t : Object) × Lives a target t) }
{}

/// So the lines of `look` tell whether the target was freed, whatever the command reaps at its end.
pub fn looks_tell_whether_the_target_is_gone()
    ensures { (a : State) (i weak target : ℕ) (object : Object) (group : List Line) (b : State) → IsGood a
        → IsMadeFor a weak target → Lives a weak object → meant_at a i ≡ Some weak → is_stack_full a ≡ false
        → IsStep a (commands.Look i) group b → (reaped : List Line) × (word : ℕ)
        × (group ≡ reaped ++ lines.Reply (replies.Word word) ∷ []) × ((word ≡ 0) ↔ IsGone a target) }
{}
