// Laws on incremental cycles.
ghost use Rattle.std.specs.Prelude.{◌≡◌, ◌↔◌, ◌⊎◌, ℕ, List, None, is_some, IsTrue};
ghost use Rattle.mm_model.specs.declared.command.Command.{Command};
ghost use Rattle.mm_model.specs.declared.command.Command.TheVariants as commands;
ghost use Rattle.mm_model.specs.declared.line.Line.{Line};
ghost use Rattle.mm_model.specs.Object.{Object};
ghost use Rattle.mm_model.specs.State.{State, Lives};
ghost use Rattle.mm_model.specs.Sets.Reached.{IsReached};
ghost use Rattle.mm_model.specs.Sets.Marking.{IsFreedAtFinish, IsMarked};
ghost use Rattle.mm_model.specs.Logs.Throughout.{IsThroughout};
ghost use Rattle.mm_model.specs.Logs.Course.{IsCourse, IsGone, latest};
ghost use Rattle.mm_model.specs.Good.{IsGood};
ghost use Rattle.mm_model.specs.Step.{IsStep};

/// After `begin` marking reaches nothing that isn't reached.
pub fn begin_marks_only_what_is_reached()
    ensures { (a : State) (group : List Line) (b : State) → IsStep a commands.Begin group b → a.cycle ≡ None
        → (birth : ℕ) → IsMarked b birth → IsReached b birth }
{}

/// While a cycle runs, what marking comes to reach is reached.
pub fn marking_gains_only_what_is_reached()
    ensures { (a : State) (command : Command) (group : List Line) (b : State) → IsGood a
        → IsStep a command group b → IsTrue (is_some a.cycle) → IsTrue (is_some b.cycle) → (birth : ℕ)
        → IsMarked b birth → (object : Object) → Lives a birth object → IsMarked a birth ⊎ IsReached b birth }
{}

/// `finish` frees exactly the live objects that are neither reached nor reached by marking.
pub fn finish_frees_what_neither_reaches()
    ensures { (a : State) (birth : ℕ) (object : Object) → IsGood a → IsTrue (is_some a.cycle)
        → Lives a birth object
        → IsFreedAtFinish a birth ↔ ((IsMarked a birth → ⊥) × (IsReached a birth → ⊥)) }
{}

/// An incremental cycle leaves nothing that was unreachable throughout it.
pub fn finish_frees_what_was_unreachable_throughout()
    ensures { (begun : State) (states : List State) → IsCourse begun states → (group : List Line) (b : State)
        → IsStep (latest begun states) commands.Finish group b → (birth : ℕ) → IsThroughout begun states birth
        → IsGone b birth }
{}
