// Laws on views: what is said of a heap in words alone is so of every good state that the heap shows.
ghost use Rattle.std.specs.Prelude.{◌≡◌, ℕ, List};
ghost use Rattle.mm_model.specs.declared.command.Command.{Command};
ghost use Rattle.mm_model.specs.declared.line.Line.{Line};
ghost use Rattle.mm_model.specs.State.{State};
ghost use Rattle.mm_model.specs.Effect.{Effect};
ghost use Rattle.mm_model.specs.Step.{IsRow, IsStep};
ghost use Rattle.mm_model.specs.After.{after};
ghost use Rattle.mm_model.specs.Good.{IsGood};
ghost use Rattle.mm_model.specs.Views.View.{View, Shows};
ghost use Rattle.mm_model.specs.Views.ViewEffect.{ViewEffect};
ghost use Rattle.mm_model.specs.Views.ViewStep.{IsViewRow, IsViewStep};
ghost use Rattle.mm_model.specs.Views.GoodView.{IsGoodView};

/// A step of a view is a step of every good state that it shows, with one group of lines for all of them. The state
/// after it is good, and the view that is left shows it.
pub fn steps_of_views_are_steps()
    ensures step { (view : View) (a : State) (command : Command) (group : List Line) (left : View) → IsGood a
        → Shows view a → IsViewStep view command group left → IsStep a command group (after a command group) }
    ensures good { (view : View) (a : State) (command : Command) (group : List Line) (left : View) → IsGood a
        → Shows view a → IsViewStep view command group left → IsGood (after a command group) }
    ensures shows { (view : View) (a : State) (command : Command) (group : List Line) (left : View) → IsGood a
        → Shows view a → IsViewStep view command group left → Shows left (after a command group) }
{}

/// The same of a command's row, without the reap at its end and without its count, as a call for one command has it.
pub fn rows_of_views_are_rows()
    ensures { (view : View) (a : State) (command : Command) (log : List Line) (left : ViewEffect) → IsGood a
        → Shows view a → IsViewRow view command log left
        → (effect : Effect) × IsRow a command log effect × (left.reply ≡ effect.reply)
        × Shows left.view effect.state }
{}

/// What a heap shows of a good state has the parts of a good state that words can tell.
pub fn good_states_have_good_views()
    ensures { (view : View) (a : State) → IsGood a → Shows view a → IsGoodView view }
{}
