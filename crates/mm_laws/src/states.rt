// Laws on good states: what a trace reaches is good, whatever the program chooses.
ghost use Rattle.std.specs.Prelude.{◌≤◌, List};
ghost use Rattle.mm_model.specs.declared.command.Command.{Command};
ghost use Rattle.mm_model.specs.declared.line.Line.{Line};
ghost use Rattle.mm_model.specs.declared.settings.Settings.{Settings};
ghost use Rattle.mm_model.specs.State.{State, empty_state};
ghost use Rattle.mm_model.specs.Good.{IsGood};
ghost use Rattle.mm_model.specs.Logs.Log.{IsLegal};
ghost use Rattle.mm_model.specs.Step.{IsStep};

/// The empty state is good, where the least number of pages isn't above the greatest.
pub fn empty_is_good()
    ensures { (settings : Settings) → settings.pages ≤ settings.max → IsGood (empty_state settings) }
{}

/// Every step of a good state leads to a good one.
pub fn steps_keep_states_good()
    ensures { (a : State) (command : Command) (group : List Line) (b : State) → IsGood a
        → IsStep a command group b → IsGood b }
{}

/// So blocks never overlap, references mean live objects and counts are right after every legal log.
pub fn legal_logs_lead_to_good_states()
    ensures { (settings : Settings) (commands : List Command) (log : List Line) (b : State) →
        settings.pages ≤ settings.max → IsLegal IsStep settings commands log b → IsGood b }
{}
