// Laws of whole logs: what a legal log promises.
ghost use Rattle.std.specs.Prelude.{◌≡◌, ◌≤◌, ◌↔◌, ◌∷◌, ◌++◌, [], List, Some};
ghost use Rattle.std.specs.List.{All};
ghost use Rattle.mm_model.specs.declared.command.Command.{Command};
ghost use Rattle.mm_model.specs.declared.line.Line.{Line};
ghost use Rattle.mm_model.specs.declared.refusal.Refusal.TheVariants as refusals;
ghost use Rattle.mm_model.specs.declared.reply.Reply.TheVariants as replies;
ghost use Rattle.mm_model.specs.declared.settings.Settings.{Settings};
ghost use Rattle.mm_model.specs.State.{State, empty_state};
ghost use Rattle.mm_model.specs.Step.{IsStep};
ghost use Rattle.mm_model.specs.Logs.Log.{IsRun, IsLegal};
ghost use Rattle.mm_laws.specs.Logs.{IsCutBehind};
ghost use Rattle.mm_model.specs.Logs.Turns.{Turn, AreTurns, AreSteps, reply_in};
ghost use Rattle.mm_model.specs.Good.{IsGood};
ghost use Rattle.mm_model.specs.Logs.Spelling.{spelling_of};
ghost use Rattle.mm_laws.specs.Lines.{IsSpelledInFull};
ghost use Rattle.mm_model.specs.Logs.Faithful.{IsLawful, IsFaithfulTurn, IsFaithful};

/// A legal log keeps all that is promised of logs, where the least number of pages isn't above the greatest.
pub fn legal_logs_are_faithful()
    ensures { (settings : Settings) (commands : List Command) (log : List Line) (b : State) →
        settings.pages ≤ settings.max → IsLegal IsStep settings commands log b → IsFaithful settings commands log }
{}

/// Settings, commands and log determine the turns, and so all that is said of them.
pub fn a_log_has_one_list_of_turns()
    ensures { (settings : Settings) (commands : List Command) (log : List Line) (turns others : List Turn) →
        AreTurns settings commands log turns → AreTurns settings commands log others → turns ≡ others }
{}

/// Each step after turns that are steps from the empty state keeps it too, and is one more of them.
pub fn steps_are_faithful()
    ensures faithful { (settings : Settings) (turns : List Turn) (turn : Turn) → settings.pages ≤ settings.max
        → AreSteps (empty_state settings) turns turn.before
        → IsStep turn.before turn.command turn.group turn.after → IsFaithfulTurn settings turns turn }
    ensures one_more { (start : State) (turns : List Turn) (turn : Turn) → AreSteps start turns turn.before
        → IsStep turn.before turn.command turn.group turn.after
        → AreSteps start (turns ++ turn ∷ []) turn.after }
{}

/// What is promised of one step by itself each step keeps that begins in a good state.
pub fn steps_are_lawful()
    ensures { (a : State) (command : Command) (group : List Line) (b : State) → IsGood a → IsStep a command group b
        → IsLawful (record { before = a; command = command; group = group; after = b }) }
{}

/// A legal log can be cut behind any of its commands: the lines before are legal, and those behind go on from the state
/// that they leave. Two such parts are a legal log.
pub fn legal_logs_can_be_cut()
    ensures { (a : State) (first others : List Command) (log : List Line) (b : State) →
        IsRun IsStep a (first ++ others) log b ↔ IsCutBehind a first others log b }
{}

/// A command that answers `nothing` in one state isn't refused as `nothing` in another.
pub fn no_command_is_both_answered_and_refused_nothing()
    ensures { (a b c d : State) (command : Command) (group other : List Line) → IsGood a → IsStep a command group b
        → IsStep c command other d → reply_in group ≡ Some replies.Nothing
        → reply_in other ≡ Some (replies.Refused refusals.Nothing) → ⊥ }
{}

/// So the commands and the bytes of a legal log determine its lines, and with them each state.
pub fn commands_and_bytes_determine_a_log()
    ensures { (settings : Settings) (commands : List Command) (log other : List Line) (b c : State) →
        settings.pages ≤ settings.max → IsLegal IsStep settings commands log b
        → IsLegal IsStep settings commands other c → All IsSpelledInFull log → All IsSpelledInFull other
        → spelling_of log ≡ spelling_of other → log ≡ other }
{}
