// Laws of paced lists: what follows from the rules, and that there is a paced list for each trace.
ghost use Rattle.std.specs.Prelude.{◌≡◌, ℕ, ◌+◌, ◌*◌, ◌≤◌, ◌<◌, ◌++◌, ◌∷◌, [], List, IsTrue, length, if◌then◌else◌};
ghost use Rattle.std.specs.List.{sum_by};
ghost use Rattle.std.specs.Prelude.{true, false, Some};
ghost use Rattle.mm_model.specs.declared.command.Command.{Command};
ghost use Rattle.mm_model.specs.declared.command.Command.TheVariants as commands;
ghost use Rattle.mm_model.specs.declared.line.Line.{Line};
ghost use Rattle.mm_model.specs.declared.reply.Reply.TheVariants as replies;
ghost use Rattle.mm_model.specs.declared.settings.Settings.{Settings};
ghost use Rattle.mm_model.specs.State.{State, empty_state};
ghost use Rattle.mm_model.specs.Logs.Turns.{Turn, AreSteps, births_of, births_in, begins, reply_in};
ghost use Rattle.mm_model.specs.Step.{IsStep};
ghost use Rattle.mm_pace.specs.Work.{work_of, is_running};
ghost use Rattle.mm_pace.specs.Recent.{extent_born, changes_cycle, since, work_begun};
ghost use Rattle.mm_pace.specs.Rules.{rules_at, runs_after, work_after};
ghost use Rattle.mm_pace.specs.Paced.{AreAdded, IsPaced, IsPacedList, EachOwn, GoesOn};

/// Settings, rate, trace and log determine the paced list, its turns, and which of them are the trace's own.
pub fn a_paced_list_is_determined()
    ensures commands { (rate : ℕ) (settings : Settings) (trace : List Command) (log : List Line)
        (commands others : List Command) → IsPacedList rate settings trace log commands
        → IsPacedList rate settings trace log others → commands ≡ others }
    ensures turns { (rate : ℕ) (settings : Settings) (trace : List Command) (log : List Line)
        (commands others : List Command) (list : IsPacedList rate settings trace log commands)
        (other : IsPacedList rate settings trace log others) → list.turns ≡ other.turns }
    ensures own { (rate : ℕ) (settings : Settings) (trace : List Command) (log : List Line)
        (commands others : List Command) (list : IsPacedList rate settings trace log commands)
        (other : IsPacedList rate settings trace log others) → list.own ≡ other.own }
{}

/// No command of the trace begins in a cycle in which the bytes allocated since it began, times the rate, have reached
/// 16 times the work that it had as it began.
pub fn cycles_end_in_time()
    ensures { (rate : ℕ) (settings : Settings) (trace : List Command) (turns own : List Turn) (b : State)
        (paced : IsPaced rate trace turns own) → AreSteps (empty_state settings) turns b
        → EachOwn paced.stretches (λ earlier turn. IsTrue (is_running turn.before)
        → rate * since earlier < 16 * work_begun earlier) }
{}

/// At most three commands are added for each of the trace.
pub fn a_trace_is_at_most_quadrupled()
    ensures { (rate : ℕ) (settings : Settings) (trace : List Command) (log : List Line) (commands : List Command)
        → IsPacedList rate settings trace log commands → length commands ≤ 4 * length trace }
{}

/// The bytes since a cycle began or ended, and the work of the cycle that began last, are counted on turn by turn.
pub fn bytes_and_work_are_counted_on()
    ensures since { (turns : List Turn) (turn : Turn) → since (turns ++ turn ∷ [])
        ≡ (if changes_cycle turn then 0 else since turns) + sum_by extent_born (births_of turn) }
    ensures work { (turns : List Turn) (turn : Turn) → work_begun (turns ++ turn ∷ [])
        ≡ (if begins turn then work_of turn.before else work_begun turns) }
{}

/// What the rules ask of the last turn is so in the state that the turns leave.
pub fn the_last_turn_tells_of_the_state()
    ensures runs { (settings : Settings) (turns : List Turn) (b : State) → AreSteps (empty_state settings) turns b
        → runs_after turns ≡ is_running b }
    ensures work { (settings : Settings) (turns : List Turn) (b : State) → AreSteps (empty_state settings) turns b
        → work_after turns ≡ work_of b }
{}

/// Where no cycle runs, `begin` begins one.
pub fn begin_begins_a_cycle()
    ensures runs { (a : State) (group : List Line) (b : State) → is_running a ≡ false → IsStep a commands.Begin group b
        → is_running b ≡ true }
    ensures reply { (a : State) (group : List Line) (b : State) → is_running a ≡ false
        → IsStep a commands.Begin group b → reply_in group ≡ Some replies.Done }
{}

/// A paced list goes on with one more command of the trace and what the rules add after it. Turns that are steps can be
/// carried on so, whatever commands the trace has behind. So each trace has a paced list.
pub fn paced_lists_can_be_carried_on()
    ensures one_more { (rate : ℕ) (trace : List Command) (turns own : List Turn) (turn : Turn) (added : List Turn)
        → IsPaced rate trace turns own → AreAdded (rules_at rate) (turns ++ turn ∷ []) added
        → IsPaced rate (trace ++ turn.command ∷ []) (turns ++ turn ∷ added) (own ++ turn ∷ []) }
    ensures more { (rate : ℕ) (settings : Settings) (trace more : List Command) (turns own : List Turn) (a : State)
        → settings.pages ≤ settings.max → IsPaced rate trace turns own → AreSteps (empty_state settings) turns a
        → GoesOn rate settings (trace ++ more) turns }
{}

/// The commands that the rules add bear nothing: what is born, is born by the trace's own commands, in their order.
pub fn added_commands_bear_nothing()
    ensures { (rate : ℕ) (trace : List Command) (turns own : List Turn)
        → IsPaced rate trace turns own → births_in turns ≡ births_in own }
{}
