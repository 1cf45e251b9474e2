// What is added to the commands of a trace where cycles are paced.
ghost use Rattle.std.specs.Prelude.{◌≡◌, ℕ, ◌+◌, ◌∷◌, ◌++◌, [], ◌==◌, if◌then◌else◌, not, IsTrue, List, Some, ◌≤◌, ◌*◌};
ghost use Rattle.std.specs.Prelude.{◌&&◌, false, nat_le, nat_lt, is_some};
ghost use Rattle.std.specs.List.{sum_by};
ghost use Rattle.mm_gc.specs.Gc.{totals_in, view_of_gc};
ghost use Rattle.mm_model.specs.declared.command.Command.TheVariants as commands;
ghost use Rattle.mm_model.specs.declared.object.Shape.{Shape};
ghost use Rattle.mm_model.specs.declared.reply.Reply.TheVariants as replies;
ghost use Rattle.mm_model.specs.declared.settings.Settings.{Settings};
ghost use Rattle.mm_model.specs.Good.{IsGood};
ghost use Rattle.mm_model.specs.Logs.Turns.{Turn, births_if};
ghost use Rattle.mm_model.specs.State.{State};
ghost use Rattle.mm_model.specs.Views.View.{Shows};
ghost use Rattle.mm_pace.specs.Recent.{extent_born};
ghost use Rattle.mm_pace.specs.Rules.{due_begin, due_finish, due_step, rules_at};
ghost use Rattle.mm_pace.specs.Work.{is_running, work_of};
ghost use Rattle.mm_sited.specs.Extents.{IsExtent};
ghost use Rattle.mmgc.specs.Booking.{AreBooked};
ghost use Rattle.mmgc.specs.Counting.{IsNoted, bytes_of, changes};
ghost use Rattle.mmgc.specs.Logging.{left_of, KeepsOn};
ghost use Rattle.mmgc.specs.Pacing.{Applies, AppliesAll, CanDrive, Drives, IsDriven, Paces, team_of};

use crate::execute::execute_booked;
use crate::log::LogWriter;
use crate::site_book::SiteBook;
use crate::work::work_of;
use mm_gc::Gc;
use mm_io::Sink;
use mm_model::{Command, Reply};
use mm_pace::{
    Pace, begin_begins_a_cycle, bytes_and_work_are_counted_on, the_last_turn_tells_of_the_state,
};
use mm_sited::object_extent;

/// The bytes that were born in a command, by its reply.
fn bytes_born(command: &Command, reply: Reply) -> u32
    requires { (shape : Shape) (base : ℕ) → command.now ≡ commands.New shape → reply ≡ replies.New base
        → shape.slots ≤ 1048575 }
    ensures bytes { (a : State) → result ≡ sum_by extent_born (births_if a command.now (Some reply)) }
    ensures extent { (result ≡ 0 → ⊥) → IsExtent result }
{
    match (command, reply) {
        (Command::New(shape), Reply::New(_)) => object_extent(shape.slots),
        (Command::Weak(_), Reply::New(_)) => object_extent(0),
        _ => 0,
    }
}

/// The work of a cycle that the command begins.
fn work_to_begin(heap: &Gc, command: &Command) -> u32
    ensures { (a : State) → IsGood a → Shows (view_of_gc heap.now) a → command.now ≡ commands.Begin
        → is_running a ≡ false → result ≡ work_of a }
{
    match command {
        Command::Begin if !heap.running() => work_of(heap),
        _ => 0,
    }
}

/// Counts a cycle that began or ended, by whether one ran before and whether one runs now.
fn note_cycle(pace: &mut Pace, ran: bool, runs: bool, work: u32)
    ensures rate { pace.new.rate ≡ pace.old.rate }
    ensures since { pace.new.since ≡ (if changes ran runs then 0 else pace.old.since) }
    ensures work { IsTrue runs → pace.new.work ≡ (if ran then pace.old.work else work) }
    ensures last { IsTrue runs → pace.new.last ≡ (if ran then pace.old.last else 0) }
{
    match (ran, runs) {
        (false, true) => pace.begin(work),
        (true, false) => pace.end(),
        _ => {}
    }
}

/// Counts the bytes that were born, if any were.
fn note_birth(pace: &mut Pace, bytes: u32)
    requires extent { (bytes ≡ 0 → ⊥) → IsExtent bytes }
    requires room { pace.old.since ≤ 9223372036854775807 }
    ensures rate { pace.new.rate ≡ pace.old.rate }
    ensures since { pace.new.since ≡ pace.old.since + bytes }
    ensures work { pace.new.work ≡ pace.old.work }
    ensures last { pace.new.last ≡ (if bytes == 0 then pace.old.last else bytes) }
{
    if bytes != 0 {
        pace.born(bytes);
    }
}

/// Counts what a command did. Where a search ended the cycle, its end comes before the birth.
fn note(pace: &mut Pace, ran: bool, runs: bool, work: u32, bytes: u32)
    requires extent { (bytes ≡ 0 → ⊥) → IsExtent bytes }
    requires room { pace.old.since ≤ 9223372036854775807 }
    ensures { IsNoted ran runs work bytes pace.old pace.new }
{
    note_cycle(pace, ran, runs, work);
    note_birth(pace, bytes);
}

/// Carries out a command and counts what it did.
fn carry_out<K: Sink>(
    pace: &mut Pace,
    heap: &mut Gc,
    book: &mut Option<SiteBook>,
    log: &mut LogWriter<'_, K>,
    command: &Command,
)
    requires ready { CanDrive 1 (team_of pace.old heap.old book.old) }
    ensures driven { (settings : Settings) (turns : List Turn) → IsDriven settings turns 0 pace.old heap.old
        → Drives settings turns command.now (left_of K.taken (team_of pace.new heap.new book.new) book.old log.old log.new) }
    ensures rate { pace.new.rate ≡ pace.old.rate }
    ensures book { is_some book.new ≡ is_some book.old }
    ensures kept { KeepsOn K.faults K.taken log.old log.new }
{
    begin_begins_a_cycle();
    bytes_and_work_are_counted_on();
    let ran = heap.running();
    let work = work_to_begin(heap, command);
    let reply = execute_booked(heap, log, book, command);
    note(pace, ran, heap.running(), work, bytes_born(command, reply));
}

/// Whether a cycle runs whose end is due.
fn is_end_due(pace: &Pace, heap: &Gc) -> bool
    ensures { result ≡ (heap.now.marker.running
        && nat_le (16 * pace.now.work) (pace.now.rate * pace.now.since)) }
{
    heap.running() && pace.must_finish()
}

/// Whether no cycle runs, and one is due.
fn is_begin_due(pace: &Pace, heap: &Gc) -> bool
    ensures { result ≡ (not heap.now.marker.running && nat_le 65536 pace.now.since
        && nat_lt 0 (totals_in heap.now).live) }
{
    !heap.running() && pace.must_begin() && 0 < heap.totals().live
}

/// A step of the cycle for what was born in the last command, where one runs.
fn step_for_birth<K: Sink>(
    pace: &mut Pace,
    heap: &mut Gc,
    book: &mut Option<SiteBook>,
    log: &mut LogWriter<'_, K>,
)
    requires ready { CanDrive 1 (team_of pace.old heap.old book.old) }
    ensures applied { (settings : Settings) (turns : List Turn) (turn : Turn)
        → IsDriven settings (turns ++ turn ∷ []) (bytes_of turn) pace.old heap.old
        → Applies (due_step pace.old.rate) settings (turns ++ turn ∷ [])
        (left_of K.taken (team_of pace.new heap.new book.new) book.old log.old log.new) }
    ensures rate { pace.new.rate ≡ pace.old.rate }
    ensures book { is_some book.new ≡ is_some book.old }
    ensures kept { KeepsOn K.faults K.taken log.old log.new }
{
    if !heap.running() {
        return;
    }
    match pace.step_size() {
        Some(k) => carry_out(pace, heap, book, log, &Command::Step(k)),
        None => {}
    }
}

/// The end of the cycle, where enough was born since it began.
fn finish_in_time<K: Sink>(
    pace: &mut Pace,
    heap: &mut Gc,
    book: &mut Option<SiteBook>,
    log: &mut LogWriter<'_, K>,
)
    requires ready { CanDrive 1 (team_of pace.old heap.old book.old) }
    ensures applied { (settings : Settings) (turns : List Turn) → IsDriven settings turns 0 pace.old heap.old
        → Applies (due_finish pace.old.rate) settings turns (left_of K.taken (team_of pace.new heap.new book.new) book.old log.old log.new) }
    ensures rate { pace.new.rate ≡ pace.old.rate }
    ensures book { is_some book.new ≡ is_some book.old }
    ensures kept { KeepsOn K.faults K.taken log.old log.new }
{
    the_last_turn_tells_of_the_state();
    if is_end_due(pace, heap) {
        carry_out(pace, heap, book, log, &Command::Finish);
    }
}

/// A new cycle, where none runs, enough was born and there is work.
fn begin_in_time<K: Sink>(
    pace: &mut Pace,
    heap: &mut Gc,
    book: &mut Option<SiteBook>,
    log: &mut LogWriter<'_, K>,
)
    requires ready { CanDrive 1 (team_of pace.old heap.old book.old) }
    ensures applied { (settings : Settings) (turns : List Turn) → IsDriven settings turns 0 pace.old heap.old
        → Applies due_begin settings turns (left_of K.taken (team_of pace.new heap.new book.new) book.old log.old log.new) }
    ensures rate { pace.new.rate ≡ pace.old.rate }
    ensures book { is_some book.new ≡ is_some book.old }
    ensures kept { KeepsOn K.faults K.taken log.old log.new }
{
    the_last_turn_tells_of_the_state();
    if is_begin_due(pace, heap) {
        carry_out(pace, heap, book, log, &Command::Begin);
    }
}

/// Applies the rules to the last command, once each in order.
fn apply_rules<K: Sink>(
    pace: &mut Pace,
    heap: &mut Gc,
    book: &mut Option<SiteBook>,
    log: &mut LogWriter<'_, K>,
)
    requires ready { CanDrive 3 (team_of pace.old heap.old book.old) }
    requires last { (settings : Settings) × (turns : List Turn) × (turn : Turn) × (sites : List ℕ) × (site : ℕ)
        × IsDriven settings (turns ++ turn ∷ []) (bytes_of turn) pace.old heap.old
        × AreBooked settings (turns ++ turn ∷ []) sites site book.old }
    ensures applied { (settings : Settings) (turns : List Turn) (turn : Turn)
        → IsDriven settings (turns ++ turn ∷ []) (bytes_of turn) pace.old heap.old
        → AppliesAll (rules_at pace.old.rate) settings (turns ++ turn ∷ [])
        (left_of K.taken (team_of pace.new heap.new book.new) book.old log.old log.new) }
    ensures rate { pace.new.rate ≡ pace.old.rate }
    ensures book { is_some book.new ≡ is_some book.old }
    ensures kept { KeepsOn K.faults K.taken log.old log.new }
{
    step_for_birth(pace, heap, book, log);
    finish_in_time(pace, heap, book, log);
    begin_in_time(pace, heap, book, log);
}

/// Carries out a command of the trace, and what the rules add after it.
#[inline(never)]
pub(crate) fn pace_command<K: Sink>(
    pace: &mut Pace,
    heap: &mut Gc,
    book: &mut Option<SiteBook>,
    log: &mut LogWriter<'_, K>,
    command: &Command,
)
    requires ready { CanDrive 4 (team_of pace.old heap.old book.old) }
    requires paid { (settings : Settings) × (turns : List Turn) × (sites : List ℕ) × (site : ℕ)
        × IsDriven settings turns 0 pace.old heap.old × AreBooked settings turns sites site book.old }
    ensures paced { (settings : Settings) (turns : List Turn) → IsDriven settings turns 0 pace.old heap.old
        → Paces pace.old.rate settings turns command.now (left_of K.taken (team_of pace.new heap.new book.new) book.old log.old log.new) }
    ensures rate { pace.new.rate ≡ pace.old.rate }
    ensures book { is_some book.new ≡ is_some book.old }
    ensures kept { KeepsOn K.faults K.taken log.old log.new }
{
    carry_out(pace, heap, book, log, command);
    apply_rules(pace, heap, book, log);
}
