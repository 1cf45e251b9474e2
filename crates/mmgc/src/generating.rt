// A generated trace that is carried out. Of its log nothing is kept but the totals.
ghost use Rattle.std.specs.Prelude.{◌≡◌, ◌≢◌, ◌<◌, ◌≤◌, ◌-◌, ◌^◌, false, []};
ghost use Rattle.mm_gc.specs.Gc.{totals_in, view_of_gc};
ghost use Rattle.mm_model.specs.declared.line.Line.TheVariants as lines;
ghost use Rattle.mm_model.specs.declared.settings.Settings.{Settings};
ghost use Rattle.mm_model.specs.Logs.Spelling.{spelling};
ghost use Rattle.mmgc.specs.Generator.{commands_of, generated_command, most_generated, next_state};
ghost use Rattle.mmgc.specs.Generating.{CarriesOutQuietly, EndsWritten, Generated, HasCarriedOut};
ghost use Rattle.mmgc.specs.Replaying.{IsNew};

use crate::generator::{GeneratedTrace, generated};
use crate::log::LogWriter;
use crate::quiet::Quiet;
use crate::replay::{End, finish_log};
use mm_gc::Gc;
use mm_io::Sink;
use mm_model::{Command, Line};
use mm_steps::Steps;
use std::marker::Brand;
use std::sync::ledger::{Blank, Ledger};

/// Carries out a command with a counter of steps that nothing reads, and a journal that keeps nothing.
fn execute_quietly<L: Ledger>(heap: &mut Gc, command: &Command, blank: Blank)
    requires name { blank.name ≡ L.name }
    requires parts { blank.parts ≡ L.parts }
    requires shared { 0 < L.parts }
    requires commands { (view_of_gc heap.old).totals.commands < 2 ^ 64 - 1 }
    requires births { (view_of_gc heap.old).totals.born < 2 ^ 64 - 1 }
    ensures { CarriesOutQuietly heap.old heap.new command.now }
{
    let mut steps = Steps::<L>::open(blank);
    let mut journal = Quiet::make();
    let _ = heap.execute(command, &mut journal, &mut steps);
}

/// Carries out the command of this number, and gives the generator's next state.
fn execute_generated(heap: &mut Gc, seed: u32, number: u32, state: u32) -> u32
    requires number { 1 ≤ number }
    requires commands { (view_of_gc heap.old).totals.commands < 2 ^ 64 - 1 }
    requires births { (view_of_gc heap.old).totals.born < 2 ^ 64 - 1 }
    ensures next { result ≡ next_state seed number state }
    ensures carried { CarriesOutQuietly heap.old heap.new (generated_command seed number state) }
{
    let (command, next) = generated(seed, number, state);
    execute_quietly::<Brand>(heap, &command, Blank::new(1));
    next
}

/// Carries out all commands of a trace.
fn execute_all(heap: &mut Gc, trace: GeneratedTrace)
    requires heap { (settings : Settings) × IsNew settings heap.old }
    requires count { trace.count ≤ most_generated }
    ensures { (settings : Settings) → IsNew settings heap.old →
        HasCarriedOut settings (commands_of trace) heap.new }
{
    let mut state = 0;
    for done in 0..trace.count {
        state = execute_generated(heap, trace.seed, done + 1, state);
    }
}

/// Writes the total line alone, with a writer that wrote nothing yet.
fn write_total<K: Sink>(heap: &Gc, log: &mut LogWriter<'_, K>) -> End
    requires whole { log.old.broken ≡ false }
    requires pending { log.old.pending.items ≡ [] }
    ensures ends { EndsWritten result
        (record {
          taken = K.taken log.old.sink.now;
          taken_after = K.taken log.new.sink.now;
          passed_after = K.passed log.new.sink.now;
          faults = K.faults log.old.sink.now;
          faults_after = K.faults log.new.sink.now;
        }) (spelling (lines.Total (totals_in heap.now))) }
    ensures sink { K.faults log.old.sink.now ≤ K.faults log.new.sink.now }
    ensures same_sink { log.new.sink.ghost_name ≡ log.old.sink.ghost_name }
{
    log.line(&Line::Total(heap.totals()));
    finish_log(log, End::Whole)
}

/// Carries out a generated trace, and writes its total line with a writer that wrote nothing yet.
fn generate_log<K: Sink>(heap: &mut Gc, trace: GeneratedTrace, log: &mut LogWriter<'_, K>) -> End
    requires heap { (settings : Settings) × IsNew settings heap.old }
    requires count { trace.count ≤ most_generated }
    requires whole { log.old.broken ≡ false }
    requires pending { log.old.pending.items ≡ [] }
    ensures generated { (settings : Settings) → IsNew settings heap.old → Generated result settings trace
        (record {
          taken = K.taken log.old.sink.now;
          taken_after = K.taken log.new.sink.now;
          passed_after = K.passed log.new.sink.now;
          faults = K.faults log.old.sink.now;
          faults_after = K.faults log.new.sink.now;
        }) heap.new }
    ensures sink { K.faults log.old.sink.now ≤ K.faults log.new.sink.now }
    ensures same_sink { log.new.sink.ghost_name ≡ log.old.sink.ghost_name }
{
    execute_all(heap, trace);
    write_total(heap, log)
}

/// Carries out a generated trace on a heap that nothing was done with yet, and writes its total line.
pub(crate) fn carry_out_generated<K: Sink>(heap: &mut Gc, trace: GeneratedTrace, out: &mut K) -> End
    requires heap { (settings : Settings) × IsNew settings heap.old }
    requires count { trace.count ≤ most_generated }
    ensures generated { (settings : Settings) → IsNew settings heap.old → Generated result settings trace
        (record {
          taken = K.taken out.old;
          taken_after = K.taken out.new;
          passed_after = K.passed out.new;
          faults = K.faults out.old;
          faults_after = K.faults out.new;
        }) heap.new }
    ensures out { K.faults out.old ≤ K.faults out.new }
{
    let mut log = LogWriter::make(out);
    generate_log(heap, trace, &mut log)
}
