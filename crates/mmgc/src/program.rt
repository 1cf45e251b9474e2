// The program, over whatever its bytes come from and go to.
ghost use Rattle.std.specs.Prelude.{◌≡◌, ◌≢◌, ◌≤◌, ◌++◌, ◌∷◌, List, ℕ, Option, None, Some, OnOk, OnErr, IfOk, IfSome};
ghost use Rattle.std.specs.Prelude.{IsSome};
ghost use Rattle.std.specs.Prelude.{codes};
ghost use Rattle.std.specs.Prelude.{map, option_map, string_bytes};
ghost use Rattle.mm_io.specs.Faults.{CountsChoice};
ghost use Rattle.mm_model.specs.Places.Limits.{IsWithinLimits};
ghost use Rattle.mmgc.specs.declared.extras.Extras.{Extras};
ghost use Rattle.mmgc.specs.Appending.{IsPrepared};
ghost use Rattle.mmgc.specs.Completing.{IsComplete};
ghost use Rattle.mm_io.specs.Told.{NamedFile};
ghost use Rattle.mmgc.specs.Generator.{most_generated};
ghost use Rattle.mmgc.specs.Logging.{driver_of};
ghost use Rattle.mmgc.specs.Program.{EndsUnwritten, IsInput, IsUnread, Ran, Serves, status_of};
ghost use Rattle.mmgc.specs.Requests.{IsAllowed, IsRate, asked_by};
ghost use Rattle.mmgc.specs.Run.{Input};
ghost use Rattle.mmgc.specs.Telling.{IsTold, Takes, end_text, line_text};

use crate::appendix::Appendix;
use crate::executor::Executor;
use crate::extras::Extras;
use crate::generating::carry_out_generated;
use crate::generator::GeneratedTrace;
use crate::replay::{End, carry_out};
use crate::site_book::make_book;
use crate::words::{Request, WordsFault, list_words, read_words};
use mm_gc::{Gc, Settings};
use mm_io::{ChooseFault, Failed, Sink, Source, write_all};
use mm_model::LineFault;
use mm_pace::cycles_end_in_time;
use mm_trace::fault_text;
use std::alloc::{AllocError, Global};

/// What a run leaves: its exit status, and the heap where one was made.
pub struct Outcome {
    /// 0: the whole input was carried out. 1: a line is outside the grammar. 2: bad arguments. 3: a read failed.
    /// 4: a write failed. 5: no memory. 6: the trace has too many bytes.
    pub status: u8,
    pub heap: Option<Gc>,
}

impl End {
    fn status(self) -> u8
        ensures { result ≡ status_of self }
    {
        match self {
            End::Whole => 0,
            End::Fault { .. } => 1,
            End::ReadFailed => 3,
            End::WriteFailed => 4,
            End::TooLong => 6,
        }
    }
}

fn write_part<E: Sink>(err: &mut E, part: &[u8]) -> Result<(), Failed>
    ensures { Takes (E.taken err.old) (E.taken err.new) (E.faults err.old) (E.faults err.new) result part.now }
{
    write_all(err, part)
}

fn write_both<E: Sink>(err: &mut E, first: &[u8], next: &[u8]) -> Result<(), Failed>
    ensures { Takes (E.taken err.old) (E.taken err.new) (E.faults err.old) (E.faults err.new) result
        (first.now ++ next.now) }
{
    write_part(err, first)?;
    write_part(err, next)
}

fn write_fault<E: Sink>(err: &mut E, line: u32, fault: LineFault) -> Result<(), Failed>
    ensures { Takes (E.taken err.old) (E.taken err.new) (E.faults err.old) (E.faults err.new) result
        (line_text line fault) }
{
    write_both(
        err,
        b"mmgc: line ",
        itoa::Buffer::new().format(line).as_bytes(),
    )?;
    write_both(err, b": ", fault_text(fault).as_bytes())?;
    write_part(err, b"\n")
}

fn write_end<E: Sink>(err: &mut E, end: End) -> Result<(), Failed>
    ensures { Takes (E.taken err.old) (E.taken err.new) (E.faults err.old) (E.faults err.new) result
        (end_text end) }
{
    match end {
        End::Whole => Ok(()),
        End::Fault { line, fault } => write_fault(err, line, fault),
        End::ReadFailed => write_part(err, b"mmgc: read failed\n"),
        End::WriteFailed => write_part(err, b"mmgc: write failed\n"),
        End::TooLong => write_part(err, b"mmgc: trace too long\n"),
    }
}

/// Says a text on `err`, where a fault doesn't matter.
fn tell<E: Sink>(err: &mut E, text: &[u8])
    ensures { IsTold (E.taken err.old) (E.taken err.new) (E.faults err.old) (E.faults err.new) text.now }
{
    let _ = write_part(err, text);
}

/// Says on `err` why a replay ended before its input did.
fn tell_end<E: Sink>(err: &mut E, end: End)
    ensures { IsTold (E.taken err.old) (E.taken err.new) (E.faults err.old) (E.faults err.new) (end_text end) }
{
    let _ = write_end(err, end);
}

fn no_memory<E: Sink>(err: &mut E) -> Outcome
    ensures status { result.status ≡ 5 }
    ensures heap { result.heap ≡ None }
    ensures said { IsTold (E.taken err.old) (E.taken err.new) (E.faults err.old) (E.faults err.new)
        (codes "mmgc: out of memory\n") }
{
    tell(err, b"mmgc: out of memory\n");
    Outcome {
        status: 5,
        heap: None,
    }
}

/// Turns to the file that is asked for, if one is.
fn open_input<S: Source>(source: &mut S, file: Option<&str>) -> Result<(), ChooseFault>
    ensures opened { OnOk result (IsInput (option_map (λ name. name.now) file.entry) (S.named source.old)
        (S.left source.old) (S.left source.new)) }
    ensures refused { OnErr result (S.left source.new ≡ S.left source.old) }
    ensures same_file { S.named source.new ≡ S.named source.old }
    ensures asked { OnErr result (IsSome file.entry) }
    ensures faults { CountsChoice (S.faults source.old) (S.faults source.new) result }
{
    match file {
        Some(name) => source.choose(name),
        None => Ok(()),
    }
}

/// A heap, what drives it, and what stands behind its log, with all the memory that they need.
fn prepare(
    alloc: Global,
    settings: Settings,
    extras: Extras,
) -> Result<(Gc, Executor, Appendix), AllocError>
    requires settings { IsWithinLimits settings }
    requires rate { IfSome extras.rate IsRate }
    ensures { IfOk result (λ made. IsPrepared settings extras (driver_of made.0 made.1) made.2) }
{
    let book = make_book(alloc, extras.sites, settings.max)?;
    let appendix = Appendix::make(alloc, extras.why, settings.max)?;
    let heap = Gc::make(alloc, settings)?;
    Ok((heap, Executor::make(extras.rate, book), appendix))
}

/// Replays the input of `source` on a new heap.
fn replay<S: Source, K: Sink, E: Sink>(
    alloc: Global,
    settings: Settings,
    extras: Extras,
    source: &mut S,
    out: &mut K,
    err: &mut E,
) -> Outcome
    requires settings { IsWithinLimits settings }
    requires rate { IfSome extras.rate IsRate }
    ensures served { Serves (record { settings = settings; file = None; generated = None; extras = extras })
        (record {
          named = S.named source.old;
          input = record {
            left = S.left source.old;
            left_after = S.left source.new;
            faults = S.faults source.old;
            faults_after = S.faults source.new;
          };
          output = record {
            taken = K.taken out.old;
            taken_after = K.taken out.new;
            passed_after = K.passed out.new;
            faults = K.faults out.old;
            faults_after = K.faults out.new;
          };
        })
        result (λ text. IsTold (E.taken err.old) (E.taken err.new) (E.faults err.old) (E.faults err.new) text) }
    ensures read { result.status ≢ 2 }
    ensures lacking { result.status ≡ 5 → out.new ≡ out.old }
    ensures source { S.faults source.old ≤ S.faults source.new }
    ensures out { K.faults out.old ≤ K.faults out.new }
    ensures err { E.faults err.old ≤ E.faults err.new }
{
    cycles_end_in_time();
    match prepare(alloc, settings, extras) {
        Err(_) => no_memory(err),
        Ok((mut heap, executor, mut appendix)) => {
            let end = carry_out(&mut heap, source, out, executor, &mut appendix);
            tell_end(err, end);
            Outcome {
                status: end.status(),
                heap: Some(heap),
            }
        }
    }
}

/// Flushes a sink of which nothing was asked, and says how a run ends whose source failed before it was read.
fn end_unwritten<K: Sink>(out: &mut K) -> End
    ensures ends { EndsUnwritten result
        (record {
          taken = K.taken out.old;
          taken_after = K.taken out.new;
          passed_after = K.passed out.new;
          faults = K.faults out.old;
          faults_after = K.faults out.new;
        }) }
    ensures out { K.faults out.old ≤ K.faults out.new }
{
    match out.flush() {
        Ok(()) => End::ReadFailed,
        Err(_) => End::WriteFailed,
    }
}

/// Opens the file that is asked for, and then replays it.
fn open_and_replay<S: Source, K: Sink, E: Sink>(
    alloc: Global,
    settings: Settings,
    file: Option<&str>,
    extras: Extras,
    source: &mut S,
    out: &mut K,
    err: &mut E,
) -> Outcome
    requires settings { IsWithinLimits settings }
    requires rate { IfSome extras.rate IsRate }
    ensures served { Serves
        (record {
          settings = settings;
          file = option_map (λ name. name.now) file.entry;
          generated = None;
          extras = extras;
        })
        (record {
          named = S.named source.old;
          input = record {
            left = S.left source.old;
            left_after = S.left source.new;
            faults = S.faults source.old;
            faults_after = S.faults source.new;
          };
          output = record {
            taken = K.taken out.old;
            taken_after = K.taken out.new;
            passed_after = K.passed out.new;
            faults = K.faults out.old;
            faults_after = K.faults out.new;
          };
        })
        result (λ text. IsTold (E.taken err.old) (E.taken err.new) (E.faults err.old) (E.faults err.new) text) }
    ensures read { result.status ≢ 2 }
    ensures lacking { result.status ≡ 5 → out.new ≡ out.old }
    ensures source { S.faults source.old ≤ S.faults source.new }
    ensures out { K.faults out.old ≤ K.faults out.new }
    ensures err { E.faults err.old ≤ E.faults err.new }
{
    match open_input(source, file) {
        Ok(()) => replay(alloc, settings, extras, source, out, err),
        Err(ChooseFault::NoMemory) => no_memory(err),
        Err(ChooseFault::Failed) => {
            let end = end_unwritten(out);
            tell_end(err, end);
            Outcome {
                status: end.status(),
                heap: None,
            }
        }
    }
}

/// Carries out a generated trace on a new heap. No source takes part in it.
fn generate<K: Sink, E: Sink>(
    alloc: Global,
    settings: Settings,
    trace: GeneratedTrace,
    out: &mut K,
    err: &mut E,
) -> Outcome
    requires settings { IsWithinLimits settings }
    requires count { trace.count ≤ most_generated }
    ensures served { (file : Option (List ℕ)) (extras : Extras) (named : Option NamedFile) (input : Input) →
        IsUnread input →
        Serves (record { settings = settings; file = file; generated = Some trace; extras = extras })
        (record {
          named = named;
          input = input;
          output = record {
            taken = K.taken out.old;
            taken_after = K.taken out.new;
            passed_after = K.passed out.new;
            faults = K.faults out.old;
            faults_after = K.faults out.new;
          };
        })
        result (λ text. IsTold (E.taken err.old) (E.taken err.new) (E.faults err.old) (E.faults err.new) text) }
    ensures read { result.status ≢ 2 }
    ensures lacking { result.status ≡ 5 → out.new ≡ out.old }
    ensures out { K.faults out.old ≤ K.faults out.new }
    ensures err { E.faults err.old ≤ E.faults err.new }
{
    match Gc::make(alloc, settings) {
        Err(_) => no_memory(err),
        Ok(mut heap) => {
            let end = carry_out_generated(&mut heap, trace, out);
            tell_end(err, end);
            Outcome {
                status: end.status(),
                heap: Some(heap),
            }
        }
    }
}

/// Carries out a generated trace where one is asked for, and else the input.
fn serve<S: Source, K: Sink, E: Sink>(
    alloc: Global,
    request: Request<'_>,
    source: &mut S,
    out: &mut K,
    err: &mut E,
) -> Outcome
    requires { IsAllowed request }
    ensures served { Serves (asked_by request.entry)
        (record {
          named = S.named source.old;
          input = record {
            left = S.left source.old;
            left_after = S.left source.new;
            faults = S.faults source.old;
            faults_after = S.faults source.new;
          };
          output = record {
            taken = K.taken out.old;
            taken_after = K.taken out.new;
            passed_after = K.passed out.new;
            faults = K.faults out.old;
            faults_after = K.faults out.new;
          };
        })
        result (λ text. IsTold (E.taken err.old) (E.taken err.new) (E.faults err.old) (E.faults err.new) text) }
    ensures read { result.status ≢ 2 }
    ensures lacking { result.status ≡ 5 → out.new ≡ out.old }
    ensures source { S.faults source.old ≤ S.faults source.new }
    ensures out { K.faults out.old ≤ K.faults out.new }
    ensures err { E.faults err.old ≤ E.faults err.new }
{
    match request.generated {
        Some(trace) => generate(alloc, request.settings, trace, out, err),
        None => open_and_replay(
            alloc,
            request.settings,
            request.file,
            request.extras,
            source,
            out,
            err,
        ),
    }
}

/// Does what the words ask for. The first one is the program's name.
fn serve_words<S: Source, K: Sink, E: Sink>(
    alloc: Global,
    list: &[&str],
    source: &mut S,
    out: &mut K,
    err: &mut E,
) -> Outcome
    ensures ran { (words : List (List ℕ)) → map (λ word. word.now) list.now ≡ codes "mmgc" ∷ words → Ran words
        (record {
          named = S.named source.old;
          input = record {
            left = S.left source.old;
            left_after = S.left source.new;
            faults = S.faults source.old;
            faults_after = S.faults source.new;
          };
          output = record {
            taken = K.taken out.old;
            taken_after = K.taken out.new;
            passed_after = K.passed out.new;
            faults = K.faults out.old;
            faults_after = K.faults out.new;
          };
        })
        result (λ text. IsTold (E.taken err.old) (E.taken err.new) (E.faults err.old) (E.faults err.new) text) }
    ensures refused { result.status ≡ 2 → (source.new ≡ source.old) × (out.new ≡ out.old) }
    ensures lacking { result.status ≡ 5 → out.new ≡ out.old }
    ensures source { S.faults source.old ≤ S.faults source.new }
    ensures out { K.faults out.old ≤ K.faults out.new }
    ensures err { E.faults err.old ≤ E.faults err.new }
{
    match read_words(alloc, list) {
        Ok(request) => serve(alloc, request, source, out, err),
        Err(WordsFault::NoMemory) => no_memory(err),
        Err(WordsFault::Refused) => {
            tell(err, b"mmgc: bad arguments\n");
            Outcome {
                status: 2,
                heap: None,
            }
        }
    }
}

/// Reads a trace from `source`, carries it out, and writes its log to `out`; what went wrong is said on `err`.
///
/// `words` are the words behind the program's name. They may ask for a generated trace, of whose log the total line
/// alone is written. A fault of `err` changes neither the status nor the log.
///
/// Whenever a heap is handed back, the log that was written, or of which a front was written, is legal and faithful
/// (`Replays` in `specs/Program.antt`): each read through a reference answers as a heap that never frees would, no
/// protected object is freed, a weak reference is empty exactly once its target is freed, a full collection leaves
/// exactly the reached objects, an incremental cycle leaves none that was unreachable throughout, and blocks never
/// overlap. `IsFaithful` of `mm_model` says it of the turns of the log.
pub fn run<S: Source, K: Sink, E: Sink>(
    alloc: Global,
    words: &[String],
    source: &mut S,
    out: &mut K,
    err: &mut E,
) -> Outcome
    ensures ran { Ran (map (λ word. string_bytes word) words.now)
        (record {
          named = S.named source.old;
          input = record {
            left = S.left source.old;
            left_after = S.left source.new;
            faults = S.faults source.old;
            faults_after = S.faults source.new;
          };
          output = record {
            taken = K.taken out.old;
            taken_after = K.taken out.new;
            passed_after = K.passed out.new;
            faults = K.faults out.old;
            faults_after = K.faults out.new;
          };
        })
        result (λ text. IsTold (E.taken err.old) (E.taken err.new) (E.faults err.old) (E.faults err.new) text) }
    ensures complete { IsComplete (map (λ word. string_bytes word) words.now)
        (record {
          named = S.named source.old;
          input = record {
            left = S.left source.old;
            left_after = S.left source.new;
            faults = S.faults source.old;
            faults_after = S.faults source.new;
          };
          output = record {
            taken = K.taken out.old;
            taken_after = K.taken out.new;
            passed_after = K.passed out.new;
            faults = K.faults out.old;
            faults_after = K.faults out.new;
          };
        }) result.status }
    // Where no heap was made, what was given is as it was; a file that is named may be open at status 5.
    ensures refused { result.status ≡ 2 → (source.new ≡ source.old) × (out.new ≡ out.old) }
    ensures lacking { result.status ≡ 5 → out.new ≡ out.old }
    ensures source { S.faults source.old ≤ S.faults source.new }
    ensures out { K.faults out.old ≤ K.faults out.new }
    ensures err { E.faults err.old ≤ E.faults err.new }
{
    match list_words(alloc, words) {
        Ok(list) => serve_words(alloc, list.as_slice(), source, out, err),
        Err(_) => no_memory(err),
    }
}
