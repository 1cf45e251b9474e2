//! The program `mmgc`: it replays a trace of commands and prints a log.
#![tactic(auto)]

ghost use Rattle.std.specs.Prelude.{◌≡◌, ◌≢◌, Option, map, string_bytes};
ghost use Rattle.std.specs.IoError.{error_kind};
ghost use Rattle.mm_gc.specs.Gc.{Gc};
ghost use Rattle.mmgc.specs.Program.{Ran};
ghost use Rattle.mmgc.specs.Telling.{IsTold};

mod answer;
mod appendix;
mod execute;
mod executor;
mod extras;
mod generating;
mod generator;
mod log;
mod pacer;
mod program;
mod quiet;
mod replay;
mod site_book;
#[cfg(test)]
mod tests;
mod words;
mod work;

pub use generator::generated;
pub use log::LogWriter;
use mm_io::{Sink, Source, StdSink, StdSource};
pub use program::{Outcome, run};
pub use quiet::Quiet;
use std::alloc::Global;
use std::io;
use std::io::ErrorKind;
use std::process::ExitCode;

/// The words behind the program's name. An error of another kind than OutOfMemory says that they can't be had.
fn fetch_words(rt: &HostRuntime, alloc: Global) -> io::Result<Vec<String>> {
    let words = std::env::args(rt)?.skip(1).collect(alloc)?;
    Ok(words)
}

/// Runs over these streams, closes the heap, and gives the exit status.
fn exit_status<S: Source, K: Sink, E: Sink>(
    alloc: Global,
    words: &[String],
    source: &mut S,
    out: &mut K,
    err: &mut E,
) -> u8
    ensures ran { (heap : Option Gc) × Ran (map (λ word. string_bytes word) words.now)
        (record {
          named = S.named source.old;
          input = record {
            left = S.left source.old;
            left_after = S.left source.new;
            faults = S.faults source.old;
            faults_after = S.faults source.new;
          };
          output = record {
            taken = K.taken out.old;
            taken_after = K.taken out.new;
            passed_after = K.passed out.new;
            faults = K.faults out.old;
            faults_after = K.faults out.new;
          };
        })
        (record { status = result; heap = heap })
        (λ text. IsTold (E.taken err.old) (E.taken err.new) (E.faults err.old) (E.faults err.new) text) }
{
    let Outcome { status, heap } = run(alloc, words, source, out, err);
    if let Some(heap) = heap {
        heap.close();
    }
    status
}

/// Runs over standard input, or the file that is named, and over standard output and standard error.
fn run_on_host(rt: &HostRuntime, words: &[String]) -> u8 {
    let mut source = StdSource::make(rt.stdin(), *rt);
    let mut out = StdSink::make(rt.stdout());
    let mut err = StdSink::make(rt.stderr());
    exit_status(rt.alloc(), words, &mut source, &mut out, &mut err)
}

/// Where the words can't be had the status is 5 if there was no memory, and else 7.
fn words_status(error: &io::Error) -> u8
    ensures memory { error_kind error.now ≡ ErrorKind.OutOfMemory → result ≡ 5 }
    ensures other { error_kind error.now ≢ ErrorKind.OutOfMemory → result ≡ 7 }
{
    if error.kind() == ErrorKind::OutOfMemory {
        5
    } else {
        7
    }
}

fn main(rt: HostRuntime) -> ExitCode {
    ExitCode::from(match fetch_words(&rt, rt.alloc()) {
        Ok(words) => run_on_host(&rt, &words),
        Err(error) => words_status(&error),
    })
}
