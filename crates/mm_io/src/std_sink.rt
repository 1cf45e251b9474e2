// A writer of the host.
ghost use Rattle.std.specs.Prelude.{◌≡◌};

use crate::host::{flush_once, write_once};
use crate::host_streams::SteadyWrite;
use crate::{Failed, Sink};

/// Writes a writer of the host, and tells the bytes that this tells: standard output and standard error tell none.
///
/// Each error is counted, in a u64 that stays at its last value. A write that takes nothing is one.
#[derive(Drop)]
pub struct StdSink<W: SteadyWrite + Drop> {
    pub(crate) host: W,
    faults: u64,
}

impl<W: SteadyWrite + Drop> StdSink<W> {
    pub fn make(host: W) -> StdSink<W>
        ensures taken { ⟦<StdSink<W> as Sink>⟧.taken result ≡ W.contents host }
        ensures faults { ⟦<StdSink<W> as Sink>⟧.faults result ≡ 0 }
    {
        StdSink { host, faults: 0 }
    }
}

impl<W: SteadyWrite + Drop> Sink for StdSink<W> {
    ghost faults = { λ sink. sink.faults };

    ghost taken = { λ sink. W.contents sink.host };

    // A writer doesn't tell what it holds back of its contents.
    ghost passed = { λ sink. W.contents sink.host };

    fn write(&mut self, bytes: &[u8]) -> Result<usize, Failed> {
        write_once(&mut self.host, bytes, &mut self.faults)
    }

    fn flush(&mut self) -> Result<(), Failed> {
        flush_once(&mut self.host, &mut self.faults)
    }
}
