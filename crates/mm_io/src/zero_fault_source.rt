// A source over bytes in memory that never fails.
ghost use Rattle.std.specs.Prelude.{◌≡◌, ◌≤◌, None, Some, string_bytes};

use crate::tape::Tape;
use crate::{ChooseFault, Failed, Source};

/// Tells its bytes, and gives at most so many of them per read. Every call answers Ok.
///
/// `choose` takes no memory.
#[derive(Drop)]
pub struct ZeroFaultSource {
    tape: Tape,
}

impl ZeroFaultSource {
    /// `piece` is the most bytes of one read.
    pub fn make(bytes: Vec<u8>, piece: usize) -> ZeroFaultSource
        requires { 1 ≤ piece }
        ensures left { ⟦<ZeroFaultSource as Source>⟧.left result ≡ Some bytes.items }
        ensures named { ⟦<ZeroFaultSource as Source>⟧.named result ≡ None }
    {
        ZeroFaultSource {
            tape: Tape::make(bytes, piece),
        }
    }

    /// The same source with this as its named file, in place of one that it may have.
    pub fn with_file(self, name: String, bytes: Vec<u8>) -> ZeroFaultSource
        ensures named { ⟦<ZeroFaultSource as Source>⟧.named result
            ≡ Some (record { name = string_bytes name; bytes = bytes.items }) }
        ensures left { ⟦<ZeroFaultSource as Source>⟧.left result ≡ ⟦<ZeroFaultSource as Source>⟧.left self }
    {
        let ZeroFaultSource { tape } = self;
        ZeroFaultSource {
            tape: tape.with_file(name, bytes),
        }
    }
}

impl Source for ZeroFaultSource {
    ghost use Rattle.mm_io.specs.Tape.{rest_of, file_of};

    ghost faults = { λ _. 0 };

    ghost left = { λ source. Some (rest_of source.tape) };

    ghost named = { λ source. file_of source.tape };

    ghost may_lack_memory = { λ _. ⊥ };

    fn choose(&mut self, name: &str) -> Result<(), ChooseFault> {
        self.tape.choose(name);
        Ok(())
    }

    fn read(&mut self, buf: &mut [u8]) -> Result<usize, Failed> {
        Ok(self.tape.read(buf))
    }
}
