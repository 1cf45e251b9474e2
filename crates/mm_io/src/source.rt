// Where bytes come from.
ghost use Rattle.std.specs.Prelude.{◌≡◌, ◌<◌, ◌≤◌, List, ℕ, [], length, take, Option};
ghost use Rattle.std.specs.Prelude.{IfOk, IfSome, OnOk, OnErr, IsErrOf};
ghost use Rattle.mm_io.specs.Faults.{Counts, CountsChoice};
ghost use Rattle.mm_io.specs.Told.{NamedFile, Gives, Chooses};

use crate::{ChooseFault, Failed};

/// A source of bytes, which may name one file to read from in place of its own bytes.
///
/// It may tell contracts which bytes are left in it. One that doesn't tell them at some moment doesn't
/// tell them later.
pub trait Source {
    /// How many faults were counted so far.
    ghost faults: { Self → ℕ };

    /// The bytes that are left, where they are told.
    ghost left: { Self → Option (List ℕ) };

    /// The named file, where there is one and it is told.
    ghost named: { Self → Option NamedFile };

    /// Whether `choose` may want memory that isn't there.
    ghost may_lack_memory: { Self → Type 0 } = { λ _. Unit {0} };

    /// Turns to the file of this name: what is left is then that file, from its first byte on.
    fn choose(&mut self, name: &str) -> Result<(), ChooseFault>
        ensures chosen { OnOk result (Chooses (left self.old) (left self.new) (named self.old) name.now) }
        ensures refused { OnErr result (left self.new ≡ left self.old) }
        ensures same_file { named self.new ≡ named self.old }
        ensures faults { CountsChoice (faults self.old) (faults self.new) result }
        ensures memory { IsErrOf result ChooseFault.NoMemory → may_lack_memory self.old };

    /// Puts the first bytes that are left into `buf`, and says how many. 0 means that none are left.
    ///
    /// What the places of `buf` behind those hold afterwards, or all of it after an error, isn't told.
    fn read(&mut self, buf: &mut [u8]) -> Result<usize, Failed>
        requires { 0 < length buf.old }
        ensures within { IfOk result (λ n. n ≤ length buf.new) }
        ensures given { IfOk result (λ n. Gives (left self.old) (left self.new) (take n buf.new)) }
        ensures end { IfOk result (λ n. n ≡ 0 → IfSome (left self.new) (λ rest. rest ≡ [])) }
        ensures failed { OnErr result (left self.new ≡ left self.old) }
        ensures same_file { named self.new ≡ named self.old }
        ensures faults { Counts (faults self.old) (faults self.new) result };
}
