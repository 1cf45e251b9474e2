// Where bytes go.
ghost use Rattle.std.specs.Prelude.{◌≡◌, ◌<◌, ◌≤◌, List, ℕ, [], length, take, IfOk, OnOk, OnErr, Option, None};
ghost use Rattle.mm_io.specs.Faults.{Counts};
ghost use Rattle.mm_io.specs.Told.{Appends, AppendsFront, KeepsFirst, KeepsFront, StillTells};

use crate::Failed;

/// A sink of bytes.
///
/// It may tell contracts which bytes it has taken. One that doesn't tell them at some moment doesn't tell
/// them later.
pub trait Sink {
    /// How many faults were counted so far.
    ghost faults: { Self → ℕ };

    /// The bytes taken so far, where they are told.
    ghost taken: { Self → Option (List ℕ) };

    /// The bytes passed on so far, where they are told: those taken without what is still held back.
    ghost passed: { Self → Option (List ℕ) };

    /// As long as it has taken no more bytes than this, a sink that tells them goes on telling them.
    ghost room: { Self → ℕ } = { λ _. 0 };

    /// The first bytes taken, as many as it has room for, of a sink that keeps them.
    ghost kept: { Self → Option (List ℕ) } = { λ _. None };

    /// Takes the first bytes of `bytes`, and says how many.
    fn write(&mut self, bytes: &[u8]) -> Result<usize, Failed>
        requires { 0 < length bytes.now }
        ensures some { IfOk result (λ n. 1 ≤ n) }
        ensures within { IfOk result (λ n. n ≤ length bytes.now) }
        ensures appended { IfOk result (λ n. Appends (taken self.old) (taken self.new) (take n bytes.now)) }
        ensures told { IfOk result (λ n. StillTells (room self.old) (taken self.old) (taken self.new) n) }
        ensures kept { IfOk result
            (λ n. KeepsFirst (room self.old) (kept self.old) (kept self.new) (take n bytes.now)) }
        ensures failed { OnErr result (taken self.new ≡ taken self.old) }
        ensures failed_kept { OnErr result (kept self.new ≡ kept self.old) }
        ensures same_room { room self.new ≡ room self.old }
        ensures faults { Counts (faults self.old) (faults self.new) result };

    /// Passes on what the sink still holds back.
    fn flush(&mut self) -> Result<(), Failed>
        ensures passed { OnOk result (passed self.new ≡ taken self.new) }
        ensures same { taken self.new ≡ taken self.old }
        ensures same_kept { kept self.new ≡ kept self.old }
        ensures same_room { room self.new ≡ room self.old }
        ensures faults { Counts (faults self.old) (faults self.new) result };
}

/// Writes all of `bytes`, in as many pieces as the sink asks for. It doesn't flush.
///
/// After an error the sink has taken some of the first bytes; how many isn't told.
pub fn write_all<K: Sink>(sink: &mut K, bytes: &[u8]) -> Result<(), Failed>
    ensures ok { OnOk result (Appends (K.taken sink.old) (K.taken sink.new) bytes.now) }
    ensures err { OnErr result (AppendsFront (K.taken sink.old) (K.taken sink.new) bytes.now) }
    ensures told { StillTells (K.room sink.old) (K.taken sink.old) (K.taken sink.new) (length bytes.now) }
    ensures kept { OnOk result (KeepsFirst (K.room sink.old) (K.kept sink.old) (K.kept sink.new) bytes.now) }
    ensures front_kept { OnErr result (KeepsFront (K.room sink.old) (K.kept sink.old) (K.kept sink.new) bytes.now) }
    ensures same_room { K.room sink.new ≡ K.room sink.old }
    ensures faults { Counts (K.faults sink.old) (K.faults sink.new) result }
    ensures nothing { bytes.now ≡ [] → sink.new ≡ sink.old }
{
    let mut at = 0;
    while at < bytes.len() {
        at += sink.write(&bytes[at..])?;
    }
    Ok(())
}
