// What is made of the host's answers: an error is counted, and what it was isn't told.
ghost use Rattle.std.specs.Prelude.{◌≡◌, ◌+◌, ◌-◌, ◌^◌, ◌<◌, ◌≤◌, ◌≢◌, Ok, Err, length, min, take, IfOk, IfErr, OnErr};
ghost use Rattle.std.specs.Prelude.{IsErr};
ghost use Rattle.std.specs.IoError.{error_kind};
ghost use Rattle.std.specs.Io.KnownBytes.{Appends, Consumes, IsAtEnd, Keeps};
ghost use Rattle.mm_io.specs.Faults.{Counts, CountsChoice};

use crate::{ChooseFault, Failed};
use std::io;
use std::io::{ErrorKind, Read, Write};

/// Counts a fault, in a count that stays at its last value.
fn fail<T>(faults: &mut u64) -> Result<T, Failed>
    ensures err { IsErr result }
    ensures one_more { faults.new ≡ min (faults.old + 1) (2 ^ 64 - 1) }
    ensures faults { Counts faults.old faults.new result }
{
    *faults = faults.saturating_add(1);
    Err(Failed)
}

fn counted<T: Drop>(answer: io::Result<T>, faults: &mut u64) -> Result<T, Failed>
    ensures ok { IfOk answer (λ value. result ≡ Ok value) }
    ensures err { OnErr answer (IsErr result) }
    ensures faults { Counts faults.old faults.new result }
{
    match answer {
        Ok(value) => Ok(value),
        Err(_) => fail(faults),
    }
}

/// Whether a file was opened. Want of memory counts as no fault.
pub(crate) fn opened<T: Drop>(answer: io::Result<T>, faults: &mut u64) -> Result<T, ChooseFault>
    ensures ok { IfOk answer (λ value. result ≡ Ok value) }
    ensures memory { IfErr answer (λ error.
        error_kind error ≡ ErrorKind.OutOfMemory → result ≡ Err ChooseFault.NoMemory) }
    ensures failed { IfErr answer (λ error.
        error_kind error ≢ ErrorKind.OutOfMemory → result ≡ Err ChooseFault.Failed) }
    ensures faults { CountsChoice faults.old faults.new result }
{
    match answer {
        Ok(value) => Ok(value),
        Err(error) if error.kind() == ErrorKind::OutOfMemory => Err(ChooseFault::NoMemory),
        other => counted(other, faults).map_err(|_| ChooseFault::Failed),
    }
}

/// Reads once.
pub(crate) fn read_once<R: Read>(
    host: &mut R,
    buf: &mut [u8],
    faults: &mut u64,
) -> Result<usize, Failed>
    ensures within { IfOk result (λ n. n ≤ length buf.new) }
    ensures given { IfOk result (λ n. Consumes (R.remaining host.old) (R.remaining host.new) (take n buf.new)) }
    ensures end { IfOk result (λ n. n ≡ 0 → 0 < length buf.old → IsAtEnd (R.remaining host.new)) }
    ensures failed { OnErr result (Keeps (R.remaining host.old) (R.remaining host.new)) }
    ensures faults { Counts faults.old faults.new result }
{
    counted(host.read(buf), faults)
}

/// Writes once. Taking nothing is a fault.
pub(crate) fn write_once<W: Write>(
    host: &mut W,
    bytes: &[u8],
    faults: &mut u64,
) -> Result<usize, Failed>
    ensures some { IfOk result (λ n. 1 ≤ n) }
    ensures within { IfOk result (λ n. n ≤ length bytes.now) }
    ensures appended { IfOk result (λ n. Appends (W.contents host.old) (W.contents host.new) (take n bytes.now)) }
    ensures failed { OnErr result (Keeps (W.contents host.old) (W.contents host.new)) }
    ensures faults { Counts faults.old faults.new result }
{
    match host.write(bytes) {
        Ok(n) if n > 0 => Ok(n),
        _ => fail(faults),
    }
}

/// Flushes once.
pub(crate) fn flush_once<W: Write>(host: &mut W, faults: &mut u64) -> Result<(), Failed>
    ensures same { Keeps (W.contents host.old) (W.contents host.new) }
    ensures faults { Counts faults.old faults.new result }
{
    counted(host.flush(), faults)
}
