// Runs of an arena's words are cut and joined. Raw pointers are here, in `allocation` and in
// `loan` alone.
ghost use Rattle.std.specs.Prelude.{◌≡◌, ℕ, ◌+◌, ◌-◌, ◌^◌, ◌<◌, ◌≤◌, List, [], length, take};
ghost use Rattle.std_alloc.specs.Vec.{vec_len};
ghost use Rattle.mm_words.specs.Piece.{Name, SpansApart};
ghost use Rattle.mm_words.specs.Ownership.{run_owns, at_place};
ghost use Rattle.mm_words.specs.Seated.{IsSeated};

use crate::loan::Loan;
use std::marker::Model;
use std_alloc::vec::{Lodged, Vec, lodge};

// `len` words of an arena from its word `place` on, of which the first hold `words`.
pub(crate) struct Run {
    pub(crate) ptr: *mut u32,
    pub(crate) len: u32,
    pub ghost arena: { Name },
    pub ghost place: { ℕ },
    pub ghost words: { List ℕ },
    pub ghost lies: { ptr ≡ at_place arena place },
    pub ghost within: { length words ≤ len },
}

impl Model for Run {
    ghost also_owns = { λ l. run_owns l.arena l.place l.len l.words };
}

impl Run {
    ghost use Rattle.mm_words.specs.Runs.{IsRun, IsLoan};

    // What is left after the first `n` words, without its values, and then these.
    pub(crate) fn cut(self, n: u32) -> (Run, Run)
        requires { n ≤ self.len }
        ensures left { IsRun result.0 self.arena (self.place + n) (self.len - n) [] }
        ensures front { IsRun result.1 self.arena self.place n (take n self.words) }
    {
        let Run { ptr, len } = self;
        let next = unsafe { ptr.add(n as usize) };
        let left = Run {
            ptr: next,
            len: len - n,
        };
        (left, Run { ptr, len: n })
    }

    // One run of two that lie side by side. The second loses its values.
    pub(crate) fn join(self, next: Run) -> Run
        requires beside { (next.arena ≡ self.arena) × (next.place ≡ self.place + self.len) }
        requires fits { self.len + next.len < 2 ^ 32 }
        ensures { IsRun result self.arena self.place (self.len + next.len) self.words }
    {
        let Run { ptr, len } = self;
        let Run { ptr: _, len: more } = next;
        Run {
            ptr,
            len: len + more,
        }
    }

    // Two runs of one arena share no word: both own theirs.
    pub(crate) fn apart(self, other: Run) -> (Run, Run)
        requires { other.arena ≡ self.arena }
        ensures same { (result.0 ≡ self) × (result.1 ≡ other) }
        ensures apart { SpansApart self.place self.len other.place other.len }
    {
        (self, other)
    }

    // The words as a vector, of which the first `written` hold values.
    pub(crate) fn open(self, written: u32) -> (Vec<u32, Lodged>, Loan)
        requires { written ≡ length self.words }
        ensures row { (result.0.items ≡ self.words) × (vec_len result.0 ≡ written) × IsSeated result.0 result.1 }
        ensures loan { IsLoan result.1 self.arena self.place self.len }
    {
        let Run { ptr, len } = self;
        let row = unsafe { lodge(ptr, written as usize, len as usize) };
        (row, Loan { ptr, len })
    }

    pub(crate) fn close(row: Vec<u32, Lodged>, loan: Loan) -> Run
        requires { IsSeated row loan }
        ensures { IsRun result loan.arena loan.place loan.len row.items }
    {
        row.dislodge();
        let Loan { ptr, len } = loan;
        Run { ptr, len }
    }
}
