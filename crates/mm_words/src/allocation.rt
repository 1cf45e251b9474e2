// The one allocation of an arena, which is lent for the arena's lifetime.
ghost use Rattle.std.specs.Prelude.{◌≡◌, ℕ, ◌+◌, ◌≤◌, [], IfOk};
ghost use Rattle.mm_words.specs.Piece.{Name};
ghost use Rattle.mm_words.specs.Ownership.{allocation_owns, at_place};
ghost use Rattle.mm_words.specs.Runs.{IsRun};

use crate::run::Run;
use std::alloc::{AllocError, Allocator};
use std::marker::{Model, PhantomData};

const WORD: usize = 4;

// The right to have the memory of `total` words back. `owing` of them are in runs.
pub(crate) struct Allocation<A: Allocator> {
    ptr: *mut u32,
    total: u32,
    marker: PhantomData<A>,
    pub ghost alloc: { A },
    pub ghost arena: { Name },
    pub ghost owing: { ℕ },
    pub ghost lies: { ptr ≡ at_place arena 0 },
    pub ghost within: { owing ≤ total },
}

impl<A: Allocator> Model for Allocation<A> {
    ghost also_owns = { λ c. allocation_owns c.arena (A.dealloc_token c.alloc) c.total c.owing };
}

impl<A: Allocator> Allocation<A> {
    pub(crate) fn make(alloc: &A, total: u32) -> Result<(Run, Allocation<A>), AllocError>
        ensures run { IfOk result (λ r. IsRun r.0 r.1.arena 0 total []) }
        ensures allocation { IfOk result (λ r. (r.1.alloc ≡ alloc.now) × (r.1.total ≡ total) × (r.1.owing ≡ total)) }
    {
        match alloc.allocate(total as usize * WORD, WORD) {
            Ok(block) => {
                let ptr = block as *mut u32;
                let marker = PhantomData;
                Ok((Run { ptr, len: total }, Allocation { ptr, total, marker }))
            }
            Err(refused) => Err(refused),
        }
    }

    // That both runs are out bounds how many words they have. All three come back as they were.
    pub(crate) fn weigh(self, run: Run, rest: Run) -> (Allocation<A>, (Run, Run))
        requires { (run.arena ≡ self.arena) × (rest.arena ≡ self.arena) }
        ensures same { (result.0 ≡ self) × (result.1.0 ≡ run) × (result.1.1 ≡ rest) }
        ensures owed { run.len + rest.len ≤ self.owing }
    {
        (self, (run, rest))
    }

    // The words of the run come back.
    pub(crate) fn take_back(self, run: Run) -> Allocation<A>
        requires { (run.arena ≡ self.arena) × (run.len ≤ self.owing) }
        ensures same { (result.alloc ≡ self.alloc) × (result.arena ≡ self.arena) × (result.total ≡ self.total) }
        ensures owing { result.owing + run.len ≡ self.owing }
    {
        let Allocation { ptr, total, marker } = self;
        let Run { ptr: _, len: _ } = run;
        Allocation { ptr, total, marker }
    }

    // Gives the memory back.
    pub(crate) fn end(self, rest: Run, alloc: &A)
        requires { (self.alloc ≡ alloc.now) × (rest.arena ≡ self.arena) × (self.owing ≡ rest.len) }
    {
        let Run { ptr: _, len: _ } = rest;
        let Allocation {
            ptr,
            total,
            marker: _,
        } = self;
        unsafe { alloc.deallocate(ptr as *mut u8, total as usize * WORD, WORD) }
    }
}
