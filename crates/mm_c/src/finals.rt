// A journal that keeps what C is to be told of finalizers.
ghost use Rattle.std.specs.Prelude.{◌≡◌, ◌∷◌, [], length, slice_get, ◌<◌, ◌^◌};
ghost use Rattle.mm_sweep.specs.Told.{Finalize};
ghost use Rattle.mm_c.specs.Calls.{HandsOutOf, left_at, status_in};
ghost use Rattle.mm_c.specs.Finals.{IsTaken, Keeps, none_waits, final_of, status_at_end, word_or_zero};
ghost use Rattle.mm_c.specs.Following.{keeps_nothing, keeps_on};

use crate::handle::MmHeap;
use crate::status::Status;
use mm_gc::{Finalizer, Journal};
use mm_model::Phase;
use std::alloc::Global;
use std::marker::Model;

/// A freed object whose finalizer ran: its base, how many slots it had, and the words of the first two, as many as a
/// pointer of C takes.
#[repr(C)]
#[derive(Clone, Copy)]
pub struct MmFinal {
    pub base: u32,
    pub slots: u32,
    pub first: u32,
    pub second: u32,
}

/// The finalizers that ran and of which C wasn't told yet.
#[derive(Drop)]
pub struct Finals {
    records: Vec<MmFinal>,
    // So many at the front were handed out.
    told: usize,
    lost: bool,
}

impl Model for Finals {
    ghost use Rattle.std.specs.Prelude.{◌≤◌, drop, length};
    ghost use Rattle.mm_c.specs.Finals.{Waiting};

    ghost Value = { Waiting };

    ghost view = { λ f. record { records = drop f.told f.records.items; lost = f.lost } };

    ghost invariant = { λ f. f.told ≤ length f.records.items };
}

/// The word at a place, or 0.
fn word_at(slots: &[u32], i: usize) -> u32
    ensures { result ≡ word_or_zero (slice_get slots.now i) }
{
    match slots.get(i) {
        Some(word) => *word,
        None => 0,
    }
}

fn record_at(records: &[MmFinal], i: usize) -> Option<MmFinal>
    ensures { result ≡ slice_get records.now i }
{
    match records.get(i) {
        Some(record) => Some(*record),
        None => None,
    }
}

fn final_of(base: u32, slots: &[u32]) -> MmFinal
    requires { length slots.now < 2 ^ 32 }
    ensures { result ≡ final_of base slots.now }
{
    MmFinal {
        base,
        slots: slots.len() as u32,
        first: word_at(slots, 0),
        second: word_at(slots, 1),
    }
}

/// How a call goes that finds none waiting.
fn status_at_end(lost: bool) -> Status
    ensures { result ≡ status_at_end lost }
{
    if lost {
        Status::FinalsLost
    } else {
        Status::NoFinal
    }
}

impl Finals {
    pub(crate) fn make(alloc: Global) -> Finals
        ensures { result ≡ none_waits }
    {
        Finals {
            records: Vec::new(alloc),
            told: 0,
            lost: false,
        }
    }

    /// The next one. Where none waits, what is kept of the earlier ones goes.
    pub(crate) fn take(&mut self) -> Result<MmFinal, Status>
        ensures { IsTaken self.old self.new result }
    {
        match record_at(&self.records, self.told) {
            Some(next) => {
                self.told += 1;
                Ok(next)
            }
            None => Err(self.start_again()),
        }
    }

    /// Tells whether some were lost, and keeps later ones again.
    fn start_again(&mut self) -> Status
        requires { self.old.records ≡ [] }
        ensures { IsTaken self.old self.new (Err result) }
    {
        let lost = self.lost;
        self.records.clear();
        self.told = 0;
        self.lost = false;
        status_at_end(lost)
    }

    fn keep(&mut self, base: u32, slots: &[u32])
        requires { length slots.now < 2 ^ 32 }
        ensures { Keeps self.old self.new (Finalize base slots.now ∷ []) }
    {
        if self.lost {
            return;
        }
        self.lost = self.records.push(final_of(base, slots)).is_err();
    }
}

impl Finalizer for Finals {
    ghost tells = { λ s t told. Keeps s t told };

    ghost tells_nothing = { λ s. keeps_nothing s };

    ghost tells_on = { λ s t u earlier later first next. keeps_on s t u earlier later first next };

    fn finalize(&mut self, base: u32, slots: &[u32]) {
        self.keep(base, slots);
    }
}

impl Journal for Finals {
    fn phase(&mut self, _what: Phase, _freed: u32) {}

    fn free(&mut self, _base: u32) {}

    fn scan(&mut self, _base: u32, _slots: u32) {}
}

/// Writes the next finalizer that ran to `out`, in the order in which they ran.
#[unsafe(no_mangle)]
pub extern "C" fn mm_final(alloc: Global, heap: &mut MmHeap, out: &mut MmFinal) -> u32
    ensures { HandsOutOf heap.old.held.value heap.new.held.value result out.old out.new }
{
    match heap.take(alloc) {
        Some(owned) => {
            let mut owned = owned;
            let taken = owned.finals.take();
            heap.restore(owned);
            put_out(taken, out).number()
        }
        None => Status::Closed.number(),
    }
}

/// Puts a record where C wants it.
fn put_out(taken: Result<MmFinal, Status>, out: &mut MmFinal) -> Status
    ensures status { result ≡ status_in taken }
    ensures out { out.new ≡ left_at out.old taken }
{
    match taken {
        Ok(next) => {
            *out = next;
            Status::Done
        }
        Err(status) => status,
    }
}
