// Words of leaves, read and written in bulk for C.
ghost use Rattle.std.specs.Prelude.{◌≡◌, ◌<◌};
ghost use Rattle.mm_c.specs.InBulk.{AreReadTo, AreWrittenTo, ReadsWords, WritesWords};

use crate::answer::MmAnswer;
use crate::handle::MmHeap;
use crate::owned::Owned;
use crate::status::Status;
use mm_gc::Gc;
use mm_steps::Steps;
use std::alloc::Global;
use std::marker::Brand;
use std::sync::ledger::{Blank, Ledger};

fn read<L: Ledger>(gc: &Gc, i: u32, s: u32, out: &mut [u32], blank: Blank) -> MmAnswer
    requires name { blank.name ≡ L.name }
    requires parts { blank.parts ≡ L.parts }
    requires shared { 0 < L.parts }
    ensures { AreReadTo gc.now (record { cell = i; slot = s; before = out.old; after = out.new }) result }
{
    let mut steps = Steps::<L>::open(blank);
    MmAnswer::in_bulk(gc.read_words(i, s, out, &mut steps))
}

impl Owned {
    fn write<L: Ledger>(&mut self, i: u32, s: u32, words: &[u32], blank: Blank) -> MmAnswer
        requires name { blank.name ≡ L.name }
        requires parts { blank.parts ≡ L.parts }
        requires shared { 0 < L.parts }
        ensures { AreWrittenTo self.old self.new (record { cell = i; slot = s; words = words.now }) result }
    {
        let mut steps = Steps::<L>::open(blank);
        MmAnswer::in_bulk(self.gc.write_words(i, s, words, &mut steps))
    }
}

/// Reads the slots from `s` on of the leaf that cell `i` means, as many as there is room for.
#[unsafe(no_mangle)]
pub extern "C" fn mm_read(
    alloc: Global,
    heap: &mut MmHeap,
    i: u32,
    s: u32,
    out: &mut [u32],
) -> MmAnswer
    ensures { ReadsWords heap.old.held.value heap.new.held.value
        (record { cell = i; slot = s; before = out.old; after = out.new }) result }
{
    match heap.take(alloc) {
        Some(owned) => {
            let answer = read::<Brand>(&owned.gc, i, s, out, Blank::new(1));
            heap.restore(owned);
            answer
        }
        None => MmAnswer::bare(Status::Closed),
    }
}

/// Writes the words into the slots from `s` on of the leaf that cell `i` means.
#[unsafe(no_mangle)]
pub extern "C" fn mm_write(
    alloc: Global,
    heap: &mut MmHeap,
    i: u32,
    s: u32,
    words: &[u32],
) -> MmAnswer
    ensures { WritesWords heap.old.held.value heap.new.held.value
        (record { cell = i; slot = s; words = words.now }) result }
{
    match heap.take(alloc) {
        Some(owned) => {
            let mut owned = owned;
            let answer = owned.write::<Brand>(i, s, words, Blank::new(1));
            heap.restore(owned);
            answer
        }
        None => MmAnswer::bare(Status::Closed),
    }
}
