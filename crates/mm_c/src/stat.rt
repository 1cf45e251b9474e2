// What C is told of a heap.
ghost use Rattle.std.specs.Prelude.{◌≡◌};
ghost use Rattle.mm_c.specs.Stat.{IsStatOf, TellsStat};

use crate::handle::MmHeap;
use crate::status::Status;
use mm_gc::Gc;
use std::alloc::Global;

/// Counts of a heap: objects that were born and were freed, and that live; zero-count objects, live areas, free pages
/// and pages of the region; stack cells; the zero-count objects at which a tick reaps; and whether a cycle runs.
#[repr(C)]
#[derive(Clone, Copy)]
pub struct MmStat {
    pub born: u64,
    pub freed: u64,
    pub objects: u32,
    pub zero: u32,
    pub areas: u32,
    pub free: u32,
    pub pages: u32,
    pub cells: u32,
    pub threshold: u32,
    pub running: bool,
}

fn stat_of(gc: &Gc) -> MmStat
    ensures { IsStatOf gc.now result }
{
    let totals = gc.totals();
    let stat = gc.stat();
    MmStat {
        born: totals.born,
        freed: totals.freed,
        objects: stat.objects,
        zero: stat.zero,
        areas: stat.areas,
        free: stat.free,
        pages: gc.pages(),
        cells: gc.stack().depth(),
        threshold: gc.threshold(),
        running: gc.running(),
    }
}

/// Writes what there is to `out`.
#[unsafe(no_mangle)]
pub extern "C" fn mm_stat(alloc: Global, heap: &mut MmHeap, out: &mut MmStat) -> u32
    ensures { TellsStat heap.old.held.value heap.new.held.value result out.old out.new }
{
    match heap.take(alloc) {
        Some(owned) => {
            *out = stat_of(&owned.gc);
            heap.restore(owned);
            Status::Done.number()
        }
        None => Status::Closed.number(),
    }
}
