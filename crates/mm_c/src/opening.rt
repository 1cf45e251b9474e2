// A heap is opened and closed for C.
ghost use Rattle.std.specs.Prelude.{◌≡◌, None, IfSome};
ghost use Rattle.mm_model.specs.Places.Limits.{IsWithinLimits};
ghost use Rattle.mm_model.specs.State.{empty_state};
ghost use Rattle.mm_model.specs.Views.View.{Shows};
ghost use Rattle.mm_gc.specs.Gc.{view_of_gc};
ghost use Rattle.mm_c.specs.Calls.{Opens, status_on};
ghost use Rattle.mm_c.specs.Finals.{none_waits};
ghost use Rattle.mm_c.specs.Status.{number};

use crate::finals::Finals;
use crate::handle::MmHeap;
use crate::owned::Owned;
use crate::settings::{MmSettings, is_within_limits};
use crate::status::Status;
use mm_gc::{Gc, Settings};
use std::alloc::Global;

fn boxed(alloc: Global, gc: Gc) -> Option<Box<Owned, Global>>
    ensures gc { IfSome result (λ owned. owned.value.gc ≡ gc) }
    ensures finals { IfSome result (λ owned. owned.value.finals ≡ none_waits) }
{
    let finals = Finals::make(alloc);
    match Box::new(alloc, Owned { gc, finals }) {
        Ok(owned) => Some(owned),
        Err(_) => None,
    }
}

/// A heap in its block, where there is memory.
fn make(alloc: Global, settings: Settings) -> Option<Box<Owned, Global>>
    requires { IsWithinLimits settings }
    ensures shows { IfSome result (λ owned. Shows (view_of_gc owned.value.gc) (empty_state settings)) }
    ensures finals { IfSome result (λ owned. owned.value.finals ≡ none_waits) }
{
    match Gc::make(alloc, settings) {
        Ok(gc) => boxed(alloc, gc),
        Err(_) => None,
    }
}

/// Opens a heap behind a handle.
#[unsafe(no_mangle)]
pub extern "C" fn mm_open(alloc: Global, heap: &mut MmHeap, settings: &MmSettings) -> u32
    ensures { Opens heap.old.held.value heap.new.held.value settings.now result }
{
    if heap.is_open() {
        return Status::Open.number();
    }
    let settings = settings.settings();
    if !is_within_limits(settings) {
        return Status::BadSettings.number();
    }
    match make(alloc, settings) {
        Some(owned) => {
            heap.restore(owned);
            Status::Done.number()
        }
        None => Status::NoMemory.number(),
    }
}

/// Gives all memory of the heap back. No finalizer runs, and those that wait are forgotten.
#[unsafe(no_mangle)]
pub extern "C" fn mm_close(alloc: Global, heap: &mut MmHeap) -> u32
    ensures closed { heap.new.held.value ≡ None }
    ensures status { result ≡ number (status_on heap.old.held.value) }
{
    match heap.take(alloc) {
        Some(owned) => {
            drop(owned);
            Status::Done.number()
        }
        None => Status::Closed.number(),
    }
}
