// The heap that C holds, as a pointer.
ghost use Rattle.std.specs.Prelude.{◌≡◌, Option, Some, None, MatchOption};
ghost use Rattle.mm_c.specs.declared.owned.Owned.{Owned};
ghost use Rattle.mm_c.specs.Flag.{flag};

use crate::loose::Loose;
use crate::owned::Owned;
use core::mem::replace_with;
use std::alloc::Global;
use std::marker::Model;

/// Stands for what C doesn't look at.
#[repr(C)]
pub struct Opaque {
    pub byte: u8,
}

/// A pointer, and the heap that it owns.
#[repr(C)]
pub struct Held {
    at: *mut Opaque,
    pub ghost value: { Option Owned },
}

impl Model for Held {
    ghost use Rattle.std.specs.Prelude.{Option};
    ghost use Rattle.mm_c.specs.declared.owned.Owned.{Owned};
    ghost use Rattle.mm_c.specs.Holds.{holds};
    ghost use Rattle.mm_c.specs.contracts.owned.Owned as owned;

    ghost also_owns = { λ h. holds owned.the_row h.at h.value };
}

/// What C holds: a heap, or none. Before the first `mm_open` all its bytes are 0.
#[repr(C)]
pub struct MmHeap {
    held: Held,
    is_open: bool,
    ghost told: { is_open ≡ flag held.value },
}

pub(crate) fn fill(h: Held, l: Loose<Owned, Global>) -> Held
    requires { h.value ≡ None }
    ensures { result.value ≡ Some l.value }
{
    let Held { at: _ } = h;
    let Loose { at, alloc } = l;
    Held {
        at: at as *mut Opaque,
    }
}

pub(crate) fn empty(h: Held, alloc: Global) -> (Held, Loose<Owned, Global>)
    requires { (value : Owned) × (h.value ≡ Some value) }
    ensures closed { result.0.value ≡ None }
    ensures opened { h.value ≡ Some result.1.value }
{
    let Held { at } = h;
    (
        Held { at },
        Loose {
            at: at as *mut Owned,
            alloc,
        },
    )
}

fn filled(held: Held, loose: Loose<Owned, Global>) -> (Held, ())
    requires { held.value ≡ None }
    ensures { result.0.value ≡ Some loose.value }
{
    (fill(held, loose), ())
}

impl MmHeap {
    /// Whether a heap is open.
    pub(crate) fn is_open(&self) -> bool
        ensures { result ≡ flag self.now.held.value }
    {
        self.is_open
    }

    /// Takes out the heap, where one is open. None is then.
    pub(crate) fn take(&mut self, alloc: Global) -> Option<Box<Owned, Global>>
        ensures taken { MatchOption result (self.old.held.value ≡ None)
            (λ owned. self.old.held.value ≡ Some owned.value) }
        ensures closed { self.new.held.value ≡ None }
    {
        if !self.is_open {
            return None;
        }
        let loose = replace_with(&mut self.held, alloc, empty);
        self.is_open = false;
        Some(loose.into_box())
    }

    /// Puts a heap behind the handle.
    pub(crate) fn restore(&mut self, owned: Box<Owned, Global>)
        requires { self.old.held.value ≡ None }
        ensures { self.new.held.value ≡ Some owned.value }
    {
        replace_with(&mut self.held, Loose::of(owned), filled);
        self.is_open = true;
    }
}
