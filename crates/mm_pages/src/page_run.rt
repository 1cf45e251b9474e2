ghost use Rattle.std.specs.Prelude.{◌≡◌};

use mm_words::Words;
use std::marker::Model;
use std::snapshot::Snapshot;

/// A run of pages that a page heap handed out. It goes back by `PageHeap::give`, or stays inside the page heap by
/// `PageHeap::park`, and can't be dropped.
pub struct PageRun {
    pub(crate) first: u32,
    pub(crate) len: u32,
    pub(crate) heap: Snapshot<Words>,
}

impl Model for PageRun {
    ghost use Rattle.mm_words.specs.Location.{location_of};
    ghost use Rattle.mm_pages.specs.Pages.{Run};

    ghost Value = { Run };

    ghost view = { λ r. record { heap = location_of r.heap.value; first = r.first; len = r.len } };
}

impl PageRun {
    /// The lowest of its pages.
    pub fn first(&self) -> u32
        ensures { result ≡ self.now.first }
    {
        self.first
    }

    /// How many pages it has.
    pub fn len(&self) -> u32
        ensures { result ≡ self.now.len }
    {
        self.len
    }
}
