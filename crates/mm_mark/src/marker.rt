// A marker: its queue, and how far its cycle has come.
ghost use Rattle.std.specs.Prelude.{◌≡◌, ◌+◌, ◌≤◌, ◌<◌, length, true, false, [], None, slice_index, drop};
ghost use Rattle.mm_words.specs.Location.{Location, location_of};
ghost use Rattle.mm_mark.specs.Marker.{idle};

use mm_roots::Stack;
use mm_steps::Steps;
use mm_words::Words;
use std::marker::Model;
use std::sync::ledger::Ledger;

/// An object that is scanned up to a slot, and not to its end.
#[derive(Clone, Copy, Debug, PartialEq, Eq)]
pub(crate) struct PartlyScanned {
    pub(crate) base: u32,
    pub(crate) slots_done: u32,
}

/// Marks what is reached, in cycles that the calls of a program come between.
///
/// Its queue stands on words of an arena. They come back by `close`, and the marker can't be dropped.
pub struct Marker {
    // The newest entry is on top and is taken first.
    pub(crate) queue: Stack,
    // Each gray object that the queue had no room for begins there or behind it.
    pub(crate) left_out: Option<u32>,
    pub(crate) running: bool,
    pub(crate) partly: Option<PartlyScanned>,
}

impl Model for Marker {
    ghost use Rattle.mm_mark.specs.Marker as markers;

    ghost Value = { markers.Marker };

    ghost view = { λ m. markers.marker_of m.queue m.left_out m.running m.partly };
}

impl Marker {
    /// A marker whose queue has as many entries as there are words, which may hold anything. No cycle runs.
    pub fn make(queue: Words) -> Marker
        requires { 1 ≤ length queue.words }
        ensures { result ≡ idle (location_of queue) }
    {
        let room = queue.len();
        Marker {
            queue: Stack::make(queue, room),
            left_out: None,
            running: false,
            partly: None,
        }
    }

    /// Gives the words back, which may hold anything.
    pub fn close(self) -> Words
        requires { self.running ≡ false }
        ensures { location_of result ≡ self.location }
    {
        let Marker {
            queue,
            left_out: _,
            running: _,
            partly: _,
        } = self;
        queue.close()
    }

    /// Whether a cycle runs.
    pub fn running(&self) -> bool
        ensures { result ≡ self.now.running }
    {
        self.running
    }

    /// Takes the newest entry off the queue, which isn't empty.
    pub(crate) fn take<L: Ledger>(&mut self, steps: &mut Steps<L>) -> u32
        requires { 0 < length self.old.queue }
        ensures entry { result ≡ slice_index self.old.queue 0 }
        ensures rest { self.new ≡ record self.old { queue = drop 1 self.old.queue } }
        ensures cost { steps.new ≡ steps.old + 1 }
    {
        let base = self.queue.cell(0, steps);
        self.queue.pop(1);
        base
    }
}
