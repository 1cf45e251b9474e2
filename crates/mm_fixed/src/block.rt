// A block that an allocator handed out.
ghost use Rattle.std.specs.Prelude.{◌≡◌};

use mm_cells::Cells;
use std::marker::Model;
use std::snapshot::Snapshot;

/// A block that is out. It goes back by `Fixed::free`, or stays inside its allocator by `Fixed::park`, and can't be
/// dropped. So no block is lost, and none is given back twice.
pub struct FixedBlock {
    pub(crate) base: u32,
    pub(crate) extent: u32,
    pub(crate) allocator: Snapshot<Cells>,
}

impl Model for FixedBlock {
    ghost use Rattle.mm_fixed.specs.Fixed.{OutBlock};

    ghost Value = { OutBlock };

    ghost view = { λ b. record { allocator = b.allocator.value.table; base = b.base; extent = b.extent } };
}

impl FixedBlock {
    /// The address of its first byte.
    pub fn base(&self) -> u32
        ensures { result ≡ self.now.base }
    {
        self.base
    }

    /// Its bytes.
    pub fn extent(&self) -> u32
        ensures { result ≡ self.now.extent }
    {
        self.extent
    }
}
