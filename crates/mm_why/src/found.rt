// What a search keeps of each object that it has found.
use crate::hop::{Hop, Via};

/// A way to a word.
#[derive(Clone, Copy)]
pub(crate) struct Lead {
    pub(crate) via: Via,
    /// The place in the queue of the object that has the slot.
    pub(crate) from: u32,
    /// How long a path is that ends with the word's object.
    pub(crate) length: u32,
}

/// An object in which a word falls.
#[derive(Clone, Copy)]
pub(crate) struct Found {
    pub(crate) lead: Lead,
    pub(crate) base: u32,
}

impl Lead {
    ghost use Rattle.std.specs.Prelude.{◌≡◌};
    ghost use Rattle.mm_why.specs.Queue.{root_lead};

    /// A lead to a word outside of objects.
    pub(crate) fn outside(via: Via) -> Lead
        ensures { result ≡ root_lead via }
    {
        Lead {
            via,
            from: 0,
            length: 1,
        }
    }
}

impl Found {
    ghost use Rattle.std.specs.Prelude.{◌≡◌};
    ghost use Rattle.mm_why.specs.Path.{hop_by};

    pub(crate) fn hop(self) -> Hop
        ensures { result ≡ hop_by self.lead.via self.base }
    {
        Hop {
            via: self.lead.via,
            base: self.base,
        }
    }
}
