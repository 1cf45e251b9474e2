// What the objects of a site come to.
ghost use Rattle.std.specs.Prelude.{◌≡◌, ◌+◌, ◌-◌, ◌^◌, ◌<◌, ◌≤◌};

/// The totals of a site.
#[derive(Clone, Copy, Debug, PartialEq, Eq)]
pub struct SiteTotal {
    /// How many objects there are.
    pub objects: u32,
    /// The bytes that they take.
    pub bytes: u64,
}

impl SiteTotal {
    /// Of no objects.
    pub(crate) const NONE: SiteTotal = SiteTotal {
        objects: 0,
        bytes: 0,
    };

    /// One more object, of so many bytes.
    pub(crate) fn add(&mut self, extent: u32)
        requires objects { self.old.objects + 1 < 2 ^ 32 }
        requires bytes { self.old.bytes + extent < 2 ^ 64 }
        ensures { self.new ≡ record { objects = self.old.objects + 1; bytes = self.old.bytes + extent } }
    {
        self.objects += 1;
        self.bytes += u64::from(extent);
    }

    /// One object less, of so many bytes.
    pub(crate) fn remove(&mut self, extent: u32)
        requires objects { 1 ≤ self.old.objects }
        requires bytes { extent ≤ self.old.bytes }
        ensures { self.new ≡ record { objects = self.old.objects - 1; bytes = self.old.bytes - extent } }
    {
        self.objects -= 1;
        self.bytes -= u64::from(extent);
    }
}
