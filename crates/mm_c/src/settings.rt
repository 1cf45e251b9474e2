// What a heap is made with.
ghost use Rattle.std.specs.Prelude.{◌≡◌, MatchBool};
ghost use Rattle.mm_model.specs.Places.Limits.{IsWithinLimits};
ghost use Rattle.mm_c.specs.Settings.{settings_of};

use mm_gc::Settings;

/// What a heap is made with, as C gives it.
#[repr(C)]
#[derive(Clone, Copy)]
pub struct MmSettings {
    pub pages: u32,
    pub max: u32,
    pub zct: u32,
    pub queue: u32,
    pub stack: u32,
}

impl MmSettings {
    pub(crate) fn settings(self) -> Settings
        ensures { result ≡ settings_of self }
    {
        Settings {
            pages: self.pages,
            max: self.max,
            zct: self.zct,
            queue: self.queue,
            stack: self.stack,
        }
    }
}

/// Whether a heap can be made with them.
pub(crate) fn is_within_limits(it: Settings) -> bool
    ensures { MatchBool result (IsWithinLimits it) (IsWithinLimits it → ⊥) }
{
    2 <= it.pages
        && it.pages <= it.max
        && it.max <= 4096
        && 1 <= it.zct
        && it.zct <= 1_048_575
        && 1 <= it.queue
        && it.queue <= 65_536
        && 1 <= it.stack
        && it.stack <= 65_536
}
