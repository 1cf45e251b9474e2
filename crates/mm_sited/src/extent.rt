// How many bytes objects take.
ghost use Rattle.std.specs.Prelude.{◌≡◌, ◌≤◌};
ghost use Rattle.mm_model.specs.Places.SizeClass.{extent_of, object_bytes};
ghost use Rattle.mm_sited.specs.Extents.{IsExtent};

use mm_cells::{class_of, extent_of};

/// The bytes that an object with so many slots takes.
pub fn object_extent(slots: u32) -> u32
    requires { slots ≤ 1048575 }
    ensures value { result ≡ extent_of (object_bytes slots) }
    ensures extent { IsExtent result }
{
    extent_of(class_of(16 + 4 * slots))
}
