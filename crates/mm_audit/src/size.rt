// The room that a piece of some bytes takes.
ghost use Rattle.std.specs.Prelude.{◌≡◌, ◌^◌, ◌≤◌};
ghost use Rattle.mm_model.specs.Places.SizeClass.{class_index, size_of as size_for};
ghost use Rattle.mm_audit.specs.Places.{IsKnownSize};

use mm_model::Size;

const PAGE_BYTES: u32 = 4096;

// The bytes of a cell of each class.
const CLASS_BYTES: [u32; 19] = [
    16, 32, 48, 64, 80, 96, 112, 128, 160, 192, 256, 336, 448, 512, 672, 816, 1024, 1360, 2048,
];

// Those of the last class.
const LARGEST_CELL: u32 = 2048;

// The least class whose cells are large enough.
fn class_for(bytes: u32) -> u32
    requires small { bytes ≤ 2048 }
    ensures { result ≡ class_index bytes }
{
    let mut class = 0;
    while class < 18 && CLASS_BYTES[class as usize] < bytes {
        class += 1;
    }
    class
}

/// The size class, or the number of whole pages, that so many bytes take.
pub fn size_of(bytes: u32) -> Size
    requires some { 1 ≤ bytes }
    requires most { bytes ≤ 2 ^ 24 }
    ensures size { result ≡ size_for bytes }
    ensures known { IsKnownSize result }
{
    if bytes <= LARGEST_CELL {
        Size::Small(class_for(bytes))
    } else {
        Size::Pages((bytes + PAGE_BYTES - 1) / PAGE_BYTES)
    }
}
