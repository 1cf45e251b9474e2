// The room that a piece of some bytes takes: a cell of one of 19 size classes, or whole pages.
ghost use Rattle.std.specs.Prelude.{◌≡◌, ◌*◌, ◌/◌, ◌^◌, ◌<◌, ◌≤◌, slice_index};
ghost use Rattle.mm_model.specs.Places.SizeClass.{size_of, extent_of_size, class_sizes};
ghost use Rattle.mm_cells.specs.Sizes.{IsSize};

use mm_model::Size;

/// The bytes of a page.
pub const PAGE_BYTES: u32 = 4096;

/// The bytes of a cell of each class are a multiple of these.
const UNIT_BYTES: u32 = 16;

/// The bytes of a cell of the largest class.
const LARGEST_CELL: u32 = 2048;

/// The bytes of a cell of each class.
const BYTES_BY_CLASS: [u32; 19] = [
    16, 32, 48, 64, 80, 96, 112, 128, 160, 192, 256, 336, 448, 512, 672, 816, 1024, 1360, 2048,
];

/// How many cells of each class a page has.
const CELLS_BY_CLASS: [u32; 19] = [
    256, 128, 85, 64, 51, 42, 36, 32, 25, 21, 16, 12, 9, 8, 6, 5, 4, 3, 2,
];

/// 2^24 divided by the bytes of a cell of each class, rounded up.
const RECIPROCALS: [u32; 19] = [
    1048576, 524288, 349526, 262144, 209716, 174763, 149797, 131072, 104858, 87382, 65536, 49933,
    37450, 32768, 24967, 20561, 16384, 12337, 8192,
];

/// The least class whose cells have at least this many units.
const CLASS_BY_UNITS: [u8; 129] = [
    0, 0, 1, 2, 3, 4, 5, 6, 7, 8, 8, 9, 9, 10, 10, 10, 10, 11, 11, 11, 11, 11, 12, 12, 12, 12, 12,
    12, 12, 13, 13, 13, 13, 14, 14, 14, 14, 14, 14, 14, 14, 14, 14, 15, 15, 15, 15, 15, 15, 15, 15,
    15, 16, 16, 16, 16, 16, 16, 16, 16, 16, 16, 16, 16, 16, 17, 17, 17, 17, 17, 17, 17, 17, 17, 17,
    17, 17, 17, 17, 17, 17, 17, 17, 17, 17, 17, 18, 18, 18, 18, 18, 18, 18, 18, 18, 18, 18, 18, 18,
    18, 18, 18, 18, 18, 18, 18, 18, 18, 18, 18, 18, 18, 18, 18, 18, 18, 18, 18, 18, 18, 18, 18, 18,
    18, 18, 18, 18, 18, 18,
];

/// The class, or the number of whole pages, that so many bytes take.
pub fn class_of(bytes: u32) -> Size
    requires some { 1 ≤ bytes }
    requires most { bytes ≤ 4194316 }
    ensures value { result ≡ size_of bytes }
    ensures size { IsSize result }
    ensures enough { bytes ≤ extent_of_size result }
{
    if bytes <= LARGEST_CELL {
        Size::Small(CLASS_BY_UNITS[bytes.div_ceil(UNIT_BYTES) as usize] as u32)
    } else {
        Size::Pages(bytes.div_ceil(PAGE_BYTES))
    }
}

/// The bytes that a piece of this size takes.
#[tactic(auto, unfolding(mm_model::specs::Places::SizeClass::class_sizes))]
pub fn extent_of(size: Size) -> u32
    requires { IsSize size }
    ensures value { result ≡ extent_of_size size }
    ensures some { 0 < result }
    ensures most { result ≤ 2 ^ 24 }
{
    match size {
        Size::Small(class) => BYTES_BY_CLASS[class as usize],
        Size::Pages(count) => count * PAGE_BYTES,
    }
}

/// How many cells of this class a page has.
pub fn cells_per_page(class: u32) -> u32
    requires { class < 19 }
    ensures { result ≡ 4096 / slice_index class_sizes class }
{
    CELLS_BY_CLASS[class as usize]
}

/// The number of the cell of a page of this class that has the byte which is so many bytes into the page. It may be
/// that of a cell which no longer fits into the page.
#[inline]
pub(crate) fn number_at(class: u32, offset: u32) -> u32
    requires class { class < 19 }
    requires offset { offset < 4096 }
    ensures { result ≡ offset / slice_index class_sizes class }
{
    // This is exact for so few bytes, and no division.
    offset * RECIPROCALS[class as usize] >> 24
}
