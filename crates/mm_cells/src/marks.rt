// The marks of cells in a table of words: four bits for each cell, and those of eight cells in each word.
ghost use Rattle.std.specs.Prelude.{◌≡◌, ◌≢◌, ℕ, ◌+◌, ◌*◌, ◌/◌, ◌%◌, ◌<◌, ◌≤◌, ◌⊎◌, ◌↔◌, length, MatchOption, true};
ghost use Rattle.mm_cells.specs.Marks.{code_in, code_of, colour_code, no_flags, IsMark, mark_of, mark_in};
ghost use Rattle.mm_cells.specs.Marks.{colour_of, flags_of, whitened_mark, IsPlain, WhitensWord};
ghost use Rattle.mm_cells.specs.Marks.{code_of_cell, mark_of_cell, page_marks};
ghost use Rattle.mm_cells.specs.Marks.{NoneFree, IsLowestFree, NoneSought, IsLowestSought, IsMaskOf};

use bitflags::{Flag, Flags, bitflag_items};
use mm_model::Colour;

/// What a taken cell says of its object beside the colour.
#[derive(Clone, Copy, Debug, PartialEq, Eq)]
pub struct CellBits(u8);

bitflag_items! {
    impl CellBits: u8 {
        /// The object has a finalizer.
        const FINALIZE = 1;
        /// It has a live weak object.
        const HAS_WEAK = 2;
    }
}

impl Flags for CellBits {
    ghost use Rattle.std.specs.Prelude.{⊤, [], ◌∷◌, codes};

    type Bits = u8;

    ghost exact = { ⊤ };

    ghost table = { (codes "FINALIZE", 1) ∷ (codes "HAS_WEAK", 2) ∷ [] };

    ghost set_of = { λ flags. flags.0 };

    fn flags<'a>() -> &'a [Flag<CellBits>] {
        CellBits::FLAGS
    }

    fn bits(&self) -> u8 {
        self.0
    }

    fn from_bits_retain(bits: u8) -> CellBits {
        CellBits(bits)
    }
}

/// What a table says of a cell.
#[derive(Clone, Copy, Debug, PartialEq, Eq)]
pub(crate) enum Mark {
    Free,
    Taken(Colour, CellBits),
}

/// What is told of the object in a taken cell.
#[derive(Clone, Copy)]
pub(crate) struct ObjectMark {
    pub(crate) colour: Colour,
    pub(crate) flags: CellBits,
}

/// Which taken cells are looked for.
#[derive(Clone, Copy)]
pub(crate) enum Sought {
    Taken,
    Of(Colour),
}

/// What is told of some cells whose marks stand in one word, as one of them becomes free.
#[derive(Clone, Copy)]
pub(crate) struct Neighbours {
    /// One of them was free before.
    pub(crate) had_free: bool,
    /// One of them is taken still.
    pub(crate) has_taken: bool,
}

const WHITE: u32 = 0;

const BLACK: u32 = 1;

const GRAY: u32 = 2;

const FREE: u32 = 3;

/// The lowest bit of each of a word's eight marks.
const LOWEST_BITS: u32 = 0x1111_1111;

/// The lowest bit of each of the sixteen marks of two words.
const LOWEST_BITS_OF_PAIR: u64 = 0x1111_1111_1111_1111;

/// The two bits of each mark that stand for flags.
const FLAG_BITS: u32 = 0xCCCC_CCCC;

/// A word whose eight cells are free.
const ALL_FREE: u32 = 0x3333_3333;

fn colour_code(colour: Colour) -> u32
    ensures code { result ≡ colour_code colour }
    ensures small { result < 3 }
{
    match colour {
        Colour::White => WHITE,
        Colour::Gray => GRAY,
        Colour::Black => BLACK,
    }
}

/// The mark of a cell with a new object, of which nothing but its colour is told yet.
pub(crate) fn new_mark(colour: Colour) -> Mark
    ensures { result ≡ Mark.Taken colour no_flags }
{
    Mark::Taken(colour, CellBits(0))
}

/// The four bits of a mark.
fn encode(mark: Mark) -> u32
    requires { IsMark mark }
    ensures code { result ≡ code_of mark }
    ensures means { mark_of result ≡ mark }
    ensures small { result < 16 }
{
    match mark {
        Mark::Free => FREE,
        Mark::Taken(colour, flags) => colour_code(colour) + 4 * flags.0 as u32,
    }
}

/// The colour that the four bits of a taken cell mean.
#[inline]
fn colour_in(code: u32) -> Colour
    ensures { result ≡ colour_of (code % 4) }
{
    match code % 4 {
        WHITE => Colour::White,
        BLACK => Colour::Black,
        _ => Colour::Gray,
    }
}

/// What the four bits of a taken cell mean.
#[inline]
fn object_mark(code: u32) -> ObjectMark
    requires { code < 16 }
    ensures colour { result.colour ≡ colour_of (code % 4) }
    ensures flags { result.flags ≡ flags_of code }
{
    let flags = CellBits((code / 4) as u8);
    let colour = colour_in(code);
    ObjectMark { colour, flags }
}

/// The mark that four bits mean.
fn decode(code: u32) -> Mark
    requires { code < 16 }
    ensures { result ≡ mark_of code }
{
    if code % 4 == FREE {
        Mark::Free
    } else {
        let told = object_mark(code);
        Mark::Taken(told.colour, told.flags)
    }
}

/// The four bits at a place of a word.
fn code_at(word: u32, place: u32) -> u32
    requires { place < 8 }
    ensures value { result ≡ code_in word place }
    ensures small { result < 16 }
{
    word >> (4 * place) & 15
}

/// A word with another mark at one of its places.
fn with_mark(word: u32, place: u32, mark: Mark) -> u32
    requires place { place < 8 }
    requires mark { IsMark mark }
    ensures code { code_in result place ≡ code_of mark }
    ensures given { mark_in result place ≡ mark }
    ensures others { (p : ℕ) → p < 8 → p ≢ place → code_in result p ≡ code_in word p }
{
    let shift = 4 * place;
    word - (code_at(word, place) << shift) + (encode(mark) << shift)
}

/// A word with another colour at one of its places, whose cell is taken.
#[inline]
fn with_colour(word: u32, place: u32, colour: Colour) -> u32
    requires { place < 8 }
    ensures given { (its : Colour) (flags : CellBits) → mark_in word place ≡ Mark.Taken its flags
        → mark_in result place ≡ Mark.Taken colour flags }
    ensures others { (p : ℕ) → p < 8 → p ≢ place → code_in result p ≡ code_in word p }
{
    let shift = 4 * place;
    word - ((word >> shift & 3) << shift) + (colour_code(colour) << shift)
}

/// A word with a gray cell at one of its places, where a white one was.
#[inline]
fn gray_word(word: u32, place: u32) -> u32
    requires place { place < 8 }
    requires white { (flags : CellBits) × (mark_in word place ≡ Mark.Taken Colour.White flags) }
    ensures given { (flags : CellBits) → mark_in word place ≡ Mark.Taken Colour.White flags
        → mark_in result place ≡ Mark.Taken Colour.Gray flags }
    ensures others { (p : ℕ) → p < 8 → p ≢ place → code_in result p ≡ code_in word p }
{
    word + (GRAY << (4 * place))
}

/// The lowest place of a word whose mark says that a cell is free.
fn lowest_free_place(word: u32) -> Option<u32>
    ensures { MatchOption result (NoneFree (mark_in word) 8) (λ p. IsLowestFree (mark_in word) 8 p) }
{
    let free = word & (word >> 1) & LOWEST_BITS;
    if free == 0 {
        None
    } else {
        Some(free.trailing_zeros() / 4)
    }
}

/// The sixteen marks of two words.
#[inline]
fn pair_of(low: u32, high: u32) -> u64
    ensures low { (p : ℕ) → p < 8 → mark_in result p ≡ mark_in low p }
    ensures high { (p : ℕ) → p < 8 → mark_in result (8 + p) ≡ mark_in high p }
{
    low as u64 | (high as u64) << 32
}

/// The lowest place of two words whose mark says that a cell is free.
fn lowest_free_of_pair(pair: u64) -> Option<u32>
    ensures { MatchOption result (NoneFree (mark_in pair) 16) (λ p. IsLowestFree (mark_in pair) 16 p) }
{
    let free = pair & (pair >> 1) & LOWEST_BITS_OF_PAIR;
    if free == 0 {
        None
    } else {
        Some(free.trailing_zeros() / 4)
    }
}

/// The lowest bits of those marks of a word that are sought.
fn sought_mask(word: u32, sought: Sought) -> u32
    ensures { IsMaskOf sought word result }
{
    let next = word >> 1;
    match sought {
        Sought::Taken => !(word & next) & LOWEST_BITS,
        Sought::Of(Colour::White) => !(word | next) & LOWEST_BITS,
        Sought::Of(Colour::Gray) => !word & next & LOWEST_BITS,
        Sought::Of(Colour::Black) => word & !next & LOWEST_BITS,
    }
}

/// The lowest place of a word, from `from` on, whose mark is sought.
fn lowest_sought_place(word: u32, from: u32, sought: Sought) -> Option<u32>
    requires { from < 8 }
    ensures { MatchOption result (NoneSought sought (mark_in word) from 8)
        (λ p. IsLowestSought sought (mark_in word) from 8 p) }
{
    let mask = sought_mask(word, sought) >> (4 * from);
    if mask == 0 {
        None
    } else {
        Some(from + mask.trailing_zeros() / 4)
    }
}

/// Whether one of so many first cells of a word is free.
fn has_free(word: u32, cells: u32) -> bool
    ensures { (result ≡ true)
        ↔ ((place : ℕ) × (place < 8) × (place < cells) × (mark_in word place ≡ Mark.Free)) }
{
    match lowest_free_place(word) {
        Some(place) => place < cells,
        None => false,
    }
}

/// Whether one of so many first cells of a word is taken.
fn has_taken(word: u32, cells: u32) -> bool
    ensures { (result ≡ true)
        ↔ ((place : ℕ) × (place < 8) × (place < cells) × (mark_in word place ≢ Mark.Free)) }
{
    match lowest_sought_place(word, 0, Sought::Taken) {
        Some(place) => place < cells,
        None => false,
    }
}

/// A word whose taken cells are white, with the flags that they had.
fn whitened_word(word: u32) -> u32
    ensures { WhitensWord word result }
{
    let free = word & (word >> 1) & LOWEST_BITS;
    (word & FLAG_BITS) | free | (free << 1)
}

/// The mark of a cell.
pub(crate) fn mark_at(table: &[u32], cell: u32) -> Mark
    requires { cell / 8 < length table.now }
    ensures { result ≡ mark_of_cell table.now cell }
{
    decode(code_at(table[(cell / 8) as usize], cell % 8))
}

/// What the mark of a taken cell tells.
pub(crate) fn object_mark_at(table: &[u32], cell: u32) -> ObjectMark
    requires within { cell / 8 < length table.now }
    requires taken { mark_of_cell table.now cell ≢ Mark.Free }
    ensures { mark_of_cell table.now cell ≡ Mark.Taken result.colour result.flags }
{
    object_mark(code_at(table[(cell / 8) as usize], cell % 8))
}

/// Gives a cell another mark.
pub(crate) fn set_mark(table: &mut [u32], cell: u32, mark: Mark)
    requires within { cell / 8 < length table.old }
    requires mark { IsMark mark }
    ensures code { code_of_cell table.new cell ≡ code_of mark }
    ensures given { mark_of_cell table.new cell ≡ mark }
    ensures others { (c : ℕ) → c ≢ cell → code_of_cell table.new c ≡ code_of_cell table.old c }
{
    let word = &mut table[(cell / 8) as usize];
    *word = with_mark(*word, cell % 8, mark);
}

/// Makes a cell free, and tells of so many first cells whose marks stand in the same word.
pub(crate) fn free_cell(table: &mut [u32], cell: u32, cells: u32) -> Neighbours
    requires { cell / 8 < length table.old }
    ensures code { code_of_cell table.new cell ≡ code_of Mark.Free }
    ensures given { mark_of_cell table.new cell ≡ Mark.Free }
    ensures others { (c : ℕ) → c ≢ cell → code_of_cell table.new c ≡ code_of_cell table.old c }
    ensures had_free { (result.had_free ≡ true) ↔ ((other : ℕ) × (other / 8 ≡ cell / 8) × (other % 8 < cells)
        × (mark_of_cell table.old other ≡ Mark.Free)) }
    ensures has_taken { (result.has_taken ≡ true) ↔ ((other : ℕ) × (other / 8 ≡ cell / 8) × (other % 8 < cells)
        × (mark_of_cell table.new other ≢ Mark.Free)) }
{
    let word = &mut table[(cell / 8) as usize];
    let had_free = has_free(*word, cells);
    let freed = with_mark(*word, cell % 8, Mark::Free);
    *word = freed;
    let has_taken = has_taken(freed, cells);
    Neighbours {
        had_free,
        has_taken,
    }
}

/// Gives a taken cell another colour.
pub(crate) fn set_colour(table: &mut [u32], cell: u32, colour: Colour)
    requires { cell / 8 < length table.old }
    ensures given { (its : Colour) (flags : CellBits) → mark_of_cell table.old cell ≡ Mark.Taken its flags
        → mark_of_cell table.new cell ≡ Mark.Taken colour flags }
    ensures others { (c : ℕ) → c ≢ cell → code_of_cell table.new c ≡ code_of_cell table.old c }
{
    let word = &mut table[(cell / 8) as usize];
    *word = with_colour(*word, cell % 8, colour);
}

/// Makes a white cell gray.
pub(crate) fn make_gray(table: &mut [u32], cell: u32)
    requires within { cell / 8 < length table.old }
    requires white { (flags : CellBits) × (mark_of_cell table.old cell ≡ Mark.Taken Colour.White flags) }
    ensures given { (flags : CellBits) → mark_of_cell table.old cell ≡ Mark.Taken Colour.White flags
        → mark_of_cell table.new cell ≡ Mark.Taken Colour.Gray flags }
    ensures others { (c : ℕ) → c ≢ cell → code_of_cell table.new c ≡ code_of_cell table.old c }
{
    let word = &mut table[(cell / 8) as usize];
    *word = gray_word(*word, cell % 8);
}

/// The lowest free one of the first cells of a page, whose marks begin at that word. Those below `from` are taken.
pub(crate) fn lowest_free(table: &[u32], first_word: u32, from: u32, cells: u32) -> Option<u32>
    requires cells { cells ≤ 256 }
    requires within { first_word + 32 ≤ length table.now }
    requires passed { NoneFree (page_marks table.now first_word) from }
    ensures { let marks = page_marks table.now first_word in
        MatchOption result (NoneFree marks cells) (λ c. IsLowestFree marks cells c) }
{
    // Two words a turn are read by one instruction.
    for pair in from / 16..cells.div_ceil(16) {
        let word = first_word as usize + 2 * pair as usize;
        if let Some(place) = lowest_free_of_pair(pair_of(table[word], table[word + 1])) {
            let cell = 16 * pair + place;
            return if cell < cells { Some(cell) } else { None };
        }
    }
    None
}

/// The lowest one of the cells of a page from `from` to before `cells` whose mark is sought.
pub(crate) fn lowest_sought(
    table: &[u32],
    first_word: u32,
    from: u32,
    cells: u32,
    sought: Sought,
) -> Option<u32>
    requires cells { cells ≤ 256 }
    requires within { 8 * first_word + cells ≤ 8 * length table.now }
    ensures { let marks = page_marks table.now first_word in
        MatchOption result (NoneSought sought marks from cells) (λ cell. IsLowestSought sought marks from cells cell) }
{
    for word in from / 8..cells.div_ceil(8) {
        let skipped = from.saturating_sub(8 * word);
        if let Some(place) = lowest_sought_place(
            table[first_word as usize + word as usize],
            skipped,
            sought,
        ) {
            let cell = 8 * word + place;
            return if cell < cells { Some(cell) } else { None };
        }
    }
    None
}

/// Makes all 256 cells of a page free.
pub(crate) fn fill_free(table: &mut [u32], first_word: u32)
    requires { first_word + 32 ≤ length table.old }
    ensures page { (c : ℕ) → c < 256 → code_of_cell table.new (8 * first_word + c) ≡ code_of Mark.Free }
    ensures others { (c : ℕ) → (c < 8 * first_word) ⊎ (8 * first_word + 256 ≤ c) →
        code_of_cell table.new c ≡ code_of_cell table.old c }
{
    let first = first_word as usize;
    for word in first..first + 32 {
        table[word] = ALL_FREE;
    }
}

/// Makes the taken ones of the first cells of a page white, whose marks stand in so many words.
pub(crate) fn whiten(table: &mut [u32], first_word: u32, words: u32)
    requires { first_word + words ≤ length table.old }
    ensures white { (c : ℕ) → c < 8 * words →
        page_marks table.new first_word c ≡ whitened_mark (page_marks table.old first_word c) }
    ensures plain { (c : ℕ) → c < 8 * words → IsPlain (code_of_cell table.old (8 * first_word + c))
        → IsPlain (code_of_cell table.new (8 * first_word + c)) }
    ensures others { (c : ℕ) → (c < 8 * first_word) ⊎ (8 * first_word + 8 * words ≤ c) →
        code_of_cell table.new c ≡ code_of_cell table.old c }
{
    let first = first_word as usize;
    for word in first..first + words as usize {
        table[word] = whitened_word(table[word]);
    }
}
