// The objects of a region, and what is told of each.
ghost use Rattle.std.specs.Prelude.{◌≡◌, ◌*◌, ◌/◌, ◌+◌, ◌≤◌, ◌<◌, length, drop, MatchOption, Some};
ghost use Rattle.mm_model.specs.Views.ByBase.{Begins};
ghost use Rattle.mm_model.specs.Places.SizeClass.{object_bytes};
ghost use Rattle.mm_words.specs.Location.{location_of};
ghost use Rattle.mm_cells.specs.Cells.{HasNoCell, IsSoundCells};
ghost use Rattle.mm_cells.specs.Marks.{IsFlags};
ghost use Rattle.mm_object.specs.Object.{StoredObject, shape_of, has_finalizer, has_weak_object};
ghost use Rattle.mm_object.specs.Heap.{fresh, cells_in, with_object, IsObject, Covers, FallsInNone, IsSound};
ghost use Rattle.mm_object.specs.Kept.{shape_told};

use crate::header::Header;
use mm_cells::{CellBits, Cells};
use mm_model::{Colour, Shape};
use mm_steps::Steps;
use mm_words::Words;
use std::marker::Model;
use std::sync::ledger::Ledger;

/// The bytes of a word.
pub(crate) const WORD_BYTES: u32 = 4;

/// The words of a header, which comes before the slots.
pub(crate) const HEADER_WORDS: u32 = 4;

/// The words of a page.
pub(crate) const PAGE_WORDS: u32 = 1024;

/// The third word of a header is the link, the fourth the composite word.
const LINK: u32 = 2;

const COMPOSITE: u32 = 3;

/// The objects of a region: each lies in a cell, with a header of four words and then its slots.
///
/// It stands on words of an arena and on cells. They come back by `close`, and the heap can't be dropped.
pub struct Heap {
    pub(crate) memory: Words,
    pub(crate) cells: Cells,
}

impl Model for Heap {
    ghost use Rattle.mm_object.specs.Heap;
    ghost use Rattle.mm_object.specs.Kept.{heap_of, KeepsHeap};

    ghost Value = { Heap.Heap };

    ghost view = { λ h. heap_of h.memory h.cells };

    ghost invariant = { λ h. KeepsHeap h.memory h.cells };
}

/// An object in which a word falls.
#[derive(Clone, Copy, Debug, PartialEq, Eq)]
pub struct Found {
    pub base: u32,
    pub shape: Shape,
}

/// The bytes of an object with so many slots.
pub(crate) fn object_bytes(slots: u32) -> u32
    requires { slots ≤ 1048575 }
    ensures { result ≡ object_bytes slots }
{
    WORD_BYTES * (HEADER_WORDS + slots)
}

/// The shape of the object in the cell that begins at a base.
#[inline(always)]
pub(crate) fn shape_at(memory: &Words, base: u32) -> Shape
    requires { base / 4 + 1 < length memory.now.words }
    ensures { result ≡ shape_told (drop (base / 4) memory.now.words) }
{
    let at = base / WORD_BYTES;
    let header = Header {
        first: memory.get(at),
        second: memory.get(at + 1),
    };
    header.shape()
}

impl Heap {
    /// A heap without objects. Its memory may hold anything.
    pub fn make(memory: Words, cells: Cells) -> Heap
        requires sound { IsSoundCells cells }
        requires empty { HasNoCell cells }
        requires whole { length memory.words ≡ 1024 * (length memory.words / 1024) }
        requires two { 2 ≤ length memory.words / 1024 }
        requires most { length memory.words / 1024 ≤ cells.pages }
        ensures value { result ≡ fresh memory cells }
        ensures sound { IsSound result }
    {
        Heap { memory, cells }
    }

    /// Gives back what it stands on: the memory, which may hold anything, and the cells as they are.
    pub fn close(self) -> (Words, Cells)
        ensures memory { location_of result.0 ≡ self.memory }
        ensures cells { result.1 ≡ cells_in self }
    {
        let Heap { memory, cells } = self;
        (memory, cells)
    }

    /// Its cells, to read what is told of each.
    pub fn cells(&self) -> &Cells
        ensures cells { result.now ≡ cells_in self.now }
        ensures sound { IsSound self.now }
    {
        &self.cells
    }

    /// How many pages its memory has.
    pub fn size(&self) -> u32
        ensures value { result ≡ self.now.size }
        ensures sound { IsSound self.now }
    {
        self.memory.len() / PAGE_WORDS
    }

    /// The base of the object in which a word falls.
    #[inline(always)]
    pub fn find<L: Ledger>(&self, word: u32, steps: &mut Steps<L>) -> Option<u32>
        ensures base { MatchOption result (FallsInNone self.now word)
            (λ base. (object : StoredObject) × Covers self.now word base object) }
        ensures sound { IsSound self.now }
        ensures cost { steps.new ≡ steps.old + 1 }
    {
        match self.cells.resolve(word, steps) {
            Some(cell) => Some(cell.base),
            None => None,
        }
    }

    /// The object in which a word falls, with its shape.
    #[inline(always)]
    pub fn look_up<L: Ledger>(&self, word: u32, steps: &mut Steps<L>) -> Option<Found>
        ensures found { MatchOption result (FallsInNone self.now word)
            (λ found. (object : StoredObject)
            × Covers self.now word found.base object × (found.shape ≡ shape_of object)) }
        ensures sound { IsSound self.now }
        ensures cost { steps.new ≡ steps.old + 1 }
    {
        match self.cells.resolve(word, steps) {
            Some(cell) => Some(Found {
                base: cell.base,
                shape: shape_at(&self.memory, cell.base),
            }),
            None => None,
        }
    }

    pub fn shape<L: Ledger>(&self, base: u32, steps: &mut Steps<L>) -> Shape
        requires { IsObject self.now base }
        ensures shape { (object : StoredObject) → Begins self.now.objects base object → result ≡ shape_of object }
        ensures sound { IsSound self.now }
        ensures cost { steps.new ≡ steps.old + 1 }
    {
        steps.tick();
        shape_at(&self.memory, base)
    }

    /// The bytes of its cell or of its pages.
    pub fn extent<L: Ledger>(&self, base: u32, steps: &mut Steps<L>) -> u32
        requires { IsObject self.now base }
        ensures extent { (object : StoredObject) → Begins self.now.objects base object → result ≡ object.extent }
        ensures sound { IsSound self.now }
        ensures cost { steps.new ≡ steps.old + 1 }
    {
        steps.tick();
        self.cells.extent(base)
    }

    /// The word in which counting keeps its count and its place in the zero-count table.
    pub fn composite<L: Ledger>(&self, base: u32, steps: &mut Steps<L>) -> u32
        requires { IsObject self.now base }
        ensures word { (object : StoredObject) → Begins self.now.objects base object → result ≡ object.composite }
        ensures sound { IsSound self.now }
        ensures cost { steps.new ≡ steps.old + 1 }
    {
        steps.tick();
        self.memory.get(base / WORD_BYTES + COMPOSITE)
    }

    pub fn set_composite<L: Ledger>(&mut self, base: u32, w: u32, steps: &mut Steps<L>)
        requires { IsObject self.old base }
        ensures word { (object : StoredObject) → Begins self.old.objects base object
            → self.new ≡ with_object self.old base (Some (record object { composite = w })) }
        ensures sound { IsSound self.new }
        ensures cost { steps.new ≡ steps.old + 1 }
    {
        steps.tick();
        self.memory.set(base / WORD_BYTES + COMPOSITE, w);
    }

    /// Of a target the base of its weak object, of a weak object that of its target, or 0.
    pub fn link<L: Ledger>(&self, base: u32, steps: &mut Steps<L>) -> u32
        requires { IsObject self.now base }
        ensures word { (object : StoredObject) → Begins self.now.objects base object → result ≡ object.link }
        ensures sound { IsSound self.now }
        ensures cost { steps.new ≡ steps.old + 1 }
    {
        steps.tick();
        self.memory.get(base / WORD_BYTES + LINK)
    }

    pub fn set_link<L: Ledger>(&mut self, base: u32, w: u32, steps: &mut Steps<L>)
        requires { IsObject self.old base }
        ensures word { (object : StoredObject) → Begins self.old.objects base object
            → self.new ≡ with_object self.old base (Some (record object { link = w })) }
        ensures sound { IsSound self.new }
        ensures cost { steps.new ≡ steps.old + 1 }
    {
        steps.tick();
        self.memory.set(base / WORD_BYTES + LINK, w);
    }

    /// Its colour can be read from `cells`.
    pub fn set_colour<L: Ledger>(&mut self, base: u32, colour: Colour, steps: &mut Steps<L>)
        requires { IsObject self.old base }
        ensures colour { (object : StoredObject) → Begins self.old.objects base object
            → self.new ≡ with_object self.old base (Some (record object { colour = colour })) }
        ensures sound { IsSound self.new }
        ensures cost { steps.new ≡ steps.old + 1 }
    {
        self.cells.set_colour(base, colour, steps);
    }

    /// Notes whether the object has a live weak object. Whether it has a finalizer doesn't change.
    pub fn set_flags<L: Ledger>(&mut self, base: u32, flags: CellBits, steps: &mut Steps<L>)
        requires object { IsObject self.old base }
        requires known { IsFlags flags }
        requires finalize { (object : StoredObject) → Begins self.old.objects base object
            → has_finalizer flags ≡ object.finalize }
        ensures flags { (object : StoredObject) → Begins self.old.objects base object
            → self.new ≡ with_object self.old base (Some (record object { has_weak = has_weak_object flags })) }
        ensures sound { IsSound self.new }
        ensures cost { steps.new ≡ steps.old + 1 }
    {
        self.cells.set_flags(base, flags, steps);
    }
}
