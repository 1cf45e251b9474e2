// The live objects by base.
ghost use Rattle.std.specs.Prelude.{◌≡◌, ℕ, ◌+◌, ◌*◌, ◌/◌, ◌<◌, ◌≤◌, true, length, replicate, slice_get, Some, None};
ghost use Rattle.std.specs.Prelude.{◌%◌, ◌^◌, ◌↔◌, IfOk, IfSome, MatchOption, slice_set};
ghost use Rattle.std.specs.Option.{option_map};
ghost use Rattle.mm_model.specs.Words.{falls};
ghost use Rattle.mm_model.specs.Views.ByBase.{Begins, with_entry};
ghost use Rattle.mm_model.specs.Views.ObjectView.{ObjectView};
ghost use Rattle.mm_model.specs.Views.ViewWords.{object_at, resolved_in};
ghost use Rattle.mm_audit.specs.Counts.{with_word};
ghost use Rattle.mm_audit.specs.Objects.{header_of, found_of, object_with, newborn_of, IsObject, HasSlot, IsRoomFor};
ghost use Rattle.mm_audit.specs.Objects.{HasHeader, IsFilled, IsLike, IsNextObject, NoObjectFrom};
ghost use Rattle.mm_audit.specs.Objects.{is_gray_header, grays_among, grays_in, NoneIsGray};

use crate::NoMemory;
use crate::header::{Found, Header};
use crate::numbers::Numbers;
use mm_model::{Colour, Shape};
use std::alloc::Global;
use std::marker::Model;

// Objects begin at its multiples.
const GRAIN: u32 = 16;

// How many grains a page has.
const PAGE_GRAINS: u32 = 256;

const WORD_BYTES: u32 = 4;

// How many words a grain has.
const GRAIN_WORDS: u32 = 4;

// How many words of an object stand before its slots.
const HEADER_WORDS: u32 = 4;

/// The live objects of a region, by base.
///
/// No call but `make` takes memory. To bear an object takes some steps for each 16 bytes of it. `next` looks at one
/// word for each 64 KiB that it passes over, and `whiten` at each object. Any other call takes the same time however
/// many objects and pages there are, `shade_all` for each word.
#[derive(Drop)]
pub struct Objects {
    // By grain.
    entries: Vec<Option<Header>>,
    // Where the object begins that has a grain, by grain.
    begins: Vec<u32>,
    // The grains at which an object begins.
    taken: Numbers,
    // How many objects are gray.
    grays: u32,
    // The words of the region: slot s of the object at a base is word `base / 4 + 4 + s`.
    words: Vec<u32>,
}

impl Model for Objects {
    ghost use Rattle.mm_model.specs.Views.ObjectView.{ObjectsByBase};
    ghost use Rattle.mm_audit.specs.Objects.{shown, KeepsMarked};

    ghost Value = { ObjectsByBase };

    ghost view = { λ s. shown s.words.items s.entries.items };

    ghost invariant = { λ s. KeepsMarked s.entries.items s.begins.items s.words.items s.taken s.grays };
}

// The header of an object.
fn header_in(entries: &[Option<Header>], base: u32) -> Header
    requires { HasHeader entries.now (base / 16) }
    ensures { slice_get entries.now (base / 16) ≡ Some (Some result) }
{
    match entries[(base / GRAIN) as usize] {
        None => unreachable!(),
        Some(header) => header,
    }
}

fn is_gray(entry: Option<Header>) -> bool
    ensures { result ≡ is_gray_header entry }
{
    match entry {
        None => false,
        Some(header) => match header.colour {
            Colour::Gray => true,
            Colour::White | Colour::Black => false,
        },
    }
}

// Another entry for a grain. Answers how many gray objects there are then.
fn enter(entries: &mut Vec<Option<Header>>, grays: u32, grain: u32, entry: Option<Header>) -> u32
    requires inside { grain < length entries.old.items }
    requires few { length entries.old.items ≤ 2 ^ 20 }
    requires right { grays ≡ grays_among entries.old.items }
    ensures entry { entries.new.items ≡ slice_set entries.old.items grain entry }
    ensures grays { result ≡ grays_among entries.new.items }
{
    let before = entries[grain as usize];
    entries[grain as usize] = entry;
    let mut count = grays;
    if is_gray(before) {
        count -= 1;
    }
    if is_gray(entry) {
        count += 1;
    }
    count
}

// One number at each of so many places from the first on.
fn fill(row: &mut Vec<u32>, first: u32, count: u32, number: u32)
    requires { first + count ≤ length row.old.items }
    ensures { IsFilled row.old.items row.new.items first count number }
{
    let first = first as usize;
    row.slice_mut(first..first + count as usize).fill(number);
}

impl Objects {
    /// No objects, in a region of so many pages of 4,096 bytes.
    pub fn make(alloc: Global, pages: u32) -> Result<Objects, NoMemory>
        requires most { pages ≤ 4096 }
        ensures { IfOk result (λ made. made ≡ replicate (256 * pages) None) }
    {
        let grains = (PAGE_GRAINS * pages) as usize;
        let entries = vec![in alloc; None; grains]?;
        let begins = vec![in alloc; 0; grains]?;
        let taken = Numbers::make(alloc, PAGE_GRAINS * pages)?;
        let words = vec![in alloc; 0; 4 * grains]?;
        Ok(Objects {
            entries,
            begins,
            taken,
            grays: 0,
            words,
        })
    }

    /// How many objects are gray.
    pub fn grays(&self) -> u32
        ensures number { result ≡ grays_in self.now }
        ensures none { (result ≡ 0) ↔ NoneIsGray self.now }
    {
        self.grays
    }

    /// The object that begins at a base, if one does.
    pub fn get(&self, base: u32) -> Option<Header>
        ensures { result ≡ option_map (λ o. header_of o.value) (object_at self.now base) }
    {
        let grain = (base / GRAIN) as usize;
        if base % GRAIN != 0 || self.entries.len() <= grain {
            return None;
        }
        self.entries[grain]
    }

    /// The object in which a word falls, if it falls in one.
    pub fn find(&self, word: u32) -> Option<Found>
        ensures found { result ≡ option_map found_of (resolved_in self.now word) }
        ensures alone { (base : ℕ) (object : ObjectView) → Begins self.now base object
            → falls word base object.extent ≡ true
            → resolved_in self.now word ≡ Some (record { base = base; value = object }) }
    {
        let inner = (word / GRAIN) as usize;
        if self.begins.len() <= inner {
            return None;
        }
        let grain = self.begins[inner];
        let header = self.entries[grain as usize]?;
        let base = GRAIN * grain;
        if word - base < header.extent {
            Some(Found { base, header })
        } else {
            None
        }
    }

    /// The base of the lowest object that begins at an address or behind it.
    pub fn next(&self, from: u32) -> Option<u32>
        requires aligned { from % 16 ≡ 0 }
        ensures next { MatchOption result (NoObjectFrom self.now from) (IsNextObject self.now from) }
        ensures small { IfSome result (λ base. base + 16 ≤ 2 ^ 24) }
    {
        let grain = from / GRAIN;
        if self.entries.len() <= grain as usize {
            return None;
        }
        match self.taken.next(grain) {
            None => None,
            Some(next) => Some(GRAIN * next),
        }
    }

    /// The word of a slot.
    pub fn slot(&self, base: u32, slot: u32) -> u32
        requires slot { HasSlot self.now base slot }
        ensures { (object : ObjectView) → Begins self.now base object → slice_get object.words slot ≡ Some result }
    {
        self.words[(base / WORD_BYTES + HEADER_WORDS + slot) as usize]
    }

    /// The words of all slots of an object.
    pub fn slots(&self, base: u32) -> &[u32]
        requires object { IsObject self.now base }
        ensures { (object : ObjectView) → Begins self.now base object → result.now ≡ object.words }
    {
        let header = header_in(&self.entries, base);
        let first = (base / WORD_BYTES + HEADER_WORDS) as usize;
        &self.words[first..first + header.slots as usize]
    }

    /// An object is born at a base: it takes so many bytes, and each of its slots is 0.
    pub fn bear(&mut self, base: u32, extent: u32, shape: Shape, colour: Colour)
        requires room { IsRoomFor self.old base extent shape.slots }
        ensures born { self.new ≡ with_entry base (Some (newborn_of extent shape colour)) self.old }
        ensures size { length self.new ≡ length self.old }
    {
        let grain = base / GRAIN;
        fill(&mut self.begins, grain, extent / GRAIN, grain);
        fill(
            &mut self.words,
            GRAIN_WORDS * grain + HEADER_WORDS,
            shape.slots,
            0,
        );
        let header = Header::newborn(extent, shape, colour);
        self.grays = enter(&mut self.entries, self.grays, grain, Some(header));
        self.taken.insert(grain);
    }

    /// The object at a base was freed.
    pub fn free(&mut self, base: u32)
        requires inside { base < 16 * length self.old }
        ensures freed { self.new ≡ with_entry base None self.old }
        ensures size { length self.new ≡ length self.old }
    {
        self.grays = enter(&mut self.entries, self.grays, base / GRAIN, None);
        self.taken.remove(base / GRAIN);
    }

    /// Another word in a slot.
    pub fn put(&mut self, base: u32, slot: u32, word: u32)
        requires slot { HasSlot self.old base slot }
        ensures written { (object : ObjectView) → Begins self.old base object
            → self.new ≡ with_entry base (Some (with_word slot word object)) self.old }
        ensures size { length self.new ≡ length self.old }
    {
        self.words[(base / WORD_BYTES + HEADER_WORDS + slot) as usize] = word;
    }

    // Another header for an object, with as many bytes and slots.
    fn rewrite(&mut self, base: u32, header: Header)
        requires alike { IsLike self.old base header }
        ensures rewritten { (object : ObjectView) → Begins self.old base object
            → self.new ≡ with_entry base (Some (object_with object.words header)) self.old }
        ensures size { length self.new ≡ length self.old }
    {
        self.grays = enter(&mut self.entries, self.grays, base / GRAIN, Some(header));
    }

    // The header of an object.
    fn header(&self, base: u32) -> Header
        requires object { IsObject self.now base }
        ensures { (object : ObjectView) → Begins self.now base object → result ≡ header_of object }
    {
        header_in(&self.entries, base)
    }

    /// Another colour for an object.
    pub fn colour(&mut self, base: u32, colour: Colour)
        requires object { IsObject self.old base }
        ensures coloured { (object : ObjectView) → Begins self.old base object
            → self.new ≡ with_entry base (Some (record object { colour = colour })) self.old }
        ensures size { length self.new ≡ length self.old }
    {
        let header = self.header(base);
        self.rewrite(base, Header { colour, ..header });
    }

    /// 255 counted places hold an object's base.
    pub fn stick(&mut self, base: u32)
        requires object { IsObject self.old base }
        ensures sticky { (object : ObjectView) → Begins self.old base object
            → self.new ≡ with_entry base (Some (record object { sticky = true })) self.old }
        ensures size { length self.new ≡ length self.old }
    {
        let header = self.header(base);
        self.rewrite(
            base,
            Header {
                sticky: true,
                ..header
            },
        );
    }

    /// Another partner for an object, or none.
    pub fn pair(&mut self, base: u32, partner: Option<u32>)
        requires object { IsObject self.old base }
        ensures paired { (object : ObjectView) → Begins self.old base object
            → self.new ≡ with_entry base (Some (record object { partner = partner })) self.old }
        ensures size { length self.new ≡ length self.old }
    {
        let header = self.header(base);
        self.rewrite(base, Header { partner, ..header });
    }
}
