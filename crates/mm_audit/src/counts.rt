// The counts of references by base, with the number of zero-count objects.
ghost use Rattle.std.specs.Prelude.{◌≡◌, ℕ, ◌*◌, ◌/◌, ◌%◌, ◌<◌, ◌≤◌, replicate, slice_get, Some, None, IfOk};
ghost use Rattle.std.specs.Prelude.{length};
ghost use Rattle.mm_model.specs.Views.ByBase.{Begins, with_entry};
ghost use Rattle.mm_audit.specs.declared.count.Count.{Count as Counted};
ghost use Rattle.mm_audit.specs.declared.count.Count.TheVariants as counts;
ghost use Rattle.mm_audit.specs.Counts.{one_more, one_less, zeros_in, is_zero_entry, moved, IsGrain};

use crate::NoMemory;
use crate::count::Count;
use std::alloc::Global;
use std::marker::Model;

// Objects begin at its multiples.
const GRAIN: u32 = 16;

// How many grains a page has.
const PAGE_GRAINS: u32 = 256;

/// The counts of the counted objects of a region, by base.
///
/// No call but `make` takes memory, and each takes the same time however many objects there are.
#[derive(Drop)]
pub struct Counts {
    // By grain.
    entries: Vec<Option<Count>>,
    // How many of them are zero.
    zeros: u32,
}

impl Model for Counts {
    ghost use Rattle.std.specs.Prelude.{List, Option};
    ghost use Rattle.mm_audit.specs.declared.count.Count.{Count as Entry};
    ghost use Rattle.mm_audit.specs.Counts.{KeepsZeros};

    ghost Value = { List (Option Entry) };

    ghost view = { λ s. s.entries.items };

    ghost invariant = { λ s. KeepsZeros s.entries.items s.zeros };
}

impl Counts {
    /// Nothing is counted, in a region of so many pages of 4,096 bytes.
    pub fn make(alloc: Global, pages: u32) -> Result<Counts, NoMemory>
        requires most { pages ≤ 4096 }
        ensures { IfOk result (λ made. made ≡ replicate (256 * pages) None) }
    {
        let entries = vec![in alloc; None; (PAGE_GRAINS * pages) as usize]?;
        Ok(Counts { entries, zeros: 0 })
    }

    /// How many zero-count objects there are.
    pub fn zeros(&self) -> u32
        ensures { result ≡ zeros_in self.now }
    {
        self.zeros
    }

    /// The count of the object at a base, if a counted one begins there.
    pub fn get(&self, base: u32) -> Option<Count>
        requires inside { base < 16 * length self.now }
        ensures { slice_get self.now (base / 16) ≡ Some result }
    {
        self.entries[(base / GRAIN) as usize]
    }

    /// A counted object was born at a base: no place holds it.
    pub fn born(&mut self, base: u32)
        requires inside { base < 16 * length self.old }
        ensures entry { self.new ≡ with_entry base (Some (counts.Exact 0)) self.old }
        ensures room { length self.new ≡ length self.old }
    {
        self.replace(base, Some(Count::Exact(0)));
    }

    /// The object at a base was freed.
    pub fn freed(&mut self, base: u32)
        requires inside { base < 16 * length self.old }
        ensures entry { self.new ≡ with_entry base None self.old }
        ensures room { length self.new ≡ length self.old }
    {
        self.replace(base, None);
    }

    /// One more counted place holds a base. Where no counted object begins there, nothing is counted.
    pub fn raise(&mut self, base: u32)
        requires aligned { base % 16 ≡ 0 }
        requires inside { base < 16 * length self.old }
        ensures counted { (count : Counted) → Begins self.old base count
            → self.new ≡ with_entry base (Some (one_more count)) self.old }
        ensures other { slice_get self.old (base / 16) ≡ Some None → self.new ≡ self.old }
        ensures room { length self.new ≡ length self.old }
    {
        match self.get(base) {
            None => {}
            Some(count) => self.replace(base, Some(count.one_more())),
        }
    }

    /// One counted place less holds a base. Where no counted object begins there, nothing is counted.
    pub fn lower(&mut self, base: u32)
        requires aligned { base % 16 ≡ 0 }
        requires inside { base < 16 * length self.old }
        requires held { Begins self.old base (counts.Exact 0) → ⊥ }
        ensures counted { (count : Counted) → Begins self.old base count
            → self.new ≡ with_entry base (Some (one_less count)) self.old }
        ensures other { slice_get self.old (base / 16) ≡ Some None → self.new ≡ self.old }
        ensures room { length self.new ≡ length self.old }
    {
        match self.get(base) {
            None => {}
            Some(count) => self.replace(base, Some(count.one_less())),
        }
    }

    /// A counted place holds another word than it did. Both are multiples of 16, as 0 and each base.
    pub fn exchange(&mut self, old: u32, new: u32)
        requires old { IsGrain self.old old }
        requires new { IsGrain self.old new }
        requires held { Begins self.old old (counts.Exact 0) → ⊥ }
        ensures moved { self.new ≡ moved old new self.old }
        ensures room { length self.new ≡ length self.old }
    {
        self.lower(old);
        self.raise(new);
    }

    // Another entry for a base.
    fn replace(&mut self, base: u32, entry: Option<Count>)
        requires inside { base < 16 * length self.old }
        ensures entry { self.new ≡ with_entry base entry self.old }
        ensures room { length self.new ≡ length self.old }
    {
        let grain = (base / GRAIN) as usize;
        let before = self.entries[grain];
        self.entries[grain] = entry;
        if is_zero_entry(before) {
            self.zeros -= 1;
        }
        if is_zero_entry(entry) {
            self.zeros += 1;
        }
    }
}

fn is_zero_entry(entry: Option<Count>) -> bool
    ensures { result ≡ is_zero_entry entry }
{
    match entry {
        None => false,
        Some(count) => count.is_zero(),
    }
}
