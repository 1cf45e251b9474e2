// The end of the region moves.
ghost use Rattle.std.specs.Prelude.{◌≡◌, ◌+◌, ◌*◌, ◌≤◌};
ghost use Rattle.mm_object.specs.Heap.{resized, EndsBy, IsAtEnd, IsSound, IsResized};

use crate::heap::{Heap, PAGE_WORDS};
use mm_words::Arena;

impl Heap {
    /// Gives the memory so many pages. The words of pages that come may hold anything.
    pub fn resize(&mut self, arena: &mut Arena, pages: u32)
        requires last { IsAtEnd self.old arena.old }
        requires two { 2 ≤ pages }
        requires most { pages ≤ self.old.pages }
        requires room { 1024 * pages ≤ 1024 * self.old.size + arena.old.spare }
        requires clear { EndsBy self.old pages }
        ensures heap { IsResized self.old self.new pages }
        ensures last { IsAtEnd self.new arena.new }
        ensures arena { arena.new ≡ resized arena.old (1024 * self.old.size) (1024 * pages) }
        ensures sound { IsSound self.new }
    {
        let now = self.memory.len();
        let wanted = PAGE_WORDS * pages;
        if now < wanted {
            arena.lengthen(&mut self.memory, wanted - now);
        } else {
            arena.shorten(&mut self.memory, now - wanted);
        }
    }
}
