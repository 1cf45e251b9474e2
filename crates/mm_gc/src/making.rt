// Commands that make objects and areas.
ghost use Rattle.std.specs.Prelude.{◌≡◌, ◌==◌, ◌<◌, ◌-◌, ◌^◌, false, length};
ghost use Rattle.mm_model.specs.declared.command.Command.TheVariants as commands;
ghost use Rattle.mm_model.specs.Refusing.{is_bad_shape, is_bad_area};
ghost use Rattle.mm_gc.specs.Replies.{new_reply, weak_reply, area_reply};
ghost use Rattle.mm_gc.specs.Making.{area_command};
ghost use Rattle.mm_gc.specs.Rows.{Tells};

use crate::gc::Gc;
use crate::wanted::{AreaWanted, Made, Wanted};
use mm_model::{AreaAnswer, Kind, Refusal, Shape, WeakAnswer};
use mm_roots::MOST_AREAS;
use mm_steps::Steps;
use mm_sweep::Journal;
use std::sync::ledger::Ledger;

/// An object has at most so many slots, and an area so many cells.
const MOST_SLOTS: u32 = 1_048_575;

/// Whether no object that `new` makes has this shape.
fn is_bad_shape(shape: Shape) -> bool
    ensures { result ≡ is_bad_shape shape }
{
    shape.slots < shape.counted
        || MOST_SLOTS < shape.slots
        || shape.kind == Kind::Leaf && 0 < shape.counted
        || shape.kind == Kind::Weak
}

/// Whether no area has so many counted cells among so many.
fn is_bad_area(counted: u32, cells: u32) -> bool
    ensures { result ≡ is_bad_area counted cells }
{
    cells < counted || MOST_SLOTS < cells || cells == 0
}

impl Gc {
    /// Makes an object and pushes its base.
    pub fn create<J: Journal, L: Ledger>(
        &mut self,
        shape: Shape,
        journal: &mut J,
        steps: &mut Steps<L>,
    ) -> Result<u32, Refusal>
        requires births { self.old.born < 2 ^ 64 - 1 }
        ensures row { Tells self.old self.new (commands.New shape) (new_reply result)
            (J.tells journal.old journal.new) }
    {
        if is_bad_shape(shape) {
            return Err(Refusal::Shape);
        }
        if self.is_stack_full() {
            return Err(Refusal::StackFull);
        }
        match self.search(Wanted::Object(shape), journal, steps) {
            Some(Made::Object(base)) => Ok(base),
            Some(Made::Area(_)) => unreachable!(),
            None => Err(Refusal::Full),
        }
    }

    /// Whether the stack has as many cells as it may have.
    fn is_stack_full(&self) -> bool
        ensures { result ≡ (length self.now.stack.words == self.now.settings.stack) }
    {
        self.stack.depth() == self.settings.stack
    }

    /// Pushes the weak object of the object that a cell means, which is made where there is none.
    pub fn weak<J: Journal, L: Ledger>(
        &mut self,
        i: u32,
        journal: &mut J,
        steps: &mut Steps<L>,
    ) -> Result<WeakAnswer, Refusal>
        requires births { self.old.born < 2 ^ 64 - 1 }
        ensures row { Tells self.old self.new (commands.Weak i) (weak_reply result)
            (J.tells journal.old journal.new) }
    {
        let target = self.meant(i, steps)?.found;
        if target.shape.kind.is_weak() {
            return Err(Refusal::NoWeak);
        }
        if self.is_stack_full() {
            return Err(Refusal::StackFull);
        }
        let weak = self.region.heap.link(target.base, steps);
        if weak != 0 {
            let base = self.push_word(weak)?;
            return Ok(WeakAnswer::Kept(base));
        }
        match self.search(Wanted::WeakOf(target.base), journal, steps) {
            Some(Made::Object(base)) => Ok(WeakAnswer::Made(base)),
            Some(Made::Area(_)) => unreachable!(),
            None => Err(Refusal::Full),
        }
    }

    /// Makes an area whose cells are roots.
    pub fn root<J: Journal, L: Ledger>(
        &mut self,
        counted: u32,
        cells: u32,
        journal: &mut J,
        steps: &mut Steps<L>,
    ) -> Result<AreaAnswer, Refusal>
        ensures row { Tells self.old self.new (commands.Root counted cells) (area_reply result)
            (J.tells journal.old journal.new) }
    {
        let area = AreaWanted {
            scanned: true,
            counted,
            cells,
        };
        self.make_area(area, journal, steps)
    }

    /// Makes an area that marking doesn't look at.
    pub fn fixed<J: Journal, L: Ledger>(
        &mut self,
        cells: u32,
        journal: &mut J,
        steps: &mut Steps<L>,
    ) -> Result<AreaAnswer, Refusal>
        ensures row { Tells self.old self.new (commands.Fixed cells) (area_reply result)
            (J.tells journal.old journal.new) }
    {
        let area = AreaWanted {
            scanned: false,
            counted: 0,
            cells,
        };
        self.make_area(area, journal, steps)
    }

    /// Makes an area, if its shape is allowed and a number is free.
    fn make_area<J: Journal, L: Ledger>(
        &mut self,
        area: AreaWanted,
        journal: &mut J,
        steps: &mut Steps<L>,
    ) -> Result<AreaAnswer, Refusal>
        requires raw { area.scanned ≡ false → area.counted ≡ 0 }
        ensures row { Tells self.old self.new (area_command area) (area_reply result)
            (J.tells journal.old journal.new) }
    {
        if is_bad_area(area.counted, area.cells) {
            return Err(Refusal::Shape);
        }
        if self.region.areas.live() == MOST_AREAS {
            return Err(Refusal::AreasFull);
        }
        match self.search(Wanted::Area(area), journal, steps) {
            Some(Made::Area(answer)) => Ok(answer),
            Some(Made::Object(_)) => unreachable!(),
            None => Err(Refusal::Full),
        }
    }
}
