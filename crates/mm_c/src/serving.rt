// Commands on the heap behind a handle.
ghost use Rattle.std.specs.Prelude.{◌≡◌, ◌<◌, ◌-◌, ◌^◌, ◌==◌, ◌&&◌, true};
ghost use Rattle.mm_c.specs.Calls.{bears, Carries, IsCall, Serves};

use crate::answer::MmAnswer;
use crate::handle::MmHeap;
use crate::owned::Owned;
use crate::status::Status;
use mm_model::Command;
use mm_steps::Steps;
use std::alloc::Global;
use std::marker::Brand;
use std::sync::ledger::{Blank, Ledger};

/// Whether an object may be born by the command.
#[inline(always)]
fn bears(command: Command) -> bool
    ensures { result ≡ bears command }
{
    match command {
        Command::New(_) | Command::Weak(_) => true,
        Command::Push(_)
        | Command::Dup(_)
        | Command::Pop(_)
        | Command::Inner(_, _)
        | Command::Get(_, _)
        | Command::Put(_, _, _)
        | Command::Look(_)
        | Command::Root(_, _)
        | Command::Fixed(_)
        | Command::DropArea(_)
        | Command::AreaGet(_, _)
        | Command::AreaPut(_, _, _)
        | Command::Reap
        | Command::Collect
        | Command::Begin
        | Command::Step(_)
        | Command::Finish
        | Command::Map(_)
        | Command::Stat => false,
    }
}

impl Owned {
    /// Whether the command may bear an object and no more can be counted.
    #[inline(always)]
    fn is_worn_out(&self, command: Command) -> bool
        ensures worn { result ≡ (bears command && (self.now.gc.born == 2 ^ 64 - 1)) }
        ensures counted { self.now.gc.born < 2 ^ 64 }
    {
        let born = self.gc.totals().born;
        bears(command) && born == u64::MAX
    }

    /// Carries out a command, which isn't counted.
    #[inline(always)]
    pub(crate) fn serve<L: Ledger>(&mut self, command: Command, blank: Blank) -> MmAnswer
        requires name { blank.name ≡ L.name }
        requires parts { blank.parts ≡ L.parts }
        requires shared { 0 < L.parts }
        ensures { Serves self.old self.new command result }
    {
        if self.is_worn_out(command) {
            return MmAnswer::bare(Status::WornOut);
        }
        let mut steps = Steps::<L>::open(blank);
        self.carry_out(command, &mut steps)
    }

    #[inline(always)]
    fn carry_out<L: Ledger>(&mut self, command: Command, steps: &mut Steps<L>) -> MmAnswer
        requires births { bears command ≡ true → self.old.gc.born < 2 ^ 64 - 1 }
        ensures { Carries self.old self.new command result }
    {
        match command {
            Command::New(shape) => {
                MmAnswer::of_new(self.gc.create(shape, &mut self.finals, steps))
            }
            Command::Push(word) => MmAnswer::of_done(self.gc.push(word)),
            Command::Dup(i) => MmAnswer::of_done(self.gc.dup(i, steps)),
            Command::Pop(k) => MmAnswer::of_done(self.gc.pop(k)),
            Command::Inner(i, d) => MmAnswer::of_word(self.gc.inner(i, d, steps)),
            Command::Get(i, s) => MmAnswer::of_word(self.gc.get(i, s, steps)),
            Command::Put(i, s, j) => MmAnswer::of_put(self.gc.put(i, s, j, steps)),
            Command::Weak(i) => MmAnswer::of_weak(self.gc.weak(i, &mut self.finals, steps)),
            Command::Look(i) => MmAnswer::of_word(self.gc.look(i, steps)),
            Command::Root(counted, cells) => {
                MmAnswer::of_area(self.gc.root(counted, cells, &mut self.finals, steps))
            }
            Command::Fixed(cells) => {
                MmAnswer::of_area(self.gc.fixed(cells, &mut self.finals, steps))
            }
            Command::DropArea(number) => MmAnswer::of_done(self.gc.drop_area(number, steps)),
            Command::AreaGet(number, s) => MmAnswer::of_word(self.gc.area_get(number, s, steps)),
            Command::AreaPut(number, s, j) => {
                MmAnswer::of_put(self.gc.area_put(number, s, j, steps))
            }
            Command::Reap => {
                self.gc.reap(&mut self.finals, steps);
                MmAnswer::bare(Status::Done)
            }
            Command::Collect => {
                self.gc.collect(&mut self.finals, steps);
                MmAnswer::bare(Status::Done)
            }
            Command::Begin => MmAnswer::of_done(self.gc.begin(steps)),
            Command::Step(k) => MmAnswer::of_done(self.gc.step(k, &mut self.finals, steps)),
            Command::Finish => MmAnswer::of_done(self.gc.finish(&mut self.finals, steps)),
            Command::Map(i) => MmAnswer::of_map(self.gc.map(i, steps)),
            Command::Stat => MmAnswer::with_word(self.gc.stat().objects),
        }
    }
}

impl MmHeap {
    /// A call that is a command.
    #[inline(always)]
    pub(crate) fn call(&mut self, alloc: Global, command: Command) -> MmAnswer
        ensures { IsCall self.old.held.value self.new.held.value command result }
    {
        match self.take(alloc) {
            Some(owned) => {
                let mut owned = owned;
                let answer = owned.serve::<Brand>(command, Blank::new(1));
                self.restore(owned);
                answer
            }
            None => MmAnswer::bare(Status::Closed),
        }
    }
}
