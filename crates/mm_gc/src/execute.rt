// A command whole: its row, and the reap at its end.
ghost use Rattle.std.specs.Prelude.{◌≡◌, ◌<◌, ◌-◌, ◌^◌};
ghost use Rattle.mm_model.specs.declared.command.Command.TheVariants as commands;
ghost use Rattle.mm_model.specs.declared.reply.Reply.TheVariants as replies;
ghost use Rattle.mm_gc.specs.Ending.{is_refused, Ends};
ghost use Rattle.mm_gc.specs.Rows.{Executes, Tells};

use crate::gc::Gc;
use crate::reply::{
    area_reply, done_reply, map_reply, new_reply, put_reply, weak_reply, word_reply,
};
use mm_model::{Command, Reply};
use mm_steps::Steps;
use mm_sweep::Journal;
use std::sync::ledger::Ledger;

/// Whether a reply refuses.
#[inline]
fn is_refused(reply: Reply) -> bool
    ensures { result ≡ is_refused reply }
{
    match reply {
        Reply::Refused(_) => true,
        Reply::Done
        | Reply::Loose
        | Reply::New(_)
        | Reply::Word(_)
        | Reply::Area(_)
        | Reply::Object(_)
        | Reply::Nothing
        | Reply::Stat(_) => false,
    }
}

impl Gc {
    /// Carries out a command, and tells the journal of all that it does before it replies. Where it wasn't refused and
    /// leaves as many zero-count objects as the threshold says, it reaps at its end.
    #[inline(always)]
    pub fn execute<J: Journal, L: Ledger>(
        &mut self,
        command: &Command,
        journal: &mut J,
        steps: &mut Steps<L>,
    ) -> Reply
        requires commands { self.old.commands < 2 ^ 64 - 1 }
        requires births { self.old.born < 2 ^ 64 - 1 }
        ensures step { Executes self.old self.new command.now result
            (J.tells journal.old journal.new) }
    {
        let reply = self.carry_out(command, journal, steps);
        self.end(is_refused(reply), journal, steps);
        self.commands += 1;
        reply
    }

    /// Reaps where a command that wasn't refused leaves as many zero-count objects as the threshold says.
    #[inline]
    fn end<J: Journal, L: Ledger>(&mut self, refused: bool, journal: &mut J, steps: &mut Steps<L>)
        ensures ends { Ends self.old self.new refused
            (J.tells journal.old journal.new) }
        ensures commands { self.new.commands ≡ self.old.commands }
    {
        if refused {
            return;
        }
        if self.count.len() < self.threshold {
            return;
        }
        self.reap_at_end(journal, steps)
    }

    /// Reaps, apart from the commands at whose end it's done: hardly any of them needs it.
    #[cold]
    #[inline(never)]
    fn reap_at_end<J: Journal, L: Ledger>(&mut self, journal: &mut J, steps: &mut Steps<L>)
        ensures row { Tells self.old self.new commands.Reap replies.Done
            (J.tells journal.old journal.new) }
    {
        self.reap(journal, steps)
    }

    /// The row of a command.
    #[inline(always)]
    fn carry_out<J: Journal, L: Ledger>(
        &mut self,
        command: &Command,
        journal: &mut J,
        steps: &mut Steps<L>,
    ) -> Reply
        requires births { self.old.born < 2 ^ 64 - 1 }
        ensures row { Tells self.old self.new command.now result
            (J.tells journal.old journal.new) }
        ensures commands { self.new.commands ≡ self.old.commands }
    {
        match *command {
            Command::New(shape) => new_reply(self.create(shape, journal, steps)),
            Command::Push(word) => done_reply(self.push(word)),
            Command::Dup(i) => done_reply(self.dup(i, steps)),
            Command::Pop(k) => done_reply(self.pop(k)),
            Command::Inner(i, d) => word_reply(self.inner(i, d, steps)),
            Command::Get(i, s) => word_reply(self.get(i, s, steps)),
            Command::Put(i, s, j) => put_reply(self.put(i, s, j, steps)),
            Command::Weak(i) => weak_reply(self.weak(i, journal, steps)),
            Command::Look(i) => word_reply(self.look(i, steps)),
            Command::Root(counted, cells) => {
                area_reply(self.root(counted, cells, journal, steps))
            }
            Command::Fixed(cells) => area_reply(self.fixed(cells, journal, steps)),
            Command::DropArea(number) => done_reply(self.drop_area(number, steps)),
            Command::AreaGet(number, s) => word_reply(self.area_get(number, s, steps)),
            Command::AreaPut(number, s, j) => put_reply(self.area_put(number, s, j, steps)),
            Command::Reap => {
                self.reap(journal, steps);
                Reply::Done
            }
            Command::Collect => {
                self.collect(journal, steps);
                Reply::Done
            }
            Command::Begin => done_reply(self.begin(steps)),
            Command::Step(k) => done_reply(self.step(k, journal, steps)),
            Command::Finish => done_reply(self.finish(journal, steps)),
            Command::Map(i) => map_reply(self.map(i, steps)),
            Command::Stat => Reply::Stat(self.stat()),
        }
    }
}
