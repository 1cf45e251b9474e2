// Commands on a heap whose objects have sites.
ghost use Rattle.std.specs.Prelude.{◌≡◌, ℕ, ◌-◌, ◌^◌, ◌<◌, ◌≤◌, length, Some};
ghost use Rattle.mm_model.specs.declared.command.Command.TheVariants as commands;
ghost use Rattle.mm_model.specs.declared.object.Shape.{Shape};
ghost use Rattle.mm_model.specs.declared.reply.Reply.TheVariants as replies;
ghost use Rattle.mm_model.specs.Logs.Turns.{births_if};
ghost use Rattle.mm_model.specs.Places.SizeClass.{extent_of, object_bytes};
ghost use Rattle.mm_model.specs.State.{State};
ghost use Rattle.mm_model.specs.Views.ByBase.{with_entry};
ghost use Rattle.mm_sites.specs.Following.{with_births, IsFreeAt};
ghost use Rattle.mm_sited.specs.Executing.{CanEnter, HasSomeSites, ExecutesWithout, ExecutesAt};

use crate::extent::object_extent;
use crate::sited::Sited;
use mm_gc::Gc;
use mm_model::{Command, Reply};
use mm_sites::{Sites, births_are_where_nothing_is_entered, entries_follow_a_command};
use mm_steps::Steps;
use mm_sweep::Journal;
use std::sync::ledger::Ledger;

/// Carries out a command, and takes away what it frees.
fn execute_sited<J: Journal, L: Ledger>(
    gc: &mut Gc,
    sited: &mut Sited<'_, J>,
    command: &Command,
    steps: &mut Steps<L>,
) -> Reply
    requires commands { gc.old.commands < 2 ^ 64 - 1 }
    requires births { gc.old.born < 2 ^ 64 - 1 }
    ensures executed { ExecutesWithout gc.old gc.new command.now result
        (J.tells sited.old.journal.now sited.new.journal.now) sited.old.sites.now sited.new.sites.now }
    ensures same_journal { sited.new.journal.ghost_name ≡ sited.old.journal.ghost_name }
    ensures same_sites { sited.new.sites.ghost_name ≡ sited.old.sites.ghost_name }
{
    gc.execute(command, sited, steps)
}

/// The same with a journal and sites that stand apart.
fn execute_without<J: Journal, L: Ledger>(
    gc: &mut Gc,
    sites: &mut Sites,
    command: &Command,
    journal: &mut J,
    steps: &mut Steps<L>,
) -> Reply
    requires commands { gc.old.commands < 2 ^ 64 - 1 }
    requires births { gc.old.born < 2 ^ 64 - 1 }
    ensures { ExecutesWithout gc.old gc.new command.now result (J.tells journal.old journal.new) sites.old sites.new }
{
    let mut sited = Sited { journal, sites };
    execute_sited(gc, &mut sited, command, steps)
}

/// Enters an object with so many slots.
fn enter(sites: &mut Sites, base: u32, slots: u32, site: u32)
    requires slots { slots ≤ 1048575 }
    requires site { site < 4096 }
    requires free { IsFreeAt (length sites.old) sites.old base }
    ensures { sites.new ≡ with_entry base (Some (record { extent = extent_of (object_bytes slots); site = site }))
        sites.old }
{
    let _ = sites.born(base, object_extent(slots), site);
}

/// Enters what a command bore, by its reply.
fn enter_birth(sites: &mut Sites, site: u32, command: &Command, reply: Reply)
    requires site { site < 4096 }
    requires slots { (shape : Shape) (base : ℕ) → command.now ≡ commands.New shape → reply ≡ replies.New base
        → shape.slots ≤ 1048575 }
    requires free { CanEnter command.now reply sites.old }
    ensures { (a : State) → sites.new ≡ with_births site sites.old (births_if a command.now (Some reply)) }
{
    match (command, reply) {
        (Command::New(shape), Reply::New(base)) => enter(sites, base, shape.slots, site),
        (Command::Weak(_), Reply::New(base)) => enter(sites, base, 0, site),
        _ => {}
    }
}

/// Carries out a command on a heap whose objects have sites: what it frees is taken away, and what it bears is entered
/// with this site.
pub fn execute_at<J: Journal, L: Ledger>(
    gc: &mut Gc,
    sites: &mut Sites,
    site: u32,
    command: &Command,
    journal: &mut J,
    steps: &mut Steps<L>,
) -> Reply
    requires commands { gc.old.commands < 2 ^ 64 - 1 }
    requires births { gc.old.born < 2 ^ 64 - 1 }
    requires site { site < 4096 }
    requires sites { HasSomeSites gc.old sites.old }
    ensures { ExecutesAt site gc.old gc.new command.now result (J.tells journal.old journal.new) sites.old sites.new }
{
    births_are_where_nothing_is_entered();
    entries_follow_a_command();
    let reply = execute_without(gc, sites, command, journal, steps);
    enter_birth(sites, site, command, reply);
    reply
}
