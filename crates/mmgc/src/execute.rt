// A command that is carried out.
ghost use Rattle.std.specs.Prelude.{◌≡◌, ◌<◌, ◌-◌, ◌^◌, IfSome, is_some};
ghost use Rattle.mm_gc.specs.Gc.{view_of_gc};
ghost use Rattle.mmgc.specs.Booking.{BooksOn, IsInUse, MayBookOn};
ghost use Rattle.mmgc.specs.Carrying.{CarriesOut, group_of};
ghost use Rattle.mmgc.specs.Logging.{kept_by, KeepsOn};

use crate::log::LogWriter;
use crate::site_book::SiteBook;
use mm_gc::Gc;
use mm_io::Sink;
use mm_model::{Command, Line, Reply};
use mm_sited::execute_at;
use mm_steps::Steps;
use std::marker::Brand;
use std::sync::ledger::{Blank, Ledger};

/// Carries out a command with a counter of steps that nothing reads, and writes its lines.
#[inline(always)]
pub(crate) fn execute<K: Sink, L: Ledger>(
    heap: &mut Gc,
    log: &mut LogWriter<'_, K>,
    command: &Command,
    blank: Blank,
) -> Reply
    requires name { blank.name ≡ L.name }
    requires parts { blank.parts ≡ L.parts }
    requires shared { 0 < L.parts }
    requires commands { (view_of_gc heap.old).totals.commands < 2 ^ 64 - 1 }
    requires births { (view_of_gc heap.old).totals.born < 2 ^ 64 - 1 }
    ensures carried { (done : CarriesOut heap.old heap.new command.now
        (kept_by K.taken log.old) (kept_by K.taken log.new)) × (done.reply ≡ result) }
    ensures kept { KeepsOn K.faults K.taken log.old log.new }
{
    let mut steps = Steps::<L>::open(blank);
    let reply = heap.execute(command, log, &mut steps);
    log.line(&Line::Reply(reply));
    reply
}

/// The same on a heap whose objects have sites: what the command bears has the one that was named last.
fn execute_at_site<K: Sink, L: Ledger>(
    heap: &mut Gc,
    log: &mut LogWriter<'_, K>,
    book: &mut SiteBook,
    command: &Command,
    blank: Blank,
) -> Reply
    requires name { blank.name ≡ L.name }
    requires parts { blank.parts ≡ L.parts }
    requires shared { 0 < L.parts }
    requires commands { (view_of_gc heap.old).totals.commands < 2 ^ 64 - 1 }
    requires births { (view_of_gc heap.old).totals.born < 2 ^ 64 - 1 }
    requires in_use { IsInUse heap.old book.old }
    ensures carried { (done : CarriesOut heap.old heap.new command.now
        (kept_by K.taken log.old) (kept_by K.taken log.new)) × (done.reply ≡ result)
        × BooksOn heap.old command.now (group_of done) book.old book.new }
    ensures kept { KeepsOn K.faults K.taken log.old log.new }
{
    let mut steps = Steps::<L>::open(blank);
    let reply = execute_at(heap, &mut book.sites, book.site, command, log, &mut steps);
    log.line(&Line::Reply(reply));
    reply
}

/// Carries out a command and writes its lines; where sites are kept, what it bears has the one that was named last.
// It isn't inlined, so that the code of the commands stands in few places, and is inlined where most commands come.
#[inline(never)]
pub(crate) fn execute_booked<K: Sink>(
    heap: &mut Gc,
    log: &mut LogWriter<'_, K>,
    book: &mut Option<SiteBook>,
    command: &Command,
) -> Reply
    requires commands { (view_of_gc heap.old).totals.commands < 2 ^ 64 - 1 }
    requires births { (view_of_gc heap.old).totals.born < 2 ^ 64 - 1 }
    requires in_use { IfSome book.old (IsInUse heap.old) }
    ensures carried { (done : CarriesOut heap.old heap.new command.now
        (kept_by K.taken log.old) (kept_by K.taken log.new)) × (done.reply ≡ result)
        × MayBookOn heap.old command.now (group_of done) book.old book.new }
    ensures book { is_some book.new ≡ is_some book.old }
    ensures kept { KeepsOn K.faults K.taken log.old log.new }
{
    match book {
        None => execute::<K, Brand>(heap, log, command, Blank::new(1)),
        Some(book) => execute_at_site::<K, Brand>(heap, log, book, command, Blank::new(1)),
    }
}
