// What carries out the commands of a trace.
ghost use Rattle.std.specs.Prelude.{◌≡◌, IsTrue, IfSome, Some, None};
ghost use Rattle.mmgc.specs.Booking.{booked_text};
ghost use Rattle.mmgc.specs.Carrying.{Grew};
ghost use Rattle.mmgc.specs.Logging.{driver_of, kept_by, KeepsOn};
ghost use Rattle.mmgc.specs.Logging.{book_of, driver_with, pace_of, noting_bookkeeping, noting_executor};
ghost use Rattle.mmgc.specs.Pacing.{Advances, IsFresh, IsReady};
ghost use Rattle.mmgc.specs.Requests.{IsRate};

use crate::execute::{execute, execute_booked};
use crate::log::LogWriter;
use crate::pacer::pace_command;
use crate::site_book::SiteBook;
use mm_gc::Gc;
use mm_io::Sink;
use mm_model::Command;
use mm_pace::{Pace, paced_lists_can_be_carried_on};
use mm_sites::sites_of_births_come_one_after_another;
use std::marker::Brand;
use std::sync::ledger::Blank;

/// What is kept beside the heap while a trace is carried out: what paces cycles, where they are paced, and the sites of
/// objects, where they are asked for.
#[derive(Drop)]
pub(crate) struct Bookkeeping {
    pub(crate) pace: Option<Pace>,
    pub(crate) book: Option<SiteBook>,
}

/// Carries out the commands of a trace.
// That nothing is kept is one test a line.
#[derive(Drop)]
pub(crate) struct Executor {
    pub(crate) bookkeeping: Option<Bookkeeping>,
}

impl Bookkeeping {
    /// Goes on with the site that a line of the trace names, where sites are kept and it names one.
    fn note_line(&mut self, line: &[u8])
        ensures { self.new ≡ noting_bookkeeping line.now self.old }
    {
        if let Some(book) = &mut self.book {
            book.note(line);
        }
    }

    /// Carries out a command of the trace, and where cycles are paced what is added after it.
    fn execute<K: Sink>(&mut self, heap: &mut Gc, log: &mut LogWriter<'_, K>, command: &Command)
        requires { IsReady (driver_with heap.old (Some self.old)) }
        ensures advanced { Advances (driver_with heap.old (Some self.old)) (driver_with heap.new (Some self.new))
            command.now (kept_by K.taken log.old) (kept_by K.taken log.new) }
        ensures kept { KeepsOn K.faults K.taken log.old log.new }
    {
        paced_lists_can_be_carried_on();
        sites_of_births_come_one_after_another();
        match &mut self.pace {
            Some(pace) => pace_command(pace, heap, &mut self.book, log, command),
            None => {
                let _ = execute_booked(heap, log, &mut self.book, command);
            }
        }
    }

    /// Writes a line for each site with a live object, where sites are kept.
    fn write_sites<K: Sink>(&self, log: &mut LogWriter<'_, K>)
        ensures written { Grew (kept_by K.taken log.old) (kept_by K.taken log.new) (booked_text self.now.book) }
        ensures kept { KeepsOn K.faults K.taken log.old log.new }
    {
        if let Some(book) = &self.book {
            book.write(log);
        }
    }
}

impl Executor {
    /// Before the first command, where cycles are paced at this rate, or aren't.
    pub(crate) fn make(rate: Option<u32>, book: Option<SiteBook>) -> Executor
        requires { IfSome rate IsRate }
        ensures pace { IsFresh rate (pace_of result) }
        ensures book { book_of result ≡ book }
    {
        match (rate, book) {
            (None, None) => Executor { bookkeeping: None },
            (None, Some(book)) => Executor {
                bookkeeping: Some(Bookkeeping {
                    pace: None,
                    book: Some(book),
                }),
            },
            (Some(rate), book) => Executor {
                bookkeeping: Some(Bookkeeping {
                    pace: Some(Pace::make(rate)),
                    book,
                }),
            },
        }
    }

    /// Whether cycles aren't paced and no sites are kept.
    #[inline(always)]
    pub(crate) fn is_idle(&self) -> bool
        ensures { IsTrue result → self.now.bookkeeping ≡ None }
    {
        self.bookkeeping.is_none()
    }

    /// Goes on with the site that a line of the trace names, where sites are kept and it names one.
    pub(crate) fn note_line(&mut self, line: &[u8])
        ensures { self.new ≡ noting_executor line.now self.old }
    {
        if let Some(bookkeeping) = &mut self.bookkeeping {
            bookkeeping.note_line(line);
        }
    }

    /// Carries out a command of the trace where nothing is kept beside the heap.
    #[inline(always)]
    pub(crate) fn execute_alone<K: Sink>(
        &self,
        heap: &mut Gc,
        log: &mut LogWriter<'_, K>,
        command: &Command,
    )
        requires ready { IsReady (driver_of heap.old self.now) }
        requires alone { self.now.bookkeeping ≡ None }
        ensures advanced { Advances (driver_of heap.old self.now) (driver_of heap.new self.now) command.now
            (kept_by K.taken log.old) (kept_by K.taken log.new) }
        ensures kept { KeepsOn K.faults K.taken log.old log.new }
    {
        sites_of_births_come_one_after_another();
        let _ = execute::<K, Brand>(heap, log, command, Blank::new(1));
    }

    /// Carries out a command of the trace, and where cycles are paced what is added after it.
    pub(crate) fn execute<K: Sink>(
        &mut self,
        heap: &mut Gc,
        log: &mut LogWriter<'_, K>,
        command: &Command,
    )
        requires { IsReady (driver_of heap.old self.old) }
        ensures advanced { Advances (driver_of heap.old self.old) (driver_of heap.new self.new) command.now
            (kept_by K.taken log.old) (kept_by K.taken log.new) }
        ensures kept { KeepsOn K.faults K.taken log.old log.new }
    {
        sites_of_births_come_one_after_another();
        match &mut self.bookkeeping {
            Some(bookkeeping) => bookkeeping.execute(heap, log, command),
            None => {
                let _ = execute_booked(heap, log, &mut None, command);
            }
        }
    }

    /// Writes a line for each site with a live object, where sites are kept.
    pub(crate) fn write_sites<K: Sink>(&self, log: &mut LogWriter<'_, K>)
        ensures written { Grew (kept_by K.taken log.old) (kept_by K.taken log.new) (booked_text (book_of self.now)) }
        ensures kept { KeepsOn K.faults K.taken log.old log.new }
    {
        if let Some(bookkeeping) = &self.bookkeeping {
            bookkeeping.write_sites(log);
        }
    }
}
