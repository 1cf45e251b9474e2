// A heap of few pages, made from one arena, that carries out tables of commands.
ghost use Rattle.std.specs.Prelude.{◌≡◌, ◌<◌, true};
ghost use Rattle.mm_object.specs.Heap.{IsObject};

use crate::told::Told;
use arrayvec::ArrayVec;
use mm_gc::{Gc, Settings};
use mm_model::{Colour, Command, Line, Reply};
use mm_object::Heap;
use mm_steps::Steps;
use mm_trace::parse_line;
use std::alloc::Global;
use std::marker::Brand;
use std::process::Abort;
use std::sync::ledger::{Blank, Ledger};
use std::test::Fail;

/// A command as in a trace, and what is told of it, the reply last. `colours` asks for the colours of all objects, and
/// `composites` for their composite words, both by ascending base. `*` stands for whatever is told.
pub(crate) type Row<'a> = (&'a str, &'a str);

/// Settings with so many pages at first and at most.
pub(crate) fn pages(least: u32, most: u32) -> Settings {
    Settings {
        pages: least,
        max: most,
        zct: 256,
        queue: 256,
        stack: 1024,
    }
}

/// A heap, and what it told.
pub(crate) struct Trial {
    heap: Gc,
    told: Told,
}

impl Trial {
    pub fn open<R: Abort>(rt: &R, alloc: Global, settings: Settings) -> Result<Trial, Fail> {
        if settings.pages < 2 || settings.max < settings.pages || 4096 < settings.max {
            rt.abort();
        }
        if settings.zct < 1 || 1048575 < settings.zct {
            rt.abort();
        }
        if settings.queue < 1 || 65536 < settings.queue {
            rt.abort();
        }
        if settings.stack < 1 || 65536 < settings.stack {
            rt.abort();
        }
        Ok(Trial {
            heap: Gc::make(alloc, settings)?,
            told: Told::new(),
        })
    }

    /// To read the parts of the heap.
    pub fn heap(&self) -> &Gc {
        &self.heap
    }

    pub fn carry_out<R: Abort>(&mut self, rt: &R, command: Command) -> Reply {
        self.execute::<Brand, R>(rt, command, Blank::new(1))
    }

    fn execute<L: Ledger, R: Abort>(&mut self, rt: &R, command: Command, blank: Blank) -> Reply
        requires name { blank.name ≡ L.name }
        requires parts { blank.parts ≡ L.parts }
        requires shared { 0 < L.parts }
    {
        let totals = self.heap.totals();
        if totals.commands == u64::MAX || totals.born == u64::MAX {
            rt.abort();
        }
        let mut steps: Steps<L> = Steps::open(blank);
        self.heap.execute(&command, &mut self.told, &mut steps)
    }

    /// Carries out a row's line, and compares what is told with the rest of the row.
    pub fn check<R: Abort>(&mut self, rt: &R, row: Row<'_>) {
        let (line, told) = row;
        self.told.text.clear();
        match line {
            "colours" => self.tell_colours::<Brand>(Blank::new(1)),
            "composites" => self.tell_composites::<Brand>(Blank::new(1)),
            _ => match parse_line(line.as_bytes()) {
                Ok(Some(command)) => {
                    let reply = self.carry_out(rt, command);
                    self.told.line(&Line::Reply(reply));
                }
                _ => rt.abort(),
            },
        }
        if told != "*" {
            assert_eq!(rt; self.told.text.as_slice(), told.as_bytes(), "at {line}");
        }
    }

    /// A letter for each object: `w`, `g` or `b`.
    fn tell_colours<L: Ledger>(&mut self, blank: Blank)
        requires name { blank.name ≡ L.name }
        requires parts { blank.parts ≡ L.parts }
        requires shared { 0 < L.parts }
    {
        let mut steps: Steps<L> = Steps::open(blank);
        let cells = self.heap.heap().cells();
        let mut from = 0;
        for _ in 0..100 {
            match cells.next_taken(from, &mut steps) {
                Some(base) => {
                    let letter = match cells.find(base, &mut steps) {
                        Some(cell) => letter_of(cell.colour),
                        None => b'?',
                    };
                    let _ = self.told.text.try_push(letter);
                    from = base.saturating_add(1);
                }
                None => return,
            }
        }
    }

    /// The composite word of each object, with a space between two.
    fn tell_composites<L: Ledger>(&mut self, blank: Blank)
        requires name { blank.name ≡ L.name }
        requires parts { blank.parts ≡ L.parts }
        requires shared { 0 < L.parts }
    {
        let mut steps: Steps<L> = Steps::open(blank);
        let heap = self.heap.heap();
        let mut from = 0;
        for _ in 0..100 {
            match heap.cells().next_taken(from, &mut steps) {
                Some(base) => {
                    if is_object(heap, base, &mut steps) {
                        add_number(&mut self.told.text, heap.composite(base, &mut steps));
                    }
                    from = base.saturating_add(1);
                }
                None => return,
            }
        }
    }

    pub fn close(self) {
        let Trial { heap, told: _ } = self;
        heap.close();
    }
}

fn letter_of(colour: Colour) -> u8 {
    match colour {
        Colour::White => b'w',
        Colour::Gray => b'g',
        Colour::Black => b'b',
    }
}

/// A number behind a space, or at the begin.
pub(crate) fn add_number(text: &mut ArrayVec<u8, 4096>, number: u32) {
    if !text.is_empty() {
        let _ = text.try_push(b' ');
    }
    let _ = text.try_extend_from_slice(itoa::Buffer::new().format(number).as_bytes());
}

pub(crate) fn is_object<L: Ledger>(heap: &Heap, base: u32, steps: &mut Steps<L>) -> bool
    ensures { result ≡ true → IsObject heap.now base }
{
    match heap.find(base, steps) {
        Some(found) => found == base,
        None => false,
    }
}

/// Carries out rows on a heap of their own.
pub(crate) fn play<R: Abort>(
    rt: &R,
    alloc: Global,
    settings: Settings,
    rows: &[Row<'_>],
) -> Result<(), Fail> {
    let mut trial = Trial::open(rt, alloc, settings)?;
    for &row in rows {
        trial.check(rt, row);
    }
    trial.close();
    Ok(())
}
