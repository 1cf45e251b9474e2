// How it is told why an object is kept.
ghost use Rattle.std.specs.Prelude.{◌≡◌, ◌≤◌, ◌<◌, ◌++◌, ◌∷◌, List, ℕ, length, decimal, codes, take};
ghost use Rattle.std.specs.List.{flat_map};
ghost use Rattle.mm_gc.specs.Gc.{view_of_gc};
ghost use Rattle.mm_object.specs.Heap.{IsObject};
ghost use Rattle.mm_why.specs.Path.{shown_in};
ghost use Rattle.mmgc.specs.Added.{IsWhyText, hop_spelling, path_spelling, via_words};
ghost use Rattle.mmgc.specs.Appending.{Appended, HasPages, IsFoundIn, IsHit, IsSearched, named, numbered, via_spelling};
ghost use Rattle.mmgc.specs.Logging.{kept_by, KeepsOn};
ghost use Rattle.mmgc.specs.Carrying.{Grew};

use crate::log::LogWriter;
use mm_gc::Gc;
use mm_io::Sink;
use mm_steps::Steps;
use mm_why::{Hop, Via, Why};
use std::marker::Brand;
use std::sync::ledger::{Blank, Ledger};

/// Writes a space and a number.
fn write_number<K: Sink>(log: &mut LogWriter<'_, K>, number: u32)
    ensures written { Grew (kept_by K.taken log.old) (kept_by K.taken log.new) (numbered number) }
    ensures kept { KeepsOn K.faults K.taken log.old log.new }
{
    log.text(b" ");
    log.text(itoa::Buffer::new().format(number).as_bytes());
}

/// Writes a name and a number.
fn write_named<K: Sink>(log: &mut LogWriter<'_, K>, name: &[u8], number: u32)
    requires { length name.now ≤ 64 }
    ensures written { Grew (kept_by K.taken log.old) (kept_by K.taken log.new) (named name.now number) }
    ensures kept { KeepsOn K.faults K.taken log.old log.new }
{
    log.text(name);
    write_number(log, number);
}

/// Writes a name and two numbers.
fn write_area<K: Sink>(log: &mut LogWriter<'_, K>, area: u32, cell: u32)
    ensures written { Grew (kept_by K.taken log.old) (kept_by K.taken log.new)
        (named (codes " area") area ++ numbered cell) }
    ensures kept { KeepsOn K.faults K.taken log.old log.new }
{
    write_named(log, b" area", area);
    write_number(log, cell);
}

fn write_via<K: Sink>(log: &mut LogWriter<'_, K>, via: Via)
    ensures written { Grew (kept_by K.taken log.old) (kept_by K.taken log.new) (via_spelling via) }
    ensures kept { KeepsOn K.faults K.taken log.old log.new }
{
    match via {
        Via::Stack { cell } => write_named(log, b" stack", cell),
        Via::Area { area, cell } => write_area(log, area, cell),
        Via::Slot { slot } => write_named(log, b" slot", slot),
    }
}

/// Ends a line with a number.
fn write_last<K: Sink>(log: &mut LogWriter<'_, K>, number: u32)
    ensures written { Grew (kept_by K.taken log.old) (kept_by K.taken log.new) (numbered number ++ codes "\n") }
    ensures kept { KeepsOn K.faults K.taken log.old log.new }
{
    write_number(log, number);
    log.text(b"\n");
}

fn write_hop<K: Sink>(log: &mut LogWriter<'_, K>, hop: Hop)
    ensures written { Grew (kept_by K.taken log.old) (kept_by K.taken log.new) (hop_spelling hop) }
    ensures kept { KeepsOn K.faults K.taken log.old log.new }
{
    write_via(log, hop.via);
    write_last(log, hop.base);
}

fn write_hops<K: Sink>(log: &mut LogWriter<'_, K>, why: &Why, count: u32)
    requires { count ≡ length why.now.hops }
    ensures written { Grew (kept_by K.taken log.old) (kept_by K.taken log.new)
        (flat_map hop_spelling why.now.hops) }
    ensures kept { KeepsOn K.faults K.taken log.old log.new }
{
    for k in 0..count {
        write_hop(log, why.hop(k));
    }
}

fn write_length<K: Sink>(log: &mut LogWriter<'_, K>, count: u32)
    ensures written { Grew (kept_by K.taken log.old) (kept_by K.taken log.new)
        (codes "path" ++ (numbered count ++ codes "\n")) }
    ensures kept { KeepsOn K.faults K.taken log.old log.new }
{
    log.text(b"path");
    write_last(log, count);
}

fn write_path<K: Sink>(log: &mut LogWriter<'_, K>, why: &Why, count: u32)
    requires { count ≡ length why.now.hops }
    ensures written { Grew (kept_by K.taken log.old) (kept_by K.taken log.new) (path_spelling why.now.hops) }
    ensures kept { KeepsOn K.faults K.taken log.old log.new }
{
    write_length(log, count);
    write_hops(log, why, count);
}

/// The object in which a word falls, found with a counter of steps that nothing reads.
fn find_object<L: Ledger>(heap: &Gc, word: u32, blank: Blank) -> Option<u32>
    requires name { blank.name ≡ L.name }
    requires parts { blank.parts ≡ L.parts }
    requires shared { 0 < L.parts }
    ensures { IsFoundIn heap.now.region.heap word result }
{
    let mut steps = Steps::<L>::open(blank);
    heap.heap().find(word, &mut steps)
}

/// The length of a shortest path to an object, searched with a counter of steps that nothing reads.
fn search_heap<L: Ledger>(why: &mut Why, heap: &Gc, target: u32, blank: Blank) -> Option<u32>
    requires name { blank.name ≡ L.name }
    requires parts { blank.parts ≡ L.parts }
    requires shared { 0 < L.parts }
    requires object { IsObject heap.now.region.heap target }
    requires shows { HasPages (view_of_gc heap.now) }
    requires pages { why.old.pages ≡ heap.now.settings.max }
    ensures searched { IsSearched (shown_in (view_of_gc heap.now)) target why.new.hops result }
    ensures pages { why.new.pages ≡ why.old.pages }
{
    let mut steps = Steps::<L>::open(blank);
    why.search(heap.heap(), heap.stack(), heap.areas(), target, &mut steps)
}

/// Writes why the object that begins at `target` is kept.
fn write_reason<K: Sink>(
    log: &mut LogWriter<'_, K>,
    why: &mut Why,
    heap: &Gc,
    word: u32,
    target: u32,
)
    requires hit { IsHit heap.now.region.heap word target }
    requires shows { HasPages (view_of_gc heap.now) }
    requires pages { why.old.pages ≡ heap.now.settings.max }
    ensures written { Appended (IsWhyText (shown_in (view_of_gc heap.now)) word)
        (kept_by K.taken log.old) (kept_by K.taken log.new) }
    ensures kept { KeepsOn K.faults K.taken log.old log.new }
    ensures pages { why.new.pages ≡ why.old.pages }
{
    match search_heap::<Brand>(why, heap, target, Blank::new(1)) {
        Some(count) => write_path(log, why, count),
        None => log.text(b"none\n"),
    }
}

/// Writes why the object is kept in which a word falls.
pub(crate) fn write_why<K: Sink>(log: &mut LogWriter<'_, K>, why: &mut Why, heap: &Gc, word: u32)
    requires shows { HasPages (view_of_gc heap.now) }
    requires pages { why.old.pages ≡ heap.now.settings.max }
    ensures written { Appended (IsWhyText (shown_in (view_of_gc heap.now)) word)
        (kept_by K.taken log.old) (kept_by K.taken log.new) }
    ensures kept { KeepsOn K.faults K.taken log.old log.new }
    ensures pages { why.new.pages ≡ why.old.pages }
{
    match find_object::<Brand>(heap, word, Blank::new(1)) {
        Some(target) => write_reason(log, why, heap, word, target),
        None => log.text(b"no object\n"),
    }
}
