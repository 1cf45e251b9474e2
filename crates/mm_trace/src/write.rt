// A line of a log.
ghost use Rattle.std.specs.Prelude.{◌≡◌, ◌+◌, ◌≤◌, ◌++◌};
ghost use Rattle.arrayvec.specs.ArrayVec.{array_vec_len};
ghost use Rattle.mm_model.specs.Logs.Spelling as model;

use crate::put::{Lines, put_count, put_kind, put_number, put_sentence, put_text};
use crate::refusal_text;
use arrayvec::ArrayVec;
use mm_model::{AreaAnswer, Line, Mapped, Phase, Refusal, Reply, Stat, Totals};

/// Appends the spelling of a line, its newline with it. No line takes more than 90 bytes.
#[inline(always)]
pub fn write_line(line: &Line, to: &mut ArrayVec<u8, 4096>)
    requires { array_vec_len to.old + 96 ≤ 4096 }
    ensures { to.new.items ≡ to.old.items ++ model.spelling line.now }
{
    // What is handed on is a copy, so that a line which is most often `ok` stays in registers.
    match *line {
        Line::Reply(Reply::Done) => put_text(b"ok\n", to),
        Line::Reply(reply) => put_reply(&reply, to),
        other => put_line(&other, to),
    }
}

// Each line with numbers is a function of its own, so that none pays for the registers of another.
#[inline(never)]
fn put_line(line: &Line, to: &mut Lines)
    requires { array_vec_len to.old + 96 ≤ 4096 }
    ensures { to.new.items ≡ to.old.items ++ model.spelling line.now }
{
    match line {
        Line::Scan { base, slots } => put_scan(*base, *slots, to),
        Line::Final { base, slots, sum } => put_final(*base, *slots, *sum, to),
        Line::Phase { what, freed } => put_phase(*what, *freed, to),
        Line::Free(base) => put_free(*base, to),
        Line::Reply(reply) => put_reply(reply, to),
        Line::Total(totals) => put_total(totals, to),
    }
}

#[inline(never)]
fn put_scan(base: u32, slots: u32, to: &mut Lines)
    requires { array_vec_len to.old + 64 ≤ 4096 }
    ensures { to.new.items ≡ to.old.items ++ model.spelling (Line.Scan base slots) }
{
    put_sentence(b" scan", &[base, slots], to);
}

#[inline(never)]
fn put_final(base: u32, slots: u32, sum: u32, to: &mut Lines)
    requires { array_vec_len to.old + 64 ≤ 4096 }
    ensures { to.new.items ≡ to.old.items ++ model.spelling (Line.Final base slots sum) }
{
    put_sentence(b" final", &[base, slots, sum], to);
}

#[inline(never)]
fn put_phase(what: Phase, freed: u32, to: &mut Lines)
    requires { array_vec_len to.old + 64 ≤ 4096 }
    ensures { to.new.items ≡ to.old.items ++ model.spelling (Line.Phase what freed) }
{
    match what {
        Phase::Reap => put_sentence(b" reap", &[freed], to),
        Phase::Collect => put_sentence(b" collect", &[freed], to),
    }
}

#[inline(never)]
fn put_free(base: u32, to: &mut Lines)
    requires { array_vec_len to.old + 64 ≤ 4096 }
    ensures { to.new.items ≡ to.old.items ++ model.spelling (Line.Free base) }
{
    put_sentence(b" free", &[base], to);
}

#[inline(never)]
fn put_total(totals: &Totals, to: &mut Lines)
    requires { array_vec_len to.old + 96 ≤ 4096 }
    ensures { to.new.items ≡ to.old.items ++ model.spelling (Line.Total totals.now) }
{
    put_text(b"total", to);
    put_count(totals.commands, to);
    put_count(totals.born, to);
    put_count(totals.freed, to);
    put_count(totals.live, to);
    put_text(b"\n", to);
}

#[inline(never)]
fn put_reply(reply: &Reply, to: &mut Lines)
    requires { array_vec_len to.old + 64 ≤ 4096 }
    ensures { to.new.items ≡ to.old.items ++ model.reply_spelling reply.now }
{
    match reply {
        Reply::Done => put_text(b"ok\n", to),
        Reply::Loose => put_text(b"loose\n", to),
        Reply::Nothing => put_text(b"nothing\n", to),
        Reply::New(base) => put_new(*base, to),
        Reply::Word(word) => put_word(*word, to),
        Reply::Area(area) => put_area(*area, to),
        Reply::Object(found) => put_object(found, to),
        Reply::Stat(stat) => put_stat(stat, to),
        Reply::Refused(refusal) => put_refusal(*refusal, to),
    }
}

#[inline(never)]
fn put_new(base: u32, to: &mut Lines)
    requires { array_vec_len to.old + 64 ≤ 4096 }
    ensures { to.new.items ≡ to.old.items ++ model.reply_spelling (Reply.New base) }
{
    put_sentence(b"new", &[base], to);
}

#[inline(never)]
fn put_word(word: u32, to: &mut Lines)
    requires { array_vec_len to.old + 64 ≤ 4096 }
    ensures { to.new.items ≡ to.old.items ++ model.reply_spelling (Reply.Word word) }
{
    put_sentence(b"word", &[word], to);
}

#[inline(never)]
fn put_area(area: AreaAnswer, to: &mut Lines)
    requires { array_vec_len to.old + 64 ≤ 4096 }
    ensures { to.new.items ≡ to.old.items ++ model.reply_spelling (Reply.Area area) }
{
    put_sentence(b"area", &[area.number, area.base], to);
}

#[inline(never)]
fn put_object(found: &Mapped, to: &mut Lines)
    requires { array_vec_len to.old + 64 ≤ 4096 }
    ensures { to.new.items ≡ to.old.items ++ model.reply_spelling (Reply.Object found.now) }
{
    put_text(b"object", to);
    put_number(found.base, to);
    to.push(b' ');
    put_kind(found.kind, found.finalize, to);
    put_number(found.extent, to);
    to.push(b'\n');
}

#[inline(never)]
fn put_stat(stat: &Stat, to: &mut Lines)
    requires { array_vec_len to.old + 64 ≤ 4096 }
    ensures { to.new.items ≡ to.old.items ++ model.reply_spelling (Reply.Stat stat.now) }
{
    let s = *stat;
    put_sentence(b"stat", &[s.objects, s.zero, s.areas, s.free], to);
}

#[inline(never)]
fn put_refusal(refusal: Refusal, to: &mut Lines)
    requires { array_vec_len to.old + 64 ≤ 4096 }
    ensures { to.new.items ≡ to.old.items ++ model.reply_spelling (Reply.Refused refusal) }
{
    put_text(refusal_text(refusal).as_bytes(), to);
    to.push(b'\n');
}
