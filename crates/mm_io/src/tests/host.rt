// What is made of readers and writers that fail, move few bytes, or move none.
ghost use Rattle.std.specs.Prelude.{◌≤◌, IfOk};

use crate::host::{flush_once, opened, read_once, write_once};
use crate::{ChooseFault, Failed};
use std::io;
use std::io::{Error, ErrorKind, Read, Write};
use std::test::Fail;

#[derive(Clone, Copy)]
enum Answer {
    Moves(usize),
    Fails(ErrorKind),
}

// Answers its calls by this list, and moves nothing behind its end.
#[derive(Drop)]
struct Planned<'a> {
    answers: &'a [Answer],
    calls: usize,
}

impl<'a> Planned<'a> {
    fn next(&mut self, most: usize) -> io::Result<usize>
        ensures { IfOk result (λ n. n ≤ most) }
    {
        let answer = self.answers.get(self.calls).copied();
        self.calls = self.calls.saturating_add(1);
        match answer {
            Some(Answer::Moves(n)) => Ok(n.min(most)),
            Some(Answer::Fails(kind)) => Err(Error::from(kind)),
            None => Ok(0),
        }
    }
}

impl<'a> Read for Planned<'a> {
    fn read(&mut self, buf: &mut [u8]) -> io::Result<usize> {
        let n = self.next(buf.len())?;
        buf[..n].fill(b'x');
        Ok(n)
    }
}

impl<'a> Write for Planned<'a> {
    fn write(&mut self, bytes: &[u8]) -> io::Result<usize> {
        self.next(bytes.len())
    }

    fn flush(&mut self) -> io::Result<()> {
        self.next(0)?;
        Ok(())
    }
}

const PLAN: &[Answer] = &[
    Answer::Moves(3),
    Answer::Moves(0),
    Answer::Fails(ErrorKind::Interrupted),
    Answer::Fails(ErrorKind::StorageFull),
    Answer::Moves(2000),
];

#[test]
fn a_read_gives_what_came_and_counts_its_errors(rt: HostRuntime) -> Result<(), Fail> {
    let mut host = Planned {
        answers: PLAN,
        calls: 0,
    };
    let mut faults = 0;
    let mut buf = [b'.'; 5];
    for (answer, counted, bytes) in [
        (Ok(3), 0, b"xxx.."),
        (Ok(0), 0, b"xxx.."),
        (Err(Failed), 1, b"xxx.."),
        (Err(Failed), 2, b"xxx.."),
        (Ok(5), 2, b"xxxxx"),
        (Ok(0), 2, b"xxxxx"),
    ] {
        assert_eq!(rt; read_once(&mut host, &mut buf, &mut faults), answer);
        assert_eq!(rt; faults, counted);
        assert_eq!(rt; buf.as_slice(), bytes.as_slice());
    }
    Ok(())
}

#[test]
fn a_write_that_fails_or_takes_nothing_is_counted(rt: HostRuntime) -> Result<(), Fail> {
    let mut host = Planned {
        answers: PLAN,
        calls: 0,
    };
    let mut faults = u64::MAX - 3;
    for (answer, counted) in [
        (Ok(3), u64::MAX - 3),
        (Err(Failed), u64::MAX - 2),
        (Err(Failed), u64::MAX - 1),
        (Err(Failed), u64::MAX),
        (Ok(1500), u64::MAX),
        (Err(Failed), u64::MAX),
    ] {
        assert_eq!(rt; write_once(&mut host, &[b'x'; 1500], &mut faults), answer);
        assert_eq!(rt; faults, counted);
    }
    Ok(())
}

#[test]
fn a_failed_flush_is_counted(rt: HostRuntime) -> Result<(), Fail> {
    let mut host = Planned {
        answers: PLAN,
        calls: 1,
    };
    let mut faults = 0;
    for (answer, counted) in [(Ok(()), 0), (Err(Failed), 1), (Err(Failed), 2), (Ok(()), 2)] {
        assert_eq!(rt; flush_once(&mut host, &mut faults), answer);
        assert_eq!(rt; faults, counted);
    }
    Ok(())
}

#[test]
fn an_opened_file_is_handed_on_and_no_memory_is_no_fault(rt: HostRuntime) -> Result<(), Fail> {
    let mut faults = 0;
    assert_eq!(rt; opened(Ok(7), &mut faults), Ok(7));
    for (kind, refusal, counted) in [
        (ErrorKind::OutOfMemory, ChooseFault::NoMemory, 0),
        (ErrorKind::NotFound, ChooseFault::Failed, 1),
        (ErrorKind::PermissionDenied, ChooseFault::Failed, 2),
    ] {
        let answer: io::Result<u32> = Err(Error::from(kind));
        assert_eq!(rt; opened(answer, &mut faults), Err(refusal));
        assert_eq!(rt; faults, counted);
    }
    Ok(())
}
