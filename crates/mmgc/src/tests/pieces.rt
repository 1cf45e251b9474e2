// Traces whose lines lie across the ends of the pieces of 4,096 bytes that are read.
ghost use Rattle.std.specs.Prelude.{◌≤◌};

use super::{Given, check};
use std::alloc::{AllocError, Global};
use std::test::Fail;

fn add_comment(trace: &mut Vec<u8>, len: usize) -> Result<(), AllocError> {
    for _ in 0..len {
        trace.push(b'#')?;
    }
    trace.push(b'\n')?;
    Ok(())
}

// Four comments of 4,096 bytes in all, less this many.
fn comments(alloc: Global, less: usize) -> Result<Vec<u8>, AllocError> {
    let mut trace = Vec::new(alloc);
    for _ in 0..3 {
        add_comment(&mut trace, 1023)?;
    }
    add_comment(&mut trace, 1023usize.saturating_sub(less))?;
    Ok(trace)
}

fn in_pieces(trace: &[u8]) -> Given<'_>
    ensures piece { 1 ≤ result.piece }
    ensures log_piece { 1 ≤ result.log_piece }
{
    Given {
        piece: 4096,
        ..Given::whole(trace)
    }
}

// The first line of ten bytes has none of them in the first piece, one of them, and so on up to all.
#[test]
fn a_line_may_lie_across_the_end_of_a_piece(rt: HostRuntime) -> Result<(), Fail> {
    let alloc = rt.alloc();
    for front in 0..11 {
        let mut trace = comments(alloc, front)?;
        trace.extend_from_slice(b"new t 0 4\npop 1\n")?;
        let log = b"new 4096\nok\ntotal 2 1 0 1\n";
        check(&rt, alloc, &in_pieces(&trace), 0, log, b"")?;
    }
    Ok(())
}

#[test]
fn a_line_across_pieces_may_have_1024_bytes(rt: HostRuntime) -> Result<(), Fail> {
    let alloc = rt.alloc();
    for front in [0, 1, 1000, 1023] {
        let mut trace = comments(alloc, front)?;
        add_comment(&mut trace, 1024)?;
        check(&rt, alloc, &in_pieces(&trace), 0, b"total 0 0 0 0\n", b"")?;
        let mut trace = comments(alloc, front)?;
        add_comment(&mut trace, 1025)?;
        check(
            &rt,
            alloc,
            &in_pieces(&trace),
            1,
            b"",
            b"mmgc: line 5: line too long\n",
        )?;
    }
    Ok(())
}
