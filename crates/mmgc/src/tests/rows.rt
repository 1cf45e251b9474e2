// Worked traces with their logs.
use super::{Given, check};
use crate::{Outcome, run};
use mm_io::{ZeroFaultSink, ZeroFaultSource};
use std::alloc::Global;
use std::process::Abort;
use std::test::Fail;

const INNER: &str = "new t 0 4\ninner 0 31\nmap 0\ninner 1 32\n";

const INNER_LOG: &str = "new 4096\nword 4127\nobject 4096 t 32\noutside\ntotal 4 1 0 1\n";

fn check_whole(rt: &impl Abort, alloc: Global, trace: &str, log: &str) -> Result<(), Fail> {
    check(
        rt,
        alloc,
        &Given::whole(trace.as_bytes()),
        0,
        log.as_bytes(),
        b"",
    )
}

fn check_fault(
    rt: &impl Abort,
    alloc: Global,
    trace: &str,
    log: &str,
    said: &str,
) -> Result<(), Fail> {
    check(
        rt,
        alloc,
        &Given::whole(trace.as_bytes()),
        1,
        log.as_bytes(),
        said.as_bytes(),
    )
}

#[test]
fn words_are_pushed_read_and_written(rt: HostRuntime) -> Result<(), Fail> {
    for (trace, log) in [
        (INNER, INNER_LOG),
        (
            "new l 0 1\nnew t 0 2\npush 9\nput 2 0 0\nput 1 1 2\nget 1 1\nget 0 0\n",
            "new 4096\nnew 4128\nok\nok\nok\nword 4096\nword 9\ntotal 7 2 0 2\n",
        ),
        ("new t 0 4\npop 1\n", "new 4096\nok\ntotal 2 1 0 1\n"),
        (
            "push 4100\nnew l 0 0\npop 1\nmap 0\nstat\n",
            "ok\nnew 4096\nok\nobject 4096 l 16\nstat 1 0 0 1022\ntotal 5 1 0 1\n",
        ),
        ("push 4294967295\n", "ok\ntotal 1 0 0 0\n"),
        (
            "dup 0\npush 7\nget 0 0\npop 2\nmap 0\n",
            "no cell\nok\nnothing\nno cell\nnothing\ntotal 5 0 0 0\n",
        ),
    ] {
        check_whole(&rt, rt.alloc(), trace, log)?;
    }
    Ok(())
}

#[test]
fn a_trace_may_come_one_byte_at_a_time(rt: HostRuntime) -> Result<(), Fail> {
    let given = Given {
        piece: 1,
        ..Given::whole(INNER.as_bytes())
    };
    check(&rt, rt.alloc(), &given, 0, INNER_LOG.as_bytes(), b"")
}

#[test]
fn a_line_outside_the_grammar_ends_the_run(rt: HostRuntime) -> Result<(), Fail> {
    for (trace, said) in [
        ("new t 0 1\npop 1\nnew q 0 1\n", "mmgc: line 3: bad word\n"),
        ("new t 0 1\npop 1\nnew q 0 1", "mmgc: line 3: bad word\n"),
        (
            "new t 0 1\npop 1\nnew q\n",
            "mmgc: line 3: wrong number of words\n",
        ),
    ] {
        check_fault(&rt, rt.alloc(), trace, "new 4096\nok\n", said)?;
    }
    check_fault(
        &rt,
        rt.alloc(),
        "push 4294967295\npush 4294967296\n",
        "ok\n",
        "mmgc: line 2: bad number\n",
    )
}

#[test]
fn a_run_without_faults_reads_and_writes_words(rt: HostRuntime) -> Result<(), Fail> {
    let alloc = rt.alloc();
    let words = Vec::new(alloc);
    let mut source = ZeroFaultSource::make(INNER.as_bytes().to_vec(alloc)?, 1);
    let mut out = ZeroFaultSink::make(alloc, 100)?;
    let mut err = ZeroFaultSink::make(alloc, 0)?;
    let Outcome { status, heap } = run(alloc, &words, &mut source, &mut out, &mut err);
    if let Some(heap) = heap {
        heap.close();
    }
    assert_eq!(rt; status, 0);
    assert_eq!(rt; out.taken(), INNER_LOG.as_bytes());
    Ok(())
}

// The example of docs/trace.md.
const EXAMPLE: &str =
    "# An object of four slots takes 32 bytes: its header of 16, and 4 for each slot.
new t 0 4
push 7
# Cell 1 means the object now, and cell 0 has the word 7.
put 1 0 0
get 1 0

# The last byte of the object, and one byte too far.
inner 2 31
map 0
inner 0 1
new t 0 1048576
stat
";

const EXAMPLE_LOG: &str = "new 4096
ok
ok
word 7
word 4127
object 4096 t 32
outside
bad shape
stat 1 0 0 1022
total 9 1 0 1
";

#[test]
fn the_example_of_the_documents_is_true(rt: HostRuntime) -> Result<(), Fail> {
    check_whole(&rt, rt.alloc(), EXAMPLE, EXAMPLE_LOG)
}
