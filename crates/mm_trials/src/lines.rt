// Lines of a trace as programs write them, of which no clause says that they are read in one pass.
use mm_model::{Command, Kind, Shape};
use mm_trace::{parse_line, parse_plain_line};

fn made(kind: Kind, finalize: bool, counted: u32, slots: u32) -> Command {
    Command::New(Shape {
        kind,
        finalize,
        counted,
        slots,
    })
}

#[test]
fn each_command_is_read_in_one_pass(rt: HostRuntime) {
    for (line, command) in [
        ("new t 0 4", made(Kind::Traced, false, 0, 4)),
        ("new l 0 600", made(Kind::Leaf, false, 0, 600)),
        ("new r 2 4", made(Kind::Counted, false, 2, 4)),
        ("new tf 1 2", made(Kind::Traced, true, 1, 2)),
        ("new lf 0 2", made(Kind::Leaf, true, 0, 2)),
        ("new rf 0 1048576", made(Kind::Counted, true, 0, 1048576)),
        ("push 4294967295", Command::Push(4294967295)),
        ("dup 3", Command::Dup(3)),
        ("pop 0", Command::Pop(0)),
        ("inner 0 31", Command::Inner(0, 31)),
        ("get 1 2", Command::Get(1, 2)),
        ("put 1 2 3", Command::Put(1, 2, 3)),
        ("weak 4", Command::Weak(4)),
        ("look 5", Command::Look(5)),
        ("root 4 8", Command::Root(4, 8)),
        ("fixed 1", Command::Fixed(1)),
        ("drop 6", Command::DropArea(6)),
        ("aget 0 7", Command::AreaGet(0, 7)),
        ("aput 0 7 1", Command::AreaPut(0, 7, 1)),
        ("reap", Command::Reap),
        ("collect", Command::Collect),
        ("begin", Command::Begin),
        ("step 16", Command::Step(16)),
        ("finish", Command::Finish),
        ("map 9", Command::Map(9)),
        ("stat", Command::Stat),
    ] {
        assert_eq!(rt;
            parse_plain_line(line.as_bytes()),
            Some(command),
            "at {line}"
        );
        assert_eq!(rt; parse_line(line.as_bytes()), Ok(Some(command)), "at {line}");
    }
}
