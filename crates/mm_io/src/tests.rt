ghost use Rattle.std.specs.Prelude.{◌≡◌, ◌<◌, ◌≤◌, ◌⊎◌, length, take, Some, IfOk, OnErr};
ghost use Rattle.mm_io.specs.Faults.{Rose};
ghost use Rattle.mm_io.specs.Told.{Gives, Appends};

mod host;
mod streams;

use crate::{
    ChooseFault, Failed, MemSink, MemSource, Sink, Source, StdSink, StdSource, ZeroFaultSink,
    ZeroFaultSource, write_all,
};
use std::alloc::{AllocError, Global};
use std::test::Fail;

// One turn of a program that copies: one read, and all of it written.
fn copy_once<S: Source, K: Sink>(
    source: &mut S,
    sink: &mut K,
    buf: &mut [u8],
) -> Result<usize, Failed>
    requires { 0 < length buf.old }
    ensures given { IfOk result (λ n. Gives (S.left source.old) (S.left source.new) (take n buf.new)) }
    ensures written { IfOk result (λ n. Appends (K.taken sink.old) (K.taken sink.new) (take n buf.new)) }
    ensures cause { OnErr result (Rose (S.faults source.old) (S.faults source.new)
        ⊎ Rose (K.faults sink.old) (K.faults sink.new)) }
    ensures source_faults { S.faults source.old ≤ S.faults source.new }
    ensures sink_faults { K.faults sink.old ≤ K.faults sink.new }
{
    let n = source.read(buf)?;
    write_all(sink, &buf[..n])?;
    Ok(n)
}

// The contracts of the traits are enough to see that nothing fails here.
fn copy_all_without_faults(source: &mut ZeroFaultSource, sink: &mut ZeroFaultSink, name: &str) {
    let mut buf = [0; 4];
    match source.choose(name) {
        Ok(()) => {}
        Err(_) => unreachable!(),
    }
    for _ in 0..100 {
        match copy_once(source, sink, &mut buf) {
            Ok(_) => {}
            Err(_) => unreachable!(),
        }
    }
    match sink.flush() {
        Ok(()) => {}
        Err(_) => unreachable!(),
    }
}

// A source in memory is never short of it.
fn is_chosen(source: &mut MemSource, name: &str) -> bool {
    match source.choose(name) {
        Ok(()) => true,
        Err(ChooseFault::Failed) => false,
        Err(ChooseFault::NoMemory) => unreachable!(),
    }
}

// What a sink has room for, it tells.
fn kept_whole(alloc: Global, bytes: &[u8]) -> Result<ZeroFaultSink, AllocError>
    ensures { IfOk result (λ sink. ⟦<ZeroFaultSink as Sink>⟧.taken sink ≡ Some bytes.now) }
{
    let mut sink = ZeroFaultSink::make(alloc, bytes.len())?;
    match write_all(&mut sink, bytes) {
        Ok(()) => Ok(sink),
        Err(_) => unreachable!(),
    }
}

// What a sink has no room for, it doesn't keep.
fn kept_in(alloc: Global, room: usize, bytes: &[u8]) -> Result<ZeroFaultSink, AllocError>
    ensures { IfOk result (λ sink. ⟦<ZeroFaultSink as Sink>⟧.kept sink ≡ Some (take room bytes.now)) }
{
    let mut sink = ZeroFaultSink::make(alloc, room)?;
    match write_all(&mut sink, bytes) {
        Ok(()) => Ok(sink),
        Err(_) => unreachable!(),
    }
}

// What a number of reads give, each followed by a bar. A failed read is an exclamation mark.
fn reads<S: Source>(alloc: Global, source: &mut S, count: u32) -> Result<Vec<u8>, AllocError> {
    let mut seen = Vec::new(alloc);
    let mut buf = [0; 16];
    for _ in 0..count {
        match source.read(&mut buf) {
            Ok(n) => seen.extend_from_slice(&buf[..n])?,
            Err(Failed) => seen.push(b'!')?,
        }
        seen.push(b'|')?;
    }
    Ok(seen)
}

// How many of five bytes each of a number of writes takes, and the same for a flush at the end.
fn writes<K: Sink>(alloc: Global, sink: &mut K, count: u32) -> Result<Vec<u8>, AllocError> {
    let mut seen = Vec::new(alloc);
    for _ in 0..count {
        match sink.write(b"abcde") {
            Ok(n) => seen.push(b"012345"[n])?,
            Err(Failed) => seen.push(b'!')?,
        }
    }
    seen.push(match sink.flush() {
        Ok(()) => b'.',
        Err(Failed) => b'!',
    })?;
    Ok(seen)
}

#[test]
fn a_source_in_memory_reads_in_pieces_and_fails_at_its_calls(rt: HostRuntime) -> Result<(), Fail> {
    let alloc = rt.alloc();
    let rows: [(usize, &[u32], &[u8]); 6] = [
        (1, &[], b"a|b|c|d|e|f|g|h|i|||"),
        (7, &[], b"abcdefg|hi||||||||||"),
        (1, &[2, 4], b"a|!|b|!|c|d|e|f|g|h|i|"),
        (7, &[1], b"!|abcdefg|hi|||||||||"),
        (7, &[2, 3], b"abcdefg|!|!|hi||||||||"),
        (40, &[11, 0], b"abcdefghi||||||||||!|"),
    ];
    for (piece, fails, expected) in rows {
        let mut source = MemSource::make(b"abcdefghi".to_vec(alloc)?, piece, fails.to_vec(alloc)?);
        assert_eq!(rt;
            reads(alloc, &mut source, 11)?.as_slice(),
            expected,
            "{fails:?}, {piece}"
        );
    }
    Ok(())
}

#[test]
fn choose_turns_to_the_named_file_alone(rt: HostRuntime) -> Result<(), Fail> {
    let alloc = rt.alloc();
    let rows: [(&str, &[u8]); 4] = [
        ("trace", b"named||"),
        ("trac", b"||"),
        ("", b"||"),
        ("-", b"||"),
    ];
    for (name, expected) in rows {
        let file = String::from_str(alloc, "trace")?;
        let mut source = MemSource::make(b"own".to_vec(alloc)?, 9, Vec::new(alloc)).with_file(
            file,
            b"named".to_vec(alloc)?,
        );
        assert_eq!(rt;
            reads(alloc, &mut source, 1)?.as_slice(),
            b"own|".as_slice()
        );
        for _ in 0..2 {
            assert_eq!(rt; source.choose(name), Ok(()));
            assert_eq!(rt;
                reads(alloc, &mut source, 2)?.as_slice(),
                expected,
                "{name}"
            );
        }
    }
    Ok(())
}

#[test]
fn a_source_without_a_file_has_no_bytes_under_any_name(rt: HostRuntime) -> Result<(), Fail> {
    let alloc = rt.alloc();
    let mut source = MemSource::make(b"own".to_vec(alloc)?, 9, Vec::new(alloc));
    assert_eq!(rt; source.choose("own"), Ok(()));
    assert_eq!(rt; reads(alloc, &mut source, 2)?.as_slice(), b"||".as_slice());
    Ok(())
}

#[test]
fn choose_and_read_are_numbered_together(rt: HostRuntime) -> Result<(), Fail> {
    let alloc = rt.alloc();
    let file = String::from_str(alloc, "trace")?;
    let mut source = MemSource::make(b"own".to_vec(alloc)?, 2, [2, 5].to_vec(alloc)?).with_file(
        file,
        b"named".to_vec(alloc)?,
    );
    assert_eq!(rt; reads(alloc, &mut source, 1)?.as_slice(), b"ow|".as_slice());
    assert!(rt; !is_chosen(&mut source, "trace"));
    assert_eq!(rt; reads(alloc, &mut source, 1)?.as_slice(), b"n|".as_slice());
    assert_eq!(rt; source.choose("trace"), Ok(()));
    assert_eq!(rt;
        reads(alloc, &mut source, 3)?.as_slice(),
        b"!|na|me|".as_slice()
    );
    Ok(())
}

#[test]
fn another_file_leaves_what_is_being_read(rt: HostRuntime) -> Result<(), Fail> {
    let alloc = rt.alloc();
    let mut source = MemSource::make(b"own".to_vec(alloc)?, 2, Vec::new(alloc)).with_file(
        String::from_str(alloc, "first")?,
        b"1st".to_vec(alloc)?,
    );
    assert_eq!(rt; source.choose("first"), Ok(()));
    assert_eq!(rt; reads(alloc, &mut source, 1)?.as_slice(), b"1s|".as_slice());
    let mut source = source.with_file(String::from_str(alloc, "second")?, b"2nd".to_vec(alloc)?);
    assert_eq!(rt; reads(alloc, &mut source, 2)?.as_slice(), b"t||".as_slice());
    assert_eq!(rt; source.choose("second"), Ok(()));
    assert_eq!(rt;
        reads(alloc, &mut source, 2)?.as_slice(),
        b"2n|d|".as_slice()
    );
    Ok(())
}

#[test]
fn a_sink_in_memory_takes_pieces_and_keeps_what_has_room(rt: HostRuntime) -> Result<(), Fail> {
    let alloc = rt.alloc();
    let rows: [(usize, usize, &[u32], &[u8], &[u8]); 7] = [
        (20, 7, &[], b"555.", b"abcdeabcdeabcde"),
        (20, 3, &[], b"333.", b"abcabcabc"),
        (20, 1, &[], b"111.", b"aaa"),
        (8, 7, &[], b"555.", b"abcdeabc"),
        (0, 7, &[], b"555.", b""),
        (20, 3, &[2], b"3!3.", b"abcabc"),
        (4, 3, &[1, 4], b"!33!", b"abca"),
    ];
    for (room, piece, fails, answers, kept) in rows {
        let mut sink = MemSink::make(alloc, room, piece, fails.to_vec(alloc)?)?;
        assert_eq!(rt;
            writes(alloc, &mut sink, 3)?.as_slice(),
            answers,
            "{room}, {piece}, {fails:?}"
        );
        assert_eq!(rt; sink.taken(), kept, "{room}, {piece}, {fails:?}");
    }
    Ok(())
}

#[test]
fn write_all_writes_to_the_end_or_stops_at_a_fault(rt: HostRuntime) -> Result<(), Fail> {
    let alloc = rt.alloc();
    let rows: [(&[u8], &[u32], bool, &[u8]); 4] = [
        (b"abcdefgh", &[], true, b"abcdefgh"),
        (b"abcdefgh", &[3], false, b"abcdef"),
        (b"abcdefgh", &[4], true, b"abcdefgh"),
        (b"", &[1], true, b""),
    ];
    for (bytes, fails, whole, taken) in rows {
        let mut sink = MemSink::make(alloc, 20, 3, fails.to_vec(alloc)?)?;
        assert_eq!(rt; write_all(&mut sink, bytes).is_ok(), whole, "{fails:?}");
        assert_eq!(rt; sink.taken(), taken, "{fails:?}");
    }
    Ok(())
}

#[test]
fn objects_without_faults_move_every_byte(rt: HostRuntime) -> Result<(), Fail> {
    let alloc = rt.alloc();
    for (room, piece, kept) in [
        (20, 3, b"a named file".as_slice()),
        (4, 9, b"a na".as_slice()),
    ] {
        let mut source = ZeroFaultSource::make(b"own".to_vec(alloc)?, piece).with_file(
            String::from_str(alloc, "trace")?,
            b"a named file".to_vec(alloc)?,
        );
        let mut sink = ZeroFaultSink::make(alloc, room)?;
        copy_all_without_faults(&mut source, &mut sink, "trace");
        assert_eq!(rt; sink.taken(), kept);
    }
    assert_eq!(rt; kept_whole(alloc, b"abc")?.taken(), b"abc".as_slice());
    assert_eq!(rt; kept_in(alloc, 2, b"abc")?.taken(), b"ab".as_slice());
    Ok(())
}

#[test]
fn the_host_tells_ends_and_faults(rt: HostRuntime) -> Result<(), Fail> {
    let mut source = StdSource::make(rt.stdin(), rt);
    assert_eq!(rt; source.choose("/no/such/file"), Err(ChooseFault::Failed));
    assert_eq!(rt; source.choose("/dev/zero"), Ok(()));
    assert_eq!(rt; source.read(&mut [1; 3]), Ok(3));
    assert_eq!(rt; source.choose("/dev/null"), Ok(()));
    assert_eq!(rt; source.read(&mut [1; 3]), Ok(0));
    assert_eq!(rt; source.choose("/"), Ok(()));
    assert_eq!(rt; source.read(&mut [1; 3]), Err(Failed));
    assert_eq!(rt; StdSink::make(rt.stdout()).flush(), Ok(()));
    assert_eq!(rt; StdSink::make(rt.stderr()).flush(), Ok(()));
    assert_eq!(rt; StdSink::make(rt.stderr()).write(b"\n"), Ok(1));
    Ok(())
}
