// A source and a sink over readers and writers in memory, whose bytes contracts know.
ghost use Rattle.std.specs.Prelude.{Some, codes};
ghost use Rattle.std.proofs.Common.{rules};

use crate::{NamedFiles, Sink, Source, StdSink, StdSource, SteadyRead, SteadyWrite};
use std::alloc::Global;
use std::collections::VecDeque;
use std::io;
use std::test::Fail;

impl SteadyRead for &[u8] {
    ghost steady = { Prim.search rules };
}

impl SteadyWrite for VecDeque<u8, Global> {
    ghost steady = { Prim.search rules };
}

/// One file, of the name `trace`.
#[derive(Clone, Copy)]
struct OneFile;

impl NamedFiles for OneFile {
    type File = &'static [u8];

    ghost named = { λ _. Some (record { name = codes "trace"; bytes = codes "named" }) };

    fn open(&self, name: &str) -> io::Result<&'static [u8]> {
        if name == "trace" {
            Ok(b"named")
        } else {
            Ok(b"")
        }
    }
}

#[test]
fn a_source_gives_its_reader_and_then_the_file_that_was_chosen(
    rt: HostRuntime,
) -> Result<(), Fail> {
    let mut source = StdSource::make(b"own".as_slice(), OneFile);
    let mut buf = [b'.'; 2];
    assert_eq!(rt; source.read(&mut buf), Ok(2));
    assert_eq!(rt; buf.as_slice(), b"ow".as_slice());
    assert_eq!(rt; source.choose("trace"), Ok(()));
    assert_eq!(rt; source.read(&mut buf), Ok(2));
    assert_eq!(rt; buf.as_slice(), b"na".as_slice());
    assert_eq!(rt; source.choose("none"), Ok(()));
    assert_eq!(rt; source.read(&mut buf), Ok(0));
    Ok(())
}

#[test]
fn a_sink_writes_its_writer(rt: HostRuntime) -> Result<(), Fail> {
    let mut sink = StdSink::make(VecDeque::new(rt.alloc()));
    assert_eq!(rt; sink.write(b"ab"), Ok(2));
    assert_eq!(rt; sink.flush(), Ok(()));
    assert_eq!(rt; sink.write(b"c"), Ok(1));
    assert_eq!(rt;
        sink.host
            .iter()
            .copied()
            .collect::<Vec<u8>>(rt.alloc())?
            .as_slice(),
        b"abc".as_slice()
    );
    Ok(())
}
