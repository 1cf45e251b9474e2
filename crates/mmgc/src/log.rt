// The journal that writes the log.
ghost use Rattle.std.specs.Prelude.{◌≡◌, ◌↔◌, ◌+◌, ◌++◌, length, ◌≤◌, ◌%◌, ◌^◌, [], false, not, sum, IsTrue, OnOk};
ghost use Rattle.std.specs.Prelude.{IsErr};
ghost use Rattle.arrayvec.specs.ArrayVec.{array_vec_len};
ghost use Rattle.mm_model.specs.Logs.Spelling.{spelling};
ghost use Rattle.mmgc.specs.Carrying.{Grew};
ghost use Rattle.mmgc.specs.Logging.{kept_by, KeepsOn, WasTold};
ghost use Rattle.mmgc.specs.Keeping.{grew-nothing, grew-on, keeps-same, keeps-trans};

use arrayvec::ArrayVec;
use mm_gc::{Finalizer, Journal};
use mm_io::{Failed, Sink, write_all};
use mm_model::{Line, Phase};
use mm_trace::write_line;

/// Writes the lines of a log to a sink that it borrows, in pieces of at most 4,096 bytes.
///
/// After a failed write or flush it is broken: it writes nothing more, and what was pending is lost.
#[derive(Drop)]
pub struct LogWriter<'a, K: Sink> {
    pub(crate) sink: &'a mut K,
    pub(crate) pending: ArrayVec<u8, 4096>,
    pub(crate) broken: bool,
}

impl<'a, K: Sink> LogWriter<'a, K> {
    /// A writer of no lines yet, which is whole.
    pub fn make(sink: &'a mut K) -> LogWriter<'a, K>
        ensures same_sink { result.sink.ghost_name ≡ sink.entry.ghost_name }
        ensures sink { result.sink.now ≡ sink.old }
        ensures pending { result.pending.items ≡ [] }
        ensures whole { result.broken ≡ false }
    {
        LogWriter {
            sink,
            pending: ArrayVec::new(),
            broken: false,
        }
    }

    /// Writes a line. It reaches the sink when the next piece is full, or at the latest when the writer writes out.
    #[inline(always)]
    pub fn line(&mut self, line: &Line)
        ensures written { Grew (kept_by K.taken self.old) (kept_by K.taken self.new) (spelling line.now) }
        ensures kept { KeepsOn K.faults K.taken self.old self.new }
    {
        self.make_room();
        self.append(line);
    }

    /// Goes on with these bytes, which reach the sink as lines do.
    pub fn text(&mut self, bytes: &[u8])
        requires { length bytes.now ≤ 64 }
        ensures written { Grew (kept_by K.taken self.old) (kept_by K.taken self.new) bytes.now }
        ensures kept { KeepsOn K.faults K.taken self.old self.new }
    {
        self.make_room();
        self.append_text(bytes);
    }

    /// Writes what is pending to the sink. An error says that the writer is broken.
    pub fn settle(&mut self) -> Result<(), Failed>
        ensures broken { IsErr result ↔ IsTrue self.new.broken }
        ensures nothing_pending { OnOk result (self.new.pending.items ≡ []) }
        ensures written { Grew (kept_by K.taken self.old) (kept_by K.taken self.new) [] }
        ensures kept { KeepsOn K.faults K.taken self.old self.new }
    {
        self.write_pending();
        self.outcome()
    }

    /// Writes out, and asks the sink to pass on what it still holds back.
    pub(crate) fn finish(&mut self) -> Result<(), Failed>
        ensures broken { IsErr result ↔ IsTrue self.new.broken }
        ensures nothing_pending { OnOk result (self.new.pending.items ≡ []) }
        ensures passed { self.new.broken ≡ false → K.passed self.new.sink.now ≡ K.taken self.new.sink.now }
        ensures written { Grew (kept_by K.taken self.old) (kept_by K.taken self.new) [] }
        ensures kept { KeepsOn K.faults K.taken self.old self.new }
    {
        self.write_pending();
        self.flush();
        self.outcome()
    }

    /// Whether nothing that it was given is lost.
    pub fn whole(&self) -> bool
        ensures { result ≡ not self.now.broken }
    {
        !self.broken
    }

    fn outcome(&self) -> Result<(), Failed>
        ensures { IsErr result ↔ IsTrue self.now.broken }
    {
        if self.broken { Err(Failed) } else { Ok(()) }
    }

    // The longest line fits behind what is pending.
    #[inline(always)]
    fn make_room(&mut self)
        ensures room { array_vec_len self.new.pending + 96 ≤ 4096 }
        ensures written { Grew (kept_by K.taken self.old) (kept_by K.taken self.new) [] }
        ensures kept { KeepsOn K.faults K.taken self.old self.new }
    {
        if self.pending.remaining_capacity() < 96 {
            self.write_pending();
        }
    }

    #[inline(always)]
    fn append(&mut self, line: &Line)
        requires { array_vec_len self.old.pending + 96 ≤ 4096 }
        ensures written { Grew (kept_by K.taken self.old) (kept_by K.taken self.new) (spelling line.now) }
        ensures kept { KeepsOn K.faults K.taken self.old self.new }
    {
        if self.whole() {
            write_line(line, &mut self.pending);
        }
    }

    fn append_text(&mut self, bytes: &[u8])
        requires room { array_vec_len self.old.pending + 96 ≤ 4096 }
        requires short { length bytes.now ≤ 64 }
        ensures written { Grew (kept_by K.taken self.old) (kept_by K.taken self.new) bytes.now }
        ensures kept { KeepsOn K.faults K.taken self.old self.new }
    {
        if self.whole() {
            put_bytes(bytes, &mut self.pending);
        }
    }

    // Nothing is pending afterwards: the sink has it, or it is lost.
    #[cold]
    #[inline(never)]
    fn write_pending(&mut self)
        ensures nothing_pending { self.new.pending.items ≡ [] }
        ensures written { Grew (kept_by K.taken self.old) (kept_by K.taken self.new) [] }
        ensures kept { KeepsOn K.faults K.taken self.old self.new }
    {
        if self.whole() {
            self.broken = write_all(self.sink, self.pending.as_slice()).is_err();
        }
        self.pending.clear();
    }

    fn flush(&mut self)
        ensures pending { self.new.pending ≡ self.old.pending }
        ensures passed { self.new.broken ≡ false → K.passed self.new.sink.now ≡ K.taken self.new.sink.now }
        ensures written { Grew (kept_by K.taken self.old) (kept_by K.taken self.new) [] }
        ensures kept { KeepsOn K.faults K.taken self.old self.new }
    {
        self.broken = self.broken || self.sink.flush().is_err();
    }
}

impl<'a, K: Sink> Finalizer for LogWriter<'a, K> {
    ghost tells = { WasTold K.faults K.taken };

    ghost tells_nothing = { λ w. (grew-nothing (kept_by K.taken w), keeps-same) };

    ghost tells_on = { λ v w x earlier later first next. (
      grew-on (kept_by K.taken v) (kept_by K.taken w) (kept_by K.taken x) earlier later first.0 next.0,
      keeps-trans first.1 next.1,
    ) };

    fn finalize(&mut self, base: u32, slots: &[u32]) {
        self.line(&Line::Final {
            base,
            slots: slots.len() as u32,
            sum: wrapping_sum(slots),
        });
    }
}

impl<'a, K: Sink> Journal for LogWriter<'a, K> {
    fn phase(&mut self, what: Phase, freed: u32) {
        self.line(&Line::Phase { what, freed });
    }

    fn free(&mut self, base: u32) {
        self.line(&Line::Free(base));
    }

    fn scan(&mut self, base: u32, slots: u32) {
        self.line(&Line::Scan { base, slots });
    }
}

fn put_bytes(bytes: &[u8], to: &mut ArrayVec<u8, 4096>)
    requires { array_vec_len to.old + length bytes.now ≤ 4096 }
    ensures { to.new.items ≡ to.old.items ++ bytes.now }
{
    let _ = to.try_extend_from_slice(bytes);
}

fn wrapping_sum(words: &[u32]) -> u32
    ensures { result ≡ sum words.now % 2 ^ 32 }
{
    let mut total = 0u32;
    for word in words {
        total = total.wrapping_add(*word);
    }
    total
}

#[cfg(test)]
mod tests {
    use super::LogWriter;
    use mm_gc::Journal;
    use mm_io::{Failed, MemSink, Sink};
    use mm_model::{Line, Phase, Reply};
    use std::test::Fail;

    // Lines of 21 bytes in all.
    fn write_two<K: Sink>(log: &mut LogWriter<'_, K>) {
        log.line(&Line::Free(4096));
        log.line(&Line::Scan { base: 8, slots: 2 });
    }

    fn tell<J: Journal>(journal: &mut J) {
        journal.phase(Phase::Reap, 1);
        journal.finalize(16, &[4294967295, 2]);
        journal.free(16);
        journal.scan(24, 3);
    }

    #[test]
    fn lines_longer_than_the_buffer_arrive_whole_and_in_order(rt: HostRuntime) -> Result<(), Fail> {
        let alloc = rt.alloc();
        let mut sink = MemSink::make(alloc, 8400, 7, Vec::new(alloc))?;
        let mut log = LogWriter::make(&mut sink);
        let mut expected = Vec::new(alloc);
        for _ in 0..400 {
            write_two(&mut log);
            expected.extend_from_slice(b" free 4096\n scan 8 2\n")?;
        }
        assert_eq!(rt; log.settle(), Ok(()));
        assert!(rt; log.whole());
        assert_eq!(rt; sink.taken(), expected.as_slice());
        Ok(())
    }

    #[test]
    fn a_failed_write_leaves_a_front_and_ends_the_log(rt: HostRuntime) -> Result<(), Fail> {
        let alloc = rt.alloc();
        let mut sink = MemSink::make(alloc, 100, 7, [2].to_vec(alloc)?)?;
        let mut log = LogWriter::make(&mut sink);
        write_two(&mut log);
        assert!(rt; log.whole());
        assert_eq!(rt; log.settle(), Err(Failed));
        assert!(rt; !log.whole());
        write_two(&mut log);
        assert_eq!(rt; log.settle(), Err(Failed));
        assert_eq!(rt; log.finish(), Err(Failed));
        assert_eq!(rt; sink.taken(), b" free 4".as_slice());
        Ok(())
    }

    #[test]
    fn a_failed_flush_breaks_a_log_whose_bytes_arrived(rt: HostRuntime) -> Result<(), Fail> {
        let alloc = rt.alloc();
        for (fails, whole) in [(2, false), (3, true)] {
            let mut sink = MemSink::make(alloc, 100, 7, [fails].to_vec(alloc)?)?;
            let mut log = LogWriter::make(&mut sink);
            log.line(&Line::Reply(Reply::Done));
            assert_eq!(rt; log.finish().is_ok(), whole, "{fails}");
            assert_eq!(rt; log.whole(), whole, "{fails}");
            assert_eq!(rt; sink.taken(), b"ok\n".as_slice(), "{fails}");
        }
        Ok(())
    }

    #[test]
    fn a_journal_spells_what_it_is_told(rt: HostRuntime) -> Result<(), Fail> {
        let alloc = rt.alloc();
        let mut sink = MemSink::make(alloc, 100, 7, Vec::new(alloc))?;
        let mut log = LogWriter::make(&mut sink);
        tell(&mut log);
        assert_eq!(rt; log.settle(), Ok(()));
        assert_eq!(rt;
            sink.taken(),
            b" reap 1\n final 16 2 1\n free 16\n scan 24 3\n".as_slice()
        );
        Ok(())
    }
}
