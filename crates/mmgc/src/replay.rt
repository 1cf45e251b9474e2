// A trace that is being carried out.
// What most lines need is inlined into the loop of `take_piece`; the arms of the commands and what is rare are not.
ghost use Rattle.std.specs.Prelude.{◌≡◌, ℕ, ◌+◌, ◌-◌, ◌<◌, ◌≤◌, ◌++◌, ◌∷◌, [], ◌^◌, false, true, Some, None, Ok, Err};
ghost use Rattle.std.specs.Prelude.{Option, List, length, IfErr, IfOk, IfSome, OnOk, IsTrue, cond};
ghost use Rattle.mm_gc.specs.Gc.{view_of_gc};
ghost use Rattle.mm_io.specs.Told.{Gives};
ghost use Rattle.mm_trace.specs.Lines.{IsWithinLine};
ghost use Rattle.mm_model.specs.declared.refusal.LineFault.TheVariants.{LineTooLong};
ghost use Rattle.mm_model.specs.declared.settings.Settings.{Settings};
ghost use Rattle.mm_model.specs.Logs.Trace.{complete_lines, line_reading, lines_of, FaultAt};
ghost use Rattle.mmgc.specs.Appending.{HasPages, IsReadyFor, asked_of};
ghost use Rattle.mmgc.specs.Carrying.{Grew};
ghost use Rattle.mmgc.specs.Logging.{book_of, driver_of, kept_by, moment_of, noting_executor, KeepsOn};
ghost use Rattle.mmgc.specs.Pacing.{Advances, IsReady};
ghost use Rattle.mmgc.specs.Replaying.{DoesLine, GoesOn, IsNewDriver, IsUnderWay, Progress, Start, Stopped};
ghost use Rattle.mmgc.specs.Replaying.{most_bytes};
ghost use Rattle.mmgc.specs.Run.{Ended, Input, IsFaultOf, Logged, NothingLeft, Reach, Replayed, Turns, lines_in};

use crate::appendix::Appendix;
use crate::executor::Executor;
use crate::log::LogWriter;
use mm_gc::Gc;
use mm_io::{Sink, Source};
use mm_model::{Line, LineFault};
use mm_pace::a_trace_is_at_most_quadrupled;
use mm_sites::{
    lines_of_sites_are_passed_over, nothing_is_entered_at_first,
    sites_of_lines_come_one_after_another, totals_are_those_of_the_living,
};
use mm_trace::{Cutter, line_end, parse_line, parse_plain_line};

/// How a replay ended.
#[derive(Clone, Copy, Debug, PartialEq, Eq)]
pub(crate) enum End {
    /// All of the input was carried out.
    Whole,
    /// The line with this number, counted from 1, is outside the grammar.
    Fault { line: u32, fault: LineFault },
    /// The source failed.
    ReadFailed,
    /// The sink failed.
    WriteFailed,
    /// The input has more bytes than a trace may have.
    TooLong,
}

/// How far a trace was read.
#[derive(Drop)]
struct Replay {
    cutter: Cutter,
    /// The lines that were read so far.
    lines: u32,
    executor: Executor,
}

/// Carries out what a line says.
#[cold]
#[inline(never)]
fn take_line<K: Sink>(
    heap: &mut Gc,
    log: &mut LogWriter<'_, K>,
    executor: &mut Executor,
    line: &[u8],
) -> Result<(), LineFault>
    requires { IsReady (driver_of heap.old executor.old) }
    ensures done { DoesLine (line_reading line.now) result
        ((heap.new ≡ heap.old) × (executor.new ≡ executor.old) × (log.new ≡ log.old))
        ((heap.new ≡ heap.old) × (executor.new ≡ noting_executor line.now executor.old) × (log.new ≡ log.old))
        (λ command. Advances (driver_of heap.old executor.old) (driver_of heap.new executor.new) command
        (kept_by K.taken log.old) (kept_by K.taken log.new)) }
    ensures kept { KeepsOn K.faults K.taken log.old log.new }
{
    match parse_line(line)? {
        None => {
            executor.note_line(line);
            Ok(())
        }
        Some(command) => {
            executor.execute(heap, log, &command);
            Ok(())
        }
    }
}

/// The same for a line that lies whole in a piece, as most do.
// Whether something is kept beside the heap is asked before the line is read, and the quick way to read one stands here
// alone. So where nothing is, what is read of a command leads straight to what carries it out.
#[inline(always)]
fn take_whole_line<K: Sink>(
    heap: &mut Gc,
    log: &mut LogWriter<'_, K>,
    executor: &mut Executor,
    line: &[u8],
) -> Result<(), LineFault>
    requires { IsReady (driver_of heap.old executor.old) }
    ensures done { DoesLine (line_reading line.now) result
        ((heap.new ≡ heap.old) × (executor.new ≡ executor.old) × (log.new ≡ log.old))
        ((heap.new ≡ heap.old) × (executor.new ≡ noting_executor line.now executor.old) × (log.new ≡ log.old))
        (λ command. Advances (driver_of heap.old executor.old) (driver_of heap.new executor.new) command
        (kept_by K.taken log.old) (kept_by K.taken log.new)) }
    ensures kept { KeepsOn K.faults K.taken log.old log.new }
{
    if !executor.is_idle() {
        return take_line(heap, log, executor, line);
    }
    match parse_plain_line(line) {
        None => take_line(heap, log, executor, line),
        Some(command) => {
            executor.execute_alone(heap, log, &command);
            Ok(())
        }
    }
}

impl Replay {
    /// Carries out what the line says that is held and goes on with these bytes.
    fn take_joined<K: Sink>(
        &mut self,
        heap: &mut Gc,
        log: &mut LogWriter<'_, K>,
        rest: &[u8],
    ) -> Result<(), LineFault>
        requires { IsReady (driver_of heap.old self.old.executor) }
        ensures done { DoesLine (line_reading (self.old.cutter ++ rest.now)) result
            ((heap.new ≡ heap.old) × (self.new.executor ≡ self.old.executor) × (log.new ≡ log.old))
            ((heap.new ≡ heap.old) × (self.new.executor ≡ noting_executor (self.old.cutter ++ rest.now) self.old.executor)
            × (log.new ≡ log.old))
            (λ command. Advances (driver_of heap.old self.old.executor) (driver_of heap.new self.new.executor) command
            (kept_by K.taken log.old) (kept_by K.taken log.new)) }
        ensures kept { KeepsOn K.faults K.taken log.old log.new }
        ensures cutter { OnOk result (self.new.cutter ≡ []) }
        ensures lines { self.new.lines ≡ self.old.lines }
    {
        self.cutter.extend(rest)?;
        let taken = take_line(heap, log, &mut self.executor, self.cutter.bytes());
        self.cutter.clear();
        taken
    }

    /// Takes the bytes up to the next newline, and the newline.
    fn take_ended<K: Sink>(
        &mut self,
        heap: &mut Gc,
        log: &mut LogWriter<'_, K>,
        line: &[u8],
    ) -> Result<(), LineFault>
        requires within { IsWithinLine line.now }
        requires room { IsUnderWay (moment_of K.taken heap.old self.old log.old) (length line.now + 1) }
        ensures progress { (start : Start) (bytes : List ℕ) → length bytes + (length line.now + 1) ≤ most_bytes →
            Progress start bytes (moment_of K.taken heap.old self.old log.old) →
            GoesOn result
            (Progress start ((bytes ++ line.now) ++ 10 ∷ []) (moment_of K.taken heap.new self.new log.new))
            (λ fault. (rest : List ℕ) → Stopped start (complete_lines ((bytes ++ line.now) ++ 10 ∷ rest))
            (Some (record { line = self.new.lines; fault = fault })) (driver_of heap.new self.new.executor)
            (kept_by K.taken log.new)) }
        ensures kept { KeepsOn K.faults K.taken log.old log.new }
    {
        a_trace_is_at_most_quadrupled();
        sites_of_lines_come_one_after_another();
        lines_of_sites_are_passed_over();
        self.lines += 1;
        if self.cutter.is_empty() {
            return take_whole_line(heap, log, &mut self.executor, line);
        }
        self.take_joined(heap, log, line)
    }

    /// Holds bytes of a line whose newline is still to come.
    fn hold(&mut self, bytes: &[u8]) -> Result<(), LineFault>
        requires { self.old.lines + (length self.old.cutter + length bytes.now) ≤ most_bytes }
        ensures held { OnOk result ((self.new.cutter ≡ self.old.cutter ++ bytes.now)
            × (self.new.lines ≡ self.old.lines)) }
        ensures fits { OnOk result (length self.old.cutter + length bytes.now ≤ 1024) }
        ensures too_long { IfErr result (λ fault. (fault ≡ LineTooLong)
            × (1024 < length self.old.cutter + length bytes.now) × (self.new.lines ≡ self.old.lines + 1)) }
        ensures executor { self.new.executor ≡ self.old.executor }
    {
        match self.cutter.extend(bytes) {
            Ok(()) => Ok(()),
            Err(fault) => {
                self.lines += 1;
                Err(fault)
            }
        }
    }

    /// Takes the next piece of the trace, up to the first line with a fault.
    #[inline(never)]
    fn take_piece<K: Sink>(
        &mut self,
        heap: &mut Gc,
        log: &mut LogWriter<'_, K>,
        piece: &[u8],
    ) -> Result<(), LineFault>
        requires { IsUnderWay (moment_of K.taken heap.old self.old log.old) (length piece.now) }
        ensures progress { (start : Start) (bytes : List ℕ) → length bytes + length piece.now ≤ most_bytes →
            Progress start bytes (moment_of K.taken heap.old self.old log.old) →
            GoesOn result (Progress start (bytes ++ piece.now) (moment_of K.taken heap.new self.new log.new))
            (λ fault. Stopped start (complete_lines (bytes ++ piece.now))
            (Some (record { line = self.new.lines; fault = fault })) (driver_of heap.new self.new.executor)
            (kept_by K.taken log.new)) }
        ensures kept { KeepsOn K.faults K.taken log.old log.new }
    {
        sites_of_lines_come_one_after_another();
        lines_of_sites_are_passed_over();
        let mut rest = piece;
        while let Some(end) = line_end(rest) {
            self.take_ended(heap, log, &rest[..end])?;
            rest = &rest[end + 1..];
        }
        self.hold(rest)
    }

    /// Takes what is held as the last line of the input, unless nothing is held.
    fn take_rest<K: Sink>(
        &mut self,
        heap: &mut Gc,
        log: &mut LogWriter<'_, K>,
    ) -> Result<(), LineFault>
        requires { IsUnderWay (moment_of K.taken heap.old self.old log.old) 0 }
        ensures stopped { (start : Start) (bytes : List ℕ) → length bytes ≤ most_bytes →
            Progress start bytes (moment_of K.taken heap.old self.old log.old) →
            GoesOn result (Stopped start (lines_of bytes) None (driver_of heap.new self.new.executor)
            (kept_by K.taken log.new))
            (λ fault. Stopped start (lines_of bytes) (Some (record { line = self.new.lines; fault = fault }))
            (driver_of heap.new self.new.executor) (kept_by K.taken log.new)) }
        ensures kept { KeepsOn K.faults K.taken log.old log.new }
    {
        a_trace_is_at_most_quadrupled();
        sites_of_lines_come_one_after_another();
        lines_of_sites_are_passed_over();
        if self.cutter.is_empty() {
            return Ok(());
        }
        self.lines += 1;
        take_line(heap, log, &mut self.executor, self.cutter.bytes())
    }

    /// Writes what is pending, and then reads once and takes what was read; `room` is how many bytes a trace may still
    /// have.
    fn turn<S: Source, K: Sink>(
        &mut self,
        heap: &mut Gc,
        log: &mut LogWriter<'_, K>,
        source: &mut S,
        buffer: &mut [u8],
        room: u32,
    ) -> Result<u32, End>
        requires buffer { (0 < length buffer.old) × (length buffer.old ≤ 4096) }
        requires room { IsUnderWay (moment_of K.taken heap.old self.old log.old) room }
        ensures turned { (start : Start) (bytes : List ℕ) → length bytes + room ≡ most_bytes →
            Progress start bytes (moment_of K.taken heap.old self.old log.old) →
            Turns result start bytes (record {
              left = S.left source.old;
              left_after = S.left source.new;
              faults = S.faults source.old;
              faults_after = S.faults source.new;
            }) (moment_of K.taken heap.new self.new log.new) }
        ensures room_left { IfOk result (λ n. n ≤ room) }
        ensures faults { S.faults source.old ≤ S.faults source.new }
        ensures kept { KeepsOn K.faults K.taken log.old log.new }
    {
        match log.settle() {
            Ok(()) => self.read_on(heap, log, source, buffer, room),
            Err(_) => Err(End::WriteFailed),
        }
    }

    /// Reads once, where the log of all that was read is written, and takes what was read.
    fn read_on<S: Source, K: Sink>(
        &mut self,
        heap: &mut Gc,
        log: &mut LogWriter<'_, K>,
        source: &mut S,
        buffer: &mut [u8],
        room: u32,
    ) -> Result<u32, End>
        requires whole { log.old.broken ≡ false }
        requires written_out { log.old.pending.items ≡ [] }
        requires buffer { (0 < length buffer.old) × (length buffer.old ≤ 4096) }
        requires room { IsUnderWay (moment_of K.taken heap.old self.old log.old) room }
        ensures turned { (start : Start) (bytes : List ℕ) → length bytes + room ≡ most_bytes →
            Progress start bytes (moment_of K.taken heap.old self.old log.old) →
            Turns result start bytes (record {
              left = S.left source.old;
              left_after = S.left source.new;
              faults = S.faults source.old;
              faults_after = S.faults source.new;
            }) (moment_of K.taken heap.new self.new log.new) }
        ensures room_left { IfOk result (λ n. n ≤ room) }
        ensures faults { S.faults source.old ≤ S.faults source.new }
        ensures kept { KeepsOn K.faults K.taken log.old log.new }
    {
        match source.read(buffer) {
            Err(_) => Err(End::ReadFailed),
            Ok(0) => Err(self.last_line(heap, log)),
            Ok(n) => self.next_piece(heap, log, &buffer[..n], room),
        }
    }

    /// The end of an input of which nothing is left.
    fn last_line<K: Sink>(&mut self, heap: &mut Gc, log: &mut LogWriter<'_, K>) -> End
        requires { IsUnderWay (moment_of K.taken heap.old self.old log.old) 0 }
        ensures ended { (start : Start) (bytes : List ℕ) (input : Input) → length bytes ≤ most_bytes →
            NothingLeft input.left_after → input.faults_after ≡ input.faults →
            Gives input.left input.left_after [] →
            Progress start bytes (moment_of K.taken heap.old self.old log.old) →
            Ended result start bytes input (moment_of K.taken heap.new self.new log.new) }
        ensures kept { KeepsOn K.faults K.taken log.old log.new }
    {
        match self.take_rest(heap, log) {
            Ok(()) => End::Whole,
            Err(fault) => End::Fault {
                line: self.lines,
                fault,
            },
        }
    }

    /// Takes a piece that isn't empty, if there may be so many bytes.
    fn next_piece<K: Sink>(
        &mut self,
        heap: &mut Gc,
        log: &mut LogWriter<'_, K>,
        piece: &[u8],
        room: u32,
    ) -> Result<u32, End>
        requires piece { (0 < length piece.now) × (length piece.now ≤ 4096) }
        requires room { IsUnderWay (moment_of K.taken heap.old self.old log.old) room }
        ensures taken { (start : Start) (bytes : List ℕ) (input : Input) → length bytes + room ≡ most_bytes →
            input.faults_after ≡ input.faults → Gives input.left input.left_after piece.now →
            Progress start bytes (moment_of K.taken heap.old self.old log.old) →
            Turns result start bytes input (moment_of K.taken heap.new self.new log.new) }
        ensures room_left { IfOk result (λ n. n ≤ room) }
        ensures kept { KeepsOn K.faults K.taken log.old log.new }
    {
        let count = piece.len() as u32;
        if room < count {
            return Err(End::TooLong);
        }
        match self.take_piece(heap, log, piece) {
            Ok(()) => Ok(count),
            Err(fault) => Err(End::Fault {
                line: self.lines,
                fault,
            }),
        }
    }

    /// Takes all of the input, or as much as can be taken.
    fn read_all<S: Source, K: Sink>(
        &mut self,
        heap: &mut Gc,
        log: &mut LogWriter<'_, K>,
        source: &mut S,
    ) -> End
        requires { (start : Start) × Progress start [] (moment_of K.taken heap.old self.old log.old) }
        ensures ended { (start : Start) → Progress start [] (moment_of K.taken heap.old self.old log.old) →
            Ended result start [] (record {
              left = S.left source.old;
              left_after = S.left source.new;
              faults = S.faults source.old;
              faults_after = S.faults source.new;
            }) (moment_of K.taken heap.new self.new log.new) }
        ensures faults { S.faults source.old ≤ S.faults source.new }
        ensures kept { KeepsOn K.faults K.taken log.old log.new }
        ensures same_sink { log.new.sink.ghost_name ≡ log.old.sink.ghost_name }
    {
        let mut buffer = [0u8; 4096];
        let mut room = u32::MAX;
        loop {
            match self.turn(heap, log, source, &mut buffer, room) {
                Ok(count) => room -= count,
                Err(end) => return end,
            }
        }
    }

    /// A replay of which nothing was read yet.
    fn make(executor: Executor) -> Replay
        ensures cutter { result.cutter ≡ [] }
        ensures lines { result.lines ≡ 0 }
        ensures executor { result.executor ≡ executor }
    {
        Replay {
            cutter: Cutter::make(),
            lines: 0,
            executor,
        }
    }

    /// Takes all of the input and writes the whole of its log, for a replay of which nothing was read yet.
    fn run<S: Source, K: Sink>(
        &mut self,
        heap: &mut Gc,
        log: &mut LogWriter<'_, K>,
        source: &mut S,
        appendix: &mut Appendix,
    ) -> End
        requires new { (rate : Option ℕ) × (settings : Settings)
            × IsNewDriver rate settings (driver_of heap.old self.old.executor) }
        requires cutter { self.old.cutter ≡ [] }
        requires lines { self.old.lines ≡ 0 }
        requires whole { log.old.broken ≡ false }
        requires pending { log.old.pending.items ≡ [] }
        requires ready { IsReadyFor heap.old.settings.max appendix.old }
        ensures replayed { (rate : Option ℕ) (settings : Settings)
            → IsNewDriver rate settings (driver_of heap.old self.old.executor) →
            Replayed result
            (record { settings = settings; extras = asked_of rate (book_of self.old.executor) appendix.old })
            (record {
              left = S.left source.old;
              left_after = S.left source.new;
              faults = S.faults source.old;
              faults_after = S.faults source.new;
            })
            (record {
              taken = K.taken log.old.sink.now;
              taken_after = K.taken log.new.sink.now;
              passed_after = K.passed log.new.sink.now;
              faults = K.faults log.old.sink.now;
              faults_after = K.faults log.new.sink.now;
            }) heap.new }
        ensures source { S.faults source.old ≤ S.faults source.new }
        ensures sink { K.faults log.old.sink.now ≤ K.faults log.new.sink.now }
        ensures same_sink { log.new.sink.ghost_name ≡ log.old.sink.ghost_name }
    {
        nothing_is_entered_at_first();
        let read = self.read_all(heap, log, source);
        finish(heap, log, &self.executor, appendix, read)
    }
}

/// Writes the total line after a whole log, and what stands behind it.
fn total<K: Sink>(
    heap: &Gc,
    log: &mut LogWriter<'_, K>,
    executor: &Executor,
    appendix: &mut Appendix,
    end: End,
)
    requires shows { HasPages (view_of_gc heap.now) }
    requires ready { IsReadyFor heap.now.settings.max appendix.old }
    ensures totalled { (start : Start) (reach : Reach) (fault : Option FaultAt) →
        start.extras ≡ asked_of start.extras.rate (book_of executor.now) appendix.old → IsFaultOf end fault →
        Stopped start (lines_in reach) fault (driver_of heap.now executor.now) (kept_by K.taken log.old) →
        Logged end start reach heap.now (kept_by K.taken log.new) }
    ensures kept { KeepsOn K.faults K.taken log.old log.new }
{
    match end {
        End::Whole => {
            totals_are_those_of_the_living();
            log.line(&Line::Total(heap.totals()));
            executor.write_sites(log);
            appendix.write(log, heap);
        }
        _ => {}
    }
}

/// Writes what is pending and flushes, and says how all ended: a fault of the sink comes before all else.
pub(crate) fn finish_log<K: Sink>(log: &mut LogWriter<'_, K>, end: End) -> End
    ensures ends { result ≡ cond log.new.broken End.WriteFailed end }
    ensures nothing_pending { log.new.broken ≡ false → log.new.pending.items ≡ [] }
    ensures passed { log.new.broken ≡ false → K.passed log.new.sink.now ≡ K.taken log.new.sink.now }
    ensures written { Grew (kept_by K.taken log.old) (kept_by K.taken log.new) [] }
    ensures kept { KeepsOn K.faults K.taken log.old log.new }
{
    match log.finish() {
        Ok(()) => end,
        Err(_) => End::WriteFailed,
    }
}

/// Writes the rest of the log, and says how the replay ended.
fn finish<K: Sink>(
    heap: &Gc,
    log: &mut LogWriter<'_, K>,
    executor: &Executor,
    appendix: &mut Appendix,
    end: End,
) -> End
    requires shows { HasPages (view_of_gc heap.now) }
    requires ready { IsReadyFor heap.now.settings.max appendix.old }
    ensures finished { (start : Start) (reach : Reach) (fault : Option FaultAt) →
        start.extras ≡ asked_of start.extras.rate (book_of executor.now) appendix.old → IsFaultOf end fault →
        Stopped start (lines_in reach) fault (driver_of heap.now executor.now) (kept_by K.taken log.old) →
        Logged end start reach heap.now (kept_by K.taken log.new) }
    ensures ends { result ≡ cond log.new.broken End.WriteFailed end }
    ensures nothing_pending { log.new.broken ≡ false → log.new.pending.items ≡ [] }
    ensures passed { log.new.broken ≡ false → K.passed log.new.sink.now ≡ K.taken log.new.sink.now }
    ensures kept { KeepsOn K.faults K.taken log.old log.new }
    ensures same_sink { log.new.sink.ghost_name ≡ log.old.sink.ghost_name }
{
    total(heap, log, executor, appendix, end);
    finish_log(log, end)
}

/// Carries out a whole trace on a heap that nothing was done with yet.
pub(crate) fn carry_out<S: Source, K: Sink>(
    heap: &mut Gc,
    source: &mut S,
    out: &mut K,
    executor: Executor,
    appendix: &mut Appendix,
) -> End
    requires new { (rate : Option ℕ) × (settings : Settings) × IsNewDriver rate settings (driver_of heap.old executor) }
    requires ready { IsReadyFor heap.old.settings.max appendix.old }
    ensures replayed { (rate : Option ℕ) (settings : Settings) → IsNewDriver rate settings (driver_of heap.old executor) →
        Replayed result (record { settings = settings; extras = asked_of rate (book_of executor) appendix.old })
        (record {
          left = S.left source.old;
          left_after = S.left source.new;
          faults = S.faults source.old;
          faults_after = S.faults source.new;
        })
        (record {
          taken = K.taken out.old;
          taken_after = K.taken out.new;
          passed_after = K.passed out.new;
          faults = K.faults out.old;
          faults_after = K.faults out.new;
        }) heap.new }
    ensures source { S.faults source.old ≤ S.faults source.new }
    ensures out { K.faults out.old ≤ K.faults out.new }
{
    let mut log = LogWriter::make(out);
    let mut replay = Replay::make(executor);
    replay.run(heap, &mut log, source, appendix)
}
