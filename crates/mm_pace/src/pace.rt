// A pacer, which counts what is born and says what of a cycle is due.
ghost use Rattle.std.specs.Prelude.{◌≡◌, ◌*◌, ◌/◌, ◌%◌, ◌+◌, ◌≤◌, ◌↔◌, IsTrue, IsNone, IfSome};

use std::mem::replace;

/// What is needed to say when a cycle begins, how much of it is done for each birth, and when it ends.
///
/// The cycle's work is the number of live objects plus the number of their scanned slots.
#[derive(Debug, Drop)]
pub struct Pace {
    /// Steps of marking for each 16 bytes that are allocated.
    pub rate: u32,
    /// The bytes that were allocated since a cycle began or ended.
    pub since: u64,
    /// The work that the running cycle had as it began, and 0 where none runs.
    pub work: u32,
    /// The bytes of the object that was born last, until a step was asked for.
    pub last: u32,
    ghost slow: { rate ≤ 1024 },
    ghost small: { last ≤ 4198400 },
}

// How many bytes were allocated when a cycle is due.
const DUE: u64 = 65536;

impl Pace {
    /// A pacer before the first command. The rate is in steps for each 16 bytes.
    pub fn make(rate: u32) -> Pace
        requires some { 1 ≤ rate }
        requires most { rate ≤ 1024 }
        ensures rate { result.rate ≡ rate }
        ensures since { result.since ≡ 0 }
        ensures work { result.work ≡ 0 }
        ensures last { result.last ≡ 0 }
    {
        Pace {
            rate,
            since: 0,
            work: 0,
            last: 0,
        }
    }

    /// A cycle begins, which has so much work.
    pub fn begin(&mut self, work: u32)
        ensures since { self.new.since ≡ 0 }
        ensures work { self.new.work ≡ work }
        ensures last { self.new.last ≡ 0 }
        ensures rate { self.new.rate ≡ self.old.rate }
    {
        self.since = 0;
        self.work = work;
        self.last = 0;
    }

    /// The cycle ended.
    pub fn end(&mut self)
        ensures since { self.new.since ≡ 0 }
        ensures work { self.new.work ≡ 0 }
        ensures last { self.new.last ≡ 0 }
        ensures rate { self.new.rate ≡ self.old.rate }
    {
        self.begin(0);
    }

    /// An object was born that takes so many bytes. Where a search ended a cycle, `end` comes first.
    pub fn born(&mut self, extent: u32)
        requires least { 16 ≤ extent }
        requires most { extent ≤ 4198400 }
        requires grained { extent % 16 ≡ 0 }
        requires room { self.old.since ≤ 9223372036854775807 }
        ensures since { self.new.since ≡ self.old.since + extent }
        ensures last { self.new.last ≡ extent }
        ensures rate { self.new.rate ≡ self.old.rate }
        ensures work { self.new.work ≡ self.old.work }
    {
        self.since += u64::from(extent);
        self.last = extent;
    }

    /// How many steps are due for the object that was born last, once.
    pub fn step_size(&mut self) -> Option<u32>
        ensures none { IsNone result ↔ (self.old.last ≡ 0) }
        ensures size { IfSome result (λ k. k ≡ self.old.rate * self.old.last / 16) }
        ensures last { self.new.last ≡ 0 }
        ensures rate { self.new.rate ≡ self.old.rate }
        ensures since { self.new.since ≡ self.old.since }
        ensures work { self.new.work ≡ self.old.work }
    {
        match replace(&mut self.last, 0) {
            0 => None,
            last => Some((u64::from(self.rate) * u64::from(last) / 16) as u32),
        }
    }

    /// Whether so much was allocated since the cycle began that it must end.
    pub fn must_finish(&self) -> bool
        ensures { IsTrue result ↔ (16 * self.now.work ≤ self.now.rate * self.now.since) }
    {
        16 * u128::from(self.work) <= u128::from(self.rate) * u128::from(self.since)
    }

    /// Whether so much was allocated that a cycle is due where none runs and there is work.
    pub fn must_begin(&self) -> bool
        ensures { IsTrue result ↔ (65536 ≤ self.now.since) }
    {
        DUE <= self.since
    }
}
