// Long paced traces, whose logs are counted again line by line.
use super::text::{add_lines, add_numbered, lines_of};
use super::{Given, Written, ended};
use std::alloc::{AllocError, Global};
use std::process::Abort;
use std::test::Fail;

/// What the lines of one command tell: how many objects were freed, whether a cycle ended, and whether one was born.
#[derive(Clone, Copy)]
struct Group {
    freed: u64,
    ends: bool,
    bears: bool,
}

const NOTHING: Group = Group {
    freed: 0,
    ends: false,
    bears: false,
};

impl Group {
    fn add(&mut self, line: &[u8]) {
        if line.starts_with(b" free ") {
            self.freed = self.freed.saturating_add(1);
        }
        self.ends = self.ends || line.starts_with(b" collect ");
        self.bears = line.starts_with(b"new ");
    }
}

// The groups of a log in order, with the total line as the last.
fn groups_of(alloc: Global, log: &[u8]) -> Result<Vec<Group>, AllocError> {
    let mut groups = Vec::new(alloc);
    let mut group = NOTHING;
    let mut line = Vec::new(alloc);
    for byte in log {
        if *byte != b'\n' {
            line.push(*byte)?;
            continue;
        }
        group.add(&line);
        if !line.starts_with(b" ") {
            groups.push(group)?;
            group = NOTHING;
        }
        line.clear();
    }
    Ok(groups)
}

/// What is counted along the groups: the bytes since a cycle began or ended, the live objects and their scanned slots,
/// the same as the running cycle began, how many cycles ended, and how many commands of the trace began in one.
#[derive(Drop)]
struct Recount {
    groups: Vec<Group>,
    next: usize,
    rate: u64,
    since: u64,
    work: u64,
    begun: u64,
    runs: bool,
    ended: u32,
    inside: u32,
}

impl Recount {
    fn make(groups: Vec<Group>, rate: u64) -> Recount {
        Recount {
            groups,
            next: 0,
            rate,
            since: 0,
            work: 0,
            begun: 0,
            runs: false,
            ended: 0,
            inside: 0,
        }
    }

    // The next group, whose command ends a cycle, or bears an object, exactly where it must.
    fn read<R: Abort>(&mut self, rt: &R, ends: bool, bears: bool) {
        let next = self.next;
        if self.groups.len() <= next {
            rt.abort();
        }
        let group = self.groups[next];
        assert_eq!(rt; group.ends, ends, "group {next}");
        assert_eq!(rt; group.bears, bears, "group {next}");
        self.work = self.work.saturating_sub(group.freed);
        self.next = next.saturating_add(1);
    }

    fn is_late(&self) -> bool {
        self.begun.saturating_mul(16) <= self.rate.saturating_mul(self.since)
    }

    fn end_in_time<R: Abort>(&mut self, rt: &R) {
        if self.runs && self.is_late() {
            self.read(rt, true, false);
            self.runs = false;
            self.since = 0;
            self.ended = self.ended.saturating_add(1);
        }
    }

    fn begin_in_time<R: Abort>(&mut self, rt: &R) {
        if !self.runs && 65536 <= self.since && self.work != 0 {
            self.begun = self.work;
            self.read(rt, false, false);
            self.runs = true;
            self.since = 0;
        }
    }

    // A command of the trace, by the bytes and the work of what it bears, and those that are added after it.
    fn command<R: Abort>(&mut self, rt: &R, bytes: u64, work: u64) {
        if self.runs {
            assert!(rt; !self.is_late());
            self.inside = self.inside.saturating_add(1);
        }
        self.read(rt, false, bytes != 0);
        self.since = self.since.saturating_add(bytes);
        self.work = self.work.saturating_add(work);
        if self.runs && bytes != 0 {
            self.read(rt, false, false);
        }
        self.end_in_time(rt);
        self.begin_in_time(rt);
    }
}

// A stage of 200 slots, whose nodes are born and lost again, with a leaf beside each.
fn changing_tree(alloc: Global) -> Result<Vec<u8>, AllocError> {
    let mut trace = lines_of(alloc, "root 1 2;new r 200 200;aput 0 0 0")?;
    for node in 0..2000u32 {
        add_lines(&mut trace, "new l 0 60;pop 1;new r 0 0")?;
        add_numbered(&mut trace, "put 1 ", node % 200, " 0;pop 1")?;
    }
    Ok(trace)
}

// The stage has 816 bytes, a leaf 256 and a node 16.
const FIRST: [(u64, u64); 3] = [(0, 0), (816, 201), (0, 0)];

const NODE: [(u64, u64); 5] = [(256, 1), (0, 0), (16, 1), (0, 0), (0, 0)];

fn counted_again<R: Abort>(
    rt: &R,
    alloc: Global,
    words: &[&str],
    rate: u64,
) -> Result<Recount, Fail> {
    let trace = changing_tree(alloc)?;
    let given = Given {
        words,
        piece: 4096,
        log_piece: 4096,
        room: 1000000,
        ..Given::whole(&trace)
    };
    let Written { status, log, .. } = ended(alloc, &given)?;
    assert_eq!(rt; status, 0);
    let mut recount = Recount::make(groups_of(alloc, log.as_slice())?, rate);
    for (bytes, work) in FIRST {
        recount.command(rt, bytes, work);
    }
    for _ in 0..2000u32 {
        for (bytes, work) in NODE {
            recount.command(rt, bytes, work);
        }
    }
    assert_eq!(rt; recount.next.saturating_add(1), recount.groups.len());
    Ok(recount)
}

// 272 bytes are born with each node. The first cycle is due at the leaf of node 238, each further one 241 nodes after
// the last has ended. As one begins, there are the stage, 200 nodes in it, 238 to 299 leaves and at most 256 nodes that
// were lost. So its work is from 639 to 956, and at the least rate it lasts 37 to 57 nodes. At the greatest rate it
// ends with the next birth.
#[test]
fn cycles_end_as_soon_as_they_are_late(rt: HostRuntime) -> Result<(), Fail> {
    let alloc = rt.alloc();
    let slow = counted_again(&rt, alloc, &["--pace", "1"], 1)?;
    assert!(&rt; 6 <= slow.ended && slow.ended <= 7);
    assert!(&rt; 1110 <= slow.inside);
    let fast = counted_again(&rt, alloc, &["--pace", "1024"], 1024)?;
    assert_eq!(&rt; fast.ended, 8);
    Ok(())
}
