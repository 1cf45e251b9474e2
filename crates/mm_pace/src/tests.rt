// What a pacer says along a cycle, worked out by hand.
use crate::Pace;

#[test]
fn a_pacer_begins_steps_and_ends_a_cycle(rt: HostRuntime) {
    let mut pace = Pace::make(2);
    pace.born(65520);
    assert!(&rt; !pace.must_begin());
    pace.born(16);
    assert!(&rt; pace.must_begin());
    pace.begin(3);
    assert_eq!(&rt; pace.step_size(), None);
    pace.born(16);
    assert_eq!(&rt; pace.step_size(), Some(2));
    assert_eq!(&rt; pace.step_size(), None);
    assert!(&rt; !pace.must_finish());
    pace.born(16);
    assert!(&rt; pace.must_finish());
    pace.end();
    assert_eq!(&rt; pace.since, 0);
    assert_eq!(&rt; pace.work, 0);
    assert_eq!(&rt; pace.last, 0);
    assert!(&rt; !pace.must_begin());
}

#[test]
fn the_largest_object_at_the_highest_rate_asks_for_the_most_steps(rt: HostRuntime) {
    let mut pace = Pace::make(1024);
    pace.begin(u32::MAX);
    pace.born(4198400);
    assert_eq!(&rt; pace.step_size(), Some(268697600));
    assert!(&rt; !pace.must_finish());
    pace.since = u64::MAX;
    assert!(&rt; pace.must_finish());
}
