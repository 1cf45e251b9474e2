// Counts, a stack, objects and places, worked out by hand.
use crate::{Count, Counts, Found, Header, Objects, Owner, Places, Stack};
use mm_model::{Colour, Kind, Shape, Size};
use std::test::Fail;

#[test]
fn counts_follow_their_places(rt: HostRuntime) -> Result<(), Fail> {
    let mut counts = Counts::make(rt.alloc(), 2)?;
    assert_eq!(&rt; counts.zeros(), 0);
    counts.born(4096);
    counts.born(4112);
    assert_eq!(&rt; counts.zeros(), 2);
    counts.raise(4096);
    counts.raise(4096);
    counts.raise(8176);
    assert_eq!(&rt; counts.get(4096), Some(Count::Exact(2)));
    assert_eq!(&rt; counts.get(8176), None);
    assert_eq!(&rt; counts.zeros(), 1);
    counts.freed(4112);
    assert_eq!(&rt; counts.zeros(), 0);
    Ok(())
}

#[test]
fn a_stack_is_read_from_the_top(rt: HostRuntime) -> Result<(), Fail> {
    let mut stack = Stack::make(rt.alloc(), 3)?;
    stack.push(7);
    stack.push(8);
    stack.push(9);
    assert!(&rt; stack.is_full());
    assert_eq!(&rt; stack.get(0), 9);
    assert_eq!(&rt; stack.get(2), 7);
    stack.pop(2);
    assert_eq!(&rt; stack.len(), 1);
    assert_eq!(&rt; stack.get(0), 7);
    Ok(())
}

// What `new t 1 4` bears.
const SHAPE: Shape = Shape {
    kind: Kind::Traced,
    finalize: false,
    counted: 1,
    slots: 4,
};

const HEADER: Header = Header {
    extent: 32,
    kind: Kind::Traced,
    finalize: false,
    counted: 1,
    slots: 4,
    sticky: false,
    partner: None,
    colour: Colour::White,
};

#[test]
fn an_object_is_found_by_a_word_that_falls_in_it(rt: HostRuntime) -> Result<(), Fail> {
    let mut objects = Objects::make(rt.alloc(), 2)?;
    objects.bear(4096, 32, SHAPE, Colour::White);
    let found = Found {
        base: 4096,
        header: HEADER,
    };
    assert_eq!(&rt; objects.find(4095), None);
    assert_eq!(&rt; objects.find(4096), Some(found));
    assert_eq!(&rt; objects.find(4127), Some(found));
    assert_eq!(&rt; objects.find(4128), None);
    assert_eq!(&rt; objects.get(4096), Some(HEADER));
    assert_eq!(&rt; objects.get(4112), None);
    assert_eq!(&rt; objects.next(0), Some(4096));
    assert_eq!(&rt; objects.next(4112), None);
    objects.shade(4100);
    assert_eq!(&rt; objects.grays(), 1);
    objects.free(4096);
    assert_eq!(&rt; objects.find(4096), None);
    assert_eq!(&rt; objects.grays(), 0);
    Ok(())
}

#[test]
fn a_slot_has_the_word_that_was_put_last(rt: HostRuntime) -> Result<(), Fail> {
    let mut objects = Objects::make(rt.alloc(), 2)?;
    objects.bear(4096, 32, SHAPE, Colour::White);
    objects.put(4096, 2, 7);
    assert_eq!(&rt; objects.slot(4096, 2), 7);
    assert_eq!(&rt; objects.slots(4096), [0, 0, 7, 0].as_slice());
    Ok(())
}

#[test]
fn the_first_place_is_at_page_1(rt: HostRuntime) -> Result<(), Fail> {
    let places = Places::make(rt.alloc(), 4)?;
    assert_eq!(&rt; places.place(4, Owner::Object, Size::Small(0)), Some(4096));
    assert_eq!(&rt; places.place(4, Owner::Area, Size::Pages(3)), Some(4096));
    assert_eq!(&rt; places.place(3, Owner::Area, Size::Pages(3)), None);
    assert_eq!(&rt; places.place(1, Owner::Object, Size::Small(18)), None);
    Ok(())
}
