// Pieces of an arena, cut, written and given back.
ghost use Rattle.std.specs.Prelude.{◌≡◌, ◌*◌, ◌≤◌};

use mm_words::Arena;
use std::test::Fail;

// Cuts `2 * pairs` pieces, all out at once, and gives them back in another order than they were cut.
fn carve_pairs(arena: &mut Arena, pairs: u32)
    requires { 3 * pairs ≤ arena.old.spare }
    ensures { (arena.new.name ≡ arena.old.name) × (arena.new.out ≡ arena.old.out) }
{
    if pairs == 0 {
        return;
    }
    let left = arena.carve(1);
    let right = arena.carve(2);
    carve_pairs(arena, pairs - 1);
    arena.take_back(left);
    arena.take_back(right);
}

#[test]
fn a_thousand_pieces_come_back_in_another_order(rt: HostRuntime) -> Result<(), Fail> {
    let mut arena = Arena::make(rt.alloc(), 1500)?;
    carve_pairs(&mut arena, 500);
    assert_eq!(rt; arena.spare(), 0);
    arena.close();
    Ok(())
}

#[test]
fn the_piece_cut_last_grows_and_shrinks(rt: HostRuntime) -> Result<(), Fail> {
    let mut arena = Arena::make(rt.alloc(), 8)?;
    let mut words = arena.carve(3);
    words.fill(0, 3, 5);
    arena.lengthen(&mut words, 2);
    assert_eq!(rt; words.part(0, 5), [5, 5, 5, 0, 0].as_slice());
    words.part_mut(3, 2).fill(9);
    arena.shorten(&mut words, 4);
    assert_eq!(rt; arena.spare(), 7);
    let blank = arena.carve(7);
    assert_eq!(rt; blank.part(0, 7), [0; 7].as_slice());
    assert_eq!(rt; words.get(0), 5);
    arena.take_back(blank);
    arena.take_back(words);
    arena.close();
    Ok(())
}
