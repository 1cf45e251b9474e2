// Single bits in a slice of words.
ghost use Rattle.std.specs.Prelude.{◌≡◌, ◌*◌, ◌/◌, ◌<◌, ◌≤◌, length, nat_eq, slice_index, MatchOption};
ghost use Rattle.mm_sets.specs.Bits.{bit_of, ChangesBit, IsLowestBitOf, NoBit};

/// Whether bit `k` is set.
pub fn test_bit(words: &[u32], k: u32) -> bool
    requires { k / 32 < length words.now }
    ensures { result ≡ nat_eq (bit_of words.now k) 1 }
{
    words[(k / 32) as usize] >> (k % 32) & 1 == 1
}

/// Sets bit `k`.
pub fn set_bit(words: &mut [u32], k: u32)
    requires { k / 32 < length words.old }
    ensures { ChangesBit words.old words.new k 1 }
{
    words[(k / 32) as usize] |= 1 << (k % 32);
}

/// Clears bit `k`.
pub fn clear_bit(words: &mut [u32], k: u32)
    requires { k / 32 < length words.old }
    ensures change { ChangesBit words.old words.new k 0 }
    ensures falls { slice_index words.new (k / 32) ≤ slice_index words.old (k / 32) }
{
    words[(k / 32) as usize] &= !(1 << (k % 32));
}

/// The lowest set bit from bit `from` on, in the words before word `end`.
pub fn lowest_bit(words: &[u32], from: u32, end: u32) -> Option<u32>
    requires small { end ≤ 132 }
    requires within { end ≤ length words.now }
    ensures { MatchOption result (NoBit words.now from (32 * end)) (IsLowestBitOf words.now from (32 * end)) }
{
    let first = from / 32;
    if end <= first {
        return None;
    }
    let rest = words[first as usize] >> (from % 32);
    if rest != 0 {
        return Some(from + rest.trailing_zeros());
    }
    for i in first + 1..end {
        let word = words[i as usize];
        if word != 0 {
            return Some(32 * i + word.trailing_zeros());
        }
    }
    None
}
