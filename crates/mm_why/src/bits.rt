// Single bits in a slice of words.
ghost use Rattle.std.specs.Prelude.{◌≡◌, ◌*◌, ◌<◌, length, nat_eq};
ghost use Rattle.mm_sets.specs.Bits.{bit_of, ChangesBit};

/// Whether bit `k` is set.
pub(crate) fn test_bit(words: &[u32], k: u32) -> bool
    requires { k < 32 * length words.now }
    ensures { result ≡ nat_eq (bit_of words.now k) 1 }
{
    words[(k / 32) as usize] >> (k % 32) & 1 == 1
}

/// Sets bit `k`.
pub(crate) fn set_bit(words: &mut [u32], k: u32)
    requires { k < 32 * length words.old }
    ensures { ChangesBit words.old words.new k 1 }
{
    words[(k / 32) as usize] |= 1 << (k % 32);
}

/// Clears bit `k`.
pub(crate) fn clear_bit(words: &mut [u32], k: u32)
    requires { k < 32 * length words.old }
    ensures { ChangesBit words.old words.new k 0 }
{
    words[(k / 32) as usize] &= !(1 << (k % 32));
}
