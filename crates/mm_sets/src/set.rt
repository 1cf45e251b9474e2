// A set of numbers in the words at the head of a slice: first the summary, then the members.
ghost use Rattle.std.specs.Prelude.{◌≡◌, ◌≢◌, ℕ, ◌+◌, ◌*◌, ◌/◌, ◌<◌, ◌≤◌, true, false, length, slice_index, drop};
ghost use Rattle.std.specs.Prelude.{MatchOption};
ghost use Rattle.mm_sets.specs.Set.{set_size, members, IsSet, IsAnySet, Admits, IsEmpty, IsLowest};
ghost use Rattle.mm_sets.specs.Set.{IsEmptyFrom, IsEmptyBetween, IsLowestFrom};
ghost use Rattle.std.specs.Int.{trailing_zeros, w32};

use crate::bits::{clear_bit, lowest_bit, set_bit, test_bit};

// How many words the summary takes.
const SUMMARY: u32 = 4;

// How many bits it has, and so how many words of members at most.
const PLACES: u32 = 32 * SUMMARY;

// Where in the words the bit of a number stands.
fn member_bit(n: u32) -> u32
    requires { n < 4096 }
    ensures { result ≡ 128 + n }
{
    PLACES + n
}

/// How many words a set of numbers below the limit takes.
pub fn set_words(limit: u32) -> u32
    requires { limit ≤ 4096 }
    ensures { result ≡ set_size limit }
{
    SUMMARY + (limit + 31) / 32
}

/// Makes the words at the head of the slice a set without members. They may hold anything.
pub fn clear(set: &mut [u32], limit: u32)
    requires small { limit ≤ 4096 }
    requires room { set_size limit ≤ length set.old }
    ensures set { IsSet limit set.new }
    ensures empty { IsEmpty limit set.new }
    ensures behind { drop (set_size limit) set.new ≡ drop (set_size limit) set.old }
{
    set[..set_words(limit) as usize].fill(0);
}

/// Whether a number is a member.
pub fn contains(set: &[u32], n: u32) -> bool
    requires { Admits n set.now }
    ensures { result ≡ members set.now n }
{
    test_bit(set, member_bit(n))
}

/// Makes a number a member.
pub fn insert(set: &mut [u32], n: u32)
    requires { Admits n set.old }
    ensures member { members set.new n ≡ true }
    ensures others { (m : ℕ) → m ≢ n → members set.new m ≡ members set.old m }
    ensures set { (limit : ℕ) → n < limit → IsSet limit set.old → IsSet limit set.new }
    ensures behind { (limit : ℕ) → n < limit → drop (set_size limit) set.new ≡ drop (set_size limit) set.old }
{
    set_bit(set, member_bit(n));
    set_bit(set, n / 32);
}

/// Makes a number no member.
pub fn remove(set: &mut [u32], n: u32)
    requires { Admits n set.old }
    ensures member { members set.new n ≡ false }
    ensures others { (m : ℕ) → m ≢ n → members set.new m ≡ members set.old m }
    ensures set { (limit : ℕ) → n < limit → IsSet limit set.old → IsSet limit set.new }
    ensures behind { (limit : ℕ) → n < limit → drop (set_size limit) set.new ≡ drop (set_size limit) set.old }
{
    clear_bit(set, member_bit(n));
    if set[(SUMMARY + n / 32) as usize] == 0 {
        clear_bit(set, n / 32);
    }
}

// The lowest member that stands in a member word.
fn lowest_in(set: &[u32], place: u32) -> u32
    requires small { place < 128 }
    requires within { 4 + place < length set.now }
    ensures { result ≡ 32 * place + trailing_zeros w32 (slice_index set.now (4 + place)) }
{
    32 * place + set[(SUMMARY + place) as usize].trailing_zeros()
}

// The lowest member that stands in member word `start` or behind it.
fn lowest_in_words(set: &[u32], start: u32) -> Option<u32>
    requires { IsAnySet set.now }
    ensures { (limit : ℕ) →
        IsSet limit set.now →
        MatchOption result (IsEmptyFrom (32 * start) limit set.now) (IsLowestFrom (32 * start) limit set.now) }
{
    match lowest_bit(set, start, SUMMARY) {
        None => None,
        Some(place) => Some(lowest_in(set, place)),
    }
}

// The lowest member that is at least `from` and stands in the same member word.
fn lowest_beside(set: &[u32], from: u32) -> Option<u32>
    requires { IsAnySet set.now }
    ensures { (limit : ℕ) →
        IsSet limit set.now →
        MatchOption result (IsEmptyBetween from (32 * (from / 32 + 1)) limit set.now)
        (IsLowestFrom from limit set.now) }
{
    let place = from / 32;
    if place >= PLACES {
        return None;
    }
    if !test_bit(set, place) {
        return None;
    }
    match lowest_bit(set, member_bit(from), SUMMARY + place + 1) {
        None => None,
        Some(found) => Some(found - PLACES),
    }
}

/// The lowest member, if there is one.
pub fn lowest(set: &[u32]) -> Option<u32>
    requires { IsAnySet set.now }
    ensures { (limit : ℕ) →
        IsSet limit set.now → MatchOption result (IsEmpty limit set.now) (IsLowest limit set.now) }
{
    lowest_in_words(set, 0)
}

/// The lowest member that is at least `from`, if there is one.
pub fn lowest_from(set: &[u32], from: u32) -> Option<u32>
    requires { IsAnySet set.now }
    ensures { (limit : ℕ) →
        IsSet limit set.now →
        MatchOption result (IsEmptyFrom from limit set.now) (IsLowestFrom from limit set.now) }
{
    match lowest_beside(set, from) {
        Some(n) => Some(n),
        None => lowest_in_words(set, from / 32 + 1),
    }
}
