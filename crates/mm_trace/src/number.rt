// Numbers of a trace.
ghost use Rattle.std.specs.Prelude.{◌≡◌, ◌≤◌, ◌<◌, ◌+◌, true, take, length, [], ◌∷◌, Ok, IfSome};
ghost use Rattle.std.specs.List.{list_all};
ghost use Rattle.mm_model.specs.Logs.Trace as trace;
ghost use Rattle.mm_model.specs.Logs.Trace.{digits_value, is_digit};
ghost use Rattle.mm_trace.specs.Plain.{BeginsWithNumber};

use crate::name::{behind_space, behind_word};
use mm_model::LineFault;

/// The greatest number of digits.
const DIGITS: usize = 10;

/// The byte of the digit 0.
const ZERO: u64 = b'0' as u64;

/// The number that a word spells: one to ten digits, and a value of 32 bits.
pub fn number_of(word: &[u8]) -> Result<u32, LineFault>
    ensures { result ≡ trace.number_of word.now }
{
    if word.is_empty() || word.len() > DIGITS {
        return Err(LineFault::BadNumber);
    }
    let mut value: u64 = 0;
    for byte in word {
        let digit = byte.wrapping_sub(b'0');
        if digit > 9 {
            return Err(LineFault::BadNumber);
        }
        value = 10 * value + u64::from(digit);
    }
    if value > u64::from(u32::MAX) {
        return Err(LineFault::BadNumber);
    }
    Ok(value as u32)
}

// The digits at the front of a text, at most eleven, where the first is this one: their value, and how many they are.
#[inline]
fn digits_at(text: &[u8], first: u64) -> (u64, usize)
    requires first { (first ≤ 9) × (take 1 text.now ≡ (first + 48) ∷ []) }
    ensures some { 0 < result.1 }
    ensures within { result.1 ≤ length text.now }
    ensures digits { list_all is_digit (take result.1 text.now) ≡ true }
    ensures value { result.0 ≡ digits_value (take result.1 text.now) }
{
    let front = &text[..text.len().min(DIGITS + 1)];
    let mut value = first;
    for i in 1..front.len() {
        let digit = u64::from(front[i]).wrapping_sub(ZERO);
        if digit > 9 {
            return (value, i);
        }
        value = 10 * value + digit;
    }
    (value, front.len())
}

// The number at the front of a text, and what stands behind it, where the first digit is this one.
#[inline]
fn long_number_at(text: &[u8], first: u64) -> Option<(u32, &[u8])>
    requires first { (first ≤ 9) × (take 1 text.now ≡ (first + 48) ∷ []) }
    ensures { IfSome result (λ read. BeginsWithNumber text.now read.0 read.1.now) }
{
    let (value, count) = digits_at(text, first);
    if count > DIGITS || value > u64::from(u32::MAX) {
        return None;
    }
    let rest = behind_word(&text[count..])?;
    Some((value as u32, rest))
}

/// The number at the front of a text, and what stands behind it.
// One digit and a space are read without a loop, and in `last_number` one digit at the end.
#[inline]
pub(crate) fn number_at(text: &[u8]) -> Option<(u32, &[u8])>
    ensures { IfSome result (λ read. BeginsWithNumber text.now read.0 read.1.now) }
{
    let (first, behind) = text.split_first()?;
    let digit = first.wrapping_sub(b'0');
    if digit > 9 {
        return None;
    }
    if let Some(rest) = behind_space(behind) {
        return Some((u32::from(digit), rest));
    }
    long_number_at(text, u64::from(digit))
}

/// The last number of a line.
#[inline]
pub(crate) fn last_number(text: &[u8]) -> Option<u32>
    ensures { IfSome result (λ number. BeginsWithNumber text.now number []) }
{
    let (first, behind) = text.split_first()?;
    let digit = first.wrapping_sub(b'0');
    if digit > 9 {
        return None;
    }
    if behind.is_empty() {
        return Some(u32::from(digit));
    }
    let (number, rest) = long_number_at(text, u64::from(digit))?;
    if rest.is_empty() { Some(number) } else { None }
}
