// What lines are made of, appended to a buffer. What takes a literal is inlined: its bytes become stores.
ghost use Rattle.std.specs.Prelude.{◌≡◌, ◌+◌, ◌≤◌, [], ◌∷◌, ◌++◌, length, decimal, map, replicate};
ghost use Rattle.arrayvec.specs.ArrayVec.{array_vec_len};
ghost use Rattle.mm_model.specs.Logs.Spelling as model;
ghost use Rattle.mm_model.specs.Logs.Spelling.{sentence, kind_word};

use arrayvec::ArrayVec;
use itoa::write_digits;
use mm_model::Kind;

/// The buffer that lines are written to.
pub(crate) type Lines = ArrayVec<u8, 4096>;

/// Appends a text.
#[inline(always)]
pub(crate) fn put_text(text: &[u8], to: &mut Lines)
    requires { array_vec_len to.old + length text.now ≤ 4096 }
    ensures items { to.new.items ≡ to.old.items ++ text.now }
    ensures len { array_vec_len to.new ≡ array_vec_len to.old + length text.now }
{
    // Of a literal these become a few stores, with no test of room.
    for byte in text {
        to.push(*byte);
    }
}

/// Appends the letter of a kind, and an `f` where there is a finalizer.
#[inline(always)]
pub(crate) fn put_kind(kind: Kind, finalize: bool, to: &mut Lines)
    requires { array_vec_len to.old + 2 ≤ 4096 }
    ensures items { to.new.items ≡ to.old.items ++ kind_word kind finalize }
    ensures len { array_vec_len to.new ≤ array_vec_len to.old + 2 }
{
    to.push(kind_letter(kind));
    if finalize {
        to.push(b'f');
    }
}

#[inline(always)]
fn kind_letter(kind: Kind) -> u8
    ensures { result ∷ [] ≡ model.kind_letter kind }
{
    match kind {
        Kind::Traced => b't',
        Kind::Leaf => b'l',
        Kind::Counted => b'r',
        Kind::Weak => b'w',
    }
}

// Appends as many zeros as a number has digits.
#[inline(always)]
fn put_zeros(number: u32, to: &mut Lines)
    requires { array_vec_len to.old + 10 ≤ 4096 }
    ensures items { to.new.items ≡ to.old.items ++ replicate (length (decimal number)) 48 }
    ensures len { array_vec_len to.new ≤ array_vec_len to.old + 10 }
{
    match number {
        0..=9 => put_text(b"0", to),
        10..=99 => put_text(b"00", to),
        100..=999 => put_text(b"000", to),
        1_000..=9_999 => put_text(b"0000", to),
        10_000..=99_999 => put_text(b"00000", to),
        100_000..=999_999 => put_text(b"000000", to),
        1_000_000..=9_999_999 => put_text(b"0000000", to),
        10_000_000..=99_999_999 => put_text(b"00000000", to),
        100_000_000..=999_999_999 => put_text(b"000000000", to),
        _ => put_text(b"0000000000", to),
    }
}

// Appends a number. It is long, so it isn't inlined at each number of a line.
#[inline(never)]
fn put_digits(number: u32, to: &mut Lines)
    requires { array_vec_len to.old + 10 ≤ 4096 }
    ensures items { to.new.items ≡ to.old.items ++ decimal number }
    ensures len { array_vec_len to.new ≤ array_vec_len to.old + 10 }
{
    // The digits are written over zeros, where they stay.
    put_zeros(number, to);
    let end = to.len();
    write_digits(u64::from(number), to.as_mut_slice(), end);
}

/// Appends a space and a number.
#[inline(always)]
pub(crate) fn put_number(number: u32, to: &mut Lines)
    requires { array_vec_len to.old + 11 ≤ 4096 }
    ensures items { to.new.items ≡ to.old.items ++ 32 ∷ decimal number }
    ensures len { array_vec_len to.new ≤ array_vec_len to.old + 11 }
{
    to.push(b' ');
    if number < 10 {
        to.push(b'0' + number as u8);
    } else {
        put_digits(number, to);
    }
}

/// Appends a space and a number of up to 20 digits, as a total line has them. It is written once a log.
#[inline(never)]
pub(crate) fn put_count(number: u64, to: &mut Lines)
    requires { array_vec_len to.old + 21 ≤ 4096 }
    ensures items { to.new.items ≡ to.old.items ++ 32 ∷ decimal number }
    ensures len { array_vec_len to.new ≤ array_vec_len to.old + 21 }
{
    to.push(b' ');
    put_text(itoa::Buffer::new().format(number).as_bytes(), to);
}

/// Appends a line: a name and then numbers.
#[inline(always)]
pub(crate) fn put_sentence(name: &[u8], numbers: &[u32], to: &mut Lines)
    requires name { length name.now ≤ 8 }
    requires numbers { length numbers.now ≤ 4 }
    requires room { array_vec_len to.old + 64 ≤ 4096 }
    ensures { to.new.items ≡ to.old.items ++ sentence (name.now ∷ map decimal numbers.now) }
{
    put_text(name, to);
    for number in numbers {
        put_number(*number, to);
    }
    to.push(b'\n');
}
