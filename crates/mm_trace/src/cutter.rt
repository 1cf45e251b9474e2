// Bytes cut into lines.
ghost use Rattle.std.specs.Prelude.{◌≡◌, ◌↔◌, ◌+◌, ◌<◌, ◌≤◌, ◌++◌, ◌==◌, [], length, take, drop, map, IsErr, IfErr};
ghost use Rattle.std.specs.Prelude.{OnOk, OnErr};
ghost use Rattle.mm_model.specs.declared.refusal.LineFault.TheVariants.{LineTooLong};
ghost use Rattle.std.specs.Simd.Lanes.{mask_l};
ghost use Rattle.mm_trace.specs.Lines.{IsLineEnd, IsWithinLine, is_newline};

use arrayvec::ArrayVec;
use mm_model::LineFault;
use std::marker::Model;
use std::simd::prelude::*;

/// The greatest number of bytes of a line, without its newline.
pub(crate) const LINE_LIMIT: usize = 1024;

/// How many bytes are searched at once.
const LANES: usize = 16;

/// Where the first newline stands.
#[inline]
pub fn line_end(bytes: &[u8]) -> Option<usize>
    ensures { IsLineEnd bytes.now result }
{
    let mut at = 0;
    while LANES <= bytes.len() - at {
        let found = newlines(bytes, at);
        if found != 0 {
            return Some(at + found.trailing_zeros() as usize);
        }
        at += LANES;
    }
    line_end_behind(bytes, at)
}

// Which of the next 16 bytes are newlines, the first at the lowest bit.
#[inline]
fn newlines(bytes: &[u8], at: usize) -> u64
    requires { at + 16 ≤ length bytes.now }
    ensures { result ≡ mask_l (map is_newline (take 16 (drop at bytes.now))) }
{
    u8x16::from_slice(&bytes[at..])
        .simd_eq(u8x16::splat(b'\n'))
        .to_bitmask()
}

// The same as `line_end`, one byte at a time from a place on.
#[inline]
fn line_end_behind(bytes: &[u8], from: usize) -> Option<usize>
    requires from { from ≤ length bytes.now }
    requires front { IsWithinLine (take from bytes.now) }
    ensures { IsLineEnd bytes.now result }
{
    for end in from..bytes.len() {
        if bytes[end] == b'\n' {
            return Some(end);
        }
    }
    None
}

/// The front of a line whose newline is still to come. It takes no memory but its own.
#[derive(Drop)]
pub struct Cutter {
    bytes: ArrayVec<u8, LINE_LIMIT>,
}

impl Model for Cutter {
    ghost use Rattle.std.specs.Prelude.{ℕ, List};

    ghost Value = { List ℕ };

    ghost view = { λ c. c.bytes.items };
}

impl Cutter {
    /// A cutter that holds nothing.
    pub fn make() -> Cutter
        ensures { result ≡ [] }
    {
        Cutter {
            bytes: ArrayVec::new(),
        }
    }

    /// Takes the next bytes of the line, or none of them where the line would be too long.
    pub fn extend(&mut self, bytes: &[u8]) -> Result<(), LineFault>
        ensures too_long { IsErr result ↔ 1024 < length self.old + length bytes.now }
        ensures fault { IfErr result (λ fault. fault ≡ LineTooLong) }
        ensures held { OnOk result (self.new ≡ self.old ++ bytes.now) }
        ensures unchanged { OnErr result (self.new ≡ self.old) }
    {
        match self.bytes.try_extend_from_slice(bytes) {
            Ok(()) => Ok(()),
            Err(_) => Err(LineFault::LineTooLong),
        }
    }

    /// Whether it holds nothing.
    #[inline]
    pub fn is_empty(&self) -> bool
        ensures { result ≡ (length self.now == 0) }
    {
        self.bytes.is_empty()
    }

    /// The bytes that it holds.
    #[inline]
    pub fn bytes(&self) -> &[u8]
        ensures value { result.now ≡ self.now }
        ensures fits { length result.now ≤ 1024 }
    {
        self.bytes.as_slice()
    }

    /// Forgets what it holds.
    #[inline]
    pub fn clear(&mut self)
        ensures { self.new ≡ [] }
    {
        self.bytes.clear();
    }
}
