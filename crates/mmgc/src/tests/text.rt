// Traces and logs as texts.
use std::alloc::{AllocError, Global};

// A semicolon stands for the end of a line, and `_` for a space.
pub(crate) fn add_text(text: &mut Vec<u8>, lines: &str) -> Result<(), AllocError> {
    for byte in lines.as_bytes() {
        text.push(match *byte {
            b';' => b'\n',
            b'_' => b' ',
            other => other,
        })?;
    }
    Ok(())
}

pub(crate) fn add_lines(text: &mut Vec<u8>, lines: &str) -> Result<(), AllocError> {
    add_text(text, lines)?;
    if !lines.is_empty() {
        text.push(b'\n')?;
    }
    Ok(())
}

pub(crate) fn lines_of(alloc: Global, lines: &str) -> Result<Vec<u8>, AllocError> {
    let mut text = Vec::new(alloc);
    add_lines(&mut text, lines)?;
    Ok(text)
}

// Lines with a number in the first of them.
pub(crate) fn add_numbered(
    text: &mut Vec<u8>,
    words: &str,
    number: u32,
    rest: &str,
) -> Result<(), AllocError> {
    add_text(text, words)?;
    text.extend_from_slice(itoa::Buffer::new().format(number).as_bytes())?;
    add_text(text, rest)?;
    text.push(b'\n')?;
    Ok(())
}

// How often a part stands in a text.
pub(crate) fn occurrences(text: &[u8], part: &[u8]) -> usize {
    let mut count = 0usize;
    for start in 0..text.len() {
        if text[start..].starts_with(part) {
            count = count.saturating_add(1);
        }
    }
    count
}
