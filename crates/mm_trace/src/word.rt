// The words of a line: what stands between spaces.
ghost use Rattle.std.specs.Prelude.{◌≡◌, ◌≢◌, ◌≤◌, ◌==◌, [], ◌∷◌, length, not, bytes_eq, MatchOption, IfOk, IfErr};
ghost use Rattle.std.specs.List.{prefix_len};
ghost use Rattle.mm_model.specs.Logs.Trace.{words_of};
ghost use Rattle.mm_model.specs.declared.refusal.LineFault.TheVariants.{WordCount};

use mm_model::LineFault;

/// Whether a word is this name.
// The names are literals, so this becomes one comparison for each byte, where `==` would be a call.
#[inline]
pub(crate) fn is(word: &[u8], name: &[u8]) -> bool
    ensures { result ≡ bytes_eq name.now word.now }
{
    if word.len() != name.len() {
        return false;
    }
    for (i, byte) in name.iter().enumerate() {
        if word[i] != *byte {
            return false;
        }
    }
    true
}

// How many spaces stand in front.
#[inline]
fn spaces(line: &[u8]) -> usize
    ensures first { result ≡ prefix_len (λ b. b == 32) line.now }
    ensures within { result ≤ length line.now }
{
    for (i, byte) in line.iter().enumerate() {
        if *byte != b' ' {
            return i;
        }
    }
    line.len()
}

// How many bytes stand before the first space.
#[inline]
fn word_end(line: &[u8]) -> usize
    ensures first { result ≡ prefix_len (λ b. not (b == 32)) line.now }
    ensures within { result ≤ length line.now }
{
    for (i, byte) in line.iter().enumerate() {
        if *byte == b' ' {
            return i;
        }
    }
    line.len()
}

/// The first word of a line and what stands after it, if there is a word.
#[inline]
pub(crate) fn next_word(line: &[u8]) -> Option<(&[u8], &[u8])>
    ensures { MatchOption result (words_of line.now ≡ [])
        (λ cut. words_of line.now ≡ cut.0.now ∷ words_of cut.1.now) }
{
    let text = &line[spaces(line)..];
    if text.is_empty() {
        return None;
    }
    Some(text.split_at(word_end(text)))
}

/// Nothing but spaces.
pub(crate) fn no_word(line: &[u8]) -> Result<(), LineFault>
    ensures found { IfOk result (λ _. words_of line.now ≡ []) }
    ensures count { IfErr result (λ fault. (fault ≡ WordCount) × (length (words_of line.now) ≢ 0)) }
{
    match next_word(line) {
        None => Ok(()),
        Some(_) => Err(LineFault::WordCount),
    }
}

/// The only word.
pub(crate) fn one_word(line: &[u8]) -> Result<&[u8], LineFault>
    ensures found { IfOk result (λ word. words_of line.now ≡ word.now ∷ []) }
    ensures count { IfErr result (λ fault. (fault ≡ WordCount) × (length (words_of line.now) ≢ 1)) }
{
    let (word, rest) = next_word(line).ok_or(LineFault::WordCount)?;
    no_word(rest)?;
    Ok(word)
}

/// The only two words.
pub(crate) fn two_words(line: &[u8]) -> Result<(&[u8], &[u8]), LineFault>
    ensures found { IfOk result (λ words. words_of line.now ≡ words.0.now ∷ words.1.now ∷ []) }
    ensures count { IfErr result (λ fault. (fault ≡ WordCount) × (length (words_of line.now) ≢ 2)) }
{
    let (first, rest) = next_word(line).ok_or(LineFault::WordCount)?;
    let second = one_word(rest)?;
    Ok((first, second))
}

/// The only three words.
pub(crate) fn three_words(line: &[u8]) -> Result<(&[u8], &[u8], &[u8]), LineFault>
    ensures found { IfOk result (λ words. words_of line.now ≡ words.0.now ∷ words.1.now ∷ words.2.now ∷ []) }
    ensures count { IfErr result (λ fault. (fault ≡ WordCount) × (length (words_of line.now) ≢ 3)) }
{
    let (first, rest) = next_word(line).ok_or(LineFault::WordCount)?;
    let (second, third) = two_words(rest)?;
    Ok((first, second, third))
}
