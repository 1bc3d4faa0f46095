//! The words of a line, where a fault has a kind of the format's own.
ghost use Rattle.std.specs.Prelude.{◌≡◌, Some, length};
ghost use Rattle.std.specs.Str.{bytes_eq};
ghost use Rattle.dim_text.specs.Reading.{Gives};
ghost use Rattle.dim_text.specs.Words.{one_word, two_words, unless};

use crate::Parts;

/// Fails with this kind where a test has found a fault.
pub fn unless<K: Copy>(fault: bool, kind: K) -> Result<(), K>
    ensures { result ≡ unless fault kind }
{
    if fault { Err(kind) } else { Ok(()) }
}

/// Whether two words are equal. Most differ in length, which is seen at once. The others are short,
/// so they are compared byte by byte, which costs less than a comparison made for long ones.
pub fn is_word(a: &[u8], b: &[u8]) -> bool
    ensures { result ≡ bytes_eq a.now b.now }
{
    a.len() == b.len() && are_equal(a, b)
}

/// Whether two words of one length are equal.
fn are_equal(a: &[u8], b: &[u8]) -> bool
    requires { length a.now ≡ length b.now }
    ensures { result ≡ bytes_eq a.now b.now }
{
    for i in 0..a.len() {
        if a[i] != b[i] {
            return false;
        }
    }
    true
}

/// The one word that is left. Where none or more are left, or it is empty, it fails with this kind.
pub fn one_word<'a, K: Copy>(words: &mut Parts<'a>, kind: K) -> Result<&'a [u8], K>
    ensures { Gives Some (λ word. word.now) result (one_word words.old kind) }
{
    match words.next_part() {
        Some(word) if !word.is_empty() && words.is_done() => Ok(word),
        _ => Err(kind),
    }
}

/// The two words that are left. Where fewer or more are left, or one is empty, it fails with this
/// kind.
pub fn two_words<'a, K: Copy>(words: &mut Parts<'a>, kind: K) -> Result<(&'a [u8], &'a [u8]), K>
    ensures { Gives Some (λ pair. (pair.0.now, pair.1.now)) result (two_words words.old kind) }
{
    match words.next_part() {
        Some(first) if !first.is_empty() => Ok((first, one_word(words, kind)?)),
        _ => Err(kind),
    }
}
