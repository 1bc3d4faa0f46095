//! Numbers in decimal digits. Each number has exactly one spelling.
ghost use Rattle.std.specs.Prelude.{◌≡◌, ◌≤◌, ◌<◌, ◌^◌, ◌-◌, ◌+◌, ◌*◌, ℕ, ℤ, true, if◌then◌else◌, nat_le, option_and_then, Some, None, IfSome, IfNone, FitsSigned, length, pos};
ghost use Rattle.std.specs.Int.{w64};
ghost use Rattle.std.specs.Option.{option_map};
ghost use Rattle.std.specs.Fmt.{decimal, signed_decimal};
ghost use Rattle.dim_text.specs.Numerals.{are_digits, has_leading_zero, is_number, value_of, number_of, number_from, below_zero, signed_of};

fn are_digits(word: &[u8]) -> bool
    ensures { result ≡ are_digits word.now }
{
    word.iter().all(|byte| byte.is_ascii_digit())
}

// Whether a zero stands before other digits.
fn is_padded(word: &[u8]) -> bool
    ensures { result ≡ has_leading_zero word.now }
{
    word.len() > 1 && word[0] == b'0'
}

/// Whether a word is a number: `0`, or decimal digits of which the first isn't 0. It may have any
/// length.
pub fn is_number(word: &[u8]) -> bool
    ensures { result ≡ is_number word.now }
{
    !word.is_empty() && !is_padded(word) && are_digits(word)
}

// A value where it is at most max.
fn at_most(value: u64, max: u64) -> Option<u64>
    ensures { result ≡ (if nat_le value max then Some value else None) }
{
    if value <= max { Some(value) } else { None }
}

// A number with one digit more, where it is at most max.
fn with_digit(value: u64, digit: u8, max: u64) -> Option<u64>
    requires low { 48 ≤ digit }
    requires high { digit ≤ 57 }
    ensures { result
        ≡ (if nat_le (10 * value + (digit - 48)) max then Some (10 * value + (digit - 48)) else None) }
{
    let next = value.checked_mul(10)?.checked_add(u64::from(digit - b'0'))?;
    at_most(next, max)
}

// The value of digits, where it is at most max.
fn value(digits: &[u8], max: u64) -> Option<u64>
    requires { are_digits digits.now ≡ true }
    ensures { result
        ≡ (if nat_le (value_of digits.now) max then Some (value_of digits.now) else None) }
{
    let mut value = 0;
    for digit in digits {
        value = with_digit(value, *digit, max)?;
    }
    Some(value)
}

// The value of a word of digits, which is so short that it has room in 64 bits.
fn short_value(word: &[u8]) -> Option<u64>
    requires { length word.now ≤ 19 }
    ensures { result ≡ (if are_digits word.now then Some (value_of word.now) else None) }
{
    let mut value = 0;
    for byte in word {
        if !byte.is_ascii_digit() {
            return None;
        }
        value = 10 * value + u64::from(*byte - b'0');
    }
    Some(value)
}

// The number that a short word is, where it is at most max.
#[tactic(auto, unfolding(crate::specs::Numerals::number_of))]
fn short_number(word: &[u8], max: u64) -> Option<u64>
    requires { length word.now ≤ 19 }
    ensures { result ≡ number_of max word.now }
{
    if word.is_empty() || is_padded(word) {
        return None;
    }
    at_most(short_value(word)?, max)
}

// The same for a word of any length.
#[tactic(auto, unfolding(crate::specs::Numerals::number_of))]
fn long_number(word: &[u8], max: u64) -> Option<u64>
    ensures { result ≡ number_of max word.now }
{
    if !is_number(word) {
        return None;
    }
    value(word, max)
}

// One pass over a short word, and two over a longer one.
fn number_within(word: &[u8], max: u64) -> Option<u64>
    ensures { result ≡ number_of max word.now }
{
    if word.len() <= 19 {
        short_number(word, max)
    } else {
        long_number(word, max)
    }
}

/// The number that a word is, where it is at most `max`.
#[tactic(auto, using(crate::proofs::Digits::found_given, crate::proofs::Digits::none_given))]
pub fn number64(word: &[u8], max: u64) -> Option<u64>
    ensures value { result ≡ number_of max word.now }
    ensures found { IfSome result (λ n. (n ≤ max) × (word.now ≡ decimal n)) }
    ensures none { IfNone result ((n : ℕ) → n ≤ max → word.now ≡ decimal n → ⊥) }
{
    number_within(word, max)
}

/// The number that a word is, where it is at most `max`.
pub fn number(word: &[u8], max: u32) -> Option<u32>
    ensures value { result ≡ number_of max word.now }
    ensures found { IfSome result (λ n. (n ≤ max) × (word.now ≡ decimal n)) }
    ensures none { IfNone result ((n : ℕ) → n ≤ max → word.now ≡ decimal n → ⊥) }
{
    let n = number64(word, u64::from(max))?;
    Some(n as u32)
}

/// The number from `low` to `high` that a word is.
pub fn number_from(word: &[u8], low: u32, high: u32) -> Option<u32>
    ensures value { result ≡ number_from low high word.now }
    ensures within { IfSome result (λ n. (low ≤ n) × (n ≤ high)) }
{
    match number(word, high) {
        Some(n) if low <= n => Some(n),
        _ => None,
    }
}

// The number below 0 that these digits spell behind a `-`.
fn negative(digits: &[u8]) -> Option<i64>
    ensures { result ≡ option_and_then below_zero (number_of (2 ^ 63) digits.now) }
{
    match number64(digits, 1 << 63)? {
        0 => None,
        n => Some(-1 - (n - 1) as i64),
    }
}

fn positive(digits: &[u8]) -> Option<i64>
    ensures { result ≡ option_map pos (number_of (2 ^ 63 - 1) digits.now) }
{
    Some(number64(digits, i64::MAX as u64)? as i64)
}

#[tactic(auto, unfolding(crate::specs::Numerals::signed_of))]
fn signed_within(word: &[u8]) -> Option<i64>
    ensures { result ≡ signed_of word.now }
{
    match word {
        [b'-', digits @ ..] => negative(digits),
        _ => positive(word),
    }
}

/// The signed number of 64 bits that a word is: a number, or `-` before a number other than 0.
#[tactic(auto, using(crate::proofs::Digits::signed_found_given, crate::proofs::Digits::signed_none_given))]
pub fn signed(word: &[u8]) -> Option<i64>
    ensures value { result ≡ signed_of word.now }
    ensures found { IfSome result (λ z. word.now ≡ signed_decimal z) }
    ensures none { IfNone result ((z : ℤ) → FitsSigned w64 z → word.now ≡ signed_decimal z → ⊥) }
{
    signed_within(word)
}
