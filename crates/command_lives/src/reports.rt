//! What a report and a trace say in numbers.

// Bytes as a text; the empty text where they are none.
pub fn as_text(bytes: &[u8]) -> &str {
    str::from_utf8(bytes).unwrap_or("")
}

// The number behind a word at the start of a line; 0 where no line has it.
pub fn number_at(text: &str, word: &str) -> u64 {
    for line in text.lines() {
        if let Some((first, number)) = line.split_once(' ') {
            if first == word {
                return number.parse().unwrap_or(0);
            }
        }
    }
    0
}

// The sum of the numbers behind these words.
pub fn sum_at(text: &str, words: &[&str]) -> u64 {
    let mut sum = 0u64;
    for word in words {
        sum = sum.saturating_add(number_at(text, word));
    }
    sum
}

// How many lines begin with a word.
fn lines_of(text: &str, word: &str) -> u64 {
    let mut count = 0u64;
    for line in text.lines() {
        if let Some((first, _)) = line.split_once(' ') {
            if first == word {
                count = count.saturating_add(1);
            }
        }
    }
    count
}

// How many lines begin with one of these words.
pub fn lines_with(text: &str, words: &[&str]) -> u64 {
    let mut count = 0u64;
    for word in words {
        count = count.saturating_add(lines_of(text, word));
    }
    count
}
