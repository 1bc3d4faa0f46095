//! The words of the program.
ghost use Rattle.std.specs.Prelude.{◌≡◌, option_map};
ghost use Rattle.dim_merge.specs.Words.{are_apart, is_dash, is_name, is_source, merge_words, words_of};

use dim_base::Word;

/// How many bytes a file's name has at most.
const MOST_NAME: usize = 255;

/// Two histories and the one that is made of them, by the names of their files.
#[derive(Clone, Copy)]
pub struct MergeWords<'a> {
    pub first: &'a Word,
    pub second: &'a Word,
    pub new_history: &'a Word,
}

/// Whether a word stands for the history that knows no signature.
pub fn is_dash(word: &Word) -> bool
    ensures { result ≡ is_dash word.now }
{
    word.as_str() == "-"
}

// Whether a word is the name of a file: 1 to 255 bytes, of which the first is no dash.
fn is_name(word: &Word) -> bool
    ensures { result ≡ is_name word.now }
{
    match word.as_slice() {
        [] => false,
        bytes => bytes[0] != b'-' && bytes.len() <= MOST_NAME,
    }
}

fn is_source(word: &Word) -> bool
    ensures { result ≡ is_source word.now }
{
    is_dash(word) || is_name(word)
}

// Whether the file written is none of those read.
fn are_apart(words: &MergeWords<'_>) -> bool
    ensures { result ≡ are_apart (words_of words.now) }
{
    words.new_history != words.first && words.new_history != words.second
}

/// The three names that the words are, or None where they aren't such.
pub fn merge_words(words: &[Word]) -> Option<MergeWords<'_>>
    ensures { option_map words_of result ≡ merge_words words.now }
{
    let [first, second, new_history] = words else {
        return None;
    };
    let found = MergeWords {
        first,
        second,
        new_history,
    };
    if is_source(first) && is_source(second) && is_name(new_history) && are_apart(&found) {
        Some(found)
    } else {
        None
    }
}
