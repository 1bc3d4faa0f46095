//! The words after the program's name: LOG PROGRAM PLACES.
use dim_base::Word;

/// What is read, and where what is made of it is stored. No two have the same name.
#[derive(Clone, Copy, Debug)]
pub struct Command<'a> {
    pub log: &'a Word,
    pub program: &'a Word,
    pub places: &'a Word,
}

/// Whether a word may name a file: 1 to 255 bytes, of which the first is no `-`.
fn is_name(word: &[u8]) -> bool {
    !word.is_empty() && word.len() <= 255 && word[0] != b'-'
}

fn are_apart(a: &[u8], b: &[u8], c: &[u8]) -> bool {
    a != b && b != c && a != c
}

/// What the words say; none where they are no command.
pub fn command_of(words: &[Word]) -> Option<Command<'_>> {
    let [log, program, places] = words else {
        return None;
    };
    let (a, b, c) = (log.as_slice(), program.as_slice(), places.as_slice());
    let named = is_name(a) && is_name(b) && is_name(c);
    if named && are_apart(a, b, c) {
        Some(Command {
            log,
            program,
            places,
        })
    } else {
        None
    }
}
