//! The words after the program's name: PROGRAM HISTORY TRACE PICTURE [--from P] [--to Q].
use dim_base::Word;
use dim_text::number;
use dim_words::CheckCommand;

/// The last place that a trace can have.
const LAST_PLACE: u32 = 1_048_575;

/// The place of HISTORY, which alone may be `-`.
const HISTORY: usize = 1;

/// What is drawn, and where the picture is stored.
#[derive(Clone, Copy)]
pub struct Command<'a> {
    /// What `check` is given.
    pub judged: CheckCommand<'a>,
    pub picture: &'a Word,
    /// The first and the last place of the range, where they were given.
    pub from: Option<u32>,
    pub to: Option<u32>,
}

/// Which option the next word is the value of, if it is one.
#[derive(Clone, Copy, Debug, PartialEq, Eq)]
enum Due {
    Word,
    From,
    To,
}

/// What the words so far say.
#[derive(Clone, Copy, Debug)]
struct Reading {
    due: Due,
    /// Where the names stand among the words, and how many there are.
    names: [usize; 4],
    count: usize,
    from: Option<u32>,
    to: Option<u32>,
}

/// Whether a word may be the name at a place among the names.
fn is_name(word: &[u8], place: usize) -> bool {
    let sized = !word.is_empty() && word.len() <= 255;
    sized && (word[0] != b'-' || (place == HISTORY && word == b"-".as_slice()))
}

impl Reading {
    fn new() -> Reading {
        Reading {
            due: Due::Word,
            names: [0; 4],
            count: 0,
            from: None,
            to: None,
        }
    }

    /// Takes a name, where there is room for one and it is one.
    fn take_name(&mut self, place: usize, word: &[u8]) -> Option<()> {
        if self.count >= 4 || !is_name(word, self.count) {
            return None;
        }
        self.names[self.count] = place;
        self.count += 1;
        Some(())
    }

    /// Takes an option, which stands once, or a name.
    fn take_word(&mut self, place: usize, word: &[u8]) -> Option<()> {
        if word == b"--from".as_slice() && self.from.is_none() {
            self.due = Due::From;
            return Some(());
        }
        if word == b"--to".as_slice() && self.to.is_none() {
            self.due = Due::To;
            return Some(());
        }
        self.take_name(place, word)
    }

    /// Takes the word at a place.
    fn take(&mut self, place: usize, word: &[u8]) -> Option<()> {
        match self.due {
            Due::Word => return self.take_word(place, word),
            Due::From => self.from = Some(number(word, LAST_PLACE)?),
            Due::To => self.to = Some(number(word, LAST_PLACE)?),
        }
        self.due = Due::Word;
        Some(())
    }

    /// What all of the words say.
    fn command<'a>(&self, words: &'a [Word]) -> Option<Command<'a>> {
        if self.count < 4 || self.due != Due::Word {
            return None;
        }
        let judged = CheckCommand {
            program: words.get(self.names[0])?,
            history: words.get(self.names[1])?,
            trace: words.get(self.names[2])?,
        };
        Some(Command {
            judged,
            picture: words.get(self.names[3])?,
            from: self.from,
            to: self.to,
        })
    }
}

/// Whether the picture has a name of its own.
fn is_apart(command: &Command<'_>) -> bool {
    let picture = command.picture.as_slice();
    let CheckCommand {
        program,
        history,
        trace,
    } = command.judged;
    let read = [program, history, trace];
    read.iter().all(|name| name.as_slice() != picture)
}

/// What the words say; none where they are no command.
pub fn command_of(words: &[Word]) -> Option<Command<'_>> {
    let mut reading = Reading::new();
    for place in 0..words.len() {
        reading.take(place, words[place].as_slice())?;
    }
    let command = reading.command(words)?;
    if is_apart(&command) {
        Some(command)
    } else {
        None
    }
}
