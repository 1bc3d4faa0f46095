//! The lines of a program, word by word.
ghost use Rattle.std.specs.Prelude.{◌≡◌, Some, None};
ghost use Rattle.dim_text.specs.Reading.{Gives};
ghost use Rattle.dim_asm.specs.Judging.{no_word, argument_word, draft_of, close_line};
ghost use Rattle.dim_asm.specs.Seen.{seen_draft, seen_statement};

use crate::draft::Draft;
use crate::mnemonic::Mnemonic;
use crate::{AsmKind, Op};
use dim_text::{Parts, name, number, one_word, signed};

/// A line that may stand in a text.
#[derive(Clone, Copy, Debug)]
pub enum Statement<'a> {
    Head,
    Lock(&'a str),
    Func { name: &'a str, locals: u32 },
    Op(Draft<'a>),
    End,
    Thread { func: &'a str, argument: i64 },
    Close,
}

/// No more words.
pub fn no_word(words: &mut Parts) -> Result<(), AsmKind>
    ensures { result ≡ no_word words.old }
{
    match words.next_part() {
        None => Ok(()),
        Some(_) => Err(AsmKind::Shape),
    }
}

/// The argument of an instruction: the empty word where it has none.
pub fn argument_word<'a>(mnemonic: Mnemonic, words: &mut Parts<'a>) -> Result<&'a [u8], AsmKind>
    ensures { Gives Some (λ word. word.now) result (argument_word mnemonic words.old) }
{
    match mnemonic {
        Mnemonic::Bare(_) => {
            no_word(words)?;
            Ok(b"")
        }
        _ => one_word(words, AsmKind::Shape),
    }
}

/// The instruction that a word makes with its argument.
#[tactic(auto, unfolding(crate::specs::Judging::draft_of))]
pub fn draft_of(mnemonic: Mnemonic, word: &[u8]) -> Result<Draft<'_>, AsmKind>
    ensures { Gives Some seen_draft result (draft_of mnemonic word.now) }
{
    match mnemonic {
        Mnemonic::Bare(op) => Ok(Draft::Ready(op)),
        Mnemonic::Push => {
            let n = signed(word).ok_or(AsmKind::Number)?;
            Ok(Draft::Ready(Op::Push { n }))
        }
        Mnemonic::Counts(counting) => {
            let n = number(word, counting.most()).ok_or(AsmKind::Number)?;
            Ok(Draft::Ready(counting.op(n)))
        }
        Mnemonic::Names(naming) => {
            let name = name(word).ok_or(AsmKind::Name)?;
            Ok(Draft::Refers(naming, name))
        }
    }
}

/// The words behind the `end` of a program.
#[tactic(auto, unfolding(crate::specs::Judging::close_line))]
pub fn close_line<'a>(words: &mut Parts<'a>) -> Result<Statement<'a>, AsmKind>
    ensures { Gives Some seen_statement result (close_line words.old) }
{
    match words.next_part() {
        Some(b"program") if words.is_done() => Ok(Statement::Close),
        _ => Err(AsmKind::Shape),
    }
}
