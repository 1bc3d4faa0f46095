//! What a line says, by what was read before it, or the first fault of its form.
ghost use Rattle.std.specs.Prelude.{◌≡◌, Some};
ghost use Rattle.dim_text.specs.Reading.{Gives};
ghost use Rattle.dim_asm.specs.Judging.{lock_line, func_line, thread_line, op_line, end_line, after_locks, in_function, after_function, after_thread, judged};
ghost use Rattle.dim_asm.specs.Source.{last_size};
ghost use Rattle.dim_asm.specs.Seen.{seen_statement};

use crate::AsmKind;
use crate::mnemonic::mnemonic_of;
use crate::reader::{Reader, Stage};
use crate::statement::{Statement, argument_word, close_line, draft_of, no_word};
use dim_text::{Parts, name, number, one_word, signed, two_words, unless};

const MOST_LOCKS: usize = 256;

const MOST_FUNCS: usize = 256;

const MOST_THREADS: usize = 32;

const MOST_OPS: usize = 65536;

impl<'a> Reader<'a> {
    ghost use Rattle.dim_asm.specs.Reader.{read, IsCounted};

    // `lock NAME`
    #[tactic(auto, unfolding(crate::specs::Judging::lock_line))]
    fn lock(&self, words: &mut Parts<'a>) -> Result<Statement<'a>, AsmKind>
        ensures { Gives Some seen_statement result (lock_line (read self.now) words.old) }
    {
        let word = one_word(words, AsmKind::Shape)?;
        unless(self.locks.len() == MOST_LOCKS, AsmKind::Limit)?;
        let name = name(word).ok_or(AsmKind::Name)?;
        unless(self.locks.has(name), AsmKind::Double)?;
        Ok(Statement::Lock(name))
    }

    // `func NAME LOCALS`
    #[tactic(auto, unfolding(crate::specs::Judging::func_line))]
    fn func(&self, words: &mut Parts<'a>) -> Result<Statement<'a>, AsmKind>
        requires { IsCounted self.now }
        ensures { Gives Some seen_statement result (func_line (read self.now) words.old) }
    {
        let (first, second) = two_words(words, AsmKind::Shape)?;
        unless(self.funcs.len() == MOST_FUNCS, AsmKind::Limit)?;
        let name = name(first).ok_or(AsmKind::Name)?;
        let locals = number(second, 16).ok_or(AsmKind::Number)?;
        unless(self.names.has(name), AsmKind::Double)?;
        Ok(Statement::Func { name, locals })
    }

    // `thread FUNCTION ARGUMENT`
    #[tactic(auto, unfolding(crate::specs::Judging::thread_line))]
    fn thread(&self, words: &mut Parts<'a>) -> Result<Statement<'a>, AsmKind>
        ensures { Gives Some seen_statement result (thread_line (read self.now) words.old) }
    {
        let (first, second) = two_words(words, AsmKind::Shape)?;
        unless(self.threads.len() == MOST_THREADS, AsmKind::Limit)?;
        let func = name(first).ok_or(AsmKind::Name)?;
        let argument = signed(second).ok_or(AsmKind::Number)?;
        Ok(Statement::Thread { func, argument })
    }

    // An instruction.
    #[tactic(auto, unfolding(crate::specs::Judging::op_line))]
    fn op(&self, first: &'a [u8], words: &mut Parts<'a>) -> Result<Statement<'a>, AsmKind>
        requires { IsCounted self.now }
        ensures { Gives Some seen_statement result (op_line (read self.now) first.now words.old) }
    {
        let mnemonic = mnemonic_of(first).ok_or(AsmKind::Word)?;
        let word = argument_word(mnemonic, words)?;
        unless(self.ops == MOST_OPS, AsmKind::Limit)?;
        let draft = draft_of(mnemonic, word)?;
        Ok(Statement::Op(draft))
    }

    // `end` of a function
    #[tactic(auto, unfolding(crate::specs::Judging::end_line))]
    fn end(&self, words: &mut Parts<'a>) -> Result<Statement<'a>, AsmKind>
        ensures { Gives Some seen_statement result (end_line (read self.now) words.old) }
    {
        no_word(words)?;
        unless(self.last_size() == 0, AsmKind::Shape)?;
        Ok(Statement::End)
    }

    #[tactic(auto, unfolding(crate::specs::Judging::after_locks))]
    fn after_locks(&self, words: &mut Parts<'a>) -> Result<Statement<'a>, AsmKind>
        requires { IsCounted self.now }
        ensures { Gives Some seen_statement result (after_locks (read self.now) words.old) }
    {
        match words.next_part() {
            Some(b"lock") => self.lock(words),
            Some(b"func") => self.func(words),
            _ => Err(AsmKind::Word),
        }
    }

    #[tactic(auto, unfolding(crate::specs::Judging::in_function))]
    fn in_function(&self, words: &mut Parts<'a>) -> Result<Statement<'a>, AsmKind>
        requires { IsCounted self.now }
        ensures { Gives Some seen_statement result (in_function (read self.now) words.old) }
    {
        match words.next_part() {
            Some(b"end") => self.end(words),
            Some(first) => self.op(first, words),
            None => Err(AsmKind::Word),
        }
    }

    #[tactic(auto, unfolding(crate::specs::Judging::after_function))]
    fn after_function(&self, words: &mut Parts<'a>) -> Result<Statement<'a>, AsmKind>
        requires { IsCounted self.now }
        ensures { Gives Some seen_statement result (after_function (read self.now) words.old) }
    {
        match words.next_part() {
            Some(b"func") => self.func(words),
            Some(b"thread") => self.thread(words),
            _ => Err(AsmKind::Word),
        }
    }

    #[tactic(auto, unfolding(crate::specs::Judging::after_thread))]
    fn after_thread(&self, words: &mut Parts<'a>) -> Result<Statement<'a>, AsmKind>
        ensures { Gives Some seen_statement result (after_thread (read self.now) words.old) }
    {
        match words.next_part() {
            Some(b"thread") => self.thread(words),
            Some(b"end") => close_line(words),
            _ => Err(AsmKind::Word),
        }
    }

    /// What a line says at this place.
    #[tactic(auto, unfolding(crate::specs::Judging::judged))]
    pub fn judge(&self, line: &'a [u8]) -> Result<Statement<'a>, AsmKind>
        requires { IsCounted self.now }
        ensures { Gives Some seen_statement result
            (judged self.now.stage (read self.now) line.now) }
    {
        let mut words = Parts::words(line);
        match self.stage {
            Stage::Head if line == b"dim program 1".as_slice() => Ok(Statement::Head),
            Stage::Locks => self.after_locks(&mut words),
            Stage::Function => self.in_function(&mut words),
            Stage::Functions => self.after_function(&mut words),
            Stage::Threads => self.after_thread(&mut words),
            Stage::Head | Stage::Closed => Err(AsmKind::Word),
        }
    }

    // How many instructions the last function has.
    fn last_size(&self) -> usize
        ensures { result ≡ last_size self.now.funcs.items }
    {
        match self.funcs.last() {
            Some(func) => func.drafts.len(),
            None => 0,
        }
    }
}
