//! The program that a number stands for.
ghost use Rattle.std.specs.Prelude.{◌≡◌, ◌∷◌, ◌++◌, [], map, codes, IfOk, OnOk, Ok};
ghost use Rattle.std.specs.String.{string_bytes};
ghost use Rattle.std.specs.List.{flat_map};
ghost use Rattle.dim_text.specs.Cuts.{ended, line_of};
ghost use Rattle.dim_asm.specs.Assembling.{program_of};
ghost use Rattle.dim_asm.specs.Bound.{bound, own_names};
ghost use Rattle.dim_asm.specs.Printing.{program_text, thread_line};
ghost use Rattle.dim_asm.specs.Source.{LockLine, FuncLine, OpLine, ThreadLine};
ghost use Rattle.dim_asm.specs.Spelling.{function_lines, source_text, spelled, text_of};
ghost use Rattle.dim_schedule.specs.Drawn.{word, after, generator};
ghost use Rattle.dim_generate.specs.Generated.{from, numbered, lock_name, generated_program};
ghost use Rattle.dim_generate.specs.Drafted.{called, taker_draft, caller_draft, taker_of, caller_of, started, generated_source};

use dim_base::{Bytes, OutOfMemory};
use rand_core::SeedableRng;
use rand_core::utils::NextWord;
use rand_pcg::Pcg32;
use std::alloc::{AllocError, Global};
use std::fmt::Write;

// Takes the next word.
fn next(words: &mut Pcg32) -> u32
    ensures word { result ≡ word words.old }
    ensures left { words.new ≡ after 1 words.old }
{
    words.next_word()
}

// Appends a line of a word and of a name: a letter, and the two digits of a number.
fn put_naming(text: &mut String, word: &str, letter: &str, number: u32) -> Result<(), AllocError>
    ensures { OnOk result
        (string_bytes text.new
        ≡ string_bytes text.old ++ ended (line_of (word.now ∷ numbered letter.now number ∷ []))) }
{
    let tens = number / 10;
    let ones = number % 10;
    writeln!(text, "{word} {letter}{tens}{ones}")
}

// Appends some lines as they are.
fn put_lines(text: &mut String, lines: &str) -> Result<(), AllocError>
    ensures { OnOk result (string_bytes text.new ≡ string_bytes text.old ++ lines.now) }
{
    text.push_str(lines)
}

// Appends the first line of a function with such a name.
fn put_head(text: &mut String, letter: &str, number: u32, locals: u32) -> Result<(), AllocError>
    ensures { OnOk result
        (string_bytes text.new
        ≡ string_bytes text.old ++ ended (spelled (FuncLine (numbered letter.now number) locals))) }
{
    let tens = number / 10;
    let ones = number % 10;
    writeln!(text, "func {letter}{tens}{ones} {locals}")
}

fn put_locks(text: &mut String) -> Result<(), AllocError>
    ensures { OnOk result
        (string_bytes text.new
        ≡ string_bytes text.old ++ text_of
        (map (λ name. LockLine name) (map lock_name (from 0 16)))) }
{
    for number in 0..16 {
        put_naming(text, "lock", "l", number)?;
    }
    Ok(())
}

// Appends the lines of a function that takes two locks, and frees them.
fn put_taker(text: &mut String, number: u32, x: u32, y: u32) -> Result<(), AllocError>
    ensures { OnOk result
        (string_bytes text.new
        ≡ string_bytes text.old ++ text_of (function_lines (taker_draft number x y))) }
{
    put_head(text, "f", number, 0)?;
    put_naming(text, "LOCK", "l", x)?;
    put_naming(text, "LOCK", "l", y)?;
    put_naming(text, "UNLOCK", "l", y)?;
    put_naming(text, "UNLOCK", "l", x)?;
    put_lines(text, "RET\nend\n")
}

// Appends the functions that take two locks. Two words draw the locks of each.
fn put_takers(text: &mut String, words: &mut Pcg32) -> Result<(), AllocError>
    ensures lines { OnOk result
        (string_bytes text.new
        ≡ string_bytes text.old ++ text_of
        (flat_map function_lines (map (taker_of words.old) (from 0 32)))) }
    ensures left { OnOk result (words.new ≡ after 64 words.old) }
{
    for number in 0..32 {
        let x = next(words) % 16;
        let y = (x + 1 + next(words) % 15) % 16;
        put_taker(text, number, x, y)?;
    }
    Ok(())
}

// Appends the calls of four functions.
fn put_calls(text: &mut String, a: u32, b: u32, c: u32, d: u32) -> Result<(), AllocError>
    ensures { OnOk result
        (string_bytes text.new
        ≡ string_bytes text.old ++ text_of (map (λ f. OpLine (called f)) (a ∷ b ∷ c ∷ d ∷ []))) }
{
    put_naming(text, "CALL", "f", a)?;
    put_naming(text, "CALL", "f", b)?;
    put_naming(text, "CALL", "f", c)?;
    put_naming(text, "CALL", "f", d)
}

// Appends the lines of a function that calls four others, as many times as its argument says.
fn put_caller(
    text: &mut String,
    number: u32,
    a: u32,
    b: u32,
    c: u32,
    d: u32,
) -> Result<(), AllocError>
    ensures { OnOk result
        (string_bytes text.new
        ≡ string_bytes text.old ++ text_of (function_lines (caller_draft number a b c d))) }
{
    put_head(text, "m", number, 1)?;
    put_lines(text, "PUTL 0\nGETL 0\nJZ 12\n")?;
    put_calls(text, a, b, c, d)?;
    put_lines(text, "GETL 0\nPUSH 1\nSUB\nPUTL 0\nJMP 1\nRET\nend\n")
}

// Appends the functions that call others. Four words draw which ones each calls.
fn put_callers(text: &mut String, words: &mut Pcg32) -> Result<(), AllocError>
    ensures { OnOk result
        (string_bytes text.new
        ≡ string_bytes text.old ++ text_of
        (flat_map function_lines (map (caller_of words.old) (from 0 16)))) }
{
    for number in 0..16 {
        let a = next(words) % 32;
        let b = next(words) % 32;
        let c = next(words) % 32;
        let d = next(words) % 32;
        put_caller(text, number, a, b, c, d)?;
    }
    Ok(())
}

// Appends the line of a thread.
fn put_thread(text: &mut String, number: u32, argument: i64) -> Result<(), AllocError>
    ensures { OnOk result
        (string_bytes text.new
        ≡ string_bytes text.old ++ ended
        (spelled (ThreadLine (numbered (codes "m") number) argument))) }
{
    let tens = number / 10;
    let ones = number % 10;
    writeln!(text, "thread m{tens}{ones} {argument}")
}

fn put_threads(text: &mut String) -> Result<(), AllocError>
    ensures { OnOk result
        (string_bytes text.new
        ≡ string_bytes text.old ++ text_of (map thread_line (map started (from 0 16)))) }
{
    for number in 0..16 {
        put_thread(text, number, 100)?;
    }
    Ok(())
}

// Appends what stands between the first line and the last.
fn put_all(text: &mut String, words: &mut Pcg32) -> Result<(), AllocError>
    ensures { OnOk result
        (string_bytes text.new
        ≡ string_bytes text.old
        ++ (text_of (map (λ name. LockLine name) (generated_source words.old).locks)
        ++ (text_of (flat_map function_lines (generated_source words.old).funcs) ++ text_of
        (map thread_line (generated_source words.old).threads)))) }
{
    put_locks(text)?;
    put_takers(text, words)?;
    put_callers(text, words)?;
    put_threads(text)
}

// The words of a number.
fn words_of(n: u32) -> Pcg32
    ensures { result ≡ generator n }
{
    Pcg32::seed_from_u64(u64::from(n))
}

fn whole_text(alloc: Global, n: u32) -> Result<String, AllocError>
    ensures { IfOk result
        (λ text. string_bytes text ≡ source_text (generated_source (generator n))) }
{
    let mut words = words_of(n);
    let mut text = String::from_str(alloc, "dim program 1\n")?;
    put_all(&mut text, &mut words)?;
    text.push_str("end program\n")?;
    Ok(text)
}

/// The text of the program that a number stands for: 16 locks, 32 functions that each take two
/// locks, and 16 threads that each loop over calls of four of them.
///
/// Which locks and which functions these are is drawn from the words of the generator `Pcg32` made
/// by the number: docs/formats.md. The text is a program's.
pub fn generated(alloc: Global, n: u32) -> Result<Bytes, OutOfMemory>
    ensures text { IfOk result (λ bytes. bytes ≡ program_text (generated_program n)) }
    ensures program { program_of (program_text (generated_program n))
        ≡ Ok (bound (own_names (generated_program n)) (generated_program n)) }
{
    let text = whole_text(alloc, n)?;
    Ok(Bytes::from_vec(text.into_bytes()))
}
