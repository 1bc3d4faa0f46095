//! The lines of a program, appended to a text.
ghost use Rattle.std.specs.Prelude.{◌≡◌, ◌++◌, ◌<◌, All, FitsSigned, OnOk, length, map};
ghost use Rattle.std.specs.Int.{w64};
ghost use Rattle.std.specs.String.{string_bytes};
ghost use Rattle.std.specs.List.{flat_map};
ghost use Rattle.dim_text.specs.Cuts.{ended};
ghost use Rattle.dim_asm.specs.Code.{lock_count, func_count, IsFine};
ghost use Rattle.dim_asm.specs.Source.{OpLine, LockLine};
ghost use Rattle.dim_asm.specs.Spelling.{spelled, function_lines, text_of};
ghost use Rattle.dim_asm.specs.Printing.{names_in, name_at, named_op, named_function, named_start, thread_line, op_word, HasWidth};

use crate::program::Function;
use crate::{Op, Program, Start};
use dim_base::Lid;
use std::alloc::AllocError;
use std::fmt::Write;

// The word of an instruction.
fn word(op: &Op) -> &'static str
    ensures { result.now ≡ op_word op.now }
{
    match op {
        Op::Push { .. } => "PUSH",
        Op::Pop => "POP",
        Op::Dup => "DUP",
        Op::Swap => "SWAP",
        Op::Add => "ADD",
        Op::Sub => "SUB",
        Op::Lt => "LT",
        Op::Eq => "EQ",
        Op::Jmp { .. } => "JMP",
        Op::Jz { .. } => "JZ",
        Op::GetL { .. } => "GETL",
        Op::PutL { .. } => "PUTL",
        Op::Call { .. } => "CALL",
        Op::Ret => "RET",
        Op::Lock { .. } => "LOCK",
        Op::LockX => "LOCKX",
        Op::Unlock { .. } => "UNLOCK",
        Op::UnlockX => "UNLOCKX",
        Op::TryLock { .. } => "TRYLOCK",
        Op::Say => "SAY",
        Op::Halt => "HALT",
    }
}

// The name of a function.
fn func_name(program: &Program, f: u32) -> &str
    requires { f < func_count program.now }
    ensures { result.now ≡ name_at (names_in program.now).names f }
{
    program.func_name(f).as_str()
}

// The name of a lock.
fn lock_name(program: &Program, l: Lid) -> &str
    requires { l.0 < lock_count program.now }
    ensures { result.now ≡ name_at (names_in program.now).locks l.0 }
{
    program.lock_name(l).as_str()
}

// Appends the line of an instruction.
fn put_op(text: &mut String, program: &Program, op: &Op) -> Result<(), AllocError>
    requires { IsFine (lock_count program.now) (func_count program.now) op.now }
    ensures line { OnOk result
        (string_bytes text.new
        ≡ string_bytes text.old ++ ended
        (spelled (OpLine (named_op (names_in program.now) op.now)))) }
    ensures width { OnOk result (HasWidth op.now) }
{
    let word = word(op);
    match op {
        Op::Push { n } => {
            let n = *n;
            writeln!(text, "{word} {n}")
        }
        Op::Jmp { k } | Op::Jz { k } => writeln!(text, "{word} {k}"),
        Op::GetL { i } | Op::PutL { i } => writeln!(text, "{word} {i}"),
        Op::Call { f } => {
            let name = func_name(program, *f);
            writeln!(text, "{word} {name}")
        }
        Op::Lock { l } | Op::Unlock { l } | Op::TryLock { l } => {
            let name = lock_name(program, *l);
            writeln!(text, "{word} {name}")
        }
        _ => writeln!(text, "{word}"),
    }
}

// Appends the lines of a function.
fn put_func(text: &mut String, program: &Program, func: &Function) -> Result<(), AllocError>
    requires { All (IsFine (lock_count program.now) (func_count program.now)) func.now.ops }
    ensures lines { OnOk result
        (string_bytes text.new
        ≡ string_bytes text.old ++ text_of
        (function_lines (named_function (names_in program.now) func.now))) }
    ensures width { OnOk result (All HasWidth func.now.ops) }
{
    let name = func.name.as_str();
    let locals = func.locals;
    writeln!(text, "func {name} {locals}")?;
    for op in &func.ops {
        put_op(text, program, op)?;
    }
    text.push_str("end\n")
}

/// Appends the lines of the locks.
pub fn put_locks(text: &mut String, program: &Program) -> Result<(), AllocError>
    ensures { OnOk result
        (string_bytes text.new
        ≡ string_bytes text.old ++ text_of (map (λ name. LockLine name) program.now.locks)) }
{
    for l in 0..program.locks() {
        let name = lock_name(program, Lid(l));
        writeln!(text, "lock {name}")?;
    }
    Ok(())
}

/// Appends the lines of the functions.
pub fn put_funcs(text: &mut String, program: &Program) -> Result<(), AllocError>
    ensures lines { OnOk result
        (string_bytes text.new
        ≡ string_bytes text.old ++ text_of
        (flat_map function_lines (map (named_function (names_in program.now)) program.now.funcs))) }
    ensures width { OnOk result (All (λ f. All HasWidth f.ops) program.now.funcs) }
{
    for func in &program.funcs {
        put_func(text, program, func)?;
    }
    Ok(())
}

// Appends the line of a thread.
fn put_thread(text: &mut String, program: &Program, start: Start) -> Result<(), AllocError>
    requires { start.func < func_count program.now }
    ensures line { OnOk result
        (string_bytes text.new
        ≡ string_bytes text.old ++ ended
        (spelled (thread_line (named_start (names_in program.now) start)))) }
    ensures width { FitsSigned w64 start.argument }
{
    let name = func_name(program, start.func);
    let argument = start.argument;
    writeln!(text, "thread {name} {argument}")
}

/// Appends the lines of the threads.
pub fn put_threads(text: &mut String, program: &Program) -> Result<(), AllocError>
    ensures lines { OnOk result
        (string_bytes text.new
        ≡ string_bytes text.old ++ text_of
        (map thread_line (map (named_start (names_in program.now)) program.now.threads))) }
    ensures width { OnOk result (All (λ s. FitsSigned w64 s.argument) program.now.threads) }
{
    for start in &program.threads {
        put_thread(text, program, *start)?;
    }
    Ok(())
}
