//! The text of a program that is being made.
use crate::code::Instruction;
use crate::drafting::Draft;
use dim_base::OutOfMemory;
use std::alloc::Global;
use std::fmt::Write;

/// The text of a program with so many locks, these functions, and a thread for each of these items,
/// at which it starts.
pub fn text_of(
    alloc: Global,
    locks: usize,
    draft: &Draft,
    starts: &[usize],
) -> Result<String, OutOfMemory> {
    let mut text = String::from_str(alloc, "dim program 1\n")?;
    for lock in 0..locks {
        writeln!(text, "lock m{lock}")?;
    }
    put_functions(&mut text, draft)?;
    for start in starts.iter() {
        writeln!(text, "thread run {start}")?;
    }
    text.push_str("end program\n")?;
    Ok(text)
}

/// Appends the functions.
fn put_functions(text: &mut String, draft: &Draft) -> Result<(), OutOfMemory> {
    for (f, function) in draft.functions.iter().enumerate() {
        let name = name_of(draft, f);
        let locals = function.locals;
        writeln!(text, "func {name} {locals}")?;
        for instruction in function.tree.code.iter() {
            put_instruction(text, draft, instruction)?;
        }
        text.push_str("end\n")?;
    }
    Ok(())
}

/// The name of a function, or the empty one.
fn name_of(draft: &Draft, f: usize) -> &str {
    match draft.names.get(f) {
        Some(name) => name.as_str(),
        None => "",
    }
}

/// Appends an instruction.
fn put_instruction(
    text: &mut String,
    draft: &Draft,
    instruction: &Instruction,
) -> Result<(), OutOfMemory> {
    match instruction {
        Instruction::Push { n } => writeln!(text, "PUSH {n}")?,
        Instruction::Pop => text.push_str("POP\n")?,
        Instruction::Swap => text.push_str("SWAP\n")?,
        Instruction::PutL => text.push_str("PUTL 0\n")?,
        Instruction::GetL => text.push_str("GETL 0\n")?,
        Instruction::Lt => text.push_str("LT\n")?,
        Instruction::Jmp { k } => writeln!(text, "JMP {k}")?,
        Instruction::Jz { k } => writeln!(text, "JZ {k}")?,
        Instruction::Call { f } => put_call(text, name_of(draft, *f))?,
        Instruction::Ret => text.push_str("RET\n")?,
        Instruction::LockX => text.push_str("LOCKX\n")?,
        Instruction::UnlockX => text.push_str("UNLOCKX\n")?,
        Instruction::TryLock { l } => writeln!(text, "TRYLOCK m{l}")?,
    }
    Ok(())
}

/// Appends a call.
fn put_call(text: &mut String, name: &str) -> Result<(), OutOfMemory> {
    writeln!(text, "CALL {name}")?;
    Ok(())
}
