//! Programs of the machine, and their text.
#![tactic(auto)]

mod assembler;
mod binding;
mod draft;
mod fault;
mod judging;
mod laws;
mod linker;
mod mnemonic;
mod op;
mod printing;
mod program;
mod reader;
mod spelling;
mod start;
mod statement;
mod symbols;

pub use assembler::assemble;
pub use binding::bind_law;
pub use fault::{AsmError, AsmFault, AsmKind};
pub use laws::{first_fault_law, text_law};
pub use op::Op;
pub use printing::print;
pub use program::Program;
pub use start::Start;
