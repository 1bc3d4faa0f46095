//! The second pass: numbers for names.
ghost use Rattle.std.specs.Prelude.{◌≡◌, ◌+◌, ◌*◌, ◌<◌, ◌≤◌, ◌^◌, length, map, vec_len};
ghost use Rattle.dim_text.specs.Reading.{Gives};
ghost use Rattle.dim_asm.specs.Faults.{fault_of};
ghost use Rattle.dim_asm.specs.Source.{draft_count};
ghost use Rattle.dim_asm.specs.Code.{place_of};
ghost use Rattle.dim_asm.specs.Linking.{leaves, looks_in, referring, link_draft, link_start, each_line, link_function, link_functions, link};
ghost use Rattle.dim_asm.specs.Seen.{seen_draft};
ghost use Rattle.dim_asm.specs.Reader.{read, IsCounted};
ghost use Rattle.dim_asm.specs.Grammar.{IsSource};

use crate::draft::{Draft, DraftFunction, DraftStart};
use crate::fault::in_line;
use crate::mnemonic::Naming;
use crate::program::{Function, Program};
use crate::reader::Reader;
use crate::symbols::Symbols;
use crate::{AsmError, AsmKind, Op, Start};
use dim_base::{Lid, Word};
use dim_text::unless;
use std::alloc::Global;

/// The names of the locks and of the functions.
#[derive(Clone, Copy)]
pub struct Tables<'t> {
    pub locks: &'t Symbols,
    pub names: &'t Symbols,
}

impl<'t> Tables<'t> {
    ghost use Rattle.dim_asm.specs.Tables.{seen};

    // Where a name that is used in this way is declared.
    fn find(&self, naming: Naming, name: &str) -> Option<u32>
        ensures { result ≡ place_of (looks_in (seen self.now) naming) name.now }
    {
        match naming {
            Naming::Call => self.names.find(name),
            Naming::Lock | Naming::Unlock | Naming::TryLock => self.locks.find(name),
        }
    }

    // The instruction of a draft, in a function of this size.
    #[tactic(auto, unfolding(crate::specs::Linking::link_draft))]
    fn draft(&self, size: usize, draft: &Draft) -> Result<Op, AsmKind>
        ensures { result ≡ link_draft (seen self.now) size (seen_draft draft.now) }
    {
        match draft {
            Draft::Ready(op) => {
                unless(leaves(size, *op), AsmKind::Shape)?;
                Ok(*op)
            }
            Draft::Refers(naming, name) => {
                let n = self.find(*naming, name).ok_or(AsmKind::Unknown)?;
                Ok(referring(*naming, n))
            }
        }
    }

    // Where a thread starts.
    #[tactic(auto, unfolding(crate::specs::Linking::link_start))]
    fn start(&self, start: &DraftStart) -> Result<Start, AsmKind>
        ensures { result ≡ link_start (seen self.now) start.now }
    {
        let func = self.names.find(start.func).ok_or(AsmKind::Unknown)?;
        Ok(Start {
            func,
            argument: start.argument,
        })
    }

    // The instructions of a function, where the first stands in this line.
    fn drafts(&self, alloc: Global, drafts: &[Draft], first: u32) -> Result<Vec<Op>, AsmError>
        requires { first + length drafts.now < 2 ^ 32 }
        ensures { Gives fault_of (λ ops. ops.items) result
            (each_line (link_draft (seen self.now) (length drafts.now)) first
            (map seen_draft drafts.now)) }
    {
        let mut ops = Vec::new(alloc);
        let mut line = first;
        for draft in drafts {
            let op = in_line(line, self.draft(drafts.len(), draft))?;
            ops.push(op)?;
            line += 1;
        }
        Ok(ops)
    }

    // A function, which begins in this line. It's bound to no table yet.
    #[tactic(auto, unfolding(crate::specs::Linking::link_function))]
    fn function(
        &self,
        alloc: Global,
        func: &DraftFunction,
        first: u32,
    ) -> Result<Function, AsmError>
        requires { first + length func.now.drafts + 1 < 2 ^ 32 }
        ensures { Gives fault_of (λ f. f) result (link_function (seen self.now) first func.now) }
    {
        let ops = self.drafts(alloc, &func.drafts, first + 1)?;
        let name = Word::of(alloc, func.name)?;
        Ok(Function {
            name,
            locals: func.locals,
            number: 0,
            ops,
        })
    }

    // The functions, where the first begins in this line.
    fn functions(
        &self,
        alloc: Global,
        drafts: &[DraftFunction],
        first: u32,
    ) -> Result<Vec<Function>, AsmError>
        requires { first + draft_count drafts.now + 2 * length drafts.now < 2 ^ 32 }
        ensures { Gives fault_of (λ funcs. funcs.items) result
            (link_functions (seen self.now) first drafts.now) }
    {
        let mut funcs = Vec::new(alloc);
        let mut line = first;
        for draft in drafts {
            let func = self.function(alloc, draft, line)?;
            funcs.push(func)?;
            line += draft.len() + 2;
        }
        Ok(funcs)
    }

    // Where the threads start, where the first stands in this line.
    fn starts(
        &self,
        alloc: Global,
        drafts: &[DraftStart],
        first: u32,
    ) -> Result<Vec<Start>, AsmError>
        requires { first + length drafts.now < 2 ^ 32 }
        ensures { Gives fault_of (λ starts. starts.items) result
            (each_line (link_start (seen self.now)) first drafts.now) }
    {
        let mut starts = Vec::new(alloc);
        let mut line = first;
        for draft in drafts {
            let start = in_line(line, self.start(draft))?;
            starts.push(start)?;
            line += 1;
        }
        Ok(starts)
    }
}

/// The program that was read. It's bound to no table yet: each function has the number 0.
#[tactic(auto, unfolding(crate::specs::Linking::link))]
pub fn link(alloc: Global, reader: Reader) -> Result<Program, AsmError>
    requires counted { IsCounted reader }
    requires source { IsSource (read reader) }
    ensures { Gives fault_of (λ p. p) result (link (read reader.entry)) }
{
    let tables = Tables {
        locks: &reader.locks,
        names: &reader.names,
    };
    let first = 2 + reader.locks.len() as u32;
    let behind = first + reader.ops as u32 + 2 * reader.funcs.len() as u32;
    let funcs = tables.functions(alloc, &reader.funcs, first)?;
    let threads = tables.starts(alloc, &reader.threads, behind)?;
    Ok(Program {
        locks: reader.locks,
        funcs,
        threads,
    })
}

// Whether an instruction jumps past the end of a function of this size.
fn leaves(size: usize, op: Op) -> bool
    ensures { result ≡ leaves size op }
{
    match op {
        Op::Jmp { k } | Op::Jz { k } => size < k as usize,
        _ => false,
    }
}

// The instruction that uses a name in this way, with the name's number.
fn referring(naming: Naming, n: u32) -> Op
    ensures { result ≡ referring naming n }
{
    match naming {
        Naming::Call => Op::Call { f: n },
        Naming::Lock => Op::Lock { l: Lid(n) },
        Naming::Unlock => Op::Unlock { l: Lid(n) },
        Naming::TryLock => Op::TryLock { l: Lid(n) },
    }
}
