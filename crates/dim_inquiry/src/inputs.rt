//! What a run reads: a program and a history.
ghost use Rattle.std.specs.Prelude.{◌≡◌, ◌≤◌, length, Some, Ok, IfOk, OnOk};
ghost use Rattle.dim_base.specs.Files.{Named};
ghost use Rattle.dim_asm.specs.Assembling.{program_of};
ghost use Rattle.dim_history_file.specs.Judging.{history_of};
ghost use Rattle.dim_history_file.specs.Seen.{value_of};
ghost use Rattle.dim_inquiry.specs.Course.{WhereTold, StopCause, Runs, IsFaultless, HasWords};
ghost use Rattle.dim_inquiry.specs.Taking.{assembles, reads, loads, takes, fetches_history};
ghost use Rattle.dim_inquiry.specs.Inputs.{inputs_of, IsRead};

use crate::calls::fetch_at;
use crate::stop::{Place, Refusal, Stop};
use dim_asm::{AsmError, Program, assemble};
use dim_base::{Bytes, Files, Word};
use dim_history_file::{History, ReadFault, read};
use dim_words::is_dash;
use std::alloc::Global;

/// The most bytes of a program that are fetched.
pub const PROGRAM_LIMIT: u64 = 4_194_304;

const HISTORY_LIMIT: u64 = 8_388_608;

const MOST_SIGNATURES: u32 = 4080;

const MOST_BYTES: usize = 6_291_456;

/// The text of a history that knows no signature.
pub const EMPTY_HISTORY: &[u8] = b"dim history 2\nend 0\n";

/// A program, and the history that its run loads.
#[derive(Drop)]
pub struct Inputs {
    pub program: Program,
    pub history: History,
}

/// Fetches the history that a word names. For `-` it is the text of the one that knows no
/// signature.
pub fn fetch_history<F: Files>(alloc: Global, files: &mut F, name: &Word) -> Result<Bytes, Stop>
    ensures runs { WhereTold (F.told files.old) (λ before.
        Runs (λ bytes. bytes) (fetches_history before name.now) before result (F.told files.new)) }
    ensures kept { F.told files.new ≡ F.told files.old }
    ensures cause { StopCause (F.faults files.old) (F.faults files.new) result }
    ensures words { HasWords result }
{
    if is_dash(name) {
        return Ok(Bytes::of(alloc, EMPTY_HISTORY)?);
    }
    fetch_at(alloc, files, Place::History, name, HISTORY_LIMIT)
}

fn parse(alloc: Global, bytes: &Bytes) -> Result<Program, Stop>
    ensures assembled { IfOk result (λ p. program_of bytes.now ≡ Ok p) }
    ensures runs { (before : Named)
        → Runs (λ p. p) (assembles bytes.now) before result (Some before) }
    ensures faultless { IsFaultless result }
    ensures words { HasWords result }
{
    match assemble(alloc, bytes.as_slice()) {
        Ok(program) => Ok(program),
        Err(AsmError::OutOfMemory) => Err(Stop::OutOfMemory),
        Err(AsmError::Bad(fault)) => Err(Stop::Refused(Refusal::BadProgram(fault))),
    }
}

/// The history of a text.
pub fn read_history(alloc: Global, bytes: &Bytes) -> Result<History, Stop>
    ensures read { IfOk result (λ h. history_of bytes.now ≡ Ok (value_of h)) }
    ensures runs { (before : Named) → Runs value_of (reads bytes.now) before result (Some before) }
    ensures faultless { IsFaultless result }
    ensures words { HasWords result }
    ensures names { IfOk result IsRead }
{
    match read(alloc, bytes.as_slice()) {
        Ok(history) => Ok(history),
        Err(ReadFault::OutOfMemory) => Err(Stop::OutOfMemory),
        Err(ReadFault::Bad(fault)) => Err(Stop::Refused(Refusal::BadHistory(fault))),
    }
}

fn check_room(history: &History, bytes: &Bytes) -> Result<(), Stop>
    ensures runs { (before : Named)
        → Runs (λ u. u) (loads (value_of history.now) bytes.now) before result (Some before) }
    ensures faultless { IsFaultless result }
    ensures words { HasWords result }
    ensures few { OnOk result (length history.now.catalogue.sigs ≤ 4080) }
{
    let signatures = history.catalogue.len();
    let bytes = bytes.as_slice().len();
    if signatures > MOST_SIGNATURES || bytes > MOST_BYTES {
        return Err(Stop::Refused(Refusal::Full {
            signatures,
            bytes: bytes as u64,
        }));
    }
    Ok(())
}

/// Reads the texts of a program and of a history that its run loads.
pub fn take_inputs(alloc: Global, program: &Bytes, history: &Bytes) -> Result<Inputs, Stop>
    ensures runs { (before : Named)
        → Runs inputs_of (takes program.now history.now) before result (Some before) }
    ensures faultless { IsFaultless result }
    ensures words { HasWords result }
    ensures few { IfOk result (λ x. length x.history.catalogue.sigs ≤ 4080) }
    ensures assembled { IfOk result (λ x. program_of program.now ≡ Ok x.program) }
    ensures read { IfOk result (λ x. history_of history.now ≡ Ok (value_of x.history)) }
    ensures names { IfOk result (λ x. IsRead x.history) }
{
    let program = parse(alloc, program)?;
    let loaded = read_history(alloc, history)?;
    check_room(&loaded, history)?;
    Ok(Inputs {
        program,
        history: loaded,
    })
}
