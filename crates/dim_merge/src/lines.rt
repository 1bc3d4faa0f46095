//! The lines that are put, and the statuses that go with them.
ghost use Rattle.std.specs.Prelude.{◌≡◌, ◌≢◌, IfOk};
ghost use Rattle.std.specs.String.{string_bytes};
ghost use Rattle.std.specs.Io.KnownBytes.{append_known};
ghost use Rattle.dim_merge.specs.Ending.{Says, Stopped, sink_at};
ghost use Rattle.dim_merge.specs.Lines.{stop_status, bad_line, file_line, place_word, refusal_line, refusal_status, fault_line};

use crate::stop::{Place, Refusal, Stop};
use dim_base::{Put, Sink};
use std::alloc::{AllocError, Global};

fn word_of(place: Place) -> &'static str
    ensures { result.now ≡ place_word place }
{
    match place {
        Place::First => "first",
        Place::Second => "second",
        Place::NewHistory => "newhistory",
    }
}

fn file_text(alloc: Global, what: &str, place: Place) -> Result<String, AllocError>
    ensures { IfOk result (λ text. string_bytes text ≡ file_line what.now place) }
{
    let word = word_of(place);
    format!(in alloc; "file {what} {word}\n")
}

fn bad_text(alloc: Global, place: Place, line: u32, kind: u32) -> Result<String, AllocError>
    ensures { IfOk result (λ text. string_bytes text ≡ bad_line place line kind) }
{
    let word = word_of(place);
    format!(in alloc; "{word} line {line} kind {kind}\n")
}

fn refusal_text(alloc: Global, refusal: Refusal) -> Result<String, AllocError>
    ensures { IfOk result (λ text. string_bytes text ≡ refusal_line refusal) }
{
    match refusal {
        Refusal::Words => String::from_str(alloc, "words\n"),
        Refusal::Absent(place) => file_text(alloc, "absent", place),
        Refusal::Long(place) => file_text(alloc, "long", place),
        Refusal::Bad(place, fault) => bad_text(alloc, place, fault.line, fault.kind.number()),
        Refusal::Full { signatures, bytes } => {
            format!(in alloc; "merged full {signatures} {bytes}\n")
        }
    }
}

fn refusal_status(refusal: Refusal) -> u8
    ensures status { result ≡ refusal_status refusal }
    ensures other { result ≢ 9 }
{
    match refusal {
        Refusal::Words => 2,
        Refusal::Bad(..) => 6,
        Refusal::Full { .. } => 10,
        Refusal::Long(_) => 12,
        Refusal::Absent(_) => 16,
    }
}

// The line after a failed call. It takes no memory.
fn fault_text(place: Place) -> &'static [u8]
    ensures { result.now ≡ fault_line place }
{
    match place {
        Place::First => b"file fault first\n",
        Place::Second => b"file fault second\n",
        Place::NewHistory => b"file fault newhistory\n",
    }
}

// Says that memory ran out, as far as the sink takes it.
fn put_memory<S: Sink>(alloc: Global, out: &mut S) -> u8
    ensures { result ≡ 9 }
{
    let _ = out.put(alloc, b"memory\n");
    9
}

// Puts a line, and answers the status that goes with it, or 9 where memory ran out.
fn answer<S: Sink>(alloc: Global, out: &mut S, line: &[u8], status: u8) -> u8
    requires { status ≢ 9 }
    ensures { Says line.now status result (sink_at S.Sink out.old) (sink_at S.Sink out.new) }
{
    match out.put(alloc, line) {
        Ok(()) | Err(Put::Failed) => status,
        Err(Put::OutOfMemory) => put_memory(alloc, out),
    }
}

// Puts the line of a refusal, and answers its status, or 9 where memory ran out.
fn refuse<S: Sink>(alloc: Global, out: &mut S, refusal: Refusal) -> u8
    ensures { Says (refusal_line refusal) (refusal_status refusal) result
        (sink_at S.Sink out.old) (sink_at S.Sink out.new) }
{
    match refusal_text(alloc, refusal) {
        Ok(text) => answer(alloc, out, text.as_bytes(), refusal_status(refusal)),
        Err(_) => put_memory(alloc, out),
    }
}

// Puts the line of a failed call, as far as the sink takes it.
fn put_fault<S: Sink>(alloc: Global, out: &mut S, place: Place) -> u8
    ensures { result ≡ 7 }
{
    let _ = out.put(alloc, fault_text(place));
    7
}

/// Puts the line of what stopped the program, and answers its status, or 9 where memory ran out.
pub fn put_stop<S: Sink>(alloc: Global, out: &mut S, stop: Stop) -> u8
    ensures stopped { Stopped stop result (sink_at S.Sink out.old) (sink_at S.Sink out.new) }
    ensures status { result ≢ 9 → result ≡ stop_status stop }
{
    match stop {
        Stop::Refused(refusal) => refuse(alloc, out, refusal),
        Stop::Fault(place) => put_fault(alloc, out, place),
        Stop::OutOfMemory => put_memory(alloc, out),
    }
}

/// Puts the report, and answers 0, or 8 where it was not put whole.
pub fn put_report<S: Sink>(alloc: Global, out: &mut S, report: &[u8]) -> u8
    ensures done { result ≡ 0 → S.taken out.new ≡ append_known (S.taken out.old) report.now }
    ensures known { result ≢ 0 → result ≡ 8 }
{
    match out.put(alloc, report) {
        Ok(()) => 0,
        Err(_) => 8,
    }
}
