//! What is put at the end.
use crate::making::Summary;
use crate::stop::{Place, Stop};
use dim_base::{Put, Sink};
use dim_transcribe::Limit;
use std::alloc::{AllocError, Global};
use std::fmt::Write;

const WORDS: u8 = 2;

const BAD_LOG: u8 = 6;

const FILE_FAULT: u8 = 7;

const PUT_FAULT: u8 = 8;

const MEMORY: u8 = 9;

const LOG_FULL: u8 = 10;

const UNFAITHFUL: u8 = 11;

const LOG_LONG: u8 = 12;

const LOG_ABSENT: u8 = 16;

/// Says that memory ran out, as far as the sink takes it.
pub fn put_memory<S: Sink>(alloc: Global, out: &mut S) -> u8 {
    let _ = out.put(alloc, b"memory\n");
    MEMORY
}

/// Says that the words are no command.
pub fn put_words<S: Sink>(alloc: Global, out: &mut S) -> u8 {
    put(alloc, out, b"words\n", WORDS)
}

/// Puts lines, and answers the status that goes with them, or 9. Where the put of a report fails it
/// answers 8, and else the status is as it was.
fn put<S: Sink>(alloc: Global, out: &mut S, lines: &[u8], status: u8) -> u8 {
    match out.put(alloc, lines) {
        Ok(()) => status,
        Err(Put::Failed) if status == 0 => PUT_FAULT,
        Err(Put::Failed) => status,
        Err(Put::OutOfMemory) => put_memory(alloc, out),
    }
}

fn first_line(alloc: Global, summary: &Summary) -> Result<String, AllocError> {
    let Summary {
        threads,
        operations,
        ..
    } = *summary;
    if threads == 0 {
        return String::from_str(alloc, "nothing crosses\n");
    }
    format!(in alloc; "threads {threads} operations {operations}\n")
}

/// What is told of a log.
fn report(alloc: Global, summary: &Summary) -> Result<String, AllocError> {
    let mut text = first_line(alloc, summary)?;
    let counts = summary.counts;
    let (nested, orders, crossing) = (counts.nested, counts.orders, counts.crossing);
    writeln!(text, "locks {nested} orders {orders} crossing {crossing}")?;
    let (unheld, open) = (counts.unheld, counts.open);
    let (cut, frames) = (u8::from(summary.cut), summary.frames);
    writeln!(
        text,
        "unheld {unheld} open {open} cut {cut} frames {frames}"
    )?;
    Ok(text)
}

fn fault_line(place: Place) -> &'static str {
    match place {
        Place::Log => "file fault log\n",
        Place::Program => "file fault program\n",
        Place::Places => "file fault places\n",
    }
}

/// What there is too much of, and how much of it a program has at most.
fn limit_of(limit: Limit) -> (&'static str, u32) {
    match limit {
        Limit::Threads => ("threads", 32),
        Limit::Locks => ("locks", 256),
        Limit::Functions => ("functions", 256),
        Limit::Instructions => ("instructions", 65536),
        Limit::Units => ("units", 8192),
    }
}

fn full_line(alloc: Global, limit: Limit, count: u64) -> Result<String, AllocError> {
    let (word, most) = limit_of(limit);
    format!(in alloc; "log full {word} {count} {most}\n")
}

/// The status of what stopped the program, and its line.
fn refusal(alloc: Global, stop: Stop) -> (u8, Result<String, AllocError>) {
    match stop {
        Stop::Absent => (LOG_ABSENT, String::from_str(alloc, "file absent log\n")),
        Stop::Long => (LOG_LONG, String::from_str(alloc, "file long log\n")),
        Stop::Fault(place) => (FILE_FAULT, String::from_str(alloc, fault_line(place))),
        Stop::Bad(fault) => {
            let (line, kind) = (fault.line, fault.kind.number());
            (BAD_LOG, format!(in alloc; "log line {line} kind {kind}\n"))
        }
        Stop::Over(limit, count) => (LOG_FULL, full_line(alloc, limit, count)),
        Stop::Unfaithful => (UNFAITHFUL, String::from_str(alloc, "unfaithful\n")),
        Stop::OutOfMemory => (MEMORY, String::from_str(alloc, "memory\n")),
    }
}

/// Puts the report, or why there is none, and answers the status.
pub fn conclude<S: Sink>(alloc: Global, out: &mut S, ended: Result<Summary, Stop>) -> u8 {
    let (status, lines) = match ended {
        Ok(summary) => (0, report(alloc, &summary)),
        Err(stop) => refusal(alloc, stop),
    };
    match lines {
        Ok(lines) => put(alloc, out, lines.as_bytes(), status),
        Err(_) => put_memory(alloc, out),
    }
}
