//! The program: draws a trace that executes a program on a history, as SVG.
#![tactic(auto)]

mod draw;
mod stop;
mod words;

use dim_base::{DirFiles, Put, Sink, StdSink, words_after_name};
use dim_cli::conclude;
use draw::draw;
use std::alloc::{AllocError, Global};
use std::process::ExitCode;
use stop::Stop;
use words::command_of;

const WORDS: u8 = 2;

const FILE_FAULT: u8 = 7;

const PUT_FAULT: u8 = 8;

const MEMORY: u8 = 9;

const LONG_TRACE: u8 = 17;

const NO_RANGE: u8 = 18;

/// Puts a line, and answers the status that goes with it, or 9. Where the put of a report fails it
/// answers 8, and else the status is as it was.
fn put<S: Sink>(alloc: Global, out: &mut S, line: &[u8], status: u8) -> u8 {
    match out.put(alloc, line) {
        Ok(()) => status,
        Err(Put::Failed) if status == 0 => PUT_FAULT,
        Err(Put::Failed) => status,
        Err(Put::OutOfMemory) => put_memory(alloc, out),
    }
}

/// Puts a line that may have wanted memory.
fn put_line<S: Sink>(
    alloc: Global,
    out: &mut S,
    line: Result<String, AllocError>,
    status: u8,
) -> u8 {
    match line {
        Ok(line) => put(alloc, out, line.as_bytes(), status),
        Err(_) => put_memory(alloc, out),
    }
}

/// Says that memory ran out, as far as the sink takes it.
fn put_memory<S: Sink>(alloc: Global, out: &mut S) -> u8 {
    let _ = out.put(alloc, b"memory\n");
    MEMORY
}

/// Puts why there is no picture, and answers its status.
fn refuse<S: Sink>(alloc: Global, out: &mut S, stop: Stop) -> u8 {
    match stop {
        Stop::Judging(stop) => conclude(alloc, out, Err(stop)),
        Stop::Store => put(alloc, out, b"file fault picture\n", FILE_FAULT),
        Stop::LongTrace(count) => {
            let line = format!(in alloc; "trace long {count}\n");
            put_line(alloc, out, line, LONG_TRACE)
        }
        Stop::NoRange(count) => {
            let line = format!(in alloc; "no range {count}\n");
            put_line(alloc, out, line, NO_RANGE)
        }
    }
}

fn main(rt: HostRuntime) -> ExitCode {
    let alloc = rt.alloc();
    let mut files = DirFiles::new(&rt);
    let mut out = StdSink::new(&rt);
    let Ok(words) = words_after_name(&rt) else {
        return ExitCode::from(put_memory(alloc, &mut out));
    };
    let Some(command) = command_of(&words) else {
        return ExitCode::from(put(alloc, &mut out, b"words\n", WORDS));
    };
    ExitCode::from(match draw(alloc, &command, &mut files) {
        Ok(count) => put_line(alloc, &mut out, format!(in alloc; "yes {count}\n"), 0),
        Err(stop) => refuse(alloc, &mut out, stop),
    })
}
