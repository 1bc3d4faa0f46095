//! The program: makes a program of `dim` of the lock operations that a log has.
#![tactic(auto)]

mod files;
mod making;
mod report;
mod stop;
mod words;
mod work;

use dim_base::{DirFiles, StdSink, words_after_name};
use report::{conclude, put_memory, put_words};
use std::process::ExitCode;
use words::command_of;
use work::work;

fn main(rt: HostRuntime) -> ExitCode {
    let alloc = rt.alloc();
    let mut files = DirFiles::new(&rt);
    let mut out = StdSink::new(&rt);
    let Ok(words) = words_after_name(&rt) else {
        return ExitCode::from(put_memory(alloc, &mut out));
    };
    let Some(command) = command_of(&words) else {
        return ExitCode::from(put_words(alloc, &mut out));
    };
    ExitCode::from(conclude(alloc, &mut out, work(alloc, &command, &mut files)))
}
