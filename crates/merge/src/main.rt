//! The program: the words of the command line, the files of the current folder and standard output.
#![tactic(auto)]

use dim_base::{DirFiles, StdSink, words_after_name};
use dim_merge::merge_files;
use std::process::ExitCode;

const MEMORY: u8 = 9;

fn main(rt: HostRuntime) -> ExitCode {
    let Ok(words) = words_after_name(&rt) else {
        return ExitCode::from(MEMORY);
    };
    let mut files = DirFiles::new(&rt);
    let mut out = StdSink::new(&rt);
    ExitCode::from(merge_files(rt.alloc(), &words, &mut files, &mut out))
}
