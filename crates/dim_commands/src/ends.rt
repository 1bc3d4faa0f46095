//! How the threads of a run finished, line by line.
ghost use Rattle.std.specs.Prelude.{◌≡◌, ◌++◌, OnOk};
ghost use Rattle.std.specs.String.{string_bytes};
ghost use Rattle.dim_commands.specs.Report.{finish_words, thread_line, thread_lines};

use dim_asm::Program;
use dim_run::{Finish, Last};
use dim_trace::lock_of;
use std::alloc::AllocError;
use std::fmt::Write;

fn put_finish(text: &mut String, program: &Program, finish: Finish) -> Result<(), AllocError>
    ensures { OnOk result
        (string_bytes text.new ≡ string_bytes text.old ++ finish_words program.now finish) }
{
    match finish {
        Finish::Done => text.push_str("done"),
        Finish::Trapped { trap } => write!(text, "trap {trap}"),
        Finish::Spent => text.push_str("spent"),
        Finish::Waits { l } => {
            let lock = lock_of(program, l);
            write!(text, "waits {lock}")
        }
    }
}

fn put_thread(text: &mut String, program: &Program, t: usize, end: Last) -> Result<(), AllocError>
    ensures { OnOk result
        (string_bytes text.new ≡ string_bytes text.old ++ thread_line program.now t end) }
{
    write!(text, "thread {t} ")?;
    put_finish(text, program, end.finish)?;
    let said = end.said;
    let last = end.last;
    writeln!(text, " said {said} last {last}")
}

/// Appends a line for each thread: how it finished, how often it said something, and what it said
/// last.
pub fn put_threads(text: &mut String, program: &Program, ends: &[Last]) -> Result<(), AllocError>
    ensures { OnOk result
        (string_bytes text.new ≡ string_bytes text.old ++ thread_lines program.now ends.now) }
{
    for t in 0..ends.len() {
        put_thread(text, program, t, ends[t])?;
    }
    Ok(())
}
