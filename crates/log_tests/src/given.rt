//! What texts say.
ghost use Rattle.std.specs.Prelude.{◌≤◌, ◌^◌, length};

use dim_log::{Log, LogError, read_log};
use std::alloc::Global;
use std::process::Abort;

/// The log that a text spells.
pub(crate) fn log(rt: &impl Abort, alloc: Global, text: &[u8]) -> Log
    requires { length text.now ≤ 2 ^ 29 }
{
    read_log(alloc, text).expect(rt, "a log")
}

/// The line and the number of the kind of the fault of a text.
pub(crate) fn fault(alloc: Global, text: &[u8]) -> Option<(u32, u32)>
    requires { length text.now ≤ 2 ^ 29 }
{
    match read_log(alloc, text) {
        Err(LogError::Bad(fault)) => Some((fault.line, fault.kind.number())),
        _ => None,
    }
}
