//! From a text to a log.
ghost use Rattle.std.specs.Prelude.{◌≡◌, ◌≤◌, ◌^◌, IfOk, length};
ghost use Rattle.dim_text.specs.Reading.{Gives};
ghost use Rattle.dim_log.specs.Faults.{fault_of};
ghost use Rattle.dim_log.specs.Reader.{read_value, IsReading};
ghost use Rattle.dim_log.specs.Saying.{log_of};
ghost use Rattle.dim_log.specs.Seen.{log_value, AreWithin, Holds, tables_of};

use crate::reader::Reader;
use crate::{Log, LogError};
use dim_text::Parts;
use std::alloc::Global;

// What a text says, and whether it was cut off.
fn read_lines(alloc: Global, bytes: &[u8]) -> Result<(Reader<'_>, bool), LogError>
    requires { length bytes.now ≤ 2 ^ 29 }
    ensures value { Gives fault_of (λ r. read_value r.0 r.1) result (log_of bytes.now) }
    ensures reading { IfOk result (λ r. IsReading r.0) }
{
    let mut reader = Reader::new(alloc);
    let mut lines = Parts::lines(bytes);
    let mut number = 1;
    while let Some(line) = lines.next_ended() {
        reader.step(alloc, number, line)?;
        number += 1;
    }
    let last = lines.next_part().unwrap_or(b"");
    Ok((reader, !last.is_empty()))
}

/// The log that a text spells, or the first fault of the text. The text has at most 2^29 bytes.
///
/// A line is one of these, of words parted by single spaces:
///
/// - `THREAD lock LOCK FRAME ..` and `THREAD unlock LOCK FRAME ..`
/// - `THREAD trylock LOCK 0 FRAME ..`, or `1` where it took the lock
/// - `THREAD start THREAD` and `THREAD join THREAD`
///
/// A stack has one frame or more, the innermost first. A frame is FUNCTION:LINE, parted at its last
/// colon, where FUNCTION isn't empty and LINE is at most 4,294,967,295. The words of a line are
/// taken from the left, and the first that is missing or wrong is its fault: it is `Short` where
/// the word is missing or empty, `Operation`, `Took` or `Frame` where it is no such thing, and
/// `Long` where a word stands behind the last one of a start or join.
///
/// What stands behind the last line feed is no line: where it isn't empty, the log was cut off.
pub fn read_log(alloc: Global, bytes: &[u8]) -> Result<Log, LogError>
    requires { length bytes.now ≤ 2 ^ 29 }
    ensures value { Gives fault_of log_value result (log_of bytes.now) }
    ensures within { IfOk result AreWithin }
    ensures tables { IfOk result (λ log. Holds (tables_of log) (log_value log).events) }
{
    let (reader, cut) = read_lines(alloc, bytes)?;
    let log = reader.finish(alloc, cut)?;
    Ok(log)
}
