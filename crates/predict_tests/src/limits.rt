ghost use Rattle.std.specs.Prelude.{◌<◌, ◌≤◌};

use crate::candidates::{CROWD, CROWD_RUN, ONE_BY_ONE};
use crate::given::{Texts, predict, predicts, read_all};
use dim_history_file::write;
use dim_predict::Predict;
use samples::histories::EMPTY;
use samples::programs::CROSSED;
use std::alloc::{AllocError, Global};
use std::fmt::Write;
use std::process::Abort;

/// A program of one thread that takes 91 locks one in the other, and then two of them, one in the
/// other, so often.
fn tower(alloc: Global, more: u32) -> Result<String, AllocError> {
    let mut text = String::from_str(alloc, "dim program 1\n")?;
    for k in 0..91u32 {
        writeln!(text, "lock k{k}")?;
    }
    text.push_str("func main 0\n")?;
    for k in 0..91u32 {
        writeln!(text, "LOCK k{k}")?;
    }
    for k in 0..91u32 {
        let top = 90 - k;
        writeln!(text, "UNLOCK k{top}")?;
    }
    for _ in 0..more {
        text.push_str("LOCK k0\nLOCK k1\nUNLOCK k1\nUNLOCK k0\n")?;
    }
    text.push_str("RET\nend\nthread main 0\nend program\n")?;
    Ok(text)
}

/// The run of the tower.
fn tower_run(alloc: Global, more: u32) -> Result<String, AllocError>
    requires { more < 1000 }
{
    let mut text = String::from_str(alloc, "dim trace 1\nsettings 8192 4\n")?;
    for k in 0..91u32 {
        write!(text, "go 0 k{k} main:{k}\ngot 0 k{k}\n")?;
    }
    for k in 0..91u32 {
        let top = 90 - k;
        writeln!(text, "free 0 k{top}")?;
    }
    for k in 0..more {
        let first = 182 + 4 * k;
        let second = first + 1;
        write!(text, "go 0 k0 main:{first}\ngot 0 k0\n")?;
        write!(text, "go 0 k1 main:{second}\ngot 0 k1\n")?;
        text.push_str("free 0 k1\nfree 0 k0\n")?;
    }
    let entries = 274 + 6 * more;
    write!(text, "done 0\nend {entries}\n")?;
    Ok(text)
}

/// Whether the tower's run with so many further nestings says more than 4,096 different things.
fn is_too_high(rt: &impl Abort, alloc: Global, more: u32) -> bool
    requires { more < 1000 }
{
    let program = tower(alloc, more).expect(rt, "a program");
    let trace = tower_run(alloc, more).expect(rt, "a trace");
    let texts = (program.as_bytes(), EMPTY, trace.as_bytes());
    let given = read_all(rt, alloc, texts);
    match predict(rt, alloc, given, 4) {
        Ok(made) => {
            assert!(rt; made.candidates == 0 && made.added == 0);
            false
        }
        Err(Predict::TooMany) => true,
        Err(Predict::OutOfMemory) => panic!(rt; "memory"),
    }
}

#[test]
fn nestings_say_4096_different_things_at_most(rt: HostRuntime) {
    // 91 locks, one in the other: 90 * 91 / 2 nestings.
    assert!(rt; !is_too_high(&rt, rt.alloc(), 0));
    assert!(rt; !is_too_high(&rt, rt.alloc(), 1));
    assert!(rt; is_too_high(&rt, rt.alloc(), 2));
}

/// Appends so many signatures of two stacks.
fn put_signatures(text: &mut String, count: u32) -> Result<(), AllocError>
    requires { count < 10000 }
{
    for k in 0..count {
        let offset = 1000 + k;
        write!(text, "signature 4 2 on 0\nab:{offset}\nba:0\n")?;
    }
    Ok(())
}

/// A history with so many signatures, and the signatures of these lines.
fn many(alloc: Global, count: u32, more: u32, lines: &str) -> Result<String, AllocError>
    requires first { count < 10000 }
    requires second { more < 10000 }
{
    let mut text = String::from_str(alloc, "dim history 2\n")?;
    put_signatures(&mut text, count)?;
    text.push_str(lines)?;
    let all = count + more;
    writeln!(text, "end {all}")?;
    Ok(text)
}

const FIRST_TWO: &str = "signature 4 2 on 0\nab:0\nba:0\nsignature 4 2 on 0\nab:0\nba:4\n";

const FIRST: &str = "signature 4 2 on 0\nab:0\nba:0\n";

/// A history with so many signatures adopts these, of the crowd's four candidates.
fn adopts(rt: &impl Abort, alloc: Global, count: u32, added: u32, lines: &str)
    requires first { count < 10000 }
    requires second { added < 10000 }
{
    let history = many(alloc, count, 0, "").expect(rt, "a history");
    let expected = many(alloc, count, added, lines).expect(rt, "a history");
    let texts = (CROWD, history.as_bytes(), CROWD_RUN);
    predicts(rt, alloc, texts, 4, (4, added), expected.as_bytes());
}

#[test]
fn a_history_has_4080_signatures_at_most(rt: HostRuntime) {
    adopts(&rt, rt.alloc(), 4078, 2, FIRST_TWO);
    adopts(&rt, rt.alloc(), 4079, 1, FIRST);
    adopts(&rt, rt.alloc(), 4080, 0, "");
}

/// Appends a stack of so many frames, 8 bytes each.
fn put_stack(text: &mut String, offset: u32, frames: u32) -> Result<(), AllocError>
    requires { offset < 10000 }
{
    for k in 0..frames {
        let gap = if k == 0 { "" } else { " " };
        let at = 10000 + offset;
        write!(text, "{gap}f:{at}")?;
    }
    text.push('\n')
}

/// Appends a signature with so many equal stacks of 32 frames, 256 bytes each.
fn put_wide(text: &mut String, offset: u32, stacks: u32) -> Result<(), AllocError>
    requires { offset < 10000 }
{
    writeln!(text, "signature 4 {stacks} on 0")?;
    for _ in 0..stacks {
        put_stack(text, offset, 32)?;
    }
    Ok(())
}

/// A history whose text has 34 bytes less than 6,291,456: it is 14 of the head, 765 times 8,212,
/// then 7,956, 1,043 and 221, and 8 of the end.
fn long(alloc: Global) -> Result<String, AllocError> {
    let mut text = String::from_str(alloc, "dim history 2\n")?;
    for k in 0..765u32 {
        put_wide(&mut text, k, 32)?;
    }
    put_wide(&mut text, 765, 31)?;
    put_wide(&mut text, 766, 4)?;
    text.push_str("signature 4 2 on 0\n")?;
    put_stack(&mut text, 767, 23)?;
    text.push_str("ff:10000 ff:10000\nend 768\n")?;
    Ok(text)
}

/// How many bytes the text has of the long history that has met the candidate of CROSSED.
fn long_after(rt: &impl Abort, alloc: Global, depth: u8, added: u32) -> usize
    requires low { 1 ≤ depth }
    requires high { depth ≤ 32 }
{
    let history = long(alloc).expect(rt, "a history");
    let texts = (CROSSED, history.as_bytes(), ONE_BY_ONE);
    let given = read_all(rt, alloc, texts);
    let made = predict(rt, alloc, given, depth).expect(rt, "a prediction");
    assert!(rt; made.candidates == 1 && made.added == added);
    let text = write(alloc, &made.history).expect(rt, "a text");
    text.as_slice().len()
}

#[test]
fn a_history_has_6291456_bytes_at_most(rt: HostRuntime) {
    // The lines of the candidate take 34 bytes, with a depth of two digits 35.
    assert_eq!(rt; long_after(&rt, rt.alloc(), 4, 1), 6_291_456);
    assert_eq!(rt; long_after(&rt, rt.alloc(), 32, 0), 6_291_422);
}
