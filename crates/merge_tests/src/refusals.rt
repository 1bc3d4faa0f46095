use crate::calls::{After, EMPTY, LEARNT, call, failing, keeps, lacks, says};
use std::alloc::Global;
use std::fmt::Write;
use std::process::Abort;

/// A history of so many signatures, whose offsets begin at a number from 1000 on.
fn numbered(rt: &impl Abort, alloc: Global, from: u32, count: u32) -> String {
    let mut text = String::from_str(alloc, "dim history 2\n").expect(rt, "a text");
    for i in 0..count {
        let at = from.saturating_add(i);
        writeln!(text, "signature 4 2 on 0\nf:{at}\ng:{at}").expect(rt, "a signature");
    }
    writeln!(text, "end {count}").expect(rt, "an end");
    text
}

/// What these words leave over a good history and a bad one.
fn refused(rt: &impl Abort, alloc: Global, words: &str, status: u8, line: &str) {
    let bad: &[u8] = b"dim history 2\nsignature 33 2 on 0\nleft:0\nright:0\nend 1\n";
    let after = call(rt, alloc, words, &[("good", LEARNT), ("bad", bad)]);
    says(rt, &after, status, line);
    lacks(rt, alloc, &after, "new");
}

fn merge_numbered(rt: &impl Abort, alloc: Global, first: u32, second: u32) -> After {
    let first = numbered(rt, alloc, 1000, first);
    let second = numbered(rt, alloc, 5000, second);
    let given = [("a", first.as_bytes()), ("b", second.as_bytes())];
    call(rt, alloc, "a b new", &given)
}

#[test]
fn refusals_say_why(rt: HostRuntime) {
    let alloc = rt.alloc();
    for words in [
        "",
        "good",
        "good good",
        "good - good",
        "good - -",
        "good - -x",
        "- - new x",
    ] {
        refused(&rt, alloc, words, 2, "words\n");
    }
    refused(&rt, alloc, "none bad new", 16, "file absent first\n");
    refused(&rt, alloc, "bad none new", 16, "file absent second\n");
    refused(&rt, alloc, "bad bad new", 6, "first line 2 kind 4\n");
    refused(&rt, alloc, "good bad new", 6, "second line 2 kind 4\n");
}

#[test]
fn failed_calls_are_faults(rt: HostRuntime) {
    let alloc = rt.alloc();
    let given: [(&str, &[u8]); 2] = [("a", LEARNT), ("b", EMPTY)];
    let after = failing(&rt, alloc, "a b new", &given, &[1], &[]);
    says(&rt, &after, 7, "file fault first\n");
    let after = failing(&rt, alloc, "a b new", &given, &[2], &[]);
    says(&rt, &after, 7, "file fault second\n");
    let after = failing(&rt, alloc, "a b new", &given, &[3], &[]);
    says(&rt, &after, 7, "file fault newhistory\n");
    let after = failing(&rt, alloc, "a b new", &given, &[], &[1]);
    says(&rt, &after, 8, "signatures 1 a");
    keeps(&rt, alloc, &after, "new", LEARNT);
}

#[test]
fn too_many_signatures_are_told(rt: HostRuntime) {
    let alloc = rt.alloc();
    let after = merge_numbered(&rt, alloc, 4000, 96);
    says(&rt, &after, 0, "signatures 4096 added 96 both 0\n");
    let after = merge_numbered(&rt, alloc, 4000, 97);
    says(&rt, &after, 10, "merged full 4097 135224\n");
    lacks(&rt, alloc, &after, "new");
}

#[test]
fn a_text_that_is_too_long_is_no_history(rt: HostRuntime) {
    let alloc = rt.alloc();
    let long = vec![in alloc; 0u8; 8388609].expect(&rt, "bytes");
    let given: [(&str, &[u8]); 2] = [("a", LEARNT), ("long", long.as_slice())];
    let after = call(&rt, alloc, "long a new", &given);
    says(&rt, &after, 12, "file long first\n");
    let after = call(&rt, alloc, "a long new", &given);
    says(&rt, &after, 12, "file long second\n");
}
