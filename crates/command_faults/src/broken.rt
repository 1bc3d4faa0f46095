//! Texts that are cut off at each byte, and a history of which each byte is altered.
use crate::calls::{call, done, lacks};
use command_calls::Around;
use samples::histories::{LEARNT, LEARNT_BEFORE};
use samples::programs::SMALLEST;
use samples::traces;
use std::alloc::Global;
use std::process::Abort;
use std::sync::Wait;
use std::thread::Threads;

// What is put of the first n bytes of a text stands in the first row whose number is above n.
const HISTORY_CUTS: [(usize, &str); 5] = [
    (14, "history line 1 kind 1\n"),
    (33, "history line 2 kind 2\n"),
    (40, "history line 3 kind 2\n"),
    (48, "history line 4 kind 2\n"),
    (54, "history line 5 kind 2\n"),
];

const OLD_HISTORY_CUTS: [(usize, &str); 5] = [
    (14, "history line 1 kind 1\n"),
    (28, "history line 2 kind 2\n"),
    (35, "history line 3 kind 2\n"),
    (43, "history line 4 kind 2\n"),
    (49, "history line 5 kind 2\n"),
];

const TRACE_CUTS: [(usize, &str); 4] = [
    (12, "trace line 1 kind 1\n"),
    (28, "trace line 2 kind 1\n"),
    (35, "trace line 3 kind 2\n"),
    (41, "trace line 4 kind 2\n"),
];

const PROGRAM_CUTS: [(usize, &str); 6] = [
    (14, "program line 1 kind 1\n"),
    (26, "program line 2 kind 1\n"),
    (30, "program line 3 kind 1\n"),
    (34, "program line 4 kind 1\n"),
    (48, "program line 5 kind 1\n"),
    (60, "program line 6 kind 1\n"),
];

fn line_at(cuts: &[(usize, &'static str)], n: usize) -> &'static str {
    for (past, line) in cuts {
        if n < *past {
            return line;
        }
    }
    ""
}

// What these words leave over good files p, g and t, of which one has these bytes in place of its
// own.
fn broken<R: Abort + Threads + Wait + Sync>(
    rt: &R,
    alloc: Global,
    words: &str,
    file: (&str, &[u8]),
) -> Around {
    let given = [
        ("p", SMALLEST),
        ("g", LEARNT),
        ("t", traces::SMALLEST),
        file,
    ];
    call(rt, alloc, words, &given)
}

// With these bytes in a file these words end with this status, put this, and store no new history.
fn is_told<R: Abort + Threads + Wait + Sync>(
    rt: &R,
    alloc: Global,
    words: &str,
    file: (&str, &[u8]),
    status: u8,
    put: &str,
) {
    let after = broken(rt, alloc, words, file);
    let n = file.1.len();
    assert!(rt; after.says(status, put.as_bytes()), "{words}: {n} bytes");
    lacks(rt, alloc, &after, "h");
    done(after);
}

// Cuts the text of a file off at each of its bytes.
fn cut_off<R: Abort + Threads + Wait + Sync>(
    rt: &R,
    alloc: Global,
    words: &str,
    file: (&str, &[u8]),
    status: u8,
    cuts: &[(usize, &'static str)],
) {
    let (name, text) = file;
    for n in 0..text.len() {
        let cut = (name, &text[..n]);
        is_told(rt, alloc, words, cut, status, line_at(cuts, n));
    }
}

#[test]
fn a_text_may_be_cut_off_anywhere(rt: HostRuntime) {
    let alloc = rt.alloc();
    let history = ("g", LEARNT);
    cut_off(&rt, alloc, "show g", history, 6, &HISTORY_CUTS);
    let old = ("g", LEARNT_BEFORE);
    cut_off(&rt, alloc, "switch g 0 off h", old, 6, &OLD_HISTORY_CUTS);
    cut_off(&rt, alloc, "run p g h s", history, 6, &HISTORY_CUTS);
    let trace = ("t", traces::SMALLEST);
    cut_off(&rt, alloc, "check p - t", trace, 13, &TRACE_CUTS);
    let program = ("p", SMALLEST);
    cut_off(&rt, alloc, "run p - h s", program, 5, &PROGRAM_CUTS);
}

// A text with a 0 in place of the byte at n.
fn altered(rt: &impl Abort, alloc: Global, text: &[u8], n: usize) -> Vec<u8> {
    let mut bytes = Vec::from_slice(alloc, text).expect(rt, "bytes");
    assert!(rt; n < bytes.len());
    bytes[n] = 0;
    bytes
}

fn is_refused<R: Abort + Threads + Wait + Sync>(rt: &R, alloc: Global, text: &[u8], n: usize) {
    let bytes = altered(rt, alloc, text, n);
    let after = broken(rt, alloc, "show g", ("g", bytes.as_slice()));
    assert_eq!(rt; after.status, 6, "byte {n}");
    done(after);
}

#[test]
fn no_byte_of_a_history_may_be_altered(rt: HostRuntime) {
    for text in [LEARNT, LEARNT_BEFORE] {
        for n in 0..text.len() {
            is_refused(&rt, rt.alloc(), text, n);
        }
    }
}
