//! What is said where memory is wanting for files.
use crate::calls::{sink_of, split};
use crate::wanting::Wanting;
use command_calls::words_of;
use dim_base::{MemSink, Word};
use dim_cli::quiet;
use std::alloc::Global;
use std::process::Abort;

fn words_in(rt: &impl Abort, alloc: Global, text: &str) -> Vec<Word> {
    words_of(alloc, split(rt, alloc, text).as_slice()).expect(rt, "words")
}

// The words of this text end with status 9 over such files.
fn wants(rt: &impl Abort, alloc: Global, text: &str, out: &mut MemSink) {
    let words = words_in(rt, alloc, text);
    let status = quiet(alloc, words.as_slice(), &mut Wanting, out);
    assert_eq!(rt; status, 9, "{text}");
}

// The words of this text put that memory is wanting.
fn is_told(rt: &impl Abort, alloc: Global, text: &str) {
    let mut out = sink_of(rt, alloc, &[]);
    wants(rt, alloc, text, &mut out);
    assert!(rt; out.taken() == b"memory\n".as_slice(), "{text}");
}

// The words of this text have the status where their put fails, too.
fn is_not_told(rt: &impl Abort, alloc: Global, text: &str) {
    let mut out = sink_of(rt, alloc, &[1]);
    wants(rt, alloc, text, &mut out);
}

const TOLD: [&str; 3] = ["show g", "generate 7 p", "switch g 0 on h"];

#[test]
fn want_of_memory_has_a_line(rt: HostRuntime) {
    for &text in &TOLD {
        is_told(&rt, rt.alloc(), text);
    }
    is_not_told(&rt, rt.alloc(), "show g");
}
