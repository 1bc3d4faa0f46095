//! What a run is to leave.
use command_calls::{Around, called, loaded};
use std::alloc::Global;
use std::process::Abort;
use std::sync::Wait;
use std::thread::Threads;

/// What is wanted of a text.
#[derive(Clone, Copy)]
pub enum Wanted<'a> {
    Anything,
    /// These bytes.
    Whole(&'a [u8]),
    /// Bytes that begin with these.
    Front(&'a [u8]),
}

impl Wanted<'_> {
    // Whether a text is what is wanted.
    fn fits(self, text: &[u8]) -> bool {
        match self {
            Wanted::Anything => true,
            Wanted::Whole(bytes) => text == bytes,
            Wanted::Front(bytes) => text.starts_with(bytes),
        }
    }

    // Whether the text under a name is what is wanted.
    fn stands(self, rt: &impl Abort, alloc: Global, after: &Around, name: &str) -> bool {
        match self {
            Wanted::Anything => true,
            Wanted::Whole(bytes) => after.keeps(alloc, name, bytes).expect(rt, "a name"),
            Wanted::Front(bytes) => after.begins(alloc, name, bytes).expect(rt, "a name"),
        }
    }
}

/// What a run is to leave: its status, its report, its new history and its trace.
#[derive(Clone, Copy)]
pub struct Left<'a> {
    pub status: u8,
    pub report: Wanted<'a>,
    pub history: Wanted<'a>,
    pub trace: Wanted<'a>,
}

/// Status 0, whatever the texts are.
pub const NOTHING_MORE: Left<'static> = Left {
    status: 0,
    report: Wanted::Anything,
    history: Wanted::Anything,
    trace: Wanted::Anything,
};

/// A call with these words has left this.
pub fn has_left(rt: &impl Abort, alloc: Global, words: &[&str], after: &Around, left: Left<'_>) {
    assert!(rt; after.status == left.status, "the status of {words:?}");
    assert!(rt;
        left.report.fits(after.out.taken()),
        "the report of {words:?}"
    );
    assert!(rt;
        left.history.stands(rt, alloc, after, "h"),
        "the history of {words:?}"
    );
    assert!(rt;
        left.trace.stands(rt, alloc, after, "t"),
        "the trace of {words:?}"
    );
}

/// A call with these words, with this program and this history, leaves this.
pub fn leaves<R: Abort + Threads + Wait + Sync>(
    rt: &R,
    alloc: Global,
    words: &[&str],
    program: &[u8],
    history: &[u8],
    left: Left<'_>,
) {
    let after = loaded(rt, alloc, words, program, history).expect(rt, "memory");
    has_left(rt, alloc, words, &after, left);
}

/// A call with these words, with this program and no history, leaves this.
pub fn leaves_alone<R: Abort + Threads + Wait + Sync>(
    rt: &R,
    alloc: Global,
    words: &[&str],
    program: &[u8],
    left: Left<'_>,
) {
    let after = called(rt, alloc, words, program, &[], &[]).expect(rt, "memory");
    has_left(rt, alloc, words, &after, left);
}

/// A run of this program with so much fuel, and with no history, leaves this trace.
pub fn spends<R: Abort + Threads + Wait + Sync>(
    rt: &R,
    alloc: Global,
    program: &[u8],
    fuel: &str,
    trace: &[u8],
) {
    let words = ["run", "p", "-", "h", "t", "--fuel", fuel];
    let left = Left {
        trace: Wanted::Whole(trace),
        ..NOTHING_MORE
    };
    leaves_alone(rt, alloc, &words, program, left);
}
