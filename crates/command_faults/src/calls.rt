//! Calls over files that are given by their names and bytes, and what they are to leave.
use command_calls::{Around, driven};
use dim_base::{MemFiles, MemSink, Word};
use samples::programs::SMALLEST;
use std::alloc::Global;
use std::process::Abort;
use std::sync::Wait;
use std::thread::Threads;

/// The words of a text.
pub fn split<'a>(rt: &impl Abort, alloc: Global, text: &'a str) -> Vec<&'a str> {
    let words = text.split_whitespace().collect::<Vec<&str>>(alloc);
    words.expect(rt, "words")
}

/// A sink. Its calls with these numbers fail.
pub fn sink_of(rt: &impl Abort, alloc: Global, fails: &[u32]) -> MemSink {
    MemSink::new(alloc, fails).expect(rt, "a sink")
}

fn word_of(rt: &impl Abort, alloc: Global, name: &str) -> Word {
    Word::of(alloc, name).expect(rt, "a name")
}

fn give(rt: &impl Abort, alloc: Global, files: &mut MemFiles, name: &str, bytes: &[u8]) {
    let name = word_of(rt, alloc, name);
    files.give(&name, bytes).expect(rt, "a file");
}

// These files. Their calls with these numbers fail.
fn files_of(rt: &impl Abort, alloc: Global, given: &[(&str, &[u8])], fails: &[u32]) -> MemFiles {
    let mut files = MemFiles::new(alloc, fails).expect(rt, "files");
    for &(name, bytes) in given {
        give(rt, alloc, &mut files, name, bytes);
    }
    files
}

// What these words leave over these files and this sink.
fn drive_over<R: Abort + Threads + Wait + Sync>(
    rt: &R,
    alloc: Global,
    words: &str,
    files: MemFiles,
    out: MemSink,
) -> Around {
    let words = split(rt, alloc, words);
    driven(rt, alloc, words.as_slice(), files, out).expect(rt, "an end")
}

/// What these words leave over these files. The calls on files and on the sink with these numbers
/// fail.
pub fn failing<R: Abort + Threads + Wait + Sync>(
    rt: &R,
    alloc: Global,
    words: &str,
    given: &[(&str, &[u8])],
    file_fails: &[u32],
    sink_fails: &[u32],
) -> Around {
    let files = files_of(rt, alloc, given, file_fails);
    drive_over(rt, alloc, words, files, sink_of(rt, alloc, sink_fails))
}

/// What these words leave over these files.
pub fn call<R: Abort + Threads + Wait + Sync>(
    rt: &R,
    alloc: Global,
    words: &str,
    given: &[(&str, &[u8])],
) -> Around {
    failing(rt, alloc, words, given, &[], &[])
}

/// What these words leave over the files that another call left.
pub fn call_after<R: Abort + Threads + Wait + Sync>(
    rt: &R,
    alloc: Global,
    words: &str,
    before: Around,
) -> Around {
    drive_over(rt, alloc, words, before.files, sink_of(rt, alloc, &[]))
}

/// The call of these words ended with this status and put this.
pub fn says(rt: &impl Abort, after: &Around, words: &str, status: u8, put: &str) {
    assert!(rt; after.says(status, put.as_bytes()), "{words}: {put}");
}

/// The call of these words ended with this status.
pub fn ended(rt: &impl Abort, after: &Around, words: &str, status: u8) {
    assert_eq!(rt; after.status, status, "{words}");
}

/// These bytes stand under a name.
pub fn keeps(rt: &impl Abort, alloc: Global, after: &Around, name: &str, bytes: &[u8]) {
    let kept = after.keeps(alloc, name, bytes).expect(rt, "a name");
    assert!(rt; kept, "{name}");
}

/// The first so many of these bytes stand under a name, or nothing does where that is none.
pub fn keeps_front(
    rt: &impl Abort,
    alloc: Global,
    after: &Around,
    name: &str,
    bytes: &[u8],
    count: usize,
) {
    let word = word_of(rt, alloc, name);
    let held = after.files.held(&word).unwrap_or(&[]);
    assert!(rt; held == bytes.get(..count).unwrap_or(bytes), "{name}");
}

/// Nothing stands under a name.
pub fn lacks(rt: &impl Abort, alloc: Global, after: &Around, name: &str) {
    let word = word_of(rt, alloc, name);
    assert!(rt; after.files.held(&word).is_none(), "{name}");
}

/// What a call left is done with.
pub fn done(_after: Around) {}

/// These words over these files end with this status and put this.
pub fn answers<R: Abort + Threads + Wait + Sync>(
    rt: &R,
    alloc: Global,
    words: &str,
    given: &[(&str, &[u8])],
    status: u8,
    put: &str,
) {
    let after = call(rt, alloc, words, given);
    says(rt, &after, words, status, put);
    done(after);
}

/// These words over these files end with this status, put this, and store no new history h.
pub fn refuses<R: Abort + Threads + Wait + Sync>(
    rt: &R,
    alloc: Global,
    words: &str,
    given: &[(&str, &[u8])],
    status: u8,
    put: &str,
) {
    let after = call(rt, alloc, words, given);
    says(rt, &after, words, status, put);
    lacks(rt, alloc, &after, "h");
    done(after);
}

/// A file of so many line ends is too long for these words, which put this.
pub fn is_too_long<R: Abort + Threads + Wait + Sync>(
    rt: &R,
    alloc: Global,
    words: &str,
    name: &str,
    count: usize,
    put: &str,
) {
    let bytes = Vec::from_elem(alloc, b'\n', count).expect(rt, "line ends");
    let given = [("p", SMALLEST), (name, bytes.as_slice())];
    refuses(rt, alloc, words, &given, 12, put);
}
