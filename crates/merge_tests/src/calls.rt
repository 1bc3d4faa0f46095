//! Calls over files that are given by their names and bytes.
use dim_base::{MemFiles, MemSink, Word};
use dim_merge::merge_files;
use std::alloc::Global;
use std::process::Abort;

/// The history that knows no signature.
pub(crate) const EMPTY: &[u8] = b"dim history 2\nend 0\n";

/// A history of one signature.
pub(crate) const LEARNT: &[u8] = b"dim history 2\nsignature 4 2 on 0\nleft:0\nright:0\nend 1\n";

/// Names with what stands under them.
pub(crate) type Given<'a> = &'a [(&'a str, &'a [u8])];

/// What a call left.
#[derive(Drop)]
pub(crate) struct After {
    pub(crate) files: MemFiles,
    pub(crate) out: MemSink,
    pub(crate) status: u8,
}

fn word_of(rt: &impl Abort, alloc: Global, text: &str) -> Word {
    Word::of(alloc, text).expect(rt, "a word")
}

fn words_of(rt: &impl Abort, alloc: Global, text: &str) -> Vec<Word> {
    let mut words = Vec::new(alloc);
    for word in text.split_whitespace() {
        words.push(word_of(rt, alloc, word)).expect(rt, "words");
    }
    words
}

/// What these words leave over these files. The calls on files and on the sink with these numbers
/// fail.
pub(crate) fn failing(
    rt: &impl Abort,
    alloc: Global,
    words: &str,
    given: Given<'_>,
    file_fails: &[u32],
    sink_fails: &[u32],
) -> After {
    let mut files = MemFiles::new(alloc, file_fails).expect(rt, "files");
    for &(name, bytes) in given {
        let name = word_of(rt, alloc, name);
        files.give(&name, bytes).expect(rt, "a file");
    }
    let mut out = MemSink::new(alloc, sink_fails).expect(rt, "a sink");
    let words = words_of(rt, alloc, words);
    let status = merge_files(alloc, &words, &mut files, &mut out);
    After { files, out, status }
}

/// What these words leave over these files.
pub(crate) fn call(rt: &impl Abort, alloc: Global, words: &str, given: Given<'_>) -> After {
    failing(rt, alloc, words, given, &[], &[])
}

/// The call ended with this status and put this.
pub(crate) fn says(rt: &impl Abort, after: &After, status: u8, put: &str) {
    assert_eq!(rt; after.status, status, "{put}");
    assert!(rt; after.out.taken() == put.as_bytes(), "{put}");
}

/// These bytes stand under a name.
pub(crate) fn keeps(rt: &impl Abort, alloc: Global, after: &After, name: &str, bytes: &[u8]) {
    let name = word_of(rt, alloc, name);
    assert!(rt; after.files.held(&name) == Some(bytes));
}

/// Nothing stands under a name.
pub(crate) fn lacks(rt: &impl Abort, alloc: Global, after: &After, name: &str) {
    let name = word_of(rt, alloc, name);
    assert!(rt; after.files.held(&name).is_none());
}
