//! Calls for which memory suffices.
use command_calls::{Around, called, over};
use dim_base::{MemFiles, Word};
use std::alloc::Global;
use std::process::Abort;
use std::sync::Wait;
use std::thread::Threads;

/// A file p with this program.
pub fn files_of(rt: &impl Abort, alloc: Global, program: &[u8]) -> MemFiles {
    let mut files = MemFiles::new(alloc, &[]).expect(rt, "files");
    let name = Word::of(alloc, "p").expect(rt, "a name");
    files.give(&name, program).expect(rt, "a file");
    files
}

/// What a call leaves whose words are these, with this program in a file p.
pub fn call<R: Abort + Threads + Wait + Sync>(
    rt: &R,
    alloc: Global,
    words: &[&str],
    program: &[u8],
) -> Around {
    called(rt, alloc, words, program, &[], &[]).expect(rt, "memory")
}

/// What a call leaves whose words are these, with this program in a file p. The calls on files and
/// on the sink with these numbers fail.
pub fn call_failing<R: Abort + Threads + Wait + Sync>(
    rt: &R,
    alloc: Global,
    words: &[&str],
    program: &[u8],
    file_fails: &[u32],
    sink_fails: &[u32],
) -> Around {
    called(rt, alloc, words, program, file_fails, sink_fails).expect(rt, "memory")
}

/// What a call leaves whose words are these, over the files that another has left.
pub fn call_after<R: Abort + Threads + Wait + Sync>(
    rt: &R,
    alloc: Global,
    words: &[&str],
    before: Around,
) -> Around {
    over(rt, alloc, words, before.files).expect(rt, "memory")
}

/// A call with these words, over the files that another has left, ends with status 0.
pub fn succeeds_after<R: Abort + Threads + Wait + Sync>(
    rt: &R,
    alloc: Global,
    words: &[&str],
    before: Around,
) {
    let after = call_after(rt, alloc, words, before);
    assert!(rt; after.status == 0, "{words:?}");
}

/// What stands under a name after a call, and no bytes where nothing does.
pub fn held<'a>(rt: &impl Abort, alloc: Global, after: &'a Around, name: &str) -> &'a [u8] {
    after.held(alloc, name).expect(rt, "a name").unwrap_or(&[])
}

/// These bytes stand under a name after a call.
pub fn keeps(rt: &impl Abort, alloc: Global, after: &Around, name: &str, bytes: &[u8]) {
    assert!(rt;
        after.keeps(alloc, name, bytes).expect(rt, "a name"),
        "{name}"
    );
}

/// What a call has left is done with.
pub fn done(_after: Around) {}
