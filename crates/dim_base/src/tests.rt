use super::*;
use crate::streams::{read_all, write_all};
use std::alloc::Global;
use std::io::{self, ErrorKind, Read, Write};
use std::process::Abort;

// A reader that gives its bytes three at a time, was interrupted before the first, and fails where
// none is left and it is to fail.
#[derive(Drop)]
struct Pieces<'a> {
    left: &'a [u8],
    interrupted: bool,
    fails: bool,
}

impl<'a> Pieces<'a> {
    fn of(left: &'a [u8], fails: bool) -> Pieces<'a> {
        Pieces {
            left,
            interrupted: false,
            fails,
        }
    }
}

impl<'a> Read for Pieces<'a> {
    fn read(&mut self, buf: &mut [u8]) -> io::Result<usize> {
        if !self.interrupted {
            self.interrupted = true;
            return Err(io::Error::from(ErrorKind::Interrupted));
        }
        if self.left.is_empty() && self.fails {
            return Err(io::Error::from(ErrorKind::Other));
        }
        let count = self.left.len().min(buf.len()).min(3);
        buf[..count].copy_from_slice(&self.left[..count]);
        self.left = &self.left[count..];
        Ok(count)
    }
}

// A writer that takes three bytes at a time, and fails where it has no more room.
#[derive(Drop)]
struct Cells {
    cells: [u8; 8],
    taken: usize,
    room: usize,
}

impl Cells {
    fn with_room(room: usize) -> Cells {
        Cells {
            cells: [0; 8],
            taken: 0,
            room: room.min(8),
        }
    }
}

impl Write for Cells {
    fn write(&mut self, bytes: &[u8]) -> io::Result<usize> {
        if self.taken >= self.room || self.room > 8 {
            return Err(io::Error::from(ErrorKind::Other));
        }
        let count = bytes.len().min(self.room - self.taken).min(3);
        self.cells[self.taken..self.taken + count].copy_from_slice(&bytes[..count]);
        self.taken += count;
        Ok(count)
    }

    fn flush(&mut self) -> io::Result<()> {
        Ok(())
    }
}

const EIGHT: &[u8] = b"one two!";

// Both numbers are the same.
fn same(rt: &impl Abort, number: u64, expected: u64) {
    assert_eq!(rt; number, expected);
}

// These bytes are the expected ones.
fn are(rt: &impl Abort, bytes: &[u8], expected: &[u8]) {
    assert!(rt; bytes == expected);
}

// The expected bytes were fetched.
fn gives(rt: &impl Abort, fetched: Result<Bytes, Fetch>, expected: &[u8]) {
    let bytes = fetched.expect(rt, "bytes");
    are(rt, bytes.as_slice(), expected);
}

// There are no bytes, for this cause.
fn gives_none(rt: &impl Abort, fetched: Result<Bytes, Fetch>, cause: Fetch) {
    let found = fetched.expect_err(rt, "no bytes");
    assert_eq!(rt; found, cause);
}

// What is read of the eight bytes within a limit.
fn read_eight(alloc: Global, fails: bool, limit: u64, faults: &mut u64) -> Result<Bytes, Fetch> {
    read_all(alloc, Pieces::of(EIGHT, fails), limit, faults)
}

#[test]
fn all_pieces_are_read(rt: HostRuntime) {
    let alloc = rt.alloc();
    let mut faults = 0;
    gives(&rt, read_eight(alloc, false, 8, &mut faults), EIGHT);
    let long = Fetch::Long { limit: 7 };
    gives_none(&rt, read_eight(alloc, false, 7, &mut faults), long);
    same(&rt, faults, 0);
    gives_none(&rt, read_eight(alloc, true, 9, &mut faults), Fetch::Failed);
    same(&rt, faults, 1);
}

// A writer with this room takes these of the eight bytes. All of them are taken, or not.
fn takes(rt: &impl Abort, room: usize, taken: &[u8], all: bool) {
    let mut cells = Cells::with_room(room);
    assert!(rt; write_all(&mut cells, EIGHT) == all);
    assert!(rt; taken.len() <= 8);
    are(rt, &cells.cells[..taken.len()], taken);
}

#[test]
fn short_writes_go_on(rt: HostRuntime) {
    takes(&rt, 8, b"one two!", true);
    takes(&rt, 5, b"one t", false);
}

fn word(rt: &impl Abort, alloc: Global, text: &str) -> Word {
    Word::of(alloc, text).expect(rt, "a word")
}

// A fetch gives these bytes.
fn fetches<F: Files>(
    rt: &impl Abort,
    alloc: Global,
    files: &mut F,
    name: &str,
    limit: u64,
    bytes: &[u8],
) {
    let name = word(rt, alloc, name);
    gives(rt, files.fetch(alloc, &name, limit), bytes);
}

// A fetch gives no bytes, for this cause.
fn fetches_none<F: Files>(
    rt: &impl Abort,
    alloc: Global,
    files: &mut F,
    name: &str,
    limit: u64,
    cause: Fetch,
) {
    let name = word(rt, alloc, name);
    gives_none(rt, files.fetch(alloc, &name, limit), cause);
}

// The bytes are stored.
fn stores<F: Files>(rt: &impl Abort, alloc: Global, files: &mut F, name: &str, bytes: &[u8]) {
    let name = word(rt, alloc, name);
    files.store(alloc, &name, bytes).expect(rt, "a store");
}

// A store of the bytes fails.
fn fails<F: Files>(rt: &impl Abort, alloc: Global, files: &mut F, name: &str, bytes: &[u8]) {
    let name = word(rt, alloc, name);
    let stored = files.store(alloc, &name, bytes);
    assert!(rt; matches!(stored, Err(Store::Failed)));
}

// A text is stored under a name, and fetched again.
fn comes_back<F: Files>(rt: &impl Abort, alloc: Global, files: &mut F) {
    stores(rt, alloc, files, "notes", b"one two");
    fetches(rt, alloc, files, "notes", 7, b"one two");
}

// Two lines are put.
fn put_twice<S: Sink>(rt: &impl Abort, alloc: Global, sink: &mut S) {
    sink.put(alloc, b"one\n").expect(rt, "a line");
    sink.put(alloc, b"two\n").expect(rt, "a line");
}

#[test]
fn the_current_folder(rt: HostRuntime) {
    let alloc = rt.alloc();
    let mut files = DirFiles::new(&rt);
    let long = Fetch::Long { limit: 6 };
    fetches_none(&rt, alloc, &mut files, "notes", 9, Fetch::Absent);
    comes_back(&rt, alloc, &mut files);
    fetches_none(&rt, alloc, &mut files, "notes", 6, long);
    same(&rt, files.faults, 0);
    fetches_none(&rt, alloc, &mut files, ".", 9, Fetch::Failed);
    fails(&rt, alloc, &mut files, "no/such/file", b"");
    same(&rt, files.faults, 2);
}

#[test]
fn a_store_replaces_a_file_and_leaves_all_others(rt: HostRuntime) {
    let alloc = rt.alloc();
    let mut files = DirFiles::new(&rt);
    let (beside, next) = ("kept.unfinished.0", "kept.unfinished.1");
    stores(&rt, alloc, &mut files, "kept", b"old");
    fetches_none(&rt, alloc, &mut files, beside, 9, Fetch::Absent);
    stores(&rt, alloc, &mut files, beside, b"another's");
    stores(&rt, alloc, &mut files, "kept", b"new");
    fetches(&rt, alloc, &mut files, "kept", 9, b"new");
    fetches(&rt, alloc, &mut files, beside, 9, b"another's");
    fetches_none(&rt, alloc, &mut files, next, 9, Fetch::Absent);
    same(&rt, files.faults, 0);
}

// A name of so many letters.
fn long_name(rt: &impl Abort, alloc: Global, letters: usize) -> String {
    "n".repeat(alloc, letters).expect(rt, "a name")
}

#[test]
fn a_long_name_is_written_over_and_a_longer_one_fails(rt: HostRuntime) {
    let alloc = rt.alloc();
    let mut files = DirFiles::new(&rt);
    let long = long_name(&rt, alloc, 255);
    stores(&rt, alloc, &mut files, long.as_str(), b"one");
    stores(&rt, alloc, &mut files, long.as_str(), b"two");
    fetches(&rt, alloc, &mut files, long.as_str(), 9, b"two");
    let longer = long_name(&rt, alloc, 256);
    fails(&rt, alloc, &mut files, longer.as_str(), b"");
    fetches_none(&rt, alloc, &mut files, longer.as_str(), 9, Fetch::Failed);
    same(&rt, files.faults, 2);
}

// That lines come out is shown by the program's stored run.
#[test]
fn standard_output(rt: HostRuntime) {
    let mut sink = StdSink::new(&rt);
    put_twice(&rt, rt.alloc(), &mut sink);
    same(&rt, sink.faults, 0);
}

// The files are done with.
fn close(_files: MemFiles) {}

#[test]
fn a_failing_call_goes_before_an_absent_and_a_long_file(rt: HostRuntime) {
    let alloc = rt.alloc();
    let mut files = MemFiles::new(alloc, &[1, 4]).expect(&rt, "files");
    let name = word(&rt, alloc, "notes");
    let long = Fetch::Long { limit: 3 };
    fetches_none(&rt, alloc, &mut files, "notes", 3, Fetch::Failed);
    fetches_none(&rt, alloc, &mut files, "notes", 3, Fetch::Absent);
    assert!(rt; files.held(&name).is_none());
    files.give(&name, b"four").expect(&rt, "a file");
    fetches_none(&rt, alloc, &mut files, "notes", 3, long);
    fetches_none(&rt, alloc, &mut files, "notes", 3, Fetch::Failed);
    fetches(&rt, alloc, &mut files, "notes", 4, b"four");
    same(&rt, files.faults, 2);
    close(files);
}

#[test]
fn a_failing_store_leaves_the_first_half(rt: HostRuntime) {
    let alloc = rt.alloc();
    let mut files = MemFiles::new(alloc, &[2]).expect(&rt, "files");
    let name = word(&rt, alloc, "notes");
    stores(&rt, alloc, &mut files, "notes", b"one");
    fails(&rt, alloc, &mut files, "notes", b"three");
    are(&rt, files.held(&name).expect(&rt, "a half"), b"th");
    same(&rt, files.faults, 1);
    comes_back(&rt, alloc, &mut files);
    close(files);
}

#[test]
fn a_failing_put_takes_the_first_half(rt: HostRuntime) {
    let alloc = rt.alloc();
    let mut sink = MemSink::new(alloc, &[3]).expect(&rt, "a sink");
    put_twice(&rt, alloc, &mut sink);
    assert!(rt; matches!(sink.put(alloc, b"three"), Err(Put::Failed)));
    are(&rt, sink.taken(), b"one\ntwo\nth");
    same(&rt, sink.faults, 1);
}

// A sink that never fails takes both lines.
fn takes_both(rt: &impl Abort, alloc: Global) {
    let mut sink = SureSink::new(alloc);
    put_twice(rt, alloc, &mut sink);
    are(rt, sink.taken(), b"one\ntwo\n");
}

#[test]
fn sure_files_and_a_sure_sink_take_everything(rt: HostRuntime) {
    let alloc = rt.alloc();
    let mut files = SureFiles::new(alloc);
    let name = word(&rt, alloc, "draft");
    assert!(rt; files.held(&name).is_none());
    files.give(&name, b"first").expect(&rt, "a file");
    comes_back(&rt, alloc, &mut files);
    are(&rt, files.held(&name).expect(&rt, "a file"), b"first");
    takes_both(&rt, alloc);
}

// A word is its text, and equal to another of that text.
fn is_its_text(rt: &impl Abort, alloc: Global) {
    let left = word(rt, alloc, "left");
    let again = word(rt, alloc, "left");
    assert!(rt; left.as_str() == "left");
    are(rt, left.as_slice(), b"left");
    assert!(rt; left == again);
}

const ASCENDING: [(&str, &str); 4] = [("", "a"), ("a", "ab"), ("ab", "b"), ("B", "a")];

// The word of the first text comes before that of the second.
fn ascend(rt: &impl Abort, alloc: Global, before: &str, after: &str) {
    let low = word(rt, alloc, before);
    let high = word(rt, alloc, after);
    assert!(rt; low < high, "{before} {after}");
}

#[test]
fn words_are_in_the_order_of_their_bytes(rt: HostRuntime) {
    let alloc = rt.alloc();
    is_its_text(&rt, alloc);
    for (before, after) in &ASCENDING {
        ascend(&rt, alloc, *before, *after);
    }
    let bytes = Bytes::of(alloc, b"\x00\xff").expect(&rt, "bytes");
    are(&rt, bytes.as_slice(), b"\x00\xff");
}
