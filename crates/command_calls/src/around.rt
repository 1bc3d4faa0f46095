//! One call of the commands, and what it leaves.
use dim_base::{MemFiles, MemSink, OutOfMemory, Word};
use dim_cli::drive;
use dim_run::{House, TurnHouse};
use std::alloc::Global;
use std::sync::Wait;
use std::thread::Threads;

/// What a call leaves: its status, its files and its sink, and how many entries the callers of its
/// house made.
#[derive(Drop)]
pub struct Around {
    pub status: u8,
    pub files: MemFiles,
    pub out: MemSink,
    pub passed: u64,
}

impl Around {
    /// What stands under a name.
    pub fn held(&self, alloc: Global, name: &str) -> Result<Option<&[u8]>, OutOfMemory> {
        Ok(self.files.held(&Word::of(alloc, name)?))
    }

    /// Whether a call ended with this status and put this.
    pub fn says(&self, status: u8, put: &[u8]) -> bool {
        self.status == status && self.out.taken() == put
    }

    /// Whether these bytes stand under a name.
    pub fn keeps(&self, alloc: Global, name: &str, bytes: &[u8]) -> Result<bool, OutOfMemory> {
        Ok(self.held(alloc, name)? == Some(bytes))
    }

    /// Whether what stands under a name begins with these bytes.
    pub fn begins(&self, alloc: Global, name: &str, front: &[u8]) -> Result<bool, OutOfMemory> {
        match self.held(alloc, name)? {
            Some(bytes) => Ok(bytes.starts_with(front)),
            None => Ok(false),
        }
    }
}

/// These texts as words.
pub fn words_of(alloc: Global, texts: &[&str]) -> Result<Vec<Word>, OutOfMemory> {
    let mut words = Vec::new(alloc);
    for text in texts {
        words.push(Word::of(alloc, text)?)?;
    }
    Ok(words)
}

/// What a call leaves whose words are these, over these files and this sink.
pub fn driven<R: Threads + Wait + Sync>(
    rt: &R,
    alloc: Global,
    words: &[&str],
    mut files: MemFiles,
    mut out: MemSink,
) -> Result<Around, OutOfMemory> {
    let words = words_of(alloc, words)?;
    let mut house = TurnHouse::new();
    let status = drive(rt, alloc, &mut house, &words, &mut files, &mut out);
    let passed = house.passed();
    Ok(Around {
        status,
        files,
        out,
        passed,
    })
}

/// What a call leaves whose words are these, over these files and a sink that doesn't fail.
pub fn over<R: Threads + Wait + Sync>(
    rt: &R,
    alloc: Global,
    words: &[&str],
    files: MemFiles,
) -> Result<Around, OutOfMemory> {
    driven(rt, alloc, words, files, MemSink::new(alloc, &[])?)
}

/// What a call leaves whose words are these, with this program in a file p and this history in a
/// file g.
pub fn loaded<R: Threads + Wait + Sync>(
    rt: &R,
    alloc: Global,
    words: &[&str],
    program: &[u8],
    history: &[u8],
) -> Result<Around, OutOfMemory> {
    let mut files = MemFiles::new(alloc, &[])?;
    files.give(&Word::of(alloc, "p")?, program)?;
    files.give(&Word::of(alloc, "g")?, history)?;
    over(rt, alloc, words, files)
}

/// What a call leaves whose words are these, with this program in a file p. The calls on files and
/// on the sink with these numbers fail.
pub fn called<R: Threads + Wait + Sync>(
    rt: &R,
    alloc: Global,
    words: &[&str],
    program: &[u8],
    file_fails: &[u32],
    sink_fails: &[u32],
) -> Result<Around, OutOfMemory> {
    let mut files = MemFiles::new(alloc, file_fails)?;
    files.give(&Word::of(alloc, "p")?, program)?;
    driven(rt, alloc, words, files, MemSink::new(alloc, sink_fails)?)
}
