//! The words of the command line, the files of the current folder, and standard output. They tell
//! nothing of what they hold.
ghost use Rattle.std.specs.Prelude.{◌≡◌, None};

use crate::replacing::put_under;
use crate::streams::{read_all, write_all};
use crate::{Bytes, Fetch, Files, OutOfMemory, Put, Sink, Store, Word};
use std::alloc::Global;
use std::env::{self, Env};
use std::io::{self, ErrorKind};
use std::{fs, rt};

/// The words behind the program's name. Where one is no text, it is as if there were none.
pub fn words_after_name<R: Env + AllocGlobal>(rt: &R) -> Result<Vec<Word>, OutOfMemory> {
    let alloc = rt.alloc();
    let mut words = Vec::new(alloc);
    match env::args(rt) {
        Ok(args) => {
            for arg in args.skip(1) {
                words.push(Word::of(alloc, arg.as_str())?)?;
            }
            Ok(words)
        }
        Err(e) if e.kind() == ErrorKind::OutOfMemory => Err(OutOfMemory),
        Err(_) => Ok(words),
    }
}

/// The files of the current folder. A store replaces a plain file by one that was written beside
/// it; what can't be replaced is written over.
#[derive(Drop)]
pub struct DirFiles<'a, R: rt::Files> {
    rt: &'a R,
    /// How often they have failed.
    pub faults: u64,
}

impl<'a, R: rt::Files> DirFiles<'a, R> {
    /// The files of the current folder, which have not failed yet.
    pub fn new(rt: &'a R) -> DirFiles<'a, R>
        ensures { result.faults ≡ 0 }
    {
        DirFiles { rt, faults: 0 }
    }
}

impl<'a, R: rt::Files> Files for DirFiles<'a, R> {
    ghost told = { λ _. None };

    ghost faults = { λ s. s.faults };

    fn fetch(&mut self, alloc: Global, name: &Word, limit: u64) -> Result<Bytes, Fetch> {
        match fs::open(self.rt, name.as_str()) {
            Ok(file) => read_all(alloc, file, limit, &mut self.faults),
            Err(e) if e.kind() == ErrorKind::NotFound => Err(Fetch::Absent),
            Err(_) => {
                self.faults = self.faults.saturating_add(1);
                Err(Fetch::Failed)
            }
        }
    }

    fn store(&mut self, alloc: Global, name: &Word, bytes: &[u8]) -> Result<(), Store> {
        if put_under(alloc, self.rt, name.as_str(), bytes)? {
            return Ok(());
        }
        self.faults = self.faults.saturating_add(1);
        Err(Store::Failed)
    }
}

/// Standard output.
#[derive(Drop)]
pub struct StdSink<'a, R: Print> {
    rt: &'a R,
    /// How often it has failed.
    pub faults: u64,
}

impl<'a, R: Print> StdSink<'a, R> {
    /// Standard output, which has not failed yet.
    pub fn new(rt: &'a R) -> StdSink<'a, R>
        ensures { result.faults ≡ 0 }
    {
        StdSink { rt, faults: 0 }
    }
}

impl<'a, R: Print> Sink for StdSink<'a, R> {
    ghost taken = { λ _. None };

    ghost faults = { λ s. s.faults };

    fn put(&mut self, _alloc: Global, bytes: &[u8]) -> Result<(), Put> {
        if write_all(&mut io::writer(self.rt), bytes) {
            return Ok(());
        }
        self.faults = self.faults.saturating_add(1);
        Err(Put::Failed)
    }
}
