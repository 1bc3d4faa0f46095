//! Files in memory.
ghost use Rattle.std.specs.Prelude.{◌≡◌, ◌≤◌, ◌/◌, ◌↔◌, List, ℕ, Option, Some, length, take, Contains, IfOk, OnOk, OnErr, IsErrOf};
ghost use Rattle.std.specs.Option.{option_map};
ghost use Rattle.dim_base.specs.FailingCalls.{next_call};
ghost use Rattle.dim_base.specs.Files.{Fetches, FetchCause, SaysLimit, StoreCause, Stores, fetch_count, fetched, no_files, store_count, with_file};

use crate::failing_calls::FailingCalls;
use crate::{Bytes, Fetch, Files, OutOfMemory, Store, Word};
use std::alloc::Global;
use std::collections::BTreeMap;

/// Files that never fail.
#[derive(Drop)]
pub struct SureFiles {
    files: BTreeMap<String, Vec<u8>>,
    alloc: Global,
}

impl SureFiles {
    ghost use Rattle.dim_base.specs.SureFiles.{files_of};

    /// No files.
    pub fn new(alloc: Global) -> SureFiles
        ensures { files_of result ≡ no_files }
    {
        SureFiles {
            files: BTreeMap::new(alloc),
            alloc,
        }
    }

    /// Puts a file in, in place of what stands under its name.
    pub fn give(&mut self, name: &Word, bytes: &[u8]) -> Result<(), OutOfMemory>
        ensures ok { OnOk result
            (files_of self.new ≡ with_file (files_of self.old) name.now (Some bytes.now)) }
        ensures err { OnErr result (files_of self.new ≡ files_of self.old) }
    {
        let key = String::from_str(self.alloc, name.as_str())?;
        let value = Vec::from_slice(self.alloc, bytes)?;
        self.files.insert(key, value)?;
        Ok(())
    }

    /// The bytes under a name, and None where nothing stands there.
    pub fn held(&self, name: &Word) -> Option<&[u8]>
        ensures { option_map (λ x. x.now) result ≡ files_of self.now name.now }
    {
        self.files.get(name.as_str()).map(|v| v.as_slice())
    }
}

impl Files for SureFiles {
    ghost use Rattle.std.specs.Prelude.{Some};
    ghost use Rattle.dim_base.specs.SureFiles.{files_of};

    ghost told = { λ s. Some (files_of s) };

    ghost faults = { λ _. 0 };

    fn fetch(&mut self, alloc: Global, name: &Word, limit: u64) -> Result<Bytes, Fetch> {
        match self.held(name) {
            None => Err(Fetch::Absent),
            Some(bytes) if bytes.len() as u64 > limit => Err(Fetch::Long { limit }),
            Some(bytes) => Ok(Bytes::of(alloc, bytes)?),
        }
    }

    fn store(&mut self, _alloc: Global, name: &Word, bytes: &[u8]) -> Result<(), Store> {
        self.give(name, bytes)?;
        Ok(())
    }
}

/// Files that fail at the calls of the trait with the numbers that they were given, counted from 1.
/// A store that fails leaves the first half of the bytes.
#[derive(Drop)]
pub struct MemFiles {
    sure: SureFiles,
    calls: FailingCalls,
    /// How often they have failed.
    pub faults: u64,
}

impl MemFiles {
    ghost use Rattle.dim_base.specs.MemFiles.{calls_of, failing_of, files_of};

    /// No files, which fail at the calls with these numbers.
    pub fn new(alloc: Global, fails: &[u32]) -> Result<MemFiles, OutOfMemory>
        ensures empty { IfOk result (λ f. files_of f ≡ no_files) }
        ensures failing { IfOk result (λ f. failing_of f ≡ fails.now) }
        ensures calls { IfOk result (λ f. calls_of f ≡ 0) }
        ensures faults { IfOk result (λ f. f.faults ≡ 0) }
    {
        Ok(MemFiles {
            sure: SureFiles::new(alloc),
            calls: FailingCalls::new(alloc, fails)?,
            faults: 0,
        })
    }

    /// Puts a file in, in place of what stands under its name. It is counted as no call.
    pub fn give(&mut self, name: &Word, bytes: &[u8]) -> Result<(), OutOfMemory>
        ensures ok { OnOk result
            (files_of self.new ≡ with_file (files_of self.old) name.now (Some bytes.now)) }
        ensures err { OnErr result (files_of self.new ≡ files_of self.old) }
        ensures calls { calls_of self.new ≡ calls_of self.old }
        ensures failing { failing_of self.new ≡ failing_of self.old }
        ensures faults { self.new.faults ≡ self.old.faults }
    {
        self.sure.give(name, bytes)
    }

    /// The bytes under a name, and None where nothing stands there.
    pub fn held(&self, name: &Word) -> Option<&[u8]>
        ensures { option_map (λ x. x.now) result ≡ files_of self.now name.now }
    {
        self.sure.held(name)
    }
}

impl Files for MemFiles {
    ghost use Rattle.std.specs.Prelude.{Some};
    ghost use Rattle.dim_base.specs.MemFiles.{calls_of, failing_of, files_of};

    ghost told = { λ s. Some (files_of s) };

    ghost faults = { λ s. s.faults };

    fn fetch(&mut self, alloc: Global, name: &Word, limit: u64) -> Result<Bytes, Fetch>
        ensures limit { IfOk result (λ bytes. length bytes ≤ limit) }
        ensures long { SaysLimit limit result }
        ensures answer { Fetches (fetched (files_of self.old name.now) limit) result }
        ensures kept { files_of self.new ≡ files_of self.old }
        ensures cause { FetchCause self.old.faults self.new.faults result }
        ensures count { self.new.faults ≡ fetch_count self.old.faults result }

        // It fails exactly where the number of the call is in the list.
        ensures counted { calls_of self.new ≡ next_call (calls_of self.old) }
        ensures failing { failing_of self.new ≡ failing_of self.old }
        ensures fails { IsErrOf result Fetch.Failed
            ↔ Contains (failing_of self.old) (calls_of self.new) }
    {
        if self.calls.next_fails() {
            self.faults = self.faults.saturating_add(1);
            return Err(Fetch::Failed);
        }
        self.sure.fetch(alloc, name, limit)
    }

    fn store(&mut self, alloc: Global, name: &Word, bytes: &[u8]) -> Result<(), Store>
        ensures stored { Stores name.now bytes.now (Some (files_of self.old))
            (Some (files_of self.new)) result }
        ensures cause { StoreCause self.old.faults self.new.faults result }
        ensures count { self.new.faults ≡ store_count self.old.faults result }

        // It fails exactly where the number of the call is in the list, unless memory runs out, and
        // leaves a half then.
        ensures counted { calls_of self.new ≡ next_call (calls_of self.old) }
        ensures failing { failing_of self.new ≡ failing_of self.old }
        ensures fails { IsErrOf result Store.Failed
            → Contains (failing_of self.old) (calls_of self.new) }
        ensures succeeds { OnOk result (¬ Contains (failing_of self.old) (calls_of self.new)) }
        ensures half { IsErrOf result Store.Failed
            → files_of self.new
            ≡ with_file (files_of self.old) name.now
            (Some (take (length bytes.now / 2) bytes.now)) }
    {
        if !self.calls.next_fails() {
            return self.sure.store(alloc, name, bytes);
        }
        self.sure.give(name, &bytes[..bytes.len() / 2])?;
        self.faults = self.faults.saturating_add(1);
        Err(Store::Failed)
    }
}
