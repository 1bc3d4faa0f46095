//! Sinks in memory.
ghost use Rattle.std.specs.Prelude.{◌≡◌, ◌++◌, [], ◌/◌, length, take, Contains, IfOk, OnOk, OnErr, IsErrOf, Some};
ghost use Rattle.dim_base.specs.FailingCalls.{next_call};
ghost use Rattle.dim_base.specs.Sink.{Puts, PutCause, put_count};

use crate::failing_calls::FailingCalls;
use crate::{OutOfMemory, Put, Sink};
use std::alloc::Global;

/// A sink that never fails.
#[derive(Drop)]
pub struct SureSink {
    bytes: Vec<u8>,
}

impl SureSink {
    ghost use Rattle.dim_base.specs.SureSink.{bytes_of};

    /// A sink that has taken nothing.
    pub fn new(alloc: Global) -> SureSink
        ensures { bytes_of result ≡ [] }
    {
        SureSink {
            bytes: Vec::new(alloc),
        }
    }

    /// The bytes taken.
    pub fn taken(&self) -> &[u8]
        ensures { result.now ≡ bytes_of self.now }
    {
        &self.bytes
    }

    // Takes the bytes at the end.
    fn take(&mut self, bytes: &[u8]) -> Result<(), OutOfMemory>
        ensures ok { OnOk result (bytes_of self.new ≡ bytes_of self.old ++ bytes.now) }
        ensures err { OnErr result (bytes_of self.new ≡ bytes_of self.old) }
    {
        self.bytes.extend_from_slice(bytes)?;
        Ok(())
    }
}

impl Sink for SureSink {
    ghost use Rattle.std.specs.Prelude.{Some};
    ghost use Rattle.dim_base.specs.SureSink.{bytes_of};

    ghost taken = { λ s. Some (bytes_of s) };

    ghost faults = { λ _. 0 };

    fn put(&mut self, _alloc: Global, bytes: &[u8]) -> Result<(), Put> {
        self.take(bytes)?;
        Ok(())
    }
}

/// A sink that fails at the calls with the numbers that it was given, counted from 1. It takes the
/// first half of the bytes then.
#[derive(Drop)]
pub struct MemSink {
    sure: SureSink,
    calls: FailingCalls,
    /// How often it has failed.
    pub faults: u64,
}

impl MemSink {
    ghost use Rattle.dim_base.specs.MemSink.{bytes_of, calls_of, failing_of};

    /// A sink that has taken nothing, and fails at the calls with these numbers.
    pub fn new(alloc: Global, fails: &[u32]) -> Result<MemSink, OutOfMemory>
        ensures empty { IfOk result (λ s. bytes_of s ≡ []) }
        ensures failing { IfOk result (λ s. failing_of s ≡ fails.now) }
        ensures calls { IfOk result (λ s. calls_of s ≡ 0) }
        ensures faults { IfOk result (λ s. s.faults ≡ 0) }
    {
        Ok(MemSink {
            sure: SureSink::new(alloc),
            calls: FailingCalls::new(alloc, fails)?,
            faults: 0,
        })
    }

    /// The bytes taken.
    pub fn taken(&self) -> &[u8]
        ensures { result.now ≡ bytes_of self.now }
    {
        self.sure.taken()
    }
}

impl Sink for MemSink {
    ghost use Rattle.std.specs.Prelude.{Some};
    ghost use Rattle.dim_base.specs.MemSink.{bytes_of, calls_of, failing_of};

    ghost taken = { λ s. Some (bytes_of s) };

    ghost faults = { λ s. s.faults };

    fn put(&mut self, _alloc: Global, bytes: &[u8]) -> Result<(), Put>
        ensures taken { Puts bytes.now (Some (bytes_of self.old)) (Some (bytes_of self.new))
            result }
        ensures cause { PutCause self.old.faults self.new.faults result }
        ensures count { self.new.faults ≡ put_count self.old.faults result }

        // It fails exactly where the number of the call is in the list, unless memory runs out, and
        // leaves a half then.
        ensures counted { calls_of self.new ≡ next_call (calls_of self.old) }
        ensures failing { failing_of self.new ≡ failing_of self.old }
        ensures fails { IsErrOf result Put.Failed
            → Contains (failing_of self.old) (calls_of self.new) }
        ensures succeeds { OnOk result (¬ Contains (failing_of self.old) (calls_of self.new)) }
        ensures half { IsErrOf result Put.Failed
            → bytes_of self.new ≡ bytes_of self.old ++ take (length bytes.now / 2) bytes.now }
    {
        if !self.calls.next_fails() {
            self.sure.take(bytes)?;
            return Ok(());
        }
        self.sure.take(&bytes[..bytes.len() / 2])?;
        self.faults = self.faults.saturating_add(1);
        Err(Put::Failed)
    }
}
