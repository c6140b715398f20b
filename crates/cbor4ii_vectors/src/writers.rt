//! Writers for tests.
ghost use Rattle.std.specs.Prelude.{◌≡◌, Some, true, false};
ghost use Rattle.cbor4ii_vectors.specs.Reports.{failing_output, pushed_output};

use crate::readers::Failure;
use cbor4ii_rw::write::Write;
use std::alloc::Global;

/// Writes into memory, fails at one push and goes on after it, so that an encoder which passes
/// over a failure is found out.
#[derive(Drop)]
pub struct FailingWriter {
    bytes: Vec<u8>,
    // How many pushes it takes before it fails.
    pushes: usize,
    failures: u64,
}

impl FailingWriter {
    /// A writer that appends to `bytes`, that takes so many pushes before it fails.
    pub fn new(bytes: Vec<u8>, pushes: usize) -> FailingWriter
        ensures written { (failing_output result).written ≡ Some bytes.items }
        ensures failures { (failing_output result).failures ≡ 0 }
    {
        FailingWriter {
            bytes,
            pushes,
            failures: 0,
        }
    }

    /// How often it failed: once, or wherever memory was refused too.
    pub fn failures(&self) -> u64
        ensures { (failing_output self.now).failures ≡ result }
    {
        self.failures
    }

    /// What it holds.
    pub fn buffer(&self) -> &[u8]
        ensures { (failing_output self.now).written ≡ Some result.now }
    {
        &self.bytes
    }
}

impl Write for FailingWriter {
    type Error = Failure;

    ghost atomic = { true };

    ghost view = { failing_output };

    fn push(&mut self, input: &[u8]) -> Result<(), Failure> {
        let is_due = self.pushes == 0 && self.failures == 0;
        if is_due || self.bytes.extend_from_slice(input).is_err() {
            self.failures = self.failures.saturating_add(1);
            return Err(Failure);
        }
        self.pushes = self.pushes.saturating_sub(1);
        Ok(())
    }
}

/// Keeps of each push how many bytes it has, and no byte.
#[derive(Drop)]
pub struct PushLengths {
    lengths: Vec<usize>,
    failures: u64,
}

impl PushLengths {
    /// A writer that no push came to yet.
    pub fn new(alloc: Global) -> PushLengths
        ensures failures { (pushed_output result).failures ≡ 0 }
    {
        PushLengths {
            lengths: Vec::new(alloc),
            failures: 0,
        }
    }

    /// How many bytes each push has, in their order.
    pub fn lengths(&self) -> &[usize] {
        &self.lengths
    }
}

impl Write for PushLengths {
    type Error = Failure;

    ghost atomic = { false };

    ghost view = { pushed_output };

    fn push(&mut self, input: &[u8]) -> Result<(), Failure> {
        if self.lengths.push(input.len()).is_err() {
            self.failures = self.failures.saturating_add(1);
            return Err(Failure);
        }
        Ok(())
    }
}
