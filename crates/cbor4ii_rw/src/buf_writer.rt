//! A writer into memory.
ghost use Rattle.std.specs.Prelude.{◌≡◌, ◌+◌, ◌≤◌, [], Some, true, length, vec_capacity, OnOk};
ghost use Rattle.std.specs.Prelude.{OnErr, IsOk};
ghost use Rattle.cbor4ii_rw.specs.View.{IfKnown};
ghost use Rattle.cbor4ii_rw.specs.Reader.{Keeps};
ghost use Rattle.cbor4ii_rw.specs.Writer.{Appends, one_more};
ghost use Rattle.cbor4ii_rw.specs.Written.{buffer_output, buffer_capacity};

use crate::error::TryReserveError;
use crate::write::Write;

/// A writer into a vector. It is atomic: a push for which there is no memory appends nothing. A
/// push for which the vector has room never fails.
#[derive(Debug, Drop)]
pub struct BufWriter {
    bytes: Vec<u8>,
    failures: u64,
}

impl BufWriter {
    /// A writer that appends to `bytes`, which has not failed yet.
    pub fn new(bytes: Vec<u8>) -> BufWriter
        ensures written { (buffer_output result).written ≡ Some bytes.items }
        ensures failures { (buffer_output result).failures ≡ 0 }
        ensures capacity { buffer_capacity result ≡ vec_capacity bytes }
    {
        BufWriter { bytes, failures: 0 }
    }

    /// What it holds.
    pub fn buffer(&self) -> &[u8]
        ensures { (buffer_output self.now).written ≡ Some result.now }
    {
        &self.bytes
    }

    /// The vector, with what was written after what stood in it.
    pub fn into_inner(self) -> Vec<u8>
        ensures written { (buffer_output self).written ≡ Some result.items }
        ensures capacity { vec_capacity result ≡ buffer_capacity self }
    {
        self.bytes
    }

    /// Forgets what it holds, and keeps its memory and its count of failures. As many bytes can
    /// then be pushed without a failure as the vector has room for.
    pub fn clear(&mut self)
        ensures written { (buffer_output self.new).written ≡ Some [] }
        ensures failures { (buffer_output self.new).failures ≡ (buffer_output self.old).failures }
        ensures capacity { buffer_capacity self.new ≡ buffer_capacity self.old }
    {
        self.bytes.clear();
    }
}

/// A push appends to the vector.
///
/// # Errors
///
/// `TryReserveError`: the vector has no room for the input, and cannot grow. It then holds what it
/// held before. The failure is counted.
impl Write for BufWriter {
    type Error = TryReserveError;

    ghost atomic = { true };

    ghost view = { buffer_output };

    #[inline(always)]
    fn push(&mut self, input: &[u8]) -> Result<(), TryReserveError>
        ensures appends { OnOk result (Appends input.now
            (buffer_output self.old).written (buffer_output self.new).written) }
        ensures counts { OnOk result
            ((buffer_output self.new).failures ≡ (buffer_output self.old).failures) }
        ensures failed { OnErr result
            ((buffer_output self.new).failures ≡ one_more (buffer_output self.old).failures) }
        ensures whole { OnErr result
            (Keeps (buffer_output self.old).written (buffer_output self.new).written) }
        ensures room { IfKnown (buffer_output self.old).written (λ held.
            length held + length input.now ≤ buffer_capacity self.old → IsOk result) }
        ensures capacity { buffer_capacity self.old ≤ buffer_capacity self.new }
    {
        match self.bytes.extend_from_slice(input) {
            Ok(()) => Ok(()),
            Err(error) => {
                self.failures = self.failures.saturating_add(1);
                Err(error)
            }
        }
    }
}
