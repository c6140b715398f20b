//! What a writer is.
ghost use Rattle.std.specs.Prelude.{◌≡◌, Bool, OnOk, OnErr, IsTrue};
ghost use Rattle.cbor4ii_rw.specs.Reader.{Failed, Keeps};
ghost use Rattle.cbor4ii_rw.specs.Writer.{Output, Appends};

use std::fmt::Debug;

/// A writer of bytes.
pub trait Write {
    /// Why the writer failed.
    type Error: Debug + Drop;

    // Whether a push that fails appends nothing.
    ghost atomic: { Bool };

    // What the writer reports of itself as it stands: the bytes that it holds, where it reports
    // them, and how often it failed.
    ghost view: { Self → Output };

    /// Appends `input`.
    ///
    /// # Errors
    ///
    /// The writer's own error, which it counts. An atomic writer then holds what it held before,
    /// and of another one nothing is said.
    fn push(&mut self, input: &[u8]) -> Result<(), Self::Error>
        ensures appends { OnOk result
            (Appends input.now (view self.old).written (view self.new).written) }
        ensures counts { OnOk result ((view self.new).failures ≡ (view self.old).failures) }
        ensures failed { OnErr result (Failed (view self.old).failures (view self.new).failures) }
        ensures whole { IsTrue atomic →
            OnErr result (Keeps (view self.old).written (view self.new).written) };
}
