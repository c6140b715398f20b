//! What writing an item is.
ghost use Rattle.std.specs.Prelude.{ℕ, List};
ghost use Rattle.cbor4ii_items.specs.Writing.{Writes};

use cbor4ii_rw::error::EncodeError;
use cbor4ii_rw::write::Write;

/// A type whose values are written as items.
pub trait Encode {
    // The bytes of a value, which `encode` appends.
    ghost bytes: { Self → List ℕ };

    /// Appends the value's bytes to what `writer` holds.
    ///
    /// # Errors
    ///
    /// `Write` with the writer's error: the writer failed in the call, and counts it. An atomic
    /// writer then holds what it held before and a beginning of the value's bytes: none of them,
    /// where the value is written in one push. Of another writer nothing is said.
    fn encode<W: Write>(&self, writer: &mut W) -> Result<(), EncodeError<W::Error>>
        ensures { Writes W.atomic (bytes self.now) (W.view writer.old) (W.view writer.new) result };
}

/// A reference to a value, written as the value.
impl<'a, T: Encode> Encode for &'a T {
    ghost bytes = { λ v. T.bytes v.now };

    #[inline(always)]
    fn encode<W: Write>(&self, writer: &mut W) -> Result<(), EncodeError<W::Error>> {
        T::encode(self, writer)
    }
}
