//! Items in a box.
ghost use Rattle.std.specs.Prelude.{◌≡◌, false, IfErr, IsTrue};
ghost use Rattle.cbor4ii_items.specs.Decoding.{Sound, Decodes};
ghost use Rattle.cbor4ii_items.specs.InputError.{is_out_of_memory};
ghost use Rattle.cbor4ii_items.specs.Laws.Containers.{boxed_format, boxed_lawful};

use crate::decode::{Decodable, Decode};
use crate::encode::Encode;
use cbor4ii_rw::error::{DecodeError, EncodeError};
use cbor4ii_rw::read::Source;
use cbor4ii_rw::write::Write;
use std::alloc::Global;

impl<T: Decodable> Decodable for Box<T> {
    ghost format = { boxed_format T.format };

    fn is_never_empty() -> bool {
        T::is_never_empty()
    }

    ghost lawful = { boxed_lawful T.format T.lawful };
}

/// A box is read as what is in it, with its errors. `OutOfMemory` comes too where there is no
/// memory for the box; the item was taken then.
impl<S: Source, T: Decode<S> + Drop> Decode<S> for Box<T> {
    #[inline(always)]
    fn decode(alloc: Global, reader: &mut S) -> Result<Box<T>, DecodeError<S::Error>>
        ensures decodes { Decodes (boxed_format T.format)
            (S.view reader.old) (S.view reader.new) result }
        ensures after_item { T.format.takes_memory ≡ false →
            IfErr result (λ error. IsTrue (is_out_of_memory error) →
            (v : T) × Sound T.format.reads (S.view reader.old) (S.view reader.new) v) }
    {
        let value = match T::decode(alloc, reader) {
            Ok(value) => value,
            Err(error) => return Err(error),
        };
        match Box::new(alloc, value) {
            Ok(boxed) => Ok(boxed),
            Err(_) => Err(DecodeError::OutOfMemory),
        }
    }
}

/// A box is written as what is in it, with its errors.
impl<T: Encode> Encode for Box<T> {
    ghost bytes = { λ b. T.bytes b.value };

    #[inline(always)]
    fn encode<W: Write>(&self, writer: &mut W) -> Result<(), EncodeError<W::Error>> {
        T::encode(self.as_ref(), writer)
    }
}
