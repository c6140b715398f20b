//! A reader of typed values.
ghost use Rattle.std.specs.Prelude.{◌≡◌};
ghost use Rattle.cbor4ii_items.specs.Decoding.{Decodes};
ghost use Rattle.cbor4ii.specs.Made.{made_from};
ghost use Rattle.cbor4ii.specs.Typed.{input, answer_of, Deserializes};

use crate::serde::de::deserialize::Deserialize;
use crate::serde::de::error::{DecodeError, typed};
use cbor4ii_items::decode::Decode;
use cbor4ii_rw::read::Source;
use std::alloc::Global;

/// A reader of typed values.
#[derive(Drop)]
pub struct Deserializer<S> {
    pub(crate) reader: S,
}

impl<S: Source> Deserializer<S> {
    /// Reads what `reader` has left, under its budget.
    #[inline(always)]
    pub fn new(reader: S) -> Deserializer<S>
        ensures { input S.view result ≡ S.view reader }
    {
        Deserializer { reader }
    }

    /// The reader, with what is left.
    #[inline(always)]
    pub fn into_inner(self) -> S
        ensures { S.view result ≡ input S.view self }
    {
        self.reader
    }

    /// A value that is made of one of another type, as a newtype is of what it holds.
    ///
    /// # Errors
    ///
    /// Those of the other type, with what they leave.
    pub fn deserialize_from<V: Deserialize<S>, T: From<V>>(
        &mut self,
        alloc: Global,
    ) -> Result<T, DecodeError<S::Error>>
        ensures { Deserializes (made_from T.from_gives V.promise)
            (input S.view self.old) (input S.view self.new) (answer_of result) }
    {
        match V::deserialize(alloc, self) {
            Ok(value) => Ok(T::from(value)),
            Err(error) => Err(error),
        }
    }

    /// One item of the codec, of any type that is decoded: `Simple`, `Tag`, `CowStr` or `RawValue`,
    /// over every reader that it is decoded over. `Serializer::serialize_item` writes it.
    ///
    /// # Errors
    ///
    /// Those of its `Decode::decode`, each as `Core`, with what they leave.
    pub fn deserialize_item<T: Decode<S>>(
        &mut self,
        alloc: Global,
    ) -> Result<T, DecodeError<S::Error>>
        ensures { Decodes T.format
            (input S.view self.old) (input S.view self.new) (answer_of result) }
    {
        take_item(alloc, self)
    }
}

#[inline(always)]
pub(crate) fn take_item<S: Source, T: Decode<S>>(
    alloc: Global,
    de: &mut Deserializer<S>,
) -> Result<T, DecodeError<S::Error>>
    ensures { Decodes T.format
        (input S.view de.old) (input S.view de.new) (answer_of result) }
{
    typed(T::decode(alloc, &mut de.reader))
}
