//! Tagged values.
ghost use Rattle.cbor4ii_items.specs.Decoding.{Decodes, DecodesIf};
ghost use Rattle.cbor4ii.specs.Made.{made_from};
ghost use Rattle.cbor4ii.specs.Tagged.{tag_head, tagged_format, typed_tagged};
ghost use Rattle.cbor4ii.specs.Typed.{input, answer_of, Deserializes};
ghost use Rattle.cbor4ii.specs.TypedParts.{part_of};

use crate::serde::de::deserialize::Deserialize;
use crate::serde::de::deserializer::Deserializer;
use crate::serde::de::error::DecodeError;
use cbor4ii_items::types::Tag;
use cbor4ii_rw::read::Source;
use std::alloc::Global;

impl<S: Source> Deserializer<S> {
    /// A tag of exactly this number, in a head of any width, and what is made of the value that it
    /// tags (RFC 8949 section 3.4). The tag takes no step. `Serializer::serialize_tagged` writes
    /// it.
    ///
    /// # Errors
    ///
    /// - those of `Tag::tag`, each as `Core`, with what they leave
    /// - `Custom` of "expected another tag": the tag's number is another. Its head is taken then,
    ///   and the item that it tags is left
    /// - after the tag those of the value, with what they leave
    #[inline(always)]
    pub fn deserialize_tagged<V: Deserialize<S>, T: From<V>>(
        &mut self,
        alloc: Global,
        number: u64,
    ) -> Result<T, DecodeError<S::Error>>
        ensures { Deserializes (made_from T.from_gives (typed_tagged number V.promise))
            (input S.view self.old) (input S.view self.new) (answer_of result) }
    {
        match tagged_value::<S, V>(alloc, self, number) {
            Ok(value) => Ok(T::from(value)),
            Err(error) => Err(error),
        }
    }
}

#[inline(always)]
fn tagged_value<S: Source, V: Deserialize<S>>(
    alloc: Global,
    de: &mut Deserializer<S>,
    number: u64,
) -> Result<V, DecodeError<S::Error>>
    ensures { DecodesIf V.promise.exact (tagged_format number (part_of V.promise))
        (input S.view de.old) (input S.view de.new) (answer_of result) }
{
    match take_tag(de, number) {
        Ok(()) => V::deserialize(alloc, de),
        Err(error) => Err(error),
    }
}

#[inline(always)]
fn take_tag<S: Source>(de: &mut Deserializer<S>, number: u64) -> Result<(), DecodeError<S::Error>>
    ensures { Decodes (tag_head number)
        (input S.view de.old) (input S.view de.new) (answer_of result) }
{
    match Tag::<()>::tag(&mut de.reader) {
        Ok(found) => {
            if found == number {
                return Ok(());
            }
            Err(DecodeError::Custom("expected another tag"))
        }
        Err(error) => Err(DecodeError::Core(error)),
    }
}
