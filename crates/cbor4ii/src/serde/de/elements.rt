//! Structs that are read from an array in one call.
ghost use Rattle.std.specs.Prelude.{◌≡◌, ◌↔◌, IsTrue};
ghost use Rattle.cbor4ii_items.specs.Decoding.{Decodes, DecodesIf};
ghost use Rattle.cbor4ii.specs.Elements.{Elements, no_element, element_before, typed_elements};
ghost use Rattle.cbor4ii.specs.Made.{made_from};
ghost use Rattle.cbor4ii.specs.Tuples.{container_head_format, after_format};
ghost use Rattle.cbor4ii.specs.Typed.{input, answer_of, Deserializes};

use crate::serde::de::deserialize::{Deserialize, Typed};
use crate::serde::de::deserializer::Deserializer;
use crate::serde::de::error::DecodeError;
use cbor4ii_items::types::Array;
use cbor4ii_rw::error as core_error;
use cbor4ii_rw::error::Len;
use cbor4ii_rw::read::Source;
use std::alloc::Global;

/// Elements of an array, by what their types promise: nested pairs, in order, as `(A, (B, ()))`.
pub trait TypedElements: Sized {
    // How many they are, and how they are read one after another.
    ghost elements: { Elements Self };

    /// Whether they are so many.
    fn are(count: usize) -> bool
        ensures { IsTrue result ↔ (count ≡ Self.elements.count) };
}

impl TypedElements for () {
    ghost elements = { no_element };

    #[inline(always)]
    fn are(count: usize) -> bool {
        count == 0
    }
}

impl<A: Typed, B: TypedElements> TypedElements for (A, B) {
    ghost elements = { element_before A.promise B.elements };

    #[inline(always)]
    fn are(count: usize) -> bool {
        count > 0 && B::are(count - 1)
    }
}

/// Elements of an array, as they are read.
pub trait DeserializeElements<S: Source>: TypedElements {
    /// Reads each, one after another, with no head before them. The budget is as before, whatever
    /// the answer is.
    ///
    /// # Errors
    ///
    /// Those of an element, with what they leave. What was read before is let go then.
    fn deserialize_each(
        alloc: Global,
        de: &mut Deserializer<S>,
    ) -> Result<Self, DecodeError<S::Error>>
        ensures { DecodesIf Self.elements.exact Self.elements.format
            (input S.view de.old) (input S.view de.new) (answer_of result) };
}

impl<S: Source> DeserializeElements<S> for () {
    #[inline(always)]
    fn deserialize_each(
        alloc: Global,
        de: &mut Deserializer<S>,
    ) -> Result<(), DecodeError<S::Error>> {
        Ok(())
    }
}

impl<S: Source, A: Deserialize<S> + Drop, B: DeserializeElements<S>> DeserializeElements<S>
    for (A, B) {
    #[inline(always)]
    fn deserialize_each(
        alloc: Global,
        de: &mut Deserializer<S>,
    ) -> Result<(A, B), DecodeError<S::Error>> {
        let first = A::deserialize(alloc, de)?;
        match B::deserialize_each(alloc, de) {
            Ok(others) => Ok((first, others)),
            Err(error) => Err(error),
        }
    }
}

impl<S: Source> Deserializer<S> {
    /// A struct that is made of the elements of an array, nested pairs in order. The array has a
    /// definite length, which counts them (RFC 8949 section 3.1, major type 4). It is read as a
    /// pair and a triple are, under one step, which is given back, whatever the answer is.
    ///
    /// # Errors
    ///
    /// - those of `deserialize_tuple` of so many, at the step and the head
    /// - those of each element, with what they leave. What was read before is let go then, and what
    ///   follows it is left
    pub fn deserialize_elements<
        A: Deserialize<S> + Drop,
        B: DeserializeElements<S>,
        T: From<(A, B)>,
    >(&mut self, alloc: Global) -> Result<T, DecodeError<S::Error>>
        ensures { Deserializes
            (made_from T.from_gives (typed_elements (element_before A.promise B.elements)))
            (input S.view self.old) (input S.view self.new) (answer_of result) }
    {
        match take_elements::<S, (A, B)>(alloc, self) {
            Ok(elements) => Ok(T::from(elements)),
            Err(error) => Err(error),
        }
    }
}

#[inline(always)]
fn take_elements<S: Source, V: DeserializeElements<S>>(
    alloc: Global,
    de: &mut Deserializer<S>,
) -> Result<V, DecodeError<S::Error>>
    ensures { Deserializes (typed_elements V.elements)
        (input S.view de.old) (input S.view de.new) (answer_of result) }
{
    if !de.reader.step_in() {
        return Err(DecodeError::Core(core_error::DecodeError::DepthOverflow { name: "tuple" }));
    }
    let outcome = elements_after::<S, V>(alloc, de);
    de.reader.step_out();
    outcome
}

/// Reads a head that counts them, and the elements after it.
#[inline(always)]
fn elements_after<S: Source, V: DeserializeElements<S>>(
    alloc: Global,
    de: &mut Deserializer<S>,
) -> Result<V, DecodeError<S::Error>>
    ensures { DecodesIf V.elements.exact (after_format V.elements.count V.elements.format)
        (input S.view de.old) (input S.view de.new) (answer_of result) }
{
    match take_count_of::<S, V>(&mut de.reader) {
        Ok(()) => V::deserialize_each(alloc, de),
        Err(error) => Err(DecodeError::Core(error)),
    }
}

#[inline(always)]
fn take_count_of<S: Source, V: TypedElements>(
    reader: &mut S,
) -> Result<(), core_error::DecodeError<S::Error>>
    ensures { Decodes (container_head_format V.elements.count)
        (S.view reader.old) (S.view reader.new) result }
{
    match Array::<()>::len(reader) {
        Ok(Some(found)) => {
            if V::are(found) {
                return Ok(());
            }
            Err(core_error::DecodeError::RequireLength {
                name: "tuple",
                found: Len::new(found),
            })
        }
        Ok(None) => Err(core_error::DecodeError::RequireLength {
            name: "tuple",
            found: Len::Indefinite,
        }),
        Err(error) => Err(error),
    }
}
