//! Pairs and triples.
ghost use Rattle.std.specs.Prelude.{◌&&◌};
ghost use Rattle.cbor4ii_items.specs.Decoding.{Decodes, DecodesIf};
ghost use Rattle.cbor4ii.specs.Typed.{input, answer_of};
ghost use Rattle.cbor4ii.specs.Tuples.{container_head_format, after_format};
ghost use Rattle.cbor4ii.specs.TypedParts.{two_of, three_of, typed_pair, typed_triple};

use crate::serde::de::deserialize::{Deserialize, Typed};
use crate::serde::de::deserializer::Deserializer;
use crate::serde::de::error::DecodeError;
use cbor4ii_items::types::Array;
use cbor4ii_rw::error as core_error;
use cbor4ii_rw::error::Len;
use cbor4ii_rw::read::Source;
use std::alloc::Global;

impl<A: Typed, B: Typed> Typed for (A, B) {
    ghost promise = { typed_pair A.promise B.promise };
}

/// An array of a definite length of 2, under one step, which is given back.
///
/// # Errors
///
/// - those of `deserialize_tuple` of 2, at the step and the head
/// - those of each part, with what they leave
impl<S: Source, A: Deserialize<S> + Drop, B: Deserialize<S>> Deserialize<S> for (A, B) {
    #[inline(always)]
    fn deserialize(
        alloc: Global,
        de: &mut Deserializer<S>,
    ) -> Result<(A, B), DecodeError<S::Error>> {
        if !de.reader.step_in() {
            return Err(DecodeError::Core(core_error::DecodeError::DepthOverflow { name: "tuple" }));
        }
        let outcome = pair_after::<S, A, B>(alloc, de);
        de.reader.step_out();
        outcome
    }
}

#[inline(always)]
fn pair_after<S: Source, A: Deserialize<S> + Drop, B: Deserialize<S>>(
    alloc: Global,
    de: &mut Deserializer<S>,
) -> Result<(A, B), DecodeError<S::Error>>
    ensures { DecodesIf (A.promise.exact && B.promise.exact)
        (after_format 2 (two_of A.promise B.promise))
        (input S.view de.old) (input S.view de.new) (answer_of result) }
{
    match take_count(&mut de.reader, 2) {
        Ok(()) => two_parts::<S, A, B>(alloc, de),
        Err(error) => Err(DecodeError::Core(error)),
    }
}

#[inline(always)]
pub(crate) fn two_parts<S: Source, A: Deserialize<S> + Drop, B: Deserialize<S>>(
    alloc: Global,
    de: &mut Deserializer<S>,
) -> Result<(A, B), DecodeError<S::Error>>
    ensures { DecodesIf (A.promise.exact && B.promise.exact) (two_of A.promise B.promise)
        (input S.view de.old) (input S.view de.new) (answer_of result) }
{
    let first = A::deserialize(alloc, de)?;
    match B::deserialize(alloc, de) {
        Ok(second) => Ok((first, second)),
        Err(error) => Err(error),
    }
}

#[inline(always)]
pub(crate) fn take_count<S: Source>(
    reader: &mut S,
    count: usize,
) -> Result<(), core_error::DecodeError<S::Error>>
    ensures { Decodes (container_head_format count) (S.view reader.old) (S.view reader.new) result }
{
    match Array::<()>::len(reader) {
        Ok(Some(found)) => {
            if found == count {
                return Ok(());
            }
            Err(core_error::DecodeError::RequireLength {
                name: "tuple",
                found: Len::new(found),
            })
        }
        Ok(None) => Err(core_error::DecodeError::RequireLength {
            name: "tuple",
            found: Len::Indefinite,
        }),
        Err(error) => Err(error),
    }
}

impl<A: Typed, B: Typed, C: Typed> Typed for (A, B, C) {
    ghost promise = { typed_triple A.promise B.promise C.promise };
}

/// An array of a definite length of 3, read as a pair is, with its errors.
impl<S: Source, A: Deserialize<S> + Drop, B: Deserialize<S> + Drop, C: Deserialize<S>> Deserialize<
    S,
> for (A, B, C) {
    #[inline(always)]
    fn deserialize(
        alloc: Global,
        de: &mut Deserializer<S>,
    ) -> Result<(A, B, C), DecodeError<S::Error>> {
        if !de.reader.step_in() {
            return Err(DecodeError::Core(core_error::DecodeError::DepthOverflow { name: "tuple" }));
        }
        let outcome = triple_after::<S, A, B, C>(alloc, de);
        de.reader.step_out();
        outcome
    }
}

#[inline(always)]
fn triple_after<S: Source, A: Deserialize<S> + Drop, B: Deserialize<S> + Drop, C: Deserialize<S>>(
    alloc: Global,
    de: &mut Deserializer<S>,
) -> Result<(A, B, C), DecodeError<S::Error>>
    ensures { DecodesIf (A.promise.exact && (B.promise.exact && C.promise.exact))
        (after_format 3 (three_of A.promise B.promise C.promise))
        (input S.view de.old) (input S.view de.new) (answer_of result) }
{
    match take_count(&mut de.reader, 3) {
        Ok(()) => three_parts::<S, A, B, C>(alloc, de),
        Err(error) => Err(DecodeError::Core(error)),
    }
}

#[inline(always)]
fn three_parts<S: Source, A: Deserialize<S> + Drop, B: Deserialize<S> + Drop, C: Deserialize<S>>(
    alloc: Global,
    de: &mut Deserializer<S>,
) -> Result<(A, B, C), DecodeError<S::Error>>
    ensures { DecodesIf (A.promise.exact && (B.promise.exact && C.promise.exact))
        (three_of A.promise B.promise C.promise)
        (input S.view de.old) (input S.view de.new) (answer_of result) }
{
    let first = A::deserialize(alloc, de)?;
    match two_parts::<S, B, C>(alloc, de) {
        Ok((second, third)) => Ok((first, second, third)),
        Err(error) => Err(error),
    }
}
