//! What is read under one step more.
ghost use Rattle.cbor4ii_items.specs.Decoding.{DecodesIf};
ghost use Rattle.cbor4ii.specs.Stepped.{stepped_format};
ghost use Rattle.cbor4ii.specs.Typed.{input, answer_of};
ghost use Rattle.cbor4ii.specs.TypedParts.{part_of};

use crate::serde::de::deserialize::Deserialize;
use crate::serde::de::deserializer::Deserializer;
use crate::serde::de::error::DecodeError;
use cbor4ii_rw::error as core_error;
use cbor4ii_rw::error::StaticStr;
use cbor4ii_rw::read::Source;
use std::alloc::Global;

#[inline(always)]
pub(crate) fn under_step<S: Source, T: Deserialize<S>>(
    alloc: Global,
    de: &mut Deserializer<S>,
    name: StaticStr,
) -> Result<T, DecodeError<S::Error>>
    ensures { DecodesIf T.promise.exact (stepped_format name.now (part_of T.promise))
        (input S.view de.old) (input S.view de.new) (answer_of result) }
{
    if !de.reader.step_in() {
        return Err(DecodeError::Core(core_error::DecodeError::DepthOverflow { name }));
    }
    let outcome = T::deserialize(alloc, de);
    de.reader.step_out();
    outcome
}
