//! A step, and then the head of what is read part by part.
ghost use Rattle.std.specs.Prelude.{OnOk, IfOk, codes};
ghost use Rattle.cbor4ii_items.specs.Lengths.{length_format};
ghost use Rattle.cbor4ii.specs.declared.serde.de.accessor.Left.TheVariants.{Definite};
ghost use Rattle.cbor4ii.specs.Accessing.{OpensParts, RejectedAs};
ghost use Rattle.cbor4ii.specs.Stepped.{stepped_format};
ghost use Rattle.cbor4ii.specs.Tuples.{container_head_format};

use crate::serde::de::accessor::Left;
use crate::serde::de::tuples::take_count;
use cbor4ii_items::types::{Array, Map};
use cbor4ii_rw::error::DecodeError;
use cbor4ii_rw::read::Source;

/// Where the head is rejected, the step is given back, here and below.
pub(crate) fn begin_array<S: Source>(reader: &mut S) -> Result<Left, DecodeError<S::Error>>
    ensures opened { IfOk result (λ left.
        OpensParts 4 (S.view reader.old) (S.view reader.new) left) }
    ensures rejected { RejectedAs
        (stepped_format (codes "seq") (length_format (codes "array") 4))
        (S.view reader.old) (S.view reader.new) result }
{
    if !reader.step_in() {
        return Err(DecodeError::DepthOverflow { name: "seq" });
    }
    match Array::<()>::len(reader) {
        Ok(Some(count)) => Ok(Left::Definite(count)),
        Ok(None) => Ok(Left::Indefinite),
        Err(error) => {
            reader.step_out();
            Err(error)
        }
    }
}

pub(crate) fn begin_map<S: Source>(reader: &mut S) -> Result<Left, DecodeError<S::Error>>
    ensures opened { IfOk result (λ left.
        OpensParts 5 (S.view reader.old) (S.view reader.new) left) }
    ensures rejected { RejectedAs
        (stepped_format (codes "map") (length_format (codes "map") 5))
        (S.view reader.old) (S.view reader.new) result }
{
    if !reader.step_in() {
        return Err(DecodeError::DepthOverflow { name: "map" });
    }
    match Map::<()>::len(reader) {
        Ok(Some(count)) => Ok(Left::Definite(count)),
        Ok(None) => Ok(Left::Indefinite),
        Err(error) => {
            reader.step_out();
            Err(error)
        }
    }
}

pub(crate) fn begin_tuple<S: Source>(
    reader: &mut S,
    len: usize,
) -> Result<(), DecodeError<S::Error>>
    ensures opened { OnOk result
        (OpensParts 4 (S.view reader.old) (S.view reader.new) (Definite len)) }
    ensures rejected { RejectedAs (stepped_format (codes "tuple") (container_head_format len))
        (S.view reader.old) (S.view reader.new) result }
{
    if !reader.step_in() {
        return Err(DecodeError::DepthOverflow { name: "tuple" });
    }
    match take_count(reader, len) {
        Ok(()) => Ok(()),
        Err(error) => {
            reader.step_out();
            Err(error)
        }
    }
}
