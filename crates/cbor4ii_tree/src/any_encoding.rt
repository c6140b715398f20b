//! What is read as a value: each of its encodings.
ghost use Rattle.std.specs.Prelude.{◌≡◌, ◌⊎◌, ◌*◌, ◌+◌, false};
ghost use Rattle.cbor4ii_tree.specs.Calls.Asking.{Never};
ghost use Rattle.cbor4ii_tree.specs.Inner.Does.{Anything, DoesUnder, Gives, value_or_error};
ghost use Rattle.cbor4ii_tree.specs.Inner.Valuing.{RejectsMajor, TakesLength};

use crate::accepted::Encodings;
use crate::slot::part;
use crate::value::Value;
use cbor4ii_items::decode::Decode;
use cbor4ii_items::major;
use cbor4ii_items::types::{Array, Bytes, Map, Negative, Tag};
use cbor4ii_rw::error::DecodeError;
use cbor4ii_rw::read::Source;
use std::alloc::Global;

pub(crate) struct AnyEncoding;

impl Encodings for AnyEncoding {
    ghost canonical = { false };

    #[inline(always)]
    fn accepts_head(_argument: u64, _size: usize) -> bool {
        true
    }

    #[inline(always)]
    fn accepts_simple(_first: u8) -> bool {
        true
    }

    #[inline(always)]
    fn take_length<S: Source>(
        reader: &mut S,
        major: u8,
        first: u8,
        failure: &mut Option<DecodeError<S::Error>>,
    ) -> Option<Option<usize>> {
        if first == major * 32 + 31 {
            reader.advance(1);
            return Some(None);
        }
        length(reader, major, failure)
    }

    #[inline(never)]
    fn take_tag<S: Source>(
        reader: &mut S,
        failure: &mut Option<DecodeError<S::Error>>,
    ) -> Option<u64> {
        part(Tag::tag(reader), failure)
    }

    #[inline(always)]
    fn read_leaf<S: Source>(
        alloc: Global,
        reader: &mut S,
        first: u8,
    ) -> Result<Value, DecodeError<S::Error>> {
        match first / 32 {
            major::UNSIGNED => Ok(Value::Integer(u64::decode(alloc, reader)? as i128)),
            major::NEGATIVE => {
                let number = Negative::<u64>::decode(alloc, reader)?;
                Ok(Value::Integer(-1 - number.0 as i128))
            }
            major::BYTES => Ok(Value::Bytes(Bytes::<Vec<u8>>::decode(alloc, reader)?.0)),
            _ => Ok(Value::Text(String::decode(alloc, reader)?)),
        }
    }
}

/// It stays out of line, as `read_alone`.
#[inline(never)]
fn length<S: Source>(
    reader: &mut S,
    major: u8,
    failure: &mut Option<DecodeError<S::Error>>,
) -> Option<Option<usize>>
    requires { (major ≡ 4) ⊎ (major ≡ 5) }
    ensures { Gives Never Anything (DoesUnder (TakesLength false major) (RejectsMajor false major))
        (S.view reader.old) (S.view reader.new) (value_or_error result failure.new) }
{
    if major == major::ARRAY {
        return part(Array::len(reader), failure);
    }
    part(Map::len(reader), failure)
}
