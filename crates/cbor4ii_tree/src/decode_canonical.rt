//! Values that are encoded in one way, read.
ghost use Rattle.std.specs.Prelude.{◌≡◌, ◌+◌, ◌≤◌, OnOk, true};
ghost use Rattle.cbor4ii_tree.specs.Calls.Asking.{Asks, InValue, WantsOnly};
ghost use Rattle.cbor4ii_tree.specs.Calls.Canonically.{canonical_format, OnlyCanonical};
ghost use Rattle.cbor4ii_tree.specs.Calls.Canonically.{AllCanonical, TakesEncoding, EveryEncoding};
ghost use Rattle.cbor4ii_tree.specs.Calls.Canonically.{PrefixCanonical, DepthCanonical};
ghost use Rattle.cbor4ii_tree.specs.Calls.Canonically.{NeverCanonical};
ghost use Rattle.cbor4ii_tree.specs.Calls.Canonically.{OthersCanonical, ExactCanonical};
ghost use Rattle.cbor4ii_tree.specs.Calls.Canonically.{ValueCanonical};
ghost use Rattle.cbor4ii_tree.specs.Inner.Does.{DoesUnder, value_or_error};
ghost use Rattle.cbor4ii_tree.specs.Basis.Headline.{EofReads};
ghost use Rattle.cbor4ii_tree.specs.Calls.CanonicalRejects.{CanonicalTextRejects};
ghost use Rattle.cbor4ii_tree.specs.Inner.CanonicalCalls.{TextAt};
ghost use Rattle.cbor4ii_items.specs.Decoding.{Decodes};
ghost use Rattle.cbor4ii_items.specs.Shortest.{shortest_format};
ghost use Rattle.cbor4ii_tree.specs.Laws.CanonicalReading.{canonical_lawful};

use crate::accepted::Encodings;
use crate::decode_value::read_outermost;
use crate::leaf::least_size;
use crate::slot::{part, whole};
use crate::value::Value;
use cbor4ii_items::canonical::{canonical_buf, canonical_head};
use cbor4ii_items::decode::{Decodable, Decode};
use cbor4ii_items::{major, marker};
use cbor4ii_rw::error::{DecodeError, StaticStr};
use cbor4ii_rw::read::Source;
use std::alloc::Global;

/// A value that is read from its canonical encoding alone, the one that encoders write (RFC 8949
/// section 4.1). Two that were read are equal exactly where their bytes are. What is written of one
/// that was read, or made by `try_from_value`, is read back as it was.
///
/// Each `Value` has one such encoding, and an integer may be several values: a tag's bytes stay as
/// they are. So `05`, `c2 41 05` and `c2 42 00 05` are all accepted, and each is another value.
#[derive(Debug, PartialEq, Eq, Hash, Drop)]
pub struct Canonical(pub Value);

impl Decodable for Canonical {
    ghost format = { canonical_format };

    fn is_never_empty() -> bool {
        true
    }

    ghost lawful = { canonical_lawful };
}

/// A value is read where the canonical encoding of a value whose steps fit the budget begins the
/// bytes. In it every head is the shortest, lengths are given, and null is `f6`. Steps and memory
/// are those of `Value`. An array or a map takes its step before its head is looked at.
///
/// # Errors
///
/// - `NotCanonical` by "canonical", where no other error comes before: a head that is longer than
///   needed is whole, and what follows it is left. Or the first byte of an indefinite length comes,
///   or `f7`, and what follows the byte is left
/// - those of `Value`, by the same names and with the same fields, which leave the same. `Eof`
///   leaves nothing, and comes only on a proper prefix of an item
impl<S: Source> Decode<S> for Canonical {
    fn decode(alloc: Global, reader: &mut S) -> Result<Canonical, DecodeError<S::Error>>
        ensures decodes { Decodes canonical_format
            (S.view reader.old) (S.view reader.new) result }

        ensures only { OnlyCanonical (S.view reader.old) (S.view reader.new) result }
        ensures all { AllCanonical (S.view reader.old) (S.view reader.new) result }
        ensures encoding { TakesEncoding (S.view reader.old) (S.view reader.new) result }
        ensures every { EveryEncoding (S.view reader.old) (S.view reader.new) result }
        ensures prefix { PrefixCanonical (S.view reader.old) result }
        ensures eof { EofReads (S.view reader.old) (S.view reader.new) result }
        ensures depth { DepthCanonical (S.view reader.old) result }
        ensures never { NeverCanonical (S.view reader.old) result }
        ensures others { OthersCanonical (S.view reader.old) result }
        ensures exact { ExactCanonical (S.view reader.old) (S.view reader.new) result }
        ensures value { ValueCanonical (S.view reader.old) (S.view reader.new) result }
        ensures asks { WantsOnly (Asks (InValue true))
            (S.view reader.old) (S.view reader.new) result }
    {
        let mut failure = None;
        let value = read_outermost::<S, CanonicalEncoding>(alloc, reader, &mut failure);
        Ok(Canonical(whole(value, &mut failure)?))
    }
}

struct CanonicalEncoding;

impl Encodings for CanonicalEncoding {
    ghost canonical = { true };

    #[inline(always)]
    fn accepts_head(argument: u64, size: usize) -> bool {
        size == least_size(argument)
    }

    #[inline(always)]
    fn accepts_simple(first: u8) -> bool {
        first != marker::UNDEFINED
    }

    #[inline(always)]
    fn take_length<S: Source>(
        reader: &mut S,
        major: u8,
        first: u8,
        failure: &mut Option<DecodeError<S::Error>>,
    ) -> Option<Option<usize>> {
        let count = if major == major::ARRAY {
            head_of(reader, "array", major, failure)?
        } else {
            head_of(reader, "map", major, failure)?
        };
        Some(Some(count as usize))
    }

    #[inline(always)]
    fn take_tag<S: Source>(
        reader: &mut S,
        failure: &mut Option<DecodeError<S::Error>>,
    ) -> Option<u64> {
        head_of(reader, "tag", major::TAG, failure)
    }

    #[inline(always)]
    fn read_leaf<S: Source>(
        alloc: Global,
        reader: &mut S,
        first: u8,
    ) -> Result<Value, DecodeError<S::Error>> {
        match first / 32 {
            major::UNSIGNED => Ok(Value::Integer(canonical_head("u64", 0, reader)? as i128)),
            major::NEGATIVE => {
                let number = canonical_head("-u64", 1, reader)?;
                Ok(Value::Integer(-1 - number as i128))
            }
            major::BYTES => Ok(Value::Bytes(canonical_buf(alloc, "bytes", 2, reader)?)),
            _ => Ok(Value::Text(read_text(alloc, reader)?)),
        }
    }
}

/// It stays out of line, as `read_alone`.
#[inline(never)]
fn head_of<S: Source>(
    reader: &mut S,
    name: StaticStr,
    major: u8,
    failure: &mut Option<DecodeError<S::Error>>,
) -> Option<u64>
    ensures { Decodes (shortest_format name.now major)
        (S.view reader.old) (S.view reader.new) (value_or_error result failure.new) }
{
    part(canonical_head(name, major, reader), failure)
}

fn read_text<S: Source>(alloc: Global, reader: &mut S) -> Result<String, DecodeError<S::Error>>
    ensures does { DoesUnder TextAt CanonicalTextRejects
        (S.view reader.old) (S.view reader.new) result }
    ensures progress { OnOk result ((S.view reader.new).bound + 1 ≤ (S.view reader.old).bound) }
{
    match String::from_utf8(canonical_buf(alloc, "str", 3, reader)?) {
        Ok(text) => Ok(text),
        Err(_) => Err(DecodeError::RequireUtf8 { name: "str" }),
    }
}
