//! Rows of tagged values, and of items of the codec as typed values.
ghost use Rattle.std.specs.Prelude.{◌≡◌, ◌<◌, ◌^◌, ℕ, codes};
ghost use Rattle.std.proofs.Common.{refl};
ghost use Rattle.cbor4ii_items.specs.Decoding.{format_by};
ghost use Rattle.cbor4ii_items.specs.Head.{eight};
ghost use Rattle.cbor4ii_items.specs.Numbers.{argument_format, shortest_head};
ghost use Rattle.cbor4ii_items.specs.Laws.Arguments.{argument_lawful, zero_small};
ghost use Rattle.cbor4ii_items.specs.Laws.Formats.{lawful_by};
ghost use Rattle.cbor4ii_items.specs.Laws.NumbersBack.{argument_back};
ghost use Rattle.cbor4ii_ser.specs.OneItem.{canonical};
ghost use Rattle.cbor4ii_ser.specs.Laws.OneItem.{unsigned_is_item};
ghost use Rattle.cbor4ii.specs.Codec.{codec_of};
ghost use Rattle.cbor4ii.specs.CodecAgrees.{as_described, its_codec};
ghost use Rattle.cbor4ii.specs.CodecItems.{tagged_codec, item_codec};

use crate::typed::{
    Answer, BothShown, Got, RowShown, RowShownWithin, Take, comes_back, tries_shown,
};
use cbor4ii::dec::{Decodable, Decode};
use cbor4ii::enc::{Encode, Write};
use cbor4ii::serde::{
    AsDescribed, DecodeError, Described, Deserialize, Deserializer, EncodeError, Serialize,
    Serializer, Typed, described_values_are_read_back,
};
use cbor4ii_rw::error as core_error;
use cbor4ii_rw::read::Source;
use cbor4ii_vectors::{eof, mismatch, table};
use std::alloc::Global;
use std::test::Fail;

/// A value with the tag 24.
#[derive(Debug, PartialEq, Drop)]
struct Under<T>(T);

impl<T: AsDescribed> Serialize for Under<T> {
    ghost encoding = { ⟦<Under<T> as Described>⟧.codec.encoding };

    fn serialize<W: Write>(&self, ser: &mut Serializer<W>) -> Result<(), EncodeError<W::Error>> {
        ser.serialize_tagged(24, &self.0)
    }
}

impl<T> From<T> for Under<T> {
    ghost from_gives = { λ v u. u ≡ record { 0 = v } };

    fn from(value: T) -> Under<T> {
        Under(value)
    }
}

impl<T: AsDescribed> Typed for Under<T> {
    ghost promise = { ⟦<Under<T> as Described>⟧.codec.promise };
}

impl<S: Source, T: AsDescribed + Deserialize<S>> Deserialize<S> for Under<T> {
    fn deserialize(
        alloc: Global,
        de: &mut Deserializer<S>,
    ) -> Result<Under<T>, DecodeError<S::Error>> {
        de.deserialize_tagged::<T, Under<T>>(alloc, 24)
    }
}

impl<T: AsDescribed> Described for Under<T> {
    ghost codec = { codec_of (λ u. u.0) (λ value. record { 0 = value }) (λ u. refl)
        (tagged_codec 24 (its_codec T.promise T.encoding T.codec) refl) };
}

impl<T: AsDescribed> AsDescribed for Under<T> {
    ghost agrees = { as_described (T.agrees, tt) T.agrees.is };
}

impl Take for Under<u8> {
    fn take<S: Source>(alloc: Global, de: &mut Deserializer<S>) -> Got<Self, S> {
        Self::deserialize(alloc, de)
    }
}

const NUMBERS: &[BothShown] = table! {
    (b"\xd8\x18\x05", "Is(Under(5))"),
};

// A head of any width, of this number and of others.
const NUMBERS_READ: &[RowShown] = table! {
    (b"\xd9\x00\x18\x05\x00", Ok("Is(Under(5))"), b"\x00"),
    (b"\xda\x00\x00\x00\x18\x05", Ok("Is(Under(5))"), b""),
    (b"\xdb\x00\x00\x00\x00\x00\x00\x00\x18\x05", Ok("Is(Under(5))"), b""),
    (b"\xd7\x05\x00", Ok("Custom(\"expected another tag\")"), b"\x05\x00"),
    (b"\xd8\x19\x05", Ok("Custom(\"expected another tag\")"), b"\x05"),
    (b"\xd9\x01\x18\x05", Ok("Custom(\"expected another tag\")"), b"\x05"),
    (b"\xdb\x00\x00\x00\x01\x00\x00\x00\x18", Ok("Custom(\"expected another tag\")"), b""),
    (b"\x18\x18\x05", Err(mismatch!("tag", 0x18)), b"\x18\x05"),
    (b"\xdc\x05", Err(mismatch!("tag", 0xdc)), b"\x05"),
    (b"\xff", Err(mismatch!("tag", 0xff)), b""),
    (b"\xd8", Err(eof!("tag", 1)), b""),
    (b"\xdb\x00\x00", Err(eof!("tag", 8)), b""),
    (b"\xd8\x18\x20\x00", Err(mismatch!("u8", 0x20)), b"\x00"),
};

// The tag takes no step.
const NUMBERS_WITHIN: &[RowShownWithin] = table! {
    (b"\xd8\x18\x05", 0, Ok("Is(Under(5))"), b""),
};

#[test]
fn tagged_numbers(rt: HostRuntime) -> Result<(), Fail> {
    tries_shown::<Answer<Under<u8>>>(rt.alloc(), NUMBERS, NUMBERS_READ, NUMBERS_WITHIN)
}

impl Take for Under<Under<bool>> {
    fn take<S: Source>(alloc: Global, de: &mut Deserializer<S>) -> Got<Self, S> {
        Self::deserialize(alloc, de)
    }
}

const TWICE: &[BothShown] = table! {
    (b"\xd8\x18\xd8\x18\xf5", "Is(Under(Under(true)))"),
};

const TWICE_READ: &[RowShown] = table! {
    (b"\xd8\x18\xf5", Err(mismatch!("tag", 0xf5)), b""),
    (b"\xd8\x18\xc1\xf5", Ok("Custom(\"expected another tag\")"), b"\xf5"),
};

#[test]
fn a_tag_in_a_tag(rt: HostRuntime) -> Result<(), Fail> {
    tries_shown::<Answer<Under<Under<bool>>>>(rt.alloc(), TWICE, TWICE_READ, &[])
}

#[test]
fn tagged_values_in_others(rt: HostRuntime) -> Result<(), Fail> {
    let alloc = rt.alloc();
    let texts = b"\x82\xd8\x18\x61a\xd8\x18\x60";
    comes_back::<Vec<Under<String>>>(alloc, texts, "[Under(\"a\"), Under(\"\")]")?;
    comes_back::<Option<Under<u8>>>(alloc, b"\xd8\x18\x05", "Some(Under(5))")?;
    comes_back::<Under<Option<u8>>>(alloc, b"\xd8\x18\xf6", "Under(None)")
}

/// A number that is encoded and decoded as an item, and so as a typed value.
#[derive(Debug, PartialEq, Drop)]
struct Kept(u64);

impl Decodable for Kept {
    ghost format = { format_by (λ k. k.0) (argument_format (codes "u64") 0 8) };

    fn is_never_empty() -> bool {
        true
    }

    ghost lawful = { lawful_by (λ k. k.0) (argument_format (codes "u64") 0 8)
        (argument_lawful (codes "u64") 0 8 zero_small) };
}

impl<S: Source> Decode<S> for Kept {
    fn decode(alloc: Global, reader: &mut S) -> Result<Kept, core_error::DecodeError<S::Error>> {
        match u64::decode(alloc, reader) {
            Ok(number) => Ok(Kept(number)),
            Err(error) => Err(error),
        }
    }
}

impl Encode for Kept {
    ghost bytes = { λ k. shortest_head 0 k.0 };

    fn encode<W: Write>(&self, writer: &mut W) -> Result<(), core_error::EncodeError<W::Error>> {
        self.0.encode(writer)
    }
}

impl Serialize for Kept {
    ghost encoding = { ⟦<Kept as Described>⟧.codec.encoding };

    fn serialize<W: Write>(&self, ser: &mut Serializer<W>) -> Result<(), EncodeError<W::Error>> {
        ser.serialize_item(self)
    }
}

impl Typed for Kept {
    ghost promise = { ⟦<Kept as Described>⟧.codec.promise };
}

impl<S: Source> Deserialize<S> for Kept {
    fn deserialize(alloc: Global, de: &mut Deserializer<S>) -> Result<Kept, DecodeError<S::Error>> {
        de.deserialize_item(alloc)
    }
}

impl Described for Kept {
    ghost codec = { item_codec ⟦<Kept as Decodable>⟧.format ⟦<Kept as Encode>⟧.bytes
        (λ k. k.0 < 2 ^ 64) (λ k. 0) (record {
          some = refl;
          lawful = lawful_by (λ k. k.0) (argument_format (codes "u64") 0 8)
              (argument_lawful (codes "u64") 0 8 zero_small);
          back = λ k. argument_back 0 eight k.0;
          one = λ k. unsigned_is_item canonical k.0;
        }) };
}

impl AsDescribed for Kept {
    ghost agrees = { as_described tt refl };
}

#[test]
fn an_item_that_is_a_typed_value(rt: HostRuntime) -> Result<(), Fail> {
    let alloc = rt.alloc();
    comes_back::<Kept>(alloc, b"\x18\x18", "Kept(24)")?;
    comes_back::<Vec<Under<Kept>>>(alloc, b"\x81\xd8\x18\x17", "[Under(Kept(23))]")
}

#[test]
fn the_laws_of_tagged_values_are_called(rt: HostRuntime) {
    described_values_are_read_back::<Under<Vec<Kept>>>();
}
