//! Tagged values, and items of the codec. A value of the tree with a tag, which has no item, and
//! what stands before the place where it is rejected.
ghost use Rattle.cbor4ii_ser.specs.Tagged.{tagged_encoding};

use crate::slot::pushes;
use crate::typed::{Put, Rejected, Typed};
use cbor4ii_items::encode::Encode;
use cbor4ii_items::types::{Bytes, F64, Nothing, Simple, Tag};
use cbor4ii_rw::buf_writer::BufWriter;
use cbor4ii_rw::error::{StaticStr, TryReserveError};
use cbor4ii_rw::write::Write;
use cbor4ii_ser::error::EncodeError;
use cbor4ii_ser::serialize::Serialize;
use cbor4ii_ser::serializer::Serializer;
use cbor4ii_tree::Value;
use cbor4ii_vectors::rows::writes;
use std::alloc::{AllocError, Global};
use std::test::Fail;

/// The words by which a tag is rejected.
pub const TAG: StaticStr = "serialization Tag via serde is not supported";

/// A value with a tag.
pub fn tagged(alloc: Global) -> Result<Value, AllocError> {
    Ok(Value::Tag(1, Box::new(alloc, Value::Null)?))
}

/// The answer is that a tag is rejected.
pub fn is_rejected<T: Drop>(answer: Result<T, EncodeError<TryReserveError>>) -> Result<(), Fail> {
    match answer {
        Err(EncodeError::Custom(words)) if words == TAG => Ok(()),
        Err(EncodeError::Core(error)) => Err(Fail::from(error)),
        _ => Err(Fail::new("not rejected by its tag")),
    }
}

/// These bytes were written.
pub fn has_written(ser: Serializer<BufWriter>, bytes: &[u8]) -> Result<(), Fail> {
    let written = ser.into_inner();
    if written.buffer() == bytes {
        return Ok(());
    }
    Err(Fail::new(format_args!("{written:?} in the place of {bytes:?}")))
}

/// What the calls write is rejected by a tag, and these bytes stand before that.
pub fn is_rejected_after<T: Put + Drop>(alloc: Global, calls: T, bytes: &[u8]) -> Result<(), Fail> {
    writes(alloc, &Rejected(calls, TAG), bytes)?;
    Ok(())
}

/// A tag of this number before a value.
#[derive(Drop)]
struct WithTag<T>(u64, T);

impl<T: Serialize> Put for WithTag<T> {
    fn put<W: Write>(&self, ser: &mut Serializer<W>) -> Result<(), EncodeError<W::Error>> {
        ser.serialize_tagged(self.0, &self.1)
    }
}

// These calls write these bytes, in pushes of so many, to a writer of either kind.
fn writes_in<T: Put + Drop>(
    alloc: Global,
    calls: T,
    bytes: &[u8],
    lengths: &[usize],
) -> Result<(), Fail> {
    pushes(alloc, &calls, lengths)?;
    writes(alloc, &Typed(calls), bytes)?;
    Ok(())
}

// Of RFC 8949, Appendix A.
#[test]
fn tags_before_values(rt: HostRuntime) -> Result<(), Fail> {
    let alloc = rt.alloc();
    let time = WithTag(1, 1363896240u32);
    writes_in(alloc, time, b"\xc1\x1a\x51\x4b\x67\xb0", &[1, 5])?;
    let time = WithTag(1, F64(0x41d4_52d9_ec20_0000));
    writes_in(
        alloc,
        time,
        b"\xc1\xfb\x41\xd4\x52\xd9\xec\x20\x00\x00",
        &[1, 9],
    )?;
    let base16 = WithTag(23, Bytes(b"\x01\x02\x03\x04".as_slice()));
    writes_in(alloc, base16, b"\xd7\x44\x01\x02\x03\x04", &[1, 1, 4])?;
    let uri = WithTag(32, "http://www.example.com");
    writes_in(
        alloc,
        uri,
        b"\xd8\x20\x76http://www.example.com",
        &[2, 1, 22],
    )
}

// Self-described CBOR (RFC 8949 section 3.4.6), and the least and the greatest numbers of a width.
#[test]
fn tags_of_each_width(rt: HostRuntime) -> Result<(), Fail> {
    let alloc = rt.alloc();
    writes_in(alloc, WithTag(0, ()), b"\xc0\x80", &[1, 1])?;
    writes_in(alloc, WithTag(24, ()), b"\xd8\x18\x80", &[2, 1])?;
    writes_in(alloc, WithTag(255, ()), b"\xd8\xff\x80", &[2, 1])?;
    writes_in(alloc, WithTag(256, ()), b"\xd9\x01\x00\x80", &[3, 1])?;
    writes_in(alloc, WithTag(55799, ()), b"\xd9\xd9\xf7\x80", &[3, 1])?;
    let four = WithTag(0x1_0000, ());
    writes_in(alloc, four, b"\xda\x00\x01\x00\x00\x80", &[5, 1])?;
    let eight = WithTag(u64::MAX, ());
    writes_in(
        alloc,
        eight,
        b"\xdb\xff\xff\xff\xff\xff\xff\xff\xff\x80",
        &[9, 1],
    )
}

/// A number with the tag 256.
#[derive(Drop)]
struct Marked(u8);

impl Serialize for Marked {
    ghost encoding = { λ v. tagged_encoding 256 (⟦<u8 as Serialize>⟧.encoding v.0) };

    fn serialize<W: Write>(&self, ser: &mut Serializer<W>) -> Result<(), EncodeError<W::Error>> {
        ser.serialize_tagged(256, &self.0)
    }
}

#[test]
fn a_tag_in_a_tag(rt: HostRuntime) -> Result<(), Fail> {
    let twice = WithTag(24, Marked(7));
    writes_in(rt.alloc(), twice, b"\xd8\x18\xd9\x01\x00\x07", &[2, 3, 1])
}

#[test]
fn a_head_stays_before_a_value_that_is_rejected(rt: HostRuntime) -> Result<(), Fail> {
    let alloc = rt.alloc();
    is_rejected_after(alloc, WithTag(256, tagged(alloc)?), b"\xd9\x01\x00")
}

/// An item of the codec, by the call for it.
#[derive(Drop)]
struct Item<T>(T);

impl<T: Encode> Put for Item<T> {
    fn put<W: Write>(&self, ser: &mut Serializer<W>) -> Result<(), EncodeError<W::Error>> {
        ser.serialize_item(&self.0)
    }
}

#[test]
fn items_of_the_codec(rt: HostRuntime) -> Result<(), Fail> {
    let alloc = rt.alloc();
    writes_in(alloc, Item(Simple(16)), b"\xf0", &[1])?;
    writes_in(
        alloc,
        Item(Tag(1, F64(0x41d4_52d9_ec20_0000))),
        b"\xc1\xfb\x41\xd4\x52\xd9\xec\x20\x00\x00",
        &[1, 9],
    )?;
    writes_in(
        alloc,
        Item(Tag(23, Bytes(b"\x01\x02\x03\x04".as_slice()))),
        b"\xd7\x44\x01\x02\x03\x04",
        &[1, 1, 4],
    )?;
    writes_in(alloc, Item(Nothing), b"", &[])
}
