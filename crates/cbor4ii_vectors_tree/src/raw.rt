//! Items that are kept as their bytes and lent by the reader.
//!
//! Rows that hold of `BoxedRawValue` alike are tried of both here. What skipping rejects is
//! rejected of both in `decode_value/errors.rt`.
use crate::ignored::ITEMS;
use crate::plain_raw::{ITEM, Kept, MAP};
use cbor4ii_items::decode::Decode;
use cbor4ii_items::types::Map;
use cbor4ii_rw::error::{DecodeError, Len, WholeError};
use cbor4ii_rw::segment_reader::SegmentReader;
use cbor4ii_rw::slice_reader::SliceReader;
use cbor4ii_tree::{RawValue, Value};
use cbor4ii_vectors::readers::{Counting, TestReader};
use cbor4ii_vectors::rows::{RowWithin, Trial, Want, leaves, writes_in};
use cbor4ii_vectors::{eof, no_step, require_borrowed, table};
use std::alloc::Global;
use std::test::Fail;

const NOT_LENT: &str = require_borrowed!("raw-value");

const CUT_OFF: &str = eof!("ignored-any", 1);

const NO_STEP: &str = no_step!("ignored-any");

const FAILED: &str = "Read(Failure)";

// With a fault at each fill too.
fn keeps(alloc: Global, bytes: &'static [u8], want: Want<&[u8]>, rest: &[u8]) -> Result<(), Fail> {
    for kept in [Kept::Lent, Kept::Copied] {
        let want = kept.wanted(alloc, want)?;
        Trial::new(&kept, alloc, bytes, &want, rest).lent_and_alone()?;
    }
    Ok(())
}

#[test]
fn lent_and_copied(rt: HostRuntime) -> Result<(), Fail> {
    let alloc = rt.alloc();
    keeps(alloc, b"\x82\x01\x02\x03", Ok(b"\x82\x01\x02"), b"\x03")?;
    keeps(alloc, b"\x82\x01", Err(CUT_OFF), b"\x82\x01")?;
    keeps(alloc, b"", Err(CUT_OFF), b"")?;
    keeps_items(alloc, ITEMS)
}

fn keeps_items(alloc: Global, items: &[&'static [u8]]) -> Result<(), Fail> {
    for item in items {
        keeps(alloc, item, Ok(*item), b"")?;
        is_lent(alloc, item)?;
        lends_segment(alloc, item)?;
    }
    Ok(())
}

fn is_lent(alloc: Global, item: &[u8]) -> Result<(), Fail> {
    let lent = RawValue::decode(alloc, &mut SliceReader::new(item))?;
    if lent.as_bytes() == item {
        return Ok(());
    }
    Err(Fail::new(format_args!("{lent:?} is lent of {item:?}")))
}

fn lends_segment(alloc: Global, item: &'static [u8]) -> Result<(), Fail> {
    let want = Kept::Lent.wanted(alloc, Ok(item))?;
    let segments = Vec::from_slice(alloc, &[item, b"\x00".as_slice()])?.leak();
    let trial = Trial::new(&Kept::Lent, alloc, b"\x00", &want, b"\x00");
    trial.over(SegmentReader::new(segments))
}

#[test]
fn within_a_limit(rt: HostRuntime) -> Result<(), Fail> {
    for kept in [Kept::Lent, Kept::Copied] {
        let want = kept.wanted(rt.alloc(), Ok(b"\x81\x00"))?;
        let trial = Trial::new(&kept, rt.alloc(), b"\x81\x00", &want, b"");
        trial.over(SliceReader::with_limit(b"\x81\x00", 2))?;
    }
    Ok(())
}

// A prefix of an item that ends too early is the end of the input, and nothing moves.
#[test]
fn prefixes_of_items(rt: HostRuntime) -> Result<(), Fail> {
    lends_no_prefixes(rt.alloc(), ITEMS)
}

fn lends_no_prefixes(alloc: Global, items: &[&[u8]]) -> Result<(), Fail> {
    for item in items {
        for shown in 0..item.len() {
            lends_no_prefix(alloc, &item[..shown])?;
        }
    }
    Ok(())
}

fn lends_no_prefix(alloc: Global, prefix: &[u8]) -> Result<(), Fail> {
    let mut reader = SliceReader::new(prefix);
    let got = RawValue::decode(alloc, &mut reader);
    if matches!(got, Err(DecodeError::Eof { .. })) && reader.remaining() == prefix {
        return Ok(());
    }
    Err(Fail::new(format_args!("{got:?} of {prefix:?}")))
}

// An array of RFC 8949, appendix A, and items that skipping alone takes.
const ALONE: &[&[u8]] = table! {
    b"\x9f\x01\x82\x02\x03\x82\x04\x05\xff",
    b"\x5f\x80\xff",
    b"\x61\xff",
};

#[test]
fn an_item_from_bytes(rt: HostRuntime) -> Result<(), Fail> {
    for item in ALONE {
        assert_eq!(rt; RawValue::new(item)?.as_bytes(), *item);
    }
    assert_eq!(rt;
        RawValue::new(b"\x01\x02\x03").err(),
        Some(WholeError::Trailing(2))
    );
    let cut = DecodeError::Eof {
        name: "ignored-any",
        expect: Len::Small(1),
    };
    assert_eq!(rt;
        RawValue::new(b"\x82\x01").err(),
        Some(WholeError::Decode(cut))
    );
    Ok(())
}

#[test]
fn an_item_that_is_no_value(rt: HostRuntime) -> Result<(), Fail> {
    let alloc = rt.alloc();
    assert_eq!(rt;
        RawValue::new(b"\x18\x05")?.to_value(alloc)?,
        Value::Integer(5)
    );
    let raw = RawValue::new(b"\x61\xff")?;
    let wanted = WholeError::Decode(DecodeError::RequireUtf8 { name: "str" });
    assert_eq!(rt; raw.to_value(alloc).err(), Some(wanted));
    Ok(())
}

const OF_SHORT_BYTES: &[(&[u8], &str)] = table! {
    (b"\x00", NOT_LENT),
    (b"", CUT_OFF),
};

// Bytes that do not live as long as the input are rejected, and before any step.
#[test]
fn short_bytes(rt: HostRuntime) -> Result<(), Fail> {
    keeps_no_short_bytes(rt.alloc(), OF_SHORT_BYTES)?;
    lends_no_step(rt.alloc())
}

fn keeps_no_short_bytes(alloc: Global, rows: &[(&'static [u8], &'static str)]) -> Result<(), Fail> {
    for &(bytes, rejection) in rows {
        Trial::new(&Kept::Lent, alloc, bytes, &Err(rejection), bytes).copied()?;
        Trial::new(&Kept::Copied, alloc, bytes, &Err(rejection), bytes).copied()?;
    }
    Ok(())
}

fn lends_no_step(alloc: Global) -> Result<(), Fail> {
    let trial = Trial::new(&Kept::Lent, alloc, b"\x00", &Err(NOT_LENT), b"\x00");
    trial.over(TestReader::short(b"\x00", 0))
}

// Bytes, steps, what is kept, and what is left.
type KeptWithin = RowWithin<&'static [u8]>;

const BY_BYTE: &[KeptWithin] = table! {
    (b"\x00", 256, Ok(b"\x00"), b""),
    (b"\x00", 1, Ok(b"\x00"), b""),
    (b"\x00", 0, Err(NO_STEP), b"\x00"),
    (b"\x82\x01\x02", 256, Err(CUT_OFF), b"\x82\x01\x02"),
    (b"", 256, Err(CUT_OFF), b""),
};

#[test]
fn one_byte_at_a_time(rt: HostRuntime) -> Result<(), Fail> {
    keeps_by_byte(rt.alloc(), BY_BYTE)
}

fn keeps_by_byte(alloc: Global, rows: &[KeptWithin]) -> Result<(), Fail> {
    for &(bytes, limit, want, rest) in rows {
        for kept in [Kept::Lent, Kept::Copied] {
            let want = kept.wanted(alloc, want)?;
            let trial = Trial::new(&kept, alloc, bytes, &want, rest);
            trial.over(TestReader::long(bytes, limit))?;
            // A reader that fails as it is asked: its error, and nothing moves.
            let trial = Trial::new(&kept, alloc, bytes, &Err(FAILED), bytes);
            trial.over(TestReader::long(bytes, limit).failing_after(0))?;
        }
    }
    Ok(())
}

// The bytes of [1, 2] and 3 in segments, what is kept, and what is left.
type InSegments = (&'static [&'static [u8]], Want<&'static [u8]>, &'static [u8]);

const IN_SEGMENTS: &[InSegments] = table! {
    (&[b"\x82\x01\x02", b"\x03"], Ok(b"\x82\x01\x02"), b"\x03"),
    (&[b"\x82\x01", b"\x02\x03"], Err(CUT_OFF), b"\x82\x01\x02\x03"),
};

#[test]
fn items_in_segments(rt: HostRuntime) -> Result<(), Fail> {
    keeps_in_segments(rt.alloc(), IN_SEGMENTS)
}

fn keeps_in_segments(alloc: Global, rows: &[InSegments]) -> Result<(), Fail> {
    for &(segments, want, rest) in rows {
        for kept in [Kept::Lent, Kept::Copied] {
            let want = kept.wanted(alloc, want)?;
            let trial = Trial::new(&kept, alloc, b"\x82\x01\x02\x03", &want, rest);
            trial.over(SegmentReader::new(segments))?;
        }
    }
    Ok(())
}

// Segments, whether the raw item stands in the first, and the values after it.
type BeforeValues = (&'static [&'static [u8]], bool, &'static [&'static str]);

const BEFORE_VALUES: &[BeforeValues] = table! {
    (&[b"\x82\x01\x02", b"\x03"], true, &["Integer(3)"]),
    (&[b"\x82\x01\x02\x81", b"\x03"], true, &["Array([Integer(3)])"]),
    (&[b"\x82\x01\x02\x18", b"", b"\xff\xf6"], true, &["Integer(255)", "Null"]),
    (&[b"\x82\x01", b"\x02\x03"], false, &["Array([Integer(1), Integer(2)])", "Integer(3)"]),
};

#[test]
fn values_after_items_in_segments(rt: HostRuntime) -> Result<(), Fail> {
    reads_after(rt.alloc(), BEFORE_VALUES)
}

fn reads_after(alloc: Global, rows: &[BeforeValues]) -> Result<(), Fail> {
    for &(segments, is_lent, values) in rows {
        let mut reader = SegmentReader::new(segments);
        stands_before(alloc, &mut reader, is_lent)?;
        for value in values {
            is_next(alloc, &mut reader, value)?;
        }
        leaves(&mut reader, b"", b"")?;
    }
    Ok(())
}

// The item [1, 2] is lent, or nothing is taken.
fn stands_before(alloc: Global, reader: &mut SegmentReader<'_>, is_lent: bool) -> Result<(), Fail> {
    match RawValue::decode(alloc, reader) {
        Ok(item) if is_lent && item.as_bytes() == b"\x82\x01\x02".as_slice() => Ok(()),
        Err(DecodeError::Eof { .. }) if !is_lent => Ok(()),
        got => Err(Fail::new(format_args!("{got:?}"))),
    }
}

// The next value has this text.
fn is_next(alloc: Global, reader: &mut SegmentReader<'_>, text: &str) -> Result<(), Fail> {
    let value = Value::decode(alloc, reader)?;
    if format!(in alloc; "{value:?}")?.as_str() == text {
        return Ok(());
    }
    Err(Fail::new(format_args!("{value:?} and not {text}")))
}

// One fill lends all, and one advance takes the item.
#[test]
fn one_look(rt: HostRuntime) -> Result<(), Fail> {
    let mut reader = Counting::new(b"\x82\x01\x82\x02\x03\x04");
    let lent = RawValue::decode(rt.alloc(), &mut reader)?;
    assert_eq!(rt; lent.as_bytes(), b"\x82\x01\x82\x02\x03".as_slice());
    assert_eq!(rt; (reader.shows(), reader.advances()), (1, 1));
    Ok(())
}

// Each is written again in one push.
#[test]
fn written_again(rt: HostRuntime) -> Result<(), Fail> {
    writes_items(rt.alloc(), ITEMS)
}

fn writes_items(alloc: Global, items: &[&[u8]]) -> Result<(), Fail> {
    for item in items {
        writes_lent(alloc, item)?;
    }
    Ok(())
}

fn writes_lent(alloc: Global, item: &[u8]) -> Result<(), Fail> {
    let lent = RawValue::decode(alloc, &mut SliceReader::new(item))?;
    writes_in(alloc, &lent, item, 1)
}

// With a fault at each fill too.
#[test]
fn items_under_a_key_where_readers_fail(rt: HostRuntime) -> Result<(), Fail> {
    let alloc = rt.alloc();
    for kept in [Kept::LentUnderKey, Kept::CopiedUnderKey] {
        let want = kept.wanted(alloc, Ok(ITEM))?;
        Trial::new(&kept, alloc, MAP, &want, b"").lent_and_alone()?;
    }
    Ok(())
}

#[test]
fn an_item_under_a_key(rt: HostRuntime) -> Result<(), Fail> {
    let alloc = rt.alloc();
    let lent = <Map<Vec<(String, RawValue)>>>::decode(alloc, &mut SliceReader::new(MAP))?;
    let [(key, raw)] = lent.0.as_slice() else {
        return Err(Fail::from("not one pair"));
    };
    assert_eq!(rt; raw.as_bytes(), ITEM);
    writes_in(alloc, &Map([(key.as_str(), *raw)].as_slice()), MAP, 4)
}
