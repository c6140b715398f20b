//! The value at the beginning of a slice, and of a stream.
use crate::presence::Lamp;
use crate::typed::{BothShown, come_back, comes_back_lent, is_at_beginning, is_rejected};
use cbor4ii::Value;
use cbor4ii::serde::{
    DecodeError, Deserialize, WholeError, from_reader, from_slice, from_slice_whole,
    from_slice_whole_at, to_vec,
};
use cbor4ii_rw::error as core_error;
use cbor4ii_rw::error::Len;
use cbor4ii_rw::slice_reader::SliceReader;
use cbor4ii_vectors::compared::same;
use cbor4ii_vectors::repeated::repeated;
use cbor4ii_vectors::streams::FailingStream;
use cbor4ii_vectors::{mismatch, table};
use std::alloc::Global;
use std::collections::BTreeMap;
use std::fmt::{Debug, InlineText};
use std::io::{self, BufRead, ErrorKind};
use std::test::Fail;

/// A text at the beginning of the bytes, which is lent.
fn text_is_at_beginning(alloc: Global, bytes: &[u8], want: &str) -> Result<(), Fail> {
    let text: &str = from_slice(alloc, bytes)?;
    if text == want {
        return Ok(());
    }
    Err(Fail::new(format_args!("{text} in the place of {want}")))
}

#[test]
fn the_value_at_the_beginning(rt: HostRuntime) -> Result<(), Fail> {
    let alloc = rt.alloc();
    is_at_beginning::<u8>(alloc, b"\x05\xff", "5")?;
    is_at_beginning::<BTreeMap<u8, u8>>(alloc, b"\xa2\x01\x02\x01\x03", "{1: 3}")?;
    text_is_at_beginning(alloc, b"\x61a", "a")
}

// The bytes live no longer than the test.
#[test]
fn the_value_at_the_beginning_of_bytes_of_the_test(rt: HostRuntime) -> Result<(), Fail> {
    let alloc = rt.alloc();
    let bytes = Vec::from_slice(alloc, b"\x61a")?;
    text_is_at_beginning(alloc, &bytes, "a")?;
    comes_back_lent::<&[u8], String>(alloc, &bytes, &bytes, "\"a\"")
}

#[test]
fn numbers_and_units_come_back(rt: HostRuntime) -> Result<(), Fail> {
    let alloc = rt.alloc();
    come_back::<Option<u32>>(alloc, &[(b"\x0a", "Some(10)")])?;
    come_back::<()>(alloc, &[(b"\x80", "()")])?;
    come_back::<Option<()>>(alloc, &[(b"\x80", "Some(())")])
}

const OPTIONS_BOTH: &[BothShown] = table! {
    (b"\x83\x18\x99\xf6\x18\x33", "[Some(153), None, Some(51)]"),
};

const PAIRS_BOTH: &[BothShown] = table! {
    (b"\x81\x82\x0a\x1a\x00\x01\x86\x9f", "Some([(10, 99999)])"),
};

#[test]
fn arrays_come_back(rt: HostRuntime) -> Result<(), Fail> {
    let alloc = rt.alloc();
    come_back::<Vec<Option<u32>>>(alloc, OPTIONS_BOTH)?;
    come_back::<Option<Vec<(u128, i128)>>>(alloc, PAIRS_BOTH)
}

const ANY_BOTH: &[BothShown] = table! {
    (b"\xf6", "Null"),
    (b"\xa1\x61a\xf4", "Map([(Text(\"a\"), Bool(false))])"),
    (b"\xc2\x49\x01\x00\x00\x00\x00\x00\x00\x00\x62", "Integer(18446744073709551714)"),
};

#[test]
fn any_values_come_back(rt: HostRuntime) -> Result<(), Fail> {
    come_back::<Value>(rt.alloc(), ANY_BOTH)
}

// The text of what is read of the whole input.
fn whole_reads<T: Deserialize<SliceReader<'static>> + Debug + Drop>(
    alloc: Global,
    input: &'static [u8],
    text: &str,
) -> Result<(), Fail> {
    let value: T = from_slice_whole(alloc, input)?;
    if InlineText::<128>::of(format_args!("{value:?}")).as_str() == text {
        return Ok(());
    }
    Err(Fail::new(format_args!("{value:?} in the place of {text}")))
}

#[test]
fn a_value_is_the_whole_input(rt: HostRuntime) -> Result<(), Fail> {
    let alloc = rt.alloc();
    whole_reads::<u8>(alloc, b"\x18\x05", "5")?;
    whole_reads::<Option<u8>>(alloc, b"\xf6", "None")?;
    whole_reads::<BTreeMap<u8, u8>>(alloc, b"\xbf\x01\x02\xff", "{1: 2}")
}

#[test]
fn bytes_after_the_value_are_counted(rt: HostRuntime) {
    let alloc = rt.alloc();
    let more = from_slice_whole::<&[u8], u8>(alloc, b"\x05\x06\x07").err();
    assert_eq!(rt; more, Some(WholeError::Trailing(2)));
    let cut = core_error::DecodeError::Eof {
        name: "u8",
        expect: Len::Small(1),
    };
    let none = from_slice_whole::<&[u8], u8>(alloc, b"\x18").err();
    assert_eq!(rt; none, Some(WholeError::Decode(DecodeError::Core(cut))));
}

// An input, and the text of what is read, or of the error and its byte.
type Told = (&'static [u8], &'static str);

fn is_told<T>(alloc: Global, input: &'static [u8], want: &str) -> Result<(), Fail>
where
    T: Deserialize<SliceReader<'static>> + Debug + Drop,
{
    let text = match from_slice_whole_at::<&'static [u8], T>(alloc, input) {
        Ok(value) => InlineText::<128>::of(format_args!("{value:?}")),
        Err(fault) => InlineText::of(fault),
    };
    if text.as_str() == want {
        return Ok(());
    }
    Err(Fail::new(format_args!("{} in the place of {want}", text.as_str())))
}

fn are_told<T>(alloc: Global, rows: &[Told]) -> Result<(), Fail>
where
    T: Deserialize<SliceReader<'static>> + Debug + Drop,
{
    for &(input, want) in rows {
        is_told::<T>(alloc, input, want)?;
    }
    Ok(())
}

// Cut bytes are all taken, and of another item the first byte is.
const NUMBERS_TOLD: &[Told] = table! {
    (b"\x18\x05", "5"),
    (b"\x18\x05\x06\x07", "byte 2: bytes after the item: 2"),
    (b"", "byte 0: Core(Eof { name: \"u8\", expect: Small(1) })"),
    (b"\x18", "byte 1: Core(Eof { name: \"u8\", expect: Small(1) })"),
    (b"\x20\x06", "byte 1: Core(Mismatch { name: \"u8\", found: 32 })"),
};

#[test]
fn many_bytes_after_the_value_are_counted(rt: HostRuntime) -> Result<(), Fail> {
    let alloc = rt.alloc();
    let more = repeated(alloc, b"\x05", b"\xff", 70_000, b"")?;
    is_told::<u8>(alloc, more, "byte 1: bytes after the item: 70000")?;
    let got = from_slice_whole::<&[u8], u8>(alloc, more).err();
    same(got, Some(WholeError::Trailing(70_000)))
}

// A text is taken before it is tested.
const TEXTS_TOLD: &[Told] = table! {
    (b"\x82\x61a", "byte 3: Core(Eof { name: \"str\", expect: Small(1) })"),
    (b"\x82\x61a\x05\x00", "byte 4: Core(Mismatch { name: \"str\", found: 5 })"),
    (b"\x82\x62\xff\xff\x61a", "byte 4: Core(RequireUtf8 { name: \"str\" })"),
};

// All of a struct is taken before a field counts as missing.
const LAMPS_TOLD: &[Told] = table! {
    (b"\xa1\x65level\x07", "Lamp { level: 7, delay: 60, room: None }"),
    (b"\xa1\x65level\x07\x00", "byte 8: bytes after the item: 1"),
    (b"\xa1\x65lev", "byte 5: Core(Eof { name: \"str\", expect: Small(2) })"),
    (b"\xa1\x65level\xf6\x00", "byte 8: Core(Mismatch { name: \"u8\", found: 246 })"),
    (b"\xa1\x65delay\x05\x00\x00", "byte 8: Custom(\"a lamp has a level\")"),
};

#[test]
fn an_error_tells_its_byte(rt: HostRuntime) -> Result<(), Fail> {
    let alloc = rt.alloc();
    are_told::<u8>(alloc, NUMBERS_TOLD)?;
    are_told::<Vec<String>>(alloc, TEXTS_TOLD)?;
    are_told::<Lamp>(alloc, LAMPS_TOLD)
}

// Each array takes two steps, and nothing of the item that has none is taken.
#[test]
fn an_item_without_a_step_stays(rt: HostRuntime) -> Result<(), Fail> {
    let alloc = rt.alloc();
    let deep = repeated(alloc, b"", b"\x81", 128, b"\x19\x01\x00")?;
    is_told::<Value>(
        alloc,
        deep,
        "byte 128: Core(DepthOverflow { name: \"any\" })",
    )
}

// A stream has as many steps as a slice: 127 arrays take all but one.
#[test]
fn values_within_the_limit(rt: HostRuntime) -> Result<(), Fail> {
    let alloc = rt.alloc();
    let deep = repeated(alloc, b"", b"\x81", 127, b"\x05")?;
    let whole: Value = from_slice(alloc, deep)?;
    let streamed: Value = from_reader(alloc, deep)?;
    if whole == streamed && to_vec(Vec::new(alloc), &streamed)?.as_slice() == deep {
        return Ok(());
    }
    Err(Fail::new(format_args!("{streamed:?} of a stream")))
}

/// The number at the beginning of a stream that is lent.
fn number_at_beginning<R: BufRead>(alloc: Global, stream: &mut R) -> Result<u8, Fail> {
    let number: u8 = from_reader(alloc, stream)?;
    Ok(number)
}

#[test]
fn a_stream_stands_after_the_value_that_was_read(rt: HostRuntime) -> Result<(), Fail> {
    let mut stream: &[u8] = b"\x05\x06";
    assert_eq!(rt; number_at_beginning(rt.alloc(), &mut stream)?, 5);
    assert_eq!(rt; stream, b"\x06".as_slice());
    Ok(())
}

// Each byte is shown alone: the first of the value's leaves the stream at the look after it, and
// the second when the reader is dropped.
#[test]
fn a_stream_of_single_bytes_stands_after_the_value(rt: HostRuntime) -> Result<(), Fail> {
    let mut stream = FailingStream::new(b"\x18\x05\x06", 1, usize::MAX);
    assert_eq!(rt; number_at_beginning(rt.alloc(), &mut stream)?, 5);
    assert_eq!(rt; stream.remaining(), b"\x06".as_slice());
    Ok(())
}

#[test]
fn a_fault_before_the_value_at_the_beginning(rt: HostRuntime) -> Result<(), Fail> {
    let stream = FailingStream::new(b"\x19\x00\x05", 1, 1).failing_with(ErrorKind::ConnectionReset);
    let fault: Result<u16, DecodeError<io::Error>> = from_reader(rt.alloc(), stream);
    assert!(rt;
        matches!(
            &fault,
            Err(DecodeError::Core(core_error::DecodeError::Read(error)))
                if error.kind() == ErrorKind::ConnectionReset
        )
    );
    Ok(())
}

const NEGATIVE: &str = mismatch!("u8", 0x20);

/// No number from 0 on stands at the beginning of a stream that is lent.
fn is_negative_at_beginning<R: BufRead>(alloc: Global, stream: &mut R) -> Result<(), Fail> {
    let got: Result<u8, DecodeError<io::Error>> = from_reader(alloc, stream);
    is_rejected(got, NEGATIVE)
}

// The first byte is taken, and no other.
#[test]
fn a_value_that_is_rejected_at_the_beginning(rt: HostRuntime) -> Result<(), Fail> {
    let alloc = rt.alloc();
    let got = from_slice::<&[u8], u8>(alloc, b"\x20\x06".as_slice());
    is_rejected(got, NEGATIVE)?;
    let mut stream: &[u8] = b"\x20\x06";
    is_negative_at_beginning(alloc, &mut stream)?;
    assert_eq!(rt; stream, b"\x06".as_slice());
    Ok(())
}
