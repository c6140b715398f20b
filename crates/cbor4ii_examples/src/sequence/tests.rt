//! Rows of sequences that end between two items, and inside one.
use cbor4ii::Value;
use cbor4ii::dec::{Source, next_item};
use cbor4ii::error::DecodeError;
use cbor4ii::utils::{IoReader, SliceReader};
use cbor4ii_vectors::streams::FailingStream;
use cbor4ii_vectors::table;
use std::alloc::Global;
use std::test::Fail;

type Row = (&'static [u8], &'static str, bool);

// The whole items of a sequence, and whether it ends after them, or inside another one.
const SEQUENCES: &[Row] = table! {
    (b"", "[]", true),
    (b"\x01", "[Integer(1)]", true),
    (b"\x01\x82", "[Integer(1)]", false),
    (b"\x01\x82\x02", "[Integer(1)]", false),
    (b"\x01\x82\x02\x03", "[Integer(1), Array([Integer(2), Integer(3)])]", true),
    (b"\x01\x82\x02\x03\x19\x01", "[Integer(1), Array([Integer(2), Integer(3)])]", false),
    (b"\x80\xf6\xf6", "[Array([]), Null, Null]", true),
};

// The items that come before the end, and whether the end is that of the sequence.
fn read_all<S: Source>(alloc: Global, reader: &mut S) -> Result<(String, bool), Fail> {
    let mut items: Vec<Value> = Vec::new(alloc);
    for _ in 0..8 {
        match next_item(alloc, reader) {
            Ok(Some(item)) => items.push(item)?,
            Ok(None) => return Ok((format!(in alloc; "{items:?}")?, true)),
            Err(DecodeError::Eof { .. }) => return Ok((format!(in alloc; "{items:?}")?, false)),
            Err(error) => return Err(Fail::new(format_args!("{error:?}"))),
        }
    }
    Err(Fail::new(format_args!("no end after {items:?}")))
}

#[test]
fn a_sequence_ends_between_two_items_alone(rt: HostRuntime) -> Result<(), Fail> {
    let alloc = rt.alloc();
    for (bytes, items, is_end) in SEQUENCES {
        let (read, end) = read_all(alloc, &mut SliceReader::new(bytes))?;
        assert_eq!(rt; read.as_str(), *items);
        assert_eq!(rt; end, *is_end);
        // One byte at a time.
        let stream = FailingStream::new(bytes, 1, usize::MAX);
        let (read, end) = read_all(alloc, &mut IoReader::new(stream))?;
        assert_eq!(rt; read.as_str(), *items);
        assert_eq!(rt; end, *is_end);
    }
    Ok(())
}

// It fails in the place of telling that nothing is left.
#[test]
fn a_stream_that_fails_is_no_end(rt: HostRuntime) -> Result<(), Fail> {
    let stream = FailingStream::new(b"\x01", 1, usize::MAX).failing_at_end();
    let mut reader = IoReader::new(stream);
    assert_eq!(rt;
        next_item(rt.alloc(), &mut reader)?,
        Some(Value::Integer(1))
    );
    assert!(rt;
        matches!(
            next_item::<_, Value>(rt.alloc(), &mut reader),
            Err(DecodeError::Read(_))
        )
    );
    Ok(())
}
