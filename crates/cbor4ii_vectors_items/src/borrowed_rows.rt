//! How a row is tried of what is borrowed from the input.
use cbor4ii_items::decode::Decode;
use cbor4ii_items::types::{Bytes, Map, Maybe, Tag, UncheckedStr};
use cbor4ii_rw::segment_reader::SegmentReader;
use cbor4ii_rw::slice_reader::SliceReader;
use cbor4ii_vectors::readers::TestReader;
use cbor4ii_vectors::rows::{Answered, Shown, Stream, Trial, Want, Way, says, text_of};
use std::alloc::Global;
use std::test::Fail;

/// What is read.
#[derive(Clone, Copy)]
pub enum Kind {
    Text,
    Unchecked,
    Bytes,
    Texts,
    ArraysOfTexts,
    ByteStrings,
    NumbersToTexts,
    TextsToNumbers,
    Tagged,
    Optional,
    OptionalInArray,
}

/// A row: what is read, its bytes, the text of the answer, and what is left of the bytes.
pub type BorrowedRow = (Kind, &'static [u8], Want<&'static str>, &'static [u8]);

/// A row of a string that is cut, how many bytes stand before its content, and the errors of a
/// content that is cut after its first byte, its second and so on, which is left.
pub type CutRow = (BorrowedRow, usize, &'static [&'static str]);

/// What is read has this text. It stands once for the readers, which lend in different ways.
macro_rules! read_as {
    ($kind:expr, $alloc:ident, $reader:ident) => {{
        let mut reader = $reader;
        let from = &mut reader;
        let got = match $kind {
            Kind::Text => says($alloc, <&'static str>::decode($alloc, from)),
            Kind::Unchecked => says($alloc, UncheckedStr::<&'static [u8]>::decode($alloc, from)),
            Kind::Bytes => says($alloc, Bytes::<&'static [u8]>::decode($alloc, from)),
            Kind::Texts => says($alloc, Vec::<&'static str>::decode($alloc, from)),
            Kind::ArraysOfTexts => says($alloc, Vec::<Vec<&'static str>>::decode($alloc, from)),
            Kind::ByteStrings => says($alloc, Vec::<Bytes<&'static [u8]>>::decode($alloc, from)),
            Kind::NumbersToTexts => {
                says($alloc, Map::<Vec<(u8, &'static str)>>::decode($alloc, from))
            }
            Kind::TextsToNumbers => {
                says($alloc, Map::<Vec<(&'static str, u8)>>::decode($alloc, from))
            }
            Kind::Tagged => says($alloc, Tag::<&'static str>::decode($alloc, from)),
            Kind::Optional => says($alloc, Option::<&'static str>::decode($alloc, from)),
            Kind::OptionalInArray => {
                says($alloc, Maybe::<Option<&'static str>>::decode($alloc, from))
            }
        };
        (got, reader)
    }};
}

type Told<S> = Answered<String, S>;

impl Way<String, SliceReader<'static>> for Kind {
    fn read(&self, alloc: Global, reader: SliceReader<'static>) -> Told<SliceReader<'static>> {
        read_as!(self, alloc, reader)
    }
}

impl Way<String, SegmentReader<'static>> for Kind {
    fn read(&self, alloc: Global, reader: SegmentReader<'static>) -> Told<SegmentReader<'static>> {
        read_as!(self, alloc, reader)
    }
}

impl Way<String, TestReader<'static>> for Kind {
    fn read(&self, alloc: Global, reader: TestReader<'static>) -> Told<TestReader<'static>> {
        read_as!(self, alloc, reader)
    }
}

impl Way<String, Stream> for Kind {
    fn read(&self, alloc: Global, reader: Stream) -> Told<Stream> {
        read_as!(self, alloc, reader)
    }
}

/// Reads the rows over each reader that lends all that is left, with each fault.
pub fn lends_rows(alloc: Global, rows: &[BorrowedRow]) -> Result<(), Fail> {
    for (kind, bytes, want, rest) in rows {
        let want = text_of(alloc, want)?;
        let trial = Trial::new(kind, alloc, bytes, &want, rest);
        trial.lent()?;
        trial.waits_for_nothing_after()?;
    }
    Ok(())
}

/// Reads the rows over a reader that lends one byte at a time.
pub fn lends_rows_by_byte(alloc: Global, rows: &[BorrowedRow]) -> Result<(), Fail> {
    for (kind, bytes, want, rest) in rows {
        let want = text_of(alloc, want)?;
        let trial = Trial::new(kind, alloc, bytes, &want, rest);
        trial.over(TestReader::long(bytes, 256))?;
        trial.failing_at_each_show(Shown::LentByByte, true)?;
        trial.failing_at_each_show(Shown::ByByte, false)?;
        trial.failing_at_each_show(Shown::Whole, false)?;
    }
    Ok(())
}

/// Reads the rows over a reader of which one fill lives as long as the input, and the next does
/// not, and so on in turn.
pub fn rows_in_turn(alloc: Global, rows: &[BorrowedRow]) -> Result<(), Fail> {
    for (kind, bytes, want, rest) in rows {
        let want = text_of(alloc, want)?;
        Trial::new(kind, alloc, bytes, &want, rest).over(TestReader::in_turn(bytes, 256))?;
    }
    Ok(())
}

/// Reads the rows over readers whose bytes do not outlive the fill, with each fault.
pub fn rows_of_short_bytes(alloc: Global, rows: &[BorrowedRow]) -> Result<(), Fail> {
    for (kind, bytes, want, rest) in rows {
        let want = text_of(alloc, want)?;
        let trial = Trial::new(kind, alloc, bytes, &want, rest);
        trial.copied()?;
        trial.failing_at_each_show(Shown::LentByByte, false)?;
        trial.failing_at_each_show(Shown::Whole, false)?;
    }
    Ok(())
}

/// Reads the rows over each reader: where no borrowed slice comes, it is no matter what is lent.
pub fn rows_alike(alloc: Global, rows: &[BorrowedRow]) -> Result<(), Fail> {
    for (kind, bytes, want, rest) in rows {
        Trial::new(kind, alloc, bytes, &text_of(alloc, want)?, rest).over_each()?;
    }
    Ok(())
}

/// Reads one row over each reader, with so many steps. It is no matter what is lent.
pub fn answers_alike(alloc: Global, limit: usize, row: BorrowedRow) -> Result<(), Fail> {
    let (kind, bytes, want, rest) = row;
    let want = text_of(alloc, &want)?;
    let trial = Trial::new(&kind, alloc, bytes, &want, rest);
    trial.within(limit).over_each_that_counts()
}

/// Reads the rows over two segments, for each place where the bytes can be cut. Where that is not
/// within the content, the string is lent.
pub fn lends_rows_in_segments(alloc: Global, rows: &[CutRow]) -> Result<(), Fail> {
    for (row, head, errors) in rows {
        for place in 1..row.1.len() {
            lends_cut(alloc, row, *head, errors, place)?;
        }
    }
    Ok(())
}

// Over two segments, cut at this place: the row's answer, or the error with the content left.
fn lends_cut(
    alloc: Global,
    row: &BorrowedRow,
    head: usize,
    errors: &[&'static str],
    place: usize,
) -> Result<(), Fail> {
    let (kind, bytes, want, rest) = row;
    let cut = match place.checked_sub(head) {
        Some(shown) if shown > 0 => errors.get(shown - 1),
        _ => None,
    };
    let (want, rest) = match cut {
        Some(rejection) => (Err(*rejection), bytes.get(head..).ok_or("no content")?),
        None => (text_of(alloc, want)?, *rest),
    };
    Trial::new(kind, alloc, bytes, &want, rest).in_two_segments(place)
}
