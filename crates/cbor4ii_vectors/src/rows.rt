//! How a row is tried: read over each reader, written, and with a fault at each place.
//!
//! What a row finds wrong is the failure of the test that tries it, and says of which bytes. Where
//! memory is refused, the row says nothing, and that error is the test's failure.
use crate::readers::{Failure, TestReader};
use crate::streams::{FailingSink, FailingStream};
use crate::writers::{FailingWriter, PushLengths};
use cbor4ii_items::decode::{Decodable, Decode};
use cbor4ii_items::encode::Encode;
use cbor4ii_rw::ask::look;
use cbor4ii_rw::buf_writer::BufWriter;
use cbor4ii_rw::error::{DecodeError, EncodeError, Never};
use cbor4ii_rw::io_reader::IoReader;
use cbor4ii_rw::io_writer::IoWriter;
use cbor4ii_rw::read::Source;
use cbor4ii_rw::segment_reader::SegmentReader;
use cbor4ii_rw::slice_reader::SliceReader;
use cbor4ii_rw::write::Write;
use std::alloc::{AllocError, Global};
use std::borrow::{CowSlice, CowStr};
use std::fmt::{Debug, InlineText};
use std::io::ErrorKind;
use std::marker::PhantomData;
use std::test::Fail;

/// What a row's bytes are read as: a value, or the text of the error.
pub type Want<T> = Result<T, &'static str>;

/// A row: bytes, what they are read as, and what is left of them.
pub type Row<T> = (&'static [u8], Want<T>, &'static [u8]);

/// A row within a limit: bytes, how many steps there are, what the bytes are read as, and what is
/// left of them.
pub type RowWithin<T> = (&'static [u8], usize, Want<T>, &'static [u8]);

/// A row of a call: its name, bytes, the text of what it reads or of the error, and what is left.
pub type Called = (
    &'static str,
    &'static [u8],
    Want<&'static str>,
    &'static [u8],
);

/// A row of a call within a limit, which stands after the bytes.
pub type CalledWithin = (
    &'static str,
    &'static [u8],
    usize,
    Want<&'static str>,
    &'static [u8],
);

// The steps of a reader that is given no other limit.
const STEPS: usize = 256;
// No row takes more shows or looks.
const MOST_CALLS: usize = 4096;
// A row of more bytes is cut at the first 300 of its places.
const MOST_CUTS: usize = 301;
// About as many bytes as one look may ask for.
const ABOUT_A_LOOK: [usize; 3] = [4_095, 4_096, 4_097];

/// What a row reads: a value, or what another call takes off a reader.
///
/// That it is read is proved once, over any reader, and a test of its rows asks no more of it.
pub trait ReadFrom: Debug + Drop + Sized {
    /// Reads it from the beginning of what `reader` has left.
    fn read_from<S: Source>(alloc: Global, reader: &mut S) -> Result<Self, DecodeError<S::Error>>;
}

/// What is read off one reader, as what is borrowed from its input.
pub trait ReadBy<S: Source>: Sized {
    /// Reads it from the beginning of what `reader` has left.
    fn read_by(alloc: Global, reader: &mut S) -> Result<Self, DecodeError<S::Error>>;
}

impl<S: Source, T: ReadFrom> ReadBy<S> for T {
    fn read_by(alloc: Global, reader: &mut S) -> Result<T, DecodeError<S::Error>> {
        T::read_from(alloc, reader)
    }
}

/// Calls that differ by their names, so that one table has rows of several of them, and one
/// function is proved for all.
pub trait Calls {
    /// The `Debug` text of what the call of this name reads from the beginning of what `reader` has
    /// left. Of a name that is none of a call nothing is read, and the answer is an error.
    fn call<S: Source>(
        name: &str,
        alloc: Global,
        reader: &mut S,
    ) -> Result<String, DecodeError<S::Error>>;
}

/// The `Debug` text of what a call read.
pub fn says<T: Debug + Drop, E>(
    alloc: Global,
    got: Result<T, DecodeError<E>>,
) -> Result<String, DecodeError<E>> {
    let value = got?;
    match format!(in alloc; "{value:?}") {
        Ok(text) => Ok(text),
        Err(_) => Err(DecodeError::OutOfMemory),
    }
}

/// What is read off a reader, and that reader.
pub type Answered<T, S> = (Result<T, DecodeError<<S as Source>::Error>>, S);

/// How what a row wants is read off one reader.
pub trait Way<T, S: Source> {
    /// Reads it from the beginning of what `reader` has left.
    fn read(&self, alloc: Global, reader: S) -> Answered<T, S>;
}

/// By its type.
#[derive(Drop)]
pub struct ByType;

impl<S: Source, T: ReadBy<S>> Way<T, S> for ByType {
    fn read(&self, alloc: Global, mut reader: S) -> Answered<T, S> {
        let got = T::read_by(alloc, &mut reader);
        (got, reader)
    }
}

/// By its type: the `Debug` text of its value, so that a row of values that have to be built is a
/// plain constant.
#[derive(Drop)]
struct ByText<T>(PhantomData<T>);

impl<S: Source, T: ReadBy<S> + Debug + Drop> Way<String, S> for ByText<T> {
    fn read(&self, alloc: Global, mut reader: S) -> Answered<String, S> {
        let got = says(alloc, T::read_by(alloc, &mut reader));
        (got, reader)
    }
}

/// By the name of a call: its text.
#[derive(Drop)]
pub struct ByName<C> {
    name: String,
    of: PhantomData<C>,
}

impl<C> ByName<C> {
    /// The call of this name.
    pub fn new(alloc: Global, name: &str) -> Result<ByName<C>, AllocError> {
        let (name, of) = (String::from_str(alloc, name)?, PhantomData);
        Ok(ByName { name, of })
    }
}

impl<S: Source, C: Calls> Way<String, S> for ByName<C> {
    fn read(&self, alloc: Global, mut reader: S) -> Answered<String, S> {
        let got = C::call(self.name.as_str(), alloc, &mut reader);
        (got, reader)
    }
}

/// The content of a string, and whether it is borrowed.
#[derive(Debug, PartialEq, Drop)]
pub struct Content {
    bytes: Vec<u8>,
    is_borrowed: bool,
}

impl Content {
    /// These bytes, borrowed or owned.
    pub fn new(alloc: Global, bytes: &[u8], is_borrowed: bool) -> Result<Content, AllocError> {
        let bytes = bytes.to_vec(alloc)?;
        Ok(Content { bytes, is_borrowed })
    }

    /// What was read, or want of memory.
    pub fn of<E>(
        alloc: Global,
        content: CowSlice<'_, u8, Global>,
    ) -> Result<Content, DecodeError<E>> {
        let content = match content {
            CowSlice::Borrowed(bytes) => Content::new(alloc, bytes, true),
            CowSlice::Owned(bytes) => Content::new(alloc, &bytes, false),
        };
        match content {
            Ok(content) => Ok(content),
            Err(_) => Err(DecodeError::OutOfMemory),
        }
    }

    /// The same of a text.
    pub fn of_text<E>(alloc: Global, text: CowStr<'_, Global>) -> Result<Content, DecodeError<E>> {
        match text {
            CowStr::Borrowed(text) => Content::of(alloc, CowSlice::Borrowed(text.as_bytes())),
            CowStr::Owned(text) => Content::of(alloc, CowSlice::Owned(text.into_bytes())),
        }
    }
}

/// One after the other.
#[derive(Debug, PartialEq, Drop)]
pub struct Pair<A, B>(pub A, pub B);

impl<A: ReadFrom, B: ReadFrom> ReadFrom for Pair<A, B> {
    fn read_from<S: Source>(
        alloc: Global,
        reader: &mut S,
    ) -> Result<Pair<A, B>, DecodeError<S::Error>> {
        let first = A::read_from(alloc, reader)?;
        Ok(Pair(first, B::read_from(alloc, reader)?))
    }
}

/// A row on trial: how it is read, its bytes, how many steps there are, what the bytes are read as,
/// and what is left of them.
#[derive(Drop)]
pub struct Trial<'a, T, R> {
    how: &'a R,
    alloc: Global,
    bytes: &'static [u8],
    limit: usize,
    want: &'a Want<T>,
    rest: &'a [u8],
}

impl<'a, T, R> Trial<'a, T, R> {
    /// A row with the steps of a reader that is given no other limit.
    pub fn new(
        how: &'a R,
        alloc: Global,
        bytes: &'static [u8],
        want: &'a Want<T>,
        rest: &'a [u8],
    ) -> Trial<'a, T, R> {
        Trial {
            how,
            alloc,
            bytes,
            limit: STEPS,
            want,
            rest,
        }
    }

    /// With so many steps.
    pub fn within(self, limit: usize) -> Trial<'a, T, R> {
        Trial { limit, ..self }
    }

    // What the row takes of its bytes, alone.
    fn item(&self) -> Trial<'_, T, R> {
        let bytes = &self.bytes[..self.bytes.len().saturating_sub(self.rest.len())];
        Trial {
            bytes,
            rest: b"",
            ..*self
        }
    }
}

// Over each reader that a row is tried over.
impl<T, R> Trial<'_, T, R>
where
    T: PartialEq + Debug + Drop,
    R: Way<T, SliceReader<'static>>
        + Way<T, SegmentReader<'static>>
        + Way<T, TestReader<'static>>
        + Way<T, Stream>,
{
    /// Over each reader: the same answer, and the same bytes left. It is no matter whether borrowed
    /// slices are lent.
    pub fn over_each(&self) -> Result<(), Fail> {
        self.over_each_that_counts()?;
        self.over(TestReader::unlimited(self.bytes))
    }

    /// Over each reader that counts its steps.
    pub fn over_each_that_counts(&self) -> Result<(), Fail> {
        self.over_each_whole()?;
        self.in_segments()?;
        self.failing_at_each_show(Shown::ByByte, true)?;
        self.failing_at_each_show(Shown::Whole, true)?;
        self.failing_at_each_look(2, true)?;
        self.item().asks_nothing_after()
    }

    /// Over each reader, with no fault and in one piece.
    pub fn over_each_whole(&self) -> Result<(), Fail> {
        self.over(SliceReader::with_limit(self.bytes, self.limit))?;
        self.over(TestReader::long(self.bytes, self.limit))?;
        self.over(TestReader::whole(self.bytes, self.limit))?;
        self.over(TestReader::in_turn(self.bytes, self.limit))?;
        self.over_short()
    }

    // Over two segments, for each place where the bytes can be cut.
    fn in_segments(&self) -> Result<(), Fail> {
        for place in 1..self.bytes.len().min(MOST_CUTS) {
            self.in_two_segments(place)?;
        }
        Ok(())
    }

    // Over readers that end what they show at about as many bytes as one look may ask for: a slice,
    // two segments that are cut there, and streams that show so many at a time.
    fn around_a_look(&self) -> Result<(), Fail> {
        self.over(SliceReader::with_limit(self.bytes, STEPS))?;
        for shown in ABOUT_A_LOOK {
            self.in_two_segments(shown)?;
            self.over(stream(self.bytes, shown, usize::MAX, STEPS))?;
        }
        Ok(())
    }

    /// Lent over each zero-copy reader, with a fault at each place too, also by bytes, where the
    /// answer may be another.
    pub fn lent(&self) -> Result<(), Fail> {
        self.over(SliceReader::with_limit(self.bytes, self.limit))?;
        self.over(TestReader::unlimited(self.bytes))?;
        self.over(TestReader::whole(self.bytes, self.limit))?;
        self.failing_at_each_show(Shown::ByByte, false)?;
        self.failing_at_each_show(Shown::LentByByte, false)?;
        self.failing_at_each_show(Shown::Whole, true)?;
        self.failing_at_each_look(2, false)
    }

    /// Lent, and the item of the row that is read, alone, over readers that fail or wait where more
    /// is asked of them than it has.
    pub fn lent_and_alone(&self) -> Result<(), Fail> {
        self.lent()?;
        self.item().asks_whole_nothing_after()
    }
}

// Over readers whose bytes do not outlive the fill.
impl<T, R> Trial<'_, T, R>
where
    T: PartialEq + Debug + Drop,
    R: Way<T, TestReader<'static>> + Way<T, Stream>,
{
    /// Over readers whose bytes do not outlive the fill, with a fault at each place too.
    pub fn copied(&self) -> Result<(), Fail> {
        self.over_short()?;
        self.failing_at_each_show(Shown::ByByte, true)?;
        self.failing_at_each_look(2, true)
    }

    // One that shows a byte at a time, and streams that show one at a time and all that is left.
    fn over_short(&self) -> Result<(), Fail> {
        self.over(TestReader::short(self.bytes, self.limit))?;
        self.over(stream(self.bytes, 1, usize::MAX, self.limit))?;
        self.over(stream(self.bytes, usize::MAX, usize::MAX, self.limit))
    }

    /// Over a reader that shows bytes so and fails at the first show, at the second, and so on
    /// until none is left to fail. It forgets what is left or does not. Where it does not fail the
    /// answer is compared, or not.
    pub fn failing_at_each_show(&self, shown: Shown, is_compared: bool) -> Result<(), Fail> {
        for shows in 0..MOST_CALLS {
            let forgetting = failing(self.bytes, self.limit, shown, shows).forgetting();
            let has_forgotten = self.fails(forgetting, is_compared)?;
            let reader = failing(self.bytes, self.limit, shown, shows);
            if !self.fails(reader, is_compared)? && !has_forgotten {
                return Ok(());
            }
        }
        Err(Fail::new(format_args!("too many shows of {:?}", self.bytes)))
    }

    // Whether the reader failed. Then the answer is its error, and else what is wanted, if it is
    // compared. An end of the bytes is left, and the budget is as before.
    fn fails(&self, reader: TestReader<'static>, is_compared: bool) -> Result<bool, Fail> {
        let limit = reader.steps();
        let (got, reader) = self.how.read(self.alloc, reader);
        let is_read = matches!(got, Err(DecodeError::Read(Failure)));
        let is_kept = is_read == (reader.failures() == 1)
            && reader.steps() == limit
            && self.bytes.ends_with(reader.remaining());
        if !is_kept {
            return Err(Fail::new(format_args!("{got:?} where a show fails, of {:?}", self.bytes)));
        }
        if is_compared && !is_read {
            is_same(got, self.bytes, self.want)?;
        }
        Ok(is_read)
    }

    // An item, over readers that fail in the place of showing that nothing is left: the answer is
    // the same, since an item says itself where it ends. A row that takes no byte is no such row,
    // since what follows may say what it is.
    fn asks_nothing_after(&self) -> Result<(), Fail> {
        if self.want.is_err() || self.bytes.is_empty() {
            return Ok(());
        }
        self.asks_whole_nothing_after()?;
        self.answered_by(TestReader::short(self.bytes, self.limit).failing_at_end())?;
        self.answered_by(TestReader::short(self.bytes, self.limit).waiting())?;
        for most in [1, usize::MAX] {
            let stream = FailingStream::new(self.bytes, most, usize::MAX).failing_at_end();
            self.answered_by(IoReader::with_limit(stream, self.limit))?;
        }
        Ok(())
    }

    /// The item of a row that is read, alone, over a reader that waits for all that is wanted: no
    /// look asks for a byte that it does not need.
    pub fn waits_for_nothing_after(&self) -> Result<(), Fail> {
        if self.want.is_err() {
            return Ok(());
        }
        let item = self.item();
        item.answered_by(TestReader::wanted(item.bytes, item.limit).waiting())
    }

    // An item, over readers that show all that is left, or what is wanted. They fail, or wait,
    // where it is not enough: no look asks for a byte that the item does not need, and it is read.
    fn asks_whole_nothing_after(&self) -> Result<(), Fail> {
        if self.want.is_err() {
            return Ok(());
        }
        self.answered_by(TestReader::whole(self.bytes, self.limit).failing_at_end())?;
        self.answered_by(TestReader::whole(self.bytes, self.limit).waiting())?;
        self.answered_by(TestReader::wanted(self.bytes, self.limit).waiting())
    }
}

impl<T: PartialEq + Debug + Drop, R> Trial<'_, T, R> {
    /// Over this reader: the answer, what is left, and the steps as before.
    pub fn over<S: Source + Drop>(&self, mut reader: S) -> Result<(), Fail>
    where
        R: Way<T, S>,
    {
        let budget = steps(&mut reader);
        let (got, mut reader) = self.how.read(self.alloc, reader);
        keeps(self.alloc, &got, &mut reader, budget, self.bytes)?;
        is_same(got, self.bytes, self.want)?;
        leaves(&mut reader, self.bytes, self.rest)
    }

    // Over this reader, of which nothing else is asked: the answer.
    fn answered_by<S: Source + Drop>(&self, reader: S) -> Result<(), Fail>
    where
        R: Way<T, S>,
    {
        is_same(self.how.read(self.alloc, reader).0, self.bytes, self.want)
    }

    /// Over two segments, which are cut at this place. They stay for good.
    pub fn in_two_segments(&self, place: usize) -> Result<(), Fail>
    where
        R: Way<T, SegmentReader<'static>>,
    {
        let (first, second) = self.bytes.split_at(place.min(self.bytes.len()));
        let segments = vec![in self.alloc; first, second]?.leak();
        self.over(SegmentReader::with_limit(segments, self.limit))
    }

    /// Over a stream that shows at most so many bytes at a time, and fails at the first look, at
    /// the second, and so on until none is left to fail. Where it does not fail the answer is
    /// compared, or not.
    pub fn failing_at_each_look(&self, most: usize, is_compared: bool) -> Result<(), Fail>
    where
        R: Way<T, Stream>,
    {
        for looks in 0..MOST_CALLS {
            if !self.fails_at_look(most, looks, is_compared)? {
                return Ok(());
            }
        }
        Err(Fail::new(format_args!("too many looks of {:?}", self.bytes)))
    }

    // Whether the stream failed. Then the answer is its error, and else what is wanted, if it is
    // compared. The budget is as before, and the reader over the stream takes of it what it took,
    // and no byte more.
    fn fails_at_look(&self, most: usize, looks: usize, is_compared: bool) -> Result<bool, Fail>
    where
        R: Way<T, Stream>,
    {
        let mut reader = stream(self.bytes, most, looks, self.limit);
        let budget = steps(&mut reader);
        let (got, mut reader) = self.how.read(self.alloc, reader);
        let is_read = matches!(
            &got,
            Err(DecodeError::Read(error)) if error.kind() == ErrorKind::Other
        );
        let is_kept = steps(&mut reader) == budget;
        let taken = reader.taken() as usize;
        let stream = reader.into_inner();
        let is_left = self.bytes.get(taken..) == Some(stream.remaining());
        if !is_kept || !is_left || is_read != stream.has_failed() {
            let bytes = self.bytes;
            return Err(Fail::new(format_args!("{got:?} where look {looks} fails, of {bytes:?}")));
        }
        if is_compared && !is_read {
            is_same(got, self.bytes, self.want)?;
        }
        Ok(is_read)
    }
}

/// Reads the bytes of each row over each reader: the same answer, and the same bytes left.
///
/// Each type costs the proof of a function that tries it some seconds, so rows of one type stand
/// together, and those of many types name a call.
pub fn reads_rows<T: ReadFrom + PartialEq>(alloc: Global, rows: &[Row<T>]) -> Result<(), Fail> {
    for (bytes, want, rest) in rows {
        Trial::new(&ByType, alloc, bytes, want, rest).over_each()?;
    }
    Ok(())
}

/// Reads the bytes over each reader: the same answer, and the same bytes left.
pub fn reads<T: ReadFrom + PartialEq>(
    alloc: Global,
    bytes: &'static [u8],
    want: Want<T>,
    rest: &[u8],
) -> Result<(), Fail> {
    Trial::new(&ByType, alloc, bytes, &want, rest).over_each()
}

/// Reads the bytes of each row within its limit, over each reader that counts its steps.
pub fn reads_rows_within<T: ReadFrom + PartialEq>(
    alloc: Global,
    rows: &[RowWithin<T>],
) -> Result<(), Fail> {
    for (bytes, limit, want, rest) in rows {
        reads_within(alloc, bytes, *limit, want, rest)?;
    }
    Ok(())
}

/// Reads the bytes over each reader that counts its steps, with so many of them.
pub fn reads_within<T: ReadFrom + PartialEq>(
    alloc: Global,
    bytes: &'static [u8],
    limit: usize,
    want: &Want<T>,
    rest: &[u8],
) -> Result<(), Fail> {
    Trial::new(&ByType, alloc, bytes, want, rest)
        .within(limit)
        .over_each_that_counts()
}

/// Reads a row of many bytes over each reader with so many steps, in one piece and with no fault.
pub fn reads_by_each<T: ReadFrom + PartialEq>(
    alloc: Global,
    bytes: &'static [u8],
    limit: usize,
    want: &Want<T>,
    rest: &[u8],
) -> Result<(), Fail> {
    Trial::new(&ByType, alloc, bytes, want, rest)
        .within(limit)
        .over_each_whole()
}

/// Reads all of the bytes over readers that end what they show at about as many bytes as one look
/// may ask for: a slice, two segments that are cut there, and streams that show so many at a time.
pub fn reads_around_a_look<T: ReadFrom + PartialEq>(
    alloc: Global,
    bytes: &'static [u8],
    want: &Want<T>,
) -> Result<(), Fail> {
    Trial::new(&ByType, alloc, bytes, want, b"").around_a_look()
}

/// Makes the call of each row over each reader.
pub fn calls_rows<C: Calls>(alloc: Global, rows: &[Called]) -> Result<(), Fail> {
    for (name, bytes, want, rest) in rows {
        let want = text_of(alloc, want)?;
        Trial::new(&ByName::<C>::new(alloc, name)?, alloc, bytes, &want, rest).over_each()?;
    }
    Ok(())
}

/// Makes the call of each row within its limit, over each reader that counts its steps.
pub fn calls_rows_within<C: Calls>(alloc: Global, rows: &[CalledWithin]) -> Result<(), Fail> {
    for (name, bytes, limit, want, rest) in rows {
        let (how, want) = (ByName::<C>::new(alloc, name)?, text_of(alloc, want)?);
        Trial::new(&how, alloc, bytes, &want, rest)
            .within(*limit)
            .over_each_that_counts()?;
    }
    Ok(())
}

/// Makes the call of a row of many bytes over each reader, in one piece and with no fault.
pub fn call_by_each<C: Calls>(alloc: Global, row: &CalledWithin) -> Result<(), Fail> {
    let (name, bytes, limit, want, rest) = row;
    let (how, want) = (ByName::<C>::new(alloc, name)?, text_of(alloc, want)?);
    Trial::new(&how, alloc, bytes, &want, rest)
        .within(*limit)
        .over_each_whole()
}

/// Makes the call over the readers of `reads_around_a_look`: what it reads has this text.
pub fn call_around_a_look<C: Calls>(
    alloc: Global,
    name: &str,
    bytes: &'static [u8],
    text: &str,
) -> Result<(), Fail> {
    let want = Ok(String::from_str(alloc, text)?);
    Trial::new(&ByName::<C>::new(alloc, name)?, alloc, bytes, &want, b"").around_a_look()
}

/// What is read has the text that is wanted.
pub fn text_of(alloc: Global, want: &Want<&str>) -> Result<Want<String>, AllocError> {
    match want {
        Ok(text) => Ok(Ok(String::from_str(alloc, text)?)),
        Err(rejection) => Ok(Err(rejection)),
    }
}

/// Reads the bytes of each row over each reader: what is read has the row's `Debug` text.
pub fn reads_texts<T: ReadFrom>(alloc: Global, rows: &[Row<&'static str>]) -> Result<(), Fail> {
    let how = ByText::<T>(PhantomData);
    for (bytes, want, rest) in rows {
        Trial::new(&how, alloc, bytes, &text_of(alloc, want)?, rest).over_each()?;
    }
    Ok(())
}

/// Reads the bytes of each row within its limit, over each reader that counts its steps: what is
/// read has the row's `Debug` text.
pub fn reads_texts_within<T: ReadFrom>(
    alloc: Global,
    rows: &[RowWithin<&'static str>],
) -> Result<(), Fail> {
    let how = ByText::<T>(PhantomData);
    for (bytes, limit, want, rest) in rows {
        let want = text_of(alloc, want)?;
        let trial = Trial::new(&how, alloc, bytes, &want, rest).within(*limit);
        trial.over_each_that_counts()?;
    }
    Ok(())
}

/// The reader over a stream that a row is tried over.
pub type Stream = IoReader<FailingStream<'static>>;

// A stream that shows at most so many bytes at a time, so many times before it fails.
fn stream(bytes: &'static [u8], most: usize, looks: usize, limit: usize) -> Stream {
    IoReader::with_limit(FailingStream::new(bytes, most, looks), limit)
}

/// What is borrowed is rejected with so many steps, over a slice and over a zero-copy reader.
/// That reader fails at the first show, at the second, and so on until none is left to fail.
/// Nothing is taken, and the answer is the reader's error where it fails, and else the error.
pub fn lends_none<T>(
    alloc: Global,
    bytes: &'static [u8],
    limit: usize,
    rejection: &'static str,
) -> Result<(), Fail>
where
    T: ReadBy<SliceReader<'static>> + ReadBy<TestReader<'static>> + PartialEq + Debug + Drop,
{
    let want: Want<T> = Err(rejection);
    let mut slice = SliceReader::with_limit(bytes, limit);
    reads_over(alloc, &mut slice, bytes, &want, bytes)?;
    for shows in 0..MOST_CALLS {
        let forgetting = failing(bytes, limit, Shown::Whole, shows).forgetting();
        let has_forgotten = takes_none(alloc, forgetting, bytes, &want, b"")?;
        let reader = failing(bytes, limit, Shown::Whole, shows);
        if !takes_none(alloc, reader, bytes, &want, bytes)? && !has_forgotten {
            return Ok(());
        }
    }
    Err(Fail::new(format_args!("too many shows of {bytes:?}")))
}

// Whether the reader failed. Then the answer is its error, and `left` is left of the bytes. Else
// the answer is what is wanted, and all of them are left. The budget is as before.
fn takes_none<T: ReadBy<TestReader<'static>> + PartialEq + Debug + Drop>(
    alloc: Global,
    mut reader: TestReader<'static>,
    bytes: &[u8],
    want: &Want<T>,
    left: &[u8],
) -> Result<bool, Fail> {
    let limit = reader.steps();
    let got = T::read_by(alloc, &mut reader);
    let has_failed = reader.failures() == 1;
    let is_kept = if has_failed {
        reader.remaining() == left
    } else {
        reader.remaining() == bytes
    };
    if reader.steps() != limit || !is_kept {
        return Err(Fail::new(format_args!("{got:?} takes some of {bytes:?}")));
    }
    if has_failed {
        is_same(got, bytes, &Err("Read(Failure)"))?;
    } else {
        is_same(got, bytes, want)?;
    }
    Ok(has_failed)
}

/// Reads over this reader, which holds `bytes`: the answer, the bytes left, and the steps as
/// before.
pub fn reads_over<T, S>(
    alloc: Global,
    reader: &mut S,
    bytes: &[u8],
    want: &Want<T>,
    rest: &[u8],
) -> Result<(), Fail>
where
    T: ReadBy<S> + PartialEq + Debug + Drop,
    S: Source,
{
    let budget = steps(reader);
    let got = T::read_by(alloc, reader);
    keeps(alloc, &got, reader, budget, bytes)?;
    is_same(got, bytes, want)?;
    leaves(reader, bytes, rest)
}

/// Reads over this reader, which holds `bytes`: what is read has this `Debug` text.
pub fn reads_text_over<T: Decodable + Decode<S> + Debug + Drop, S: Source>(
    alloc: Global,
    reader: &mut S,
    bytes: &[u8],
    want: &Want<&str>,
    rest: &[u8],
) -> Result<(), Fail> {
    let budget = steps(reader);
    let got = says(alloc, T::decode(alloc, reader));
    keeps(alloc, &got, reader, budget, bytes)?;
    is_same(got, bytes, &text_of(alloc, want)?)?;
    leaves(reader, bytes, rest)
}

/// Reads all the bytes over this reader as one value, with the steps as before. Where memory is
/// refused, an end of the bytes is left.
pub fn reads_all<T, S>(alloc: Global, reader: &mut S, bytes: &[u8]) -> Result<T, Fail>
where
    T: Decodable + Decode<S> + Drop,
    S: Source,
{
    let budget = steps(reader);
    let got = T::decode(alloc, reader);
    keeps(alloc, &got, reader, budget, bytes)?;
    match got {
        Ok(value) => {
            leaves(reader, bytes, b"")?;
            Ok(value)
        }
        Err(error) => Err(Fail::new(format_args!("{error:?} of {bytes:?}"))),
    }
}

// The steps are as before. Want of memory is the failure of the test, and leaves an end of the
// bytes.
fn keeps<T: Drop, S: Source>(
    alloc: Global,
    got: &Result<T, DecodeError<S::Error>>,
    reader: &mut S,
    budget: u16,
    bytes: &[u8],
) -> Result<(), Fail> {
    if steps(reader) != budget {
        return Err(Fail::new(format_args!("not {budget} steps after {bytes:?}")));
    }
    if matches!(got, Err(DecodeError::OutOfMemory)) {
        leaves_an_end(alloc, reader, bytes)?;
        return Err(Fail::from(DecodeError::<Never>::OutOfMemory));
    }
    Ok(())
}

// Takes all that is left of the bytes, an end of them.
fn leaves_an_end<S: Source>(alloc: Global, reader: &mut S, bytes: &[u8]) -> Result<(), Fail> {
    let mut left = Vec::new(alloc);
    for _ in 0..bytes.len() {
        match next_byte(reader) {
            Some(byte) => left.push(byte)?,
            None => break,
        }
    }
    if bytes.ends_with(&left) && next_byte(reader).is_none() {
        return Ok(());
    }
    Err(Fail::new(format_args!("{left:?} is left of {bytes:?}")))
}

/// Each proper prefix of the item is the end of the input, over each reader that does not fail:
/// nothing is left, and the steps are as before.
pub fn ends_at_each_prefix<T: ReadFrom>(
    alloc: Global,
    item: &'static [u8],
    limit: usize,
) -> Result<(), Fail> {
    ends_at_each::<T, _>(&ByType, alloc, item, limit)
}

/// Each proper prefix of the call's item is the end of the input, over the same readers.
pub fn call_ends_at_each_prefix<C: Calls>(
    alloc: Global,
    name: &str,
    item: &'static [u8],
) -> Result<(), Fail> {
    ends_at_each::<String, _>(&ByName::<C>::new(alloc, name)?, alloc, item, STEPS)
}

fn ends_at_each<T, R>(how: &R, alloc: Global, item: &'static [u8], limit: usize) -> Result<(), Fail>
where
    T: Debug + Drop,
    R: Way<T, SliceReader<'static>>
        + Way<T, SegmentReader<'static>>
        + Way<T, TestReader<'static>>
        + Way<T, Stream>,
{
    for shown in 0..item.len() {
        let prefix = &item[..shown];
        ends::<T, _, _>(how, alloc, SliceReader::with_limit(prefix, limit), prefix)?;
        ends::<T, _, _>(how, alloc, TestReader::long(prefix, limit), prefix)?;
        ends::<T, _, _>(how, alloc, TestReader::short(prefix, limit), prefix)?;
        ends::<T, _, _>(how, alloc, TestReader::whole(prefix, limit), prefix)?;
        ends::<T, _, _>(how, alloc, TestReader::in_turn(prefix, limit), prefix)?;
        ends::<T, _, _>(how, alloc, TestReader::unlimited(prefix), prefix)?;
        // In two halves, with no byte after them.
        let (first, second) = prefix.split_at(prefix.len() / 2);
        let segments = vec![in alloc; first, second, b""]?.leak();
        ends::<T, _, _>(
            how,
            alloc,
            SegmentReader::with_limit(segments, limit),
            prefix,
        )?;
        ends::<T, _, _>(how, alloc, stream(prefix, 1, usize::MAX, limit), prefix)?;
        ends::<T, _, _>(
            how,
            alloc,
            stream(prefix, usize::MAX, usize::MAX, limit),
            prefix,
        )?;
    }
    Ok(())
}

fn ends<T: Debug + Drop, S: Source + Drop, R: Way<T, S>>(
    how: &R,
    alloc: Global,
    mut reader: S,
    prefix: &[u8],
) -> Result<(), Fail> {
    let budget = steps(&mut reader);
    let (got, mut reader) = how.read(alloc, reader);
    if matches!(got, Err(DecodeError::OutOfMemory)) {
        return Err(Fail::from(DecodeError::<Never>::OutOfMemory));
    }
    if matches!(got, Err(DecodeError::Eof { .. })) && steps(&mut reader) == budget {
        return leaves(&mut reader, prefix, b"");
    }
    Err(Fail::new(format_args!("{got:?} of the prefix {prefix:?}")))
}

// Compares an answer.
fn is_same<T: PartialEq + Debug + Drop, E: Debug + Drop>(
    got: Result<T, DecodeError<E>>,
    bytes: &[u8],
    want: &Want<T>,
) -> Result<(), Fail> {
    let is_wanted = match (&got, want) {
        (Ok(value), Ok(wanted)) => value == wanted,
        (Err(DecodeError::OutOfMemory), _) => {
            return Err(Fail::from(DecodeError::<Never>::OutOfMemory));
        }
        (Err(error), Err(text)) => InlineText::<128>::of(error).as_str() == *text,
        _ => false,
    };
    if is_wanted {
        return Ok(());
    }
    Err(Fail::new(format_args!("{got:?} in the place of {want:?} of {bytes:?}")))
}

/// Takes all that is left of the row's bytes: exactly `rest`, which is an end of them.
pub fn leaves<S: Source>(reader: &mut S, bytes: &[u8], rest: &[u8]) -> Result<(), Fail> {
    let mut is_left = bytes.ends_with(rest);
    for byte in rest {
        is_left = is_left && next_byte(reader) == Some(*byte);
    }
    if is_left && next_byte(reader).is_none() {
        return Ok(());
    }
    Err(Fail::new(format_args!("not {rest:?} is left of {bytes:?}")))
}

fn next_byte<S: Source>(reader: &mut S) -> Option<u8> {
    let mut failure = None;
    let byte = match look(reader, 1, &mut failure) {
        Some([first, ..]) => *first,
        _ => return None,
    };
    reader.advance(1);
    Some(byte)
}

/// How many steps the reader has left, counted up to 300.
pub fn steps<S: Source>(reader: &mut S) -> u16 {
    let mut taken: u16 = 0;
    for _ in 0..300 {
        if !reader.step_in() {
            break;
        }
        taken = taken.saturating_add(1);
    }
    for _ in 0..taken {
        reader.step_out();
    }
    taken
}

/// How a reader that fails shows bytes.
#[derive(Clone, Copy)]
pub enum Shown {
    /// One by one.
    ByByte,
    /// One by one, each for as long as the input lives.
    LentByByte,
    /// All that are left, for as long as the input lives.
    Whole,
}

// A reader that shows bytes so many times before it fails.
fn failing(bytes: &'static [u8], limit: usize, shown: Shown, shows: usize) -> TestReader<'static> {
    let reader = match shown {
        Shown::ByByte => TestReader::short(bytes, limit),
        Shown::LentByByte => TestReader::long(bytes, limit),
        Shown::Whole => TestReader::whole(bytes, limit),
    };
    reader.failing_after(shows)
}

/// What a row writes: a value, or an item in parts.
pub trait WriteTo {
    /// Writes it after what `writer` holds.
    fn write_to<W: Write>(&self, writer: &mut W) -> Result<(), EncodeError<W::Error>>;
}

impl<T: Encode> WriteTo for T {
    fn write_to<W: Write>(&self, writer: &mut W) -> Result<(), EncodeError<W::Error>> {
        self.encode(writer)
    }
}

/// Writes the value after a byte that stands there, and with a fault at each push and at each
/// byte. Answers how many pushes it takes.
pub fn writes<T: WriteTo>(alloc: Global, value: &T, bytes: &[u8]) -> Result<usize, Fail> {
    let mut writer = BufWriter::new(vec![in alloc; 0xff]?);
    let got = value.write_to(&mut writer);
    is_appended(got, writer.buffer().strip_prefix(b"\xff".as_slice()), bytes)?;
    let mut pushes = PushLengths::new(alloc);
    value.write_to(&mut pushes)?;
    fails_at_each_push(alloc, value, bytes, pushes.lengths())?;
    fails_at_each_byte(alloc, value, bytes)?;
    Ok(pushes.lengths().len())
}

// What a writer holds after a byte that stood there is what is wanted, or a prefix of it where
// memory is refused, which is the failure of the test.
fn is_appended<E: Debug + Drop>(
    got: Result<(), EncodeError<E>>,
    held: Option<&[u8]>,
    wanted: &[u8],
) -> Result<(), Fail> {
    match (got, held) {
        (Ok(()), _) => is_written(held, wanted),
        (Err(EncodeError::Write(_)), Some(held)) if wanted.starts_with(held) => {
            Err(Fail::from(DecodeError::<Never>::OutOfMemory))
        }
        (Err(error), _) => Err(Fail::new(format_args!("{error:?} and {held:?}"))),
    }
}

// Compares what a writer holds.
fn is_written(held: Option<&[u8]>, wanted: &[u8]) -> Result<(), Fail> {
    if held == Some(wanted) {
        return Ok(());
    }
    Err(Fail::new(format_args!("{held:?} is written in the place of {wanted:?}")))
}

// A writer that fails at the first push, at the second, and so on: then the pushes before it are
// held, and no other.
fn fails_at_each_push<T: WriteTo>(
    alloc: Global,
    value: &T,
    bytes: &[u8],
    lengths: &[usize],
) -> Result<(), Fail> {
    let mut held: usize = 0;
    for (push, length) in lengths.iter().enumerate() {
        let mut writer = FailingWriter::new(Vec::with_capacity(alloc, bytes.len())?, push);
        let got = value.write_to(&mut writer);
        let is_reported = matches!(got, Err(EncodeError::Write(Failure))) && writer.failures() == 1;
        if !is_reported || bytes.get(..held) != Some(writer.buffer()) {
            return Err(Fail::new(format_args!("{got:?} where push {push} fails, of {bytes:?}")));
        }
        held = held.saturating_add(*length);
    }
    is_written(bytes.get(..held), bytes)
}

// A stream that fails at the first byte, at the second, and so on until none is left to fail.
fn fails_at_each_byte<T: WriteTo>(alloc: Global, value: &T, bytes: &[u8]) -> Result<(), Fail> {
    for room in 0..bytes.len() {
        let sink = FailingSink::new(Vec::with_capacity(alloc, bytes.len())?, room);
        let mut writer = IoWriter::new(sink);
        let got = value.write_to(&mut writer);
        let is_reported =
            matches!(&got, Err(EncodeError::Write(error)) if error.kind() == ErrorKind::Other);
        if !is_reported || bytes.get(..room) != Some(writer.into_inner().buffer()) {
            return Err(Fail::new(format_args!("{got:?} where byte {room} fails, of {bytes:?}")));
        }
    }
    let sink = FailingSink::new(Vec::with_capacity(alloc, bytes.len())?, bytes.len());
    let mut writer = IoWriter::new(sink);
    value.write_to(&mut writer)?;
    is_written(Some(writer.into_inner().buffer()), bytes)
}

/// Writes the value as `writes` does, in so many pushes.
pub fn writes_in<T: WriteTo>(
    alloc: Global,
    value: &T,
    bytes: &[u8],
    pushes: usize,
) -> Result<(), Fail> {
    let found = writes(alloc, value, bytes)?;
    if found == pushes {
        return Ok(());
    }
    Err(Fail::new(format_args!("{found} pushes of {bytes:?}")))
}

/// Writes the value in these pushes: a writer that fails at one of them holds those before it.
pub fn writes_pushes<T: WriteTo>(alloc: Global, value: &T, pushes: &[&[u8]]) -> Result<(), Fail> {
    let mut held = Vec::new(alloc);
    for (taken, push) in pushes.iter().enumerate() {
        holds_at_push(alloc, value, taken, &held)?;
        held.extend_from_slice(push)?;
    }
    writes_in(alloc, value, &held, pushes.len())
}

fn holds_at_push<T: WriteTo>(
    alloc: Global,
    value: &T,
    taken: usize,
    held: &[u8],
) -> Result<(), Fail> {
    let mut writer = FailingWriter::new(Vec::with_capacity(alloc, held.len())?, taken);
    if value.write_to(&mut writer).is_err() && writer.buffer() == held {
        return Ok(());
    }
    Err(Fail::new(format_args!("push {taken} behind {held:?}")))
}

/// Writes the value in so many pushes, and reads it back from its bytes.
pub fn goes_both_ways<T>(
    alloc: Global,
    value: T,
    bytes: &'static [u8],
    pushes: usize,
) -> Result<(), Fail>
where
    T: WriteTo + ReadFrom + PartialEq,
{
    writes_in(alloc, &value, bytes, pushes)?;
    reads(alloc, bytes, Ok(value), b"")
}

/// Writes the value of each row as `writes_in` does: the value, its bytes and its pushes.
pub fn writes_rows<T: WriteTo>(alloc: Global, rows: &[(T, &[u8], usize)]) -> Result<(), Fail> {
    for (value, bytes, pushes) in rows {
        writes_in(alloc, value, bytes, *pushes)?;
    }
    Ok(())
}

/// Reads the bytes of each row, which have this `Debug` text, and writes what was read in so many
/// pushes: it has to be the row's bytes.
pub fn texts_go_both_ways<T>(
    alloc: Global,
    rows: &[(&'static [u8], &'static str, usize)],
) -> Result<(), Fail>
where
    T: WriteTo + ReadFrom,
{
    for (bytes, text, pushes) in rows {
        reads_texts::<T>(alloc, &[(bytes, Ok(text), b"")])?;
        let value = T::read_from(alloc, &mut SliceReader::new(bytes))?;
        writes_in(alloc, &value, bytes, *pushes)?;
    }
    Ok(())
}
