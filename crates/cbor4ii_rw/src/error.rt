//! Why a value was not read or written.
ghost use Rattle.std.specs.Prelude.{◌≡◌, ◌<◌, ◌≤◌};
ghost use Rattle.cbor4ii_rw.specs.declared.error.DecodeError.TheVariants.{Read};
ghost use Rattle.cbor4ii_rw.specs.declared.error.EncodeError.TheVariants.{Write};
ghost use Rattle.cbor4ii_rw.specs.declared.error.WholeError.TheVariants.{Decode};
ghost use Rattle.cbor4ii_rw.specs.Errors.{is_eof, name_of, byte_of};

/// Why a vector could not grow.
pub use std::collections::TryReserveError;
/// The error of a reader that never fails.
pub use std::convert::Infallible as Never;
use std::error::Error;
use std::fmt;

/// The name of what was read, in an error.
pub type StaticStr = &'static str;

/// A number of bytes, items or pairs, in an error.
#[derive(Clone, Copy, Debug, PartialEq, Eq)]
pub enum Len {
    /// An indefinite length (RFC 8949 section 3.2).
    Indefinite,
    /// The number itself.
    Small(u16),
    /// A number above 65535.
    Big,
}

impl Len {
    /// `n`, as an error reports it: exactly up to 65535, and `Big` above.
    pub fn new(n: usize) -> Len
        ensures small { n < 65536 → result ≡ Len.Small n }
        ensures big { 65536 ≤ n → result ≡ Len.Big }
    {
        match u16::try_from(n) {
            Ok(small) => Len::Small(small),
            Err(_) => Len::Big,
        }
    }
}

/// How a computation left its range.
#[derive(Clone, Copy, Debug, PartialEq, Eq)]
pub enum ArithmeticOverflow {
    /// It was too great.
    Overflow,
    /// It was too small.
    Underflow,
}

/// Why a value was not read. `name` says what was read: a type, or a part of its encoding.
///
/// Documents say an error by this name, and with the other field: `Eof` by "u8" with 1 is the one
/// whose `name` is "u8" and whose `expect` is 1.
#[derive(Clone, Debug, PartialEq, Eq, Drop)]
pub enum DecodeError<E> {
    /// The reader failed.
    Read(E),
    /// Something else begins here.
    Mismatch {
        name: StaticStr,
        /// Its first byte; where `name` is "u128::tag" or "i128::tag", the number of the tag.
        found: u8,
    },
    /// The byte `found` begins nothing that is read.
    Unsupported {
        name: StaticStr,
        /// The byte.
        found: u8,
    },
    /// The input ends too early.
    Eof {
        name: StaticStr,
        /// Of a string's content, and of a number or a float that is skipped, how many bytes are
        /// missing. Of all else, a bignum's content too, how many were asked for, with those that
        /// are there.
        expect: Len,
    },
    /// The length is not one that is read, or the reader lends less than that.
    RequireLength {
        name: StaticStr,
        /// The length; of a string that is borrowed, the number of bytes that are lent or left.
        found: Len,
    },
    /// The reader does not lend the bytes as long as the input lives, or they are not in one piece.
    RequireBorrowed {
        name: StaticStr,
    },
    /// A text is not UTF-8.
    RequireUtf8 {
        name: StaticStr,
    },
    /// The length is too great.
    LengthOverflow {
        name: StaticStr,
        /// The length.
        found: Len,
    },
    /// The number does not fit its type.
    CastOverflow {
        name: StaticStr,
    },
    /// A computation left its range. This codec never answers it.
    ArithmeticOverflow {
        name: StaticStr,
        /// How.
        ty: ArithmeticOverflow,
    },
    /// No step of the reader's budget is left for what comes next.
    DepthOverflow {
        name: StaticStr,
    },
    /// For decoders of a user's own. This codec never answers it.
    Custom {
        name: StaticStr,
        /// Whatever the user means by it.
        num: u32,
    },
    /// There was no memory for the value.
    OutOfMemory,
    /// A value begins here, or may, and not by its canonical encoding.
    NotCanonical {
        name: StaticStr,
    },
}

impl<E> DecodeError<E> {
    /// Whether the input ended too early. Over a stream that is still written, more may come.
    pub fn is_eof(&self) -> bool
        ensures { result ≡ is_eof self.now }
    {
        matches!(self, DecodeError::Eof { .. })
    }

    /// What was read: `name` of the variants that have one. `Read` and `OutOfMemory` have none.
    pub fn name(&self) -> Option<StaticStr>
        ensures { result ≡ name_of self.now }
    {
        match self {
            DecodeError::Mismatch { name, .. }
            | DecodeError::Unsupported { name, .. }
            | DecodeError::Eof { name, .. }
            | DecodeError::RequireLength { name, .. }
            | DecodeError::RequireBorrowed { name }
            | DecodeError::RequireUtf8 { name }
            | DecodeError::LengthOverflow { name, .. }
            | DecodeError::CastOverflow { name }
            | DecodeError::ArithmeticOverflow { name, .. }
            | DecodeError::DepthOverflow { name }
            | DecodeError::Custom { name, .. }
            | DecodeError::NotCanonical { name } => Some(*name),
            DecodeError::Read(_) | DecodeError::OutOfMemory => None,
        }
    }

    /// The byte that was found: `found` of `Mismatch` and of `Unsupported`. Of a `Mismatch` by
    /// "u128::tag" or "i128::tag" it is the number of the tag.
    pub fn found(&self) -> Option<u8>
        ensures { result ≡ byte_of self.now }
    {
        match self {
            DecodeError::Mismatch { found, .. } | DecodeError::Unsupported { found, .. } => {
                Some(*found)
            }
            _ => None,
        }
    }
}

/// Why an input is not one item and nothing else.
#[derive(Clone, Debug, PartialEq, Eq, Drop)]
pub enum WholeError<E> {
    /// The input does not begin with an item that is read, or there was no memory for it.
    Decode(E),
    /// The input begins with such an item, and so many bytes follow it, one at least.
    Trailing(usize),
}

/// Why an input was rejected, and at which byte.
#[derive(Clone, Debug, PartialEq, Eq, Drop)]
pub struct ErrorAt<E> {
    /// How many bytes were taken, from the first one: what the error leaves begins at this byte.
    pub at: usize,
    /// Why.
    pub error: E,
}

/// Why a value was not written.
#[derive(Clone, Debug, PartialEq, Eq, Drop)]
pub enum EncodeError<E> {
    /// The writer failed.
    Write(E),
}

impl<E> From<E> for DecodeError<E> {
    ghost from_gives = { λ error result. result ≡ Read error };

    fn from(error: E) -> DecodeError<E> {
        DecodeError::Read(error)
    }
}

impl<E> From<E> for WholeError<E> {
    ghost from_gives = { λ error result. result ≡ Decode error };

    fn from(error: E) -> WholeError<E> {
        WholeError::Decode(error)
    }
}

impl<E> From<E> for EncodeError<E> {
    ghost from_gives = { λ error result. result ≡ Write error };

    fn from(error: E) -> EncodeError<E> {
        EncodeError::Write(error)
    }
}

/// The text of `Debug`.
impl<E: fmt::Debug> fmt::Display for DecodeError<E> {
    fn fmt<W: fmt::Write>(&self, f: &mut fmt::Formatter<W>) -> fmt::Result {
        fmt::Debug::fmt(self, f)
    }
}

/// The text of `Debug`.
impl<E: fmt::Debug> fmt::Display for EncodeError<E> {
    fn fmt<W: fmt::Write>(&self, f: &mut fmt::Formatter<W>) -> fmt::Result {
        fmt::Debug::fmt(self, f)
    }
}

/// The error of reading, or how many bytes follow the item.
impl<E: fmt::Display> fmt::Display for WholeError<E> {
    fn fmt<W: fmt::Write>(&self, f: &mut fmt::Formatter<W>) -> fmt::Result {
        match self {
            WholeError::Decode(error) => write!(f, "{error}"),
            WholeError::Trailing(left) => write!(f, "bytes after the item: {left}"),
        }
    }
}

impl<E: fmt::Display> fmt::Display for ErrorAt<E> {
    fn fmt<W: fmt::Write>(&self, f: &mut fmt::Formatter<W>) -> fmt::Result {
        let ErrorAt { at, error } = self;
        write!(f, "byte {at}: {error}")
    }
}

impl<E: fmt::Debug + Drop> Error for DecodeError<E> {}

impl<E: Error> Error for WholeError<E> {}

impl<E: Error> Error for ErrorAt<E> {}

impl<E: fmt::Debug + Drop> Error for EncodeError<E> {}
