//! Why a run stopped.
ghost use Rattle.std.specs.Prelude.{◌≡◌};
ghost use Rattle.cbor4ii_tool.specs.Fault.{kind_of, status_of};

use cbor4ii::error::DecodeError;
use std::fmt;

/// Why an item was not read or written, by the names of the codec's errors.
#[derive(Clone, Copy, Debug, PartialEq, Eq)]
pub enum Kind {
    /// The input could not be read.
    Read,
    /// A byte begins something else.
    Mismatch,
    /// A byte begins nothing that is read.
    Unsupported,
    /// The input ends inside an item.
    Eof,
    /// A length is not one that is read.
    RequireLength,
    /// The input does not live as long as a part of it has to.
    RequireBorrowed,
    /// A text is not UTF-8.
    RequireUtf8,
    /// A length is too great.
    LengthOverflow,
    /// A number does not fit its type.
    CastOverflow,
    /// A computation left its range.
    ArithmeticOverflow,
    /// Items nest too deeply.
    DepthOverflow,
    /// A decoder of a user's own rejected.
    Custom,
    /// There was no memory for the words of the command line, for a buffer, or for what was read.
    OutOfMemory,
    /// An item stands there, or may, and not by its canonical encoding.
    NotCanonical,
    /// There was no memory for what is written, or it could not be written or flushed.
    Write,
}

impl Kind {
    /// The kind of the error's own name.
    pub fn of<E>(error: &DecodeError<E>) -> Kind
        ensures { result ≡ kind_of error.now }
    {
        match error {
            DecodeError::Read(_) => Kind::Read,
            DecodeError::Mismatch { .. } => Kind::Mismatch,
            DecodeError::Unsupported { .. } => Kind::Unsupported,
            DecodeError::Eof { .. } => Kind::Eof,
            DecodeError::RequireLength { .. } => Kind::RequireLength,
            DecodeError::RequireBorrowed { .. } => Kind::RequireBorrowed,
            DecodeError::RequireUtf8 { .. } => Kind::RequireUtf8,
            DecodeError::LengthOverflow { .. } => Kind::LengthOverflow,
            DecodeError::CastOverflow { .. } => Kind::CastOverflow,
            DecodeError::ArithmeticOverflow { .. } => Kind::ArithmeticOverflow,
            DecodeError::DepthOverflow { .. } => Kind::DepthOverflow,
            DecodeError::Custom { .. } => Kind::Custom,
            DecodeError::OutOfMemory => Kind::OutOfMemory,
            DecodeError::NotCanonical { .. } => Kind::NotCanonical,
        }
    }
}

/// Where a run stopped, and why. It prints as `fault at 5: Eof`.
#[derive(Clone, Copy, Debug, PartialEq, Eq)]
pub struct Fault {
    /// How many bytes were taken before the item in work, or in all where a flush failed.
    pub at: u64,
    /// Why the item there was not read or written, or that the flush failed.
    pub kind: Kind,
}

impl fmt::Display for Fault {
    fn fmt<W: fmt::Write>(&self, f: &mut fmt::Formatter<W>) -> fmt::Result {
        write!(f, "fault at {}: {:?}", self.at, self.kind)
    }
}

/// The exit status: 0 after a run without a fault, 1 after one with.
pub fn status(outcome: &Result<(), Fault>) -> u8
    ensures { result ≡ status_of outcome.now }
{
    match outcome {
        Ok(()) => 0,
        Err(_) => 1,
    }
}
