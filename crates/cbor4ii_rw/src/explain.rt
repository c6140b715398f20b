//! Errors in words for a person.

use crate::error::{DecodeError, Len};
use std::fmt;

/// An error of reading in words for a person, on one line. `DecodeError::explain` answers it; the
/// `Display` of the error itself is the text of its `Debug`.
#[derive(Debug, Drop)]
pub struct Explained<'a, E>(&'a DecodeError<E>);

impl<E> DecodeError<E> {
    /// This error in words for a person.
    pub fn explain(&self) -> Explained<'_, E> {
        Explained(self)
    }
}

impl<E: fmt::Display> fmt::Display for Explained<'_, E> {
    fn fmt<W: fmt::Write>(&self, f: &mut fmt::Formatter<W>) -> fmt::Result {
        match self.0 {
            DecodeError::Read(error) => write!(f, "the reader failed: {error}"),
            DecodeError::Mismatch { name, found } => {
                write!(f, "expected {name}, found the byte {found:#04x}")
            }
            DecodeError::Unsupported { name, found } => {
                write!(f, "the byte {found:#04x} begins no {name}")
            }
            DecodeError::Eof { name, expect } => {
                write!(
                    f,
                    "the input ends within {name}, of which {expect} bytes are wanted"
                )
            }
            DecodeError::RequireLength { name, found } => {
                write!(f, "{name} of another length: {found}")
            }
            DecodeError::RequireBorrowed { name } => {
                write!(f, "{name} is not lent in one piece")
            }
            DecodeError::RequireUtf8 { name } => write!(f, "{name} is not UTF-8"),
            DecodeError::LengthOverflow { name, found } => {
                write!(f, "{name} is too long: {found}")
            }
            DecodeError::CastOverflow { name } => write!(f, "the number does not fit {name}"),
            DecodeError::ArithmeticOverflow { name, .. } => {
                write!(f, "a computation of {name} left its range")
            }
            DecodeError::DepthOverflow { name } => write!(f, "{name} is nested too deep"),
            DecodeError::Custom { name, num } => write!(f, "{name}: {num}"),
            DecodeError::OutOfMemory => f.write_str("there is no memory for the value"),
            DecodeError::NotCanonical { .. } => f.write_str(
                "the encoding is not the canonical one",
            ),
        }
    }
}

impl fmt::Display for Len {
    fn fmt<W: fmt::Write>(&self, f: &mut fmt::Formatter<W>) -> fmt::Result {
        match self {
            Len::Indefinite => f.write_str("indefinite"),
            Len::Small(length) => write!(f, "{length}"),
            Len::Big => f.write_str("more than 65535"),
        }
    }
}
