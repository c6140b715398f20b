//! Strings, written.
ghost use Rattle.std.specs.Prelude.{string_bytes};
ghost use Rattle.cbor4ii_items.specs.Strings.{definite_string};

use crate::encode::Encode;
use crate::major;
use crate::push::push_string;
use crate::types::{Bytes, UncheckedStr};
use cbor4ii_rw::error::EncodeError;
use cbor4ii_rw::write::Write;

/// A byte string: its head in one push, and its content in another.
impl<'a> Encode for Bytes<&'a [u8]> {
    ghost bytes = { λ v. definite_string 2 v.0.now };

    #[inline(always)]
    fn encode<W: Write>(&self, writer: &mut W) -> Result<(), EncodeError<W::Error>> {
        push_string(writer, major::BYTES, self.0)
    }
}

/// A text string, whatever its bytes: its head in one push, and its content in another.
impl<'a> Encode for UncheckedStr<&'a [u8]> {
    ghost bytes = { λ v. definite_string 3 v.0.now };

    #[inline(always)]
    fn encode<W: Write>(&self, writer: &mut W) -> Result<(), EncodeError<W::Error>> {
        push_string(writer, major::STRING, self.0)
    }
}

/// A text string: its head in one push, and its content in another.
impl<'a> Encode for &'a str {
    ghost bytes = { λ v. definite_string 3 v.now };

    #[inline(always)]
    fn encode<W: Write>(&self, writer: &mut W) -> Result<(), EncodeError<W::Error>> {
        push_string(writer, major::STRING, self.as_bytes())
    }
}

/// A text string: its head in one push, and its content in another.
impl Encode for String {
    ghost bytes = { λ v. definite_string 3 (string_bytes v) };

    #[inline(always)]
    fn encode<W: Write>(&self, writer: &mut W) -> Result<(), EncodeError<W::Error>> {
        push_string(writer, major::STRING, self.as_bytes())
    }
}
