//! Texts that are written piece by piece, as rows.
use crate::pieces::{Parts, joined};
use crate::typed::{Put, Typed};
use cbor4ii_rw::write::Write;
use cbor4ii_ser::error::EncodeError;
use cbor4ii_ser::serializer::Serializer;
use cbor4ii_ser::text::Text;
use cbor4ii_vectors::rows::writes;
use std::alloc::Global;
use std::test::Fail;

/// A text that is written piece by piece.
#[derive(Drop)]
pub struct ByPieces<T>(pub T);

impl<T: Text> Put for ByPieces<T> {
    fn put<W: Write>(&self, ser: &mut Serializer<W>) -> Result<(), EncodeError<W::Error>> {
        ser.collect_str(&self.0)
    }
}

/// The text is written as these parts.
pub fn writes_text<T: Text + Drop>(alloc: Global, text: T, parts: Parts<'_>) -> Result<(), Fail> {
    writes(alloc, &Typed(ByPieces(text)), &joined(alloc, parts)?)?;
    Ok(())
}

/// What a text of no letter is written as.
pub const EMPTY: Parts<'static> = &[(b"\x60", 0)];
