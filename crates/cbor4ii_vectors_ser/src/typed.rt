//! What calls of a serializer write, as rows.
use cbor4ii_rw::error as core_error;
use cbor4ii_rw::error::StaticStr;
use cbor4ii_rw::write::Write;
use cbor4ii_ser::error::EncodeError;
use cbor4ii_ser::serialize::Serialize;
use cbor4ii_ser::serializer::Serializer;
use cbor4ii_vectors::rows::WriteTo;

/// What calls of a serializer write: a typed value, or what a row calls by itself.
pub trait Put {
    /// Makes the calls.
    fn put<W: Write>(&self, ser: &mut Serializer<W>) -> Result<(), EncodeError<W::Error>>;
}

impl<T: Serialize> Put for T {
    fn put<W: Write>(&self, ser: &mut Serializer<W>) -> Result<(), EncodeError<W::Error>> {
        self.serialize(ser)
    }
}

/// Writes the byte `1c`, with which no item begins (RFC 8949 section 3), so that the row fails.
pub fn spoil<W: Write>(writer: &mut W) -> Result<(), core_error::EncodeError<W::Error>> {
    match writer.push(b"\x1c") {
        Ok(()) => Ok(()),
        Err(error) => Err(core_error::EncodeError::Write(error)),
    }
}

/// Writes the value after what `writer` holds. A value that is rejected spoils its row.
pub fn write_typed<T: Put, W: Write>(
    value: &T,
    writer: &mut W,
) -> Result<(), core_error::EncodeError<W::Error>> {
    let mut ser = Serializer::new(writer);
    match value.put(&mut ser) {
        Ok(()) => Ok(()),
        Err(EncodeError::Custom(_)) => spoil(ser.into_inner()),
        Err(EncodeError::Core(error)) => Err(error),
    }
}

/// What calls of a serializer write.
#[derive(Drop)]
pub struct Typed<T>(pub T);

impl<T: Put> WriteTo for Typed<T> {
    fn write_to<W: Write>(&self, writer: &mut W) -> Result<(), core_error::EncodeError<W::Error>> {
        write_typed(&self.0, writer)
    }
}

/// Calls of a serializer that end with an error in these words: what stands before it. One that is
/// not rejected so spoils its row.
#[derive(Drop)]
pub struct Rejected<T>(pub T, pub StaticStr);

impl<T: Put> WriteTo for Rejected<T> {
    fn write_to<W: Write>(&self, writer: &mut W) -> Result<(), core_error::EncodeError<W::Error>> {
        let mut ser = Serializer::new(writer);
        match self.0.put(&mut ser) {
            Err(EncodeError::Core(error)) => Err(error),
            Err(EncodeError::Custom(words)) if words == self.1 => Ok(()),
            Err(EncodeError::Custom(_)) | Ok(()) => spoil(ser.into_inner()),
        }
    }
}
