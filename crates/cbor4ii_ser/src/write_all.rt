//! One value, written whole.
ghost use Rattle.std.specs.Prelude.{◌≡◌, ◌++◌, IfOk, IfErr};
ghost use Rattle.cbor4ii_rw.specs.Writer.{Appends};
ghost use Rattle.cbor4ii_ser.specs.Item.{IsEncodedAnd};
ghost use Rattle.cbor4ii_ser.specs.Serializing.{SaysWhy};

use crate::error::EncodeError;
use crate::serialize::Serialize;
use crate::serializer::Serializer;
use cbor4ii_rw::buf_writer::BufWriter;
use cbor4ii_rw::error::TryReserveError;
use cbor4ii_rw::io_writer::IoWriter;
use std::io;

/// Appends the value's item to `buf`, and answers that.
///
/// # Errors
///
/// `buf` is dropped. `Custom` only where the value has no item, in the words that its type gives
/// for that; else `Core`, of which nothing more is said here.
///
/// To keep `buf`, call the value's `serialize` on `Serializer::new(BufWriter::new(buf))`, and then
/// `into_inner().into_inner()`, whatever the answer is. Its contract says what was appended: after
/// `Ok` the item, after `Custom` exactly what stands before the place at which the value is
/// rejected, and after `Core` a beginning of that.
pub fn to_vec<T: Serialize>(
    buf: Vec<u8>,
    value: &T,
) -> Result<Vec<u8>, EncodeError<TryReserveError>>
    ensures appends { IfOk result (λ v. IsEncodedAnd (T.encoding value.now)
        (λ bytes. v.items ≡ buf.items ++ bytes)) }
    ensures custom { IfErr result (SaysWhy (T.encoding value.now)) }
{
    let mut ser = Serializer::new(BufWriter::new(buf));
    value.serialize(&mut ser)?;
    Ok(ser.into_inner().into_inner())
}

/// Appends the value's item to what `writer` holds, and answers that. The stream is not flushed.
///
/// # Errors
///
/// Those of `to_vec`. `writer` is dropped, and what the stream holds then is not said.
///
/// To keep the stream, call the value's `serialize` on `Serializer::new(IoWriter::new(writer))`,
/// and then `into_inner().into_inner()`, whatever the answer is. Its contract says what was
/// appended, as for `to_vec`; after `Core` it says nothing of the stream.
pub fn to_writer<W: io::Write + Drop, T: Serialize>(
    writer: W,
    value: &T,
) -> Result<W, EncodeError<io::Error>>
    ensures appends { IfOk result (λ stream. IsEncodedAnd (T.encoding value.now)
        (λ bytes. Appends bytes (W.contents writer) (W.contents stream))) }
    ensures custom { IfErr result (SaysWhy (T.encoding value.now)) }
{
    let mut ser = Serializer::new(IoWriter::new(writer));
    value.serialize(&mut ser)?;
    Ok(ser.into_inner().into_inner())
}
