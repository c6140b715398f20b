//! How a value is written into a buffer, which keeps what it held where memory is refused, and
//! into memory that is there.
use crate::tally::{Broken, Tally};
use cbor4ii_rw::buf_writer::BufWriter;
use cbor4ii_rw::error as core_error;
use cbor4ii_rw::io_writer::IoWriter;
use cbor4ii_vectors::rows::WriteTo;
use cbor4ii_vectors_ser::typed::{Put, Typed};

// No row writes more bytes.
const MOST_WRITTEN: usize = 512;

impl Tally {
    /// Writes a typed value as `writes` does.
    pub fn puts<T: Put + Drop>(
        &mut self,
        row: &'static str,
        value: T,
        bytes: &[u8],
    ) -> Result<(), Broken> {
        self.writes(row, &Typed(value), bytes)
    }

    /// Writes the value into memory that is there, where nothing is refused, and then after a byte
    /// that stands in a buffer which has no room for more. Where memory is refused, that byte and a
    /// prefix of the value's bytes stand there; after them is room for what is written again.
    pub fn writes<T: WriteTo>(
        &mut self,
        row: &'static str,
        value: &T,
        bytes: &[u8],
    ) -> Result<(), Broken> {
        writes_in_place(row, value, bytes)?;
        let Ok(held) = Vec::from_slice(self.alloc(), b"\xff") else {
            self.refuse();
            return Ok(());
        };
        let mut writer = BufWriter::new(held);
        let got = value.write_to(&mut writer);
        let Some(written) = writer.buffer().strip_prefix(b"\xff".as_slice()) else {
            return Err(Broken::new(row, "the byte before is gone"));
        };
        match got {
            Ok(()) if written == bytes => Ok(()),
            Err(core_error::EncodeError::Write(_))
                if bytes.starts_with(written) && written.len() < bytes.len() => {
                self.refuse();
                writer.clear();
                writes_again(row, value, &mut writer, bytes)
            }
            _ => Err(Broken::new(row, "other bytes are written")),
        }
    }
}

// Writes the value into an empty buffer that refused a push before.
fn writes_again<T: WriteTo>(
    row: &'static str,
    value: &T,
    writer: &mut BufWriter,
    bytes: &[u8],
) -> Result<(), Broken> {
    if value.write_to(writer).is_ok() && writer.buffer() == bytes {
        return Ok(());
    }
    Err(Broken::new(row, "it is not written again"))
}

// Writes the value into a stream over memory that is there, which takes none.
fn writes_in_place<T: WriteTo>(row: &'static str, value: &T, bytes: &[u8]) -> Result<(), Broken> {
    let mut room = [0; MOST_WRITTEN];
    let mut writer = IoWriter::new(room.as_mut_slice());
    let is_written = value.write_to(&mut writer).is_ok();
    let left = writer.into_inner().len();
    let taken = MOST_WRITTEN.saturating_sub(left);
    if is_written && room.get(..taken) == Some(bytes) {
        return Ok(());
    }
    Err(Broken::new(row, "other bytes are written into memory that is there"))
}
