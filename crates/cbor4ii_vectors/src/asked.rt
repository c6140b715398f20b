//! What reading asks of a reader: how often it looks, how many bytes a look wants, and how many
//! have to have come where the reader waits for all that is wanted.
use crate::readers::{Asked, Asks, Failure};
use crate::rows::{ByType, ReadFrom, Way, leaves};
use cbor4ii_rw::error::{DecodeError, Never};
use std::alloc::Global;
use std::test::Fail;

/// So many bytes a look may ask for: two; one fewer than the longest head has, that, and more; one
/// fewer than the longest name that takes no memory has with its head, and that.
pub const WINDOWS: [usize; 6] = [2, 8, 9, 24, 256, 257];

/// How the reader is asked: whether the bytes are read, and what it was asked for. It fails
/// nowhere.
pub fn asks<T: ReadFrom>(
    alloc: Global,
    reader: Asked<'static>,
    bytes: &[u8],
) -> Result<(bool, Asks), Fail> {
    asks_by::<T, _>(&ByType, alloc, reader, bytes)
}

fn asks_by<T: Drop, R: Way<T, Asked<'static>>>(
    how: &R,
    alloc: Global,
    reader: Asked<'static>,
    bytes: &[u8],
) -> Result<(bool, Asks), Fail> {
    let (got, mut reader) = how.read(alloc, reader);
    let asks = reader.asks();
    match got {
        Ok(_) => {
            leaves(&mut reader, bytes, b"")?;
            Ok((true, asks))
        }
        Err(DecodeError::OutOfMemory) => Err(Fail::from(DecodeError::<Never>::OutOfMemory)),
        Err(DecodeError::Read(Failure)) => {
            Err(Fail::new(format_args!("{asks:?}, where {bytes:?} is to be read")))
        }
        Err(_) => Ok((false, asks)),
    }
}

/// The reader is asked for no more than so many looks, and so many bytes have to have come at the
/// most. The bytes are read, or they are not.
pub fn looks_at_most<T: ReadFrom>(
    alloc: Global,
    reader: Asked<'static>,
    bytes: &[u8],
    is_read: bool,
    looks: usize,
    come: usize,
) -> Result<(), Fail> {
    looks_at_most_by::<T, _>(&ByType, alloc, reader, bytes, is_read, looks, come)
}

/// The same where it is read in this way.
pub fn looks_at_most_by<T: Drop, R: Way<T, Asked<'static>>>(
    how: &R,
    alloc: Global,
    reader: Asked<'static>,
    bytes: &[u8],
    is_read: bool,
    looks: usize,
    come: usize,
) -> Result<(), Fail> {
    let (was_read, asks) = asks_by::<T, _>(how, alloc, reader, bytes)?;
    if was_read != is_read {
        return Err(Fail::new(format_args!("{bytes:?} is read or rejected otherwise")));
    }
    if asks.looks <= looks && asks.come <= come {
        return Ok(());
    }
    Err(Fail::new(format_args!("{asks:?}, where {looks} looks read {bytes:?}")))
}

/// Readers of each of `WINDOWS`, which fail where a look asks for more than the greater of the
/// window and `most`, the bytes that a look needs. They show what is wanted, or one byte at a time,
/// and are asked for no more than so many looks. The bytes are read, or they are not.
pub fn looks_within_windows<T: ReadFrom>(
    alloc: Global,
    bytes: &'static [u8],
    is_read: bool,
    most: usize,
    looks: (usize, usize),
) -> Result<(), Fail> {
    looks_within_windows_by::<T, _>(&ByType, alloc, bytes, is_read, most, looks)
}

/// The same where it is read in this way.
pub fn looks_within_windows_by<T: Drop, R: Way<T, Asked<'static>>>(
    how: &R,
    alloc: Global,
    bytes: &'static [u8],
    is_read: bool,
    most: usize,
    (looks, by_byte): (usize, usize),
) -> Result<(), Fail> {
    for window in WINDOWS {
        let reader = Asked::new(bytes)
            .with_window(window)
            .refusing_above(most.max(window));
        let come = bytes.len().saturating_add(window);
        looks_at_most_by::<T, _>(how, alloc, reader, bytes, is_read, looks, come)?;
        let reader = Asked::new(bytes)
            .with_window(window)
            .refusing_above(most.max(window))
            .showing(1);
        looks_at_most_by::<T, _>(how, alloc, reader, bytes, is_read, by_byte, come)?;
    }
    Ok(())
}
