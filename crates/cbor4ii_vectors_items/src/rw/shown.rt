//! What a reader shows and lends, and what is taken of it.
use cbor4ii_rw::ask::{self, lend, look};
use cbor4ii_rw::read::{Read, Reference, Source};
use cbor4ii_vectors::compared::same;
use std::alloc::Global;
use std::fmt::InlineText;
use std::test::Fail;

// Takes what one fill gives where `want` bytes are wanted; whether it was `Long`.
fn give_some<'de, R: Read<'de>>(
    reader: &mut R,
    want: usize,
    bytes: &mut Vec<u8>,
) -> Result<Option<bool>, Fail> {
    let (taken, long) = match lend(reader, want, &mut None) {
        Some(Reference::Long(shown)) => {
            bytes.extend_from_slice(shown)?;
            (shown.len(), true)
        }
        Some(Reference::Short(shown)) => {
            bytes.extend_from_slice(shown)?;
            (shown.len(), false)
        }
        None => return Ok(None),
    };
    reader.advance(taken);
    Ok(Some(long))
}

/// The reader gives "abcde", `want` bytes at a time, in at most 20 fills, and nothing after it;
/// whether every prefix was `Long`.
pub fn gives<'de, R: Read<'de>>(alloc: Global, reader: &mut R, want: usize) -> Result<bool, Fail> {
    let mut bytes = Vec::new(alloc);
    let mut long = true;
    for _ in 0..20 {
        let given = give_some(reader, want, &mut bytes)?;
        long = long && given.ok_or("a fill fails")?;
    }
    same(bytes.as_slice(), b"abcde")?;
    Ok(long)
}

/// The next bytes are these, and are taken; none is the end.
pub fn takes<S: Source>(reader: &mut S, wanted: &[Option<u8>]) -> Result<(), Fail> {
    for want in wanted {
        let byte = ask::next_byte(reader).or(Err("a look fails"))?;
        same(byte, *want)?;
    }
    Ok(())
}

/// The next look fails with an error of this text.
pub fn fails<S: Source>(reader: &mut S, error: &str) -> Result<(), Fail> {
    let mut failure = None;
    if look(reader, 1, &mut failure).is_some() {
        return Err(Fail::from("no look fails"));
    }
    let text = InlineText::<64>::of(format_args!("{failure:?}"));
    same(text.as_str(), error)
}

/// These bytes are shown where so many are wanted; so many of them are taken.
pub fn shows<S: Source>(
    reader: &mut S,
    want: usize,
    bytes: &[u8],
    taken: usize,
) -> Result<(), Fail> {
    let mut failure = None;
    let shown = look(reader, want, &mut failure).ok_or("a look fails")?;
    same(shown, bytes)?;
    let shown = shown.len();
    reader.advance(taken.min(shown));
    Ok(())
}

/// Each row's bytes are shown where so many are wanted. None is taken.
pub fn shows_each<S: Source>(reader: &mut S, rows: &[(usize, &[u8])]) -> Result<(), Fail> {
    for (want, bytes) in rows {
        shows(reader, *want, bytes, 0)?;
    }
    Ok(())
}
