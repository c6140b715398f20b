//! Content of definite length, taken off a reader.
ghost use Rattle.std.specs.Prelude.{◌≤◌, IfOk, IfErr, Err};
ghost use Rattle.cbor4ii_items.specs.Contents.{TakesOnto, filled_answer};
ghost use Rattle.cbor4ii_items.specs.Reading.{Runs};
ghost use Rattle.cbor4ii_items.specs.ReadStrings.{content_on};

use crate::reserve::bytes_ahead;
use cbor4ii_rw::ask::{content_part, look};
use cbor4ii_rw::error::{DecodeError, Len, StaticStr};
use cbor4ii_rw::read::Source;

/// A length alone takes little memory: more is taken as the bytes come.
#[inline(always)]
pub(crate) fn take_content<S: Source>(
    reader: &mut S,
    name: StaticStr,
    count: u64,
    content: &mut Vec<u8>,
) -> Result<(), DecodeError<S::Error>>
    ensures { Runs (content_on name.now count content.old.items)
        (S.view reader.old) (S.view reader.new) (filled_answer content.new.items result) }
{
    let mut missing = count as usize;
    if content.reserve(bytes_ahead(missing)).is_err() {
        return Err(DecodeError::OutOfMemory);
    }
    while missing > 0 {
        missing -= take_shown(reader, name, missing, content)?;
    }
    Ok(())
}

/// Takes what is shown of these bytes. A reader that may wait for what is wanted is asked for a
/// part of them at a time.
#[inline(always)]
fn take_shown<S: Source>(
    reader: &mut S,
    name: StaticStr,
    missing: usize,
    content: &mut Vec<u8>,
) -> Result<usize, DecodeError<S::Error>>
    requires { 1 ≤ missing }
    ensures taken { IfOk result (λ n. TakesOnto missing n content.old.items content.new.items
        (S.view reader.old) (S.view reader.new)) }
    ensures rejected { IfErr result (λ error. Runs (content_on name.now missing content.old.items)
        (S.view reader.old) (S.view reader.new) (Err error)) }
{
    let mut failure = None;
    let want = content_part(reader, missing);
    match look(reader, want, &mut failure) {
        Some(shown) => {
            let count = shown.len().min(missing);
            if count == 0 {
                return Err(DecodeError::Eof {
                    name,
                    expect: Len::new(missing),
                });
            }
            if content.extend_from_slice(&shown[..count]).is_err() {
                return Err(DecodeError::OutOfMemory);
            }
            reader.advance(count);
            Ok(count)
        }
        None => Err(DecodeError::Read(failure.unwrap())),
    }
}
