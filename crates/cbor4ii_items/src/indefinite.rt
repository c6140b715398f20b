//! The ends of indefinite lengths, and of arrays and maps (RFC 8949 sections 3.2.1 and 3.2.2).
ghost use Rattle.std.specs.Prelude.{◌≡◌, IfOk, IfErr, IfSome, IsSome, OnErr, Ok, false, nat_lt};
ghost use Rattle.cbor4ii_rw.specs.Reader.{ReaderFails};
ghost use Rattle.cbor4ii_items.specs.Reading.{Runs};
ghost use Rattle.cbor4ii_items.specs.ReadStrings.{break_at};
ghost use Rattle.cbor4ii_items.specs.InputError.{is_out_of_memory};
ghost use Rattle.cbor4ii_items.specs.Decoding.{Decodes};
ghost use Rattle.cbor4ii_items.specs.Moves.{OnRead};
ghost use Rattle.cbor4ii_items.specs.Next.{follows_format, length_left};
ghost use Rattle.cbor4ii_items.specs.Strings.{break_format};

use crate::head::peek;
use crate::marker;
use cbor4ii_rw::error::DecodeError;
use cbor4ii_rw::read::Source;

/// Takes a break and answers true, or takes nothing and answers false where another byte comes
/// next.
///
/// # Errors
///
/// Nothing is taken then, and the budget stays.
///
/// - `Read`: the reader failed
/// - `Eof` by "break" with 1: no byte is left
pub fn is_break<S: Source>(reader: &mut S) -> Result<bool, DecodeError<S::Error>>
    ensures failed { OnRead result (ReaderFails (S.view reader.old) (S.view reader.new)) }
    ensures decodes { Decodes break_format (S.view reader.old) (S.view reader.new) result }
{
    take_break(reader)
}

/// Whether another element of an array or a map follows: `len` is what is left of its length, at
/// first what `Array::len` or `Map::len` answered.
///
/// Where the elements are counted it counts down and asks nothing of the reader. Where the length
/// is indefinite it takes a break, and `len` is then a count of 0, so that false stays the answer;
/// before another byte it takes nothing and answers true.
///
/// # Errors
///
/// They come only at an indefinite length, and `len` stays. Nothing is taken then, and the budget
/// stays.
///
/// - `Read`: the reader failed
/// - `Eof` by "break" with 1: no byte is left
pub fn follows<S: Source>(
    reader: &mut S,
    len: &mut Option<usize>,
) -> Result<bool, DecodeError<S::Error>>
    ensures failed { OnRead result (ReaderFails (S.view reader.old) (S.view reader.new)) }
    ensures decodes { Decodes (follows_format len.old)
        (S.view reader.old) (S.view reader.new) result }
    ensures counted { IfSome len.old (λ left. result ≡ Ok (nat_lt 0 left)) }
    ensures unasked { IsSome len.old → S.view reader.new ≡ S.view reader.old }
    ensures left { IfOk result (λ more. len.new ≡ length_left len.old more) }
    ensures kept { OnErr result (len.new ≡ len.old) }
{
    match *len {
        Some(0) => Ok(false),
        Some(left) => {
            *len = Some(left - 1);
            Ok(true)
        }
        None => {
            if is_break(reader)? {
                *len = Some(0);
                return Ok(false);
            }
            Ok(true)
        }
    }
}

pub(crate) fn take_break<S: Source>(reader: &mut S) -> Result<bool, DecodeError<S::Error>>
    ensures runs { Runs break_at (S.view reader.old) (S.view reader.new) result }
    ensures memory { IfErr result (λ error. is_out_of_memory error ≡ false) }
    ensures failed { OnRead result (ReaderFails (S.view reader.old) (S.view reader.new)) }
{
    let byte = peek(reader, "break", 1)?;
    if byte == marker::BREAK {
        reader.advance(1);
        return Ok(true);
    }
    Ok(false)
}
