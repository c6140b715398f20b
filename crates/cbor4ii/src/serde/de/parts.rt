//! What arrays and maps share, read into a vector of their parts.
ghost use Rattle.std.specs.Prelude.{ℕ, ◌≡◌, ◌<◌, List, Bool, IsTrue, false, IfErr, IfSome};
ghost use Rattle.cbor4ii_items.specs.Decoding.{Format, IsLawful, Decodes, DecodesIf};
ghost use Rattle.cbor4ii_items.specs.ShownLeaf.{IsShownLeaf};
ghost use Rattle.cbor4ii_items.specs.Lengths.{length_format};
ghost use Rattle.cbor4ii_items.specs.Reading.{Runs};
ghost use Rattle.cbor4ii_items.specs.ReadStrings.{break_at};
ghost use Rattle.cbor4ii_items.specs.InputError.{is_out_of_memory};
ghost use Rattle.cbor4ii_items.specs.Sequences.{count_of, indefinite_of, inside_of, in_list};
ghost use Rattle.cbor4ii.specs.Sequence.{sequence_of};
ghost use Rattle.cbor4ii.specs.Typed.{input, answer_of, parts_answer, as_core};

use crate::serde::de::deserializer::Deserializer;
use crate::serde::de::error::DecodeError;
use crate::serde::de::runs::take_runs;
use cbor4ii_items::indefinite::is_break;
use cbor4ii_items::reserve::items_ahead;
use cbor4ii_rw::error as core_error;
use cbor4ii_rw::error::StaticStr;
use cbor4ii_rw::read::Source;
use std::alloc::Global;

/// Fewer parts are read one by one, where a look takes a few instructions.
const MANY: usize = 4;

/// Fewer parts are read one by one, where a look takes more.
const MANY_STREAMED: usize = 2;

/// A head or a float has at most so many bytes.
const LONGEST: usize = 9;

/// A type of arrays or of maps, by its parts.
pub(crate) trait Sequence<S: Source>: Sized {
    /// An item, or a key and its value.
    type Part: Drop;

    // How a part is encoded, and whether it is exact.
    ghost part: { Format Self.Part };

    ghost exact: { Bool };

    ghost major: { ℕ };

    ghost name: { List ℕ };

    fn take_length(reader: &mut S) -> Result<Option<usize>, core_error::DecodeError<S::Error>>
        ensures { Decodes (length_format Self.name Self.major)
            (S.view reader.old) (S.view reader.new) result };

    fn take_part(
        alloc: Global,
        de: &mut Deserializer<S>,
    ) -> Result<Self::Part, DecodeError<S::Error>>
        ensures { DecodesIf Self.exact Self.part
            (input S.view de.old) (input S.view de.new) (answer_of result) };

    /// Whether `shown_part` answers parts, which are then read as many at a time as one look shows.
    #[inline(always)]
    fn has_leaves() -> bool {
        false
    }

    /// The part that the shown bytes begin with and how many bytes it has, where it stands whole in
    /// them and takes at most so many steps.
    #[inline(always)]
    fn shown_part(shown: &[u8], steps: u8) -> Option<(Self::Part, usize)>
        ensures { IfSome result (IsShownLeaf part.reads shown.now steps) }
    {
        None
    }

    ghost some: { IsTrue part.never_empty };

    ghost lawful: { IsTrue exact → IsLawful part };

    ghost small: { major < 8 };
}

#[inline(always)]
pub(crate) fn take_sequence<S: Source, Q: Sequence<S>>(
    alloc: Global,
    de: &mut Deserializer<S>,
    step: StaticStr,
) -> Result<Vec<Q::Part>, DecodeError<S::Error>>
    ensures { DecodesIf Q.exact (sequence_of in_list step.now Q.name Q.major Q.part)
        (input S.view de.old) (input S.view de.new) (parts_answer result) }
{
    if !de.reader.step_in() {
        return Err(DecodeError::Core(core_error::DecodeError::DepthOverflow { name: step }));
    }
    let outcome = take_inside::<S, Q>(alloc, de);
    de.reader.step_out();
    outcome
}

/// Reads a sequence whose step was taken.
#[inline(always)]
fn take_inside<S: Source, Q: Sequence<S>>(
    alloc: Global,
    de: &mut Deserializer<S>,
) -> Result<Vec<Q::Part>, DecodeError<S::Error>>
    ensures { DecodesIf Q.exact (inside_of in_list Q.name Q.major Q.part)
        (input S.view de.old) (input S.view de.new) (parts_answer result) }
{
    match Q::take_length(&mut de.reader) {
        Ok(Some(count)) => take_counted::<S, Q>(alloc, de, count),
        Ok(None) => take_indefinite::<S, Q>(alloc, de),
        Err(error) => Err(DecodeError::Core(error)),
    }
}

#[inline(always)]
fn take_counted<S: Source, Q: Sequence<S>>(
    alloc: Global,
    de: &mut Deserializer<S>,
    count: usize,
) -> Result<Vec<Q::Part>, DecodeError<S::Error>>
    ensures { DecodesIf Q.exact (count_of in_list Q.part count)
        (input S.view de.old) (input S.view de.new) (parts_answer result) }
{
    let many = if de.reader.is_in_memory() {
        MANY
    } else {
        MANY_STREAMED
    };
    if Q::has_leaves() && count >= many && de.reader.window() >= LONGEST {
        take_runs::<S, Q>(alloc, de, count)
    } else {
        take_definite::<S, Q>(alloc, de, count)
    }
}

/// A count alone takes little memory: more is taken as the parts come.
#[inline(always)]
fn take_definite<S: Source, Q: Sequence<S>>(
    alloc: Global,
    de: &mut Deserializer<S>,
    count: usize,
) -> Result<Vec<Q::Part>, DecodeError<S::Error>>
    ensures { DecodesIf Q.exact (count_of in_list Q.part count)
        (input S.view de.old) (input S.view de.new) (parts_answer result) }
{
    let mut parts = Vec::new(alloc);
    if parts.reserve(items_ahead(count)).is_err() {
        return Err(DecodeError::Core(core_error::DecodeError::OutOfMemory));
    }
    for i in 0..count {
        let part = Q::take_part(alloc, de)?;
        match parts.push(part) {
            Ok(()) => {}
            Err(_) => return Err(DecodeError::Core(core_error::DecodeError::OutOfMemory)),
        }
    }
    Ok(parts)
}

fn take_indefinite<S: Source, Q: Sequence<S>>(
    alloc: Global,
    de: &mut Deserializer<S>,
) -> Result<Vec<Q::Part>, DecodeError<S::Error>>
    ensures { DecodesIf Q.exact (indefinite_of in_list Q.name Q.part)
        (input S.view de.old) (input S.view de.new) (parts_answer result) }
{
    let mut parts = Vec::new(alloc);
    while !takes_break(de)? {
        let part = Q::take_part(alloc, de)?;
        match parts.push(part) {
            Ok(()) => {}
            Err(_) => return Err(DecodeError::Core(core_error::DecodeError::OutOfMemory)),
        }
    }
    Ok(parts)
}

/// Takes a break, or takes nothing where another byte comes next.
#[inline(always)]
pub(crate) fn takes_break<S: Source>(
    de: &mut Deserializer<S>,
) -> Result<bool, DecodeError<S::Error>>
    ensures runs { Runs break_at (input S.view de.old) (input S.view de.new) (answer_of result) }
    ensures memory { IfErr result (λ error. is_out_of_memory (as_core error) ≡ false) }
{
    match is_break(&mut de.reader) {
        Ok(ended) => Ok(ended),
        Err(error) => Err(DecodeError::Core(error)),
    }
}
