//! Integers: items of major types 0 and 1 (RFC 8949 section 3.1), which are a head alone.
ghost use Rattle.std.specs.Prelude.{◌≡◌, ◌≢◌, ◌↔◌, [], OnOk, OnErr, IfOk, IfErr, IsTrue};
ghost use Rattle.cbor4ii_rw.specs.View.{IfKnown};
ghost use Rattle.cbor4ii_rw.specs.Reader.{Shows, ReaderFails};
ghost use Rattle.cbor4ii_items.specs.Moves.{Kept};
ghost use Rattle.cbor4ii_items.specs.Writing.{WritesAtomically};
ghost use Rattle.cbor4ii_tool.specs.Reading.{ReadsInteger, RejectsInteger, BeginsNegative};
ghost use Rattle.cbor4ii_tool.specs.Reading.{written_bytes};
ghost use Rattle.cbor4ii_tool.specs.Steps.{Leaves};
ghost use Rattle.cbor4ii_tool.specs.declared.fault.Kind.TheVariants.{Read, Write};

use crate::fault::Kind;
use cbor4ii::dec::{Decode, Source, ask, if_major};
use cbor4ii::enc::{Encode, Write};
use cbor4ii::error::EncodeError;
use cbor4ii::major;
use cbor4ii::types::Negative;
use std::alloc::Global;

/// An integer that has a head.
#[derive(Drop)]
pub enum Integer {
    /// From 0 on.
    Unsigned(u64),
    /// Below 0.
    Negative(Negative<u64>),
}

/// Takes an integer, of any width that its argument has. A byte with which no integer begins is a
/// `Mismatch`, and an end inside an integer is `Eof`; a reader that fails is `Read`. What was
/// taken before an error is lost.
#[tactic(auto, using(crate::proofs::Items::leaving))]
pub fn read<S: Source>(alloc: Global, reader: &mut S) -> Result<Integer, Kind>
    ensures reads { IfOk result (λ integer.
        ReadsInteger integer (S.view reader.old) (S.view reader.new)) }
    ensures errs { IfErr result (λ kind.
        RejectsInteger kind (S.view reader.old) (S.view reader.new)) }
    ensures kept { OnOk result (Kept (S.view reader.old) (S.view reader.new)) }
    ensures leaves { Leaves (S.view reader.old) (S.view reader.new) }
    ensures steady { IfErr result (λ kind. (kind ≢ Write) × (kind ≢ Read →
        (S.view reader.new).failures ≡ (S.view reader.old).failures)) }
{
    if is_negative_next(reader)? {
        match Negative::<u64>::decode(alloc, reader) {
            Ok(number) => Ok(Integer::Negative(number)),
            Err(error) => Err(Kind::of(&error)),
        }
    } else {
        match u64::decode(alloc, reader) {
            Ok(number) => Ok(Integer::Unsigned(number)),
            Err(error) => Err(Kind::of(&error)),
        }
    }
}

/// Writes an integer with the shortest argument (RFC 8949 section 4.2.1). It fails only where the
/// writer failed in the call, and an atomic writer then holds what it held before.
pub fn write<W: Write>(integer: &Integer, writer: &mut W) -> Result<(), EncodeError<W::Error>>
    ensures { WritesAtomically W.atomic (written_bytes integer.now)
        (W.view writer.old) (W.view writer.new) result }
{
    match integer {
        Integer::Unsigned(number) => number.encode(writer),
        Integer::Negative(number) => number.encode(writer),
    }
}

// Whether the next byte, which stays, is one of major type 1. At the end there is none.
fn is_negative_next<S: Source>(reader: &mut S) -> Result<bool, Kind>
    ensures shows { OnOk result (Shows [] (S.view reader.old) (S.view reader.new)) }
    ensures negative { IfOk result (λ negative.
        IfKnown (S.view reader.old).known (λ xs. IsTrue negative ↔ BeginsNegative xs)) }
    ensures kind { IfErr result (λ kind. kind ≡ Read) }
    ensures breaks { OnErr result (ReaderFails (S.view reader.old) (S.view reader.new)) }
{
    let mut failure = None;
    match ask::look(reader, 1, &mut failure) {
        Some([first, ..]) => Ok(if_major(*first) == major::NEGATIVE),
        Some([]) => Ok(false),
        None => Err(Kind::Read),
    }
}
