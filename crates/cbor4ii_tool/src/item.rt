//! One item of a command: taken, and what stands for it written.
ghost use Rattle.std.specs.Prelude.{IfErr, OnOk};
ghost use Rattle.cbor4ii_rw.specs.Stream.{stream_view};
ghost use Rattle.cbor4ii_tool.specs.Steps.{Leaves, Done, Fails};
ghost use Rattle.cbor4ii_tool.specs.declared.command.Command.TheVariants.{Ints, Canon, Lens};
ghost use Rattle.cbor4ii_tool.specs.declared.command.Command.TheVariants.{Strict};

use crate::command::Command;
use crate::fault::Kind;
use crate::{decimal, integer};
use cbor4ii::dec::{Decode, IgnoredAny, Source};
use cbor4ii::enc::{Encode, Write};
use cbor4ii::utils::IoReader;
use cbor4ii::{Canonical, Value};
use std::alloc::Global;
use std::io::BufRead;

/// Takes the item of `command` that begins what is left, under the reader's budget, and writes what
/// stands for it. Where that cannot be written, the item was taken.
pub fn convert<R: BufRead, W: Write>(
    alloc: Global,
    command: Command,
    reader: &mut IoReader<R>,
    writer: &mut W,
) -> Result<(), Kind>
    ensures done { OnOk result (Done command
        (stream_view R.Read.remaining R.consumable_len reader.old)
        (stream_view R.Read.remaining R.consumable_len reader.new)
        (W.view writer.old) (W.view writer.new)) }
    ensures fails { IfErr result (λ kind. Fails command kind
        (stream_view R.Read.remaining R.consumable_len reader.old)
        (stream_view R.Read.remaining R.consumable_len reader.new)
        (W.view writer.old) (W.view writer.new)) }
    ensures leaves { Leaves
        (stream_view R.Read.remaining R.consumable_len reader.old)
        (stream_view R.Read.remaining R.consumable_len reader.new) }
{
    match command {
        Command::Ints => integer(alloc, reader, writer),
        Command::Canon => value(alloc, reader, writer),
        Command::Lens => length(alloc, reader, writer),
        Command::Strict => canonical(alloc, reader, writer),
    }
}

fn integer<S: Source, W: Write>(alloc: Global, reader: &mut S, writer: &mut W) -> Result<(), Kind>
    ensures done { OnOk result (Done Ints (S.view reader.old) (S.view reader.new)
        (W.view writer.old) (W.view writer.new)) }
    ensures fails { IfErr result (λ kind. Fails Ints kind (S.view reader.old) (S.view reader.new)
        (W.view writer.old) (W.view writer.new)) }
    ensures leaves { Leaves (S.view reader.old) (S.view reader.new) }
{
    let item = integer::read(alloc, reader)?;
    match integer::write(&item, writer) {
        Ok(()) => Ok(()),
        Err(_) => Err(Kind::Write),
    }
}

#[tactic(auto, using(crate::proofs::Items::moves_leaves))]
fn value<S: Source, W: Write>(alloc: Global, reader: &mut S, writer: &mut W) -> Result<(), Kind>
    ensures done { OnOk result (Done Canon (S.view reader.old) (S.view reader.new)
        (W.view writer.old) (W.view writer.new)) }
    ensures fails { IfErr result (λ kind. Fails Canon kind (S.view reader.old) (S.view reader.new)
        (W.view writer.old) (W.view writer.new)) }
    ensures leaves { Leaves (S.view reader.old) (S.view reader.new) }
{
    let item = match Value::decode(alloc, reader) {
        Ok(item) => item,
        Err(error) => return Err(Kind::of(&error)),
    };
    match item.encode(writer) {
        Ok(()) => Ok(()),
        Err(_) => Err(Kind::Write),
    }
}

#[tactic(auto, using(crate::proofs::Items::moves_leaves))]
fn canonical<S: Source, W: Write>(alloc: Global, reader: &mut S, writer: &mut W) -> Result<(), Kind>
    ensures done { OnOk result (Done Strict (S.view reader.old) (S.view reader.new)
        (W.view writer.old) (W.view writer.new)) }
    ensures fails { IfErr result (λ kind. Fails Strict kind (S.view reader.old) (S.view reader.new)
        (W.view writer.old) (W.view writer.new)) }
    ensures leaves { Leaves (S.view reader.old) (S.view reader.new) }
{
    let item = match Canonical::decode(alloc, reader) {
        Ok(item) => item,
        Err(error) => return Err(Kind::of(&error)),
    };
    match item.0.encode(writer) {
        Ok(()) => Ok(()),
        Err(_) => Err(Kind::Write),
    }
}

// An item that is skipped, of which the length in bytes is written.
#[tactic(auto, using(crate::proofs::Items::moves_leaves))]
fn length<R: BufRead, W: Write>(
    alloc: Global,
    reader: &mut IoReader<R>,
    writer: &mut W,
) -> Result<(), Kind>
    ensures done { OnOk result (Done Lens
        (stream_view R.Read.remaining R.consumable_len reader.old)
        (stream_view R.Read.remaining R.consumable_len reader.new)
        (W.view writer.old) (W.view writer.new)) }
    ensures fails { IfErr result (λ kind. Fails Lens kind
        (stream_view R.Read.remaining R.consumable_len reader.old)
        (stream_view R.Read.remaining R.consumable_len reader.new)
        (W.view writer.old) (W.view writer.new)) }
    ensures leaves { Leaves
        (stream_view R.Read.remaining R.consumable_len reader.old)
        (stream_view R.Read.remaining R.consumable_len reader.new) }
{
    let before = reader.taken();
    if let Err(error) = IgnoredAny::decode(alloc, reader) {
        return Err(Kind::of(&error));
    }
    match decimal::write_line(reader.taken() - before, writer) {
        Ok(()) => Ok(()),
        Err(_) => Err(Kind::Write),
    }
}
