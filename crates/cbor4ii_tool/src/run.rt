//! What the program does with its input.
ghost use Rattle.std.specs.Prelude.{◌≡◌, ◌↔◌, [], Some, IfOk, IfErr, OnOk, OnErr, IsTrue};
ghost use Rattle.cbor4ii_rw.specs.View.{IfKnown};
ghost use Rattle.cbor4ii_rw.specs.Reader.{Shows, ReaderFails, Keeps};
ghost use Rattle.cbor4ii_rw.specs.Stream.{stream_view};
ghost use Rattle.cbor4ii_rw.specs.Written.{stream_output, is_flushed};
ghost use Rattle.cbor4ii_items.specs.Moves.{EndsOrForgets};
ghost use Rattle.cbor4ii_tool.specs.Run.{RunsOver, ConvertsWhole, WantsMemory, FailedOrCounted};
ghost use Rattle.cbor4ii_tool.specs.Run.{RunBlames, Hands};
ghost use Rattle.cbor4ii_tool.specs.Steps.{Leaves, EndsRun, MovesFailures, failed_at, StandUpTo};
ghost use Rattle.cbor4ii_tool.specs.declared.fault.Kind.TheVariants.{Read};

use crate::command::Command;
use crate::fault::{Fault, Kind};
use crate::item;
use cbor4ii::dec::ask;
use cbor4ii::enc::Write;
use cbor4ii::utils::{IoReader, IoWriter};
use std::alloc::Global;
use std::io::{self, BufRead};

/// Runs `command` over all that `reader` has left: takes one item after another, writes for each
/// what stands for it after what `writer` holds, and flushes the writer.
///
/// `Command::Ints` takes integers (major types 0 and 1 of RFC 8949 section 3.1) of any width, and
/// writes each with its shortest argument (section 4.2.1). `Command::Canon` takes values, and
/// writes each in its canonical encoding. `Command::Lens` skips items, and writes the length of
/// each in bytes, in decimal and with a newline. `Command::Strict` takes values in their canonical
/// encoding, and no other, and writes each again. Each item may take the steps that the reader has.
/// An input of at most 2^64-1 bytes, less those that were taken before, is read whole. Memory is
/// taken for values alone, one at a time.
///
/// # Errors
///
/// A fault's `at` is how many bytes were taken before the item in work, as `IoReader::taken` counts
/// them. Its `kind` is the name of the error by which the item is rejected, `Read` where the reader
/// failed, or `Write` where the item was taken and could not be written. In each case but the last,
/// the items before it have been written, and the writer was flushed. Where that flush fails,
/// after a fault of the input too, the answer is `Write`, and `at` is all that was taken. A
/// failure of the writer at an item stays the answer. So the kind is `Write` exactly where the
/// writer failed. Of what is written where it failed at an item, nothing is promised.
pub fn run<R: BufRead, W: io::Write>(
    alloc: Global,
    command: Command,
    reader: &mut IoReader<R>,
    writer: &mut IoWriter<W>,
) -> Result<(), Fault>
    ensures runs { IfKnown (stream_view R.Read.remaining R.consumable_len reader.old).known
        (λ input.
        RunsOver command input (stream_view R.Read.remaining R.consumable_len reader.old)
        (stream_view R.Read.remaining R.consumable_len reader.new)
        (stream_output W.contents writer.old).written
        (stream_output W.contents writer.new).written result) }
    ensures complete { IfKnown (stream_view R.Read.remaining R.consumable_len reader.old).known
        (λ input. ConvertsWhole command
        (stream_view R.Read.remaining R.consumable_len reader.old).budget input
        (stream_output W.contents writer.old).written
        (stream_output W.contents writer.new).written result) }
    ensures memory { IfErr result (λ fault. WantsMemory command fault.kind) }
    ensures ended { OnOk result
        (IfKnown (stream_view R.Read.remaining R.consumable_len reader.old).known (λ input.
        (stream_view R.Read.remaining R.consumable_len reader.new).known ≡ Some [])) }
    ensures left { EndsOrForgets
        (stream_view R.Read.remaining R.consumable_len reader.old).known
        (stream_view R.Read.remaining R.consumable_len reader.new).known }
    ensures counted { FailedOrCounted
        (stream_view R.Read.remaining R.consumable_len reader.old)
        (stream_view R.Read.remaining R.consumable_len reader.new) }
    ensures steps { (stream_view R.Read.remaining R.consumable_len reader.new).budget
        ≡ (stream_view R.Read.remaining R.consumable_len reader.old).budget }
    ensures blames { RunBlames result (is_flushed writer.new)
        (stream_view R.Read.remaining R.consumable_len reader.old)
        (stream_view R.Read.remaining R.consumable_len reader.new)
        (stream_output W.contents writer.old) (stream_output W.contents writer.new) }
    ensures flushed { Hands result (is_flushed writer.new) }
{
    let outcome = convert_items(alloc, command, reader, writer);
    finish(outcome, writer, reader.taken())
}

// Flushes after a fault too. The first failure of the writer is the answer, and else the outcome.
fn finish<W: io::Write>(
    outcome: Result<(), Fault>,
    writer: &mut IoWriter<W>,
    at: u64,
) -> Result<(), Fault>
    ensures keeps { Keeps (stream_output W.contents writer.old).written
        (stream_output W.contents writer.new).written }
    ensures finishes { EndsRun outcome result at (is_flushed writer.new)
        (stream_output W.contents writer.old).failures
        (stream_output W.contents writer.new).failures }
{
    match writer.flush() {
        Ok(()) => outcome,
        Err(_) => Err(Fault {
            at: failed_at(outcome, at),
            kind: Kind::Write,
        }),
    }
}

// Where the writer failed first, if its flush fails at `at`.
fn failed_at(outcome: Result<(), Fault>, at: u64) -> u64
    ensures { result ≡ failed_at outcome at }
{
    match outcome {
        Err(fault) if fault.kind == Kind::Write => fault.at,
        _ => at,
    }
}

fn convert_items<R: BufRead, W: Write>(
    alloc: Global,
    command: Command,
    reader: &mut IoReader<R>,
    writer: &mut W,
) -> Result<(), Fault>
    ensures runs { IfKnown (stream_view R.Read.remaining R.consumable_len reader.old).known
        (λ input.
        RunsOver command input (stream_view R.Read.remaining R.consumable_len reader.old)
        (stream_view R.Read.remaining R.consumable_len reader.new)
        (W.view writer.old).written (W.view writer.new).written result) }
    ensures ended { OnOk result
        (IfKnown (stream_view R.Read.remaining R.consumable_len reader.old).known (λ input.
        (stream_view R.Read.remaining R.consumable_len reader.new).known ≡ Some [])) }
    ensures leaves { Leaves
        (stream_view R.Read.remaining R.consumable_len reader.old)
        (stream_view R.Read.remaining R.consumable_len reader.new) }
    ensures memory { IfErr result (λ fault. WantsMemory command fault.kind) }
    ensures failures { MovesFailures result
        (stream_view R.Read.remaining R.consumable_len reader.old)
        (stream_view R.Read.remaining R.consumable_len reader.new)
        (W.view writer.old) (W.view writer.new) }
{
    let mut seen = 0;
    loop {
        let at = reader.taken();
        let is_end = match is_at_end(reader, &mut seen) {
            Ok(is_end) => is_end,
            Err(kind) => return Err(Fault { at, kind }),
        };
        if is_end {
            return Ok(());
        }
        if let Err(kind) = item::convert(alloc, command, reader, writer) {
            return Err(Fault { at, kind });
        }
    }
}

// `seen` counts the bytes up to the end of what the last look here showed. Where fewer were taken,
// one of them is left, and no look is needed.
fn is_at_end<R: BufRead>(reader: &mut IoReader<R>, seen: &mut u64) -> Result<bool, Kind>
    ensures shows { OnOk result (Shows []
        (stream_view R.Read.remaining R.consumable_len reader.old)
        (stream_view R.Read.remaining R.consumable_len reader.new)) }
    ensures end { IfOk result (λ end.
        IfKnown (stream_view R.Read.remaining R.consumable_len reader.old).known (λ xs.
        StandUpTo seen.old (stream_view R.Read.remaining R.consumable_len reader.old).taken xs →
        IsTrue end ↔ (xs ≡ []))) }
    ensures seen { OnOk result
        (IfKnown (stream_view R.Read.remaining R.consumable_len reader.old).known (λ xs.
        StandUpTo seen.old (stream_view R.Read.remaining R.consumable_len reader.old).taken xs →
        StandUpTo seen.new (stream_view R.Read.remaining R.consumable_len reader.new).taken xs)) }
    ensures kind { IfErr result (λ kind. kind ≡ Read) }
    ensures breaks { OnErr result (ReaderFails
        (stream_view R.Read.remaining R.consumable_len reader.old)
        (stream_view R.Read.remaining R.consumable_len reader.new)) }
{
    let at = reader.taken();
    if at < *seen {
        return Ok(false);
    }
    let mut failure = None;
    match ask::look(reader, 1, &mut failure) {
        Some(shown) => {
            *seen = at + shown.len() as u64;
            Ok(shown.is_empty())
        }
        None => Err(Kind::Read),
    }
}
