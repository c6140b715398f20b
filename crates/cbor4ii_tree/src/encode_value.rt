//! Values, written.
ghost use Rattle.std.specs.Prelude.{◌++◌, ◌<◌, ◌≤◌, ℕ, List, length, OnOk, OnSome, IfNone, IsSome};
ghost use Rattle.cbor4ii_items.specs.Writing.{InTwoPushes, Writes, WritesAtomically};
ghost use Rattle.cbor4ii_items.specs.Numbers.{shortest_head};
ghost use Rattle.cbor4ii_items.specs.Strings.{definite_string};
ghost use Rattle.cbor4ii_items.specs.SequenceBytes.{items_bytes};
ghost use Rattle.cbor4ii_items.specs.Budget.{CostFits};
ghost use Rattle.cbor4ii_tree.specs.Basis.Cost.{Budget};
ghost use Rattle.cbor4ii_tree.specs.Basis.Canonical.{canonical_encoding, canonical_cost};
ghost use Rattle.cbor4ii_tree.specs.Basis.Canonical.{with_bignums};
ghost use Rattle.cbor4ii_tree.specs.Basis.Encodings.{Encodes, DecodesTo};
ghost use Rattle.cbor4ii_tree.specs.Calls.Encoding.{value_bytes, value_pair_bytes};
ghost use Rattle.cbor4ii_tree.specs.Inner.Sending.{sent_or_error, Sends};
ghost use Rattle.cbor4ii_tree.specs.Basis.View.{view, items_view, pairs_view, float_view};
ghost use Rattle.cbor4ii_tree.specs.Basis.Item.{IsItem, AreItems, AreItemPairs, integer};

use crate::slot::leave;
use crate::value::{FloatBits, Value};
use cbor4ii_items::encode::Encode;
use cbor4ii_items::integer_head::integer_head;
use cbor4ii_items::major;
use cbor4ii_items::types::{Bytes, F16, F32, F64, Null, Tag};
use cbor4ii_rw::error::EncodeError;
use cbor4ii_rw::write::Write;

/// A value is written as its canonical encoding (RFC 8949 section 4.1): shortest heads, lengths
/// given, null as `f6`, floats in their own width, integers beyond 64 bits as bignums without
/// leading zeros (section 3.4.3). Pairs keep their order.
impl Encode for Value {
    ghost bytes = { λ v. canonical_encoding (view v) };

    /// Appends the value's canonical encoding to what `writer` holds: one push a head, a string's
    /// content, a float or a simple value. It is read back from there, with bignums as tags.
    ///
    /// # Errors
    ///
    /// `Write`: the writer failed in the call. An atomic writer then holds what it held before and
    /// a beginning of the encoding.
    fn encode<W: Write>(&self, writer: &mut W) -> Result<(), EncodeError<W::Error>>
        ensures writes { Writes W.atomic (canonical_encoding (view self.now))
            (W.view writer.old) (W.view writer.new) result }
        ensures item { OnOk result (IsItem (view self.now)) }
        ensures encodes { OnOk result (Encodes
            (canonical_encoding (view self.now)) (with_bignums (view self.now))
            (canonical_cost (view self.now))) }
        ensures reads_back { OnOk result ((budget : Budget) (more : List ℕ) →
            CostFits (canonical_cost (view self.now)) budget →
            DecodesTo (canonical_encoding (view self.now) ++ more) budget
            (with_bignums (view self.now))
            more) }
    {
        let mut failure = None;
        match put_value(writer, self, &mut failure) {
            Some(()) => Ok(()),
            None => Err(failure.unwrap()),
        }
    }
}

/// Where the writer fails, the error goes to `failure`: no large answer is handed up from level to
/// level. What writes each kind of value stays out of line, so that a value pays only for the
/// answers of its own pushes.
#[cycle(put)]
fn put_value<W: Write>(
    writer: &mut W,
    value: &Value,
    failure: &mut Option<EncodeError<W::Error>>,
) -> Option<()>
    ensures writes { Writes W.atomic (value_bytes value.now)
        (W.view writer.old) (W.view writer.new) (sent_or_error result failure.new) }
    ensures item { OnSome result (IsItem (view value.now)) }
    ensures failed { IfNone result (IsSome failure.new) }
{
    match value {
        Value::Null => put(writer, &Null, failure),
        Value::Bool(flag) => put(writer, flag, failure),
        Value::Integer(n) => put_integer(writer, *n, failure),
        Value::Float(bits) => put_float(writer, *bits, failure),
        Value::Bytes(content) => put_string(writer, major::BYTES, content, failure),
        Value::Text(text) => put_string(writer, major::STRING, text.as_bytes(), failure),
        Value::Array(items) => put_array(writer, items, failure),
        Value::Map(pairs) => put_map(writer, pairs, failure),
        Value::Tag(number, inner) => put_tag(writer, *number, inner, failure),
    }
}

#[inline(never)]
fn put<W: Write, T: Encode>(
    writer: &mut W,
    item: &T,
    failure: &mut Option<EncodeError<W::Error>>,
) -> Option<()>
    ensures writes { Writes W.atomic (T.bytes item.now)
        (W.view writer.old) (W.view writer.new) (sent_or_error result failure.new) }
    ensures failed { IfNone result (IsSome failure.new) }
{
    part(item.encode(writer), failure)
}

/// Each push has a constant length: into memory that takes the fewest steps.
// A head by `cbor4ii_items` answers with the writer's error, and one of two bytes is a call then:
// arrays of small values, read and written to a stream, take 117 instructions for 100.
#[inline(always)]
fn put_head<W: Write>(
    writer: &mut W,
    major: u8,
    argument: u64,
    failure: &mut Option<EncodeError<W::Error>>,
) -> Option<()>
    requires { major < 8 }
    ensures writes { WritesAtomically W.atomic (shortest_head major argument)
        (W.view writer.old) (W.view writer.new) (sent_or_error result failure.new) }
    ensures failed { IfNone result (IsSome failure.new) }
{
    if argument < 24 {
        push(writer, &[32 * major + argument as u8], failure)
    } else if argument < 0x100 {
        push(writer, &[32 * major + 24, argument as u8], failure)
    } else {
        put_long_head(writer, major, argument, failure)
    }
}

#[inline(never)]
fn put_long_head<W: Write>(
    writer: &mut W,
    major: u8,
    argument: u64,
    failure: &mut Option<EncodeError<W::Error>>,
) -> Option<()>
    requires major { major < 8 }
    requires long { 256 ≤ argument }
    ensures writes { WritesAtomically W.atomic (shortest_head major argument)
        (W.view writer.old) (W.view writer.new) (sent_or_error result failure.new) }
    ensures failed { IfNone result (IsSome failure.new) }
{
    let first = 32 * major;
    if argument < 0x1_0000 {
        let [a, b] = (argument as u16).to_be_bytes();
        push(writer, &[first + 25, a, b], failure)
    } else if argument < 0x1_0000_0000 {
        let mut bytes = [first + 26, 0, 0, 0, 0];
        bytes[1..].copy_from_slice(&(argument as u32).to_be_bytes());
        push(writer, &bytes, failure)
    } else {
        let mut bytes = [first + 27, 0, 0, 0, 0, 0, 0, 0, 0];
        bytes[1..].copy_from_slice(&argument.to_be_bytes());
        push(writer, &bytes, failure)
    }
}

#[inline(never)]
fn put_string<W: Write>(
    writer: &mut W,
    major: u8,
    content: &[u8],
    failure: &mut Option<EncodeError<W::Error>>,
) -> Option<()>
    requires { major < 8 }
    ensures writes { Writes W.atomic (definite_string major content.now)
        (W.view writer.old) (W.view writer.new) (sent_or_error result failure.new) }
    ensures pushes { InTwoPushes W.atomic (shortest_head major (length content.now))
        (W.view writer.old) (W.view writer.new) (sent_or_error result failure.new) }
    ensures failed { IfNone result (IsSome failure.new) }
{
    put_head(writer, major, content.len() as u64, failure)?;
    push(writer, content, failure)
}

#[inline(always)]
fn push<W: Write>(
    writer: &mut W,
    bytes: &[u8],
    failure: &mut Option<EncodeError<W::Error>>,
) -> Option<()>
    ensures writes { WritesAtomically W.atomic bytes.now
        (W.view writer.old) (W.view writer.new) (sent_or_error result failure.new) }
    ensures failed { IfNone result (IsSome failure.new) }
{
    match writer.push(bytes) {
        Ok(()) => Some(()),
        Err(error) => {
            leave(EncodeError::Write(error), failure);
            None
        }
    }
}

#[inline(always)]
fn part<E: Drop>(answer: Result<(), E>, failure: &mut Option<E>) -> Option<()>
    ensures { Sends answer result failure.new }
{
    match answer {
        Ok(()) => Some(()),
        Err(error) => {
            leave(error, failure);
            None
        }
    }
}

#[inline(never)]
fn put_integer<W: Write>(
    writer: &mut W,
    number: i128,
    failure: &mut Option<EncodeError<W::Error>>,
) -> Option<()>
    ensures writes { Writes W.atomic (canonical_encoding (integer number))
        (W.view writer.old) (W.view writer.new) (sent_or_error result failure.new) }
    ensures item { IsItem (integer number) }
    ensures failed { IfNone result (IsSome failure.new) }
{
    match integer_head(number) {
        Some((major, argument)) => put_head(writer, major, argument, failure),
        None => put(writer, &number, failure),
    }
}

#[inline(always)]
fn put_float<W: Write>(
    writer: &mut W,
    bits: FloatBits,
    failure: &mut Option<EncodeError<W::Error>>,
) -> Option<()>
    ensures writes { Writes W.atomic (canonical_encoding (float_view bits))
        (W.view writer.old) (W.view writer.new) (sent_or_error result failure.new) }
    ensures item { IsItem (float_view bits) }
    ensures failed { IfNone result (IsSome failure.new) }
{
    match bits {
        FloatBits::F16(n) => put(writer, &F16(n), failure),
        FloatBits::F32(n) => put(writer, &F32(n), failure),
        FloatBits::F64(n) => put(writer, &F64(n), failure),
    }
}

/// Writes an array.
#[cycle(put)]
#[inline(never)]
fn put_array<W: Write>(
    writer: &mut W,
    items: &[Value],
    failure: &mut Option<EncodeError<W::Error>>,
) -> Option<()>
    ensures writes { Writes W.atomic
        (shortest_head 4 (length items.now) ++ items_bytes value_bytes items.now)
        (W.view writer.old) (W.view writer.new) (sent_or_error result failure.new) }
    ensures items { OnSome result (AreItems (items_view items.now)) }
    ensures failed { IfNone result (IsSome failure.new) }
{
    put_head(writer, major::ARRAY, items.len() as u64, failure)?;
    put_items(writer, items, failure)
}

#[cycle(put)]
#[inline(never)]
fn put_map<W: Write>(
    writer: &mut W,
    pairs: &[(Value, Value)],
    failure: &mut Option<EncodeError<W::Error>>,
) -> Option<()>
    ensures writes { Writes W.atomic
        (shortest_head 5 (length pairs.now) ++ items_bytes value_pair_bytes pairs.now)
        (W.view writer.old) (W.view writer.new) (sent_or_error result failure.new) }
    ensures pairs { OnSome result (AreItemPairs (pairs_view pairs.now)) }
    ensures failed { IfNone result (IsSome failure.new) }
{
    put_head(writer, major::MAP, pairs.len() as u64, failure)?;
    put_pairs(writer, pairs, failure)
}

#[cycle(put)]
#[inline(never)]
fn put_tag<W: Write>(
    writer: &mut W,
    number: u64,
    inner: &Value,
    failure: &mut Option<EncodeError<W::Error>>,
) -> Option<()>
    ensures writes { Writes W.atomic (shortest_head 6 number ++ value_bytes inner.now)
        (W.view writer.old) (W.view writer.new) (sent_or_error result failure.new) }
    ensures item { OnSome result (IsItem (view inner.now)) }
    ensures failed { IfNone result (IsSome failure.new) }
{
    put_head(writer, major::TAG, number, failure)?;
    put_value(writer, inner, failure)
}

#[cycle(put)]
fn put_items<W: Write>(
    writer: &mut W,
    items: &[Value],
    failure: &mut Option<EncodeError<W::Error>>,
) -> Option<()>
    ensures writes { Writes W.atomic (items_bytes value_bytes items.now)
        (W.view writer.old) (W.view writer.new) (sent_or_error result failure.new) }
    ensures items { OnSome result (AreItems (items_view items.now)) }
    ensures failed { IfNone result (IsSome failure.new) }
{
    for item in items {
        put_value(writer, item, failure)?;
    }
    Some(())
}

#[cycle(put)]
fn put_pairs<W: Write>(
    writer: &mut W,
    pairs: &[(Value, Value)],
    failure: &mut Option<EncodeError<W::Error>>,
) -> Option<()>
    ensures writes { Writes W.atomic (items_bytes value_pair_bytes pairs.now)
        (W.view writer.old) (W.view writer.new) (sent_or_error result failure.new) }
    ensures pairs { OnSome result (AreItemPairs (pairs_view pairs.now)) }
    ensures failed { IfNone result (IsSome failure.new) }
{
    for pair in pairs {
        put_value(writer, &pair.0, failure)?;
        put_value(writer, &pair.1, failure)?;
    }
    Some(())
}
