//! Any item, read as a value.
ghost use Rattle.std.specs.Prelude.{◌≡◌, [], ◌∷◌, ◌++◌, true, IsTrue, codes};
ghost use Rattle.cbor4ii_items.specs.Decoding.{Decodes};
ghost use Rattle.cbor4ii_items.specs.Sequences.{count_format, indefinite_format};
ghost use Rattle.cbor4ii.specs.AnyFormat.{any_format, any_inside, values_inside};
ghost use Rattle.cbor4ii.specs.AnyFormat.{values_format, any_pair, pairs_inside};
ghost use Rattle.cbor4ii.specs.AnyFormat.{pairs_format, AddsOne};
ghost use Rattle.cbor4ii.specs.Typed.{input, answer_of, Deserializes};
ghost use Rattle.cbor4ii.specs.TypedAny.{typed_any};

use crate::serde::de::any_leaf::{AnyKind, kind_of, take_leaf};
use crate::serde::de::deserialize::{Deserialize, Typed};
use crate::serde::de::deserializer::Deserializer;
use crate::serde::de::error::DecodeError;
use crate::serde::de::parts::takes_break;
use cbor4ii_items::initial::peek;
use cbor4ii_items::reserve::items_ahead;
use cbor4ii_items::types::{Array, Map};
use cbor4ii_rw::error as core_error;
use cbor4ii_rw::read::Source;
use cbor4ii_tree::Value;
use std::alloc::Global;

impl<S: Source> Deserializer<S> {
    /// Any item but a tag, as a value; of tags 2 and 3 (RFC 8949 section 3.4.3) in one byte the
    /// integer that they stand for. Lengths may be given or not, heads are of any width, null and
    /// undefined are null, floats keep their width and bits, and a map its pairs in order.
    ///
    /// A value takes a step, an array or a map one more, and so do the chunks of a string. At most
    /// 256 values or pairs of an array or a map, and 16384 bytes of a string, have their place
    /// reserved before any of them came.
    ///
    /// # Errors
    ///
    /// `Read` and `OutOfMemory` are described at `Deserialize::deserialize`. All but the last one
    /// come as `Core`:
    ///
    /// - `DepthOverflow` by "any": no step is left. Nothing is taken then
    /// - `Eof` by "any" with 1: no byte is left
    /// - `Unsupported` by "any" with the first byte, which stays: it begins a tag and is neither
    ///   `c2` nor `c3`. Or it is of major type 7, and none of `f4` to `f7` and `f9` to `fb`
    /// - those of `i128` for an integer, also for one of tag 3, and those of `u128` where the first
    ///   byte is `c2`
    /// - those of `F16`, `F32`, `F64`, `Bytes<Vec<u8>>` and `String` for a float, a byte string and
    ///   a text
    /// - those of `Vec<Value>` for an array, and of `BTreeMap` for a map
    /// - `Custom` of "integer out of range": `c2` stands before a number of 2^127 or more. The item
    ///   is taken then
    pub fn deserialize_any(&mut self, alloc: Global) -> Result<Value, DecodeError<S::Error>>
        ensures { Deserializes ⟦<Value as Typed>⟧.promise
            (input S.view self.old) (input S.view self.new) (answer_of result) }
    {
        read_any(alloc, self)
    }
}

impl Typed for Value {
    ghost promise = { typed_any };
}

/// Any item but a tag, read by `Deserializer::deserialize_any`, with its errors.
impl<S: Source> Deserialize<S> for Value {
    fn deserialize(
        alloc: Global,
        de: &mut Deserializer<S>,
    ) -> Result<Value, DecodeError<S::Error>> {
        read_any(alloc, de)
    }
}

#[cycle(any)]
fn read_any<S: Source>(
    alloc: Global,
    de: &mut Deserializer<S>,
) -> Result<Value, DecodeError<S::Error>>
    ensures { Decodes any_format
        (input S.view de.old) (input S.view de.new) (answer_of result) }
{
    if !de.reader.step_in() {
        return Err(DecodeError::Core(core_error::DecodeError::DepthOverflow { name: "any" }));
    }
    let outcome = any_inside(alloc, de);
    de.reader.step_out();
    outcome
}

/// Reads one value whose step was taken.
#[cycle(any)]
fn any_inside<S: Source>(
    alloc: Global,
    de: &mut Deserializer<S>,
) -> Result<Value, DecodeError<S::Error>>
    ensures { Decodes any_inside
        (input S.view de.old) (input S.view de.new) (answer_of result) }
{
    let first = match peek(&mut de.reader, "any") {
        Ok(first) => first,
        Err(error) => return Err(DecodeError::Core(error)),
    };
    match kind_of(first) {
        AnyKind::Leaf(leaf) => take_leaf(alloc, de, leaf),
        AnyKind::Array => match any_array(alloc, de) {
            Ok(values) => Ok(Value::Array(values)),
            Err(error) => Err(error),
        },
        AnyKind::Map => match any_map(alloc, de) {
            Ok(pairs) => Ok(Value::Map(pairs)),
            Err(error) => Err(error),
        },
        AnyKind::Other => Err(DecodeError::Core(core_error::DecodeError::Unsupported {
            name: "any",
            found: first,
        })),
    }
}

#[cycle(any)]
fn any_array<S: Source>(
    alloc: Global,
    de: &mut Deserializer<S>,
) -> Result<Vec<Value>, DecodeError<S::Error>>
    ensures { Decodes values_format
        (input S.view de.old) (input S.view de.new) (answer_of result) }
{
    if !de.reader.step_in() {
        return Err(DecodeError::Core(core_error::DecodeError::DepthOverflow { name: "seq" }));
    }
    let outcome = array_inside(alloc, de);
    de.reader.step_out();
    outcome
}

#[cycle(any)]
fn array_inside<S: Source>(
    alloc: Global,
    de: &mut Deserializer<S>,
) -> Result<Vec<Value>, DecodeError<S::Error>>
    ensures { Decodes values_inside
        (input S.view de.old) (input S.view de.new) (answer_of result) }
{
    match Array::<()>::len(&mut de.reader) {
        Ok(Some(count)) => definite_values(alloc, de, count),
        Ok(None) => indefinite_values(alloc, de),
        Err(error) => Err(DecodeError::Core(error)),
    }
}

#[cycle(any)]
fn definite_values<S: Source>(
    alloc: Global,
    de: &mut Deserializer<S>,
    count: usize,
) -> Result<Vec<Value>, DecodeError<S::Error>>
    ensures { Decodes (count_format any_format count)
        (input S.view de.old) (input S.view de.new) (answer_of result) }
{
    let mut values = Vec::new(alloc);
    if values.reserve(items_ahead(count)).is_err() {
        return Err(DecodeError::Core(core_error::DecodeError::OutOfMemory));
    }
    for i in 0..count {
        add_value(alloc, de, &mut values)?;
    }
    Ok(values)
}

#[cycle(any)]
fn indefinite_values<S: Source>(
    alloc: Global,
    de: &mut Deserializer<S>,
) -> Result<Vec<Value>, DecodeError<S::Error>>
    ensures { Decodes (indefinite_format (codes "array") any_format)
        (input S.view de.old) (input S.view de.new) (answer_of result) }
{
    let mut values = Vec::new(alloc);
    while !takes_break(de)? {
        add_value(alloc, de, &mut values)?;
    }
    Ok(values)
}

#[cycle(any)]
fn add_value<S: Source>(
    alloc: Global,
    de: &mut Deserializer<S>,
    values: &mut Vec<Value>,
) -> Result<(), DecodeError<S::Error>>
    ensures { AddsOne any_format values.old.items values.new.items
        (input S.view de.old) (input S.view de.new) (answer_of result) }
{
    let value = read_any(alloc, de)?;
    if !keep(values, value) {
        return Err(DecodeError::Core(core_error::DecodeError::OutOfMemory));
    }
    Ok(())
}

#[cycle(any)]
fn any_map<S: Source>(
    alloc: Global,
    de: &mut Deserializer<S>,
) -> Result<Vec<(Value, Value)>, DecodeError<S::Error>>
    ensures { Decodes pairs_format
        (input S.view de.old) (input S.view de.new) (answer_of result) }
{
    if !de.reader.step_in() {
        return Err(DecodeError::Core(core_error::DecodeError::DepthOverflow { name: "map" }));
    }
    let outcome = map_inside(alloc, de);
    de.reader.step_out();
    outcome
}

#[cycle(any)]
fn map_inside<S: Source>(
    alloc: Global,
    de: &mut Deserializer<S>,
) -> Result<Vec<(Value, Value)>, DecodeError<S::Error>>
    ensures { Decodes pairs_inside
        (input S.view de.old) (input S.view de.new) (answer_of result) }
{
    match Map::<()>::len(&mut de.reader) {
        Ok(Some(count)) => definite_pairs(alloc, de, count),
        Ok(None) => indefinite_pairs(alloc, de),
        Err(error) => Err(DecodeError::Core(error)),
    }
}

#[cycle(any)]
fn definite_pairs<S: Source>(
    alloc: Global,
    de: &mut Deserializer<S>,
    count: usize,
) -> Result<Vec<(Value, Value)>, DecodeError<S::Error>>
    ensures { Decodes (count_format any_pair count)
        (input S.view de.old) (input S.view de.new) (answer_of result) }
{
    let mut pairs = Vec::new(alloc);
    if pairs.reserve(items_ahead(count)).is_err() {
        return Err(DecodeError::Core(core_error::DecodeError::OutOfMemory));
    }
    for i in 0..count {
        add_pair(alloc, de, &mut pairs)?;
    }
    Ok(pairs)
}

#[cycle(any)]
fn indefinite_pairs<S: Source>(
    alloc: Global,
    de: &mut Deserializer<S>,
) -> Result<Vec<(Value, Value)>, DecodeError<S::Error>>
    ensures { Decodes (indefinite_format (codes "map") any_pair)
        (input S.view de.old) (input S.view de.new) (answer_of result) }
{
    let mut pairs = Vec::new(alloc);
    while !takes_break(de)? {
        add_pair(alloc, de, &mut pairs)?;
    }
    Ok(pairs)
}

#[cycle(any)]
fn add_pair<S: Source>(
    alloc: Global,
    de: &mut Deserializer<S>,
    pairs: &mut Vec<(Value, Value)>,
) -> Result<(), DecodeError<S::Error>>
    ensures { AddsOne any_pair pairs.old.items pairs.new.items
        (input S.view de.old) (input S.view de.new) (answer_of result) }
{
    let pair = read_pair(alloc, de)?;
    if !keep(pairs, pair) {
        return Err(DecodeError::Core(core_error::DecodeError::OutOfMemory));
    }
    Ok(())
}

/// No break is looked for between a key and its value.
#[cycle(any)]
fn read_pair<S: Source>(
    alloc: Global,
    de: &mut Deserializer<S>,
) -> Result<(Value, Value), DecodeError<S::Error>>
    ensures { Decodes any_pair
        (input S.view de.old) (input S.view de.new) (answer_of result) }
{
    let key = read_any(alloc, de)?;
    match read_any(alloc, de) {
        Ok(value) => Ok((key, value)),
        Err(error) => Err(error),
    }
}

fn keep<T: Drop>(items: &mut Vec<T>, item: T) -> bool
    ensures { IsTrue result → items.new.items ≡ items.old.items ++ item ∷ [] }
{
    items.push(item).is_ok()
}
