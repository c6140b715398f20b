//! The types that rows read and write, by their names, each by its own `deserialize` and
//! `serialize`.
use crate::typed::{
    Got, Take, TypedCalls, TypedNames, calls, goes_both_ways, no_call, shows, written,
};
use cbor4ii::Value;
use cbor4ii::dec::IgnoredAny;
use cbor4ii::serde::{DecodeError, Deserialize, Deserializer};
use cbor4ii::types::{Bytes, F16, F32, F64};
use cbor4ii_rw::error::EncodeError;
use cbor4ii_rw::read::Source;
use cbor4ii_rw::write::Write;
use cbor4ii_vectors::rows::{Called, CalledWithin};
use cbor4ii_vectors_ser::typed::spoil;
use std::alloc::Global;
use std::collections::BTreeMap;
use std::fmt::Debug;
use std::test::Fail;

/// A function of the type of this name.
macro_rules! of_type {
    ($name:expr, $call:ident($($arg:expr),*), $other:expr) => {
        match $name {
            "bool" => $call::<bool, _>($($arg),*),
            "()" => $call::<(), _>($($arg),*),
            "u8" => $call::<u8, _>($($arg),*),
            "u16" => $call::<u16, _>($($arg),*),
            "u32" => $call::<u32, _>($($arg),*),
            "u64" => $call::<u64, _>($($arg),*),
            "u128" => $call::<u128, _>($($arg),*),
            "i8" => $call::<i8, _>($($arg),*),
            "i16" => $call::<i16, _>($($arg),*),
            "i32" => $call::<i32, _>($($arg),*),
            "i64" => $call::<i64, _>($($arg),*),
            "i128" => $call::<i128, _>($($arg),*),
            "F16" => $call::<F16, _>($($arg),*),
            "F32" => $call::<F32, _>($($arg),*),
            "F64" => $call::<F64, _>($($arg),*),
            "char" => $call::<char, _>($($arg),*),
            "String" => $call::<String, _>($($arg),*),
            "Bytes<Vec<u8>>" => $call::<Bytes<Vec<u8>>, _>($($arg),*),
            "Value" => $call::<Value, _>($($arg),*),
            "Option<u8>" => $call::<Option<u8>, _>($($arg),*),
            "Option<u32>" => $call::<Option<u32>, _>($($arg),*),
            "Option<Option<u8>>" => $call::<Option<Option<u8>>, _>($($arg),*),
            "Option<()>" => $call::<Option<()>, _>($($arg),*),
            "Box<u32>" => $call::<Box<u32>, _>($($arg),*),
            "(u8, u8)" => $call::<(u8, u8), _>($($arg),*),
            "(u8, bool, i8)" => $call::<(u8, bool, i8), _>($($arg),*),
            "Vec<bool>" => $call::<Vec<bool>, _>($($arg),*),
            "Vec<i16>" => $call::<Vec<i16>, _>($($arg),*),
            "Vec<F16>" => $call::<Vec<F16>, _>($($arg),*),
            "Vec<u8>" => $call::<Vec<u8>, _>($($arg),*),
            "Vec<u64>" => $call::<Vec<u64>, _>($($arg),*),
            "Vec<Option<u32>>" => $call::<Vec<Option<u32>>, _>($($arg),*),
            "Vec<Option<F16>>" => $call::<Vec<Option<F16>>, _>($($arg),*),
            "Vec<Option<Option<u8>>>" => $call::<Vec<Option<Option<u8>>>, _>($($arg),*),
            "Option<Vec<(u128, i128)>>" => $call::<Option<Vec<(u128, i128)>>, _>($($arg),*),
            "BTreeMap<u8, u8>" => $call::<BTreeMap<u8, u8>, _>($($arg),*),
            "BTreeMap<u8, u64>" => $call::<BTreeMap<u8, u64>, _>($($arg),*),
            "BTreeMap<String, Vec<String>>" => $call::<BTreeMap<String, Vec<String>>, _>($($arg),*),
            "BTreeMap<Bytes<Vec<u8>>, u8>" => $call::<BTreeMap<Bytes<Vec<u8>>, u8>, _>($($arg),*),
            _ => $other,
        }
    };
}

/// The types of these names.
pub struct Types;

impl TypedCalls for Types {
    fn make<S: Source>(name: &str, alloc: Global, de: &mut Deserializer<S>) -> Got<String, S> {
        if name == "IgnoredAny" {
            return deserialized::<IgnoredAny, _>(alloc, de);
        }
        of_type!(name, deserialized(alloc, de), no_call())
    }
}

fn deserialized<T: Deserialize<S> + Debug + Drop, S: Source>(
    alloc: Global,
    de: &mut Deserializer<S>,
) -> Result<String, DecodeError<S::Error>> {
    shows(alloc, T::deserialize(alloc, de)?)
}

impl TypedNames for Types {
    fn again<W: Write>(
        name: &str,
        alloc: Global,
        bytes: &'static [u8],
        writer: &mut W,
    ) -> Result<(), EncodeError<W::Error>> {
        of_type!(name, written(alloc, bytes, writer), spoil(writer))
    }
}

/// The name of a type, bytes, and the text of the value that is read from them and written as them.
pub type BothWays = (&'static str, &'static [u8], &'static str);

/// All rows of types: those that go both ways, of which each proper prefix is the end of the input,
/// those that are read, and those that are read within a limit.
pub fn tries_types(
    alloc: Global,
    both: &[BothWays],
    rows: &[Called],
    within: &[CalledWithin],
) -> Result<(), Fail> {
    for &(name, bytes, text) in both {
        goes_both_ways::<Types>(alloc, name, (bytes, text))?;
    }
    calls::<Types>(alloc, rows, within)
}

impl Take for Value {
    fn take<S: Source>(alloc: Global, de: &mut Deserializer<S>) -> Got<Self, S> {
        Self::deserialize(alloc, de)
    }
}

impl Take for String {
    fn take<S: Source>(alloc: Global, de: &mut Deserializer<S>) -> Got<Self, S> {
        Self::deserialize(alloc, de)
    }
}

impl Take for Vec<u16> {
    fn take<S: Source>(alloc: Global, de: &mut Deserializer<S>) -> Got<Self, S> {
        Self::deserialize(alloc, de)
    }
}

impl Take for BTreeMap<u16, u8> {
    fn take<S: Source>(alloc: Global, de: &mut Deserializer<S>) -> Got<Self, S> {
        Self::deserialize(alloc, de)
    }
}
