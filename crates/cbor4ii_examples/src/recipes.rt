//! The recipes' types as rows read and write them, by their names.
use crate::cose_key::CoseKey;
use crate::enumeration::tests::Letters;
use crate::enumeration::{Enum, read_enum};
use crate::event::Event;
use crate::event::tests::Log;
use crate::forest::Forest;
use crate::meters::Meters;
use crate::moment::Moment;
use crate::nest::Nest;
use crate::page::Page;
use crate::percent::Percent;
use crate::point::Point;
use crate::point::tests::{Whole, WithoutC, WithoutD};
use crate::reading::Reading;
use crate::reply::Reply;
use crate::sample::Sample;
use crate::settings::Settings;
use crate::shape::Shape;
use crate::tree::Tree;
use crate::{shape, tree};
use cbor4ii::dec::Source;
use cbor4ii::enc::Write;
use cbor4ii::error::EncodeError;
use cbor4ii::serde::{Deserialize, Deserializer};
use cbor4ii_vectors::rows::{calls_rows, calls_rows_within};
use cbor4ii_vectors_de::typed::{
    BothShown, By, Got, RowShown, RowShownWithin, TypedCalls, TypedNames, goes_both_ways, no_call,
    shows, written,
};
use cbor4ii_vectors_ser::typed::spoil;
use std::alloc::Global;
use std::fmt::Debug;
use std::test::Fail;

/// A function of the type of this name.
macro_rules! of_recipe {
    ($name:expr, $call:ident($($arg:expr),*), $other:expr) => {
        match $name {
            "CoseKey" => $call::<CoseKey, _>($($arg),*),
            "Enum" => $call::<Enum, _>($($arg),*),
            "Letters" => $call::<Letters, _>($($arg),*),
            "Event" => $call::<Event, _>($($arg),*),
            "Log" => $call::<Log, _>($($arg),*),
            "Forest" => $call::<Forest, _>($($arg),*),
            "Meters" => $call::<Meters, _>($($arg),*),
            "Moment" => $call::<Moment, _>($($arg),*),
            "Nest" => $call::<Nest, _>($($arg),*),
            "Page<Meters>" => $call::<Page<Meters>, _>($($arg),*),
            "Percent" => $call::<Percent, _>($($arg),*),
            "Point" => $call::<Point, _>($($arg),*),
            "Whole" => $call::<Whole, _>($($arg),*),
            "Reading" => $call::<Reading, _>($($arg),*),
            "Reply" => $call::<Reply, _>($($arg),*),
            "Sample" => $call::<Sample, _>($($arg),*),
            "Settings" => $call::<Settings, _>($($arg),*),
            "Shape" => $call::<Shape, _>($($arg),*),
            "Tree" => $call::<Tree, _>($($arg),*),
            _ => $other,
        }
    };
}

/// What is read, and no error in words.
#[derive(Debug, Drop)]
struct Is<T>(T);

/// The types of these names.
struct Recipes;

impl TypedCalls for Recipes {
    fn make<S: Source>(name: &str, alloc: Global, de: &mut Deserializer<S>) -> Got<String, S> {
        match name {
            "Enum by hand" => shows(alloc, Is(read_enum(alloc, de)?)),
            "WithoutC" => deserialized::<WithoutC, _>(alloc, de),
            "WithoutD" => deserialized::<WithoutD, _>(alloc, de),
            "described Shape" => deserialized::<shape::tests::described::Shape, _>(alloc, de),
            "described Tree" => deserialized::<tree::tests::described::Tree, _>(alloc, de),
            _ => of_recipe!(name, deserialized(alloc, de), no_call()),
        }
    }
}

fn deserialized<T: Deserialize<S> + Debug + Drop, S: Source>(
    alloc: Global,
    de: &mut Deserializer<S>,
) -> Got<String, S> {
    shows(alloc, Is(T::deserialize(alloc, de)?))
}

impl TypedNames for Recipes {
    fn again<W: Write>(
        name: &str,
        alloc: Global,
        bytes: &'static [u8],
        writer: &mut W,
    ) -> Result<(), EncodeError<W::Error>> {
        if name == "Enum by hand" {
            return written::<Enum, _>(alloc, bytes, writer);
        }
        of_recipe!(name, written(alloc, bytes, writer), spoil(writer))
    }
}

/// Reads the rows as the type of this name, those without a limit and those within one: each holds
/// the text of the answer.
pub fn reads_recipe(
    alloc: Global,
    name: &'static str,
    rows: &[RowShown],
    within: &[RowShownWithin],
) -> Result<(), Fail> {
    for (bytes, want, rest) in rows {
        calls_rows::<By<Recipes>>(alloc, &[(name, bytes, *want, rest)])?;
    }
    for (bytes, limit, want, rest) in within {
        calls_rows_within::<By<Recipes>>(alloc, &[(name, bytes, *limit, *want, rest)])?;
    }
    Ok(())
}

/// All rows of the type of this name: those that go both ways, of which each proper prefix is the
/// end of the input, those that are read, and those that are read within a limit.
pub fn tries_recipe(
    alloc: Global,
    name: &'static str,
    both: &[BothShown],
    rows: &[RowShown],
    within: &[RowShownWithin],
) -> Result<(), Fail> {
    for row in both {
        goes_both_ways::<Recipes>(alloc, name, *row)?;
    }
    reads_recipe(alloc, name, rows, within)
}
