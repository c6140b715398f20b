//! An enum that holds values of its own kind in boxes, exact both ways.
//!
//! It accepts what a described enum of its variants would, level by level, with the fields of a
//! frame in any order, each once. It differs as `tree` says. Of a variant's map and of a pair the
//! length may be left open besides, and a number may stand in more bytes than its type has.
ghost use Rattle.std.specs.Prelude.{◌≡◌, Ok, codes};
ghost use Rattle.std.proofs.Common.{ap, refl};
ghost use Rattle.cbor4ii_tree.specs.Basis.View.{view, items_view, pairs_view};
ghost use Rattle.cbor4ii.specs.CodecAgrees.{as_described};
ghost use Rattle.cbor4ii_examples.specs.Told.{MakesTold, told_codec, told_words};
ghost use Rattle.cbor4ii_examples.specs.Shape.{Figure, figure, shape_item, small_number_at};
ghost use Rattle.cbor4ii_examples.specs.Shape.{figure_item, IsFigure, figure_at, figure_in};
ghost use Rattle.cbor4ii_examples.specs.Shape.{variant_at, variant_of_name, circle_at, pair_at};
ghost use Rattle.cbor4ii_examples.specs.Shape.{pair_in, framed_at, frame_fields, nothing_framed};
ghost use Rattle.cbor4ii_examples.specs.Shape.{frame_pairs_at, with_frame_pair, with_frame_field};
ghost use Rattle.cbor4ii_examples.specs.Shape.{frame_from};
ghost use Rattle.cbor4ii_examples.specs.ShapeLaws.{shape_back};

use crate::parts::{one_more, the_one};
use cbor4ii::Value;
use cbor4ii::dec::Source;
use cbor4ii::enc::Write;
use cbor4ii::error::StaticStr;
use cbor4ii::serde::{
    AsDescribed, CheckedFrom, DecodeError, Described, Deserialize, Deserializer, EncodeError,
    Serialize, Serializer, Single, Typed, Unmade,
};
use std::alloc::Global;

/// A shape on a page.
#[derive(Debug, PartialEq, Drop)]
pub enum Shape {
    /// A circle of this radius.
    Circle(u32),
    /// One shape on another.
    Pair(Box<Shape>, Box<Shape>),
    /// A shape in a frame of this width.
    Framed { width: u32, inner: Box<Shape> },
}

/// A map of one pair: the variant's name, and its content.
impl Serialize for Shape {
    ghost encoding = { ⟦<Shape as Described>⟧.codec.encoding };

    #[cycle(writing)]
    #[tactic(auto, using(crate::specs::declared::shape::Shape::the_lemmas, cbor4ii_ser::specs::Laws::Inside::values_inside,))]
    fn serialize<W: Write>(&self, ser: &mut Serializer<W>) -> Result<(), EncodeError<W::Error>> {
        match self {
            Shape::Circle(radius) => ser.serialize_newtype_variant("Shape", 0, "Circle", radius),
            Shape::Pair(first, second) => {
                ser.serialize_variant_of_2_items("Shape", 1, "Pair", first, second)
            }
            Shape::Framed { width, inner } => ser.serialize_variant_of_2_fields(
                "Shape", 2, "Framed", "width", width, "inner", inner,
            ),
        }
    }
}

/// A value that `figure_at` accepts, and nothing else.
impl Typed for Shape {
    ghost promise = { ⟦<Shape as Described>⟧.codec.promise };
}

impl Described for Shape {
    ghost codec = { told_codec figure_at figure shape_item figure_item IsFigure shape_back };
}

impl AsDescribed for Shape {
    ghost agrees = { as_described tt refl };
}

impl<S: Source> Deserialize<S> for Shape {
    fn deserialize(
        alloc: Global,
        de: &mut Deserializer<S>,
    ) -> Result<Shape, DecodeError<S::Error>> {
        de.deserialize_checked::<Value, Shape>(alloc)
    }
}

impl CheckedFrom<Value> for Shape {
    ghost words = { λ v. told_words (figure_at (view v)) };

    ghost makes = { λ v s. figure_at (view v) ≡ Ok (figure s) };

    #[tactic(auto, using(crate::specs::Told::told_checks,))]
    fn checked_from(alloc: Global, value: Value) -> Result<Shape, Unmade> {
        shape_of(alloc, &value)
    }

    ghost fate = { λ v w same. ap (λ i. told_words (figure_at i)) same };
}

/// The fields of a frame that its map has so far.
#[derive(Debug, Drop)]
struct Frame {
    width: Single<u32>,
    inner: Single<Shape>,
}

/// The shape that a value stands for. It calls itself once for each level, as reading the value
/// did.
///
/// # Errors
///
/// - `Rejected` in words: it stands for none. It is no map of one pair, a name is none of these, or
///   the content is another: a number, an array of two shapes, or a map of each field once
/// - `OutOfMemory`: there was no memory for a box
#[cycle(shapes)]
#[tactic(auto, using(cbor4ii::specs::Laws::Shown::values_seen,))]
pub fn shape_of(alloc: Global, value: &Value) -> Result<Shape, Unmade>
    ensures { MakesTold figure (figure_at (view value.now)) result }
{
    match value {
        Value::Map(pairs) => shape_in(alloc, pairs),
        _ => Err(Unmade::Rejected("a shape is a map of one pair")),
    }
}

#[cycle(shapes)]
fn shape_in(alloc: Global, pairs: &[(Value, Value)]) -> Result<Shape, Unmade>
    ensures { MakesTold figure (figure_in (pairs_view pairs.now)) result }
{
    match pairs {
        [] => Err(Unmade::Rejected("a shape is a map of one pair")),
        [pair] => variant_of(alloc, &pair.1, &pair.0),
        [_, _, ..] => Err(Unmade::Rejected("a shape is a map of one pair")),
    }
}

#[cycle(shapes)]
fn variant_of(alloc: Global, content: &Value, name: &Value) -> Result<Shape, Unmade>
    ensures { MakesTold figure (variant_at (view name.now) (view content.now)) result }
{
    match name {
        Value::Text(name) => named(alloc, content, name.as_str()),
        _ => Err(Unmade::Rejected("the name of a shape is a text")),
    }
}

#[cycle(shapes)]
fn named(alloc: Global, content: &Value, name: &str) -> Result<Shape, Unmade>
    ensures { MakesTold figure (variant_of_name name.now (circle_at (view content.now))
        (pair_at (view content.now)) (framed_at (view content.now))) result }
{
    if name == "Circle" {
        return circle_of(content);
    }
    if name == "Pair" {
        return pair_of(alloc, content);
    }
    if name == "Framed" {
        return framed_of(alloc, content);
    }
    Err(Unmade::Rejected("no such shape"))
}

#[cycle(shapes)]
#[tactic(auto, using(cbor4ii::specs::Laws::Shown::values_seen,))]
fn pair_of(alloc: Global, content: &Value) -> Result<Shape, Unmade>
    ensures { MakesTold figure (pair_at (view content.now)) result }
{
    match content {
        Value::Array(items) => pair_in(alloc, items),
        _ => Err(Unmade::Rejected("a pair is an array of two")),
    }
}

#[cycle(shapes)]
fn pair_in(alloc: Global, items: &[Value]) -> Result<Shape, Unmade>
    ensures { MakesTold figure (pair_in (items_view items.now)) result }
{
    match items {
        [first, second] => {
            let first = shape_of(alloc, first)?;
            let second = shape_of(alloc, second)?;
            pair(alloc, first, second)
        }
        [] => Err(Unmade::Rejected("a pair is an array of two")),
        [_] => Err(Unmade::Rejected("a pair is an array of two")),
        [_, _, _, ..] => Err(Unmade::Rejected("a pair is an array of two")),
    }
}

#[cycle(shapes)]
#[tactic(auto, using(cbor4ii::specs::Laws::Shown::values_seen,))]
fn framed_of(alloc: Global, content: &Value) -> Result<Shape, Unmade>
    ensures { MakesTold figure (framed_at (view content.now)) result }
{
    match content {
        Value::Map(pairs) => {
            let frame = frame_in(alloc, pairs)?;
            framed(alloc, frame)
        }
        _ => Err(Unmade::Rejected("a frame is a map")),
    }
}

#[cycle(shapes)]
fn frame_in(alloc: Global, pairs: &[(Value, Value)]) -> Result<Frame, Unmade>
    ensures { MakesTold frame_fields (frame_pairs_at (pairs_view pairs.now) nothing_framed)
        result }
{
    let mut frame = Frame {
        width: Single::Absent,
        inner: Single::Absent,
    };
    for pair in pairs {
        frame = with_pair(alloc, &pair.1, &pair.0, frame)?;
    }
    Ok(frame)
}

#[cycle(shapes)]
fn with_pair(alloc: Global, value: &Value, key: &Value, frame: Frame) -> Result<Frame, Unmade>
    ensures { MakesTold frame_fields (with_frame_pair (frame_fields frame)
        (view key.now) (view value.now) (figure_at (view value.now))) result }
{
    match key {
        Value::Text(name) => with_field(alloc, value, name.as_str(), frame),
        _ => Err(Unmade::Rejected("the name of a field is a text")),
    }
}

#[cycle(shapes)]
#[tactic(auto, using(crate::specs::Told::parts_told,))]
fn with_field(alloc: Global, value: &Value, name: &str, frame: Frame) -> Result<Frame, Unmade>
    ensures { MakesTold frame_fields (with_frame_field (frame_fields frame)
        name.now (view value.now) (figure_at (view value.now))) result }
{
    if name == "width" {
        let width = small_number_of("a width is a number below 2^32", value)?;
        return Ok(Frame {
            width: one_more(frame.width, width),
            ..frame
        });
    }
    if name == "inner" {
        let inner = shape_of(alloc, value)?;
        return Ok(Frame {
            inner: one_more(frame.inner, inner),
            ..frame
        });
    }
    Ok(frame)
}

fn small_number_of(words: StaticStr, value: &Value) -> Result<u32, Unmade>
    ensures { MakesTold (λ n. n) (small_number_at words.now (view value.now)) result }
{
    match value {
        Value::Integer(number) => match u32::try_from(*number) {
            Ok(number) => Ok(number),
            Err(_) => Err(Unmade::Rejected(words)),
        },
        _ => Err(Unmade::Rejected(words)),
    }
}

fn circle_of(content: &Value) -> Result<Shape, Unmade>
    ensures { MakesTold figure (circle_at (view content.now)) result }
{
    match small_number_of("a radius is a number below 2^32", content) {
        Ok(radius) => Ok(Shape::Circle(radius)),
        Err(error) => Err(error),
    }
}

#[tactic(auto, using(crate::specs::declared::shape::Shape::the_lemmas,))]
fn pair(alloc: Global, first: Shape, second: Shape) -> Result<Shape, Unmade>
    ensures { MakesTold figure (Ok (Figure.pair (figure first) (figure second))) result }
{
    let first = Box::new(alloc, first)?;
    let second = Box::new(alloc, second)?;
    Ok(Shape::Pair(first, second))
}

#[tactic(auto, using(crate::specs::declared::shape::Shape::the_lemmas, crate::specs::Told::parts_told,))]
fn framed(alloc: Global, frame: Frame) -> Result<Shape, Unmade>
    ensures { MakesTold figure (frame_from (frame_fields frame)) result }
{
    let width = the_one("a frame has one width", frame.width)?;
    let inner = the_one("a frame has one shape inside", frame.inner)?;
    let inner = Box::new(alloc, inner)?;
    Ok(Shape::Framed { width, inner })
}

#[cfg(test)]
pub(crate) mod tests;
