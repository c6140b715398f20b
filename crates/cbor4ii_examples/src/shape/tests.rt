//! Rows of an enum that holds values of its own kind.
use crate::recipes::{reads_recipe, tries_recipe};
use crate::shape::Shape;
use cbor4ii::serde::{described_values_are_read_back, from_slice, to_vec};
use cbor4ii_vectors::compared::same;
use cbor4ii_vectors::rows::Want;
use cbor4ii_vectors::{eof, mismatch, no_step, require_length, table, unsupported};
use cbor4ii_vectors_de::typed::{BothShown, RowShown, RowShownWithin, comes_back, is_rejected};
use std::alloc::{AllocError, Global};
use std::collections::TryReserveError;
use std::test::Fail;

const SHAPES: &[BothShown] = table! {
    (b"\xa1\x66Circle\x05", "Is(Circle(5))"),
    (b"\xa1\x64Pair\x82\xa1\x66Circle\x01\xa1\x66Circle\x02", "Is(Pair(Circle(1), Circle(2)))"),
    (b"\xa1\x66Framed\xa2\x65width\x03\x65inner\xa1\x64Pair\x82\
\xa1\x66Circle\x18\x20\xa1\x66Framed\xa2\x65width\x00\x65inner\xa1\x66Circle\x01",
        "Is(Framed { width: 3, inner: Pair(Circle(32), Framed { width: 0, inner: Circle(1) }) })"),
};

// An enum of the same variants, as one call reads it: what is inside are shapes.
pub mod described {
    use crate::shape;
    use cbor4ii::dec::Source;
    use cbor4ii::error::Never;
    use cbor4ii::serde::Choice::{self, First, Other};
    use cbor4ii::serde::{
        Deserialize, Deserializer, FieldWords, Holds, HoldsFields, Once, Otherwise, Required, Typed,
    };
    use cbor4ii_vectors_de::typed::Got;
    use std::alloc::Global;
    use std::marker::PhantomData;

    #[derive(Debug, Drop)]
    pub enum Shape {
        Circle(u32),
        Pair(shape::Shape, shape::Shape),
        Framed { width: u32, inner: shape::Shape },
    }

    type Content = Choice<
        u32,
        Choice<(shape::Shape, shape::Shape), Choice<(u32, (shape::Shape, ())), Never>>,
    >;

    impl From<Content> for Shape {
        fn from(content: Content) -> Shape {
            match content {
                First(radius) => Shape::Circle(radius),
                Other(First((first, second))) => Shape::Pair(first, second),
                Other(Other(First(fields))) => {
                    let (width, (inner, ())) = fields;
                    Shape::Framed { width, inner }
                }
            }
        }
    }

    impl Typed for Shape {}

    impl<S: Source> Deserialize<S> for Shape {
        fn deserialize(alloc: Global, de: &mut Deserializer<S>) -> Got<Shape, S> {
            let variants = ["Circle", "Pair", "Framed"];
            let names = &["width", "inner"];
            let missing = &["a frame has one width", "a frame has one shape inside"];
            let words = FieldWords(names, missing, PhantomData);
            let presences = (Once(Required), (Once(Required), ()));
            let others = HoldsFields(words, presences, Otherwise("no such shape"));
            de.deserialize_variant(alloc, "Shape", &variants, (Holds, (Holds, others)))
        }
    }
}

// The fields of a frame come in any order, and others are skipped.
const ACCEPTED: &[RowShown] = table! {
    (b"\xa1\x66Circle\x1a\0\0\0\x05\x01", Ok("Is(Circle(5))"), b"\x01"),
    (b"\xa1\x64Pair\x82\xa1\x66Circle\x01\xa1\x66Circle\x02",
        Ok("Is(Pair(Circle(1), Circle(2)))"), b""),
    (b"\xa1\x66Framed\xa2\x65inner\xa1\x66Circle\x01\x65width\x03",
        Ok("Is(Framed { width: 3, inner: Circle(1) })"), b""),
    (b"\xa1\x66Framed\xbf\x61x\xf6\x65width\x03\x61x\x05\x65inner\xa1\x66Circle\x01\xff\xff",
        Ok("Is(Framed { width: 3, inner: Circle(1) })"), b"\xff"),
};

const NO_SHAPE: &str = "Custom(\"a shape is a map of one pair\")";

const NO_NAME: &str = "Custom(\"the name of a shape is a text\")";

const NO_SUCH: &str = "Custom(\"no such shape\")";

const NO_RADIUS: &str = "Custom(\"a radius is a number below 2^32\")";

const NO_PAIR: &str = "Custom(\"a pair is an array of two\")";

const NO_FRAME: &str = "Custom(\"a frame is a map\")";

const NO_WIDTH: &str = "Custom(\"a width is a number below 2^32\")";

const NO_KEY: &str = "Custom(\"the name of a field is a text\")";

const ONE_WIDTH: &str = "Custom(\"a frame has one width\")";

const ONE_INSIDE: &str = "Custom(\"a frame has one shape inside\")";

// Bytes; the words in which the shape rejects them, of which nothing is left; and what a described
// enum of the same variants answers, with what it leaves.
type Beside = (
    &'static [u8],
    &'static str,
    Want<&'static str>,
    &'static [u8],
);

const BESIDE: &[Beside] = table! {
    // It is no map of one pair.
    (b"\x05", NO_SHAPE, Err(mismatch!("enum", 5)), b"\x05"),
    (b"\x66Circle", NO_SHAPE, Err(mismatch!("enum", 0x66)), b""),
    (b"\xa0", NO_SHAPE, Err(mismatch!("enum", 0xa0)), b"\xa0"),
    (b"\xa2\x66Circle\x05\x66Circle\x05", NO_SHAPE, Err(mismatch!("enum", 0xa2)),
        b"\xa2\x66Circle\x05\x66Circle\x05"),
    // No variant has the name.
    (b"\xa1\x66circle\x05", NO_SUCH, Ok(NO_SUCH), b"\x05"),
    (b"\xa1\x05\x05", NO_NAME, Err(mismatch!("str", 5)), b"\x05"),
    // A number is of another kind, or too great.
    (b"\xa1\x66Circle\x20", NO_RADIUS, Err(mismatch!("u32", 0x20)), b""),
    (b"\xa1\x66Circle\xf6", NO_RADIUS, Err(mismatch!("u32", 0xf6)), b""),
    (b"\xa1\x66Circle\x1b\0\0\0\x01\0\0\0\0", NO_RADIUS, Err(mismatch!("u32", 0x1b)),
        b"\0\0\0\x01\0\0\0\0"),
    (b"\xa1\x66Circle\x81\x05", NO_RADIUS, Err(mismatch!("u32", 0x81)), b"\x05"),
    // A pair has two shapes, and no more.
    (b"\xa1\x64Pair\x81\xa1\x66Circle\x01", NO_PAIR, Err(require_length!("tuple", 1)),
        b"\xa1\x66Circle\x01"),
    (b"\xa1\x64Pair\x83\xa1\x66Circle\x01\xa1\x66Circle\x02\xa1\x66Circle\x03", NO_PAIR,
        Err(require_length!("tuple", 3)),
        b"\xa1\x66Circle\x01\xa1\x66Circle\x02\xa1\x66Circle\x03"),
    (b"\xa1\x64Pair\xa0", NO_PAIR, Err(mismatch!("array", 0xa0)), b""),
    (b"\xa1\x64Pair\x82\xa1\x66Circle\x01\x02", NO_SHAPE, Ok(NO_SHAPE), b""),
    (b"\xa1\x64Pair\x82\x01\xa1\x66Circle\x02", NO_SHAPE, Ok(NO_SHAPE), b"\xa1\x66Circle\x02"),
    // A frame has each of its fields once.
    (b"\xa1\x66Framed\x80", NO_FRAME, Err(mismatch!("map", 0x80)), b""),
    (b"\xa1\x66Framed\xa1\x65width\x03", ONE_INSIDE, Ok(ONE_INSIDE), b""),
    (b"\xa1\x66Framed\xa1\x65inner\xa1\x66Circle\x01", ONE_WIDTH, Ok(ONE_WIDTH), b""),
    (b"\xa1\x66Framed\xa3\x65width\x03\x65width\x03\x65inner\xa1\x66Circle\x01", ONE_WIDTH,
        Ok(ONE_WIDTH), b""),
    (b"\xa1\x66Framed\xa3\x65inner\xa1\x66Circle\x01\x65width\x03\x65inner\xa1\x66Circle\x01",
        ONE_INSIDE, Ok(ONE_INSIDE), b""),
    (b"\xa1\x66Framed\xa2\x65width\x20\x65inner\xa1\x66Circle\x01", NO_WIDTH,
        Err(mismatch!("u32", 0x20)), b"\x65inner\xa1\x66Circle\x01"),
    (b"\xa1\x66Framed\xa3\x65width\x03\x05\x05\x65inner\xa1\x66Circle\x01", NO_KEY,
        Err(mismatch!("str", 5)), b"\x05\x65inner\xa1\x66Circle\x01"),
    (b"\xa1\x66Framed\xa2\x65width\x03\x65inner\xf6", NO_SHAPE, Ok(NO_SHAPE), b""),
};

#[test]
fn shapes_are_answered_as_a_described_enum(rt: HostRuntime) -> Result<(), Fail> {
    reads_recipe(rt.alloc(), "Shape", ACCEPTED, &[])?;
    reads_recipe(rt.alloc(), "described Shape", ACCEPTED, &[])?;
    for &(bytes, words, want, rest) in BESIDE {
        reads_recipe(rt.alloc(), "Shape", &[(bytes, Ok(words), b"")], &[])?;
        reads_recipe(rt.alloc(), "described Shape", &[(bytes, want, rest)], &[])?;
    }
    Ok(())
}

// A value does not keep which lengths are open, nor in how many bytes a number stands.
const OTHERS: &[RowShown] = table! {
    (b"\xbf\x7f\x63Cir\x63cle\xff\x1a\0\0\0\x05\xff\x01", Ok("Is(Circle(5))"), b"\x01"),
    (b"\xa1\x64Pair\x9f\xa1\x66Circle\x01\xa1\x66Circle\x02\xff",
        Ok("Is(Pair(Circle(1), Circle(2)))"), b""),
    (b"\xa1\x66Circle\xc2\x41\x05", Ok("Is(Circle(5))"), b""),
    (b"\xa1\x66Circle\x1b\0\0\0\0\0\0\0\x05", Ok("Is(Circle(5))"), b""),
    (b"\xc1\x05", Err(unsupported!("any", 0xc1)), b"\xc1\x05"),
    (b"\xa1\x66Circle", Err(eof!("any", 1)), b""),
};

// What a described enum answers to the same bytes.
const OTHERS_DESCRIBED: &[RowShown] = table! {
    (b"\xbf\x7f\x63Cir\x63cle\xff\x1a\0\0\0\x05\xff\x01", Err(mismatch!("enum", 0xbf)),
        b"\xbf\x7f\x63Cir\x63cle\xff\x1a\0\0\0\x05\xff\x01"),
    (b"\xa1\x64Pair\x9f\xa1\x66Circle\x01\xa1\x66Circle\x02\xff", Err(require_length!("tuple")),
        b"\xa1\x66Circle\x01\xa1\x66Circle\x02\xff"),
    (b"\xa1\x66Circle\xc2\x41\x05", Err(mismatch!("u32", 0xc2)), b"\x41\x05"),
    (b"\xa1\x66Circle\x1b\0\0\0\0\0\0\0\x05", Err(mismatch!("u32", 0x1b)), b"\0\0\0\0\0\0\0\x05"),
};

#[test]
fn a_value_keeps_less_than_its_bytes(rt: HostRuntime) -> Result<(), Fail> {
    reads_recipe(rt.alloc(), "described Shape", OTHERS_DESCRIBED, &[])
}

// A map takes two steps, and what is inside one more.
const WITHIN: &[RowShownWithin] = table! {
    (b"\xa1\x66Circle\x05\x01", 3, Ok("Is(Circle(5))"), b"\x01"),
    (b"\xa1\x66Circle\x05\x01", 2, Err(no_step!("any")), b"\x66Circle\x05\x01"),
    (b"\xa1\x66Circle\x05\x01", 1, Err(no_step!("map")), b"\xa1\x66Circle\x05\x01"),
};

#[test]
fn shapes_are_written_and_read(rt: HostRuntime) -> Result<(), Fail> {
    tries_recipe(rt.alloc(), "Shape", SHAPES, OTHERS, WITHIN)
}

#[test]
fn a_vector_of_shapes_comes_back(rt: HostRuntime) -> Result<(), Fail> {
    comes_back::<Vec<Shape>>(rt.alloc(), b"\x81\xa1\x66Circle\x05", "[Circle(5)]")
}

const FRAME: &[u8] = b"\xa1\x66Framed\xa2\x65width\x03\x65inner";

const CIRCLE: &[u8] = b"\xa1\x66Circle\x05";

// A circle in so many frames, one in another. The bytes stay for good.
fn nested(alloc: Global, count: usize) -> Result<&'static [u8], TryReserveError> {
    let mut bytes = Vec::new(alloc);
    for _ in 0..count {
        bytes.extend_from_slice(FRAME)?;
    }
    bytes.extend_from_slice(CIRCLE)?;
    Ok(bytes.leak())
}

fn nested_shape(alloc: Global, count: usize) -> Result<Shape, AllocError> {
    let mut shape = Shape::Circle(5);
    for _ in 0..count {
        let inner = Box::new(alloc, shape)?;
        shape = Shape::Framed { width: 3, inner };
    }
    Ok(shape)
}

// A frame takes two steps for each of its maps, and a circle three.
#[test]
fn as_deep_as_256_steps_allow(rt: HostRuntime) -> Result<(), Fail> {
    let alloc = rt.alloc();
    let bytes = nested(alloc, 63)?;
    let shape: Shape = from_slice(alloc, bytes)?;
    same(to_vec(Vec::new(alloc), &shape)?.as_slice(), bytes)?;
    same(shape, nested_shape(alloc, 63)?)?;
    is_rejected(
        from_slice::<&[u8], Shape>(alloc, nested(alloc, 64)?),
        no_step!("any"),
    )
}

#[test]
fn shapes_are_read_back(rt: HostRuntime) {
    described_values_are_read_back::<Shape>();
    described_values_are_read_back::<(u8, Box<Shape>)>();
}
