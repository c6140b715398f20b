//! Rows of a struct with an optional field, which is written and read in one call each, alone and
//! as a field of another.
ghost use Rattle.std.specs.Prelude.{◌∷◌, [], codes};
ghost use Rattle.cbor4ii_ser.specs.Item.{field, struct_encoding};

use crate::point::{Point, point_is_read_back};
use crate::recipes::{reads_recipe, tries_recipe};
use cbor4ii::dec::Source;
use cbor4ii::enc::Write;
use cbor4ii::error::StaticStr;
use cbor4ii::serde::{
    Deserialize, Deserializer, EncodeError, Optional, Required, Serialize, Serializer, Typed,
};
use cbor4ii_vectors::{eof, mismatch, no_step, table};
use cbor4ii_vectors_de::typed::{BothShown, Got, RowShown, RowShownWithin, comes_back};
use std::alloc::Global;
use std::test::Fail;

// The README's example, there and back.
#[test]
fn a_point_comes_back(rt: HostRuntime) -> Result<(), Fail> {
    comes_back::<Point>(
        rt.alloc(),
        b"\xa3\x61x\x05\x64name\x61a\x61y\x20",
        "Point { x: 5, name: \"a\", y: Some(-1) }",
    )
}

#[test]
fn the_laws_are_called(rt: HostRuntime) -> Result<(), Fail> {
    let point = Point {
        x: 5,
        name: String::from_str(rt.alloc(), "a")?,
        y: None,
    };
    point_is_read_back(rt.alloc(), &point);
    Ok(())
}

const WITHOUT_Y: &str = "Is(Point { x: 5, name: \"a\", y: None })";

const WITH_Y: &str = "Is(Point { x: 5, name: \"a\", y: Some(-1) })";

const POINTS: &[BothShown] = table! {
    (b"\xa3\x61x\x05\x64name\x61a\x61y\xf6", WITHOUT_Y),
    (b"\xa3\x61x\x05\x64name\x61a\x61y\x20", WITH_Y),
};

const X_TWICE: &str = "Custom(\"a point has one x\")";

const NAME_TWICE: &str = "Custom(\"a point has one name\")";

const Y_TWICE: &str = "Custom(\"a point has one y\")";

const POINTS_READ: &[RowShown] = table! {
    (b"\xbf\x61y\x20\x64name\x61a\x61x\x05\xff\x00", Ok(WITH_Y), b"\x00"),
    (b"\xa4\x61z\x81\x82\x01\x02\x61y\x20\x61x\x05\x64name\x61a", Ok(WITH_Y), b""),
    // Each comes once.
    (b"\xa4\x61y\xf6\x61x\x05\x61y\x20\x64name\x61a\xff", Ok(Y_TWICE), b"\xff"),
    (b"\xa4\x61x\x04\x61y\x20\x61x\x05\x64name\x61a\xff", Ok(X_TWICE), b"\xff"),
    (b"\xa3\x61x\x05\x64name\x61a\x64name\x61a\xff", Ok(NAME_TWICE), b"\xff"),
    // Only y may be missing.
    (b"\xa2\x61x\x05\x64name\x61a", Ok(WITHOUT_Y), b""),
    (b"\xa2\x61x\x05\x61y\xf6", Ok("Custom(\"a point has one name\")"), b""),
    (b"\xa2\x64name\x61a\x61y\x20", Ok("Custom(\"a point has one x\")"), b""),
    (b"\xa0\x00", Ok("Custom(\"a point has one x\")"), b"\x00"),
    (b"\xa1\x61x\x20\x01", Err(mismatch!("u32", 32)), b"\x01"),
    (b"\xa1\x01\x02", Err(mismatch!("str", 1)), b"\x02"),
    (b"\xa1\x61z", Err(eof!("ignored-any", 1)), b""),
    (b"\xbf\x61x\x05", Err(eof!("break", 1)), b""),
    (b"\x83\x05", Err(mismatch!("map", 131)), b"\x05"),
};

const POINTS_WITHIN: &[RowShownWithin] = table! {
    (b"\xa0", 0, Err(no_step!("map")), b"\xa0"),
    (b"\xa1\x61y\x05", 1, Err(no_step!("option")), b"\x05"),
};

#[test]
fn points_are_written_and_read(rt: HostRuntime) -> Result<(), Fail> {
    let alloc = rt.alloc();
    tries_recipe(alloc, "Point", POINTS, POINTS_READ, POINTS_WITHIN)
}

/// A struct of four fields, one of which is a struct itself.
#[derive(Debug, PartialEq, Drop)]
pub struct Whole {
    a: u8,
    b: Option<u8>,
    c: Vec<u8>,
    d: Point,
}

impl Serialize for Whole {
    ghost encoding = { λ w. struct_encoding (field (codes "a") (⟦<u8 as Serialize>⟧.encoding w.a)
        ∷ field (codes "b") (⟦<Option<u8> as Serialize>⟧.encoding w.b)
        ∷ field (codes "c") (⟦<Vec<u8> as Serialize>⟧.encoding w.c)
        ∷ field (codes "d") (⟦<Point as Serialize>⟧.encoding w.d) ∷ []) };

    fn serialize<W: Write>(&self, ser: &mut Serializer<W>) -> Result<(), EncodeError<W::Error>> {
        ser.serialize_4_fields(
            "Whole", "a", &self.a, "b", &self.b, "c", &self.c, "d", &self.d,
        )
    }
}

const MISSING: [StaticStr; 4] = ["a field is missing"; 4];

impl Typed for Whole {}

impl<S: Source> Deserialize<S> for Whole {
    fn deserialize(alloc: Global, de: &mut Deserializer<S>) -> Got<Whole, S> {
        let names = ["a", "b", "c", "d"];
        let presences = (Required, (Required, (Required, (Required, ()))));
        let (a, (b, (c, (d, ())))) = de.deserialize_fields(
            alloc, "Whole", &names, &MISSING, presences,
        )?;
        Ok(Whole { a, b, c, d })
    }
}

/// A type that reads `Whole` and does not know c.
#[derive(Debug, PartialEq, Drop)]
pub struct WithoutC(u8, Option<u8>, Point);

impl Typed for WithoutC {}

impl<S: Source> Deserialize<S> for WithoutC {
    fn deserialize(alloc: Global, de: &mut Deserializer<S>) -> Got<WithoutC, S> {
        let names = ["a", "b", "d"];
        let presences = (Required, (Required, (Required, ())));
        let (a, (b, (d, ()))) = de.deserialize_fields(alloc, "Whole", &names, &MISSING, presences)?;
        Ok(WithoutC(a, b, d))
    }
}

/// A type that reads `Whole`, does not know d, and knows e, which may be missing.
#[derive(Debug, PartialEq, Drop)]
pub struct WithoutD(u8, Vec<u8>, Option<u8>);

impl Typed for WithoutD {}

impl<S: Source> Deserialize<S> for WithoutD {
    fn deserialize(alloc: Global, de: &mut Deserializer<S>) -> Got<WithoutD, S> {
        let names = ["a", "c", "e"];
        let presences = (Required, (Required, (Optional, ())));
        let (a, (c, (e, ()))) = de.deserialize_fields(alloc, "Whole", &names, &MISSING, presences)?;
        Ok(WithoutD(a, c, e))
    }
}

const WHOLE: &[u8] = b"\xa4\x61a\x01\x61b\x02\x61c\x82\x03\x04\x61d\
\xa3\x61x\x05\x64name\x61a\x61y\xf6";

const WHOLES: &[BothShown] = table! {
    (WHOLE, "Is(Whole { a: 1, b: Some(2), c: [3, 4], d: Point { x: 5, name: \"a\", y: None } })"),
};

const WHOLES_READ: &[RowShown] = table! {
    (b"\xa1\x61a\x01", Ok("Custom(\"a field is missing\")"), b""),
};

const WITHOUT_C: &[RowShown] = table! {
    (WHOLE, Ok("Is(WithoutC(1, Some(2), Point { x: 5, name: \"a\", y: None }))"), b""),
};

const WITHOUT_D: &[RowShown] = table! {
    (WHOLE, Ok("Is(WithoutD(1, [3, 4], None))"), b""),
};

#[test]
fn fields_that_a_type_does_not_know_are_skipped(rt: HostRuntime) -> Result<(), Fail> {
    let alloc = rt.alloc();
    tries_recipe(alloc, "Whole", WHOLES, WHOLES_READ, &[])?;
    reads_recipe(alloc, "WithoutC", WITHOUT_C, &[])?;
    reads_recipe(alloc, "WithoutD", WITHOUT_D, &[])
}
