//! A struct with an optional field, written and read in one call each, and its laws.
ghost use Rattle.std.specs.Prelude.{◌≡◌, ◌<◌, ◌≤◌, ◌^◌, ℤ, Some, None, codes};
ghost use Rattle.std.proofs.Common.{refl};
ghost use Rattle.cbor4ii_items.specs.Numbers.{IsWithin};
ghost use Rattle.cbor4ii_ser.specs.OneItem.{IsOneItem, canonical};
ghost use Rattle.cbor4ii.specs.CodecAgrees.{as_described};
ghost use Rattle.cbor4ii.specs.CodecFields.{struct_codec, with_field_once, with_field_once_or};
ghost use Rattle.cbor4ii.specs.CodecFields.{no_fields};
ghost use Rattle.cbor4ii.specs.Fields.{no_values};
ghost use Rattle.cbor4ii.specs.ReadBack.{IsReadBack};

use cbor4ii::dec::Source;
use cbor4ii::enc::Write;
use cbor4ii::serde::{
    AsDescribed, DecodeError, Described, Deserialize, Deserializer, EncodeError, Once, Or,
    Required, Serialize, Serializer, Typed, described_values_are_read_back,
};
use std::alloc::Global;

/// A struct with an optional field.
#[derive(Debug, PartialEq, Drop)]
pub struct Point {
    pub x: u32,
    pub name: String,
    pub y: Option<i32>,
}

impl Serialize for Point {
    ghost encoding = { ⟦<Point as Described>⟧.codec.encoding };

    fn serialize<W: Write>(&self, ser: &mut Serializer<W>) -> Result<(), EncodeError<W::Error>> {
        ser.serialize_3_fields("Point", "x", &self.x, "name", &self.name, "y", &self.y)
    }
}

impl<S: Source> Deserialize<S> for Point {
    fn deserialize(
        alloc: Global,
        de: &mut Deserializer<S>,
    ) -> Result<Point, DecodeError<S::Error>> {
        let missing = [
            "a point has one x",
            "a point has one name",
            "a point has one y",
        ];
        let presences = (Once(Required), (Once(Required), (Once(Or(None)), ())));
        de.deserialize_fields(alloc, "Point", &["x", "name", "y"], &missing, presences)
    }
}

impl From<(u32, (String, (Option<i32>, ())))> for Point {
    ghost from_gives = { λ values p. p ≡ record {
      x = values.0;
      name = values.1.0;
      y = values.1.1.0;
    } };

    fn from(values: (u32, (String, (Option<i32>, ())))) -> Point {
        let (x, (name, (y, ()))) = values;
        Point { x, name, y }
    }
}

impl Typed for Point {
    ghost promise = { ⟦<Point as Described>⟧.codec.promise };
}

impl Described for Point {
    ghost codec = { struct_codec (λ p. (p.x, (p.name, (p.y, no_values))))
        (λ values. record { x = values.0; name = values.1.0; y = values.1.1.0 }) (λ p. refl)
        (with_field_once (codes "x") (codes "a point has one x") ⟦<u32 as Described>⟧.codec
        (with_field_once (codes "name") (codes "a point has one name") ⟦<String as Described>⟧.codec
        (with_field_once_or (codes "y") (codes "a point has one y") None
        ⟦<Option<i32> as Described>⟧.codec
        no_fields refl) refl) refl) refl };
}

impl AsDescribed for Point {
    ghost agrees = { as_described tt refl };
}

/// What a `Point` writes is one canonical item, and is read back as that `Point`, whatever follows
/// it, in two steps at most.
pub fn point_is_read_back(alloc: Global, point: &Point)
    ensures back { IsReadBack ⟦<Point as Typed>⟧.promise.format.reads
        (⟦<Point as Serialize>⟧.encoding point.now) point.now
        (⟦<Point as Described>⟧.codec.cost point.now) }
    ensures cost { ⟦<Point as Described>⟧.codec.cost point.now ≤ 2 }
    ensures one { IsOneItem canonical (⟦<Point as Serialize>⟧.encoding point.now) }
{
    numbers_are_in_range(point.x, point.y);
    described_values_are_read_back::<Point>();
}

// The numbers of these types.
fn numbers_are_in_range(x: u32, y: Option<i32>)
    ensures x { x < 2 ^ 32 }
    ensures y { (v : ℤ) → y ≡ Some v → IsWithin (2 ^ 31) v }
{}

#[cfg(test)]
pub(crate) mod tests;
