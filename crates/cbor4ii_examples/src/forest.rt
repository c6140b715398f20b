//! A struct that holds types which hold themselves, described as any other.
ghost use Rattle.std.specs.Prelude.{◌≡◌, codes};
ghost use Rattle.std.proofs.Common.{refl};
ghost use Rattle.cbor4ii.specs.CodecAgrees.{as_described};
ghost use Rattle.cbor4ii.specs.CodecFields.{struct_codec, with_field_once, no_fields};
ghost use Rattle.cbor4ii.specs.Fields.{no_values};

use crate::shape::Shape;
use crate::tree::Tree;
use cbor4ii::dec::Source;
use cbor4ii::enc::Write;
use cbor4ii::serde::{
    AsDescribed, DecodeError, Described, Deserialize, Deserializer, EncodeError, Once, Required,
    Serialize, Serializer, Typed,
};
use std::alloc::Global;

/// Trees, and the border around them.
#[derive(Debug, PartialEq, Drop)]
pub struct Forest {
    /// The forest's name.
    pub name: String,
    /// What grows there.
    pub trees: Vec<Tree>,
    /// The border.
    pub border: Shape,
}

impl Serialize for Forest {
    ghost encoding = { ⟦<Forest as Described>⟧.codec.encoding };

    fn serialize<W: Write>(&self, ser: &mut Serializer<W>) -> Result<(), EncodeError<W::Error>> {
        ser.serialize_3_fields(
            "Forest",
            "name",
            &self.name,
            "trees",
            &self.trees,
            "border",
            &self.border,
        )
    }
}

impl<S: Source> Deserialize<S> for Forest {
    fn deserialize(
        alloc: Global,
        de: &mut Deserializer<S>,
    ) -> Result<Forest, DecodeError<S::Error>> {
        let missing = [
            "a forest has one name",
            "a forest has one list of trees",
            "a forest has one border",
        ];
        let presences = (Once(Required), (Once(Required), (Once(Required), ())));
        de.deserialize_fields(
            alloc,
            "Forest",
            &["name", "trees", "border"],
            &missing,
            presences,
        )
    }
}

impl From<(String, (Vec<Tree>, (Shape, ())))> for Forest {
    ghost from_gives = { λ values f. f ≡
        record { name = values.0; trees = values.1.0; border = values.1.1.0 } };

    fn from(values: (String, (Vec<Tree>, (Shape, ())))) -> Forest {
        let (name, (trees, (border, ()))) = values;
        Forest {
            name,
            trees,
            border,
        }
    }
}

impl Typed for Forest {
    ghost promise = { ⟦<Forest as Described>⟧.codec.promise };
}

impl Described for Forest {
    ghost codec = { struct_codec (λ f. (f.name, (f.trees, (f.border, no_values))))
        (λ values. record { name = values.0; trees = values.1.0; border = values.1.1.0 })
        (λ f. refl)
        (with_field_once (codes "name") (codes "a forest has one name")
        ⟦<String as Described>⟧.codec
        (with_field_once (codes "trees") (codes "a forest has one list of trees")
        ⟦<Vec<Tree> as Described>⟧.codec
        (with_field_once (codes "border") (codes "a forest has one border")
        ⟦<Shape as Described>⟧.codec
        no_fields refl) refl) refl) refl };
}

impl AsDescribed for Forest {
    ghost agrees = { as_described tt refl };
}

#[cfg(test)]
mod tests;
