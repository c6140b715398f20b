//! An enum with variants of each kind, which a function reads.
ghost use Rattle.std.specs.Prelude.{◌∷◌, [], ◌≡◌, ◌+◌, ◌≤◌, OnOk, codes};
ghost use Rattle.cbor4ii_items.specs.Moves.{Moves};
ghost use Rattle.cbor4ii_items.specs.Strings.{definite_string};
ghost use Rattle.cbor4ii_ser.specs.Item.{encoded, field, struct_encoding, tuple_variant_encoding};
ghost use Rattle.cbor4ii_ser.specs.Item.{variant_encoding};
ghost use Rattle.cbor4ii.specs.Accessing.{inside, deserializer_name, steps_held};
ghost use Rattle.cbor4ii.specs.Typed.{input, answer_of};
ghost use Rattle.cbor4ii_examples.specs.declared.enumeration.Enum.TheVariants.{Unit, NewType};
ghost use Rattle.cbor4ii_examples.specs.declared.enumeration.Enum.TheVariants.{Tuple, Struct};

use cbor4ii::dec::Source;
use cbor4ii::enc::Write;
use cbor4ii::serde::{
    Accessor, DecodeError, Deserializer, EncodeError, Required, Serialize, Serializer,
};
use std::alloc::Global;

/// An enum with variants of each kind.
#[derive(Debug, PartialEq, Drop)]
pub enum Enum {
    Unit,
    NewType(u32),
    Tuple(String, bool),
    Struct { x: u32, y: i32 },
}

impl Serialize for Enum {
    ghost encoding = { λ e. elim e [
      | Unit ↦ encoded (definite_string 3 (codes "Unit"))
      | NewType n ↦ variant_encoding (codes "NewType") (⟦<u32 as Serialize>⟧.encoding n)
      | Tuple s b ↦ tuple_variant_encoding (codes "Tuple") (⟦<String as Serialize>⟧.encoding s
          ∷ ⟦<bool as Serialize>⟧.encoding b ∷ [])
      | Struct x y ↦ variant_encoding (codes "Struct") (struct_encoding (
          field (codes "x") (⟦<u32 as Serialize>⟧.encoding x)
          ∷ field (codes "y") (⟦<i32 as Serialize>⟧.encoding y) ∷ []))
    ] };

    fn serialize<W: Write>(&self, ser: &mut Serializer<W>) -> Result<(), EncodeError<W::Error>> {
        match self {
            Enum::Unit => ser.serialize_unit_variant("Enum", 0, "Unit"),
            Enum::NewType(n) => ser.serialize_newtype_variant("Enum", 1, "NewType", n),
            Enum::Tuple(s, b) => ser.serialize_variant_of_2_items("Enum", 2, "Tuple", s, b),
            Enum::Struct { x, y } => {
                ser.serialize_variant_of_2_fields("Enum", 3, "Struct", "x", x, "y", y)
            }
        }
    }
}

/// Reads a variant.
///
/// Whatever the answer is, the budget is as before, and the bytes that are left are an end of those
/// that were there. An accepted variant took a byte.
///
/// # Errors
///
/// - those of `deserialize_enum`, and those of the name, with what they leave
/// - those of the variant's content, or that the variant has the other form
/// - `Custom`: the name is that of no variant. What follows it is left
pub fn read_enum<S: Source>(
    alloc: Global,
    de: &mut Deserializer<S>,
) -> Result<Enum, DecodeError<S::Error>>
    ensures moves { Moves (input S.view de.old) (input S.view de.new) (answer_of result) }
    ensures progress { OnOk result
        ((input S.view de.new).bound + 1 ≤ (input S.view de.old).bound) }
{
    let names = ["Unit", "NewType", "Tuple", "Struct"];
    let mut variant = de.deserialize_enum("Enum", &names)?;
    let name: String = variant.variant(alloc)?;
    match name.as_str() {
        "Unit" => {
            variant.unit_variant()?;
            Ok(Enum::Unit)
        }
        "NewType" => Ok(Enum::NewType(variant.newtype_variant(alloc)?)),
        "Tuple" => {
            let mut items = variant.tuple_variant(2)?;
            read_tuple(alloc, &mut items)
        }
        "Struct" => read_struct(alloc, variant.content()?),
        _ => Err(DecodeError::Custom("another variant")),
    }
}

/// Reads the items of `Enum::Tuple`.
fn read_tuple<S: Source>(
    alloc: Global,
    items: &mut Accessor<'_, S>,
) -> Result<Enum, DecodeError<S::Error>>
    ensures same_reference { deserializer_name items.new ≡ deserializer_name items.old }
    ensures same_steps { steps_held items.new ≡ steps_held items.old }
    ensures moves { Moves (inside S.view items.old) (inside S.view items.new) (answer_of result) }
{
    let text = items.next_element(alloc)?;
    let flag = items.next_element(alloc)?;
    match (text, flag) {
        (Some(text), Some(flag)) => Ok(Enum::Tuple(text, flag)),
        _ => Err(DecodeError::Custom("an item is missing")),
    }
}

/// Reads the fields of `Enum::Struct`.
fn read_struct<S: Source>(
    alloc: Global,
    fields: &mut Deserializer<S>,
) -> Result<Enum, DecodeError<S::Error>>
    ensures { Moves (input S.view fields.old) (input S.view fields.new) (answer_of result) }
{
    let names = ["x", "y"];
    let missing = ["a field is missing"; 2];
    let presences = (Required, (Required, ()));
    let (x, (y, ())) = fields.deserialize_fields(alloc, "Struct", &names, &missing, presences)?;
    Ok(Enum::Struct { x, y })
}

#[cfg(test)]
pub(crate) mod tests;
