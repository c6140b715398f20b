//! Variants that are written from their fields or items in one call.
ghost use Rattle.std.specs.Prelude.{◌∷◌, []};
ghost use Rattle.cbor4ii_ser.specs.Item.{field, struct_encoding, tuple_variant_encoding};
ghost use Rattle.cbor4ii_ser.specs.Item.{variant_encoding};
ghost use Rattle.cbor4ii_ser.specs.Serializing.{Serializes, output};

use crate::error::EncodeError;
use crate::serialize::Serialize;
use crate::serializer::Serializer;
use crate::slot::{push_variant, put_variant_of_two};
use cbor4ii_rw::write::Write;

impl<W: Write> Serializer<W> {
    /// Writes a variant of one field, a name and a value. It is a map of one pair, from the
    /// variant's name to a map of the fields in this order. The enum's name and the variant's index
    /// are not written.
    ///
    /// # Errors
    ///
    /// `Core` at the head or a name, and those of the `serialize` of a value. They are described at
    /// `Serializer`. What was written before a value that is rejected stays.
    pub fn serialize_variant_of_1_field<A: Serialize>(
        &mut self,
        name: &str,
        _variant_index: u32,
        variant: &str,
        first_name: &str,
        first: &A,
    ) -> Result<(), EncodeError<W::Error>>
        ensures { Serializes W.atomic (variant_encoding variant.now (struct_encoding
            (field first_name.now (A.encoding first.now) ∷ [])))
            (output W.view self.old) (output W.view self.new) result }
    {
        let mut answer = Ok(());
        let Some(()) = push_variant(&mut self.writer, variant, &mut answer) else {
            return answer;
        };
        self.serialize_1_field(name, first_name, first)
    }

    /// Writes a variant of two fields, as `serialize_variant_of_1_field` does.
    ///
    /// # Errors
    ///
    /// Those of `serialize_variant_of_1_field`.
    pub fn serialize_variant_of_2_fields<A: Serialize, B: Serialize>(
        &mut self,
        name: &str,
        _variant_index: u32,
        variant: &str,
        first_name: &str,
        first: &A,
        second_name: &str,
        second: &B,
    ) -> Result<(), EncodeError<W::Error>>
        ensures { Serializes W.atomic (variant_encoding variant.now (struct_encoding
            (field first_name.now (A.encoding first.now)
            ∷ field second_name.now (B.encoding second.now) ∷ [])))
            (output W.view self.old) (output W.view self.new) result }
    {
        let mut answer = Ok(());
        let Some(()) = push_variant(&mut self.writer, variant, &mut answer) else {
            return answer;
        };
        self.serialize_2_fields(name, first_name, first, second_name, second)
    }

    /// Writes a variant of three fields, as `serialize_variant_of_1_field` does.
    ///
    /// # Errors
    ///
    /// Those of `serialize_variant_of_1_field`.
    pub fn serialize_variant_of_3_fields<A: Serialize, B: Serialize, C: Serialize>(
        &mut self,
        name: &str,
        _variant_index: u32,
        variant: &str,
        first_name: &str,
        first: &A,
        second_name: &str,
        second: &B,
        third_name: &str,
        third: &C,
    ) -> Result<(), EncodeError<W::Error>>
        ensures { Serializes W.atomic (variant_encoding variant.now (struct_encoding
            (field first_name.now (A.encoding first.now)
            ∷ field second_name.now (B.encoding second.now)
            ∷ field third_name.now (C.encoding third.now) ∷ [])))
            (output W.view self.old) (output W.view self.new) result }
    {
        let mut answer = Ok(());
        let Some(()) = push_variant(&mut self.writer, variant, &mut answer) else {
            return answer;
        };
        self.serialize_3_fields(
            name,
            first_name,
            first,
            second_name,
            second,
            third_name,
            third,
        )
    }

    /// Writes a variant of four fields, as `serialize_variant_of_1_field` does.
    ///
    /// # Errors
    ///
    /// Those of `serialize_variant_of_1_field`.
    pub fn serialize_variant_of_4_fields<A: Serialize, B: Serialize, C: Serialize, D: Serialize>(
        &mut self,
        name: &str,
        _variant_index: u32,
        variant: &str,
        first_name: &str,
        first: &A,
        second_name: &str,
        second: &B,
        third_name: &str,
        third: &C,
        fourth_name: &str,
        fourth: &D,
    ) -> Result<(), EncodeError<W::Error>>
        ensures { Serializes W.atomic (variant_encoding variant.now (struct_encoding
            (field first_name.now (A.encoding first.now)
            ∷ field second_name.now (B.encoding second.now)
            ∷ field third_name.now (C.encoding third.now)
            ∷ field fourth_name.now (D.encoding fourth.now) ∷ [])))
            (output W.view self.old) (output W.view self.new) result }
    {
        let mut answer = Ok(());
        let Some(()) = push_variant(&mut self.writer, variant, &mut answer) else {
            return answer;
        };
        self.serialize_4_fields(
            name,
            first_name,
            first,
            second_name,
            second,
            third_name,
            third,
            fourth_name,
            fourth,
        )
    }

    /// Writes a variant of two items: a map of one pair, the variant's name and an array of the
    /// items in this order. The enum's name and the variant's index are not written.
    ///
    /// # Errors
    ///
    /// `Core` at the head or the name, and those of the `serialize` of an item. They are described
    /// at `Serializer`. What was written before an item that is rejected stays.
    pub fn serialize_variant_of_2_items<A: Serialize, B: Serialize>(
        &mut self,
        _name: &str,
        _variant_index: u32,
        variant: &str,
        first: &A,
        second: &B,
    ) -> Result<(), EncodeError<W::Error>>
        ensures { Serializes W.atomic (tuple_variant_encoding variant.now
            (A.encoding first.now ∷ B.encoding second.now ∷ []))
            (output W.view self.old) (output W.view self.new) result }
    {
        let mut answer = Ok(());
        put_variant_of_two(self, variant, first, second, &mut answer);
        answer
    }

    /// Writes a variant of three items, as `serialize_variant_of_2_items` does.
    ///
    /// # Errors
    ///
    /// Those of `serialize_variant_of_2_items`.
    pub fn serialize_variant_of_3_items<A: Serialize, B: Serialize, C: Serialize>(
        &mut self,
        _name: &str,
        _variant_index: u32,
        variant: &str,
        first: &A,
        second: &B,
        third: &C,
    ) -> Result<(), EncodeError<W::Error>>
        ensures { Serializes W.atomic (tuple_variant_encoding variant.now
            (A.encoding first.now ∷ B.encoding second.now ∷ C.encoding third.now ∷ []))
            (output W.view self.old) (output W.view self.new) result }
    {
        self.tuple_variant_head(variant, 3)?;
        first.serialize(self)?;
        second.serialize(self)?;
        third.serialize(self)
    }
}
