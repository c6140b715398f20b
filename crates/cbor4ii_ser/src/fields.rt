//! Structs that are written from their fields in one call.
ghost use Rattle.std.specs.Prelude.{◌∷◌, []};
ghost use Rattle.cbor4ii_ser.specs.Item.{field, struct_encoding};
ghost use Rattle.cbor4ii_ser.specs.Serializing.{Serializes, output};

use crate::bounded::put_field;
use crate::error::EncodeError;
use crate::serialize::Serialize;
use crate::serializer::Serializer;
use crate::slot::push_parts_head;
use cbor4ii_items::major;
use cbor4ii_rw::write::Write;

// A call for each number of fields: a list of them would be a type argument that names several
// lifetimes, which the borrow checker does not cover. A name stands beside its value, since a call
// that is given a pair has no proof for a type that holds values of its own kind.
impl<W: Write> Serializer<W> {
    /// Writes a struct of one field, a name and a value. It is a map of the fields, in this order.
    /// The struct's name is not written.
    ///
    /// # Errors
    ///
    /// `Core` at the head or a name, and those of the `serialize` of a value. They are described at
    /// `Serializer`. What was written before a value that is rejected stays.
    pub fn serialize_1_field<A: Serialize>(
        &mut self,
        _name: &str,
        first_name: &str,
        first: &A,
    ) -> Result<(), EncodeError<W::Error>>
        ensures { Serializes W.atomic (struct_encoding
            (field first_name.now (A.encoding first.now) ∷ []))
            (output W.view self.old) (output W.view self.new) result }
    {
        let mut answer = Ok(());
        let Some(()) = push_parts_head(&mut self.writer, major::MAP, 1, &mut answer) else {
            return answer;
        };
        let Some(()) = put_field(self, first_name, first, &mut answer) else {
            return answer;
        };
        Ok(())
    }

    /// Writes a struct of two fields, as `serialize_1_field` does.
    ///
    /// # Errors
    ///
    /// Those of `serialize_1_field`.
    pub fn serialize_2_fields<A: Serialize, B: Serialize>(
        &mut self,
        _name: &str,
        first_name: &str,
        first: &A,
        second_name: &str,
        second: &B,
    ) -> Result<(), EncodeError<W::Error>>
        ensures { Serializes W.atomic (struct_encoding
            (field first_name.now (A.encoding first.now)
            ∷ field second_name.now (B.encoding second.now) ∷ []))
            (output W.view self.old) (output W.view self.new) result }
    {
        let mut answer = Ok(());
        let Some(()) = push_parts_head(&mut self.writer, major::MAP, 2, &mut answer) else {
            return answer;
        };
        let Some(()) = put_field(self, first_name, first, &mut answer) else {
            return answer;
        };
        let Some(()) = put_field(self, second_name, second, &mut answer) else {
            return answer;
        };
        Ok(())
    }

    /// Writes a struct of three fields, as `serialize_1_field` does.
    ///
    /// # Errors
    ///
    /// Those of `serialize_1_field`.
    pub fn serialize_3_fields<A: Serialize, B: Serialize, C: Serialize>(
        &mut self,
        _name: &str,
        first_name: &str,
        first: &A,
        second_name: &str,
        second: &B,
        third_name: &str,
        third: &C,
    ) -> Result<(), EncodeError<W::Error>>
        ensures { Serializes W.atomic (struct_encoding
            (field first_name.now (A.encoding first.now)
            ∷ field second_name.now (B.encoding second.now)
            ∷ field third_name.now (C.encoding third.now) ∷ []))
            (output W.view self.old) (output W.view self.new) result }
    {
        let mut answer = Ok(());
        let Some(()) = push_parts_head(&mut self.writer, major::MAP, 3, &mut answer) else {
            return answer;
        };
        let Some(()) = put_field(self, first_name, first, &mut answer) else {
            return answer;
        };
        let Some(()) = put_field(self, second_name, second, &mut answer) else {
            return answer;
        };
        let Some(()) = put_field(self, third_name, third, &mut answer) else {
            return answer;
        };
        Ok(())
    }

    /// Writes a struct of four fields, as `serialize_1_field` does.
    ///
    /// # Errors
    ///
    /// Those of `serialize_1_field`.
    pub fn serialize_4_fields<A: Serialize, B: Serialize, C: Serialize, D: Serialize>(
        &mut self,
        _name: &str,
        first_name: &str,
        first: &A,
        second_name: &str,
        second: &B,
        third_name: &str,
        third: &C,
        fourth_name: &str,
        fourth: &D,
    ) -> Result<(), EncodeError<W::Error>>
        ensures { Serializes W.atomic (struct_encoding
            (field first_name.now (A.encoding first.now)
            ∷ field second_name.now (B.encoding second.now)
            ∷ field third_name.now (C.encoding third.now)
            ∷ field fourth_name.now (D.encoding fourth.now) ∷ []))
            (output W.view self.old) (output W.view self.new) result }
    {
        let mut answer = Ok(());
        let Some(()) = push_parts_head(&mut self.writer, major::MAP, 4, &mut answer) else {
            return answer;
        };
        let Some(()) = put_field(self, first_name, first, &mut answer) else {
            return answer;
        };
        let Some(()) = put_field(self, second_name, second, &mut answer) else {
            return answer;
        };
        let Some(()) = put_field(self, third_name, third, &mut answer) else {
            return answer;
        };
        let Some(()) = put_field(self, fourth_name, fourth, &mut answer) else {
            return answer;
        };
        Ok(())
    }

    /// Writes a struct of five fields, as `serialize_1_field` does.
    ///
    /// # Errors
    ///
    /// Those of `serialize_1_field`.
    pub fn serialize_5_fields<A: Serialize, B: Serialize, C: Serialize, D: Serialize, E: Serialize>(
        &mut self,
        _name: &str,
        first_name: &str,
        first: &A,
        second_name: &str,
        second: &B,
        third_name: &str,
        third: &C,
        fourth_name: &str,
        fourth: &D,
        fifth_name: &str,
        fifth: &E,
    ) -> Result<(), EncodeError<W::Error>>
        ensures { Serializes W.atomic (struct_encoding
            (field first_name.now (A.encoding first.now)
            ∷ field second_name.now (B.encoding second.now)
            ∷ field third_name.now (C.encoding third.now)
            ∷ field fourth_name.now (D.encoding fourth.now)
            ∷ field fifth_name.now (E.encoding fifth.now) ∷ []))
            (output W.view self.old) (output W.view self.new) result }
    {
        let mut answer = Ok(());
        let Some(()) = push_parts_head(&mut self.writer, major::MAP, 5, &mut answer) else {
            return answer;
        };
        let Some(()) = put_field(self, first_name, first, &mut answer) else {
            return answer;
        };
        let Some(()) = put_field(self, second_name, second, &mut answer) else {
            return answer;
        };
        let Some(()) = put_field(self, third_name, third, &mut answer) else {
            return answer;
        };
        let Some(()) = put_field(self, fourth_name, fourth, &mut answer) else {
            return answer;
        };
        let Some(()) = put_field(self, fifth_name, fifth, &mut answer) else {
            return answer;
        };
        Ok(())
    }

    /// Writes a struct of six fields, as `serialize_1_field` does.
    ///
    /// # Errors
    ///
    /// Those of `serialize_1_field`.
    pub fn serialize_6_fields<
        A: Serialize,
        B: Serialize,
        C: Serialize,
        D: Serialize,
        E: Serialize,
        F: Serialize,
    >(
        &mut self,
        _name: &str,
        first_name: &str,
        first: &A,
        second_name: &str,
        second: &B,
        third_name: &str,
        third: &C,
        fourth_name: &str,
        fourth: &D,
        fifth_name: &str,
        fifth: &E,
        sixth_name: &str,
        sixth: &F,
    ) -> Result<(), EncodeError<W::Error>>
        ensures { Serializes W.atomic (struct_encoding
            (field first_name.now (A.encoding first.now)
            ∷ field second_name.now (B.encoding second.now)
            ∷ field third_name.now (C.encoding third.now)
            ∷ field fourth_name.now (D.encoding fourth.now)
            ∷ field fifth_name.now (E.encoding fifth.now)
            ∷ field sixth_name.now (F.encoding sixth.now) ∷ []))
            (output W.view self.old) (output W.view self.new) result }
    {
        let mut answer = Ok(());
        let Some(()) = push_parts_head(&mut self.writer, major::MAP, 6, &mut answer) else {
            return answer;
        };
        let Some(()) = put_field(self, first_name, first, &mut answer) else {
            return answer;
        };
        let Some(()) = put_field(self, second_name, second, &mut answer) else {
            return answer;
        };
        let Some(()) = put_field(self, third_name, third, &mut answer) else {
            return answer;
        };
        let Some(()) = put_field(self, fourth_name, fourth, &mut answer) else {
            return answer;
        };
        let Some(()) = put_field(self, fifth_name, fifth, &mut answer) else {
            return answer;
        };
        let Some(()) = put_field(self, sixth_name, sixth, &mut answer) else {
            return answer;
        };
        Ok(())
    }
}
