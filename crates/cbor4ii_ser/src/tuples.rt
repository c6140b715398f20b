//! Pairs and triples.
ghost use Rattle.std.specs.Prelude.{◌∷◌, []};
ghost use Rattle.cbor4ii_ser.specs.Item.{tuple_encoding};
ghost use Rattle.cbor4ii_ser.specs.Serializing.{Serializes, output};

use crate::error::EncodeError;
use crate::leaf::put_value;
use crate::serialize::Serialize;
use crate::serializer::Serializer;
use crate::slot::{has_large_error, push_parts_head};
use cbor4ii_items::major;
use cbor4ii_rw::write::Write;

/// An array of two items.
impl<A: Serialize, B: Serialize> Serialize for (A, B) {
    ghost encoding = { λ p. tuple_encoding (A.encoding p.0 ∷ B.encoding p.1 ∷ []) };

    #[inline]
    fn serialize<W: Write>(&self, ser: &mut Serializer<W>) -> Result<(), EncodeError<W::Error>> {
        if has_large_error::<W>() {
            return put_pair_apart(ser, &self.0, &self.1);
        }
        put_pair(ser, &self.0, &self.1)
    }
}

/// An array of three items.
impl<A: Serialize, B: Serialize, C: Serialize> Serialize for (A, B, C) {
    ghost encoding = { λ p. tuple_encoding (A.encoding p.0 ∷ B.encoding p.1 ∷ C.encoding p.2
        ∷ []) };

    #[inline]
    fn serialize<W: Write>(&self, ser: &mut Serializer<W>) -> Result<(), EncodeError<W::Error>> {
        if has_large_error::<W>() {
            return put_triple_apart(ser, &self.0, &self.1, &self.2);
        }
        put_triple(ser, &self.0, &self.1, &self.2)
    }
}

/// Out of line: to a writer with a large error what holds a pair then takes a small frame.
#[inline(never)]
fn put_pair_apart<W: Write, A: Serialize, B: Serialize>(
    ser: &mut Serializer<W>,
    first: &A,
    second: &B,
) -> Result<(), EncodeError<W::Error>>
    ensures { Serializes W.atomic (tuple_encoding (A.encoding first.now ∷ B.encoding second.now
        ∷ [])) (output W.view ser.old) (output W.view ser.new) result }
{
    put_pair(ser, first, second)
}

/// Out of line: to a writer with a large error the caller's frame stays small.
#[inline(never)]
fn put_triple_apart<W: Write, A: Serialize, B: Serialize, C: Serialize>(
    ser: &mut Serializer<W>,
    first: &A,
    second: &B,
    third: &C,
) -> Result<(), EncodeError<W::Error>>
    ensures { Serializes W.atomic (tuple_encoding (A.encoding first.now ∷ B.encoding second.now
        ∷ C.encoding third.now ∷ [])) (output W.view ser.old) (output W.view ser.new) result }
{
    put_triple(ser, first, second, third)
}

#[inline(always)]
fn put_pair<W: Write, A: Serialize, B: Serialize>(
    ser: &mut Serializer<W>,
    first: &A,
    second: &B,
) -> Result<(), EncodeError<W::Error>>
    ensures { Serializes W.atomic (tuple_encoding (A.encoding first.now ∷ B.encoding second.now
        ∷ [])) (output W.view ser.old) (output W.view ser.new) result }
{
    let mut answer = Ok(());
    let Some(()) = push_parts_head(&mut ser.writer, major::ARRAY, 2, &mut answer) else {
        return answer;
    };
    let Some(()) = put_value(ser, first, &mut answer) else {
        return answer;
    };
    let Some(()) = put_value(ser, second, &mut answer) else {
        return answer;
    };
    Ok(())
}

#[inline(always)]
fn put_triple<W: Write, A: Serialize, B: Serialize, C: Serialize>(
    ser: &mut Serializer<W>,
    first: &A,
    second: &B,
    third: &C,
) -> Result<(), EncodeError<W::Error>>
    ensures { Serializes W.atomic (tuple_encoding (A.encoding first.now ∷ B.encoding second.now
        ∷ C.encoding third.now ∷ [])) (output W.view ser.old) (output W.view ser.new) result }
{
    let mut answer = Ok(());
    let Some(()) = push_parts_head(&mut ser.writer, major::ARRAY, 3, &mut answer) else {
        return answer;
    };
    let Some(()) = put_value(ser, first, &mut answer) else {
        return answer;
    };
    let Some(()) = put_value(ser, second, &mut answer) else {
        return answer;
    };
    let Some(()) = put_value(ser, third, &mut answer) else {
        return answer;
    };
    Ok(())
}
