//! Arrays that are there as a whole.
ghost use Rattle.cbor4ii_ser.specs.Item.{each_encoding, array_encoding};
ghost use Rattle.cbor4ii_ser.specs.Pushing.{PushesInTurn};
ghost use Rattle.cbor4ii_ser.specs.Serializing.{Serializes, output};

use crate::error::EncodeError;
use crate::leaf::put_leaf;
use crate::serialize::Serialize;
use crate::serializer::Serializer;
use crate::slot::{push_head, push_parts_head};
use cbor4ii_items::major;
use cbor4ii_rw::write::Write;

/// An array of the items, in order.
impl<T: Serialize> Serialize for Vec<T> {
    ghost encoding = { λ v. array_encoding T.encoding v.items };

    #[inline]
    fn serialize<W: Write>(&self, ser: &mut Serializer<W>) -> Result<(), EncodeError<W::Error>> {
        put_array(ser, self.as_slice())
    }
}

#[inline]
fn put_array<W: Write, T: Serialize>(
    ser: &mut Serializer<W>,
    items: &[T],
) -> Result<(), EncodeError<W::Error>>
    ensures { Serializes W.atomic (array_encoding T.encoding items.now)
        (output W.view ser.old) (output W.view ser.new) result }
{
    if T::is_leaf() {
        return put_leaf_array(ser, items);
    }
    let mut answer = Ok(());
    match push_parts_head(&mut ser.writer, major::ARRAY, items.len(), &mut answer) {
        Some(()) => put_items(ser, items),
        None => answer,
    }
}

#[inline]
fn put_items<W: Write, T: Serialize>(
    ser: &mut Serializer<W>,
    items: &[T],
) -> Result<(), EncodeError<W::Error>>
    ensures { Serializes W.atomic (each_encoding T.encoding items.now)
        (output W.view ser.old) (output W.view ser.new) result }
{
    for item in items {
        item.serialize(ser)?;
    }
    Ok(())
}

#[inline(always)]
fn put_leaf_array<W: Write, T: Serialize>(
    ser: &mut Serializer<W>,
    items: &[T],
) -> Result<(), EncodeError<W::Error>>
    ensures { Serializes W.atomic (array_encoding T.encoding items.now)
        (output W.view ser.old) (output W.view ser.new) result }
{
    let mut answer = Ok(());
    match put_leaves(ser, items, &mut answer) {
        Some(()) => Ok(()),
        None => answer,
    }
}

/// Out of line, with a small answer, so that what holds an array of leaves takes a small frame.
#[inline(never)]
fn put_leaves<W: Write, T: Serialize>(
    ser: &mut Serializer<W>,
    items: &[T],
    answer: &mut Result<(), EncodeError<W::Error>>,
) -> Option<()>
    ensures { PushesInTurn W.atomic (array_encoding T.encoding items.now)
        (output W.view ser.old) (output W.view ser.new) result answer.old answer.new }
{
    push_head(&mut ser.writer, major::ARRAY, items.len() as u64, answer)?;
    put_each_leaf(ser, items, answer)
}

#[inline(always)]
fn put_each_leaf<W: Write, T: Serialize>(
    ser: &mut Serializer<W>,
    items: &[T],
    answer: &mut Result<(), EncodeError<W::Error>>,
) -> Option<()>
    ensures { PushesInTurn W.atomic (each_encoding T.encoding items.now)
        (output W.view ser.old) (output W.view ser.new) result answer.old answer.new }
{
    for item in items {
        put_leaf(ser, item, answer)?;
    }
    Some(())
}
