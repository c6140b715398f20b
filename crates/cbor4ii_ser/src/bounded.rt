//! Arrays and maps of a known number of parts, written part by part.
ghost use Rattle.std.specs.Prelude.{◌≡◌, ◌<◌, ◌-◌, ◌++◌, [], Ok, IfOk, OnOk, OnErr, true, false};
ghost use Rattle.std.specs.Borrow.{sem, RestsIfErr};
ghost use Rattle.cbor4ii_items.specs.Numbers.{shortest_head};
ghost use Rattle.cbor4ii_ser.specs.contracts.serializer.Serializer.{the_row};
ghost use Rattle.cbor4ii_ser.specs.Collecting.{bounded_left, bounded_keyed, bounded_output};
ghost use Rattle.cbor4ii_ser.specs.Collecting.{bounded_serializer_name};
ghost use Rattle.cbor4ii_ser.specs.Item.{encoded, field, variant_head};
ghost use Rattle.cbor4ii_ser.specs.Pushing.{PushesInTurn};
ghost use Rattle.cbor4ii_ser.specs.Serializing.{Serializes, output};

use crate::error::EncodeError;
use crate::leaf::put_value;
use crate::serialize::Serialize;
use crate::serializer::Serializer;
use crate::slot::push_name;
use cbor4ii_rw::write::Write;

/// An array or a map of a known number of parts that is being written: a tuple, a struct, or a
/// variant that has such content.
///
/// Where no call failed, what was written when `end` has answered is the head and the parts in
/// order. One that is dropped without `end` writes nothing: what was written stays, and is a whole
/// item only where all parts came.
///
/// # Errors
///
/// A call that fails does not change `left`. The errors and what they leave are those of
/// `Serializer`. An array or a map in which a part was rejected is no item any more.
#[derive(Debug, Drop)]
pub struct BoundedCollect<'a, W: Write> {
    pub(crate) ser: &'a mut Serializer<W>,
    pub(crate) left: usize,
    pub(crate) keyed: bool,
}

impl<W: Write> Serializer<W> {
    /// Begins an array of `len` items, which are to follow, and `end`.
    ///
    /// # Errors
    ///
    /// `Core`, which is described at `Serializer`.
    pub fn serialize_tuple(
        &mut self,
        len: usize,
    ) -> Result<BoundedCollect<'_, W>, EncodeError<W::Error>>
        ensures* rejected { sem 𝓛 (RestsIfErr
            (the_row W.row) self.entry bounded_serializer_name result
            (λ new. Serializes W.atomic (encoded (shortest_head 4 len))
            (output W.view self.old) (output W.view new) result)) }
        ensures same_reference { IfOk result
            (λ c. bounded_serializer_name c ≡ self.entry.ghost_name) }
        ensures left { IfOk result (λ c. bounded_left c ≡ len) }
        ensures keyed { IfOk result (λ c. bounded_keyed c ≡ false) }
        ensures head { IfOk result (λ c. Serializes W.atomic (encoded (shortest_head 4 len))
            (output W.view self.old) (bounded_output W.view c) result) }
    {
        self.array_head(len)?;
        Ok(BoundedCollect {
            ser: self,
            left: len,
            keyed: false,
        })
    }

    /// Begins an array of `len` items, which are to follow, and `end`. The struct's name is not
    /// written.
    ///
    /// # Errors
    ///
    /// `Core`, which is described at `Serializer`.
    pub fn serialize_tuple_struct(
        &mut self,
        _name: &str,
        len: usize,
    ) -> Result<BoundedCollect<'_, W>, EncodeError<W::Error>>
        ensures* rejected { sem 𝓛 (RestsIfErr
            (the_row W.row) self.entry bounded_serializer_name result
            (λ new. Serializes W.atomic (encoded (shortest_head 4 len))
            (output W.view self.old) (output W.view new) result)) }
        ensures same_reference { IfOk result
            (λ c. bounded_serializer_name c ≡ self.entry.ghost_name) }
        ensures left { IfOk result (λ c. bounded_left c ≡ len) }
        ensures keyed { IfOk result (λ c. bounded_keyed c ≡ false) }
        ensures head { IfOk result (λ c. Serializes W.atomic (encoded (shortest_head 4 len))
            (output W.view self.old) (bounded_output W.view c) result) }
    {
        self.array_head(len)?;
        Ok(BoundedCollect {
            ser: self,
            left: len,
            keyed: false,
        })
    }

    /// Begins a map of one pair: the variant's name and an array of `len` items, which are to
    /// follow, and `end`. The enum's name and the variant's index are not written.
    ///
    /// # Errors
    ///
    /// `Core`, which is described at `Serializer`.
    pub fn serialize_tuple_variant(
        &mut self,
        _name: &str,
        _variant_index: u32,
        variant: &str,
        len: usize,
    ) -> Result<BoundedCollect<'_, W>, EncodeError<W::Error>>
        ensures* rejected { sem 𝓛 (RestsIfErr
            (the_row W.row) self.entry bounded_serializer_name result
            (λ new. Serializes W.atomic (encoded (variant_head variant.now ++ shortest_head 4 len))
            (output W.view self.old) (output W.view new) result)) }
        ensures same_reference { IfOk result
            (λ c. bounded_serializer_name c ≡ self.entry.ghost_name) }
        ensures left { IfOk result (λ c. bounded_left c ≡ len) }
        ensures keyed { IfOk result (λ c. bounded_keyed c ≡ false) }
        ensures head { IfOk result (λ c. Serializes W.atomic
            (encoded (variant_head variant.now ++ shortest_head 4 len))
            (output W.view self.old) (bounded_output W.view c) result) }
    {
        self.tuple_variant_head(variant, len)?;
        Ok(BoundedCollect {
            ser: self,
            left: len,
            keyed: false,
        })
    }

    /// Begins a map of `len` fields, which are to follow, and `end`. The struct's name is not
    /// written.
    ///
    /// # Errors
    ///
    /// `Core`, which is described at `Serializer`.
    pub fn serialize_struct(
        &mut self,
        _name: &str,
        len: usize,
    ) -> Result<BoundedCollect<'_, W>, EncodeError<W::Error>>
        ensures* rejected { sem 𝓛 (RestsIfErr
            (the_row W.row) self.entry bounded_serializer_name result
            (λ new. Serializes W.atomic (encoded (shortest_head 5 len))
            (output W.view self.old) (output W.view new) result)) }
        ensures same_reference { IfOk result
            (λ c. bounded_serializer_name c ≡ self.entry.ghost_name) }
        ensures left { IfOk result (λ c. bounded_left c ≡ len) }
        ensures keyed { IfOk result (λ c. bounded_keyed c ≡ true) }
        ensures head { IfOk result (λ c. Serializes W.atomic (encoded (shortest_head 5 len))
            (output W.view self.old) (bounded_output W.view c) result) }
    {
        self.map_head(len)?;
        Ok(BoundedCollect {
            ser: self,
            left: len,
            keyed: true,
        })
    }

    /// Begins a map of one pair: the variant's name and a map of `len` fields, which are to
    /// follow, and `end`. The enum's name and the variant's index are not written.
    ///
    /// # Errors
    ///
    /// `Core`, which is described at `Serializer`.
    pub fn serialize_struct_variant(
        &mut self,
        _name: &str,
        _variant_index: u32,
        variant: &str,
        len: usize,
    ) -> Result<BoundedCollect<'_, W>, EncodeError<W::Error>>
        ensures* rejected { sem 𝓛 (RestsIfErr
            (the_row W.row) self.entry bounded_serializer_name result
            (λ new. Serializes W.atomic (encoded (variant_head variant.now ++ shortest_head 5 len))
            (output W.view self.old) (output W.view new) result)) }
        ensures same_reference { IfOk result
            (λ c. bounded_serializer_name c ≡ self.entry.ghost_name) }
        ensures left { IfOk result (λ c. bounded_left c ≡ len) }
        ensures keyed { IfOk result (λ c. bounded_keyed c ≡ true) }
        ensures head { IfOk result (λ c. Serializes W.atomic
            (encoded (variant_head variant.now ++ shortest_head 5 len))
            (output W.view self.old) (bounded_output W.view c) result) }
    {
        self.struct_variant_head(variant, len)?;
        Ok(BoundedCollect {
            ser: self,
            left: len,
            keyed: true,
        })
    }
}

impl<'a, W: Write> BoundedCollect<'a, W> {
    /// How many elements or fields are still to come.
    pub fn left(&self) -> usize
        ensures { result ≡ bounded_left self.now }
    {
        self.left
    }

    /// Whether its parts are fields, each a name and a value.
    pub fn keyed(&self) -> bool
        ensures { result ≡ bounded_keyed self.now }
    {
        self.keyed
    }

    /// Writes an item of the array.
    ///
    /// # Errors
    ///
    /// Those of the value's `serialize`. What stays then is described at `BoundedCollect`.
    pub fn serialize_element<T: Serialize>(
        &mut self,
        value: &T,
    ) -> Result<(), EncodeError<W::Error>>
        requires keyed { bounded_keyed self.old ≡ false }
        requires left { 0 < bounded_left self.old }
        ensures same_reference { bounded_serializer_name self.new ≡ bounded_serializer_name
            self.old }
        ensures keyed { bounded_keyed self.new ≡ bounded_keyed self.old }
        ensures left { OnOk result (bounded_left self.new ≡ bounded_left self.old - 1) }
        ensures left_at_error { OnErr result (bounded_left self.new ≡ bounded_left self.old) }
        ensures written { Serializes W.atomic (T.encoding value.now)
            (bounded_output W.view self.old) (bounded_output W.view self.new) result }
    {
        value.serialize(self.ser)?;
        self.left -= 1;
        Ok(())
    }

    /// Writes a field of the map: its name as a text, and its value after it.
    ///
    /// # Errors
    ///
    /// `Core` at the name, and those of the value's `serialize`. What stays then is described at
    /// `BoundedCollect`. The name stays where the value is rejected.
    #[inline]
    pub fn serialize_field<T: Serialize>(
        &mut self,
        name: &str,
        value: &T,
    ) -> Result<(), EncodeError<W::Error>>
        requires keyed { bounded_keyed self.old ≡ true }
        requires left { 0 < bounded_left self.old }
        ensures same_reference { bounded_serializer_name self.new ≡ bounded_serializer_name
            self.old }
        ensures keyed { bounded_keyed self.new ≡ bounded_keyed self.old }
        ensures left { OnOk result (bounded_left self.new ≡ bounded_left self.old - 1) }
        ensures left_at_error { OnErr result (bounded_left self.new ≡ bounded_left self.old) }
        ensures written { Serializes W.atomic (field name.now (T.encoding value.now))
            (bounded_output W.view self.old) (bounded_output W.view self.new) result }
    {
        let mut answer = Ok(());
        let Some(()) = put_field(self.ser, name, value, &mut answer) else {
            return answer;
        };
        self.left -= 1;
        Ok(())
    }

    /// Ends the array or the map. Nothing is written.
    ///
    /// # Errors
    ///
    /// None: it always answers `Ok`.
    pub fn end(self) -> Result<(), EncodeError<W::Error>>
        requires { bounded_left self ≡ 0 }
        ensures succeeds { result ≡ Ok tt }
        ensures untouched { output W.view self.exit.0.now ≡ bounded_output W.view self.entry }
        ensures written { Serializes W.atomic (encoded [])
            (bounded_output W.view self.entry) (output W.view self.exit.0.now) result }
    {
        Ok(())
    }
}

#[inline(always)]
pub(crate) fn put_field<W: Write, T: Serialize>(
    ser: &mut Serializer<W>,
    name: &str,
    value: &T,
    answer: &mut Result<(), EncodeError<W::Error>>,
) -> Option<()>
    ensures { PushesInTurn W.atomic (field name.now (T.encoding value.now))
        (output W.view ser.old) (output W.view ser.new) result answer.old answer.new }
{
    push_name(&mut ser.writer, name, answer)?;
    put_value(ser, value, answer)
}
