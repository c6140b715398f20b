//! Arrays and maps that are written part by part, of so many parts or of any number.
ghost use Rattle.std.specs.Prelude.{◌≡◌, Ok, IsSome, IfOk, OnOk, OnErr, true, false};
ghost use Rattle.std.specs.Borrow.{sem, RestsIfErr};
ghost use Rattle.cbor4ii_ser.specs.contracts.serializer.Serializer.{the_row};
ghost use Rattle.cbor4ii_ser.specs.Collecting.{left_of, is_keyed, owes, collect_output};
ghost use Rattle.cbor4ii_ser.specs.Collecting.{serializer_name};
ghost use Rattle.cbor4ii_ser.specs.Counts.{container_head, container_end, IsReady, IsDone, less};
ghost use Rattle.cbor4ii_ser.specs.Item.{encoded, one_then};
ghost use Rattle.cbor4ii_ser.specs.Serializing.{Serializes, RejectsAtValue, output};

use crate::error::EncodeError;
use crate::leaf::put_value;
use crate::serialize::Serialize;
use crate::serializer::Serializer;
use cbor4ii_rw::write::Write;

/// An array or a map that is being written: of so many parts, or of any number up to its end (RFC
/// 8949 sections 3.1 and 3.2.2).
///
/// Where no call failed, the head and the parts in order are written when `end` has answered, and a
/// break where the length is indefinite. One that is dropped without `end` writes nothing: what was
/// written stays, and is a whole item only where the parts were counted and all came.
///
/// # Errors
///
/// A call that fails changes neither `left` nor `owes_value`, unless it is a pair that fails at its
/// value. Of that the key is written, `left` is lowered if it counts, and the value is owed. The
/// errors and what they leave are those of `Serializer`. An array or a map in which a part was
/// rejected is no item any more.
#[derive(Debug, Drop)]
pub struct Collect<'a, W: Write> {
    pub(crate) ser: &'a mut Serializer<W>,
    pub(crate) left: Option<usize>,
    pub(crate) keyed: bool,
    pub(crate) owes: bool,
}

impl<W: Write> Serializer<W> {
    /// Begins an array of `len` items, or of any number where none is given. The items are to
    /// follow, and `end`.
    ///
    /// # Errors
    ///
    /// `Core`, which is described at `Serializer`.
    pub fn serialize_seq(
        &mut self,
        len: Option<usize>,
    ) -> Result<Collect<'_, W>, EncodeError<W::Error>>
        ensures* rejected { sem 𝓛 (RestsIfErr (the_row W.row) self.entry serializer_name result
            (λ new. Serializes W.atomic (encoded (container_head 4 len))
            (output W.view self.old) (output W.view new) result)) }
        ensures same_reference { IfOk result (λ c. serializer_name c ≡ self.entry.ghost_name) }
        ensures left { IfOk result (λ c. left_of c ≡ len) }
        ensures keyed { IfOk result (λ c. is_keyed c ≡ false) }
        ensures owes { IfOk result (λ c. owes c ≡ false) }
        ensures head { IfOk result (λ c. Serializes W.atomic (encoded (container_head 4 len))
            (output W.view self.old) (collect_output W.view c) result) }
    {
        self.seq_head(len)?;
        Ok(Collect {
            ser: self,
            left: len,
            keyed: false,
            owes: false,
        })
    }

    /// Begins a map of `len` pairs, or of any number where none is given. The pairs are to
    /// follow, and `end`.
    ///
    /// # Errors
    ///
    /// `Core`, which is described at `Serializer`.
    pub fn serialize_map(
        &mut self,
        len: Option<usize>,
    ) -> Result<Collect<'_, W>, EncodeError<W::Error>>
        ensures* rejected { sem 𝓛 (RestsIfErr (the_row W.row) self.entry serializer_name result
            (λ new. Serializes W.atomic (encoded (container_head 5 len))
            (output W.view self.old) (output W.view new) result)) }
        ensures same_reference { IfOk result (λ c. serializer_name c ≡ self.entry.ghost_name) }
        ensures left { IfOk result (λ c. left_of c ≡ len) }
        ensures keyed { IfOk result (λ c. is_keyed c ≡ true) }
        ensures owes { IfOk result (λ c. owes c ≡ false) }
        ensures head { IfOk result (λ c. Serializes W.atomic (encoded (container_head 5 len))
            (output W.view self.old) (collect_output W.view c) result) }
    {
        self.entries_head(len)?;
        Ok(Collect {
            ser: self,
            left: len,
            keyed: true,
            owes: false,
        })
    }
}

impl<'a, W: Write> Collect<'a, W> {
    /// How many elements or pairs are still to come; none where any number may.
    pub fn left(&self) -> Option<usize>
        ensures { result ≡ left_of self.now }
    {
        self.left
    }

    /// Whether its parts are pairs, each a key and a value.
    pub fn keyed(&self) -> bool
        ensures { result ≡ is_keyed self.now }
    {
        self.keyed
    }

    /// Whether a key was written whose value is still to come.
    pub fn owes_value(&self) -> bool
        ensures { result ≡ owes self.now }
    {
        self.owes
    }

    /// Writes an item of the array.
    ///
    /// # Errors
    ///
    /// Those of the value's `serialize`. What stays then is described at `Collect`.
    pub fn serialize_element<T: Serialize>(
        &mut self,
        value: &T,
    ) -> Result<(), EncodeError<W::Error>>
        requires keyed { is_keyed self.old ≡ false }
        requires left { IsReady (left_of self.old) }
        ensures same_reference { serializer_name self.new ≡ serializer_name self.old }
        ensures keyed { is_keyed self.new ≡ is_keyed self.old }
        ensures owes { owes self.new ≡ owes self.old }
        ensures left { OnOk result (left_of self.new ≡ less (left_of self.old)) }
        ensures left_at_error { OnErr result (left_of self.new ≡ left_of self.old) }
        ensures written { Serializes W.atomic (T.encoding value.now)
            (collect_output W.view self.old) (collect_output W.view self.new) result }
    {
        let mut answer = Ok(());
        let Some(()) = put_value(self.ser, value, &mut answer) else {
            return answer;
        };
        self.count_one();
        Ok(())
    }

    /// Writes a key of the map, whose value is then owed.
    ///
    /// # Errors
    ///
    /// Those of the key's `serialize`; no value is owed then. What stays is described at `Collect`.
    pub fn serialize_key<K: Serialize>(&mut self, key: &K) -> Result<(), EncodeError<W::Error>>
        requires keyed { is_keyed self.old ≡ true }
        requires owes { owes self.old ≡ false }
        requires left { IsReady (left_of self.old) }
        ensures same_reference { serializer_name self.new ≡ serializer_name self.old }
        ensures keyed { is_keyed self.new ≡ is_keyed self.old }
        ensures owes { OnOk result (owes self.new ≡ true) }
        ensures owes_at_error { OnErr result (owes self.new ≡ owes self.old) }
        ensures left { OnOk result (left_of self.new ≡ less (left_of self.old)) }
        ensures left_at_error { OnErr result (left_of self.new ≡ left_of self.old) }
        ensures written { Serializes W.atomic (K.encoding key.now)
            (collect_output W.view self.old) (collect_output W.view self.new) result }
    {
        let mut answer = Ok(());
        let Some(()) = put_value(self.ser, key, &mut answer) else {
            return answer;
        };
        self.count_one();
        self.owes = true;
        Ok(())
    }

    /// Writes the value that is owed.
    ///
    /// # Errors
    ///
    /// Those of the value's `serialize`; the value is still owed then. What stays is described at
    /// `Collect`.
    pub fn serialize_value<V: Serialize>(&mut self, value: &V) -> Result<(), EncodeError<W::Error>>
        requires keyed { is_keyed self.old ≡ true }
        requires owes { owes self.old ≡ true }
        ensures same_reference { serializer_name self.new ≡ serializer_name self.old }
        ensures keyed { is_keyed self.new ≡ is_keyed self.old }
        ensures owes { OnOk result (owes self.new ≡ false) }
        ensures owes_at_error { OnErr result (owes self.new ≡ owes self.old) }
        ensures left { left_of self.new ≡ left_of self.old }
        ensures written { Serializes W.atomic (V.encoding value.now)
            (collect_output W.view self.old) (collect_output W.view self.new) result }
    {
        let mut answer = Ok(());
        let Some(()) = put_value(self.ser, value, &mut answer) else {
            return answer;
        };
        self.owes = false;
        Ok(())
    }

    /// Writes a key and its value after it.
    ///
    /// # Errors
    ///
    /// Those of the `serialize` of either. At the key `left` and `owes_value` stay. At the value
    /// `left` is lowered, the value is owed, and the key is written. What else stays is described
    /// at `Collect`.
    pub fn serialize_entry<K: Serialize, V: Serialize>(
        &mut self,
        key: &K,
        value: &V,
    ) -> Result<(), EncodeError<W::Error>>
        requires keyed { is_keyed self.old ≡ true }
        requires owes { owes self.old ≡ false }
        requires left { IsReady (left_of self.old) }
        ensures same_reference { serializer_name self.new ≡ serializer_name self.old }
        ensures keyed { is_keyed self.new ≡ is_keyed self.old }
        ensures owes { OnOk result (owes self.new ≡ false) }
        ensures left { OnOk result (left_of self.new ≡ less (left_of self.old)) }
        ensures rejected_at_key { OnErr result (owes self.new ≡ false →
            (left_of self.new ≡ left_of self.old)
            × Serializes W.atomic (K.encoding key.now)
            (collect_output W.view self.old) (collect_output W.view self.new) result) }
        ensures rejected_at_value { OnErr result (owes self.new ≡ true →
            (left_of self.new ≡ less (left_of self.old))
            × RejectsAtValue W.atomic (K.encoding key.now) (V.encoding value.now)
            (collect_output W.view self.old) (collect_output W.view self.new) result) }
        ensures written { Serializes W.atomic (one_then (K.encoding key.now) (V.encoding value.now))
            (collect_output W.view self.old) (collect_output W.view self.new) result }
    {
        self.serialize_key(key)?;
        self.serialize_value(value)
    }

    fn count_one(&mut self)
        requires { IsReady (left_of self.old) }
        ensures same_reference { serializer_name self.new ≡ serializer_name self.old }
        ensures ser { self.new.ser.now ≡ self.old.ser.now }
        ensures keyed { is_keyed self.new ≡ is_keyed self.old }
        ensures owes { owes self.new ≡ owes self.old }
        ensures left { left_of self.new ≡ less (left_of self.old) }
    {
        match self.left {
            Some(left) => {
                self.left = Some(left - 1);
            }
            None => {}
        }
    }

    /// Ends the array or the map: with a break where its length is indefinite. Where its parts were
    /// counted nothing is written.
    ///
    /// # Errors
    ///
    /// `Core`, which is described at `Serializer`. Where the parts were counted it always answers
    /// `Ok`.
    pub fn end(self) -> Result<(), EncodeError<W::Error>>
        requires owes { owes self ≡ false }
        requires done { IsDone (left_of self) }
        ensures succeeds { IsSome (left_of self.entry) → result ≡ Ok tt }
        ensures untouched { IsSome (left_of self.entry) →
            output W.view self.exit.0.now ≡ collect_output W.view self.entry }
        ensures written { Serializes W.atomic (encoded (container_end (left_of self.entry)))
            (collect_output W.view self.entry) (output W.view self.exit.0.now) result }
    {
        let Collect {
            ser,
            left,
            keyed: _,
            owes: _,
        } = self;
        ser.sequence_end(left)
    }
}
