//! Arrays and maps that are read part by part.
ghost use Rattle.std.specs.Prelude.{[], ◌≡◌, ◌&&◌, IfOk, codes};
ghost use Rattle.std.specs.Borrow.{sem, Lends, RestsIfErr};
ghost use mir.Syntax.{named};
ghost use Rattle.cbor4ii_rw.specs.Reader.{ReaderFails};
ghost use Rattle.cbor4ii_items.specs.Moves.{OnRead};
ghost use Rattle.cbor4ii_items.specs.Decoding.{Decodes, DecodesIf};
ghost use Rattle.cbor4ii_items.specs.Lengths.{length_format};
ghost use Rattle.cbor4ii.specs.contracts.serde.de.accessor.Accessor.{the_row as the_accessor};
ghost use Rattle.cbor4ii.specs.contracts.serde.de.deserializer.Deserializer.{the_row};
ghost use Rattle.cbor4ii.specs.declared.serde.de.accessor.Left.TheVariants.{Definite};
ghost use Rattle.cbor4ii.specs.Accessing.{inside, deserializer_of, deserializer_name, left_in};
ghost use Rattle.cbor4ii.specs.Accessing.{steps_held};
ghost use Rattle.cbor4ii.specs.Accessing.{with_deserializer, OpensParts, RejectedAs, Closes, hint};
ghost use Rattle.cbor4ii.specs.Accessing.{start_format, next_part_format, AccessorStarts};
ghost use Rattle.cbor4ii.specs.Accessing.{AccessorGoesOn};
ghost use Rattle.cbor4ii.specs.Stepped.{stepped_format};
ghost use Rattle.cbor4ii.specs.Tuples.{container_head_format};
ghost use Rattle.cbor4ii.specs.Typed.{input, answer_of, Deserializes};
ghost use Rattle.cbor4ii.specs.TypedParts.{part_of, two_of};

use crate::serde::de::deserialize::Deserialize;
use crate::serde::de::deserializer::Deserializer;
use crate::serde::de::error::DecodeError;
use crate::serde::de::heads::{begin_array, begin_map, begin_tuple};
use cbor4ii_items::indefinite::is_break;
use cbor4ii_rw::error::StaticStr;
use cbor4ii_rw::read::Source;
use std::alloc::Global;

/// What is still to be read of an array or a map.
#[derive(Clone, Copy)]
pub enum Left {
    /// So many items, or pairs.
    Definite(usize),
    /// Items or pairs up to a break.
    Indefinite,
    /// Nothing: the break was taken.
    Ended,
}

/// The parts of an array or a map, which are read one by one. It holds a step of the budget, and
/// two where it was made from a variant. When it is dropped it gives them back, and parts that were
/// not read stay.
pub struct Accessor<'a, S: Source> {
    pub(crate) de: &'a mut Deserializer<S>,
    pub(crate) left: Left,
    // It also holds the step of the enum that it is the content of.
    pub(crate) nested: bool,
}

impl<'a, S: Source> Drop for Accessor<'a, S> {
    fn drop(self)
        ensures { Closes (steps_held self.entry)
            (inside S.view self.entry) (input S.view self.exit.0.now) }
    {
        let Accessor {
            de,
            left: _,
            nested,
        } = self;
        if nested {
            de.reader.step_out();
        }
        de.reader.step_out();
    }
}

/// Each of these takes a step and then the head, and answers what reads the parts.
impl<S: Source> Deserializer<S> {
    /// An array of any length.
    ///
    /// # Errors
    ///
    /// The budget is as before then.
    ///
    /// - `Core` of `Read`: the reader failed. A part of the head may be taken then
    /// - `Core` of `DepthOverflow` by "seq": no step is left. Nothing is taken then
    /// - `Core` of `Eof` by "array" with 1: no byte is left
    /// - `Core` of `Eof` by "array" with k: the argument has k bytes and fewer are left. Nothing is
    ///   left then
    /// - `Core` of `Mismatch` by "array" with the first byte, which is taken: it begins no array
    pub fn deserialize_seq(&mut self) -> Result<Accessor<'_, S>, DecodeError<S::Error>>
        ensures* rejected { sem 𝓛 (RestsIfErr (the_row S.row) self.entry deserializer_name result
            (λ new.
            RejectedAs (stepped_format (codes "seq") (length_format (codes "array") 4))
            (input S.view self.old) (input S.view new) (answer_of result))) }
        ensures same_reference { IfOk result
            (λ accessor. deserializer_name accessor ≡ self.entry.ghost_name) }
        ensures opened { IfOk result (λ accessor. OpensParts 4 (input S.view self.old)
            (inside S.view accessor) (left_in accessor)) }
        ensures steps { IfOk result (λ accessor. steps_held accessor ≡ 1) }
    {
        match begin_array(&mut self.reader) {
            Ok(left) => Ok(Accessor {
                de: self,
                left,
                nested: false,
            }),
            Err(error) => Err(DecodeError::Core(error)),
        }
    }

    /// An array of a definite length of `len`.
    ///
    /// # Errors
    ///
    /// - those of `deserialize_seq`, by "tuple" in the place of "seq"
    /// - `Core` of `RequireLength` by "tuple" with the length, as `Big` from 65536 on: it is
    ///   another than `len`. The head is taken then
    /// - `Core` of `RequireLength` by "tuple" with `Indefinite`: the length is indefinite. The head
    ///   is taken then
    pub fn deserialize_tuple(
        &mut self,
        len: usize,
    ) -> Result<Accessor<'_, S>, DecodeError<S::Error>>
        ensures* rejected { sem 𝓛 (RestsIfErr (the_row S.row) self.entry deserializer_name result
            (λ new.
            RejectedAs (stepped_format (codes "tuple") (container_head_format len))
            (input S.view self.old) (input S.view new) (answer_of result))) }
        ensures same_reference { IfOk result
            (λ accessor. deserializer_name accessor ≡ self.entry.ghost_name) }
        ensures opened { IfOk result (λ accessor. OpensParts 4 (input S.view self.old)
            (inside S.view accessor) (left_in accessor)) }
        ensures steps { IfOk result (λ accessor. steps_held accessor ≡ 1) }
        ensures left { IfOk result (λ accessor. left_in accessor ≡ Definite len) }
    {
        match begin_tuple(&mut self.reader, len) {
            Ok(()) => Ok(Accessor {
                de: self,
                left: Left::Definite(len),
                nested: false,
            }),
            Err(error) => Err(DecodeError::Core(error)),
        }
    }

    /// A map of any length, whose keys and values are then read in turn.
    ///
    /// # Errors
    ///
    /// Those of `deserialize_seq`, by "map" in the place of "seq" and "array".
    pub fn deserialize_map(&mut self) -> Result<Accessor<'_, S>, DecodeError<S::Error>>
        ensures* rejected { sem 𝓛 (RestsIfErr (the_row S.row) self.entry deserializer_name result
            (λ new.
            RejectedAs (stepped_format (codes "map") (length_format (codes "map") 5))
            (input S.view self.old) (input S.view new) (answer_of result))) }
        ensures same_reference { IfOk result
            (λ accessor. deserializer_name accessor ≡ self.entry.ghost_name) }
        ensures opened { IfOk result (λ accessor. OpensParts 5 (input S.view self.old)
            (inside S.view accessor) (left_in accessor)) }
        ensures steps { IfOk result (λ accessor. steps_held accessor ≡ 1) }
    {
        match begin_map(&mut self.reader) {
            Ok(left) => Ok(Accessor {
                de: self,
                left,
                nested: false,
            }),
            Err(error) => Err(DecodeError::Core(error)),
        }
    }

    /// A struct whose fields have no names, read by `deserialize_tuple`. Its own name is not
    /// encoded.
    ///
    /// # Errors
    ///
    /// Those of `deserialize_tuple`.
    pub fn deserialize_tuple_struct(
        &mut self,
        name: StaticStr,
        len: usize,
    ) -> Result<Accessor<'_, S>, DecodeError<S::Error>>
        ensures* rejected { sem 𝓛 (RestsIfErr (the_row S.row) self.entry deserializer_name result
            (λ new.
            RejectedAs (stepped_format (codes "tuple") (container_head_format len))
            (input S.view self.old) (input S.view new) (answer_of result))) }
        ensures same_reference { IfOk result
            (λ accessor. deserializer_name accessor ≡ self.entry.ghost_name) }
        ensures opened { IfOk result (λ accessor. OpensParts 4 (input S.view self.old)
            (inside S.view accessor) (left_in accessor)) }
        ensures steps { IfOk result (λ accessor. steps_held accessor ≡ 1) }
        ensures left { IfOk result (λ accessor. left_in accessor ≡ Definite len) }
    {
        self.deserialize_tuple(len)
    }

    /// A struct, as a map of its fields' names and values, read by `deserialize_map`. Its own name
    /// is not encoded, and no name of a field is asked for.
    ///
    /// # Errors
    ///
    /// Those of `deserialize_map`.
    pub fn deserialize_struct(
        &mut self,
        name: StaticStr,
        fields: &[StaticStr],
    ) -> Result<Accessor<'_, S>, DecodeError<S::Error>>
        ensures* rejected { sem 𝓛 (RestsIfErr (the_row S.row) self.entry deserializer_name result
            (λ new.
            RejectedAs (stepped_format (codes "map") (length_format (codes "map") 5))
            (input S.view self.old) (input S.view new) (answer_of result))) }
        ensures same_reference { IfOk result
            (λ accessor. deserializer_name accessor ≡ self.entry.ghost_name) }
        ensures opened { IfOk result (λ accessor. OpensParts 5 (input S.view self.old)
            (inside S.view accessor) (left_in accessor)) }
        ensures steps { IfOk result (λ accessor. steps_held accessor ≡ 1) }
    {
        self.deserialize_map()
    }
}

impl<'a, S: Source> Accessor<'a, S> {
    /// Whether another item comes, or another key of a map, which the caller reads then. Where the
    /// parts are counted it is counted off, and the reader is not asked. Where the length is
    /// indefinite a break is taken, and before another byte nothing. After false the answer stays
    /// false.
    ///
    /// This and `deserializer` are for a type that holds values of its own kind: a free function
    /// reads it, and calls itself where a part comes.
    ///
    /// # Errors
    ///
    /// They come only at an indefinite length, which stays indefinite, so that a further call asks
    /// again. Nothing is taken then, and the budget is as before.
    ///
    /// - `Core` of `Read`: the reader failed
    /// - `Core` of `Eof` by "break" with 1: no byte is left
    pub fn starts_element(&mut self) -> Result<bool, DecodeError<S::Error>>
        ensures decodes { Decodes (start_format (left_in self.old))
            (inside S.view self.old) (inside S.view self.new) (answer_of result) }
        ensures failed { OnRead (answer_of result)
            (ReaderFails (inside S.view self.old) (inside S.view self.new)) }
        ensures starts { AccessorStarts S.view self.old self.new result }
    {
        match self.left {
            Left::Definite(0) => Ok(false),
            Left::Definite(count) => {
                self.left = Left::Definite(count - 1);
                Ok(true)
            }
            Left::Indefinite => match is_break(&mut self.de.reader) {
                Ok(true) => {
                    self.left = Left::Ended;
                    Ok(false)
                }
                Ok(false) => Ok(true),
                Err(error) => Err(DecodeError::Core(error)),
            },
            Left::Ended => Ok(false),
        }
    }

    /// The deserializer that the parts are read from, for a part that `starts_element` said comes,
    /// or for the value after a key. It is not counted.
    pub fn deserializer(&mut self) -> &mut Deserializer<S>
        ensures* writes_back { sem 𝓛 (Lends (the_accessor (record { mir = named 0; lft = [] })
            S.row S.Error.row)
            (the_row S.row) self.entry result (with_deserializer self.old)) }
        ensures value { result.now ≡ deserializer_of self.old }
    {
        self.de
    }

    /// The next item, or none at the end, and from then on always. After an error it goes on with
    /// what is left then.
    ///
    /// # Errors
    ///
    /// No error comes at the end. The budget is as before.
    ///
    /// - those of `starts_element`, at an indefinite length
    /// - those of the item, with what they leave. An item that is counted was counted off before it
    ///   was read, and an indefinite length stays indefinite
    pub fn next_element<T: Deserialize<S>>(
        &mut self,
        alloc: Global,
    ) -> Result<Option<T>, DecodeError<S::Error>>
        ensures decodes { DecodesIf T.promise.exact
            (next_part_format (left_in self.old) (part_of T.promise))
            (inside S.view self.old) (inside S.view self.new) (answer_of result) }
        ensures goes_on { AccessorGoesOn S.view self.old self.new result }
    {
        match self.starts_element() {
            Ok(true) => match T::deserialize(alloc, self.de) {
                Ok(value) => Ok(Some(value)),
                Err(error) => Err(error),
            },
            Ok(false) => Ok(None),
            Err(error) => Err(error),
        }
    }

    /// The next key of a map, or none at the end, read by `next_element`.
    ///
    /// # Errors
    ///
    /// Those of `next_element`.
    pub fn next_key<K: Deserialize<S>>(
        &mut self,
        alloc: Global,
    ) -> Result<Option<K>, DecodeError<S::Error>>
        ensures decodes { DecodesIf K.promise.exact
            (next_part_format (left_in self.old) (part_of K.promise))
            (inside S.view self.old) (inside S.view self.new) (answer_of result) }
        ensures goes_on { AccessorGoesOn S.view self.old self.new result }
    {
        self.next_element::<K>(alloc)
    }

    /// The next item, whatever it is: after a key, its value. It is not counted.
    ///
    /// # Errors
    ///
    /// Those of the item, with what they leave. The budget is as before.
    pub fn next_value<V: Deserialize<S>>(
        &mut self,
        alloc: Global,
    ) -> Result<V, DecodeError<S::Error>>
        ensures same_reference { deserializer_name self.new ≡ deserializer_name self.old }
        ensures same_steps { steps_held self.new ≡ steps_held self.old }
        ensures left { left_in self.new ≡ left_in self.old }
        ensures decodes { Deserializes V.promise
            (inside S.view self.old) (inside S.view self.new) (answer_of result) }
    {
        V::deserialize(alloc, self.de)
    }

    /// The next key and its value, or none at the end.
    ///
    /// # Errors
    ///
    /// No error comes at the end. The budget is as before.
    ///
    /// - those of `next_key`
    /// - those of the value, with what they leave. The key was taken then. Where pairs are
    ///   counted, this one was counted off
    pub fn next_entry<K: Deserialize<S> + Drop, V: Deserialize<S>>(
        &mut self,
        alloc: Global,
    ) -> Result<Option<(K, V)>, DecodeError<S::Error>>
        ensures decodes { DecodesIf (K.promise.exact && V.promise.exact)
            (next_part_format (left_in self.old) (two_of K.promise V.promise))
            (inside S.view self.old) (inside S.view self.new) (answer_of result) }
        ensures goes_on { AccessorGoesOn S.view self.old self.new result }
    {
        match self.next_element::<K>(alloc) {
            Ok(Some(key)) => match V::deserialize(alloc, self.de) {
                Ok(value) => Ok(Some((key, value))),
                Err(error) => Err(error),
            },
            Ok(None) => Ok(None),
            Err(error) => Err(error),
        }
    }

    /// How many parts are left of a count, and none where the length is indefinite.
    pub fn size_hint(&self) -> Option<usize>
        ensures { result ≡ hint (left_in self.now) }
    {
        match self.left {
            Left::Definite(count) => Some(count),
            Left::Indefinite => None,
            Left::Ended => None,
        }
    }
}
