//! What a deserializer reads by name: one item each, as the codec's own types read it.
ghost use Rattle.std.specs.Prelude.{◌≡◌, false};
ghost use Rattle.cbor4ii_items.specs.Decoding.{Decodes};
ghost use Rattle.cbor4ii.specs.Typed.{input, answer_of, Deserializes};

use crate::serde::de::deserialize::Deserialize;
use crate::serde::de::deserializer::{Deserializer, take_item};
use crate::serde::de::error::DecodeError;
use cbor4ii_items::decode::Decodable;
use cbor4ii_items::types::{F16, F32, F64};
use cbor4ii_rw::error::StaticStr;
use cbor4ii_rw::read::Source;
use std::alloc::Global;

/// Each of these reads the item at the beginning of what is left, and leaves what follows it. It
/// moves the reader as `Deserialize::deserialize` does, and needs no step unless it says so.
///
/// # Errors
///
/// All but `deserialize_newtype_struct` answer `Core` of the error that the type's own
/// `Decode::decode` gives there, with its fields. They leave what that leaves, and never answer
/// `Custom`.
impl<S: Source> Deserializer<S> {
    /// False or true.
    ///
    /// # Errors
    ///
    /// Those of `bool`, each as `Core`: `Read`, and `Eof` or `Mismatch` by "bool", which take
    /// nothing.
    pub fn deserialize_bool(&mut self, alloc: Global) -> Result<bool, DecodeError<S::Error>>
        ensures { Decodes ⟦<bool as Decodable>⟧.format
            (input S.view self.old) (input S.view self.new) (answer_of result) }
    {
        take_item(alloc, self)
    }

    /// An unsigned integer whose argument has at most one byte.
    ///
    /// # Errors
    ///
    /// Those of `u8`, each as `Core`: `Read`, and `Eof` or `Mismatch` by "u8".
    pub fn deserialize_u8(&mut self, alloc: Global) -> Result<u8, DecodeError<S::Error>>
        ensures { Decodes ⟦<u8 as Decodable>⟧.format
            (input S.view self.old) (input S.view self.new) (answer_of result) }
    {
        take_item(alloc, self)
    }

    /// An unsigned integer whose argument has at most two bytes.
    ///
    /// # Errors
    ///
    /// Those of `u16`, each as `Core`: `Read`, and `Eof` or `Mismatch` by "u16".
    pub fn deserialize_u16(&mut self, alloc: Global) -> Result<u16, DecodeError<S::Error>>
        ensures { Decodes ⟦<u16 as Decodable>⟧.format
            (input S.view self.old) (input S.view self.new) (answer_of result) }
    {
        take_item(alloc, self)
    }

    /// An unsigned integer whose argument has at most four bytes.
    ///
    /// # Errors
    ///
    /// Those of `u32`, each as `Core`: `Read`, and `Eof` or `Mismatch` by "u32".
    pub fn deserialize_u32(&mut self, alloc: Global) -> Result<u32, DecodeError<S::Error>>
        ensures { Decodes ⟦<u32 as Decodable>⟧.format
            (input S.view self.old) (input S.view self.new) (answer_of result) }
    {
        take_item(alloc, self)
    }

    /// An unsigned integer whose argument has at most eight bytes.
    ///
    /// # Errors
    ///
    /// Those of `u64`, each as `Core`: `Read`, and `Eof` or `Mismatch` by "u64".
    pub fn deserialize_u64(&mut self, alloc: Global) -> Result<u64, DecodeError<S::Error>>
        ensures { Decodes ⟦<u64 as Decodable>⟧.format
            (input S.view self.old) (input S.view self.new) (answer_of result) }
    {
        take_item(alloc, self)
    }

    /// An unsigned integer, or a bignum below 2^128 (tag 2).
    ///
    /// # Errors
    ///
    /// Those of `u128`, each as `Core`.
    pub fn deserialize_u128(&mut self, alloc: Global) -> Result<u128, DecodeError<S::Error>>
        ensures { Decodes ⟦<u128 as Decodable>⟧.format
            (input S.view self.old) (input S.view self.new) (answer_of result) }
    {
        take_item(alloc, self)
    }

    /// An integer whose argument has at most one byte, in the range of i8.
    ///
    /// # Errors
    ///
    /// Those of `i8`, each as `Core`: `Read`, and `Eof`, `Mismatch` or `CastOverflow`.
    pub fn deserialize_i8(&mut self, alloc: Global) -> Result<i8, DecodeError<S::Error>>
        ensures { Decodes ⟦<i8 as Decodable>⟧.format
            (input S.view self.old) (input S.view self.new) (answer_of result) }
    {
        take_item(alloc, self)
    }

    /// An integer whose argument has at most two bytes, in the range of i16.
    ///
    /// # Errors
    ///
    /// Those of `i16`, each as `Core`: `Read`, and `Eof`, `Mismatch` or `CastOverflow`.
    pub fn deserialize_i16(&mut self, alloc: Global) -> Result<i16, DecodeError<S::Error>>
        ensures { Decodes ⟦<i16 as Decodable>⟧.format
            (input S.view self.old) (input S.view self.new) (answer_of result) }
    {
        take_item(alloc, self)
    }

    /// An integer whose argument has at most four bytes, in the range of i32.
    ///
    /// # Errors
    ///
    /// Those of `i32`, each as `Core`: `Read`, and `Eof`, `Mismatch` or `CastOverflow`.
    pub fn deserialize_i32(&mut self, alloc: Global) -> Result<i32, DecodeError<S::Error>>
        ensures { Decodes ⟦<i32 as Decodable>⟧.format
            (input S.view self.old) (input S.view self.new) (answer_of result) }
    {
        take_item(alloc, self)
    }

    /// An integer whose argument has at most eight bytes, in the range of i64.
    ///
    /// # Errors
    ///
    /// Those of `i64`, each as `Core`: `Read`, and `Eof`, `Mismatch` or `CastOverflow`.
    pub fn deserialize_i64(&mut self, alloc: Global) -> Result<i64, DecodeError<S::Error>>
        ensures { Decodes ⟦<i64 as Decodable>⟧.format
            (input S.view self.old) (input S.view self.new) (answer_of result) }
    {
        take_item(alloc, self)
    }

    /// An integer, or a bignum (tags 2 and 3) in the range of i128.
    ///
    /// # Errors
    ///
    /// Those of `i128`, each as `Core`.
    pub fn deserialize_i128(&mut self, alloc: Global) -> Result<i128, DecodeError<S::Error>>
        ensures { Decodes ⟦<i128 as Decodable>⟧.format
            (input S.view self.old) (input S.view self.new) (answer_of result) }
    {
        take_item(alloc, self)
    }

    /// A float of two bytes, as its bits.
    ///
    /// # Errors
    ///
    /// Those of `F16`, each as `Core`: `Read`, and `Eof` or `Mismatch` by "f16".
    pub fn deserialize_f16(&mut self, alloc: Global) -> Result<F16, DecodeError<S::Error>>
        ensures { Decodes ⟦<F16 as Decodable>⟧.format
            (input S.view self.old) (input S.view self.new) (answer_of result) }
    {
        take_item(alloc, self)
    }

    /// A float of four bytes, as its bits.
    ///
    /// # Errors
    ///
    /// Those of `F32`, each as `Core`: `Read`, and `Eof` or `Mismatch` by "f32".
    pub fn deserialize_f32(&mut self, alloc: Global) -> Result<F32, DecodeError<S::Error>>
        ensures { Decodes ⟦<F32 as Decodable>⟧.format
            (input S.view self.old) (input S.view self.new) (answer_of result) }
    {
        take_item(alloc, self)
    }

    /// A float of eight bytes, as its bits.
    ///
    /// # Errors
    ///
    /// Those of `F64`, each as `Core`: `Read`, and `Eof` or `Mismatch` by "f64".
    pub fn deserialize_f64(&mut self, alloc: Global) -> Result<F64, DecodeError<S::Error>>
        ensures { Decodes ⟦<F64 as Decodable>⟧.format
            (input S.view self.old) (input S.view self.new) (answer_of result) }
    {
        take_item(alloc, self)
    }

    /// A text, of definite or indefinite length; one of indefinite length needs a step for its
    /// chunks.
    ///
    /// # Errors
    ///
    /// Those of `String`, each as `Core`, by "str" where no other name is said.
    pub fn deserialize_string(&mut self, alloc: Global) -> Result<String, DecodeError<S::Error>>
        ensures { Decodes ⟦<String as Decodable>⟧.format
            (input S.view self.old) (input S.view self.new) (answer_of result) }
    {
        take_item(alloc, self)
    }

    /// A struct of one field, read as that field is. Its name is not encoded.
    ///
    /// # Errors
    ///
    /// Those of the field, with what they leave.
    pub fn deserialize_newtype_struct<T: Deserialize<S>>(
        &mut self,
        alloc: Global,
        name: StaticStr,
    ) -> Result<T, DecodeError<S::Error>>
        ensures { Deserializes T.promise
            (input S.view self.old) (input S.view self.new) (answer_of result) }
    {
        T::deserialize(alloc, self)
    }

    /// Whether the format is one that people read: false.
    pub fn is_human_readable(&self) -> bool
        ensures { result ≡ false }
    {
        false
    }
}
