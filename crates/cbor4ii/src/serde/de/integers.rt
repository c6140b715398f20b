//! Integers, read as the codec reads them.
ghost use Rattle.std.specs.Prelude.{◌^◌, codes};
ghost use Rattle.std.proofs.Common.{refl};
ghost use Rattle.cbor4ii_items.specs.Laws.Arguments.{zero_small, argument_lawful};
ghost use Rattle.cbor4ii_items.specs.Laws.Bignums.{u128_one, u128_within, u128_positive};
ghost use Rattle.cbor4ii_items.specs.Laws.Bignums.{u128_alone, i128_one, i128_within};
ghost use Rattle.cbor4ii_items.specs.Laws.Bignums.{i128_positive, i128_alone};
ghost use Rattle.cbor4ii_items.specs.Laws.Signed.{signed_lawful};
ghost use Rattle.cbor4ii.specs.Typed.{exact_promise};

use crate::serde::de::deserialize::{Deserialize, Typed};
use crate::serde::de::deserializer::{Deserializer, take_item};
use crate::serde::de::error::DecodeError;
use cbor4ii_items::decode::Decodable;
use cbor4ii_items::leaf::DecodeLeaf;
use cbor4ii_rw::read::Source;
use std::alloc::Global;

impl Typed for u8 {
    ghost promise = { exact_promise refl (argument_lawful (codes "u8") 0 1 zero_small) };

    #[inline(always)]
    fn is_leaf() -> bool {
        true
    }

    #[inline(always)]
    fn shown_leaf(shown: &[u8], steps: u8) -> Option<(u8, usize)> {
        <u8 as DecodeLeaf>::shown_leaf(shown, steps)
    }
}

/// An unsigned integer whose argument has at most one byte, whether or not in its shortest head
/// (RFC 8949 section 3.1). It takes no step.
///
/// # Errors
///
/// Those of `u8` as an item of the codec, each as `Core`, with its fields and what it leaves.
impl<S: Source> Deserialize<S> for u8 {
    #[inline(always)]
    fn deserialize(alloc: Global, de: &mut Deserializer<S>) -> Result<u8, DecodeError<S::Error>> {
        take_item(alloc, de)
    }
}

impl Typed for u16 {
    ghost promise = { exact_promise refl (argument_lawful (codes "u16") 0 2 zero_small) };

    #[inline(always)]
    fn is_leaf() -> bool {
        true
    }

    #[inline(always)]
    fn shown_leaf(shown: &[u8], steps: u8) -> Option<(u16, usize)> {
        <u16 as DecodeLeaf>::shown_leaf(shown, steps)
    }
}

/// An unsigned integer whose argument has at most two bytes, read as a `u8` is. Its errors are
/// those of `u16` as an item of the codec, each as `Core`.
impl<S: Source> Deserialize<S> for u16 {
    #[inline(always)]
    fn deserialize(alloc: Global, de: &mut Deserializer<S>) -> Result<u16, DecodeError<S::Error>> {
        take_item(alloc, de)
    }
}

impl Typed for u32 {
    ghost promise = { exact_promise refl (argument_lawful (codes "u32") 0 4 zero_small) };

    #[inline(always)]
    fn is_leaf() -> bool {
        true
    }

    #[inline(always)]
    fn shown_leaf(shown: &[u8], steps: u8) -> Option<(u32, usize)> {
        <u32 as DecodeLeaf>::shown_leaf(shown, steps)
    }
}

/// An unsigned integer whose argument has at most four bytes, read as a `u8` is. Its errors are
/// those of `u32` as an item of the codec, each as `Core`.
impl<S: Source> Deserialize<S> for u32 {
    #[inline(always)]
    fn deserialize(alloc: Global, de: &mut Deserializer<S>) -> Result<u32, DecodeError<S::Error>> {
        take_item(alloc, de)
    }
}

impl Typed for u64 {
    ghost promise = { exact_promise refl (argument_lawful (codes "u64") 0 8 zero_small) };

    #[inline(always)]
    fn is_leaf() -> bool {
        true
    }

    #[inline(always)]
    fn shown_leaf(shown: &[u8], steps: u8) -> Option<(u64, usize)> {
        <u64 as DecodeLeaf>::shown_leaf(shown, steps)
    }
}

/// An unsigned integer whose argument has at most eight bytes, read as a `u8` is. Its errors are
/// those of `u64` as an item of the codec, each as `Core`.
impl<S: Source> Deserialize<S> for u64 {
    #[inline(always)]
    fn deserialize(alloc: Global, de: &mut Deserializer<S>) -> Result<u64, DecodeError<S::Error>> {
        take_item(alloc, de)
    }
}

impl Typed for u128 {
    ghost promise = { exact_promise {format = ⟦<u128 as Decodable>⟧.format} refl (record {
      one = u128_one;
      within = u128_within;
      positive = λ _. u128_positive;
      alone = λ _. u128_alone;
    }) };
}

/// An unsigned integer of any head, or a bignum of tag 2, of at most 16 bytes (RFC 8949 sections
/// 3.1 and 3.4.3). It takes no step.
///
/// # Errors
///
/// Those of `u128` as an item of the codec, each as `Core`, with its fields and what it leaves.
impl<S: Source> Deserialize<S> for u128 {
    #[inline(always)]
    fn deserialize(alloc: Global, de: &mut Deserializer<S>) -> Result<u128, DecodeError<S::Error>> {
        take_item(alloc, de)
    }
}

impl Typed for i8 {
    ghost promise = { exact_promise refl
        (signed_lawful (codes "i8") (codes "+i8") (codes "-i8") 1 (2 ^ 7)) };

    #[inline(always)]
    fn is_leaf() -> bool {
        true
    }

    #[inline(always)]
    fn shown_leaf(shown: &[u8], steps: u8) -> Option<(i8, usize)> {
        <i8 as DecodeLeaf>::shown_leaf(shown, steps)
    }
}

/// An integer of major type 0, or a negative one of major type 1, whose argument has at most one
/// byte and is below 2^7 (RFC 8949 section 3.1). It takes no step.
///
/// # Errors
///
/// Those of `i8` as an item of the codec, each as `Core`, with its fields and what it leaves.
impl<S: Source> Deserialize<S> for i8 {
    #[inline(always)]
    fn deserialize(alloc: Global, de: &mut Deserializer<S>) -> Result<i8, DecodeError<S::Error>> {
        take_item(alloc, de)
    }
}

impl Typed for i16 {
    ghost promise = { exact_promise refl
        (signed_lawful (codes "i16") (codes "+i16") (codes "-i16") 2 (2 ^ 15)) };

    #[inline(always)]
    fn is_leaf() -> bool {
        true
    }

    #[inline(always)]
    fn shown_leaf(shown: &[u8], steps: u8) -> Option<(i16, usize)> {
        <i16 as DecodeLeaf>::shown_leaf(shown, steps)
    }
}

/// An integer whose argument has at most two bytes and is below 2^15, read as an `i8` is. Its
/// errors are those of `i16` as an item of the codec, each as `Core`.
impl<S: Source> Deserialize<S> for i16 {
    #[inline(always)]
    fn deserialize(alloc: Global, de: &mut Deserializer<S>) -> Result<i16, DecodeError<S::Error>> {
        take_item(alloc, de)
    }
}

impl Typed for i32 {
    ghost promise = { exact_promise refl
        (signed_lawful (codes "i32") (codes "+i32") (codes "-i32") 4 (2 ^ 31)) };

    #[inline(always)]
    fn is_leaf() -> bool {
        true
    }

    #[inline(always)]
    fn shown_leaf(shown: &[u8], steps: u8) -> Option<(i32, usize)> {
        <i32 as DecodeLeaf>::shown_leaf(shown, steps)
    }
}

/// An integer whose argument has at most four bytes and is below 2^31, read as an `i8` is. Its
/// errors are those of `i32` as an item of the codec, each as `Core`.
impl<S: Source> Deserialize<S> for i32 {
    #[inline(always)]
    fn deserialize(alloc: Global, de: &mut Deserializer<S>) -> Result<i32, DecodeError<S::Error>> {
        take_item(alloc, de)
    }
}

impl Typed for i64 {
    ghost promise = { exact_promise refl
        (signed_lawful (codes "i64") (codes "+i64") (codes "-i64") 8 (2 ^ 63)) };

    #[inline(always)]
    fn is_leaf() -> bool {
        true
    }

    #[inline(always)]
    fn shown_leaf(shown: &[u8], steps: u8) -> Option<(i64, usize)> {
        <i64 as DecodeLeaf>::shown_leaf(shown, steps)
    }
}

/// An integer whose argument has at most eight bytes and is below 2^63, read as an `i8` is. Its
/// errors are those of `i64` as an item of the codec, each as `Core`.
impl<S: Source> Deserialize<S> for i64 {
    #[inline(always)]
    fn deserialize(alloc: Global, de: &mut Deserializer<S>) -> Result<i64, DecodeError<S::Error>> {
        take_item(alloc, de)
    }
}

impl Typed for i128 {
    ghost promise = { exact_promise {format = ⟦<i128 as Decodable>⟧.format} refl (record {
      one = i128_one;
      within = i128_within;
      positive = λ _. i128_positive;
      alone = λ _. i128_alone;
    }) };
}

/// An integer of any head, or a bignum of tag 2, or of tag 3 for a negative one, of at most 16
/// bytes, whose number is below 2^127 (RFC 8949 sections 3.1 and 3.4.3). It takes no step.
///
/// # Errors
///
/// Those of `i128` as an item of the codec, each as `Core`, with its fields and what it leaves.
impl<S: Source> Deserialize<S> for i128 {
    #[inline(always)]
    fn deserialize(alloc: Global, de: &mut Deserializer<S>) -> Result<i128, DecodeError<S::Error>> {
        take_item(alloc, de)
    }
}
