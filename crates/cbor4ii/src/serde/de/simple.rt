//! Booleans, and floats as their bits.
ghost use Rattle.std.specs.Prelude.{codes};
ghost use Rattle.std.proofs.Common.{refl};
ghost use Rattle.cbor4ii_items.specs.Simple.{bool_lawful};
ghost use Rattle.cbor4ii_items.specs.Floats.{float_format, float_lawful};
ghost use Rattle.cbor4ii_items.specs.Laws.Formats.{lawful_by};
ghost use Rattle.cbor4ii.specs.Typed.{exact_promise};

use crate::serde::de::deserialize::{Deserialize, Typed};
use crate::serde::de::deserializer::{Deserializer, take_item};
use crate::serde::de::error::DecodeError;
use cbor4ii_items::leaf::DecodeLeaf;
use cbor4ii_items::types::{F16, F32, F64};
use cbor4ii_rw::read::Source;
use std::alloc::Global;

impl Typed for bool {
    ghost promise = { exact_promise refl bool_lawful };

    #[inline(always)]
    fn is_leaf() -> bool {
        true
    }

    #[inline(always)]
    fn shown_leaf(shown: &[u8], steps: u8) -> Option<(bool, usize)> {
        <bool as DecodeLeaf>::shown_leaf(shown, steps)
    }
}

/// False or true, in one byte (RFC 8949 section 3.3). It takes no step.
///
/// # Errors
///
/// Those of `bool` as an item of the codec, each as `Core`, with its fields and what it leaves.
impl<S: Source> Deserialize<S> for bool {
    #[inline(always)]
    fn deserialize(alloc: Global, de: &mut Deserializer<S>) -> Result<bool, DecodeError<S::Error>> {
        take_item(alloc, de)
    }
}

impl Typed for F16 {
    ghost promise = { exact_promise refl (lawful_by (λ v. v.0)
        (float_format (codes "f16") 0xf9 2) (float_lawful (codes "f16") 0xf9 2)) };

    #[inline(always)]
    fn is_leaf() -> bool {
        true
    }

    #[inline(always)]
    fn shown_leaf(shown: &[u8], steps: u8) -> Option<(F16, usize)> {
        <F16 as DecodeLeaf>::shown_leaf(shown, steps)
    }
}

/// A float of two bytes, as its bits (RFC 8949 section 3.3). It takes no step. Its errors are those
/// of `F16` as an item of the codec, each as `Core`.
impl<S: Source> Deserialize<S> for F16 {
    #[inline(always)]
    fn deserialize(alloc: Global, de: &mut Deserializer<S>) -> Result<F16, DecodeError<S::Error>> {
        take_item(alloc, de)
    }
}

impl Typed for F32 {
    ghost promise = { exact_promise refl (lawful_by (λ v. v.0)
        (float_format (codes "f32") 0xfa 4) (float_lawful (codes "f32") 0xfa 4)) };

    #[inline(always)]
    fn is_leaf() -> bool {
        true
    }

    #[inline(always)]
    fn shown_leaf(shown: &[u8], steps: u8) -> Option<(F32, usize)> {
        <F32 as DecodeLeaf>::shown_leaf(shown, steps)
    }
}

/// A float of four bytes, as its bits (RFC 8949 section 3.3). It takes no step. Its errors are
/// those of `F32` as an item of the codec, each as `Core`.
impl<S: Source> Deserialize<S> for F32 {
    #[inline(always)]
    fn deserialize(alloc: Global, de: &mut Deserializer<S>) -> Result<F32, DecodeError<S::Error>> {
        take_item(alloc, de)
    }
}

impl Typed for F64 {
    ghost promise = { exact_promise refl (lawful_by (λ v. v.0)
        (float_format (codes "f64") 0xfb 8) (float_lawful (codes "f64") 0xfb 8)) };

    #[inline(always)]
    fn is_leaf() -> bool {
        true
    }

    #[inline(always)]
    fn shown_leaf(shown: &[u8], steps: u8) -> Option<(F64, usize)> {
        <F64 as DecodeLeaf>::shown_leaf(shown, steps)
    }
}

/// A float of eight bytes, as its bits (RFC 8949 section 3.3). It takes no step. Its errors are
/// those of `F64` as an item of the codec, each as `Core`.
impl<S: Source> Deserialize<S> for F64 {
    #[inline(always)]
    fn deserialize(alloc: Global, de: &mut Deserializer<S>) -> Result<F64, DecodeError<S::Error>> {
        take_item(alloc, de)
    }
}
