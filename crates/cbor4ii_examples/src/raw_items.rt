//! Items that are kept as their bytes, and one that is skipped.
ghost use Rattle.std.specs.Prelude.{◌≡◌, List, ℕ, Some, false, IfErr};
ghost use Rattle.cbor4ii_rw.specs.Input.{limit};
ghost use Rattle.cbor4ii_items.specs.InputError.{is_out_of_memory};
ghost use Rattle.cbor4ii_items.specs.Sequences.{array_format};
ghost use Rattle.cbor4ii_tree.specs.Basis.Encodings.{Skips};
ghost use Rattle.cbor4ii_tree.specs.Basis.Headline.{Answered};
ghost use Rattle.cbor4ii_tree.specs.Basis.Tree.{Tree};
ghost use Rattle.cbor4ii_tree.specs.Calls.Raw.{raw_content, raw_format};
ghost use Rattle.cbor4ii_tree.specs.Calls.SkippingRejects.{SkippingRejects};
ghost use Rattle.cbor4ii_examples.specs.First.{DecodesFirst};

use cbor4ii::RawValue;
use cbor4ii::dec::{Decode, IgnoredAny};
use cbor4ii::error::{DecodeError, Never};
use cbor4ii::utils::SliceReader;
use std::alloc::Global;

/// The items of the array at the beginning of `input`, each as its bytes stand there: nothing is
/// copied.
///
/// # Errors
///
/// Those of `Vec` and of `RawValue`, where no array of items that are skipped with 256 steps begins
/// `input`. `OutOfMemory` where there is no memory for the vector.
pub fn raw_items(alloc: Global, input: &[u8]) -> Result<Vec<RawValue<'_>>, DecodeError<Never>>
    ensures { DecodesFirst (array_format (raw_format raw_content)) input.now result }
{
    Vec::decode(alloc, &mut SliceReader::new(input))
}

/// What follows the item at the beginning of `input`, whatever that is.
///
/// # Errors
///
/// Those of `IgnoredAny`, where no item that is skipped with 256 steps begins `input`.
pub fn after_first(alloc: Global, input: &[u8]) -> Result<&[u8], DecodeError<Never>>
    ensures skips { Answered (λ rest. (t : Tree) × Skips input.now (Some limit) t rest.now)
        (λ error. (rest : List ℕ) × SkippingRejects input.now (Some limit) error rest) result }
    ensures memory { IfErr result (λ error. is_out_of_memory error ≡ false) }
{
    let mut reader = SliceReader::new(input);
    IgnoredAny::decode(alloc, &mut reader)?;
    Ok(reader.remaining())
}

#[cfg(test)]
mod tests;
