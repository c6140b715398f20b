//! A sequence of values, one after another with nothing between them (RFC 8742), out of a slice or
//! a stream. It is written by `encode` of one value after another.
ghost use Rattle.cbor4ii_items.specs.Decoding.{Decodes};
ghost use Rattle.cbor4ii_items.specs.ItemOrEnd.{item_or_end};
ghost use Rattle.cbor4ii_tree.specs.Calls.Promises.{value_format};
ghost use Rattle.cbor4ii_examples.specs.Sequence.{CutIsEof};

use cbor4ii::Value;
use cbor4ii::dec::{Source, next_item};
use cbor4ii::error::DecodeError;
use cbor4ii_tree::laws::{reading_has_one_answer, reading_says_what_may_come};
use std::alloc::Global;

/// The next value of a sequence, as `next_item` reads it.
///
/// # Errors
///
/// - `Read`: the reader failed
/// - those of `Value`, which leave what they leave: `Eof` where the input ends inside an item that
///   fits the steps
pub fn next_value<S: Source>(
    alloc: Global,
    reader: &mut S,
) -> Result<Option<Value>, DecodeError<S::Error>>
    ensures decodes { Decodes (item_or_end value_format)
        (S.view reader.old) (S.view reader.new) result }
    ensures cut { CutIsEof (S.view reader.old) result }
{
    reading_has_one_answer();
    reading_says_what_may_come();
    next_item(alloc, reader)
}

#[cfg(test)]
mod tests;
