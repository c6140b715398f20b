//! A text, borrowed from the input or joined out of a stream.
ghost use Rattle.std.specs.Prelude.{codes, true};
ghost use Rattle.cbor4ii_rw.specs.Stream.{most_bytes, cut_known};
ghost use Rattle.cbor4ii_rw.specs.View.{IfKnown};
ghost use Rattle.cbor4ii_items.specs.Lent.{lent_format, lent_str};
ghost use Rattle.cbor4ii_items.specs.Strings.{text_format, text_content};
ghost use Rattle.cbor4ii_examples.specs.First.{DecodesFirst};

use cbor4ii::dec::Decode;
use cbor4ii::error::{DecodeError, Never};
use cbor4ii::utils::{IoReader, SliceReader};
use std::alloc::Global;
use std::io::{self, BufRead};

/// The text at the beginning of `input`: a part of it, and no copy.
///
/// # Errors
///
/// Those of `&str`, where no text of definite length that is UTF-8 begins `input`. There is no want
/// of memory.
pub fn borrowed(alloc: Global, input: &[u8]) -> Result<&str, DecodeError<Never>>
    ensures { DecodesFirst (lent_format (codes "str") 3 true lent_str) input.now result }
{
    <&str>::decode(alloc, &mut SliceReader::new(input))
}

/// The text at the beginning of a stream, of one piece or in chunks. What was taken of the stream
/// is lost with it.
///
/// # Errors
///
/// - `Read`: the stream failed
/// - those of `String`, where no text that is UTF-8 begins the stream. `OutOfMemory` where there is
///   no memory for the text
pub fn streamed<R: BufRead + Drop>(
    alloc: Global,
    stream: R,
) -> Result<String, DecodeError<io::Error>>
    ensures { IfKnown (cut_known most_bytes (R.Read.remaining stream)) (λ bytes.
        DecodesFirst (text_format (codes "str") text_content) bytes result) }
{
    String::decode(alloc, &mut IoReader::new(stream))
}

#[cfg(test)]
mod tests;
