//! Items that are skipped.
ghost use Rattle.cbor4ii_items.specs.Decoding.{Decodes, leaf_format};
ghost use Rattle.cbor4ii_tree.specs.Calls.Promises.{Others, OnlySkips, PrefixSkips, EofSkips};
ghost use Rattle.cbor4ii_tree.specs.Basis.Headline.{AllSkips};
ghost use Rattle.cbor4ii_tree.specs.Calls.Promises.{DepthSkips, FinalSkips, ExactSkips};
ghost use Rattle.cbor4ii_tree.specs.Calls.Ignored.{ReadsIgnored};
ghost use Rattle.cbor4ii_tree.specs.Calls.SkippingRejects.{SkippingRejects};
ghost use Rattle.cbor4ii_tree.specs.Laws.Ignoring.{ignored_lawful};

use crate::bytes_ahead::Own;
use crate::skip::items::skip_item;
use cbor4ii_items::decode::{Decodable, Decode};
use cbor4ii_rw::error::DecodeError;
use cbor4ii_rw::read::Source;
use std::alloc::Global;

/// Any item, of which nothing is kept.
#[derive(Clone, Copy, Debug, PartialEq, Eq)]
pub struct IgnoredAny;

impl Decodable for IgnoredAny {
    ghost format = { leaf_format ReadsIgnored SkippingRejects };

    fn is_never_empty() -> bool {
        true
    }

    ghost lawful = { ignored_lawful };
}

/// One item, under a step for each level of it, the item itself and the chunks of a string of
/// indefinite length too. Texts are not tested, and any items are taken as chunks.
///
/// # Errors
///
/// `Read` is described at `Decode::decode`. The others speak of the item or of one inside it. What
/// stands before the rejected byte is taken, and each `Eof` leaves nothing:
///
/// - `DepthOverflow` by "ignored-any": no step is left for an item. Nothing of it is taken
/// - `Eof` by "ignored-any" with 1: no byte is left where a first byte should come
/// - `Eof` by "ignored-any" with the number of bytes that are missing: a number, a float or the
///   content of a string is cut
/// - `Eof` by "ignored-any" with k: the argument that says a length has k bytes and fewer are left
/// - `Eof` by "tag" with k: the number of a tag has k bytes and fewer are left
/// - `Eof` by "break" with 1: no byte is left where an item or a break should come
/// - `Mismatch` by "ignored-any" with a first byte of additional information 28 to 31 that begins
///   nothing. It stays where its major type is 0 or 1, and is taken otherwise
/// - `Mismatch` by "tag" with such a first byte of major type 6, which is taken
/// - `Unsupported` by "ignored-any" with a byte of major type 7, which stays. It is none of `f4` to
///   `f7` and `f9` to `fb`, and no break where one may come
impl<S: Source> Decode<S> for IgnoredAny {
    fn decode(alloc: Global, reader: &mut S) -> Result<IgnoredAny, DecodeError<S::Error>>
        ensures decodes { Decodes (leaf_format ReadsIgnored SkippingRejects)
            (S.view reader.old) (S.view reader.new) result }
        ensures only { OnlySkips (S.view reader.old) (S.view reader.new) result }
        ensures all { AllSkips (S.view reader.old) (S.view reader.new) result }
        ensures prefix { PrefixSkips (S.view reader.old) result }
        ensures eof { EofSkips (S.view reader.old) (S.view reader.new) result }
        ensures depth { DepthSkips (S.view reader.old) result }
        ensures never { FinalSkips (S.view reader.old) result }
        ensures others { Others (S.view reader.old) result }
        ensures exact { ExactSkips (S.view reader.old) (S.view reader.new) result }
    {
        match skip_item(&mut Own, reader) {
            Ok(()) => Ok(IgnoredAny),
            Err(error) => Err(error),
        }
    }
}
