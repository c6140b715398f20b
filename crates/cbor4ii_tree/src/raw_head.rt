//! Bytes that begin with a head or with an item, taken apart in place (RFC 8949 section 3).
ghost use Rattle.std.specs.Prelude.{◌≡◌, ◌+◌, ◌≤◌, ◌++◌, ◌∷◌, ℕ, List, length, IfSome};
ghost use Rattle.std.specs.Prelude.{Some};
ghost use Rattle.cbor4ii_tree.specs.Calls.RawParts.{IsSplitItem, SplitsHeads};
ghost use Rattle.cbor4ii_tree.specs.Basis.Tree.{Tree, bytes, Loose};

use crate::lend_raw::capture;
use crate::raw::RawValue;
use cbor4ii_items::initial::{argument, if_major, low};
use cbor4ii_rw::slice_reader::SliceReader;

#[derive(Clone, Copy)]
pub(crate) struct Head<'de> {
    pub(crate) major: u8,
    /// The argument; none of an indefinite length and of a break.
    pub(crate) argument: Option<u64>,
    pub(crate) rest: &'de [u8],
}

/// The head at the beginning of the bytes, and what follows it. None of no bytes.
#[inline(always)]
pub(crate) fn split_head<'de>(bytes: &'de [u8]) -> Option<Head<'de>>
    ensures head { SplitsHeads bytes.now result }
    ensures progress { IfSome result (λ head. length head.rest.now + 1 ≤ length bytes.now) }
{
    let [first, trailing @ ..] = bytes else {
        return None;
    };
    Some(head_from(*first, trailing))
}

/// As `split_head`, of a first byte that stands apart.
#[inline(always)]
fn head_from<'de>(first: u8, trailing: &'de [u8]) -> Head<'de>
    ensures head { SplitsHeads (first ∷ trailing.now) (Some result) }
    ensures progress { length result.rest.now ≤ length trailing.now }
{
    let major = if_major(first);
    match argument(low(first), trailing) {
        Some((argument, size)) => Head {
            major,
            argument: Some(argument),
            rest: &trailing[size..],
        },
        None => Head {
            major,
            argument: None,
            rest: trailing,
        },
    }
}

/// The item at the beginning of the bytes, and what follows it. It is skipped under as many steps
/// as there are bytes, so that none is too deep: what is kept was skipped before.
pub(crate) fn split_item<'de>(input: &'de [u8]) -> Option<(RawValue<'de>, &'de [u8])>
    ensures splits { (t : Tree) (rest : List ℕ) → Loose t → input.now ≡ bytes t ++ rest →
        IsSplitItem t rest result }
    ensures progress { IfSome result (λ split. length split.1.now + 1 ≤ length input.now) }
{
    let limit = input.len();
    let mut reader = SliceReader::with_limit(input, limit);
    match capture::<RawValue<'de>, SliceReader<'de>>(&mut reader) {
        Ok(item) => Some((item, reader.remaining())),
        Err(_) => None,
    }
}
