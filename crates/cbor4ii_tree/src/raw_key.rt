//! Items compared with a text or an integer in place, with no value made (RFC 8949 sections 3.1 and
//! 3.2.3).
ghost use Rattle.std.specs.Prelude.{◌≡◌, ◌+◌, ◌≤◌, ◌++◌, ◌∷◌, ℕ, List, [], None, length, IfSome};
ghost use Rattle.cbor4ii_items.specs.Head.{break};
ghost use Rattle.cbor4ii_tree.specs.Calls.RawParts.{IsChunkSplit, IsStripped, chunks_mean};
ghost use Rattle.cbor4ii_tree.specs.Calls.RawParts.{means_integer, means_text};
ghost use Rattle.cbor4ii_tree.specs.Basis.Tree.{Tree, Trees, bytes, bytes_all, Loose, LooseAll};

use crate::ahead::begins_with_break;
use crate::raw_head::split_head;
use cbor4ii_items::major;

/// Whether the item is this text: with a length, or in chunks.
pub(crate) fn means_text(item: &[u8], text: &[u8]) -> bool
    ensures { (t : Tree) → Loose t → item.now ≡ bytes t → result ≡ means_text text.now t }
{
    let Some(head) = split_head(item) else {
        return false;
    };
    if head.major != major::STRING {
        return false;
    }
    match head.argument {
        Some(_) => head.rest == text,
        None => chunks_mean(head.rest, text),
    }
}

/// Whether chunks up to a break are texts with a length, and this text when they are joined.
fn chunks_mean(chunks: &[u8], text: &[u8]) -> bool
    ensures { (ts : Trees) → LooseAll ts → chunks.now ≡ bytes_all ts ++ break ∷ [] →
        result ≡ chunks_mean text.now ts }
{
    let mut rest = chunks;
    let mut left = text;
    while let Some((content, after)) = split_chunk(rest) {
        match strip(left, content) {
            Some(back) => left = back,
            None => return false,
        }
        rest = after;
    }
    begins_with_break(rest) && left.is_empty()
}

/// What follows these bytes at the beginning of the text; none where it begins otherwise.
fn strip<'a>(text: &'a [u8], front: &[u8]) -> Option<&'a [u8]>
    ensures { IsStripped text.now front.now result }
{
    if front.len() > text.len() {
        return None;
    }
    let (begin, back) = text.split_at(front.len());
    if begin == front { Some(back) } else { None }
}

/// The content of the text with a length at the beginning of the bytes, and what follows it.
fn split_chunk<'a>(input: &'a [u8]) -> Option<(&'a [u8], &'a [u8])>
    ensures item { (t : Tree) (rest : List ℕ) → Loose t → input.now ≡ bytes t ++ rest →
        IsChunkSplit t rest result }
    ensures ended { (rest : List ℕ) → input.now ≡ break ∷ rest → result ≡ None }
    ensures progress { IfSome result (λ split. length split.1.now + 1 ≤ length input.now) }
{
    let head = split_head(input)?;
    if head.major != major::STRING {
        return None;
    }
    let count = head.argument?;
    if count > head.rest.len() as u64 {
        return None;
    }
    Some(head.rest.split_at(count as usize))
}

/// Whether the item is this integer, in a head of any width. A bignum is a tag, and none.
pub(crate) fn means_integer(item: &[u8], number: i128) -> bool
    ensures { (t : Tree) → Loose t → item.now ≡ bytes t → result ≡ means_integer number t }
{
    let Some(head) = split_head(item) else {
        return false;
    };
    let Some(argument) = head.argument else {
        return false;
    };
    if head.major == major::UNSIGNED {
        return argument as i128 == number;
    }
    head.major == major::NEGATIVE && -1 - (argument as i128) == number
}
