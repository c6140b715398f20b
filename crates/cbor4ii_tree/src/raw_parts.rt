//! Parts of items that are kept as their bytes: the items of an array and the pairs of a map, one
//! after another, and a value found by its key or its place (RFC 8949 sections 3.1 and 3.2).
//!
//! What is answered is lent by the input, as the item itself is. Nothing is copied and no memory is
//! taken. The time grows with the bytes that are passed over. No call rejects anything: the item
//! was skipped when it was kept, so that it is taken apart as skipping takes it, at any depth.
ghost use Rattle.std.specs.Prelude.{◌≡◌, ℕ, option_and_then};
ghost use Rattle.std.specs.Iterator.{at_most};
ghost use Rattle.cbor4ii_tree.specs.Calls.Access.{as_array, as_map, find_text, find_value};
ghost use Rattle.cbor4ii_tree.specs.Basis.Encodings.{Encodes};
ghost use Rattle.cbor4ii_tree.specs.Basis.Item.{Item, integer};
ghost use Rattle.cbor4ii_tree.specs.Calls.Raw.{raw_content};
ghost use Rattle.cbor4ii_tree.specs.Calls.RawParts.{Agrees, AreToCome, GivesItem, GivesPair};
ghost use Rattle.cbor4ii_tree.specs.Calls.RawParts.{IsLeftAfter};
ghost use Rattle.cbor4ii_tree.specs.Calls.RawParts.{ItemsToCome, KeepsEncoding, KeepsItem};
ghost use Rattle.cbor4ii_tree.specs.Calls.RawParts.{PairsToCome};
ghost use Rattle.cbor4ii_tree.specs.Calls.RawParts.{array_trees, first_value, indexed_tree};
ghost use Rattle.cbor4ii_tree.specs.Calls.RawParts.{indexed_value, item_bytes_left, map_pairs};
ghost use Rattle.cbor4ii_tree.specs.Calls.RawParts.{means_integer, means_text, pair_bytes_left};
ghost use Rattle.cbor4ii_tree.specs.Basis.Tree.{Tree, Trees, Pairs, Loose, bytes, count};
ghost use Rattle.cbor4ii_tree.specs.Basis.Tree.{bytes_all, bytes_pairs, pair_count};

use crate::ahead::begins_with_break;
use crate::raw::RawValue;
use crate::raw_head::{split_head, split_item};
use crate::raw_key::{means_integer, means_text};
use cbor4ii_items::major;

#[derive(Clone, Copy, Debug)]
struct Parts<'de> {
    /// How many; none of an indefinite length, whose parts end at a break.
    left: Option<u64>,
    rest: &'de [u8],
}

/// The items of a kept array, one after another. `RawValue::items` begins with the first.
#[derive(Clone, Debug, Drop)]
pub struct RawItems<'de>(Parts<'de>);

/// The pairs of a kept map, one after another. `RawValue::pairs` begins with the first.
#[derive(Clone, Debug, Drop)]
pub struct RawPairs<'de>(Parts<'de>);

/// The items, in the order of the array. After the last it is none, also when it is asked again.
impl<'de> Iterator for RawItems<'de> {
    type Item = RawValue<'de>;

    ghost next_gives = { λ old answer new.
        (ts : Trees) → ItemsToCome ts old → GivesItem ts new answer };

    ghost remaining = { λ items. at_most (item_bytes_left items) };

    fn next(&mut self) -> Option<RawValue<'de>> {
        let left = left_after(&self.0)?;
        let (item, rest) = split_item(self.0.rest)?;
        self.0 = Parts { left, rest };
        Some(item)
    }
}

/// The key and the value of each pair, in the order of the map. After the last it is none, also
/// when it is asked again.
impl<'de> Iterator for RawPairs<'de> {
    type Item = (RawValue<'de>, RawValue<'de>);

    ghost next_gives = { λ old answer new.
        (ps : Pairs) → PairsToCome ps old → GivesPair ps new answer };

    ghost remaining = { λ pairs. at_most (pair_bytes_left pairs) };

    fn next(&mut self) -> Option<(RawValue<'de>, RawValue<'de>)> {
        let left = left_after(&self.0)?;
        let (key, values) = split_item(self.0.rest)?;
        let (value, rest) = split_item(values)?;
        self.0 = Parts { left, rest };
        Some((key, value))
    }
}

impl<'de> RawValue<'de> {
    /// The items of the array, to be taken one by one. None of any other kind of item, also of a
    /// tag on an array.
    pub fn items(&self) -> Option<RawItems<'de>>
        ensures { (t : Tree) → KeepsItem t self.now → Agrees ItemsToCome (array_trees t) result }
    {
        Some(RawItems(parts_of(self.as_bytes(), major::ARRAY)?))
    }

    /// The pairs of the map, to be taken one by one, equal keys too. None of any other kind of
    /// item, also of a tag on a map.
    pub fn pairs(&self) -> Option<RawPairs<'de>>
        ensures { (t : Tree) → KeepsItem t self.now → Agrees PairsToCome (map_pairs t) result }
    {
        Some(RawPairs(parts_of(self.as_bytes(), major::MAP)?))
    }

    /// The value of the first pair of the map whose key is this text. None where no key is, and of
    /// any other kind of item.
    ///
    /// A key is this text with a length, whatever the width of its head, or in chunks that are
    /// texts with a length and make it when they are joined (section 3.2.3). Where the bytes are an
    /// encoding, this is the encoding of what `Value::get` finds. Else a key whose chunks are of
    /// another kind, as `7f 80 ff`, or that is not UTF-8, is no text that can be asked for.
    pub fn get(&self, key: &str) -> Option<RawValue<'de>>
        ensures item { (t : Tree) → KeepsItem t self.now → Agrees KeepsItem
            (option_and_then (first_value (means_text key.now)) (map_pairs t)) result }
        ensures value { (v : Item) (steps : ℕ) → Encodes (raw_content self.now) v steps →
            Agrees (KeepsEncoding steps) (option_and_then (find_text key.now) (as_map v)) result }
    {
        find_by_text(self.pairs()?, key.as_bytes())
    }

    /// The value of the first pair of the map whose key is this integer, whatever the width of its
    /// head. None where no key is, and of any other kind of item.
    ///
    /// A bignum is a tag, and no such key. Where the bytes are an encoding, this is the encoding of
    /// what `Value::get_integer` finds.
    pub fn get_integer(&self, key: i128) -> Option<RawValue<'de>>
        ensures item { (t : Tree) → KeepsItem t self.now → Agrees KeepsItem
            (option_and_then (first_value (means_integer key)) (map_pairs t)) result }
        ensures value { (v : Item) (steps : ℕ) → Encodes (raw_content self.now) v steps →
            Agrees (KeepsEncoding steps)
            (option_and_then (find_value (integer key)) (as_map v)) result }
    {
        find_by_integer(self.pairs()?, key)
    }

    /// The item at this place of the array, the first at 0. None where it has no more items, and
    /// of any other kind of item.
    ///
    /// Where the bytes are an encoding, this is the encoding of the value at this place.
    pub fn at(&self, index: usize) -> Option<RawValue<'de>>
        ensures item { (t : Tree) → KeepsItem t self.now → Agrees KeepsItem
            (option_and_then (indexed_tree index) (array_trees t)) result }
        ensures value { (v : Item) (steps : ℕ) → Encodes (raw_content self.now) v steps →
            Agrees (KeepsEncoding steps)
            (option_and_then (indexed_value index) (as_array v)) result }
    {
        find_by_place(self.items()?, index)
    }
}

fn find_by_text<'de>(pairs: RawPairs<'de>, key: &[u8]) -> Option<RawValue<'de>>
    ensures { (ps : Pairs) → PairsToCome ps pairs.entry →
        Agrees KeepsItem (first_value (means_text key.now) ps) result }
{
    let mut rest = pairs;
    while let Some((name, value)) = rest.next() {
        if means_text(name.as_bytes(), key) {
            return Some(value);
        }
    }
    None
}

fn find_by_integer<'de>(pairs: RawPairs<'de>, key: i128) -> Option<RawValue<'de>>
    ensures { (ps : Pairs) → PairsToCome ps pairs.entry →
        Agrees KeepsItem (first_value (means_integer key) ps) result }
{
    let mut rest = pairs;
    while let Some((name, value)) = rest.next() {
        if means_integer(name.as_bytes(), key) {
            return Some(value);
        }
    }
    None
}

/// The first is at 0.
fn find_by_place<'de>(items: RawItems<'de>, index: usize) -> Option<RawValue<'de>>
    ensures { (ts : Trees) → ItemsToCome ts items.entry →
        Agrees KeepsItem (indexed_tree index ts) result }
{
    let mut rest = items;
    for _ in 0..index {
        rest.next()?;
    }
    rest.next()
}

/// An array or a map, by its major type.
fn parts_of<'de>(item: &'de [u8], major: u8) -> Option<Parts<'de>>
    ensures items { (t : Tree) → Loose t → item.now ≡ bytes t → major ≡ 4 →
        Agrees (λ ts parts. AreToCome parts (count ts) (bytes_all ts)) (array_trees t) result }
    ensures pairs { (t : Tree) → Loose t → item.now ≡ bytes t → major ≡ 5 →
        Agrees (λ ps parts. AreToCome parts (pair_count ps) (bytes_pairs ps)) (map_pairs t) result }
{
    let head = split_head(item)?;
    if head.major != major {
        return None;
    }
    Some(Parts {
        left: head.argument,
        rest: head.rest,
    })
}

/// How many parts are left after the next; none where no part follows.
#[inline(always)]
fn left_after(parts: &Parts<'_>) -> Option<Option<u64>>
    ensures { IsLeftAfter parts.now result }
{
    match parts.left {
        Some(0) => None,
        Some(left) => Some(Some(left - 1)),
        None if begins_with_break(parts.rest) => None,
        None => Some(None),
    }
}
