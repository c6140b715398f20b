//! Sorted encodings: the pairs of each map in the order of their keys' encodings, as the
//! deterministic encoding asks for (RFC 8949 section 4.2.1).
//!
//! Heads and lengths are those of the canonical encoding, which that section asks for too. Floats
//! keep their width, and the bytes of a tag stay as they are.
ghost use Rattle.std.specs.Prelude.{◌≡◌, ◌↔◌, ◌⊎◌, IsTrue, OnOk, OnErr, IfOk, IfErr};
ghost use Rattle.cbor4ii_tree.specs.Calls.Access.{HasMapWith, SomeHasMapWith, PairHasMapWith};
ghost use Rattle.cbor4ii_tree.specs.Basis.Canonical.{canonical_encoding};
ghost use Rattle.cbor4ii_tree.specs.Basis.Item.{Item};
ghost use Rattle.cbor4ii_tree.specs.Basis.View.{view, items_view, pairs_view};
ghost use Rattle.cbor4ii_examples.specs.Sorted.{sort_of, sorted_items, sorted_pairs, in_order};
ghost use Rattle.cbor4ii_examples.specs.Sorted.{EachMap, EachMapOfItems, EachMapOfPairs};
ghost use Rattle.cbor4ii_examples.specs.Sorted.{KeysInOrder, KeysAscend, HasManyPairs};
ghost use Rattle.cbor4ii_examples.specs.Sorted.{SameUpToOrder, SameItems, SamePairs, IsRefused};

use cbor4ii::enc::Encode;
use cbor4ii::utils::BufWriter;
use cbor4ii::{NoMemory, Value};
use std::alloc::{AllocError, Global};

/// Puts the pairs of each map in the value in the order of their keys' encodings, byte by byte: in
/// arrays, on tags, in keys and in values, from the inside out. Pairs with equal keys keep their
/// order.
///
/// A map stays in its memory. One of more than 20 pairs takes as much again while it is sorted,
/// and gives it back. The function calls itself once for each level, as reading the value did.
///
/// # Errors
///
/// `NoMemory`: that memory was refused. The value is then sorted in part.
pub fn sort(value: &mut Value) -> Result<(), NoMemory>
    ensures sorted { OnOk result (view value.new ≡ sort_of (view value.old)) }
    ensures order { OnOk result (EachMap KeysInOrder (view value.new)) }
    ensures same { SameUpToOrder (view value.old) (view value.new) }
    ensures memory { OnErr result (HasMapWith HasManyPairs (view value.old)) }
{
    Ok(sort_value(value)?)
}

#[cycle(sorting)]
fn sort_value(value: &mut Value) -> Result<(), AllocError>
    ensures sorted { OnOk result (view value.new ≡ sort_of (view value.old)) }
    ensures same { SameUpToOrder (view value.old) (view value.new) }
    ensures memory { OnErr result (HasMapWith HasManyPairs (view value.old)) }
{
    match value {
        Value::Array(items) => sort_items(items),
        Value::Map(pairs) => sort_map(pairs),
        Value::Tag(_, inner) => sort_value(inner),
        _ => Ok(()),
    }
}

#[cycle(sorting)]
fn sort_items(items: &mut [Value]) -> Result<(), AllocError>
    ensures sorted { OnOk result (items_view items.new ≡ sorted_items (items_view items.old)) }
    ensures same { SameItems (items_view items.old) (items_view items.new) }
    ensures memory { OnErr result (SomeHasMapWith HasManyPairs (items_view items.old)) }
{
    for i in 0..items.len() {
        sort_value(&mut items[i])?;
    }
    Ok(())
}

/// Sorts what stands in the pairs, and then the pairs by their keys.
#[cycle(sorting)]
fn sort_map(pairs: &mut Vec<(Value, Value)>) -> Result<(), AllocError>
    ensures sorted { OnOk result (pairs_view pairs.new.items
        ≡ in_order (sorted_pairs (pairs_view pairs.old.items))) }
    ensures same { SamePairs (pairs_view pairs.old.items) (pairs_view pairs.new.items) }
    ensures memory { OnErr result (HasManyPairs (pairs_view pairs.old.items)
        ⊎ PairHasMapWith HasManyPairs (pairs_view pairs.old.items)) }
{
    sort_pairs(pairs)?;
    pairs.sort_by(|a, b| a.0.cmp_encodings(&b.0))?;
    Ok(())
}

#[cycle(sorting)]
fn sort_pairs(pairs: &mut [(Value, Value)]) -> Result<(), AllocError>
    ensures sorted { OnOk result (pairs_view pairs.new
        ≡ sorted_pairs (pairs_view pairs.old)) }
    ensures same { SamePairs (pairs_view pairs.old) (pairs_view pairs.new) }
    ensures memory { OnErr result (PairHasMapWith HasManyPairs (pairs_view pairs.old)) }
{
    for i in 0..pairs.len() {
        sort_pair(&mut pairs[i])?;
    }
    Ok(())
}

#[cycle(sorting)]
fn sort_pair(pair: &mut (Value, Value)) -> Result<(), AllocError>
    ensures key { OnOk result (view pair.new.0 ≡ sort_of (view pair.old.0)) }
    ensures value { OnOk result (view pair.new.1 ≡ sort_of (view pair.old.1)) }
    ensures same_key { SameUpToOrder (view pair.old.0) (view pair.new.0) }
    ensures same_value { SameUpToOrder (view pair.old.1) (view pair.new.1) }
    ensures memory { OnErr result (HasMapWith HasManyPairs (view pair.old.0)
        ⊎ HasMapWith HasManyPairs (view pair.old.1)) }
{
    sort_value(&mut pair.0)?;
    sort_value(&mut pair.1)
}

/// Whether each map in the value is in order and has no equal keys: each key's encoding is below
/// the next one's, byte by byte.
#[cycle(checking)]
pub fn is_sorted(value: &Value) -> bool
    ensures { IsTrue result ↔ EachMap KeysAscend (view value.now) }
{
    match value {
        Value::Array(items) => are_sorted(items),
        Value::Map(pairs) => keys_ascend(pairs) && pairs_are_sorted(pairs),
        Value::Tag(_, inner) => is_sorted(inner),
        _ => true,
    }
}

#[cycle(checking)]
fn are_sorted(items: &[Value]) -> bool
    ensures { IsTrue result ↔ EachMapOfItems KeysAscend (items_view items.now) }
{
    for item in items {
        if !is_sorted(item) {
            return false;
        }
    }
    true
}

#[cycle(checking)]
fn pairs_are_sorted(pairs: &[(Value, Value)]) -> bool
    ensures { IsTrue result ↔ EachMapOfPairs KeysAscend (pairs_view pairs.now) }
{
    for pair in pairs {
        if !is_sorted(&pair.0) || !is_sorted(&pair.1) {
            return false;
        }
    }
    true
}

/// Whether each key is below the next one.
fn keys_ascend(pairs: &[(Value, Value)]) -> bool
    ensures { IsTrue result ↔ KeysAscend (pairs_view pairs.now) }
{
    pairs.is_sorted_by(|a, b| a.0.cmp_encodings(&b.0).is_lt())
}

/// Why a value has no sorted encoding.
#[derive(Clone, Copy, Debug, PartialEq, Eq)]
pub enum SortedError {
    /// A map has two keys with equal encodings, once they are sorted inside.
    EqualKeys,
    /// There is no memory for sorting, or for what is written.
    NoMemory,
}

/// Sorts the value, and writes it: the bytes that all who hold it write, in whatever order they
/// hold its pairs.
///
/// # Errors
///
/// - `EqualKeys`: a map in the value has equal keys. The value is sorted then
/// - `NoMemory`: memory was refused. The value may be sorted in part then
pub fn sorted_encoding(alloc: Global, value: &mut Value) -> Result<Vec<u8>, SortedError>
    ensures encodes { IfOk result (λ bytes.
        bytes.items ≡ canonical_encoding (sort_of (view value.old))) }
    ensures ascends { OnOk result (EachMap KeysAscend (sort_of (view value.old))) }
    ensures refuses { IfErr result (λ error. IsRefused error (view value.old)) }
    ensures same { SameUpToOrder (view value.old) (view value.new) }
{
    if sort(value).is_err() {
        return Err(SortedError::NoMemory);
    }
    if !is_sorted(value) {
        return Err(SortedError::EqualKeys);
    }
    let mut writer = BufWriter::new(Vec::new(alloc));
    match value.encode(&mut writer) {
        Ok(()) => Ok(writer.into_inner()),
        Err(_) => Err(SortedError::NoMemory),
    }
}

/// Values that are equal up to the order of pairs have one encoding when they are sorted, where no
/// two keys of a map are equal then. Sorting leaves a value in which each key is below the next.
pub fn sorted_encodings_are_equal()
    ensures one { (v w : Item) → SameUpToOrder v w → EachMap KeysAscend (sort_of v) →
        canonical_encoding (sort_of v) ≡ canonical_encoding (sort_of w) }
    ensures stays { (v : Item) → EachMap KeysAscend v → sort_of v ≡ v }
{}

/// To be equal up to the order of pairs is an equivalence.
pub fn same_up_to_order_is_an_equivalence()
    ensures itself { (v : Item) → SameUpToOrder v v }
    ensures back { (v w : Item) → SameUpToOrder v w → SameUpToOrder w v }
    ensures on { (v w x : Item) → SameUpToOrder v w → SameUpToOrder w x → SameUpToOrder v x }
{}

#[cfg(test)]
mod tests;
