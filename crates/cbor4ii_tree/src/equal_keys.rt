//! Equal keys of maps, found by a sort: at one level, and at every level.
ghost use Rattle.std.specs.Prelude.{◌≡◌, ◌↔◌, IsTrue, IfOk, OnErr, map};
ghost use Rattle.std.specs.List.Sorted.{IsSortedBy};
ghost use Rattle.cbor4ii_tree.specs.Calls.Access.{HasEqualKeys, HasMapWith, HasTwoPairs, IsMapWith};
ghost use Rattle.cbor4ii_tree.specs.Calls.Access.{MapHasEqualKeys, PairHasMapWith, SomeHasMapWith};
ghost use Rattle.cbor4ii_tree.specs.Calls.TotalOrder.{Repeats, is_before, key_of, item_behind};
ghost use Rattle.cbor4ii_tree.specs.Basis.View.{view, items_view, pairs_view};

use crate::total_order::total_cmp;
use crate::value::{NoMemory, Value};
use std::alloc::AllocError;

impl Value {
    /// Whether two pairs of the map have equal keys, as `has_equal_keys` answers it, for maps of
    /// many pairs: the keys are sorted, so that of n pairs these are about n log n comparisons,
    /// whatever the keys are. False of any other kind of value. Maps inside are not looked at.
    ///
    /// It takes memory for one reference to each key, and gives it back.
    ///
    /// # Errors
    ///
    /// `NoMemory`: that memory was refused. A map of fewer than two pairs takes none, and no other
    /// kind of value does.
    pub fn try_has_equal_keys(&self) -> Result<bool, NoMemory>
        ensures answer { IfOk result (λ found. IsTrue found ↔ MapHasEqualKeys (view self.now)) }
        ensures memory { OnErr result (IsMapWith HasTwoPairs (view self.now)) }
    {
        match self {
            Value::Map(pairs) => Ok(repeats_a_key(pairs)?),
            _ => Ok(false),
        }
    }

    /// Whether two pairs of one map have equal keys, in this value or in any inside it, at every
    /// level: in arrays, on tags, in the keys and in the values of maps.
    ///
    /// Each map is sorted as `try_has_equal_keys` does, and its memory is given back before the
    /// next map's is taken.
    ///
    /// # Errors
    ///
    /// `NoMemory`: the memory for the keys of one of the maps was refused. Where each map has fewer
    /// than two pairs none is taken.
    pub fn try_has_equal_keys_at_any_level(&self) -> Result<bool, NoMemory>
        ensures answer { IfOk result (λ found.
            IsTrue found ↔ HasMapWith HasEqualKeys (view self.now)) }
        ensures memory { OnErr result (HasMapWith HasTwoPairs (view self.now)) }
    {
        Ok(repeats_within(self)?)
    }
}

#[cycle(within)]
fn repeats_within(value: &Value) -> Result<bool, AllocError>
    ensures answer { IfOk result (λ found.
        IsTrue found ↔ HasMapWith HasEqualKeys (view value.now)) }
    ensures memory { OnErr result (HasMapWith HasTwoPairs (view value.now)) }
{
    match value {
        Value::Array(items) => repeats_in_items(items),
        Value::Map(pairs) => Ok(repeats_a_key(pairs)? || repeats_in_pairs(pairs)?),
        Value::Tag(_, inner) => repeats_within(inner),
        _ => Ok(false),
    }
}

#[cycle(within)]
fn repeats_in_items(items: &[Value]) -> Result<bool, AllocError>
    ensures answer { IfOk result (λ found.
        IsTrue found ↔ SomeHasMapWith HasEqualKeys (items_view items.now)) }
    ensures memory { OnErr result (SomeHasMapWith HasTwoPairs (items_view items.now)) }
{
    for item in items {
        if repeats_within(item)? {
            return Ok(true);
        }
    }
    Ok(false)
}

#[cycle(within)]
fn repeats_in_pairs(pairs: &[(Value, Value)]) -> Result<bool, AllocError>
    ensures answer { IfOk result (λ found.
        IsTrue found ↔ PairHasMapWith HasEqualKeys (pairs_view pairs.now)) }
    ensures memory { OnErr result (PairHasMapWith HasTwoPairs (pairs_view pairs.now)) }
{
    for pair in pairs {
        if repeats_within(&pair.0)? || repeats_within(&pair.1)? {
            return Ok(true);
        }
    }
    Ok(false)
}

fn repeats_a_key(pairs: &Vec<(Value, Value)>) -> Result<bool, AllocError>
    ensures answer { IfOk result (λ found.
        IsTrue found ↔ HasEqualKeys (pairs_view pairs.now.items)) }
    ensures memory { OnErr result (HasTwoPairs (pairs_view pairs.now.items)) }
{
    if pairs.len() < 2 {
        return Ok(false);
    }
    let mut keys = keys_of(pairs)?;
    keys.sort_unstable_by(|a, b| total_cmp(a, b));
    Ok(has_equal_neighbours(&keys))
}

fn keys_of(pairs: &Vec<(Value, Value)>) -> Result<Vec<&Value>, AllocError>
    ensures { IfOk result (λ keys. map item_behind keys.items ≡ map key_of pairs.now.items) }
{
    let mut keys = Vec::with_capacity(*pairs.allocator(), pairs.len())?;
    for pair in pairs {
        keys.push(&pair.0)?;
    }
    Ok(keys)
}

/// Asked of keys in order.
fn has_equal_neighbours(keys: &[&Value]) -> bool
    requires { IsSortedBy is_before keys.now }
    ensures { IsTrue result ↔ Repeats (map item_behind keys.now) }
{
    for i in 1..keys.len() {
        if *keys[i - 1] == *keys[i] {
            return true;
        }
    }
    false
}
