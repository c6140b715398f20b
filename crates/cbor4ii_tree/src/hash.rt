//! Values, hashed.
ghost use Rattle.std.specs.Prelude.{◌≡◌, fold};
ghost use Rattle.cbor4ii_tree.specs.Calls.Hashing.{hash_writes, inner_writes, items_writes};
ghost use Rattle.cbor4ii_tree.specs.Calls.Hashing.{pairs_writes};
ghost use Rattle.cbor4ii_tree.specs.Basis.View.{view, items_view, pairs_view};

use crate::order::head_of;
use crate::value::Value;
use std::hash::{Hash, Hasher};

/// Equal values hash equally: the head of a value's encoding, and then what stands in it.
impl Hash for Value {
    ghost use Rattle.cbor4ii_tree.specs.Calls.ItemEquality.{item_same};
    ghost use Rattle.std.proofs.Common.{ap};

    ghost hash_input = { λ v. hash_writes (view v) };

    ghost respects_eq = { λ x y same. ap hash_writes (item_same (view x) (view y) same) };

    fn hash<H: Hasher>(&self, state: &mut H) {
        hash_value(self, state);
    }
}

#[cycle(hash)]
fn hash_value<H: Hasher>(value: &Value, state: &mut H)
    ensures { state.new ≡ fold H.write state.old (hash_writes (view value.now)) }
{
    let (first, argument) = head_of(value);
    state.write_u8(first);
    state.write_u64(argument);
    hash_inside(value, state);
}

/// A string's bytes, an integer, or the parts.
#[cycle(hash)]
fn hash_inside<H: Hasher>(value: &Value, state: &mut H)
    ensures { state.new ≡ fold H.write state.old (inner_writes (view value.now)) }
{
    match value {
        Value::Null | Value::Bool(_) | Value::Float(_) => {}
        Value::Integer(number) => state.write_i128(*number),
        Value::Bytes(content) => state.write(content),
        Value::Text(text) => state.write(text.as_bytes()),
        Value::Array(items) => hash_items(items, state),
        Value::Map(pairs) => hash_pairs(pairs, state),
        Value::Tag(_, inner) => hash_value(inner, state),
    }
}

#[cycle(hash)]
fn hash_items<H: Hasher>(items: &[Value], state: &mut H)
    ensures { state.new ≡ fold H.write state.old (items_writes (items_view items.now)) }
{
    for item in items {
        hash_value(item, state);
    }
}

#[cycle(hash)]
fn hash_pairs<H: Hasher>(pairs: &[(Value, Value)], state: &mut H)
    ensures { state.new ≡ fold H.write state.old (pairs_writes (pairs_view pairs.now)) }
{
    for pair in pairs {
        hash_value(&pair.0, state);
        hash_value(&pair.1, state);
    }
}
