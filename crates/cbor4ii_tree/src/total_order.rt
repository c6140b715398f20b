//! An order of values in which equal ones alone tie: by their kinds, by how long they are, and then
//! by what stands in them.
ghost use Rattle.std.specs.Prelude.{◌≡◌, length};
ghost use Rattle.cbor4ii_items.specs.SequenceBytes.{items_bytes};
ghost use Rattle.cbor4ii_tree.specs.Calls.TotalOrder.{parts_of, inner_numbers, value_numbers};
ghost use Rattle.cbor4ii_tree.specs.Calls.TotalOrder.{pair_numbers};
ghost use Rattle.cbor4ii_tree.specs.Calls.Order.{Compares};
ghost use Rattle.cbor4ii_tree.specs.Basis.View.{view, float_view};

use crate::bignum::bignum_parts;
use crate::order::{cmp_bytes, content_of, elements_of, pairs_of};
use crate::value::{FloatBits, Value};
use std::cmp::Ordering;

/// How two values compare in that order. Nothing is written, and no memory is taken.
#[cycle(total)]
pub(crate) fn total_cmp(a: &Value, b: &Value) -> Ordering
    ensures { Compares result (value_numbers a.now) (value_numbers b.now) }
{
    match parts_of(a).cmp(&parts_of(b)) {
        Ordering::Equal => cmp_inside(a, b),
        unequal => unequal,
    }
}

#[cycle(total)]
fn cmp_inside(a: &Value, b: &Value) -> Ordering
    requires { parts_of (view a.now) ≡ parts_of (view b.now) }
    ensures { Compares result (inner_numbers (view a.now)) (inner_numbers (view b.now)) }
{
    match a {
        Value::Null | Value::Bool(_) | Value::Integer(_) | Value::Float(_) => Ordering::Equal,
        Value::Bytes(content) => cmp_bytes(content, content_of(b)),
        Value::Text(text) => cmp_bytes(text.as_bytes(), content_of(b)),
        Value::Array(items) => cmp_items(items, elements_of(b)),
        Value::Map(pairs) => cmp_pairs(pairs, pairs_of(b)),
        Value::Tag(_, inner) => match b {
            Value::Tag(_, other) => total_cmp(inner, other),
            _ => Ordering::Equal,
        },
    }
}

#[cycle(total)]
fn cmp_items(a: &[Value], b: &[Value]) -> Ordering
    requires { length a.now ≡ length b.now }
    ensures { Compares result
        (items_bytes value_numbers a.now) (items_bytes value_numbers b.now) }
{
    for i in 0..a.len() {
        let order = total_cmp(&a[i], &b[i]);
        if order != Ordering::Equal {
            return order;
        }
    }
    Ordering::Equal
}

#[cycle(total)]
fn cmp_pairs(a: &[(Value, Value)], b: &[(Value, Value)]) -> Ordering
    requires { length a.now ≡ length b.now }
    ensures { Compares result
        (items_bytes pair_numbers a.now) (items_bytes pair_numbers b.now) }
{
    for i in 0..a.len() {
        let (x, y) = (&a[i], &b[i]);
        let keys = total_cmp(&x.0, &y.0);
        if keys != Ordering::Equal {
            return keys;
        }
        let values = total_cmp(&x.1, &y.1);
        if values != Ordering::Equal {
            return values;
        }
    }
    Ordering::Equal
}

/// The number of a value's kind, and the number that it is, its length, its count or its tag.
fn parts_of(value: &Value) -> (u8, u128)
    ensures { result ≡ parts_of (view value.now) }
{
    match value {
        Value::Null => (0, 0),
        Value::Bool(flag) => (1, *flag as u128),
        Value::Integer(number) => {
            let (tag, size) = bignum_parts(*number);
            (tag as u8, size)
        }
        Value::Float(bits) => float_parts(*bits),
        Value::Bytes(content) => (7, content.len() as u128),
        Value::Text(text) => (8, text.len() as u128),
        Value::Array(items) => (9, items.len() as u128),
        Value::Map(pairs) => (10, pairs.len() as u128),
        Value::Tag(number, _) => (11, *number as u128),
    }
}

/// The number of a float's kind, which is its width, and its bits.
fn float_parts(bits: FloatBits) -> (u8, u128)
    ensures { result ≡ parts_of (float_view bits) }
{
    match bits {
        FloatBits::F16(n) => (4, n as u128),
        FloatBits::F32(n) => (5, n as u128),
        FloatBits::F64(n) => (6, n as u128),
    }
}
