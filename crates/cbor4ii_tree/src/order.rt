//! How the canonical encodings of values compare, byte by byte: by the initial bytes and the
//! arguments of their heads, and then by what follows equal heads.
ghost use Rattle.std.specs.Prelude.{◌≡◌, ◌<◌, length};
ghost use Rattle.std.specs.Ordering.{nat_cmp};
ghost use Rattle.std.specs.Cmp.Lexicographic.{slice_cmp};
ghost use Rattle.cbor4ii_items.specs.Head.{additional, shortest_width};
ghost use Rattle.cbor4ii_items.specs.Magnitude.{magnitude};
ghost use Rattle.cbor4ii_items.specs.Numbers.{definite_string};
ghost use Rattle.cbor4ii_items.specs.SequenceBytes.{items_bytes};
ghost use Rattle.cbor4ii_tree.specs.Basis.Canonical.{canonical_encoding};
ghost use Rattle.cbor4ii_tree.specs.Calls.Encoding.{value_bytes, value_pair_bytes};
ghost use Rattle.cbor4ii_tree.specs.Basis.Item.{integer};
ghost use Rattle.cbor4ii_tree.specs.Calls.Order.{Compares, shortest_parts, head_of, HasHead};
ghost use Rattle.cbor4ii_tree.specs.Calls.Order.{after_head, major_of, content_of, elements_of};
ghost use Rattle.cbor4ii_tree.specs.Calls.Order.{pairs_of};
ghost use Rattle.cbor4ii_tree.specs.Basis.View.{view, items_view, pairs_view, float_view};

use crate::bignum::bignum_parts;
use crate::value::{FloatBits, Value};
use cbor4ii_items::bignum::without_leading_zeros;
use cbor4ii_items::{major, marker};
use std::cmp::Ordering;

/// The argument of the simple value false (RFC 8949 section 3.3).
const FALSE: u64 = 20;
/// That of true.
const TRUE: u64 = 21;
/// That of null.
const NULL: u64 = 22;

impl Value {
    /// How the canonical encodings of two values compare, byte by byte. It is the order of a map's
    /// keys that RFC 8949 section 4.2.1 asks for. Nothing is written, and no memory is taken.
    ///
    /// `Equal` are those whose encodings are equal: also an integer beyond 64 bits and the tag that
    /// it is written as, which `==` tells apart.
    pub fn cmp_encodings(&self, other: &Value) -> Ordering
        ensures { result ≡ slice_cmp nat_cmp
            (canonical_encoding (view self.now)) (canonical_encoding (view other.now)) }
    {
        cmp_values(self, other)
    }
}

#[cycle(order)]
fn cmp_values(a: &Value, b: &Value) -> Ordering
    ensures { Compares result (value_bytes a.now) (value_bytes b.now) }
{
    match head_of(a).cmp(&head_of(b)) {
        Ordering::Equal => cmp_after_heads(a, b),
        unequal => unequal,
    }
}

/// How what follows equal heads compares.
#[cycle(order)]
fn cmp_after_heads(a: &Value, b: &Value) -> Ordering
    requires { head_of (view a.now) ≡ head_of (view b.now) }
    ensures { Compares result (after_head (view a.now)) (after_head (view b.now)) }
{
    match a {
        Value::Null | Value::Bool(_) | Value::Float(_) => Ordering::Equal,
        Value::Integer(number) => cmp_integer(*number, b),
        Value::Bytes(content) => cmp_bytes(content, content_of(b)),
        Value::Text(text) => cmp_bytes(text.as_bytes(), content_of(b)),
        Value::Array(items) => cmp_items(items, elements_of(b)),
        Value::Map(pairs) => cmp_pairs(pairs, pairs_of(b)),
        Value::Tag(_, inner) => cmp_tagged(inner, b),
    }
}

pub(crate) fn cmp_bytes(a: &[u8], b: &[u8]) -> Ordering
    requires { length a.now ≡ length b.now }
    ensures { Compares result a.now b.now }
{
    a.cmp(b)
}

#[cycle(order)]
fn cmp_items(a: &[Value], b: &[Value]) -> Ordering
    requires { length a.now ≡ length b.now }
    ensures { Compares result (items_bytes value_bytes a.now) (items_bytes value_bytes b.now) }
{
    for i in 0..a.len() {
        let order = cmp_values(&a[i], &b[i]);
        if order != Ordering::Equal {
            return order;
        }
    }
    Ordering::Equal
}

#[cycle(order)]
fn cmp_pairs(a: &[(Value, Value)], b: &[(Value, Value)]) -> Ordering
    requires { length a.now ≡ length b.now }
    ensures { Compares result (items_bytes value_pair_bytes a.now) (items_bytes value_pair_bytes
        b.now) }
{
    for i in 0..a.len() {
        let (x, y) = (&a[i], &b[i]);
        let keys = cmp_values(&x.0, &y.0);
        if keys != Ordering::Equal {
            return keys;
        }
        let values = cmp_values(&x.1, &y.1);
        if values != Ordering::Equal {
            return values;
        }
    }
    Ordering::Equal
}

/// `b` is a tag too.
#[cycle(order)]
fn cmp_tagged(inner: &Value, b: &Value) -> Ordering
    requires { major_of (view b.now) ≡ 6 }
    ensures { Compares result (value_bytes inner.now) (after_head (view b.now)) }
{
    match b {
        Value::Tag(_, other) => cmp_values(inner, other),
        Value::Integer(number) => cmp_with_bignum(inner, bignum_parts(*number).1),
        _ => Ordering::Equal,
    }
}

fn cmp_integer(number: i128, b: &Value) -> Ordering
    requires { head_of (integer number) ≡ head_of (view b.now) }
    ensures { Compares result (after_head (integer number)) (after_head (view b.now)) }
{
    let size = bignum_parts(number).1;
    if size <= u64::MAX as u128 {
        return Ordering::Equal;
    }
    match b {
        Value::Tag(_, other) => cmp_with_bignum(other, size).reverse(),
        Value::Integer(other) => cmp_bignums(size, bignum_parts(*other).1),
        _ => Ordering::Equal,
    }
}

fn cmp_with_bignum(value: &Value, size: u128) -> Ordering
    ensures { Compares result (value_bytes value.now) (definite_string 2 (magnitude size)) }
{
    let bytes = size.to_be_bytes();
    cmp_with_string(value, without_leading_zeros(&bytes))
}

fn cmp_bignums(a: u128, b: u128) -> Ordering
    ensures { Compares result (definite_string 2 (magnitude a)) (definite_string 2 (magnitude b)) }
{
    let (a, b) = (a.to_be_bytes(), b.to_be_bytes());
    cmp_strings(without_leading_zeros(&a), without_leading_zeros(&b))
}

fn cmp_with_string(value: &Value, content: &[u8]) -> Ordering
    ensures { Compares result (value_bytes value.now) (definite_string 2 content.now) }
{
    match head_of(value).cmp(&shortest_parts(major::BYTES, content.len() as u64)) {
        Ordering::Equal => cmp_bytes(content_of(value), content),
        unequal => unequal,
    }
}

fn cmp_strings(a: &[u8], b: &[u8]) -> Ordering
    ensures { Compares result (definite_string 2 a.now) (definite_string 2 b.now) }
{
    let head = shortest_parts(major::BYTES, a.len() as u64);
    match head.cmp(&shortest_parts(major::BYTES, b.len() as u64)) {
        Ordering::Equal => cmp_bytes(a, b),
        unequal => unequal,
    }
}

/// The initial byte and the argument of the head that a value's encoding begins with.
pub(crate) fn head_of(value: &Value) -> (u8, u64)
    ensures parts { result ≡ head_of (view value.now) }
    ensures short { HasHead (view value.now) }
{
    match value {
        Value::Null => shortest_parts(major::SIMPLE, NULL),
        Value::Bool(flag) => shortest_parts(major::SIMPLE, if *flag { TRUE } else { FALSE }),
        Value::Integer(number) => integer_parts(*number),
        Value::Float(bits) => float_parts(*bits),
        Value::Bytes(content) => shortest_parts(major::BYTES, content.len() as u64),
        Value::Text(text) => shortest_parts(major::STRING, text.len() as u64),
        Value::Array(items) => shortest_parts(major::ARRAY, items.len() as u64),
        Value::Map(pairs) => shortest_parts(major::MAP, pairs.len() as u64),
        Value::Tag(number, _) => shortest_parts(major::TAG, *number),
    }
}

/// It is a tag's, where the integer is a bignum.
fn integer_parts(number: i128) -> (u8, u64)
    ensures { result ≡ head_of (integer number) }
{
    let (tag, size) = bignum_parts(number);
    if size > u64::MAX as u128 {
        return shortest_parts(major::TAG, tag);
    }
    let major = if number < 0 {
        major::NEGATIVE
    } else {
        major::UNSIGNED
    };
    shortest_parts(major, size as u64)
}

fn float_parts(bits: FloatBits) -> (u8, u64)
    ensures parts { result ≡ head_of (float_view bits) }
    ensures short { HasHead (float_view bits) }
{
    match bits {
        FloatBits::F16(n) => (marker::F16, n as u64),
        FloatBits::F32(n) => (marker::F32, n as u64),
        FloatBits::F64(n) => (marker::F64, n),
    }
}

fn shortest_parts(major: u8, argument: u64) -> (u8, u64)
    requires { major < 8 }
    ensures { result ≡ shortest_parts major argument }
{
    (32 * major + additional(argument), argument)
}

/// The additional information of the shortest head with this argument (RFC 8949 section 3).
fn additional(argument: u64) -> u8
    ensures value { result ≡ additional (shortest_width argument) argument }
    ensures below { result < 28 }
{
    if argument < 24 {
        argument as u8
    } else if argument < 0x100 {
        24
    } else if argument < 0x1_0000 {
        25
    } else if argument < 0x1_0000_0000 {
        26
    } else {
        27
    }
}

/// The bytes of a string; none of any other kind of value.
pub(crate) fn content_of(value: &Value) -> &[u8]
    ensures { result.now ≡ content_of (view value.now) }
{
    match value {
        Value::Bytes(content) => content,
        Value::Text(text) => text.as_bytes(),
        _ => &[],
    }
}

/// The elements of an array; none of any other kind of value.
pub(crate) fn elements_of(value: &Value) -> &[Value]
    ensures { items_view result.now ≡ elements_of (view value.now) }
{
    match value {
        Value::Array(items) => items,
        _ => &[],
    }
}

/// The pairs of a map; none of any other kind of value.
pub(crate) fn pairs_of(value: &Value) -> &[(Value, Value)]
    ensures { pairs_view result.now ≡ pairs_of (view value.now) }
{
    match value {
        Value::Map(pairs) => pairs,
        _ => &[],
    }
}
