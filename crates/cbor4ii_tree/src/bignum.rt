//! Integers beyond 64 bits as the tags that they are written as (RFC 8949 section 3.4.3).
ghost use Rattle.std.specs.Prelude.{◌≡◌, ◌≢◌, ◌⊎◌, OnOk, OnErr, IfOk, pos, negsuc};
ghost use Rattle.cbor4ii_items.specs.Magnitude.{magnitude};
ghost use Rattle.cbor4ii_tree.specs.Basis.Canonical.{with_bignums, with_bignums_all};
ghost use Rattle.cbor4ii_tree.specs.Basis.Canonical.{with_bignums_pairs};
ghost use Rattle.cbor4ii_tree.specs.Basis.Item.{bytes_item, integer, tag};
ghost use Rattle.cbor4ii_tree.specs.Basis.View.{view, items_view, pairs_view};

use crate::value::Value;
use cbor4ii_items::bignum::{NEGATIVE_BIGNUM, POSITIVE_BIGNUM, without_leading_zeros};
use std::alloc::{AllocError, Global};

/// Turns each integer that has no head into the tag that it is written as, at any depth. Only these
/// take memory.
#[cycle(bignums)]
pub(crate) fn tag_bignums(alloc: Global, value: &mut Value) -> Result<(), AllocError>
    ensures tagged { OnOk result (view value.new ≡ with_bignums (view value.old)) }
    ensures memory { OnErr result (with_bignums (view value.old) ≢ view value.old) }
{
    match value {
        Value::Integer(number) => {
            let tagged = tagged_integer(alloc, *number)?;
            *value = tagged;
            Ok(())
        }
        Value::Array(items) => tag_items(alloc, items),
        Value::Map(pairs) => tag_pairs(alloc, pairs),
        Value::Tag(_, inner) => tag_bignums(alloc, inner),
        _ => Ok(()),
    }
}

#[cycle(bignums)]
fn tag_items(alloc: Global, items: &mut [Value]) -> Result<(), AllocError>
    ensures tagged { OnOk result (items_view items.new
        ≡ with_bignums_all (items_view items.old)) }
    ensures memory { OnErr result (with_bignums_all (items_view items.old)
        ≢ items_view items.old) }
{
    for i in 0..items.len() {
        tag_bignums(alloc, &mut items[i])?;
    }
    Ok(())
}

#[cycle(bignums)]
fn tag_pairs(alloc: Global, pairs: &mut [(Value, Value)]) -> Result<(), AllocError>
    ensures tagged { OnOk result (pairs_view pairs.new
        ≡ with_bignums_pairs (pairs_view pairs.old)) }
    ensures memory { OnErr result (with_bignums_pairs (pairs_view pairs.old)
        ≢ pairs_view pairs.old) }
{
    for i in 0..pairs.len() {
        tag_pair(alloc, &mut pairs[i])?;
    }
    Ok(())
}

#[cycle(bignums)]
fn tag_pair(alloc: Global, pair: &mut (Value, Value)) -> Result<(), AllocError>
    ensures key { OnOk result (view pair.new.0 ≡ with_bignums (view pair.old.0)) }
    ensures value { OnOk result (view pair.new.1 ≡ with_bignums (view pair.old.1)) }
    ensures memory { OnErr result ((with_bignums (view pair.old.0) ≢ view pair.old.0)
        ⊎ (with_bignums (view pair.old.1) ≢ view pair.old.1)) }
{
    tag_bignums(alloc, &mut pair.0)?;
    tag_bignums(alloc, &mut pair.1)
}

fn tagged_integer(alloc: Global, number: i128) -> Result<Value, AllocError>
    ensures tagged { IfOk result (λ value. view value ≡ with_bignums (integer number)) }
    ensures memory { OnErr result (with_bignums (integer number) ≢ integer number) }
{
    let (tag, magnitude) = bignum_parts(number);
    if magnitude <= u64::MAX as u128 {
        return Ok(Value::Integer(number));
    }
    bignum(alloc, tag, magnitude)
}

/// The tag of an integer's bignum, and the number of its bytes.
pub(crate) fn bignum_parts(number: i128) -> (u64, u128)
    ensures { ((number ≡ pos result.1) × (result.0 ≡ 2))
        ⊎ ((number ≡ negsuc result.1) × (result.0 ≡ 3)) }
{
    if number >= 0 {
        (POSITIVE_BIGNUM as u64, number as u128)
    } else {
        (NEGATIVE_BIGNUM as u64, (-1 - number) as u128)
    }
}

fn bignum(alloc: Global, number: u64, size: u128) -> Result<Value, AllocError>
    ensures { IfOk result (λ value. view value ≡ tag number (bytes_item (magnitude size))) }
{
    let bytes = size.to_be_bytes();
    let content = Vec::from_slice(alloc, without_leading_zeros(&bytes))?;
    Ok(Value::Tag(number, Box::new(alloc, Value::Bytes(content))?))
}
