//! Which head an integer has (RFC 8949 section 3.1).
ghost use Rattle.std.specs.Prelude.{◌≡◌, ◌≢◌, ◌<◌, ◌≤◌, ◌^◌, ◌⊎◌, ℕ, pos, negsuc};
ghost use Rattle.std.specs.Prelude.{IfSome, None};
ghost use Rattle.cbor4ii_items.specs.Numbers.{shortest_head, integer_bytes, signed_bytes};

use crate::bignum::{NEGATIVE_BIGNUM, POSITIVE_BIGNUM};
use crate::major;
use crate::push::{beyond, nonnegative};

/// The major type and the argument of an integer's head. None where it has no head, and is written
/// as a bignum (section 3.4.3).
#[inline(always)]
pub fn integer_head(value: i128) -> Option<(u8, u64)>
    ensures major { IfSome result (λ head. head.0 < 8) }
    ensures bytes { IfSome result (λ head. shortest_head head.0 head.1 ≡ signed_bytes value) }
    ensures none { result ≡ None → (n : ℕ) → n < 2 ^ 64 → (value ≢ pos n) × (value ≢ negsuc n) }
{
    let (major, tag, number) = integer_parts(value);
    match head_argument(major, tag, number) {
        Some(argument) => Some((major, argument)),
        None => None,
    }
}

#[inline(always)]
fn head_argument(major: u8, tag: u8, number: u128) -> Option<u64>
    ensures some { IfSome result (λ argument.
        shortest_head major argument ≡ integer_bytes major tag number) }
    ensures none { result ≡ None → 2 ^ 64 ≤ number }
{
    match u64::try_from(number) {
        Ok(argument) => Some(argument),
        Err(_) => None,
    }
}

/// The major type of an integer, the tag of its bignum, and the number from 0 on that stands for
/// it.
#[inline(always)]
fn integer_parts(value: i128) -> (u8, u8, u128)
    ensures major { result.0 < 8 }
    ensures bytes { integer_bytes result.0 result.1 result.2 ≡ signed_bytes value }
    ensures number { (value ≡ pos result.2) ⊎ (value ≡ negsuc result.2) }
{
    if value >= 0 {
        (major::UNSIGNED, POSITIVE_BIGNUM, nonnegative(value))
    } else {
        (major::NEGATIVE, NEGATIVE_BIGNUM, beyond(value))
    }
}
