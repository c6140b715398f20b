//! Bignums: the numbers that no head has room for, as they are written (RFC 8949 section 3.4.3).
ghost use Rattle.std.specs.Prelude.{◌≡◌};
ghost use Rattle.cbor4ii_items.specs.Magnitude.{without_leading_zeros};

/// The tag of a bignum from 0 on.
pub const POSITIVE_BIGNUM: u8 = 2;
/// The tag of a negative bignum: -1 - n for the number n of its bytes.
pub const NEGATIVE_BIGNUM: u8 = 3;

/// The bytes from the first that is not zero on.
pub fn without_leading_zeros(bytes: &[u8]) -> &[u8]
    ensures { result.now ≡ without_leading_zeros bytes.now }
{
    let mut rest = bytes;
    while let [0, tail @ ..] = rest {
        rest = tail;
    }
    rest
}
