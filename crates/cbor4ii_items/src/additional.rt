//! The additional information of a head's first byte, from 24 on: in how many bytes the argument
//! follows (RFC 8949 section 3).
ghost use Rattle.std.specs.Prelude.{◌≡◌};
ghost use Rattle.cbor4ii_items.specs.ReadHead.{argument_size, allowed_info};

/// In how many bytes the argument follows, where this is 24 to 27.
#[inline(always)]
pub(crate) fn following(info: u8) -> u8
    ensures { result ≡ argument_size info }
{
    match info {
        24 => 1,
        25 => 2,
        26 => 4,
        _ => 8,
    }
}

/// Whether an argument follows, in at most so many bytes.
#[inline(always)]
pub(crate) fn allowed(width: u8, info: u8) -> bool
    ensures { result ≡ allowed_info width info }
{
    info < 28 && following(info) <= width
}
