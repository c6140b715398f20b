//! Bytes of as many parts as a row wants.
use std::alloc::{AllocError, Global};

/// A part so many times, between a head and an end. The bytes stay for good.
pub fn repeated(
    alloc: Global,
    head: &[u8],
    part: &[u8],
    count: usize,
    end: &[u8],
) -> Result<&'static [u8], AllocError> {
    let mut bytes = head.to_vec(alloc)?;
    for _ in 0..count {
        bytes.extend_from_slice(part)?;
    }
    bytes.extend_from_slice(end)?;
    Ok(bytes.leak())
}
