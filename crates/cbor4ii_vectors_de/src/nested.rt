//! Arrays in arrays.
use cbor4ii::Value;
use std::alloc::{AllocError, Global};

/// So many arrays of one item each, one in another, and an empty one inside.
pub fn nested(alloc: Global, depth: usize) -> Result<&'static [u8], AllocError> {
    let mut bytes = Vec::new(alloc);
    for _ in 0..depth {
        bytes.push(0x81)?;
    }
    bytes.push(0x80)?;
    Ok(bytes.leak())
}

/// What they are read as.
pub fn nested_value(alloc: Global, depth: usize) -> Result<Value, AllocError> {
    let mut value = Value::Array(Vec::new(alloc));
    for _ in 0..depth {
        value = Value::Array(vec![in alloc; value]?);
    }
    Ok(value)
}
