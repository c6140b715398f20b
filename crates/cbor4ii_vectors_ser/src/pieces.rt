//! Texts of letters, and the bytes that pieces of them are written as.
use std::alloc::Global;
use std::test::Fail;

/// What is written: each part some bytes and so many letters.
pub type Parts<'a> = &'a [(&'a [u8], usize)];

/// The bytes of the parts.
pub fn joined(alloc: Global, parts: Parts<'_>) -> Result<Vec<u8>, Fail> {
    let mut bytes = Vec::new(alloc);
    for (head, count) in parts {
        bytes.extend_from_slice(head)?;
        for _ in 0..*count {
            bytes.push(b'a')?;
        }
    }
    Ok(bytes)
}

/// So many letters.
pub fn letters(alloc: Global, count: usize) -> Result<String, Fail> {
    let mut text = String::new(alloc);
    for _ in 0..count {
        text.push_str("a")?;
    }
    Ok(text)
}
