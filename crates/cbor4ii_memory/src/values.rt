//! Rows of copies of whole items, of bignums that become tags, and of equal keys.
use crate::debug_text::has_debug_text;
use crate::tally::{Broken, Tally};
use cbor4ii_items::decode::Decode;
use cbor4ii_rw::error::DecodeError;
use cbor4ii_rw::slice_reader::SliceReader;
use cbor4ii_tree::{Canonical, NoMemory, Value};
use cbor4ii_vectors::table;

/// Copies, bignums and equal keys.
pub fn values(tally: &mut Tally) -> Result<(), Broken> {
    copies(tally)?;
    bignums(tally)?;
    equal_keys(tally)
}

/// The value of these bytes. None where memory is refused for it, which is counted.
pub fn value(tally: &mut Tally, bytes: &[u8]) -> Result<Option<Value>, Broken> {
    match Value::decode(tally.alloc(), &mut SliceReader::new(bytes)) {
        Ok(value) => Ok(Some(value)),
        Err(DecodeError::OutOfMemory) => {
            tally.refuse();
            Ok(None)
        }
        Err(_) => Err(Broken::new("Value", "it is rejected")),
    }
}

// Each kind of value that takes memory.
const COPIED: &[(&[u8], &str)] = table! {
    (b"\x82\x42\x01\x02\xc1\xf6", "Array([Bytes([1, 2]), Tag(1, Null)])"),
    (b"\xa1\x61a\x81\x20", "Map([(Text(\"a\"), Array([Integer(-1)]))])"),
};

// A copy is the same value, and what is copied stays as it was, also where memory is refused.
fn copies(tally: &mut Tally) -> Result<(), Broken> {
    for (bytes, text) in COPIED {
        if let Some(value) = value(tally, bytes)? {
            is_copied(tally, &value, text)?;
        }
    }
    Ok(())
}

fn is_copied(tally: &mut Tally, value: &Value, text: &str) -> Result<(), Broken> {
    let text = [(text, 1)];
    let copy = value.try_clone();
    if !has_debug_text(value, &text) {
        return Err(Broken::new("Value::try_clone", "what is copied is another value"));
    }
    match copy {
        Ok(copy) if has_debug_text(&copy, &text) => {}
        Ok(_) => return Err(Broken::new("Value::try_clone", "the copy is another value")),
        Err(NoMemory) => tally.refuse(),
    }
    Ok(())
}

// An array of 2^64, which becomes a tag on its bytes.
const TAGGED: &str = "Canonical(Array([Tag(2, Bytes([1, 0, 0, 0, 0, 0, 0, 0, 0]))]))";

// {1: "a", [-2]: h'01', 1("b"): 2.0}: no integer is beyond 64 bits.
const UNTAGGED: &[u8] = b"\xa3\x01\x61a\x81\x21\x41\x01\xc1\x61b\xf9\x40\x00";

// Integers beyond 64 bits become tags, or memory is refused for them. A value without takes none.
fn bignums(tally: &mut Tally) -> Result<(), Broken> {
    if let Some(value) = value(tally, UNTAGGED)? {
        if Canonical::try_from_value(tally.alloc(), value).is_err() {
            return Err(Broken::new("Canonical::try_from_value", "it takes memory for no tag"));
        }
    }
    let mut items = Vec::new(tally.alloc());
    if items.push(Value::Integer(18446744073709551616)).is_err() {
        tally.refuse();
        return Ok(());
    }
    match Canonical::try_from_value(tally.alloc(), Value::Array(items)) {
        Ok(canonical) if has_debug_text(&canonical, &[(TAGGED, 1)]) => {}
        Ok(_) => return Err(Broken::new("Canonical::try_from_value", "it is another value")),
        Err(NoMemory) => tally.refuse(),
    }
    Ok(())
}

// Maps by one level and by each: whether two of their keys are equal, in the map and within it.
const KEYS: &[(&[u8], bool, bool)] = table! {
    (b"\xa2\x01\xf6\x01\xf6", true, true),
    (b"\xa2\x01\xf6\x02\xf6", false, false),
    (b"\xa2\x01\x81\xa2\x61a\xf6\x61a\xf6\x02\xf6", false, true),
};

// Equal keys are found, or memory is refused for the references to them.
fn equal_keys(tally: &mut Tally) -> Result<(), Broken> {
    for (bytes, one, any) in KEYS {
        if let Some(value) = value(tally, bytes)? {
            let found = value.try_has_equal_keys();
            is_found(tally, "try_has_equal_keys", found, *one)?;
            let found = value.try_has_equal_keys_at_any_level();
            is_found(tally, "try_has_equal_keys_at_any_level", found, *any)?;
        }
    }
    if let Some(value) = value(tally, b"\xa1\x01\x81\xa1\x01\xf6")? {
        if value.try_has_equal_keys_at_any_level().is_err() {
            return Err(Broken::new("maps of one pair", "memory is taken for one key"));
        }
    }
    Ok(())
}

fn is_found(
    tally: &mut Tally,
    row: &'static str,
    found: Result<bool, NoMemory>,
    want: bool,
) -> Result<(), Broken> {
    match found {
        Ok(found) if found == want => {}
        Ok(_) => return Err(Broken::new(row, "it is the other answer")),
        Err(NoMemory) => tally.refuse(),
    }
    Ok(())
}
