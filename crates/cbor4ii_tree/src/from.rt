//! Values of what they hold.
ghost use Rattle.std.specs.Prelude.{◌≡◌, pos, string_bytes};
ghost use Rattle.cbor4ii_tree.specs.Basis.Item.{boolean, bytes_item, integer, text};
ghost use Rattle.cbor4ii_tree.specs.Basis.View.{view, float_view};

use crate::value::{FloatBits, Value};

impl From<bool> for Value {
    ghost from_gives = { λ flag value. view value ≡ boolean flag };

    fn from(flag: bool) -> Value {
        Value::Bool(flag)
    }
}

impl From<u8> for Value {
    ghost from_gives = { λ number value. view value ≡ integer (pos number) };

    fn from(number: u8) -> Value {
        Value::Integer(number as i128)
    }
}

impl From<u16> for Value {
    ghost from_gives = { λ number value. view value ≡ integer (pos number) };

    fn from(number: u16) -> Value {
        Value::Integer(number as i128)
    }
}

impl From<u32> for Value {
    ghost from_gives = { λ number value. view value ≡ integer (pos number) };

    fn from(number: u32) -> Value {
        Value::Integer(number as i128)
    }
}

impl From<u64> for Value {
    ghost from_gives = { λ number value. view value ≡ integer (pos number) };

    fn from(number: u64) -> Value {
        Value::Integer(number as i128)
    }
}

impl From<usize> for Value {
    ghost from_gives = { λ number value. view value ≡ integer (pos number) };

    fn from(number: usize) -> Value {
        Value::Integer(number as i128)
    }
}

impl From<i8> for Value {
    ghost from_gives = { λ number value. view value ≡ integer number };

    fn from(number: i8) -> Value {
        Value::Integer(number as i128)
    }
}

impl From<i16> for Value {
    ghost from_gives = { λ number value. view value ≡ integer number };

    fn from(number: i16) -> Value {
        Value::Integer(number as i128)
    }
}

impl From<i32> for Value {
    ghost from_gives = { λ number value. view value ≡ integer number };

    fn from(number: i32) -> Value {
        Value::Integer(number as i128)
    }
}

impl From<i64> for Value {
    ghost from_gives = { λ number value. view value ≡ integer number };

    fn from(number: i64) -> Value {
        Value::Integer(number as i128)
    }
}

impl From<isize> for Value {
    ghost from_gives = { λ number value. view value ≡ integer number };

    fn from(number: isize) -> Value {
        Value::Integer(number as i128)
    }
}

/// An integer. Outside -2^64 to 2^64 - 1 it is written as a bignum, and read back as a tag.
impl From<i128> for Value {
    ghost from_gives = { λ number value. view value ≡ integer number };

    fn from(number: i128) -> Value {
        Value::Integer(number)
    }
}

/// A float's bits, in its own width.
impl From<FloatBits> for Value {
    ghost from_gives = { λ bits value. view value ≡ float_view bits };

    fn from(bits: FloatBits) -> Value {
        Value::Float(bits)
    }
}

impl From<Vec<u8>> for Value {
    ghost from_gives = { λ content value. view value ≡ bytes_item content.items };

    fn from(content: Vec<u8>) -> Value {
        Value::Bytes(content)
    }
}

impl From<String> for Value {
    ghost from_gives = { λ content value. view value ≡ text (string_bytes content) };

    fn from(content: String) -> Value {
        Value::Text(content)
    }
}
