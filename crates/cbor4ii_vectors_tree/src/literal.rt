//! Values as constants, for tables of rows.
use cbor4ii_tree::{FloatBits, Value};
use std::alloc::{AllocError, Global};

/// A value as a constant: its parts are borrowed where those of `Value` are owned.
pub enum Literal {
    Null,
    Bool(bool),
    Integer(i128),
    Float(FloatBits),
    Bytes(&'static [u8]),
    Text(&'static str),
    Array(&'static [Literal]),
    Map(&'static [(Literal, Literal)]),
    Tag(u64, &'static Literal),
}

impl Literal {
    /// The value itself.
    #[cycle(value)]
    pub fn to_value(&self, alloc: Global) -> Result<Value, AllocError> {
        Ok(match self {
            Literal::Null => Value::Null,
            Literal::Bool(flag) => Value::Bool(*flag),
            Literal::Integer(number) => Value::Integer(*number),
            Literal::Float(bits) => Value::Float(*bits),
            Literal::Bytes(bytes) => Value::Bytes(bytes.to_vec(alloc)?),
            Literal::Text(text) => Value::Text(String::from_str(alloc, text)?),
            Literal::Array(items) => Value::Array(to_items(items, alloc)?),
            Literal::Map(pairs) => Value::Map(to_pairs(pairs, alloc)?),
            Literal::Tag(number, item) => {
                Value::Tag(*number, Box::new(alloc, item.to_value(alloc)?)?)
            }
        })
    }
}

#[cycle(value)]
fn to_items(items: &[Literal], alloc: Global) -> Result<Vec<Value>, AllocError> {
    let mut values = Vec::new(alloc);
    for item in items {
        values.push(item.to_value(alloc)?)?;
    }
    Ok(values)
}

#[cycle(value)]
fn to_pairs(
    pairs: &[(Literal, Literal)],
    alloc: Global,
) -> Result<Vec<(Value, Value)>, AllocError> {
    let mut values = Vec::new(alloc);
    for pair in pairs {
        let key = pair.0.to_value(alloc)?;
        values.push((key, pair.1.to_value(alloc)?))?;
    }
    Ok(values)
}
