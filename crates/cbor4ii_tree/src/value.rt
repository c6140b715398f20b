//! Values: what an encoded data item means, as a plain enum.

ghost use Rattle.std.specs.Prelude.{◌≡◌, ◌↔◌, IfOk, IsTrue};
ghost use Rattle.std.specs.Cmp.{on_per, on_equiv, partial_equiv_from_equiv};
ghost use Rattle.cbor4ii_tree.specs.Calls.ItemEquality.{item_eq-equivalence};
ghost use Rattle.cbor4ii_tree.specs.Basis.View.{view, items_view, pairs_view};
ghost use Rattle.cbor4ii_tree.specs.Calls.ItemEquality.{same_view};

use std::alloc::AllocError;

/// The bits of a float, in its own width (RFC 8949 section 3.3). They are compared as bits with
/// their width, so `F16(0)` is not `F32(0)`, and a NaN equals itself.
#[derive(Clone, Copy, Debug, PartialEq, Eq, Hash)]
pub enum FloatBits {
    /// 16 bits, IEEE 754 half precision.
    F16(u16),
    /// 32 bits, single precision.
    F32(u32),
    /// 64 bits, double precision.
    F64(u64),
}

/// A value (RFC 8949 section 2). Two are equal where they have the same variant and equal parts:
/// floats by their bits and width, maps by their pairs in order.
#[derive(Debug, Drop)]
pub enum Value {
    /// `null`, and `undefined`, which is read as it.
    Null,
    /// `false` or `true`.
    Bool(bool),
    /// An integer. Outside -2^64 to 2^64 - 1 it is written as a bignum, and read back as a tag.
    Integer(i128),
    /// A float's bits.
    Float(FloatBits),
    /// A byte string.
    Bytes(Vec<u8>),
    /// A text.
    Text(String),
    /// An array.
    Array(Vec<Value>),
    /// A map: pairs in their order, equal keys kept.
    Map(Vec<(Value, Value)>),
    /// A tag's number, and what it is on.
    Tag(u64, Box<Value>),
}

/// A growth was refused.
#[derive(Clone, Copy, Debug, PartialEq, Eq)]
pub struct NoMemory;

impl From<AllocError> for NoMemory {
    fn from(_error: AllocError) -> NoMemory {
        NoMemory
    }
}

impl Value {
    /// A value that equals this one, in memory of its own.
    ///
    /// # Errors
    ///
    /// `NoMemory`: a growth was refused.
    pub fn try_clone(&self) -> Result<Value, NoMemory>
        ensures equal { IfOk result (λ copy. view copy ≡ view self.now) }
    {
        Ok(copy_value(self)?)
    }
}

/// Two values are equal where they stand for the same value: floats by their width and bits, and
/// maps by their pairs in order.
impl PartialEq for Value {
    ghost eq = { same_view };

    ghost laws = { on_per view (partial_equiv_from_equiv item_eq-equivalence) };

    fn eq(&self, other: &Value) -> bool
        ensures answer { result ≡ same_view self.now other.now }
        ensures trees { IsTrue result ↔ (view self.now ≡ view other.now) }
    {
        same_value(self, other)
    }
}

impl Eq for Value {
    ghost laws = { on_equiv view item_eq-equivalence };
}

#[cycle(copy)]
fn copy_value(value: &Value) -> Result<Value, AllocError>
    ensures { IfOk result (λ copy. view copy ≡ view value.now) }
{
    match value {
        Value::Null => Ok(Value::Null),
        Value::Bool(b) => Ok(Value::Bool(*b)),
        Value::Integer(n) => Ok(Value::Integer(*n)),
        Value::Float(bits) => Ok(Value::Float(*bits)),
        Value::Bytes(bytes) => Ok(Value::Bytes(Vec::from_slice(*bytes.allocator(), bytes)?)),
        Value::Text(text) => Ok(Value::Text(text.clone()?)),
        Value::Array(items) => Ok(Value::Array(copy_items(items)?)),
        Value::Map(pairs) => Ok(Value::Map(copy_pairs(pairs)?)),
        Value::Tag(number, inner) => {
            let copy = copy_value(inner)?;
            Ok(Value::Tag(*number, Box::new(*Box::allocator(inner), copy)?))
        }
    }
}

#[cycle(copy)]
fn copy_items(items: &Vec<Value>) -> Result<Vec<Value>, AllocError>
    ensures { IfOk result (λ copy. items_view copy.items ≡ items_view items.now.items) }
{
    let mut copies = Vec::with_capacity(*items.allocator(), items.len())?;
    for item in items {
        copies.push(copy_value(item)?)?;
    }
    Ok(copies)
}

#[cycle(copy)]
fn copy_pairs(pairs: &Vec<(Value, Value)>) -> Result<Vec<(Value, Value)>, AllocError>
    ensures { IfOk result (λ copy. pairs_view copy.items ≡ pairs_view pairs.now.items) }
{
    let mut copies = Vec::with_capacity(*pairs.allocator(), pairs.len())?;
    for pair in pairs {
        let key = copy_value(&pair.0)?;
        let value = copy_value(&pair.1)?;
        copies.push((key, value))?;
    }
    Ok(copies)
}

#[cycle(same)]
fn same_value(a: &Value, b: &Value) -> bool
    ensures { IsTrue result ↔ (view a.now ≡ view b.now) }
{
    match (a, b) {
        (Value::Null, Value::Null) => true,
        (Value::Bool(x), Value::Bool(y)) => *x == *y,
        (Value::Integer(x), Value::Integer(y)) => *x == *y,
        (Value::Float(x), Value::Float(y)) => *x == *y,
        (Value::Bytes(x), Value::Bytes(y)) => x == y,
        (Value::Text(x), Value::Text(y)) => x == y,
        (Value::Array(x), Value::Array(y)) => same_items(x, y),
        (Value::Map(x), Value::Map(y)) => same_pairs(x, y),
        (Value::Tag(n, x), Value::Tag(m, y)) => *n == *m && same_value(x, y),
        _ => false,
    }
}

#[cycle(same)]
fn same_items(a: &[Value], b: &[Value]) -> bool
    ensures { IsTrue result ↔ (items_view a.now ≡ items_view b.now) }
{
    if a.len() != b.len() {
        return false;
    }
    for i in 0..a.len() {
        if !same_value(&a[i], &b[i]) {
            return false;
        }
    }
    true
}

#[cycle(same)]
fn same_pairs(a: &[(Value, Value)], b: &[(Value, Value)]) -> bool
    ensures { IsTrue result ↔ (pairs_view a.now ≡ pairs_view b.now) }
{
    if a.len() != b.len() {
        return false;
    }
    for i in 0..a.len() {
        if !same_value(&a[i].0, &b[i].0) {
            return false;
        }
        if !same_value(&a[i].1, &b[i].1) {
            return false;
        }
    }
    true
}
