//! What stands in a value.
ghost use Rattle.std.specs.Prelude.{◌≡◌, ◌↔◌, IsTrue, option_map, option_and_then};
ghost use Rattle.cbor4ii_tree.specs.Basis.Item.{null, text, integer};
ghost use Rattle.cbor4ii_tree.specs.Basis.View.{view, items_view, pairs_view, float_view};
ghost use Rattle.cbor4ii_tree.specs.Calls.Access.{as_bool, as_integer, as_float, as_bytes, as_text};
ghost use Rattle.cbor4ii_tree.specs.Calls.Access.{as_array, as_map, as_tag, find_text, find_value};
ghost use Rattle.cbor4ii_tree.specs.Calls.Access.{HasEqualKeys, HasKey, MapHasEqualKeys};

use crate::value::{FloatBits, Value};

impl Value {
    /// Whether this is null. `undefined` is read as null.
    pub fn is_null(&self) -> bool
        ensures { IsTrue result ↔ (view self.now ≡ null) }
    {
        matches!(self, Value::Null)
    }

    /// The truth value; none of any other kind of value.
    pub fn as_bool(&self) -> Option<bool>
        ensures { result ≡ as_bool (view self.now) }
    {
        match self {
            Value::Bool(flag) => Some(*flag),
            _ => None,
        }
    }

    /// The integer; none of any other kind of value. A bignum that was read is a tag.
    pub fn as_integer(&self) -> Option<i128>
        ensures { result ≡ as_integer (view self.now) }
    {
        match self {
            Value::Integer(number) => Some(*number),
            _ => None,
        }
    }

    /// The float's bits, in its own width; none of any other kind of value.
    pub fn as_float(&self) -> Option<FloatBits>
        ensures { option_map float_view result ≡ as_float (view self.now) }
    {
        match self {
            Value::Float(bits) => Some(*bits),
            _ => None,
        }
    }

    /// The content of the byte string; none of any other kind of value.
    pub fn as_bytes(&self) -> Option<&[u8]>
        ensures { option_map (λ content. content.now) result ≡ as_bytes (view self.now) }
    {
        match self {
            Value::Bytes(content) => Some(content),
            _ => None,
        }
    }

    /// The text; none of any other kind of value.
    pub fn as_text(&self) -> Option<&str>
        ensures { option_map (λ content. content.now) result ≡ as_text (view self.now) }
    {
        match self {
            Value::Text(content) => Some(content.as_str()),
            _ => None,
        }
    }

    /// The elements of the array; none of any other kind of value.
    pub fn as_array(&self) -> Option<&[Value]>
        ensures { option_map (λ items. items_view items.now) result ≡ as_array (view self.now) }
    {
        match self {
            Value::Array(items) => Some(items),
            _ => None,
        }
    }

    /// The pairs of the map, in their order; none of any other kind of value.
    pub fn as_map(&self) -> Option<&[(Value, Value)]>
        ensures { option_map (λ pairs. pairs_view pairs.now) result
            ≡ as_map (view self.now) }
    {
        match self {
            Value::Map(pairs) => Some(pairs),
            _ => None,
        }
    }

    /// The tag's number, and what it is on; none of any other kind of value.
    pub fn as_tag(&self) -> Option<(u64, &Value)>
        ensures { option_map (λ tagged. (tagged.0, view tagged.1.now)) result
            ≡ as_tag (view self.now) }
    {
        match self {
            Value::Tag(number, inner) => Some((*number, inner)),
            _ => None,
        }
    }

    /// The value of the first pair of the map whose key is this text. None where no key is, and of
    /// any other kind of value.
    pub fn get(&self, key: &str) -> Option<&Value>
        ensures { option_map (λ value. view value.now) result
            ≡ option_and_then (find_text key.now) (as_map (view self.now)) }
    {
        match self {
            Value::Map(pairs) => find(pairs, key),
            _ => None,
        }
    }

    /// The value of the first pair of the map whose key is this integer. None where no key is, and
    /// of any other kind of value. A bignum that was read is a tag, and no such key.
    pub fn get_integer(&self, key: i128) -> Option<&Value>
        ensures { option_map (λ value. view value.now) result
            ≡ option_and_then (find_value (integer key)) (as_map (view self.now)) }
    {
        self.get_value(&Value::Integer(key))
    }

    /// The value of the first pair of the map that has this key, compared as `==` does. None where
    /// no pair has it, and of any other kind of value.
    pub fn get_value(&self, key: &Value) -> Option<&Value>
        ensures { option_map (λ value. view value.now) result
            ≡ option_and_then (find_value (view key.now)) (as_map (view self.now)) }
    {
        match self {
            Value::Map(pairs) => find_value(pairs, key),
            _ => None,
        }
    }

    /// Whether two pairs of the map have equal keys, which RFC 8949 section 5.6 does not allow.
    /// False of any other kind of value. Maps inside are not looked at.
    ///
    /// Each key is compared with all that follow it, and no memory is taken. Of n pairs these are
    /// n(n-1)/2 comparisons at most, which is slow of many: `try_has_equal_keys` sorts the keys.
    pub fn has_equal_keys(&self) -> bool
        ensures { IsTrue result ↔ MapHasEqualKeys (view self.now) }
    {
        match self {
            Value::Map(pairs) => repeats_key(pairs),
            _ => false,
        }
    }
}

fn find<'a>(pairs: &'a [(Value, Value)], key: &str) -> Option<&'a Value>
    ensures { option_map (λ value. view value.now) result
        ≡ find_text key.now (pairs_view pairs.now) }
{
    for pair in pairs {
        if is_text(&pair.0, key) {
            return Some(&pair.1);
        }
    }
    None
}

fn is_text(value: &Value, content: &str) -> bool
    ensures { IsTrue result ↔ (view value.now ≡ text content.now) }
{
    match value {
        Value::Text(found) => found.as_str() == content,
        _ => false,
    }
}

fn find_value<'a>(pairs: &'a [(Value, Value)], key: &Value) -> Option<&'a Value>
    ensures { option_map (λ value. view value.now) result
        ≡ find_value (view key.now) (pairs_view pairs.now) }
{
    for found in pairs {
        if found.0 == *key {
            return Some(&found.1);
        }
    }
    None
}

fn repeats_key(pairs: &[(Value, Value)]) -> bool
    ensures { IsTrue result ↔ HasEqualKeys (pairs_view pairs.now) }
{
    for i in 0..pairs.len() {
        if has_key(&pairs[i + 1..], &pairs[i].0) {
            return true;
        }
    }
    false
}

fn has_key(pairs: &[(Value, Value)], key: &Value) -> bool
    ensures { IsTrue result ↔ HasKey (view key.now) (pairs_view pairs.now) }
{
    for pair in pairs {
        if pair.0 == *key {
            return true;
        }
    }
    false
}
