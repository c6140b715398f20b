//! Values of the tree.
ghost use Rattle.std.specs.Prelude.{◌≡◌, IsTrue};
ghost use Rattle.cbor4ii_tree.specs.Basis.View.{view, items_view, pairs_view};
ghost use Rattle.cbor4ii_ser.specs.Serializing.{Serializes, output};
ghost use Rattle.cbor4ii_ser.specs.Values.{holds_tag, some_holds_tag, pairs_hold_tag};
ghost use Rattle.cbor4ii_ser.specs.Values.{value_encoding};

use crate::error::EncodeError;
use crate::serialize::Serialize;
use crate::serializer::Serializer;
use cbor4ii_rw::write::Write;
use cbor4ii_tree::value::Value;

/// The value's canonical encoding.
///
/// # Errors
///
/// Those of `Serialize::serialize`. `Custom` is "serialization Tag via serde is not supported": a
/// tag stands somewhere in the value. Nothing is written then.
impl Serialize for Value {
    ghost encoding = { λ v. value_encoding (view v) };

    fn serialize<W: Write>(&self, ser: &mut Serializer<W>) -> Result<(), EncodeError<W::Error>>
        ensures written { Serializes W.atomic (value_encoding (view self.now))
            (output W.view ser.old) (output W.view ser.new) result }
        ensures untouched { IsTrue (holds_tag (view self.now)) →
            output W.view ser.new ≡ output W.view ser.old }
    {
        if holds_tag(self) {
            return Err(EncodeError::Custom("serialization Tag via serde is not supported"));
        }
        ser.serialize_item(self)
    }
}

#[cycle(tags)]
fn holds_tag(value: &Value) -> bool
    ensures { result ≡ holds_tag (view value.now) }
{
    match value {
        Value::Array(items) => some_holds_tag(items),
        Value::Map(pairs) => pairs_hold_tag(pairs),
        Value::Tag(_, _) => true,
        _ => false,
    }
}

#[cycle(tags)]
fn some_holds_tag(items: &[Value]) -> bool
    ensures { result ≡ some_holds_tag (items_view items.now) }
{
    for item in items {
        if holds_tag(item) {
            return true;
        }
    }
    false
}

#[cycle(tags)]
fn pairs_hold_tag(pairs: &[(Value, Value)]) -> bool
    ensures { result ≡ pairs_hold_tag (pairs_view pairs.now) }
{
    for pair in pairs {
        if holds_tag(&pair.0) {
            return true;
        }
        if holds_tag(&pair.1) {
            return true;
        }
    }
    false
}
