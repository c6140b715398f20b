//! That values of the program are in range, by a walk that reads each part.
ghost use Rattle.cbor4ii_tree.specs.Basis.Item.{IsItem, AreItems, AreItemPairs};
ghost use Rattle.cbor4ii_tree.specs.Basis.View.{view, items_view, pairs_view, float_view};

use crate::value::{FloatBits, Value};

#[cycle(range)]
pub(crate) fn in_range(value: &Value)
    ensures { IsItem (view value.now) }
{
    match value {
        Value::Null => {}
        Value::Bool(_) => {}
        Value::Integer(number) => {
            let _number = *number;
        }
        Value::Float(bits) => float_in_range(*bits),
        Value::Bytes(content) => {
            let _len = content.len();
        }
        Value::Text(content) => {
            let _text = content.as_str();
        }
        Value::Array(items) => items_in_range(items),
        Value::Map(pairs) => pairs_in_range(pairs),
        Value::Tag(number, inner) => {
            let _number = *number;
            in_range(inner);
        }
    }
}

fn float_in_range(bits: FloatBits)
    ensures { IsItem (float_view bits) }
{
    match bits {
        FloatBits::F16(_n) => {}
        FloatBits::F32(_n) => {}
        FloatBits::F64(_n) => {}
    }
}

#[cycle(range)]
fn items_in_range(items: &[Value])
    ensures { AreItems (items_view items.now) }
{
    for item in items {
        in_range(item);
    }
}

#[cycle(range)]
fn pairs_in_range(pairs: &[(Value, Value)])
    ensures { AreItemPairs (pairs_view pairs.now) }
{
    for pair in pairs {
        in_range(&pair.0);
        in_range(&pair.1);
    }
}
