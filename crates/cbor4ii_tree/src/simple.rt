//! Simple values and floats, which `Value` and `Canonical` read alike (RFC 8949 section 3.3).
ghost use Rattle.std.specs.Prelude.{◌+◌, ◌≤◌, Bool, OnOk, IfOk};
ghost use Rattle.cbor4ii_tree.specs.Calls.Asking.{Never, WantsOnly};
ghost use Rattle.cbor4ii_tree.specs.Inner.Does.{DoesUnder};
ghost use Rattle.cbor4ii_tree.specs.Basis.Item.{IsItem};
ghost use Rattle.cbor4ii_tree.specs.Inner.Valuing.{ReadsUnder, RejectsFirst, SimpleOf, IsNoSimple};
ghost use Rattle.cbor4ii_tree.specs.Basis.View.{view};

use crate::value::{FloatBits, Value};
use cbor4ii_items::decode::Decode;
use cbor4ii_items::marker;
use cbor4ii_items::types::{F16, F32, F64};
use cbor4ii_rw::error::DecodeError;
use cbor4ii_rw::read::Source;
use std::alloc::Global;

#[inline(always)]
pub(crate) fn simple_of(first: u8) -> Option<Value>
    ensures { SimpleOf first result }
{
    match first {
        marker::FALSE => Some(Value::Bool(false)),
        marker::TRUE => Some(Value::Bool(true)),
        marker::NULL => Some(Value::Null),
        marker::UNDEFINED => Some(Value::Null),
        _ => None,
    }
}

/// Each width is encoded in one way, so a float is read alike where encodings are free and where
/// they are canonical.
pub(crate) fn read_float<S: Source>(
    alloc: Global,
    reader: &mut S,
    first: u8,
) -> Result<Value, DecodeError<S::Error>>
    requires major { 224 ≤ first }
    requires other { IsNoSimple first }
    ensures does { (canonical : Bool) → DoesUnder (ReadsUnder canonical)
        (RejectsFirst canonical first)
        (S.view reader.old) (S.view reader.new) result }
    ensures memory { WantsOnly Never (S.view reader.old) (S.view reader.new) result }
    ensures item { IfOk result (λ v. IsItem (view v)) }
    ensures progress { OnOk result ((S.view reader.new).bound + 1 ≤ (S.view reader.old).bound) }
{
    match first {
        marker::F16 => Ok(Value::Float(FloatBits::F16(F16::decode(alloc, reader)?.0))),
        marker::F32 => Ok(Value::Float(FloatBits::F32(F32::decode(alloc, reader)?.0))),
        marker::F64 => Ok(Value::Float(FloatBits::F64(F64::decode(alloc, reader)?.0))),
        _ => Err(DecodeError::Unsupported {
            name: "value",
            found: first,
        }),
    }
}
