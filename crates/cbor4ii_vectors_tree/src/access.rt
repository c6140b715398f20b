//! Values looked into.
use crate::encode_value::{BELOW_64, TWO_TO_64};
use crate::literal::Literal::{self, Array, Bool, Bytes, Float, Integer, Map, Null, Tag, Text};
use cbor4ii_tree::FloatBits::{F16, F32, F64};
use cbor4ii_tree::Value;
use cbor4ii_vectors::table;
use std::alloc::Global;
use std::test::Fail;

/// A call that looks into a value, the value, and the `Debug` text of the answer.
const LOOKED_INTO: &[(&str, Literal, &str)] = table! {
    ("is_null", Null, "true"),
    ("is_null", Bool(false), "false"),
    ("is_null", Integer(0), "false"),
    ("is_null", Text(""), "false"),
    ("is_null", Array(&[]), "false"),
    ("is_null", Array(&[Null]), "false"),
    ("is_null", Tag(0, &Null), "false"),
    ("as_bool", Bool(false), "Some(false)"),
    ("as_bool", Bool(true), "Some(true)"),
    ("as_bool", Null, "None"),
    ("as_bool", Integer(1), "None"),
    ("as_bool", Text("true"), "None"),
    ("as_bool", Array(&[Bool(true)]), "None"),
    ("as_bool", Tag(1, &Bool(true)), "None"),
    ("as_integer", Integer(0), "Some(0)"),
    ("as_integer", Integer(1000000000000), "Some(1000000000000)"),
    ("as_integer", Integer(-1), "Some(-1)"),
    ("as_integer", Integer(-18446744073709551616), "Some(-18446744073709551616)"),
    ("as_integer", Integer(i128::MAX), "Some(170141183460469231731687303715884105727)"),
    ("as_integer", Integer(i128::MIN), "Some(-170141183460469231731687303715884105728)"),
    ("as_integer", Null, "None"),
    ("as_integer", Bool(true), "None"),
    ("as_integer", Float(F16(0x3c00)), "None"),
    ("as_integer", Text("1"), "None"),
    ("as_integer", Bytes(b"\x01"), "None"),
    ("as_integer", Array(&[Integer(1)]), "None"),
    ("as_integer", Tag(2, &Bytes(b"\x01\x00\x00\x00\x00\x00\x00\x00\x00")), "None"),
    ("as_integer", Tag(1, &Integer(1363896240)), "None"),
    ("as_float", Float(F16(0x3c00)), "Some(F16(15360))"),
    ("as_float", Float(F32(0x47c3_5000)), "Some(F32(1203982336))"),
    ("as_float", Float(F64(0x3ff1_9999_9999_999a)), "Some(F64(4607632778762754458))"),
    ("as_float", Integer(1), "None"),
    ("as_float", Null, "None"),
    ("as_float", Text("1.0"), "None"),
    ("as_float", Array(&[Float(F16(0x3c00))]), "None"),
    ("as_float", Tag(1, &Float(F64(0x41d4_52d9_ec20_0000))), "None"),
    ("as_bytes", Bytes(b""), "Some([])"),
    ("as_bytes", Bytes(b"\x01\x02\x03\x04"), "Some([1, 2, 3, 4])"),
    ("as_bytes", Text("a"), "None"),
    ("as_bytes", Text(""), "None"),
    ("as_bytes", Array(&[Integer(1)]), "None"),
    ("as_bytes", Tag(24, &Bytes(b"\x64IETF")), "None"),
    ("as_text", Text(""), "Some(\"\")"),
    ("as_text", Text("IETF"), "Some(\"IETF\")"),
    ("as_text", Text("\u{fc}"), "Some(\"ü\")"),
    ("as_text", Bytes(b"IETF"), "None"),
    ("as_text", Bytes(b""), "None"),
    ("as_text", Null, "None"),
    ("as_text", Array(&[Text("a")]), "None"),
    ("as_text", Tag(32, &Text("http://www.example.com")), "None"),
    ("as_array", Array(&[]), "Some([])"),
    ("as_array", Array(&[Integer(1), Integer(2), Integer(3)]),
        "Some([Integer(1), Integer(2), Integer(3)])"),
    ("as_array", Array(&[Array(&[Null]), Text("a")]), "Some([Array([Null]), Text(\"a\")])"),
    ("as_array", Map(&[]), "None"),
    ("as_array", Bytes(b""), "None"),
    ("as_array", Tag(1, &Array(&[Null])), "None"),
    ("as_map", Map(&[]), "Some([])"),
    ("as_map", Map(&[(Integer(1), Integer(2)), (Integer(3), Integer(4))]),
        "Some([(Integer(1), Integer(2)), (Integer(3), Integer(4))])"),
    ("as_map", Map(&[(Text("a"), Null), (Text("a"), Map(&[]))]),
        "Some([(Text(\"a\"), Null), (Text(\"a\"), Map([]))])"),
    ("as_map", Array(&[]), "None"),
    ("as_map", Array(&[Integer(1), Integer(2)]), "None"),
    ("as_map", Tag(1, &Map(&[])), "None"),
    ("as_tag", Tag(0, &Text("2013-03-21T20:04:00Z")), "Some((0, Text(\"2013-03-21T20:04:00Z\")))"),
    ("as_tag", Tag(u64::MAX, &Tag(1, &Null)), "Some((18446744073709551615, Tag(1, Null)))"),
    ("as_tag", Integer(1), "None"),
    ("as_tag", Integer(18446744073709551616), "None"),
    ("as_tag", Array(&[Tag(1, &Null)]), "None"),
};

/// The `Debug` text of what the call of this name finds in the value.
fn look_into(alloc: Global, name: &str, value: &Value) -> Result<String, Fail> {
    let text = match name {
        "is_null" => format!(in alloc; "{:?}", value.is_null())?,
        "as_bool" => format!(in alloc; "{:?}", value.as_bool())?,
        "as_integer" => format!(in alloc; "{:?}", value.as_integer())?,
        "as_float" => format!(in alloc; "{:?}", value.as_float())?,
        "as_bytes" => format!(in alloc; "{:?}", value.as_bytes())?,
        "as_text" => format!(in alloc; "{:?}", value.as_text())?,
        "as_array" => format!(in alloc; "{:?}", value.as_array())?,
        "as_map" => format!(in alloc; "{:?}", value.as_map())?,
        "as_tag" => format!(in alloc; "{:?}", value.as_tag())?,
        _ => return Err(Fail::new(format_args!("no call is {name}"))),
    };
    Ok(text)
}

#[test]
fn values_are_taken_out(rt: HostRuntime) -> Result<(), Fail> {
    let alloc = rt.alloc();
    for (name, literal, want) in LOOKED_INTO {
        let value = literal.to_value(alloc)?;
        let found = look_into(alloc, name, &value)?;
        if found.as_str() != *want {
            return Err(Fail::new(format_args!("{name} of {value:?} is {}", found.as_str())));
        }
    }
    Ok(())
}

// A value, a key, and what stands under it.
type Entry = (Literal, &'static str, Option<Literal>);

// {"a": 1, "b": [2, 3]}
const ENTRIES: Literal = Map(&[
    (Text("a"), Integer(1)),
    (Text("b"), Array(&[Integer(2), Integer(3)])),
]);

const FOUND: &[Entry] = table! {
    (ENTRIES, "a", Some(Integer(1))),
    (ENTRIES, "b", Some(Array(&[Integer(2), Integer(3)]))),
    (ENTRIES, "c", None),
    (ENTRIES, "", None),
    (Map(&[]), "", None),
    (Map(&[(Text(""), Null)]), "", Some(Null)),
    (Map(&[(Text("a"), Integer(1)), (Text("a"), Integer(2))]), "a", Some(Integer(1))),
    (Map(&[(Text("ab"), Integer(1)), (Text("a"), Integer(2))]), "a", Some(Integer(2))),
    (Map(&[(Bytes(b"a"), Integer(1)), (Text("a"), Integer(2))]), "a", Some(Integer(2))),
    (Map(&[(Bytes(b"a"), Integer(1))]), "a", None),
    (Map(&[(Integer(1), Integer(2))]), "1", None),
    (Map(&[(Tag(0, &Text("a")), Integer(1))]), "a", None),
    (Map(&[(Text("b"), Text("a"))]), "a", None),
    (Map(&[(Text("b"), Map(&[(Text("a"), Integer(1))]))]), "a", None),
    (Array(&[Text("a"), Map(&[(Text("b"), Text("c"))])]), "b", None),
    (Tag(1, &Map(&[(Text("a"), Integer(1))])), "a", None),
    (Text("a"), "a", None),
};

fn are_found(alloc: Global, rows: &[Entry]) -> Result<(), Fail> {
    for (literal, key, want) in rows {
        let value = literal.to_value(alloc)?;
        if !is_found(alloc, value.get(*key), want)? {
            return Err(Fail::new(format_args!("{:?} under {key} in {value:?}", value.get(*key))));
        }
    }
    Ok(())
}

fn is_found(alloc: Global, found: Option<&Value>, want: &Option<Literal>) -> Result<bool, Fail> {
    match (found, want) {
        (Some(value), Some(literal)) => Ok(*value == literal.to_value(alloc)?),
        (None, None) => Ok(true),
        _ => Ok(false),
    }
}

#[test]
fn values_are_found_by_their_keys(rt: HostRuntime) -> Result<(), Fail> {
    are_found(rt.alloc(), FOUND)
}

// {1: 2, 3: 4}
const NUMBERED: Literal = Map(&[(Integer(1), Integer(2)), (Integer(3), Integer(4))]);

const BY_INTEGERS: &[(Literal, i128, Option<Literal>)] = table! {
    (NUMBERED, 1, Some(Integer(2))),
    (NUMBERED, 3, Some(Integer(4))),
    (NUMBERED, 2, None),
    (Map(&[(Integer(-1), Null), (Integer(1), Bool(true))]), -1, Some(Null)),
    (Map(&[(Integer(1), Integer(2)), (Integer(1), Integer(3))]), 1, Some(Integer(2))),
    (Map(&[(Integer(i128::MAX), Text("a"))]), i128::MAX, Some(Text("a"))),
    (Map(&[(Tag(2, &Bytes(b"\x01")), Integer(2))]), 1, None),
    (Map(&[(Text("1"), Integer(2))]), 1, None),
    (Array(&[Integer(1), Integer(2)]), 1, None),
    (Tag(1, &NUMBERED), 1, None),
    (Integer(1), 1, None),
};

#[test]
fn values_are_found_by_their_integers(rt: HostRuntime) -> Result<(), Fail> {
    for (literal, key, want) in BY_INTEGERS {
        let value = literal.to_value(rt.alloc())?;
        if !is_found(rt.alloc(), value.get_integer(*key), want)? {
            return Err(Fail::new(format_args!("under {key} in {value:?}")));
        }
    }
    Ok(())
}

const BY_VALUES: &[(Literal, Literal, Option<Literal>)] = table! {
    (NUMBERED, Integer(3), Some(Integer(4))),
    (NUMBERED, Text("3"), None),
    (ENTRIES, Text("a"), Some(Integer(1))),
    (Map(&[(Array(&[Integer(1)]), Null)]), Array(&[Integer(1)]), Some(Null)),
    (Map(&[(Array(&[Integer(1)]), Null)]), Array(&[]), None),
    (Map(&[(Float(F16(0)), Null)]), Float(F32(0)), None),
    (Map(&[(Tag(1, &Null), Integer(1)), (Null, Integer(2))]), Null, Some(Integer(2))),
    (Array(&[Null, Null]), Null, None),
};

#[test]
fn values_are_found_by_values(rt: HostRuntime) -> Result<(), Fail> {
    for (literal, key, want) in BY_VALUES {
        let value = literal.to_value(rt.alloc())?;
        let key = key.to_value(rt.alloc())?;
        if !is_found(rt.alloc(), value.get_value(&key), want)? {
            return Err(Fail::new(format_args!("under {key:?} in {value:?}")));
        }
    }
    Ok(())
}

/// Values, and whether two of their keys are equal.
pub const EQUAL_KEYS: &[(Literal, bool)] = table! {
    (Map(&[]), false),
    (Map(&[(Integer(1), Null)]), false),
    (Map(&[(Integer(1), Null), (Integer(2), Null)]), false),
    (Map(&[(Integer(1), Null), (Integer(1), Null)]), true),
    (Map(&[(Text("a"), Integer(1)), (Text("a"), Integer(2))]), true),
    (Map(&[(Integer(1), Null), (Integer(2), Null), (Integer(1), Null)]), true),
    (Map(&[(Integer(2), Null), (Integer(1), Null), (Integer(1), Null)]), true),
    (Map(&[(Integer(1), Null), (Integer(1), Null), (Integer(2), Null)]), true),
    (Map(&[(Integer(1), Integer(2)), (Integer(2), Integer(1))]), false),
    (Map(&[(Text("a"), Null), (Bytes(b"a"), Null)]), false),
    (Map(&[(Float(F16(0)), Null), (Float(F32(0)), Null)]), false),
    (Map(&[(Float(F16(0x7e00)), Null), (Float(F16(0x7e00)), Null)]), true),
    (Map(&[(Array(&[Integer(1)]), Null), (Array(&[Integer(1)]), Null)]), true),
    (Map(&[(Array(&[Integer(1)]), Null), (Array(&[Integer(2)]), Null)]), false),
    (Map(&[(Null, Null), (Null, Integer(1))]), true),
    (Map(&[(Null, Null), (Bool(false), Null), (Bool(true), Null), (Integer(0), Null)]), false),
    (Map(&[(Bool(true), Null), (Bool(false), Null), (Bool(true), Null)]), true),
    (Map(&[(Integer(0), Null), (Integer(-1), Null), (Integer(1), Null)]), false),
    (Map(&[(Integer(-1), Null), (Integer(0), Null), (Integer(-1), Null)]), true),
    (Map(&[(Integer(i128::MIN), Null), (Integer(i128::MAX), Null)]), false),
    (Map(&[(Integer(18446744073709551616), Null), (TWO_TO_64, Null)]), false),
    (Map(&[(Integer(-18446744073709551617), Null), (BELOW_64, Null)]), false),
    (Map(&[(TWO_TO_64, Null), (Integer(18446744073709551616), Null), (TWO_TO_64, Null)]), true),
    (Map(&[(Array(&[Integer(18446744073709551616), TWO_TO_64]), Null),
        (Array(&[TWO_TO_64, Integer(18446744073709551616)]), Null)]), false),
    (Map(&[(Float(F32(0)), Null), (Float(F64(0)), Null), (Float(F64(1)), Null)]), false),
    (Map(&[(Float(F32(0)), Null), (Float(F32(0x8000_0000)), Null)]), false),
    (Map(&[(Float(F16(0x7e00)), Null), (Float(F16(0x7e01)), Null)]), false),
    (Map(&[(Text("a"), Null), (Text("ab"), Null), (Text("b"), Null), (Text(""), Null)]), false),
    (Map(&[(Text("ab"), Null), (Text("ba"), Null), (Text("ab"), Null)]), true),
    // Equal keys on both sides of one that is like them in all but one thing.
    (Map(&[(Text("a"), Null), (Bytes(b"a"), Null), (Text("a"), Null)]), true),
    (Map(&[(Float(F16(0)), Null), (Float(F32(0)), Null), (Float(F16(0)), Null)]), true),
    (Map(&[(Float(F32(0)), Null), (Float(F64(0)), Null), (Float(F32(0)), Null)]), true),
    (Map(&[(Integer(1), Null), (Integer(-2), Null), (Integer(1), Null)]), true),
    (Map(&[(Array(&[Null, Integer(1)]), Null), (Array(&[Null, Integer(2)]), Null),
        (Array(&[Null, Integer(1)]), Null)]), true),
    (Map(&[(Map(&[(Null, Integer(1))]), Null), (Map(&[(Null, Integer(2))]), Null),
        (Map(&[(Null, Integer(1))]), Null)]), true),
    (Map(&[(Map(&[(Null, Null), (Null, Integer(1))]), Null),
        (Map(&[(Null, Null), (Integer(0), Integer(1))]), Null),
        (Map(&[(Null, Null), (Null, Integer(1))]), Null)]), true),
    (Map(&[(Tag(1, &Integer(1)), Null), (Tag(1, &Integer(2)), Null),
        (Tag(1, &Integer(1)), Null)]), true),
    (Map(&[(Tag(1, &Null), Null), (Tag(2, &Null), Null), (Tag(1, &Null), Null)]), true),
    (Map(&[(Bytes(b""), Null), (Text(""), Null), (Array(&[]), Null), (Map(&[]), Null)]), false),
    (Map(&[(Bytes(b"ab"), Null), (Bytes(b"aa"), Null), (Bytes(b"ab"), Null)]), true),
    (Map(&[(Array(&[Array(&[]), Null]), Null), (Array(&[Null, Array(&[])]), Null)]), false),
    (Map(&[(Map(&[(Null, Integer(1))]), Null), (Map(&[(Null, Integer(2))]), Null)]), false),
    (Map(&[(Map(&[(Null, Integer(1))]), Null), (Map(&[(Null, Integer(1))]), Null)]), true),
    (Map(&[(Map(&[(Null, Bool(true)), (Integer(1), Null)]), Null),
        (Map(&[(Integer(1), Null), (Null, Bool(true))]), Null)]), false),
    (Map(&[(Tag(1, &Null), Null), (Tag(2, &Null), Null), (Null, Null)]), false),
    (Map(&[(Tag(1, &Integer(1)), Null), (Tag(1, &Integer(2)), Null)]), false),
    (Map(&[(Tag(1, &Text("a")), Null), (Integer(1), Null), (Tag(1, &Text("a")), Null)]), true),
    (Map(&[(Null, Map(&[(Integer(1), Null), (Integer(1), Null)]))]), false),
    (Array(&[Map(&[(Integer(1), Null), (Integer(1), Null)])]), false),
    (Array(&[Integer(1), Integer(1)]), false),
    (Tag(1, &Map(&[(Integer(1), Null), (Integer(1), Null)])), false),
};

fn have_equal_keys(alloc: Global, rows: &[(Literal, bool)]) -> Result<(), Fail> {
    for (literal, want) in rows {
        let value = literal.to_value(alloc)?;
        if value.has_equal_keys() != *want {
            return Err(Fail::new(format_args!("equal keys in {value:?}: {}", !*want)));
        }
    }
    Ok(())
}

#[test]
fn equal_keys_are_noticed(rt: HostRuntime) -> Result<(), Fail> {
    have_equal_keys(rt.alloc(), EQUAL_KEYS)
}
