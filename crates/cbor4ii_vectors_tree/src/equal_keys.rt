//! Rows of maps: equal keys, and pairs of texts.
use crate::access::EQUAL_KEYS;
use crate::literal::Literal::{self, Array, Bytes, Integer, Map, Null, Tag, Text};
use cbor4ii_tree::Value;
use cbor4ii_vectors::table;
use std::alloc::{AllocError, Global};
use std::test::Fail;

// A value, and the pairs of it whose keys are texts.
type Row = (Literal, Option<&'static [(&'static str, Literal)]>);

const ROWS: &[Row] = table! {
    (Map(&[(Text("a"), Integer(1)), (Text("b"), Null)]), Some(&[("a", Integer(1)), ("b", Null)])),
    (Map(&[(Integer(1), Null), (Text("a"), Integer(1)), (Null, Null)]), Some(&[("a", Integer(1))])),
    (Map(&[(Text("a"), Integer(1)), (Text("a"), Null)]), Some(&[("a", Integer(1)), ("a", Null)])),
    (Map(&[(Bytes(b"a"), Null), (Tag(0, &Text("a")), Null)]), Some(&[])),
    (Map(&[(Text(""), Map(&[(Text("a"), Null)]))]), Some(&[("", Map(&[(Text("a"), Null)]))])),
    (Map(&[]), Some(&[])),
    (Array(&[Text("a"), Null]), None),
    (Tag(1, &Map(&[(Text("a"), Null)])), None),
    (Text("a"), None),
};

#[test]
fn pairs_under_texts(rt: HostRuntime) -> Result<(), Fail> {
    for (literal, want) in ROWS {
        has_texts(rt.alloc(), literal, *want)?;
    }
    Ok(())
}

// After the last pair it is the end, also a second time.
fn has_texts(
    alloc: Global,
    literal: &Literal,
    want: Option<&[(&str, Literal)]>,
) -> Result<(), Fail> {
    let value = literal.to_value(alloc)?;
    let Some(mut pairs) = value.text_pairs() else {
        return is_so(want.is_none(), "a map has pairs");
    };
    let Some(want) = want else {
        return is_so(false, "no map has pairs");
    };
    for (key, literal) in want {
        let Some((name, found)) = pairs.next() else {
            return is_so(false, "a pair is missing");
        };
        is_so(name == *key && *found == literal.to_value(alloc)?, *key)?;
    }
    is_so(
        pairs.next().is_none() && pairs.next().is_none(),
        "one pair more",
    )
}

fn is_so(holds: bool, what: &str) -> Result<(), Fail> {
    if holds {
        return Ok(());
    }
    Err(Fail::new(format_args!("{what}")))
}

fn have_equal_keys(alloc: Global, rows: &[(Literal, bool)]) -> Result<(), Fail> {
    for (literal, want) in rows {
        let value = literal.to_value(alloc)?;
        if value.try_has_equal_keys()? != *want {
            return Err(Fail::new(format_args!("equal keys in {value:?}: {}", !*want)));
        }
    }
    Ok(())
}

#[test]
fn equal_keys_are_found(rt: HostRuntime) -> Result<(), Fail> {
    have_equal_keys(rt.alloc(), EQUAL_KEYS)
}

// {1: null, 1: null}
const TWICE: Literal = Map(&[(Integer(1), Null), (Integer(1), Null)]);

const AT_ANY_LEVEL: &[(Literal, bool)] = table! {
    (Null, false),
    (TWICE, true),
    (Map(&[]), false),
    (Array(&[]), false),
    (Array(&[Integer(1), Integer(1)]), false),
    (Array(&[TWICE]), true),
    (Array(&[Null, TWICE, Null]), true),
    (Array(&[Null, Null, TWICE]), true),
    (Tag(1, &TWICE), true),
    (Tag(1, &Tag(1, &Null)), false),
    (Map(&[(Null, TWICE)]), true),
    (Map(&[(TWICE, Null)]), true),
    (Map(&[(Integer(1), Null), (Integer(2), TWICE)]), true),
    (Map(&[(Integer(1), Null), (TWICE, Null)]), true),
    (Map(&[(Integer(1), Map(&[])), (Integer(1), Null)]), true),
    (Map(&[(Integer(1), Map(&[(Integer(1), Null)]))]), false),
    (Map(&[(Map(&[(Integer(1), Null)]), Null), (Integer(1), Null)]), false),
    (Array(&[Map(&[(Integer(1), Null)]), Map(&[(Integer(1), Null)])]), false),
    (Map(&[(Integer(1), Integer(1)), (Integer(2), Integer(1))]), false),
    (Array(&[Tag(1, &Map(&[(Null, Array(&[Map(&[(Map(&[(Null, TWICE)]), Null)])]))]))]), true),
};

fn have_equal_keys_at_any_level(alloc: Global, rows: &[(Literal, bool)]) -> Result<(), Fail> {
    for (literal, want) in rows {
        let value = literal.to_value(alloc)?;
        if value.try_has_equal_keys_at_any_level()? != *want {
            return Err(Fail::new(format_args!("equal keys within {value:?}: {}", !*want)));
        }
    }
    Ok(())
}

#[test]
fn equal_keys_are_found_at_any_level(rt: HostRuntime) -> Result<(), Fail> {
    have_equal_keys_at_any_level(rt.alloc(), AT_ANY_LEVEL)
}

const MANY: u64 = 100_000;

// A map of so many integers as keys, in no order. The last is the first once more, if asked.
fn map_of_many(alloc: Global, repeats: bool) -> Result<Value, AllocError> {
    let mut pairs = Vec::new(alloc);
    for i in 0..MANY {
        let place = if repeats && i + 1 == MANY { 0 } else { i };
        pairs.push((Value::from(place * 77_773 % MANY), Value::Null))?;
    }
    Ok(Value::Map(pairs))
}

fn many_keys_are_sorted(alloc: Global, want: bool) -> Result<(), Fail> {
    let value = map_of_many(alloc, want)?;
    if value.try_has_equal_keys()? != want {
        return Err(Fail::new(format_args!("equal keys of many: {}", !want)));
    }
    let outer = Value::Tag(1, Box::new(alloc, value)?);
    if outer.try_has_equal_keys()? || outer.try_has_equal_keys_at_any_level()? != want {
        return Err(Fail::new(format_args!("equal keys of many on a tag: {}", !want)));
    }
    Ok(())
}

#[test]
fn many_keys_are_equal_at_both_ends(rt: HostRuntime) -> Result<(), Fail> {
    many_keys_are_sorted(rt.alloc(), true)
}

#[test]
fn many_keys_are_different(rt: HostRuntime) -> Result<(), Fail> {
    many_keys_are_sorted(rt.alloc(), false)
}
