//! The lists that are made of the fields of a struct.
ghost use Rattle.std.specs.Prelude.{◌≡◌, IfOk, string_bytes};
ghost use Rattle.cbor4ii_describe.specs.Text.{key_code, presence_code};

use crate::print::layout::Made;
use crate::shape::{Field, Key, Presence};
use std::alloc::Global;

/// A text of each field.
pub fn each<F>(alloc: Global, fields: &[Field], text: F) -> Made<Vec<String>>
where
    F: Fn(&Field) -> Made<String>,
    requires { F.IsAlwaysCallable text }
{
    let mut texts = Vec::new(alloc);
    for field in fields {
        texts.push(text(field)?)?;
    }
    Ok(texts)
}

/// The fields' names.
pub fn names(alloc: Global, fields: &[Field]) -> Made<Vec<String>> {
    each(alloc, fields, |f| String::from_str(alloc, f.name.as_str()))
}

/// The fields' types.
pub fn types(alloc: Global, fields: &[Field]) -> Made<Vec<String>> {
    each(alloc, fields, |f| {
        String::from_str(alloc, f.its_type.as_str())
    })
}

/// What the fields are written under, as code.
pub fn keys(alloc: Global, fields: &[Field]) -> Made<Vec<String>> {
    each(alloc, fields, |field| key(alloc, &field.key))
}

/// A key as code: a name in quotes, or an integer.
pub fn key(alloc: Global, key: &Key) -> Made<String>
    ensures { IfOk result (λ text. string_bytes text ≡ key_code key.now) }
{
    match key {
        Key::Name(name) => format!(in alloc; "\"{name}\""),
        Key::Positive(size) => format!(in alloc; "{size}"),
        Key::Negative(size) => format!(in alloc; "-{size}"),
    }
}

/// The fields of this value, by reference.
pub fn references(alloc: Global, fields: &[Field]) -> Made<Vec<String>> {
    each(alloc, fields, |f| format!(in alloc; "&self.{}", f.name))
}

/// The fields of the value that this letter stands for.
pub fn places(alloc: Global, letter: char, fields: &[Field]) -> Made<Vec<String>> {
    each(alloc, fields, |f| format!(in alloc; "{letter}.{}", f.name))
}

/// The fields of a struct in a ghost, each with its place in the values.
pub fn made_fields(alloc: Global, fields: &[Field]) -> Made<Vec<String>> {
    let mut made = Vec::new(alloc);
    for (i, field) in fields.iter().enumerate() {
        let place = pair_place(alloc, i)?;
        made.push(format!(in alloc; "{} = values{place}", field.name)?)?;
    }
    Ok(made)
}

/// Where an item stands in nested pairs, behind so many others.
pub fn pair_place(alloc: Global, others: usize) -> Made<String> {
    let mut place = String::new(alloc);
    for _ in 0..others {
        place.push_str(".1")?;
    }
    place.push_str(".0")?;
    Ok(place)
}

/// What each field is where it is missing, as code.
pub fn presences(alloc: Global, fields: &[Field]) -> Made<Vec<String>> {
    each(alloc, fields, |field| presence(alloc, field))
}

fn presence(alloc: Global, field: &Field) -> Made<String>
    ensures { IfOk result (λ text. string_bytes text ≡ presence_code field.now) }
{
    match &field.presence {
        Presence::Required if field.once => String::from_str(alloc, "Once(Required)"),
        Presence::Required => String::from_str(alloc, "Required"),
        Presence::LeftOut if field.once => String::from_str(alloc, "Once(Optional)"),
        Presence::LeftOut => String::from_str(alloc, "Optional"),
        Presence::Or { code, .. } if field.once => format!(in alloc; "Once(Or({code}))"),
        Presence::Or { code, .. } => format!(in alloc; "Or({code})"),
    }
}

/// What is said of fields that are missing or come twice, in quotes and by their places, up to the
/// last one of which something is said.
pub fn missing(alloc: Global, fields: &[Field]) -> Made<Vec<String>> {
    let mut missing = Vec::new(alloc);
    for field in fields.iter().take(last_told(fields)) {
        let words = if field.is_told() {
            field.words.as_str()
        } else {
            ""
        };
        missing.push(format!(in alloc; "\"{words}\"")?)?;
    }
    Ok(missing)
}

// How many fields there are up to the last one of which something is said.
fn last_told(fields: &[Field]) -> usize {
    let mut last = 0;
    for (i, field) in fields.iter().enumerate() {
        if field.is_told() {
            last = i + 1;
        }
    }
    last
}
