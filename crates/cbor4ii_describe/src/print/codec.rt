//! The ghost `codec`.
ghost use Rattle.std.specs.Prelude.{◌≡◌, ◌++◌, IfOk, IfSome, codes, string_bytes};
ghost use Rattle.cbor4ii_describe.specs.Text.{field_word, ghost_key};

use crate::fault::{OrFault, Why, refused};
use crate::print::layout::{Made, put_with_codec};
use crate::shape::{Field, Form, Key, Parameter, Presence};
use crate::types::{in_option, mentions};
use std::alloc::Global;

/// The codec of a type that stands on this line, and how often it names the parameter.
pub fn codec(alloc: Global, line: u32, its_type: &str, parameter: &Parameter) -> OrFault<String> {
    match parameter {
        Parameter::Generic(name) if mentions(its_type, name.as_str()) => {
            of_parameter(alloc, line, its_type, name.as_str())
        }
        _ => Ok(format!(in alloc; "⟦<{its_type} as Described>⟧.codec")?),
    }
}

// The codec of the parameter, or of vectors or options of it.
fn of_parameter(alloc: Global, line: u32, its_type: &str, name: &str) -> OrFault<String> {
    let mut text = String::new(alloc);
    let mut left = its_type;
    for depth in 0..its_type.len() {
        if left == name {
            write!(
                text,
                "(its_codec {name}.promise {name}.encoding {name}.codec)"
            )?;
            for _ in 0..depth {
                text.push(')')?;
            }
            return Ok(text);
        }
        left = match (in_option(left), in_vector(left)) {
            (Some(inner), _) => {
                text.push_str("(option_codec ")?;
                inner
            }
            (None, Some(inner)) => {
                text.push_str("(vector_codec ")?;
                inner
            }
            (None, None) => return refused(line, Why::ParameterPlace),
        };
    }
    refused(line, Why::ParameterPlace)
}

// What a vector of this type holds; none for another type.
fn in_vector(its_type: &str) -> Option<&str>
    ensures { IfSome result (λ inner. its_type.now ≡ codes "Vec<" ++ inner.now ++ codes ">") }
{
    its_type.strip_prefix("Vec<")?.strip_suffix(">")
}

/// Appends the codec of the fields of a struct, a line for each, and what closes them.
pub fn put_fields(
    alloc: Global,
    out: &mut String,
    form: Form,
    fields: &[Field],
    parameter: &Parameter,
) -> OrFault<()> {
    for field in fields {
        let begin = match form {
            Form::Array => String::from_str(alloc, "(with_element")?,
            _ => begin(alloc, field)?,
        };
        let codec = codec(alloc, field.line, held_type(field), parameter)?;
        put_with_codec(out, begin.as_str(), codec.as_str())?;
    }
    let (last, close) = match form {
        Form::Named => ("no_fields", " refl)"),
        Form::Keyed => ("no_keys", " refl)"),
        Form::Array => ("no_elements", ")"),
    };
    write!(out, "        {last}")?;
    for _ in fields {
        out.push_str(close)?;
    }
    Ok(())
}

/// The type of what a field holds, where it is there.
pub fn held_type(field: &Field) -> &str {
    let its_type = field.its_type.as_str();
    match (&field.presence, in_option(its_type)) {
        (Presence::LeftOut, Some(inner)) => inner,
        _ => its_type,
    }
}

// What stands before the codec of a field.
fn begin(alloc: Global, field: &Field) -> Made<String>
    ensures { IfOk result (λ text. string_bytes text ≡ field_word field.now) }
{
    let (key, words) = (key(alloc, &field.key)?, field.words.as_str());
    match &field.presence {
        Presence::Required if field.once => {
            format!(in alloc; "(with_field_once {key} (codes \"{words}\")")
        }
        Presence::Required => format!(in alloc; "(with_field {key} (codes \"{words}\")"),
        Presence::LeftOut if field.once => {
            format!(in alloc; "(with_optional_field_once {key} (codes \"{words}\")")
        }
        Presence::LeftOut => format!(in alloc; "(with_optional_field {key}"),
        Presence::Or { ghost_text, .. } if field.once => {
            format!(in alloc; "(with_field_once_or {key} (codes \"{words}\") {ghost_text}")
        }
        Presence::Or { ghost_text, .. } => {
            format!(in alloc; "(with_field_or {key} {ghost_text}")
        }
    }
}

fn key(alloc: Global, key: &Key) -> Made<String>
    ensures { IfOk result (λ text. string_bytes text ≡ ghost_key key.now) }
{
    match key {
        Key::Name(name) => format!(in alloc; "(codes \"{name}\")"),
        Key::Positive(size) => format!(in alloc; "(plus {size})"),
        Key::Negative(size) => format!(in alloc; "(minus {size})"),
    }
}
