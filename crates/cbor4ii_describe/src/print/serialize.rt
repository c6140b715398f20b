//! `impl Serialize`.
ghost use Rattle.std.specs.Prelude.{◌≡◌, ◌≢◌, ◌++◌, IfOk, OnOk, codes, decimal, string_bytes};
ghost use Rattle.cbor4ii_describe.specs.Text.{newtype_line};

use crate::print::layout::{Made, list, pairs};
use crate::print::lists::{each, key, keys, references};
use crate::print::types::{generics, self_type};
use crate::print::variants::put_match;
use crate::shape::{Described, Field, Form, MOST_CALLED, Presence, Shape, leaves_out};
use std::alloc::Global;

/// Appends how a type is written.
pub fn put_serialize(alloc: Global, out: &mut String, described: &Described) -> Made<()> {
    let this = self_type(alloc, described)?;
    let generics = generics(alloc, &described.parameter, ": AsDescribed")?;
    write!(
        out,
        "impl{generics} Serialize for {this} {{\n    ghost encoding = {{ \
         ⟦<{this} as Described>⟧.codec.encoding }};\n\n    fn serialize<W: Write>(&self, ser: &mut \
         Serializer<W>) -> Result<(), EncodeError<W::Error>> {{\n"
    )?;
    match &described.shape {
        Shape::Newtype { tag, .. } => put_newtype(out, *tag)?,
        Shape::Fields { form, fields } => {
            put_struct(alloc, out, described.label.as_str(), *form, fields)?;
        }
        Shape::Variants { variants, .. } => put_match(alloc, out, described, variants)?,
    }
    out.push_str("    }\n}\n\n")
}

// Appends the call that writes a newtype, behind a tag where there is one.
fn put_newtype(out: &mut String, tag: Option<u64>) -> Made<()>
    ensures { OnOk result (string_bytes out.new
        ≡ string_bytes out.old ++ newtype_line tag) }
{
    match tag {
        None => out.push_str("        self.0.serialize(ser)\n"),
        Some(tag) => write!(out, "        ser.serialize_tagged({tag}, &self.0)\n"),
    }
}

fn put_struct(
    alloc: Global,
    out: &mut String,
    name: &str,
    form: Form,
    fields: &[Field],
) -> Made<()> {
    match form {
        Form::Array => put_elements(alloc, out, fields),
        Form::Named if !leaves_out(fields) && fields.len() <= MOST_CALLED => {
            let call = call(alloc, fields.len())?;
            let arguments = list(alloc, &arguments(alloc, name, fields)?)?;
            write!(out, "        {call}{arguments})\n")
        }
        _ => put_listed(alloc, out, name, fields),
    }
}

fn put_elements(alloc: Global, out: &mut String, fields: &[Field]) -> Made<()> {
    let values = pairs(alloc, &references(alloc, fields)?, "()")?;
    write!(out, "        ser.serialize_elements(&{values})\n")
}

// For integer keys, many fields, or fields that may be left out.
fn put_listed(alloc: Global, out: &mut String, name: &str, fields: &[Field]) -> Made<()> {
    let values = list(alloc, &values(alloc, fields)?)?;
    let comma = if fields.len() == 1 { "," } else { "" };
    write!(out, "        let fields = ({values}{comma});\n")?;
    let keys = list(alloc, &keys(alloc, fields)?)?;
    write!(
        out,
        "        fields.serialize_fields(\"{name}\", &[{keys}], ser)\n"
    )
}

// The call that writes so many fields, up to its bracket.
fn call(alloc: Global, count: usize) -> Made<String>
    ensures one { count ≡ 1 →
        IfOk result (λ text. string_bytes text ≡ codes "ser.serialize_1_field(") }
    ensures more { count ≢ 1 → IfOk result (λ text. string_bytes text
        ≡ codes "ser.serialize_" ++ (decimal count ++ codes "_fields(")) }
{
    match count {
        1 => String::from_str(alloc, "ser.serialize_1_field("),
        _ => format!(in alloc; "ser.serialize_{count}_fields("),
    }
}

// The arguments of the call: the type's name, and each field's name and value.
fn arguments(alloc: Global, name: &str, fields: &[Field]) -> Made<Vec<String>> {
    let mut arguments = Vec::new(alloc);
    arguments.push(format!(in alloc; "\"{name}\"")?)?;
    for field in fields {
        let place = field.name.as_str();
        arguments.push(key(alloc, &field.key)?)?;
        arguments.push(format!(in alloc; "&self.{place}")?)?;
    }
    Ok(arguments)
}

fn values(alloc: Global, fields: &[Field]) -> Made<Vec<String>> {
    each(alloc, fields, |field| match field.presence {
        Presence::LeftOut => format!(in alloc; "IfSome(&self.{})", field.name),
        _ => format!(in alloc; "&self.{}", field.name),
    })
}
