//! A described type: the type itself, and its impls.
ghost use Rattle.std.specs.Prelude.{◌≡◌, ◌++◌, OnOk, string_bytes};
ghost use Rattle.cbor4ii_describe.specs.Text.{typed_text};

use crate::fault::OrFault;
use crate::print::codec::{codec, put_fields};
use crate::print::deserialize::put_deserialize;
use crate::print::from::put_from;
use crate::print::layout::{Made, ghost_pairs, list, put_record};
use crate::print::lists::{made_fields, places};
use crate::print::serialize::put_serialize;
use crate::print::types::{generics, letter, self_type};
use crate::print::variants::put_enum_codec;
use crate::shape::{Content, Described, Field, Form, Parameter, Shape, Variant};
use crate::types::mentions;
use std::alloc::Global;

/// Appends a type and its impls.
pub fn put_described(alloc: Global, out: &mut String, described: &Described) -> OrFault<()> {
    put_type(alloc, out, described)?;
    put_serialize(alloc, out, described)?;
    put_deserialize(alloc, out, described)?;
    put_from(alloc, out, described)?;
    put_typed(alloc, out, described)?;
    put_codec(alloc, out, described)?;
    Ok(put_agrees(alloc, out, described)?)
}

fn put_type(alloc: Global, out: &mut String, described: &Described) -> Made<()> {
    let this = self_type(alloc, described)?;
    put_lines_above(out, "", &described.head.lines)?;
    let visibility = described.head.visibility.as_str();
    match &described.shape {
        Shape::Newtype {
            visibility: inner,
            its_type,
            ..
        } => write!(out, "{visibility}struct {this}({inner}{its_type});\n\n"),
        Shape::Fields { fields, .. } => {
            write!(out, "{visibility}struct {this} {{\n")?;
            for field in fields {
                put_field(out, field)?;
            }
            out.push_str("}\n\n")
        }
        Shape::Variants { variants, .. } => {
            write!(out, "{visibility}enum {this} {{\n")?;
            for variant in variants {
                put_lines_above(out, "    ", &variant.lines)?;
                put_variant(alloc, out, variant)?;
            }
            out.push_str("}\n\n")
        }
    }
}

fn put_lines_above(out: &mut String, indent: &str, lines: &[String]) -> Made<()> {
    for line in lines {
        write!(out, "{indent}{line}\n")?;
    }
    Ok(())
}

fn put_field(out: &mut String, field: &Field) -> Made<()> {
    put_lines_above(out, "    ", &field.head.lines)?;
    let visibility = field.head.visibility.as_str();
    let (name, its_type) = (field.name.as_str(), field.its_type.as_str());
    write!(out, "    {visibility}{name}: {its_type},\n")
}

fn put_variant(alloc: Global, out: &mut String, variant: &Variant) -> Made<()> {
    let name = variant.name.as_str();
    match &variant.holds {
        Content::Nothing => write!(out, "    {name},\n"),
        Content::Items(items) => write!(out, "    {name}({}),\n", list(alloc, items)?),
        Content::Fields(fields) => {
            write!(out, "    {name} {{\n")?;
            for field in fields {
                put_field(out, field)?;
            }
            out.push_str("    },\n")
        }
    }
}

fn put_typed(alloc: Global, out: &mut String, described: &Described) -> Made<()> {
    let this = self_type(alloc, described)?;
    let generics = generics(alloc, &described.parameter, ": AsDescribed")?;
    put_promise(out, generics.as_str(), this.as_str())
}

// Appends the same for a type of this text, behind these generics.
fn put_promise(out: &mut String, generics: &str, this: &str) -> Made<()>
    ensures { OnOk result (string_bytes out.new
        ≡ string_bytes out.old ++ typed_text generics.now this.now) }
{
    write!(
        out,
        "impl{generics} Typed for {this} {{\n    ghost promise = {{ ⟦<{this} as \
         Described>⟧.codec.promise }};\n}}\n\n"
    )
}

fn put_codec(alloc: Global, out: &mut String, described: &Described) -> OrFault<()> {
    let this = self_type(alloc, described)?;
    let generics = generics(alloc, &described.parameter, ": AsDescribed")?;
    let letter = letter(described.name.as_str());
    write!(out, "impl{generics} Described for {this} {{\n")?;
    match &described.shape {
        Shape::Newtype { its_type, tag, .. } => {
            let codec = codec(
                alloc,
                described.line,
                its_type.as_str(),
                &described.parameter,
            )?;
            let codec = tagged(alloc, *tag, codec)?;
            write!(
                out,
                "    ghost codec = {{ codec_of (λ {letter}. {letter}.0) \
                 (λ value. record {{ 0 = value }}) (λ {letter}. refl)\n        {codec}"
            )?;
        }
        Shape::Fields { form, fields } => {
            put_places(alloc, out, letter, *form, fields)?;
            put_made(alloc, out, letter, fields)?;
            put_fields(alloc, out, *form, fields, &described.parameter)?;
            out.push_str(" refl")?;
        }
        Shape::Variants { variants, words } => {
            put_enum_codec(
                alloc,
                out,
                described.name.as_str(),
                words.as_str(),
                variants,
            )?;
        }
    }
    out.push_str(" };\n}\n\n")?;
    Ok(())
}

fn tagged(alloc: Global, tag: Option<u64>, codec: String) -> Made<String> {
    match tag {
        None => Ok(codec),
        Some(tag) => format!(in alloc; "(tagged_codec {tag} {codec} refl)"),
    }
}

// Appends where the fields of a struct stand in it.
fn put_places(
    alloc: Global,
    out: &mut String,
    letter: char,
    form: Form,
    fields: &[Field],
) -> Made<()> {
    let word = match form {
        Form::Named | Form::Keyed => "struct_codec",
        Form::Array => "elements_codec",
    };
    let places = ghost_pairs(alloc, &places(alloc, letter, fields)?, "no_values")?;
    write!(out, "    ghost codec = {{ {word} (λ {letter}. {places})\n")
}

// Appends how a struct is made of its values, and that it is made of its own.
fn put_made(alloc: Global, out: &mut String, letter: char, fields: &[Field]) -> Made<()> {
    let after = format!(in alloc; ") (λ {letter}. refl)")?;
    let made = made_fields(alloc, fields)?;
    put_record(alloc, out, "        (λ values. ", &made, after.as_str())
}

// Appends the law, over the law of a parameter at each place that names it.
fn put_agrees(alloc: Global, out: &mut String, described: &Described) -> Made<()> {
    let this = self_type(alloc, described)?;
    let generics = generics(alloc, &described.parameter, ": AsDescribed")?;
    write!(
        out,
        "impl{generics} AsDescribed for {this} {{\n    \
         ghost agrees = {{ as_described "
    )?;
    match &described.parameter {
        Parameter::Generic(name) => put_laws(out, name.as_str(), &described.shape)?,
        _ => out.push_str("tt refl")?,
    }
    out.push_str(" };\n}\n")
}

// Appends the laws of a parameter, one for each place that names it, and that all are exact.
fn put_laws(out: &mut String, name: &str, shape: &Shape) -> Made<()> {
    let places = places_of(shape, name);
    put_nested(out, name, places, "", "agrees, ", "tt")?;
    match shape {
        Shape::Newtype { .. } if places != 0 => write!(out, " {name}.agrees.is"),
        _ if places == 0 => out.push_str(" refl"),
        _ => {
            out.push_str("\n        ")?;
            put_nested(out, name, places, "both_are ", "agrees.is ", "refl")
        }
    }
}

// Appends so many words of a parameter, each in brackets round those after it, with `last` inside.
fn put_nested(
    out: &mut String,
    name: &str,
    places: usize,
    before: &str,
    word: &str,
    last: &str,
) -> Made<()> {
    for _ in 0..places {
        write!(out, "({before}{name}.{word}")?;
    }
    out.push_str(last)?;
    for _ in 0..places {
        out.push(')')?;
    }
    Ok(())
}

// In how many places of a type its parameter stands.
fn places_of(shape: &Shape, parameter: &str) -> usize {
    match shape {
        Shape::Newtype { its_type, .. } => usize::from(mentions(its_type.as_str(), parameter)),
        Shape::Fields { fields, .. } => fields
            .iter()
            .filter(|field| mentions(field.its_type.as_str(), parameter))
            .count(),
        Shape::Variants { .. } => 0,
    }
}
