//! `impl Deserialize`.
use crate::print::layout::{Made, list, pairs};
use crate::print::lists::{keys, missing, presences};
use crate::print::types::self_type;
use crate::print::variants::put_variants;
use crate::shape::{Described, Field, Form, Parameter, Shape};
use std::alloc::Global;

/// Appends how a type is read.
pub fn put_deserialize(alloc: Global, out: &mut String, described: &Described) -> Made<()> {
    let this = self_type(alloc, described)?;
    put_header(alloc, out, &described.parameter, this.as_str())?;
    let (reader, error) = match &described.parameter {
        Parameter::Lifetime(p) => (
            format!(in alloc; "SliceReader<{p}>")?,
            String::from_str(alloc, "Never")?,
        ),
        _ => (
            String::from_str(alloc, "S")?,
            String::from_str(alloc, "S::Error")?,
        ),
    };
    write!(
        out,
        "    fn deserialize(alloc: Global, de: &mut Deserializer<{reader}>) -> Result<{this}, \
         DecodeError<{error}>> {{\n"
    )?;
    match &described.shape {
        Shape::Newtype {
            its_type,
            tag: Some(tag),
            ..
        } => write!(
            out,
            "        de.deserialize_tagged::<{its_type}, {this}>(alloc, {tag})\n"
        )?,
        Shape::Newtype { its_type, .. } => write!(
            out,
            "        de.deserialize_from::<{its_type}, {this}>(alloc)\n"
        )?,
        Shape::Fields {
            form: Form::Array,
            ..
        } => out.push_str("        de.deserialize_elements(alloc)\n")?,
        Shape::Fields { fields, .. } => {
            put_struct(alloc, out, described.label.as_str(), fields)?;
        }
        Shape::Variants { variants, words } => {
            let label = described.label.as_str();
            put_variants(alloc, out, label, words.as_str(), variants)?;
        }
    }
    out.push_str("    }\n}\n\n")
}

fn put_header(alloc: Global, out: &mut String, parameter: &Parameter, this: &str) -> Made<()> {
    let line = match parameter {
        Parameter::Nothing => format!(in alloc; "impl<S: Source> Deserialize<S> for {this} {{\n")?,
        Parameter::Lifetime(p) => {
            format!(in alloc; "impl<{p}> Deserialize<SliceReader<{p}>> for {this} {{\n")?
        }
        Parameter::Generic(p) => format!(in alloc;
            "impl<S: Source, {p}: AsDescribed + Deserialize<S> + Drop> \
             Deserialize<S> for {this} {{\n"
        )?,
    };
    out.push_str(line.as_str())
}

/// Appends what the fields are where they are missing.
pub fn put_presences(alloc: Global, out: &mut String, fields: &[Field]) -> Made<()> {
    let presences = pairs(alloc, &presences(alloc, fields)?, "()")?;
    write!(out, "        let presences = {presences};\n")
}

// Appends the call that reads a struct from a map.
fn put_struct(alloc: Global, out: &mut String, name: &str, fields: &[Field]) -> Made<()> {
    let missing = list(alloc, &missing(alloc, fields)?)?;
    write!(out, "        let missing = [{missing}];\n")?;
    put_presences(alloc, out, fields)?;
    let keys = list(alloc, &keys(alloc, fields)?)?;
    write!(
        out,
        "        de.deserialize_fields(alloc, \"{name}\", &[{keys}], &missing, presences)\n"
    )
}
