//! `impl From`.
use crate::print::layout::{COLUMNS, Made, list, pairs, put_record, width};
use crate::print::lists::{made_fields, names, types};
use crate::print::types::{generics, letter, self_type};
use crate::print::variants::put_from_choice;
use crate::shape::{Described, Field, Shape};
use std::alloc::Global;

/// Appends how a type is made of what was read.
pub fn put_from(alloc: Global, out: &mut String, described: &Described) -> Made<()> {
    let this = self_type(alloc, described)?;
    let generics = generics(alloc, &described.parameter, "")?;
    let letter = letter(described.name.as_str());
    let name = described.name.as_str();
    match &described.shape {
        Shape::Newtype { its_type, .. } => write!(
            out,
            "impl{generics} From<{its_type}> for {this} {{\n    ghost from_gives = {{ λ value \
             {letter}. {letter} ≡ record {{ 0 = value }} }};\n\n    \
             fn from(value: {its_type}) -> {this} {{\n        \
             {name}(value)\n    }}\n}}\n\n"
        ),
        Shape::Fields { fields, .. } => put_struct(alloc, out, described, fields),
        Shape::Variants { variants, .. } => put_from_choice(alloc, out, name, variants),
    }
}

fn put_struct(
    alloc: Global,
    out: &mut String,
    described: &Described,
    fields: &[Field],
) -> Made<()> {
    let this = self_type(alloc, described)?;
    let name = described.name.as_str();
    let generics = generics(alloc, &described.parameter, "")?;
    let values = put_values(alloc, out, described, fields)?;
    let letter = letter(name);
    write!(out, "impl{generics} From<{values}> for {this} {{\n")?;
    let before = format!(in alloc; "    ghost from_gives = {{ λ values {letter}. {letter} ≡ ")?;
    let made = made_fields(alloc, fields)?;
    put_record(alloc, out, before.as_str(), &made, " };")?;
    let names = names(alloc, fields)?;
    let (parts, names) = (pairs(alloc, &names, "()")?, list(alloc, &names)?);
    write!(
        out,
        "\n    fn from(values: {values}) -> {this} {{\n        let {parts} = values;\n        \
         {name} {{ {names} }}\n    }}\n}}\n\n"
    )
}

// The type of the values; where it takes too many columns, appends a name for it.
fn put_values(
    alloc: Global,
    out: &mut String,
    described: &Described,
    fields: &[Field],
) -> Made<String> {
    let values = pairs(alloc, &types(alloc, fields)?, "()")?;
    let this = self_type(alloc, described)?;
    let generics = generics(alloc, &described.parameter, "")?;
    let header = format!(in alloc; "impl{generics} From<{values}> for {this} {{")?;
    let signature = format!(in alloc; "    fn from(values: {values}) -> {this} {{")?;
    let wide = width(header.as_str()).max(width(signature.as_str()));
    if wide <= COLUMNS {
        return Ok(values);
    }
    let name = format!(in alloc; "{}Values{generics}", described.name.as_str())?;
    write!(out, "type {name} = {values};\n\n")?;
    Ok(name)
}
