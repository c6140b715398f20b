//! The parts of the impls of an enum that go by its variants.
use crate::fault::OrFault;
use crate::print::codec::put_fields;
use crate::print::deserialize::put_presences;
use crate::print::layout::{Made, joined, list, nested, pairs, put_arm, put_with_codec};
use crate::print::lists::{keys, missing, names, pair_place, types};
use crate::print::types::letter;
use crate::shape::{Content, Described, Field, Form, Parameter, Variant};
use std::alloc::Global;

// The names of a variant's parts, in a ghost and where they have none.
const PLACES: [&str; 4] = ["first", "second", "third", "fourth"];

fn place_names(alloc: Global, count: usize) -> Made<Vec<String>> {
    let mut names = Vec::new(alloc);
    for name in PLACES.iter().take(count) {
        names.push(String::from_str(alloc, name)?)?;
    }
    Ok(names)
}

fn quoted(alloc: Global, text: &str) -> Made<String> {
    format!(in alloc; "\"{text}\"")
}

// A variant and its parts, as a pattern or as a value.
fn parts(alloc: Global, name: &str, variant: &Variant) -> Made<String> {
    let path = format!(in alloc; "{name}::{}", variant.name)?;
    match &variant.holds {
        Content::Nothing => Ok(path),
        Content::Items(items) => {
            let names = list(alloc, &place_names(alloc, items.len())?)?;
            format!(in alloc; "{path}({names})")
        }
        Content::Fields(fields) => {
            let names = list(alloc, &names(alloc, fields)?)?;
            format!(in alloc; "{path} {{ {names} }}")
        }
    }
}

/// Appends the match that writes an enum.
pub fn put_match(
    alloc: Global,
    out: &mut String,
    described: &Described,
    variants: &[Variant],
) -> Made<()> {
    out.push_str("        match self {\n")?;
    for (i, variant) in variants.iter().enumerate() {
        let pattern = parts(alloc, described.name.as_str(), variant)?;
        let call = writing(alloc, described.label.as_str(), i, variant)?;
        put_arm(out, pattern.as_str(), call.as_str())?;
    }
    out.push_str("        }\n")
}

// The call that writes a variant, which has this place in its enum.
fn writing(alloc: Global, label: &str, place: usize, variant: &Variant) -> Made<String> {
    let mut items = Vec::new(alloc);
    items.push(quoted(alloc, label)?)?;
    items.push(format!(in alloc; "{place}")?)?;
    items.push(quoted(alloc, variant.label.as_str())?)?;
    let open = match &variant.holds {
        Content::Nothing => String::from_str(alloc, "ser.serialize_unit_variant(")?,
        Content::Items(types) => {
            items.push(held(alloc, types.len())?)?;
            String::from_str(alloc, "ser.serialize_newtype_variant(")?
        }
        Content::Fields(fields) => {
            push_named(alloc, &mut items, fields)?;
            writing_fields(alloc, fields.len())?
        }
    };
    format!(in alloc; "{open}{})", list(alloc, &items)?)
}

// What a variant of so many items gives to be written: its only one, or a tuple.
fn held(alloc: Global, count: usize) -> Made<String> {
    let names = place_names(alloc, count)?;
    if count == 1 {
        list(alloc, &names)
    } else {
        format!(in alloc; "&(*{})", joined(alloc, &names, ", *")?)
    }
}

fn push_named(alloc: Global, items: &mut Vec<String>, fields: &[Field]) -> Made<()> {
    let keys = keys(alloc, fields)?;
    for (key, field) in keys.into_iter().zip(fields) {
        items.push(key)?;
        items.push(String::from_str(alloc, field.name.as_str())?)?;
    }
    Ok(())
}

// The call that writes a variant of so many fields, up to its bracket.
fn writing_fields(alloc: Global, count: usize) -> Made<String> {
    match count {
        1 => String::from_str(alloc, "ser.serialize_variant_of_1_field("),
        _ => format!(in alloc; "ser.serialize_variant_of_{count}_fields("),
    }
}

/// Appends how an enum is read.
pub fn put_variants(
    alloc: Global,
    out: &mut String,
    label: &str,
    words: &str,
    variants: &[Variant],
) -> Made<()> {
    let mut labels = Vec::new(alloc);
    for variant in variants {
        labels.push(quoted(alloc, variant.label.as_str())?)?;
    }
    let labels = list(alloc, &labels)?;
    write!(
        out,
        "        let variants = [{labels}];\n        let others = Otherwise(\"{words}\");\n"
    )?;
    let mut end = variants.len();
    for (i, variant) in variants.iter().enumerate().rev() {
        if let Content::Fields(fields) = &variant.holds {
            put_others(alloc, out, variants, i.saturating_add(1), end)?;
            put_reading(alloc, out, fields)?;
            end = i;
        }
    }
    put_others(alloc, out, variants, 0, end)?;
    write!(
        out,
        "        de.deserialize_variant(alloc, \"{label}\", &variants, others)\n"
    )
}

// Appends what the variants of these places hold, before the others.
fn put_others(
    alloc: Global,
    out: &mut String,
    variants: &[Variant],
    begin: usize,
    end: usize,
) -> Made<()> {
    let mut cases = Vec::new(alloc);
    for variant in variants.get(begin..end).unwrap_or(&[]) {
        let case = match variant.holds {
            Content::Nothing => "Unit",
            _ => "Holds",
        };
        cases.push(String::from_str(alloc, case)?)?;
    }
    if cases.is_empty() {
        return Ok(());
    }
    let others = pairs(alloc, &cases, "others")?;
    write!(out, "        let others = {others};\n")
}

fn put_reading(alloc: Global, out: &mut String, fields: &[Field]) -> Made<()> {
    let names = list(alloc, &keys(alloc, fields)?)?;
    let missing = list(alloc, &missing(alloc, fields)?)?;
    write!(
        out,
        "        let names = &[{names}];\n        let missing = &[{missing}];\n"
    )?;
    out.push_str("        let words = FieldWords(names, missing, PhantomData);\n")?;
    put_presences(alloc, out, fields)?;
    out.push_str("        let others = HoldsFields(words, presences, others);\n")
}

/// Appends the type of what is read of an enum, and how the enum is made of it. An arm takes
/// several fields apart in a statement: a pattern by value that names them in place may not move
/// more than one.
pub fn put_from_choice(
    alloc: Global,
    out: &mut String,
    name: &str,
    variants: &[Variant],
) -> Made<()> {
    put_choice(alloc, out, name, variants)?;
    let letter = letter(name);
    write!(
        out,
        "impl From<{name}Choice> for {name} {{\n    \
         ghost from_gives = {{ λ choice {letter}. {letter} ≡ elim choice "
    )?;
    put_made_cases(alloc, out, name, variants)?;
    write!(
        out,
        " }};\n\n    fn from(choice: {name}Choice) -> {name} {{\n        match choice {{\n"
    )?;
    for (i, variant) in variants.iter().enumerate() {
        let pattern = chosen(alloc, i, variant)?;
        let value = parts(alloc, name, variant)?;
        match &variant.holds {
            Content::Fields(fields) if fields.len() > 1 => {
                let names = pairs(alloc, &names(alloc, fields)?, "()")?;
                write!(
                    out,
                    "            {pattern} => {{\n                let {names} = fields;\n"
                )?;
                write!(out, "                {value}\n            }}\n")?;
            }
            _ => put_arm(out, pattern.as_str(), value.as_str())?,
        }
    }
    out.push_str("        }\n    }\n}\n\n")
}

// Appends the type of what is read of an enum.
fn put_choice(alloc: Global, out: &mut String, name: &str, variants: &[Variant]) -> Made<()> {
    let mut contents = Vec::new(alloc);
    for variant in variants {
        contents.push(content_type(alloc, variant)?)?;
    }
    let choice = nested(alloc, "Choice<", &contents, "Never", ">")?;
    write!(out, "type {name}Choice = {choice};\n\n")
}

// The type of what a variant holds, in a case or in the codec.
fn content_type(alloc: Global, variant: &Variant) -> Made<String> {
    match &variant.holds {
        Content::Nothing => String::from_str(alloc, "()"),
        Content::Items(items) => tuple(alloc, items),
        Content::Fields(fields) => pairs(alloc, &types(alloc, fields)?, "()"),
    }
}

fn tuple(alloc: Global, items: &[String]) -> Made<String> {
    let items_text = list(alloc, items)?;
    if items.len() == 1 {
        Ok(items_text)
    } else {
        format!(in alloc; "({items_text})")
    }
}

// The pattern of what is read of the variant of this place.
fn chosen(alloc: Global, place: usize, variant: &Variant) -> Made<String> {
    let held = match &variant.holds {
        Content::Nothing => String::from_str(alloc, "()")?,
        Content::Items(items) => tuple(alloc, &place_names(alloc, items.len())?)?,
        Content::Fields(fields) if fields.len() > 1 => String::from_str(alloc, "fields")?,
        Content::Fields(fields) => pairs(alloc, &names(alloc, fields)?, "()")?,
    };
    let first = format!(in alloc; "First({held})")?;
    among(alloc, place, "Other(", first.as_str())
}

// The first choice, behind so many others: each is this word and a bracket.
fn among(alloc: Global, place: usize, other: &str, first: &str) -> Made<String> {
    let mut text = String::new(alloc);
    for _ in 0..place {
        text.push_str(other)?;
    }
    text.push_str(first)?;
    for _ in 0..place {
        text.push(')')?;
    }
    Ok(text)
}

// Appends which choice each variant is, by cases.
fn put_cases(alloc: Global, out: &mut String, name: &str, variants: &[Variant]) -> Made<()> {
    for (i, variant) in variants.iter().enumerate() {
        put_case(alloc, out, name, variant)?;
        write!(out, "{}\n", ghost_choice(alloc, i, variant)?)?;
    }
    Ok(())
}

// Appends what begins the case of a variant in a ghost.
fn put_case(alloc: Global, out: &mut String, name: &str, variant: &Variant) -> Made<()> {
    write!(out, "| {name}.{}", variant.name)?;
    for place in place_names(alloc, count(variant))? {
        write!(out, " {place}")?;
    }
    out.push_str(" ↦ ")
}

// Appends which variant each choice is, by cases inside one another.
fn put_made_cases(alloc: Global, out: &mut String, name: &str, variants: &[Variant]) -> Made<()> {
    out.push_str("[\n")?;
    for (i, variant) in variants.iter().enumerate() {
        write!(out, "| First held ↦ {name}.{}", variant.name)?;
        put_held_places(alloc, out, variant)?;
        let is_last = i + 1 == variants.len();
        let end = if is_last { " ]\n" } else { "\n" };
        write!(out, "\n| Other others ↦ elim others [{end}")?;
    }
    for _ in variants.iter().skip(1) {
        out.push_str("]\n")?;
    }
    out.push(']')
}

// Appends the parts of a variant by their places in what is held.
fn put_held_places(alloc: Global, out: &mut String, variant: &Variant) -> Made<()> {
    match &variant.holds {
        Content::Nothing => {}
        Content::Items(items) if items.len() == 1 => out.push_str(" held")?,
        Content::Items(items) => {
            for place in 0..items.len() {
                write!(out, " held.{place}")?;
            }
        }
        Content::Fields(fields) => {
            for others in 0..fields.len() {
                write!(out, " held{}", pair_place(alloc, others)?)?;
            }
        }
    }
    Ok(())
}

fn count(variant: &Variant) -> usize {
    match &variant.holds {
        Content::Nothing => 0,
        Content::Items(items) => items.len(),
        Content::Fields(fields) => fields.len(),
    }
}

// The choice that the variant of this place is, in a ghost.
fn ghost_choice(alloc: Global, place: usize, variant: &Variant) -> Made<String> {
    let names = place_names(alloc, count(variant))?;
    let held = match &variant.holds {
        Content::Nothing => String::from_str(alloc, "tt")?,
        Content::Items(_) => tuple(alloc, &names)?,
        Content::Fields(_) => pairs(alloc, &names, "no_values")?,
    };
    let first = format!(in alloc; "First {held}")?;
    among(alloc, place, "Other (", first.as_str())
}

/// Appends the codec of an enum.
pub fn put_enum_codec(
    alloc: Global,
    out: &mut String,
    name: &str,
    words: &str,
    variants: &[Variant],
) -> OrFault<()> {
    out.push_str("    ghost codec = { enum_codec (elim [\n")?;
    put_cases(alloc, out, name, variants)?;
    out.push_str("])\n        (elim ")?;
    put_made_cases(alloc, out, name, variants)?;
    out.push_str(")\n        (elim [\n")?;
    for variant in variants {
        put_case(alloc, out, name, variant)?;
        out.push_str("refl\n")?;
    }
    out.push_str("])\n")?;
    for variant in variants {
        put_variant_codec(alloc, out, variant)?;
    }
    write!(
        out,
        "        (no_case {{V = Infallible}} (codes \"{words}\"))"
    )?;
    for _ in variants {
        out.push_str(" refl)")?;
    }
    Ok(())
}

fn put_variant_codec(alloc: Global, out: &mut String, variant: &Variant) -> OrFault<()> {
    let label = variant.label.as_str();
    match &variant.holds {
        Content::Nothing => write!(out, "        (unit_variant (codes \"{label}\")\n")?,
        Content::Items(_) => {
            let held = content_type(alloc, variant)?;
            let begin = format!(in alloc; "(variant (codes \"{label}\")")?;
            let codec = format!(in alloc; "⟦<{held} as Described>⟧.codec")?;
            put_with_codec(out, begin.as_str(), codec.as_str())?;
        }
        Content::Fields(fields) => {
            write!(out, "        (variant_of_fields (codes \"{label}\")\n")?;
            put_fields(alloc, out, Form::Named, fields, &Parameter::Nothing)?;
            out.push_str(" refl\n")?;
        }
    }
    Ok(())
}
