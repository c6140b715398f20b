//! Variants, read from their tokens.
ghost use Rattle.std.specs.Prelude.{◌<◌, ◌≤◌, OnOk, IfOk, vec_len};
ghost use Rattle.cbor4ii_describe.specs.Input.{Shorter, NoLonger};

use crate::fault::{OrFault, Why, refused};
use crate::input::Input;
use crate::options::{Options, head};
use crate::parse::{fields, or_name};
use crate::shape::{Content, Field, Key, Presence, Variant};
use crate::types::its_type;
use std::alloc::Global;

/// How many variants an enum may have.
pub const MOST_VARIANTS: usize = 12;

/// How many items a variant may hold.
pub const MOST_ITEMS: usize = 3;

/// How many fields a variant may have.
pub const MOST_VARIANT_FIELDS: usize = 4;

/// Takes the variants up to the bracket that closes them.
pub fn variants(alloc: Global, input: &mut Input) -> OrFault<Vec<Variant>>
    ensures takes { OnOk result (Shorter input.old input.new) }
    ensures count { IfOk result (λ variants. (0 < vec_len variants) × (vec_len variants ≤ 12)) }
{
    let mut variants = Vec::new(alloc);
    while !input.took("}") {
        let next = variant(alloc, input)?;
        if is_taken(&variants, next.label.as_str()) {
            return refused(next.line, Why::SameName);
        }
        variants.push(next)?;
        input.end_part("}")?;
    }
    if variants.is_empty() || variants.len() > MOST_VARIANTS {
        return refused(input.line(), Why::VariantCount);
    }
    Ok(variants)
}

// Whether one of these variants is written under this name.
fn is_taken(variants: &[Variant], label: &str) -> bool {
    variants
        .iter()
        .any(|variant| variant.label.as_str() == label)
}

fn variant(alloc: Global, input: &mut Input) -> OrFault<Variant>
    ensures { OnOk result (Shorter input.old input.new) }
{
    let mut options = Options::default();
    let head = head(alloc, input, &mut options)?;
    let name = input.name()?;
    let line = input.line();
    if !options.are_of_field() || !options.are_of_type() {
        return refused(line, Why::Attribute);
    }
    let label = or_name(alloc, options.rename, name.as_str())?;
    let holds = content(alloc, input, name.as_str())?;
    Ok(Variant {
        lines: head.lines,
        name,
        label,
        holds,
        line,
    })
}

// Takes what a variant of this name holds.
fn content(alloc: Global, input: &mut Input, name: &str) -> OrFault<Content>
    ensures { OnOk result (NoLonger input.old input.new) }
{
    if input.took("(") {
        return Ok(Content::Items(items(alloc, input)?));
    }
    if !input.took("{") {
        return Ok(Content::Nothing);
    }
    let fields = fields(alloc, input, name, false)?;
    if let Some(field) = fields.iter().find(|field| !may_stand(field)) {
        return refused(field.line, Why::VariantField);
    }
    if fields.len() > MOST_VARIANT_FIELDS {
        return refused(input.line(), Why::VariantFields);
    }
    Ok(Content::Fields(fields))
}

// Whether a field may stand in a variant.
fn may_stand(field: &Field) -> bool {
    matches!(field.key, Key::Name(_)) && !matches!(field.presence, Presence::LeftOut)
}

fn items(alloc: Global, input: &mut Input) -> OrFault<Vec<String>>
    ensures { OnOk result (Shorter input.old input.new) }
{
    let mut items = Vec::new(alloc);
    while !input.took(")") {
        items.push(item(alloc, input)?)?;
        input.end_part(")")?;
    }
    if items.is_empty() || items.len() > MOST_ITEMS {
        return refused(input.line(), Why::VariantItems);
    }
    if items.len() > 1 && !items.iter().all(|its_type| is_number(its_type.as_str())) {
        return refused(input.line(), Why::ItemTypes);
    }
    Ok(items)
}

// The numbers, bool and char, which are copied.
const NUMBERS: [&str; 12] = [
    "u8", "u16", "u32", "u64", "u128", "i8", "i16", "i32", "i64", "i128", "bool", "char",
];

fn is_number(its_type: &str) -> bool {
    NUMBERS.iter().any(|number| *number == its_type)
}

// Takes the type of an item, above which nothing stands.
fn item(alloc: Global, input: &mut Input) -> OrFault<String>
    ensures { OnOk result (Shorter input.old input.new) }
{
    let mut options = Options::default();
    let head = head(alloc, input, &mut options)?;
    if !options.are_none() || !head.lines.is_empty() {
        return refused(input.line(), Why::Attribute);
    }
    its_type(alloc, input)
}
