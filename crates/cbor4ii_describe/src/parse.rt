//! Types, read from their tokens.
ghost use Rattle.std.specs.Prelude.{◌≡◌, ◌<◌, ◌≤◌, OnOk, IfOk, IsSome, vec_len};
ghost use Rattle.cbor4ii_describe.specs.Input.{left_count, Shorter, NoLonger};

use crate::enums::variants;
use crate::fault::{OrFault, Why, refused};
use crate::input::Input;
use crate::options::{Options, head};
use crate::presence::presence;
use crate::shape::{Described, Field, Form, Head, Key, MOST_CALLED, Parameter, Shape, leaves_out};
use crate::types::its_type;
use std::alloc::Global;

/// How many fields a struct may have.
pub const MOST_FIELDS: usize = 12;

/// Takes all that is left: one type after another.
pub fn items(alloc: Global, input: &mut Input) -> OrFault<Vec<Described>>
    ensures { OnOk result (left_count input.new ≡ 0) }
{
    let mut items = Vec::new(alloc);
    while input.peek().is_some() {
        items.push(item(alloc, input)?)?;
    }
    if items.is_empty() {
        return Err(input.fault(Why::NoType));
    }
    Ok(items)
}

fn item(alloc: Global, input: &mut Input) -> OrFault<Described>
    ensures { OnOk result (Shorter input.old input.new) }
{
    let mut options = Options::default();
    let mut head = head(alloc, input, &mut options)?;
    let is_enum = begin(input)?;
    let name = input.name()?;
    let line = input.line();
    let parameter = parameter(input)?;
    if !options.derives {
        head.lines
            .push(String::from_str(alloc, "#[derive(Drop)]")?)?;
    }
    if !options.are_of_type() {
        return refused(line, Why::Attribute);
    }
    let shape = if is_enum {
        enum_shape(alloc, input, name.as_str(), &options)?
    } else {
        struct_shape(alloc, input, name.as_str(), &options)?
    };
    if let Some(why) = clash_of_parameter(&parameter, &shape) {
        return refused(line, why);
    }
    if is_enum && options.module.is_none() {
        return refused(line, Why::Module);
    }
    let label = or_name(alloc, options.rename, name.as_str())?;
    Ok(Described {
        head,
        name,
        label,
        parameter,
        module: options.module,
        shape,
        line,
    })
}

// Why a type of this shape may not have this parameter, if so.
fn clash_of_parameter(parameter: &Parameter, shape: &Shape) -> Option<Why> {
    match (parameter, shape) {
        (Parameter::Nothing, _) => None,
        (_, Shape::Variants { .. }) => Some(Why::EnumParameter),
        (Parameter::Lifetime(_), Shape::Fields { form, fields })
            if *form == Form::Keyed || leaves_out(fields) => { Some(Why::Borrows) }
        (Parameter::Lifetime(_), Shape::Fields { form, fields })
            if *form == Form::Named && fields.len() > MOST_CALLED => { Some(Why::BorrowedFields) }
        _ => None,
    }
}

// Takes the word that begins a type, and says whether it is an enum.
fn begin(input: &mut Input) -> OrFault<bool>
    ensures { OnOk result (Shorter input.old input.new) }
{
    if input.took("struct") {
        Ok(false)
    } else if input.took("enum") {
        Ok(true)
    } else {
        Err(input.fault(Why::NotType))
    }
}

// Takes the parameter, where there is one. Types named S and W stand in the impls already.
fn parameter(input: &mut Input) -> OrFault<Parameter>
    ensures { OnOk result (NoLonger input.old input.new) }
{
    if !input.took("<") {
        return Ok(Parameter::Nothing);
    }
    let name = input.word()?;
    if !input.took(">") {
        return Err(input.fault(Why::Parameters));
    }
    match name.as_str() {
        "S" | "W" => refused(input.line(), Why::Parameters),
        text if text.starts_with("'") => Ok(Parameter::Lifetime(name)),
        _ => Ok(Parameter::Generic(name)),
    }
}

fn enum_shape(alloc: Global, input: &mut Input, name: &str, options: &Options) -> OrFault<Shape>
    ensures { OnOk result (Shorter input.old input.new) }
{
    if options.array || options.tag.is_some() {
        return refused(input.line(), Why::Attribute);
    }
    input.want("{")?;
    let variants = variants(alloc, input)?;
    let words = format!(in alloc; "no such {}", in_words(alloc, name)?)?;
    Ok(Shape::Variants { variants, words })
}

fn struct_shape(alloc: Global, input: &mut Input, name: &str, options: &Options) -> OrFault<Shape>
    ensures { OnOk result (Shorter input.old input.new) }
{
    if options.module.is_some() {
        return refused(input.line(), Why::Attribute);
    }
    if input.took("{") {
        return fields_shape(alloc, input, name, options);
    }
    input.want("(")?;
    let (head, its_type) = unnamed(alloc, input)?;
    input.want(";")?;
    if options.array {
        return refused(input.line(), Why::Attribute);
    }
    Ok(Shape::Newtype {
        visibility: head.visibility,
        its_type,
        tag: options.tag,
    })
}

fn fields_shape(alloc: Global, input: &mut Input, name: &str, options: &Options) -> OrFault<Shape>
    ensures { OnOk result (Shorter input.old input.new) }
{
    let line = input.line();
    let fields = fields(alloc, input, name, options.array)?;
    if options.tag.is_some() {
        return refused(line, Why::Attribute);
    }
    let form = form(&fields, options.array);
    Ok(Shape::Fields { form, fields })
}

// What these fields are written as.
fn form(fields: &[Field], is_array: bool) -> Form {
    match fields.first() {
        _ if is_array => Form::Array,
        Some(field) if matches!(field.key, Key::Positive(_) | Key::Negative(_)) => Form::Keyed,
        _ => Form::Named,
    }
}

fn unnamed(alloc: Global, input: &mut Input) -> OrFault<(Head, String)>
    ensures { OnOk result (Shorter input.old input.new) }
{
    let mut options = Options::default();
    let head = head(alloc, input, &mut options)?;
    if !options.are_none() {
        return refused(input.line(), Why::Attribute);
    }
    let held = its_type(alloc, input)?;
    input.took(",");
    if !input.took(")") {
        return Err(input.fault(Why::TupleFields));
    }
    Ok((head, held))
}

/// Takes the fields up to the bracket that closes them, of a struct or a variant of this name.
pub fn fields(alloc: Global, input: &mut Input, owner: &str, is_array: bool) -> OrFault<Vec<Field>>
    ensures takes { OnOk result (Shorter input.old input.new) }
    ensures count { IfOk result (λ fields. (0 < vec_len fields) × (vec_len fields ≤ 12)) }
{
    let mut fields = Vec::new(alloc);
    while !input.took("}") {
        let next = field(alloc, input, owner, is_array)?;
        if let Some(why) = clash(&fields, &next.key) {
            return refused(next.line, why);
        }
        fields.push(next)?;
        input.end_part("}")?;
    }
    if fields.is_empty() || fields.len() > MOST_FIELDS {
        return refused(input.line(), Why::FieldCount);
    }
    Ok(fields)
}

// Why a field under this key may not stand behind these, if so.
fn clash(fields: &[Field], key: &Key) -> Option<Why> {
    for field in fields {
        let why = clash_of(&field.key, key);
        if why.is_some() {
            return why;
        }
    }
    None
}

// Why fields under these keys may not stand in one struct, if so.
fn clash_of(one: &Key, other: &Key) -> Option<Why>
    ensures { one.now ≡ other.now → IsSome result }
{
    match (one, other) {
        (Key::Name(one), Key::Name(other)) if one.as_str() == other.as_str() => Some(Why::SameName),
        (Key::Name(_), Key::Name(_)) => None,
        (Key::Name(_), _) | (_, Key::Name(_)) => Some(Why::MixedKeys),
        (Key::Positive(one), Key::Positive(other)) if one == other => Some(Why::SameKey),
        (Key::Negative(one), Key::Negative(other)) if one == other => Some(Why::SameKey),
        _ => None,
    }
}

fn field(alloc: Global, input: &mut Input, owner: &str, is_array: bool) -> OrFault<Field>
    ensures { OnOk result (Shorter input.old input.new) }
{
    let mut options = Options::default();
    let head = head(alloc, input, &mut options)?;
    let name = input.name()?;
    let line = input.line();
    if is_array && !options.are_none() {
        return refused(line, Why::ArrayField);
    }
    if !options.are_of_field() || (options.once && options.last) {
        return refused(line, Why::Attribute);
    }
    input.want(":")?;
    let its_type = its_type(alloc, input)?;
    let presence = presence(alloc, line, &options, its_type.as_str())?;
    let Options {
        rename,
        last,
        words,
        key,
        ..
    } = options;
    let once = !last;
    let key = key_or_name(alloc, line, key, rename, name.as_str())?;
    let words = match words {
        Some(words) => words,
        None => words_of(alloc, owner, &key, name.as_str(), once)?,
    };
    Ok(Field {
        head,
        name,
        its_type,
        key,
        words,
        presence,
        once,
        line,
    })
}

// What a field is written under: this integer, this name, or its own one.
fn key_or_name(
    alloc: Global,
    line: u32,
    key: Option<Key>,
    rename: Option<String>,
    name: &str,
) -> OrFault<Key> {
    match (key, rename) {
        (Some(_), Some(_)) => refused(line, Why::Attribute),
        (Some(key), None) => Ok(key),
        (None, rename) => Ok(Key::Name(or_name(alloc, rename, name)?)),
    }
}

/// The name that is written, where none is given the item's own.
pub fn or_name(alloc: Global, rename: Option<String>, name: &str) -> OrFault<String> {
    match rename {
        Some(name) => Ok(name),
        None => Ok(String::from_str(alloc, name)?),
    }
}

// What is said of a field that is missing: `a point has no x`. Of one that may come once it is said
// where it comes twice, too: `a point has one x`. A field under an integer has its own name.
fn words_of(alloc: Global, owner: &str, key: &Key, name: &str, once: bool) -> OrFault<String> {
    let called = match key {
        Key::Name(key) => key.as_str(),
        _ => name,
    };
    let owner = in_words(alloc, owner)?;
    let article = match owner.as_bytes().first() {
        Some(b'a' | b'e' | b'i' | b'o' | b'u') => "an",
        _ => "a",
    };
    let count = if once { "one" } else { "no" };
    Ok(format!(in alloc; "{article} {owner} has {count} {called}")?)
}

// A type's name as words: `a point` of `APoint`.
fn in_words(alloc: Global, name: &str) -> OrFault<String> {
    let mut words = String::new(alloc);
    for c in name.chars() {
        if c.is_ascii_uppercase() && !words.is_empty() {
            words.push(' ')?;
        }
        words.push(c.to_ascii_lowercase())?;
    }
    Ok(words)
}
