//! What the impls import.
use crate::print::codec::held_type;
use crate::print::layout::{COLUMNS, Made, list, width};
use crate::shape::{Content, Described, Field, Form, Key, Parameter, Presence, Shape, Variant};
use crate::types::mentions;
use std::alloc::Global;

// What a name is imported for.
#[derive(Clone, Copy, PartialEq, Eq)]
enum For {
    Each,
    Newtype,
    Codes,
    Tag,
    Enum,
    Never,
    SecondVariant,
    Unit,
    Items,
    VariantFields,
    Values,
    Struct,
    Fields,
    Keyed,
    Array,
    Listed,
    AnyReader,
    Slice,
    Parameter,
    ParameterOfField,
    OptionOfParameter,
    VectorOfParameter,
    Required,
    Once,
    Or,
    LeftOut,
    Plain,
    PlainOnce,
    OrElse,
    OrElseOnce,
    LeftOutPlain,
    LeftOutOnce,
    Positive,
    Negative,
    Pos,
    OrNone,
    OrTrue,
    OrFalse,
}

// An array of rows: a row a line.
macro_rules! table {
    ($($row:tt)*) => { [$($row)*] };
}

// The ghost words: where each is defined, and what it is imported for.
const WORDS: [(&str, &str, For); 37] = table! {
    ("std.specs.Prelude", "◌≡◌", For::Each),
    ("std.specs.Prelude", "None", For::OrNone),
    ("std.specs.Prelude", "true", For::OrTrue),
    ("std.specs.Prelude", "false", For::OrFalse),
    ("std.specs.Prelude", "codes", For::Codes),
    ("std.specs.Prelude", "pos", For::Pos),
    ("std.proofs.Common", "refl", For::Each),
    ("cbor4ii.specs.Codec", "codec_of", For::Newtype),
    ("cbor4ii.specs.Codec", "option_codec", For::OptionOfParameter),
    ("cbor4ii.specs.Codec", "vector_codec", For::VectorOfParameter),
    ("cbor4ii.specs.CodecAgrees", "as_described", For::Each),
    ("cbor4ii.specs.CodecAgrees", "its_codec", For::Parameter),
    ("cbor4ii.specs.CodecAgrees", "both_are", For::ParameterOfField),
    ("cbor4ii.specs.CodecCases", "enum_codec", For::Enum),
    ("cbor4ii.specs.CodecCases", "unit_variant", For::Unit),
    ("cbor4ii.specs.CodecCases", "variant", For::Items),
    ("cbor4ii.specs.CodecCases", "variant_of_fields", For::VariantFields),
    ("cbor4ii.specs.CodecCases", "no_case", For::Enum),
    ("cbor4ii.specs.CodecElements", "elements_codec", For::Array),
    ("cbor4ii.specs.CodecElements", "with_element", For::Array),
    ("cbor4ii.specs.CodecElements", "no_elements", For::Array),
    ("cbor4ii.specs.CodecFields", "struct_codec", For::Struct),
    ("cbor4ii.specs.CodecFields", "with_field", For::Plain),
    ("cbor4ii.specs.CodecFields", "with_field_once", For::PlainOnce),
    ("cbor4ii.specs.CodecFields", "with_field_or", For::OrElse),
    ("cbor4ii.specs.CodecFields", "with_field_once_or", For::OrElseOnce),
    ("cbor4ii.specs.CodecFields", "with_optional_field", For::LeftOutPlain),
    ("cbor4ii.specs.CodecFields", "with_optional_field_once", For::LeftOutOnce),
    ("cbor4ii.specs.CodecFields", "no_fields", For::Fields),
    ("cbor4ii.specs.CodecFields", "no_keys", For::Keyed),
    ("cbor4ii.specs.CodecItems", "tagged_codec", For::Tag),
    ("cbor4ii.specs.Fields", "no_values", For::Values),
    ("cbor4ii.specs.Keys", "plus", For::Positive),
    ("cbor4ii.specs.Keys", "minus", For::Negative),
    ("std.specs.declared.string.ParseError", "Infallible", For::Enum),
    ("cbor4ii.specs.declared.serde.de.cases.Choice.TheVariants", "First", For::Enum),
    ("cbor4ii.specs.declared.serde.de.cases.Choice.TheVariants", "Other", For::Enum),
};

// The names of `cbor4ii::serde`, in order.
const NAMES: [(&str, For); 21] = [
    ("AsDescribed", For::Each),
    ("Choice", For::Enum),
    ("DecodeError", For::Each),
    ("Described", For::Each),
    ("Deserialize", For::Each),
    ("Deserializer", For::Each),
    ("EncodeError", For::Each),
    ("FieldValues", For::Listed),
    ("FieldWords", For::VariantFields),
    ("Holds", For::Items),
    ("HoldsFields", For::VariantFields),
    ("IfSome", For::LeftOut),
    ("Once", For::Once),
    ("Optional", For::LeftOut),
    ("Or", For::Or),
    ("Otherwise", For::Enum),
    ("Required", For::Required),
    ("Serialize", For::Each),
    ("Serializer", For::Each),
    ("Typed", For::Each),
    ("Unit", For::Unit),
];

/// Appends what these types import, and an empty line.
pub fn put_uses(alloc: Global, out: &mut String, types: &[Described]) -> Made<()> {
    put_words(out, types)?;
    out.push('\n')?;
    if is_wanted(types, For::AnyReader) {
        out.push_str("use cbor4ii::dec::Source;\n")?;
    }
    out.push_str("use cbor4ii::enc::Write;\n")?;
    if is_wanted(types, For::Never) {
        out.push_str("use cbor4ii::error::Never;\n")?;
    }
    if is_wanted(types, For::SecondVariant) {
        out.push_str("use cbor4ii::serde::Choice::{First, Other};\n")?;
    } else if is_wanted(types, For::Enum) {
        out.push_str("use cbor4ii::serde::Choice::First;\n")?;
    }
    let names = list(alloc, &serde_names(alloc, types)?)?;
    write!(out, "use cbor4ii::serde::{{{names}}};\n")?;
    if is_wanted(types, For::Slice) {
        out.push_str("use cbor4ii::utils::SliceReader;\n")?;
    }
    out.push_str("use std::alloc::Global;\n")?;
    if is_wanted(types, For::VariantFields) {
        out.push_str("use std::marker::PhantomData;\n")?;
    }
    out.push('\n')
}

// Appends the lines of the ghost words: as many words of one file on a line as it has room for.
fn put_words(out: &mut String, types: &[Described]) -> Made<()> {
    let mut open = None;
    let mut at: usize = 0;
    for (file, word, why) in WORDS {
        if is_wanted(types, why) {
            let more = width(word).saturating_add(2);
            if open == Some(file) && at.saturating_add(more) <= COLUMNS {
                write!(out, ", {word}")?;
                at = at.saturating_add(more);
            } else {
                end_line(out, open.is_some())?;
                begin_line(out, file, word)?;
                at = width(file).saturating_add(width(word)).saturating_add(21);
            }
            open = Some(file);
        }
    }
    end_line(out, open.is_some())?;
    for described in types {
        if let Some(module) = &described.module {
            put_own(out, module.as_str(), described.name.as_str())?;
        }
    }
    Ok(())
}

fn put_own(out: &mut String, module: &str, name: &str) -> Made<()> {
    out.push_str("ghost use Rattle")?;
    for (i, part) in module.split("::").enumerate() {
        write!(out, ".{part}")?;
        if i == 0 {
            out.push_str(".specs.declared")?;
        }
    }
    write!(out, ".{name}.{{{name}}};\n")
}

fn begin_line(out: &mut String, file: &str, word: &str) -> Made<()> {
    write!(out, "ghost use Rattle.{file}.{{{word}")
}

fn end_line(out: &mut String, is_open: bool) -> Made<()> {
    if is_open {
        out.push_str("};\n")
    } else {
        Ok(())
    }
}

fn serde_names(alloc: Global, types: &[Described]) -> Made<Vec<String>> {
    let mut names = Vec::new(alloc);
    for (name, why) in NAMES {
        if is_wanted(types, why) {
            names.push(String::from_str(alloc, name)?)?;
        }
    }
    Ok(names)
}

// Whether one of the types imports what is imported for this. Those below ask it of a part.
fn is_wanted(types: &[Described], why: For) -> bool {
    types.iter().any(|described| wants(described, why))
}

fn wants(described: &Described, why: For) -> bool {
    let parameter = &described.parameter;
    match (why, &described.shape) {
        (For::Each, _) => true,
        (_, Shape::Variants { variants, .. }) => enum_wants(variants, why),
        (For::Slice | For::Never, _) => matches!(parameter, Parameter::Lifetime(_)),
        (For::AnyReader, _) => !matches!(parameter, Parameter::Lifetime(_)),
        (For::Newtype, Shape::Newtype { .. }) => true,
        (For::Tag, Shape::Newtype { tag, .. }) => tag.is_some(),
        (_, Shape::Newtype { its_type, .. }) => names(its_type.as_str(), parameter, why),
        (_, Shape::Fields { form, fields }) => {
            form_wants(*form, why)
                || fields.iter().any(|field| {
                    names(held_type(field), parameter, of_field(why))
                        || (*form != Form::Array && field_wants(field, why))
                })
        }
    }
}

fn form_wants(form: Form, why: For) -> bool {
    match why {
        For::Values => true,
        For::Struct => form != Form::Array,
        For::Codes | For::Fields => form == Form::Named,
        For::Keyed | For::Listed => form == Form::Keyed,
        For::Array => form == Form::Array,
        _ => false,
    }
}

// What a field imports a name for that a newtype does not import.
fn of_field(why: For) -> For {
    match why {
        For::ParameterOfField => For::Parameter,
        _ => why,
    }
}

// Whether a type in a type names the parameter in this way.
fn names(its_type: &str, parameter: &Parameter, why: For) -> bool {
    let Parameter::Generic(name) = parameter else {
        return false;
    };
    let is_so = match why {
        For::Parameter => true,
        For::OptionOfParameter => its_type.contains("Option<"),
        For::VectorOfParameter => its_type.contains("Vec<"),
        _ => false,
    };
    is_so && mentions(its_type, name.as_str())
}

fn enum_wants(variants: &[Variant], why: For) -> bool {
    match why {
        For::AnyReader | For::Codes | For::Enum | For::Never => true,
        For::SecondVariant => 1 < variants.len(),
        _ => variants.iter().any(|variant| variant_wants(variant, why)),
    }
}

fn variant_wants(variant: &Variant, why: For) -> bool {
    match (&variant.holds, why) {
        (Content::Nothing, For::Unit) => true,
        (Content::Items(_), For::Items) => true,
        (Content::Fields(_), For::VariantFields | For::Fields | For::Values) => true,
        (Content::Fields(fields), why) => fields.iter().any(|field| field_wants(field, why)),
        _ => false,
    }
}

fn field_wants(field: &Field, why: For) -> bool {
    match (&field.presence, why) {
        (_, For::Positive) => matches!(field.key, Key::Positive(_)),
        (_, For::Negative) => matches!(field.key, Key::Negative(_)),
        (_, For::Codes) => field.is_told(),
        (_, For::Once) => field.once,
        (Presence::Required, For::Required) => true,
        (Presence::Required, For::PlainOnce) => field.once,
        (Presence::Required, For::Plain) => !field.once,
        (Presence::LeftOut, For::LeftOut | For::Listed) => true,
        (Presence::LeftOut, For::LeftOutPlain) => !field.once,
        (Presence::LeftOut, For::LeftOutOnce) => field.once,
        (Presence::Or { .. }, For::Or) => true,
        (Presence::Or { .. }, For::OrElse) => !field.once,
        (Presence::Or { .. }, For::OrElseOnce) => field.once,
        (Presence::Or { ghost_text, .. }, why) => default_wants(ghost_text.as_str(), why),
        _ => false,
    }
}

fn default_wants(ghost_text: &str, why: For) -> bool {
    match why {
        For::OrNone => ghost_text == "None",
        For::OrTrue => ghost_text == "true",
        For::OrFalse => ghost_text == "false",
        For::Pos => ghost_text.starts_with("(pos"),
        _ => false,
    }
}
