//! What a field is that is missing.
use crate::fault::{OrFault, Why, refused};
use crate::options::Options;
use crate::shape::Presence;
use crate::types::in_option;
use std::alloc::Global;

// What a default may be of.
#[derive(Clone, Copy, PartialEq, Eq)]
enum Sort {
    Optional,
    Bool,
    Unsigned,
    Signed,
    Other,
}

// What a default of this type may be.
fn sort_of(its_type: &str) -> Sort {
    match its_type {
        "bool" => Sort::Bool,
        "u8" | "u16" | "u32" | "u64" | "u128" | "usize" => Sort::Unsigned,
        "i8" | "i16" | "i32" | "i64" | "i128" | "isize" => Sort::Signed,
        _ if in_option(its_type).is_some() => Sort::Optional,
        _ => Sort::Other,
    }
}

/// What a field of this type and these options is where it is missing.
pub fn presence(alloc: Global, line: u32, options: &Options, its_type: &str) -> OrFault<Presence> {
    let sort = sort_of(its_type);
    match &options.default {
        _ if options.left_out => left_out(line, options, sort),
        Some(code) => or_default(alloc, line, code.as_str(), sort),
        None if sort == Sort::Optional => or_default(alloc, line, "", sort),
        None => Ok(Presence::Required),
    }
}

// That none is not written, for a field that may be none and has no other default.
fn left_out(line: u32, options: &Options, sort: Sort) -> OrFault<Presence> {
    match &options.default {
        Some(code) if !code.is_empty() => refused(line, Why::DefaultValue),
        _ if sort != Sort::Optional => refused(line, Why::LeftOut),
        _ => Ok(Presence::LeftOut),
    }
}

fn or_default(alloc: Global, line: u32, code: &str, sort: Sort) -> OrFault<Presence> {
    let text = match (sort, code) {
        (Sort::Optional, "") => "None",
        (Sort::Bool, "") => "false",
        (Sort::Unsigned | Sort::Signed, "") => "0",
        (_, code) => code,
    };
    if !is_default(text, sort) {
        return refused(line, Why::DefaultValue);
    }
    let code = String::from_str(alloc, text)?;
    let ghost_text = match sort {
        Sort::Signed => format!(in alloc; "(pos {text})")?,
        _ => String::from_str(alloc, text)?,
    };
    Ok(Presence::Or { code, ghost_text })
}

// Whether the text is a default of a type of this sort.
fn is_default(text: &str, sort: Sort) -> bool {
    match sort {
        Sort::Optional => text == "None",
        Sort::Bool => text == "true" || text == "false",
        Sort::Unsigned | Sort::Signed => {
            !text.is_empty() && text.bytes().all(|b| b.is_ascii_digit())
        }
        Sort::Other => false,
    }
}
