//! Types, as text.
ghost use Rattle.std.specs.Prelude.{◌≡◌, ◌++◌, OnOk, IfSome, codes};
ghost use Rattle.cbor4ii_describe.specs.Input.{Shorter};
ghost use Rattle.cbor4ii_describe.specs.Text.{AppendsToken};

use crate::fault::{OrFault, Why};
use crate::input::Input;
use crate::print::layout::Made;
use std::alloc::Global;

/// Takes a type, up to the sign behind it: its text, on one line.
pub fn its_type(alloc: Global, input: &mut Input) -> OrFault<String>
    ensures { OnOk result (Shorter input.old input.new) }
{
    if ends(input, 0) {
        return Err(input.fault(Why::Unexpected));
    }
    let mut last = take_or(input)?;
    let mut text = String::from_str(alloc, last.as_str())?;
    let mut depth = depth_behind(0, last.as_str());
    while !ends(input, depth) {
        let token = take_or(input)?;
        depth = depth_behind(depth, token.as_str());
        push_token(&mut text, last.as_str(), token.as_str())?;
        last = token;
    }
    Ok(text)
}

/// Takes the rest of an attribute of this name: the attribute, on one line.
pub fn rest_of_attribute(alloc: Global, input: &mut Input, name: &str) -> OrFault<String>
    ensures { OnOk result (Shorter input.old input.new) }
{
    let mut text = format!(in alloc; "#[{name}")?;
    let mut last = String::from_str(alloc, name)?;
    let mut depth = 0;
    while depth != 0 || !input.is_next("]") {
        let token = take_or(input)?;
        depth = depth_behind(depth, token.as_str());
        push_token(&mut text, last.as_str(), token.as_str())?;
        last = token;
    }
    input.want("]")?;
    text.push_str("]")?;
    Ok(text)
}

fn take_or(input: &mut Input) -> OrFault<String>
    ensures { OnOk result (Shorter input.old input.new) }
{
    match input.take() {
        Some(token) => Ok(token.text),
        None => Err(input.fault(Why::NotClosed)),
    }
}

// Whether a type ends before the next token, so many brackets deep.
fn ends(input: &Input, depth: u32) -> bool {
    match input.peek() {
        Some(token) => depth == 0 && matches!(token.text.as_str(), "," | ";" | ")" | "}"),
        None => depth == 0,
    }
}

// How many brackets are open behind this token.
fn depth_behind(depth: u32, token: &str) -> u32 {
    match token {
        "<" | "(" | "[" | "{" => depth.saturating_add(1),
        ">" | ")" | "]" | "}" => depth.saturating_sub(1),
        _ => depth,
    }
}

// Appends a token behind this one, and behind a space where one belongs there.
fn push_token(text: &mut String, last: &str, token: &str) -> Made<()>
    ensures { OnOk result (AppendsToken text.old text.new token.now) }
{
    if is_apart(last, token) {
        text.push_str(" ")?;
    }
    text.push_str(token)
}

// Whether a space belongs between two tokens.
fn is_apart(last: &str, token: &str) -> bool {
    let (Some(end), Some(begin)) = (last.as_bytes().last(), token.as_bytes().first()) else {
        return false;
    };
    match (*end, *begin) {
        (_, b',' | b'>' | b';') => false,
        (b',' | b';' | b'+' | b'=', _) | (_, b'+' | b'=') => true,
        (_, b'[' | b'(' | b'&') => last.as_bytes().first() == Some(&b'\''),
        (end, begin) => is_in_word(end) && is_in_word(begin),
    }
}

// Whether a word may hold this byte.
fn is_in_word(byte: u8) -> bool {
    byte == b'_' || byte == b'\'' || byte.is_ascii_alphanumeric()
}

/// What an `Option` of this type may hold; none for another type.
pub fn in_option(its_type: &str) -> Option<&str>
    ensures { IfSome result (λ inner. its_type.now ≡ codes "Option<" ++ inner.now ++ codes ">") }
{
    its_type.strip_prefix("Option<")?.strip_suffix(">")
}

/// Whether the type names this parameter.
pub fn mentions(its_type: &str, parameter: &str) -> bool {
    its_type
        .split(|c: char| !(c == '_' || c.is_ascii_alphanumeric()))
        .any(|word| word == parameter)
}
