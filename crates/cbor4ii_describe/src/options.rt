//! What attributes of a type say.
ghost use Rattle.std.specs.Prelude.{◌≡◌, ◌<◌, ◌≤◌, ◌^◌, OnOk, None, Some, false, true};
ghost use Rattle.cbor4ii_describe.specs.Input.{Shorter, NoLonger};

use crate::fault::{OrFault, Why, refused};
use crate::input::Input;
use crate::shape::{Head, Key};
use crate::types::rest_of_attribute;
use std::alloc::Global;

// How far the least integer of 64 bits with a sign is below zero.
const LEAST: u64 = 1 << 63;

/// What the attributes above an item say. By default they say nothing.
#[derive(Default, Drop)]
pub struct Options {
    /// The name that is written: `rename`.
    pub rename: Option<String>,
    /// The default in code, which is empty where only the type tells it: `default`.
    pub default: Option<String>,
    /// Whether none is not written: `skip_serializing_if`.
    pub left_out: bool,
    /// Whether the field may come once, which is so where nothing else is said: `once`.
    pub once: bool,
    /// Whether the last of several counts: `last`.
    pub last: bool,
    /// What is said where the field is missing: `missing`.
    pub words: Option<String>,
    /// The integer that is the field's key: `key`.
    pub key: Option<Key>,
    /// The tag before what the type holds: `tag`.
    pub tag: Option<u64>,
    /// Whether the struct is written as an array: `array`.
    pub array: bool,
    /// The path of the module that an enum stands in: `module`.
    pub module: Option<String>,
    /// Whether a derive stands among them.
    pub derives: bool,
}

impl Options {
    /// Whether they say nothing.
    pub fn are_none(&self) -> bool {
        self.rename.is_none() && self.are_of_field() && self.are_of_type()
    }

    /// Whether they say nothing that a type alone may have.
    pub fn are_of_field(&self) -> bool {
        self.tag.is_none() && !self.array && self.module.is_none()
    }

    /// Whether they say nothing that a field alone may have.
    pub fn are_of_type(&self) -> bool {
        self.default.is_none()
            && self.words.is_none()
            && self.key.is_none()
            && !self.left_out
            && !self.once
            && !self.last
    }
}

/// Takes what stands above an item, and its visibility.
pub fn head(alloc: Global, input: &mut Input, options: &mut Options) -> OrFault<Head>
    ensures { OnOk result (NoLonger input.old input.new) }
{
    let mut lines = Vec::new(alloc);
    while is_above(input) {
        let line = line_above(alloc, input, options)?;
        if !line.is_empty() {
            lines.push(line)?;
        }
    }
    let visibility = visibility(alloc, input)?;
    Ok(Head { lines, visibility })
}

fn is_above(input: &Input) -> bool {
    match input.peek() {
        Some(token) => token.text.as_str() == "#" || token.text.as_str().starts_with("///"),
        None => false,
    }
}

fn line_above(alloc: Global, input: &mut Input, options: &mut Options) -> OrFault<String>
    ensures { OnOk result (Shorter input.old input.new) }
{
    if input.took("#") {
        attribute(alloc, input, options)
    } else {
        match input.take() {
            Some(token) => Ok(String::from_str(alloc, token.text.as_str().trim_end())?),
            None => refused(input.line(), Why::Unexpected),
        }
    }
}

fn attribute(alloc: Global, input: &mut Input, options: &mut Options) -> OrFault<String>
    ensures { OnOk result (Shorter input.old input.new) }
{
    input.want("[")?;
    let name = input.name()?;
    match name.as_str() {
        "serde" | "describe" => our_options(alloc, input, name.as_str(), options),
        "derive" => {
            options.derives = true;
            derive(alloc, input)
        }
        _ => rest_of_attribute(alloc, input, name.as_str()),
    }
}

// Takes the options of an attribute of this name, which is not kept.
fn our_options(
    alloc: Global,
    input: &mut Input,
    name: &str,
    options: &mut Options,
) -> OrFault<String>
    ensures { OnOk result (Shorter input.old input.new) }
{
    input.want("(")?;
    while !input.took(")") {
        match name {
            "serde" => serde_option(alloc, input, options)?,
            _ => own_option(alloc, input, options)?,
        }
        input.end_part(")")?;
    }
    input.want("]")?;
    Ok(String::new(alloc))
}

fn serde_option(alloc: Global, input: &mut Input, options: &mut Options) -> OrFault<()>
    ensures { OnOk result (Shorter input.old input.new) }
{
    let name = input.name()?;
    match name.as_str() {
        "rename" => options.rename = Some(value(alloc, input)?),
        "default" if input.is_next("=") => options.default = Some(value(alloc, input)?),
        "default" => options.default = Some(String::new(alloc)),
        "skip_serializing_if" => {
            options.left_out = true;
            if value(alloc, input)?.as_str() != "Option::is_none" {
                return refused(input.line(), Why::Attribute);
            }
        }
        _ => return refused(input.line(), Why::Attribute),
    }
    Ok(())
}

fn own_option(alloc: Global, input: &mut Input, options: &mut Options) -> OrFault<()>
    ensures { OnOk result (Shorter input.old input.new) }
{
    let name = input.name()?;
    match name.as_str() {
        "once" => options.once = true,
        "last" => options.last = true,
        "array" => options.array = true,
        "missing" => options.words = Some(value(alloc, input)?),
        "module" => options.module = Some(value(alloc, input)?),
        "key" => options.key = Some(key(input)?),
        "tag" => {
            input.want("=")?;
            options.tag = Some(input.integer()?);
        }
        _ => return refused(input.line(), Why::Attribute),
    }
    Ok(())
}

fn key(input: &mut Input) -> OrFault<Key>
    ensures { OnOk result (Shorter input.old input.new) }
{
    input.want("=")?;
    let is_negative = input.took("-");
    let size = input.integer()?;
    match key_of(is_negative, size) {
        Some(key) => Ok(key),
        None => refused(input.line(), Why::Integer),
    }
}

// The integer of this size and sign, where it is one of 64 bits with a sign.
fn key_of(is_negative: bool, size: u64) -> Option<Key>
    ensures positive { is_negative ≡ false → size < 2 ^ 63 → result ≡ Some (Key.Positive size) }
    ensures negative { is_negative ≡ true → 0 < size → size ≤ 2 ^ 63
        → result ≡ Some (Key.Negative size) }
    ensures too_large { 2 ^ 63 < size → result ≡ None }
{
    match is_negative {
        true if 0 < size && size <= LEAST => Some(Key::Negative(size)),
        _ if size < LEAST => Some(Key::Positive(size)),
        _ => None,
    }
}

fn value(alloc: Global, input: &mut Input) -> OrFault<String>
    ensures { OnOk result (Shorter input.old input.new) }
{
    input.want("=")?;
    input.text(alloc)
}

// The attribute with `Drop`, where it has no `Copy`, and without what serde derives.
fn derive(alloc: Global, input: &mut Input) -> OrFault<String>
    ensures { OnOk result (Shorter input.old input.new) }
{
    let mut line = String::from_str(alloc, "#[derive(")?;
    let mut drops = true;
    input.want("(")?;
    while !input.took(")") {
        let path = path(alloc, input)?;
        drops = drops && path.as_str() != "Drop" && path.as_str() != "Copy";
        if !is_of_serde(path.as_str()) {
            line.push_str(path.as_str())?;
            line.push_str(", ")?;
        }
        input.end_part(")")?;
    }
    input.want("]")?;
    if drops {
        line.push_str("Drop")?;
    }
    Ok(format!(in alloc; "{})]", line.as_str().trim_end_matches(", "))?)
}

fn is_of_serde(path: &str) -> bool {
    matches!(
        path,
        "Serialize" | "Deserialize" | "serde::Serialize" | "serde::Deserialize"
    )
}

// Takes a path: names with colons between them.
fn path(alloc: Global, input: &mut Input) -> OrFault<String>
    ensures { OnOk result (Shorter input.old input.new) }
{
    let mut path = input.name()?;
    while input.is_next(":") {
        input.want(":")?;
        input.want(":")?;
        path.push_str("::")?;
        path.push_str(input.name()?.as_str())?;
    }
    Ok(path)
}

// Takes what says who sees an item: `pub` or the like with a space, or nothing.
fn visibility(alloc: Global, input: &mut Input) -> OrFault<String>
    ensures { OnOk result (NoLonger input.old input.new) }
{
    if !input.took("pub") {
        return Ok(String::new(alloc));
    }
    if !input.took("(") {
        return Ok(String::from_str(alloc, "pub ")?);
    }
    let name = input.name()?;
    input.want(")")?;
    Ok(format!(in alloc; "pub({name}) ")?)
}
