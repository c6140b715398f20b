//! The words that the impls of a type share.
ghost use Rattle.std.specs.Prelude.{◌≡◌, IfOk, string_bytes};
ghost use Rattle.cbor4ii_describe.specs.Text.{self_type, generics};

use crate::print::layout::Made;
use crate::shape::{Described, Parameter};
use std::alloc::Global;

/// The type with its parameter, as `Page<T>`.
pub fn self_type(alloc: Global, described: &Described) -> Made<String>
    ensures { IfOk result (λ text. string_bytes text ≡ self_type described.now) }
{
    let name = described.name.as_str();
    match &described.parameter {
        Parameter::Nothing => String::from_str(alloc, name),
        Parameter::Lifetime(p) | Parameter::Generic(p) => format!(in alloc; "{name}<{p}>"),
    }
}

/// What stands behind `impl`, with this bound on a type parameter.
pub fn generics(alloc: Global, parameter: &Parameter, bound: &str) -> Made<String>
    ensures { IfOk result (λ text. string_bytes text ≡ generics parameter.now bound.now) }
{
    match parameter {
        Parameter::Nothing => Ok(String::new(alloc)),
        Parameter::Lifetime(p) => format!(in alloc; "<{p}>"),
        Parameter::Generic(p) => format!(in alloc; "<{p}{bound}>"),
    }
}

/// The letter that stands for a value in a ghost.
pub fn letter(name: &str) -> char {
    match name.chars().next() {
        Some(c) if c.is_ascii_alphabetic() => c.to_ascii_lowercase(),
        _ => 'x',
    }
}
