//! The whole work, over the input's bytes.
ghost use Rattle.std.specs.Prelude.{◌≡◌, IsOk, IsUtf8};

use crate::fault::{Fault, OrFault};
use crate::input::Input;
use crate::parse::items;
use crate::print::described::put_described;
use crate::print::uses::put_uses;
use crate::tokens::cut;
use std::alloc::Global;
use std::str;

/// What `describe` answers of these bytes.
///
/// # Errors
///
/// - `NotText` where the bytes are not UTF-8
/// - each other one of `describe`
pub fn describe_bytes(alloc: Global, bytes: &[u8]) -> OrFault<String>
    ensures text { IsOk result → IsUtf8 bytes.now }
    ensures not_text { ¬ IsUtf8 bytes.now → result ≡ Err Fault.NotText }
{
    match str::from_utf8(bytes) {
        Ok(text) => describe(alloc, text),
        Err(_) => Err(Fault::NotText),
    }
}

/// The types of `text` as described types: their imports, and for each the type and its impls.
///
/// # Errors
///
/// - `Refused` of a line and why, where the text holds a form that is not written
/// - `Memory` where no memory is found
pub fn describe(alloc: Global, text: &str) -> OrFault<String> {
    let mut input = Input::new(alloc, cut(alloc, text)?)?;
    let types = items(alloc, &mut input)?;
    let mut out = String::new(alloc);
    put_uses(alloc, &mut out, &types)?;
    for (i, described) in types.iter().enumerate() {
        if i != 0 {
            out.push('\n')?;
        }
        put_described(alloc, &mut out, described)?;
    }
    Ok(out)
}
