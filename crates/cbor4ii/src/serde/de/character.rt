//! Characters.
ghost use Rattle.std.specs.Prelude.{◌≡◌, true, IfSome, IsNone};
ghost use Rattle.std.specs.Char.{encode_utf8};
ghost use Rattle.cbor4ii.specs.Character.{RejectsChar, NoCharacter, char_laws};
ghost use Rattle.cbor4ii.specs.Typed.{input, answer_of, typed_by, Deserializes};

use crate::serde::de::deserialize::{Deserialize, Typed};
use crate::serde::de::deserializer::{Deserializer, take_item};
use crate::serde::de::error::DecodeError;
use cbor4ii_rw::read::Source;
use std::alloc::Global;

impl Typed for char {
    ghost promise = { typed_by RejectsChar true true char_laws };
}

/// A text of exactly one character, read by `Deserializer::deserialize_char`, with its errors.
impl<S: Source> Deserialize<S> for char {
    fn deserialize(alloc: Global, de: &mut Deserializer<S>) -> Result<char, DecodeError<S::Error>> {
        de.deserialize_char(alloc)
    }
}

impl<S: Source> Deserializer<S> {
    /// A text of exactly one character, of definite or indefinite length. One of indefinite length
    /// needs a step for its chunks, and a character may stand across two of them.
    ///
    /// # Errors
    ///
    /// - those of `String`, with what they leave
    /// - `Custom` of "expected one character": the text is whole and has no character, or more than
    ///   one. The whole item is taken then
    pub fn deserialize_char(&mut self, alloc: Global) -> Result<char, DecodeError<S::Error>>
        ensures { Deserializes ⟦<char as Typed>⟧.promise
            (input S.view self.old) (input S.view self.new) (answer_of result) }
    {
        match take_item::<S, String>(alloc, self) {
            Ok(text) => match only_char(text.as_str()) {
                Some(only) => Ok(only),
                None => Err(DecodeError::Custom("expected one character")),
            },
            Err(error) => Err(error),
        }
    }
}

fn only_char(text: &str) -> Option<char>
    ensures one { IfSome result (λ only. text.now ≡ encode_utf8 only) }
    ensures other { IsNone result → NoCharacter text.now }
{
    let mut chars = text.chars();
    let Some(first) = chars.next() else {
        return None;
    };
    match chars.next() {
        Some(_) => None,
        None => Some(first),
    }
}
