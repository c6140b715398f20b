//! Variants that hold named fields, which are read in the call of their enum.
ghost use Rattle.cbor4ii_items.specs.Decoding.{DecodesIf};
ghost use Rattle.cbor4ii.specs.Cases.{holding_format, fields_case, cases_by};
ghost use Rattle.cbor4ii.specs.FieldKey.{labels_by, same_name};
ghost use Rattle.cbor4ii.specs.Typed.{input, answer_of};

use crate::serde::de::cases::{Cases, Choice, after_first};
use crate::serde::de::deserializer::Deserializer;
use crate::serde::de::error::DecodeError;
use crate::serde::de::fields::{Values, take_struct};
use crate::serde::de::presence::Presences;
use cbor4ii_rw::error as core_error;
use cbor4ii_rw::error::StaticStr;
use cbor4ii_rw::read::Source;
use std::alloc::Global;
use std::marker::PhantomData;

/// The names of a variant's fields, and the words of each, in the order of the names. A variant is
/// rejected in them that lacks the field, or in which it comes again. The values stand in `V` while
/// they are read, which follows from the presences.
#[derive(Debug, Drop)]
pub struct FieldWords<V>(
    pub &'static [StaticStr],
    pub &'static [StaticStr],
    pub PhantomData<V>,
);

/// A variant that holds named fields, and the variants after it. The first part names the fields,
/// and the second has their presences, as `deserialize_fields` takes them. The last has the other
/// variants. The value is nested pairs, in the order of the names.
///
/// # Errors
///
/// - `Core` of `Mismatch` by "enum" with the variant's first byte: the variant is its name alone.
///   What follows the name is left
/// - those of `deserialize_fields`, at the content, with what they leave
#[derive(Debug, Drop)]
pub struct HoldsFields<V, P, D>(pub FieldWords<V>, pub P, pub D);

impl<S: Source, V, P, B: Drop, D> Cases<S, Choice<P::Values, B>> for HoldsFields<V, P, D>
where
    V: Values<S> + Drop,
    P: Presences<V>,
    D: Cases<S, B>,
{
    ghost cases = { λ cases. cases_by
        (fields_case (V.fields (labels_by same_name cases.0.0.now)) (P.made cases.1 cases.0.1.now))
        (D.cases cases.2) };

    #[inline(always)]
    fn take(
        self,
        alloc: Global,
        names: &[StaticStr],
        at: usize,
        form: (bool, u8),
        de: &mut Deserializer<S>,
    ) -> Result<Choice<P::Values, B>, DecodeError<S::Error>> {
        let HoldsFields(words, presences, cases) = self;
        match after_first(names, at) {
            Some((trailing, at)) => match cases.take(alloc, trailing, at, form, de) {
                Ok(value) => Ok(Choice::Other(value)),
                Err(error) => Err(error),
            },
            None => match take_named(alloc, form, de, words, presences) {
                Ok(values) => Ok(Choice::First(values)),
                Err(error) => Err(error),
            },
        }
    }
}

#[inline(always)]
fn take_named<S: Source, V: Values<S> + Drop, P: Presences<V>>(
    alloc: Global,
    form: (bool, u8),
    de: &mut Deserializer<S>,
    words: FieldWords<V>,
    presences: P,
) -> Result<P::Values, DecodeError<S::Error>>
    ensures { DecodesIf
        (fields_case (V.fields (labels_by same_name words.0.now))
        (P.made presences words.1.now)).exact
        (holding_format
        (fields_case (V.fields (labels_by same_name words.0.now))
        (P.made presences words.1.now)) form)
        (input S.view de.old) (input S.view de.new) (answer_of result) }
{
    if !form.0 {
        return Err(DecodeError::Core(core_error::DecodeError::Mismatch {
            name: "enum",
            found: form.1,
        }));
    }
    take_struct(alloc, de, words.0, words.1, presences)
}
