//! Structs that are read from their fields in one call.
ghost use Rattle.std.specs.Prelude.{◌≡◌, ◌+◌, ◌≤◌, ℕ, List, OnSome, codes};
ghost use Rattle.std.specs.Borrow.{Bor};
ghost use Rattle.cbor4ii_items.specs.Decoding.{Decodes};
ghost use Rattle.cbor4ii_items.specs.Moves.{Moves};
ghost use Rattle.cbor4ii_items.specs.Sequences.{count_of, indefinite_of, inside_of, in_list};
ghost use Rattle.cbor4ii.specs.Answered.{typed_value_or_error};
ghost use Rattle.cbor4ii.specs.FieldKey.{labels_by};
ghost use Rattle.cbor4ii.specs.ItemRead.{skipped_format};
ghost use Rattle.cbor4ii.specs.Keys.{WantsByKeys};
ghost use Rattle.cbor4ii.specs.Fields.{one_change, all_changes, Alters, Puts};
ghost use Rattle.cbor4ii.specs.Names.{StandsAt};
ghost use Rattle.cbor4ii.specs.Made.{made_from};
ghost use Rattle.cbor4ii.specs.Presence.{made_struct};
ghost use Rattle.cbor4ii.specs.Structs.{Fields, no_more, fields_by, after_name};
ghost use Rattle.cbor4ii.specs.Structs.{field_pair};
ghost use Rattle.cbor4ii.specs.Structs.{field_pairs};
ghost use Rattle.cbor4ii.specs.Typed.{input, answer_of, Deserializes};

use crate::serde::de::deserialize::Deserialize;
use crate::serde::de::deserializer::Deserializer;
use crate::serde::de::error::DecodeError;
use crate::serde::de::keys::ReadKey;
use crate::serde::de::parts::takes_break;
use crate::serde::de::place::Place;
use crate::serde::de::presence::Presences;
use crate::serde::de::slot::{leave, part, whole};
use cbor4ii_items::types::Map;
use cbor4ii_rw::error as core_error;
use cbor4ii_rw::error::StaticStr;
use cbor4ii_rw::read::Source;
use std::alloc::Global;

/// The values of fields while they are read: nested pairs, in the order of their keys.
pub trait Places: Sized {
    // The fields whose keys have these labels, with what the type of each promises.
    ghost fields: { List (Bor (List ℕ)) → Fields Self };

    /// The values of no pair.
    fn none() -> Self
        ensures { (labels : List (Bor (List ℕ))) → result ≡ (Self.fields labels).first };
}

impl Places for () {
    ghost fields = { λ labels. no_more };

    #[inline(always)]
    fn none() {}
}

impl<P: Place, V: Places> Places for (P, V) {
    ghost fields = { fields_by P.place P.Value.promise V.fields };

    #[inline(always)]
    fn none() -> (P, V) {
        (P::empty(), V::none())
    }
}

/// The values of fields, as they are read.
pub trait Values<S: Source>: Places {
    /// Reads the value of the field whose key stands at this place, and skips one of another key.
    ///
    /// Whatever the place is, the budget is as before, and the bytes that are left are an end of
    /// those that were there. At success a byte was taken. Memory is wanted by a field whose type
    /// takes some, and by nothing that is skipped.
    ///
    /// # Errors
    ///
    /// Those of the field's value, and of `deserialize_ignored_any` for a pair of another key,
    /// with what they leave. None is answered then, and the error goes to `failure`.
    #[inline(always)]
    fn take<K: ReadKey>(
        &mut self,
        alloc: Global,
        keys: &[K],
        at: usize,
        de: &mut Deserializer<S>,
        failure: &mut Option<DecodeError<S::Error>>,
    ) -> Option<()>
        ensures moves { Moves (input S.view de.old) (input S.view de.new)
            (answer_of (typed_value_or_error result failure.new)) }
        ensures progress { OnSome result
            ((input S.view de.new).bound + 1 ≤ (input S.view de.old).bound) }
        ensures alters { (label : List ℕ) → StandsAt label (labels_by K.label keys.now) at →
            Alters one_change (Self.fields (labels_by K.label keys.now)).exact
            (after_name (Self.fields (labels_by K.label keys.now)) label)
            self.old self.new (input S.view de.old) (input S.view de.new)
            (answer_of (typed_value_or_error result failure.new)) }
        ensures memory { WantsByKeys K.may_want
            (Self.fields (labels_by K.label keys.now)).takes_memory
            (input S.view de.old) (answer_of (typed_value_or_error result failure.new)) };
}

impl<S: Source> Values<S> for () {
    #[inline(always)]
    fn take<K: ReadKey>(
        &mut self,
        alloc: Global,
        keys: &[K],
        at: usize,
        de: &mut Deserializer<S>,
        failure: &mut Option<DecodeError<S::Error>>,
    ) -> Option<()> {
        skip_value(alloc, de, failure)
    }
}

impl<S: Source, P: Place, V: Values<S>> Values<S> for (P, V)
where
    P::Value: Deserialize<S>,
{
    #[inline(always)]
    fn take<K: ReadKey>(
        &mut self,
        alloc: Global,
        keys: &[K],
        at: usize,
        de: &mut Deserializer<S>,
        failure: &mut Option<DecodeError<S::Error>>,
    ) -> Option<()> {
        match keys {
            [_, trailing @ ..] => {
                if at > 0 {
                    return self.1.take(alloc, trailing, at - 1, de, failure);
                }
                put_value(alloc, &mut self.0, de, failure)
            }
            [] => skip_value(alloc, de, failure),
        }
    }
}

#[inline(always)]
fn put_value<S: Source, P: Place>(
    alloc: Global,
    place: &mut P,
    de: &mut Deserializer<S>,
    failure: &mut Option<DecodeError<S::Error>>,
) -> Option<()>
where
    P::Value: Deserialize<S>,
    ensures { Puts P.place P.Value.promise place.old place.new
        (input S.view de.old) (input S.view de.new)
        (answer_of (typed_value_or_error result failure.new)) }
{
    match <P::Value>::deserialize(alloc, de) {
        Ok(value) => {
            place.put(value);
            Some(())
        }
        Err(error) => {
            leave(error, failure);
            None
        }
    }
}

#[inline(never)]
fn skip_value<S: Source>(
    alloc: Global,
    de: &mut Deserializer<S>,
    failure: &mut Option<DecodeError<S::Error>>,
) -> Option<()>
    ensures { Decodes skipped_format (input S.view de.old) (input S.view de.new)
        (answer_of (typed_value_or_error result failure.new)) }
{
    part(de.deserialize_ignored_any(alloc), failure)
}

#[inline(always)]
fn take_field<K: ReadKey, S: Source, V: Values<S>>(
    alloc: Global,
    de: &mut Deserializer<S>,
    keys: &[K],
    values: &mut V,
    failure: &mut Option<DecodeError<S::Error>>,
) -> Option<()>
    ensures alters { Alters one_change (V.fields (labels_by K.label keys.now)).exact
        (field_pair K.key (V.fields (labels_by K.label keys.now))) values.old values.new
        (input S.view de.old) (input S.view de.new)
        (answer_of (typed_value_or_error result failure.new)) }
    ensures memory { WantsByKeys K.may_want
        (V.fields (labels_by K.label keys.now)).takes_memory
        (input S.view de.old) (answer_of (typed_value_or_error result failure.new)) }
{
    match K::take_key(alloc, de, keys, failure) {
        Some(at) => values.take(alloc, keys, at, de, failure),
        None => None,
    }
}

#[inline(always)]
fn take_fields<K: ReadKey, S: Source, V: Values<S>>(
    alloc: Global,
    de: &mut Deserializer<S>,
    keys: &[K],
    values: &mut V,
) -> Result<(), DecodeError<S::Error>>
    ensures alters { Alters all_changes (V.fields (labels_by K.label keys.now)).exact
        (field_pairs K.key (V.fields (labels_by K.label keys.now))) values.old values.new
        (input S.view de.old) (input S.view de.new) (answer_of result) }
    ensures memory { WantsByKeys K.may_want
        (V.fields (labels_by K.label keys.now)).takes_memory
        (input S.view de.old) (answer_of result) }
{
    if !de.reader.step_in() {
        return Err(DecodeError::Core(core_error::DecodeError::DepthOverflow { name: "map" }));
    }
    let mut failure = None;
    let outcome = fields_inside(alloc, de, keys, values, &mut failure);
    de.reader.step_out();
    whole(outcome, failure)
}

/// Reads the fields of these keys off a map whose step was taken.
#[inline(always)]
fn fields_inside<K: ReadKey, S: Source, V: Values<S>>(
    alloc: Global,
    de: &mut Deserializer<S>,
    keys: &[K],
    values: &mut V,
    failure: &mut Option<DecodeError<S::Error>>,
) -> Option<()>
    ensures alters { Alters all_changes (V.fields (labels_by K.label keys.now)).exact
        (inside_of in_list (codes "map") 5
        (field_pair K.key (V.fields (labels_by K.label keys.now)))) values.old values.new
        (input S.view de.old) (input S.view de.new)
        (answer_of (typed_value_or_error result failure.new)) }
    ensures memory { WantsByKeys K.may_want
        (V.fields (labels_by K.label keys.now)).takes_memory
        (input S.view de.old) (answer_of (typed_value_or_error result failure.new)) }
{
    match Map::<()>::len(&mut de.reader) {
        Ok(Some(count)) => definite_fields(alloc, de, keys, values, count, failure),
        Ok(None) => indefinite_fields(alloc, de, keys, values, failure),
        Err(error) => {
            leave(DecodeError::Core(error), failure);
            None
        }
    }
}

#[inline(always)]
fn definite_fields<K: ReadKey, S: Source, V: Values<S>>(
    alloc: Global,
    de: &mut Deserializer<S>,
    keys: &[K],
    values: &mut V,
    count: usize,
    failure: &mut Option<DecodeError<S::Error>>,
) -> Option<()>
    ensures alters { Alters all_changes (V.fields (labels_by K.label keys.now)).exact
        (count_of in_list (field_pair K.key (V.fields (labels_by K.label keys.now))) count)
        values.old values.new (input S.view de.old) (input S.view de.new)
        (answer_of (typed_value_or_error result failure.new)) }
    ensures memory { WantsByKeys K.may_want
        (V.fields (labels_by K.label keys.now)).takes_memory
        (input S.view de.old) (answer_of (typed_value_or_error result failure.new)) }
{
    for i in 0..count {
        take_field(alloc, de, keys, values, failure)?;
    }
    Some(())
}

fn indefinite_fields<K: ReadKey, S: Source, V: Values<S>>(
    alloc: Global,
    de: &mut Deserializer<S>,
    keys: &[K],
    values: &mut V,
    failure: &mut Option<DecodeError<S::Error>>,
) -> Option<()>
    ensures alters { Alters all_changes (V.fields (labels_by K.label keys.now)).exact
        (indefinite_of in_list (codes "map")
        (field_pair K.key (V.fields (labels_by K.label keys.now))))
        values.old values.new (input S.view de.old) (input S.view de.new)
        (answer_of (typed_value_or_error result failure.new)) }
    ensures memory { WantsByKeys K.may_want
        (V.fields (labels_by K.label keys.now)).takes_memory
        (input S.view de.old) (answer_of (typed_value_or_error result failure.new)) }
{
    while !part(takes_break(de), failure)? {
        take_field(alloc, de, keys, values, failure)?;
    }
    Some(())
}

#[inline(always)]
pub(crate) fn take_struct<K: ReadKey, S: Source, V: Values<S> + Drop, P: Presences<V>>(
    alloc: Global,
    de: &mut Deserializer<S>,
    keys: &[K],
    missing: &[StaticStr],
    presences: P,
) -> Result<P::Values, DecodeError<S::Error>>
    ensures promised { Deserializes
        (made_struct K.key (V.fields (labels_by K.label keys.now))
        (P.made presences missing.now))
        (input S.view de.old) (input S.view de.new) (answer_of result) }
    ensures memory { WantsByKeys K.may_want
        (V.fields (labels_by K.label keys.now)).takes_memory
        (input S.view de.old) (answer_of result) }
{
    let mut values = V::none();
    match take_fields(alloc, de, keys, &mut values) {
        Ok(()) => match presences.values(missing, values) {
            Ok(values) => Ok(values),
            Err(words) => Err(DecodeError::Custom(words)),
        },
        Err(error) => Err(error),
    }
}

impl<S: Source> Deserializer<S> {
    /// A struct of fields that have these keys, texts or integers: a map from their keys to their
    /// values, of any length, in any order. A pair of another key is skipped. A field of which no
    /// pair came is missing. Of several pairs of one key the last counts, or the struct is rejected
    /// where the field may come once. Of two fields of one key the first is read. The struct's own
    /// name is not encoded.
    ///
    /// `presences` says of each field whether it has to be there, what stands in its place else,
    /// and whether it may come once alone. `missing` has the words of each, in the order of the
    /// keys, with which a struct is rejected that lacks it, or in which it comes again. The struct
    /// is made of the values, nested pairs in the order of the keys.
    ///
    /// A key is read by `ReadKey`, and what is skipped as `IgnoredAny`, both under the step of the
    /// map. The budget is as before, whatever the answer is. Where the keys are integers, memory is
    /// wanted by a field whose type takes some, or where a text comes, and nowhere else.
    ///
    /// How many fields compile goes by their types: up to 21 of `Option<u8>`, and up to 14 of
    /// `Vec<(u8, Option<String>)>`. Of more the compiler says `overflowing-bound`, and the struct
    /// is read part by part.
    ///
    /// # Errors
    ///
    /// What was read before is let go then, and what follows it is left.
    ///
    /// - those of `deserialize_map`, at the head
    /// - `Core` of `Eof` by "break" with 1: the length is indefinite, and no byte is left where a
    ///   key or a break should come
    /// - those of the key, of the field for its value, and of `IgnoredAny` for what is skipped,
    ///   with what they leave. A key's are those of `String`; where the keys are integers, those of
    ///   `String` for one that begins as a text, and those of `i128` for every other
    /// - `Custom` in the words of the first field that is missing and has to be there, or that came
    ///   more than once and may come once. The whole struct was taken then
    pub fn deserialize_fields<K: ReadKey, T: From<P::Values>, V: Values<S> + Drop, P>(
        &mut self,
        alloc: Global,
        name: StaticStr,
        keys: &[K],
        missing: &[StaticStr],
        presences: P,
    ) -> Result<T, DecodeError<S::Error>>
    where
        P: Presences<V>,
        ensures promised { Deserializes (made_from T.from_gives
            (made_struct K.key (V.fields (labels_by K.label keys.now))
            (P.made presences missing.now)))
            (input S.view self.old) (input S.view self.new) (answer_of result) }
        ensures memory { WantsByKeys K.may_want
            (V.fields (labels_by K.label keys.now)).takes_memory
            (input S.view self.old) (answer_of result) }
    {
        match take_struct(alloc, self, keys, missing, presences) {
            Ok(values) => Ok(T::from(values)),
            Err(error) => Err(error),
        }
    }
}
