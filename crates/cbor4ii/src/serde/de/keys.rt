//! Keys of a struct's fields, read: texts, or integers among which texts may stand.
ghost use Rattle.std.specs.Prelude.{◌≡◌, ◌≢◌, ◌≤◌, ℕ, List, length, true, false};
ghost use Rattle.std.specs.Borrow.{Bor};
ghost use Rattle.cbor4ii_rw.specs.Reader.{KeepsAllButBudget};
ghost use Rattle.cbor4ii_rw.specs.View.{View};
ghost use Rattle.cbor4ii_items.specs.Decoding.{Decodes};
ghost use Rattle.cbor4ii_items.specs.Moves.{Kept};
ghost use Rattle.cbor4ii_ser.specs.Listed.{integer_label};
ghost use Rattle.cbor4ii.specs.Answered.{typed_value_or_error};
ghost use Rattle.cbor4ii.specs.FieldKey.{FieldKey, key_format, text_key, labels_by};
ghost use Rattle.cbor4ii.specs.FieldKey.{same_name};
ghost use Rattle.cbor4ii.specs.Keys.{integer_key, integer_name, label_of, labelled, as_key};
ghost use Rattle.cbor4ii.specs.Keys.{AnyView, TextComes, text_comes_after, text_comes_under};
ghost use Rattle.cbor4ii.specs.Keys.{WantsByKeys};
ghost use Rattle.cbor4ii.specs.Names.{StandsAt, TakesKey};
ghost use Rattle.cbor4ii.specs.Typed.{input, answer_of};

use crate::serde::de::deserialize::Deserialize;
use crate::serde::de::deserializer::Deserializer;
use crate::serde::de::error::DecodeError;
use crate::serde::de::names::take_name;
use crate::serde::de::slot::{left, part};
use cbor4ii_items::initial::{if_major, peek};
use cbor4ii_items::major;
use cbor4ii_rw::error::StaticStr;
use cbor4ii_rw::read::Source;
use std::alloc::Global;

/// What the keys of a struct's fields are, as they are read: texts, as names of fields are, or
/// integers, as the labels of COSE are (RFC 9052 section 1.5).
pub trait ReadKey: Sized {
    // How a key is read, as its label.
    ghost key: { FieldKey };

    // The label of this key, by which its field is told from the others.
    ghost label: { Self → Bor (List ℕ) };

    // Where a key may want memory, by what comes.
    ghost may_want: { View → Type 0 };

    // A law: where it may after some bytes were taken, or under a step, it may before.
    ghost wants_before: { (a m : View) → Kept a m → may_want m → may_want a };

    ghost wants_under: { (a m : View) → KeepsAllButBudget a m → may_want m → may_want a };

    /// Reads a key, and answers the place of the first of `keys` that it is, or one behind them all
    /// where it is none of them.
    ///
    /// # Errors
    ///
    /// Those of `String` for a text, and of `i128` for an integer, with what they leave. None is
    /// answered then, and the error goes to `failure`.
    fn take_key<S: Source>(
        alloc: Global,
        de: &mut Deserializer<S>,
        keys: &[Self],
        failure: &mut Option<DecodeError<S::Error>>,
    ) -> Option<usize>
        ensures which { TakesKey key (labels_by label keys.now)
            (input S.view de.old) (input S.view de.new)
            (answer_of (typed_value_or_error result failure.new)) }
        ensures memory { WantsByKeys may_want false (input S.view de.old)
            (answer_of (typed_value_or_error result failure.new)) };
}

/// A text is read as a `String`. One of at most 255 bytes takes no memory where it stands whole in
/// what the reader shows, after a head of one or two bytes.
impl ReadKey for StaticStr {
    ghost key = { text_key };

    ghost label = { same_name };

    ghost may_want = { AnyView };

    ghost wants_before = { λ a m kept wants. wants };

    ghost wants_under = { λ a m keeps wants. wants };

    #[inline(always)]
    fn take_key<S: Source>(
        alloc: Global,
        de: &mut Deserializer<S>,
        keys: &[StaticStr],
        failure: &mut Option<DecodeError<S::Error>>,
    ) -> Option<usize> {
        take_name(alloc, de, keys, failure)
    }
}

/// An integer is read as an `i128`, so in a head of any length, or as a bignum, and is compared as
/// the integer that it is (RFC 8949 sections 3.1 and 3.4.3). A text is read as a `String`, and is
/// the key of no field: it takes memory as a name does. A key that is neither is rejected.
impl ReadKey for i64 {
    ghost key = { integer_key };

    ghost label = { integer_name };

    ghost may_want = { TextComes };

    ghost wants_before = { text_comes_after };

    ghost wants_under = { text_comes_under };

    #[inline(always)]
    fn take_key<S: Source>(
        alloc: Global,
        de: &mut Deserializer<S>,
        keys: &[i64],
        failure: &mut Option<DecodeError<S::Error>>,
    ) -> Option<usize> {
        match part(take_integer(alloc, de), failure) {
            Some(key) => Some(integer_place(keys, key)),
            None => None,
        }
    }
}

#[inline(always)]
fn integer_place(keys: &[i64], key: Option<i128>) -> usize
    ensures { StandsAt (label_of key) (labels_by integer_name keys.now) result }
{
    for at in 0..keys.len() {
        if is_key(&keys[at], key) {
            return at;
        }
    }
    keys.len()
}

#[inline(always)]
fn is_key(own: &i64, key: Option<i128>) -> bool
    ensures same { result ≡ true → label_of key ≡ integer_label own.now }
    ensures other { result ≡ false → label_of key ≢ integer_label own.now }
{
    match key {
        Some(key) => key == *own as i128,
        None => false,
    }
}

/// No text is the key of a field.
const NO_NAMES: [StaticStr; 0] = [];

/// A key is an integer, as an `i128`, or a text, of which nothing is kept. One look at its first
/// byte says which.
fn take_integer<S: Source>(
    alloc: Global,
    de: &mut Deserializer<S>,
) -> Result<Option<i128>, DecodeError<S::Error>>
    ensures decodes { Decodes (key_format integer_key)
        (input S.view de.old) (input S.view de.new) (labelled (answer_of result)) }
    ensures memory { WantsByKeys TextComes false (input S.view de.old) (answer_of result) }
{
    let first = match peek(&mut de.reader, "i128") {
        Ok(first) => first,
        Err(error) => return Err(DecodeError::Core(error)),
    };
    if if_major(first) == major::STRING {
        let mut failure = None;
        return match take_name(alloc, de, &NO_NAMES, &mut failure) {
            Some(_) => Ok(None),
            None => Err(left(failure)),
        };
    }
    as_key(i128::deserialize(alloc, de))
}

fn as_key<V, E>(read: Result<V, E>) -> Result<Option<V>, E>
    ensures { result ≡ as_key read }
{
    match read {
        Ok(value) => Ok(Some(value)),
        Err(error) => Err(error),
    }
}
