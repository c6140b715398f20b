//! What a struct makes of its fields where some of them are missing.
ghost use Rattle.std.specs.Prelude.{◌≡◌, ℕ, List, Option, Result, Ok};
ghost use Rattle.std.specs.Borrow.{Bor};
ghost use Rattle.cbor4ii.specs.Presence.{made_or_words, or_words, or_value, or_none, once_or_words};
ghost use Rattle.cbor4ii.specs.Presence.{both_or_words};
ghost use Rattle.cbor4ii.specs.Presence.{SameFate, words_fate, value_fate, once_fate, pair_fate};
ghost use Rattle.cbor4ii.specs.Presence.{words_of_first, words_of_others};

use crate::serde::de::deserialize::Typed;
use crate::serde::de::fields::Places;
use crate::serde::de::place::{Place, Single};
use cbor4ii_rw::error::StaticStr;

/// What a struct makes of a field whose values stand in `P`. It may be missing.
pub trait Presence<P: Place>: Sized + Drop {
    /// What the struct has of it.
    type Value: Drop;

    // What becomes of what was read; the list is the words of an error.
    ghost made: { Self → List ℕ → P → Result Self.Value (List ℕ) };

    /// Makes it of what was read, or rejects the struct in these words.
    ///
    /// # Errors
    ///
    /// The words that `made` gives, where it rejects: of `Required` where no value was read, and of
    /// `Once` also where several were. `Or` and `Optional` never reject.
    fn value(self, words: StaticStr, read: P) -> Result<Self::Value, StaticStr>
        ensures { made_or_words result ≡ made self words.now read };

    // A law: whether it rejects depends on nothing but how many values were read.
    ghost fate: { (kind : Self) (words : List ℕ) (o p : P) → P.place.came o ≡ P.place.came p →
        SameFate (made kind words o) (made kind words p) };
}

/// A field that has to be there. Where it is missing, the struct is rejected.
#[derive(Debug, Drop)]
pub struct Required;

impl<T: Typed + Drop> Presence<Option<T>> for Required {
    type Value = T;

    ghost made = { λ kind. or_words };

    #[inline(always)]
    fn value(self, words: StaticStr, read: Option<T>) -> Result<T, StaticStr>
        ensures { made_or_words result ≡ or_words words.now read }
    {
        match read {
            Some(value) => Ok(value),
            None => Err(words),
        }
    }

    ghost fate = { λ kind. words_fate };
}

/// A field in whose place this value stands where it is missing.
#[derive(Debug, Drop)]
pub struct Or<T>(pub T);

impl<T: Typed + Drop> Presence<Option<T>> for Or<T> {
    type Value = T;

    ghost made = { λ kind words. or_value kind.0 };

    #[inline(always)]
    fn value(self, words: StaticStr, read: Option<T>) -> Result<T, StaticStr>
        ensures { made_or_words result ≡ or_value self.0 read }
    {
        match read {
            Some(value) => Ok(value),
            None => Ok(self.0),
        }
    }

    ghost fate = { λ kind words. value_fate kind.0 };
}

/// A field that may be missing. What the struct has of it is an option.
#[derive(Debug, Drop)]
pub struct Optional;

impl<T: Typed + Drop> Presence<Option<T>> for Optional {
    type Value = Option<T>;

    ghost made = { λ kind words. or_none };

    #[inline(always)]
    fn value(self, words: StaticStr, read: Option<T>) -> Result<Option<T>, StaticStr>
        ensures { made_or_words result ≡ or_none read }
    {
        Ok(read)
    }

    ghost fate = { λ kind words o p e. tt };
}

/// A field that may come once: as the kind inside says, and where it comes more than once, the
/// struct is rejected.
#[derive(Debug, Drop)]
pub struct Once<K>(pub K);

impl<T: Typed + Drop, K: Presence<Option<T>>> Presence<Single<T>> for Once<K> {
    type Value = K::Value;

    ghost made = { λ kind words. once_or_words words (K.made kind.0 words) };

    #[inline(always)]
    fn value(self, words: StaticStr, read: Single<T>) -> Result<K::Value, StaticStr>
        ensures { made_or_words result ≡ once_or_words words.now (K.made self.0 words.now) read }
    {
        match read {
            Single::Absent => self.0.value(words, None),
            Single::Present(value) => self.0.value(words, Some(value)),
            Single::Repeated => Err(words),
        }
    }

    ghost fate = { λ kind words. once_fate words (K.made kind.0 words) (K.fate kind.0 words) };
}

/// What a struct makes of all its fields: nested pairs, in the order of their names.
pub trait Presences<V: Places>: Sized + Drop {
    /// What the struct has of them: nested pairs too.
    type Values: Drop;

    // What becomes of the values that were read; the list is the words of each field's error.
    ghost made: { Self → List (Bor (List ℕ)) → V → Result Self.Values (List ℕ) };

    /// Makes it of the values that were read, or rejects the struct in the words of the first field
    /// that does. `missing` has the words of each field, in their order.
    ///
    /// # Errors
    ///
    /// The words that `made` gives, where it rejects: of a pair those of its field, or of the
    /// fields after it.
    fn values(self, missing: &[StaticStr], read: V) -> Result<Self::Values, StaticStr>
        ensures { made_or_words result ≡ made self missing.now read };

    // A law: values that mean the same are made or rejected alike.
    ghost fate: { (kinds : Self) (words names : List (Bor (List ℕ))) (v w : V) →
        (V.fields names).same v w → SameFate (made kinds words v) (made kinds words w) };
}

impl Presences<()> for () {
    type Values = ();

    ghost made = { λ kinds words v. Ok v };

    #[inline(always)]
    fn values(self, missing: &[StaticStr], read: ()) -> Result<(), StaticStr> {
        Ok(())
    }

    ghost fate = { λ kinds words names v w s. tt };
}

impl<P: Place + Drop, O: Presence<P>, V: Places + Drop, K: Presences<V>> Presences<(P, V)>
    for (O, K) {
    type Values = (O::Value, K::Values);

    ghost made = { λ kinds words v. both_or_words (O.made kinds.0 (words_of_first words) v.0)
        (K.made kinds.1 (words_of_others words) v.1) };

    #[inline(always)]
    fn values(
        self,
        missing: &[StaticStr],
        read: (P, V),
    ) -> Result<(O::Value, K::Values), StaticStr> {
        let (presence, presences) = self;
        let (first, others) = read;
        match presence.value(first_words(missing), first) {
            Ok(value) => match presences.values(words_after(missing), others) {
                Ok(values) => Ok((value, values)),
                Err(words) => Err(words),
            },
            Err(words) => Err(words),
        }
    }

    ghost fate = { λ kinds words. pair_fate P.place P.Value.promise V.fields
        (O.made kinds.0 (words_of_first words)) (K.made kinds.1 (words_of_others words))
        (O.fate kinds.0 (words_of_first words)) (K.fate kinds.1 (words_of_others words)) };
}

#[inline(always)]
fn first_words(missing: &[StaticStr]) -> StaticStr
    ensures { result.now ≡ words_of_first missing.now }
{
    match missing {
        [first, ..] => first,
        [] => "",
    }
}

#[inline(always)]
fn words_after(missing: &[StaticStr]) -> &[StaticStr]
    ensures { result.now ≡ words_of_others missing.now }
{
    match missing {
        [_, trailing @ ..] => trailing,
        [] => missing,
    }
}
