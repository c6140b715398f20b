//! Enums that are read in one call, by what each of their variants holds.
ghost use Rattle.std.specs.Prelude.{ℕ, List};
ghost use Rattle.std.specs.Borrow.{Bor};
ghost use Rattle.cbor4ii_items.specs.Decoding.{DecodesIf};
ghost use Rattle.cbor4ii_items.specs.Moves.{Moves};
ghost use Rattle.cbor4ii.specs.Cases.{Cases as Variants, Holding, holding_format, case_format};
ghost use Rattle.cbor4ii.specs.Cases.{unit_case, held_case, otherwise, cases_by, enum_of};
ghost use Rattle.cbor4ii.specs.Cases.{cases_inside, named_format};
ghost use Rattle.cbor4ii.specs.Made.{made_from};
ghost use Rattle.cbor4ii.specs.Names.{StandsAt, IsAfterFirst};
ghost use Rattle.cbor4ii.specs.Typed.{input, answer_of, Deserializes};

use crate::serde::de::deserialize::Deserialize;
use crate::serde::de::deserializer::Deserializer;
use crate::serde::de::enum_accessor::take_form;
use crate::serde::de::error::DecodeError;
use crate::serde::de::names::take_name;
use crate::serde::de::slot::left;
use cbor4ii_rw::error as core_error;
use cbor4ii_rw::error::{Never, StaticStr};
use cbor4ii_rw::read::Source;
use std::alloc::Global;

/// One of two: the value of a variant, or of one after it.
#[derive(Debug, PartialEq, Eq, Drop)]
pub enum Choice<A, B> {
    /// Of this one.
    First(A),
    /// Of one after it.
    Other(B),
}

/// What a variant holds, as a value of type `T`.
pub trait Case<S: Source, T>: Sized + Drop {
    // What stands for the value: a content after the name, or the name alone; and how what stands
    // there is rejected, by the form.
    ghost holding: { Holding T };

    /// Reads it after the name. `form` says whether a content stands there, and the first byte of
    /// the variant.
    ///
    /// # Errors
    ///
    /// Those that `holding` reports for this form, with what they leave. `Unit` and `Holds` answer
    /// `Core` of `Mismatch` by "enum" with the variant's first byte where it has the other form.
    /// Nothing is taken then. Of `Holds` those of the value come too.
    fn take(
        self,
        alloc: Global,
        form: (bool, u8),
        de: &mut Deserializer<S>,
    ) -> Result<T, DecodeError<S::Error>>
        ensures { DecodesIf holding.exact (holding_format holding form)
            (input S.view de.old) (input S.view de.new) (answer_of result) };
}

/// A variant that is its name alone.
#[derive(Debug, Drop)]
pub struct Unit;

impl<S: Source> Case<S, ()> for Unit {
    ghost holding = { unit_case };

    #[inline(always)]
    fn take(
        self,
        alloc: Global,
        form: (bool, u8),
        de: &mut Deserializer<S>,
    ) -> Result<(), DecodeError<S::Error>> {
        if form.0 {
            return Err(DecodeError::Core(core_error::DecodeError::Mismatch {
                name: "enum",
                found: form.1,
            }));
        }
        Ok(())
    }
}

/// A variant that holds a value: a tuple where it holds several without names. Where they have
/// names it is a struct, or the variant is one of `HoldsFields`.
#[derive(Debug, Drop)]
pub struct Holds;

impl<S: Source, T: Deserialize<S>> Case<S, T> for Holds {
    ghost holding = { held_case T.promise };

    #[inline(always)]
    fn take(
        self,
        alloc: Global,
        form: (bool, u8),
        de: &mut Deserializer<S>,
    ) -> Result<T, DecodeError<S::Error>> {
        if !form.0 {
            return Err(DecodeError::Core(core_error::DecodeError::Mismatch {
                name: "enum",
                found: form.1,
            }));
        }
        T::deserialize(alloc, de)
    }
}

/// What the variants of an enum hold, one after another, in the order of their names: nested
/// pairs and `HoldsFields`, and after them `Otherwise`.
pub trait Cases<S: Source, R>: Sized + Drop {
    // The variants that have these names: what stands for the values of each, and how it is
    // rejected.
    ghost cases: { Self → List (Bor (List ℕ)) → Variants R };

    /// Reads what the variant holds whose name stands at this place among the names.
    ///
    /// Whatever the place is, the budget is as before, and the bytes that are left are an end of
    /// those that were there.
    ///
    /// # Errors
    ///
    /// Those that `cases` reports for the name, with what they leave. Of a pair they are those of
    /// its variant, or of the variants after it, and so of `HoldsFields`. Of `Otherwise` it is
    /// `Custom` in its words, and what follows the name stays.
    fn take(
        self,
        alloc: Global,
        names: &[StaticStr],
        at: usize,
        form: (bool, u8),
        de: &mut Deserializer<S>,
    ) -> Result<R, DecodeError<S::Error>>
        ensures moves { Moves (input S.view de.old) (input S.view de.new) (answer_of result) }
        ensures decodes { (name : List ℕ) → StandsAt name names.now at →
            DecodesIf (cases self names.now).exact (case_format (cases self names.now) form name)
            (input S.view de.old) (input S.view de.new) (answer_of result) };
}

/// No other variant: every other name is rejected in these words.
#[derive(Debug, Drop)]
pub struct Otherwise(pub StaticStr);

impl<S: Source> Cases<S, Never> for Otherwise {
    ghost cases = { λ words names. otherwise words.0.now };

    #[inline(always)]
    fn take(
        self,
        alloc: Global,
        names: &[StaticStr],
        at: usize,
        form: (bool, u8),
        de: &mut Deserializer<S>,
    ) -> Result<Never, DecodeError<S::Error>> {
        Err(DecodeError::Custom(self.0))
    }
}

impl<S: Source, A: Drop, B: Drop, C: Case<S, A>, D: Cases<S, B>> Cases<S, Choice<A, B>> for (C, D) {
    ghost cases = { λ cases. cases_by C.holding (D.cases cases.1) };

    #[inline(always)]
    fn take(
        self,
        alloc: Global,
        names: &[StaticStr],
        at: usize,
        form: (bool, u8),
        de: &mut Deserializer<S>,
    ) -> Result<Choice<A, B>, DecodeError<S::Error>> {
        let (case, cases) = self;
        match after_first(names, at) {
            Some((trailing, at)) => match cases.take(alloc, trailing, at, form, de) {
                Ok(value) => Ok(Choice::Other(value)),
                Err(error) => Err(error),
            },
            None => match case.take(alloc, form, de) {
                Ok(value) => Ok(Choice::First(value)),
                Err(error) => Err(error),
            },
        }
    }
}

/// The names after the first one, and the place among them; none where the place is the first.
#[inline(always)]
pub(crate) fn after_first(names: &[StaticStr], at: usize) -> Option<(&[StaticStr], usize)>
    ensures { IsAfterFirst names.now at result }
{
    match names {
        [_, trailing @ ..] => {
            if at > 0 {
                Some((trailing, at - 1))
            } else {
                None
            }
        }
        [] => Some((names, at)),
    }
}

impl<S: Source> Deserializer<S> {
    /// An enum: a text, which is the name of a variant that holds nothing, or a map of one pair,
    /// from the name of a variant to what it holds. `cases` says what each variant holds, in the
    /// order of the names. The enum's own name is not encoded.
    ///
    /// A name is read as a `String`. One of at most 255 bytes takes no memory where it stands whole
    /// in what the reader shows, after a head of one or two bytes. The budget is as before,
    /// whatever the answer is.
    ///
    /// # Errors
    ///
    /// - those of `deserialize_enum`, at the form
    /// - those of `String`, at the name
    /// - `Custom` in the words of `Otherwise`: the name is that of no variant. It is taken then
    /// - `Core` of `Mismatch` by "enum" with the variant's first byte: the variant has the other
    ///   form. What follows the name is left
    /// - those of what the variant holds, with what they leave
    pub fn deserialize_variant<T: From<R>, R: Drop, C: Cases<S, R>>(
        &mut self,
        alloc: Global,
        name: StaticStr,
        variants: &[StaticStr],
        cases: C,
    ) -> Result<T, DecodeError<S::Error>>
        ensures { Deserializes (made_from T.from_gives (enum_of (C.cases cases variants.now)))
            (input S.view self.old) (input S.view self.new) (answer_of result) }
    {
        if !self.reader.step_in() {
            return Err(DecodeError::Core(core_error::DecodeError::DepthOverflow { name: "enum" }));
        }
        let outcome = variant_inside(alloc, self, variants, cases);
        self.reader.step_out();
        match outcome {
            Ok(value) => Ok(T::from(value)),
            Err(error) => Err(error),
        }
    }
}

/// A variant whose step was taken.
fn variant_inside<S: Source, R: Drop, C: Cases<S, R>>(
    alloc: Global,
    de: &mut Deserializer<S>,
    variants: &[StaticStr],
    cases: C,
) -> Result<R, DecodeError<S::Error>>
    ensures { DecodesIf (C.cases cases variants.now).exact
        (cases_inside (C.cases cases variants.now))
        (input S.view de.old) (input S.view de.new) (answer_of result) }
{
    match take_form(&mut de.reader) {
        Ok(form) => named_variant(alloc, de, variants, form, cases),
        Err(error) => Err(DecodeError::Core(error)),
    }
}

fn named_variant<S: Source, R: Drop, C: Cases<S, R>>(
    alloc: Global,
    de: &mut Deserializer<S>,
    variants: &[StaticStr],
    form: (bool, u8),
    cases: C,
) -> Result<R, DecodeError<S::Error>>
    ensures { DecodesIf (C.cases cases variants.now).exact
        (named_format (C.cases cases variants.now) form)
        (input S.view de.old) (input S.view de.new) (answer_of result) }
{
    let mut failure = None;
    match take_name(alloc, de, variants, &mut failure) {
        Some(at) => cases.take(alloc, variants, at, form, de),
        None => Err(left(failure)),
    }
}
