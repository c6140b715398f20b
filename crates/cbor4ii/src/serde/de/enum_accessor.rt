//! Variants, of which first the name is read, and then the content.
ghost use Rattle.std.specs.Prelude.{[], ◌≡◌, ◌≤◌, ◌+◌, true, false, IfOk, IfErr, IsTrue, OnErr};
ghost use Rattle.std.specs.Prelude.{OnOk, IsOk, codes};
ghost use Rattle.std.specs.Borrow.{sem, LendsIfOk, RestsIfErr};
ghost use mir.Syntax.{named};
ghost use Rattle.cbor4ii_rw.specs.Reader.{ReaderFails};
ghost use Rattle.cbor4ii_items.specs.Moves.{OnRead};
ghost use Rattle.cbor4ii_items.specs.Decoding.{IsExact, Sound, Complete, Rejects, Decodes};
ghost use Rattle.cbor4ii_items.specs.Lengths.{ReadsLength, RejectsLength};
ghost use Rattle.cbor4ii_items.specs.InputError.{is_out_of_memory};
ghost use Rattle.cbor4ii.specs.contracts.serde.de.deserializer.Deserializer.{the_row};
ghost use Rattle.cbor4ii.specs.contracts.serde.de.enum_accessor.EnumAccessor.{the_row as the_enum};
ghost use Rattle.cbor4ii.specs.declared.serde.de.accessor.Left.TheVariants.{Definite};
ghost use Rattle.cbor4ii.specs.Accessing.{inside, deserializer_name, left_in, steps_held};
ghost use Rattle.cbor4ii.specs.Accessing.{OpensParts};
ghost use Rattle.cbor4ii.specs.Accessing.{Closes, Finishes, RejectedAs};
ghost use Rattle.cbor4ii.specs.Stepped.{Stepped, RejectsStepped, stepped_format};
ghost use Rattle.cbor4ii.specs.Tuples.{ReadsCountOf, RejectsCountOf};
ghost use Rattle.cbor4ii.specs.Typed.{input, answer_of, as_core, rejects_as_promised, Deserializes};
ghost use Rattle.cbor4ii.specs.Variants.{inside_enum, reference_of_enum, deserializer_of_enum};
ghost use Rattle.cbor4ii.specs.Variants.{enum_accessor_name, form_of, with_content, OpensEnum};
ghost use Rattle.cbor4ii.specs.Variants.{ReadsContent, RejectsContent, SaysOther, form_format};

use crate::serde::de::accessor::{Accessor, Left};
use crate::serde::de::deserialize::Deserialize;
use crate::serde::de::deserializer::Deserializer;
use crate::serde::de::error::DecodeError;
use crate::serde::de::heads::{begin_map, begin_tuple};
use cbor4ii_items::initial::peek;
use cbor4ii_items::major;
use cbor4ii_rw::error as core_error;
use cbor4ii_rw::error::StaticStr;
use cbor4ii_rw::read::Source;
use std::alloc::Global;

/// The head of a map of one pair.
const PAIR: u8 = 0xa1;

/// A variant: its name, and then what it holds. It holds a step of the budget, and gives it back
/// when it is dropped. What was not read stays.
pub struct EnumAccessor<'a, S: Source> {
    pub(crate) de: &'a mut Deserializer<S>,
    // Whether a content follows the name, and the first byte, which said so.
    pub(crate) content: bool,
    pub(crate) found: u8,
}

impl<'a, S: Source> Drop for EnumAccessor<'a, S> {
    #[inline(always)]
    fn drop(self)
        ensures { Closes 1 (inside_enum S.view self.entry) (input S.view self.exit.0.now) }
    {
        let EnumAccessor {
            de,
            content: _,
            found: _,
        } = self;
        de.reader.step_out();
    }
}

impl<S: Source> Deserializer<S> {
    /// A variant: a text, its name, or a map of one pair, from its name to its content. A step is
    /// taken, and the head of the map; a text stays. The enum's own name is not encoded, and no
    /// name of a variant is asked for.
    ///
    /// # Errors
    ///
    /// Nothing is taken then, and the budget is as before.
    ///
    /// - `Core` of `Read`: the reader failed
    /// - `Core` of `DepthOverflow` by "enum": no step is left
    /// - `Core` of `Eof` by "enum" with 1: no byte is left
    /// - `Core` of `Mismatch` by "enum" with the first byte: it begins neither a text nor a map of
    ///   one pair in one byte
    #[inline(always)]
    pub fn deserialize_enum(
        &mut self,
        name: StaticStr,
        variants: &[StaticStr],
    ) -> Result<EnumAccessor<'_, S>, DecodeError<S::Error>>
        ensures* rejected { sem 𝓛 (RestsIfErr (the_row S.row) self.entry
            enum_accessor_name result (λ new.
            RejectedAs (stepped_format (codes "enum") form_format)
            (input S.view self.old) (input S.view new) (answer_of result) ×
            OnRead (answer_of result) (ReaderFails (input S.view self.old) (input S.view new)))) }
        ensures same_reference { IfOk result
            (λ accessor. enum_accessor_name accessor ≡ self.entry.ghost_name) }
        ensures opened { IfOk result (λ accessor. OpensEnum (input S.view self.old)
            (inside_enum S.view accessor) (form_of accessor)) }
    {
        match begin_enum(&mut self.reader) {
            Ok((content, found)) => Ok(EnumAccessor {
                de: self,
                content,
                found,
            }),
            Err(error) => Err(DecodeError::Core(error)),
        }
    }
}

/// A step, and then the form. Where it is rejected, the step is given back.
#[inline(always)]
fn begin_enum<S: Source>(reader: &mut S) -> Result<(bool, u8), core_error::DecodeError<S::Error>>
    ensures opened { IfOk result (OpensEnum (S.view reader.old) (S.view reader.new)) }
    ensures rejected { RejectedAs (stepped_format (codes "enum") form_format)
        (S.view reader.old) (S.view reader.new) result }
    ensures failed { OnRead result (ReaderFails (S.view reader.old) (S.view reader.new)) }
{
    if !reader.step_in() {
        return Err(core_error::DecodeError::DepthOverflow { name: "enum" });
    }
    match take_form(reader) {
        Ok(form) => Ok(form),
        Err(error) => {
            reader.step_out();
            Err(error)
        }
    }
}

#[inline(always)]
pub(crate) fn take_form<S: Source>(
    reader: &mut S,
) -> Result<(bool, u8), core_error::DecodeError<S::Error>>
    ensures decodes { Decodes form_format (S.view reader.old) (S.view reader.new) result }
    ensures failed { OnRead result (ReaderFails (S.view reader.old) (S.view reader.new)) }
{
    match peek(reader, "enum") {
        Ok(first) => {
            if first == PAIR {
                reader.advance(1);
                return Ok((true, first));
            }
            if first / 32 == major::STRING {
                return Ok((false, first));
            }
            Err(core_error::DecodeError::Mismatch {
                name: "enum",
                found: first,
            })
        }
        Err(error) => Err(error),
    }
}

/// For a variant that holds items without names. At an error both steps are given back.
fn begin_tuple_content<S: Source>(
    reader: &mut S,
    content: bool,
    found: u8,
    len: usize,
) -> Result<(), core_error::DecodeError<S::Error>>
    ensures opened { OnOk result
        (OpensParts 4 (S.view reader.old) (S.view reader.new) (Definite len)) }
    ensures finishes { OnErr result (Finishes 1 (S.view reader.old) (S.view reader.new) result) }
    ensures wrong { content ≡ false → SaysOther found result }
    ensures memory { IfErr result (λ error. is_out_of_memory error ≡ false) }
    ensures complete { IfErr result
        (Complete (ReadsContent content (Stepped (ReadsCountOf len))) (S.view reader.old)) }
    ensures rejects { IfErr result
        (Rejects (RejectsContent (content, found) (RejectsStepped (codes "tuple")
        (RejectsCountOf len)))
        (S.view reader.old) (S.view reader.new)) }
{
    if !content {
        reader.step_out();
        return Err(core_error::DecodeError::Mismatch {
            name: "enum",
            found,
        });
    }
    match begin_tuple(reader, len) {
        Ok(()) => Ok(()),
        Err(error) => {
            reader.step_out();
            Err(error)
        }
    }
}

/// For a variant that holds named fields. At an error both steps are given back.
fn begin_map_content<S: Source>(
    reader: &mut S,
    content: bool,
    found: u8,
) -> Result<Left, core_error::DecodeError<S::Error>>
    ensures opened { IfOk result (λ left.
        OpensParts 5 (S.view reader.old) (S.view reader.new) left) }
    ensures finishes { OnErr result (Finishes 1 (S.view reader.old) (S.view reader.new) result) }
    ensures wrong { content ≡ false → SaysOther found result }
    ensures memory { IfErr result (λ error. is_out_of_memory error ≡ false) }
    ensures complete { IfErr result
        (Complete (ReadsContent content (Stepped (ReadsLength 5))) (S.view reader.old)) }
    ensures rejects { IfErr result (Rejects
        (RejectsContent (content, found) (RejectsStepped (codes "map")
        (RejectsLength (codes "map") 5)))
        (S.view reader.old) (S.view reader.new)) }
{
    if !content {
        reader.step_out();
        return Err(core_error::DecodeError::Mismatch {
            name: "enum",
            found,
        });
    }
    match begin_map(reader) {
        Ok(left) => Ok(left),
        Err(error) => {
            reader.step_out();
            Err(error)
        }
    }
}

/// First the name, by `variant`, and then one of the others. Each of the others asks which form the
/// variant has before anything else.
///
/// # Errors
///
/// Each of the others answers `Core` of `Mismatch` by "enum" with the first byte of the variant
/// where it has the other form. Nothing is taken then.
impl<'a, S: Source> EnumAccessor<'a, S> {
    /// The variant's name.
    ///
    /// # Errors
    ///
    /// Those of the name, with what they leave. The step stays taken.
    #[inline(always)]
    pub fn variant<V: Deserialize<S>>(&mut self, alloc: Global) -> Result<V, DecodeError<S::Error>>
        ensures same_reference { enum_accessor_name self.new ≡ enum_accessor_name self.old }
        ensures same_form { form_of self.new ≡ form_of self.old }
        ensures decodes { Deserializes V.promise (inside_enum S.view self.old)
            (inside_enum S.view self.new) (answer_of result) }
    {
        V::deserialize(alloc, self.de)
    }

    /// A variant that is its name alone: nothing more is read. The step is given back, whatever the
    /// answer is.
    ///
    /// # Errors
    ///
    /// `Core` of `Mismatch` by "enum" with the variant's first byte: a content follows the name.
    /// Nothing is taken then.
    #[inline(always)]
    pub fn unit_variant(self) -> Result<(), DecodeError<S::Error>>
        ensures closes { Closes 1 (inside_enum S.view self.entry) (input S.view self.exit.0.now) }
        ensures right { (form_of self.entry).0 ≡ false → IsOk result }
        ensures wrong { (form_of self.entry).0 ≡ true →
            SaysOther (form_of self.entry).1 (answer_of result) }
    {
        if self.content {
            return Err(DecodeError::Core(core_error::DecodeError::Mismatch {
                name: "enum",
                found: self.found,
            }));
        }
        Ok(())
    }

    /// The deserializer that the content is read from, for a content that a free function reads.
    /// The step stays taken, whatever the answer is.
    ///
    /// # Errors
    ///
    /// `Core` of `Mismatch` by "enum" with the variant's first byte: no content follows the name.
    /// Nothing is taken then.
    pub fn content(&mut self) -> Result<&mut Deserializer<S>, DecodeError<S::Error>>
        ensures* writes_back { sem 𝓛 (LendsIfOk (the_enum (record { mir = named 0; lft = [] })
            S.row S.Error.row)
            (the_row S.row) self.entry result (with_content self.old) self.old) }
        ensures right { (form_of self.old).0 ≡ true → IsOk result }
        ensures value { IfOk result (λ de. de.now ≡ deserializer_of_enum self.old) }
        ensures wrong { (form_of self.old).0 ≡ false →
            SaysOther (form_of self.old).1 (answer_of result) }
    {
        if !self.content {
            return Err(DecodeError::Core(core_error::DecodeError::Mismatch {
                name: "enum",
                found: self.found,
            }));
        }
        Ok(self.de)
    }

    /// A variant that holds one value, which is its content. The step is given back, whatever the
    /// answer is.
    ///
    /// # Errors
    ///
    /// - that of `content`, where no content follows the name
    /// - those of the value, with what they leave
    #[inline(always)]
    pub fn newtype_variant<T: Deserialize<S>>(
        self,
        alloc: Global,
    ) -> Result<T, DecodeError<S::Error>>
        ensures finishes { Finishes 1 (inside_enum S.view self.entry)
            (input S.view self.exit.0.now) (answer_of result) }
        ensures wrong { (form_of self.entry).0 ≡ false →
            SaysOther (form_of self.entry).1 (answer_of result)
            × Closes 1 (inside_enum S.view self.entry) (input S.view self.exit.0.now) }
        ensures memory { IfErr result
            (λ error. IsTrue (is_out_of_memory (as_core error)) →
            IsTrue T.promise.format.takes_memory) }
        ensures progress { OnOk result
            ((input S.view self.exit.0.now).bound + 1
            ≤ (inside_enum S.view self.entry).bound) }
        ensures sound { IfOk result (Sound (ReadsContent (form_of self.entry).0
            T.promise.format.reads)
            (inside_enum S.view self.entry) (input S.view self.exit.0.now)) }
        ensures complete { IsTrue T.promise.exact → IsExact T.promise.format.owned
            (inside_enum S.view self.entry) →
            IfErr result (λ error. Complete (ReadsContent (form_of self.entry).0
            T.promise.format.reads)
            (inside_enum S.view self.entry) (as_core error)) }
        ensures exact { IsTrue T.promise.exact → IsExact T.promise.format.owned
            (inside_enum S.view self.entry) → IfErr result (λ error. Rejects
            (RejectsContent (form_of self.entry) T.promise.format.rejects)
            (inside_enum S.view self.entry) (input S.view self.exit.0.now) (as_core error)) }
        ensures rejects { IfErr result (λ error. Rejects
            (RejectsContent (form_of self.entry) (rejects_as_promised T.promise))
            (inside_enum S.view self.entry) (input S.view self.exit.0.now) (as_core error)) }
    {
        if !self.content {
            return Err(DecodeError::Core(core_error::DecodeError::Mismatch {
                name: "enum",
                found: self.found,
            }));
        }
        T::deserialize(alloc, self.de)
    }

    /// A variant that holds items without names, read by `deserialize_tuple`. The accessor holds
    /// the step of the variant too.
    ///
    /// # Errors
    ///
    /// The step of the variant is given back then.
    ///
    /// - that of `content`, where no content follows the name
    /// - those of `deserialize_tuple`
    pub fn tuple_variant(self, len: usize) -> Result<Accessor<'a, S>, DecodeError<S::Error>>
        ensures* rejected { sem 𝓛 (RestsIfErr (the_row S.row) (reference_of_enum self.entry)
            deserializer_name result (λ new.
            Finishes 1 (inside_enum S.view self.entry) (input S.view new) (answer_of result) ×
            IfErr result (λ error. Rejects (RejectsContent (form_of self.entry)
            (RejectsStepped (codes "tuple") (RejectsCountOf len)))
            (inside_enum S.view self.entry) (input S.view new) (as_core error)))) }
        ensures same_reference { IfOk result
            (λ accessor. deserializer_name accessor ≡ enum_accessor_name self.entry) }
        ensures wrong { (form_of self.entry).0 ≡ false →
            SaysOther (form_of self.entry).1 (answer_of result) }
        ensures opened { IfOk result (λ accessor. OpensParts 4 (inside_enum S.view self.entry)
            (inside S.view accessor) (left_in accessor)) }
        ensures steps { IfOk result (λ accessor. steps_held accessor ≡ 2) }
        ensures left { IfOk result (λ accessor. left_in accessor ≡ Definite len) }
        ensures memory { IfErr result (λ error. is_out_of_memory (as_core error) ≡ false) }
        ensures complete { IfErr result (λ error.
            Complete (ReadsContent (form_of self.entry).0 (Stepped (ReadsCountOf len)))
            (inside_enum S.view self.entry) (as_core error)) }
    {
        let EnumAccessor { de, content, found } = self;
        match begin_tuple_content(&mut de.reader, content, found, len) {
            Ok(()) => Ok(Accessor {
                de,
                left: Left::Definite(len),
                nested: true,
            }),
            Err(error) => Err(DecodeError::Core(error)),
        }
    }

    /// A variant that holds named fields, read by `deserialize_map`. The accessor holds the step of
    /// the variant too.
    ///
    /// # Errors
    ///
    /// The step of the variant is given back then.
    ///
    /// - that of `content`, where no content follows the name
    /// - those of `deserialize_map`
    pub fn struct_variant(self) -> Result<Accessor<'a, S>, DecodeError<S::Error>>
        ensures* rejected { sem 𝓛 (RestsIfErr (the_row S.row) (reference_of_enum self.entry)
            deserializer_name result (λ new.
            Finishes 1 (inside_enum S.view self.entry) (input S.view new) (answer_of result) ×
            IfErr result (λ error. Rejects (RejectsContent (form_of self.entry)
            (RejectsStepped (codes "map") (RejectsLength (codes "map") 5)))
            (inside_enum S.view self.entry) (input S.view new) (as_core error)))) }
        ensures same_reference { IfOk result
            (λ accessor. deserializer_name accessor ≡ enum_accessor_name self.entry) }
        ensures wrong { (form_of self.entry).0 ≡ false →
            SaysOther (form_of self.entry).1 (answer_of result) }
        ensures opened { IfOk result (λ accessor. OpensParts 5 (inside_enum S.view self.entry)
            (inside S.view accessor) (left_in accessor)) }
        ensures steps { IfOk result (λ accessor. steps_held accessor ≡ 2) }
        ensures memory { IfErr result (λ error. is_out_of_memory (as_core error) ≡ false) }
        ensures complete { IfErr result (λ error.
            Complete (ReadsContent (form_of self.entry).0 (Stepped (ReadsLength 5)))
            (inside_enum S.view self.entry) (as_core error)) }
    {
        let EnumAccessor { de, content, found } = self;
        match begin_map_content(&mut de.reader, content, found) {
            Ok(left) => Ok(Accessor {
                de,
                left,
                nested: true,
            }),
            Err(error) => Err(DecodeError::Core(error)),
        }
    }
}
