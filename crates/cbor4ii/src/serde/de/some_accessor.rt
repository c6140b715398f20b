//! Values that may be absent, of which first is read whether one comes.
ghost use Rattle.std.specs.Prelude.{[], ◌≡◌, ◌≤◌, ◌+◌, false, Ok, None, IfOk, IfErr, IsTrue};
ghost use Rattle.std.specs.Prelude.{OnSome};
ghost use Rattle.std.specs.Borrow.{sem, Lends, RestsIfErr};
ghost use mir.Syntax.{named};
ghost use Rattle.cbor4ii_rw.specs.Reader.{ReaderFails};
ghost use Rattle.cbor4ii_items.specs.Moves.{OnRead};
ghost use Rattle.cbor4ii_items.specs.Decoding.{IsExact, Sound, Complete, Rejects};
ghost use Rattle.cbor4ii_items.specs.InputError.{is_out_of_memory};
ghost use Rattle.cbor4ii.specs.contracts.serde.de.deserializer.Deserializer.{the_row};
ghost use Rattle.cbor4ii.specs.contracts.serde.de.some_accessor.SomeAccessor.{the_row as the_some};
ghost use Rattle.cbor4ii.specs.Accessing.{Closes, Finishes, RejectedAs};
ghost use Rattle.cbor4ii.specs.Optional.{inside_some, deserializer_of_some, some_accessor_name};
ghost use Rattle.cbor4ii.specs.Optional.{comes};
ghost use Rattle.cbor4ii.specs.Optional.{steps_of_some, with_value_from, OpensOption};
ghost use Rattle.cbor4ii.specs.Optional.{ReadsComingValue, presence_format};
ghost use Rattle.cbor4ii.specs.Typed.{input, answer_of, as_core};

use crate::serde::de::deserialize::Deserialize;
use crate::serde::de::deserializer::Deserializer;
use crate::serde::de::error::DecodeError;
use cbor4ii_items::initial::peek;
use cbor4ii_items::marker;
use cbor4ii_rw::error as core_error;
use cbor4ii_rw::read::Source;
use std::alloc::Global;

/// A value that may be absent. Where one comes it holds a step of the budget, and gives it back
/// when it is dropped, whether or not the value was read. A value that was not read stays.
pub struct SomeAccessor<'a, S: Source> {
    pub(crate) de: &'a mut Deserializer<S>,
    pub(crate) some: bool,
}

impl<'a, S: Source> Drop for SomeAccessor<'a, S> {
    fn drop(self)
        ensures { Closes (steps_of_some (comes self.entry))
            (inside_some S.view self.entry) (input S.view self.exit.0.now) }
    {
        let SomeAccessor { de, some } = self;
        if some {
            de.reader.step_out();
        }
    }
}

impl<S: Source> Deserializer<S> {
    /// Whether a value comes: null and undefined are none, and are taken, under no step. Before any
    /// other byte a step is taken, and the byte stays.
    ///
    /// # Errors
    ///
    /// Nothing is taken then, and the budget is as before.
    ///
    /// - `Core` of `Read`: the reader failed
    /// - `Core` of `Eof` by "option" with 1: no byte is left
    /// - `Core` of `DepthOverflow` by "option": a value comes and no step is left
    pub fn deserialize_option(&mut self) -> Result<SomeAccessor<'_, S>, DecodeError<S::Error>>
        ensures* rejected { sem 𝓛 (RestsIfErr (the_row S.row) self.entry
            some_accessor_name result (λ new.
            RejectedAs presence_format
            (input S.view self.old) (input S.view new) (answer_of result) ×
            OnRead (answer_of result) (ReaderFails (input S.view self.old) (input S.view new)))) }
        ensures same_reference { IfOk result
            (λ accessor. some_accessor_name accessor ≡ self.entry.ghost_name) }
        ensures opened { IfOk result (λ accessor. OpensOption (input S.view self.old)
            (inside_some S.view accessor) (comes accessor)) }
    {
        match begin_option(&mut self.reader) {
            Ok(some) => Ok(SomeAccessor { de: self, some }),
            Err(error) => Err(DecodeError::Core(error)),
        }
    }
}

fn begin_option<S: Source>(reader: &mut S) -> Result<bool, core_error::DecodeError<S::Error>>
    ensures opened { IfOk result (OpensOption (S.view reader.old) (S.view reader.new)) }
    ensures rejected { RejectedAs presence_format (S.view reader.old) (S.view reader.new) result }
    ensures failed { OnRead result (ReaderFails (S.view reader.old) (S.view reader.new)) }
{
    match peek(reader, "option") {
        Ok(first) => {
            if first == marker::NULL || first == marker::UNDEFINED {
                reader.advance(1);
                return Ok(false);
            }
            if !reader.step_in() {
                return Err(core_error::DecodeError::DepthOverflow { name: "option" });
            }
            Ok(true)
        }
        Err(error) => Err(error),
    }
}

impl<'a, S: Source> SomeAccessor<'a, S> {
    /// Whether a value comes.
    pub fn is_some(&self) -> bool
        ensures { result ≡ comes self.now }
    {
        self.some
    }

    /// The deserializer that the value is read from, for a value that a free function reads. Ask
    /// `is_some` first: where no value comes, the null or undefined was taken and no step is held.
    /// What is read from it then is the item that follows, which is not the value, and no step of
    /// this accessor counts for it.
    pub fn deserializer(&mut self) -> &mut Deserializer<S>
        ensures* writes_back { sem 𝓛 (Lends (the_some (record { mir = named 0; lft = [] })
            S.row S.Error.row)
            (the_row S.row) self.entry result (with_value_from self.old)) }
        ensures value { result.now ≡ deserializer_of_some self.old }
    {
        self.de
    }

    /// The value, or none where none comes. The step is given back, whatever the answer is. Where
    /// none comes, nothing moves.
    ///
    /// # Errors
    ///
    /// Those of the value, with what they leave. None comes where no value does.
    pub fn value<T: Deserialize<S>>(self, alloc: Global) -> Result<Option<T>, DecodeError<S::Error>>
        ensures finishes { Finishes (steps_of_some (comes self.entry))
            (inside_some S.view self.entry) (input S.view self.exit.0.now) (answer_of result) }
        ensures absent { comes self.entry ≡ false → (result ≡ Ok None)
            × (input S.view self.exit.0.now ≡ inside_some S.view self.entry) }
        ensures memory { IfErr result
            (λ error. IsTrue (is_out_of_memory (as_core error)) →
            IsTrue T.promise.format.takes_memory) }
        ensures progress { IfOk result (λ value. OnSome value
            ((input S.view self.exit.0.now).bound + 1
            ≤ (inside_some S.view self.entry).bound)) }
        ensures sound { IfOk result (Sound (ReadsComingValue (comes self.entry)
            T.promise.format.reads)
            (inside_some S.view self.entry) (input S.view self.exit.0.now)) }
        ensures complete { IsTrue T.promise.exact → IsExact T.promise.format.owned
            (inside_some S.view self.entry) →
            IfErr result (λ error. Complete (ReadsComingValue (comes self.entry)
            T.promise.format.reads)
            (inside_some S.view self.entry) (as_core error)) }
        ensures rejects { IsTrue T.promise.known → IfErr result
            (λ error. Rejects T.promise.format.begins
            (inside_some S.view self.entry) (input S.view self.exit.0.now) (as_core error)) }
        ensures exact { IsTrue T.promise.exact → IsExact T.promise.format.owned
            (inside_some S.view self.entry) →
            IfErr result (λ error. Rejects T.promise.format.rejects
            (inside_some S.view self.entry) (input S.view self.exit.0.now) (as_core error)) }
    {
        if !self.some {
            return Ok(None);
        }
        match T::deserialize(alloc, self.de) {
            Ok(value) => Ok(Some(value)),
            Err(error) => Err(error),
        }
    }
}
