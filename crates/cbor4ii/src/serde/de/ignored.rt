//! Items that are skipped.
ghost use Rattle.std.proofs.Common.{refl};
ghost use Rattle.cbor4ii_items.specs.Decoding.{Decodes};
ghost use Rattle.cbor4ii_tree.specs.Calls.Promises.{Others, OnlySkips, PrefixSkips, EofSkips};
ghost use Rattle.cbor4ii_tree.specs.Basis.Headline.{AllSkips};
ghost use Rattle.cbor4ii_tree.specs.Calls.Promises.{DepthSkips, FinalSkips, ExactSkips};
ghost use Rattle.cbor4ii_tree.specs.Laws.Ignoring.{ignored_lawful};
ghost use Rattle.cbor4ii.specs.ItemRead.{skipped_format};
ghost use Rattle.cbor4ii.specs.Typed.{input, answer_of, exact_promise};

use crate::serde::de::deserialize::{Deserialize, Typed};
use crate::serde::de::deserializer::{Deserializer, take_item};
use crate::serde::de::error::DecodeError;
use cbor4ii_items::decode::Decode;
use cbor4ii_rw::read::Source;
use cbor4ii_tree::IgnoredAny;
use std::alloc::Global;

impl Typed for IgnoredAny {
    ghost promise = { exact_promise refl ignored_lawful };
}

/// Any item, of which nothing is kept, read by `Deserializer::deserialize_ignored_any`, with its
/// errors.
impl<S: Source> Deserialize<S> for IgnoredAny {
    fn deserialize(
        alloc: Global,
        de: &mut Deserializer<S>,
    ) -> Result<IgnoredAny, DecodeError<S::Error>> {
        take_item(alloc, de)
    }
}

impl<S: Source> Deserializer<S> {
    /// Skips one item, whatever it is, under a step for each level. It takes no memory.
    ///
    /// # Errors
    ///
    /// Those of `IgnoredAny` as an item of the codec, each as `Core`, with its fields and what it
    /// leaves.
    pub fn deserialize_ignored_any(&mut self, alloc: Global) -> Result<(), DecodeError<S::Error>>
        ensures item { Decodes skipped_format
            (input S.view self.old) (input S.view self.new) (answer_of result) }
        ensures only { OnlySkips (input S.view self.old) (input S.view self.new)
            (answer_of result) }
        ensures all { AllSkips (input S.view self.old) (input S.view self.new) (answer_of result) }
        ensures prefix { PrefixSkips (input S.view self.old) (answer_of result) }
        ensures eof { EofSkips (input S.view self.old) (input S.view self.new) (answer_of result) }
        ensures depth { DepthSkips (input S.view self.old) (answer_of result) }
        ensures never { FinalSkips (input S.view self.old) (answer_of result) }
        ensures others { Others (input S.view self.old) (answer_of result) }
        ensures exact { ExactSkips (input S.view self.old) (input S.view self.new)
            (answer_of result) }
    {
        match IgnoredAny::decode(alloc, &mut self.reader) {
            Ok(IgnoredAny) => Ok(()),
            Err(error) => Err(DecodeError::Core(error)),
        }
    }
}
