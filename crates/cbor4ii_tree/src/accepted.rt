//! Which encodings of a value are read: each, or the canonical one alone.
//!
//! Reading is written once over these two. What they differ in does not lead back to reading a
//! value, so that the calls that do stay one cycle.
ghost use Rattle.std.specs.Prelude.{◌≡◌, ◌≢◌, ◌+◌, ◌≤◌, ◌/◌, ◌⊎◌, Bool, OnOk, OnSome, IfOk};
ghost use Rattle.std.specs.Prelude.{true, false};
ghost use Rattle.cbor4ii_items.specs.Head.{byte_count, shortest_width};
ghost use Rattle.cbor4ii_items.specs.Initial.{simple_byte, simple_undefined};
ghost use Rattle.cbor4ii_tree.specs.Calls.Asking.{BeginsString, Never, WantsOnly};
ghost use Rattle.cbor4ii_tree.specs.Inner.Does.{Anything, DoesUnder, Gives};
ghost use Rattle.cbor4ii_tree.specs.Inner.Does.{value_or_error};
ghost use Rattle.cbor4ii_tree.specs.Basis.Item.{IsItem};
ghost use Rattle.cbor4ii_tree.specs.Inner.Leaf.{DoesAfterFirst};
ghost use Rattle.cbor4ii_tree.specs.Inner.Valuing.{ReadsUnder, RejectsFirst, RejectsMajor};
ghost use Rattle.cbor4ii_tree.specs.Inner.Valuing.{RejectsOf};
ghost use Rattle.cbor4ii_tree.specs.Inner.Valuing.{TakesLength, TakesTag};
ghost use Rattle.cbor4ii_tree.specs.Basis.View.{view};

use crate::value::Value;
use cbor4ii_rw::error::DecodeError;
use cbor4ii_rw::read::Source;
use std::alloc::Global;

/// The encodings of a value that are read.
pub(crate) trait Encodings {
    // Each value is read from its canonical encoding alone.
    ghost canonical: { Bool };

    /// Whether the argument of a head may have so many bytes after the first one.
    fn accepts_head(argument: u64, size: usize) -> bool
        ensures { result ≡ true → canonical ≡ true → size ≡ byte_count (shortest_width argument) };

    /// Whether this byte of major type 7 may begin a value: undefined is not canonical.
    fn accepts_simple(first: u8) -> bool
        ensures accepted { result ≡ true → canonical ≡ true → first ≢ simple_byte simple_undefined }
        ensures rejected { result ≡ false →
            (canonical ≡ true) × (first ≡ simple_byte simple_undefined) };

    /// Takes the head of an array or a map, which no look has shown whole. None is an indefinite
    /// length.
    fn take_length<S: Source>(
        reader: &mut S,
        major: u8,
        first: u8,
        failure: &mut Option<DecodeError<S::Error>>,
    ) -> Option<Option<usize>>
        requires shown { 1 ≤ (S.view reader.old).advanceable }
        requires major { first / 32 ≡ major }
        requires nests { (major ≡ 4) ⊎ (major ≡ 5) }
        ensures { Gives Never Anything
            (DoesAfterFirst first (TakesLength canonical major) (RejectsMajor canonical major))
            (S.view reader.old) (S.view reader.new) (value_or_error result failure.new) };

    /// As `take_length`, of a tag.
    fn take_tag<S: Source>(
        reader: &mut S,
        failure: &mut Option<DecodeError<S::Error>>,
    ) -> Option<u64>
        ensures { Gives Never Anything (DoesUnder (TakesTag canonical) (RejectsOf canonical 6))
            (S.view reader.old) (S.view reader.new) (value_or_error result failure.new) };

    fn read_leaf<S: Source>(
        alloc: Global,
        reader: &mut S,
        first: u8,
    ) -> Result<Value, DecodeError<S::Error>>
        requires major { first / 32 ≤ 3 }
        ensures does { DoesUnder (ReadsUnder canonical) (RejectsFirst canonical first)
            (S.view reader.old) (S.view reader.new) result }
        ensures memory { WantsOnly (λ _ _. BeginsString first)
            (S.view reader.old) (S.view reader.new) result }
        ensures item { IfOk result (λ v. IsItem (view v)) }
        ensures progress { OnOk result
            ((S.view reader.new).bound + 1 ≤ (S.view reader.old).bound) };
}
