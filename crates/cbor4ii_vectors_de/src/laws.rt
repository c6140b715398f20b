//! The laws of what is written and read are called.
ghost use Rattle.std.specs.Prelude.{◌≡◌, [], codes};
ghost use Rattle.std.proofs.Common.{◌∙◌, sym, refl};
ghost use Rattle.cbor4ii_items.specs.Laws.Arguments.{argument_one, argument_within, zero_small};
ghost use Rattle.cbor4ii_items.specs.Numbers.{ReadsUnsigned};
ghost use Rattle.cbor4ii.specs.CodecAgrees.{as_described};
ghost use Rattle.cbor4ii.specs.CodecFields.{struct_codec, with_field, no_fields};
ghost use Rattle.cbor4ii.specs.Fields.{no_values};
ghost use Rattle.cbor4ii.specs.Typed.{not_exact};

use crate::typed::comes_back;
use cbor4ii::serde::laws::{self, EnumValues};
use cbor4ii::serde::{
    AsDescribed, Choice, DecodeError, Described, Deserialize, Deserializer, EncodeError, Holds,
    Otherwise, Required, Serialize, Serializer, Typed, Unit, described_values_are_answered,
    described_values_are_read_back,
};
use cbor4ii_items::types::Bytes;
use cbor4ii_rw::error::{Never, StaticStr};
use cbor4ii_rw::read::Source;
use cbor4ii_rw::slice_reader::SliceReader;
use cbor4ii_rw::write::Write;
use cbor4ii_tree::{RawValue, Value};
use std::alloc::Global;
use std::collections::BTreeMap;
use std::test::Fail;

#[test]
fn laws_of_values_are_called(rt: HostRuntime) {
    laws::null_is_read_as_none::<u8>();
    laws::orders_are_total::<String>();
    laws::values_cost_no_more_than_canonical_ones();
    laws::what_is_written_is_read::<u8, Never>();
    laws::rejected_options_are_not_read::<u8>();
}

// A raw value is not described, and its item may be any.
#[test]
fn laws_of_containers_are_called(rt: HostRuntime) {
    laws::wrapped_values_are_read_back::<RawValue<'static>>();
    laws::tuples_are_read_back::<u8, RawValue<'static>, RawValue<'static>>();
    laws::elements_are_read_as_tuples::<u8, RawValue<'static>, RawValue<'static>>();
    laws::tagged_values_are_read_back::<RawValue<'static>>();
    laws::vectors_are_read_back::<RawValue<'static>>();
    laws::maps_are_read_back::<String, RawValue<'static>>();
}

/// A struct of two fields.
#[derive(Debug, PartialEq, Drop)]
struct Two {
    b: u8,
    f: bool,
}

impl Serialize for Two {
    ghost encoding = { ⟦<Two as Described>⟧.codec.encoding };

    fn serialize<W: Write>(&self, ser: &mut Serializer<W>) -> Result<(), EncodeError<W::Error>> {
        ser.serialize_2_fields("Two", "b", &self.b, "f", &self.f)
    }
}

impl<S: Source> Deserialize<S> for Two {
    fn deserialize(alloc: Global, de: &mut Deserializer<S>) -> Result<Two, DecodeError<S::Error>> {
        let presences = (Required, (Required, ()));
        de.deserialize_fields(alloc, "Two", &["b", "f"], &["no b", "no f"], presences)
    }
}

impl From<(u8, (bool, ()))> for Two {
    ghost from_gives = { λ values t. t ≡ record { b = values.0; f = values.1.0 } };

    fn from(values: (u8, (bool, ()))) -> Two {
        let (b, (f, ())) = values;
        Two { b, f }
    }
}

impl Typed for Two {
    ghost promise = { ⟦<Two as Described>⟧.codec.promise };
}

impl Described for Two {
    ghost codec = { struct_codec (λ t. (t.b, (t.f, no_values)))
        (λ values. record { b = values.0; f = values.1.0 }) (λ t. refl)
        (with_field (codes "b") (codes "no b") ⟦<u8 as Described>⟧.codec
        (with_field (codes "f") (codes "no f") ⟦<bool as Described>⟧.codec no_fields refl) refl)
        refl };
}

impl AsDescribed for Two {
    ghost agrees = { as_described tt refl };
}

#[test]
fn a_described_struct_comes_back(rt: HostRuntime) -> Result<(), Fail> {
    comes_back::<Two>(
        rt.alloc(),
        b"\xa2\x61b\x05\x61f\xf5",
        "Two { b: 5, f: true }",
    )
}

#[test]
fn laws_of_described_types_are_called(rt: HostRuntime) {
    described_values_are_read_back::<Two>();
    described_values_are_read_back::<BTreeMap<String, (Option<u64>, Vec<Box<()>>)>>();
    described_values_are_read_back::<BTreeMap<Bytes<Vec<u8>>, Value>>();
    described_values_are_answered::<Two, Never>();
    described_values_are_answered::<BTreeMap<String, (Option<u64>, Vec<Box<()>>)>, Never>();
    described_values_are_answered::<BTreeMap<Bytes<Vec<u8>>, Value>, Never>();
}

/// How bright a lamp is, by a variant: `Off` by its name alone, which is 0, or `Level` with a
/// number.
struct Lamp(u8);

impl EnumValues for Lamp {
    ghost units = { λ name v. (name ≡ codes "Off") × (v.0 ≡ 0) };

    ghost contents = { λ name xs v n c. ReadsUnsigned 1 xs v.0 n c × (name ≡ codes "Level") };

    ghost same = { λ v w. v.0 ≡ w.0 };

    ghost unit_one = { λ _ _ _ p q. p.1 ∙ sym q.1 };

    ghost content_laws = { λ _. record {
      one = λ xs v w n m c d p q. argument_one 0 1 zero_small xs v.0 w.0 n m c d p.0 q.0;
      within = λ xs v n c p. argument_within 0 1 zero_small xs v.0 n c p.0;
      positive = not_exact;
      alone = not_exact;
    } };
}

#[test]
fn laws_of_variants_are_called(rt: HostRuntime) {
    laws::variants_are_read_in_one_way::<Lamp>();
    laws::variants_are_read_by_calls::<String, Lamp>();
    laws::variants_are_read_back::<Lamp>();
}

#[test]
fn laws_of_one_answer_are_called(rt: HostRuntime) {
    laws::exact_calls_are_answered_alike::<u8, Never, Never>();
    laws::decoded_items_are_answered_alike::<u8, Never, Never>();
}

#[test]
fn laws_of_one_error_are_called(rt: HostRuntime) {
    laws::typed_leaves_are_rejected_once();
    laws::any_items_are_rejected_once();
    laws::raw_items_are_rejected_once();
    laws::wrapped_values_are_rejected_once::<u8, bool, String>();
    laws::typed_maps_are_rejected_once::<String, u8>();
    laws::elements_are_rejected_once::<String, (u8, (bool, ())), Two>();
}

type Slice = SliceReader<'static>;

type TwoPlaces = (Option<u8>, (Option<bool>, ()));

type TwoPresences = (Required, (Required, ()));

#[test]
fn laws_of_one_error_of_structs_are_called(rt: HostRuntime) {
    laws::structs_are_rejected_once::<StaticStr, Option<String>, TwoPlaces, TwoPresences, Two>();
    laws::structs_are_rejected_once::<i64, Option<String>, TwoPlaces, TwoPresences, Two>();
}

impl From<Choice<u8, Never>> for Lamp {
    fn from(level: Choice<u8, Never>) -> Lamp {
        match level {
            Choice::First(value) => Lamp(value),
        }
    }
}

#[test]
fn laws_of_one_error_of_enums_are_called(rt: HostRuntime) {
    laws::enums_are_rejected_once::<Slice, (), Choice<u8, Never>, Unit, (Holds, Otherwise), Lamp>();
    laws::variants_are_rejected_once::<Slice, u8, TwoPlaces, TwoPresences, Never, Otherwise>();
}
