//! A struct over a type parameter, and its law.
ghost use Rattle.std.specs.Prelude.{◌≡◌, None, codes};
ghost use Rattle.std.specs.declared.alloc.Global.{Global};
ghost use Rattle.std.proofs.Common.{refl};
ghost use Rattle.cbor4ii_ser.specs.OneItem.{IsOneItem, canonical};
ghost use Rattle.cbor4ii.specs.Codec.{option_codec, vector_codec};
ghost use Rattle.cbor4ii.specs.CodecAgrees.{as_described, its_codec, both_are};
ghost use Rattle.cbor4ii.specs.CodecFields.{struct_codec, with_field_once, with_field_once_or};
ghost use Rattle.cbor4ii.specs.CodecFields.{no_fields};
ghost use Rattle.cbor4ii.specs.Fields.{no_values};
ghost use Rattle.cbor4ii.specs.ReadBack.{IsReadBack};

use cbor4ii::dec::Source;
use cbor4ii::enc::Write;
use cbor4ii::serde::{
    AsDescribed, DecodeError, Described, Deserialize, Deserializer, EncodeError, Once, Or,
    Required, Serialize, Serializer, Typed, described_values_are_read_back,
};
use std::alloc::Global;

/// A page of a list of entries.
#[derive(Debug, PartialEq, Drop)]
pub struct Page<T> {
    /// How many entries the list has.
    pub total: u64,
    /// Those of this page.
    pub entries: Vec<T>,
    /// The first one of the next page, where there is one.
    pub next: Option<T>,
}

impl<T: AsDescribed> Serialize for Page<T> {
    ghost encoding = { ⟦<Page<T> as Described>⟧.codec.encoding };

    fn serialize<W: Write>(&self, ser: &mut Serializer<W>) -> Result<(), EncodeError<W::Error>> {
        ser.serialize_3_fields(
            "Page",
            "total",
            &self.total,
            "entries",
            &self.entries,
            "next",
            &self.next,
        )
    }
}

impl<S: Source, T: AsDescribed + Deserialize<S> + Drop> Deserialize<S> for Page<T> {
    fn deserialize(
        alloc: Global,
        de: &mut Deserializer<S>,
    ) -> Result<Page<T>, DecodeError<S::Error>> {
        let missing = [
            "a page has one total",
            "a page has one list of entries",
            "a page has one next",
        ];
        let presences = (Once(Required), (Once(Required), (Once(Or(None)), ())));
        de.deserialize_fields(
            alloc,
            "Page",
            &["total", "entries", "next"],
            &missing,
            presences,
        )
    }
}

impl<T> From<(u64, (Vec<T>, (Option<T>, ())))> for Page<T> {
    ghost from_gives = { λ values p. p ≡ record {
      total = values.0;
      entries = values.1.0;
      next = values.1.1.0;
    } };

    fn from(values: (u64, (Vec<T>, (Option<T>, ())))) -> Page<T> {
        let (total, (entries, (next, ()))) = values;
        Page {
            total,
            entries,
            next,
        }
    }
}

impl<T: AsDescribed> Typed for Page<T> {
    ghost promise = { ⟦<Page<T> as Described>⟧.codec.promise };
}

impl<T: AsDescribed> Described for Page<T> {
    ghost codec = { struct_codec (λ p. (p.total, (p.entries, (p.next, no_values))))
        (λ values. record {
          total = values.0;
          entries = values.1.0;
          next = values.1.1.0;
        }) (λ p. refl)
        (with_field_once (codes "total") (codes "a page has one total") ⟦<u64 as Described>⟧.codec
        (with_field_once (codes "entries") (codes "a page has one list of entries")
        (vector_codec (its_codec T.promise T.encoding T.codec))
        (with_field_once_or (codes "next") (codes "a page has one next") None
        (option_codec (its_codec T.promise T.encoding T.codec))
        no_fields refl) refl) refl) refl };
}

impl<T: AsDescribed> AsDescribed for Page<T> {
    ghost agrees = { as_described (T.agrees, (T.agrees, tt))
        (both_are T.agrees.is (both_are T.agrees.is refl)) };
}

/// What a page writes is one canonical item, and is read back as that page, whatever follows it, at
/// the cost that its codec names.
pub fn pages_are_read_back<T: AsDescribed>()
    ensures back { (alloc : Global) (p : Page T) → ⟦<Page<T> as Described>⟧.codec.stands p →
        IsReadBack ⟦<Page<T> as Typed>⟧.promise.format.reads
        (⟦<Page<T> as Serialize>⟧.encoding p) p (⟦<Page<T> as Described>⟧.codec.cost p) }
    ensures one { (p : Page T) → ⟦<Page<T> as Described>⟧.codec.stands p →
        IsOneItem canonical (⟦<Page<T> as Serialize>⟧.encoding p) }
{
    described_values_are_read_back::<Page<T>>();
}

#[cfg(test)]
mod tests;
