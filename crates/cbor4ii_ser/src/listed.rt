//! Structs that are written from a list of their fields in one call. Some may be left out.
ghost use Rattle.std.specs.Prelude.{◌≡◌, ◌≤◌, List, [], ℕ, length, refl};
ghost use Rattle.cbor4ii_ser.specs.Item.{parts};
ghost use Rattle.cbor4ii_ser.specs.Listed.{NamedItems, StandsBeforeOthers, always_before, before};
ghost use Rattle.cbor4ii_ser.specs.Listed.{before_joins};
ghost use Rattle.cbor4ii_ser.specs.Listed.{keyed_pairs, keyed_encoding, labels_of};
ghost use Rattle.cbor4ii_ser.specs.Listed.{◌▹◌, no_named_items, end_of_list};
ghost use Rattle.cbor4ii_ser.specs.Serializing.{Serializes, output};

use crate::error::EncodeError;
use crate::key::Key;
use crate::serialize::Serialize;
use crate::serializer::Serializer;
use cbor4ii_rw::write::Write;

/// What is written of a field: `&T` for a value that is always written, `IfSome` for one that is
/// left out where it is none.
pub trait FieldValue: Drop {
    // The field's item under a key with this label, where it is written, before others.
    ghost before: { Self → List ℕ → NamedItems → NamedItems };

    /// How many pairs it has: one, or none where it is left out.
    fn count(&self) -> usize
        ensures most { result ≤ 1 }
        ensures counts { (label : List ℕ) → result ≡ length (before self.now label []) };

    /// Writes the key and the value after it, or nothing where the field is left out.
    ///
    /// # Errors
    ///
    /// `Core` at the key, and those of the `serialize` of the value. What stays is described at
    /// `Serializer`. The key stays where the value is rejected.
    fn serialize_field<K: Key, W: Write>(
        &self,
        key: &K,
        ser: &mut Serializer<W>,
    ) -> Result<(), EncodeError<W::Error>>
        ensures { Serializes W.atomic
            (parts (keyed_pairs K.item (before self.now (K.label key.now) [])))
            (output W.view ser.old) (output W.view ser.new) result };

    // A law: what is written of it stands before any others.
    ghost joins: { StandsBeforeOthers before };
}

/// It is always written.
impl<'a, T: Serialize> FieldValue for &'a T {
    ghost before = { λ v. always_before T.encoding v.now };

    #[inline]
    fn count(&self) -> usize {
        1
    }

    #[inline]
    fn serialize_field<K: Key, W: Write>(
        &self,
        key: &K,
        ser: &mut Serializer<W>,
    ) -> Result<(), EncodeError<W::Error>> {
        put_keyed(ser, key, *self)
    }

    ghost joins = { λ v label others. refl };
}

/// A field that is left out where it is none.
#[derive(Clone, Copy, Debug, Drop)]
pub struct IfSome<'a, T>(pub &'a Option<T>);

/// It is written where it is some.
impl<'a, T: Serialize> FieldValue for IfSome<'a, T> {
    ghost before = { λ v label. before label T.encoding v.0.now };

    #[inline]
    fn count(&self) -> usize {
        match self.0 {
            Some(_) => 1,
            None => 0,
        }
    }

    #[inline]
    fn serialize_field<K: Key, W: Write>(
        &self,
        key: &K,
        ser: &mut Serializer<W>,
    ) -> Result<(), EncodeError<W::Error>> {
        match self.0 {
            Some(value) => put_keyed(ser, key, value),
            None => Ok(()),
        }
    }

    ghost joins = { λ v label others. before_joins T.encoding v.0.now label others };
}

#[inline]
fn put_keyed<K: Key, T: Serialize, W: Write>(
    ser: &mut Serializer<W>,
    key: &K,
    value: &T,
) -> Result<(), EncodeError<W::Error>>
    ensures { Serializes W.atomic
        (parts (keyed_pairs K.item (always_before T.encoding value.now (K.label key.now) [])))
        (output W.view ser.old) (output W.view ser.new) result }
{
    match key.serialize_key(ser) {
        Ok(()) => value.serialize(ser),
        Err(error) => Err(error),
    }
}

trait NestedFields: Drop {
    ghost items: { Self → List (List ℕ) → NamedItems };

    fn pair_count<K: Key>(&self, keys: &[K]) -> usize
        ensures counts { result ≡ length (items self.now (labels_of K.label keys.now)) }
        ensures most { result ≤ length keys.now };

    fn serialize_pairs<K: Key, W: Write>(
        &self,
        keys: &[K],
        ser: &mut Serializer<W>,
    ) -> Result<(), EncodeError<W::Error>>
        ensures { Serializes W.atomic
            (parts (keyed_pairs K.item (items self.now (labels_of K.label keys.now))))
            (output W.view ser.old) (output W.view ser.new) result };
}

impl NestedFields for () {
    ghost items = { no_named_items };

    #[inline]
    fn pair_count<K: Key>(&self, _keys: &[K]) -> usize {
        0
    }

    #[inline]
    fn serialize_pairs<K: Key, W: Write>(
        &self,
        _keys: &[K],
        _ser: &mut Serializer<W>,
    ) -> Result<(), EncodeError<W::Error>> {
        Ok(())
    }
}

impl<P: FieldValue, V: NestedFields> NestedFields for (P, V) {
    ghost items = { P.before ▹ V.items };

    #[inline]
    fn pair_count<K: Key>(&self, keys: &[K]) -> usize {
        match keys {
            [_, trailing @ ..] => self.0.count() + self.1.pair_count(trailing),
            [] => 0,
        }
    }

    #[inline]
    fn serialize_pairs<K: Key, W: Write>(
        &self,
        keys: &[K],
        ser: &mut Serializer<W>,
    ) -> Result<(), EncodeError<W::Error>> {
        match keys {
            [key, trailing @ ..] => match self.0.serialize_field(key, ser) {
                Ok(()) => self.1.serialize_pairs(trailing, ser),
                Err(error) => Err(error),
            },
            [] => Ok(()),
        }
    }
}

#[inline]
fn put_fields<V: NestedFields, K: Key, W: Write>(
    fields: V,
    keys: &[K],
    ser: &mut Serializer<W>,
) -> Result<(), EncodeError<W::Error>>
    ensures { Serializes W.atomic
        (keyed_encoding K.item (V.items fields (labels_of K.label keys.now)))
        (output W.view ser.old) (output W.view ser.new) result }
{
    match ser.map_head(fields.pair_count(keys)) {
        Ok(()) => fields.serialize_pairs(keys, ser),
        Err(error) => Err(error),
    }
}

/// The fields of a struct as they are written: a tuple of up to twelve, each `&T` or `IfSome`.
///
/// It is a tuple and no list, since a list would be a type argument that names several lifetimes,
/// and the borrow checker does not cover one. Nor does it cover a field that borrows, behind a
/// reference: such a struct is written by `Serializer::serialize_1_field` and its like.
pub trait FieldValues: Sized {
    // How many fields there are.
    ghost many: { ℕ };

    // The items of those that are written, under these labels.
    ghost items: { Self → List (List ℕ) → NamedItems };

    /// Writes a struct: a map from the keys to the values of the fields that are not left out, in
    /// this order. `keys` has the key of each field by its place, names or integers: the prover
    /// refuses a call with fewer keys than fields. The struct's own name is not written.
    ///
    /// # Errors
    ///
    /// `Core` at the head or a key, and those of the `serialize` of a value. They are described at
    /// `Serializer`. What was written before a value that is rejected stays.
    fn serialize_fields<K: Key, W: Write>(
        self,
        _name: &str,
        keys: &[K],
        ser: &mut Serializer<W>,
    ) -> Result<(), EncodeError<W::Error>>
        requires { many ≤ length keys.now }
        ensures { Serializes W.atomic
            (keyed_encoding K.item (items self (labels_of K.label keys.now)))
            (output W.view ser.old) (output W.view ser.new) result };
}

impl<A: FieldValue> FieldValues for (A,) {
    ghost many = { 1 };

    ghost items = { λ v. (A.before ▹ no_named_items) (v.0, end_of_list) };

    #[inline]
    fn serialize_fields<K: Key, W: Write>(
        self,
        _name: &str,
        keys: &[K],
        ser: &mut Serializer<W>,
    ) -> Result<(), EncodeError<W::Error>> {
        let (a,) = self;
        put_fields((a, ()), keys, ser)
    }
}

impl<A: FieldValue, B: FieldValue> FieldValues for (A, B) {
    ghost many = { 2 };

    ghost items = { λ v. (A.before ▹ B.before ▹ no_named_items) (v.0, (v.1, end_of_list)) };

    #[inline]
    fn serialize_fields<K: Key, W: Write>(
        self,
        _name: &str,
        keys: &[K],
        ser: &mut Serializer<W>,
    ) -> Result<(), EncodeError<W::Error>> {
        let (a, b) = self;
        put_fields((a, (b, ())), keys, ser)
    }
}

impl<A: FieldValue, B: FieldValue, C: FieldValue> FieldValues for (A, B, C) {
    ghost many = { 3 };

    ghost items = { λ v. (A.before ▹ B.before ▹ C.before ▹ no_named_items)
        (v.0, (v.1, (v.2, end_of_list))) };

    #[inline]
    fn serialize_fields<K: Key, W: Write>(
        self,
        _name: &str,
        keys: &[K],
        ser: &mut Serializer<W>,
    ) -> Result<(), EncodeError<W::Error>> {
        let (a, b, c) = self;
        put_fields((a, (b, (c, ()))), keys, ser)
    }
}

impl<A: FieldValue, B: FieldValue, C: FieldValue, D: FieldValue> FieldValues for (A, B, C, D) {
    ghost many = { 4 };

    ghost items = { λ v. (A.before ▹ B.before ▹ C.before ▹ D.before ▹
        no_named_items)
        (v.0, (v.1, (v.2, (v.3, end_of_list)))) };

    #[inline]
    fn serialize_fields<K: Key, W: Write>(
        self,
        _name: &str,
        keys: &[K],
        ser: &mut Serializer<W>,
    ) -> Result<(), EncodeError<W::Error>> {
        let (a, b, c, d) = self;
        put_fields((a, (b, (c, (d, ())))), keys, ser)
    }
}

impl<A: FieldValue, B: FieldValue, C: FieldValue, D: FieldValue, E: FieldValue> FieldValues
    for (A, B, C, D, E) {
    ghost many = { 5 };

    ghost items = { λ v. (A.before ▹ B.before ▹ C.before ▹ D.before ▹ E.before ▹
        no_named_items)
        (v.0, (v.1, (v.2, (v.3, (v.4, end_of_list))))) };

    #[inline]
    fn serialize_fields<K: Key, W: Write>(
        self,
        _name: &str,
        keys: &[K],
        ser: &mut Serializer<W>,
    ) -> Result<(), EncodeError<W::Error>> {
        let (a, b, c, d, e) = self;
        put_fields((a, (b, (c, (d, (e, ()))))), keys, ser)
    }
}

impl<
    A: FieldValue,
    B: FieldValue,
    C: FieldValue,
    D: FieldValue,
    E: FieldValue,
    F: FieldValue,
> FieldValues for (A, B, C, D, E, F) {
    ghost many = { 6 };

    ghost items = { λ v. (A.before ▹ B.before ▹ C.before ▹ D.before ▹ E.before ▹ F.before ▹
        no_named_items)
        (v.0, (v.1, (v.2, (v.3, (v.4, (v.5, end_of_list)))))) };

    #[inline]
    fn serialize_fields<K: Key, W: Write>(
        self,
        _name: &str,
        keys: &[K],
        ser: &mut Serializer<W>,
    ) -> Result<(), EncodeError<W::Error>> {
        let (a, b, c, d, e, f) = self;
        put_fields((a, (b, (c, (d, (e, (f, ())))))), keys, ser)
    }
}

impl<
    A: FieldValue,
    B: FieldValue,
    C: FieldValue,
    D: FieldValue,
    E: FieldValue,
    F: FieldValue,
    G: FieldValue,
> FieldValues for (A, B, C, D, E, F, G) {
    ghost many = { 7 };

    ghost items = { λ v. (A.before ▹ B.before ▹ C.before ▹ D.before ▹ E.before ▹ F.before ▹
        G.before ▹ no_named_items)
        (v.0, (v.1, (v.2, (v.3, (v.4, (v.5, (v.6, end_of_list))))))) };

    #[inline]
    fn serialize_fields<K: Key, W: Write>(
        self,
        _name: &str,
        keys: &[K],
        ser: &mut Serializer<W>,
    ) -> Result<(), EncodeError<W::Error>> {
        let (a, b, c, d, e, f, g) = self;
        put_fields((a, (b, (c, (d, (e, (f, (g, ()))))))), keys, ser)
    }
}

impl<
    A: FieldValue,
    B: FieldValue,
    C: FieldValue,
    D: FieldValue,
    E: FieldValue,
    F: FieldValue,
    G: FieldValue,
    H: FieldValue,
> FieldValues for (A, B, C, D, E, F, G, H) {
    ghost many = { 8 };

    ghost items = { λ v. (A.before ▹ B.before ▹ C.before ▹ D.before ▹ E.before ▹ F.before ▹
        G.before ▹ H.before ▹ no_named_items)
        (v.0, (v.1, (v.2, (v.3, (v.4, (v.5, (v.6, (v.7, end_of_list)))))))) };

    #[inline]
    fn serialize_fields<K: Key, W: Write>(
        self,
        _name: &str,
        keys: &[K],
        ser: &mut Serializer<W>,
    ) -> Result<(), EncodeError<W::Error>> {
        let (a, b, c, d, e, f, g, h) = self;
        put_fields((a, (b, (c, (d, (e, (f, (g, (h, ())))))))), keys, ser)
    }
}

impl<
    A: FieldValue,
    B: FieldValue,
    C: FieldValue,
    D: FieldValue,
    E: FieldValue,
    F: FieldValue,
    G: FieldValue,
    H: FieldValue,
    I: FieldValue,
> FieldValues for (A, B, C, D, E, F, G, H, I) {
    ghost many = { 9 };

    ghost items = { λ v. (A.before ▹ B.before ▹ C.before ▹ D.before ▹ E.before ▹ F.before ▹
        G.before ▹ H.before ▹ I.before ▹ no_named_items)
        (v.0, (v.1, (v.2, (v.3, (v.4, (v.5, (v.6, (v.7, (v.8, end_of_list))))))))) };

    #[inline]
    fn serialize_fields<K: Key, W: Write>(
        self,
        _name: &str,
        keys: &[K],
        ser: &mut Serializer<W>,
    ) -> Result<(), EncodeError<W::Error>> {
        let (a, b, c, d, e, f, g, h, i) = self;
        put_fields((a, (b, (c, (d, (e, (f, (g, (h, (i, ()))))))))), keys, ser)
    }
}

impl<
    A: FieldValue,
    B: FieldValue,
    C: FieldValue,
    D: FieldValue,
    E: FieldValue,
    F: FieldValue,
    G: FieldValue,
    H: FieldValue,
    I: FieldValue,
    J: FieldValue,
> FieldValues for (A, B, C, D, E, F, G, H, I, J) {
    ghost many = { 10 };

    ghost items = { λ v. (A.before ▹ B.before ▹ C.before ▹ D.before ▹ E.before ▹ F.before ▹
        G.before ▹ H.before ▹ I.before ▹ J.before ▹ no_named_items)
        (v.0, (v.1, (v.2, (v.3, (v.4, (v.5, (v.6, (v.7, (v.8, (v.9, end_of_list)))))))))) };

    #[inline]
    fn serialize_fields<K: Key, W: Write>(
        self,
        _name: &str,
        keys: &[K],
        ser: &mut Serializer<W>,
    ) -> Result<(), EncodeError<W::Error>> {
        let (a, b, c, d, e, f, g, h, i, j) = self;
        put_fields(
            (a, (b, (c, (d, (e, (f, (g, (h, (i, (j, ())))))))))),
            keys,
            ser,
        )
    }
}

impl<
    A: FieldValue,
    B: FieldValue,
    C: FieldValue,
    D: FieldValue,
    E: FieldValue,
    F: FieldValue,
    G: FieldValue,
    H: FieldValue,
    I: FieldValue,
    J: FieldValue,
    L: FieldValue,
> FieldValues for (A, B, C, D, E, F, G, H, I, J, L) {
    ghost many = { 11 };

    ghost items = { λ v. (A.before ▹ B.before ▹ C.before ▹ D.before ▹ E.before ▹ F.before ▹
        G.before ▹ H.before ▹ I.before ▹ J.before ▹ L.before ▹ no_named_items)
        (v.0, (v.1, (v.2, (v.3, (v.4, (v.5, (v.6, (v.7, (v.8, (v.9, (v.10, end_of_list))))))))))) };

    #[inline]
    fn serialize_fields<K: Key, W: Write>(
        self,
        _name: &str,
        keys: &[K],
        ser: &mut Serializer<W>,
    ) -> Result<(), EncodeError<W::Error>> {
        let (a, b, c, d, e, f, g, h, i, j, k) = self;
        put_fields(
            (a, (b, (c, (d, (e, (f, (g, (h, (i, (j, (k, ()))))))))))),
            keys,
            ser,
        )
    }
}

impl<
    A: FieldValue,
    B: FieldValue,
    C: FieldValue,
    D: FieldValue,
    E: FieldValue,
    F: FieldValue,
    G: FieldValue,
    H: FieldValue,
    I: FieldValue,
    J: FieldValue,
    L: FieldValue,
    M: FieldValue,
> FieldValues for (A, B, C, D, E, F, G, H, I, J, L, M) {
    ghost many = { 12 };

    ghost items = { λ v. (A.before ▹ B.before ▹ C.before ▹ D.before ▹ E.before ▹ F.before ▹
        G.before ▹ H.before ▹ I.before ▹ J.before ▹ L.before ▹ M.before ▹ no_named_items) (
          v.0,
          (
            v.1,
            (
              v.2,
              (
                v.3,
                (
                  v.4,
                  (
                    v.5,
                    (
                      v.6,
                      (
                        v.7,
                        (
                          v.8,
                          (
                            v.9,
                            (
                              v.10,
                              (v.11, end_of_list),
                            ),
                          ),
                        ),
                      ),
                    ),
                  ),
                ),
              ),
            ),
          ),
        ) };

    #[inline]
    fn serialize_fields<K: Key, W: Write>(
        self,
        _name: &str,
        keys: &[K],
        ser: &mut Serializer<W>,
    ) -> Result<(), EncodeError<W::Error>> {
        let (a, b, c, d, e, f, g, h, i, j, k, l) = self;
        put_fields(
            (a, (b, (c, (d, (e, (f, (g, (h, (i, (j, (k, (l, ())))))))))))),
            keys,
            ser,
        )
    }
}
