//! Types that are described in one word: how they are written and read.
ghost use Rattle.std.specs.Prelude.{◌<◌, ◌^◌, true, false, ◌≡◌, ◌++◌, ℕ, List, Some, Result};
ghost use Rattle.std.proofs.Common.{lit≤, refl};
ghost use Rattle.std.specs.Char.{IsScalar};
ghost use Rattle.std.specs.declared.alloc.Global.{Global};
ghost use Rattle.cbor4ii_rw.specs.View.{View};
ghost use Rattle.cbor4ii_rw.specs.declared.error.DecodeError.{DecodeError};
ghost use Rattle.cbor4ii_items.specs.Budget.{CostFits};
ghost use Rattle.cbor4ii_items.specs.Cow.{cow_text};
ghost use Rattle.cbor4ii_items.specs.Decoding.{IsExact};
ghost use Rattle.cbor4ii_items.specs.Head.{one, two, four, eight};
ghost use Rattle.cbor4ii_items.specs.Initial.{half, single, double};
ghost use Rattle.cbor4ii_items.specs.Lent.{lent_str, lent_bytes};
ghost use Rattle.cbor4ii_items.specs.Numbers.{IsWithin};
ghost use Rattle.cbor4ii_items.specs.Laws.LeavesBack.{bool_back, float_back, text_back, lent_back};
ghost use Rattle.cbor4ii_items.specs.Laws.NumbersBack.{argument_back, signed_back, u128_back};
ghost use Rattle.cbor4ii_items.specs.Laws.NumbersBack.{i128_back};
ghost use Rattle.cbor4ii_tree.specs.Basis.Item.{IsItem};
ghost use Rattle.cbor4ii_tree.specs.Basis.View.{view};
ghost use Rattle.cbor4ii_ser.specs.Item.{encoded};
ghost use Rattle.cbor4ii_ser.specs.OneItem.{IsOneItem, canonical};
ghost use Rattle.cbor4ii_ser.specs.Laws.OneItem.{bool_is_item, unsigned_bytes_are_item};
ghost use Rattle.cbor4ii_ser.specs.Laws.OneItem.{signed_bytes_are_item, float_is_item};
ghost use Rattle.cbor4ii_ser.specs.Laws.OneItem.{text_is_item, owned_text_is_item};
ghost use Rattle.cbor4ii_ser.specs.Laws.OneItem.{character_is_item, bytes_are_item, unit_is_item};
ghost use Rattle.cbor4ii_ser.specs.Laws.ValueItems.{value_is_item};
ghost use Rattle.cbor4ii.specs.AnyCost.{any_cost};
ghost use Rattle.cbor4ii.specs.Codec.{Codec, leaf_codec, any_value, string_is_back, bytes_are_back};
ghost use Rattle.cbor4ii.specs.Codec.{bytes_are_one, character_is_back, unsigned_is_one};
ghost use Rattle.cbor4ii.specs.Codec.{signed_is_one, unit_is_back, IsText, AreFew, option_codec};
ghost use Rattle.cbor4ii.specs.Codec.{box_codec, vector_codec, map_codec, pair_codec, triple_codec};
ghost use Rattle.cbor4ii.specs.Codec.{no_facts};
ghost use Rattle.cbor4ii.specs.CodecAgrees.{AgreesWith, as_described, option_agrees, box_agrees};
ghost use Rattle.cbor4ii.specs.CodecAgrees.{vector_agrees, pair_agrees, triple_agrees, map_agrees};
ghost use Rattle.cbor4ii.specs.Laws.ValuesBack.{value_back};
ghost use Rattle.cbor4ii.specs.ReadBack.{IsReadBack, AnswersBack};
ghost use Rattle.cbor4ii.specs.Typed.{not_exact, Deserializes};

use crate::serde::de::deserialize::Typed;
use cbor4ii_items::types::{Bytes, F16, F32, F64};
use cbor4ii_ser::serialize::Serialize;
use cbor4ii_tree::Value;
use std::alloc::Global;
use std::borrow::CowStr;
use std::collections::BTreeMap;

/// A type that is described in one word: how it is written and read. No code runs for it. The
/// promise of `Typed` and the item of `Serialize` may be taken from there. That they are as it says
/// is what `AsDescribed` holds.
pub trait Described: Sized {
    // How it is written and read, that its item is one, and that it is read back.
    ghost codec: { Codec Self };
}

/// A type that is written and read as it is described. No code runs for it. Of a type whose ghosts
/// are its codec's the law is `as_described tt refl`.
pub trait AsDescribed: Described + Serialize + Typed {
    // What it writes is the codec's item, what it reads is what the codec reads, and it is exact
    // where the codec is.
    ghost agrees: { AgreesWith Self.promise Self.encoding Self.codec };
}

/// What is written of a value of such a type is one canonical item, which is read back as the
/// value, whatever follows it, at the cost that the type names, where the value is one of the
/// program's. A name is read into memory of some `alloc`. What the type writes, reads and calls
/// exact is what its codec says.
pub fn described_values_are_read_back<T: AsDescribed>()
    ensures back { (alloc : Global) (v : T) → T.codec.stands v →
        IsReadBack T.promise.format.reads (T.encoding v) v (T.codec.cost v) }
    ensures one { (v : T) → T.codec.stands v → IsOneItem canonical (T.encoding v) }
    ensures agrees { AgreesWith T.promise T.encoding T.codec }
{}

/// Where bytes are what is written of a value of such a type, with others after them, each call
/// that reads the type answers a value that means the same, and leaves the others. So it is over
/// every reader whose budget has the cost, but where the reader failed or memory was refused.
pub fn described_values_are_answered<T: AsDescribed, E>()
    ensures { (alloc : Global) (v : T) (bytes others : List ℕ) (old new : View)
        (answer : Result T (DecodeError E)) → T.codec.stands v → T.encoding v ≡ encoded bytes →
        old.known ≡ Some (bytes ++ others) → IsExact T.promise.format.owned old →
        CostFits (T.codec.cost v) old.budget → Deserializes T.promise old new answer →
        AnswersBack T.promise.format v others new answer }
{}

impl Described for u8 {
    ghost codec = { leaf_codec ⟦<u8 as Typed>⟧.promise ⟦<u8 as Serialize>⟧.encoding
        (λ v. v < 2 ^ 8) (argument_back 0 one)
        (unsigned_is_one (2 ^ 8) (lit≤ tt)) };
}

impl AsDescribed for u8 {
    ghost agrees = { as_described tt refl };
}

impl Described for u16 {
    ghost codec = { leaf_codec ⟦<u16 as Typed>⟧.promise ⟦<u16 as Serialize>⟧.encoding
        (λ v. v < 2 ^ 16) (argument_back 0 two)
        (unsigned_is_one (2 ^ 16) (lit≤ tt)) };
}

impl AsDescribed for u16 {
    ghost agrees = { as_described tt refl };
}

impl Described for u32 {
    ghost codec = { leaf_codec ⟦<u32 as Typed>⟧.promise ⟦<u32 as Serialize>⟧.encoding
        (λ v. v < 2 ^ 32) (argument_back 0 four)
        (unsigned_is_one (2 ^ 32) (lit≤ tt)) };
}

impl AsDescribed for u32 {
    ghost agrees = { as_described tt refl };
}

impl Described for u64 {
    ghost codec = { leaf_codec ⟦<u64 as Typed>⟧.promise ⟦<u64 as Serialize>⟧.encoding
        (λ v. v < 2 ^ 64) (argument_back 0 eight)
        (unsigned_is_one (2 ^ 64) (lit≤ tt)) };
}

impl AsDescribed for u64 {
    ghost agrees = { as_described tt refl };
}

impl Described for u128 {
    ghost codec = { leaf_codec ⟦<u128 as Typed>⟧.promise ⟦<u128 as Serialize>⟧.encoding
        (λ v. v < 2 ^ 128) u128_back
        (λ v h. unsigned_bytes_are_item canonical v) };
}

impl AsDescribed for u128 {
    ghost agrees = { as_described tt refl };
}

impl Described for i8 {
    ghost codec = { leaf_codec ⟦<i8 as Typed>⟧.promise ⟦<i8 as Serialize>⟧.encoding
        (IsWithin (2 ^ 7)) (λ v. signed_back one (2 ^ 7) v (lit≤ tt))
        (signed_is_one (2 ^ 7) (lit≤ tt)) };
}

impl AsDescribed for i8 {
    ghost agrees = { as_described tt refl };
}

impl Described for i16 {
    ghost codec = { leaf_codec ⟦<i16 as Typed>⟧.promise ⟦<i16 as Serialize>⟧.encoding
        (IsWithin (2 ^ 15)) (λ v. signed_back two (2 ^ 15) v (lit≤ tt))
        (signed_is_one (2 ^ 15) (lit≤ tt)) };
}

impl AsDescribed for i16 {
    ghost agrees = { as_described tt refl };
}

impl Described for i32 {
    ghost codec = { leaf_codec ⟦<i32 as Typed>⟧.promise ⟦<i32 as Serialize>⟧.encoding
        (IsWithin (2 ^ 31)) (λ v. signed_back four (2 ^ 31) v (lit≤ tt))
        (signed_is_one (2 ^ 31) (lit≤ tt)) };
}

impl AsDescribed for i32 {
    ghost agrees = { as_described tt refl };
}

impl Described for i64 {
    ghost codec = { leaf_codec ⟦<i64 as Typed>⟧.promise ⟦<i64 as Serialize>⟧.encoding
        (IsWithin (2 ^ 63)) (λ v. signed_back eight (2 ^ 63) v (lit≤ tt))
        (signed_is_one (2 ^ 63) (lit≤ tt)) };
}

impl AsDescribed for i64 {
    ghost agrees = { as_described tt refl };
}

impl Described for i128 {
    ghost codec = { leaf_codec ⟦<i128 as Typed>⟧.promise ⟦<i128 as Serialize>⟧.encoding
        (IsWithin (2 ^ 127)) i128_back
        (λ v h. signed_bytes_are_item canonical v) };
}

impl AsDescribed for i128 {
    ghost agrees = { as_described tt refl };
}

impl Described for F16 {
    ghost codec = { leaf_codec ⟦<F16 as Typed>⟧.promise ⟦<F16 as Serialize>⟧.encoding
        (λ v. v.0 < 2 ^ 16) (λ v. float_back 0xf9 2 v.0)
        (λ v. float_is_item canonical half v.0) };
}

impl AsDescribed for F16 {
    ghost agrees = { as_described tt refl };
}

impl Described for F32 {
    ghost codec = { leaf_codec ⟦<F32 as Typed>⟧.promise ⟦<F32 as Serialize>⟧.encoding
        (λ v. v.0 < 2 ^ 32) (λ v. float_back 0xfa 4 v.0)
        (λ v. float_is_item canonical single v.0) };
}

impl AsDescribed for F32 {
    ghost agrees = { as_described tt refl };
}

impl Described for F64 {
    ghost codec = { leaf_codec ⟦<F64 as Typed>⟧.promise ⟦<F64 as Serialize>⟧.encoding
        (λ v. v.0 < 2 ^ 64) (λ v. float_back 0xfb 8 v.0)
        (λ v. float_is_item canonical double v.0) };
}

impl AsDescribed for F64 {
    ghost agrees = { as_described tt refl };
}

impl Described for bool {
    ghost codec = { leaf_codec ⟦<bool as Typed>⟧.promise ⟦<bool as Serialize>⟧.encoding
        any_value (λ v any. bool_back v)
        (λ v any. bool_is_item canonical v) };
}

impl AsDescribed for bool {
    ghost agrees = { as_described tt refl };
}

impl Described for char {
    ghost codec = { leaf_codec ⟦<char as Typed>⟧.promise ⟦<char as Serialize>⟧.encoding
        IsScalar character_is_back
        (character_is_item canonical) };
}

impl AsDescribed for char {
    ghost agrees = { as_described tt refl };
}

impl<'de> Described for &'de str {
    ghost codec = { leaf_codec ⟦<&'de str as Typed>⟧.promise ⟦<&'de str as Serialize>⟧.encoding
        (λ v. IsText v.now) (λ v h. lent_back lent_str v h.0 3 true (λ is. h.1))
        (λ v h. text_is_item canonical v.now h.0 h.1) };
}

impl<'de> AsDescribed for &'de str {
    ghost agrees = { as_described tt refl };
}

impl Described for String {
    ghost codec = { leaf_codec ⟦<String as Typed>⟧.promise ⟦<String as Serialize>⟧.encoding
        any_value string_is_back
        (λ v any. owned_text_is_item canonical v) };
}

impl AsDescribed for String {
    ghost agrees = { as_described tt refl };
}

impl<'de> Described for CowStr<'de, Global> {
    ghost codec = { leaf_codec ⟦<CowStr<'de, Global> as Typed>⟧.promise
        ⟦<CowStr<'de, Global> as Serialize>⟧.encoding
        (λ v. IsText (cow_text v)) (λ v h. text_back cow_text v h.0 h.1)
        (λ v h. text_is_item canonical (cow_text v) h.0 h.1) };
}

impl<'de> AsDescribed for CowStr<'de, Global> {
    ghost agrees = { as_described tt refl };
}

impl<'de> Described for Bytes<&'de [u8]> {
    ghost codec = { leaf_codec ⟦<Bytes<&'de [u8]> as Typed>⟧.promise
        ⟦<Bytes<&'de [u8]> as Serialize>⟧.encoding
        (λ v. AreFew v.0.now) (λ v h. lent_back lent_bytes v h 2 false not_exact)
        (λ v. bytes_are_item canonical v.0.now) };
}

impl<'de> AsDescribed for Bytes<&'de [u8]> {
    ghost agrees = { as_described tt refl };
}

impl Described for Bytes<Vec<u8>> {
    ghost codec = { leaf_codec ⟦<Bytes<Vec<u8>> as Typed>⟧.promise
        ⟦<Bytes<Vec<u8>> as Serialize>⟧.encoding
        any_value bytes_are_back bytes_are_one };
}

impl AsDescribed for Bytes<Vec<u8>> {
    ghost agrees = { as_described tt refl };
}

impl Described for () {
    ghost codec = { leaf_codec ⟦<() as Typed>⟧.promise ⟦<() as Serialize>⟧.encoding
        any_value unit_is_back
        (λ v any. unit_is_item canonical) };
}

impl AsDescribed for () {
    ghost agrees = { as_described tt refl };
}

impl<T: Described> Described for Option<T> {
    ghost codec = { option_codec T.codec };
}

impl<T: AsDescribed> AsDescribed for Option<T> {
    ghost agrees = { option_agrees T.agrees };
}

impl<T: Described> Described for Box<T> {
    ghost codec = { box_codec T.codec };
}

impl<T: AsDescribed> AsDescribed for Box<T> {
    ghost agrees = { box_agrees T.agrees };
}

impl<T: Described> Described for Vec<T> {
    ghost codec = { vector_codec T.codec };
}

impl<T: AsDescribed> AsDescribed for Vec<T> {
    ghost agrees = { vector_agrees T.agrees };
}

impl<A: Described, B: Described> Described for (A, B) {
    ghost codec = { pair_codec A.codec B.codec };
}

impl<A: AsDescribed, B: AsDescribed> AsDescribed for (A, B) {
    ghost agrees = { pair_agrees A.agrees B.agrees };
}

impl<A: Described, B: Described, C: Described> Described for (A, B, C) {
    ghost codec = { triple_codec A.codec B.codec C.codec };
}

impl<A: AsDescribed, B: AsDescribed, C: AsDescribed> AsDescribed for (A, B, C) {
    ghost agrees = { triple_agrees A.agrees B.agrees C.agrees };
}

impl<K: Described + Ord, V: Described> Described for BTreeMap<K, V> {
    ghost codec = { map_codec (λ m. m.entries) K.cmp K.codec V.codec };
}

impl<K: AsDescribed + Ord, V: AsDescribed> AsDescribed for BTreeMap<K, V> {
    ghost agrees = { map_agrees K.agrees V.agrees (λ m. m.entries) K.cmp };
}

/// A value of the tree in which no tag stands. It is read back as itself, integers beyond 64 bits
/// too, and takes a step, an array or a map one more.
impl Described for Value {
    ghost codec = { record {
      promise = ⟦<Value as Typed>⟧.promise;
      encoding = ⟦<Value as Serialize>⟧.encoding;
      stands = λ v. IsItem (view v);
      cost = λ v. any_cost (view v);
      facts = no_facts;
      back = λ hold alloc. value_back;
      one = λ hold v. value_is_item canonical (view v);
    } };
}

impl AsDescribed for Value {
    ghost agrees = { as_described tt refl };
}
