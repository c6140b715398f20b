//! Laws of what is written, each the contract of a function that does nothing.
//!
//! `IsOneItem form item` says that what is written is the bytes of one item (RFC 8949 section 1.2),
//! unless the value is rejected. `form` is how it is encoded: `shortest_heads`, by shortest heads
//! alone, or `canonical`, as `Canonical` reads it, with every length given besides. A law of every
//! `form` says both. `IsOnePair form pair` says the same of a key with its value after it.
ghost use Rattle.std.specs.Prelude.{◌≡◌, ◌↔◌, ◌<◌, ◌≤◌, ◌^◌, ℕ, ℤ, List, Bool, Option, Some, None};
ghost use Rattle.std.specs.Prelude.{All, length, string_bytes, IsUtf8};
ghost use Rattle.std.specs.Borrow.{Bor};
ghost use Rattle.std.specs.Char.{IsScalar};
ghost use Rattle.std.specs.List.{AllByRecursion};
ghost use Rattle.std.specs.declared.alloc.Global.{Global};
ghost use Rattle.std.specs.declared.borrow.CowStr.{CowStr};
ghost use Rattle.std.specs.declared.boxed.Box.{Box};
ghost use Rattle.std.specs.declared.string.String.{String};
ghost use Rattle.std.specs.declared.vec.Vec.{Vec};
ghost use Rattle.cbor4ii_items.specs.declared.types.Bytes.{Bytes};
ghost use Rattle.cbor4ii_items.specs.declared.types.F16.{F16};
ghost use Rattle.cbor4ii_items.specs.declared.types.F32.{F32};
ghost use Rattle.cbor4ii_items.specs.declared.types.F64.{F64};
ghost use Rattle.cbor4ii_items.specs.Cow.{cow_text};
ghost use Rattle.cbor4ii_items.specs.Numbers.{IsWithin, shortest_head};
ghost use Rattle.cbor4ii_items.specs.ReadBack.{ReadsBack};
ghost use Rattle.cbor4ii_items.specs.Strings.{joined_content, definite_string};
ghost use Rattle.cbor4ii_tree.specs.Basis.Item.{Item, IsItem};
ghost use Rattle.cbor4ii_tree.specs.Basis.View.{view};
ghost use Rattle.cbor4ii_tree.specs.declared.value.Value.{Value as AnyValue};
ghost use Rattle.cbor4ii_ser.specs.Item.{Encoding, encoded, one_then, each_encoding};
ghost use Rattle.cbor4ii_ser.specs.Item.{pair_encoding};
ghost use Rattle.cbor4ii_ser.specs.Item.{tuple_encoding, field, struct_encoding, variant_encoding};
ghost use Rattle.cbor4ii_ser.specs.Item.{tuple_variant_encoding, struct_variant_encoding};
ghost use Rattle.cbor4ii_ser.specs.OneItem.{Form, shortest_heads, canonical, IsOneItem, IsOnePair};
ghost use Rattle.cbor4ii_ser.specs.OneItem.{collected_encoding, IsReadWhole, IsReadCanonically};
ghost use Rattle.cbor4ii_ser.specs.Pieces.{Chunks, text_bytes, chunk_most};
ghost use Rattle.cbor4ii_ser.specs.Tagged.{tagged_encoding};
ghost use Rattle.cbor4ii_ser.specs.TextState.{text_encoding};

use crate::serialize::Serialize;
use cbor4ii_items::decode::Decodable;
use cbor4ii_items::types::{Bytes, F16, F32, F64};
use cbor4ii_tree::laws::skipping_takes_what_reading_takes;
use cbor4ii_tree::value::Value;
use std::alloc::Global;
use std::borrow::CowStr;
use std::collections::BTreeMap;

/// The chunks of a text are determined by its pieces, and are what is written piece by piece.
pub fn chunks_are_determined()
    ensures { (pieces : List (List ℕ)) (bytes : List ℕ) →
        Chunks pieces bytes ↔ (bytes ≡ text_bytes pieces) }
{}

/// A text in pieces is read as the pieces joined, whatever follows it, at the cost of one step or
/// none.
pub fn pieces_are_read_back()
    ensures { (pieces : List (List ℕ)) (bytes : List ℕ) (text : String Global) →
        length (joined_content pieces) < 2 ^ 64 → All IsUtf8 pieces → Chunks pieces bytes →
        string_bytes text ≡ joined_content pieces →
        (cost : ℕ) × (cost ≤ 1) × ReadsBack ⟦<String as Decodable>⟧.format.reads bytes text cost }
{}

/// A variant that is written part by part is the variant with the same tuple or struct as content.
pub fn variants_have_content()
    ensures tuple { (name : List ℕ) (parts : List Encoding) →
        tuple_variant_encoding name parts ≡ variant_encoding name (tuple_encoding parts) }
    ensures fields { (name : List ℕ) (fields : List Encoding) →
        struct_variant_encoding name fields ≡ variant_encoding name (struct_encoding fields) }
{}

/// A canonical item has shortest heads too.
pub fn canonical_items_have_shortest_heads()
    ensures { (form : Form) (item : Encoding) → IsOneItem canonical item → IsOneItem form item }
{}

/// A boolean, an integer and a float are written as one item, which is canonical.
pub fn numbers_are_items()
    ensures bool { (form : Form) (v : Bool) → IsOneItem form (⟦<bool as Serialize>⟧.encoding v) }
    ensures u8 { (form : Form) (v : ℕ) → v < 2 ^ 8 →
        IsOneItem form (⟦<u8 as Serialize>⟧.encoding v) }
    ensures u16 { (form : Form) (v : ℕ) → v < 2 ^ 16 →
        IsOneItem form (⟦<u16 as Serialize>⟧.encoding v) }
    ensures u32 { (form : Form) (v : ℕ) → v < 2 ^ 32 →
        IsOneItem form (⟦<u32 as Serialize>⟧.encoding v) }
    ensures u64 { (form : Form) (v : ℕ) → v < 2 ^ 64 →
        IsOneItem form (⟦<u64 as Serialize>⟧.encoding v) }
    ensures u128 { (form : Form) (v : ℕ) → IsOneItem form (⟦<u128 as Serialize>⟧.encoding v) }
    ensures i8 { (form : Form) (v : ℤ) → IsWithin (2 ^ 7) v →
        IsOneItem form (⟦<i8 as Serialize>⟧.encoding v) }
    ensures i16 { (form : Form) (v : ℤ) → IsWithin (2 ^ 15) v →
        IsOneItem form (⟦<i16 as Serialize>⟧.encoding v) }
    ensures i32 { (form : Form) (v : ℤ) → IsWithin (2 ^ 31) v →
        IsOneItem form (⟦<i32 as Serialize>⟧.encoding v) }
    ensures i64 { (form : Form) (v : ℤ) → IsWithin (2 ^ 63) v →
        IsOneItem form (⟦<i64 as Serialize>⟧.encoding v) }
    ensures i128 { (form : Form) (v : ℤ) → IsOneItem form (⟦<i128 as Serialize>⟧.encoding v) }
    ensures f16 { (form : Form) (v : F16) → v.0 < 2 ^ 16 →
        IsOneItem form (⟦<F16 as Serialize>⟧.encoding v) }
    ensures f32 { (form : Form) (v : F32) → v.0 < 2 ^ 32 →
        IsOneItem form (⟦<F32 as Serialize>⟧.encoding v) }
    ensures f64 { (form : Form) (v : F64) → v.0 < 2 ^ 64 →
        IsOneItem form (⟦<F64 as Serialize>⟧.encoding v) }
{}

/// A character and a string are written as one item, which is canonical.
pub fn strings_are_items()
    ensures character { (form : Form) (v : ℕ) → IsScalar v →
        IsOneItem form (⟦<char as Serialize>⟧.encoding v) }
    ensures text { (form : Form) (v : Bor (List ℕ)) → length v.now < 2 ^ 64 → IsUtf8 v.now →
        IsOneItem form (⟦<&'static str as Serialize>⟧.encoding v) }
    ensures owned_text { (form : Form) (v : String Global) →
        IsOneItem form (⟦<String as Serialize>⟧.encoding v) }
    ensures cow_text { (form : Form) (v : CowStr Global) → length (cow_text v) < 2 ^ 64 →
        IsUtf8 (cow_text v) →
        IsOneItem form (⟦<CowStr<'static, Global> as Serialize>⟧.encoding v) }
    ensures bytes { (form : Form) (v : Bytes (Bor (List ℕ))) → length v.0.now < 2 ^ 64 →
        IsOneItem form (⟦<Bytes<&'static [u8]> as Serialize>⟧.encoding v) }
    ensures owned_bytes { (form : Form) (v : Bytes (Vec ℕ Global)) →
        IsOneItem form (⟦<Bytes<Vec<u8>> as Serialize>⟧.encoding v) }
{}

/// A box, a reference and an option are written as one item wherever the value in them is,
/// canonical where that is.
pub fn wrapped_values_are_items<'a, T: Serialize + 'a>()
    ensures boxed { (form : Form) (v : Box T Global) → IsOneItem form (T.encoding v.value) →
        IsOneItem form (⟦<Box<T> as Serialize>⟧.encoding v) }
    ensures reference { (form : Form) (v : Bor T) → IsOneItem form (T.encoding v.now) →
        IsOneItem form (⟦<&'a T as Serialize>⟧.encoding v) }
    ensures option { (form : Form) (v : Option T) →
        ((u : T) → v ≡ Some u → IsOneItem form (T.encoding u)) →
        IsOneItem form (⟦<Option<T> as Serialize>⟧.encoding v) }
{}

/// A tag before a value is one item wherever the value is, canonical where that is.
pub fn tagged_values_are_items<T: Serialize>()
    ensures { (form : Form) (number : ℕ) (v : T) → number < 2 ^ 64 →
        IsOneItem form (T.encoding v) →
        IsOneItem form (tagged_encoding number (T.encoding v)) }
{}

/// The unit is written as one canonical item. A pair and a triple are written as one item wherever
/// each part is, canonical where the parts are. So is a tuple of any number of parts.
pub fn tuples_are_items<A: Serialize, B: Serialize, C: Serialize>()
    ensures unit { (form : Form) → IsOneItem form (⟦<() as Serialize>⟧.encoding tt) }
    ensures pair { (form : Form) (p : A × B) →
        IsOneItem form (A.encoding p.0) → IsOneItem form (B.encoding p.1) →
        IsOneItem form (⟦<(A, B) as Serialize>⟧.encoding p) }
    ensures triple { (form : Form) (p : A × B × C) →
        IsOneItem form (A.encoding p.0) → IsOneItem form (B.encoding p.1) → IsOneItem form
        (C.encoding p.2) →
        IsOneItem form (⟦<(A, B, C) as Serialize>⟧.encoding p) }
    ensures tuple { (form : Form) (ps : List Encoding) → length ps < 2 ^ 64 →
        AllByRecursion (IsOneItem form) ps → IsOneItem form (tuple_encoding ps) }
{}

/// A vector is written as one item wherever each of its values is, canonical where those are. An
/// array that is written part by part up to a break is one with shortest heads. One whose length
/// was given is its head and its parts, as a vector or a tuple of that length is.
pub fn vectors_are_items<T: Serialize>()
    ensures vector { (form : Form) (v : Vec T Global) →
        All (λ item. IsOneItem form (T.encoding item)) v.items →
        IsOneItem form (⟦<Vec<T> as Serialize>⟧.encoding v) }
    ensures up_to_a_break { (vs : List T) →
        All (λ item. IsOneItem shortest_heads (T.encoding item)) vs →
        IsOneItem shortest_heads (collected_encoding 4 None (each_encoding T.encoding vs)) }
    ensures definite { (n : ℕ) (inner : Encoding) →
        collected_encoding 4 (Some n) inner ≡ one_then (encoded (shortest_head 4 n)) inner }
{}

/// A map is written as one item wherever each key and value is, canonical where those are. A map
/// that is written part by part up to a break is one with shortest heads. One whose length was
/// given is its head and its pairs, as a map or a struct of that length is.
pub fn maps_are_items<K: Serialize + Ord, V: Serialize>()
    ensures map { (form : Form) (m : BTreeMap K V Global) → length m.entries < 2 ^ 64 →
        All (λ e. IsOneItem form (K.encoding e.0) × IsOneItem form (V.encoding e.1)) m.entries →
        IsOneItem form (⟦<BTreeMap<K, V> as Serialize>⟧.encoding m) }
    ensures up_to_a_break { (es : List (K × V)) →
        All (λ e. IsOnePair shortest_heads (pair_encoding K.encoding V.encoding e)) es →
        IsOneItem shortest_heads (collected_encoding 5 None
        (each_encoding (pair_encoding K.encoding V.encoding) es)) }
    ensures entry { (form : Form) (key value : Encoding) → IsOneItem form key →
        IsOneItem form value → IsOnePair form (one_then key value) }
    ensures definite { (n : ℕ) (inner : Encoding) →
        collected_encoding 5 (Some n) inner ≡ one_then (encoded (shortest_head 5 n)) inner }
{}

/// A struct and a variant are written as one item wherever what stands in them is, canonical where
/// that is. A field, its name and its value, is one pair.
pub fn structs_and_variants_are_items()
    ensures field { (form : Form) (name : List ℕ) (value : Encoding) →
        length name < 2 ^ 64 → IsUtf8 name → IsOneItem form value →
        IsOnePair form (field name value) }
    ensures fields { (form : Form) (fields : List Encoding) → length fields < 2 ^ 64 →
        AllByRecursion (IsOnePair form) fields → IsOneItem form (struct_encoding fields) }
    ensures unit_variant { (form : Form) (name : List ℕ) → length name < 2 ^ 64 → IsUtf8 name →
        IsOneItem form (encoded (definite_string 3 name)) }
    ensures variant { (form : Form) (name : List ℕ) (content : Encoding) →
        length name < 2 ^ 64 → IsUtf8 name → IsOneItem form content →
        IsOneItem form (variant_encoding name content) }
    ensures tuple_variant { (form : Form) (name : List ℕ) (ps : List Encoding) →
        length name < 2 ^ 64 → IsUtf8 name → length ps < 2 ^ 64 →
        AllByRecursion (IsOneItem form) ps → IsOneItem form (tuple_variant_encoding name ps) }
    ensures struct_variant { (form : Form) (name : List ℕ) (fields : List Encoding) →
        length name < 2 ^ 64 → IsUtf8 name → length fields < 2 ^ 64 →
        AllByRecursion (IsOnePair form) fields →
        IsOneItem form (struct_variant_encoding name fields) }
{}

/// A value of the tree is written as one canonical item where no tag stands in it. What is asked
/// of it, `IsItem`, holds of every value of the program.
pub fn values_are_items()
    ensures { (form : Form) (v : AnyValue) → IsItem (view v) →
        IsOneItem form (⟦<Value as Serialize>⟧.encoding v) }
{}

/// A text in pieces is one item with shortest heads; canonical where the pieces have at most 255
/// bytes together.
pub fn texts_in_pieces_are_items()
    ensures text { (fails_itself : Bool) (pieces : List (List ℕ)) →
        length (joined_content pieces) < 2 ^ 64 → All IsUtf8 pieces →
        IsOneItem shortest_heads (text_encoding fails_itself pieces) }
    ensures short { (form : Form) (fails_itself : Bool) (pieces : List (List ℕ)) →
        length (joined_content pieces) ≤ chunk_most → All IsUtf8 pieces →
        IsOneItem form (text_encoding fails_itself pieces) }
{}

/// One item is read, whatever follows it, wherever its steps fit the budget. `Value` reads it and
/// `IgnoredAny` skips it, and `Canonical` reads a canonical one as the same value.
pub fn items_are_read()
    ensures any { (form : Form) (bytes : List ℕ) → IsOneItem form (encoded bytes) →
        (v : Item) × (steps : ℕ) × IsReadWhole bytes v steps }
    ensures canonically { (bytes : List ℕ) → IsOneItem canonical (encoded bytes) →
        (v : Item) × (steps : ℕ) × IsReadWhole bytes v steps × IsReadCanonically bytes v steps }
{
    skipping_takes_what_reading_takes();
}
