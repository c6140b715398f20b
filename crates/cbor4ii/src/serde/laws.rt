//! Laws of what is written and read, each the contract of a function that does nothing. An item is
//! the one that `Serialize` writes, where it writes one.
ghost use Rattle.std.specs.Prelude.{ℕ, ◌≡◌, ◌+◌, ◌<◌, ◌≤◌, ◌++◌, List, Bool, true, Some, None};
ghost use Rattle.std.specs.Prelude.{◌^◌, false, IsTrue, All, length, max, Option, Result};
ghost use Rattle.std.specs.BTreeMap.{IsOrdered};
ghost use Rattle.std.specs.Borrow.{Bor};
ghost use Rattle.std.specs.Cmp.{IsTotalOrder};
ghost use Rattle.std.specs.declared.alloc.Global.{Global};
ghost use Rattle.std.specs.declared.boxed.Box.{Box};
ghost use Rattle.std.specs.declared.vec.Vec.{Vec};
ghost use Rattle.cbor4ii_rw.specs.Input.{limit};
ghost use Rattle.cbor4ii_rw.specs.Reader.{KeepsAllButBudget};
ghost use Rattle.cbor4ii_rw.specs.View.{View};
ghost use Rattle.cbor4ii_rw.specs.declared.error.DecodeError.{DecodeError};
ghost use Rattle.cbor4ii_items.specs.Decoding.{Reads, Sound, Complete, Decodes, IsExact};
ghost use Rattle.cbor4ii_items.specs.OneError.{RejectsOnce};
ghost use Rattle.cbor4ii_items.specs.Budget.{CostFits};
ghost use Rattle.cbor4ii_items.specs.NeverBoth.{NeverBoth};
ghost use Rattle.cbor4ii_items.specs.ReadBack.{greatest_part_cost, pair_cost};
ghost use Rattle.cbor4ii_items.specs.Whole.{IsWhole};
ghost use Rattle.cbor4ii_items.specs.InputError.{input_error_of};
ghost use Rattle.cbor4ii_items.specs.Moves.{Kept};
ghost use Rattle.cbor4ii_items.specs.Strings.{definite_string, ReadsTextAs};
ghost use Rattle.cbor4ii_tree.specs.Basis.Canonical.{canonical_cost};
ghost use Rattle.cbor4ii_tree.specs.Basis.Item.{Item};
ghost use Rattle.cbor4ii_tree.specs.Calls.SameAnswer.{SameAnswer};
ghost use Rattle.cbor4ii_ser.specs.Item.{Encoding, encoded, variant_encoding};
ghost use Rattle.cbor4ii_ser.specs.OneItem.{canonical};
ghost use Rattle.cbor4ii_ser.specs.Tagged.{tagged_encoding};
ghost use Rattle.cbor4ii.specs.AnyCost.{any_cost};
ghost use Rattle.cbor4ii.specs.Elements.{element_before, no_element, typed_elements};
ghost use Rattle.cbor4ii.specs.Elements.{PromisesAlike};
ghost use Rattle.cbor4ii.specs.Laws.ElementsAlike.{as_pair, as_triple};
ghost use Rattle.cbor4ii.specs.Optional.{ReadsPresence, RejectsPresence};
ghost use Rattle.cbor4ii.specs.ReadBack.{IsReadBack, BeginsOther, IsNullItem, IsName};
ghost use Rattle.cbor4ii.specs.Tagged.{typed_tagged};
ghost use Rattle.cbor4ii.specs.Typed.{IsLawfulReading, Promise, Deserializes};
ghost use Rattle.cbor4ii.specs.Once.{SkippedOnce, FieldsOnce, CasesOnce, HoldingOnce};
ghost use Rattle.cbor4ii.specs.Presence.{made_struct};
ghost use Rattle.cbor4ii.specs.Cases.{unit_case, held_case, fields_case, otherwise, cases_by};
ghost use Rattle.cbor4ii.specs.Cases.{enum_of};
ghost use Rattle.cbor4ii.specs.Made.{made_from};
ghost use Rattle.cbor4ii.specs.Checked.{checked_from};
ghost use Rattle.cbor4ii.specs.Variants.{OpensEnum, ReadsContent, ReadsVariant};

use crate::serde::de::cases::{Case, Cases};
use crate::serde::de::checked::CheckedFrom;
use crate::serde::de::deserialize::Typed;
use crate::serde::de::elements::TypedElements;
use crate::serde::de::fields::Places;
use crate::serde::de::keys::ReadKey;
use crate::serde::de::place::Place;
use crate::serde::de::presence::Presences;
use cbor4ii_items::decode::Decodable;
use cbor4ii_items::types::{Bytes, F16, F32, F64};
use cbor4ii_rw::read::Source;
use cbor4ii_ser::serialize::Serialize;
use cbor4ii_tree::laws::{reading_has_one_answer, skipping_has_one_answer};
use cbor4ii_tree::{BoxedRawValue, IgnoredAny, PlainRawValue, RawValue, Value};
use std::alloc::Global;
use std::borrow::{CowSlice, CowStr};
use std::collections::BTreeMap;

/// A value in a box, and one that may be absent, are read back wherever the value is: in a box at
/// the value's cost, and else at one step more. The value's type need not be described, and its
/// item need not be canonical. So it is of the next four laws.
pub fn wrapped_values_are_read_back<T: Typed + Serialize>()
    ensures boxed { (v : Box T Global) (cost : ℕ) →
        IsReadBack T.promise.format.reads (T.encoding v.value) v.value cost →
        IsReadBack ⟦<Box<T> as Typed>⟧.promise.format.reads
        (⟦<Box<T> as Serialize>⟧.encoding v) v cost }
    ensures none { IsReadBack ⟦<Option<T> as Typed>⟧.promise.format.reads
        (⟦<Option<T> as Serialize>⟧.encoding None) None 0 }
    ensures some { (v : T) (cost : ℕ) →
        IsReadBack T.promise.format.reads (T.encoding v) v cost → BeginsOther (T.encoding v) →
        IsReadBack ⟦<Option<T> as Typed>⟧.promise.format.reads
        (⟦<Option<T> as Serialize>⟧.encoding (Some v)) (Some v) (1 + cost) }
{}

/// A pair and a triple are read back wherever each part is: at one step and the greatest cost of a
/// part.
pub fn tuples_are_read_back<A: Typed + Serialize, B: Typed + Serialize, C: Typed + Serialize>()
    ensures pair { (p : A × B) (first second : ℕ) →
        IsReadBack A.promise.format.reads (A.encoding p.0) p.0 first →
        IsReadBack B.promise.format.reads (B.encoding p.1) p.1 second →
        IsReadBack ⟦<(A, B) as Typed>⟧.promise.format.reads (⟦<(A, B) as Serialize>⟧.encoding p) p
        (1 + max first second) }
    ensures triple { (p : A × B × C) (first second third : ℕ) →
        IsReadBack A.promise.format.reads (A.encoding p.0) p.0 first →
        IsReadBack B.promise.format.reads (B.encoding p.1) p.1 second →
        IsReadBack C.promise.format.reads (C.encoding p.2) p.2 third →
        IsReadBack ⟦<(A, B, C) as Typed>⟧.promise.format.reads
        (⟦<(A, B, C) as Serialize>⟧.encoding p) p (1 + max first (max second third)) }
{}

/// An array of two elements is read as a pair is, and one of three as a triple: the same bytes, as
/// the same values, at the same cost. All other bytes are rejected alike.
pub fn elements_are_read_as_tuples<A: Typed, B: Typed, C: Typed>()
    ensures pair { PromisesAlike as_pair
        (typed_elements (element_before A.promise (element_before B.promise no_element)))
        ⟦<(A, B) as Typed>⟧.promise }
    ensures triple { PromisesAlike as_triple
        (typed_elements (element_before A.promise (element_before B.promise
        (element_before C.promise no_element))))
        ⟦<(A, B, C) as Typed>⟧.promise }
{}

/// A tag before a value is read back wherever the value is, at its cost.
pub fn tagged_values_are_read_back<T: Typed + Serialize>()
    ensures { (number : ℕ) (v : T) (cost : ℕ) → number < 2 ^ 64 →
        IsReadBack T.promise.format.reads (T.encoding v) v cost →
        IsReadBack (typed_tagged number T.promise).format.reads
        (tagged_encoding number (T.encoding v)) v cost }
{}

/// A vector is read back wherever each of its values is: at one step and the greatest cost of a
/// value.
pub fn vectors_are_read_back<T: Typed + Serialize>()
    ensures { (v : Vec T Global) (cost : T → ℕ) →
        All (λ part. IsReadBack T.promise.format.reads (T.encoding part) part (cost part))
        v.items →
        IsReadBack ⟦<Vec<T> as Typed>⟧.promise.format.reads (⟦<Vec<T> as Serialize>⟧.encoding v) v
        (1 + greatest_part_cost cost v.items) }
{}

/// A map whose keys stand in their order, as those of every map of the program do, is read back
/// wherever each key and value is: at one step and the greatest cost of a key or a value.
pub fn maps_are_read_back<K: Typed + Serialize + Ord, V: Typed + Serialize>()
    ensures { (m : BTreeMap K V Global) (key_cost : K → ℕ) (value_cost : V → ℕ) →
        IsOrdered K.cmp m → length m.entries < 2 ^ 64 →
        All (λ p. IsReadBack K.promise.format.reads (K.encoding p.0) p.0 (key_cost p.0)) m.entries →
        All (λ p. IsReadBack V.promise.format.reads (V.encoding p.1) p.1 (value_cost p.1))
        m.entries →
        IsReadBack ⟦<BTreeMap<K, V> as Typed>⟧.promise.format.reads
        (⟦<BTreeMap<K, V> as Serialize>⟧.encoding m) m
        (1 + greatest_part_cost (pair_cost key_cost value_cost) m.entries) }
{}

/// A value that may be absent and whose item is null or undefined is read as none.
pub fn null_is_read_as_none<T: Typed + Serialize>()
    ensures { (v : T) → IsNullItem (T.encoding v) →
        IsReadBack ⟦<Option<T> as Typed>⟧.promise.format.reads
        (⟦<Option<T> as Serialize>⟧.encoding (Some v)) None 0 }
{}

/// A value of the tree costs no more than its canonical encoding does.
pub fn values_cost_no_more_than_canonical_ones()
    ensures { (v : Item) → any_cost v ≤ canonical_cost v }
{}

/// The order of keys is total, as `Ord` asks. That a map is read back stands on it.
pub fn orders_are_total<K: Ord>()
    ensures { IsTotalOrder K.cmp }
{}

/// An enum, by the names of its variants: what the laws of variants speak of. It has no call.
/// After a name that is no variant's nothing is read.
pub trait EnumValues: Sized {
    // this name alone, without content, stands for this value
    ghost units: { List ℕ → Self → Type 0 };

    // how the content after this name is read, as a value
    ghost contents: { List ℕ → Reads Self };

    // the two values mean the same
    ghost same: { Self → Self → Type 0 };

    // one name alone stands for one value
    ghost unit_one: { (name : List ℕ) (v w : Self) → Self.units name v → Self.units name w →
        Self.same v w };

    // one content is read in one way
    ghost content_laws: { (name : List ℕ) → IsLawfulReading (Self.contents name) Self.same false };
}

/// A variant is read in one way. An enum that reads so may be exact by it, as by the same lemma,
/// `variant_laws`.
pub fn variants_are_read_in_one_way<V: EnumValues>()
    ensures { IsLawfulReading (ReadsVariant V.units V.contents) V.same true }
{}

/// What the calls of `EnumAccessor` read is a variant: `deserialize_enum`, `variant`, and then
/// `unit_variant`, or one that reads a content. The name may be a type of any kind that holds the
/// content of a text.
pub fn variants_are_read_by_calls<N, V: EnumValues>()
    ensures unit { (text : N → List ℕ) (name : N) (v : V) (form : Bool × ℕ) (a b c d : View) →
        OpensEnum a b form → form.0 ≡ false → Sound (ReadsTextAs text) b c name →
        V.units (text name) v → KeepsAllButBudget c d →
        Sound (ReadsVariant V.units V.contents) a d v }
    ensures content { (text : N → List ℕ) (name : N) (v : V) (form : Bool × ℕ)
        (a b c d : View) → OpensEnum a b form → form.0 ≡ true → Kept b c →
        Sound (ReadsTextAs text) b c name →
        Sound (ReadsContent form.0 (V.contents (text name))) c d v →
        Sound (ReadsVariant V.units V.contents) a d v }
{}

/// A variant is read from its own item, whatever follows it: one without content, that of
/// `serialize_unit_variant`, at one step; and another, that of `serialize_newtype_variant` and its
/// like, wherever its content is, at one step and the content's cost.
pub fn variants_are_read_back<V: EnumValues>()
    ensures unit { (name : List ℕ) (v : V) → IsName name → V.units name v →
        IsReadBack (ReadsVariant V.units V.contents) (encoded (definite_string 3 name)) v 1 }
    ensures content { (name : List ℕ) (v : V) (content : Encoding) (cost : ℕ) → IsName name →
        IsReadBack (V.contents name) content v cost →
        IsReadBack (ReadsVariant V.units V.contents) (variant_encoding name content) v (1 + cost) }
{}

/// What is read back is what `deserialize` answers, over a reader that reports the item's bytes and
/// something after them: a value that means the same, with what follows left, and where the
/// budget has the cost, no error of the bytes. Of the item alone `from_slice_whole` so answers a
/// value that means the same, and where the cost is at most 256, no error of the bytes.
pub fn what_is_written_is_read<T: Typed + Serialize, E>()
    ensures accepted { IsTrue T.promise.exact → (bytes rest : List ℕ) (v w : T) (cost : ℕ)
        (old new : View) → T.encoding v ≡ encoded bytes → IsReadBack T.promise.format.reads
        (T.encoding v)
        v cost →
        old.known ≡ Some (bytes ++ rest) → Sound T.promise.format.reads old new w →
        T.promise.format.same v w × (new.known ≡ Some rest) }
    ensures not_rejected { (bytes rest : List ℕ) (v : T) (cost : ℕ) (old : View)
        (error : DecodeError E) → T.encoding v ≡ encoded bytes →
        IsReadBack T.promise.format.reads (T.encoding v) v cost → CostFits cost old.budget →
        old.known ≡ Some (bytes ++ rest) → Complete T.promise.format.reads old error →
        input_error_of error ≡ None }
    ensures same { IsTrue T.promise.exact → (bytes : List ℕ) (v w : T) (cost : ℕ) →
        T.encoding v ≡ encoded bytes → IsReadBack T.promise.format.reads (T.encoding v) v cost →
        IsWhole T.promise.format.reads bytes w → T.promise.format.same v w }
    ensures whole { (bytes : List ℕ) (v : T) (cost : ℕ) → T.encoding v ≡ encoded bytes →
        IsReadBack T.promise.format.reads (T.encoding v) v cost → cost ≤ limit →
        IsWhole T.promise.format.reads bytes v }
{}

/// A value that may be absent and is rejected is not read, where its type is exact and so are its
/// errors. Of whether one comes the same holds.
pub fn rejected_options_are_not_read<T: Typed>()
    ensures value { IsTrue T.promise.known → NeverBoth T.promise.format.reads
        T.promise.format.begins →
        NeverBoth ⟦<Option<T> as Typed>⟧.promise.format.reads
        ⟦<Option<T> as Typed>⟧.promise.format.begins }
    ensures presence { NeverBoth ReadsPresence RejectsPresence }
{}

/// Any two lawful readers with the same bytes to come and the same budget get the same answer in
/// full of a call that reads a type: values that mean the same, or one error with the same fields,
/// and the same bytes are left. The type is exact and rejects with one error, and both calls are
/// over readers where it is exact. A call in which the reader failed or memory was refused says
/// nothing.
pub fn exact_calls_are_answered_alike<T: Typed, E, F>()
    ensures { IsTrue T.promise.exact → RejectsOnce T.promise.format →
        (xs : List ℕ) (old new other after : View) (r : Result T (DecodeError E))
        (s : Result T (DecodeError F)) → old.known ≡ Some xs → other.known ≡ Some xs →
        old.budget ≡ other.budget → IsExact T.promise.format.owned old →
        IsExact T.promise.format.owned other → Deserializes T.promise old new r →
        Deserializes T.promise other after s → SameAnswer T.promise.format.same new after r s }
{}

/// A type that an item is read as by `decode` is read alike too.
pub fn decoded_items_are_answered_alike<T: Decodable, E, F>()
    ensures { RejectsOnce T.format → (xs : List ℕ) (old new other after : View)
        (r : Result T (DecodeError E)) (s : Result T (DecodeError F)) → old.known ≡ Some xs →
        other.known ≡ Some xs → old.budget ≡ other.budget → IsExact T.format.owned old →
        IsExact T.format.owned other → Decodes T.format old new r →
        Decodes T.format other after s → SameAnswer T.format.same new after r s }
{}

/// An item that is read as a `Value`, by `decode` or as a typed value, one that is skipped, an
/// array of no item and a text of one character are rejected with one error.
pub fn any_items_are_rejected_once()
    ensures value { RejectsOnce ⟦<Value as Decodable>⟧.format }
    ensures any { RejectsOnce ⟦<Value as Typed>⟧.promise.format }
    ensures ignored { RejectsOnce ⟦<IgnoredAny as Typed>⟧.promise.format }
    ensures unit { RejectsOnce ⟦<() as Typed>⟧.promise.format }
    ensures character { RejectsOnce ⟦<char as Typed>⟧.promise.format }
{
    reading_has_one_answer();
    skipping_has_one_answer();
}

/// A number, a bool, a float, and a string that may be a copy are rejected with one error.
pub fn typed_leaves_are_rejected_once()
    ensures u8 { RejectsOnce ⟦<u8 as Typed>⟧.promise.format }
    ensures u16 { RejectsOnce ⟦<u16 as Typed>⟧.promise.format }
    ensures u32 { RejectsOnce ⟦<u32 as Typed>⟧.promise.format }
    ensures u64 { RejectsOnce ⟦<u64 as Typed>⟧.promise.format }
    ensures u128 { RejectsOnce ⟦<u128 as Typed>⟧.promise.format }
    ensures i8 { RejectsOnce ⟦<i8 as Typed>⟧.promise.format }
    ensures i16 { RejectsOnce ⟦<i16 as Typed>⟧.promise.format }
    ensures i32 { RejectsOnce ⟦<i32 as Typed>⟧.promise.format }
    ensures i64 { RejectsOnce ⟦<i64 as Typed>⟧.promise.format }
    ensures i128 { RejectsOnce ⟦<i128 as Typed>⟧.promise.format }
    ensures bool { RejectsOnce ⟦<bool as Typed>⟧.promise.format }
    ensures f16 { RejectsOnce ⟦<F16 as Typed>⟧.promise.format }
    ensures f32 { RejectsOnce ⟦<F32 as Typed>⟧.promise.format }
    ensures f64 { RejectsOnce ⟦<F64 as Typed>⟧.promise.format }
    ensures text { RejectsOnce ⟦<String as Typed>⟧.promise.format }
    ensures bytes { RejectsOnce ⟦<Bytes<Vec<u8>> as Typed>⟧.promise.format }
    ensures cow_text { RejectsOnce ⟦<CowStr<'static, Global> as Typed>⟧.promise.format }
    ensures cow_bytes { RejectsOnce
        ⟦<Bytes<CowSlice<'static, u8, Global>> as Typed>⟧.promise.format }
{}

/// An item that is kept as its bytes is rejected with one error: as it stands, in a box, or where
/// it is one that `decode` reads as a `Value`.
pub fn raw_items_are_rejected_once()
    ensures lent { RejectsOnce ⟦<RawValue<'static> as Typed>⟧.promise.format }
    ensures boxed { RejectsOnce ⟦<BoxedRawValue as Typed>⟧.promise.format }
    ensures plain { RejectsOnce ⟦<PlainRawValue<'static> as Typed>⟧.promise.format }
{
    reading_has_one_answer();
    skipping_has_one_answer();
}

/// A value in a box, one that may be absent, a vector, a tuple and a tagged value are rejected with
/// one error wherever their parts are.
pub fn wrapped_values_are_rejected_once<A: Typed, B: Typed, C: Typed>()
    ensures boxed { RejectsOnce A.promise.format → RejectsOnce ⟦<Box<A> as Typed>⟧.promise.format }
    ensures option { RejectsOnce A.promise.format →
        RejectsOnce ⟦<Option<A> as Typed>⟧.promise.format }
    ensures vector { IsTrue A.promise.exact → RejectsOnce A.promise.format →
        RejectsOnce ⟦<Vec<A> as Typed>⟧.promise.format }
    ensures pair { IsTrue A.promise.exact → IsTrue B.promise.exact →
        RejectsOnce A.promise.format → RejectsOnce B.promise.format →
        RejectsOnce ⟦<(A, B) as Typed>⟧.promise.format }
    ensures triple { IsTrue A.promise.exact → IsTrue B.promise.exact → IsTrue C.promise.exact →
        RejectsOnce A.promise.format → RejectsOnce B.promise.format →
        RejectsOnce C.promise.format → RejectsOnce ⟦<(A, B, C) as Typed>⟧.promise.format }
    ensures tagged { (number : ℕ) → IsTrue A.promise.exact → RejectsOnce A.promise.format →
        RejectsOnce (typed_tagged number A.promise).format }
{}

/// A map is rejected with one error wherever its keys and its values are.
pub fn typed_maps_are_rejected_once<K: Typed + Ord, V: Typed>()
    ensures { IsTrue K.promise.exact → IsTrue V.promise.exact → RejectsOnce K.promise.format →
        RejectsOnce V.promise.format → RejectsOnce ⟦<BTreeMap<K, V> as Typed>⟧.promise.format }
{}

/// An array of so many elements is rejected with one error wherever they are, and so is what
/// `deserialize_elements` makes of it.
pub fn elements_are_rejected_once<A: Typed, B: TypedElements, T: From<B>>()
    ensures none { RejectsOnce ⟦<() as TypedElements>⟧.elements.format }
    ensures more { IsTrue A.promise.exact → IsTrue B.elements.exact →
        RejectsOnce A.promise.format → RejectsOnce B.elements.format →
        RejectsOnce ⟦<(A, B) as TypedElements>⟧.elements.format }
    ensures whole { IsTrue B.elements.exact → RejectsOnce B.elements.format →
        RejectsOnce (made_from T.from_gives (typed_elements B.elements)).format }
{}

/// What `deserialize_fields` reads is rejected with one error wherever its fields are. What follows
/// a key that no field has is skipped, and is rejected with one error.
pub fn structs_are_rejected_once<
    A: ReadKey,
    P: Place,
    V: Places,
    K: Presences<V>,
    T: From<K::Values>,
>()
    ensures skipped { SkippedOnce }
    ensures none { (labels : List (Bor (List ℕ))) → FieldsOnce (⟦<() as Places>⟧.fields labels) }
    ensures more { RejectsOnce P.Value.promise.format →
        ((labels : List (Bor (List ℕ))) → FieldsOnce (V.fields labels)) →
        (labels : List (Bor (List ℕ))) → FieldsOnce (⟦<(P, V) as Places>⟧.fields labels) }
    ensures whole { (kinds : K) (labels words : List (Bor (List ℕ))) →
        IsTrue (V.fields labels).exact → FieldsOnce (V.fields labels) →
        RejectsOnce (made_from T.from_gives
        (made_struct A.key (V.fields labels) (K.made kinds words))).format }
{
    skipping_has_one_answer();
}

/// What `deserialize_checked` reads is rejected with one error wherever the value is that it tests.
pub fn tested_values_are_rejected_once<V: Typed, T: CheckedFrom<V>>()
    ensures { IsTrue V.promise.exact → RejectsOnce V.promise.format →
        RejectsOnce (checked_from T.words T.makes T.takes_memory V.promise).format }
{}

/// What a variant holds is rejected with one error wherever the value is. So is a variant with
/// fields, and those after it, wherever the fields are and what the others hold.
pub fn variants_are_rejected_once<
    S,
    T: Typed,
    V: Places,
    K: Presences<V>,
    B: Drop,
    D: Cases<S, B>,
>()
where
    S: Source,
    ensures unit { HoldingOnce unit_case }
    ensures held { RejectsOnce T.promise.format → HoldingOnce (held_case T.promise) }
    ensures fields { (kinds : K) (own words : List (Bor (List ℕ))) (cases : D) →
        IsTrue (V.fields own).exact → FieldsOnce (V.fields own) →
        ((names : List (Bor (List ℕ))) → CasesOnce (D.cases cases names)) →
        (names : List (Bor (List ℕ))) →
        CasesOnce (cases_by (fields_case (V.fields own) (K.made kinds words))
        (D.cases cases) names) }
{}

/// What `deserialize_variant` reads is rejected with one error wherever what its variants hold is.
pub fn enums_are_rejected_once<S: Source, A: Drop, B: Drop, C: Case<S, A>, D: Cases<S, B>, T>()
where
    T: From<B>,
    ensures none { (words : List ℕ) → CasesOnce (otherwise {V = B} words) }
    ensures more { (cases : D) → HoldingOnce C.holding →
        ((names : List (Bor (List ℕ))) → CasesOnce (D.cases cases names)) →
        (names : List (Bor (List ℕ))) → CasesOnce (cases_by C.holding (D.cases cases) names) }
    ensures whole { (cases : D) (names : List (Bor (List ℕ))) →
        CasesOnce (D.cases cases names) →
        RejectsOnce (made_from T.from_gives (enum_of (D.cases cases names))).format }
{}
