//! Laws of what is read and written, each the contract of a function that does nothing.
ghost use Rattle.std.specs.Prelude.{◌≡◌, ◌+◌, ◌<◌, ◌≤◌, ◌^◌, ◌++◌, ℕ, ℤ, List, Bool, Some, None};
ghost use Rattle.std.specs.Prelude.{All, length, IsTrue, IsUtf8};
ghost use Rattle.std.specs.Borrow.{Bor};
ghost use Rattle.std.specs.declared.alloc.Global.{Global};
ghost use Rattle.std.specs.declared.boxed.Box.{Box};
ghost use Rattle.std.specs.declared.string.String.{String};
ghost use Rattle.std.specs.declared.vec.Vec.{Vec};
ghost use Rattle.cbor4ii_items.specs.declared.types.Bytes.{Bytes};
ghost use Rattle.cbor4ii_items.specs.declared.types.F16.{F16};
ghost use Rattle.cbor4ii_items.specs.declared.types.F32.{F32};
ghost use Rattle.cbor4ii_items.specs.declared.types.F64.{F64};
ghost use Rattle.cbor4ii_items.specs.declared.types.Map.{Map};
ghost use Rattle.cbor4ii_items.specs.declared.types.Nothing.{Nothing};
ghost use Rattle.cbor4ii_items.specs.declared.types.Null.{Null};
ghost use Rattle.cbor4ii_items.specs.declared.types.Simple.{Simple};
ghost use Rattle.cbor4ii_items.specs.declared.types.Tag.{Tag};
ghost use Rattle.cbor4ii_items.specs.declared.types.UncheckedStr.{UncheckedStr};
ghost use Rattle.cbor4ii_items.specs.declared.types.Undefined.{Undefined};
ghost use Rattle.cbor4ii_rw.specs.View.{View};
ghost use Rattle.cbor4ii_rw.specs.declared.error.DecodeError.{DecodeError};
ghost use Rattle.cbor4ii_items.specs.Decoding.{Sound, Complete};
ghost use Rattle.cbor4ii_items.specs.OneError.{RejectsOnce};
ghost use Rattle.cbor4ii_items.specs.Budget.{CostFits};
ghost use Rattle.cbor4ii_items.specs.Floats.{ReadsFloat, RejectsFloat, float_format};
ghost use Rattle.cbor4ii_items.specs.Head.{Width, HeadFits, byte_count, shortest_width};
ghost use Rattle.cbor4ii_items.specs.Lengths.{ReadsLength, RejectsLength, length_format};
ghost use Rattle.cbor4ii_items.specs.Lent.{ReadsBorrowed, RejectsBorrowed, lent_format};
ghost use Rattle.cbor4ii_items.specs.Maybe.{ReadsMaybe, RejectsMaybe, maybe_bytes};
ghost use Rattle.cbor4ii_items.specs.NeverBoth.{NeverBoth};
ghost use Rattle.cbor4ii_items.specs.Nothing.{ReadsNothing, RejectsNothing};
ghost use Rattle.cbor4ii_items.specs.Numbers.{ReadsArgument, ReadsSigned, ReadsU128, ReadsI128};
ghost use Rattle.cbor4ii_items.specs.Numbers.{IsWithin, shortest_head, signed_head, unsigned_bytes};
ghost use Rattle.cbor4ii_items.specs.Numbers.{signed_bytes, RejectsArgument, ReadsNegative};
ghost use Rattle.cbor4ii_items.specs.Numbers.{RejectsNegative, RejectsSigned, RejectsU128};
ghost use Rattle.cbor4ii_items.specs.Numbers.{RejectsI128, argument_format, negative_format};
ghost use Rattle.cbor4ii_items.specs.Numbers.{signed_format};
ghost use Rattle.cbor4ii_items.specs.ReadBack.{ReadsBack, NoneBeginsAnother, greatest_part_cost};
ghost use Rattle.cbor4ii_items.specs.ReadBack.{pair_cost};
ghost use Rattle.cbor4ii_items.specs.InputError.{input_error_of};
ghost use Rattle.cbor4ii_items.specs.SequenceBytes.{map_bytes};
ghost use Rattle.cbor4ii_items.specs.Simple.{ReadsSimple, RejectsSimple, ReadsBool, RejectsBool};
ghost use Rattle.cbor4ii_items.specs.Strings.{ReadsAs, ReadsTextAs, definite_string, open_head};
ghost use Rattle.cbor4ii_items.specs.Strings.{text_content, RejectsString, RejectsText, ReadsBreak};
ghost use Rattle.cbor4ii_items.specs.Strings.{RejectsBreak, as_format, text_format};

use crate::decode::{Decodable, Decode};
use crate::encode::Encode;
use crate::types::{
    Bytes, F16, F32, F64, Map, Maybe, Nothing, Null, Simple, Tag, UncheckedStr, Undefined,
};
use cbor4ii_rw::read::Source;

/// The shortest width fits its argument wherever any does, and has no more bytes than any that
/// fits (RFC 8949 section 4.2.1).
pub fn shortest_is_least()
    ensures fits { (width : Width) → (n : ℕ) → HeadFits width n → HeadFits (shortest_width n) n }
    ensures least { (width : Width) → (n : ℕ) → HeadFits width n →
        byte_count (shortest_width n) ≤ byte_count width }
{}

/// Every integer is read from its own encoding, whatever follows it, and without a step.
pub fn integers_are_read_back()
    ensures heads { (major : ℕ) (wide : Width) (v : ℕ) → v < 256 ^ byte_count wide →
        ReadsBack (ReadsArgument major (byte_count wide)) (shortest_head major v) v 0 }
    ensures signed { (wide : Width) (limit : ℕ) (v : ℤ) → limit ≤ 256 ^ byte_count wide →
        IsWithin limit v → ReadsBack (ReadsSigned (byte_count wide) limit) (signed_head v) v 0 }
    ensures unsigned_of_sixteen { (v : ℕ) → v < 2 ^ 128 →
        ReadsBack ReadsU128 (unsigned_bytes v) v 0 }
    ensures signed_of_sixteen { (v : ℤ) → IsWithin (2 ^ 127) v →
        ReadsBack ReadsI128 (signed_bytes v) v 0 }
{}

/// A string is read from its own encoding, whatever follows it, and without a step. What is read
/// as a value of another type that has the same content, as owned or as borrowed or owned, is read
/// alike.
pub fn strings_are_read_back<V>()
    ensures bytes { (v : Bytes (Bor (List ℕ))) → length v.0.now < 2 ^ 64 →
        ReadsBack ⟦<Bytes<&'static [u8]> as Decodable>⟧.format.reads
        (⟦<Bytes<&'static [u8]> as Encode>⟧.bytes v) v 0 }
    ensures unchecked { (v : UncheckedStr (Bor (List ℕ))) → length v.0.now < 2 ^ 64 →
        ReadsBack ⟦<UncheckedStr<&'static [u8]> as Decodable>⟧.format.reads
        (⟦<UncheckedStr<&'static [u8]> as Encode>⟧.bytes v) v 0 }
    ensures text { (v : Bor (List ℕ)) → length v.now < 2 ^ 64 → IsUtf8 v.now →
        ReadsBack ⟦<&'static str as Decodable>⟧.format.reads
        (⟦<&'static str as Encode>⟧.bytes v) v 0 }
    ensures owned_text { (v : String Global) → length (text_content v) < 2 ^ 64 →
        IsUtf8 (text_content v) →
        ReadsBack ⟦<String as Decodable>⟧.format.reads (⟦<String as Encode>⟧.bytes v) v 0 }
    ensures content { (major : ℕ) (content : V → List ℕ) (v : V) → length (content v) < 2 ^ 64 →
        ReadsBack (ReadsAs major content) (definite_string major (content v)) v 0 }
    ensures utf8_content { (content : V → List ℕ) (v : V) → length (content v) < 2 ^ 64 →
        IsUtf8 (content v) →
        ReadsBack (ReadsTextAs content) (definite_string 3 (content v)) v 0 }
{}

/// A simple value, a float, and nothing at all are read from their own encoding, whatever follows
/// it, and without a step. Null and undefined are read as no item.
pub fn simple_values_are_read_back<T: Decodable>()
    ensures simple { (v : Simple) → v.0 < 256 →
        ReadsBack ⟦<Simple as Decodable>⟧.format.reads (⟦<Simple as Encode>⟧.bytes v) v 0 }
    ensures bool { (v : Bool) →
        ReadsBack ⟦<bool as Decodable>⟧.format.reads (⟦<bool as Encode>⟧.bytes v) v 0 }
    ensures null { (v : Null) →
        ReadsBack ⟦<Option<T> as Decodable>⟧.format.reads (⟦<Null as Encode>⟧.bytes v) None 0 }
    ensures undefined { (v : Undefined) →
        ReadsBack ⟦<Option<T> as Decodable>⟧.format.reads (⟦<Undefined as Encode>⟧.bytes v) None 0 }
    ensures f16 { (v : F16) → v.0 < 2 ^ 16 →
        ReadsBack ⟦<F16 as Decodable>⟧.format.reads (⟦<F16 as Encode>⟧.bytes v) v 0 }
    ensures f32 { (v : F32) → v.0 < 2 ^ 32 →
        ReadsBack ⟦<F32 as Decodable>⟧.format.reads (⟦<F32 as Encode>⟧.bytes v) v 0 }
    ensures f64 { (v : F64) → v.0 < 2 ^ 64 →
        ReadsBack ⟦<F64 as Decodable>⟧.format.reads (⟦<F64 as Encode>⟧.bytes v) v 0 }
    ensures nothing { (v : Nothing) →
        ReadsBack ⟦<Nothing as Decodable>⟧.format.reads (⟦<Nothing as Encode>⟧.bytes v) v 0 }
{}

/// The length of an array or a map is read from its own encoding, whatever follows it.
pub fn lengths_are_read_back()
    ensures definite { (major : ℕ) (len : ℕ) → len < 2 ^ 64 →
        ReadsBack (ReadsLength major) (shortest_head major len) (Some len) 0 }
    ensures indefinite { (major : ℕ) → ReadsBack (ReadsLength major) (open_head major) None 0 }
{}

/// A tagged item, an optional item as an array, and an item in a box are read from their own
/// encoding wherever the item is, whatever follows it, and at the item's cost.
pub fn parts_are_read_back<T: Decodable + Encode>()
    ensures tagged { (v : Tag T) (cost : ℕ) → v.0 < 2 ^ 64 →
        ReadsBack T.format.reads (T.bytes v.1) v.1 cost →
        ReadsBack ⟦<Tag<T> as Decodable>⟧.format.reads (⟦<Tag<T> as Encode>⟧.bytes v) v cost }
    ensures none { ReadsBack (ReadsMaybe T.format.reads) (maybe_bytes T.bytes None) None 0 }
    ensures some { (item : T) (cost : ℕ) → ReadsBack T.format.reads (T.bytes item) item cost →
        ReadsBack (ReadsMaybe T.format.reads) (maybe_bytes T.bytes (Some item)) (Some item) cost }
    ensures boxed { (v : Box T Global) (cost : ℕ) →
        ReadsBack T.format.reads (T.bytes v.value) v.value cost →
        ReadsBack ⟦<Box<T> as Decodable>⟧.format.reads (⟦<Box<T> as Encode>⟧.bytes v) v cost }
{}

/// An array is read from its own encoding wherever each item is, whatever follows it: at one step
/// and the greatest cost of an item.
pub fn arrays_are_read_back<T: Decodable + Encode>()
    ensures { (v : Vec T Global) (cost : T → ℕ) → length v.items < 2 ^ 64 →
        All (λ item. ReadsBack T.format.reads (T.bytes item) item (cost item)) v.items →
        ReadsBack ⟦<Vec<T> as Decodable>⟧.format.reads (⟦<Vec<T> as Encode>⟧.bytes v) v
        (1 + greatest_part_cost cost v.items) }
{}

/// A map is read from its own encoding wherever each key and value is, whatever follows it: at
/// one step and the greatest cost of a key or a value.
pub fn maps_are_read_back<K: Decodable + Encode, V: Decodable + Encode>()
    ensures { (v : Map (Vec (K × V) Global)) (key_cost : K → ℕ) (value_cost : V → ℕ) →
        length v.0.items < 2 ^ 64 →
        All (λ p. ReadsBack K.format.reads (K.bytes p.0) p.0 (key_cost p.0)) v.0.items →
        All (λ p. ReadsBack V.format.reads (V.bytes p.1) p.1 (value_cost p.1)) v.0.items →
        ReadsBack ⟦<Map<Vec<(K, V)>> as Decodable>⟧.format.reads
        (map_bytes K.bytes V.bytes v.0.items) v
        (1 + greatest_part_cost (pair_cost key_cost value_cost) v.0.items) }
{}

/// What is read back is what `decode` answers, over a reader that reports these bytes and something
/// after them: a value that means the same, with what follows left, and where the budget
/// has the cost, no error of the bytes.
pub fn what_is_written_is_decoded<S: Source, T: Decode<S>, E>()
    ensures accepted { (bytes rest : List ℕ) (v w : T) (cost : ℕ) (old new : View) →
        ReadsBack T.format.reads bytes v cost → old.known ≡ Some (bytes ++ rest) →
        Sound T.format.reads old new w → T.format.same v w × (new.known ≡ Some rest) }
    ensures not_rejected { (bytes rest : List ℕ) (v : T) (cost : ℕ) (old : View)
        (error : DecodeError E) → ReadsBack T.format.reads bytes v cost →
        CostFits cost old.budget → old.known ≡ Some (bytes ++ rest) →
        Complete T.format.reads old error → input_error_of error ≡ None }
{}

/// No encoding of a type begins another, where what follows a format says nothing of it.
pub fn no_encoding_begins_another<S: Source, T: Decode<S>>()
    ensures { IsTrue T.format.closed → NoneBeginsAnother T.format.reads }
{}

/// Numbers that are rejected are not read: no reading begins bytes that the type rejects.
pub fn rejected_numbers_are_not_read()
    ensures heads { (name : List ℕ) (major width : ℕ) →
        NeverBoth (ReadsArgument major width) (RejectsArgument name major width) }
    ensures negative { (name : List ℕ) (width : ℕ) →
        NeverBoth (ReadsNegative width) (RejectsNegative name width) }
    ensures signed { (name plus minus : List ℕ) (width limit : ℕ) →
        NeverBoth (ReadsSigned width limit)
        (λ xs budget. RejectsSigned name plus minus width limit xs) }
    ensures unsigned_of_sixteen { NeverBoth ReadsU128 (λ xs budget. RejectsU128 xs) }
    ensures signed_of_sixteen { NeverBoth ReadsI128 (λ xs budget. RejectsI128 xs) }
{}

/// Simple values, floats, and nothing at all: bytes that are rejected are not read.
pub fn rejected_simple_values_are_not_read()
    ensures simple { NeverBoth ReadsSimple RejectsSimple }
    ensures bool { NeverBoth ReadsBool RejectsBool }
    ensures floats { (name : List ℕ) (marker count : ℕ) →
        NeverBoth (ReadsFloat marker count) (RejectsFloat name marker count) }
    ensures nothing { NeverBoth ReadsNothing RejectsNothing }
{}

/// A length that is rejected is not read, and neither is a break.
pub fn rejected_lengths_are_not_read()
    ensures lengths { (name : List ℕ) (major : ℕ) →
        NeverBoth (ReadsLength major) (RejectsLength name major) }
    ensures breaks { NeverBoth ReadsBreak RejectsBreak }
{}

/// Strings that are rejected are not read: no reading whose chunks' step fits the budget begins
/// bytes that the type rejects. Of borrowed strings it is said where the reader is zero-copy.
pub fn rejected_strings_are_not_read<V>()
    ensures strings { (name : List ℕ) (major : ℕ) (content : V → List ℕ) → major < 7 →
        NeverBoth (ReadsAs major content) (RejectsString name major) }
    ensures texts { (name : List ℕ) (content : V → List ℕ) →
        NeverBoth (ReadsTextAs content) (RejectsText name) }
    ensures lent { (name : List ℕ) (major : ℕ) (is_text : Bool) (content : V → List ℕ) →
        major < 8 → NeverBoth (ReadsBorrowed major is_text content)
        (RejectsBorrowed name major is_text) }
{}

/// An optional item, a tagged item, an optional item as an array, and an item in a box that are
/// rejected are not read, wherever the item's errors exclude its readings: those of an exact
/// call, and those over any reader.
pub fn rejected_parts_are_not_read<T: Decodable>()
    ensures optional { NeverBoth T.format.reads T.format.rejects →
        NeverBoth ⟦<Option<T> as Decodable>⟧.format.reads
        ⟦<Option<T> as Decodable>⟧.format.rejects }
    ensures optional_begins { NeverBoth T.format.reads T.format.begins →
        NeverBoth ⟦<Option<T> as Decodable>⟧.format.reads ⟦<Option<T> as Decodable>⟧.format.begins }
    ensures tagged { NeverBoth T.format.reads T.format.rejects →
        NeverBoth ⟦<Tag<T> as Decodable>⟧.format.reads ⟦<Tag<T> as Decodable>⟧.format.rejects }
    ensures tagged_begins { NeverBoth T.format.reads T.format.begins →
        NeverBoth ⟦<Tag<T> as Decodable>⟧.format.reads ⟦<Tag<T> as Decodable>⟧.format.begins }
    ensures maybe { NeverBoth T.format.reads T.format.rejects →
        NeverBoth (ReadsMaybe T.format.reads) (RejectsMaybe T.format.rejects) }
    ensures maybe_begins { NeverBoth T.format.reads T.format.begins →
        NeverBoth (ReadsMaybe T.format.reads) (RejectsMaybe T.format.begins) }
    ensures boxed { NeverBoth T.format.reads T.format.rejects →
        NeverBoth ⟦<Box<T> as Decodable>⟧.format.reads ⟦<Box<T> as Decodable>⟧.format.rejects }
    ensures boxed_begins { NeverBoth T.format.reads T.format.begins →
        NeverBoth ⟦<Box<T> as Decodable>⟧.format.reads ⟦<Box<T> as Decodable>⟧.format.begins }
{}

/// An array that is rejected is not read, wherever its items' errors exclude their readings.
pub fn rejected_arrays_are_not_read<S: Source, T: Decode<S>>()
    ensures rejects { NeverBoth T.format.reads T.format.rejects →
        NeverBoth ⟦<Vec<T> as Decodable>⟧.format.reads ⟦<Vec<T> as Decodable>⟧.format.rejects }
    ensures begins { NeverBoth T.format.reads T.format.begins →
        NeverBoth ⟦<Vec<T> as Decodable>⟧.format.reads ⟦<Vec<T> as Decodable>⟧.format.begins }
{}

/// A map that is rejected is not read, wherever the errors of its keys and of its values exclude
/// their readings.
pub fn rejected_maps_are_not_read<S: Source, K: Decode<S>, V: Decode<S>>()
    ensures rejects { NeverBoth K.format.reads K.format.rejects →
        NeverBoth V.format.reads V.format.rejects →
        NeverBoth ⟦<Map<Vec<(K, V)>> as Decodable>⟧.format.reads
        ⟦<Map<Vec<(K, V)>> as Decodable>⟧.format.rejects }
    ensures begins { NeverBoth K.format.reads K.format.begins →
        NeverBoth V.format.reads V.format.begins →
        NeverBoth ⟦<Map<Vec<(K, V)>> as Decodable>⟧.format.reads
        ⟦<Map<Vec<(K, V)>> as Decodable>⟧.format.begins }
{}

/// A number that is rejected is not read, and has one error, which leaves one rest.
pub fn numbers_are_rejected_once()
    ensures heads { (name : List ℕ) (major width : ℕ) →
        RejectsOnce (argument_format name major width) }
    ensures negative { (name : List ℕ) (width : ℕ) → RejectsOnce (negative_format name width) }
    ensures signed { (name plus minus : List ℕ) (width limit : ℕ) →
        RejectsOnce (signed_format name plus minus width limit) }
    ensures unsigned_of_sixteen { RejectsOnce ⟦<u128 as Decodable>⟧.format }
    ensures signed_of_sixteen { RejectsOnce ⟦<i128 as Decodable>⟧.format }
{}

/// A simple value, a float, a length, or nothing at all: what is rejected is not read, and has one
/// error, which leaves one rest.
pub fn simple_values_are_rejected_once()
    ensures simple { RejectsOnce ⟦<Simple as Decodable>⟧.format }
    ensures bool { RejectsOnce ⟦<bool as Decodable>⟧.format }
    ensures floats { (name : List ℕ) (marker count : ℕ) →
        RejectsOnce (float_format name marker count) }
    ensures nothing { RejectsOnce ⟦<Nothing as Decodable>⟧.format }
    ensures lengths { (name : List ℕ) (major : ℕ) → RejectsOnce (length_format name major) }
{}

/// A string that is rejected is not read, and has one error, which leaves one rest. Of borrowed
/// strings it is said where the reader is zero-copy: over any other reader how it cuts is seen.
pub fn strings_are_rejected_once<V>()
    ensures strings { (name : List ℕ) (major : ℕ) (content : V → List ℕ) → major < 7 →
        RejectsOnce (as_format name major content) }
    ensures texts { (name : List ℕ) (content : V → List ℕ) →
        RejectsOnce (text_format name content) }
    ensures lent { (name : List ℕ) (major : ℕ) (is_text : Bool) (content : V → List ℕ) →
        major < 8 → RejectsOnce (lent_format name major is_text content) }
{}

/// An optional item, a tagged item, an optional item as an array, and an item in a box are
/// rejected with one error wherever the item is.
pub fn parts_are_rejected_once<T: Decodable>()
    ensures optional { RejectsOnce T.format → RejectsOnce ⟦<Option<T> as Decodable>⟧.format }
    ensures tagged { RejectsOnce T.format → RejectsOnce ⟦<Tag<T> as Decodable>⟧.format }
    ensures maybe { RejectsOnce T.format → RejectsOnce ⟦<Maybe<Option<T>> as Decodable>⟧.format }
    ensures boxed { RejectsOnce T.format → RejectsOnce ⟦<Box<T> as Decodable>⟧.format }
{}

/// An array is rejected with one error wherever its items are.
pub fn arrays_are_rejected_once<S: Source, T: Decode<S>>()
    ensures { RejectsOnce T.format → RejectsOnce ⟦<Vec<T> as Decodable>⟧.format }
{}

/// A map is rejected with one error wherever its keys and its values are.
pub fn maps_are_rejected_once<S: Source, K: Decode<S>, V: Decode<S>>()
    ensures { RejectsOnce K.format → RejectsOnce V.format →
        RejectsOnce ⟦<Map<Vec<(K, V)>> as Decodable>⟧.format }
{}
