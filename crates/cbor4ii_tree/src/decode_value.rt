//! Values, read, from any encoding or from the canonical one alone.
//!
//! Each level of arrays, maps and tags takes one small frame of the stack: their loops and
//! `read_tagged` stay out of line, and what leads from one of them to another is inline. What a
//! loop answers is made a value where it comes back, so that each level has one place for it.
ghost use Rattle.std.specs.Prelude.{◌≡◌, ◌+◌, ◌-◌, ◌*◌, ◌<◌, ◌≤◌, ◌/◌, ◌⊎◌, IfOk};
ghost use Rattle.std.specs.Prelude.{true, false, length};
ghost use Rattle.std.specs.Prelude.{OnSome, IfSome};
ghost use Rattle.cbor4ii_tree.specs.Calls.Asking.{Asks, BeginsString, InValue, Never, WantsOnly};
ghost use Rattle.cbor4ii_tree.specs.Inner.Does.{Anything, DoesUnder, Gives};
ghost use Rattle.cbor4ii_tree.specs.Inner.Does.{value_or_error};
ghost use Rattle.cbor4ii_tree.specs.Inner.Valuing.{ReadsOneValue, RejectsOneValue, ReadsUnder};
ghost use Rattle.cbor4ii_tree.specs.Inner.Valuing.{InRange, RejectsUnder};
ghost use Rattle.cbor4ii_tree.specs.Inner.Valuing.{ReadsTwoStepsIn, RejectsOf, RejectsMajor};
ghost use Rattle.cbor4ii_tree.specs.Inner.Valuing.{ReadsVec, ReadsItems, RejectsItems};
ghost use Rattle.cbor4ii_tree.specs.Inner.Valuing.{ReadsIndefiniteItems, RejectsIndefiniteItems};
ghost use Rattle.cbor4ii_tree.specs.Inner.Valuing.{ReadsValuePairs, RejectsValuePairs};
ghost use Rattle.cbor4ii_tree.specs.Inner.Valuing.{ReadsPairsToBreak};
ghost use Rattle.cbor4ii_tree.specs.Inner.Valuing.{RejectsPairsToBreak, ReadsValuePair};
ghost use Rattle.cbor4ii_tree.specs.Inner.Valuing.{RejectsValuePair};
ghost use Rattle.cbor4ii_tree.specs.Inner.Valuing.{ReadsTagged, TakesLength, TakesTag, flat_values};
ghost use Rattle.cbor4ii_tree.specs.Inner.Asking.{InParts, InTagged};
ghost use Rattle.cbor4ii_tree.specs.Inner.Leaf.{CanTake, DoesAfterFirst, DoesAfterNext};
ghost use Rattle.cbor4ii_tree.specs.Inner.Leaf.{GivesNext, GivesValue};
ghost use Rattle.cbor4ii_tree.specs.Inner.LeafRuns.{pair_values, GivesItems, PutsItems};
ghost use Rattle.cbor4ii_tree.specs.Inner.LeafRuns.{PutsItemsUnder, RejectsItemsUnder};
ghost use Rattle.cbor4ii_tree.specs.Basis.Item.{IsItem, AreItems};
ghost use Rattle.cbor4ii_tree.specs.Basis.View.{view, items_view};
ghost use Rattle.cbor4ii_tree.specs.Calls.Promises.{value_format, DepthReads, FinalReads, Others};
ghost use Rattle.cbor4ii_tree.specs.Calls.Promises.{SizeReads, ExactReads};
ghost use Rattle.cbor4ii_tree.specs.Basis.Headline.{OnlyReads, AllReads, PrefixReads, EofReads};
ghost use Rattle.cbor4ii_tree.specs.Basis.Headline.{SkipsReads, CanonicalReads};
ghost use Rattle.cbor4ii_items.specs.Decoding.{Decodes};
ghost use Rattle.cbor4ii_tree.specs.Laws.Values.{value_lawful};

use crate::accepted::Encodings;
use crate::any_encoding::AnyEncoding;
use crate::leaf::{Next, TakenOrNext, take_leaf};
use crate::run::{Pairs, Parts, put_value, take_run};
use crate::simple::{read_float, simple_of};
use crate::slot::{keep, leave_deep, leave_not_canonical, part, whole};
use crate::value::Value;
use cbor4ii_items::decode::{Decodable, Decode};
use cbor4ii_items::indefinite::is_break;
use cbor4ii_items::major;
use cbor4ii_items::reserve::items_ahead;
use cbor4ii_rw::error::DecodeError;
use cbor4ii_rw::read::Source;
use std::alloc::Global;

impl Decodable for Value {
    ghost format = { value_format };

    fn is_never_empty() -> bool {
        true
    }

    ghost lawful = { value_lawful };
}

/// A value is read from each of its encodings whose steps fit the budget: heads of any width,
/// lengths given or not, the chunks of a string joined. Null is read from `f6` and `f7`, floats
/// keep their width and bits, pairs their order, and equal keys stay.
///
/// Reading takes a step a value, one more for an array or a map, and one for the chunks of a
/// string. At most 256 items or pairs, and 16384 bytes of a string, have their place reserved
/// before any of them came.
///
/// # Errors
///
/// `Read` and `OutOfMemory` are described at `Decode::decode`. At the others what stands before the
/// rejected byte is taken, and each `Eof` leaves nothing (RFC 8949 appendix F):
///
/// - `DepthOverflow` by "value": no step is left for a value. Nothing of it is taken
/// - `DepthOverflow` by "array" or "map": no second step is left for an array or a map. Nothing of
///   it is taken
/// - `DepthOverflow` by "bytes" or "str": no step is left for a chunk. Nothing of it is taken
/// - `Eof` by "value" with 1: no byte is left where a value should come
/// - `Eof` by "break" with 1: no byte is left where an item, a chunk or a break should come
/// - `Eof` by "u64", "-u64", "bytes", "str", "array", "map", "tag", "f16", "f32" or "f64" with k:
///   the argument has k bytes and fewer are left
/// - `Eof` by "bytes" or "str" with the number of bytes that are missing: the content of a string
///   is cut
/// - `Mismatch` by "u64", "-u64", "bytes", "str", "array", "map" or "tag" with the first byte,
///   which is taken: it begins no head of its major type
/// - `Mismatch` by "bytes" or "str" with the first byte of a chunk, which is taken: it begins no
///   string of this kind
/// - `RequireLength` by "bytes" or "str" with `Indefinite`: a chunk has an indefinite length. What
///   follows its first byte is left
/// - `RequireUtf8` by "str": a text, its chunks joined, is not UTF-8. The whole text is taken
/// - `Unsupported` by "value" with the byte, which stays: it is a break in the place of a value. Or
///   it is another byte of major type 7, and none of `f4` to `f7` and `f9` to `fb`
impl<S: Source> Decode<S> for Value {
    #[inline(always)]
    fn decode(alloc: Global, reader: &mut S) -> Result<Value, DecodeError<S::Error>>
        ensures decodes { Decodes value_format
            (S.view reader.old) (S.view reader.new) result }

        ensures only { OnlyReads (S.view reader.old) (S.view reader.new) result }
        ensures all { AllReads (S.view reader.old) (S.view reader.new) result }
        ensures prefix { PrefixReads (S.view reader.old) result }
        ensures eof { EofReads (S.view reader.old) (S.view reader.new) result }
        ensures depth { DepthReads (S.view reader.old) result }
        ensures never { FinalReads (S.view reader.old) result }
        ensures others { Others (S.view reader.old) result }
        ensures size { SizeReads (S.view reader.old) (S.view reader.new) result }
        ensures exact { ExactReads (S.view reader.old) (S.view reader.new) result }
        ensures skips { SkipsReads (S.view reader.old) (S.view reader.new) result }
        ensures asks { WantsOnly (Asks (InValue false))
            (S.view reader.old) (S.view reader.new) result }
        // Over any reader.
        ensures item { IfOk result (λ v. IsItem (view v)) }
        ensures canonical { CanonicalReads (S.view reader.old) result }
    {
        let mut failure = None;
        let value = read_outermost::<S, AnyEncoding>(alloc, reader, &mut failure);
        whole(value, &mut failure)
    }
}

/// Reads a value that stands in no other. What is under its step is a function apart: of several
/// callers each takes the step and the answer in its own frame, and a lone one takes all.
#[inline(always)]
pub(crate) fn read_outermost<S: Source, A: Encodings>(
    alloc: Global,
    reader: &mut S,
    failure: &mut Option<DecodeError<S::Error>>,
) -> Option<Value>
    ensures { GivesValue A.canonical (ReadsOneValue A.canonical) (RejectsOneValue A.canonical)
        (S.view reader.old) (S.view reader.new) (value_or_error result failure.new) }
{
    if !reader.step_in() {
        leave_deep("value", failure);
        return None;
    }
    let outcome = read_apart::<S, A>(alloc, reader, failure);
    reader.step_out();
    outcome
}

fn read_apart<S: Source, A: Encodings>(
    alloc: Global,
    reader: &mut S,
    failure: &mut Option<DecodeError<S::Error>>,
) -> Option<Value>
    ensures { GivesValue A.canonical (ReadsUnder A.canonical) (RejectsUnder A.canonical)
        (S.view reader.old) (S.view reader.new) (value_or_error result failure.new) }
{
    read_inside::<S, A>(alloc, reader, failure)
}

/// Where it reads none, the error goes to `failure`, which is left empty where memory was refused:
/// no large answer is handed up from level to level.
#[cycle(read)]
#[inline(always)]
fn read_value<S: Source, A: Encodings>(
    alloc: Global,
    reader: &mut S,
    failure: &mut Option<DecodeError<S::Error>>,
) -> Option<Value>
    ensures { GivesValue A.canonical (ReadsOneValue A.canonical) (RejectsOneValue A.canonical)
        (S.view reader.old) (S.view reader.new) (value_or_error result failure.new) }
{
    if !reader.step_in() {
        leave_deep("value", failure);
        return None;
    }
    let outcome = read_inside::<S, A>(alloc, reader, failure);
    reader.step_out();
    outcome
}

/// A value that holds no other is mostly decided in one look.
#[cycle(read)]
#[inline(always)]
fn read_inside<S: Source, A: Encodings>(
    alloc: Global,
    reader: &mut S,
    failure: &mut Option<DecodeError<S::Error>>,
) -> Option<Value>
    ensures { GivesValue A.canonical (ReadsUnder A.canonical) (RejectsUnder A.canonical)
        (S.view reader.old) (S.view reader.new) (value_or_error result failure.new) }
{
    match take_leaf::<S, A>(alloc, reader, failure)? {
        TakenOrNext::Taken(value) => Some(value),
        TakenOrNext::Begins(next) => read_next::<S, A>(alloc, reader, next, failure),
    }
}

/// Goes by what a look has shown of the value.
#[cycle(read)]
#[inline(always)]
fn read_next<S: Source, A: Encodings>(
    alloc: Global,
    reader: &mut S,
    next: Next,
    failure: &mut Option<DecodeError<S::Error>>,
) -> Option<Value>
    requires { CanTake next (S.view reader.old) }
    ensures { GivesNext A.canonical next (ReadsUnder A.canonical) (RejectsUnder A.canonical)
        (S.view reader.old) (S.view reader.new) (value_or_error result failure.new) }
{
    match next.first / 32 {
        major::ARRAY => read_array::<S, A>(alloc, reader, next, failure),
        major::MAP => read_map::<S, A>(alloc, reader, next, failure),
        major::TAG => read_tag::<S, A>(alloc, reader, next, failure),
        _ => read_alone::<S, A>(alloc, reader, next.first, failure),
    }
}

#[cycle(read)]
#[inline(always)]
fn read_tag<S: Source, A: Encodings>(
    alloc: Global,
    reader: &mut S,
    next: Next,
    failure: &mut Option<DecodeError<S::Error>>,
) -> Option<Value>
    requires can { CanTake next (S.view reader.old) }
    requires major { next.first / 32 ≡ 6 }
    ensures { GivesNext A.canonical next (ReadsUnder A.canonical) (RejectsOf A.canonical 6)
        (S.view reader.old) (S.view reader.new) (value_or_error result failure.new) }
{
    let number = take_tag::<S, A>(reader, next, failure)?;
    read_tagged::<S, A>(alloc, reader, number, failure)
}

#[cycle(read)]
#[inline(never)]
fn read_tagged<S: Source, A: Encodings>(
    alloc: Global,
    reader: &mut S,
    number: u64,
    failure: &mut Option<DecodeError<S::Error>>,
) -> Option<Value>
    ensures { Gives (Asks (InTagged A.canonical)) InRange
        (DoesUnder (ReadsTagged A.canonical number) (RejectsOneValue A.canonical))
        (S.view reader.old) (S.view reader.new) (value_or_error result failure.new) }
{
    let inner = read_value::<S, A>(alloc, reader, failure)?;
    match Box::new(alloc, inner) {
        Ok(boxed) => Some(Value::Tag(number, boxed)),
        Err(_) => {
            *failure = None;
            None
        }
    }
}

#[inline(always)]
fn take_tag<S: Source, A: Encodings>(
    reader: &mut S,
    next: Next,
    failure: &mut Option<DecodeError<S::Error>>,
) -> Option<u64>
    requires can { CanTake next (S.view reader.old) }
    requires major { next.first / 32 ≡ 6 }
    ensures { Gives Never Anything
        (DoesAfterNext A.canonical next (TakesTag A.canonical) (RejectsOf A.canonical 6))
        (S.view reader.old) (S.view reader.new) (value_or_error result failure.new) }
{
    match next.head {
        Some(head) => {
            reader.advance(head.size);
            Some(head.argument)
        }
        None => A::take_tag(reader, failure),
    }
}

/// Takes the head of an array or a map. None is an indefinite length.
#[inline(always)]
fn take_length<S: Source, A: Encodings>(
    reader: &mut S,
    major: u8,
    next: Next,
    failure: &mut Option<DecodeError<S::Error>>,
) -> Option<Option<usize>>
    requires can { CanTake next (S.view reader.old) }
    requires major { next.first / 32 ≡ major }
    requires nests { (major ≡ 4) ⊎ (major ≡ 5) }
    ensures { Gives Never Anything (DoesAfterNext A.canonical next
        (TakesLength A.canonical major) (RejectsMajor A.canonical major))
        (S.view reader.old) (S.view reader.new) (value_or_error result failure.new) }
{
    match next.head {
        Some(head) => {
            reader.advance(head.size);
            Some(Some(head.argument as usize))
        }
        None => A::take_length(reader, major, next.first, failure),
    }
}

/// Reads a value that holds no other. It stays out of line, so that the levels above pay nothing
/// for its locals.
#[inline(never)]
fn read_alone<S: Source, A: Encodings>(
    alloc: Global,
    reader: &mut S,
    first: u8,
    failure: &mut Option<DecodeError<S::Error>>,
) -> Option<Value>
    requires shown { 1 ≤ (S.view reader.old).advanceable }
    requires major { (first / 32 ≤ 3) ⊎ (first / 32 ≡ 7) }
    ensures { Gives (λ _ _. BeginsString first) InRange
        (DoesAfterFirst first (ReadsUnder A.canonical) (RejectsUnder A.canonical))
        (S.view reader.old) (S.view reader.new) (value_or_error result failure.new) }
{
    if first / 32 != major::SIMPLE {
        return part(A::read_leaf(alloc, reader, first), failure);
    }
    if !A::accepts_simple(first) {
        reader.advance(1);
        leave_not_canonical("canonical", failure);
        return None;
    }
    match simple_of(first) {
        Some(value) => {
            reader.advance(1);
            Some(value)
        }
        None => part(read_float(alloc, reader, first), failure),
    }
}

#[cycle(read)]
#[inline(always)]
fn read_array<S: Source, A: Encodings>(
    alloc: Global,
    reader: &mut S,
    next: Next,
    failure: &mut Option<DecodeError<S::Error>>,
) -> Option<Value>
    requires can { CanTake next (S.view reader.old) }
    requires major { next.first / 32 ≡ 4 }
    ensures { GivesNext A.canonical next (ReadsUnder A.canonical) (RejectsOf A.canonical 4)
        (S.view reader.old) (S.view reader.new) (value_or_error result failure.new) }
{
    if !reader.step_in() {
        leave_deep("array", failure);
        return None;
    }
    let outcome = array_inside::<S, A>(alloc, reader, next, failure);
    reader.step_out();
    outcome
}

#[cycle(read)]
#[inline(always)]
fn array_inside<S: Source, A: Encodings>(
    alloc: Global,
    reader: &mut S,
    next: Next,
    failure: &mut Option<DecodeError<S::Error>>,
) -> Option<Value>
    requires can { CanTake next (S.view reader.old) }
    requires major { next.first / 32 ≡ 4 }
    ensures { GivesNext A.canonical next (ReadsTwoStepsIn A.canonical) (RejectsMajor A.canonical 4)
        (S.view reader.old) (S.view reader.new) (value_or_error result failure.new) }
{
    let items = match take_length::<S, A>(reader, major::ARRAY, next, failure)? {
        Some(0) => return Some(Value::Array(Vec::new(alloc))),
        Some(count) => definite_items::<S, A>(alloc, reader, count, failure),
        None => indefinite_items::<S, A>(alloc, reader, failure),
    };
    Some(Value::Array(items?))
}

#[cycle(read)]
#[inline(never)]
fn definite_items<S: Source, A: Encodings>(
    alloc: Global,
    reader: &mut S,
    count: usize,
    failure: &mut Option<DecodeError<S::Error>>,
) -> Option<Vec<Value>>
    ensures does { DoesUnder (ReadsVec (ReadsItems A.canonical count))
        (RejectsItems A.canonical count)
        (S.view reader.old) (S.view reader.new) (value_or_error result failure.new) }
    ensures memory { WantsOnly (Asks (InParts A.canonical 0))
        (S.view reader.old) (S.view reader.new) (value_or_error result failure.new) }
    ensures items { IfSome result (λ v. AreItems (items_view v.items)) }
{
    let mut items = Vec::new(alloc);
    if !make_room(&mut items, count) {
        *failure = None;
        return None;
    }
    while items.lacks(count) {
        more_items::<S, A>(alloc, reader, count, &mut items, failure)?;
    }
    Some(items)
}

/// Makes room for so many parts, or for as many as have their place before any came. False is
/// refused memory.
#[inline(always)]
fn make_room<T>(parts: &mut Vec<T>, count: usize) -> bool
    ensures { parts.new.items ≡ parts.old.items }
{
    parts.reserve_exact(items_ahead(count)).is_ok()
}

/// Reads as many items as one look decides, and the one after them that it leaves undecided.
#[cycle(read)]
#[inline(always)]
fn more_items<S: Source, A: Encodings>(
    alloc: Global,
    reader: &mut S,
    count: usize,
    items: &mut Vec<Value>,
    failure: &mut Option<DecodeError<S::Error>>,
) -> Option<()>
    requires { length items.old.items < 1 * count }
    ensures { GivesItems A.canonical (PutsItems A.canonical) (RejectsItems A.canonical) (1 * count)
        items.old.items items.new.items
        (S.view reader.old) (S.view reader.new) (value_or_error result failure.new) }
{
    if !reader.step_in() {
        leave_deep("value", failure);
        return None;
    }
    let outcome = items_inside::<S, A>(alloc, reader, count, items, failure);
    reader.step_out();
    outcome
}

/// Reads the items that are missing. The step that was taken is each item's in turn.
#[cycle(read)]
#[inline(always)]
fn items_inside<S: Source, A: Encodings>(
    alloc: Global,
    reader: &mut S,
    count: usize,
    items: &mut Vec<Value>,
    failure: &mut Option<DecodeError<S::Error>>,
) -> Option<()>
    requires { length items.old.items < 1 * count }
    ensures { GivesItems A.canonical (PutsItemsUnder A.canonical) (RejectsItemsUnder A.canonical)
        (1 * count)
        items.old.items items.new.items
        (S.view reader.old) (S.view reader.new) (value_or_error result failure.new) }
{
    match take_run::<S, A, Vec<Value>>(alloc, reader, count, items, failure)? {
        Some(next) => {
            let value = read_next::<S, A>(alloc, reader, next, failure)?;
            put_value(items, value, failure)
        }
        None => Some(()),
    }
}

/// Reads as many keys and values as one look decides, and the one after them that it leaves
/// undecided.
#[cycle(read)]
#[inline(always)]
fn more_pairs<S: Source, A: Encodings>(
    alloc: Global,
    reader: &mut S,
    count: usize,
    pairs: &mut Pairs,
    failure: &mut Option<DecodeError<S::Error>>,
) -> Option<()>
    requires { length (pair_values pairs.old) < 2 * count }
    ensures { GivesItems A.canonical (PutsItems A.canonical) (RejectsItems A.canonical) (2 * count)
        (pair_values pairs.old) (pair_values pairs.new)
        (S.view reader.old) (S.view reader.new) (value_or_error result failure.new) }
{
    if !reader.step_in() {
        leave_deep("value", failure);
        return None;
    }
    let outcome = pairs_inside::<S, A>(alloc, reader, count, pairs, failure);
    reader.step_out();
    outcome
}

/// Reads the pairs that are missing. The step that was taken is each value's in turn.
#[cycle(read)]
#[inline(always)]
fn pairs_inside<S: Source, A: Encodings>(
    alloc: Global,
    reader: &mut S,
    count: usize,
    pairs: &mut Pairs,
    failure: &mut Option<DecodeError<S::Error>>,
) -> Option<()>
    requires { length (pair_values pairs.old) < 2 * count }
    ensures { GivesItems A.canonical (PutsItemsUnder A.canonical) (RejectsItemsUnder A.canonical)
        (2 * count)
        (pair_values pairs.old) (pair_values pairs.new)
        (S.view reader.old) (S.view reader.new) (value_or_error result failure.new) }
{
    match take_run::<S, A, Pairs>(alloc, reader, count, pairs, failure)? {
        Some(next) => {
            let value = read_next::<S, A>(alloc, reader, next, failure)?;
            put_value(pairs, value, failure)
        }
        None => Some(()),
    }
}

#[cycle(read)]
#[inline(never)]
fn indefinite_items<S: Source, A: Encodings>(
    alloc: Global,
    reader: &mut S,
    failure: &mut Option<DecodeError<S::Error>>,
) -> Option<Vec<Value>>
    ensures does { DoesUnder
        (ReadsVec (ReadsIndefiniteItems A.canonical)) (RejectsIndefiniteItems A.canonical)
        (S.view reader.old) (S.view reader.new) (value_or_error result failure.new) }
    ensures memory { WantsOnly (Asks (InParts A.canonical 1))
        (S.view reader.old) (S.view reader.new) (value_or_error result failure.new) }
    ensures items { IfSome result (λ v. AreItems (items_view v.items)) }
{
    let mut items = Vec::new(alloc);
    while !part(is_break(reader), failure)? {
        let value = read_value::<S, A>(alloc, reader, failure)?;
        keep(&mut items, value, failure)?;
    }
    Some(items)
}

#[cycle(read)]
#[inline(always)]
fn read_map<S: Source, A: Encodings>(
    alloc: Global,
    reader: &mut S,
    next: Next,
    failure: &mut Option<DecodeError<S::Error>>,
) -> Option<Value>
    requires can { CanTake next (S.view reader.old) }
    requires major { next.first / 32 ≡ 5 }
    ensures { GivesNext A.canonical next (ReadsUnder A.canonical) (RejectsOf A.canonical 5)
        (S.view reader.old) (S.view reader.new) (value_or_error result failure.new) }
{
    if !reader.step_in() {
        leave_deep("map", failure);
        return None;
    }
    let outcome = map_inside::<S, A>(alloc, reader, next, failure);
    reader.step_out();
    outcome
}

#[cycle(read)]
#[inline(always)]
fn map_inside<S: Source, A: Encodings>(
    alloc: Global,
    reader: &mut S,
    next: Next,
    failure: &mut Option<DecodeError<S::Error>>,
) -> Option<Value>
    requires can { CanTake next (S.view reader.old) }
    requires major { next.first / 32 ≡ 5 }
    ensures { GivesNext A.canonical next (ReadsTwoStepsIn A.canonical) (RejectsMajor A.canonical 5)
        (S.view reader.old) (S.view reader.new) (value_or_error result failure.new) }
{
    let pairs = match take_length::<S, A>(reader, major::MAP, next, failure)? {
        Some(0) => return Some(Value::Map(Vec::new(alloc))),
        Some(count) => definite_pairs::<S, A>(alloc, reader, count, failure),
        None => indefinite_pairs::<S, A>(alloc, reader, failure),
    };
    Some(Value::Map(pairs?))
}

#[cycle(read)]
#[inline(never)]
fn definite_pairs<S: Source, A: Encodings>(
    alloc: Global,
    reader: &mut S,
    count: usize,
    failure: &mut Option<DecodeError<S::Error>>,
) -> Option<Vec<(Value, Value)>>
    ensures does { DoesUnder (ReadsVec (ReadsValuePairs A.canonical count))
        (RejectsValuePairs A.canonical count)
        (S.view reader.old) (S.view reader.new) (value_or_error result failure.new) }
    ensures memory { WantsOnly (Asks (InParts A.canonical 0))
        (S.view reader.old) (S.view reader.new) (value_or_error result failure.new) }
    ensures items { IfSome result (λ v. AreItems (items_view (flat_values v.items))) }
{
    let mut room = Vec::new(alloc);
    if !make_room(&mut room, count) {
        *failure = None;
        return None;
    }
    let mut pairs = Pairs {
        pairs: room,
        key: None,
    };
    while pairs.lacks(count) {
        more_pairs::<S, A>(alloc, reader, count, &mut pairs, failure)?;
    }
    Some(pairs.pairs)
}

#[cycle(read)]
#[inline(never)]
fn indefinite_pairs<S: Source, A: Encodings>(
    alloc: Global,
    reader: &mut S,
    failure: &mut Option<DecodeError<S::Error>>,
) -> Option<Vec<(Value, Value)>>
    ensures does { DoesUnder
        (ReadsVec (ReadsPairsToBreak A.canonical)) (RejectsPairsToBreak A.canonical)
        (S.view reader.old) (S.view reader.new) (value_or_error result failure.new) }
    ensures memory { WantsOnly (Asks (InParts A.canonical 1))
        (S.view reader.old) (S.view reader.new) (value_or_error result failure.new) }
    ensures items { IfSome result (λ v. AreItems (items_view (flat_values v.items))) }
{
    let mut pairs = Vec::new(alloc);
    while !part(is_break(reader), failure)? {
        let pair = read_pair::<S, A>(alloc, reader, failure)?;
        keep(&mut pairs, pair, failure)?;
    }
    Some(pairs)
}

/// No break is looked for between a key and its value.
#[cycle(read)]
#[inline(always)]
fn read_pair<S: Source, A: Encodings>(
    alloc: Global,
    reader: &mut S,
    failure: &mut Option<DecodeError<S::Error>>,
) -> Option<(Value, Value)>
    ensures { Gives (Asks (InParts A.canonical 1))
        (λ m. InRange m.0 × InRange m.1)
        (DoesUnder (ReadsValuePair A.canonical) (RejectsValuePair A.canonical))
        (S.view reader.old) (S.view reader.new) (value_or_error result failure.new) }
{
    let key = read_value::<S, A>(alloc, reader, failure)?;
    let value = read_value::<S, A>(alloc, reader, failure)?;
    Some((key, value))
}
