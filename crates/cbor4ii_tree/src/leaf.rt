//! Values that hold no other, decided in one look where they stand whole in what is shown
//! (RFC 8949 section 3). Of what does not, the look hands on the first byte.
ghost use Rattle.std.specs.Prelude.{◌≡◌, ◌∷◌, ◌/◌, ◌%◌, ◌⊎◌, IfOk, OnErr, IfSome, true};
ghost use Rattle.cbor4ii_rw.specs.Reader.{ReaderFails};
ghost use Rattle.cbor4ii_items.specs.Head.{ArgumentAfter, byte_count, shortest_width};
ghost use Rattle.cbor4ii_tree.specs.Inner.BytesAhead.{Offers};
ghost use Rattle.cbor4ii_tree.specs.Inner.Leaf.{ShortestHead, SeesLeaf, SeesNext, TakesLeaf};

use crate::accepted::Encodings;
use crate::simple::simple_of;
use crate::slot::{leave, leave_end};
use crate::value::{FloatBits, Value};
use cbor4ii_items::initial::argument;
use cbor4ii_items::{major, marker};
use cbor4ii_rw::ask::look;
use cbor4ii_rw::error::DecodeError;
use cbor4ii_rw::read::Source;
use std::alloc::Global;

pub(crate) enum ValueSeen {
    /// A value that holds no other, in so many bytes.
    Whole(Value, usize),
    /// A string after a head of so many bytes, whose content has no memory.
    NoMemory(usize),
    End,
    /// A value that is not decided here.
    Begins(Next),
}

/// What a look has shown of a value that it leaves undecided.
#[derive(Clone, Copy)]
pub(crate) struct Next {
    pub(crate) first: u8,
    /// The head of an array, a map or a tag, where it stands whole.
    pub(crate) head: Option<Head>,
}

#[derive(Clone, Copy)]
pub(crate) struct Head {
    /// How many items or pairs are to follow, or the number of the tag.
    pub(crate) argument: u64,
    pub(crate) size: usize,
}

/// What came of the look at a value.
pub(crate) enum TakenOrNext {
    Taken(Value),
    Begins(Next),
}

/// Takes the value that comes next, where it holds no other and one look shows it whole, in an
/// encoding that is read. Else it takes nothing. Where the look shows no byte, the value is
/// rejected.
#[inline(always)]
pub(crate) fn take_leaf<S: Source, A: Encodings>(
    alloc: Global,
    reader: &mut S,
    failure: &mut Option<DecodeError<S::Error>>,
) -> Option<TakenOrNext>
    ensures { TakesLeaf A.canonical (S.view reader.old) (S.view reader.new) result failure.new }
{
    match glance::<S, A>(alloc, reader) {
        Ok(ValueSeen::Whole(value, size)) => {
            reader.advance(size);
            Some(TakenOrNext::Taken(value))
        }
        Ok(ValueSeen::NoMemory(size)) => {
            reader.advance(size);
            *failure = None;
            None
        }
        Ok(ValueSeen::End) => {
            leave_end("value", failure);
            None
        }
        Ok(ValueSeen::Begins(next)) => Some(TakenOrNext::Begins(next)),
        Err(error) => {
            leave(DecodeError::Read(error), failure);
            None
        }
    }
}

#[inline(always)]
fn glance<S: Source, A: Encodings>(alloc: Global, reader: &mut S) -> Result<ValueSeen, S::Error>
    ensures offers { IfOk result (λ seen. Offers 1 (SeesLeaf (A.canonical ≡ true) seen)
        (S.view reader.old) (S.view reader.new)) }
    ensures breaks { OnErr result (ReaderFails (S.view reader.old) (S.view reader.new)) }
{
    let mut failure = None;
    let want = reader.window();
    match look(reader, want, &mut failure) {
        Some(shown) => Ok(leaf_of::<A>(alloc, shown)),
        None => Err(failure.unwrap()),
    }
}

/// What the shown bytes begin with.
#[inline(always)]
pub(crate) fn leaf_of<A: Encodings>(alloc: Global, shown: &[u8]) -> ValueSeen
    ensures { SeesLeaf (A.canonical ≡ true) result shown.now }
{
    let [first, trailing @ ..] = shown else {
        return ValueSeen::End;
    };
    let first = *first;
    match argument_of::<A>(first, trailing) {
        Some((number, size)) => leaf_after(alloc, first, trailing, number, size),
        None => ValueSeen::Begins(Next { first, head: None }),
    }
}

/// The value that begins so, where no look decides it: it holds others, or it does not stand whole
/// in what is shown. A text that is no UTF-8, and a byte of major type 7, are left to `leaf_of`.
#[inline(always)]
pub(crate) fn undecided<A: Encodings>(first: u8, trailing: &[u8]) -> Option<Next>
    ensures { IfSome result (λ n. SeesNext (A.canonical ≡ true) n (first ∷ trailing.now)) }
{
    let Some((argument, size)) = argument_of::<A>(first, trailing) else {
        return Some(Next { first, head: None });
    };
    match first / 32 {
        major::BYTES | major::STRING if argument > trailing[size..].len() as u64 => {
            Some(Next { first, head: None })
        }
        major::ARRAY | major::MAP | major::TAG => Some(Next {
            first,
            head: Some(Head {
                argument,
                size: 1 + size,
            }),
        }),
        _ => None,
    }
}

/// The argument that stands whole after this first byte, and its size. It is reported only of a
/// head that the encodings have.
#[inline(always)]
fn argument_of<A: Encodings>(first: u8, trailing: &[u8]) -> Option<(u64, usize)>
    ensures stands { IfSome result (λ found.
        ArgumentAfter (first % 32) trailing.now found.0 found.1) }
    ensures exact { A.canonical ≡ true → IfSome result
        (λ found. ShortestHead first found.0 found.1) }
{
    let (number, size) = argument(first % 32, trailing)?;
    if !accepts::<A>(first, number, size) {
        return None;
    }
    Some((number, size))
}

/// Whether a head is one that the encodings have. A float has one width, so each is.
#[inline(always)]
fn accepts<A: Encodings>(first: u8, number: u64, size: usize) -> bool
    ensures { result ≡ true → A.canonical ≡ true → ShortestHead first number size }
{
    if first / 32 == major::SIMPLE {
        A::accepts_simple(first)
    } else {
        A::accepts_head(number, size)
    }
}

/// In how many bytes after the first one the shortest head has this argument.
#[inline(always)]
pub(crate) fn least_size(number: u64) -> usize
    ensures { result ≡ byte_count (shortest_width number) }
{
    if number < 24 {
        0
    } else if number < 0x100 {
        1
    } else if number < 0x1_0000 {
        2
    } else if number < 0x1_0000_0000 {
        4
    } else {
        8
    }
}

/// The leaf that begins with this byte and argument, which has `size` of the bytes after it.
#[inline(always)]
fn leaf_after(alloc: Global, first: u8, trailing: &[u8], number: u64, size: usize) -> ValueSeen
    requires { ArgumentAfter (first % 32) trailing.now number size }
    ensures { SeesLeaf (ShortestHead first number size) result (first ∷ trailing.now) }
{
    match first / 32 {
        major::UNSIGNED => ValueSeen::Whole(Value::Integer(number as i128), 1 + size),
        major::NEGATIVE => ValueSeen::Whole(Value::Integer(-1 - number as i128), 1 + size),
        major::BYTES | major::STRING => string_after(alloc, first, trailing, number, size),
        major::SIMPLE => simple_after(first, trailing, number, size),
        _ => ValueSeen::Begins(Next {
            first,
            head: Some(Head {
                argument: number,
                size: 1 + size,
            }),
        }),
    }
}

#[inline(always)]
fn simple_after(first: u8, trailing: &[u8], number: u64, size: usize) -> ValueSeen
    requires argument { ArgumentAfter (first % 32) trailing.now number size }
    requires major { first / 32 ≡ 7 }
    ensures { SeesLeaf (ShortestHead first number size) result (first ∷ trailing.now) }
{
    match first {
        marker::F16 => ValueSeen::Whole(Value::Float(FloatBits::F16(number as u16)), 3),
        marker::F32 => ValueSeen::Whole(Value::Float(FloatBits::F32(number as u32)), 5),
        marker::F64 => ValueSeen::Whole(Value::Float(FloatBits::F64(number)), 9),
        _ => match simple_of(first) {
            Some(value) => ValueSeen::Whole(value, 1),
            None => ValueSeen::Begins(Next { first, head: None }),
        },
    }
}

#[inline(always)]
fn string_after(alloc: Global, first: u8, trailing: &[u8], number: u64, size: usize) -> ValueSeen
    requires argument { ArgumentAfter (first % 32) trailing.now number size }
    requires major { (first / 32 ≡ 2) ⊎ (first / 32 ≡ 3) }
    ensures { SeesLeaf (ShortestHead first number size) result (first ∷ trailing.now) }
{
    let rest = &trailing[size..];
    if number > rest.len() as u64 {
        return ValueSeen::Begins(Next { first, head: None });
    }
    let count = number as usize;
    let content = &rest[..count];
    if first / 32 == major::BYTES {
        return match Vec::from_slice(alloc, content) {
            Ok(bytes) => ValueSeen::Whole(Value::Bytes(bytes), 1 + size + count),
            Err(_) => ValueSeen::NoMemory(1 + size),
        };
    }
    let Ok(text) = str::from_utf8(content) else {
        return ValueSeen::Begins(Next { first, head: None });
    };
    match String::from_str(alloc, text) {
        Ok(text) => ValueSeen::Whole(Value::Text(text), 1 + size + count),
        Err(_) => ValueSeen::NoMemory(1 + size),
    }
}
