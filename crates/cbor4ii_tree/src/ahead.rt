//! What shown bytes begin with, decided in one look: a run of items that hold no other, a head, or
//! a break (RFC 8949 section 3). What does not stand whole in them is left undecided.
ghost use Rattle.std.specs.Prelude.{◌≡◌, ◌≢◌, ◌≤◌, ◌+◌, ◌-◌, length, ◌∷◌, ◌↔◌, IsTrue, ℕ};
ghost use Rattle.std.specs.Prelude.{List};
ghost use Rattle.cbor4ii_items.specs.Initial.{initial};
ghost use Rattle.cbor4ii_tree.specs.declared.skip.initial.Start.TheVariants.{Unsupported};
ghost use Rattle.cbor4ii_tree.specs.Inner.Ahead.{leaf_bytes, in_map, Allows, IsIndefinite};
ghost use Rattle.cbor4ii_tree.specs.Calls.RawParts.{BeginsWithBreak};
ghost use Rattle.cbor4ii_tree.specs.Inner.Ahead.{Sees, AllShort};
ghost use Rattle.cbor4ii_tree.specs.Inner.Runs.{IsLeafAt, BeginsRun};
ghost use Rattle.cbor4ii_tree.specs.Inner.Skipping.{start_of};

use crate::skip::{Additional, After, Start, pairs_of, parse_info, start_of};
use cbor4ii_items::initial::argument;
use cbor4ii_items::marker;

/// Among what the next item stands.
#[derive(Clone, Copy)]
pub(crate) enum Among {
    Items(u64),
    /// Items up to a break.
    Indefinite,
}

impl Among {
    #[inline(always)]
    pub(crate) fn is_indefinite(self) -> bool
        ensures { IsTrue result ↔ IsIndefinite self }
    {
        match self {
            Among::Items(_) => false,
            Among::Indefinite => true,
        }
    }

    /// In a map of indefinite length, no break may come after a key.
    #[inline(always)]
    pub(crate) fn in_map(keyed: bool) -> Among
        ensures { result ≡ in_map keyed }
    {
        if keyed {
            return Among::Items(u64::MAX);
        }
        Among::Indefinite
    }
}

/// What comes next.
#[derive(Clone, Copy)]
pub(crate) enum Ahead {
    /// So many items that hold no other, in so many bytes.
    Run(u64, usize),
    /// A head of so many bytes, with the content that is shown, and what is left of its item.
    Head(usize, After),
    Break,
    /// Nothing that is decided here.
    Unseen,
}

// By its first byte, how many bytes an item takes that holds no other and says its size there; else
// 0. Each 32 entries are a major type (RFC 8949 section 3.1).
static LEAF_BYTES: [u8; 256] = [
    1, 1, 1, 1, 1, 1, 1, 1, 1, 1, 1, 1, 1, 1, 1, 1, 1, 1, 1, 1, 1, 1, 1, 1, 2, 3, 5, 9, 0, 0, 0, 0,
    1, 1, 1, 1, 1, 1, 1, 1, 1, 1, 1, 1, 1, 1, 1, 1, 1, 1, 1, 1, 1, 1, 1, 1, 2, 3, 5, 9, 0, 0, 0, 0,
    1, 2, 3, 4, 5, 6, 7, 8, 9, 10, 11, 12, 13, 14, 15, 16, 17, 18, 19, 20, 21, 22, 23, 24, 0, 0, 0,
    0, 0, 0, 0, 0, 1, 2, 3, 4, 5, 6, 7, 8, 9, 10, 11, 12, 13, 14, 15, 16, 17, 18, 19, 20, 21, 22,
    23, 24, 0, 0, 0, 0, 0, 0, 0, 0, 1, 0, 0, 0, 0, 0, 0, 0, 0, 0, 0, 0, 0, 0, 0, 0, 0, 0, 0, 0, 0,
    0, 0, 0, 0, 0, 0, 0, 0, 0, 0, 0, 1, 0, 0, 0, 0, 0, 0, 0, 0, 0, 0, 0, 0, 0, 0, 0, 0, 0, 0, 0, 0,
    0, 0, 0, 0, 0, 0, 0, 0, 0, 0, 0, 0, 0, 0, 0, 0, 0, 0, 0, 0, 0, 0, 0, 0, 0, 0, 0, 0, 0, 0, 0, 0,
    0, 0, 0, 0, 0, 0, 0, 0, 0, 0, 0, 0, 0, 0, 0, 0, 0, 0, 0, 0, 0, 0, 0, 0, 0, 0, 0, 0, 0, 0, 0, 1,
    1, 1, 1, 0, 3, 5, 9, 0, 0, 0, 0,
];

/// The greatest of these numbers.
const MOST_LEAF_BYTES: usize = 24;

#[inline(always)]
pub(crate) fn ahead_of(shown: &[u8], among: Among) -> Ahead
    ensures { Sees among result shown.now }
{
    let (count, size) = run_of(shown, among);
    if count > 0 {
        return Ahead::Run(count, size);
    }
    if among.is_indefinite() && begins_with_break(shown) {
        return Ahead::Break;
    }
    head_of(shown)
}

#[inline(always)]
pub(crate) fn begins_with_break(shown: &[u8]) -> bool
    ensures { IsTrue result ↔ BeginsWithBreak shown.now }
{
    match shown {
        [first, ..] => *first == marker::BREAK,
        [] => false,
    }
}

#[inline(always)]
fn run_of(shown: &[u8], among: Among) -> (u64, usize)
    ensures few { Allows among result.0 }
    ensures run { BeginsRun result.0 result.1 shown.now }
{
    match among {
        Among::Items(most) => run_of_items(shown, most),
        Among::Indefinite => run_of_items(shown, u64::MAX),
    }
}

#[inline(always)]
fn run_of_items(shown: &[u8], most: u64) -> (u64, usize)
    ensures few { result.0 ≤ most }
    ensures run { BeginsRun result.0 result.1 shown.now }
{
    let leaf = leaf_size(shown, 0);
    if leaf == 0 || most == 0 {
        return (0, 0);
    }
    more_of_run(shown, most, most - 1, leaf)
}

/// The run that goes on after so many bytes, where `left` of at most `most` items are left. While
/// two items of any size would stand whole, none is asked whether it does. After two of one byte
/// more are looked for at once.
#[inline(always)]
fn more_of_run(shown: &[u8], most: u64, left: u64, size: usize) -> (u64, usize)
    requires few { left ≤ most }
    requires run { BeginsRun (most - left) size shown.now }
    ensures few { result.0 ≤ most }
    ensures run { BeginsRun result.0 result.1 shown.now }
{
    let mut left = left;
    let mut size = size;
    while left > 1 && shown.len() - size > 2 * MOST_LEAF_BYTES {
        let leaf = leaf_bytes(shown[size]) as usize;
        if leaf == 0 {
            return (most - left, size);
        }
        let next = leaf_bytes(shown[size + leaf]) as usize;
        if next == 0 {
            return end_of_run(shown, most, left, size);
        }
        left -= 2;
        size += leaf + next;
        if leaf + next == 2 && left >= 8 && are_short(&shown[size..size + 8]) {
            left -= 8;
            size += 8;
        }
    }
    end_of_run(shown, most, left, size)
}

#[inline(always)]
fn end_of_run(shown: &[u8], most: u64, left: u64, size: usize) -> (u64, usize)
    requires few { left ≤ most }
    requires run { BeginsRun (most - left) size shown.now }
    ensures few { result.0 ≤ most }
    ensures run { BeginsRun result.0 result.1 shown.now }
{
    let mut left = left;
    let mut size = size;
    while left > 0 {
        let leaf = leaf_size(shown, size);
        if leaf == 0 {
            return (most - left, size);
        }
        left -= 1;
        size += leaf;
    }
    (most, size)
}

/// Whether each of these bytes is an integer. All are asked: so many are compared at once.
#[inline(always)]
fn are_short(bytes: &[u8]) -> bool
    ensures { IsTrue result → AllShort bytes.now }
{
    let mut all = true;
    for byte in bytes {
        all &= is_short(*byte);
    }
    all
}

#[inline(always)]
fn is_short(first: u8) -> bool
    ensures { IsTrue result → leaf_bytes first ≡ 1 }
{
    (first < 64) & (first % 32 < 24)
}

/// How many bytes the item at this place takes, where it holds no other and stands whole; else 0.
#[inline(always)]
fn leaf_size(shown: &[u8], at: usize) -> usize
    ensures { result ≢ 0 → IsLeafAt at result shown.now }
{
    if at >= shown.len() {
        return 0;
    }
    let size = leaf_bytes(shown[at]) as usize;
    if size.wrapping_sub(1) >= shown.len() - at {
        return 0;
    }
    size
}

/// How many bytes an item that holds no other takes, where its first byte says that; else 0.
#[inline(always)]
fn leaf_bytes(first: u8) -> u8
    ensures says { result ≡ leaf_bytes first }
    ensures most { result ≤ 24 }
{
    LEAF_BYTES[first as usize]
}

#[inline(always)]
fn head_of(shown: &[u8]) -> Ahead
    ensures { (among : Among) → Sees among result shown.now }
{
    let [first, rest @ ..] = shown else {
        return Ahead::Unseen;
    };
    wide_head_of(*first, rest)
}

/// The head that begins with this byte and goes on in `rest`, and what is left of its item.
#[inline(always)]
fn wide_head_of(first: u8, rest: &[u8]) -> Ahead
    ensures { (among : Among) → Sees among result (first ∷ rest.now) }
{
    let Some((argument, size)) = argument(first % 32, rest) else {
        return indefinite_head_of(first);
    };
    match start_of(first) {
        Start::Content => {
            if argument > (rest.len() - size) as u64 {
                return Ahead::Head(1 + size, After::Bytes(argument));
            }
            Ahead::Head(1 + size + argument as usize, After::Nothing)
        }
        Start::Items => Ahead::Head(1 + size, After::Items(argument)),
        Start::Pairs => Ahead::Head(1 + size, pairs_of(argument)),
        Start::Tag => Ahead::Head(1 + size, After::Items(1)),
        _ => Ahead::Unseen,
    }
}

#[inline(always)]
fn indefinite_head_of(first: u8) -> Ahead
    ensures { (among : Among) (rest : List ℕ) → Sees among result (first ∷ rest) }
{
    match start_of(first) {
        Start::Indefinite => Ahead::Head(1, After::Indefinite),
        Start::PairsToBreak => Ahead::Head(1, After::PairsToBreak),
        _ => Ahead::Unseen,
    }
}

/// How many bytes a head has that begins with this byte: one, where the byte alone is rejected, as
/// `f8` is (RFC 8949 section 3.3).
pub(crate) fn head_size(first: u8) -> usize
    ensures some { 1 ≤ result }
    ensures alone { start_of (initial first) ≡ Unsupported → result ≡ 1 }
{
    if let Start::Unsupported = start_of(first) {
        return 1;
    }
    match parse_info(first % 32) {
        Additional::Wide(count) => 1 + count as usize,
        _ => 1,
    }
}
