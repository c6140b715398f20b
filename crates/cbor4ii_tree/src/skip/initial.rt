//! What an item begins with, by its first byte (RFC 8949 section 3), and what is left of it after
//! its head.
ghost use Rattle.std.specs.Prelude.{◌≡◌};
ghost use Rattle.cbor4ii_items.specs.Initial.{initial, info_of};
ghost use Rattle.cbor4ii_tree.specs.Inner.Skipping.{additional_of, start_of, items_of_pairs};

use cbor4ii_items::{major, marker};

#[derive(Clone, Copy)]
pub(crate) enum Additional {
    /// The argument follows in so many bytes.
    Wide(u8),
    Indefinite,
    /// 28 to 30.
    Reserved,
}

#[derive(Clone, Copy)]
pub(crate) enum Start {
    /// So many bytes follow.
    Bytes(u8),
    /// A length, and as many bytes.
    Content,
    /// A count of items, and these.
    Items,
    /// A count of pairs, and these.
    Pairs,
    /// A number, and an item.
    Tag,
    /// Items up to a break.
    Indefinite,
    /// Pairs up to a break.
    PairsToBreak,
    /// No item; the byte stays.
    Stays,
    /// No item; the byte is taken.
    Taken,
    /// No tag; the byte is taken.
    NoTag,
    /// No item that is read; the byte stays.
    Unsupported,
}

#[derive(Clone, Copy)]
pub(crate) enum After {
    Nothing,
    /// So many bytes.
    Bytes(u64),
    /// So many items.
    Items(u64),
    /// Twice as many items, and no number counts these.
    Twice(u64),
    /// Items up to a break.
    Indefinite,
    /// Pairs up to a break.
    PairsToBreak,
}

#[inline(always)]
#[tactic(auto, unfolding(cbor4ii_items::specs::Initial::initial))]
pub(crate) fn start_of(first: u8) -> Start
    ensures { result ≡ start_of (initial first) }
{
    let info = parse_info(first % 32);
    match first / 32 {
        major::UNSIGNED | major::NEGATIVE => match info {
            Additional::Wide(count) => Start::Bytes(count),
            _ => Start::Stays,
        },
        major::BYTES | major::STRING => match info {
            Additional::Wide(_) => Start::Content,
            Additional::Indefinite => Start::Indefinite,
            Additional::Reserved => Start::Taken,
        },
        major::ARRAY => match info {
            Additional::Wide(_) => Start::Items,
            Additional::Indefinite => Start::Indefinite,
            Additional::Reserved => Start::Taken,
        },
        major::MAP => match info {
            Additional::Wide(_) => Start::Pairs,
            Additional::Indefinite => Start::PairsToBreak,
            Additional::Reserved => Start::Taken,
        },
        major::TAG => match info {
            Additional::Wide(_) => Start::Tag,
            _ => Start::NoTag,
        },
        _ => match first % 32 {
            20 | 21 | 22 | 23 => Start::Bytes(0),
            25 => Start::Bytes(2),
            26 => Start::Bytes(4),
            27 => Start::Bytes(8),
            _ => {
                prove!(first / 32 == 7);
                Start::Unsupported
            }
        },
    }
}

/// Their keys and values in turn.
#[inline(always)]
pub(crate) fn pairs_of(count: u64) -> After
    ensures { result ≡ items_of_pairs count }
{
    if count < 1 << 63 {
        return After::Items(2 * count);
    }
    After::Twice(count)
}

#[inline(always)]
pub(crate) fn parse_info(info: u8) -> Additional
    ensures { result ≡ additional_of (info_of info) }
{
    match info {
        24 => Additional::Wide(1),
        25 => Additional::Wide(2),
        26 => Additional::Wide(4),
        27 => Additional::Wide(8),
        marker::START => Additional::Indefinite,
        _ => {
            if info < 24 {
                Additional::Wide(0)
            } else {
                Additional::Reserved
            }
        }
    }
}
