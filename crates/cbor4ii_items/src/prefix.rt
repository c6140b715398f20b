//! Heads that stand whole in the prefix that a reader shows: one look, and one advance. Where the
//! reader lets a look ask for fewer bytes than a head may have, a longer one takes a second look.
ghost use Rattle.std.specs.Prelude.{◌≡◌, ◌+◌, ◌≤◌, ◌<◌, ◌^◌, ℕ, List, length, IfOk, IfSome, OnSome};
ghost use Rattle.std.specs.Prelude.{None};
ghost use Rattle.cbor4ii_items.specs.Prefix.{SeesHead, IsArgument, RunsOrStays, TakesSeen};
ghost use Rattle.cbor4ii_items.specs.Numbers.{ReadsArgument};
ghost use Rattle.cbor4ii_items.specs.ReadHead.{head_at, argument_size};
ghost use Rattle.cbor4ii_items.specs.ShownLeaf.{IsShownLeaf};

use crate::additional::{allowed, following};
use cbor4ii_rw::ask::{at_most, look};
use cbor4ii_rw::read::Source;

/// A head has at most so many bytes.
const LONGEST: usize = 9;

/// What a reader shows of a head, or of a float.
#[derive(Clone, Copy)]
pub(crate) enum Shown {
    /// All of it: its argument or its bits, and how many bytes it has.
    Whole(u64, usize),
    /// Fewer than these bytes, which it has.
    Cut(usize),
    /// None that is read so.
    Other,
}

/// Takes a head of this major type, with an argument of at most `width` bytes, that stands whole in
/// the prefix that is shown. Otherwise it answers none, and takes nothing.
#[inline(always)]
pub(crate) fn take_head<S: Source>(
    reader: &mut S,
    major: u8,
    width: u8,
) -> Result<Option<u64>, S::Error>
    ensures runs { (name : List ℕ) → RunsOrStays (head_at name major width)
        (S.view reader.old) (S.view reader.new) result }
    ensures fits { 1 ≤ width → IfOk result (λ found. IfSome found (λ v. v < 256 ^ width)) }
    ensures progress { IfOk result (λ found.
        OnSome found ((S.view reader.new).bound + 1 ≤ (S.view reader.old).bound)) }
{
    let want = at_most(reader, LONGEST);
    match take_shown_head(reader, major, width, want) {
        Ok(Shown::Whole(argument, _)) => Ok(Some(argument)),
        Ok(Shown::Cut(size)) if want < size => take_longer_head(reader, major, width, size),
        Ok(Shown::Cut(_)) => Ok(None),
        Ok(Shown::Other) => Ok(None),
        Err(error) => Err(error),
    }
}

#[cold]
#[inline(never)]
fn take_longer_head<S: Source>(
    reader: &mut S,
    major: u8,
    width: u8,
    size: usize,
) -> Result<Option<u64>, S::Error>
    ensures runs { (name : List ℕ) → RunsOrStays (head_at name major width)
        (S.view reader.old) (S.view reader.new) result }
    ensures fits { 1 ≤ width → IfOk result (λ found. IfSome found (λ v. v < 256 ^ width)) }
    ensures progress { IfOk result (λ found.
        OnSome found ((S.view reader.new).bound + 1 ≤ (S.view reader.old).bound)) }
{
    match take_shown_head(reader, major, width, size) {
        Ok(Shown::Whole(argument, _)) => Ok(Some(argument)),
        Ok(Shown::Cut(_)) => Ok(None),
        Ok(Shown::Other) => Ok(None),
        Err(error) => Err(error),
    }
}

/// Looks at `want` bytes, and takes a head that stands whole in what is shown.
#[inline(always)]
fn take_shown_head<S: Source>(
    reader: &mut S,
    major: u8,
    width: u8,
    want: usize,
) -> Result<Shown, S::Error>
    ensures { TakesSeen (λ name. head_at name major width) (λ v. 1 ≤ width → v < 256 ^ width)
        (S.view reader.old) (S.view reader.new) result }
{
    let mut failure = None;
    let head = match look(reader, want, &mut failure) {
        Some(shown) => whole_head(shown, major, width),
        None => return Err(failure.unwrap()),
    };
    match head {
        Shown::Whole(argument, size) => {
            reader.advance(size);
            Ok(Shown::Whole(argument, size))
        }
        Shown::Cut(size) => Ok(Shown::Cut(size)),
        Shown::Other => Ok(Shown::Other),
    }
}

#[inline(always)]
fn whole_head(shown: &[u8], major: u8, width: u8) -> Shown
    ensures { SeesHead major width shown.now result }
{
    let [first, rest @ ..] = shown else {
        return Shown::Other;
    };
    if *first / 32 != major {
        return Shown::Other;
    }
    let info = *first % 32;
    if info < 24 {
        return Shown::Whole(info as u64, 1);
    }
    if !allowed(width, info) {
        return Shown::Other;
    }
    match shown_argument(info, rest) {
        Some((argument, size)) => Shown::Whole(argument, 1 + size),
        None => Shown::Cut(1 + following(info) as usize),
    }
}

/// The argument of a head that stands whole in `shown`, and how many bytes the head has.
#[inline(always)]
pub(crate) fn seen_head(shown: &[u8], major: u8, width: u8) -> Option<(u64, usize)>
    ensures stands { IfSome result (IsShownLeaf (ReadsArgument major width) shown.now 0) }
    ensures fits { 1 ≤ width → IfSome result (λ found. found.0 < 256 ^ width) }
{
    match whole_head(shown, major, width) {
        Shown::Whole(argument, size) => Some((argument, size)),
        Shown::Cut(_) => None,
        Shown::Other => None,
    }
}

/// The argument that follows a first byte with this additional information, and in how many bytes.
#[inline(always)]
pub(crate) fn shown_argument(info: u8, rest: &[u8]) -> Option<(u64, usize)>
    requires from { 24 ≤ info }
    requires to { info < 28 }
    ensures some { IfSome result (λ found. IsArgument info rest.now found.0) }
    ensures size { IfSome result (λ found. found.1 ≡ argument_size info) }
    ensures none { result ≡ None → length rest.now < argument_size info }
{
    match (info, rest) {
        (24, [a, ..]) => Some((*a as u64, 1)),
        (25, [a, b, ..]) => Some((u16::from_be_bytes([*a, *b]) as u64, 2)),
        (26, [a, b, c, d, ..]) => Some((u32::from_be_bytes([*a, *b, *c, *d]) as u64, 4)),
        (27, [a, b, c, d, e, f, g, h, ..]) => {
            Some((u64::from_be_bytes([*a, *b, *c, *d, *e, *f, *g, *h]), 8))
        }
        _ => None,
    }
}
