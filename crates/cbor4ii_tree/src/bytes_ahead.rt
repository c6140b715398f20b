//! Where skipped bytes come from: a reader, or bytes that it lent.
//!
//! An item that is kept as its bytes is skipped inside the bytes that one `fill` lends, under the
//! steps of the reader that lent them. So what skips is written over both.
ghost use Rattle.std.specs.Prelude.{◌≡◌, ◌≤◌, Bool, IsTrue, IfOk, OnErr, true, false};
ghost use Rattle.cbor4ii_rw.specs.View.{View};
ghost use Rattle.cbor4ii_rw.specs.Reader.{ReaderFails, Advances, KeepsAllButBudget};
ghost use Rattle.cbor4ii_tree.specs.Inner.BytesAhead.{lent_view, Offers, Ready};
ghost use Rattle.cbor4ii_tree.specs.Inner.Ahead.{Sees};
ghost use Rattle.std.proofs.Common.{refl, rules};

use crate::ahead::{Ahead, Among, ahead_of, head_size};
use cbor4ii_rw::ask::look;
use cbor4ii_rw::read::Source;

/// A look that decides what comes next asks for at most so many bytes.
const WINDOW: usize = 256;

/// Bytes that are looked at before they are taken, under the steps of a reader.
pub(crate) trait BytesAhead<S: Source>: Sized {
    // What is still to come, with the reader's budget.
    ghost view: { Self → S → View };

    // The bytes are not the reader's own.
    ghost apart: { Bool };

    /// How many bytes may be taken at once, at most `want`, and the first of them; none at the end.
    fn ready(&mut self, reader: &mut S, want: usize) -> Result<(usize, u8), S::Error>
        ensures offers { IfOk result (λ found. Offers want (Ready want found)
            (view self.old reader.old) (view self.new reader.new)) }
        ensures breaks { OnErr result
            (ReaderFails (view self.old reader.old) (view self.new reader.new)) }
        ensures stays { IsTrue apart → S.view reader.new ≡ S.view reader.old };

    fn ahead(&mut self, reader: &mut S, among: Among) -> Result<Ahead, S::Error>
        ensures offers { IfOk result (λ seen. Offers 1 (Sees among seen)
            (view self.old reader.old) (view self.new reader.new)) }
        ensures breaks { OnErr result
            (ReaderFails (view self.old reader.old) (view self.new reader.new)) }
        ensures stays { IsTrue apart → S.view reader.new ≡ S.view reader.old };

    fn advance(&mut self, reader: &mut S, count: usize)
        requires { count ≤ (view self.old reader.old).advanceable }
        ensures takes { Advances count (view self.old reader.old) (view self.new reader.new) }
        ensures stays { IsTrue apart → S.view reader.new ≡ S.view reader.old };

    ghost same_budget: { (prefix : Self) (reader : S) →
        (view prefix reader).budget ≡ (S.view reader).budget };

    ghost moved: { (prefix : Self) (old new : S) →
        KeepsAllButBudget (S.view old) (S.view new) →
        KeepsAllButBudget (view prefix old) (view prefix new) };
}

#[derive(Drop)]
pub(crate) struct Own;

impl<S: Source> BytesAhead<S> for Own {
    ghost view = { λ own reader. S.view reader };

    ghost apart = { false };

    fn ready(&mut self, reader: &mut S, want: usize) -> Result<(usize, u8), S::Error> {
        let mut failure = None;
        match look(reader, want, &mut failure) {
            Some(shown) => Ok(shown_bytes(shown, want)),
            None => Err(failure.unwrap()),
        }
    }

    #[inline(always)]
    fn ahead(&mut self, reader: &mut S, among: Among) -> Result<Ahead, S::Error> {
        if reader.window() < WINDOW {
            return see_narrowly(reader, among);
        }
        let mut failure = None;
        match look(reader, WINDOW, &mut failure) {
            Some(shown) => Ok(ahead_of(shown, among)),
            None => Err(failure.unwrap()),
        }
    }

    #[inline(always)]
    fn advance(&mut self, reader: &mut S, count: usize) {
        reader.advance(count);
    }

    ghost same_budget = { λ own reader. refl };

    ghost moved = { λ own old new kept. kept };
}

/// As `see`, where a look may ask for fewer bytes: for all that a head has, at least.
#[cold]
#[inline(never)]
fn see_narrowly<S: Source>(reader: &mut S, among: Among) -> Result<Ahead, S::Error>
    ensures offers { IfOk result (λ seen. Offers 1 (Sees among seen)
        (S.view reader.old) (S.view reader.new)) }
    ensures breaks { OnErr result (ReaderFails (S.view reader.old) (S.view reader.new)) }
{
    let want = reader.window();
    match see_with_size(reader, among, want) {
        Ok((Ahead::Unseen, size)) if want < size => see(reader, among, size),
        Ok((seen, _)) => Ok(seen),
        Err(error) => Err(error),
    }
}

fn see<S: Source>(reader: &mut S, among: Among, want: usize) -> Result<Ahead, S::Error>
    requires { 1 ≤ want }
    ensures offers { IfOk result (λ seen. Offers 1 (Sees among seen)
        (S.view reader.old) (S.view reader.new)) }
    ensures breaks { OnErr result (ReaderFails (S.view reader.old) (S.view reader.new)) }
{
    match see_with_size(reader, among, want) {
        Ok((seen, _)) => Ok(seen),
        Err(error) => Err(error),
    }
}

/// As `see`, and how many bytes the head has that comes first.
fn see_with_size<S: Source>(
    reader: &mut S,
    among: Among,
    want: usize,
) -> Result<(Ahead, usize), S::Error>
    requires { 1 ≤ want }
    ensures offers { IfOk result (λ seen. Offers 1 (Sees among seen.0)
        (S.view reader.old) (S.view reader.new)) }
    ensures breaks { OnErr result (ReaderFails (S.view reader.old) (S.view reader.new)) }
    ensures some { IfOk result (λ seen. 1 ≤ seen.1) }
{
    let mut failure = None;
    match look(reader, want, &mut failure) {
        Some(shown) => Ok((ahead_of(shown, among), head_size(shown_bytes(shown, 1).1))),
        None => Err(failure.unwrap()),
    }
}

#[derive(Drop)]
pub(crate) struct Lent<'a> {
    pub(crate) rest: &'a [u8],
}

impl<S: Source> BytesAhead<S> for Lent<'_> {
    ghost view = { λ lent reader. lent_view lent.rest.now (S.view reader) };

    ghost apart = { true };

    fn ready(&mut self, reader: &mut S, want: usize) -> Result<(usize, u8), S::Error> {
        Ok(shown_bytes(self.rest, want))
    }

    #[inline(always)]
    fn ahead(&mut self, reader: &mut S, among: Among) -> Result<Ahead, S::Error> {
        Ok(ahead_of(self.rest, among))
    }

    #[inline(always)]
    fn advance(&mut self, reader: &mut S, count: usize) {
        self.rest = &self.rest[count..];
    }

    ghost same_budget = { λ lent reader. refl };

    ghost moved = { λ lent old new kept. Prim.search rules };
}

fn shown_bytes(shown: &[u8], want: usize) -> (usize, u8)
    ensures { Ready want result shown.now }
{
    match shown {
        [first, ..] => (want.min(shown.len()), *first),
        [] => (0, 0),
    }
}
