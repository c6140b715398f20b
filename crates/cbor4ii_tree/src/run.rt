//! Runs: values that hold no other, as many as one look shows, put after the items of an array or
//! the keys and values of a map.
ghost use Rattle.std.specs.Prelude.{◌≡◌, ◌<◌, ◌≤◌, ◌*◌, ◌++◌, ◌∷◌, [], ℕ, List, length, true};
ghost use Rattle.std.specs.Prelude.{false, OnSome, IfNone, IfOk, OnErr, None};
ghost use Rattle.cbor4ii_rw.specs.Reader.{ReaderFails};
ghost use Rattle.cbor4ii_tree.specs.Inner.BytesAhead.{Offers};
ghost use Rattle.cbor4ii_tree.specs.Inner.LeafRuns.{pair_values, PutsRun, TakesRun};
ghost use Rattle.cbor4ii_tree.specs.declared.value.Value.{Value};

use crate::accepted::Encodings;
use crate::leaf::{Next, ValueSeen, leaf_of, undecided};
use crate::slot::{leave, leave_end};
use crate::value::Value;
use cbor4ii_rw::ask::look;
use cbor4ii_rw::error::DecodeError;
use cbor4ii_rw::read::Source;
use std::alloc::Global;

pub(crate) enum RunSeen {
    /// Values, in so many bytes.
    Whole(usize),
    /// One that is not decided here, after values in so many bytes.
    Before(Next, usize),
    /// None: the value that comes next is not decided here.
    Begins(Next),
    /// Values, and then one for which there was no memory, in so many bytes.
    NoMemory(usize),
    End,
}

/// What values are put after: the items of an array, or the pairs of a map.
pub(crate) trait Parts {
    ghost flat: { Self → List Value };

    // How many values a part has.
    ghost width: { ℕ };

    fn lacks(&self, most: usize) -> bool
        ensures less { result ≡ true → length (flat self.now) < width * most }
        ensures full { result ≡ false → width * most ≤ length (flat self.now) };

    /// Puts a value after those that there are. None where memory is refused.
    fn put(&mut self, value: Value) -> Option<()>
        ensures { OnSome result (flat self.new ≡ flat self.old ++ value ∷ []) };
}

impl Parts for Vec<Value> {
    ghost flat = { λ v. v.items };

    ghost width = { 1 };

    #[inline(always)]
    fn lacks(&self, most: usize) -> bool {
        self.len() < most
    }

    #[inline(always)]
    fn put(&mut self, value: Value) -> Option<()> {
        push(self, value)
    }
}

/// The pairs of a map that is read: those that are whole, and a key whose value is to come.
#[derive(Drop)]
pub(crate) struct Pairs {
    pub(crate) pairs: Vec<(Value, Value)>,
    pub(crate) key: Option<Value>,
}

impl Parts for Pairs {
    ghost flat = { pair_values };

    ghost width = { 2 };

    #[inline(always)]
    fn lacks(&self, most: usize) -> bool {
        self.pairs.len() < most
    }

    #[inline(always)]
    fn put(&mut self, value: Value) -> Option<()> {
        if self.key.is_none() {
            self.key = Some(value);
            return Some(());
        }
        let key = self.key.take().unwrap();
        push(&mut self.pairs, (key, value))
    }
}

#[inline(always)]
fn push<T: Drop>(parts: &mut Vec<T>, part: T) -> Option<()>
    ensures { OnSome result (parts.new.items ≡ parts.old.items ++ part ∷ []) }
{
    parts.push(part).ok()
}

#[inline(always)]
pub(crate) fn put_value<P: Parts, E: Drop>(
    parts: &mut P,
    value: Value,
    failure: &mut Option<DecodeError<E>>,
) -> Option<()>
    ensures kept { OnSome result (P.flat parts.new ≡ P.flat parts.old ++ value ∷ []) }
    ensures memory { IfNone result (failure.new ≡ None) }
{
    match parts.put(value) {
        Some(()) => Some(()),
        None => {
            *failure = None;
            None
        }
    }
}

/// Takes the values that come next, as long as they hold no other and one look shows them whole, in
/// an encoding that is read. It puts them after `parts`, up to `most` whole parts, of which one at
/// least is missing, and answers what the look has shown of a value that it leaves undecided. Where
/// the look shows no byte, the missing value is rejected.
#[inline(always)]
pub(crate) fn take_run<S: Source, A: Encodings, P: Parts>(
    alloc: Global,
    reader: &mut S,
    most: usize,
    parts: &mut P,
    failure: &mut Option<DecodeError<S::Error>>,
) -> Option<Option<Next>>
    requires { length (P.flat parts.old) < P.width * most }
    ensures { TakesRun A.canonical (P.width * most) (P.flat parts.old) (P.flat parts.new)
        (S.view reader.old) (S.view reader.new) result failure.new }
{
    match glance_run::<S, A, P>(alloc, reader, most, parts) {
        Ok(RunSeen::Whole(size)) => {
            reader.advance(size);
            Some(None)
        }
        Ok(RunSeen::Before(next, size)) => {
            reader.advance(size);
            Some(Some(next))
        }
        Ok(RunSeen::Begins(next)) => Some(Some(next)),
        Ok(RunSeen::NoMemory(size)) => {
            reader.advance(size);
            *failure = None;
            None
        }
        Ok(RunSeen::End) => {
            leave_end("value", failure);
            None
        }
        Err(error) => {
            leave(DecodeError::Read(error), failure);
            None
        }
    }
}

/// As many bytes are looked at as the reader lets a look ask for.
#[inline(always)]
fn glance_run<S: Source, A: Encodings, P: Parts>(
    alloc: Global,
    reader: &mut S,
    most: usize,
    parts: &mut P,
) -> Result<RunSeen, S::Error>
    requires { length (P.flat parts.old) < P.width * most }
    ensures offers { IfOk result (λ ran. Offers 1
        (PutsRun (A.canonical ≡ true) (P.width * most) (P.flat parts.old) (P.flat parts.new) ran)
        (S.view reader.old) (S.view reader.new)) }
    ensures breaks { OnErr result (ReaderFails (S.view reader.old) (S.view reader.new)) }
{
    let mut failure = None;
    let want = reader.window();
    match look(reader, want, &mut failure) {
        Some(shown) => Ok(run_of::<A, P>(alloc, shown, most, parts)),
        None => Err(failure.unwrap()),
    }
}

#[inline(always)]
fn run_of<A: Encodings, P: Parts>(
    alloc: Global,
    shown: &[u8],
    most: usize,
    parts: &mut P,
) -> RunSeen
    requires { length (P.flat parts.old) < P.width * most }
    ensures { PutsRun (A.canonical ≡ true) (P.width * most) (P.flat parts.old) (P.flat parts.new)
        result shown.now }
{
    let [first, trailing @ ..] = shown else {
        return RunSeen::End;
    };
    match undecided::<A>(*first, trailing) {
        Some(next) => RunSeen::Begins(next),
        None => put_run::<A, P>(alloc, shown, most, parts),
    }
}

/// One value stands there at least. It stays out of line, so that each level of arrays and maps
/// takes little stack.
#[inline(never)]
fn put_run<A: Encodings, P: Parts>(
    alloc: Global,
    shown: &[u8],
    most: usize,
    parts: &mut P,
) -> RunSeen
    requires some { 1 ≤ length shown.now }
    requires lacks { length (P.flat parts.old) < P.width * most }
    ensures { PutsRun (A.canonical ≡ true) (P.width * most) (P.flat parts.old) (P.flat parts.new)
        result shown.now }
{
    let mut size = 0;
    while parts.lacks(most) {
        match leaf_of::<A>(alloc, &shown[size..]) {
            ValueSeen::Whole(value, bytes) => {
                size += bytes;
                if parts.put(value).is_none() {
                    return RunSeen::NoMemory(size);
                }
            }
            ValueSeen::NoMemory(bytes) => return RunSeen::NoMemory(size + bytes),
            ValueSeen::End => return RunSeen::Whole(size),
            ValueSeen::Begins(next) if size == 0 => return RunSeen::Begins(next),
            ValueSeen::Begins(next) => return RunSeen::Before(next, size),
        }
    }
    RunSeen::Whole(size)
}
