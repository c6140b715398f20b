//! Items that are lent: the bytes of one item, as they stand in the input.
ghost use Rattle.std.specs.Prelude.{◌≡◌, ◌≢◌, ◌≤◌, ℕ, List, [], length, take, false, IfOk};
ghost use Rattle.std.specs.Prelude.{IfErr};
ghost use Rattle.cbor4ii_rw.specs.View.{BeginsAt};
ghost use Rattle.cbor4ii_rw.specs.Long.{FillsLong};
ghost use Rattle.cbor4ii_rw.specs.Reader.{KeepsAllButBudget};
ghost use Rattle.cbor4ii_tree.specs.Calls.Raw.{raw_format, Unmoved, RejectsOnPrefix};
ghost use Rattle.cbor4ii_tree.specs.Calls.Raw.{TakesItem, RejectsAsSkipping, LacksPrefix, most};
ghost use Rattle.cbor4ii_tree.specs.Calls.Raw.{SkipsPrefix, RejectsPrefix, Captures};
ghost use Rattle.cbor4ii_items.specs.Decoding.{IsExact, Decodes};

use crate::bytes_ahead::Lent;
use crate::skip::items::skip_item;
use cbor4ii_rw::error::DecodeError;
use cbor4ii_rw::read::Source;
use std::alloc::Global;

#[derive(Debug)]
pub(crate) enum NoPrefix<E> {
    Read(E),
    /// The bytes do not live as long as the input.
    Short,
}

/// Bytes that a reader lends, of which an item at their beginning is kept.
///
/// A function whose signature holds a `'static` name, as each error's, cannot fill a reader that
/// names a lifetime. So what fills is a trait of what is lent, and a prefix that is not lent is
/// rejected without its name.
pub(crate) trait LendRaw<S: Source>: Sized {
    ghost content: { Self → List ℕ };

    ghost place: { Self → ℕ × ℕ };

    /// All that one fill lends. The reader's position stays. Where there are any bytes, they begin
    /// where the bytes to come do.
    fn lend_prefix(reader: &mut S) -> Result<Self, NoPrefix<S::Error>>
        ensures lent { IfOk result
            (λ v. FillsLong most (content v) (S.view reader.old) (S.view reader.new)) }
        ensures place { IfOk result
            (λ v. content v ≢ [] → BeginsAt (place v) (S.view reader.old)) }
        ensures lacks { IfErr result (LacksPrefix (S.view reader.old) (S.view reader.new)) };

    fn prefix(&self) -> &[u8]
        ensures { result.now ≡ content self.now };

    /// The first `size` bytes alone.
    fn cut(self, size: usize) -> Self
        requires { size ≤ length (content self) }
        ensures content { content result ≡ take size (content self) }
        ensures place { place result ≡ place self };

    fn discard(self);
}

pub(crate) fn take_raw<T: LendRaw<S>, S: Source>(
    alloc: Global,
    reader: &mut S,
) -> Result<T, DecodeError<S::Error>>
    ensures decodes { Decodes (raw_format T.content)
        (S.view reader.old) (S.view reader.new) result }
    ensures whole { IsExact false (S.view reader.old) →
        TakesItem T.content (S.view reader.old) (S.view reader.new) result }
    ensures exact { IsExact false (S.view reader.old) →
        RejectsAsSkipping (S.view reader.old) (S.view reader.new) result }
    ensures unmoved { IfErr result (Unmoved (S.view reader.old) (S.view reader.new)) }
    ensures errs { RejectsOnPrefix (S.view reader.old) result }
    ensures place { IfOk result (λ v. BeginsAt (T.place v) (S.view reader.old)) }
{
    capture(reader)
}

/// As `take_raw`, in fewer clauses.
pub(crate) fn capture<T: LendRaw<S>, S: Source>(reader: &mut S) -> Result<T, DecodeError<S::Error>>
    ensures captures { Captures T.content (S.view reader.old) (S.view reader.new) result }
    ensures place { IfOk result (λ v. BeginsAt (T.place v) (S.view reader.old)) }
{
    match T::lend_prefix(reader) {
        Ok(lent) => match skip_lent(lent.prefix(), reader) {
            Ok(size) => {
                reader.advance(size);
                Ok(lent.cut(size))
            }
            Err(error) => {
                lent.discard();
                Err(error)
            }
        },
        Err(NoPrefix::Short) => Err(DecodeError::RequireBorrowed { name: "raw-value" }),
        Err(NoPrefix::Read(error)) => Err(DecodeError::Read(error)),
    }
}

/// How many of the shown bytes the item at their beginning has, skipped under the reader's steps.
pub(crate) fn skip_lent<S: Source>(
    shown: &[u8],
    reader: &mut S,
) -> Result<usize, DecodeError<S::Error>>
    ensures skips { IfOk result (SkipsPrefix shown.now (S.view reader.old).budget) }
    ensures rejects { IfErr result (RejectsPrefix shown.now (S.view reader.old).budget) }
    ensures stays { KeepsAllButBudget (S.view reader.old) (S.view reader.new) }
    ensures budget { (S.view reader.new).budget ≡ (S.view reader.old).budget }
{
    let mut lent = Lent { rest: shown };
    match skip_item(&mut lent, reader) {
        Ok(()) => Ok(shown.len() - lent.rest.len()),
        Err(error) => Err(error),
    }
}
