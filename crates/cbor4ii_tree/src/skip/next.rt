//! What comes next, taken.
ghost use Rattle.std.specs.Prelude.{◌≡◌, IsTrue, codes};
ghost use Rattle.cbor4ii_tree.specs.Inner.Does.{Does, DoesApart, Spares, value_or_error};
ghost use Rattle.cbor4ii_tree.specs.Inner.Does.{done_or_error};
ghost use Rattle.cbor4ii_tree.specs.Inner.Ahead.{TakesAhead, Passes, NeverRejects};
ghost use Rattle.cbor4ii_tree.specs.Inner.HeadParts.{DropsBytes};
ghost use Rattle.cbor4ii_tree.specs.Calls.Rejections.{Missing};

use crate::ahead::{Ahead, Among};
use crate::bytes_ahead::BytesAhead;
use crate::slot::{leave, part};
use crate::unseen::skip_bytes;
use cbor4ii_rw::error::DecodeError;
use cbor4ii_rw::read::Source;

/// Takes what comes next where one look decides it, by one advance.
#[inline(always)]
pub(crate) fn take_ahead<S: Source, F: BytesAhead<S>>(
    prefix: &mut F,
    reader: &mut S,
    among: Among,
    failure: &mut Option<DecodeError<S::Error>>,
) -> Option<Ahead>
    ensures { DoesApart (TakesAhead among) (λ _. NeverRejects) (Passes among)
        F.apart (S.view reader.old) (S.view reader.new) (F.view prefix.old reader.old)
        (F.view prefix.new reader.new) (value_or_error result failure.new) }
{
    match prefix.ahead(reader, among) {
        Ok(Ahead::Run(count, size)) => {
            prefix.advance(reader, size);
            Some(Ahead::Run(count, size))
        }
        Ok(Ahead::Head(size, trailing)) => {
            prefix.advance(reader, size);
            Some(Ahead::Head(size, trailing))
        }
        Ok(Ahead::Break) => {
            prefix.advance(reader, 1);
            Some(Ahead::Break)
        }
        Ok(Ahead::Unseen) => Some(Ahead::Unseen),
        Err(error) => {
            leave(DecodeError::Read(error), failure);
            None
        }
    }
}

#[inline(never)]
pub(crate) fn skip_content<S: Source, F: BytesAhead<S>>(
    prefix: &mut F,
    reader: &mut S,
    count: u64,
    failure: &mut Option<DecodeError<S::Error>>,
) -> bool
    ensures does { Does (λ xs _ ys. DropsBytes count xs ys) (Missing (codes "ignored-any") count)
        (F.view prefix.old reader.old) (F.view prefix.new reader.new)
        (done_or_error result failure.new) }
    ensures spares { Spares (done_or_error result failure.new) }
    ensures stays { IsTrue F.apart → S.view reader.new ≡ S.view reader.old }
{
    match part(skip_bytes(prefix, reader, count), failure) {
        Some(()) => true,
        None => false,
    }
}
