//! Steps: an item where none is left, and many that are given back.
ghost use Rattle.std.specs.Prelude.{◌≡◌, Some};
ghost use Rattle.cbor4ii_rw.specs.Reader.{KeepsAllButBudget};
ghost use Rattle.cbor4ii_tree.specs.Basis.Cost.{Budget};
ghost use Rattle.cbor4ii_tree.specs.Inner.Deeper.{Deeper};
ghost use Rattle.cbor4ii_tree.specs.Inner.Does.{DoesApart, value_or_error};
ghost use Rattle.cbor4ii_tree.specs.Inner.Ahead.{Awaits, CountsNone, SkipsSome, RejectsSome};

use crate::ahead::Among;
use crate::bytes_ahead::BytesAhead;
use crate::slot::{leave, part};
use crate::unseen::ends;
use cbor4ii_rw::error::DecodeError;
use cbor4ii_rw::read::Source;

/// Where no step is left a break alone may come.
#[cold]
#[inline(never)]
pub(crate) fn skip_without_step<S: Source, F: BytesAhead<S>>(
    prefix: &mut F,
    reader: &mut S,
    among: Among,
    failure: &mut Option<DecodeError<S::Error>>,
) -> Option<u64>
    requires awaits { Awaits among }
    requires no_step { (F.view prefix.old reader.old).budget ≡ Some 0 }
    ensures { DoesApart (λ _. SkipsSome among (Some 0)) (λ _. RejectsSome among (Some 0))
        (CountsNone among) F.apart (S.view reader.old) (S.view reader.new)
        (F.view prefix.old reader.old) (F.view prefix.new reader.new)
        (value_or_error result failure.new) }
{
    let ended = match part(ends(prefix, reader, among), failure) {
        Some(ended) => ended,
        None => return None,
    };
    if ended {
        return Some(0);
    }
    leave(
        DecodeError::DepthOverflow {
            name: "ignored-any",
        },
        failure,
    );
    None
}

#[inline(always)]
pub(crate) fn give_back<S: Source>(reader: &mut S, depth: u64)
    ensures budget { (outer : Budget) → Deeper depth outer (S.view reader.old).budget →
        (S.view reader.new).budget ≡ outer }
    ensures others { KeepsAllButBudget (S.view reader.old) (S.view reader.new) }
{
    let mut left = depth;
    while left > 0 {
        reader.step_out();
        left -= 1;
    }
}
