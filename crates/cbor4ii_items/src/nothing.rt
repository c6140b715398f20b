//! No item at all.
ghost use Rattle.std.specs.Prelude.{◌≡◌, [], Ok, true, false};
ghost use Rattle.cbor4ii_items.specs.Nothing.{ReadsNothing, RejectsNothing, nothing_one};
ghost use Rattle.cbor4ii_items.specs.Nothing.{nothing_within, nothing_positive, nothing_alone};
ghost use Rattle.cbor4ii_items.specs.Writing.{WritesAtomically};

use crate::decode::{Decodable, Decode};
use crate::encode::Encode;
use crate::types::Nothing;
use cbor4ii_rw::error::{DecodeError, EncodeError};
use cbor4ii_rw::read::Source;
use cbor4ii_rw::write::Write;
use std::alloc::Global;

impl Decodable for Nothing {
    ghost format = { record {
      reads = ReadsNothing;
      same = λ v w. v ≡ w;
      rejects = RejectsNothing;
      begins = RejectsNothing;
      never_empty = false;
      owned = true;
      takes_memory = false;
      closed = true;
    } };

    fn is_never_empty() -> bool {
        false
    }

    ghost lawful = { record {
      one = nothing_one;
      within = nothing_within;
      positive = nothing_positive;
      alone = λ _. nothing_alone;
    } };
}

/// It takes no byte, and is never rejected.
impl<S: Source> Decode<S> for Nothing {
    #[inline(always)]
    fn decode(alloc: Global, reader: &mut S) -> Result<Nothing, DecodeError<S::Error>> {
        Ok(Nothing)
    }
}

/// No byte, and no push: it never fails, and the writer stays as it was.
impl Encode for Nothing {
    ghost bytes = { λ _. [] };

    fn encode<W: Write>(&self, writer: &mut W) -> Result<(), EncodeError<W::Error>>
        ensures succeeds { result ≡ Ok tt }
        ensures untouched { W.view writer.new ≡ W.view writer.old }
        ensures writes { WritesAtomically W.atomic [] (W.view writer.old) (W.view writer.new)
            result }
    {
        Ok(())
    }
}
