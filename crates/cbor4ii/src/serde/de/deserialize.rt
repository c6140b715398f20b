//! What reading a typed value is.
ghost use Rattle.std.specs.Prelude.{IfSome};
ghost use Rattle.cbor4ii_items.specs.ShownLeaf.{IsShownLeaf};
ghost use Rattle.cbor4ii.specs.Typed.{input, answer_of, Promise, no_promise, Deserializes};

use crate::serde::de::deserializer::Deserializer;
use crate::serde::de::error::DecodeError;
use cbor4ii_rw::read::Source;
use std::alloc::Global;

/// A type whose values are read. What stands here is the same for every reader, so that a value
/// means the same over all of them. A type that promises nothing of the bytes leaves all of it out.
pub trait Typed: Sized {
    // What is read, how bytes are rejected, and how much of that the type promises.
    ghost promise: { Promise Self } = { no_promise };

    /// Whether `shown_leaf` answers the type's values. A vector then reads as many at a time as one
    /// look shows, and what it reads is the same.
    #[inline(always)]
    fn is_leaf() -> bool {
        false
    }

    /// Whether a value that `shown_leaf` answers may take a step, as one does that may be absent.
    /// An option of such a type takes two, and a vector reads it by itself.
    #[inline(always)]
    fn leaf_takes_step() -> bool {
        false
    }

    /// The value that the shown bytes begin with and how many bytes it has, where it holds no
    /// other, stands whole in them, and takes at most so many steps. A type without a line of its
    /// own answers none.
    #[inline(always)]
    fn shown_leaf(shown: &[u8], steps: u8) -> Option<(Self, usize)>
        ensures { IfSome result (IsShownLeaf promise.format.reads shown.now steps) }
    {
        None
    }
}

/// A type whose values are read from a reader.
pub trait Deserialize<S: Source>: Typed {
    /// Reads one value from the beginning of what `de` has left. `alloc` gives what memory the
    /// value needs.
    ///
    /// Over any lawful reader, also one that does not report its bytes, and whatever the answer is:
    /// the budget is as before, the bytes that are left are an end of those that were there, no
    /// more can come than before, and a reader that is zero-copy stays so. An accepted value took
    /// at least one byte.
    ///
    /// # Errors
    ///
    /// - `Core` of `Read` with the reader's error: the reader failed in the call. A part of the
    ///   value may be taken then. The bytes that are left stay known where the reader remembers
    ///   them, and may be known no more otherwise
    /// - `Core` of `OutOfMemory`: a growth was refused. Only a type that may take memory answers
    ///   it, and a part of the value may be taken then
    /// - all other errors speak of the bytes. `Core` of `DepthOverflow` comes only where the
    ///   reader has a budget
    ///
    /// Of an exact type that needs no borrowed slice, these come only where no value whose
    /// steps fit the budget begins the bytes, and `rejects` of its format says by all of the bytes
    /// which error it is, with which fields, and which bytes are left. The same holds of another
    /// exact type where the reader is zero-copy and has fewer than 2^64 bytes left. Of a type that
    /// reports its errors, `begins` of its format says so over any reader.
    fn deserialize(alloc: Global, de: &mut Deserializer<S>) -> Result<Self, DecodeError<S::Error>>
        ensures { Deserializes Self.promise
            (input S.view de.old) (input S.view de.new) (answer_of result) };
}
