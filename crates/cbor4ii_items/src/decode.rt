//! What reading an item is.
ghost use Rattle.std.specs.Prelude.{◌≡◌};
ghost use Rattle.cbor4ii_items.specs.Decoding.{Format, IsLawful, Decodes};

use cbor4ii_rw::error::DecodeError;
use cbor4ii_rw::read::Source;
use std::alloc::Global;

/// A type whose values are encoded in bytes. What stands here is the same for every reader, so
/// that a value means the same over all of them.
///
/// Its laws are asked of every implementation: one input is read in one way, what is read stands
/// in the input, a type of which no encoding is empty reads a byte, and where the type is closed,
/// an encoding is read whatever follows it.
pub trait Decodable: Sized {
    // What is read, and how bytes are rejected.
    ghost format: { Format Self };

    /// Whether an accepted value always reads a byte.
    fn is_never_empty() -> bool
        ensures { result ≡ format.never_empty };

    // A law: one input is read in one way, and what is read stands in it. Where no encoding is
    // empty a byte is read, and where the type is closed an encoding is read whatever follows.
    ghost lawful: { IsLawful format };
}

/// A type whose values are read from a reader.
pub trait Decode<S: Source>: Decodable {
    /// Reads one item from the beginning of what `reader` has left. `alloc` gives what memory the
    /// value needs.
    ///
    /// Over any lawful reader, also one that does not report its bytes, and whatever the answer is:
    /// the budget is as before, the bytes that are left are an end of those that were there, no
    /// more can come than before, and a reader that is zero-copy stays so.
    ///
    /// # Errors
    ///
    /// - `Read` with the reader's error: the reader failed in the call. A part of the item may be
    ///   taken then. The bytes that are left stay known where the reader remembers them, and may be
    ///   known no more otherwise
    /// - `OutOfMemory`: a growth was refused. Only a type that may take memory answers it, and a
    ///   part of the item may be taken then
    /// - all other errors speak of the bytes. `DepthOverflow` comes only where the reader has a
    ///   budget
    ///
    /// Of a type that needs no borrowed slice, these come only where no encoding of the type whose
    /// steps fit the budget begins the bytes. The same holds of another type where the reader is
    /// zero-copy and has fewer than 2^64 bytes left. Which error it is then, with which fields, and
    /// which bytes are left, is what the type's `rejects` says.
    fn decode(alloc: Global, reader: &mut S) -> Result<Self, DecodeError<S::Error>>
        ensures { Decodes Self.format (S.view reader.old) (S.view reader.new) result };
}

/// The beginning of an array: the number of its items, or none where its length is indefinite and
/// items follow up to a break (RFC 8949 section 3.2.2). It is there for its name: `Array::len`
/// answers what it holds.
#[derive(Clone, Copy, Debug, PartialEq, Eq)]
pub struct ArrayStart(pub Option<usize>);
