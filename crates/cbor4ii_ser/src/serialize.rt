//! What writing a typed value is.
ghost use Rattle.std.specs.Prelude.{◌≡◌, IfSome};
ghost use Rattle.cbor4ii_ser.specs.Item.{Encoding, encoded};
ghost use Rattle.cbor4ii_ser.specs.Leaf.{bytes_of_leaf};
ghost use Rattle.cbor4ii_ser.specs.Serializing.{Serializes, output};

use crate::error::EncodeError;
use crate::leaf::Leaf;
use crate::serializer::Serializer;
use cbor4ii_rw::write::Write;

/// A type whose values are written as items.
///
/// What a type of this repository writes is one item (RFC 8949 section 1.2) with shortest heads,
/// and canonical unless a length in it is indefinite. A container's is so where those of its parts
/// are. The laws of the module `laws` say it of each type, from `numbers_are_items` on. Of such
/// bytes `items_are_read` says that they are read, whatever follows them.
///
/// It is not asked of a type of a user's own. One whose item is made of the words of `specs/Item`
/// has it by a lemma of `specs/Laws/OneItem` for each of these words.
pub trait Serialize {
    // What is written for a value: the bytes of the item that stands for it, every head the
    // shortest; or, where none does, those before the place at which it is rejected, and the words
    // that say why. That the bytes are one item is not asked of a type: a container holds what its
    // parts write.
    ghost encoding: { Self → Encoding };

    /// Appends the value's item to what the writer holds.
    ///
    /// # Errors
    ///
    /// - `Core` of `Write`: the writer failed in the call. An atomic writer then holds what it held
    ///   before and a beginning of the item. Of a value that has none it is a beginning of what
    ///   stands before the error. Of another writer nothing is said
    /// - `Custom` with the words of its error: the value has no item. Exactly what stands before
    ///   the error is appended, and the writer did not fail
    fn serialize<W: Write>(&self, ser: &mut Serializer<W>) -> Result<(), EncodeError<W::Error>>
        ensures { Serializes W.atomic (encoding self.now)
            (output W.view ser.old) (output W.view ser.new) result };

    /// Whether the type's values are leaves, which `as_leaf` answers. A vector then writes them in
    /// line, without a call of `serialize` for each. What it writes is the same.
    #[inline(always)]
    fn is_leaf() -> bool {
        false
    }

    /// The value as a leaf, which is written as the value is. Without a line of its own a type
    /// answers none.
    #[inline(always)]
    fn as_leaf(&self) -> Option<Leaf<'_>>
        ensures { IfSome result (λ leaf. encoding self.now ≡ encoded (bytes_of_leaf leaf)) }
    {
        None
    }
}
