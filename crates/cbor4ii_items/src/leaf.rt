//! Values that hold no other, decided by what one look shows.
ghost use Rattle.std.specs.Prelude.{IfSome};
ghost use Rattle.cbor4ii_items.specs.ShownLeaf.{IsShownLeaf};

use crate::decode::Decodable;

/// A type whose values hold no other.
pub trait DecodeLeaf: Decodable {
    /// The value that the shown bytes begin with and how many bytes it has, where it stands whole
    /// in them and takes at most so many steps. It may be none of a value that `decode` reads, as
    /// where the shown bytes end within it.
    fn shown_leaf(shown: &[u8], steps: u8) -> Option<(Self, usize)>
        ensures { IfSome result (IsShownLeaf Self.format.reads shown.now steps) };
}
