//! Tagged items.
ghost use Rattle.std.specs.Prelude.{◌++◌, codes};
ghost use Rattle.cbor4ii_items.specs.Decoding.{Decodes};
ghost use Rattle.cbor4ii_items.specs.Numbers.{argument_format, shortest_head};
ghost use Rattle.cbor4ii_items.specs.Laws.Containers.{tag_format, tag_lawful};

use crate::decode::{Decodable, Decode};
use crate::encode::Encode;
use crate::head::lone_head;
use crate::major;
use crate::push::push_headed_item;
use crate::types::Tag;
use cbor4ii_rw::error::{DecodeError, EncodeError};
use cbor4ii_rw::read::Source;
use cbor4ii_rw::write::Write;
use std::alloc::Global;

impl Tag<()> {
    /// Takes the head of a tag and answers its number. The item that it tags is to follow (RFC
    /// 8949 section 3.4).
    ///
    /// # Errors
    ///
    /// The budget stays.
    ///
    /// - `Read`: the reader failed. A part of the head may be taken then
    /// - `Eof` by "tag" with 1: no byte is left
    /// - `Eof` by "tag" with k: the number has k bytes and fewer are left. Nothing is left then
    /// - `Mismatch` by "tag" with the first byte, which is taken: it begins no tag
    pub fn tag<S: Source>(reader: &mut S) -> Result<u64, DecodeError<S::Error>>
        ensures { Decodes (argument_format (codes "tag") 6 8)
            (S.view reader.old) (S.view reader.new) result }
    {
        lone_head(reader, "tag", major::TAG, 8)
    }
}

impl<T: Decodable> Decodable for Tag<T> {
    ghost format = { tag_format T.format };

    fn is_never_empty() -> bool {
        true
    }

    ghost lawful = { tag_lawful T.format T.lawful };
}

/// A tag, its number of any width, and the item that it tags (RFC 8949 section 3.4). Its errors are
/// those of `Tag::tag`, and after the tag those of the item, which leave what they leave.
impl<S: Source, T: Decode<S>> Decode<S> for Tag<T> {
    #[inline(always)]
    fn decode(alloc: Global, reader: &mut S) -> Result<Tag<T>, DecodeError<S::Error>> {
        let number = lone_head(reader, "tag", major::TAG, 8)?;
        match T::decode(alloc, reader) {
            Ok(value) => Ok(Tag(number, value)),
            Err(error) => Err(error),
        }
    }
}

/// A tagged item: the shortest head of its number in one push, and then the item.
impl<T: Encode> Encode for Tag<T> {
    ghost bytes = { λ v. shortest_head 6 v.0 ++ T.bytes v.1 };

    #[inline(always)]
    fn encode<W: Write>(&self, writer: &mut W) -> Result<(), EncodeError<W::Error>> {
        push_headed_item(writer, major::TAG, self.0, &self.1)
    }
}
