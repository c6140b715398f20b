//! Heads of arrays, maps and variants, and their ends.
ghost use Rattle.std.specs.Prelude.{◌≡◌, ◌++◌, Ok, IsSome};
ghost use Rattle.cbor4ii_items.specs.Numbers.{shortest_head};
ghost use Rattle.cbor4ii_ser.specs.Counts.{container_head, container_end};
ghost use Rattle.cbor4ii_ser.specs.Item.{encoded, variant_head};
ghost use Rattle.cbor4ii_ser.specs.Serializing.{Serializes, AllOrNothing, output};

use crate::error::EncodeError;
use crate::serializer::Serializer;
use crate::slot::has_large_error;
use cbor4ii_items::major;
use cbor4ii_items::types::{Array, Map};
use cbor4ii_rw::write::Write;

impl<W: Write> Serializer<W> {
    #[inline]
    pub(crate) fn array_head(&mut self, len: usize) -> Result<(), EncodeError<W::Error>>
        ensures writes { Serializes W.atomic (encoded (shortest_head 4 len))
            (output W.view self.old) (output W.view self.new) result }
        ensures whole { AllOrNothing W.atomic (output W.view self.old) (output W.view self.new)
            result }
    {
        if has_large_error::<W>() {
            return self.put_head(major::ARRAY, len as u64);
        }
        Ok(Array::<()>::bounded(len, &mut self.writer)?)
    }

    #[inline]
    pub(crate) fn map_head(&mut self, len: usize) -> Result<(), EncodeError<W::Error>>
        ensures writes { Serializes W.atomic (encoded (shortest_head 5 len))
            (output W.view self.old) (output W.view self.new) result }
        ensures whole { AllOrNothing W.atomic (output W.view self.old) (output W.view self.new)
            result }
    {
        if has_large_error::<W>() {
            return self.put_head(major::MAP, len as u64);
        }
        Ok(Map::<()>::bounded(len, &mut self.writer)?)
    }

    pub(crate) fn seq_head(&mut self, len: Option<usize>) -> Result<(), EncodeError<W::Error>>
        ensures writes { Serializes W.atomic (encoded (container_head 4 len))
            (output W.view self.old) (output W.view self.new) result }
        ensures whole { AllOrNothing W.atomic (output W.view self.old) (output W.view self.new)
            result }
    {
        if has_large_error::<W>() {
            return self.seq_head_apart(len);
        }
        match len {
            Some(len) => self.array_head(len),
            None => Ok(Array::<()>::unbounded(&mut self.writer)?),
        }
    }

    /// Out of line: to a writer with a large error the caller's frame stays small.
    #[inline(never)]
    fn seq_head_apart(&mut self, len: Option<usize>) -> Result<(), EncodeError<W::Error>>
        ensures writes { Serializes W.atomic (encoded (container_head 4 len))
            (output W.view self.old) (output W.view self.new) result }
        ensures whole { AllOrNothing W.atomic (output W.view self.old) (output W.view self.new)
            result }
    {
        match len {
            Some(len) => self.array_head(len),
            None => Ok(Array::<()>::unbounded(&mut self.writer)?),
        }
    }

    pub(crate) fn entries_head(&mut self, len: Option<usize>) -> Result<(), EncodeError<W::Error>>
        ensures writes { Serializes W.atomic (encoded (container_head 5 len))
            (output W.view self.old) (output W.view self.new) result }
        ensures whole { AllOrNothing W.atomic (output W.view self.old) (output W.view self.new)
            result }
    {
        match len {
            Some(len) => self.map_head(len),
            None => Ok(Map::<()>::unbounded(&mut self.writer)?),
        }
    }

    /// The end of an array or a map that began with this length.
    pub(crate) fn sequence_end(&mut self, len: Option<usize>) -> Result<(), EncodeError<W::Error>>
        ensures succeeds { IsSome len → result ≡ Ok tt }
        ensures untouched { IsSome len → output W.view self.new ≡ output W.view self.old }
        ensures written { Serializes W.atomic (encoded (container_end len))
            (output W.view self.old) (output W.view self.new) result }
    {
        match len {
            Some(_) => Ok(()),
            None => Ok(Array::<()>::end(&mut self.writer)?),
        }
    }

    /// A map of one pair, and its key: the variant's name.
    pub(crate) fn variant_head(&mut self, name: &str) -> Result<(), EncodeError<W::Error>>
        ensures { Serializes W.atomic (encoded (variant_head name.now))
            (output W.view self.old) (output W.view self.new) result }
    {
        self.map_head(1)?;
        self.serialize_str(name)
    }

    pub(crate) fn tuple_variant_head(
        &mut self,
        name: &str,
        len: usize,
    ) -> Result<(), EncodeError<W::Error>>
        ensures { Serializes W.atomic (encoded (variant_head name.now ++ shortest_head 4 len))
            (output W.view self.old) (output W.view self.new) result }
    {
        self.variant_head(name)?;
        self.array_head(len)
    }

    pub(crate) fn struct_variant_head(
        &mut self,
        name: &str,
        len: usize,
    ) -> Result<(), EncodeError<W::Error>>
        ensures { Serializes W.atomic (encoded (variant_head name.now ++ shortest_head 5 len))
            (output W.view self.old) (output W.view self.new) result }
    {
        self.variant_head(name)?;
        self.map_head(len)
    }
}
