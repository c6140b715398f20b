//! A record that is read and written by hand: what a type of one's own needs in order to be one.
ghost use Rattle.cbor4ii_items.specs.Decoding.{Decodes};
ghost use Rattle.cbor4ii_examples.specs.Station.{station_bytes, opening_format, end_format};
ghost use Rattle.cbor4ii_examples.specs.Station.{station_format};
ghost use Rattle.cbor4ii_examples.specs.StationLaws.{station_lawful};

use cbor4ii::dec::{Decodable, Decode, Source, is_break};
use cbor4ii::enc::{Encode, Write};
use cbor4ii::error::{DecodeError, EncodeError, Len};
use cbor4ii::types::Array;
use std::alloc::Global;

/// A weather station, which is an array of its number and its name.
#[derive(Debug, PartialEq, Drop)]
pub struct Station {
    /// Its number.
    pub id: u64,
    /// Its name.
    pub name: String,
}

impl Decodable for Station {
    ghost format = { station_format };

    fn is_never_empty() -> bool {
        true
    }

    ghost lawful = { station_lawful };
}

/// Rejected as its parts are, in their order: the length by the name "array", the number as a u64,
/// the name as a text, and the break of an array of indefinite length. By the name "station":
/// `RequireLength` with the count where it is not 2, what follows being left; `RequireLength` with
/// `Indefinite` where another byte stands in the place of the break, and it is left.
impl<S: Source> Decode<S> for Station {
    fn decode(alloc: Global, reader: &mut S) -> Result<Station, DecodeError<S::Error>> {
        let is_indefinite = take_opening(reader)?;
        let id = u64::decode(alloc, reader)?;
        let name = String::decode(alloc, reader)?;
        take_end(reader, is_indefinite)?;
        Ok(Station { id, name })
    }
}

/// Takes the head of an array of two items, and answers whether its length is indefinite.
fn take_opening<S: Source>(reader: &mut S) -> Result<bool, DecodeError<S::Error>>
    ensures { Decodes opening_format (S.view reader.old) (S.view reader.new) result }
{
    match Array::len(reader)? {
        None => Ok(true),
        Some(2) => Ok(false),
        Some(count) => Err(DecodeError::RequireLength {
            name: "station",
            found: Len::new(count),
        }),
    }
}

/// Takes the break of an array of indefinite length.
fn take_end<S: Source>(reader: &mut S, is_indefinite: bool) -> Result<(), DecodeError<S::Error>>
    ensures { Decodes (end_format is_indefinite)
        (S.view reader.old) (S.view reader.new) result }
{
    if !is_indefinite || is_break(reader)? {
        return Ok(());
    }
    Err(DecodeError::RequireLength {
        name: "station",
        found: Len::Indefinite,
    })
}

/// An array of two items, each in its shortest encoding.
impl Encode for Station {
    ghost bytes = { station_bytes };

    fn encode<W: Write>(&self, writer: &mut W) -> Result<(), EncodeError<W::Error>> {
        Array::bounded(2, writer)?;
        self.id.encode(writer)?;
        self.name.encode(writer)
    }
}

#[cfg(test)]
mod tests;
