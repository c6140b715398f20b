//! A value that has a part of each kind, written by writers that fail.
ghost use Rattle.std.specs.Prelude.{◌∷◌, [], false, string_bytes};
ghost use Rattle.cbor4ii_ser.specs.TextState.{text_encoding};

use crate::enumeration::Enum;
use crate::point::Point;
use cbor4ii::enc::Write;
use cbor4ii::serde::{EncodeError, Serialize, Serializer};
use cbor4ii_vectors::rows::writes_in;
use cbor4ii_vectors::table;
use cbor4ii_vectors_de::typed::Answer::Is;
use cbor4ii_vectors_ser::pieces::{Parts, joined, letters};
use std::alloc::{AllocError, Global};
use std::collections::BTreeMap;
use std::test::Fail;

/// A text in pieces, as a value.
#[derive(Drop)]
struct InPieces((String, String));

impl Serialize for InPieces {
    ghost encoding = { λ t. text_encoding false (string_bytes t.0.0 ∷ string_bytes t.0.1 ∷ []) };

    fn serialize<W: Write>(&self, ser: &mut Serializer<W>) -> Result<(), EncodeError<W::Error>> {
        ser.collect_str(&self.0)
    }
}

/// A value that has a part of each kind.
type OfEachKind = (
    (Point, Enum, Enum),
    (BTreeMap<u8, Vec<(bool, ())>>, InPieces),
);

fn records(alloc: Global) -> Result<(Point, Enum, Enum), AllocError> {
    let point = Point {
        x: 5,
        name: String::from_str(alloc, "a")?,
        y: None,
    };
    let tuple = Enum::Tuple(String::from_str(alloc, "123")?, false);
    Ok((point, Enum::Struct { x: 0x99, y: -0x99 }, tuple))
}

fn map(alloc: Global) -> Result<BTreeMap<u8, Vec<(bool, ())>>, AllocError> {
    let mut map = BTreeMap::new(alloc);
    map.insert(24u8, vec![in alloc; (true, ())]?)?;
    Ok(map)
}

fn in_pieces(alloc: Global) -> Result<InPieces, Fail> {
    Ok(InPieces((letters(alloc, 200)?, letters(alloc, 56)?)))
}

fn of_each_kind(alloc: Global) -> Result<OfEachKind, Fail> {
    Ok((records(alloc)?, (map(alloc)?, in_pieces(alloc)?)))
}

/// What it is written as, up to the text, and the head of its first chunk.
const PARTS: &[u8] = b"\x82\x83\
\xa3\x61x\x05\x64name\x61a\x61y\xf6\
\xa1\x66Struct\xa2\x61x\x18\x99\x61y\x38\x98\
\xa1\x65Tuple\x82\x63123\xf4\
\x82\xa1\x18\x18\x81\x82\xf5\x80\
\x7f\x78\xc8";

const OF_EACH_KIND: Parts<'static> = table! {
    (PARTS, 200),
    (b"\x78\x38", 56),
    (b"\xff", 0),
};

#[test]
fn each_push_and_each_byte_may_fail(rt: HostRuntime) -> Result<(), Fail> {
    let alloc = rt.alloc();
    let value = Is(of_each_kind(alloc)?);
    writes_in(alloc, &value, &joined(alloc, OF_EACH_KIND)?, 43)
}
