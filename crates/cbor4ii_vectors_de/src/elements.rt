//! Rows of arrays whose elements are written and read in one call, beside pairs and triples.
ghost use Rattle.std.specs.Prelude.{◌∷◌, []};
ghost use Rattle.cbor4ii_ser.specs.Item.{tuple_encoding};

use crate::typed::{
    Answer, BothShown, Got, RowShown, RowShownWithin, Take, calls, reads_all_shown, tries_shown,
};
use crate::values::Types;
use cbor4ii::serde::{Deserializer, EncodeError, Serialize, Serializer};
use cbor4ii_rw::read::Source;
use cbor4ii_rw::write::Write;
use cbor4ii_vectors::{eof, mismatch, no_step, require_length, table};
use std::alloc::Global;
use std::test::Fail;

/// An array of one element.
#[derive(Debug, PartialEq, Drop)]
struct One(u8);

impl Serialize for One {
    ghost encoding = { λ one. tuple_encoding (⟦<u8 as Serialize>⟧.encoding one.0 ∷ []) };

    fn serialize<W: Write>(&self, ser: &mut Serializer<W>) -> Result<(), EncodeError<W::Error>> {
        ser.serialize_elements(&(&self.0, ()))
    }
}

impl From<(u8, ())> for One {
    fn from(elements: (u8, ())) -> One {
        One(elements.0)
    }
}

impl Take for One {
    fn take<S: Source>(alloc: Global, de: &mut Deserializer<S>) -> Got<One, S> {
        de.deserialize_elements(alloc)
    }
}

/// An array of two elements.
#[derive(Debug, PartialEq, Drop)]
struct Two(u8, u8);

impl Serialize for Two {
    ghost encoding = { λ two. tuple_encoding (⟦<u8 as Serialize>⟧.encoding two.0
        ∷ ⟦<u8 as Serialize>⟧.encoding two.1 ∷ []) };

    fn serialize<W: Write>(&self, ser: &mut Serializer<W>) -> Result<(), EncodeError<W::Error>> {
        ser.serialize_elements(&(&self.0, (&self.1, ())))
    }
}

impl From<(u8, (u8, ()))> for Two {
    fn from(elements: (u8, (u8, ()))) -> Two {
        let (first, (second, ())) = elements;
        Two(first, second)
    }
}

impl Take for Two {
    fn take<S: Source>(alloc: Global, de: &mut Deserializer<S>) -> Got<Two, S> {
        de.deserialize_elements(alloc)
    }
}

/// An array of three elements.
#[derive(Debug, PartialEq, Drop)]
struct Three(u8, bool, Option<i8>);

impl Serialize for Three {
    ghost encoding = { λ three. tuple_encoding (⟦<u8 as Serialize>⟧.encoding three.0
        ∷ ⟦<bool as Serialize>⟧.encoding three.1
        ∷ ⟦<Option<i8> as Serialize>⟧.encoding three.2 ∷ []) };

    fn serialize<W: Write>(&self, ser: &mut Serializer<W>) -> Result<(), EncodeError<W::Error>> {
        ser.serialize_elements(&(&self.0, (&self.1, (&self.2, ()))))
    }
}

impl From<(u8, (bool, (Option<i8>, ())))> for Three {
    fn from(elements: (u8, (bool, (Option<i8>, ())))) -> Three {
        let (first, (second, (third, ()))) = elements;
        Three(first, second, third)
    }
}

impl Take for Three {
    fn take<S: Source>(alloc: Global, de: &mut Deserializer<S>) -> Got<Three, S> {
        de.deserialize_elements(alloc)
    }
}

const ONE: &[BothShown] = table! {
    (b"\x81\x18\x64", "Is(One(100))"),
};

const ONE_REJECTED: &[RowShown] = table! {
    (b"\x80\x01", Err(require_length!("tuple", 0)), b"\x01"),
    (b"\x82\x01\x02", Err(require_length!("tuple", 2)), b"\x01\x02"),
    (b"\x9f\x01\xff", Err(require_length!("tuple")), b"\x01\xff"),
    (b"\x01\x02", Err(mismatch!("array", 1)), b"\x02"),
    (b"\x81\x20\x02", Err(mismatch!("u8", 0x20)), b"\x02"),
    (b"\x81", Err(eof!("u8", 1)), b""),
    (b"", Err(eof!("array", 1)), b""),
};

const ONE_WITHIN: &[RowShownWithin] = table! {
    (b"\x81\x05\x06", 0, Err(no_step!("tuple")), b"\x81\x05\x06"),
    (b"\x81\x05\x06", 1, Ok("Is(One(5))"), b"\x06"),
};

#[test]
fn one_element(rt: HostRuntime) -> Result<(), Fail> {
    let alloc = rt.alloc();
    tries_shown::<Answer<One>>(alloc, ONE, ONE_REJECTED, ONE_WITHIN)
}

const TWO: &[BothShown] = table! {
    (b"\x82\x01\x02", "Is(Two(1, 2))"),
};

const TWO_READ: &[RowShown] = table! {
    (b"\x98\x02\x18\x01\x02\x03", Ok("Is(Two(1, 2))"), b"\x03"),
};

// What a pair reads_all_shown, with what is left. The lengths are 1, 3, 65535 and 65536.
const TWO_REJECTED: &[RowShown] = table! {
    (b"\x81\x01\x02", Err(require_length!("tuple", 1)), b"\x01\x02"),
    (b"\x83\x01\x02\x03", Err(require_length!("tuple", 3)), b"\x01\x02\x03"),
    (b"\x9f\x01\x02\xff", Err(require_length!("tuple")), b"\x01\x02\xff"),
    (b"\x99\xff\xff\x01", Err(require_length!("tuple", 65535)), b"\x01"),
    (b"\x9a\x00\x01\x00\x00\x01", Err(require_length!("tuple", Big)), b"\x01"),
    (b"\x82\x20\x01", Err(mismatch!("u8", 0x20)), b"\x01"),
    (b"\x82\x01\x61", Err(mismatch!("u8", 0x61)), b""),
    (b"\x82\x01", Err(eof!("u8", 1)), b""),
    (b"\xa1\x01", Err(mismatch!("array", 0xa1)), b"\x01"),
    (b"\x99\x00", Err(eof!("array", 2)), b""),
};

const TWO_WITHIN: &[RowShownWithin] = table! {
    (b"\x82\x01\x02", 0, Err(no_step!("tuple")), b"\x82\x01\x02"),
    (b"\x82\x01\x02", 1, Ok("Is(Two(1, 2))"), b""),
};

#[test]
fn two_elements_and_a_pair(rt: HostRuntime) -> Result<(), Fail> {
    let alloc = rt.alloc();
    tries_shown::<Answer<Two>>(alloc, TWO, TWO_READ, TWO_WITHIN)?;
    reads_all_shown::<Answer<Two>>(alloc, TWO_REJECTED, &[])?;
    for &(bytes, rejection, rest) in TWO_REJECTED {
        calls::<Types>(alloc, &[("(u8, u8)", bytes, rejection, rest)], &[])?;
    }
    Ok(())
}

const THREE: &[BothShown] = table! {
    (b"\x83\x01\xf5\x20", "Is(Three(1, true, Some(-1)))"),
    (b"\x83\x01\xf4\xf6", "Is(Three(1, false, None))"),
};

const THREE_READ: &[RowShown] = table! {
    (b"\x82\x01\xf5", Err(require_length!("tuple", 2)), b"\x01\xf5"),
    (b"\x84\x01\xf5\x20\x00", Err(require_length!("tuple", 4)), b"\x01\xf5\x20\x00"),
    (b"\x83\x01\x02\x03", Err(mismatch!("bool", 0x02)), b"\x02\x03"),
    (b"\x83\x01\xf5", Err(eof!("option", 1)), b""),
};

const THREE_WITHIN: &[RowShownWithin] = table! {
    (b"\x83\x01\xf5\x20", 1, Err(no_step!("option")), b"\x20"),
    (b"\x83\x01\xf5\x20\x00", 2, Ok("Is(Three(1, true, Some(-1)))"), b"\x00"),
};

#[test]
fn three_elements(rt: HostRuntime) -> Result<(), Fail> {
    tries_shown::<Answer<Three>>(rt.alloc(), THREE, THREE_READ, THREE_WITHIN)
}
