//! Rows of arrays whose elements are written in one call.
use crate::tagged::{is_rejected_after, tagged};
use crate::typed::{Put, Typed};
use cbor4ii_rw::write::Write;
use cbor4ii_ser::error::EncodeError;
use cbor4ii_ser::serialize::Serialize;
use cbor4ii_ser::serializer::Serializer;
use cbor4ii_vectors::rows::writes;
use std::test::Fail;

/// One element.
#[derive(Drop)]
struct One<A>(A);

impl<A: Serialize> Put for One<A> {
    fn put<W: Write>(&self, ser: &mut Serializer<W>) -> Result<(), EncodeError<W::Error>> {
        ser.serialize_elements(&(&self.0, ()))
    }
}

/// Two elements.
#[derive(Drop)]
struct Two<A, B>(A, B);

impl<A: Serialize, B: Serialize> Put for Two<A, B> {
    fn put<W: Write>(&self, ser: &mut Serializer<W>) -> Result<(), EncodeError<W::Error>> {
        ser.serialize_elements(&(&self.0, (&self.1, ())))
    }
}

/// Three elements.
#[derive(Drop)]
struct Three<A, B, C>(A, B, C);

impl<A: Serialize, B: Serialize, C: Serialize> Put for Three<A, B, C> {
    fn put<W: Write>(&self, ser: &mut Serializer<W>) -> Result<(), EncodeError<W::Error>> {
        ser.serialize_elements(&(&self.0, (&self.1, (&self.2, ()))))
    }
}

/// This element twelve times.
#[derive(Drop)]
struct Twelve(u8);

impl Put for Twelve {
    fn put<W: Write>(&self, ser: &mut Serializer<W>) -> Result<(), EncodeError<W::Error>> {
        let a = &self.0;
        ser.serialize_elements(&(a, (a, (a, (a, (a, (a, (a, (a, (a, (a, (a, (a, ())))))))))))))
    }
}

const TWELVE: &[u8] = b"\x8c\x07\x07\x07\x07\x07\x07\x07\x07\x07\x07\x07\x07";

#[test]
fn any_number_of_elements(rt: HostRuntime) -> Result<(), Fail> {
    let alloc = rt.alloc();
    writes(alloc, &Typed(One(500u16)), b"\x81\x19\x01\xf4")?;
    writes(alloc, &Typed(Twelve(7)), TWELVE)?;
    Ok(())
}

// A tuple and its elements have the same bytes.
#[test]
fn pairs_and_triples_by_their_elements(rt: HostRuntime) -> Result<(), Fail> {
    let alloc = rt.alloc();
    writes(alloc, &Typed((1u8, "a")), b"\x82\x01\x61a")?;
    writes(alloc, &Typed(Two(1u8, "a")), b"\x82\x01\x61a")?;
    writes(alloc, &Typed((1u8, "a", false)), b"\x83\x01\x61a\xf4")?;
    writes(alloc, &Typed(Three(1u8, "a", false)), b"\x83\x01\x61a\xf4")?;
    Ok(())
}

// What stands before an element that is rejected, as before the part of a tuple.
#[test]
fn what_stands_before_a_rejected_element(rt: HostRuntime) -> Result<(), Fail> {
    let alloc = rt.alloc();
    is_rejected_after(alloc, One(tagged(alloc)?), b"\x81")?;
    is_rejected_after(alloc, Two(1u8, tagged(alloc)?), b"\x82\x01")?;
    is_rejected_after(alloc, Two(tagged(alloc)?, 1u8), b"\x82")?;
    is_rejected_after(alloc, Three(1u8, 2u8, tagged(alloc)?), b"\x83\x01\x02")
}
