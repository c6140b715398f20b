//! An array whose elements are written in one call.
ghost use Rattle.std.specs.Prelude.{◌≡◌, ◌<◌, ◌^◌, ◌∷◌, [], List, Result, length};
ghost use Rattle.cbor4ii_ser.specs.Item.{Encoding, parts, tuple_encoding};
ghost use Rattle.cbor4ii_ser.specs.Serializing.{Serializes, output};
ghost use Rattle.cbor4ii_ser.specs.declared.error.EncodeError.{EncodeError};

use crate::error::EncodeError;
use crate::leaf::put_value;
use crate::serialize::Serialize;
use crate::serializer::Serializer;
use crate::slot::{has_large_error, push_parts_head};
use cbor4ii_items::major;
use cbor4ii_rw::write::Write;

/// Elements of an array that is written in one call: nested pairs of references, in order, as
/// `(&first, (&second, ()))`. A call with sixteen is proved, and one with twenty ends in the
/// prover's `step-limit`.
pub trait SerializeElements {
    // What is written for each, in order.
    ghost elements: { Self → List Encoding };

    /// How many they are.
    fn count(&self) -> usize
        requires { length (Self.elements self.now) < 2 ^ 64 }
        ensures { result ≡ length (Self.elements self.now) };

    /// Appends each to what the writer holds, with no head before them.
    ///
    /// # Errors
    ///
    /// Those of the `serialize` of an element. They are described at `Serializer`. What was written
    /// before it stays.
    fn serialize_each<W: Write>(&self, ser: &mut Serializer<W>) -> Result<(), EncodeError<W::Error>>
        ensures { Serializes W.atomic (parts (Self.elements self.now))
            (output W.view ser.old) (output W.view ser.new) result };
}

impl SerializeElements for () {
    ghost elements = { λ none. [] };

    #[inline(always)]
    fn count(&self) -> usize {
        0
    }

    #[inline(always)]
    fn serialize_each<W: Write>(
        &self,
        ser: &mut Serializer<W>,
    ) -> Result<(), EncodeError<W::Error>> {
        Ok(())
    }
}

impl<'a, A: Serialize, B: SerializeElements> SerializeElements for (&'a A, B) {
    ghost elements = { λ pair. A.encoding pair.0.now ∷ B.elements pair.1 };

    #[inline(always)]
    fn count(&self) -> usize {
        1 + self.1.count()
    }

    #[inline]
    fn serialize_each<W: Write>(
        &self,
        ser: &mut Serializer<W>,
    ) -> Result<(), EncodeError<W::Error>> {
        let mut answer = Ok(());
        match put_value(ser, self.0, &mut answer) {
            Some(()) => self.1.serialize_each(ser),
            None => answer,
        }
    }
}

/// What `serialize_elements` answers: `Result<(), EncodeError<E>>`, the one type that is an
/// `Answer`. The borrow checker covers no call that is given several references, and whose
/// signature names the `'static` of an error's words. So the signature names this trait.
pub trait Answer<E>: Sized {
    // The answer itself.
    ghost outcome: { Self → Result (Unit {0}) (EncodeError E) };

    /// This answer.
    fn of(answer: Result<(), EncodeError<E>>) -> Self
        ensures { Self.outcome result ≡ answer };
}

impl<E> Answer<E> for Result<(), EncodeError<E>> {
    ghost outcome = { λ answer. answer };

    #[inline(always)]
    fn of(answer: Result<(), EncodeError<E>>) -> Result<(), EncodeError<E>>
        ensures { result ≡ answer }
    {
        answer
    }
}

impl<W: Write> Serializer<W> {
    /// An array of a definite length: a head that counts the elements, and each of them, in order
    /// (RFC 8949 section 3.1, major type 4). Two and three elements are written as a pair and a
    /// triple are. What is answered is a `Result<(), EncodeError<W::Error>>`, as the function says
    /// in whose last line the call stands; a `let` has to say so.
    ///
    /// # Errors
    ///
    /// `Core` at the head, and those of the `serialize` of an element. They are described at
    /// `Serializer`. What was written before an element that is rejected stays.
    #[inline]
    pub fn serialize_elements<P: SerializeElements, A: Answer<W::Error>>(
        &mut self,
        elements: &P,
    ) -> A
        requires { length (P.elements elements.now) < 2 ^ 64 }
        ensures { Serializes W.atomic (tuple_encoding (P.elements elements.now))
            (output W.view self.old) (output W.view self.new) (A.outcome result) }
    {
        if has_large_error::<W>() {
            return A::of(put_elements_apart(self, elements));
        }
        A::of(put_elements(self, elements))
    }
}

#[inline]
fn put_elements<W: Write, P: SerializeElements>(
    ser: &mut Serializer<W>,
    elements: &P,
) -> Result<(), EncodeError<W::Error>>
    requires { length (P.elements elements.now) < 2 ^ 64 }
    ensures { Serializes W.atomic (tuple_encoding (P.elements elements.now))
        (output W.view ser.old) (output W.view ser.new) result }
{
    let mut answer = Ok(());
    match push_parts_head(&mut ser.writer, major::ARRAY, elements.count(), &mut answer) {
        Some(()) => elements.serialize_each(ser),
        None => answer,
    }
}

/// Out of line: to a writer with a large error what holds the elements then takes a small frame.
#[inline(never)]
fn put_elements_apart<W: Write, P: SerializeElements>(
    ser: &mut Serializer<W>,
    elements: &P,
) -> Result<(), EncodeError<W::Error>>
    requires { length (P.elements elements.now) < 2 ^ 64 }
    ensures { Serializes W.atomic (tuple_encoding (P.elements elements.now))
        (output W.view ser.old) (output W.view ser.new) result }
{
    put_elements(ser, elements)
}
