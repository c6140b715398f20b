//! A signed envelope: the payload's bytes are checked as they stand, and read after that.
ghost use Rattle.std.specs.Prelude.{◌≡◌, ◌↔◌, ◌<◌, ◌≤◌, ◌^◌, ◌∷◌, [], ℕ, List, codes, IfOk, IfErr};
ghost use Rattle.std.specs.Prelude.{IsTrue};
ghost use Rattle.std.specs.declared.alloc.Global.{Global};
ghost use Rattle.cbor4ii_rw.specs.Input.{limit};
ghost use Rattle.cbor4ii_ser.specs.Item.{field, struct_encoding};
ghost use Rattle.cbor4ii_ser.specs.OneItem.{IsOneItem, canonical};
ghost use Rattle.cbor4ii.specs.FieldKey.{text_key};
ghost use Rattle.cbor4ii.specs.Fields.{no_values};
ghost use Rattle.cbor4ii.specs.Made.{made_from};
ghost use Rattle.cbor4ii.specs.Presence.{struct_from, single_field, or_words, no_more_fields};
ghost use Rattle.cbor4ii.specs.ReadBack.{IsReadBack};
ghost use Rattle.cbor4ii_examples.specs.Envelope.{Sealed, NotSealed, IsOpened, NotOpened};
ghost use Rattle.cbor4ii_examples.specs.declared.reply.Reply.{Reply};

use crate::reply::Reply;
use cbor4ii::PlainRawValue;
use cbor4ii::enc::Write;
use cbor4ii::error::{DecodeError as CoreError, Never, StaticStr};
use cbor4ii::serde::{
    DecodeError, Deserialize, Deserializer, EncodeError, Once, Required, Serialize, Serializer,
    Typed, WholeError, from_slice_whole, to_vec,
};
use cbor4ii::types::Bytes;
use cbor4ii::utils::{SliceReader, TryReserveError};
use std::alloc::{AllocError, Global};

/// A payload, and who signed it.
#[derive(Debug, PartialEq, Drop)]
pub struct Envelope<'a> {
    /// The number of the key.
    pub key: u32,
    /// The signature of the payload's bytes.
    pub signature: Bytes<&'a [u8]>,
    /// The payload: one item that `Value` accepts, as its bytes stand in the envelope.
    pub payload: PlainRawValue<'a>,
}

impl<'a> Serialize for Envelope<'a> {
    ghost encoding = { λ e. struct_encoding
        (field (codes "key") (⟦<u32 as Serialize>⟧.encoding e.key)
        ∷ field (codes "signature") (⟦<Bytes<&'a [u8]> as Serialize>⟧.encoding e.signature)
        ∷ field (codes "payload") (⟦<PlainRawValue<'a> as Serialize>⟧.encoding e.payload) ∷ []) };

    fn serialize<W: Write>(&self, ser: &mut Serializer<W>) -> Result<(), EncodeError<W::Error>> {
        ser.serialize_3_fields(
            "Envelope",
            "key",
            &self.key,
            "signature",
            &self.signature,
            "payload",
            &self.payload,
        )
    }
}

const FIELDS: [StaticStr; 3] = ["key", "signature", "payload"];

const MISSING: [StaticStr; 3] = [
    "an envelope has one key",
    "an envelope has one signature",
    "an envelope has one payload",
];

/// Over a slice, which lends the signature and the payload. Each field comes once, in any order,
/// and others are skipped.
impl<'a> Deserialize<SliceReader<'a>> for Envelope<'a> {
    fn deserialize(
        alloc: Global,
        de: &mut Deserializer<SliceReader<'a>>,
    ) -> Result<Envelope<'a>, DecodeError<Never>> {
        let presences = (Once(Required), (Once(Required), (Once(Required), ())));
        de.deserialize_fields(alloc, "Envelope", &FIELDS, &MISSING, presences)
    }
}

type Values<'a> = (u32, (Bytes<&'a [u8]>, (PlainRawValue<'a>, ())));

impl<'a> From<Values<'a>> for Envelope<'a> {
    ghost from_gives = { λ values e. e ≡ record {
      key = values.0;
      signature = values.1.0;
      payload = values.1.1.0;
    } };

    fn from(values: Values<'a>) -> Envelope<'a> {
        let (key, (signature, (payload, ()))) = values;
        Envelope {
            key,
            signature,
            payload,
        }
    }
}

impl<'a> Typed for Envelope<'a> {
    ghost promise = { made_from
        (λ values e. e ≡ record { key = values.0; signature = values.1.0; payload = values.1.1.0 })
        (struct_from
        (single_field (codes "key") (codes "an envelope has one key")
        (or_words (codes "an envelope has one key")) ⟦<u32 as Typed>⟧.promise
        (single_field (codes "signature") (codes "an envelope has one signature")
        (or_words (codes "an envelope has one signature"))
        ⟦<Bytes<&'a [u8]> as Typed>⟧.promise
        (single_field (codes "payload") (codes "an envelope has one payload")
        (or_words (codes "an envelope has one payload"))
        ⟦<PlainRawValue<'a> as Typed>⟧.promise (no_more_fields text_key))))) };
}

/// What makes signatures.
pub trait Sign {
    // The number of the key.
    ghost number: { Self → ℕ };

    // By the number of a key: which signature is made of which message.
    ghost signed: { Self → ℕ → List ℕ → List ℕ → Type 0 };

    /// The number of the key.
    fn key(&self) -> u32
        ensures { result ≡ number self.now };

    /// The signature of these bytes.
    fn sign(&self, alloc: Global, message: &[u8]) -> Result<Vec<u8>, AllocError>
        ensures { IfOk result (λ signature.
            signed self.now (number self.now) signature.items message.now) };
}

/// What checks signatures.
pub trait Verify {
    // By the number of a key: which signature is right over which message.
    ghost signed: { Self → ℕ → List ℕ → List ℕ → Type 0 };

    /// Whether `signature` is that of the key with this number over `message`.
    fn verify(&self, key: u32, signature: &[u8], message: &[u8]) -> bool
        ensures { IsTrue result ↔ signed self.now key signature.now message.now };
}

/// Why no envelope was written.
#[derive(Debug, PartialEq, Drop)]
pub enum SealError {
    /// The payload or the envelope was not written.
    Encode(EncodeError<TryReserveError>),
    /// What was written of the payload is not one item that `Value` accepts with 256 steps.
    Payload(WholeError<CoreError<Never>>),
    /// There was no memory for the signature.
    OutOfMemory,
}

/// Why no payload was read.
#[derive(Debug, PartialEq, Drop)]
pub enum OpenError {
    /// The bytes are not one envelope and nothing else.
    Envelope(WholeError<DecodeError<Never>>),
    /// The signature is not that of the payload's bytes.
    NotSigned,
    /// The payload was signed, and is no reply.
    Payload(WholeError<DecodeError<Never>>),
}

/// The bytes of an envelope of `payload`, signed by `signer`. What is signed are the bytes of the
/// payload's item, as they stand in the envelope.
///
/// # Errors
///
/// - `Encode` of `Custom` with the words of its type: the payload has no item. Of `Core`: there is
///   no memory for the item, or for the envelope
/// - `Payload`: what its type writes is not one item that `Value` accepts with 256 steps, or there
///   is no memory to read it
/// - `OutOfMemory`: there is no memory for the signature
pub fn seal<S: Sign, T: Serialize>(
    alloc: Global,
    signer: &S,
    payload: &T,
) -> Result<Vec<u8>, SealError>
    ensures sealed { IfOk result (λ bytes. Sealed
        (S.signed signer.now) (S.number signer.now) (T.encoding payload.now) bytes.items) }
    ensures rejects { IfErr result (NotSealed (T.encoding payload.now)) }
{
    let item = to_vec(Vec::new(alloc), payload).map_err(SealError::Encode)?;
    let payload = PlainRawValue::new(alloc, &item).map_err(SealError::Payload)?;
    let signature = signer
        .sign(alloc, payload.as_bytes())
        .map_err(|_| SealError::OutOfMemory)?;
    let envelope = Envelope {
        key: signer.key(),
        signature: Bytes(&signature),
        payload,
    };
    match to_vec(Vec::new(alloc), &envelope) {
        Ok(bytes) => Ok(bytes),
        Err(error) => Err(SealError::Encode(error)),
    }
}

/// The reply in the envelope that `input` is, which is read once its signature was checked: one
/// envelope and nothing else, with 256 steps, and the reply with as many.
///
/// # Errors
///
/// - `Envelope` of an error of `from_slice_whole`: the input is no envelope, or bytes follow it. A
///   field that is missing or comes twice, as a second payload, is `Custom`
/// - `NotSigned`: the input is an envelope, and its signature is not one over its payload's bytes.
///   Nothing of the payload was read as a reply then
/// - `Payload` of an error of `from_slice_whole`: the signature is right, and the payload is no
///   reply
pub fn open<V: Verify>(alloc: Global, verifier: &V, input: &[u8]) -> Result<Reply, OpenError>
    ensures opened { IfOk result (IsOpened ⟦<Envelope<'static> as Typed>⟧.promise
        ⟦<Reply as Typed>⟧.promise (V.signed verifier.now) input.now) }
    ensures rejects { IfErr result (NotOpened ⟦<Envelope<'static> as Typed>⟧.promise
        ⟦<Reply as Typed>⟧.promise (V.signed verifier.now) input.now) }
{
    let envelope: Envelope<'_> = from_slice_whole(alloc, input).map_err(OpenError::Envelope)?;
    let message = envelope.payload.as_bytes();
    if !verifier.verify(envelope.key, envelope.signature.0, message) {
        return Err(OpenError::NotSigned);
    }
    from_slice_whole(alloc, message).map_err(OpenError::Payload)
}

/// What is sealed is opened: where the verifier takes what the signer signs, the bytes that `seal`
/// answers of a reply are ones that `open` accepts, as this reply. Its item is one that is read
/// back, as `described_values_are_read_back` says, and `Value` reads it with fewer than 256 steps.
pub fn what_is_sealed_is_opened<S: Sign, V: Verify>()
    ensures { (alloc : Global) (signer : S) (verifier : V) (key steps : ℕ) (reply : Reply)
        (bytes : List ℕ) →
        ((signature message : List ℕ) → S.signed signer key signature message →
        V.signed verifier key signature message) → key < 2 ^ 32 →
        IsOneItem canonical (⟦<Reply as Serialize>⟧.encoding reply) →
        IsReadBack ⟦<Reply as Typed>⟧.promise.format.reads
        (⟦<Reply as Serialize>⟧.encoding reply) reply steps → steps ≤ limit →
        (sealed : Sealed (S.signed signer) key (⟦<Reply as Serialize>⟧.encoding reply) bytes) →
        sealed.accepted.0 < limit →
        IsOpened ⟦<Envelope<'static> as Typed>⟧.promise ⟦<Reply as Typed>⟧.promise
        (V.signed verifier) bytes reply }
{}

#[cfg(test)]
mod tests;
