//! Rows of envelopes, over a check that reports which bytes it was handed.
ghost use Rattle.std.specs.Prelude.{◌≡◌, ◌∷◌, []};
ghost use Rattle.cbor4ii_ser.specs.Item.{encoded};

use crate::envelope::OpenError::{Envelope, NotSigned, Payload};
use crate::envelope::{self, OpenError, SealError, Sign, Verify, open, seal};
use crate::reply::Reply;
use cbor4ii::enc::Write;
use cbor4ii::error::DecodeError::{Eof, Mismatch, RequireBorrowed, RequireUtf8};
use cbor4ii::error::Len::Small;
use cbor4ii::error::WholeError::{Decode, Trailing};
use cbor4ii::error::{DecodeError as CoreError, Never};
use cbor4ii::serde::DecodeError::{Core, Custom};
use cbor4ii::serde::{EncodeError, Serialize, Serializer};
use cbor4ii::{RawValue, Value};
use cbor4ii_vectors::table;
use cbor4ii_vectors_de::typed::comes_back_lent;
use std::alloc::{AllocError, Global};
use std::test::Fail;

// A signature of these bytes alone, by the key 7.
#[derive(Drop)]
struct Expected(&'static [u8]);

impl Sign for Expected {
    ghost number = { λ expected. 7 };

    ghost signed = { λ expected key signature message.
        message ≡ expected.0.now → signature ≡ 0xab ∷ 0xcd ∷ [] };

    fn key(&self) -> u32 {
        7
    }

    fn sign(&self, alloc: Global, message: &[u8]) -> Result<Vec<u8>, AllocError> {
        if message == self.0 {
            return Vec::from_slice(alloc, b"\xab\xcd");
        }
        Ok(Vec::new(alloc))
    }
}

impl Verify for Expected {
    ghost signed = { λ expected key signature message.
        (key ≡ 7) × (signature ≡ 0xab ∷ 0xcd ∷ []) × (message ≡ expected.0.now) };

    fn verify(&self, key: u32, signature: &[u8], message: &[u8]) -> bool {
        key == 7 && signature == b"\xab\xcd".as_slice() && message == self.0
    }
}

const REPLY: &[u8] = b"\xa1\x66status\x18\xc8";

const SEALED: &[u8] = b"\xa3\x63key\x07\x69signature\x42\xab\xcd\x67payload\xa1\x66status\x18\xc8";

#[test]
fn a_payload_is_sealed(rt: HostRuntime) -> Result<(), Fail> {
    let alloc = rt.alloc();
    let reply = Reply {
        status: 200,
        reason: None,
        retry: None,
    };
    match seal(alloc, &Expected(REPLY), &reply) {
        Ok(bytes) => assert_eq!(rt; bytes.as_slice(), SEALED),
        Err(error) => return Err(Fail::new(format_args!("{error:?}"))),
    }
    Ok(())
}

/// A value that writes nothing.
#[derive(Drop)]
struct Silent;

impl Serialize for Silent {
    ghost encoding = { λ silent. encoded [] };

    fn serialize<W: Write>(&self, _ser: &mut Serializer<W>) -> Result<(), EncodeError<W::Error>> {
        Ok(())
    }
}

// A tag has no item as a typed value, and a chunk may be no array (RFC 8949, section 3.2.3).
#[test]
fn a_payload_that_is_no_item_is_not_sealed(rt: HostRuntime) -> Result<(), Fail> {
    let alloc = rt.alloc();
    let tag = Value::Tag(1, Box::new(alloc, Value::Null)?);
    let rejection = seal(alloc, &Expected(b""), &tag).err();
    let words = "serialization Tag via serde is not supported";
    assert_eq!(rt;
        rejection,
        Some(SealError::Encode(EncodeError::Custom(words)))
    );
    let rejection = seal(alloc, &Expected(b""), &Silent).err();
    let missing = Eof {
        name: "value",
        expect: Small(1),
    };
    assert_eq!(rt; rejection, Some(SealError::Payload(Decode(missing))));
    let raw = RawValue::new(b"\x5f\x80\xff")?;
    let rejection = seal(alloc, &Expected(b""), &raw).err();
    assert_eq!(rt; rejection, Some(SealError::Payload(Decode(NO_CHUNK))));
    Ok(())
}

const SEALED_SHOWN: &str =
    "Envelope { key: 7, signature: Bytes([171, 205]), payload: PlainRawValue(RawValue([161, \
102, 115, 116, 97, 116, 117, 115, 24, 200])) }";

#[test]
fn an_envelope_comes_back(rt: HostRuntime) -> Result<(), Fail> {
    let alloc = rt.alloc();
    let bytes = Vec::from_slice(alloc, SEALED)?;
    comes_back_lent::<&[u8], envelope::Envelope<'_>>(alloc, &bytes, &bytes, SEALED_SHOWN)
}

type Opened = (&'static [u8], &'static [u8], u16);

// Payloads that are handed to the check as they stand: of indefinite length, with longer heads, and
// with a field that the type does not know.
const INDEFINITE: &[u8] = b"\xbf\x66status\x05\xff";

const LONG: &[u8] = b"\xb8\x01\x66status\x19\x00\x05";

const MORE: &[u8] = b"\xa2\x61x\x80\x66status\x05";

const INDEFINITE_SEALED: &[u8] =
    b"\xa3\x67payload\xbf\x66status\x05\xff\x63key\x07\x69signature\x42\xab\xcd";

const LONG_SEALED: &[u8] =
    b"\xa3\x63key\x07\x69signature\x42\xab\xcd\x67payload\xb8\x01\x66status\x19\x00\x05";

const MORE_SEALED: &[u8] =
    b"\xa3\x63key\x07\x69signature\x42\xab\xcd\x67payload\xa2\x61x\x80\x66status\x05";

const OPENED: &[Opened] = table! {
    (SEALED, REPLY, 200),
    (INDEFINITE_SEALED, INDEFINITE, 5),
    (LONG_SEALED, LONG, 5),
    (MORE_SEALED, MORE, 5),
};

#[test]
fn a_payload_is_checked_and_read(rt: HostRuntime) -> Result<(), Fail> {
    for &(bytes, message, status) in OPENED {
        let opened: Result<Reply, OpenError> = open(rt.alloc(), &Expected(message), bytes);
        match opened {
            Ok(reply) => assert_eq!(rt; reply.status, status),
            Err(error) => return Err(Fail::new(format_args!("{error:?} of {bytes:?}"))),
        }
    }
    Ok(())
}

type Rejection = (&'static [u8], &'static [u8], OpenError);

// Another key, another signature, and another payload.
const NOT_SIGNED: &[Rejection] = table! {
    (b"\xa3\x63key\x08\x69signature\x42\xab\xcd\x67payload\x05", b"\x05", NotSigned),
    (b"\xa3\x63key\x07\x69signature\x42\xab\xce\x67payload\x05", b"\x05", NotSigned),
    (b"\xa3\x63key\x07\x69signature\x42\xab\xcd\x67payload\x06", b"\x05", NotSigned),
    (b"\xa3\x63key\x07\x69signature\x42\xab\xcd\x67payload\x18\x05", b"\x05", NotSigned),
};

const NO_ENVELOPE: &[Rejection] = table! {
    (b"", b"", Envelope(Decode(Core(Eof { name: "map", expect: Small(1) })))),
    (b"\x80", b"", Envelope(Decode(Core(Mismatch { name: "map", found: 0x80 })))),
    (b"\xa1\x67payload\x05", b"", Envelope(Decode(Custom(KEY)))),
    (b"\xa2\x63key\x07\x67payload\x05", b"", Envelope(Decode(Custom(SIGNATURE)))),
    (b"\xa2\x63key\x07\x69signature\x40", b"", Envelope(Decode(Custom(PAYLOAD)))),
    (b"\xa1\x69signature\x5f\x41\xab\xff", b"", Envelope(Decode(Core(IN_CHUNKS)))),
};

const KEY: &str = "an envelope has one key";

const SIGNATURE: &str = "an envelope has one signature";

const PAYLOAD: &str = "an envelope has one payload";

const IN_CHUNKS: CoreError<Never> = RequireBorrowed { name: "bytes" };

const FIVE: &[u8] = b"\xa1\x66status\x05";

// What follows an envelope, and a second field of a name, whichever payload was signed.
const MORE_THAN_ONE: &[Rejection] = table! {
    (FOLLOWED, FIVE, Envelope(Trailing(1))),
    (TWO_PAYLOADS, FIVE, Envelope(Decode(Custom(PAYLOAD)))),
    (TWO_PAYLOADS, b"\x06", Envelope(Decode(Custom(PAYLOAD)))),
    (b"\xa2\x63key\x07\x63key\x07", b"", Envelope(Decode(Custom(KEY)))),
};

const FOLLOWED: &[u8] =
    b"\xa3\x63key\x07\x69signature\x42\xab\xcd\x67payload\xa1\x66status\x05\x00";

const TWO_PAYLOADS: &[u8] =
    b"\xa4\x63key\x07\x69signature\x42\xab\xcd\x67payload\x06\x67payload\xa1\x66status\x05";

// An array as a chunk, alone and before another payload, and a text that is no UTF-8.
const NO_CBOR: &[Rejection] = table! {
    (b"\xa1\x67payload\x5f\x80\xff", b"\x5f\x80\xff", Envelope(Decode(Core(NO_CHUNK)))),
    (b"\xa2\x67payload\x5f\x80\xff\x67payload\x05", b"\x05", Envelope(Decode(Core(NO_CHUNK)))),
    (b"\xa1\x67payload\x61\xff", b"\x61\xff", Envelope(Decode(Core(RequireUtf8 { name: "str" })))),
};

const NO_CHUNK: CoreError<Never> = Mismatch {
    name: "bytes",
    found: 0x80,
};

// A payload that was signed, and is no reply.
const NO_PAYLOAD: &[Rejection] = table! {
    (b"\xa3\x63key\x07\x69signature\x42\xab\xcd\x67payload\x05", b"\x05", NO_MAP),
    (b"\xa3\x63key\x07\x69signature\x42\xab\xcd\x67payload\xa0", b"\xa0", NO_STATUS),
};

const NO_MAP: OpenError = Payload(Decode(Core(Mismatch {
    name: "map",
    found: 5,
})));

const NO_STATUS: OpenError = Payload(Decode(Custom("a reply has one status")));

fn rejects(alloc: Global, rows: &[Rejection]) -> Result<(), Fail> {
    for (bytes, message, want) in rows {
        let opened: Result<Reply, OpenError> = open(alloc, &Expected(message), bytes);
        match opened {
            Err(error) if error == *want => {}
            answer => return Err(Fail::new(format_args!("{answer:?} of {bytes:?}"))),
        }
    }
    Ok(())
}

#[test]
fn other_envelopes_are_rejected(rt: HostRuntime) -> Result<(), Fail> {
    let alloc = rt.alloc();
    rejects(alloc, NOT_SIGNED)?;
    rejects(alloc, NO_ENVELOPE)?;
    rejects(alloc, MORE_THAN_ONE)?;
    rejects(alloc, NO_CBOR)?;
    rejects(alloc, NO_PAYLOAD)
}

#[test]
fn an_envelope_that_is_cut_is_rejected(rt: HostRuntime) -> Result<(), Fail> {
    for end in 0..SEALED.len() {
        let opened: Result<Reply, OpenError> = open(rt.alloc(), &Expected(REPLY), &SEALED[..end]);
        match opened {
            Err(Envelope(Decode(Core(Eof { .. })))) => {}
            answer => return Err(Fail::new(format_args!("{answer:?} of {end} bytes"))),
        }
    }
    Ok(())
}
