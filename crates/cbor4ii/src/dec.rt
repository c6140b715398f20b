//! Readers, and what is read from them.

pub use cbor4ii_items::canonical::{canonical_buf, canonical_head};
pub use cbor4ii_items::decode::{ArrayStart, Decodable, Decode};
pub use cbor4ii_items::indefinite::is_break;
pub use cbor4ii_items::initial::{high, if_major, low};
pub use cbor4ii_items::sequence::{is_at_end, next_item};
pub use cbor4ii_items::whole::{decode_whole, decode_whole_at};
pub use cbor4ii_rw::error::DecodeError as Error;
pub use cbor4ii_rw::input::Input;
pub use cbor4ii_rw::long::FillLong;
pub use cbor4ii_rw::read::{Read, Reference, Source};
pub use cbor4ii_rw::{ask, steps};
pub use cbor4ii_tree::IgnoredAny;
