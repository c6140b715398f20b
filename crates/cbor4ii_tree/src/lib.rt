//! Encoded data items of CBOR (RFC 8949): their definitions, the laws that hold of them, values
//! that are read and written, items that are skipped, and items that are kept as their bytes.
#![tactic(auto)]

mod accepted;
mod access;
mod ahead;
mod any_encoding;
mod bignum;
pub mod boxed_raw;
mod bytes_ahead;
pub mod decode_canonical;
mod decode_value;
mod encode_canonical;
mod encode_value;
mod equal_keys;
mod from;
mod hash;
pub mod ignored;
pub mod laws;
mod leaf;
mod lend_raw;
mod order;
pub mod plain_raw;
mod range;
pub mod raw;
mod raw_head;
mod raw_key;
pub mod raw_parts;
mod run;
mod simple;
mod skip;
mod slot;
pub mod text_pairs;
mod total_order;
mod unseen;
pub mod value;
mod whole_slice;

pub use boxed_raw::BoxedRawValue;
pub use decode_canonical::Canonical;
pub use ignored::IgnoredAny;
pub use plain_raw::PlainRawValue;
pub use raw::RawValue;
pub use raw_parts::{RawItems, RawPairs};
pub use text_pairs::TextPairs;
pub use value::{FloatBits, NoMemory, Value};
