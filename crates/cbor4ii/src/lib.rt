//! A codec for CBOR (RFC 8949) under the paths of the Rust crate cbor4ii, and typed values, read.
//! What stands below `core` there stands at the top here.
#![tactic(auto)]

pub mod dec;
pub mod enc;
pub mod error;
pub mod serde;
pub mod utils;

pub use cbor4ii_items::{major, marker, types};
pub use cbor4ii_tree::{
    BoxedRawValue, Canonical, FloatBits, NoMemory, PlainRawValue, RawValue, Value,
};
