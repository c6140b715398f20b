//! Typed values, written as the items that stand for them (RFC 8949).
//!
//! A type that is `serialize::Serialize` says which item stands for each of its values, and writes
//! it by the calls of a `serializer::Serializer`: one for each kind of value, `collect::Collect`
//! and `bounded::BoundedCollect` for arrays and maps that are written part by part, one call for a
//! struct or a variant of so many fields, and one for an array of so many elements. A text
//! that comes in pieces is a `text::Text`. `write_all` has the calls that write one value whole.
#![tactic(auto)]

pub mod bounded;
pub mod collect;
pub mod elements;
pub mod error;
mod fields;
mod heads;
mod held;
pub mod key;
pub mod laws;
pub mod leaf;
mod leaves;
pub mod listed;
mod maps;
mod raw;
mod sequences;
pub mod serialize;
pub mod serializer;
mod slot;
mod tagged;
pub mod text;
mod tuples;
mod value;
mod variants;
pub mod write_all;
