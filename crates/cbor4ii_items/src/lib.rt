//! Items: what is read and written, from numbers to arrays and maps.
#![tactic(auto, using(crate::proofs::Passed::decodes_passed, crate::proofs::Passed::runs_passed, crate::proofs::Passed::writes_passed))]

mod additional;
pub mod bignum;
mod boxed;
pub mod canonical;
pub mod decode;
pub mod encode;
mod floats;
mod head;
pub mod indefinite;
pub mod initial;
pub mod integer_head;
pub mod laws;
pub mod leaf;
pub mod major;
pub mod marker;
mod maybe;
mod nothing;
mod numbers;
mod option;
mod prefix;
mod push;
pub mod reserve;
pub mod sequence;
mod sequences;
mod shortest_head;
mod simple;
mod strings;
mod tag;
pub mod types;
pub mod whole;
