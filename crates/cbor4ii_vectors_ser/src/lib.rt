//! Rows of typed values that are only written, as tests, each file of one subject.
//! Rows of calls by their names stand in `calls`, and those of values as the parts of each call in
//! `parts`. What several of them share stands in `by_pieces`, `pieces`, `tagged` and
//! `typed`.
//!
//! The rows' values come from RFC 8949 and from worked examples, never from this codec's own
//! answers.
#![tactic(auto)]

#[cfg(test)]
mod accessors;
#[cfg(test)]
mod by_pieces;
#[cfg(test)]
mod calls;
#[cfg(test)]
mod elements;
#[cfg(test)]
mod error;
#[cfg(test)]
mod held;
#[cfg(test)]
mod laws;
#[cfg(test)]
mod leaf;
#[cfg(test)]
mod leaves;
#[cfg(test)]
mod listed;
#[cfg(test)]
mod maps;
#[cfg(test)]
mod parts;
pub mod pieces;
#[cfg(test)]
mod sequences;
#[cfg(test)]
mod slot;
#[cfg(test)]
mod tagged;
#[cfg(test)]
mod text;
#[cfg(test)]
mod tuples;
pub mod typed;
#[cfg(test)]
mod value;
#[cfg(test)]
mod write_all;
