//! Rows of typed values that are read, as tests. Rows of types stand in `leaves`, `containers` and
//! `any`, those of calls by their names in `calls`, `accessor`, `enum_accessor` and `many`. Rows of
//! places and counted fields stand in `fields`, those of cases in `variant_fields`. `laws` has the
//! laws, and `paths` the Rust crate's paths.
//! What several of them share stands in `asked`, `growth`, `lent_strings`, `nested`, `typed` and
//! `values`.
//!
//! The rows' values come from RFC 8949 (its Appendix A above all) and from worked examples, never
//! from this codec's own answers.
#![tactic(auto)]

#[cfg(test)]
mod accessor;
#[cfg(test)]
mod any;
#[cfg(test)]
mod asked;
#[cfg(test)]
mod borrowed;
#[cfg(test)]
mod calls;
#[cfg(test)]
mod containers;
#[cfg(test)]
mod elements;
#[cfg(test)]
mod enum_accessor;
#[cfg(test)]
mod error;
#[cfg(test)]
mod fields;
#[cfg(test)]
mod first;
#[cfg(test)]
mod growth;
#[cfg(test)]
mod keyed_fields;
#[cfg(test)]
mod laws;
#[cfg(test)]
mod leaves;
#[cfg(test)]
mod lent_strings;
#[cfg(test)]
mod many;
#[cfg(test)]
mod names;
#[cfg(test)]
mod nested;
#[cfg(test)]
mod paths;
#[cfg(test)]
mod presence;
#[cfg(test)]
mod raw;
#[cfg(test)]
mod tagged;
pub mod typed;
#[cfg(test)]
mod values;
#[cfg(test)]
mod variant_fields;
