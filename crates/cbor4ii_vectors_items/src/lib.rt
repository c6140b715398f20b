//! Rows of bytes as tests of `cbor4ii_items`, and tests of `cbor4ii_rw` in `rw`.
//!
//! Each file has the rows of one subject. The rows' values come from RFC 8949 (its Appendix
//! A above all) and from worked examples, never from this codec's own answers. What several files
//! share stands in `borrowed_rows`, `cow_rows`, `in_parts` and `rw/shown`.
#![tactic(auto)]

#[cfg(test)]
mod borrowed_rows;
#[cfg(test)]
mod boxed;
#[cfg(test)]
mod canonical;
#[cfg(test)]
mod cow_rows;
#[cfg(test)]
mod decode;
#[cfg(test)]
mod heads;
#[cfg(test)]
mod in_parts;
#[cfg(test)]
mod laws;
#[cfg(test)]
mod maybe;
#[cfg(test)]
mod nothing;
#[cfg(test)]
mod numbers;
#[cfg(test)]
mod option;
#[cfg(test)]
mod reserve;
#[cfg(test)]
mod rw;
#[cfg(test)]
mod sequence;
#[cfg(test)]
mod sequences;
#[cfg(test)]
mod simple;
#[cfg(test)]
mod strings;
#[cfg(test)]
mod tag;
#[cfg(test)]
mod whole;
