//! Rows of whole items: a file tests the file of its name in `cbor4ii_tree`. Hashes are tested in
//! `order`, `from.rt` in `value`, and pairs of texts in `equal_keys`. What several files share
//! stands in `item`, `item_rows`, `plain_raw` and `literal`.
//!
//! Files of that crate with nothing public have none here:
//! - `leaf.rt`, `run.rt`, `simple.rt` and `slot.rt` are called by `Value` and `Canonical`
//! - `skip.rt`, `unseen.rt`, `ahead.rt` and `prefix.rt` are called by `IgnoredAny`
//! - `lend_raw.rt` is called by `RawValue` and `BoxedRawValue`, and `range.rt` by a law
//! - `raw_head.rt` and `raw_key.rt` are called by what `raw_parts.rt` looks for
//! - `bignum.rt` is called by `Canonical`, and `total_order.rt` by what looks for equal keys
//!
//! The rows' values come from RFC 8949 (its Appendix A above all) and from worked examples, never
//! from this codec's own answers.
#![tactic(auto)]

#[cfg(test)]
mod access;
#[cfg(test)]
mod boxed_raw;
#[cfg(test)]
mod decode_canonical;
#[cfg(test)]
mod decode_value;
#[cfg(test)]
mod encode_canonical;
#[cfg(test)]
mod encode_value;
#[cfg(test)]
mod equal_keys;
#[cfg(test)]
mod ignored;
#[cfg(test)]
mod item;
#[cfg(test)]
mod item_rows;
#[cfg(test)]
mod laws;
#[cfg(test)]
mod literal;
#[cfg(test)]
mod order;
#[cfg(test)]
mod plain_raw;
#[cfg(test)]
mod raw;
#[cfg(test)]
mod raw_parts;
#[cfg(test)]
mod value;
#[cfg(test)]
mod whole_slice;
