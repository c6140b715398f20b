//! What a user copies: a recipe a file, and in its `tests.rt` the rows of that recipe.
//!
//! | recipe | what it shows |
//! |---|---|
//! | `canonical` | any item, read, and written in its canonical encoding |
//! | `texts` | a text, borrowed from the input or joined out of a stream |
//! | `raw_items` | items that are kept as their bytes, and one that is skipped |
//! | `by_hand` | a map of two pairs, written and read by hand |
//! | `port` | what stands under a key of a value, with no type of one's own |
//! | `page` | a struct over a type parameter, and its law |
//! | `point` | a struct with an optional field, written and read in one call each, and its laws |
//! | `sample` | a struct that is written part by part |
//! | `reading` | a struct that is written as an array, with no names |
//! | `label` | a struct that borrows from the input |
//! | `enumeration` | an enum with variants of each kind, which a function reads |
//! | `event` | an enum that is read inside other types, as in a vector or a map |
//! | `reply` | a struct of which fields are left out where they are none |
//! | `cose_key` | a struct whose keys are integers |
//! | `settings` | a struct of eight fields with defaults, and at which byte its reading fails |
//! | `log` | a log of events, out of parts that are cut anywhere or out of a stream |
//! | `sequence` | items one after another (RFC 8742), out of a slice or a stream |
//! | `line` | requests and answers over a line, such as a socket |
//! | `meters` | a newtype, read and written as what it holds |
//! | `moment` | a newtype with a tag before it, and a struct that holds it |
//! | `percent` | a newtype with a test, which rejects what is read in words of its own |
//! | `nest` | a type that holds values of its own kind |
//! | `tree` | a struct that holds values of its own kind, written in one call and read as a value |
//! | `shape` | an enum that holds values of its own kind, exact both ways |
//! | `forest` | a struct that holds trees and a shape, with no line of proof |
//! | `station` | a type that is read and written by hand, each error proved |
//! | `store` | what a content-addressed store checks: one item, in its canonical encoding |
//! | `sorted` | a value whose maps are sorted, so that all who hold it write the same bytes |
//! | `envelope` | a signed payload, checked as its bytes stand and then read |
//!
//! The rows' values come from RFC 8949 and from worked examples, never from this codec's own
//! answers.
#![tactic(auto)]

pub mod by_hand;
pub mod canonical;
pub mod cose_key;
pub mod enumeration;
pub mod envelope;
pub mod event;
#[cfg(test)]
mod failures;
pub mod forest;
pub mod label;
pub mod line;
pub mod log;
pub mod meters;
pub mod moment;
pub mod nest;
pub mod page;
mod parts;
pub mod percent;
pub mod point;
pub mod port;
pub mod raw_items;
pub mod reading;
#[cfg(test)]
mod recipes;
#[cfg(test)]
mod rejected;
pub mod reply;
pub mod sample;
pub mod sequence;
pub mod settings;
pub mod shape;
pub mod sorted;
pub mod station;
pub mod store;
pub mod texts;
pub mod tree;
