//! Readers, writers and errors of a CBOR codec (RFC 8949).
//!
//! A reader is a `read::Source`: it shows a prefix of what is left, takes bytes when asked to, and
//! counts steps. One that may lend slices of its input is a `read::Read` too. A writer is a
//! `write::Write`. What makes them lawful stands in their clauses, in the words of specs/.
#![tactic(auto)]

pub mod ask;
pub mod buf_writer;
pub mod by_ref;
pub mod error;
pub mod explain;
pub mod input;
pub mod io_reader;
pub mod io_writer;
pub mod line_reader;
pub mod long;
pub mod read;
pub mod segment_reader;
pub mod slice_reader;
pub mod steps;
pub mod write;
