//! Tests of `cbor4ii_rw`: readers, writers and errors.

mod by_ref;
mod connection;
mod error;
mod explain;
mod io_reader;
mod read;
mod segment_reader;
pub mod shown;
mod writers;
