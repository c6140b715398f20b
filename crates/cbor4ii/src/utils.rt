//! The readers and the writers.

pub use cbor4ii_rw::buf_writer::BufWriter;
pub use cbor4ii_rw::error::TryReserveError;
pub use cbor4ii_rw::io_reader::IoReader;
pub use cbor4ii_rw::io_writer::IoWriter;
pub use cbor4ii_rw::line_reader::{Line, LineReader};
pub use cbor4ii_rw::segment_reader::SegmentReader;
pub use cbor4ii_rw::slice_reader::SliceReader;
