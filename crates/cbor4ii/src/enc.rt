//! Writers, and what is written to them.

pub use cbor4ii_items::encode::Encode;
pub use cbor4ii_rw::error::EncodeError as Error;
pub use cbor4ii_rw::write::Write;
