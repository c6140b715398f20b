//! Why a value was not read, or not written.

pub use cbor4ii_rw::error::{
    ArithmeticOverflow, DecodeError, EncodeError, ErrorAt, Len, Never, StaticStr, WholeError,
};
