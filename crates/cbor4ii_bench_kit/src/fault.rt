//! Why a job failed.
use cbor4ii::serde;
use cbor4ii_rw::error::{DecodeError, EncodeError};
use std::alloc::AllocFailed;
use std::collections::TryReserveError;
use std::fmt::Debug;
use std::io;

/// A job failed, in these words.
#[derive(Debug, Drop)]
pub struct Fault(pub &'static str);

impl<E: Debug + Drop> From<DecodeError<E>> for Fault {
    fn from(_error: DecodeError<E>) -> Fault {
        Fault("an item is rejected")
    }
}

impl<E: Debug + Drop> From<EncodeError<E>> for Fault {
    fn from(_error: EncodeError<E>) -> Fault {
        Fault("an item cannot be written")
    }
}

impl<E: Debug + Drop> From<serde::DecodeError<E>> for Fault {
    fn from(_error: serde::DecodeError<E>) -> Fault {
        Fault("a typed value is rejected")
    }
}

impl<E: Debug + Drop> From<serde::EncodeError<E>> for Fault {
    fn from(_error: serde::EncodeError<E>) -> Fault {
        Fault("a typed value cannot be written")
    }
}

impl From<TryReserveError> for Fault {
    fn from(_error: TryReserveError) -> Fault {
        Fault("no memory")
    }
}

impl<T: Drop> From<AllocFailed<T>> for Fault {
    fn from(_error: AllocFailed<T>) -> Fault {
        Fault("no memory")
    }
}

impl From<io::Error> for Fault {
    fn from(_error: io::Error) -> Fault {
        Fault("a stream failed")
    }
}
