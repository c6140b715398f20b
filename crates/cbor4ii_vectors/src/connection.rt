//! A reader over a user's own connection, whose error may be of any type.
//!
//! The reader has an error of its own, and keeps the connection's, so that no line of proof is
//! wanted for it.
ghost use Rattle.std.specs.Prelude.{◌≡◌, None, Some, MatchResult};
ghost use Rattle.std.proofs.Common.{rules};
ghost use Rattle.cbor4ii_rw.specs.Reader.{Shows, ReaderFails};
ghost use Rattle.cbor4ii_vectors.specs.Connection.{connected_view, ready_bytes};

use cbor4ii_rw::read::Source;
use cbor4ii_rw::steps::{self, NESTING_LIMIT};
use std::alloc::Global;
use std::fmt::Debug;

/// What receives bytes.
pub trait Connection {
    /// Why nothing was received.
    type Error: Debug + Drop;

    /// Puts what has come after what stands in `room`, and waits where nothing has. At the end it
    /// puts nothing.
    fn receive(&mut self, room: &mut Vec<u8>) -> Result<(), Self::Error>;
}

/// That a connection failed.
#[derive(Clone, Copy, Debug, PartialEq, Eq)]
pub struct Lost;

/// A reader with `NESTING_LIMIT` steps over a connection, of which it takes 2^63 bytes at most.
/// What is left of a part that was received is shown, whatever is wanted, and the next part once
/// all is taken.
#[derive(Drop)]
pub struct Connected<C: Connection + Drop> {
    connection: C,
    // The last part that was received, and how many of its bytes were taken.
    ready: Vec<u8>,
    start: usize,
    // How many bytes may still be received.
    left: usize,
    steps: usize,
    failures: u64,
    error: Option<C::Error>,
}

impl<C: Connection + Drop> Connected<C> {
    /// A reader over `connection`, of which nothing was received.
    pub fn new(alloc: Global, connection: C) -> Connected<C>
        ensures budget { (connected_view result).budget ≡ Some NESTING_LIMIT }
        ensures failures { (connected_view result).failures ≡ 0 }
    {
        Connected {
            connection,
            ready: Vec::new(alloc),
            start: 0,
            left: 1 << 63,
            steps: NESTING_LIMIT,
            failures: 0,
            error: None,
        }
    }

    /// The connection's own error, where it failed.
    pub fn into_error(self) -> Option<C::Error>
        ensures { result ≡ self.error }
    {
        self.error
    }

    /// Receives a part where no byte of the last one is left.
    fn receive(&mut self) -> Result<(), Lost>
        ensures { MatchResult result
            (λ _. Shows (ready_bytes self.new) (connected_view self.old) (connected_view self.new))
            (λ _. ReaderFails (connected_view self.old) (connected_view self.new)) }
    {
        if self.start < self.ready.len() {
            return Ok(());
        }
        self.ready.clear();
        self.start = 0;
        match self.connection.receive(&mut self.ready) {
            Ok(()) => {
                self.ready.truncate(self.left);
                self.left -= self.ready.len();
                Ok(())
            }
            Err(error) => {
                self.ready.clear();
                self.error = Some(error);
                self.failures = self.failures.saturating_add(1);
                Err(Lost)
            }
        }
    }

    /// What is left of the last part.
    fn ready(&self) -> &[u8]
        ensures { result.now ≡ ready_bytes self.now }
    {
        &self.ready[self.start.min(self.ready.len())..]
    }
}

impl<C: Connection + Drop> Source for Connected<C> {
    type Error = Lost;

    ghost view = { connected_view };

    fn show(&mut self, _want: usize) -> Result<&[u8], Lost> {
        match self.receive() {
            Ok(()) => Ok(self.ready()),
            Err(lost) => Err(lost),
        }
    }

    fn advance(&mut self, n: usize) {
        self.start += n;
    }

    fn step_in(&mut self) -> bool {
        steps::step_in(&mut self.steps)
    }

    fn step_out(&mut self) {
        steps::step_out(&mut self.steps);
    }

    ghost known_within_bound = { λ reader xs is. Prim.search rules };
}
