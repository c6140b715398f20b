//! A reader over a line of request and answer, such as a socket. It waits for the bytes that it is
//! asked for, and for no more.
ghost use Rattle.std.specs.Prelude.{◌≡◌, ◌↔◌, ◌≤◌, ◌+◌, ◌-◌, min, None, Some, IsTrue, IfOk, IfErr};
ghost use Rattle.std.specs.Prelude.{MatchOption, drop, vec_len};
ghost use Rattle.std.specs.Borrow.{sem};
ghost use Rattle.std.specs.Io.BufRead.{Rests};
ghost use Rattle.std.proofs.Common.{rules};
ghost use Rattle.cbor4ii_rw.specs.Stream.{most_bytes};

use crate::read::Source;
use crate::steps::{self, NESTING_LIMIT};
use std::alloc::{AllocError, Global};
use std::fmt::Debug;

/// One end of a line: a socket, or what stands for one.
pub trait Line {
    /// Why nothing was received or sent.
    type Error: Debug + Drop;

    /// Puts bytes at the beginning of `room` and answers how many, waiting where none has come. It
    /// may wait until `room` is full, which is never larger than what the request still lacks. It
    /// answers 0 only where the other end has closed the line.
    fn receive(&mut self, room: &mut [u8]) -> Result<usize, Self::Error>;

    /// Sends all of `bytes`.
    fn send(&mut self, bytes: &[u8]) -> Result<(), Self::Error>;
}

/// How many bytes a reader waits for at once.
const ROOM: usize = 4096;

/// The bytes that were received and not taken, at the beginning of a room that does not grow.
#[derive(Drop)]
struct Ready {
    room: Vec<u8>,
    count: usize,
    // How many bytes were taken in all.
    taken: u64,
    ghost within: { count ≤ vec_len room },
    ghost fits: { taken + count ≤ most_bytes },
}

impl Ready {
    ghost use Rattle.cbor4ii_rw.specs.Line.{line_ready_bytes};

    /// The bytes.
    fn bytes(&self) -> &[u8]
        ensures { result.now ≡ line_ready_bytes self.now }
    {
        &self.room[..self.count]
    }

    /// How many bytes are lacking, so that `want` are ready: none where there is no room, or where
    /// as many as can be were taken.
    fn lacking(&self, want: usize) -> usize
        ensures exact { result ≡ min (min (want - self.now.count)
            (vec_len self.now.room - self.now.count))
            (most_bytes - self.now.taken - self.now.count) }
        ensures within { self.now.count + result ≤ vec_len self.now.room }
        ensures fits { self.now.taken + self.now.count + result ≤ most_bytes }
    {
        let room = self.room.len() - self.count;
        let left = u64::MAX - self.taken - self.count as u64;
        let lacking = want.saturating_sub(self.count).min(room);
        (lacking as u64).min(left) as usize
    }

    /// Receives at most `lacking` bytes, and answers whether any came.
    fn receive<L: Line + Drop>(&mut self, line: &mut L, lacking: usize) -> Result<bool, L::Error>
        requires within { self.old.count + lacking ≤ vec_len self.old.room }
        requires fits { self.old.taken + self.old.count + lacking ≤ most_bytes }
        ensures { self.new.taken ≡ self.old.taken }
    {
        let end = self.count + lacking;
        let came = line.receive(&mut self.room[self.count..end])?;
        self.count += came.min(lacking);
        Ok(came > 0)
    }

    /// Takes the first `n` bytes. The others stay, in their order.
    fn take(&mut self, n: usize)
        requires { n ≤ self.old.count }
        ensures bytes { line_ready_bytes self.new ≡ drop n (line_ready_bytes self.old) }
        ensures count { self.new.count + n ≡ self.old.count }
        ensures taken { self.new.taken ≡ self.old.taken + n }
    {
        self.room.copy_within(n..self.count, 0);
        self.count -= n;
        self.taken += n as u64;
    }
}

/// A reader with `NESTING_LIMIT` steps over a line, of which it takes 2^64-1 bytes at most. It
/// waits until as many bytes have come as are wanted, or 4,096, or the line is closed. So a look
/// may ask it for no byte that the item does not need: its window is 1. It reports none of its
/// bytes, so what is proved of known input is not said over it.
#[derive(Drop)]
pub struct LineReader<L> {
    line: L,
    ready: Ready,
    failures: u64,
    steps: usize,
}

impl<L: Line + Drop> LineReader<L> {
    ghost use Rattle.cbor4ii_rw.specs.Reader.{Shows, ReaderFails};
    ghost use Rattle.cbor4ii_rw.specs.Line.{line_of, line_view, line_ready_bytes, taken_of};
    ghost use Rattle.cbor4ii_rw.specs.contracts.line_reader.LineReader.{the_row};

    /// A reader over `line`, of which nothing was received.
    pub fn new(alloc: Global, line: L) -> Result<LineReader<L>, AllocError>
        ensures line { IfOk result (λ reader. line_of reader ≡ line) }
        ensures taken { IfOk result (λ reader. taken_of reader ≡ 0) }
        ensures failures { IfOk result (λ reader. (line_view reader).failures ≡ 0) }
        ensures budget { IfOk result (λ reader. (line_view reader).budget ≡ Some NESTING_LIMIT) }
    {
        let room = vec![in alloc; 0u8; ROOM]?;
        let ready = Ready {
            room,
            count: 0,
            taken: 0,
        };
        Ok(LineReader {
            line,
            ready,
            failures: 0,
            steps: NESTING_LIMIT,
        })
    }

    /// How many bytes were taken.
    pub fn taken(&self) -> u64
        ensures { result ≡ taken_of self.now }
    {
        self.ready.taken
    }

    /// Sends all of `bytes`. What was received stays ready.
    ///
    /// # Errors
    ///
    /// The line's own error.
    pub fn send(&mut self, bytes: &[u8]) -> Result<(), L::Error>
        ensures { line_view self.new ≡ line_view self.old }
    {
        self.line.send(bytes)
    }

    /// Whether the line is closed and no byte is left. It waits for a byte.
    ///
    /// # Errors
    ///
    /// The line's own error, which is counted. What came before it stays ready.
    pub fn is_closed(&mut self) -> Result<bool, L::Error>
        ensures closed { IfOk result
            (λ closed. IsTrue closed ↔ ((line_view self.new).advanceable ≡ 0)) }
        ensures taken { taken_of self.new ≡ taken_of self.old }
        ensures budget { (line_view self.new).budget ≡ (line_view self.old).budget }
        ensures failures { IfOk result
            (λ _. (line_view self.new).failures ≡ (line_view self.old).failures) }
        ensures failed { IfErr result (λ _. ReaderFails (line_view self.old) (line_view self.new)) }
    {
        match self.wait(1) {
            None => Ok(self.ready.count == 0),
            Some(error) => Err(error),
        }
    }

    /// The line.
    pub fn into_line(self) -> L
        ensures { result ≡ line_of self }
    {
        let LineReader { line, .. } = self;
        line
    }

    /// Waits until `want` bytes are ready, or the room is full, or the line is closed. What came
    /// before a failure stays ready.
    fn wait(&mut self, want: usize) -> Option<L::Error>
        ensures { MatchOption result
            (Shows (line_ready_bytes self.new.ready) (line_view self.old) (line_view self.new))
            (λ _. ReaderFails (line_view self.old) (line_view self.new)) }
    {
        // In each turn a byte comes.
        for _ in 0..ROOM {
            let lacking = self.ready.lacking(want);
            if lacking == 0 {
                break;
            }
            match self.ready.receive(&mut self.line, lacking) {
                Ok(true) => {}
                Ok(false) => break,
                Err(error) => {
                    self.failures = self.failures.saturating_add(1);
                    return Some(error);
                }
            }
        }
        None
    }

    /// The bytes that are ready.
    fn shown(&mut self) -> &[u8]
        ensures bytes { result.now ≡ line_ready_bytes self.old.ready }
        ensures* kept { sem 𝓛 (Rests (the_row L.row) self.entry
            (λ new. line_view new ≡ line_view self.old)) }
    {
        self.ready.bytes()
    }
}

/// The failure, or else the bytes.
fn shown_or<E>(bytes: &[u8], failure: Option<E>) -> Result<&[u8], E>
    ensures { MatchOption failure (result ≡ Ok bytes.entry) (λ error. result ≡ Err error) }
{
    match failure {
        None => Ok(bytes),
        Some(error) => Err(error),
    }
}

/// # Errors
///
/// The line's own error, which is counted. What came before it is kept, and no byte is taken.
impl<L: Line + Drop> Source for LineReader<L> {
    ghost use Rattle.cbor4ii_rw.specs.Line.{line_view};

    type Error = L::Error;

    ghost view = { line_view };

    fn show(&mut self, want: usize) -> Result<&[u8], L::Error> {
        let failure = self.wait(want);
        shown_or(self.shown(), failure)
    }

    fn advance(&mut self, n: usize) {
        self.ready.take(n);
    }

    fn step_in(&mut self) -> bool {
        steps::step_in(&mut self.steps)
    }

    fn step_out(&mut self) {
        steps::step_out(&mut self.steps);
    }

    ghost known_within_bound = { λ reader xs is. Prim.search rules };
}
