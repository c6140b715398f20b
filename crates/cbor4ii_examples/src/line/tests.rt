//! Rows of requests one after another, of faults with their bytes, and of a line that is closed.
use crate::line::{Fault, Refusal, serve};
use crate::point::Point;
use crate::reply::Reply;
use cbor4ii::dec::Source;
use cbor4ii::dec::ask::look;
use cbor4ii::error::DecodeError::Eof;
use cbor4ii::error::StaticStr;
use cbor4ii::serde::DecodeError::Core;
use cbor4ii::utils::{Line, LineReader};
use cbor4ii_vectors::table;
use std::alloc::Global;
use std::test::Fail;

/// The other end of a line. It sends a request, and nothing more until it has the answer: who waits
/// for another byte waits for ever, which is told as a failure. After the last answer it closes the
/// line.
#[derive(Drop)]
struct Asker {
    requests: &'static [&'static [u8]],
    // How many bytes come at most at once.
    most: usize,
    // How many requests were answered, and how many bytes of the next one were sent.
    answered: usize,
    sent: usize,
    end: End,
    // What was sent to it.
    answers: Vec<u8>,
}

/// What becomes of the last request.
#[derive(Clone, Copy)]
enum End {
    /// It is answered.
    Answered,
    /// So many of its bytes are sent, and then the line is closed.
    Closed(usize),
    /// So many of its bytes are sent, and then the line fails.
    Lost(usize),
    /// Its answer is not taken.
    Refused,
}

impl Asker {
    /// How the next request ends.
    fn end(&self) -> End {
        if self.answered.saturating_add(1) == self.requests.len() {
            self.end
        } else {
            End::Answered
        }
    }
}

impl Line for Asker {
    type Error = StaticStr;

    fn receive(&mut self, room: &mut [u8]) -> Result<usize, StaticStr> {
        if self.answered >= self.requests.len() {
            return Ok(0);
        }
        let request = self.requests[self.answered];
        let left = &request[self.sent.min(request.len())..];
        let most = match self.end() {
            End::Closed(most) => most.saturating_sub(self.sent),
            End::Lost(most) if most <= self.sent => return Err("the line is lost"),
            End::Lost(most) => most.saturating_sub(self.sent),
            _ if left.len() < room.len() => return Err("this byte never comes"),
            _ => left.len(),
        };
        let count = most.min(left.len()).min(room.len()).min(self.most);
        room[..count].copy_from_slice(&left[..count]);
        self.sent = self.sent.saturating_add(count);
        Ok(count)
    }

    fn send(&mut self, bytes: &[u8]) -> Result<(), StaticStr> {
        if matches!(self.end(), End::Refused) {
            return Err("it is not taken");
        }
        self.answered = self.answered.saturating_add(1);
        self.sent = 0;
        match self.answers.extend_from_slice(bytes) {
            Ok(()) => Ok(()),
            Err(_) => Err("no memory"),
        }
    }
}

// How requests were answered: the answers, how many bytes were taken, and how it ended.
type Served = (Vec<u8>, u64, Result<u64, Fault<StaticStr>>);

// A reader over a line whose other end sends these requests.
fn waiting(
    alloc: Global,
    requests: &'static [&'static [u8]],
    most: usize,
    end: End,
) -> Result<LineReader<Asker>, Fail> {
    let asker = Asker {
        requests,
        most,
        answered: 0,
        sent: 0,
        end,
        answers: Vec::new(alloc),
    };
    Ok(LineReader::new(alloc, asker)?)
}

// The status of the reply is the point's x.
fn served(
    alloc: Global,
    requests: &'static [&'static [u8]],
    most: usize,
    end: End,
) -> Result<Served, Fail> {
    let reader = waiting(alloc, requests, most, end)?;
    let (reader, outcome) = serve(
        reader,
        alloc,
        |point: Point| Reply {
            status: (point.x % 1000) as u16,
            reason: None,
            retry: None,
        },
    );
    let taken = reader.taken();
    Ok((reader.into_line().answers, taken, outcome))
}

const FIVE: &[u8] = b"\xa2\x61x\x05\x64name\x61a";

const TO_FIVE: &[u8] = b"\xa1\x66status\x05";

// Requests, and the answers.
type Row = (&'static [&'static [u8]], &'static [u8]);

const ROWS: &[Row] = table! {
    (&[], b""),
    (&[FIVE], TO_FIVE),
    (&[FIVE, b"\xa3\x61x\x06\x64name\x61a\x61y\x20", FIVE],
        b"\xa1\x66status\x05\xa1\x66status\x06\xa1\x66status\x05"),
    // A number of two bytes, in a head of five.
    (&[b"\xa2\x61x\x1a\x00\x00\x01\xf4\x64name\x60", FIVE],
        b"\xa1\x66status\x19\x01\xf4\xa1\x66status\x05"),
    // An indefinite length, a name in chunks, and a pair that is skipped.
    (&[b"\xbf\x61z\x82\xf6\x9f\xff\x7f\x62na\x62me\xff\x61a\x61x\x05\xff", FIVE],
        b"\xa1\x66status\x05\xa1\x66status\x05"),
    // A name and a text of 24 bytes.
    (&[b"\xa3\x61x\x05\x78\x18abcdefghijklmnopqrstuvwx\x00\x64name\x78\x18\
        ABCDEFGHIJKLMNOPQRSTUVWX"], TO_FIVE),
};

#[test]
fn requests_are_answered_one_after_another(rt: HostRuntime) -> Result<(), Fail> {
    for most in [1, 3, 4096] {
        for (requests, answers) in ROWS {
            let (sent, taken, outcome) = served(rt.alloc(), requests, most, End::Answered)?;
            assert_eq!(rt; outcome, Ok(requests.len() as u64));
            assert_eq!(rt; sent.as_slice(), *answers);
            assert_eq!(rt; taken, length(requests));
        }
    }
    Ok(())
}

// How many bytes the requests have.
fn length(requests: &[&[u8]]) -> u64 {
    let mut length: u64 = 0;
    for request in requests {
        length = length.saturating_add(request.len() as u64);
    }
    length
}

// How many bytes are looked for, what is shown, and how many of it are taken.
type LookRow = (usize, &'static [u8], usize);

const LOOKS: &[LookRow] = table! {
    (3, b"abc", 1),
    (2, b"bc", 0),
    (4, b"bcde", 3),
    (1, b"e", 0),
    (2, b"ef", 2),
};

// What was shown and not taken is shown first, however the bytes come.
#[test]
fn what_is_not_taken_is_shown_again(rt: HostRuntime) -> Result<(), Fail> {
    for most in [1, 2, 4096] {
        let mut reader = waiting(rt.alloc(), &[b"abcdef"], most, End::Answered)?;
        for (want, bytes, taken) in LOOKS {
            let mut failure = None;
            let shown = look(&mut reader, *want, &mut failure).ok_or("a look fails")?;
            assert_eq!(rt; shown, *bytes);
            let count = shown.len();
            reader.advance(count.min(*taken));
        }
        assert_eq!(rt; reader.taken(), 6);
    }
    Ok(())
}

// Requests, the end of the last one, and why it was not answered.
type FaultRow = (&'static [&'static [u8]], End, &'static str);

// A request of 11 bytes is answered before it.
const FAULTS: &[FaultRow] = table! {
    (&[FIVE, b"\x05"], End::Answered, "Request(Core(Mismatch { name: \"map\", found: 5 }))"),
    (&[FIVE, b"\xa1\x61x\x20"], End::Answered,
        "Request(Core(Mismatch { name: \"u32\", found: 32 }))"),
    (&[FIVE, b"\xa0"], End::Answered, "Request(Custom(\"a point has one x\"))"),
    (&[FIVE, FIVE], End::Lost(0), "Request(Core(Read(\"the line is lost\")))"),
    (&[FIVE, FIVE], End::Lost(10), "Request(Core(Read(\"the line is lost\")))"),
    (&[FIVE, FIVE], End::Refused, "Send(\"it is not taken\")"),
};

#[test]
fn a_fault_tells_its_byte(rt: HostRuntime) -> Result<(), Fail> {
    for (requests, end, why) in FAULTS {
        let (sent, _, outcome) = served(rt.alloc(), requests, 4096, *end)?;
        assert_eq!(rt; sent.as_slice(), TO_FIVE);
        let Err(fault) = outcome else {
            return Err(Fail::new(format_args!("no fault in {requests:?}")));
        };
        assert_eq!(rt; fault.at, 11);
        let error = fault.error;
        assert_eq!(rt; format!(in rt.alloc(); "{error:?}")?.as_str(), *why);
    }
    Ok(())
}

#[test]
fn a_line_is_closed_within_a_request(rt: HostRuntime) -> Result<(), Fail> {
    for most in 0..FIVE.len() {
        let (sent, taken, outcome) = served(rt.alloc(), &[FIVE, FIVE], 4096, End::Closed(most))?;
        assert_eq!(rt; sent.as_slice(), TO_FIVE);
        match outcome {
            Ok(count) => assert!(rt; most == 0 && count == 1 && taken == 11),
            Err(fault) => {
                assert!(rt; most > 0 && fault.at == 11);
                assert!(rt; matches!(&fault.error, Refusal::Request(Core(Eof { .. }))));
            }
        }
    }
    Ok(())
}
