//! Whether a value has the `Debug` text that is meant, found without taking memory.
use std::fmt::{self, Debug, Write};

/// A text in pieces, each so many times. No piece is empty.
pub type Pieces<'a> = &'a [(&'a str, usize)];

/// What is still to be reported of a text.
#[derive(Drop)]
struct Unmatched<'a> {
    // Of the piece in work: its text, what is left of it, and how often it comes again.
    text: &'a str,
    left: &'a [u8],
    again: usize,
    after: Pieces<'a>,
}

impl Unmatched<'_> {
    // Whether this byte is next.
    fn takes(&mut self, byte: u8) -> bool {
        if self.left.is_empty() && self.again == 0 {
            let [(text, times), after @ ..] = self.after else {
                return false;
            };
            self.text = text;
            self.again = *times;
            self.after = after;
        }
        if self.left.is_empty() {
            self.again = self.again.saturating_sub(1);
            self.left = self.text.as_bytes();
        }
        let [first, left @ ..] = self.left else {
            return false;
        };
        self.left = left;
        *first == byte
    }

    fn is_empty(&self) -> bool {
        self.left.is_empty() && self.again == 0 && self.after.is_empty()
    }
}

/// Takes what is next of the text, and fails at anything else.
impl Write for Unmatched<'_> {
    fn write_str(&mut self, s: &str) -> fmt::Result {
        for byte in s.as_bytes() {
            if !self.takes(*byte) {
                return Err(fmt::Error);
            }
        }
        Ok(())
    }
}

/// Whether the value's `Debug` text is exactly these pieces.
pub fn has_debug_text<T: Debug>(value: &T, pieces: Pieces<'_>) -> bool {
    let mut unmatched = Unmatched {
        text: "",
        left: b"",
        again: 0,
        after: pieces,
    };
    write!(unmatched, "{value:?}").is_ok() && unmatched.is_empty()
}
