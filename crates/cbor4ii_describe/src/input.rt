//! The tokens that are left to read.
ghost use Rattle.std.specs.Prelude.{◌≡◌, ◌+◌, ◌<◌, ◌↔◌, OnOk, OnSome, IfNone, IsSome, IsTrue};
ghost use Rattle.cbor4ii_describe.specs.Input.{left_count, Shorter, NoLonger};

use crate::fault::{Fault, OrFault, Why, refused};
use crate::tokens::{Kind, Token};
use std::alloc::Global;

/// What is left of the input, without white space and plain comments: the next token stands last.
#[derive(Drop)]
pub struct Input {
    left: Vec<Token>,
    line: u32,
}

// Whether a token counts: comments do where they document what follows.
fn counts(token: &Token) -> bool {
    match token.kind {
        Kind::Space => false,
        Kind::Comment => token.text.as_str().starts_with("///"),
        _ => true,
    }
}

impl Input {
    /// The input of these tokens.
    pub fn new(alloc: Global, tokens: Vec<Token>) -> OrFault<Input> {
        let mut left = Vec::new(alloc);
        for token in tokens.into_iter().rev() {
            if counts(&token) {
                left.push(token)?;
            }
        }
        Ok(Input { left, line: 1 })
    }

    /// The line of the token that was taken last.
    pub fn line(&self) -> u32 {
        self.line
    }

    /// The next token, which stays.
    pub fn peek(&self) -> Option<&Token>
        ensures { IsSome result ↔ (0 < left_count self.now) }
    {
        self.left.last()
    }

    /// Takes the next token.
    pub fn take(&mut self) -> Option<Token>
        ensures takes { OnSome result (left_count self.new + 1 ≡ left_count self.old) }
        ensures none { IfNone result (left_count self.new ≡ left_count self.old) }
    {
        let token = self.left.pop()?;
        self.line = token.line;
        Some(token)
    }

    /// Whether the next token is this one.
    pub fn is_next(&self, text: &str) -> bool {
        match self.peek() {
            Some(token) => token.text.as_str() == text,
            None => false,
        }
    }

    /// Takes the next token where it is this one, and says whether it was.
    pub fn took(&mut self, text: &str) -> bool
        ensures takes { IsTrue result → Shorter self.old self.new }
        ensures others { NoLonger self.old self.new }
    {
        self.is_next(text) && self.take().is_some()
    }

    /// Takes this token.
    pub fn want(&mut self, text: &str) -> OrFault<()>
        ensures { OnOk result (Shorter self.old self.new) }
    {
        match self.took(text) {
            true => Ok(()),
            false => Err(self.fault(Why::Unexpected)),
        }
    }

    /// Takes a token of this kind.
    pub fn want_kind(&mut self, kind: Kind, why: Why) -> OrFault<String>
        ensures { OnOk result (Shorter self.old self.new) }
    {
        match self.take() {
            Some(token) if token.kind == kind => Ok(token.text),
            _ => refused(self.line, why),
        }
    }

    /// Takes a word.
    pub fn word(&mut self) -> OrFault<String>
        ensures { OnOk result (Shorter self.old self.new) }
    {
        self.want_kind(Kind::Word, Why::NoName)
    }

    /// Takes a word that is a name: it begins with a letter or `_`.
    pub fn name(&mut self) -> OrFault<String>
        ensures { OnOk result (Shorter self.old self.new) }
    {
        let name = self.word()?;
        match name.as_bytes().first() {
            Some(first) if *first == b'_' || first.is_ascii_alphabetic() => Ok(name),
            _ => refused(self.line, Why::NoName),
        }
    }

    /// Takes a text in quotes: what stands between them. It is plain ASCII with no backslash, of
    /// at most 255 bytes.
    pub fn text(&mut self, alloc: Global) -> OrFault<String>
        ensures { OnOk result (Shorter self.old self.new) }
    {
        let quoted = self.want_kind(Kind::Text, Why::Unexpected)?;
        match plain(quoted.as_str()) {
            Some(text) => Ok(String::from_str(alloc, text)?),
            None => refused(self.line, Why::PlainText),
        }
    }

    /// Takes an integer that is not negative, of 64 bits.
    pub fn integer(&mut self) -> OrFault<u64>
        ensures { OnOk result (Shorter self.old self.new) }
    {
        let digits = self.want_kind(Kind::Word, Why::Integer)?;
        match digits.as_str().parse::<u64>() {
            Ok(number) => Ok(number),
            Err(_) => refused(self.line, Why::Integer),
        }
    }

    /// Takes the comma behind a part, which need not stand before this bracket.
    pub fn end_part(&mut self, close: &str) -> OrFault<()>
        ensures { OnOk result (NoLonger self.old self.new) }
    {
        if self.is_next(close) {
            Ok(())
        } else {
            self.want(",")
        }
    }

    /// The fault at the next token, or at the last one where none is left.
    pub fn fault(&self, why: Why) -> Fault {
        let line = match self.peek() {
            Some(token) => token.line,
            None => self.line,
        };
        Fault::Refused { line, why }
    }
}

// What stands between the quotes, where that is plain ASCII with no backslash, and at most 255
// bytes.
fn plain(quoted: &str) -> Option<&str> {
    let text = quoted.strip_prefix("\"")?.strip_suffix("\"")?;
    if text.len() < 256 && text.bytes().all(|b| b' ' <= b && b <= b'~' && b != b'\\') {
        Some(text)
    } else {
        None
    }
}
