//! A text of Rust, cut into tokens.
ghost use Rattle.std.specs.Prelude.{◌≡◌, ◌++◌, OnOk, IfOk, encode_utf8};
ghost use Rattle.cbor4ii_describe.specs.Tokens.{taken_text_of, tokens_bytes};

use crate::fault::OrFault;
use std::alloc::Global;
use std::mem;

/// What a token is.
#[derive(Clone, Copy, Debug, PartialEq, Eq)]
pub enum Kind {
    Space,
    /// A word, a number or a lifetime.
    Word,
    /// A sign of one character.
    Sign,
    /// A slash, which may begin a comment.
    Slash,
    /// A comment, up to the end of its line.
    Comment,
    /// A text in quotes that is not closed yet.
    Open,
    /// A text in quotes that is not closed yet, behind a backslash.
    Escape,
    /// A text in quotes.
    Text,
}

/// A part of the input.
#[derive(Drop)]
pub struct Token {
    pub kind: Kind,
    pub text: String,
    /// The line that it begins on, counted from 1.
    pub line: u32,
}

// What a token is that begins with this character.
fn begun(c: char) -> Kind {
    match c {
        '"' => Kind::Open,
        '/' => Kind::Slash,
        '\'' | '_' => Kind::Word,
        _ if c.is_ascii_alphanumeric() => Kind::Word,
        _ if c.is_ascii_whitespace() => Kind::Space,
        _ => Kind::Sign,
    }
}

// What a token is once this character has joined it; none where the character begins another.
fn joined(kind: Kind, c: char) -> Option<Kind> {
    match kind {
        Kind::Space if c.is_ascii_whitespace() => Some(Kind::Space),
        Kind::Word if c == '_' || c.is_ascii_alphanumeric() => Some(Kind::Word),
        Kind::Slash if c == '/' => Some(Kind::Comment),
        Kind::Comment if c != '\n' => Some(Kind::Comment),
        Kind::Open if c == '"' => Some(Kind::Text),
        Kind::Open if c == '\\' => Some(Kind::Escape),
        Kind::Open | Kind::Escape => Some(Kind::Open),
        _ => None,
    }
}

// The tokens before the one in work, that one, and the line that is reached.
#[derive(Drop)]
struct Cutting {
    done: Vec<Token>,
    now: Token,
    line: u32,
}

fn take(alloc: Global, cut: &mut Cutting, c: char) -> OrFault<()>
    ensures { OnOk result (taken_text_of cut.new ≡ taken_text_of cut.old ++ encode_utf8 c) }
{
    match joined(cut.now.kind, c) {
        Some(kind) => {
            cut.now.text.push(c)?;
            cut.now.kind = kind;
        }
        None => {
            let mut text = String::new(alloc);
            text.push(c)?;
            let next = Token {
                kind: begun(c),
                text,
                line: cut.line,
            };
            let ended = mem::replace(&mut cut.now, next);
            cut.done.push(ended)?;
        }
    }
    if c == '\n' {
        cut.line = cut.line.saturating_add(1);
    }
    Ok(())
}

/// The tokens of a text, white space and comments among them, behind an empty one. Their texts
/// behind one another are the text.
pub fn cut(alloc: Global, text: &str) -> OrFault<Vec<Token>>
    ensures { IfOk result (λ tokens. tokens_bytes tokens.items ≡ text.now) }
{
    let mut cut = Cutting {
        done: Vec::new(alloc),
        now: Token {
            kind: Kind::Space,
            text: String::new(alloc),
            line: 1,
        },
        line: 1,
    };
    for c in text.chars() {
        take(alloc, &mut cut, c)?;
    }
    let Cutting { mut done, now, .. } = cut;
    done.push(now)?;
    Ok(done)
}
