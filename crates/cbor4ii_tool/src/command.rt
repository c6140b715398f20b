//! What the program can do.

/// What is done with the input.
#[derive(Clone, Copy, Debug, PartialEq, Eq)]
pub enum Command {
    /// Integers are written again, each in its shortest encoding.
    Ints,
    /// Values are written again, each in its canonical encoding.
    Canon,
    /// Of each item its length in bytes is written, in decimal and with a newline.
    Lens,
    /// Values in their canonical encoding, and no other, are written again. A tag's bytes stay, so
    /// `c2 41 05` is one, beside `05`.
    Strict,
}
