//! Byte strings and texts.

mod borrowed;
mod chunks;
pub(crate) mod content;
mod cow;
mod definite;
mod encode;
mod heads;
mod lent;
mod lent_or_owned;
mod owned;
