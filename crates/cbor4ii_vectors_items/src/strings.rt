//! Rows of byte strings and texts.

mod asked;
mod borrowed;
mod chunks;
mod cow;
mod encode;
mod heads;
mod owned;
