//! Integers.

mod big;
mod negative;
mod signed;
mod unsigned;
