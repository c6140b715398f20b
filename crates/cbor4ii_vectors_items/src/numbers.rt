//! Rows of integers.

mod big;
mod negative;
mod signed;
mod unsigned;
