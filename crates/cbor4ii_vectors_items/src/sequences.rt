//! Rows of arrays and maps.

mod array;
mod encode;
mod heads;
mod map;
