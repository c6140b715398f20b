//! Arrays and maps.

mod array;
mod encode;
mod heads;
mod map;
mod parts;
