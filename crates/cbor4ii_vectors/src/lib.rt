//! How a row of bytes is tried: readers and writers for tests, streams that fail, and what is
//! compared.
#![tactic(auto)]

pub mod asked;
pub mod compared;
pub mod connection;
mod errors;
pub mod items;
pub mod readers;
pub mod repeated;
pub mod rows;
pub mod streams;
pub mod writers;
