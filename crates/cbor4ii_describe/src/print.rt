//! The text of a described type.
pub mod codec;
pub mod described;
pub mod deserialize;
pub mod from;
pub mod layout;
pub mod lists;
pub mod serialize;
pub mod types;
pub mod uses;
pub mod variants;
