//! Items skipped: what the heads of RFC 8949 section 3 say follows is passed over, in any prefix.

mod initial;
pub(crate) mod items;
mod next;
mod step;

pub(crate) use initial::{Additional, After, Start, pairs_of, parse_info, start_of};
