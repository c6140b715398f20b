//! Rows of a struct over a type parameter.
use crate::meters::Meters;
use crate::page::Page;
use crate::recipes::tries_recipe;
use cbor4ii::dec::Source;
use cbor4ii::serde::Deserialize;
use cbor4ii_vectors::{mismatch, no_step, table};
use cbor4ii_vectors_de::typed::{BothShown, RowShown, RowShownWithin, comes_back};
use std::test::Fail;

const LAST: &[u8] = b"\xa3\x65total\x02\x67entries\x82\x05\x17\x64next\xf6";

const LAST_SHOWN: &str = "Is(Page { total: 2, entries: [Meters(5), Meters(23)], next: None })";

const FIRST: &[u8] = b"\xa3\x65total\x19\x01\xf4\x67entries\x81\x05\x64next\x18\x18";

const FIRST_SHOWN: &str = "Is(Page { total: 500, entries: [Meters(5)], next: Some(Meters(24)) })";

const PAGES_BOTH: &[BothShown] = table! {
    (LAST, LAST_SHOWN),
    (FIRST, FIRST_SHOWN),
};

// Entries may come first, and a page that has no next one may leave it out.
const PAGES: &[RowShown] = table! {
    (b"\xa2\x67entries\x80\x65total\x00",
        Ok("Is(Page { total: 0, entries: [], next: None })"), b""),
    (b"\xa2\x67entries\x81\x20\x65total\x00", Err(mismatch!("u32", 32)), b"\x65total\x00"),
    (b"\xa1\x65total\x00\x01", Ok("Custom(\"a page has one list of entries\")"), b"\x01"),
    (b"\xa2\x65total\x00\x65total\x00\x01", Ok("Custom(\"a page has one total\")"), b"\x01"),
    (b"\xa4\x64next\xf6\x65total\x00\x67entries\x80\x64next\x05\x01",
        Ok("Custom(\"a page has one next\")"), b"\x01"),
};

const PAGES_WITHIN: &[RowShownWithin] = table! {
    (LAST, 1, Err(no_step!("seq")), b"\x82\x05\x17\x64next\xf6"),
    (LAST, 2, Ok(LAST_SHOWN), b""),
};

#[test]
fn pages_are_written_and_read(rt: HostRuntime) -> Result<(), Fail> {
    tries_recipe(rt.alloc(), "Page<Meters>", PAGES_BOTH, PAGES, PAGES_WITHIN)
}

const PAGE_OF_PAGES: &[u8] = b"\xa3\x65total\x01\x67entries\x81\
\xa3\x65total\x00\x67entries\x80\x64next\xf6\x64next\xf6";

#[test]
fn a_page_of_pages_comes_back(rt: HostRuntime) -> Result<(), Fail> {
    let shown =
        "Page { total: 1, entries: [Page { total: 0, entries: [], next: None }], next: None }";
    comes_back::<Page<Page<Meters>>>(rt.alloc(), PAGE_OF_PAGES, shown)
}
