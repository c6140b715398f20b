//! The laws of whole items are called.
use cbor4ii_tree::{Value, laws};
use std::test::Fail;

#[test]
fn laws_are_called(rt: HostRuntime) -> Result<(), Fail> {
    laws::no_encoding_begins_another();
    laws::skipping_costs_no_more();
    laws::canonical_encoding_costs_least();
    laws::value_is_no_larger_than_its_encoding();
    laws::skipping_has_one_answer();
    laws::reading_has_one_answer();
    laws::errors_go_by_parts();
    laws::skipping_says_what_may_come();
    laws::reading_says_what_may_come();
    laws::canonical_encoding_reads_back();
    laws::skipping_takes_what_reading_takes();
    laws::readers_are_answered_alike::<u8, u8>();
    laws::canonical_trees_are_canonical_encodings();
    laws::values_are_items(&Value::Tag(1, Box::new(rt.alloc(), Value::Null)?));
    Ok(())
}
