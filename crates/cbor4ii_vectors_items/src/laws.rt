//! The laws are called.
use cbor4ii_items::laws::{
    arrays_are_read_back, arrays_are_rejected_once, integers_are_read_back, lengths_are_read_back,
    maps_are_read_back, maps_are_rejected_once, no_encoding_begins_another,
    numbers_are_rejected_once, parts_are_read_back, parts_are_rejected_once,
    rejected_arrays_are_not_read, rejected_lengths_are_not_read, rejected_maps_are_not_read,
    rejected_numbers_are_not_read, rejected_parts_are_not_read,
    rejected_simple_values_are_not_read, rejected_strings_are_not_read, shortest_is_least,
    simple_values_are_read_back, simple_values_are_rejected_once, strings_are_read_back,
    strings_are_rejected_once, what_is_written_is_decoded,
};
use cbor4ii_items::types::Tag;
use cbor4ii_rw::error::Never;
use cbor4ii_rw::slice_reader::SliceReader;

#[test]
fn laws_are_called(rt: HostRuntime) {
    shortest_is_least();
    integers_are_read_back();
    strings_are_read_back::<u8>();
    simple_values_are_read_back::<u8>();
    lengths_are_read_back();
    parts_are_read_back::<u8>();
    arrays_are_read_back::<u8>();
    maps_are_read_back::<u8, String>();
    what_is_written_is_decoded::<SliceReader, Tag<u8>, Never>();
    no_encoding_begins_another::<SliceReader, Tag<u8>>();
    rejected_numbers_are_not_read();
    rejected_simple_values_are_not_read();
    rejected_lengths_are_not_read();
    rejected_strings_are_not_read::<u8>();
    rejected_parts_are_not_read::<u8>();
    rejected_arrays_are_not_read::<SliceReader, Tag<u8>>();
    rejected_maps_are_not_read::<SliceReader, Tag<u8>, String>();
    numbers_are_rejected_once();
    simple_values_are_rejected_once();
    strings_are_rejected_once::<u8>();
    parts_are_rejected_once::<u8>();
    arrays_are_rejected_once::<SliceReader, Tag<u8>>();
    maps_are_rejected_once::<SliceReader, Tag<u8>, String>();
}
