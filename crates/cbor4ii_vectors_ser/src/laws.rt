//! The laws of what is written are called.
use cbor4ii_ser::laws;

#[test]
fn laws_are_called(rt: HostRuntime) {
    laws::chunks_are_determined();
    laws::pieces_are_read_back();
    laws::variants_have_content();
}

#[test]
fn laws_of_items_are_called(rt: HostRuntime) {
    laws::canonical_items_have_shortest_heads();
    laws::numbers_are_items();
    laws::strings_are_items();
    laws::wrapped_values_are_items::<u8>();
    laws::tagged_values_are_items::<u8>();
    laws::tuples_are_items::<u8, String, bool>();
    laws::vectors_are_items::<u8>();
    laws::maps_are_items::<u8, String>();
    laws::structs_and_variants_are_items();
    laws::values_are_items();
    laws::texts_in_pieces_are_items();
    laws::items_are_read();
}
