//! Rows of what stands under a key.
use crate::port::{kept_port, port};
use cbor4ii::error::DecodeError::Eof;
use cbor4ii::error::Len::Small;
use cbor4ii::error::WholeError::{Decode, Trailing};
use cbor4ii::{Canonical, Value};
use cbor4ii_vectors::table;
use std::test::Fail;

type Found = (&'static [u8], Option<i128>);

// Items, and the integer under "port".
const FOUND: &[Found] = table! {
    (b"\xa1\x64port\x19\x1f\x90", Some(8080)),
    (b"\xa2\x64host\x01\x64port\x20", Some(-1)),
    (b"\xbf\x64port\x05\x64port\x06\xff", Some(5)),
    (b"\xa1\x64port\x61x", None),
    (b"\xa1\x44port\x05", None),
    (b"\x80", None),
};

#[test]
fn a_port_is_found(rt: HostRuntime) -> Result<(), Fail> {
    for (input, found) in FOUND {
        assert_eq!(rt; port(rt.alloc(), input)?, *found);
    }
    Ok(())
}

#[test]
fn other_inputs_are_rejected(rt: HostRuntime) -> Result<(), Fail> {
    let alloc = rt.alloc();
    let cut = Decode(Eof {
        name: "u64",
        expect: Small(2),
    });
    assert_eq!(rt; port(alloc, b"\xa1\x64port\x19\x1f").err(), Some(cut));
    assert_eq!(rt; port(alloc, b"\x80\x00").err(), Some(Trailing(1)));
    Ok(())
}

// Items, and the bytes under "port".
const KEPT: &[(&'static [u8], Option<&'static [u8]>)] = table! {
    (b"\xa1\x64port\x19\x1f\x90", Some(b"\x19\x1f\x90")),
    (b"\xa2\x64host\x82\x01\x02\x64port\x20", Some(b"\x20")),
    (b"\xbf\x7f\x62po\x62rt\xff\x9f\x05\xff\x64port\x06\xff", Some(b"\x9f\x05\xff")),
    (b"\xa1\x44port\x05", None),
    (b"\x80", None),
};

#[test]
fn the_bytes_of_a_port_are_lent(rt: HostRuntime) -> Result<(), Fail> {
    for (input, want) in KEPT {
        match (kept_port(input)?, want) {
            (Some(found), Some(bytes)) => assert_eq!(rt; found.as_bytes(), *bytes),
            (found, want) => assert_eq!(rt; found.is_none(), want.is_none()),
        }
    }
    assert_eq!(rt; kept_port(b"\x80\x00").err(), Some(Trailing(1)));
    Ok(())
}

#[test]
fn a_value_is_written_again(rt: HostRuntime) -> Result<(), Fail> {
    let alloc = rt.alloc();
    let value = Value::from_slice_whole(alloc, b"\xbf\x64port\x19\x00\x05\xff")?;
    assert_eq!(rt;
        value.to_vec(alloc)?.as_slice(),
        b"\xa1\x64port\x05".as_slice()
    );
    let Canonical(same) = Canonical::from_slice_whole(alloc, b"\xa1\x64port\x05")?;
    assert_eq!(rt; same, value);
    Ok(())
}
