//! Rows of settings, and of the bytes at which their reading fails.
use crate::recipes::reads_recipe;
use crate::settings::{Settings, read_settings};
use cbor4ii::dec::Source;
use cbor4ii::error::DecodeError::{Eof, Mismatch};
use cbor4ii::error::WholeError::{Decode, Trailing};
use cbor4ii::error::{Len, Never, WholeError};
use cbor4ii::serde::DecodeError::{Core, Custom};
use cbor4ii::serde::{DecodeError, Deserialize};
use cbor4ii_vectors::table;
use cbor4ii_vectors_de::typed::{RowShown, comes_back};
use std::test::Fail;

const ALL: &[u8] = b"\xa8\x64host\x61a\x64port\x01\x67verbose\xf5\x67workers\x02\x65cache\x03\
\x65proxy\x61b\x67plugins\x81\x61c\x68greeting\x61d";

const ALL_SHOWN: &str = "Settings { host: \"a\", port: 1, verbose: true, workers: 2, cache: 3, \
proxy: Some(\"b\"), plugins: Some([\"c\"]), greeting: Some(\"d\") }";

#[test]
fn settings_come_back(rt: HostRuntime) -> Result<(), Fail> {
    comes_back::<Settings>(rt.alloc(), ALL, ALL_SHOWN)
}

const DEFAULTS: &str = "Is(Settings { host: \"a\", port: 8080, verbose: false, workers: 4, \
cache: 0, proxy: None, plugins: None, greeting: None })";

const SETTINGS: &[RowShown] = table! {
    (b"\xa1\x64host\x61a\x00", Ok(DEFAULTS), b"\x00"),
    (b"\xa2\x65color\x81\x01\x64host\x61a", Ok(DEFAULTS), b""),
    (b"\xa1\x64port\x01\x00", Ok("Custom(\"settings have one host\")"), b"\x00"),
    // Each comes once, be it set to its default or left as it was.
    (b"\xa2\x64host\x61a\x64host\x61a\x00", Ok("Custom(\"settings have one host\")"), b"\x00"),
    (b"\xa3\x64port\x19\x1f\x90\x64host\x61a\x64port\x19\x1f\x90",
        Ok("Custom(\"settings have one port\")"), b""),
    (b"\xa3\x67verbose\xf4\x67verbose\xf5\x64host\x61a\x00",
        Ok("Custom(\"settings are verbose or not\")"), b"\x00"),
    (b"\xa3\x64host\x61a\x67workers\x04\x67workers\x04",
        Ok("Custom(\"settings have one number of workers\")"), b""),
    (b"\xa3\x64host\x61a\x65cache\x00\x65cache\x01",
        Ok("Custom(\"settings have one cache\")"), b""),
    (b"\xbf\x64host\x61a\x65proxy\xf6\x65proxy\xf6\xff\x00",
        Ok("Custom(\"settings have one proxy\")"), b"\x00"),
    (b"\xa4\x64host\x61a\x67plugins\x80\x67plugins\xf6\x67plugins\x80",
        Ok("Custom(\"settings have one list of plugins\")"), b""),
    (b"\xa3\x68greeting\x61a\x64host\x61a\x68greeting\x61b",
        Ok("Custom(\"settings have one greeting\")"), b""),
    // Of several the first field that is rejected tells why.
    (b"\xa4\x65cache\x00\x65cache\x00\x64port\x01\x64port\x01",
        Ok("Custom(\"settings have one host\")"), b""),
};

#[test]
fn what_is_not_set_has_a_default(rt: HostRuntime) -> Result<(), Fail> {
    reads_recipe(rt.alloc(), "Settings", SETTINGS, &[])
}

type Row = (&'static [u8], usize, WholeError<DecodeError<Never>>);

const NO_HOST: WholeError<DecodeError<Never>> = Decode(Custom("settings have one host"));

// A port of four bytes, a number in the place of a text, a map that ends too early, one that lacks
// the host, one that has two, one that has two ports, and bytes behind one.
const FAULTS: &[Row] = table! {
    (b"\xa1\x64port\x1a\x00\x01\x00\x00", 7, Decode(Core(Mismatch { name: "u16", found: 0x1a }))),
    (b"\xa1\x64host\x05", 7, Decode(Core(Mismatch { name: "str", found: 5 }))),
    (b"\xa1\x64host", 6, Decode(Core(Eof { name: "str", expect: Len::Small(1) }))),
    (b"\xa0", 1, NO_HOST),
    (b"\xa0\x00", 1, NO_HOST),
    (b"\xa2\x64host\x61a\x64host\x61b", 15, NO_HOST),
    (b"\xa3\x64host\x61a\x64port\x01\x64port\x01\x00", 20,
        Decode(Custom("settings have one port"))),
    (b"\xa1\x64host\x61a\x00\xff", 8, Trailing(2)),
};

#[test]
fn a_fault_tells_its_byte(rt: HostRuntime) -> Result<(), Fail> {
    for (bytes, at, error) in FAULTS {
        match read_settings(rt.alloc(), bytes) {
            Ok(_) => return Err(Fail::new(format_args!("{bytes:?} is read"))),
            Err(fault) => {
                assert_eq!(rt; fault.at, *at);
                assert_eq!(rt; &fault.error, error);
            }
        }
    }
    Ok(())
}

const LINES: &[(&[u8], &str)] = table! {
    (b"\xa1\x64host\x05", "byte 7: Core(Mismatch { name: \"str\", found: 5 })"),
    (b"\xa1\x64port\x01", "byte 7: Custom(\"settings have one host\")"),
    (b"\xa1\x64host\x61a\x00\xff", "byte 8: bytes after the item: 2"),
};

#[test]
fn a_fault_is_a_line(rt: HostRuntime) -> Result<(), Fail> {
    let alloc = rt.alloc();
    for (bytes, line) in LINES {
        match read_settings(alloc, bytes) {
            Ok(_) => return Err(Fail::new(format_args!("{bytes:?} is read"))),
            Err(fault) => assert_eq!(rt; format!(in alloc; "{fault}")?.as_str(), *line),
        }
    }
    Ok(())
}
