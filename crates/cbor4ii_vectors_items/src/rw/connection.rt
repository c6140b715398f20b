//! What is read over a connection that receives some parts, and then ends or fails.
use cbor4ii_items::decode::{Decodable, Decode};
use cbor4ii_rw::error::StaticStr;
use cbor4ii_vectors::compared::same;
use cbor4ii_vectors::connection::{Connected, Connection};
use std::alloc::Global;
use std::fmt::{Debug, InlineText};
use std::test::Fail;

/// Receives these parts one after another. After them it fails in these words, or ends.
#[derive(Drop)]
struct Line {
    parts: &'static [&'static [u8]],
    // How many parts were received.
    at: usize,
    failure: Option<StaticStr>,
}

impl Connection for Line {
    type Error = StaticStr;

    fn receive(&mut self, room: &mut Vec<u8>) -> Result<(), StaticStr> {
        if self.at < self.parts.len() {
            let part = self.parts[self.at];
            self.at += 1;
            return match room.extend_from_slice(part) {
                Ok(()) => Ok(()),
                Err(_) => Err("no memory"),
            };
        }
        match self.failure {
            Some(words) => Err(words),
            None => Ok(()),
        }
    }
}

fn over(
    alloc: Global,
    parts: &'static [&'static [u8]],
    failure: Option<StaticStr>,
) -> Connected<Line> {
    Connected::new(
        alloc,
        Line {
            parts,
            at: 0,
            failure,
        },
    )
}

// What is read next, or the error, has this text.
fn reads<T: Decodable + Decode<Connected<Line>> + Debug + Drop>(
    alloc: Global,
    reader: &mut Connected<Line>,
    text: &str,
) -> Result<(), Fail> {
    let got = T::decode(alloc, reader);
    same(InlineText::<64>::of(format_args!("{got:?}")).as_str(), text)
}

const PARTS: &[&[u8]] = &[b"\x05\x62a", b"b\x19", b"\x01", b"\x02"];

const END: &str = "Err(Eof { name: \"u8\", expect: Small(1) })";

#[test]
fn items_stand_in_several_parts(rt: HostRuntime) -> Result<(), Fail> {
    let alloc = rt.alloc();
    let mut reader = over(alloc, PARTS, None);
    reads::<u8>(alloc, &mut reader, "Ok(5)")?;
    reads::<String>(alloc, &mut reader, "Ok(\"ab\")")?;
    reads::<u16>(alloc, &mut reader, "Ok(258)")?;
    reads::<u8>(alloc, &mut reader, END)?;
    same(reader.into_error(), None)
}

#[test]
fn a_connection_fails_within_an_item(rt: HostRuntime) -> Result<(), Fail> {
    let alloc = rt.alloc();
    let mut reader = over(alloc, &[b"\x19", b"\x01"], Some("the line is cut"));
    reads::<u16>(alloc, &mut reader, "Err(Read(Lost))")?;
    same(reader.into_error(), Some("the line is cut"))
}
