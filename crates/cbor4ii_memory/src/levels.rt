//! Values that hold values of their own kind, written at many levels.
//!
//! They are made from the inside, and left by `mem::forget`, so that writing alone takes stack for
//! each level.
ghost use Rattle.cbor4ii_memory.specs.Levels.{level_item};

use crate::tally::{Broken, Tally};
use cbor4ii::serde::{EncodeError, Serialize, Serializer, to_vec, to_writer};
use cbor4ii_rw::write::Write;
use std::alloc::Global;
use std::collections::TryReserveError;
use std::io::BufWriter;
use std::mem;

const LEVELS: usize = 4000;

// The list in the middle: null, true, -500, a text, and one pair of a text and 0.
const MIDDLE: &[u8] = b"\x85\xf6\xf5\x39\x01\xf3\x61a\x81\x82\x61b\x00";

/// A value of one of several kinds.
#[derive(Drop)]
enum Node {
    Null,
    Flag(bool),
    Number(i64),
    Text(String),
    List(Vec<Node>),
    Pairs(Vec<(String, Node)>),
}

/// Written as the value inside, or as null.
impl Serialize for Node {
    ghost encoding = { level_item };

    #[cycle(writing)]
    #[tactic(auto, using(crate::specs::declared::levels::Node::the_lemmas, cbor4ii_ser::specs::Laws::Inside::values_inside,))]
    fn serialize<W: Write>(&self, ser: &mut Serializer<W>) -> Result<(), EncodeError<W::Error>> {
        match self {
            Node::Null => ser.serialize_none(),
            Node::Flag(flag) => flag.serialize(ser),
            Node::Number(number) => number.serialize(ser),
            Node::Text(text) => text.serialize(ser),
            Node::List(items) => items.serialize(ser),
            Node::Pairs(pairs) => pairs.serialize(ser),
        }
    }
}

/// Writes a value of many levels by each call.
pub fn written(tally: &mut Tally) -> Result<(), Broken> {
    let alloc = tally.alloc();
    let Some(bytes) = tally.joined(&[(b"\x81", LEVELS), (MIDDLE, 1)]) else {
        return Ok(());
    };
    let Ok(node) = nested(alloc) else {
        tally.refuse();
        return Ok(());
    };
    let streamed = buffered(alloc, &node);
    let pushed = to_writer(Vec::new(alloc), &node);
    let held = to_vec(Vec::new(alloc), &node);
    mem::forget(node);
    is_written("many levels by to_writer, buffered", streamed, &bytes)?;
    is_written("many levels by to_writer", pushed.ok(), &bytes)?;
    is_written("many levels by to_vec", held.ok(), &bytes)
}

// Lists in one another, and one of each kind of value in the middle.
fn nested(alloc: Global) -> Result<Node, TryReserveError> {
    let mut node = Node::List(middle(alloc)?);
    for _ in 0..LEVELS {
        node = Node::List(vec![in alloc; node]?);
    }
    Ok(node)
}

fn middle(alloc: Global) -> Result<Vec<Node>, TryReserveError> {
    let name = String::from_str(alloc, "b")?;
    let pairs = vec![in alloc; (name, Node::Number(0))]?;
    let text = Node::Text(String::from_str(alloc, "a")?);
    let [null, flag, number] = [Node::Null, Node::Flag(true), Node::Number(-500)];
    Ok(vec![in alloc; null, flag, number, text, Node::Pairs(pairs)]?)
}

fn buffered(alloc: Global, node: &Node) -> Option<Vec<u8>> {
    let buffer = BufWriter::new(alloc, Vec::new(alloc)).ok()?;
    to_writer(buffer, node).ok()?.into_inner().ok()
}

fn is_written(row: &'static str, got: Option<Vec<u8>>, bytes: &[u8]) -> Result<(), Broken> {
    match got {
        Some(written) if written.as_slice() == bytes => Ok(()),
        _ => Err(Broken::new(row, "other bytes are written")),
    }
}
