//! Rows of a struct that holds values of its own kind.
use crate::recipes::reads_recipe;
use crate::tree::Tree;
use cbor4ii::serde::{described_values_are_read_back, from_slice, to_vec};
use cbor4ii_vectors::compared::same;
use cbor4ii_vectors::rows::{Want, writes};
use cbor4ii_vectors::{mismatch, no_step, table, unsupported};
use cbor4ii_vectors_de::typed::{RowShown, come_back, is_rejected};
use cbor4ii_vectors_ser::typed::Typed;
use std::alloc::Global;
use std::collections::TryReserveError;
use std::test::Fail;

fn node(alloc: Global, id: u64, name: &str, children: Vec<Tree>) -> Result<Tree, TryReserveError> {
    Ok(Tree {
        id,
        name: String::from_str(alloc, name)?,
        children,
    })
}

const TREE: &[u8] = b"\xa3\x62id\x01\x64name\x61a\x68children\x82\
\xa3\x62id\x02\x64name\x61b\x68children\x80\
\xa3\x62id\x03\x64name\x60\x68children\x80";

#[test]
fn nodes_below_a_node_are_written(rt: HostRuntime) -> Result<(), Fail> {
    let alloc = rt.alloc();
    let first = node(alloc, 2, "b", Vec::new(alloc))?;
    let second = node(alloc, 3, "", Vec::new(alloc))?;
    let tree = node(alloc, 1, "a", vec![in alloc; first, second]?)?;
    writes(alloc, &Typed(tree), TREE)?;
    Ok(())
}

const TREE_SHOWN: &str = "Tree { id: 1, name: \"a\", children: [\
Tree { id: 2, name: \"b\", children: [] }, Tree { id: 3, name: \"\", children: [] }] }";

#[test]
fn a_tree_comes_back(rt: HostRuntime) -> Result<(), Fail> {
    come_back::<Tree>(rt.alloc(), &[(TREE, TREE_SHOWN)])
}

// A struct of the same fields, as one call reads it: its children are trees.
pub mod described {
    use crate::tree;
    use cbor4ii::dec::Source;
    use cbor4ii::serde::{Deserialize, Deserializer, Once, Required, Typed};
    use cbor4ii_vectors_de::typed::Got;
    use std::alloc::Global;

    #[derive(Debug, Drop)]
    pub struct Tree {
        pub id: u64,
        pub name: String,
        pub children: Vec<tree::Tree>,
    }

    impl Typed for Tree {}

    impl<S: Source> Deserialize<S> for Tree {
        fn deserialize(alloc: Global, de: &mut Deserializer<S>) -> Got<Tree, S> {
            let names = ["id", "name", "children"];
            let missing = [
                "a tree has one id",
                "a tree has one name",
                "a tree has one list of children",
            ];
            let presences = (Once(Required), (Once(Required), (Once(Required), ())));
            let (id, (name, (children, ()))) = de.deserialize_fields(
                alloc, "Tree", &names, &missing, presences,
            )?;
            Ok(Tree { id, name, children })
        }
    }
}

const LEAF: &str = "Is(Tree { id: 5, name: \"a\", children: [] })";

// Fields come in any order, and under other names any number of values.
const TREES: &[RowShown] = table! {
    (b"\xa3\x62id\x05\x64name\x61a\x68children\x80", Ok(LEAF), b""),
    (b"\xbf\x68children\x9f\xff\x64name\x7f\x61a\xff\x62id\x05\xff\x01", Ok(LEAF), b"\x01"),
    (b"\xa5\x61x\x05\x64name\x61a\x62id\x18\x05\x61x\xf6\x68children\x80", Ok(LEAF), b""),
    (b"\xa4\x68children\x80\x62id\x05\x68Children\x05\x64name\x61a", Ok(LEAF), b""),
    (b"\xa3\x62id\x1b\xff\xff\xff\xff\xff\xff\xff\xff\x64name\x60\x68children\x80",
        Ok("Is(Tree { id: 18446744073709551615, name: \"\", children: [] })"), b""),
    (TREE, Ok(TREE_SHOWN_IS), b""),
};

const TREE_SHOWN_IS: &str = "Is(Tree { id: 1, name: \"a\", children: [\
Tree { id: 2, name: \"b\", children: [] }, Tree { id: 3, name: \"\", children: [] }] })";

#[test]
fn trees_are_accepted_as_a_described_struct(rt: HostRuntime) -> Result<(), Fail> {
    reads_recipe(rt.alloc(), "Tree", TREES, &[])?;
    reads_recipe(rt.alloc(), "described Tree", TREES, &[])
}

const ONE_ID: &str = "Custom(\"a tree has one id\")";

const ONE_NAME: &str = "Custom(\"a tree has one name\")";

const ONE_LIST: &str = "Custom(\"a tree has one list of children\")";

const NO_ID: &str = "Custom(\"an id is a number below 2^64\")";

const NO_NAME: &str = "Custom(\"a name is a text\")";

const NO_LIST: &str = "Custom(\"children are an array\")";

const NO_KEY: &str = "Custom(\"the name of a field is a text\")";

const NO_TREE: &str = "Custom(\"a tree is a map\")";

// Bytes; the words in which the tree rejects them, of which nothing is left; and what a described
// struct of the same fields answers, with what it leaves.
type Beside = (
    &'static [u8],
    &'static str,
    Want<&'static str>,
    &'static [u8],
);

const REJECTED: &[Beside] = table! {
    // The children are no array.
    (b"\xa3\x62id\x05\x64name\x61a\x68children\x05", NO_LIST, Err(mismatch!("array", 5)), b""),
    (b"\xa3\x62id\x05\x64name\x61a\x68children\xa0", NO_LIST, Err(mismatch!("array", 0xa0)), b""),
    (b"\xa3\x62id\x05\x64name\x61a\x68children\xf6", NO_LIST, Err(mismatch!("array", 0xf6)), b""),
    (b"\xa3\x62id\x05\x64name\x61a\x68children\x60", NO_LIST, Err(mismatch!("array", 0x60)), b""),
    // A field is missing.
    (b"\xa2\x62id\x05\x64name\x61a", ONE_LIST, Ok(ONE_LIST), b""),
    (b"\xa2\x62id\x05\x68children\x80", ONE_NAME, Ok(ONE_NAME), b""),
    (b"\xa2\x64name\x61a\x68children\x80", ONE_ID, Ok(ONE_ID), b""),
    (b"\xa0", ONE_ID, Ok(ONE_ID), b""),
    // A field comes twice.
    (b"\xa4\x62id\x05\x62id\x05\x64name\x61a\x68children\x80", ONE_ID, Ok(ONE_ID), b""),
    (b"\xa4\x62id\x05\x64name\x61a\x64name\x61a\x68children\x80", ONE_NAME, Ok(ONE_NAME), b""),
    (b"\xa4\x68children\x80\x62id\x05\x64name\x61a\x68children\x80", ONE_LIST, Ok(ONE_LIST), b""),
    (b"\xa5\x62id\x05\x62id\x06\x62id\x05\x64name\x61a\x68children\x80", ONE_ID, Ok(ONE_ID), b""),
    // A field is of another kind, beside a right one too.
    (b"\xa3\x62id\x20\x64name\x60\x68children\x80", NO_ID, Err(mismatch!("u64", 0x20)),
        b"\x64name\x60\x68children\x80"),
    (b"\xa1\x62id\xf6", NO_ID, Err(mismatch!("u64", 0xf6)), b""),
    (b"\xa1\x62id\xf9\x3c\x00", NO_ID, Err(mismatch!("u64", 0xf9)), b"\x3c\x00"),
    (b"\xa1\x64name\x41a", NO_NAME, Err(mismatch!("str", 0x41)), b"a"),
    (b"\xa1\x64name\xf6", NO_NAME, Err(mismatch!("str", 0xf6)), b""),
    (b"\xa2\x64name\x61a\x64name\x05", NO_NAME, Err(mismatch!("str", 5)), b""),
    (b"\xa2\x68children\x80\x68children\xf6", NO_LIST, Err(mismatch!("array", 0xf6)), b""),
    // A key is no text.
    (b"\xa4\x62id\x05\x64name\x61a\x00\x00\x68children\x80", NO_KEY, Err(mismatch!("str", 0)),
        b"\x00\x68children\x80"),
    // A child is no tree, wherever it stands.
    (b"\xa3\x62id\x05\x64name\x61a\x68children\x81\x05", NO_TREE, Ok(NO_TREE), b""),
    (b"\xa3\x62id\x05\x64name\x61a\x68children\x82\
\xa3\x62id\x05\x64name\x61a\x68children\x80\xa0", ONE_ID, Ok(ONE_ID), b""),
    (b"\xa3\x62id\x05\x64name\x61a\x68children\x82\xf6\
\xa3\x62id\x05\x64name\x61a\x68children\x80", NO_TREE, Ok(NO_TREE),
        b"\xa3\x62id\x05\x64name\x61a\x68children\x80"),
    (b"\xa3\x62id\x05\x64name\x61a\x68children\x81\
\xa3\x62id\x05\x64name\x61a\x68children\x05", NO_LIST, Ok(NO_LIST), b""),
    (b"\xa3\x62id\x05\x64name\x61a\x68children\x81\
\xa2\x62id\x05\x64name\x61a", ONE_LIST, Ok(ONE_LIST), b""),
    // It is no map.
    (b"\x00", NO_TREE, Err(mismatch!("map", 0)), b""),
    (b"\x83\x05\x61a\x80", NO_TREE, Err(mismatch!("map", 0x83)), b"\x05\x61a\x80"),
};

#[test]
fn trees_are_rejected_as_a_described_struct(rt: HostRuntime) -> Result<(), Fail> {
    for &(bytes, words, want, rest) in REJECTED {
        reads_recipe(rt.alloc(), "Tree", &[(bytes, Ok(words), b"")], &[])?;
        reads_recipe(rt.alloc(), "described Tree", &[(bytes, want, rest)], &[])?;
    }
    Ok(())
}

// What a value does not keep: a number that is a bignum is accepted, and what is no value is
// rejected under an unknown name too.
const BIGNUM: &[u8] = b"\xa3\x68children\x80\x64name\x61a\x62id\xc2\x41\x05";

const TAGGED: &[u8] = b"\xa4\x62id\x05\x64name\x61a\x68children\x80\x61x\xc1\x00";

#[test]
fn a_value_keeps_less_than_its_bytes(rt: HostRuntime) -> Result<(), Fail> {
    let tagged = (
        TAGGED,
        Err(unsupported!("any", 0xc1)),
        b"\xc1\x00".as_slice(),
    );
    let bignum = (BIGNUM, Err(mismatch!("u64", 0xc2)), b"\x41\x05".as_slice());
    let here = [(BIGNUM, Ok(LEAF), b"".as_slice()), tagged];
    let described = [bignum, (TAGGED, Ok(LEAF), b"".as_slice())];
    reads_recipe(rt.alloc(), "Tree", &here, &[])?;
    reads_recipe(rt.alloc(), "described Tree", &described, &[])
}

const NODE: &[u8] = b"\xa3\x62id\x01\x64name\x60\x68children\x81";

const LAST_NODE: &[u8] = b"\xa3\x62id\x02\x64name\x60\x68children\x80";

// The last node below so many, one below another. The bytes stay for good.
fn nested(alloc: Global, count: usize) -> Result<&'static [u8], TryReserveError> {
    let mut bytes = Vec::new(alloc);
    for _ in 0..count {
        bytes.extend_from_slice(NODE)?;
    }
    bytes.extend_from_slice(LAST_NODE)?;
    Ok(bytes.leak())
}

fn nested_tree(alloc: Global, count: usize) -> Result<Tree, TryReserveError> {
    let mut tree = node(alloc, 2, "", Vec::new(alloc))?;
    for _ in 0..count {
        tree = node(alloc, 1, "", vec![in alloc; tree]?)?;
    }
    Ok(tree)
}

// A node takes two steps for its map, and two more for the array of those below it.
#[test]
fn as_deep_as_256_steps_allow(rt: HostRuntime) -> Result<(), Fail> {
    let alloc = rt.alloc();
    let bytes = nested(alloc, 63)?;
    let tree: Tree = from_slice(alloc, bytes)?;
    same(to_vec(Vec::new(alloc), &tree)?.as_slice(), bytes)?;
    same(tree, nested_tree(alloc, 63)?)?;
    is_rejected(
        from_slice::<&[u8], Tree>(alloc, nested(alloc, 64)?),
        no_step!("any"),
    )
}

#[test]
fn trees_are_read_back(rt: HostRuntime) {
    described_values_are_read_back::<Tree>();
    described_values_are_read_back::<Vec<Box<Tree>>>();
}
