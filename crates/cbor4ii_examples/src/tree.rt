//! A struct that holds values of its own kind, exact both ways: written in one call, and read as a
//! value of the tree.
//!
//! It accepts what a described struct of its fields would, level by level, each field once: in any
//! order, unknown ones skipped. A value keeps less than the bytes, so in four things it differs:
//!
//! - Every error inside is `Custom` in words, with no byte and no name. It comes once all of the
//!   outermost item was taken.
//! - What `Value` does not read is rejected as `Value` rejects it: a tag, in an unknown field too.
//! - A bignum below 2^64 is a number as any other.
//! - Each item takes a step, a number and a text too.
ghost use Rattle.std.specs.Prelude.{◌≡◌, Ok, codes};
ghost use Rattle.std.proofs.Common.{ap, refl};
ghost use Rattle.cbor4ii_tree.specs.Basis.View.{view, items_view, pairs_view};
ghost use Rattle.cbor4ii.specs.CodecAgrees.{as_described};
ghost use Rattle.cbor4ii_examples.specs.Told.{MakesTold, told_words, told_codec};
ghost use Rattle.cbor4ii_examples.specs.Tree.{tree_item, tree_node, vector_nodes, node_at};
ghost use Rattle.cbor4ii_examples.specs.Tree.{node_item, IsNode, node_fields, nothing_seen};
ghost use Rattle.cbor4ii_examples.specs.Tree.{with_node_field, with_node_pair, node_from};
ghost use Rattle.cbor4ii_examples.specs.Tree.{node_pairs_at, children_at, nodes_at};
ghost use Rattle.cbor4ii_examples.specs.TreeLaws.{tree_back};

use crate::parts::{number_of, one_more, text_of, the_one};
use cbor4ii::Value;
use cbor4ii::dec::Source;
use cbor4ii::enc::Write;
use cbor4ii::serde::{
    AsDescribed, CheckedFrom, DecodeError, Described, Deserialize, Deserializer, EncodeError,
    Serialize, Serializer, Single, Typed, Unmade,
};
use std::alloc::Global;

/// A node, and the nodes below it.
#[derive(Debug, PartialEq, Drop)]
pub struct Tree {
    /// The node's number.
    pub id: u64,
    /// Its name.
    pub name: String,
    /// The nodes below it.
    pub children: Vec<Tree>,
}

/// A map of three fields, in this order.
impl Serialize for Tree {
    ghost encoding = { ⟦<Tree as Described>⟧.codec.encoding };

    #[cycle(writing)]
    #[tactic(auto, using(crate::specs::declared::tree::Tree::the_lemmas, cbor4ii_ser::specs::Laws::Inside::values_inside,))]
    fn serialize<W: Write>(&self, ser: &mut Serializer<W>) -> Result<(), EncodeError<W::Error>> {
        ser.serialize_3_fields(
            "Tree",
            "id",
            &self.id,
            "name",
            &self.name,
            "children",
            &self.children,
        )
    }
}

/// A value that `node_at` accepts, and nothing else.
impl Typed for Tree {
    ghost promise = { ⟦<Tree as Described>⟧.codec.promise };
}

impl Described for Tree {
    ghost codec = { told_codec node_at tree_node tree_item node_item IsNode tree_back };
}

impl AsDescribed for Tree {
    ghost agrees = { as_described tt refl };
}

/// Any item is read, and the tree is made of it.
impl<S: Source> Deserialize<S> for Tree {
    fn deserialize(alloc: Global, de: &mut Deserializer<S>) -> Result<Tree, DecodeError<S::Error>> {
        de.deserialize_checked::<Value, Tree>(alloc)
    }
}

impl CheckedFrom<Value> for Tree {
    ghost words = { λ v. told_words (node_at (view v)) };

    ghost makes = { λ v t. node_at (view v) ≡ Ok (tree_node t) };

    #[tactic(auto, using(crate::specs::Told::told_checks,))]
    fn checked_from(alloc: Global, value: Value) -> Result<Tree, Unmade> {
        tree_of(alloc, &value)
    }

    ghost fate = { λ v w same. ap (λ i. told_words (node_at i)) same };
}

/// The fields of a node that its map has so far.
#[derive(Debug, Drop)]
struct Found {
    id: Single<u64>,
    name: Single<String>,
    children: Single<Vec<Tree>>,
}

/// The tree that a value stands for. It calls itself once for each level, as reading the value did.
///
/// # Errors
///
/// - `Rejected` in words: it stands for none. It is no map, a key is no text, a field is of another
///   kind, missing or there twice, or a value below it is no tree
/// - `OutOfMemory`: there was no memory for the tree
#[cycle(trees)]
#[tactic(auto, using(cbor4ii::specs::Laws::Shown::values_seen,))]
pub fn tree_of(alloc: Global, value: &Value) -> Result<Tree, Unmade>
    ensures { MakesTold tree_node (node_at (view value.now)) result }
{
    match value {
        Value::Map(pairs) => {
            let found = found_in(alloc, pairs)?;
            made(found)
        }
        _ => Err(Unmade::Rejected("a tree is a map")),
    }
}

#[cycle(trees)]
fn found_in(alloc: Global, pairs: &[(Value, Value)]) -> Result<Found, Unmade>
    ensures { MakesTold node_fields (node_pairs_at (pairs_view pairs.now) nothing_seen) result }
{
    let mut found = Found {
        id: Single::Absent,
        name: Single::Absent,
        children: Single::Absent,
    };
    for pair in pairs {
        found = with_pair(alloc, &pair.1, &pair.0, found)?;
    }
    Ok(found)
}

#[cycle(trees)]
fn with_pair(alloc: Global, value: &Value, key: &Value, found: Found) -> Result<Found, Unmade>
    ensures { MakesTold node_fields (with_node_pair (node_fields found)
        (view key.now) (view value.now) (children_at (view value.now))) result }
{
    match key {
        Value::Text(name) => with_field(alloc, value, name.as_str(), found),
        _ => Err(Unmade::Rejected("the name of a field is a text")),
    }
}

#[cycle(trees)]
#[tactic(auto, using(crate::specs::Told::parts_told,))]
fn with_field(alloc: Global, value: &Value, name: &str, found: Found) -> Result<Found, Unmade>
    ensures { MakesTold node_fields (with_node_field (node_fields found)
        name.now (view value.now) (children_at (view value.now))) result }
{
    if name == "id" {
        let id = number_of("an id is a number below 2^64", value)?;
        return Ok(Found {
            id: one_more(found.id, id),
            ..found
        });
    }
    if name == "name" {
        let name = text_of(alloc, "a name is a text", value)?;
        return Ok(Found {
            name: one_more(found.name, name),
            ..found
        });
    }
    if name == "children" {
        let children = children_of(alloc, value)?;
        return Ok(Found {
            children: one_more(found.children, children),
            ..found
        });
    }
    Ok(found)
}

#[cycle(trees)]
#[tactic(auto, using(cbor4ii::specs::Laws::Shown::values_seen,))]
fn children_of(alloc: Global, value: &Value) -> Result<Vec<Tree>, Unmade>
    ensures { MakesTold vector_nodes (children_at (view value.now)) result }
{
    match value {
        Value::Array(items) => trees_of(alloc, items),
        _ => Err(Unmade::Rejected("children are an array")),
    }
}

#[cycle(trees)]
fn trees_of(alloc: Global, values: &[Value]) -> Result<Vec<Tree>, Unmade>
    ensures { MakesTold vector_nodes (nodes_at (items_view values.now)) result }
{
    let mut trees = Vec::new(alloc);
    for value in values {
        let tree = tree_of(alloc, value)?;
        trees.push(tree)?;
    }
    Ok(trees)
}

#[tactic(auto, using(crate::specs::declared::tree::Tree::the_lemmas, crate::specs::Told::parts_told,))]
fn made(found: Found) -> Result<Tree, Unmade>
    ensures { MakesTold tree_node (node_from (node_fields found)) result }
{
    let id = the_one("a tree has one id", found.id)?;
    let name = the_one("a tree has one name", found.name)?;
    let children = the_one("a tree has one list of children", found.children)?;
    Ok(Tree { id, name, children })
}

#[cfg(test)]
pub(crate) mod tests;
