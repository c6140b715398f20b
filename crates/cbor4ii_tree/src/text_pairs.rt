//! The pairs of a map whose keys are texts.
ghost use Rattle.std.specs.Prelude.{◌≡◌, option_map};
ghost use Rattle.std.specs.Iterator.{YieldsFirstBy, item_count};
ghost use Rattle.cbor4ii_tree.specs.Calls.Access.{as_map};
ghost use Rattle.cbor4ii_tree.specs.Basis.View.{view};
ghost use Rattle.cbor4ii_tree.specs.Calls.TextPairs.{text_pairs, text_pair_view, texts_to_come};

use crate::value::Value;

/// The pairs of a map whose keys are texts, in their order, equal keys too: each key and its value.
/// Other pairs are passed over. `Value::text_pairs` begins with the first.
#[derive(Clone, Debug, Drop)]
pub struct TextPairs<'a>(&'a [(Value, Value)]);

impl Value {
    /// The pairs of the map whose keys are texts, in their order. None of any other kind of value.
    pub fn text_pairs(&self) -> Option<TextPairs<'_>>
        ensures { option_map texts_to_come result
            ≡ option_map text_pairs (as_map (view self.now)) }
    {
        Some(TextPairs(self.as_map()?))
    }
}

impl<'a> Iterator for TextPairs<'a> {
    type Item = (&'a str, &'a Value);

    ghost next_gives = { YieldsFirstBy text_pair_view texts_to_come };

    ghost remaining = { item_count texts_to_come };

    fn next(&mut self) -> Option<(&'a str, &'a Value)> {
        while let Some((pair, others)) = self.0.split_first() {
            self.0 = others;
            if let Value::Text(key) = &pair.0 {
                return Some((key.as_str(), &pair.1));
            }
        }
        None
    }
}
