//! Laws of the definitions in `specs/`, each the contract of a function that does nothing. They
//! hold of every tree, input and budget; where an input has to be one of bytes, the law says so.

ghost use Rattle.std.specs.Prelude.{◌≡◌, ◌++◌, ◌≤◌, ◌<◌, ◌^◌, ◌↔◌, ℕ, List, [], length, Some};
ghost use Rattle.std.specs.Prelude.{Result, Ok, Err};
ghost use Rattle.cbor4ii_rw.specs.Input.{limit};
ghost use Rattle.cbor4ii_rw.specs.View.{View};
ghost use Rattle.cbor4ii_rw.specs.declared.error.DecodeError.{DecodeError};
ghost use Rattle.cbor4ii_items.specs.Decoding.{Decodes};
ghost use Rattle.cbor4ii_items.specs.Head.{IsBytes};
ghost use Rattle.cbor4ii_tree.specs.Basis.Tree.{Tree, bytes, Loose, Plain, Joins};
ghost use Rattle.cbor4ii_tree.specs.Basis.Item.{Item, IsItem, size};
ghost use Rattle.cbor4ii_tree.specs.Basis.Meaning.{value};
ghost use Rattle.cbor4ii_items.specs.Budget.{CostFits};
ghost use Rattle.cbor4ii_items.specs.Whole.{IsWhole};
ghost use Rattle.cbor4ii_tree.specs.declared.decode_canonical.Canonical.{Canonical};
ghost use Rattle.cbor4ii_tree.specs.declared.value.Value.{Value};
ghost use Rattle.cbor4ii_tree.specs.declared.ignored.IgnoredAny.{IgnoredAny};
ghost use Rattle.cbor4ii_tree.specs.Calls.Canonically.{canonical_format, OnlyCanonical};
ghost use Rattle.cbor4ii_tree.specs.Calls.Canonically.{AllCanonical, ExactCanonical};
ghost use Rattle.cbor4ii_tree.specs.Calls.Promises.{value_format, ExactReads, ExactSkips};
ghost use Rattle.cbor4ii_tree.specs.Calls.SameAnswer.{SameAnswer};
ghost use Rattle.cbor4ii_tree.specs.Basis.Headline.{AllReads, AllSkips};
ghost use Rattle.cbor4ii_tree.specs.Basis.Cost.{Budget, skip_cost, cost};
ghost use Rattle.cbor4ii_tree.specs.Basis.Canonical.{canonical_encoding, canonical_cost};
ghost use Rattle.cbor4ii_tree.specs.Basis.Canonical.{with_bignums};
ghost use Rattle.cbor4ii_tree.specs.Basis.InputError.{InputError, Len, eof, depth_overflow};
ghost use Rattle.cbor4ii_tree.specs.Basis.InputError.{IsFinal};
ghost use Rattle.cbor4ii_tree.specs.Basis.InputError.{MayReject};
ghost use Rattle.cbor4ii_tree.specs.Basis.Encodings.{Encodes, DecodesTo, Skips, SomeAnswer};
ghost use Rattle.cbor4ii_tree.specs.Basis.Encodings.{AtMostOne};
ghost use Rattle.cbor4ii_tree.specs.Basis.Encodings.{IsProperPrefix};
ghost use Rattle.cbor4ii_tree.specs.Calls.CanonicalShape.{CanonicalShape, IsDecoded};
ghost use Rattle.cbor4ii_tree.specs.Calls.CanonicalShape.{EncodesCanonically};
ghost use Rattle.cbor4ii_tree.specs.Calls.CanonicalShape.{DecodesCanonically};
ghost use Rattle.cbor4ii_tree.specs.Calls.SkippingRejects.{SkippingRejects, SkippingRejectsByParts};
ghost use Rattle.cbor4ii_tree.specs.Calls.ReadingRejects.{ReadingRejects, ReadingRejectsByParts};
ghost use Rattle.cbor4ii_tree.specs.Calls.CanonicalRejects.{CanonicalRejects};
ghost use Rattle.cbor4ii_tree.specs.Calls.CanonicalRejects.{CanonicalRejectsByParts};
ghost use Rattle.cbor4ii_tree.specs.Calls.Skip.{skip};
ghost use Rattle.cbor4ii_tree.specs.Calls.Read.{parse_value};
ghost use Rattle.cbor4ii_tree.specs.Basis.View.{view};

use crate::range::in_range;
use crate::value::Value;

/// No encoding begins another: what begins with the bytes of two loose trees begins with those of
/// one, and has one rest. So an input has one encoding of one value at one cost, at most.
pub fn no_encoding_begins_another()
    ensures no_prefix { (t u : Tree) (more : List ℕ) →
        Loose t → Loose u → bytes t ++ more ≡ bytes u → t ≡ u }
    ensures one_tree_and_rest { (t u : Tree) (x y : List ℕ) →
        Loose t → Loose u → bytes t ++ x ≡ bytes u ++ y → (t ≡ u) × (x ≡ y) }
    ensures one_encoding { (s t : List ℕ) (v w : Item) (c d : ℕ) (x y : List ℕ) →
        Encodes s v c → Encodes t w d → s ++ x ≡ t ++ y → (s ≡ t) × (v ≡ w) × (c ≡ d) × (x ≡ y) }
{}

/// Skipping an item takes no more steps than reading it as a value.
pub fn skipping_costs_no_more()
    ensures { (t : Tree) → Plain t → skip_cost t ≤ cost t }
{}

/// The canonical encoding of a value encodes it, with its bignums as tags, and costs no more than
/// any other encoding. A value that has an encoding has no bignums but as tags.
pub fn canonical_encoding_costs_least()
    ensures encodes { (v : Item) → IsItem v → Encodes (canonical_encoding v) (with_bignums v)
        (canonical_cost v) }
    ensures least { (encoding : List ℕ) (v : Item) (steps : ℕ) →
        Encodes encoding v steps → canonical_cost v ≤ steps }
    ensures tagged { (encoding : List ℕ) (v : Item) (steps : ℕ) →
        Encodes encoding v steps → with_bignums v ≡ v }
{}

/// A value is no larger than its encoding is long, so that a decoder's memory is bounded by its
/// input. What is encoded by fewer than 2^64 bytes is a value of the program.
pub fn value_is_no_larger_than_its_encoding()
    ensures size { (encoding : List ℕ) (v : Item) (steps : ℕ) →
        Encodes encoding v steps → size v ≤ length encoding }
    ensures fits { (encoding : List ℕ) (v : Item) (steps : ℕ) →
        length encoding < 2 ^ 64 → Encodes encoding v steps → IsItem v }
{}

/// Skipping has at most one answer for each input and budget: the one loose tree that fits and
/// begins the input, or one error with one rest. The plain program computes it. An input of bytes
/// has an answer, the one that the program computes.
pub fn skipping_has_one_answer()
    ensures at_most_one { (input : List ℕ) (budget : Budget) →
        AtMostOne (Skips input budget) (SkippingRejects input budget) }
    ensures some { (input : List ℕ) (budget : Budget) →
        IsBytes input → SomeAnswer (Skips input budget) (SkippingRejects input budget) }
    ensures computes { (input : List ℕ) (budget : Budget) (t : Tree) (rest : List ℕ) →
        Skips input budget t rest → skip budget input ≡ Ok (t, rest) }
    ensures computes_error { (input : List ℕ) (budget : Budget) (e : InputError) (rest : List ℕ) →
        SkippingRejects input budget e rest → skip budget input ≡ Err (e, rest) }
    ensures means { (input : List ℕ) (budget : Budget) (t : Tree) (rest : List ℕ) →
        IsBytes input → skip budget input ≡ Ok (t, rest) → Skips input budget t rest }
    ensures means_error { (input : List ℕ) (budget : Budget) (e : InputError) (rest : List ℕ) →
        IsBytes input → skip budget input ≡ Err (e, rest) → SkippingRejects input budget e rest }
{}

/// Reading a value has at most one answer for each input and budget: the one value of which an
/// encoding that fits begins the input, or one error with one rest. The plain program computes it.
/// An input of bytes has an answer, the one that the program computes.
pub fn reading_has_one_answer()
    ensures at_most_one { (input : List ℕ) (budget : Budget) →
        AtMostOne (DecodesTo input budget) (ReadingRejects input budget) }
    ensures some { (input : List ℕ) (budget : Budget) →
        IsBytes input → SomeAnswer (DecodesTo input budget) (ReadingRejects input budget) }
    ensures computes { (input : List ℕ) (budget : Budget) (v : Item) (rest : List ℕ) →
        DecodesTo input budget v rest → parse_value budget input ≡ Ok (v, rest) }
    ensures computes_error { (input : List ℕ) (budget : Budget) (e : InputError) (rest : List ℕ) →
        ReadingRejects input budget e rest → parse_value budget input ≡ Err (e, rest) }
    ensures means { (input : List ℕ) (budget : Budget) (v : Item) (rest : List ℕ) →
        IsBytes input → parse_value budget input ≡ Ok (v, rest) → DecodesTo input budget v rest }
    ensures means_error { (input : List ℕ) (budget : Budget) (e : InputError) (rest : List ℕ) →
        IsBytes input → parse_value budget input ≡ Err (e, rest) → ReadingRejects input budget e
        rest }
{}

/// Where skipping or reading fails, a value or its canonical encoding alone, goes by where it fails
/// in the parts of the item, however deep these nest.
pub fn errors_go_by_parts()
    ensures skipping { (input : List ℕ) (budget : Budget) (e : InputError) (rest : List ℕ) →
        SkippingRejects input budget e rest ↔ SkippingRejectsByParts input budget e rest }
    ensures reading { (input : List ℕ) (budget : Budget) (e : InputError) (rest : List ℕ) →
        ReadingRejects input budget e rest ↔ ReadingRejectsByParts input budget e rest }
    ensures canonical { (input : List ℕ) (budget : Budget) (e : InputError) (rest : List ℕ) →
        CanonicalRejects input budget e rest ↔ CanonicalRejectsByParts input budget e rest }
{}

/// What an error of skipping says of bytes that may still come: `Eof` stands on every proper prefix
/// of an item that fits, and only on a proper prefix of some item, and leaves nothing;
/// `DepthOverflow` says that no continuation fits the budget; the others that none is skipped under
/// any budget.
pub fn skipping_says_what_may_come()
    ensures prefix { (t : Tree) (prefix : List ℕ) (budget : Budget) →
        Loose t → CostFits (skip_cost t) budget → IsProperPrefix prefix (bytes t) → IsBytes prefix →
        (name : List ℕ) × (expect : Len) × SkippingRejects prefix budget (eof name expect) [] }
    ensures nothing_left { (input : List ℕ) (budget : Budget)
        (name : List ℕ) (expect : Len) (rest : List ℕ) →
        SkippingRejects input budget (eof name expect) rest → rest ≡ [] }
    ensures only_prefixes { (input : List ℕ) (budget : Budget)
        (name : List ℕ) (expect : Len) (rest : List ℕ) →
        IsBytes input → SkippingRejects input budget (eof name expect) rest →
        (t : Tree) × Loose t × IsBytes (bytes t) × IsProperPrefix input (bytes t) }
    ensures no_steps { (input more : List ℕ) (budget : Budget)
        (name rest : List ℕ) (t : Tree) (after : List ℕ) →
        SkippingRejects input budget (depth_overflow name) rest →
        ¬ (Skips (input ++ more) budget t after) }
    ensures never { (input more : List ℕ) (budget other : Budget)
        (e : InputError) (rest : List ℕ) (t : Tree) (after : List ℕ) →
        IsFinal e → SkippingRejects input budget e rest → ¬ (Skips (input ++ more) other t after) }
    ensures no_others { (input : List ℕ) (budget : Budget) (e : InputError) (rest : List ℕ) →
        SkippingRejects input budget e rest → MayReject e }
{}

/// What an error of reading a value says of bytes that may still come: `Eof` stands on every proper
/// prefix of an encoding that fits, and only on a proper prefix of an item whose strings join
/// chunks of their kind, and leaves nothing; `DepthOverflow` says that no continuation fits the
/// budget; the others that none is read under any budget.
pub fn reading_says_what_may_come()
    ensures prefix { (encoding : List ℕ) (v : Item) (steps : ℕ) (prefix : List ℕ)
        (budget : Budget) →
        Encodes encoding v steps → CostFits steps budget →
        IsProperPrefix prefix encoding → IsBytes prefix →
        (name : List ℕ) × (expect : Len) × ReadingRejects prefix budget (eof name expect) [] }
    ensures nothing_left { (input : List ℕ) (budget : Budget)
        (name : List ℕ) (expect : Len) (rest : List ℕ) →
        ReadingRejects input budget (eof name expect) rest → rest ≡ [] }
    ensures only_prefixes { (input : List ℕ) (budget : Budget)
        (name : List ℕ) (expect : Len) (rest : List ℕ) →
        IsBytes input → ReadingRejects input budget (eof name expect) rest →
        (t : Tree) × Loose t × Joins t × IsBytes (bytes t) × IsProperPrefix input (bytes t) }
    ensures no_steps { (input more : List ℕ) (budget : Budget)
        (name rest : List ℕ) (v : Item) (after : List ℕ) →
        ReadingRejects input budget (depth_overflow name) rest →
        ¬ (DecodesTo (input ++ more) budget v after) }
    ensures never { (input more : List ℕ) (budget other : Budget)
        (e : InputError) (rest : List ℕ) (v : Item) (after : List ℕ) →
        IsFinal e → ReadingRejects input budget e rest
        → ¬ (DecodesTo (input ++ more) other v after) }
    ensures no_others { (input : List ℕ) (budget : Budget) (e : InputError) (rest : List ℕ) →
        ReadingRejects input budget e rest → MayReject e }
{}

/// Reading back: where some encoding of a value fits a budget, its canonical encoding is read as
/// that value, whatever follows it. A value of the program whose canonical encoding fits is read
/// back with its bignums as tags.
pub fn canonical_encoding_reads_back()
    ensures same_value { (encoding : List ℕ) (v : Item) (steps : ℕ)
        (budget : Budget) (more : List ℕ) →
        IsItem v → Encodes encoding v steps → CostFits steps budget →
        DecodesTo (canonical_encoding v ++ more) budget v more }
    ensures tagged { (v : Item) (budget : Budget) (more : List ℕ) →
        IsItem v → CostFits (canonical_cost v) budget →
        DecodesTo (canonical_encoding v ++ more) budget (with_bignums v) more }
{}

/// Where a value is read, skipping takes the same bytes under the same budget.
pub fn skipping_takes_what_reading_takes()
    ensures { (input : List ℕ) (budget : Budget) (v : Item) (rest : List ℕ) →
        DecodesTo input budget v rest → (t : Tree) × Skips input budget t rest }
{}

/// Every value of the program is one that canonical encodings speak of: its integers, floats,
/// lengths and tags are in range, and its texts are UTF-8.
pub fn values_are_items(value: &Value)
    ensures { IsItem (view value.now) }
{
    in_range(value)
}

/// One encoding a value. A plain tree is canonical exactly where its bytes are the canonical
/// encoding of its value. What a canonical reading accepts is exactly the canonical encoding of a
/// value that reading gives and whose cost fits, with what follows it; and of two such values
/// exactly the equal ones have the same bytes.
pub fn canonical_trees_are_canonical_encodings()
    ensures tree { (t : Tree) → Plain t →
        (CanonicalShape t ↔ (bytes t ≡ canonical_encoding (value t))) }
    ensures accepts { (input : List ℕ) (budget : Budget) (v : Item) (rest : List ℕ) →
        DecodesCanonically input budget v rest
        ↔ (IsDecoded v × CostFits (canonical_cost v) budget ×
        (input ≡ canonical_encoding v ++ rest)) }
    ensures equal { (s t : List ℕ) (v w : Item) (c d : ℕ) →
        EncodesCanonically s v c → EncodesCanonically t w d → ((v ≡ w) ↔ (s ≡ t)) }
{}

/// An input that `decode_whole` accepts as a `Value` is an encoding of the value, and one that it
/// accepts as `Canonical` is the canonical encoding. Two inputs of the latter are equal exactly
/// where their values are.
pub fn whole_inputs_are_encodings()
    ensures value { (xs : List ℕ) (v : Value) →
        (IsWhole value_format.reads xs v ↔ DecodesTo xs (Some limit) (view v) []) }
    ensures canonical { (xs : List ℕ) (v : Canonical) →
        (IsWhole canonical_format.reads xs v ↔ (IsDecoded (view v.0)
        × (canonical_cost (view v.0) ≤ limit) × (xs ≡ canonical_encoding (view v.0)))) }
    ensures equal { (s t : List ℕ) (v w : Canonical) → IsWhole canonical_format.reads s v
        → IsWhole canonical_format.reads t w → ((view v.0 ≡ view w.0) ↔ (s ≡ t)) }
{}

/// Any two lawful readers with the same bytes to come and the same budget get the same answer of
/// `Value::decode`, of `IgnoredAny::decode` and of `Canonical::decode`: equal values, or one error
/// with the same fields, and the same bytes are left. A call in which the reader failed or memory
/// was refused says nothing.
pub fn readers_are_answered_alike<E, F>()
    ensures reading { (xs : List ℕ) (old new other after : View) (r : Result Value (DecodeError E))
        (s : Result Value (DecodeError F)) → IsBytes xs → old.known ≡ Some xs →
        other.known ≡ Some xs → old.budget ≡ other.budget →
        AllReads old new r → ExactReads old new r → AllReads other after s →
        ExactReads other after s → SameAnswer (λ v w. view v ≡ view w) new after r s }
    ensures skipping { (xs : List ℕ) (old new other after : View)
        (r : Result IgnoredAny (DecodeError E)) (s : Result IgnoredAny (DecodeError F)) →
        IsBytes xs → old.known ≡ Some xs → other.known ≡ Some xs → old.budget ≡ other.budget →
        AllSkips old new r → ExactSkips old new r → AllSkips other after s →
        ExactSkips other after s → SameAnswer (λ _ _. Unit {0}) new after r s }
    ensures canonical { (xs : List ℕ) (old new other after : View)
        (r : Result Canonical (DecodeError E)) (s : Result Canonical (DecodeError F)) →
        old.known ≡ Some xs → other.known ≡ Some xs → old.budget ≡ other.budget →
        Decodes canonical_format old new r → OnlyCanonical old new r →
        AllCanonical other after s → ExactCanonical other after s →
        SameAnswer (λ v w. view v.0 ≡ view w.0) new after r s }
{}
