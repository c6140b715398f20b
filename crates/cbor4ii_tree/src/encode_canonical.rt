//! Values that are encoded in one way, made and written.
ghost use Rattle.std.specs.Prelude.{◌≡◌, ◌≢◌, ◌++◌, ℕ, List, OnOk, OnErr, IfOk};
ghost use Rattle.cbor4ii_items.specs.Budget.{CostFits};
ghost use Rattle.cbor4ii_items.specs.Writing.{Writes};
ghost use Rattle.cbor4ii_tree.specs.Basis.Canonical.{canonical_encoding, canonical_cost};
ghost use Rattle.cbor4ii_tree.specs.Basis.Canonical.{with_bignums};
ghost use Rattle.cbor4ii_tree.specs.Calls.CanonicalShape.{DecodesCanonically, EncodesCanonically};
ghost use Rattle.cbor4ii_tree.specs.Basis.Cost.{Budget};
ghost use Rattle.cbor4ii_tree.specs.Basis.Item.{IsItem};
ghost use Rattle.cbor4ii_tree.specs.Basis.View.{view};

use crate::bignum::tag_bignums;
use crate::decode_canonical::Canonical;
use crate::value::{NoMemory, Value};
use cbor4ii_items::encode::Encode;
use cbor4ii_rw::error::EncodeError;
use cbor4ii_rw::write::Write;
use std::alloc::Global;

impl Canonical {
    /// The value as it is read back: each integer outside -2^64 to 2^64 - 1, at any depth, is the
    /// tag 2 or 3 that it is written as (RFC 8949 section 3.4.3). What is written of the answer is
    /// read as the very same value.
    ///
    /// Tags that stand in the value stay as they are: bignums with leading zeros, or within 64
    /// bits, too. Where each integer shall have one encoding, make them `Value::Integer` before.
    /// `deserialize_any` of `cbor4ii` reads them so.
    ///
    /// # Errors
    ///
    /// `NoMemory`: there was no memory for such a tag. A value without such integers takes none,
    /// and has no error.
    pub fn try_from_value(alloc: Global, value: Value) -> Result<Canonical, NoMemory>
        ensures value { IfOk result (λ canonical. view canonical.0 ≡ with_bignums (view value)) }
        ensures tagged { IfOk result (λ canonical.
            with_bignums (view canonical.0) ≡ view canonical.0) }
        ensures memory { OnErr result (with_bignums (view value) ≢ view value) }
    {
        let mut value = value;
        tag_bignums(alloc, &mut value)?;
        Ok(Canonical(value))
    }

    /// The value itself.
    pub fn into_inner(self) -> Value
        ensures { result ≡ self.0 }
    {
        self.0
    }
}

impl Encode for Canonical {
    ghost bytes = { λ c. canonical_encoding (view c.0) };

    /// Appends the value's canonical encoding, in the pushes of the value's own. `Canonical` reads
    /// it back, with bignums as tags.
    ///
    /// # Errors
    ///
    /// Those of `Value`.
    fn encode<W: Write>(&self, writer: &mut W) -> Result<(), EncodeError<W::Error>>
        ensures writes { Writes W.atomic (canonical_encoding (view self.now.0))
            (W.view writer.old) (W.view writer.new) result }
        ensures item { OnOk result (IsItem (view self.now.0)) }
        ensures encodes { OnOk result (EncodesCanonically
            (canonical_encoding (view self.now.0)) (with_bignums (view self.now.0))
            (canonical_cost (view self.now.0))) }
        ensures reads_back { OnOk result ((budget : Budget) (more : List ℕ) →
            CostFits (canonical_cost (view self.now.0)) budget →
            DecodesCanonically (canonical_encoding (view self.now.0) ++ more) budget
            (with_bignums (view self.now.0))
            more) }
    {
        self.0.encode(writer)
    }
}
