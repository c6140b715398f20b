//! A record of six fields, a type of its own.
ghost use Rattle.std.specs.Prelude.{◌∷◌, [], codes};
ghost use Rattle.cbor4ii_ser.specs.Item.{field, struct_encoding};

use cbor4ii::serde::{EncodeError, Serialize, Serializer};
use cbor4ii_items::types::F64;
use cbor4ii_rw::write::Write;

/// What a sensor measured.
#[derive(Debug, Drop)]
pub struct Record {
    /// When.
    pub time: u64,
    /// Where.
    pub place: String,
    /// Whether it is in order.
    pub good: bool,
    /// How warm it was, in thousandths of a degree.
    pub warmth: i64,
    /// How damp it was.
    pub damp: F64,
    /// The record before it.
    pub before: Option<u64>,
}

impl Serialize for Record {
    ghost encoding = { λ r. struct_encoding
        (field (codes "time") (⟦<u64 as Serialize>⟧.encoding r.time)
        ∷ field (codes "place") (⟦<String as Serialize>⟧.encoding r.place)
        ∷ field (codes "good") (⟦<bool as Serialize>⟧.encoding r.good)
        ∷ field (codes "warmth") (⟦<i64 as Serialize>⟧.encoding r.warmth)
        ∷ field (codes "damp") (⟦<F64 as Serialize>⟧.encoding r.damp)
        ∷ field (codes "before") (⟦<Option<u64> as Serialize>⟧.encoding r.before) ∷ []) };

    fn serialize<W: Write>(&self, ser: &mut Serializer<W>) -> Result<(), EncodeError<W::Error>> {
        ser.serialize_6_fields(
            "Record",
            "time",
            &self.time,
            "place",
            &self.place,
            "good",
            &self.good,
            "warmth",
            &self.warmth,
            "damp",
            &self.damp,
            "before",
            &self.before,
        )
    }
}
