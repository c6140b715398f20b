//! A newtype with a test: a number that is read only up to a limit.
ghost use Rattle.std.specs.Prelude.{◌≡◌, ◌≤◌, false};
ghost use Rattle.std.proofs.Common.{ap, refl};
ghost use Rattle.std.specs.Coded.{le_prop};
ghost use Rattle.cbor4ii.specs.Checked.{checked_codec, made_alike};
ghost use Rattle.cbor4ii.specs.CodecAgrees.{as_described};
ghost use Rattle.cbor4ii_examples.specs.Percent.{percent_words};

use cbor4ii::dec::Source;
use cbor4ii::enc::Write;
use cbor4ii::serde::{
    AsDescribed, CheckedFrom, DecodeError, Described, Deserialize, Deserializer, EncodeError,
    Serialize, Serializer, Typed, Unmade,
};
use std::alloc::Global;

/// A share in percent, at most 100.
#[derive(Debug, PartialEq, Eq, Drop)]
pub struct Percent {
    /// The number.
    pub value: u8,
    ghost at_most_100: { value ≤ 100 },
}

impl Serialize for Percent {
    ghost encoding = { ⟦<Percent as Described>⟧.codec.encoding };

    fn serialize<W: Write>(&self, ser: &mut Serializer<W>) -> Result<(), EncodeError<W::Error>> {
        self.value.serialize(ser)
    }
}

/// A number of at most 100. It takes no memory.
impl CheckedFrom<u8> for Percent {
    ghost words = { percent_words };

    ghost makes = { λ n p. n ≡ p.value };

    ghost takes_memory = { false };

    fn checked_from(alloc: Global, value: u8) -> Result<Percent, Unmade> {
        if value <= 100 {
            Ok(Percent { value })
        } else {
            Err(Unmade::Rejected("a percent is at most 100"))
        }
    }

    ghost fate = { λ n m same. ap percent_words same };
}

impl<S: Source> Deserialize<S> for Percent {
    fn deserialize(
        alloc: Global,
        de: &mut Deserializer<S>,
    ) -> Result<Percent, DecodeError<S::Error>> {
        de.deserialize_checked::<u8, Percent>(alloc)
    }
}

impl Typed for Percent {
    ghost promise = { ⟦<Percent as Described>⟧.codec.promise };
}

impl Described for Percent {
    ghost codec = { checked_codec percent_words (λ p. p.value)
        (λ p q. made_alike (λ n h. record { value = n; at_most_100 = h }) (λ n. le_prop) p.value
        q.value p.at_most_100 q.at_most_100)
        ⟦<u8 as Described>⟧.codec };
}

impl AsDescribed for Percent {
    ghost agrees = { as_described tt refl };
}

#[cfg(test)]
mod tests;
