//! Values of a user's own types.

pub mod de;
pub mod described;
pub mod laws;

pub use cbor4ii_rw::error::{ErrorAt, WholeError};
pub use cbor4ii_rw::input::Input;
pub use cbor4ii_ser::bounded::BoundedCollect;
pub use cbor4ii_ser::collect::Collect;
pub use cbor4ii_ser::elements::{Answer, SerializeElements};
pub use cbor4ii_ser::error::EncodeError;
pub use cbor4ii_ser::key::Key;
pub use cbor4ii_ser::leaf::Leaf;
pub use cbor4ii_ser::listed::{FieldValue, FieldValues, IfSome};
pub use cbor4ii_ser::serialize::Serialize;
pub use cbor4ii_ser::serializer::Serializer;
pub use cbor4ii_ser::text::{Text, TextFault, TextWriter};
pub use cbor4ii_ser::write_all::{to_vec, to_writer};
pub use de::accessor::Accessor;
pub use de::cases::{Case, Cases, Choice, Holds, Otherwise, Unit};
pub use de::checked::{CheckedFrom, Unmade};
pub use de::deserialize::{Deserialize, Typed};
pub use de::deserializer::Deserializer;
pub use de::elements::{DeserializeElements, TypedElements};
pub use de::enum_accessor::EnumAccessor;
pub use de::error::DecodeError;
pub use de::fields::{Places, Values};
pub use de::first::{from_reader, from_slice, from_slice_whole, from_slice_whole_at};
pub use de::keys::ReadKey;
pub use de::place::{Place, Single};
pub use de::presence::{Once, Optional, Or, Presence, Presences, Required};
pub use de::some_accessor::SomeAccessor;
pub use de::variant_fields::{FieldWords, HoldsFields};
pub use described::{
    AsDescribed, Described, described_values_are_answered, described_values_are_read_back,
};
