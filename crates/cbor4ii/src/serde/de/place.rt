//! Where the value of a field stands while a struct is read.
ghost use Rattle.std.specs.Prelude.{◌≡◌};
ghost use Rattle.cbor4ii.specs.Places.{Place as Standing, last_place, only_place};

use crate::serde::de::deserialize::Typed;

/// Where the value of a field stands while a struct is read.
pub trait Place: Sized {
    /// The field's value.
    type Value: Typed;

    // What stands there before any value was read, and what becomes of it with each.
    ghost place: { Standing Self.Value Self };

    /// No value was read.
    fn empty() -> Self
        ensures { result ≡ Self.place.none };

    /// This one was read.
    fn put(&mut self, value: Self::Value)
        ensures { self.new ≡ Self.place.put value self.old };
}

/// The last value counts.
impl<T: Typed + Drop> Place for Option<T> {
    type Value = T;

    ghost place = { last_place };

    #[inline(always)]
    fn empty() -> Option<T> {
        None
    }

    #[inline(always)]
    fn put(&mut self, value: T) {
        *self = Some(value);
    }
}

/// What was read of a field that may come once.
#[derive(Debug, PartialEq, Eq, Drop)]
pub enum Single<T> {
    /// It did not come.
    Absent,
    /// It came once.
    Present(T),
    /// It came more than once.
    Repeated,
}

/// It says whether one value came, or several.
impl<T: Typed + Drop> Place for Single<T> {
    type Value = T;

    ghost place = { only_place };

    #[inline(always)]
    fn empty() -> Single<T> {
        Single::Absent
    }

    #[inline(always)]
    fn put(&mut self, value: T) {
        let next = match self {
            Single::Absent => Single::Present(value),
            _ => Single::Repeated,
        };
        *self = next;
    }
}
