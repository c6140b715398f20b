//! Parts of a value, as a described struct has them of its fields.
ghost use Rattle.std.specs.Prelude.{◌≡◌, string_bytes};
ghost use Rattle.cbor4ii_tree.specs.Basis.View.{view};
ghost use Rattle.cbor4ii.specs.Places.{put_only};
ghost use Rattle.cbor4ii_examples.specs.Told.{MakesTold, number_at, text_at, the_one};

use cbor4ii::Value;
use cbor4ii::error::StaticStr;
use cbor4ii::serde::{Single, Unmade};
use std::alloc::Global;

/// The number that a value is, or these words.
pub(crate) fn number_of(words: StaticStr, value: &Value) -> Result<u64, Unmade>
    ensures { MakesTold (λ n. n)
        (number_at 18446744073709551616 words.now (view value.now)) result }
{
    match value {
        Value::Integer(number) => match u64::try_from(*number) {
            Ok(number) => Ok(number),
            Err(_) => Err(Unmade::Rejected(words)),
        },
        _ => Err(Unmade::Rejected(words)),
    }
}

/// The text that a value is, or these words.
pub(crate) fn text_of(alloc: Global, words: StaticStr, value: &Value) -> Result<String, Unmade>
    ensures { MakesTold string_bytes (text_at words.now (view value.now)) result }
{
    match value {
        Value::Text(text) => {
            let text = String::from_str(alloc, text.as_str())?;
            Ok(text)
        }
        _ => Err(Unmade::Rejected(words)),
    }
}

/// What is there of a field after one value more.
pub(crate) fn one_more<T: Drop>(read: Single<T>, value: T) -> Single<T>
    ensures { result ≡ put_only value read }
{
    match read {
        Single::Absent => Single::Present(value),
        _ => Single::Repeated,
    }
}

/// The value of a field that came once, or these words.
pub(crate) fn the_one<T: Drop>(words: StaticStr, read: Single<T>) -> Result<T, Unmade>
    ensures { MakesTold (λ v. v) (the_one words.now read) result }
{
    match read {
        Single::Present(value) => Ok(value),
        _ => Err(Unmade::Rejected(words)),
    }
}
