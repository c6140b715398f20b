//! The texts of errors, and how errors are compared.
use cbor4ii_rw::error::ArithmeticOverflow::{Overflow, Underflow};
use cbor4ii_rw::error::{DecodeError, EncodeError, Len, StaticStr};
use cbor4ii_vectors::compared::same;
use cbor4ii_vectors::{
    cast_overflow, eof, length_overflow, mismatch, no_step, not_canonical, require_borrowed,
    require_length, require_utf8, table, unsupported,
};
use std::fmt::{Debug, Display, InlineText};
use std::test::Fail;

const NAME: StaticStr = "str";

const UNDERFLOW: &str = "ArithmeticOverflow { name: \"str\", ty: Underflow }";

const OVERFLOW: &str = "ArithmeticOverflow { name: \"str\", ty: Overflow }";

const TEXTS: &[(DecodeError<u8>, &str)] = table! {
    (DecodeError::Read(3), "Read(3)"),
    (DecodeError::Mismatch { name: NAME, found: 64 }, mismatch!("str", 64)),
    (DecodeError::Unsupported { name: NAME, found: 255 }, unsupported!("str", 255)),
    (DecodeError::Eof { name: NAME, expect: Len::Small(2) }, eof!("str", 2)),
    (DecodeError::RequireLength { name: NAME, found: Len::Indefinite }, require_length!("str")),
    (DecodeError::RequireBorrowed { name: NAME }, require_borrowed!("str")),
    (DecodeError::RequireUtf8 { name: NAME }, require_utf8!("str")),
    (DecodeError::LengthOverflow { name: NAME, found: Len::Big }, length_overflow!("str", Big)),
    (DecodeError::CastOverflow { name: NAME }, cast_overflow!("str")),
    (DecodeError::ArithmeticOverflow { name: NAME, ty: Underflow }, UNDERFLOW),
    (DecodeError::ArithmeticOverflow { name: NAME, ty: Overflow }, OVERFLOW),
    (DecodeError::DepthOverflow { name: NAME }, no_step!("str")),
    (DecodeError::Custom { name: NAME, num: 7 }, "Custom { name: \"str\", num: 7 }"),
    (DecodeError::OutOfMemory, "OutOfMemory"),
    (DecodeError::NotCanonical { name: NAME }, not_canonical!("str")),
};

// Of an error both texts are the same.
fn has_text<T: Debug + Display>(error: &T, text: &str) -> Result<(), Fail> {
    let shown = InlineText::<64>::of(error);
    let reported = InlineText::<64>::of(format_args!("{error:?}"));
    same(shown.as_str(), text)?;
    same(reported.as_str(), text)
}

#[test]
fn errors_have_the_texts_of_debug() -> Result<(), Fail> {
    for (error, text) in TEXTS {
        has_text(error, text)?;
    }
    has_text(&DecodeError::from(3u8), "Read(3)")?;
    has_text(&EncodeError::from(3u8), "Write(3)")
}

// What an error says: whether it is an end of the input, its name, and the byte that was found.
type Said = (DecodeError<u8>, bool, Option<StaticStr>, Option<u8>);

const SAID: &[Said] = table! {
    (DecodeError::Read(3), false, None, None),
    (DecodeError::Mismatch { name: "u8", found: 64 }, false, Some("u8"), Some(64)),
    (DecodeError::Unsupported { name: "value", found: 255 }, false, Some("value"), Some(255)),
    (DecodeError::Eof { name: "str", expect: Len::Small(2) }, true, Some("str"), None),
    (DecodeError::RequireLength { name: "str", found: Len::Small(9) }, false, Some("str"), None),
    (DecodeError::RequireBorrowed { name: "bytes" }, false, Some("bytes"), None),
    (DecodeError::RequireUtf8 { name: "str" }, false, Some("str"), None),
    (DecodeError::LengthOverflow { name: "array", found: Len::Big }, false, Some("array"), None),
    (DecodeError::CastOverflow { name: "u8" }, false, Some("u8"), None),
    (DecodeError::ArithmeticOverflow { name: "a", ty: Overflow }, false, Some("a"), None),
    (DecodeError::DepthOverflow { name: "map" }, false, Some("map"), None),
    (DecodeError::Custom { name: "mine", num: 7 }, false, Some("mine"), None),
    (DecodeError::OutOfMemory, false, None, None),
    (DecodeError::NotCanonical { name: "canonical" }, false, Some("canonical"), None),
};

#[test]
fn errors_say_what_was_read() -> Result<(), Fail> {
    for (error, ends, name, found) in SAID {
        same(
            (error.is_eof(), error.name(), error.found()),
            (*ends, *name, *found),
        )?;
    }
    Ok(())
}

#[test]
fn lengths_beyond_two_bytes_are_big() -> Result<(), Fail> {
    same(
        [Len::new(65535), Len::new(65536)],
        [Len::Small(65535), Len::Big],
    )
}

fn eof(missing: usize) -> DecodeError<u8> {
    DecodeError::Eof {
        name: "u8",
        expect: Len::new(missing),
    }
}

#[test]
fn errors_of_reading_are_compared() -> Result<(), Fail> {
    let compared = [
        eof(1) == eof(1).clone()?,
        eof(1) != eof(2),
        eof(1) != DecodeError::Read(1),
        DecodeError::Read(1u8) != DecodeError::Read(2),
    ];
    same(compared, [true; 4])
}

#[test]
fn errors_of_writing_are_compared() -> Result<(), Fail> {
    let write = EncodeError::Write(1u8);
    same(
        [write == write.clone()?, write != EncodeError::Write(2)],
        [true; 2],
    )
}
