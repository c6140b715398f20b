//! The errors of what is read: made, compared and shown.
use cbor4ii::serde::DecodeError;
use cbor4ii_rw::error as core_error;
use std::fmt::InlineText;
use std::test::Fail;

const FAILED: DecodeError<u8> = DecodeError::Core(core_error::DecodeError::Read(5));

#[test]
fn errors_are_reported(rt: HostRuntime) -> Result<(), Fail> {
    assert_eq!(rt; DecodeError::read(5u8), FAILED);
    assert_eq!(rt;
        DecodeError::from(core_error::DecodeError::Read(5u8)),
        FAILED
    );
    assert_eq!(rt; InlineText::<64>::of(&FAILED).as_str(), "Core(Read(5))");
    assert!(rt; DecodeError::<u8>::Custom("a") != FAILED);
    Ok(())
}

// Words for a person: the codec's, or the type's own.
fn explains(error: &DecodeError<u8>, words: &str) -> bool {
    InlineText::<64>::of(format_args!("{}", error.explain())).as_str() == words
}

#[test]
fn errors_are_explained(rt: HostRuntime) {
    let text = DecodeError::Core(core_error::DecodeError::RequireUtf8 { name: "str" });
    assert!(rt; explains(&text, "str is not UTF-8"));
    assert!(rt; explains(&FAILED, "the reader failed: 5"));
    assert!(rt;
        explains(
            &DecodeError::Custom("integer out of range"),
            "integer out of range"
        )
    );
}
