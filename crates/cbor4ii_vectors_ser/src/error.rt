//! The errors of what is written: made, compared and shown.
use cbor4ii_rw::error as core_error;
use cbor4ii_ser::error::EncodeError;
use std::fmt::InlineText;
use std::test::Fail;

const FAILED: EncodeError<u8> = EncodeError::Core(core_error::EncodeError::Write(1));

const REJECTED: EncodeError<u8> = EncodeError::Custom("text refused");

fn is_shown(error: &EncodeError<u8>, text: &str) -> bool {
    InlineText::<64>::of(error).as_str() == text
}

#[test]
fn errors(rt: HostRuntime) -> Result<(), Fail> {
    assert_eq!(rt; EncodeError::write(1u8), FAILED);
    assert_eq!(rt;
        EncodeError::from(core_error::EncodeError::Write(1u8)),
        FAILED
    );
    assert!(rt; is_shown(&FAILED, "Core(Write(1))"));
    assert!(rt; is_shown(&REJECTED, "Custom(\"text refused\")"));
    Ok(())
}
