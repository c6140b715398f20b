//! Rows in short: tables of a row a line, and the texts of errors as they are printed.

/// A slice of these rows: a row a line, which `rt fmt` does not break.
#[macro_export]
macro_rules! table {
    ($($row:tt)*) => { &[$($row)*] };
}

/// `Eof`: what is missing is a number of bytes, or `Big`.
#[macro_export]
macro_rules! eof {
    ($name:literal, Big) => {
        concat!("Eof { name: \"", $name, "\", expect: Big }")
    };
    ($name:literal, $missing:literal) => {
        concat!("Eof { name: \"", $name, "\", expect: Small(", $missing, ") }")
    };
}

/// `Mismatch`, with the byte that was found.
#[macro_export]
macro_rules! mismatch {
    ($name:literal, $found:literal) => {
        concat!("Mismatch { name: \"", $name, "\", found: ", $found, " }")
    };
}

/// `Unsupported`, with the byte that was found.
#[macro_export]
macro_rules! unsupported {
    ($name:literal, $found:literal) => {
        concat!("Unsupported { name: \"", $name, "\", found: ", $found, " }")
    };
}

/// `RequireLength`, of the length that was found: an indefinite one, a number, or `Big`.
#[macro_export]
macro_rules! require_length {
    ($name:literal) => {
        concat!("RequireLength { name: \"", $name, "\", found: Indefinite }")
    };
    ($name:literal, Big) => {
        concat!("RequireLength { name: \"", $name, "\", found: Big }")
    };
    ($name:literal, $found:literal) => {
        concat!("RequireLength { name: \"", $name, "\", found: Small(", $found, ") }")
    };
}

/// `RequireUtf8`.
#[macro_export]
macro_rules! require_utf8 {
    ($name:literal) => {
        concat!("RequireUtf8 { name: \"", $name, "\" }")
    };
}

/// `RequireBorrowed`.
#[macro_export]
macro_rules! require_borrowed {
    ($name:literal) => {
        concat!("RequireBorrowed { name: \"", $name, "\" }")
    };
}

/// `DepthOverflow`: no step is left.
#[macro_export]
macro_rules! no_step {
    ($name:literal) => {
        concat!("DepthOverflow { name: \"", $name, "\" }")
    };
}

/// `LengthOverflow`, of a length: a number, or `Big`.
#[macro_export]
macro_rules! length_overflow {
    ($name:literal, Big) => {
        concat!("LengthOverflow { name: \"", $name, "\", found: Big }")
    };
    ($name:literal, $found:literal) => {
        concat!("LengthOverflow { name: \"", $name, "\", found: Small(", $found, ") }")
    };
}

/// `CastOverflow`.
#[macro_export]
macro_rules! cast_overflow {
    ($name:literal) => {
        concat!("CastOverflow { name: \"", $name, "\" }")
    };
}

/// `NotCanonical`.
#[macro_export]
macro_rules! not_canonical {
    ($name:literal) => {
        concat!("NotCanonical { name: \"", $name, "\" }")
    };
}
