//! Why a type is not written.
ghost use Rattle.std.specs.Prelude.{◌≡◌};
ghost use Rattle.cbor4ii_describe.specs.declared.fault.Fault.TheVariants.{Memory};

use std::alloc::{AllocError, AllocFailed};
use std::error::Error;
use std::fmt;

/// What is wrong with a type, which its text says.
#[derive(Clone, Copy, Debug)]
pub enum Why {
    NoType,
    NotType,
    NoName,
    Unexpected,
    NotClosed,
    Parameters,
    FieldCount,
    TupleFields,
    Attribute,
    PlainText,
    DefaultValue,
    LeftOut,
    ParameterPlace,
    SameName,
    SameKey,
    MixedKeys,
    Integer,
    ArrayField,
    Borrows,
    BorrowedFields,
    EnumParameter,
    VariantCount,
    VariantItems,
    ItemTypes,
    VariantFields,
    VariantField,
    Module,
}

impl fmt::Display for Why {
    fn fmt<W: fmt::Write>(&self, f: &mut fmt::Formatter<W>) -> fmt::Result {
        f.write_str(match self {
            Why::NoType => "no type stands in the input",
            Why::NotType => "no struct and no enum begins here",
            Why::NoName => "a name should stand here",
            Why::Unexpected => "another sign should stand here",
            Why::NotClosed => "a text or a bracket is not closed",
            Why::Parameters => "only one parameter has a form, with no bound and not named S or W",
            Why::FieldCount => "a struct has one to twelve fields",
            Why::TupleFields => "a tuple struct has one field",
            Why::Attribute => "this attribute has no form here",
            Why::PlainText => "this text is not short plain ASCII with no backslash",
            Why::DefaultValue => "this default has no form: a number, a bool or None",
            Why::LeftOut => "only an Option may be left out",
            Why::ParameterPlace => "the parameter may stand alone, in Vec or in Option",
            Why::SameName => "this name is written for another one already",
            Why::SameKey => "two fields are written under one integer",
            Why::MixedKeys => "either each field has an integer key or none has",
            Why::Integer => "an integer of 64 bits should stand here",
            Why::ArrayField => "the fields of an array have no attributes",
            Why::Borrows => "a struct that borrows has no integer keys and leaves no field out",
            Why::BorrowedFields => "a struct that borrows has one to six fields",
            Why::EnumParameter => "an enum with a parameter has no form here",
            Why::VariantCount => "an enum has one to twelve variants",
            Why::VariantItems => "a variant holds one to three items",
            Why::ItemTypes => "of several items each is a number, a bool or a char",
            Why::VariantFields => "a variant has one to four fields",
            Why::VariantField => "a variant's field has no integer key and is not left out",
            Why::Module => "an enum says its module, such as module = \"city::kind\"",
        })
    }
}

/// Why nothing is written, which its text says.
#[derive(Clone, Copy, Debug)]
pub enum Fault {
    Memory,
    Read,
    NotText,
    /// The input has a form that is not written.
    Refused {
        /// The line, counted from 1.
        line: u32,
        why: Why,
    },
}

impl fmt::Display for Fault {
    fn fmt<W: fmt::Write>(&self, f: &mut fmt::Formatter<W>) -> fmt::Result {
        match self {
            Fault::Memory => write!(f, "no memory was found"),
            Fault::Read => write!(f, "the input cannot be read"),
            Fault::NotText => write!(f, "the input is not UTF-8"),
            Fault::Refused { line, why } => write!(f, "line {line}: {why}"),
        }
    }
}

impl Error for Fault {}

impl From<AllocError> for Fault {
    ghost from_gives = { λ _ fault. fault ≡ Memory };

    fn from(_error: AllocError) -> Fault {
        Fault::Memory
    }
}

impl<T: Drop> From<AllocFailed<T>> for Fault {
    ghost from_gives = { λ _ fault. fault ≡ Memory };

    fn from(_error: AllocFailed<T>) -> Fault {
        Fault::Memory
    }
}

/// What is taken or made, or why it is not.
pub type OrFault<T> = Result<T, Fault>;

/// The fault of this line.
pub fn refused<T>(line: u32, why: Why) -> OrFault<T>
    ensures { result ≡ Err (Fault.Refused line why) }
{
    Err(Fault::Refused { line, why })
}
