//! What is known of a type that is read.

/// What its parameters are.
#[derive(Drop)]
pub enum Parameter {
    Nothing,
    /// A lifetime, with its quote.
    Lifetime(String),
    /// A type parameter.
    Generic(String),
}

/// What a field is written under.
#[derive(Drop)]
pub enum Key {
    Name(String),
    /// An integer that is not negative.
    Positive(u64),
    /// The integer less than zero by so much.
    Negative(u64),
}

/// What a field is that is missing.
#[derive(Drop)]
pub enum Presence {
    /// It has to be there.
    Required,
    /// It is this default, in code and in a ghost.
    Or { code: String, ghost_text: String },
    /// It is none, and none is not written.
    LeftOut,
}

/// Structs of no more fields than these are written by a call for their number, which a struct that
/// borrows may use. Others list their fields.
pub const MOST_CALLED: usize = 6;

/// Whether one of the fields is left out where it is none.
pub fn leaves_out(fields: &[Field]) -> bool {
    fields
        .iter()
        .any(|field| matches!(field.presence, Presence::LeftOut))
}

/// A field with a name.
#[derive(Drop)]
pub struct Field {
    /// What stands above it, and before its name.
    pub head: Head,
    pub name: String,
    pub its_type: String,
    /// What it is written under.
    pub key: Key,
    /// What is said where it is missing, or comes twice.
    pub words: String,
    /// What it is where it is missing.
    pub presence: Presence,
    /// Whether it may come once.
    pub once: bool,
    /// The line that its name stands on.
    pub line: u32,
}

impl Field {
    /// Whether something is said of it: it has to be there, or may come once.
    pub fn is_told(&self) -> bool {
        self.once || matches!(self.presence, Presence::Required)
    }
}

/// What stands above an item, and its visibility.
#[derive(Drop)]
pub struct Head {
    /// Comments and attributes, one a line.
    pub lines: Vec<String>,
    /// `pub` or the like, or nothing.
    pub visibility: String,
}

/// What the fields of a struct are written as.
#[derive(Clone, Copy, Debug, PartialEq, Eq)]
pub enum Form {
    /// A map, under names.
    Named,
    /// A map, under integers.
    Keyed,
    Array,
}

/// What a type holds.
#[derive(Drop)]
pub enum Shape {
    Fields {
        form: Form,
        fields: Vec<Field>,
    },
    /// One value: its visibility, its type, and the tag before it.
    Newtype {
        visibility: String,
        its_type: String,
        tag: Option<u64>,
    },
    /// Variants, and what is said of the name of another one.
    Variants {
        variants: Vec<Variant>,
        words: String,
    },
}

/// A variant of an enum.
#[derive(Drop)]
pub struct Variant {
    /// What stands above it.
    pub lines: Vec<String>,
    pub name: String,
    /// The name that is written.
    pub label: String,
    pub holds: Content,
    /// The line that its name stands on.
    pub line: u32,
}

/// What a variant holds.
#[derive(Drop)]
pub enum Content {
    Nothing,
    /// Values of these types, without names.
    Items(Vec<String>),
    Fields(Vec<Field>),
}

/// A struct or an enum.
#[derive(Drop)]
pub struct Described {
    /// What stands above it, and before its name.
    pub head: Head,
    pub name: String,
    /// The name that calls are told.
    pub label: String,
    pub parameter: Parameter,
    /// The path of the module that it stands in, of an enum.
    pub module: Option<String>,
    pub shape: Shape,
    /// The line that its name stands on.
    pub line: u32,
}
