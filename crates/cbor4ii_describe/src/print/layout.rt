//! How lists, pairs and some lines are written. `rt fmt` lays out what is printed. It ends no line
//! in a ghost or its imports, and puts no call into a block: that is done here and in `uses`.
use std::alloc::{AllocError, Global};

/// What is made, or that no memory is found for it.
pub type Made<T> = Result<T, AllocError>;

/// How many columns a line has at most.
pub const COLUMNS: usize = 100;

// How wide pairs in a ghost are at most on one line, between their brackets.
const PAIRS: usize = 56;

/// How many columns a text takes.
pub fn width(text: &str) -> usize {
    text.chars().count()
}

/// The items with this text between them.
pub fn joined(alloc: Global, items: &[String], between: &str) -> Made<String> {
    let mut text = String::new(alloc);
    for (i, item) in items.iter().enumerate() {
        if i != 0 {
            text.push_str(between)?;
        }
        text.push_str(item.as_str())?;
    }
    Ok(text)
}

/// The items with commas between them.
pub fn list(alloc: Global, items: &[String]) -> Made<String> {
    joined(alloc, items, ", ")
}

/// The items as pairs, each of an item and what follows it, with `last` behind them.
pub fn pairs(alloc: Global, items: &[String], last: &str) -> Made<String> {
    nested(alloc, "(", items, last, ")")
}

/// The same with other brackets round each pair.
pub fn nested(
    alloc: Global,
    open: &str,
    items: &[String],
    last: &str,
    close: &str,
) -> Made<String> {
    let mut text = String::new(alloc);
    for item in items {
        write!(text, "{open}{item}, ")?;
    }
    text.push_str(last)?;
    for _ in items {
        text.push_str(close)?;
    }
    Ok(text)
}

/// The pairs of a ghost: behind the bracket of each wide one its line ends, so that it is broken.
pub fn ghost_pairs(alloc: Global, items: &[String], last: &str) -> Made<String> {
    let mut text = String::from_str(alloc, last)?;
    for item in items.iter().rev() {
        let inner = format!(in alloc; "{item}, {text}")?;
        let gap = if width(inner.as_str()) <= PAIRS {
            ""
        } else {
            "\n"
        };
        text = format!(in alloc; "({gap}{inner})")?;
    }
    Ok(text)
}

/// Appends a record of a ghost, of these fields: on one line, or where that has no room with the
/// end of the line behind its bracket, so that it is broken.
pub fn put_record(
    alloc: Global,
    out: &mut String,
    before: &str,
    fields: &[String],
    after: &str,
) -> Made<()> {
    let fields = joined(alloc, fields, "; ")?;
    let line = format!(in alloc; "{before}record {{ {fields} }}{after}")?;
    if width(line.as_str()) <= COLUMNS {
        write!(out, "{line}\n")
    } else {
        write!(out, "{before}record {{\n{fields} }}{after}\n")
    }
}

/// Appends a part of a ghost and its codec: on one line, or where that has no room on two.
pub fn put_with_codec(out: &mut String, begin: &str, codec: &str) -> Made<()> {
    let wide = width(begin).saturating_add(width(codec));
    let gap = if wide.saturating_add(9) <= COLUMNS {
        " "
    } else {
        "\n        "
    };
    write!(out, "        {begin}{gap}{codec}\n")
}

/// Appends an arm of a match in a method. What it gives stands in a block where one line has no
/// room.
pub fn put_arm(out: &mut String, pattern: &str, value: &str) -> Made<()> {
    let wide = width(pattern).saturating_add(width(value));
    if wide.saturating_add(17) <= COLUMNS {
        write!(out, "            {pattern} => {value},\n")
    } else {
        write!(out, "            {pattern} => {{ {value} }}\n")
    }
}
