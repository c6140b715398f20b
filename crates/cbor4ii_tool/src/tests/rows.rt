//! What each command makes of an input.
use crate::command::Command;
use crate::fault::{Fault, Kind};

pub struct Row {
    pub command: Command,
    pub input: &'static [u8],
    pub written: &'static [u8],
    pub fault: Option<Fault>,
    /// How many bytes are taken, of what is rejected too.
    pub taken: u64,
    /// What standard error gets.
    pub errors: &'static [u8],
    /// Where each item begins in the input and in what is written, and where the run ends.
    pub items: &'static [(u64, usize)],
}

impl Row {
    /// What the run answers.
    pub fn outcome(&self) -> Result<(), Fault> {
        match self.fault {
            Some(fault) => Err(fault),
            None => Ok(()),
        }
    }

    /// What the run answers where the flush fails.
    pub fn unflushed(&self) -> Result<(), Fault> {
        Err(Fault {
            at: self.taken,
            kind: Kind::Write,
        })
    }

    /// Where the item stands that the byte at `at` of the input belongs to.
    pub fn item_read(&self, at: u64) -> (u64, usize) {
        let mut found = (0, 0);
        for item in self.items {
            if item.0 <= at {
                found = *item;
            }
        }
        found
    }

    /// Where the item stands that the byte at `at` of what is written belongs to.
    pub fn item_written(&self, at: usize) -> (u64, usize) {
        let mut found = (0, 0);
        for item in self.items {
            if item.1 <= at {
                found = *item;
            }
        }
        found
    }
}

/// Where a run stops, and why, if it does.
macro_rules! fault {
    () => { None };
    ($at:literal, $kind:ident) => { Some(Fault { at: $at, kind: Kind::$kind }) };
}

/// Rows: each has the fields of `Row` in their order.
macro_rules! rows {
    ($(($command:ident, $input:expr, $written:expr, $fault:expr, $taken:expr, $errors:expr,
        $items:expr),)*) => {
        &[$(Row {
            command: Command::$command,
            input: $input,
            written: $written,
            fault: $fault,
            taken: $taken,
            errors: $errors,
            items: $items,
        }),*]
    };
}

pub const ROWS: &[Row] = rows! {
    (Strict, b"\x05\x18\x05", b"\x05", fault!(1, NotCanonical), 3, b"fault at 1: NotCanonical\n",
        &[(0, 0), (1, 1)]),
    (Strict, b"\xa2\x01\x02\x01\x03\xc2\x41\x00\xf6", b"\xa2\x01\x02\x01\x03\xc2\x41\x00\xf6",
        fault!(), 9, b"", &[(0, 0), (5, 5), (8, 8), (9, 9)]),
    (Strict, b"\x00\xf7", b"\x00", fault!(1, NotCanonical), 2, b"fault at 1: NotCanonical\n",
        &[(0, 0), (1, 1)]),
    (Strict, b"\xf8\x14", b"", fault!(0, Unsupported), 0, b"fault at 0: Unsupported\n", &[(0, 0)]),
    (Canon, b"\x18\x05\x9f\x01\xff\x1c", b"\x05\x81\x01", fault!(5, Mismatch), 6,
        b"fault at 5: Mismatch\n", &[(0, 0), (2, 1), (5, 3)]),
    (Canon, b"", b"", fault!(), 0, b"", &[(0, 0)]),
    (Canon, b"\x18\x05\x9f\x01\xff", b"\x05\x81\x01", fault!(), 5, b"", &[(0, 0), (2, 1), (5, 3)]),
    (Canon, b"\x82\x01\x02\x5f\x80\xff", b"\x82\x01\x02", fault!(3, Mismatch), 5,
        b"fault at 3: Mismatch\n", &[(0, 0), (3, 3)]),
    (Canon, b"\x00\x9f\x5f\x80\xff\xff\x63\x61", b"\x00", fault!(1, Mismatch), 4,
        b"fault at 1: Mismatch\n", &[(0, 0), (1, 1)]),
    (Ints, b"\x18\x05\x1b\x00\x00\x00\x00\x00\x00\x00\x05\x38\x00\x39\x01\x00",
        b"\x05\x05\x20\x39\x01\x00", fault!(), 16, b"",
        &[(0, 0), (2, 1), (11, 2), (13, 3), (16, 6)]),
    (Ints, b"", b"", fault!(), 0, b"", &[(0, 0)]),
    (Ints, b"\x1b\xff\xff\xff\xff\xff\xff\xff\xff", b"\x1b\xff\xff\xff\xff\xff\xff\xff\xff",
        fault!(), 9, b"", &[(0, 0), (9, 9)]),
    (Ints, b"\x3b\x00\x00\x00\x00\x00\x00\x00\x17\x3a\x00\x00\x01\x00", b"\x37\x39\x01\x00",
        fault!(), 14, b"", &[(0, 0), (9, 1), (14, 4)]),
    (Ints, b"\x00\x40", b"\x00", fault!(1, Mismatch), 2, b"fault at 1: Mismatch\n",
        &[(0, 0), (1, 1)]),
    (Ints, b"\x20\x3f", b"\x20", fault!(1, Mismatch), 2, b"fault at 1: Mismatch\n",
        &[(0, 0), (1, 1)]),
    (Ints, b"\x1c", b"", fault!(0, Mismatch), 1, b"fault at 0: Mismatch\n", &[(0, 0)]),
    (Ints, b"\x05\x19\x01", b"\x05", fault!(1, Eof), 3, b"fault at 1: Eof\n", &[(0, 0), (1, 1)]),
    (Ints, b"\x1a\x00\x01\x00\x00\x1a\x00\x00\xff\xff\x18\x18\x18\x17\x19",
        b"\x1a\x00\x01\x00\x00\x19\xff\xff\x18\x18\x17", fault!(14, Eof), 15, b"fault at 14: Eof\n",
        &[(0, 0), (5, 5), (10, 8), (12, 10), (14, 11)]),
    (Lens, b"\x18\x05\x9f\x01\xff\x1c", b"2\n3\n", fault!(5, Mismatch), 5,
        b"fault at 5: Mismatch\n", &[(0, 0), (2, 2), (5, 4)]),
    (Lens, b"", b"", fault!(), 0, b"", &[(0, 0)]),
    (Lens, b"\x82\x01\x02\x5f\x80\xff", b"3\n3\n", fault!(), 6, b"", &[(0, 0), (3, 2), (6, 4)]),
    (Lens, b"\x00\x9f\x5f\x80\xff\xff\x63\x61", b"1\n5\n", fault!(6, Eof), 8, b"fault at 6: Eof\n",
        &[(0, 0), (1, 2), (6, 4)]),
    (Lens, b"\x4a\x00\x00\x00\x00\x00\x00\x00\x00\x00\x00\x01", b"11\n1\n", fault!(), 12, b"",
        &[(0, 0), (11, 3), (12, 5)]),
};
