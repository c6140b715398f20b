//! Tables of rows: a row a line.

macro_rules! table {
    ($($row:tt)*) => { &[$($row)*] };
}

pub(crate) use table;
