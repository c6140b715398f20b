//! A reader or writer behind a `&mut` is one too.
use crate::long::FillLong;
use crate::read::{Read, Reference, Source};
use crate::write::Write;

/// Each call is that of the reader behind the reference, and so is what it reports.
impl<S: Source> Source for &mut S {
    type Error = S::Error;

    ghost view = { λ reader. S.view reader.now };

    ghost allows = { λ reader. S.allows reader.now };

    fn show(&mut self, want: usize) -> Result<&[u8], S::Error> {
        Source::show(&mut **self, want)
    }

    fn window(&self) -> usize {
        Source::window(&**self)
    }

    #[inline(always)]
    fn is_in_memory(&self) -> bool {
        Source::is_in_memory(&**self)
    }

    fn advance(&mut self, n: usize) {
        Source::advance(&mut **self, n)
    }

    fn step_in(&mut self) -> bool {
        Source::step_in(&mut **self)
    }

    fn step_out(&mut self) {
        Source::step_out(&mut **self)
    }

    ghost known_within_bound = { λ reader. S.known_within_bound reader.now };
}

impl<'de, R: Read<'de>> Read<'de> for &mut R {
    fn fill<'short>(&'short mut self, want: usize) -> Result<Reference<'de, 'short>, R::Error> {
        Read::fill(&mut **self, want)
    }
}

impl<R: FillLong> FillLong for &mut R {
    type Long = R::Long;

    ghost never_borrows = { R.never_borrows };

    fn fill_long(&mut self, want: usize) -> Result<Option<R::Long>, R::Error> {
        FillLong::fill_long(&mut **self, want)
    }
}

/// Each call is that of the writer behind the reference, and so is what it reports.
impl<W: Write> Write for &mut W {
    type Error = W::Error;

    ghost atomic = { W.atomic };

    ghost view = { λ writer. W.view writer.now };

    fn push(&mut self, input: &[u8]) -> Result<(), W::Error> {
        Write::push(&mut **self, input)
    }
}
