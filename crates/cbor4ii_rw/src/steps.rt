//! How a reader counts its steps, for whoever writes one.
//!
//! A reader keeps the number of steps that it has left, and begins with `NESTING_LIMIT` of them or
//! with a number of its own. Its `step_in` and `step_out` are a call each.
ghost use Rattle.std.specs.Prelude.{◌≡◌, Some};
ghost use Rattle.cbor4ii_rw.specs.Reader.{StepsIn, step_back};

/// The steps that a reader begins with, if it is given no other number. RFC 8949 leaves the nesting
/// limit to the decoder (section 10).
pub const NESTING_LIMIT: usize = 256;

/// Takes one of the `steps` that are left, or answers false where there is none, and leaves it so.
/// It is all that `Source::step_in` has to do.
#[inline(always)]
pub fn step_in(steps: &mut usize) -> bool
    ensures { StepsIn (Some steps.old) (Some steps.new) result }
{
    if *steps == 0 {
        return false;
    }
    *steps -= 1;
    true
}

/// Gives one step back to the `steps` that are left. usize's greatest number stays. It is all that
/// `Source::step_out` has to do.
#[inline(always)]
pub fn step_out(steps: &mut usize)
    ensures { Some steps.new ≡ step_back (Some steps.old) }
{
    *steps = steps.saturating_add(1);
}
