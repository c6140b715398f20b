//! What a test compares: what is not as wanted is the failure of the test, and its message names
//! both.
use std::fmt::Debug;
use std::test::Fail;

/// What was found is what is wanted.
///
/// It costs the proof of a test less than `assert_eq!` does. Several values are compared at once as
/// an array, or as a pair.
pub fn same<T: PartialEq + Debug + Drop>(found: T, want: T) -> Result<(), Fail> {
    if found == want {
        return Ok(());
    }
    Err(Fail::new(format_args!("{found:?} in the place of {want:?}")))
}
