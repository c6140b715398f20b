//! Reads and writes rows of each kind of value that takes memory, and says whether they hold.
//!
//! It is run in ordinary memory, and once for each of its allocations, with that one refused. The
//! word on standard input says which it is: `plain`, where no row may want memory, or `refused`,
//! where it is refused once. `lengths` tries the rows of false lengths alone, in ordinary memory,
//! and `levels` those of many levels, for which .ci/memory gives the stack. `value of a slice:` and
//! its like, with an item after it, reads that item alone.
//!
//! It writes one line. The exit status is 0 where each row holds, or the item was tried, and 1
//! otherwise.
#![tactic(auto)]

mod alone;
mod debug_text;
mod growth;
mod items;
mod lengths;
mod lent;
mod levels;
mod made;
mod named;
mod numbers;
mod of_slice;
mod own;
mod read;
mod tally;
mod typed;
mod values;
mod writing;
mod writing_items;
mod writing_typed;

use crate::alone::{Alone, read_alone};
use crate::tally::{Broken, Tally};
use std::alloc::Global;
use std::io::Read;
use std::process::ExitCode;

// No item that is read alone has more bytes, with the words in front of it.
const MOST_BYTES: usize = 1_024;

fn main(rt: HostRuntime) -> ExitCode {
    let mut input = [0; MOST_BYTES];
    let taken = rt.reader().read(&mut input).unwrap_or(0);
    let input = input.get(..taken).unwrap_or(b"");
    if let Some(Alone { error, left }) = read_alone(rt.alloc(), input) {
        let answer = error.as_ref().map_or("read", |text| text.as_str());
        let _ = println!(rt; "{answer}, {left} left");
        return ExitCode::from(0);
    }
    match outcome(rt.alloc(), input) {
        Ok(()) => {
            let _ = println!(rt; "each row holds");
            ExitCode::from(0)
        }
        Err(Broken { row, why }) => {
            let _ = println!(rt; "{row}: {why}");
            ExitCode::from(1)
        }
    }
}

// Tries the rows that the word names.
fn outcome(alloc: Global, word: &[u8]) -> Result<(), Broken> {
    let mut tally = Tally::new(alloc);
    let wanted = u64::from(word.starts_with(b"refused"));
    if word.starts_with(b"lengths") {
        lengths::false_lengths(&mut tally)?;
    } else if word.starts_with(b"levels") {
        levels::written(&mut tally)?;
    } else {
        all(&mut tally)?;
    }
    if tally.refusals() == wanted {
        return Ok(());
    }
    Err(Broken::new(
        "the rows together",
        "memory was refused more or less often than it has to be",
    ))
}

fn all(tally: &mut Tally) -> Result<(), Broken> {
    numbers::numbers(tally)?;
    items::items(tally)?;
    values::values(tally)?;
    lent::items(tally)?;
    lent::strings(tally)?;
    typed::types(tally)?;
    own::types(tally)?;
    writing_items::items(tally)?;
    writing_typed::typed(tally)?;
    growth::grown(tally)?;
    lengths::false_lengths(tally)
}
