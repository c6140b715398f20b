//! The program, over its arguments and its three streams.
ghost use Rattle.std.specs.Prelude.{◌≡◌, ◌≢◌, ◌⊎◌, Ok, None, IfOk, IfErr, IsErr};
ghost use Rattle.std.specs.Prelude.{IsOkAnd};
ghost use Rattle.std.specs.IoError.{error_kind};
ghost use Rattle.cbor4ii_rw.specs.View.{IfKnown};
ghost use Rattle.cbor4ii_rw.specs.Stream.{most_bytes, cut_known};
ghost use Rattle.cbor4ii_tool.specs.Run.{WantsMemory};
ghost use Rattle.cbor4ii_tool.specs.Program.{Names, NamesNone, EndsIn, MayEnd, Chooses};

use crate::arguments::command;
use crate::command::Command;
use crate::fault::{Fault, Kind, status};
use crate::run::run;
use cbor4ii::utils::{IoReader, IoWriter};
use std::alloc::Global;
use std::io::{self, BufReader, BufWriter, ErrorKind, Read, Write};

/// What standard error gets where the arguments name no command.
pub const USAGE: &str = "usage: cbor4ii_tool ints|canon|lens|strict";

/// The exit status where the arguments name no command.
pub const USAGE_STATUS: u8 = 2;

/// Runs the command that `words` name from `input` to `output`, and answers the exit status: 0, or
/// 1 after a fault, whose line goes to `errors`. Where `words` or a buffer found no memory, the
/// line is `fault at 0: OutOfMemory`, and nothing is read or written. Where the words name no
/// command, the usage line goes there, nothing is read or written, and the status is 2. An error of
/// `errors` itself is not reported.
pub fn program<R: Read + Drop, W: Write + Drop, E: Write>(
    alloc: Global,
    words: io::Result<Vec<String>>,
    input: R,
    output: W,
    errors: &mut E,
) -> u8
    ensures runs { IfOk words (λ words. (command : Command) → Names words.items command
        → EndsIn command (cut_known most_bytes (R.remaining input)) (W.contents output) result) }
    ensures usage { IfOk words (λ words. NamesNone words.items → result ≡ 2) }
    ensures no_text { IfErr words (λ error.
        (error_kind error ≢ ErrorKind.OutOfMemory) → result ≡ 2) }
    ensures memory { IfErr words (λ error.
        (error_kind error ≡ ErrorKind.OutOfMemory) → result ≡ 1) }
{
    let outcome = match chosen(words) {
        Ok(Some(command)) => stream(alloc, command, input, output),
        Ok(None) => {
            let _ = errors.writeln(USAGE);
            return USAGE_STATUS;
        }
        Err(fault) => Err(fault),
    };
    if let Err(fault) = outcome {
        let _ = errors.writeln(fault);
    }
    status(&outcome)
}

// Arguments that are no text name no command.
fn chosen(words: io::Result<Vec<String>>) -> Result<Option<Command>, Fault>
    ensures chooses { IfOk words (λ words. IsOkAnd result (Chooses words.items)) }
    ensures no_text { IfErr words (λ error.
        (error_kind error ≢ ErrorKind.OutOfMemory) → result ≡ Ok None) }
    ensures memory { IfErr words (λ error.
        (error_kind error ≡ ErrorKind.OutOfMemory) → IsErr result) }
    ensures at { IfErr result (λ fault. fault.at ≡ 0) }
    ensures kind { IfErr result (λ fault. fault.kind ≡ Kind.OutOfMemory) }
{
    match words {
        Ok(words) => Ok(command(&words)),
        Err(error) if error.kind() == ErrorKind::OutOfMemory => Err(Fault {
            at: 0,
            kind: Kind::OutOfMemory,
        }),
        Err(_) => Ok(None),
    }
}

// Each stream goes through a buffer. Where a buffer finds no memory, nothing is read or written.
fn stream<R: Read + Drop, W: Write + Drop>(
    alloc: Global,
    command: Command,
    input: R,
    output: W,
) -> Result<(), Fault>
    ensures runs { IfKnown (cut_known most_bytes (R.remaining input)) (λ bytes.
        MayEnd command bytes (W.contents output) result) }
    ensures memory { IfErr result (λ fault.
        WantsMemory command fault.kind ⊎ (fault.at ≡ 0)) }
{
    let (Ok(reader), Ok(writer)) = (BufReader::new(alloc, input), BufWriter::new(alloc, output))
    else {
        return Err(Fault {
            at: 0,
            kind: Kind::OutOfMemory,
        });
    };
    run(
        alloc,
        command,
        &mut IoReader::new(reader),
        &mut IoWriter::new(writer),
    )
}
