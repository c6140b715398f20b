//! What the arguments ask for.
ghost use Rattle.std.specs.Prelude.{◌≡◌, ◌↔◌};
ghost use Rattle.cbor4ii_tool.specs.Program.{Names};

use crate::command::Command;
use std::rt::Env;
use std::{env, io};

/// The arguments, without the program's own name. An argument that is no text is an error.
pub fn words(rt: &(impl Env + AllocGlobal)) -> io::Result<Vec<String>> {
    let words: Vec<String> = env::args(rt)?.skip(1).collect(rt.alloc())?;
    Ok(words)
}

/// The command that the arguments `words` name; none where they are not one of its words alone.
pub fn command(words: &[String]) -> Option<Command>
    ensures ints { (result ≡ Some Command.Ints) ↔ Names words.now Command.Ints }
    ensures canon { (result ≡ Some Command.Canon) ↔ Names words.now Command.Canon }
    ensures lens { (result ≡ Some Command.Lens) ↔ Names words.now Command.Lens }
    ensures strict { (result ≡ Some Command.Strict) ↔ Names words.now Command.Strict }
{
    match words {
        [word] if word.as_str() == "ints" => Some(Command::Ints),
        [word] if word.as_str() == "canon" => Some(Command::Canon),
        [word] if word.as_str() == "lens" => Some(Command::Lens),
        [word] if word.as_str() == "strict" => Some(Command::Strict),
        _ => None,
    }
}
