//! The arguments.

ghost use Rattle.std.specs.Prelude.{◌≡◌, ◌≢◌, map, string_bytes, IfOk, IfErr};
ghost use Rattle.command_line.specs.Statuses.{out_of_memory};
ghost use Rattle.command_line.specs.declared.failure.Failure.{Failure as Refused};

use crate::failure::Failure;
use mote_types::fault::BootFault;
use std::alloc::Global;
use std::{env, io};

/// The arguments as texts.
///
/// # Errors
///
/// `Memory` where memory was refused.
pub fn texts_of<'a>(alloc: Global, words: &'a [String]) -> Result<Vec<&'a str>, Failure<'static>>
    ensures texts { IfOk result (λ texts. map (λ text. text.now) texts.items ≡ map string_bytes words.now) }
    ensures failure { IfErr result (λ failure. failure ≡ out_of_memory) }
{
    let mut texts = Vec::new(alloc);
    for word in words {
        texts.push(word.as_str())?;
    }
    Ok(texts)
}

/// The arguments, the program's name first.
///
/// # Errors
///
/// `Memory` where memory was refused, otherwise `NotText`.
pub fn words_of<R: AllocGlobal + env::Env>(rt: &R) -> Result<Vec<String>, Failure<'static>>
    ensures { IfErr result (λ failure. failure ≢ out_of_memory → failure ≡ Refused.NotText) }
{
    let arguments = env::args(rt).map_err(|error| match error.kind() {
        io::ErrorKind::OutOfMemory => Failure::from(BootFault::Memory),
        _ => Failure::NotText,
    })?;
    let mut words = Vec::new(rt.alloc());
    for word in arguments {
        words.push(word)?;
    }
    Ok(words)
}
