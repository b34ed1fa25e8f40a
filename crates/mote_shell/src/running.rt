//! From arguments to the status that a program exits with.

ghost use Rattle.std.specs.Prelude.{◌≡◌, ◌<◌, ◌-◌, ◌^◌, ⊤, false, map, string_bytes, IfOk, IfErr};
ghost use Rattle.mote_run.specs.RunText.{Exchanged};
ghost use Rattle.command_line.specs.Statuses.{out_of_memory};
ghost use Rattle.mote_shell.specs.NamedRuns.{HasRunNamed, IsStatusFor};

use crate::runner::Runner;
use crate::streams::{Input, Output};
use command_line::{Failure, Program, finish, texts_of};
use mote_types::FromName;
use mote_types::device::{ByteSink, ByteSource};
use std::io;

/// Runs the mote that the arguments name from the source to the sink, or reports why they name none. Returns the status
/// that the program exits with. The first argument is the program's name.
///
/// # Errors
///
/// `Memory` where memory was refused for the arguments.
pub fn run_to_status<
    T: FromName,
    P: Runner<T>,
    R: AllocGlobal + Print + Eprint,
    S: ByteSource,
    K: ByteSink,
>(
    rt: &R,
    program: Program,
    words: &[String],
    source: &mut S,
    sink: &mut K,
) -> Result<u8, Failure<'static>>
    requires unended { S.is_ended source.old ≡ false }
    requires countable_reads { S.failure_count source.old < 2 ^ 64 - 1 }
    requires countable_writes { K.failure_count sink.old < 2 ^ 64 - 1 }
    ensures status { IfOk result (IsStatusFor T.by_name (map string_bytes words.now) (λ outcome. S.is_named → K.is_named →
        Exchanged (S.taken source.old) (S.taken source.new) (S.is_ended source.new) (K.given sink.old) (K.given sink.new)
        (HasRunNamed T.by_name T.says (map string_bytes words.now) outcome))) }
    ensures failure { IfErr result (λ failure. failure ≡ out_of_memory) }
{
    let texts = texts_of(rt.alloc(), words)?;
    let outcome = P::run_words(rt.alloc(), program, texts.as_slice(), source, sink);
    Ok(finish(rt, program, outcome))
}

/// Runs a program with its arguments, from standard input to standard output, of which no contract names a byte. Returns the
/// status that it exits with. The first argument is the program's name.
///
/// # Errors
///
/// `Memory` where memory was refused for the arguments.
pub fn work<T: FromName, P: Runner<T>, R: AllocGlobal + io::Input + Print + Eprint>(
    rt: &R,
    program: Program,
    words: &[String],
) -> Result<u8, Failure<'static>>
    ensures status { IfOk result (IsStatusFor T.by_name (map string_bytes words.now) (λ _. ⊤)) }
    ensures failure { IfErr result (λ failure. failure ≡ out_of_memory) }
{
    let mut source = Input::new(rt.reader());
    let mut sink = Output::new(io::writer(rt));
    run_to_status::<T, P, R, _, _>(rt, program, words, &mut source, &mut sink)
}
