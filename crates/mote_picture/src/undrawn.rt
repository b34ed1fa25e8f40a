//! Why the program draws nothing.

ghost use Rattle.std.specs.Prelude.{◌≡◌};
ghost use Rattle.mote_picture.specs.Statuses.{status_of};

use command_line::Failure;
use std::alloc::{AllocError, AllocFailed};
use std::fmt;

/// What the program reports instead of a picture.
#[derive(Drop)]
pub enum Undrawn {
    /// As other programs report it.
    Program(Failure<'static>),
    /// `--from` is above `--to`.
    BadRange(u64, u64),
    /// The line of this number, from 1 on, is no line of a transcript.
    NoLine(u64),
    /// A dump of a quiet transcript is asked for, which has no clock.
    Quiet,
    /// `--from` or `--to` with a quiet transcript.
    QuietRange,
}

impl Undrawn {
    /// The status that the program exits with.
    pub fn status(&self) -> u8
        ensures { result ≡ status_of self.now }
    {
        match self {
            Undrawn::Program(failure) => failure.status(),
            Undrawn::NoLine(_) | Undrawn::Quiet => 2,
            Undrawn::BadRange(_, _) | Undrawn::QuietRange => 64,
        }
    }
}

impl fmt::Display for Undrawn {
    ghost use Rattle.mote_picture.specs.Statuses.{text_of};

    ghost output = { text_of };

    fn fmt<W: fmt::Write>(&self, f: &mut fmt::Formatter<W>) -> fmt::Result {
        match self {
            Undrawn::Program(failure) => failure.fmt(f),
            Undrawn::BadRange(from, to) => write!(f, "--from {from} is above --to {to}"),
            Undrawn::NoLine(number) => write!(f, "line {number} is no line of a transcript"),
            Undrawn::Quiet => {
                f.write_str("a quiet transcript tells no clock: --vcd needs the whole one")
            }
            Undrawn::QuietRange => {
                f.write_str("a quiet transcript tells no clock for --from and --to")
            }
        }
    }
}

impl From<Failure<'static>> for Undrawn {
    ghost use Rattle.mote_picture.specs.declared.undrawn.Undrawn.TheVariants.{Program};

    ghost from_gives = { λ failure undrawn. undrawn ≡ Program failure };

    fn from(failure: Failure<'static>) -> Self {
        Undrawn::Program(failure)
    }
}

impl From<AllocError> for Undrawn {
    ghost use Rattle.mote_picture.specs.Statuses.{out_of_memory};

    ghost from_gives = { λ _ undrawn. undrawn ≡ out_of_memory };

    fn from(error: AllocError) -> Self {
        Undrawn::Program(Failure::from(error))
    }
}

impl<T: Drop> From<AllocFailed<T>> for Undrawn {
    ghost use Rattle.mote_picture.specs.Statuses.{out_of_memory};

    ghost from_gives = { λ _ undrawn. undrawn ≡ out_of_memory };

    fn from(error: AllocFailed<T>) -> Self {
        Undrawn::Program(Failure::from(error))
    }
}
