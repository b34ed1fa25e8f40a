//! Why the program writes nothing.

ghost use Rattle.std.specs.Prelude.{◌≡◌};
ghost use Rattle.mote_picture.specs.NetworkStatuses.{status_of};

use command_line::Failure;
use mote_types::fault::BootFault;
use pictures::network::CaptureFault;
use std::alloc::{AllocError, AllocFailed};
use std::fmt;

/// What the program reports instead of a picture.
#[derive(Drop)]
pub(crate) enum Undrawn {
    /// As other programs report it.
    Program(Failure<'static>),
    /// `--from` is above `--to`.
    BadRange(u64, u64),
    /// The line of this number, from 1 on, of the script is malformed.
    BadScript(usize),
    /// The line of this number, from 1 on, isn't one of a network's transcript.
    NoLine(usize),
    /// A quiet transcript, which has no clock.
    Quiet,
    /// A frame was sent at a moment that a capture can't state.
    Late,
}

impl Undrawn {
    /// The status that the program exits with.
    pub(crate) fn status(&self) -> u8
        ensures { result ≡ status_of self.now }
    {
        match self {
            Undrawn::Program(failure) => failure.status(),
            Undrawn::BadRange(_, _) => 64,
            Undrawn::BadScript(_) | Undrawn::NoLine(_) | Undrawn::Quiet | Undrawn::Late => 2,
        }
    }
}

impl fmt::Display for Undrawn {
    ghost use Rattle.mote_picture.specs.NetworkStatuses.{text_of};

    ghost output = { text_of };

    fn fmt<W: fmt::Write>(&self, f: &mut fmt::Formatter<W>) -> fmt::Result {
        match self {
            Undrawn::Program(failure) => failure.fmt(f),
            Undrawn::BadRange(from, to) => write!(f, "--from {from} is above --to {to}"),
            Undrawn::BadScript(number) => write!(f, "line {number} of the script is malformed"),
            Undrawn::NoLine(number) => {
                write!(f, "line {number} is no line of a network's transcript")
            }
            Undrawn::Quiet => f.write_str("a quiet transcript has no clock"),
            Undrawn::Late => {
                f.write_str("a capture has no room for the clock: 2^32 seconds or more")
            }
        }
    }
}

impl From<Failure<'static>> for Undrawn {
    ghost use Rattle.mote_picture.specs.declared.network.undrawn.Undrawn.TheVariants.{Program};

    ghost from_gives = { λ failure undrawn. undrawn ≡ Program failure };

    fn from(failure: Failure<'static>) -> Self {
        Undrawn::Program(failure)
    }
}

impl From<AllocError> for Undrawn {
    ghost use Rattle.mote_picture.specs.NetworkStatuses.{out_of_memory};

    ghost from_gives = { λ _ undrawn. undrawn ≡ out_of_memory };

    fn from(error: AllocError) -> Self {
        Undrawn::Program(Failure::from(error))
    }
}

impl<T: Drop> From<AllocFailed<T>> for Undrawn {
    ghost use Rattle.mote_picture.specs.NetworkStatuses.{out_of_memory};

    ghost from_gives = { λ _ undrawn. undrawn ≡ out_of_memory };

    fn from(error: AllocFailed<T>) -> Self {
        Undrawn::Program(Failure::from(error))
    }
}

impl From<CaptureFault> for Undrawn {
    ghost use Rattle.mote_picture.specs.NetworkStatuses.{without_capture};

    ghost from_gives = { λ fault undrawn. undrawn ≡ without_capture fault };

    fn from(fault: CaptureFault) -> Self {
        match fault {
            CaptureFault::Late => Undrawn::Late,
            CaptureFault::Memory => Undrawn::Program(Failure::from(BootFault::Memory)),
        }
    }
}
