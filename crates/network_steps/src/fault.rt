//! Why a network did nothing.

ghost use Rattle.std.specs.Prelude.{◌≡◌};
ghost use Rattle.network_steps.specs.Refusals.{fault_of};

use mote_session::refusal::SessionRefusal;
use network_session::fault::NetworkFault;
use thiserror::Error;

/// Why a call was refused.
#[derive(Clone, Copy, Debug, PartialEq, Eq, Drop, Error)]
pub enum StepsFault {
    /// As a mote refuses; `Halted` where the last input has taken all its rounds.
    #[error("refused")]
    Refused(SessionRefusal),
    /// The motes were started.
    #[error("started")]
    IsStarted,
    /// There are as many links as there can be.
    #[error("no room")]
    NoRoom,
    /// A link isn't sound, or leads from or to a mote that doesn't exist.
    #[error("bad link")]
    BadLink,
    /// Memory was refused.
    #[error("out of memory")]
    Memory,
    /// No mote has this number.
    #[error("no such mote")]
    NoMote,
}

/// The same, of what the network refused.
pub(crate) fn fault_of(fault: NetworkFault) -> StepsFault
    ensures { result ≡ fault_of fault }
{
    match fault {
        NetworkFault::Refused(refusal) => StepsFault::Refused(refusal),
        NetworkFault::NoTurn => StepsFault::Refused(SessionRefusal::NoTurn),
        NetworkFault::NotAtRest => StepsFault::Refused(SessionRefusal::NotAtRest),
        NetworkFault::NoMote => StepsFault::NoMote,
        NetworkFault::Behind => StepsFault::Refused(SessionRefusal::NotAtRest),
        NetworkFault::IsTime => StepsFault::Refused(SessionRefusal::NoInput),
        NetworkFault::TooLong => StepsFault::Refused(SessionRefusal::TooManyInputs),
    }
}
