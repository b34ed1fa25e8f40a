//! Why a network did nothing.

use mote_session::refusal::SessionRefusal;
use thiserror::Error;

/// Why there is no network.
#[derive(Clone, Copy, Debug, PartialEq, Eq, Drop, Error)]
pub enum NetworkBootFault {
    /// A link isn't sound (`Link::is_sound`).
    #[error("bad link")]
    BadLink,
    /// Memory was refused.
    #[error("out of memory")]
    Memory,
}

/// Why no alarms are made.
#[derive(Clone, Copy, Debug, PartialEq, Eq, Drop, Error)]
pub enum AlarmsFault {
    /// Memory was refused, or there are more than 2^32.
    #[error("out of memory")]
    Memory,
}

/// Why a call was refused. Nothing has changed.
#[derive(Clone, Copy, Debug, PartialEq, Eq, Drop, Error)]
pub enum NetworkFault {
    /// The mote refused an input, or awaits the call of a turn.
    #[error("the mote refused")]
    Refused(SessionRefusal),
    /// No mote awaits a call.
    #[error("no turn")]
    NoTurn,
    /// A mote is at work.
    #[error("not at rest")]
    NotAtRest,
    /// No mote has this number.
    #[error("no such mote")]
    NoMote,
    /// The mote must get the time first: `catch_up`.
    #[error("behind")]
    Behind,
    /// Ticks are passed by `pass_time`.
    #[error("a tick")]
    IsTime,
    /// The clock would exceed 2^62.
    #[error("too long")]
    TooLong,
}
