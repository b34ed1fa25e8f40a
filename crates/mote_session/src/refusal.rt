//! Why a session refuses a call.

use thiserror::Error;

/// Why a call of a session was refused. Nothing was changed by it.
#[derive(Clone, Copy, Debug, PartialEq, Eq, Drop, Error)]
pub enum SessionRefusal {
    /// A turn awaits its call, which must be submitted first.
    #[error("a turn awaits its call")]
    AwaitsCall,
    /// No turn awaits a call.
    #[error("no turn awaits a call")]
    NoTurn,
    /// The mote was halted: nothing follows.
    #[error("the mote was halted")]
    Halted,
    /// There is pending work, which must be done before an input can be fed.
    #[error("the mote does not rest")]
    NotAtRest,
    /// A line of a script is malformed.
    #[error("a malformed line")]
    BadLine,
    /// Serial bytes or a frame of no bytes.
    #[error("an input of no bytes")]
    NoInput,
    /// 2^40 inputs were fed, or the clock would exceed 2^62.
    #[error("too many inputs")]
    TooManyInputs,
    /// No entry was made yet, or the last turn still awaits its call.
    #[error("no entry was made")]
    NoLine,
}
