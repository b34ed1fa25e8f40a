//! Why a text is no row.

ghost use Rattle.std.specs.Prelude.{◌≡◌};

use crate::fault::CallFault;
use std::alloc::{AllocError, AllocFailed};
use thiserror::Error;

/// Why a text is no row.
#[derive(Clone, Copy, Debug, Drop, Error)]
pub enum RowFault<'a> {
    /// No colon follows the stimulus.
    #[error("a row is a stimulus, a colon and its calls")]
    NoColon,
    #[error("{0} is no stimulus, as 136, TIMER 0, line, frame, callback, refused and any are")]
    NoStimulus(&'a str),
    /// A received value can't be the last word of this call.
    #[error("told can't be the last word of {0}")]
    TakesNoValue(&'a str),
    /// A call or a number is malformed.
    #[error(transparent)]
    Call(#[from] CallFault<'a>),
    #[error("out of memory")]
    OutOfMemory,
}

impl From<AllocError> for RowFault<'_> {
    ghost use Rattle.call_lists.specs.declared.rows.fault.RowFault.TheVariants.{OutOfMemory};

    ghost from_gives = { λ _ fault. fault ≡ OutOfMemory };

    fn from(_error: AllocError) -> Self {
        RowFault::OutOfMemory
    }
}

impl<T: Drop> From<AllocFailed<T>> for RowFault<'_> {
    ghost use Rattle.call_lists.specs.declared.rows.fault.RowFault.TheVariants.{OutOfMemory};

    ghost from_gives = { λ _ fault. fault ≡ OutOfMemory };

    fn from(_error: AllocFailed<T>) -> Self {
        RowFault::OutOfMemory
    }
}
