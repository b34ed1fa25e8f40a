//! Why there was no run.

ghost use Rattle.std.specs.Prelude.{◌≡◌};
ghost use Rattle.library_core.specs.Reasons.{call_of_list, call_reason_number, line_reason_number, size_reason_number};

use std::alloc::{AllocError, AllocFailed};

/// Why words are no call.
#[derive(Clone, Copy, Debug, Drop)]
pub enum CallReason {
    /// No call has this name.
    NoName,
    TooFewWords,
    TooManyWords,
    /// A word is no number, or one out of its range.
    NoNumber,
    /// A word is no hex, or has too many bytes.
    NoHex,
}

/// Why a line is no application.
#[derive(Clone, Copy, Debug, Drop)]
pub enum LineReason {
    /// No application has this name.
    NoName,
    /// A part of its list is no call, the first such: its number, from 0 on.
    NoCall(usize, CallReason),
    /// Each part of its list is a call, and they are more than 128.
    TooManyCalls,
}

/// The first size with which no mote boots.
#[derive(Clone, Copy, Debug, Drop)]
pub enum SizeReason {
    Mmem,
    Heap,
    Header,
    Quota,
    /// Each size is good by itself, but the quotas of the applications and of the frames exceed managed memory.
    AllQuotas,
}

/// Why there was no run.
#[derive(Clone, Copy, Debug, Drop)]
pub enum Refusal {
    /// The applications' lines are no UTF-8.
    NotText,
    /// A line names no application: its number, from 0 on.
    NoApplication(u32, LineReason),
    /// There are more than 16 applications.
    TooManyApplications,
    /// No mote boots with these sizes.
    BadSizes(SizeReason),
    OutOfMemory,
}

impl CallReason {
    /// The number that C gets.
    pub fn number(self) -> u32
        ensures { result ≡ call_reason_number self }
    {
        match self {
            CallReason::NoName => 7,
            CallReason::TooFewWords => 8,
            CallReason::TooManyWords => 9,
            CallReason::NoNumber => 10,
            CallReason::NoHex => 11,
        }
    }
}

impl LineReason {
    /// The number that C gets.
    pub fn number(self) -> u32
        ensures { result ≡ line_reason_number self }
    {
        match self {
            LineReason::NoName => 6,
            LineReason::NoCall(_, reason) => reason.number(),
            LineReason::TooManyCalls => 12,
        }
    }

    /// The part of the list that is no call, from 0 on; otherwise 0.
    pub fn call(self) -> usize
        ensures { result ≡ call_of_list self }
    {
        match self {
            LineReason::NoCall(call, _) => call,
            LineReason::NoName | LineReason::TooManyCalls => 0,
        }
    }
}

impl SizeReason {
    /// The number that C gets.
    pub fn number(self) -> u32
        ensures { result ≡ size_reason_number self }
    {
        match self {
            SizeReason::Mmem => 1,
            SizeReason::Heap => 2,
            SizeReason::Header => 3,
            SizeReason::Quota => 4,
            SizeReason::AllQuotas => 5,
        }
    }
}

impl From<AllocError> for Refusal {
    ghost use Rattle.std.specs.Prelude.{◌≡◌};
    ghost use Rattle.library_core.specs.declared.refusal.Refusal.TheVariants.{OutOfMemory};

    ghost from_gives = { λ _ refusal. refusal ≡ OutOfMemory };

    fn from(_error: AllocError) -> Self {
        Refusal::OutOfMemory
    }
}

impl<T: Drop> From<AllocFailed<T>> for Refusal {
    ghost use Rattle.std.specs.Prelude.{◌≡◌};
    ghost use Rattle.library_core.specs.declared.refusal.Refusal.TheVariants.{OutOfMemory};

    ghost from_gives = { λ _ refusal. refusal ≡ OutOfMemory };

    fn from(_error: AllocFailed<T>) -> Self {
        Refusal::OutOfMemory
    }
}
