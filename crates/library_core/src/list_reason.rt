//! Why a list of calls is none: its first part that is no call, or that it has too many.

ghost use Rattle.std.specs.Prelude.{◌≡◌, ◌<◌, ◌++◌, [], Some, length, IfNone, IfSome};
ghost use Rattle.call_lists.specs.Code.Lists.{behind_comma};
ghost use Rattle.library_core.specs.Code.Parts.{IsListReason};
ghost use Rattle.library_core.specs.Reasons.{IsCallPart, IsNoCallPart, IsOnePart, call_reason_of};

use crate::refusal::{CallReason, LineReason};
use call_lists::{Application, CallFault};

/// Why a part of a list is no call, which has this fault.
fn call_reason(fault: CallFault<'_>) -> CallReason
    ensures { result ≡ call_reason_of fault.entry }
{
    match fault {
        CallFault::TooFewWords(_) => CallReason::TooFewWords,
        CallFault::TooManyWords(_) => CallReason::TooManyWords,
        CallFault::NoNumber { .. } => CallReason::NoNumber,
        CallFault::NoHex { .. } => CallReason::NoHex,
        // The others but `NoCall` are no faults of a single call.
        CallFault::NoCall(_) | CallFault::NoApplication(_) | CallFault::TooManyCalls =>
            CallReason::NoName,
    }
}

/// A text's first part, and what follows the comma.
fn cut_at_comma(text: &str) -> (&str, Option<&str>)
    ensures parts { text.now ≡ result.0.now ++ behind_comma result.1 }
    ensures one { IsOnePart result.0.now }
    ensures fewer { IfSome result.1 (λ others. length others.now < length text.now) }
{
    match text.split_once(", ") {
        Some((part, others)) => (part, Some(others)),
        None => (text, None),
    }
}

/// Why a part of a list is no call, if it is none.
fn part_reason(part: &str) -> Option<CallReason>
    requires { IsOnePart part.now }
    ensures call { IfNone result (IsCallPart part.now) }
    ensures none { IfSome result (λ _. IsNoCallPart part.now) }
    ensures empty { part.now ≡ [] → result ≡ Some CallReason.NoName }
{
    if part.is_empty() {
        return Some(CallReason::NoName);
    }
    match Application::listed(part) {
        Ok(_) => None,
        Err(fault) => Some(call_reason(fault)),
    }
}

/// Why the list of this text is none.
pub fn list_reason(text: &str) -> LineReason
    ensures { IsListReason text.now result }
{
    // Two of its bytes follow each part but the last, so the parts can be counted.
    let _bytes = text.len();
    let mut index = 0;
    let mut left = Some(text);
    while let Some(parts) = left {
        let (part, others) = cut_at_comma(parts);
        if let Some(reason) = part_reason(part) {
            return LineReason::NoCall(index, reason);
        }
        index += 1;
        left = others;
    }
    LineReason::TooManyCalls
}
