//! Calls with their replies.

use crate::transcript::{Turn, read_turn};

/// A call that wasn't refused.
#[derive(Clone, Copy)]
pub(crate) struct Accepted<'a> {
    /// The words of the call.
    pub(crate) call: &'a str,
    /// The words of the reply.
    pub(crate) reply: &'a str,
}

/// The call of a turn, where its reply is in the line of that number, and is no refusal.
pub(crate) fn accepted_call<'a>(
    lines: &[&'a str],
    turn: &Turn<'a>,
    number: Option<usize>,
) -> Option<Accepted<'a>> {
    let replied = read_turn(lines.get(number?)?)?;
    if replied.stimulus.starts_with("refused ") {
        return None;
    }
    Some(Accepted {
        call: turn.call,
        reply: replied.stimulus,
    })
}
