//! The numbers of words, of calls and of replies, and processes as bits.

/// The number of a word, or 0.
pub(crate) fn number_of(word: Option<&str>) -> u64 {
    match word {
        Some(word) => word.parse::<u64>().unwrap_or(0),
        None => 0,
    }
}

/// What a call asks for: its name, its first two numbers and its last one, each 0 where it has none.
#[derive(Clone, Copy)]
pub(crate) struct Asked<'a> {
    pub(crate) name: &'a str,
    pub(crate) first: u64,
    pub(crate) second: u64,
    pub(crate) last: u64,
}

/// What the words of a call, at most three of them numbers, ask for.
pub(crate) fn asked_by(call: &str) -> Asked<'_> {
    let mut words = call.split(' ');
    let name = words.next().unwrap_or("");
    let first = number_of(words.next());
    let second = number_of(words.next());
    let third = words.next();
    let last = if third.is_some() {
        number_of(third)
    } else {
        second
    };
    Asked {
        name,
        first,
        second,
        last,
    }
}

/// The number that a reply is, or 0.
pub(crate) fn number_in_reply(reply: &str) -> u64 {
    number_of(reply.strip_prefix("num "))
}

/// The bit of a process.
pub(crate) fn bit_of(pid: usize) -> u32 {
    1_u32.checked_shl(pid.min(32) as u32).unwrap_or(0)
}
