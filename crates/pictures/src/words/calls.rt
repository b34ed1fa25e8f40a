//! What a process calls.

ghost use Rattle.std.specs.Prelude.{◌≡◌, ◌++◌, List, ℕ, string_bytes, IfOk};
ghost use Rattle.std.specs.List.{before_first};
ghost use Rattle.pictures.specs.Words as spec;

use crate::words::bytes::{push_bytes, push_printed};
use crate::words::stimuli::push_payload;
use std::alloc::{AllocError, Global};

/// Whether the last word of a call is bytes that go to memory.
fn ends_in_bytes(word: &str) -> bool
    ensures { result ≡ spec.ends_in_bytes word.now }
{
    matches!(word, "mmem-write" | "heap-write" | "memb-write")
}

/// Whether the last word of a call is what an event carries.
fn ends_in_payload(word: &str) -> bool
    ensures { result ≡ spec.ends_in_payload word.now }
{
    matches!(word, "post" | "post-synch" | "broadcast")
}

/// Appends the last word of a call with that name.
fn push_last(alloc: Global, out: &mut String, name: &str, last: &str) -> Result<(), AllocError>
    ensures { IfOk result (λ _. string_bytes out.new ≡ string_bytes out.old ++ spec.last_words name.now last.now) }
{
    if ends_in_payload(name) {
        return push_payload(alloc, out, last);
    }
    out.push_str(" ")?;
    if name == "print" {
        push_printed(alloc, out, last)
    } else if ends_in_bytes(name) {
        push_bytes(alloc, out, last)
    } else {
        out.push_str(last)
    }
}

/// The name of a call.
fn name_of(words: &str) -> &str
    ensures { result.now ≡ before_first spec.is_space words.now }
{
    match words.split_once(' ') {
        Some((name, _)) => name,
        None => words,
    }
}

/// Appends a call: its words, and bytes among them as text where they are text.
pub fn push_call(alloc: Global, out: &mut String, call: &str) -> Result<(), AllocError>
    ensures { IfOk result (λ _. (words : List ℕ) × spec.AreCallWords call.now words
        × (string_bytes out.new ≡ string_bytes out.old ++ words)) }
{
    let Some((front, last)) = call.rsplit_once(' ') else {
        return out.push_str(call);
    };
    out.push_str(front)?;
    push_last(alloc, out, name_of(front), last)
}
