//! The words of a line, and the numbers among them.

ghost use Rattle.std.specs.Prelude.{◌≡◌, ◌≤◌, IfErr, IfOk, IfSome, map};
ghost use Rattle.network_setup.specs.Lines.{number_said, span_of, span_said, words_of};
ghost use Rattle.network_setup.specs.declared.fault.LineFault.{LineFault};

use crate::fault::LineFault;
use mote_text::script::read_number;
use std::alloc::Global;

/// Motes whose numbers follow one another.
#[derive(Clone, Copy, Drop)]
pub(crate) struct Span {
    /// At least 1.
    pub(crate) first: u32,
    /// No less than the first.
    pub(crate) last: u32,
}

/// The words of a line, which single spaces part.
pub(crate) fn split_words<'a>(alloc: Global, line: &'a str) -> Result<Vec<&'a str>, LineFault>
    ensures words { IfOk result (λ words. map (λ word. word.now) words.items ≡ words_of line.now) }
    ensures memory { IfErr result (λ fault. fault ≡ LineFault.Memory) }
{
    let mut words = Vec::new(alloc);
    // Where memory is refused, `collect` would ask again, for less. Here that ends the run.
    for word in line.split(' ') {
        if words.push(word).is_err() {
            return Err(LineFault::Memory);
        }
    }
    Ok(words)
}

/// The number that is the only word.
pub(crate) fn only_number(words: &[&str]) -> Option<u32>
    ensures { result ≡ number_said (map (λ word. word.now) words.now) }
{
    match words {
        [number] => read_number(number.as_bytes()),
        _ => None,
    }
}

/// The span of two numbers, if they make one.
fn span_of(first: Option<u32>, last: Option<u32>) -> Option<Span>
    ensures span { result ≡ span_of first last }
    ensures order { IfSome result (λ span. (1 ≤ span.first) × (span.first ≤ span.last)) }
{
    match (first, last) {
        (Some(first), Some(last)) if 1 <= first && first <= last => Some(Span { first, last }),
        _ => None,
    }
}

/// The motes that a word says: `3` or `3..40`.
pub(crate) fn read_span(word: &str) -> Option<Span>
    ensures span { result ≡ span_said word.now }
    ensures order { IfSome result (λ span. (1 ≤ span.first) × (span.first ≤ span.last)) }
{
    match word.split_once("..") {
        Some((first, last)) => span_of(read_number(first.as_bytes()), read_number(last.as_bytes())),
        None => {
            let number = read_number(word.as_bytes());
            span_of(number, number)
        }
    }
}
