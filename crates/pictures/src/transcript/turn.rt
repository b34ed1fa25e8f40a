//! The turns of lines.

ghost use Rattle.std.specs.Prelude.{◌≡◌, ◌≤◌, ◌<◌, true, IfNone, IfSome};
ghost use Rattle.pictures.specs.Transcript.Code.{origin_in, words_in};
ghost use Rattle.pictures.specs.Transcript.Forms.{IsTurnLine};
ghost use Rattle.pictures.specs.Transcript.Lines.{origin_text, turn_text};
ghost use Rattle.pictures.specs.Transcript.Turns as spec;
ghost use Rattle.pictures.specs.declared.transcript.turn.Turn.{Turn};

use crate::transcript::forms::{Form, first_word, have_forms, number};

/// The origin of a stimulus.
#[derive(Clone, Copy, PartialEq, Eq, Drop)]
pub enum Origin {
    /// The event queue.
    Event,
    /// A call that delivers at once.
    Synch,
    /// A poll round.
    Poll,
    /// A callback timer.
    Callback,
    /// The call of the process before.
    Answer,
}

/// A line `PID ORIGIN STIMULUS -> CALL`.
#[derive(Clone, Copy, Drop)]
pub struct Turn<'a> {
    pub pid: usize,
    pub origin: Origin,
    /// The words of the stimulus.
    pub stimulus: &'a str,
    /// The words of the call.
    pub call: &'a str,
}

fn origin_of(word: &str) -> Option<Origin>
    ensures written { IfSome result (λ origin. word.now ≡ origin_text origin) }
    ensures whole { result ≡ origin_in word.now }
{
    match word {
        "event" => Some(Origin::Event),
        "synch" => Some(Origin::Synch),
        "poll" => Some(Origin::Poll),
        "callback" => Some(Origin::Callback),
        "answer" => Some(Origin::Answer),
        _ => None,
    }
}

/// Whether the words are a reply.
fn is_reply(text: &str) -> bool
    ensures { result ≡ spec.is_reply text.now }
{
    let (word, rest) = first_word(text);
    match word {
        "done" => have_forms(rest, &[]),
        "refused" | "num" | "wide" => have_forms(rest, &[Form::Number]),
        "flag" => have_forms(rest, &[Form::Flag]),
        "bytes" => have_forms(rest, &[Form::Bytes]),
        "stats" => have_forms(rest, &[Form::Number; 5]),
        _ => false,
    }
}

/// Whether the words are a stimulus of that origin.
fn is_stimulus(origin: Origin, text: &str) -> bool
    ensures { result ≡ spec.is_stimulus origin text.now }
{
    match origin {
        Origin::Event | Origin::Synch => have_forms(Some(text), &[Form::Number, Form::Payload]),
        Origin::Poll => text == "130 -",
        Origin::Callback => number(text).is_some(),
        Origin::Answer => is_reply(text),
    }
}

/// Whether the words are a call on processes, events, timers or the serial line.
#[tactic(auto, unfolding(crate::specs::Transcript::Turns::plain_forms))]
fn is_plain_call(word: &str, rest: Option<&str>) -> bool
    ensures { result ≡ spec.have_forms_of (spec.plain_forms word.now) (words_in rest.entry) }
{
    match word {
        "wait" | "exit" | "clock" | "alloc-event" => have_forms(rest, &[]),
        "poll"
        | "start"
        | "kill"
        | "is-running"
        | "timer-stop"
        | "timer-reset"
        | "timer-restart"
        | "timer-expired"
        | "callback-stop" => have_forms(rest, &[Form::Number]),
        "timer-set" | "callback-set" => have_forms(rest, &[Form::Number; 2]),
        "broadcast" => have_forms(rest, &[Form::Number, Form::Payload]),
        "post" | "post-synch" => have_forms(rest, &[Form::Number, Form::Number, Form::Payload]),
        "print" => have_forms(rest, &[Form::Bytes]),
        _ => false,
    }
}

/// Whether the words are a call on managed memory, the heap or frames.
#[tactic(auto, unfolding(crate::specs::Transcript::Turns::memory_forms))]
fn is_memory_call(word: &str, rest: Option<&str>) -> bool
    ensures { result ≡ spec.have_forms_of (spec.memory_forms word.now) (words_in rest.entry) }
{
    match word {
        "mmem-avail" | "heap-stats" | "packet-open" | "packet-done" | "packet-count" => {
            have_forms(rest, &[])
        }
        "mmem-free" | "heap-free" | "packet-send" => have_forms(rest, &[Form::Number]),
        "mmem-alloc" | "mmem-copy" | "heap-alloc" | "heap-realloc" | "packet-read" => {
            have_forms(rest, &[Form::Number; 2])
        }
        "mmem-read" | "heap-read" => have_forms(rest, &[Form::Number; 3]),
        "mmem-write" | "heap-write" => {
            have_forms(rest, &[Form::Number, Form::Number, Form::Bytes])
        }
        _ => false,
    }
}

/// Whether the words are a call on pools and their lists.
#[tactic(auto, unfolding(crate::specs::Transcript::Turns::pool_forms))]
fn is_pool_call(word: &str, rest: Option<&str>) -> bool
    ensures { result ≡ spec.have_forms_of (spec.pool_forms word.now) (words_in rest.entry) }
{
    match word {
        "memb-alloc" | "memb-num-free" | "list-pop" | "list-chop" | "list-head" | "list-length" =>
            have_forms(rest, &[Form::Number]),
        "memb-free" | "list-add" | "list-push" | "list-remove" | "list-next" => {
            have_forms(rest, &[Form::Number; 2])
        }
        "list-insert" => have_forms(rest, &[Form::Number; 3]),
        "memb-read" => have_forms(rest, &[Form::Number; 4]),
        "memb-write" => {
            have_forms(
                rest,
                &[Form::Number, Form::Number, Form::Number, Form::Bytes],
            )
        }
        _ => false,
    }
}

/// Whether the words are a call.
fn is_call(text: &str) -> bool
    ensures { result ≡ spec.is_call text.now }
{
    let (word, rest) = first_word(text);
    is_plain_call(word, rest) || is_memory_call(word, rest) || is_pool_call(word, rest)
}

/// The turn of a line, if it is one: a process from 4 to 19, its stimulus, and its call.
#[tactic(auto, unfolding(crate::specs::Transcript::Turns::is_turn))]
pub fn read_turn(line: &str) -> Option<Turn<'_>>
    ensures process { IfSome result (λ turn. (4 ≤ turn.pid) × (turn.pid < 20)) }
    ensures written { IfSome result (λ turn. line.now ≡ turn_text turn) }
    ensures form { IfSome result (λ turn. spec.is_turn turn ≡ true) }
    ensures first { IfSome result (λ turn. IsTurnLine line.now turn) }
    ensures none { IfNone result ((turn : Turn) → IsTurnLine line.now turn → ⊥) }
{
    let (front, call) = line.split_once(" -> ")?;
    let (pid, rest) = front.split_once(' ')?;
    let (origin, stimulus) = rest.split_once(' ')?;
    let pid = number(pid)?;
    if pid < 4 || pid > 19 {
        return None;
    }
    let origin = origin_of(origin)?;
    if is_stimulus(origin, stimulus) && is_call(call) {
        Some(Turn {
            pid: pid as usize,
            origin,
            stimulus,
            call,
        })
    } else {
        None
    }
}
